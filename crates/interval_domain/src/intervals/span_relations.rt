//! Relations between spans.
ghost use Rattle.std.specs.Prelude.{◌≡◌, ◌≤ℤ◌, ◌+ℤ◌, ◌-ℤ◌, ◌-◌, ◌^◌, pos, negsuc, cond, Some};
ghost use Rattle.std.specs.Ordering.{int_eq};
ghost use Rattle.cc_base.specs.IntegerDomains.{IsNear};
ghost use Rattle.interval_domain.specs.Intervals.Relations.{can_hold, can_equal, can_differ, opposite, refined, without_end};

use crate::intervals::intervals::{Interval, between_or_empty};
use crate::intervals::span_arithmetic::{one_less, one_more};
use crate::intervals::spans::Span;
use cc_base::Rel;

/// Whether some number of `s` has the relation to some number of `t`.
pub fn can_hold(rel: Rel, s: Span, t: Span) -> bool
    ensures { result ≡ can_hold rel s t }
{
    match rel {
        Rel::Lt => s.lo < t.hi,
        Rel::Le => s.lo <= t.hi,
        Rel::Gt => t.lo < s.hi,
        Rel::Ge => t.lo <= s.hi,
        Rel::Eq => s.lo <= t.hi && t.lo <= s.hi,
        Rel::Ne => !(s.lo == t.hi && t.lo == s.hi),
    }
}

/// The relation that holds where `rel` does not.
pub fn opposite(rel: Rel) -> Rel
    ensures { result ≡ opposite rel }
{
    match rel {
        Rel::Lt => Rel::Ge,
        Rel::Le => Rel::Gt,
        Rel::Gt => Rel::Le,
        Rel::Ge => Rel::Lt,
        Rel::Eq => Rel::Ne,
        Rel::Ne => Rel::Eq,
    }
}

/// `a`, or one more where it is `n`.
fn raised(a: i128, n: i128) -> i128
    requires { a ≤ℤ pos (2 ^ 64) }
    ensures { result ≡ cond (int_eq a n) (a +ℤ pos 1) a }
{
    if a == n { a + 1 } else { a }
}

/// `a`, or one less where it is `n`.
fn lowered(a: i128, n: i128) -> i128
    requires { negsuc (2 ^ 64 - 1) ≤ℤ a }
    ensures { result ≡ cond (int_eq a n) (a -ℤ pos 1) a }
{
    if a == n { a - 1 } else { a }
}

/// `s` without `n`, where `n` is at an end.
fn without_end(s: Span, n: i128) -> Interval
    requires { IsNear (Some (s.lo, s.hi)) }
    ensures { result ≡ without_end s n }
{
    between_or_empty(raised(s.lo, n), lowered(s.hi, n))
}

/// The numbers of `s` that have the relation to some number of `t`.
pub fn refined(rel: Rel, s: Span, t: Span) -> Interval
    requires left { IsNear (Some (s.lo, s.hi)) }
    requires right { IsNear (Some (t.lo, t.hi)) }
    ensures { result ≡ refined rel s t }
{
    match rel {
        Rel::Lt => between_or_empty(s.lo, s.hi.min(one_less(t.hi))),
        Rel::Le => between_or_empty(s.lo, s.hi.min(t.hi)),
        Rel::Gt => between_or_empty(s.lo.max(one_more(t.lo)), s.hi),
        Rel::Ge => between_or_empty(s.lo.max(t.lo), s.hi),
        Rel::Eq => between_or_empty(s.lo.max(t.lo), s.hi.min(t.hi)),
        Rel::Ne if t.lo == t.hi => without_end(s, t.lo),
        Rel::Ne => Interval::Of(s),
    }
}
