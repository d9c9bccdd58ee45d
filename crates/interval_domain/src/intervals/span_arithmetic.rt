//! The operators on spans of numbers, each at an integer type.
ghost use Rattle.std.specs.Prelude.{◌≡◌, ◌≤ℤ◌, ◌+ℤ◌, ◌-ℤ◌, ◌<◌, ◌^◌, ℕ, ℤ, true, Some, FitsSigned, int_div, pos, negsuc, ◌-◌};
ghost use Rattle.std.specs.Int.{w128};
ghost use Rattle.cc_base.specs.IntegerTypes.{is_size, least_of, greatest_of};
ghost use Rattle.cc_base.specs.IntegerDomains.{IsNear};
ghost use Rattle.interval_domain.specs.Intervals.Spans.{between_or_empty};
ghost use Rattle.interval_domain.specs.Intervals.Arithmetic.{clamped, whole, wrapped, into, corners, least_of_four, greatest_of_four, met, sums, differences, quotients, quotients_by, without_zero, least_size, greatest_size, remainder, towards_zero, remainders, remainders_by, bits_in, with_bits, and_bound, or_bound, conjunctions, disjunctions, exclusives, counts, scaled_by, shifted_left, halved_by, shifted_right, is_single, are_single};

use crate::intervals::intervals::{Interval, between_or_empty};
use crate::intervals::spans::Span;
use cc_base::{IntType, Lattice};

/// The numbers from `lo` to `hi` that the type has.
pub fn clamped(kind: IntType, lo: i128, hi: i128) -> Interval
    requires { is_size kind.bytes ≡ true }
    ensures { result ≡ clamped kind lo hi }
{
    between_or_empty(lo.max(kind.least()), hi.min(kind.greatest()))
}

/// All numbers of the type.
pub fn whole(kind: IntType) -> Interval
    requires { is_size kind.bytes ≡ true }
    ensures { result ≡ whole kind }
{
    between_or_empty(kind.least(), kind.greatest())
}

/// The numbers from `lo` to `hi`, converted to the type.
pub fn wrapped(kind: IntType, lo: i128, hi: i128) -> Interval
    requires size { is_size kind.bytes ≡ true }
    requires lo_fits { FitsSigned w128 (lo -ℤ least_of kind) }
    requires hi_fits { FitsSigned w128 (hi -ℤ least_of kind) }
    ensures { result ≡ wrapped kind lo hi }
{
    if kind.block(lo) == kind.block(hi) {
        between_or_empty(kind.wrap(lo), kind.wrap(hi))
    } else {
        whole(kind)
    }
}

/// What the type makes of mathematical results from `lo` to `hi`.
pub fn into(kind: IntType, lo: i128, hi: i128) -> Interval
    requires size { is_size kind.bytes ≡ true }
    requires lo_fits { FitsSigned w128 (lo -ℤ least_of kind) }
    requires hi_fits { FitsSigned w128 (hi -ℤ least_of kind) }
    ensures { result ≡ into kind lo hi }
{
    if kind.signed {
        clamped(kind, lo, hi)
    } else {
        wrapped(kind, lo, hi)
    }
}

/// The least of the four numbers.
pub fn least_of_four(a: i128, b: i128, c: i128, d: i128) -> i128
    ensures { result ≡ least_of_four a b c d }
{
    a.min(b).min(c.min(d))
}

/// The greatest of the four numbers.
pub fn greatest_of_four(a: i128, b: i128, c: i128, d: i128) -> i128
    ensures { result ≡ greatest_of_four a b c d }
{
    a.max(b).max(c.max(d))
}

/// The least interval that has the four numbers.
pub fn hull_of_four(a: i128, b: i128, c: i128, d: i128) -> Interval
    ensures { result ≡ between_or_empty (least_of_four a b c d) (greatest_of_four a b c d) }
{
    between_or_empty(least_of_four(a, b, c, d), greatest_of_four(a, b, c, d))
}

/// The number after `n`, which is at most 2^64.
pub fn one_more(n: i128) -> i128
    requires { n ≤ℤ pos (2 ^ 64) }
    ensures { result ≡ n +ℤ pos 1 }
{
    n + 1
}

/// The number before `n`, which is at least -2^64.
pub fn one_less(n: i128) -> i128
    requires { negsuc (2 ^ 64 - 1) ≤ℤ n }
    ensures { result ≡ n -ℤ pos 1 }
{
    n - 1
}

/// Whether each of the two spans has one number.
pub fn are_single(s: Span, t: Span) -> bool
    ensures { result ≡ are_single s t }
{
    s.lo == s.hi && t.lo == t.hi
}

/// The numbers of an interval that the type has.
pub fn met(kind: IntType, x: Interval) -> Interval
    requires { is_size kind.bytes ≡ true }
    ensures { result ≡ met kind x }
{
    match x {
        Interval::Bottom => Interval::Bottom,
        Interval::Of(s) => clamped(kind, s.lo, s.hi),
    }
}

/// The sums of a number of `s` and one of `t`.
pub fn sums(kind: IntType, s: Span, t: Span) -> Interval
    requires size { is_size kind.bytes ≡ true }
    requires left { IsNear (Some (s.lo, s.hi)) }
    requires right { IsNear (Some (t.lo, t.hi)) }
    ensures { result ≡ sums kind s t }
{
    into(kind, s.lo + t.lo, s.hi + t.hi)
}

/// The differences of a number of `s` and one of `t`.
pub fn differences(kind: IntType, s: Span, t: Span) -> Interval
    requires size { is_size kind.bytes ≡ true }
    requires left { IsNear (Some (s.lo, s.hi)) }
    requires right { IsNear (Some (t.lo, t.hi)) }
    ensures { result ≡ differences kind s t }
{
    into(kind, s.lo - t.hi, s.hi - t.lo)
}
