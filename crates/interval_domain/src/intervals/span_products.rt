//! Products of spans.
ghost use Rattle.std.specs.Prelude.{◌≡◌, ◌*ℤ◌, true, false, cond, Some};
ghost use Rattle.std.specs.Int.{w128, saturate_signed};
ghost use Rattle.cc_base.specs.IntegerTypes.{is_size};
ghost use Rattle.cc_base.specs.IntegerDomains.{IsNear};
ghost use Rattle.interval_domain.specs.Numbers.TurnedNumbers.{one_block};
ghost use Rattle.interval_domain.specs.Intervals.Spans.{between_or_empty};
ghost use Rattle.interval_domain.specs.Intervals.Arithmetic.{clamped, whole, wrapped, products, least_of_four, greatest_of_four};

use crate::intervals::intervals::Interval;
use crate::intervals::span_arithmetic::{
    clamped, greatest_of_four, hull_of_four, least_of_four, whole,
};
use crate::intervals::spans::Span;
use crate::numbers::{Turned, are_one_block, turned_product};
use cc_base::{IntType, Lattice};

/// A product, moved to the nearest number of 128 bits.
fn clipped_product(a: i128, b: i128) -> i128
    ensures { result ≡ saturate_signed w128 (a *ℤ b) }
{
    a.saturating_mul(b)
}

/// The numbers of the type between the least and the greatest of four.
fn clamped_hull(kind: IntType, a: i128, b: i128, c: i128, d: i128) -> Interval
    requires { is_size kind.bytes ≡ true }
    ensures { result ≡ clamped kind (least_of_four a b c d) (greatest_of_four a b c d) }
{
    clamped(
        kind,
        least_of_four(a, b, c, d),
        greatest_of_four(a, b, c, d),
    )
}

fn signed_products(kind: IntType, s: Span, t: Span) -> Interval
    requires { is_size kind.bytes ≡ true }
    ensures { result ≡ clamped kind (least_of_four (s.lo *ℤ t.lo) (s.lo *ℤ t.hi) (s.hi *ℤ t.lo) (s.hi *ℤ t.hi)) (greatest_of_four (s.lo *ℤ t.lo) (s.lo *ℤ t.hi) (s.hi *ℤ t.lo) (s.hi *ℤ t.hi)) }
{
    let a = clipped_product(s.lo, t.lo);
    let b = clipped_product(s.lo, t.hi);
    let c = clipped_product(s.hi, t.lo);
    let d = clipped_product(s.hi, t.hi);
    clamped_hull(kind, a, b, c, d)
}

fn hull_of_rests(a: Turned, b: Turned, c: Turned, d: Turned) -> Interval
    ensures { result ≡ between_or_empty (least_of_four a.rest b.rest c.rest d.rest) (greatest_of_four a.rest b.rest c.rest d.rest) }
{
    hull_of_four(a.rest, b.rest, c.rest, d.rest)
}

fn hull_of_turned(kind: IntType, a: Turned, b: Turned, c: Turned, d: Turned) -> Interval
    requires { is_size kind.bytes ≡ true }
    ensures { result ≡ cond (one_block a.turns b.turns c.turns d.turns) (between_or_empty (least_of_four a.rest b.rest c.rest d.rest) (greatest_of_four a.rest b.rest c.rest d.rest)) (whole kind) }
{
    if are_one_block(a, b, c, d) {
        hull_of_rests(a, b, c, d)
    } else {
        whole(kind)
    }
}

fn unsigned_products(kind: IntType, s: Span, t: Span) -> Interval
    requires size { is_size kind.bytes ≡ true }
    requires unsigned { kind.signed ≡ false }
    requires left { IsNear (Some (s.lo, s.hi)) }
    requires right { IsNear (Some (t.lo, t.hi)) }
    ensures { result ≡ wrapped kind (least_of_four (s.lo *ℤ t.lo) (s.lo *ℤ t.hi) (s.hi *ℤ t.lo) (s.hi *ℤ t.hi)) (greatest_of_four (s.lo *ℤ t.lo) (s.lo *ℤ t.hi) (s.hi *ℤ t.lo) (s.hi *ℤ t.hi)) }
{
    let a = turned_product(kind, s.lo, t.lo);
    let b = turned_product(kind, s.lo, t.hi);
    let c = turned_product(kind, s.hi, t.lo);
    let d = turned_product(kind, s.hi, t.hi);
    hull_of_turned(kind, a, b, c, d)
}

/// The products of a number of `s` and one of `t`.
pub fn products(kind: IntType, s: Span, t: Span) -> Interval
    requires size { is_size kind.bytes ≡ true }
    requires left { IsNear (Some (s.lo, s.hi)) }
    requires right { IsNear (Some (t.lo, t.hi)) }
    ensures { result ≡ products kind s t }
{
    if kind.signed {
        signed_products(kind, s, t)
    } else {
        unsigned_products(kind, s, t)
    }
}
