//! Division, remainder and shifts of spans.
ghost use Rattle.std.specs.Prelude.{◌≡◌, ◌≤ℤ◌, ◌<ℤ◌, ◌+ℤ◌, ◌-ℤ◌, ◌*ℤ◌, neg_ℤ, ◌<◌, ◌-◌, ◌^◌, ◌⊎◌, ℕ, ℤ, true, ◌&&◌, cond, Some, FitsSigned, int_div, int_rem, int_lt, pos, negsuc};
ghost use Rattle.std.specs.Ordering.{int_eq};
ghost use Rattle.std.specs.Int.{w128, int_shr, int_min, int_max};
ghost use Rattle.cc_base.specs.IntegerTypes.{is_size, least_of, greatest_of};
ghost use Rattle.cc_base.specs.IntegerDomains.{IsNear};
ghost use Rattle.interval_domain.specs.Intervals.Spans.{interval_bounds, between_or_empty};
ghost use Rattle.interval_domain.specs.Numbers.SingleNumbers.{scaled, halved, ApartFromZero};
ghost use Rattle.interval_domain.specs.Intervals.Arithmetic.{corners, quotients, quotients_by, without_zero, least_size, greatest_size, remainder, towards_zero, remainders, remainders_by, is_single, counts, scaled_by, shifted_left, halved_by, shifted_right, IsApart, HasApartEnds, AreCounts, AreMultiplicands, clamped};

use crate::intervals::intervals::{Interval, between_or_empty};
use crate::intervals::span_arithmetic::{are_single, clamped, hull_of_four, into, met, one_less};
use crate::intervals::spans::Span;
use crate::numbers::{above_zero, below_zero, halved, quotient, rest, scaled};
use cc_base::{IntType, Lattice};

/// The quotients by the numbers of a span without zero.
fn quotients_by_span(s: Span, t: Span) -> Interval
    requires near { IsNear (Some (s.lo, s.hi)) }
    requires below_or_above { (t.hi <ℤ pos 0) ⊎ (pos 0 <ℤ t.lo) }
    ensures { result ≡ corners int_div s t }
{
    let a = quotient(s.lo, t.lo);
    let b = quotient(s.lo, t.hi);
    let c = quotient(s.hi, t.lo);
    let d = quotient(s.hi, t.hi);
    hull_of_four(a, b, c, d)
}

/// The quotients by the numbers of an interval without zero.
fn quotients_by(s: Span, divisors: Interval) -> Interval
    requires near { IsNear (Some (s.lo, s.hi)) }
    requires below_or_above { IsApart divisors }
    ensures { result ≡ quotients_by s divisors }
{
    match divisors {
        Interval::Bottom => Interval::Bottom,
        Interval::Of(t) => quotients_by_span(s, t),
    }
}

fn divisors_below(t: Span) -> Interval
    ensures value { result ≡ between_or_empty t.lo (int_min t.hi (negsuc 0)) }
    ensures apart { IsApart result }
{
    between_or_empty(t.lo, t.hi.min(-1))
}

fn divisors_above(t: Span) -> Interval
    ensures value { result ≡ between_or_empty (int_max t.lo (pos 1)) t.hi }
    ensures apart { IsApart result }
{
    between_or_empty(t.lo.max(1), t.hi)
}

/// The quotients of a number of `s` by one of `t`.
pub fn quotients(kind: IntType, s: Span, t: Span) -> Interval
    requires size { is_size kind.bytes ≡ true }
    requires near { IsNear (Some (s.lo, s.hi)) }
    ensures { result ≡ quotients kind s t }
{
    let below = quotients_by(s, divisors_below(t));
    let above = quotients_by(s, divisors_above(t));
    met(kind, below.join(above))
}

/// A span without a zero at its ends.
fn without_zero(t: Span) -> Interval
    requires { IsNear (Some (t.lo, t.hi)) }
    ensures value { result ≡ without_zero t }
    ensures ends { HasApartEnds result }
    ensures near { IsNear (interval_bounds result) }
{
    between_or_empty(above_zero(t.lo), below_zero(t.hi))
}

/// The least absolute value of the numbers other than 0.
fn least_size(t: Span) -> i128
    requires { IsNear (Some (t.lo, t.hi)) }
    ensures { result ≡ least_size t }
{
    if t.lo > 0 {
        t.lo
    } else if t.hi < 0 {
        -t.hi
    } else {
        1
    }
}

/// The greatest absolute value.
fn greatest_size(t: Span) -> i128
    requires { IsNear (Some (t.lo, t.hi)) }
    ensures value { result ≡ greatest_size t }
    ensures bound { result ≤ℤ pos (2 ^ 64) }
    ensures positive { pos 0 ≤ℤ result }
{
    (-t.lo).max(t.hi)
}

/// The number `n` alone, where the type has it.
fn one_clamped(kind: IntType, n: i128) -> Interval
    requires { is_size kind.bytes ≡ true }
    ensures { result ≡ clamped kind n n }
{
    clamped(kind, n, n)
}

fn one_remainder(kind: IntType, a: i128, b: i128) -> Interval
    requires size { is_size kind.bytes ≡ true }
    requires small { FitsSigned w128 (neg_ℤ a) }
    requires divisor { ApartFromZero b }
    ensures { result ≡ clamped kind (int_rem a b) (int_rem a b) }
{
    one_clamped(kind, rest(a, b))
}

/// Whether the two are the least number of a signed type and -1.
fn overflows(kind: IntType, a: i128, b: i128) -> bool
    requires { is_size kind.bytes ≡ true }
    ensures { result ≡ (kind.signed && (int_eq a (least_of kind) && int_eq b (negsuc 0))) }
{
    kind.signed && (a == kind.least() && b == -1)
}

/// The remainder of two numbers. The least number by -1 has none.
fn remainder(kind: IntType, a: i128, b: i128) -> Interval
    requires size { is_size kind.bytes ≡ true }
    requires small { FitsSigned w128 (neg_ℤ a) }
    requires divisor { ApartFromZero b }
    ensures { result ≡ remainder kind a b }
{
    if overflows(kind, a, b) {
        Interval::Bottom
    } else {
        one_remainder(kind, a, b)
    }
}

fn negative(m: i128) -> i128
    requires { FitsSigned w128 (neg_ℤ m) }
    ensures { result ≡ neg_ℤ m }
{
    -m
}

/// The numbers between those of `s` and zero that are at most `m` from zero.
fn towards_zero(kind: IntType, s: Span, m: i128) -> Interval
    requires size { is_size kind.bytes ≡ true }
    requires small { FitsSigned w128 (neg_ℤ m) }
    ensures { result ≡ towards_zero kind s m }
{
    clamped(kind, negative(m).max(s.lo.min(0)), m.min(s.hi.max(0)))
}

/// Whether each number of `s` is less in absolute value than each number of `t` other than 0.
fn is_smaller(s: Span, t: Span) -> bool
    requires left { IsNear (Some (s.lo, s.hi)) }
    requires right { IsNear (Some (t.lo, t.hi)) }
    ensures { result ≡ int_lt (greatest_size s) (least_size t) }
{
    greatest_size(s) < least_size(t)
}

fn rounded_towards_zero(kind: IntType, s: Span, t: Span) -> Interval
    requires size { is_size kind.bytes ≡ true }
    requires right { IsNear (Some (t.lo, t.hi)) }
    ensures { result ≡ towards_zero kind s (greatest_size t -ℤ pos 1) }
{
    towards_zero(kind, s, one_less(greatest_size(t)))
}

fn remainders_by_size(kind: IntType, s: Span, t: Span) -> Interval
    requires size { is_size kind.bytes ≡ true }
    requires left { IsNear (Some (s.lo, s.hi)) }
    requires right { IsNear (Some (t.lo, t.hi)) }
    ensures { result ≡ cond (int_lt (greatest_size s) (least_size t)) (clamped kind s.lo s.hi) (towards_zero kind s (greatest_size t -ℤ pos 1)) }
{
    if is_smaller(s, t) {
        clamped(kind, s.lo, s.hi)
    } else {
        rounded_towards_zero(kind, s, t)
    }
}

fn remainder_of_least(kind: IntType, s: Span, t: Span) -> Interval
    requires size { is_size kind.bytes ≡ true }
    requires left { IsNear (Some (s.lo, s.hi)) }
    requires lo_apart { ApartFromZero t.lo }
    ensures { result ≡ remainder kind s.lo t.lo }
{
    remainder(kind, s.lo, t.lo)
}

fn remainders_by_span(kind: IntType, s: Span, t: Span) -> Interval
    requires size { is_size kind.bytes ≡ true }
    requires left { IsNear (Some (s.lo, s.hi)) }
    requires right { IsNear (Some (t.lo, t.hi)) }
    requires lo_apart { ApartFromZero t.lo }
    ensures { result ≡ remainders_by kind s (Interval.Of t) }
{
    if are_single(s, t) {
        remainder_of_least(kind, s, t)
    } else {
        remainders_by_size(kind, s, t)
    }
}

/// The remainders of a number of `s` by one of `t`.
pub fn remainders(kind: IntType, s: Span, t: Span) -> Interval
    requires size { is_size kind.bytes ≡ true }
    requires left { IsNear (Some (s.lo, s.hi)) }
    requires right { IsNear (Some (t.lo, t.hi)) }
    ensures { result ≡ remainders kind s t }
{
    match without_zero(t) {
        Interval::Bottom => Interval::Bottom,
        Interval::Of(d) => remainders_by_span(kind, s, d),
    }
}

/// The shift counts from 0 to the width less 1.
fn counts(kind: IntType, t: Span) -> Interval
    requires size { is_size kind.bytes ≡ true }
    ensures value { result ≡ counts kind t }
    ensures range { AreCounts result }
{
    between_or_empty(t.lo.max(0), t.hi.min(kind.width() as i128 - 1))
}

fn halved_span(s: Span, t: Span) -> Interval
    requires counts { AreCounts (Interval.Of t) }
    ensures { result ≡ corners halved s t }
{
    let a = halved(s.lo, t.lo);
    let b = halved(s.lo, t.hi);
    let c = halved(s.hi, t.lo);
    let d = halved(s.hi, t.hi);
    hull_of_four(a, b, c, d)
}

fn halved_by(s: Span, by: Interval) -> Interval
    requires { AreCounts by }
    ensures { result ≡ halved_by s by }
{
    match by {
        Interval::Bottom => Interval::Bottom,
        Interval::Of(t) => halved_span(s, t),
    }
}

/// The numbers of `s` shifted right by those of `t`, rounded down.
pub fn shifted_right(kind: IntType, s: Span, t: Span) -> Interval
    requires { is_size kind.bytes ≡ true }
    ensures { result ≡ shifted_right kind s t }
{
    met(kind, halved_by(s, counts(kind, t)))
}

/// The numbers of a span from 0 to the greatest of the type.
fn multiplicands(kind: IntType, s: Span) -> Interval
    requires size { is_size kind.bytes ≡ true }
    ensures value { result ≡ between_or_empty (int_max s.lo (pos 0)) (int_min s.hi (greatest_of kind)) }
    ensures range { AreMultiplicands kind result }
{
    between_or_empty(s.lo.max(0), s.hi.min(kind.greatest()))
}

fn scaled_span(kind: IntType, s: Span, t: Span) -> Interval
    requires size { is_size kind.bytes ≡ true }
    requires range { AreMultiplicands kind (Interval.Of s) }
    requires counts { AreCounts (Interval.Of t) }
    ensures { result ≡ scaled_by kind (Interval.Of s) (Interval.Of t) }
{
    into(kind, scaled(s.lo, t.lo), scaled(s.hi, t.hi))
}

fn scaled_by(kind: IntType, x: Interval, y: Interval) -> Interval
    requires size { is_size kind.bytes ≡ true }
    requires range { AreMultiplicands kind x }
    requires counts { AreCounts y }
    ensures { result ≡ scaled_by kind x y }
{
    match (x, y) {
        (Interval::Bottom, _) => Interval::Bottom,
        (Interval::Of(_), Interval::Bottom) => Interval::Bottom,
        (Interval::Of(s), Interval::Of(t)) => scaled_span(kind, s, t),
    }
}

/// The numbers of `s` shifted left by those of `t`.
pub fn shifted_left(kind: IntType, s: Span, t: Span) -> Interval
    requires { is_size kind.bytes ≡ true }
    ensures { result ≡ shifted_left kind s t }
{
    scaled_by(kind, multiplicands(kind, s), counts(kind, t))
}
