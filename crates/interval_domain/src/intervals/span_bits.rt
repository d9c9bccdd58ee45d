//! Bitwise operators on spans.
ghost use Rattle.std.specs.Prelude.{◌≡◌, ◌≤ℤ◌, ◌<ℤ◌, ◌-ℤ◌, ◌<◌, ◌*◌, ◌^◌, ℕ, ℤ, true, Some, FitsSigned, pos, unsigned_abs, bit_and, bit_or, bit_xor, ◌&&◌, int_le};
ghost use Rattle.std.specs.Int.{w128};
ghost use Rattle.cc_base.specs.IntegerTypes.{is_size, modulus, least_of, wrap_into};
ghost use Rattle.cc_base.specs.IntegerDomains.{IsNear};
ghost use Rattle.interval_domain.specs.Numbers.SingleNumbers.{ones_above};
ghost use Rattle.interval_domain.specs.Intervals.Arithmetic.{bits_in, with_bits, is_of_type, and_bound, or_bound, conjunctions, disjunctions, exclusives, is_single, are_single};

use crate::intervals::intervals::{Interval, between_or_empty};
use crate::intervals::span_arithmetic::{are_single, clamped, whole};
use crate::intervals::spans::Span;
use crate::numbers::ones_above;
use cc_base::IntType;

/// The bits of a number in the type.
fn bits_in(kind: IntType, n: i128) -> u128
    requires { is_size kind.bytes ≡ true }
    ensures value { result ≡ bits_in kind n }
    ensures bound { result < 2 ^ 64 }
{
    n.rem_euclid(kind.modulus()).unsigned_abs()
}

/// The number of the type with these bits.
fn with_bits(kind: IntType, bits: u128) -> Interval
    requires size { is_size kind.bytes ≡ true }
    requires small { bits < 2 ^ 64 }
    ensures { result ≡ with_bits kind bits }
{
    let n = kind.wrap(bits as i128);
    between_or_empty(n, n)
}

/// Where an operand is not below zero, it bounds `&`.
fn and_bound(kind: IntType, s: Span, t: Span) -> Interval
    requires { is_size kind.bytes ≡ true }
    ensures { result ≡ and_bound kind s t }
{
    if s.lo >= 0 {
        let hi = if t.lo >= 0 { s.hi.min(t.hi) } else { s.hi };
        return clamped(kind, 0, hi);
    }
    if t.lo >= 0 {
        return clamped(kind, 0, t.hi);
    }
    whole(kind)
}

/// Where both operands are not below zero, `|` and `^` have no bit above theirs.
fn or_bound(kind: IntType, s: Span, t: Span) -> Interval
    requires size { is_size kind.bytes ≡ true }
    requires left { IsNear (Some (s.lo, s.hi)) }
    requires right { IsNear (Some (t.lo, t.hi)) }
    ensures { result ≡ or_bound kind s t }
{
    if s.lo >= 0 && t.lo >= 0 {
        let most = s.hi.unsigned_abs().max(t.hi.unsigned_abs());
        return clamped(kind, 0, ones_above(most));
    }
    whole(kind)
}

/// Whether all numbers of a span are of the type.
fn is_of_type(kind: IntType, s: Span) -> bool
    requires { is_size kind.bytes ≡ true }
    ensures { result ≡ is_of_type kind s }
{
    kind.least() <= s.lo && s.hi <= kind.greatest()
}

/// `&` of a number of `s` and one of `t`; any number of the type where one of them is not of it.
pub fn conjunctions(kind: IntType, s: Span, t: Span) -> Interval
    requires { is_size kind.bytes ≡ true }
    ensures { result ≡ conjunctions kind s t }
{
    if !(is_of_type(kind, s) && is_of_type(kind, t)) {
        return whole(kind);
    }
    if are_single(s, t) {
        with_bits(kind, bits_in(kind, s.lo) & bits_in(kind, t.lo))
    } else {
        and_bound(kind, s, t)
    }
}

/// `|` of a number of `s` and one of `t`; any number of the type where one of them is not of it.
pub fn disjunctions(kind: IntType, s: Span, t: Span) -> Interval
    requires size { is_size kind.bytes ≡ true }
    requires left { IsNear (Some (s.lo, s.hi)) }
    requires right { IsNear (Some (t.lo, t.hi)) }
    ensures { result ≡ disjunctions kind s t }
{
    if !(is_of_type(kind, s) && is_of_type(kind, t)) {
        return whole(kind);
    }
    if are_single(s, t) {
        with_bits(kind, bits_in(kind, s.lo) | bits_in(kind, t.lo))
    } else {
        or_bound(kind, s, t)
    }
}

/// `^` of a number of `s` and one of `t`; any number of the type where one of them is not of it.
pub fn exclusives(kind: IntType, s: Span, t: Span) -> Interval
    requires size { is_size kind.bytes ≡ true }
    requires left { IsNear (Some (s.lo, s.hi)) }
    requires right { IsNear (Some (t.lo, t.hi)) }
    ensures { result ≡ exclusives kind s t }
{
    if !(is_of_type(kind, s) && is_of_type(kind, t)) {
        return whole(kind);
    }
    if are_single(s, t) {
        with_bits(kind, bits_in(kind, s.lo) ^ bits_in(kind, t.lo))
    } else {
        or_bound(kind, s, t)
    }
}
