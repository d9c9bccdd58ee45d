//! The values of operators in integer constant expressions (6.5.3 to 6.5.9 and 6.6 of ISO/IEC
//! 9899:2011). An operation that is undefined has none.
ghost use Rattle.std.specs.Prelude.{◌≡◌, ◌<◌, option_and_then, IfSome};
ghost use Rattle.c_types_rules.specs.Rules.ConstantFolding.{if_has, related, signed_result, unsigned_result, bits_of, quotient_fits, signed_folded, unsigned_folded, arithmetic, folded, count_of, shifted_left, signed_shift, unsigned_shift, counted_shift, shifted, negated, complemented};

use crate::rules::constant_numbers::{converted, if_has, signed_64, truth, unsigned_64};
use c_layout::BinaryOp;
use cc_base::IntType;

/// What a relational or an equality operator says of two numbers.
fn related(op: BinaryOp, a: i128, b: i128) -> Option<bool>
    ensures { result ≡ related op a b }
{
    match op {
        BinaryOp::Less => Some(a < b),
        BinaryOp::Greater => Some(a > b),
        BinaryOp::LessEqual => Some(a <= b),
        BinaryOp::GreaterEqual => Some(a >= b),
        BinaryOp::Equal => Some(a == b),
        BinaryOp::NotEqual => Some(a != b),
        _ => None,
    }
}

fn signed_result(op: BinaryOp, a: i64, b: i64) -> Option<i64>
    ensures { result ≡ signed_result op a b }
{
    match op {
        BinaryOp::Multiply => a.checked_mul(b),
        BinaryOp::Divide => a.checked_div(b),
        BinaryOp::Remainder => a.checked_rem(b),
        BinaryOp::Add => a.checked_add(b),
        BinaryOp::Subtract => a.checked_sub(b),
        BinaryOp::And => Some(a & b),
        BinaryOp::Xor => Some(a ^ b),
        BinaryOp::Or => Some(a | b),
        _ => None,
    }
}

fn unsigned_result(op: BinaryOp, a: u64, b: u64) -> Option<u64>
    ensures { result ≡ unsigned_result op a b }
{
    match op {
        BinaryOp::Multiply => Some(a.wrapping_mul(b)),
        BinaryOp::Divide => a.checked_div(b),
        BinaryOp::Remainder => a.checked_rem(b),
        BinaryOp::Add => Some(a.wrapping_add(b)),
        BinaryOp::Subtract => Some(a.wrapping_sub(b)),
        BinaryOp::And => Some(a & b),
        BinaryOp::Xor => Some(a ^ b),
        BinaryOp::Or => Some(a | b),
        _ => None,
    }
}

/// A result of 64 signed bits, where the type has it.
fn narrowed(kind: IntType, result_64: Option<i64>) -> Option<i128>
    ensures { result ≡ option_and_then (if_has kind) result_64 }
{
    if_has(kind, i128::from(result_64?))
}

/// Whether the quotient that a remainder belongs to is defined.
fn quotient_fits(op: BinaryOp, kind: IntType, a: i64, b: i64) -> bool
    ensures { result ≡ quotient_fits op kind a b }
{
    match op {
        BinaryOp::Remainder => narrowed(kind, signed_result(BinaryOp::Divide, a, b)).is_some(),
        _ => true,
    }
}

fn signed_folded(op: BinaryOp, kind: IntType, a: i64, b: i64) -> Option<i128>
    ensures { result ≡ signed_folded op kind a b }
{
    if quotient_fits(op, kind, a, b) {
        narrowed(kind, signed_result(op, a, b))
    } else {
        None
    }
}

fn unsigned_folded(op: BinaryOp, kind: IntType, a: u64, b: u64) -> Option<i128>
    ensures { result ≡ unsigned_folded op kind a b }
{
    let low = unsigned_result(op, a, b)?;
    Some(converted(kind, i128::from(low)))
}

fn arithmetic(op: BinaryOp, kind: IntType, a: i128, b: i128) -> Option<i128>
    ensures { result ≡ arithmetic op kind a b }
{
    if kind.signed {
        signed_folded(op, kind, signed_64(a), signed_64(b))
    } else {
        unsigned_folded(op, kind, unsigned_64(a), unsigned_64(b))
    }
}

/// The value of an operator other than a shift on two operands, converted to their common type.
pub fn folded(op: BinaryOp, kind: IntType, left: i128, right: i128) -> Option<i128>
    ensures { result ≡ folded op kind left right }
{
    let a = converted(kind, left);
    let b = converted(kind, right);
    match related(op, a, b) {
        Some(holds) => Some(truth(holds)),
        None => arithmetic(op, kind, a, b),
    }
}

/// The number of bits of a type.
fn bits(kind: IntType) -> u32
    ensures { result ≡ bits_of kind }
{
    match kind.bytes {
        1 => 8,
        2 => 16,
        4 => 32,
        _ => 64,
    }
}

/// A number as the count of a shift.
fn shift_count(kind: IntType, n: i128) -> Option<u32>
    ensures low { IfSome result (λ c. c < 64) }
    ensures count { result ≡ count_of kind n }
{
    let count = u32::try_from(n).ok()?;
    if count < bits(kind) {
        Some(count)
    } else {
        None
    }
}

/// The value of negation in a promoted type.
pub fn negated(kind: IntType, n: i128) -> Option<i128>
    ensures { result ≡ negated kind n }
{
    if kind.signed {
        narrowed(kind, signed_64(n).checked_neg())
    } else {
        Some(converted(kind, i128::from(unsigned_64(n).wrapping_neg())))
    }
}

/// The value of `~` in a promoted type.
pub fn complemented(kind: IntType, n: i128) -> i128
    ensures { result ≡ complemented kind n }
{
    if kind.signed {
        i128::from(!signed_64(n))
    } else {
        converted(kind, i128::from(!unsigned_64(n)))
    }
}

/// `a << count` for a number that is not negative, where the result fits 64 bits.
fn shifted_left(a: i64, count: u32) -> Option<i64>
    ensures { result ≡ shifted_left a count }
{
    if count >= 64 {
        return None;
    }
    let low = u128::try_from(a).ok()?;
    i64::try_from(low << count).ok()
}

fn signed_shift(op: BinaryOp, kind: IntType, a: i64, count: u32) -> Option<i128>
    requires { count < 64 }
    ensures { result ≡ signed_shift op kind a count }
{
    match op {
        BinaryOp::ShiftLeft => narrowed(kind, shifted_left(a, count)),
        _ => Some(i128::from(a >> count)),
    }
}

fn unsigned_shift(op: BinaryOp, kind: IntType, a: u64, count: u32) -> i128
    requires { count < 64 }
    ensures { result ≡ unsigned_shift op kind a count }
{
    match op {
        BinaryOp::ShiftLeft => converted(kind, i128::from(a << count)),
        _ => i128::from(a >> count),
    }
}

fn counted_shift(op: BinaryOp, kind: IntType, left: i128, count: u32) -> Option<i128>
    requires { count < 64 }
    ensures { result ≡ counted_shift op kind left count }
{
    if kind.signed {
        signed_shift(op, kind, signed_64(left), count)
    } else {
        Some(unsigned_shift(op, kind, unsigned_64(left), count))
    }
}

/// The value of a shift in the promoted type of its left operand.
pub fn shifted(op: BinaryOp, kind: IntType, left: i128, right: i128) -> Option<i128>
    ensures { result ≡ shifted op kind left right }
{
    let count = shift_count(kind, right)?;
    counted_shift(op, kind, left, count)
}
