//! The operators of a condition (6.5.3 to 6.5.15), with the usual arithmetic conversions.

ghost use Rattle.std.specs.Prelude.{◌≡◌};
ghost use Rattle.c_preproc_conditions.specs.ConditionValues.{signed_or_fault, unsigned_or_fault, with_faults, logical, choice};
ghost use Rattle.c_preproc_conditions.specs.Arithmetic.{signed_arithmetic, unsigned_arithmetic, arithmetic, apply_unary, shift_count, shifted_left, shift, shift_or_fault, apply_binary};
ghost use Rattle.c_preproc_conditions.specs.Symbols.{precedence};

use crate::condition_value::{Number, Value};

/// The operators with one operand.
#[derive(Clone, Copy, PartialEq, Eq, Debug)]
pub enum Unary {
    Plus,
    Minus,
    Complement,
    Not,
}

/// The operators with two operands.
#[derive(Clone, Copy, PartialEq, Eq, Debug)]
pub enum Binary {
    Multiply,
    Divide,
    Remainder,
    Add,
    Subtract,
    ShiftLeft,
    ShiftRight,
    Less,
    Greater,
    LessEqual,
    GreaterEqual,
    Equal,
    NotEqual,
    And,
    Xor,
    Or,
    LogicalAnd,
    LogicalOr,
}

impl Binary {
    /// How tightly the operator binds: 10 for `*` down to 1 for `||`.
    pub fn precedence(self) -> u8
        ensures { result ≡ precedence self }
    {
        match self {
            Binary::Multiply | Binary::Divide | Binary::Remainder => 10,
            Binary::Add | Binary::Subtract => 9,
            Binary::ShiftLeft | Binary::ShiftRight => 8,
            Binary::Less | Binary::Greater | Binary::LessEqual | Binary::GreaterEqual => 7,
            Binary::Equal | Binary::NotEqual => 6,
            Binary::And => 5,
            Binary::Xor => 4,
            Binary::Or => 3,
            Binary::LogicalAnd => 2,
            Binary::LogicalOr => 1,
        }
    }
}

/// A number, or a fault of the number's type.
fn signed_or_fault(number: Option<i64>) -> Value
    ensures { result ≡ signed_or_fault number }
{
    match number {
        Some(n) => Value::of(Number::Signed(n)),
        None => Value {
            number: Number::Signed(0),
            faulty: true,
        },
    }
}

fn unsigned_or_fault(number: Option<u64>) -> Value
    ensures { result ≡ unsigned_or_fault number }
{
    match number {
        Some(n) => Value::of(Number::Unsigned(n)),
        None => Value {
            number: Number::Unsigned(0),
            faulty: true,
        },
    }
}

/// Whether a number is a count of a shift of 64 bits.
fn shift_count(number: Number) -> Option<u32>
    ensures { result ≡ shift_count number }
{
    let count = match number {
        Number::Signed(n) => u32::try_from(n).ok()?,
        Number::Unsigned(n) => u32::try_from(n).ok()?,
    };
    if count < 64 { Some(count) } else { None }
}

/// `a << count` for a number that is not negative, where the result fits.
fn shifted_left(a: i64, count: u32) -> Option<i64>
    ensures { result ≡ shifted_left a count }
{
    if count >= 64 {
        return None;
    }
    let low = u128::try_from(a).ok()?;
    i64::try_from(low << count).ok()
}

fn shift(op: Binary, left: Number, count: u32) -> Value
    ensures { result ≡ shift op left count }
{
    if count >= 64 {
        return signed_or_fault(None);
    }
    match (left, op) {
        (Number::Signed(a), Binary::ShiftLeft) => signed_or_fault(shifted_left(a, count)),
        (Number::Signed(a), _) => Value::of(Number::Signed(a >> count)),
        (Number::Unsigned(a), Binary::ShiftLeft) => Value::of(Number::Unsigned(a << count)),
        (Number::Unsigned(a), _) => Value::of(Number::Unsigned(a >> count)),
    }
}

fn shift_or_fault(op: Binary, left: Number, right: Number) -> Value
    ensures { result ≡ shift_or_fault op left right }
{
    match shift_count(right) {
        Some(count) => shift(op, left, count),
        None => match left {
            Number::Signed(_) => signed_or_fault(None),
            Number::Unsigned(_) => unsigned_or_fault(None),
        },
    }
}

fn signed_arithmetic(op: Binary, a: i64, b: i64) -> Value
    ensures { result ≡ signed_arithmetic op a b }
{
    match op {
        Binary::Multiply => signed_or_fault(a.checked_mul(b)),
        Binary::Divide => signed_or_fault(a.checked_div(b)),
        Binary::Remainder => signed_or_fault(a.checked_rem(b)),
        Binary::Add => signed_or_fault(a.checked_add(b)),
        Binary::Subtract => signed_or_fault(a.checked_sub(b)),
        Binary::And => Value::of(Number::Signed(a & b)),
        Binary::Xor => Value::of(Number::Signed(a ^ b)),
        Binary::Or => Value::of(Number::Signed(a | b)),
        Binary::Less => Value::of(Number::truth(a < b)),
        Binary::Greater => Value::of(Number::truth(a > b)),
        Binary::LessEqual => Value::of(Number::truth(a <= b)),
        Binary::GreaterEqual => Value::of(Number::truth(a >= b)),
        Binary::Equal => Value::of(Number::truth(a == b)),
        _ => Value::of(Number::truth(a != b)),
    }
}

fn unsigned_arithmetic(op: Binary, a: u64, b: u64) -> Value
    ensures { result ≡ unsigned_arithmetic op a b }
{
    match op {
        Binary::Multiply => Value::of(Number::Unsigned(a.wrapping_mul(b))),
        Binary::Divide => unsigned_or_fault(a.checked_div(b)),
        Binary::Remainder => unsigned_or_fault(a.checked_rem(b)),
        Binary::Add => Value::of(Number::Unsigned(a.wrapping_add(b))),
        Binary::Subtract => Value::of(Number::Unsigned(a.wrapping_sub(b))),
        Binary::And => Value::of(Number::Unsigned(a & b)),
        Binary::Xor => Value::of(Number::Unsigned(a ^ b)),
        Binary::Or => Value::of(Number::Unsigned(a | b)),
        Binary::Less => Value::of(Number::truth(a < b)),
        Binary::Greater => Value::of(Number::truth(a > b)),
        Binary::LessEqual => Value::of(Number::truth(a <= b)),
        Binary::GreaterEqual => Value::of(Number::truth(a >= b)),
        Binary::Equal => Value::of(Number::truth(a == b)),
        _ => Value::of(Number::truth(a != b)),
    }
}

/// The usual arithmetic conversions, and then the operator.
fn arithmetic(op: Binary, left: Number, right: Number) -> Value
    ensures { result ≡ arithmetic op left right }
{
    match (left, right) {
        (Number::Signed(a), Number::Signed(b)) => signed_arithmetic(op, a, b),
        _ => unsigned_arithmetic(op, left.unsigned(), right.unsigned()),
    }
}

/// A value that is faulty also where an operand is.
fn with_faults(value: Value, left: bool, right: bool) -> Value
    ensures { result ≡ with_faults value left right }
{
    Value {
        number: value.number,
        faulty: value.faulty || left || right,
    }
}

/// `left && right` where `stops` is 0, `left || right` where it is 1: the right operand counts
/// only where the left one does not decide.
fn logical(left: Value, right: Value, decides: bool) -> Value
    ensures { result ≡ logical left right decides }
{
    if left.faulty {
        return with_faults(Value::of(Number::truth(false)), true, false);
    }
    if left.number.is_zero() != decides {
        return Value::of(Number::truth(decides));
    }
    with_faults(
        Value::of(Number::truth(!right.number.is_zero())),
        right.faulty,
        false,
    )
}

/// The value of a binary operator.
pub fn apply_binary(op: Binary, left: Value, right: Value) -> Value
    ensures { result ≡ apply_binary op left right }
{
    match op {
        Binary::LogicalAnd => logical(left, right, false),
        Binary::LogicalOr => logical(left, right, true),
        Binary::ShiftLeft | Binary::ShiftRight => with_faults(
            shift_or_fault(op, left.number, right.number),
            left.faulty,
            right.faulty,
        ),
        _ => with_faults(
            arithmetic(op, left.number, right.number),
            left.faulty,
            right.faulty,
        ),
    }
}

/// The value of a unary operator.
pub fn apply_unary(op: Unary, value: Value) -> Value
    ensures { result ≡ apply_unary op value }
{
    let made = match (op, value.number) {
        (Unary::Plus, number) => Value::of(number),
        (Unary::Not, number) => Value::of(Number::truth(number.is_zero())),
        (Unary::Minus, Number::Signed(n)) => signed_or_fault(n.checked_neg()),
        (Unary::Minus, Number::Unsigned(n)) => Value::of(Number::Unsigned(n.wrapping_neg())),
        (Unary::Complement, Number::Signed(n)) => Value::of(Number::Signed(!n)),
        (Unary::Complement, Number::Unsigned(n)) => Value::of(Number::Unsigned(!n)),
    };
    with_faults(made, value.faulty, false)
}

/// `condition ? left : right`: the arm that is chosen counts, in the type that both have.
pub fn choice(condition: Value, left: Value, right: Value) -> Value
    ensures { result ≡ choice condition left right }
{
    let chosen = if condition.number.is_zero() {
        right
    } else {
        left
    };
    let is_unsigned = left.number.is_unsigned() || right.number.is_unsigned();
    let number = if is_unsigned {
        Number::Unsigned(chosen.number.unsigned())
    } else {
        chosen.number
    };
    with_faults(Value::of(number), condition.faulty, chosen.faulty)
}
