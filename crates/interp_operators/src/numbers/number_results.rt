//! What operators give, where there is a result. A number that no i128 holds comes to want of memory.
ghost use Rattle.std.specs.Prelude.{◌≡◌, ℤ, ◌+ℤ◌, ◌-ℤ◌, ◌*ℤ◌, pos, ◌^◌, unsigned_abs, Option, Some, true};
ghost use Rattle.cc_base.specs.IntegerTypes.{is_size};
ghost use Rattle.cc_base.specs.MachineArithmetic as math;
ghost use Rattle.cc_base.specs.declared.integer_operators.IntOp.TheVariants as int_op;
ghost use Rattle.memory_model.specs.Effects.IntegerEffects as machine;
ghost use Rattle.interp_accesses.specs.WorldViews.{Computes};

use cc_base::{IntOp, IntType, UnOp};
use interp_accesses::Halt;

fn sum(a: i128, b: i128) -> Result<i128, Halt>
    ensures { Computes (λ (n : ℤ). n) (a +ℤ b) result }
{
    match a.checked_add(b) {
        Some(n) => Ok(n),
        None => Err(Halt::Memory),
    }
}

fn less(a: i128, b: i128) -> Result<i128, Halt>
    ensures { Computes (λ (n : ℤ). n) (a -ℤ b) result }
{
    match a.checked_sub(b) {
        Some(n) => Ok(n),
        None => Err(Halt::Memory),
    }
}

fn product(a: i128, b: i128) -> Result<i128, Halt>
    ensures { Computes (λ (n : ℤ). n) (a *ℤ b) result }
{
    match a.checked_mul(b) {
        Some(n) => Ok(n),
        None => Err(Halt::Memory),
    }
}

// A power of 2, up to the sign bit.
fn power(count: u128) -> Result<i128, Halt>
    ensures { Computes (λ (n : ℤ). n) (pos (2 ^ count)) result }
{
    if count > 63 {
        return Err(Halt::Memory);
    }
    Ok(1i128 << (count as u32))
}

// A number shifted to the left.
fn shifted(a: i128, count: i128) -> Result<i128, Halt>
    ensures { Computes (λ (n : ℤ). n) (a *ℤ pos (2 ^ unsigned_abs count)) result }
{
    let factor = power(count.unsigned_abs())?;
    product(a, factor)
}

/// The mathematical result of the operators that can leave the type.
pub(crate) fn exact(op: IntOp, a: i128, b: i128) -> Result<Option<i128>, Halt>
    ensures { Computes (λ (x : Option ℤ). x) (machine.result_of op a b) result }
{
    match op {
        IntOp::Add => Ok(Some(sum(a, b)?)),
        IntOp::Sub => Ok(Some(less(a, b)?)),
        IntOp::Mul => Ok(Some(product(a, b)?)),
        IntOp::Shl => Ok(Some(shifted(a, b)?)),
        IntOp::Div | IntOp::Rem | IntOp::And | IntOp::Or | IntOp::Xor | IntOp::Shr => Ok(None),
    }
}

// A number where the type has it.
fn in_or_stop(kind: IntType, n: i128) -> Option<i128>
    requires { is_size kind.bytes ≡ true }
    ensures { result ≡ math.in_or_stop kind n }
{
    if kind.has(n) { Some(n) } else { None }
}

// A number in a type: signed ones alone can be outside.
fn number_in(kind: IntType, n: i128) -> Result<Option<i128>, Halt>
    requires { is_size kind.bytes ≡ true }
    ensures { Computes (λ (x : Option ℤ). x) (math.result_of kind n) result }
{
    if kind.signed {
        return Ok(in_or_stop(kind, n));
    }
    match n.checked_sub(kind.least()) {
        Some(_) => Ok(Some(kind.wrap(n))),
        None => Err(Halt::Memory),
    }
}

// Whether a quotient is one that its type has not.
pub(crate) fn is_quotient_overflow(kind: IntType, a: i128, b: i128) -> bool
    requires { is_size kind.bytes ≡ true }
    ensures { result ≡ math.is_quotient_overflow kind a b }
{
    kind.signed && (a == kind.least() && b == -1)
}

/// Whether a shift's count is defined.
pub(crate) fn is_count(kind: IntType, b: i128) -> bool
    ensures { result ≡ math.is_count kind b }
{
    0 <= b && b < i128::from(8 * u32::from(kind.bytes))
}

// A quotient.
fn quotient(kind: IntType, a: i128, b: i128) -> Result<Option<i128>, Halt>
    requires { is_size kind.bytes ≡ true }
    ensures { Computes (λ (x : Option ℤ). x) (math.binary_result int_op.Div kind a b) result }
{
    if b == 0 {
        return Ok(None);
    }
    match a.checked_div(b) {
        Some(n) => Ok(in_or_stop(kind, n)),
        None => Err(Halt::Memory),
    }
}

// What a division leaves.
fn remainder(kind: IntType, a: i128, b: i128) -> Result<Option<i128>, Halt>
    requires { is_size kind.bytes ≡ true }
    ensures { Computes (λ (x : Option ℤ). x) (math.binary_result int_op.Rem kind a b) result }
{
    if b == 0 {
        return Ok(None);
    }
    if is_quotient_overflow(kind, a, b) {
        return Ok(None);
    }
    match a.checked_rem(b) {
        Some(n) => Ok(Some(n)),
        None => Err(Halt::Memory),
    }
}

// The bits of a number in a type.
fn bits_of(kind: IntType, n: i128) -> u128
    requires { is_size kind.bytes ≡ true }
    ensures { result ≡ math.bits_of kind n }
{
    n.rem_euclid(kind.modulus()).unsigned_abs()
}

// The number of a type with some bits.
fn of_bits(kind: IntType, bits: u128) -> Result<Option<i128>, Halt>
    requires { is_size kind.bytes ≡ true }
    ensures { Computes (λ (x : Option ℤ). x) (Some (math.of_bits kind bits)) result }
{
    let Ok(n) = i128::try_from(bits) else {
        return Err(Halt::Memory);
    };
    match n.checked_sub(kind.least()) {
        Some(_) => Ok(Some(kind.wrap(n))),
        None => Err(Halt::Memory),
    }
}

// A shift to the left, of a number that is not negative.
fn left_shift(kind: IntType, a: i128, b: i128) -> Result<Option<i128>, Halt>
    requires { is_size kind.bytes ≡ true }
    ensures { Computes (λ (x : Option ℤ). x) (math.binary_result int_op.Shl kind a b) result }
{
    if !is_count(kind, b) || a < 0 {
        return Ok(None);
    }
    let n = shifted(a, b)?;
    number_in(kind, n)
}

// A shift to the right.
fn right_shift(kind: IntType, a: i128, b: i128) -> Option<i128>
    requires { is_size kind.bytes ≡ true }
    ensures { result ≡ math.binary_result int_op.Shr kind a b }
{
    if !is_count(kind, b) {
        return None;
    }
    Some(a >> (b as u32))
}

/// The result of a binary operator on two numbers of a type.
pub(crate) fn binary_result(
    op: IntOp,
    kind: IntType,
    a: i128,
    b: i128,
) -> Result<Option<i128>, Halt>
    requires { is_size kind.bytes ≡ true }
    ensures { Computes (λ (x : Option ℤ). x) (math.binary_result op kind a b) result }
{
    match op {
        IntOp::Add => number_in(kind, sum(a, b)?),
        IntOp::Sub => number_in(kind, less(a, b)?),
        IntOp::Mul => number_in(kind, product(a, b)?),
        IntOp::Div => quotient(kind, a, b),
        IntOp::Rem => remainder(kind, a, b),
        IntOp::And => of_bits(kind, bits_of(kind, a) & bits_of(kind, b)),
        IntOp::Or => of_bits(kind, bits_of(kind, a) | bits_of(kind, b)),
        IntOp::Xor => of_bits(kind, bits_of(kind, a) ^ bits_of(kind, b)),
        IntOp::Shl => left_shift(kind, a, b),
        IntOp::Shr => Ok(right_shift(kind, a, b)),
    }
}

/// The mathematical result of a unary operator that can leave the type.
pub(crate) fn exact_one(op: UnOp, a: i128) -> Result<Option<i128>, Halt>
    ensures { Computes (λ (x : Option ℤ). x) (machine.unary_math op a) result }
{
    match op {
        UnOp::Neg => Ok(Some(less(0, a)?)),
        UnOp::Compl => Ok(None),
    }
}

/// The result of a unary operator on a number of a type.
pub(crate) fn unary_result(op: UnOp, kind: IntType, a: i128) -> Result<Option<i128>, Halt>
    requires { is_size kind.bytes ≡ true }
    ensures { Computes (λ (x : Option ℤ). x) (math.unary_result op kind a) result }
{
    match op {
        UnOp::Neg => number_in(kind, less(0, a)?),
        UnOp::Compl => Ok(Some(less(kind.least() + kind.greatest(), a)?)),
    }
}
