//! Instructions on integers, and conversions.
ghost use Rattle.std.specs.Prelude.{◌≡◌, true, false, Some, None, length};
ghost use Rattle.cc_base.specs.IntegerDomains.{IsNear};
ghost use Rattle.transfer_instructions.specs.Values.IntegerSteps.{constant_step, binary_checks, binary_step, unary_checks, unary_step, compare_step, not_step, put_converted, converted_pointer, convert_value, convert_step};

use crate::values::result_temps::{negated, put_number, put_pointer, put_truth};
use crate::values::scalar_classes::is_sized;
use cc_base::{IntDomain, IntOp, IntType, Rel, UnOp};
use cfg::{Amount, Flow, Scalar};
use pointer_domain::Pointers;
use store::null_pointer;
use transfer_checks::{Violations, amount_value, binary_violations, temp_value, unary_violations};
use value_domain::values::{Cell, Labels, Value};

/// A constant.
#[tactic(auto, unfolding(crate::specs::Values::IntegerSteps::constant_step))]
pub fn constant_step<I: IntDomain>(
    flow: &Flow,
    row: &mut [Cell<I>],
    to_temp: u32,
    number: i128,
) -> bool
    ensures length { length row.new ≡ length row.old }
    ensures reached { result ≡ true → constant_step I.lattice I.numbers flow.now row.old to_temp number ≡ Some row.new }
    ensures unreached { result ≡ false → constant_step I.lattice I.numbers flow.now row.old to_temp number ≡ None }
{
    let value = Value::of_number(I::one(number), Labels::none());
    put_number(flow, row, to_temp, value)
}

/// What a binary operator may violate.
pub fn binary_checks<I: IntDomain>(
    flow: &Flow,
    row: &[Cell<I>],
    op: IntOp,
    left: u32,
    right: Amount,
    kind: IntType,
) -> Violations
    ensures { result ≡ binary_checks I.lattice I.numbers flow.now row.now op left right kind }
{
    if is_sized(kind) {
        let left = temp_value(flow, row, left);
        let right = amount_value(flow, row, right);
        binary_violations(op, kind, left, right)
    } else {
        Violations::none()
    }
}

/// A binary operator.
#[tactic(auto, unfolding(crate::specs::Values::IntegerSteps::binary_step))]
pub fn binary_step<I: IntDomain>(
    flow: &Flow,
    row: &mut [Cell<I>],
    to_temp: u32,
    op: IntOp,
    left: u32,
    right: Amount,
    kind: IntType,
) -> bool
    ensures length { length row.new ≡ length row.old }
    ensures reached { result ≡ true → binary_step I.lattice I.numbers flow.now row.old to_temp op left right kind ≡ Some row.new }
    ensures unreached { result ≡ false → binary_step I.lattice I.numbers flow.now row.old to_temp op left right kind ≡ None }
{
    if is_sized(kind) {
        let left = temp_value(flow, row, left);
        let right = amount_value(flow, row, right);
        put_number(flow, row, to_temp, left.arith(op, right, kind))
    } else {
        false
    }
}

/// What a unary operator may violate.
pub fn unary_checks<I: IntDomain>(
    flow: &Flow,
    row: &[Cell<I>],
    op: UnOp,
    operand: u32,
    kind: IntType,
) -> Violations
    ensures { result ≡ unary_checks I.lattice I.numbers flow.now row.now op operand kind }
{
    if is_sized(kind) {
        unary_violations(op, kind, temp_value(flow, row, operand))
    } else {
        Violations::none()
    }
}

/// A unary operator.
#[tactic(auto, unfolding(crate::specs::Values::IntegerSteps::unary_step))]
pub fn unary_step<I: IntDomain>(
    flow: &Flow,
    row: &mut [Cell<I>],
    to_temp: u32,
    op: UnOp,
    operand: u32,
    kind: IntType,
) -> bool
    ensures length { length row.new ≡ length row.old }
    ensures reached { result ≡ true → unary_step I.lattice I.numbers flow.now row.old to_temp op operand kind ≡ Some row.new }
    ensures unreached { result ≡ false → unary_step I.lattice I.numbers flow.now row.old to_temp op operand kind ≡ None }
{
    if is_sized(kind) {
        let value = temp_value(flow, row, operand);
        put_number(flow, row, to_temp, value.unary(op, kind))
    } else {
        false
    }
}

/// A relation of two integers.
#[tactic(auto, unfolding(crate::specs::Values::IntegerSteps::compare_step))]
pub fn compare_step<I: IntDomain>(
    flow: &Flow,
    row: &mut [Cell<I>],
    to_temp: u32,
    rel: Rel,
    left: u32,
    right: u32,
) -> bool
    ensures length { length row.new ≡ length row.old }
    ensures reached { result ≡ true → compare_step I.lattice I.numbers flow.now row.old to_temp rel left right ≡ Some row.new }
    ensures unreached { result ≡ false → compare_step I.lattice I.numbers flow.now row.old to_temp rel left right ≡ None }
{
    let left = temp_value(flow, row, left);
    let right = temp_value(flow, row, right);
    put_truth(flow, row, to_temp, left.num.compare(rel, right.num))
}

/// Whether a scalar is 0 or null.
#[tactic(auto, unfolding(crate::specs::Values::IntegerSteps::not_step))]
pub fn not_step<I: IntDomain>(flow: &Flow, row: &mut [Cell<I>], to_temp: u32, operand: u32) -> bool
    ensures length { length row.new ≡ length row.old }
    ensures reached { result ≡ true → not_step I.lattice I.numbers flow.now row.old to_temp operand ≡ Some row.new }
    ensures unreached { result ≡ false → not_step I.lattice I.numbers flow.now row.old to_temp operand ≡ None }
{
    let value = temp_value(flow, row, operand);
    put_truth(flow, row, to_temp, negated(value.truth()))
}

/// An integer converted to an integer type.
#[tactic(auto, unfolding(crate::specs::Values::IntegerSteps::put_converted))]
fn put_converted<I: IntDomain>(
    flow: &Flow,
    row: &mut [Cell<I>],
    to_temp: u32,
    value: Value<I>,
    kind: IntType,
) -> bool
    requires { IsNear (I.numbers.bounds value.num) }
    ensures length { length row.new ≡ length row.old }
    ensures reached { result ≡ true → put_converted I.lattice I.numbers flow.now row.old to_temp value kind ≡ Some row.new }
    ensures unreached { result ≡ false → put_converted I.lattice I.numbers flow.now row.old to_temp value kind ≡ None }
{
    if is_sized(kind) {
        put_number(flow, row, to_temp, value.convert(kind))
    } else {
        false
    }
}

/// A value as a pointer: the constant 0 becomes a null pointer, a pointer stays.
fn converted_pointer<I: IntDomain>(from: Scalar, value: Value<I>) -> Pointers<I>
    ensures { result ≡ converted_pointer I.lattice from value }
{
    match from {
        Scalar::Int(_) => null_pointer(),
        Scalar::Pointer => value.pointer,
    }
}

/// The conversion of a value.
#[tactic(auto, unfolding(crate::specs::Values::IntegerSteps::convert_value))]
fn convert_value<I: IntDomain>(
    flow: &Flow,
    row: &mut [Cell<I>],
    to_temp: u32,
    value: Value<I>,
    from: Scalar,
    to: Scalar,
) -> bool
    requires { IsNear (I.numbers.bounds value.num) }
    ensures length { length row.new ≡ length row.old }
    ensures reached { result ≡ true → convert_value I.lattice I.numbers flow.now row.old to_temp value from to ≡ Some row.new }
    ensures unreached { result ≡ false → convert_value I.lattice I.numbers flow.now row.old to_temp value from to ≡ None }
{
    match to {
        Scalar::Int(kind) => put_converted(flow, row, to_temp, value, kind),
        Scalar::Pointer => put_pointer(flow, row, to_temp, converted_pointer(from, value)),
    }
}

/// A conversion: of an integer, of a pointer to another pointer type, or of the constant 0 to a null
/// pointer.
#[tactic(auto, unfolding(crate::specs::Values::IntegerSteps::convert_step))]
pub fn convert_step<I: IntDomain>(
    flow: &Flow,
    row: &mut [Cell<I>],
    to_temp: u32,
    operand: u32,
    from: Scalar,
    to: Scalar,
) -> bool
    ensures length { length row.new ≡ length row.old }
    ensures reached { result ≡ true → convert_step I.lattice I.numbers flow.now row.old to_temp operand from to ≡ Some row.new }
    ensures unreached { result ≡ false → convert_step I.lattice I.numbers flow.now row.old to_temp operand from to ≡ None }
{
    convert_value(flow, row, to_temp, temp_value(flow, row, operand), from, to)
}
