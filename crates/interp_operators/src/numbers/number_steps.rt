//! Operators on integers as steps.
ghost use Rattle.std.specs.Prelude.{◌≡◌, Bool, true};
ghost use Rattle.cc_base.specs.IntegerTypes.{is_size};
ghost use Rattle.cc_base.specs.declared.integer_operators.IntOp.TheVariants as int_op;
ghost use Rattle.memory_model.specs.Effects.IntegerEffects as machine;
ghost use Rattle.interp_memory.specs.ByteViews.{labels_view, scalar_view};
ghost use Rattle.interp_accesses.specs.WorldViews.{world_view, ComesTo, Computes};

use crate::numbers::number_faults::{binary_faults, computed, is_outside, unary_faults};
use crate::numbers::number_labels::{negated_set, operated_set};
use crate::numbers::number_results::{binary_result, exact, exact_one, unary_result};
use crate::numbers::unsigned_products::unsigned_product;
use cc_base::{IntOp, IntType, UnOp};
use interp_accesses::{Cause, Halt, World7, has_size};
use interp_memory::{LabelSet, Value7, unlabelled};

// Whether the mathematical result of an operator leaves a type.
fn leaves(op: IntOp, kind: IntType, a: i128, b: i128) -> Result<bool, Halt>
    requires { is_size kind.bytes ≡ true }
    ensures { Computes (λ (x : Bool). x) (machine.is_outside kind (machine.result_of op a b)) result }
{
    let n = exact(op, a, b)?;
    Ok(is_outside(kind, n))
}

// A binary operator on numbers with a result.
fn with_result(
    w: &mut World7,
    op: IntOp,
    kind: IntType,
    a: i128,
    s: LabelSet,
    b: i128,
    t: LabelSet,
) -> Result<Value7, Halt>
    requires { is_size kind.bytes ≡ true }
    ensures { ComesTo scalar_view (machine.binary_numbers op kind a (labels_view s) b (labels_view t) (world_view w.old)) result (world_view w.new) }
{
    let number = binary_result(op, kind, a, b)?;
    let faults = binary_faults(op, kind, a, b)?;
    match number {
        None => computed(w, faults, None, unlabelled()),
        Some(n) => {
            let outside = leaves(op, kind, a, b)?;
            computed(w, faults, Some(n), operated_set(op, s, t, kind, outside))
        }
    }
}

// A product: of unsigned numbers it may need more bits than a number has here.
fn multiplied(
    w: &mut World7,
    kind: IntType,
    a: i128,
    s: LabelSet,
    b: i128,
    t: LabelSet,
) -> Result<Value7, Halt>
    requires { is_size kind.bytes ≡ true }
    ensures { ComesTo scalar_view (machine.binary_numbers int_op.Mul kind a (labels_view s) b (labels_view t) (world_view w.old)) result (world_view w.new) }
{
    if kind.signed {
        return with_result(w, IntOp::Mul, kind, a, s, b, t);
    }
    match (u128::try_from(a), u128::try_from(b)) {
        (Ok(x), Ok(y)) => unsigned_product(w, kind, x, s, y, t),
        _ => Err(Halt::Memory),
    }
}

// A binary operator on numbers.
fn binary_numbers(
    w: &mut World7,
    op: IntOp,
    kind: IntType,
    a: i128,
    s: LabelSet,
    b: i128,
    t: LabelSet,
) -> Result<Value7, Halt>
    requires { is_size kind.bytes ≡ true }
    ensures { ComesTo scalar_view (machine.binary_numbers op kind a (labels_view s) b (labels_view t) (world_view w.old)) result (world_view w.new) }
{
    match op {
        IntOp::Mul => multiplied(w, kind, a, s, b, t),
        IntOp::Add | IntOp::Sub | IntOp::Div | IntOp::Rem => with_result(w, op, kind, a, s, b, t),
        IntOp::And | IntOp::Or | IntOp::Xor => with_result(w, op, kind, a, s, b, t),
        IntOp::Shl | IntOp::Shr => with_result(w, op, kind, a, s, b, t),
    }
}

/// A binary operator on two integers. A type that no unit has comes to want of memory.
pub fn binary(
    w: &mut World7,
    op: IntOp,
    kind: IntType,
    left: Value7,
    right: Value7,
) -> Result<Value7, Halt>
    ensures { ComesTo scalar_view (machine.binary op kind (scalar_view left) (scalar_view right) (world_view w.old)) result (world_view w.new) }
{
    match (left, right) {
        (Value7::Int(a, s), Value7::Int(b, t)) => {
            if has_size(kind) {
                binary_numbers(w, op, kind, a, s, b, t)
            } else {
                Err(Halt::Memory)
            }
        }
        (Value7::Int(_, _), Value7::Ptr(_)) => Err(Halt::Stops(Cause::Stuck)),
        (Value7::Ptr(_), _) => Err(Halt::Stops(Cause::Stuck)),
    }
}

// A unary operator on a number.
fn unary_number(
    w: &mut World7,
    op: UnOp,
    kind: IntType,
    a: i128,
    s: LabelSet,
) -> Result<Value7, Halt>
    requires { is_size kind.bytes ≡ true }
    ensures { ComesTo scalar_view (machine.unary_number op kind a (labels_view s) (world_view w.old)) result (world_view w.new) }
{
    let number = unary_result(op, kind, a)?;
    let faults = unary_faults(op, kind, a)?;
    let n = exact_one(op, a)?;
    computed(
        w,
        faults,
        number,
        negated_set(op, s, kind, is_outside(kind, n)),
    )
}

/// A unary operator on an integer. A type that no unit has comes to want of memory.
pub fn unary(w: &mut World7, op: UnOp, kind: IntType, operand: Value7) -> Result<Value7, Halt>
    ensures { ComesTo scalar_view (machine.unary op kind (scalar_view operand) (world_view w.old)) result (world_view w.new) }
{
    match operand {
        Value7::Int(a, s) => {
            if has_size(kind) {
                unary_number(w, op, kind, a, s)
            } else {
                Err(Halt::Memory)
            }
        }
        Value7::Ptr(_) => Err(Halt::Stops(Cause::Stuck)),
    }
}
