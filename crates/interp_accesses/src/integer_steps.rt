//! Operators on integers that have a result for all operands, and conversions (6.3.1.3, 6.5.3.3,
//! 6.5.8 and 6.5.9 of ISO/IEC 9899:2011).
ghost use Rattle.std.specs.Prelude.{◌≡◌};
ghost use Rattle.cc_base.specs.IntegerTypes.{is_size};
ghost use Rattle.cc_base.specs.MachineArithmetic.{holds};
ghost use Rattle.memory_model.specs.Memory.Labels.{converted_labels};
ghost use Rattle.memory_model.specs.Memory.Scalars.{integer, is_false};
ghost use Rattle.memory_model.specs.Effects.IntegerEffects as machine;
ghost use Rattle.interp_memory.specs.ByteViews.{labels_view, scalar_view};
ghost use Rattle.interp_accesses.specs.WorldViews.{world_view, ComesTo, Computes};

use crate::worlds::{Cause, Halt, World7};
use cc_base::{IntType, Rel};
use cfg::Scalar;
use interp_memory::{LabelSet, Pointer7, Value7, unlabelled};

// 0 or 1.
pub fn truth_value(holds: bool) -> Value7
    ensures { scalar_view result ≡ machine.truth holds }
{
    Value7::Int(i128::from(holds), unlabelled())
}

// Whether two numbers have a relation.
pub fn numbers_hold(rel: Rel, a: i128, b: i128) -> bool
    ensures { result ≡ holds rel a b }
{
    match rel {
        Rel::Lt => a < b,
        Rel::Le => a <= b,
        Rel::Gt => a > b,
        Rel::Ge => a >= b,
        Rel::Eq => a == b,
        Rel::Ne => a != b,
    }
}

/// A relation of two integers.
pub fn compare_numbers(w: &World7, rel: Rel, left: Value7, right: Value7) -> Result<Value7, Halt>
    ensures { ComesTo scalar_view (machine.compare_numbers rel (scalar_view left) (scalar_view right) (world_view w.now)) result (world_view w.now) }
{
    match (left, right) {
        (Value7::Int(a, _), Value7::Int(b, _)) => Ok(truth_value(numbers_hold(rel, a, b))),
        (Value7::Int(_, _), Value7::Ptr(_)) => Err(Halt::Stops(Cause::Stuck)),
        (Value7::Ptr(_), _) => Err(Halt::Stops(Cause::Stuck)),
    }
}

// Whether a scalar is 0 or null.
pub fn is_false_value(value: Value7) -> bool
    ensures { result ≡ is_false (scalar_view value) }
{
    match value {
        Value7::Int(number, _) => number == 0,
        Value7::Ptr(p) => p == Pointer7::Null,
    }
}

/// Whether a scalar is 0 or null, as 0 or 1.
pub fn negation(w: &World7, operand: Value7) -> Result<Value7, Halt>
    ensures { ComesTo scalar_view (machine.negation (scalar_view operand) (world_view w.now)) result (world_view w.now) }
{
    Ok(truth_value(is_false_value(operand)))
}

/// A null pointer constant becomes a null pointer (6.3.2.3).
pub fn pointer_from(w: &World7, value: Value7) -> Result<Value7, Halt>
    ensures { ComesTo scalar_view (machine.pointer_from (scalar_view value) (world_view w.now)) result (world_view w.now) }
{
    match value {
        Value7::Int(number, _) => {
            if number == 0 {
                Ok(Value7::Ptr(Pointer7::Null))
            } else {
                Err(Halt::Stops(Cause::Stuck))
            }
        }
        Value7::Ptr(p) => Ok(Value7::Ptr(p)),
    }
}

// Whether an integer type has a size that there is.
pub fn has_size(kind: IntType) -> bool
    ensures { result ≡ is_size kind.bytes }
{
    kind.bytes == 1 || kind.bytes == 2 || kind.bytes == 4 || kind.bytes == 8
}

// The labels of a number that is converted.
fn converted_set(labels: LabelSet, to: IntType, fits: bool) -> LabelSet
    ensures { labels_view result ≡ converted_labels (labels_view labels) to fits }
{
    LabelSet {
        low: to.signed && labels.low,
        high: labels.high || (!to.signed && labels.low),
        changed: labels.changed || !fits,
    }
}

// A number with labels.
fn labelled(number: i128, labels: LabelSet) -> Value7
    ensures { scalar_view result ≡ integer number (labels_view labels) }
{
    Value7::Int(number, labels)
}

// A number in another type. A type or a number that no unit has comes to want of memory.
fn converted_number(kind: IntType, number: i128, labels: LabelSet) -> Result<Value7, Halt>
    ensures { Computes scalar_view (machine.as_integer kind number (labels_view labels)) result }
{
    if !has_size(kind) {
        return Err(Halt::Memory);
    }
    match number.checked_sub(kind.least()) {
        None => Err(Halt::Memory),
        Some(_) => Ok(labelled(
            kind.wrap(number),
            converted_set(labels, kind, kind.has(number)),
        )),
    }
}

/// A scalar in another type (6.3.1.3 and 6.3.2.3).
pub fn convert(w: &World7, kind: Scalar, value: Value7) -> Result<Value7, Halt>
    ensures { ComesTo scalar_view (machine.convert kind (scalar_view value) (world_view w.now)) result (world_view w.now) }
{
    match (kind, value) {
        (Scalar::Int(kind), Value7::Int(number, labels)) => converted_number(kind, number, labels),
        (Scalar::Int(_), Value7::Ptr(_)) => Err(Halt::Stops(Cause::Stuck)),
        (Scalar::Pointer, _) => pointer_from(w, value),
    }
}
