//! Which rules operators on integers violate.
ghost use Rattle.std.specs.Prelude.{◌≡◌, ◌&&◌, Bool, true};
ghost use Rattle.cc_base.specs.IntegerTypes.{is_size};
ghost use Rattle.cc_base.specs.MachineArithmetic as math;
ghost use Rattle.cc_base.specs.declared.integer_operators.IntOp.TheVariants as int_op;
ghost use Rattle.memory_model.specs.Effects.IntegerEffects as machine;
ghost use Rattle.memory_model.specs.Effects.Worlds as worlds;
ghost use Rattle.interp_memory.specs.ByteViews.{labels_view, scalar_view};
ghost use Rattle.interp_accesses.specs.WorldViews.{world_view, why_view, Computes, ComesTo, nothing_view};
ghost use Rattle.interp_operators.specs.Numbers.FaultViews.{faults_view};

use crate::numbers::number_results::{exact, exact_one, is_count, is_quotient_overflow};
use cc_base::{IntOp, IntType, Rule, UnOp};
use interp_accesses::{Cause, Halt, World7};
use interp_memory::{LabelSet, Value7};

/// Whether a division is undefined, and whether a result leaves its type.
#[derive(Clone, Copy)]
pub(crate) struct Faults {
    pub(crate) division: bool,
    pub(crate) overflow: bool,
}

// Whether a type does not have a mathematical result.
pub(crate) fn is_outside(kind: IntType, n: Option<i128>) -> bool
    requires { is_size kind.bytes ≡ true }
    ensures { result ≡ machine.is_outside kind n }
{
    match n {
        None => false,
        Some(n) => !kind.has(n),
    }
}

// A division by 0, or a quotient that its type has not.
fn division_faults(kind: IntType, a: i128, b: i128) -> Faults
    requires { is_size kind.bytes ≡ true }
    ensures { faults_view result ≡ machine.division_faults kind a b }
{
    let overflow = is_quotient_overflow(kind, a, b);
    Faults {
        division: b == 0 || overflow,
        overflow,
    }
}

// A result outside a signed type.
fn overflow_faults(kind: IntType, n: Option<i128>) -> Faults
    requires { is_size kind.bytes ≡ true }
    ensures { faults_view result ≡ machine.overflow_faults kind n }
{
    Faults {
        division: false,
        overflow: kind.signed && is_outside(kind, n),
    }
}

// Whether a shift by a count that is defined leaves its type.
fn shift_leaves(kind: IntType, a: i128, b: i128) -> Result<bool, Halt>
    requires { is_size kind.bytes ≡ true }
    ensures { Computes (λ (x : Bool). x) (math.is_count kind b && machine.is_outside kind (machine.result_of int_op.Shl a b)) result }
{
    if !is_count(kind, b) {
        return Ok(false);
    }
    let n = exact(IntOp::Shl, a, b)?;
    Ok(is_outside(kind, n))
}

// A left shift of a negative number, and a result outside the type.
fn shift_faults(kind: IntType, a: i128, b: i128) -> Result<Faults, Halt>
    requires { is_size kind.bytes ≡ true }
    ensures { Computes faults_view (machine.shift_faults kind a b) result }
{
    if !kind.signed {
        return Ok(Faults {
            division: false,
            overflow: false,
        });
    }
    let overflow = a < 0 || shift_leaves(kind, a, b)?;
    Ok(Faults {
        division: false,
        overflow,
    })
}

/// What a binary operator on two numbers violates.
pub(crate) fn binary_faults(op: IntOp, kind: IntType, a: i128, b: i128) -> Result<Faults, Halt>
    requires { is_size kind.bytes ≡ true }
    ensures { Computes faults_view (machine.binary_faults op kind a b) result }
{
    match op {
        IntOp::Div | IntOp::Rem => Ok(division_faults(kind, a, b)),
        IntOp::Shl => shift_faults(kind, a, b),
        IntOp::Add | IntOp::Sub | IntOp::Mul => exact_faults(op, kind, a, b),
        IntOp::And | IntOp::Or | IntOp::Xor | IntOp::Shr => exact_faults(op, kind, a, b),
    }
}

// A mathematical result outside a signed type; of an unsigned one it is not computed.
fn exact_faults(op: IntOp, kind: IntType, a: i128, b: i128) -> Result<Faults, Halt>
    requires { is_size kind.bytes ≡ true }
    ensures { Computes faults_view (machine.overflow_faults kind (machine.result_of op a b)) result }
{
    if !kind.signed {
        return Ok(Faults {
            division: false,
            overflow: false,
        });
    }
    let n = exact(op, a, b)?;
    Ok(overflow_faults(kind, n))
}

/// What a unary operator on a number violates.
pub(crate) fn unary_faults(op: UnOp, kind: IntType, a: i128) -> Result<Faults, Halt>
    requires { is_size kind.bytes ≡ true }
    ensures { Computes faults_view (machine.overflow_faults kind (machine.unary_math op a)) result }
{
    let n = exact_one(op, a)?;
    Ok(overflow_faults(kind, n))
}

/// Why a run stops where there is no result.
fn cause_of(faults: Faults) -> Cause
    ensures { why_view result ≡ machine.why_none (faults_view faults) }
{
    if faults.division || faults.overflow {
        Cause::Violated
    } else {
        Cause::Left
    }
}

// What an operator violates is noted.
fn note_faults(w: &mut World7, faults: Faults) -> Result<(), Halt>
    ensures { ComesTo nothing_view (worlds.done (worlds.violating (world_view w.old) (faults_view faults))) result (world_view w.new) }
{
    w.note(faults.division, Rule::Diverr)?;
    w.note(faults.overflow, Rule::Intoflow)
}

/// A result, where there is one, behind what is violated.
pub(crate) fn computed(
    w: &mut World7,
    faults: Faults,
    number: Option<i128>,
    labels: LabelSet,
) -> Result<Value7, Halt>
    ensures { ComesTo scalar_view (machine.computed (faults_view faults) number (labels_view labels) (world_view w.old)) result (world_view w.new) }
{
    note_faults(w, faults)?;
    match number {
        None => Err(Halt::Stops(cause_of(faults))),
        Some(n) => Ok(Value7::Int(n, labels)),
    }
}
