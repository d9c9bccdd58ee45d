//! Edges with tests: the run goes on where the test agrees with memory.
ghost use Rattle.std.specs.Prelude.{◌≡◌, ℤ, Bool, option_map};
ghost use Rattle.cc_base.specs.IntegerTypes.{wrap_into};
ghost use Rattle.memory_model.specs.Effects.Worlds.{with_memory};
ghost use Rattle.memory_model.specs.Effects.Tests as machine;
ghost use Rattle.interp_memory.specs.ByteViews.{pointer_view, scalar_view};
ghost use Rattle.interp_accesses.specs.WorldViews.{world_view, Computes, ComesTo, Leaves, nothing_view};
ghost use Rattle.interp_operators.specs.Tests.SideViews.{side_view, test_view};

use crate::tests::side_labels::{Drops, bounded, side_labels, with_labels};
use crate::tests::test_sides::{Side7, Test7, side_scalar, turned};
use c_layout::Model;
use cc_base::{IntType, Rel};
use cfg::Scalar;
use interp_accesses::{Cause, Halt, World7, are_equal, has_size, numbers_hold};
use interp_memory::{Pointer7, Value7};

// Whether a relation holds of two pointers.
fn pointers_hold(rel: Rel, p: Pointer7, q: Pointer7) -> bool
    ensures { result ≡ machine.pointers_hold rel (pointer_view p) (pointer_view q) }
{
    match rel {
        Rel::Eq => are_equal(p, q),
        Rel::Ne => !are_equal(p, q),
        Rel::Lt | Rel::Le | Rel::Gt | Rel::Ge => false,
    }
}

// A number in a type. A type or a number that no unit has comes to want of memory.
fn wrapped(kind: IntType, n: i128) -> Result<i128, Halt>
    ensures { Computes (λ (x : ℤ). x) (wrap_into kind n) result }
{
    if !has_size(kind) {
        return Err(Halt::Memory);
    }
    match n.checked_sub(kind.least()) {
        Some(_) => Ok(kind.wrap(n)),
        None => Err(Halt::Memory),
    }
}

// Whether a relation holds of two integers in their common type, or of two pointers.
fn scalars_hold(
    rel: Rel,
    common: Option<IntType>,
    left: Value7,
    right: Value7,
) -> Result<bool, Halt>
    ensures { Computes (λ (x : Bool). x) (machine.scalars_hold rel common (scalar_view left) (scalar_view right)) result }
{
    match (common, left, right) {
        (Some(common), Value7::Int(a, _), Value7::Int(b, _)) => Ok(numbers_hold(
            rel,
            wrapped(common, a)?,
            wrapped(common, b)?,
        )),
        (None, Value7::Ptr(p), Value7::Ptr(q)) => Ok(pointers_hold(rel, p, q)),
        (Some(_), Value7::Int(_, _), Value7::Ptr(_)) => Ok(false),
        (Some(_), Value7::Ptr(_), _) => Ok(false),
        (None, Value7::Ptr(_), Value7::Int(_, _)) => Ok(false),
        (None, Value7::Int(_, _), _) => Ok(false),
    }
}

// Whether a test agrees with memory.
fn test_holds(w: &World7, model: &Model, test: Test7) -> Result<bool, Halt>
    ensures { Computes (λ (x : Bool). x) (machine.test_holds model.now w.now.memory.memory (test_view test)) result }
{
    let left = side_scalar(&w.memory, model, test.left)?;
    let right = side_scalar(&w.memory, model, test.right)?;
    match (left, right) {
        (Some(left), Some(right)) => scalars_hold(test.rel, test.common, left, right),
        (Some(_), None) => Ok(false),
        (None, _) => Ok(false),
    }
}

// The labels that a test of integers drops; both sides are seen as they are before.
fn both_bounded(w: &mut World7, model: &Model, test: Test7, common: IntType) -> Result<(), Halt>
    ensures { Leaves (with_memory (world_view w.old) (machine.both_bounded model.now test.rel common (side_view test.left) (side_view test.right) w.old.memory.memory)) result (world_view w.new) }
{
    let left = side_labels(&w.memory, model, test.left)?;
    let right = side_labels(&w.memory, model, test.right)?;
    bounded(w, model, test.rel, common, test.left, right)?;
    bounded(w, model, turned(test.rel), common, test.right, left)
}

// The labels that a test drops; one of pointers drops none.
fn after_test(w: &mut World7, model: &Model, test: Test7) -> Result<(), Halt>
    ensures { Leaves (with_memory (world_view w.old) (machine.after_test model.now test.common (test_view test) w.old.memory.memory)) result (world_view w.new) }
{
    match test.common {
        None => Ok(()),
        Some(common) => both_bounded(w, model, test, common),
    }
}

/// The run goes on along an edge with a test that agrees with memory.
pub fn pass_test(w: &mut World7, model: &Model, test: Test7) -> Result<(), Halt>
    ensures { ComesTo nothing_view (machine.pass_test model.now (test_view test) (world_view w.old)) result (world_view w.new) }
{
    let holds = test_holds(w, model, test)?;
    after_test(w, model, test)?;
    if holds {
        Ok(())
    } else {
        Err(Halt::Stops(Cause::Stuck))
    }
}

// Whether a scalar is a number.
fn is_number(number: i128, value: Option<Value7>) -> bool
    ensures { result ≡ machine.is_number number (option_map scalar_view value) }
{
    match value {
        Some(Value7::Int(n, _)) => n == number,
        Some(Value7::Ptr(_)) | None => false,
    }
}

// Whether an integer object has the value of a case label.
fn case_holds(w: &World7, model: &Model, side: Side7, number: i128) -> Result<bool, Halt>
    ensures { Computes (λ (x : Bool). x) (machine.is_number number (machine.side_scalar model.now w.now.memory.memory (side_view side))) result }
{
    let value = side_scalar(&w.memory, model, side)?;
    Ok(is_number(number, value))
}

/// The run goes on at a case label where the integer object that is switched on has its value; the
/// object loses its labels.
pub fn pass_case(
    w: &mut World7,
    model: &Model,
    inst: u32,
    kind: IntType,
    number: i128,
) -> Result<(), Halt>
    ensures { ComesTo nothing_view (machine.pass_case model.now inst kind number (world_view w.old)) result (world_view w.new) }
{
    let side = Side7::Object(inst, Scalar::Int(kind));
    let holds = case_holds(w, model, side, number)?;
    with_labels(w, model, Drops::All, side)?;
    if holds {
        Ok(())
    } else {
        Err(Halt::Stops(Cause::Stuck))
    }
}
