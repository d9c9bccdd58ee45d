//! Operations on the newest values.
ghost use Rattle.std.specs.Prelude.{◌≡◌, true};
ghost use Rattle.c_layout.specs.CheckedUnits.{unit_view};
ghost use Rattle.c_layout.specs.Models.{is_model};
ghost use Rattle.memory_model.specs.Effects.IntegerEffects as integers;
ghost use Rattle.interp_memory.specs.ByteViews.{scalar_view};
ghost use Rattle.interp_accesses.specs.WorldViews.{world_view, ComesTo};
ghost use Rattle.semantics.specs.SourceMachine.Operations as machine;
ghost use Rattle.interp_stack.specs.ItemViews.{operation_view, order_view};
ghost use Rattle.interp_steps.specs.Operations.Operands.{one_of, two_of, order_of};
ghost use Rattle.interp_steps.specs.Operations.Pending.{pending, Operates};

use crate::operations::library_operations::call_library;
use crate::operations::model_steps::{copy_to, load_from, store_to};
use crate::operations::values::{Operands, pop_two, pop_value, push_given, push_value};
use c_layout::Checked;
use cfg::Scalar;
use interp_accesses::{
    Halt, World7, compare, compare_numbers, convert, difference, narrow, negation, shift,
};
use interp_memory::{Value7, unlabelled};
use interp_operators::numbers::{binary, unary};
use interp_stack::{Operation7, Order7};

// The 1 of `++` and `--`.
fn plain_one() -> Value7
    ensures { scalar_view result ≡ integers.plain_one }
{
    Value7::Int(1, unlabelled())
}

// ---- operations of one value

#[inline(always)]
fn one(
    w: &mut World7,
    unit: &Checked,
    operation: Operation7,
    operand: Value7,
) -> Result<Value7, Halt>
    ensures { ComesTo scalar_view (one_of (unit_view unit.now) (operation_view operation.entry) (scalar_view operand) (world_view w.old)) result (world_view w.new) }
{
    match operation {
        Operation7::Load(kind) => load_from(w, unit, kind, operand),
        Operation7::Narrow(offset, size) => narrow(w, operand, offset, size),
        Operation7::ShiftByOne(size, back) => shift(w, operand, plain_one(), size, back),
        Operation7::BinaryByOne(sign, kind) => binary(w, sign, kind, operand, plain_one()),
        Operation7::Unary(sign, kind) => unary(w, sign, kind, operand),
        Operation7::Not => negation(w, operand),
        Operation7::Convert(kind) => convert(w, kind, operand),
        _ => Err(Halt::Memory),
    }
}

#[inline(always)]
fn operate_one(
    values: &mut Vec<Value7>,
    w: &mut World7,
    unit: &Checked,
    operation: Operation7,
) -> Result<(), Halt>
    ensures { Operates (machine.on_one (pending values.old.items) (world_view w.old) (one_of (unit_view unit.now) (operation_view operation.entry))) result values.new.items (world_view w.new) }
{
    let operand = pop_value(values)?;
    let given = one(w, unit, operation, operand);
    push_given(values, given)
}

// ---- operations of two values

#[inline(always)]
fn two(
    w: &mut World7,
    unit: &Checked,
    operation: Operation7,
    both: Operands,
) -> Result<Value7, Halt>
    requires { is_model unit.now.model ≡ true }
    ensures { ComesTo scalar_view (two_of (unit_view unit.now) (operation_view operation.entry) (scalar_view both.left) (scalar_view both.right) (world_view w.old)) result (world_view w.new) }
{
    match operation {
        Operation7::Store(kind) => store_to(w, unit, kind, both.left, both.right),
        Operation7::Copy(t) => copy_to(w, unit, t, both.left, both.right),
        Operation7::Shift(_, size, back) => shift(w, both.left, both.right, size, back),
        Operation7::Binary(_, sign, kind) => binary(w, sign, kind, both.left, both.right),
        Operation7::Compare(rel) => compare_numbers(w, rel, both.left, both.right),
        Operation7::Difference(size) => difference(w, both.left, both.right, size),
        Operation7::ComparePointers(rel) => compare(w, rel, both.left, both.right),
        _ => Err(Halt::Memory),
    }
}

#[inline(always)]
fn order_in(operation: Operation7) -> Order7
    ensures { order_view result ≡ order_of (operation_view operation.entry) }
{
    match operation {
        Operation7::Shift(order, _, _) => order,
        Operation7::Binary(order, _, _) => order,
        _ => Order7::LeftFirst,
    }
}

#[inline(always)]
fn operate_two(
    values: &mut Vec<Value7>,
    w: &mut World7,
    unit: &Checked,
    operation: Operation7,
) -> Result<(), Halt>
    requires { is_model unit.now.model ≡ true }
    ensures { Operates (machine.on_two (order_of (operation_view operation.entry)) (pending values.old.items) (world_view w.old) (two_of (unit_view unit.now) (operation_view operation.entry))) result values.new.items (world_view w.new) }
{
    let both = pop_two(values, order_in(operation))?;
    let given = two(w, unit, operation, both);
    push_given(values, given)
}

// ---- operations that leave a pointer

#[inline(always)]
fn load_over(
    values: &mut Vec<Value7>,
    w: &mut World7,
    unit: &Checked,
    kind: Scalar,
) -> Result<(), Halt>
    ensures { Operates (machine.load_over (unit_view unit.now) kind (pending values.old.items) (world_view w.old)) result values.new.items (world_view w.new) }
{
    let at = pop_value(values)?;
    push_value(values, at)?;
    let given = load_from(w, unit, kind, at);
    push_given(values, given)
}

#[inline(always)]
fn load_under(
    values: &mut Vec<Value7>,
    w: &mut World7,
    unit: &Checked,
    kind: Scalar,
) -> Result<(), Halt>
    ensures { Operates (machine.load_under (unit_view unit.now) kind (pending values.old.items) (world_view w.old)) result values.new.items (world_view w.new) }
{
    let right = pop_value(values)?;
    let at = pop_value(values)?;
    push_value(values, at)?;
    push_value(values, right)?;
    let given = load_from(w, unit, kind, at);
    push_given(values, given)
}

#[inline(always)]
fn store_over(
    values: &mut Vec<Value7>,
    w: &mut World7,
    unit: &Checked,
    kind: Scalar,
) -> Result<(), Halt>
    ensures { Operates (machine.store_over (unit_view unit.now) kind (pending values.old.items) (world_view w.old)) result values.new.items (world_view w.new) }
{
    let value = pop_value(values)?;
    let old = pop_value(values)?;
    let at = pop_value(values)?;
    store_to(w, unit, kind, at, value)?;
    push_value(values, old)
}

// ---- all operations

/// Performs an operation on the newest values.
#[inline(always)]
pub fn perform(
    values: &mut Vec<Value7>,
    w: &mut World7,
    unit: &Checked,
    operation: Operation7,
) -> Result<(), Halt>
    requires { is_model unit.now.model ≡ true }
    ensures { Operates (machine.perform (unit_view unit.now) (operation_view operation.entry) (pending values.old.items) (world_view w.old)) result values.new.items (world_view w.new) }
{
    match operation {
        Operation7::Number(n) => push_value(values, Value7::Int(*n, unlabelled())),
        Operation7::Size(n) => push_value(values, Value7::Int(i128::from(n), unlabelled())),
        Operation7::Load(_) => operate_one(values, w, unit, operation),
        Operation7::LoadUnder(kind) => load_under(values, w, unit, kind),
        Operation7::LoadOver(kind) => load_over(values, w, unit, kind),
        Operation7::Store(_) => operate_two(values, w, unit, operation),
        Operation7::StoreOver(kind) => store_over(values, w, unit, kind),
        Operation7::Copy(_) => operate_two(values, w, unit, operation),
        Operation7::Narrow(_, _) => operate_one(values, w, unit, operation),
        Operation7::Shift(_, _, _) => operate_two(values, w, unit, operation),
        Operation7::ShiftByOne(_, _) => operate_one(values, w, unit, operation),
        Operation7::Binary(_, _, _) => operate_two(values, w, unit, operation),
        Operation7::BinaryByOne(_, _) => operate_one(values, w, unit, operation),
        Operation7::Unary(_, _) => operate_one(values, w, unit, operation),
        Operation7::Compare(_) => operate_two(values, w, unit, operation),
        Operation7::Not => operate_one(values, w, unit, operation),
        Operation7::Difference(_) => operate_two(values, w, unit, operation),
        Operation7::ComparePointers(_) => operate_two(values, w, unit, operation),
        Operation7::Convert(_) => operate_one(values, w, unit, operation),
        Operation7::Library(function, count, target) => {
            match call_library(values, w, unit, function, count, target) {
                Ok(()) => Ok(()),
                Err(halt) => Err(halt),
            }
        }
    }
}
