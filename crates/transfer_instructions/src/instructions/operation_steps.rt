//! What an instruction makes of a row.
ghost use Rattle.std.specs.Prelude.{◌≡◌, true, false, Some, None, length};
ghost use Rattle.transfer_instructions.specs.Instructions.OperationGroups.{is_on_values, is_on_pointers, is_on_objects};
ghost use Rattle.transfer_instructions.specs.Instructions.Steps.{operate, step_in, step};

use crate::instructions::call_steps::{call_step, line_goes_on};
use crate::instructions::memory_steps::{copy_step, load_step, store_step};
use crate::instructions::operation_groups::{is_on_objects, is_on_pointers, is_on_values};
use crate::values::{
    address_step, binary_step, compare_step, constant_step, convert_step, difference_step,
    narrow_step, not_step, relation_step, shift_step, unary_step,
};
use cc_base::IntDomain;
use cfg::{BasicBlock, Flow, Operation};
use store::{clear, enter, forget, leave, spell};
use value_domain::values::Cell;

/// An operation on integers, or a conversion.
#[tactic(auto, unfolding(crate::specs::Instructions::Steps::operate))]
fn operate_on_values<I: IntDomain>(flow: &Flow, row: &mut [Cell<I>], operation: &Operation) -> bool
    requires { is_on_values operation.now ≡ true }
    ensures length { length row.new ≡ length row.old }
    ensures reached { result ≡ true → operate I.lattice I.numbers flow.now row.old operation.now ≡ Some row.new }
    ensures unreached { result ≡ false → operate I.lattice I.numbers flow.now row.old operation.now ≡ None }
{
    match operation {
        Operation::Constant(to_temp, number, _) => constant_step(flow, row, *to_temp, *number),
        Operation::Binary(to_temp, op, left, right, kind) => {
            binary_step(flow, row, *to_temp, *op, *left, *right, *kind)
        }
        Operation::Unary(to_temp, op, operand, kind) => {
            unary_step(flow, row, *to_temp, *op, *operand, *kind)
        }
        Operation::Compare(to_temp, rel, left, right) => {
            compare_step(flow, row, *to_temp, *rel, *left, *right)
        }
        Operation::Not(to_temp, operand, _) => not_step(flow, row, *to_temp, *operand),
        Operation::Convert(to_temp, operand, from, to) => {
            convert_step(flow, row, *to_temp, *operand, *from, *to)
        }
        _ => false,
    }
}

/// An operation that makes, moves or compares pointers.
#[tactic(auto, unfolding(crate::specs::Instructions::Steps::operate))]
fn operate_on_pointers<I: IntDomain>(
    flow: &Flow,
    row: &mut [Cell<I>],
    operation: &Operation,
) -> bool
    requires { is_on_pointers operation.now ≡ true }
    ensures length { length row.new ≡ length row.old }
    ensures reached { result ≡ true → operate I.lattice I.numbers flow.now row.old operation.now ≡ Some row.new }
    ensures unreached { result ≡ false → operate I.lattice I.numbers flow.now row.old operation.now ≡ None }
{
    match operation {
        Operation::Address(to_temp, base, offset) => {
            address_step(flow, row, *to_temp, *base, *offset)
        }
        Operation::Narrow(to_temp, pointer, offset, size) => {
            narrow_step(flow, row, *to_temp, *pointer, *offset, *size)
        }
        Operation::Shift(to_temp, pointer, amount, scale, backwards) => {
            shift_step(flow, row, *to_temp, *pointer, *amount, *scale, *backwards)
        }
        Operation::Difference(to_temp, left, right, size) => {
            difference_step(flow, row, *to_temp, *left, *right, *size)
        }
        Operation::ComparePointers(to_temp, rel, left, right) => {
            relation_step(flow, row, *to_temp, *rel, *left, *right)
        }
        _ => false,
    }
}

/// An operation on the bytes of a named object.
#[tactic(auto, unfolding(crate::specs::Instructions::Steps::operate))]
fn operate_on_objects<I: IntDomain>(flow: &Flow, row: &mut [Cell<I>], operation: &Operation) -> bool
    requires { is_on_objects operation.now ≡ true }
    ensures length { length row.new ≡ length row.old }
    ensures reached { result ≡ true → operate I.lattice I.numbers flow.now row.old operation.now ≡ Some row.new }
    ensures unreached { result ≡ false → operate I.lattice I.numbers flow.now row.old operation.now ≡ None }
{
    let bases = flow.bases.as_slice();
    match operation {
        Operation::Enter(base) => {
            enter(bases, row, *base);
            true
        }
        Operation::Leave(base) => {
            leave(bases, row, *base);
            true
        }
        Operation::Forget(base) => {
            forget(bases, row, *base);
            true
        }
        Operation::Clear(base) => {
            clear(bases, row, *base);
            true
        }
        Operation::Spell(base, offset, room, text) => {
            spell(bases, row, *base, *offset, *room, text.as_bytes());
            true
        }
        _ => false,
    }
}

/// An operation on memory, or one that ends its block.
#[tactic(auto, unfolding(crate::specs::Instructions::Steps::operate))]
fn operate_on_memory<I: IntDomain>(flow: &Flow, row: &mut [Cell<I>], operation: &Operation) -> bool
    requires values { is_on_values operation.now ≡ false }
    requires pointers { is_on_pointers operation.now ≡ false }
    requires objects { is_on_objects operation.now ≡ false }
    ensures length { length row.new ≡ length row.old }
    ensures reached { result ≡ true → operate I.lattice I.numbers flow.now row.old operation.now ≡ Some row.new }
    ensures unreached { result ≡ false → operate I.lattice I.numbers flow.now row.old operation.now ≡ None }
{
    match operation {
        Operation::Load(to_temp, pointer, scalar) => {
            load_step(flow, row, *to_temp, *pointer, *scalar)
        }
        Operation::Store(pointer, value, scalar, kept) => {
            store_step(flow, row, *pointer, *value, *scalar, *kept)
        }
        Operation::Copy(to, from, index) => copy_step(flow, row, *to, *from, *index),
        Operation::Library(to_temp, function, arguments, newest, wanted) => {
            let arguments = arguments.as_slice();
            call_step(flow, row, *to_temp, *function, arguments, *newest, *wanted)
        }
        Operation::ReadLine(_, line, count, stream) => {
            line_goes_on(flow, row, *line, *count, *stream)
        }
        Operation::Jump => true,
        Operation::Branch(_, _) => true,
        Operation::Switch(_, _) => true,
        _ => false,
    }
}

/// Does one operation: `row` is the row before it, and then the row after it. False where no run goes on
/// behind it; then the row is unspecified.
pub fn operate<I: IntDomain>(flow: &Flow, row: &mut [Cell<I>], operation: &Operation) -> bool
    ensures length { length row.new ≡ length row.old }
    ensures reached { result ≡ true → operate I.lattice I.numbers flow.now row.old operation.now ≡ Some row.new }
    ensures unreached { result ≡ false → operate I.lattice I.numbers flow.now row.old operation.now ≡ None }
{
    if is_on_values(operation) {
        operate_on_values(flow, row, operation)
    } else if is_on_pointers(operation) {
        operate_on_pointers(flow, row, operation)
    } else if is_on_objects(operation) {
        operate_on_objects(flow, row, operation)
    } else {
        operate_on_memory(flow, row, operation)
    }
}

/// Does one instruction of the block; false where there is no such instruction.
fn step_in<I: IntDomain>(flow: &Flow, row: &mut [Cell<I>], block: &BasicBlock, at: u32) -> bool
    ensures length { length row.new ≡ length row.old }
    ensures reached { result ≡ true → step_in I.lattice I.numbers flow.now row.old at (Some block.now) ≡ Some row.new }
    ensures unreached { result ≡ false → step_in I.lattice I.numbers flow.now row.old at (Some block.now) ≡ None }
{
    match block.instructions.get(at as usize) {
        None => false,
        Some(found) => operate(flow, row, &found.operation),
    }
}

/// Does one instruction of a block: `row` is the row before it, and then the row after it. False
/// where no run goes on behind the instruction, or there is no such instruction; then the row is
/// unspecified.
#[tactic(auto, unfolding(crate::specs::Instructions::Steps::step))]
pub fn step<I: IntDomain>(flow: &Flow, row: &mut [Cell<I>], block: u32, at: u32) -> bool
    ensures length { length row.new ≡ length row.old }
    ensures reached { result ≡ true → step I.lattice I.numbers flow.now row.old block at ≡ Some row.new }
    ensures unreached { result ≡ false → step I.lattice I.numbers flow.now row.old block at ≡ None }
{
    match flow.blocks.get(block as usize) {
        None => false,
        Some(found) => step_in(flow, row, found, at),
    }
}
