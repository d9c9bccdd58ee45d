//! What an instruction may violate.
ghost use Rattle.std.specs.Prelude.{◌≡◌, true, false, Some};
ghost use Rattle.transfer_instructions.specs.Instructions.OperationGroups.{is_on_values, is_on_pointers};
ghost use Rattle.transfer_instructions.specs.Instructions.StepViolations.{relation_violations, operation_violations, violations_in, violations_at};

use crate::instructions::call_steps::{call_violations, line_violations};
use crate::instructions::memory_steps::{copy_violations, load_violations, store_violations};
use crate::instructions::operation_groups::{is_on_pointers, is_on_values};
use crate::values::{
    binary_checks, comparison_violations, equality_violations, narrow_violations, shift_checks,
    unary_checks,
};
use cc_base::{IntDomain, Rel};
use cfg::{BasicBlock, Flow, Operation};
use transfer_checks::Violations;
use value_domain::values::Cell;

/// What a relation of two pointers may violate.
fn relation_violations<I: IntDomain>(
    flow: &Flow,
    row: &[Cell<I>],
    rel: Rel,
    left: u32,
    right: u32,
) -> Violations
    ensures { result ≡ relation_violations I.lattice I.numbers flow.now row.now rel left right }
{
    match rel {
        Rel::Eq => equality_violations(flow, row, left, right),
        Rel::Ne => equality_violations(flow, row, left, right),
        Rel::Lt => comparison_violations(flow, row, left, right),
        Rel::Le => comparison_violations(flow, row, left, right),
        Rel::Gt => comparison_violations(flow, row, left, right),
        Rel::Ge => comparison_violations(flow, row, left, right),
    }
}

/// What an operation on integers may violate.
#[tactic(auto, unfolding(crate::specs::Instructions::StepViolations::operation_violations))]
fn value_violations<I: IntDomain>(flow: &Flow, row: &[Cell<I>], operation: &Operation) -> Violations
    requires { is_on_values operation.now ≡ true }
    ensures { result ≡ operation_violations I.lattice I.numbers flow.now row.now operation.now }
{
    let nothing = Violations::none();
    match operation {
        Operation::Binary(_, op, left, right, kind) => {
            binary_checks(flow, row, *op, *left, *right, *kind)
        }
        Operation::Unary(_, op, operand, kind) => unary_checks(flow, row, *op, *operand, *kind),
        _ => nothing,
    }
}

/// What an operation on pointers may violate.
#[tactic(auto, unfolding(crate::specs::Instructions::StepViolations::operation_violations))]
fn pointer_violations<I: IntDomain>(
    flow: &Flow,
    row: &[Cell<I>],
    operation: &Operation,
) -> Violations
    requires { is_on_pointers operation.now ≡ true }
    ensures { result ≡ operation_violations I.lattice I.numbers flow.now row.now operation.now }
{
    let nothing = Violations::none();
    match operation {
        Operation::Narrow(_, pointer, offset, size) => {
            narrow_violations(flow, row, *pointer, *offset, *size)
        }
        Operation::Shift(_, pointer, amount, scale, backwards) => {
            shift_checks(flow, row, *pointer, *amount, *scale, *backwards)
        }
        Operation::Difference(_, left, right, _) => {
            comparison_violations(flow, row, *left, *right)
        }
        Operation::ComparePointers(_, rel, left, right) => {
            relation_violations(flow, row, *rel, *left, *right)
        }
        _ => nothing,
    }
}

/// What an operation on memory may violate; one on the bytes of an object, or that ends its block,
/// violates nothing.
#[tactic(auto, unfolding(crate::specs::Instructions::StepViolations::operation_violations))]
fn memory_violations<I: IntDomain>(
    flow: &Flow,
    row: &[Cell<I>],
    operation: &Operation,
) -> Violations
    requires values { is_on_values operation.now ≡ false }
    requires pointers { is_on_pointers operation.now ≡ false }
    ensures { result ≡ operation_violations I.lattice I.numbers flow.now row.now operation.now }
{
    let nothing = Violations::none();
    match operation {
        Operation::Load(_, pointer, scalar) => load_violations(flow, row, *pointer, *scalar),
        Operation::Store(pointer, _, scalar, _) => store_violations(flow, row, *pointer, *scalar),
        Operation::Copy(to, from, index) => copy_violations(flow, row, *to, *from, *index),
        Operation::Library(_, function, arguments, _, wanted) => {
            call_violations(flow, row, *function, arguments.as_slice(), *wanted)
        }
        Operation::ReadLine(_, line, count, stream) => {
            line_violations(flow, row, *line, *count, *stream)
        }
        _ => nothing,
    }
}

/// What an operation may violate in the row before it.
pub fn operation_violations<I: IntDomain>(
    flow: &Flow,
    row: &[Cell<I>],
    operation: &Operation,
) -> Violations
    ensures { result ≡ operation_violations I.lattice I.numbers flow.now row.now operation.now }
{
    if is_on_values(operation) {
        value_violations(flow, row, operation)
    } else if is_on_pointers(operation) {
        pointer_violations(flow, row, operation)
    } else {
        memory_violations(flow, row, operation)
    }
}

/// What an instruction of the block may violate; nothing where there is no such instruction.
fn violations_in<I: IntDomain>(
    flow: &Flow,
    row: &[Cell<I>],
    block: &BasicBlock,
    at: u32,
) -> Violations
    ensures { result ≡ violations_in I.lattice I.numbers flow.now row.now at (Some block.now) }
{
    match block.instructions.get(at as usize) {
        None => Violations::none(),
        Some(found) => operation_violations(flow, row, &found.operation),
    }
}

/// The rules that an instruction of a block may violate in the row before it; none where there is no
/// such instruction.
#[tactic(auto, unfolding(crate::specs::Instructions::StepViolations::violations_at))]
pub fn violations_at<I: IntDomain>(flow: &Flow, row: &[Cell<I>], block: u32, at: u32) -> Violations
    ensures { result ≡ violations_at I.lattice I.numbers flow.now row.now block at }
{
    match flow.blocks.get(block as usize) {
        None => Violations::none(),
        Some(found) => violations_in(flow, row, found, at),
    }
}
