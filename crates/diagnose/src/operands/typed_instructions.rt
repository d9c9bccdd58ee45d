//! Operands of instructions in the rows before them.
ghost use Rattle.std.specs.Prelude.{◌≡◌};
ghost use Rattle.std.specs.List.{list_all};
ghost use Rattle.cc_base.specs.IntegerTypes.{is_size};
ghost use Rattle.diagnose.specs.Diagnostics.AdmittedRules.{instructions_of, reached_row, row_behind};
ghost use Rattle.diagnose.specs.Operands.TypedRows as spec;

use c_layout::{LibFn, SizeArguments};
use cc_base::{IntDomain, IntOp, IntType};
use cfg::{Amount, Flow, Instruction, Operation, Scalar};
use transfer_checks::temp_value;
use transfer_instructions::instructions::operate;
use value_domain::values::{Cell, Value, range_fits};

/// Whether no number of a range is negative.
fn is_natural(range: Option<(i128, i128)>) -> bool
    ensures { result ≡ spec.is_natural range }
{
    match range {
        None => true,
        Some((least, _)) => 0 <= least,
    }
}

fn is_size(bytes: u8) -> bool
    ensures { result ≡ is_size bytes }
{
    bytes == 1 || (bytes == 2 || (bytes == 4 || bytes == 8))
}

/// Whether all numbers of a value are of a type, which has a size.
fn is_within<I: IntDomain>(kind: IntType, value: Value<I>) -> bool
    ensures { result ≡ spec.is_within I.numbers kind value }
{
    if is_size(kind.bytes) {
        range_fits(kind, value.num.bounds())
    } else {
        false
    }
}

/// Whether a value is of numbers alone, or of pointers alone.
fn is_of_kind<I: IntDomain>(kind: Scalar, value: Value<I>) -> bool
    ensures { result ≡ spec.is_of_kind I.numbers kind value }
{
    match kind {
        Scalar::Int(_) => !(value.pointer.is_any() || value.pointer.ended),
        Scalar::Pointer => value.num.bounds().is_none(),
    }
}

fn is_size_in<I: IntDomain>(flow: &Flow, row: &[Cell<I>], temp: u32) -> bool
    ensures { result ≡ spec.is_size_in I.lattice I.numbers flow.now row.now temp }
{
    is_natural(temp_value(flow, row, temp).num.bounds())
}

fn are_sizes<I: IntDomain>(flow: &Flow, row: &[Cell<I>], temps: &[u32]) -> bool
    ensures { result ≡ list_all (spec.is_size_in I.lattice I.numbers flow.now row.now) temps.now }
{
    temps.iter().all(|temp| is_size_in(flow, row, *temp))
}

fn has_third_size<I: IntDomain>(flow: &Flow, row: &[Cell<I>], temps: &[u32]) -> bool
    ensures { result ≡ spec.has_third_size I.lattice I.numbers flow.now row.now temps.now }
{
    match temps {
        [_, _, third] => is_size_in(flow, row, *third),
        _ => true,
    }
}

/// Whether what a function takes as a size is one.
fn takes_size<I: IntDomain>(flow: &Flow, row: &[Cell<I>], name: LibFn, temps: &[u32]) -> bool
    ensures { result ≡ spec.takes_size I.lattice I.numbers flow.now row.now name temps.now }
{
    match name.signature().sizes {
        SizeArguments::All => are_sizes(flow, row, temps),
        SizeArguments::Third => has_third_size(flow, row, temps),
        SizeArguments::None => true,
    }
}

/// Whether an amount is of a type; the 1 of `++` and `--` is of each.
fn is_amount_within<I: IntDomain>(flow: &Flow, row: &[Cell<I>], kind: IntType, by: Amount) -> bool
    ensures { result ≡ spec.is_amount_within I.lattice I.numbers flow.now row.now kind by }
{
    match by {
        Amount::Temp(temp) => is_within(kind, temp_value(flow, row, temp)),
        Amount::One => true,
    }
}

/// Whether a right operand is of its operator's type; the count of a shift may be of another.
fn has_right<I: IntDomain>(
    flow: &Flow,
    row: &[Cell<I>],
    operator: IntOp,
    kind: IntType,
    right: Amount,
) -> bool
    ensures { result ≡ spec.has_right I.lattice I.numbers flow.now row.now operator kind right }
{
    match operator {
        IntOp::Shl | IntOp::Shr => true,
        _ => is_amount_within(flow, row, kind, right),
    }
}

/// Whether the operands of an instruction lie within the types that it names, in the row before it.
#[tactic(auto, unfolding(crate::specs::Operands::TypedRows::has_operands))]
pub fn has_operands<I: IntDomain>(flow: &Flow, row: &[Cell<I>], operation: &Operation) -> bool
    ensures { result ≡ spec.has_operands I.lattice I.numbers flow.now row.now operation.now }
{
    match operation {
        Operation::Binary(_, operator, left, right, kind) => {
            is_within(*kind, temp_value(flow, row, *left))
                && has_right(flow, row, *operator, *kind, *right)
        }
        Operation::Unary(_, _, operand, kind) => is_within(*kind, temp_value(flow, row, *operand)),
        Operation::Convert(_, operand, from, _) => {
            is_of_kind(*from, temp_value(flow, row, *operand))
        }
        Operation::Library(_, name, arguments, _, _) => {
            takes_size(flow, row, *name, arguments.as_slice())
        }
        _ => true,
    }
}

/// Whether those of an instruction do, where the row before it is reached.
fn is_typed_at<I: IntDomain>(reached: bool, flow: &Flow, row: &[Cell<I>], one: &Instruction) -> bool
    ensures { result ≡ spec.is_typed_at I.lattice I.numbers flow.now one.now (reached_row reached row.now) }
{
    if reached {
        has_operands(flow, row, &one.operation)
    } else {
        true
    }
}

/// Makes of the row before an instruction, where it is reached, the row behind it; false where no run
/// goes on.
fn pass_reached<I: IntDomain>(
    reached: bool,
    flow: &Flow,
    row: &mut [Cell<I>],
    one: &Instruction,
) -> bool
    ensures { reached_row result row.new ≡ row_behind I.lattice I.numbers flow.now one.now (reached_row reached row.old) }
{
    if reached {
        if operate(flow, row, &one.operation) {
            true
        } else {
            false
        }
    } else {
        false
    }
}

/// Whether those of instructions in order do, each in the row before it, as far as the row goes on.
/// `row` is the row before the first one, and is spent.
#[tactic(auto, unfolding(crate::specs::Operands::TypedRows::are_typed))]
fn are_typed<I: IntDomain>(flow: &Flow, row: &mut [Cell<I>], instructions: &[Instruction]) -> bool
    ensures { result ≡ spec.are_typed I.lattice I.numbers flow.now instructions.now row.old }
{
    let mut reached = true;
    for at in 0..instructions.len() {
        if !is_typed_at(reached, flow, row, &instructions[at]) {
            return false;
        }
        reached = pass_reached(reached, flow, row, &instructions[at]);
    }
    true
}

/// The instructions of a block; none where there is no such block.
fn instructions_of(flow: &Flow, block: u32) -> &[Instruction]
    ensures { result.now ≡ instructions_of flow.now block }
{
    match flow.blocks.get(block as usize) {
        None => &[],
        Some(found) => found.instructions.as_slice(),
    }
}

/// Whether those of the instructions of a block do. `row` is the row at the start of the block, and is
/// spent.
#[tactic(auto, unfolding(crate::specs::Operands::TypedRows::is_typed_block))]
pub fn is_typed_block<I: IntDomain>(flow: &Flow, row: &mut [Cell<I>], block: u32) -> bool
    ensures { result ≡ spec.is_typed_block I.lattice I.numbers flow.now block row.old }
{
    are_typed(flow, row, instructions_of(flow, block))
}
