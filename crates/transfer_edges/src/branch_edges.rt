//! What an edge makes of the row at the end of its block.
ghost use Rattle.std.specs.Prelude.{◌≡◌, true, false, Some, None, length};
ghost use Rattle.std.specs.Option.{option_copied};
ghost use Rattle.transfer_edges.specs.Edges.{last_instruction, deciding_operand, deciding_temp, truth_can_be, can_be, put_kept, refine_if, behind_test, branch_edge, put_null, switched, includes, refine_object, case_edge, has_label, is_other_than, line_of, line_call, no_line_edge, line_edge, follow, edge};

use crate::refinements::{refine, refine_case};
use cc_base::{IntDomain, Tri};
use cfg::{CaseTest, Edge, EdgeKind, Flow, Instruction, Operation, Test};
use store::null_pointer;
use transfer_checks::{put_temp, temp_value};
use transfer_instructions::instructions::write_line;
use value_domain::values::{Cell, Labels, Value};

/// The instruction that ends a block.
fn last_instruction<'a>(flow: &'a Flow, block: u32) -> Option<&'a Instruction>
    ensures { option_copied result ≡ last_instruction flow.now block }
{
    match flow.blocks.get(block as usize) {
        None => None,
        Some(found) => found.instructions.as_slice().last(),
    }
}

/// The temporary by which an operation that ends its block chooses an edge.
fn deciding_operand(operation: &Operation) -> Option<u32>
    ensures { result ≡ deciding_operand operation.now }
{
    match operation {
        Operation::Branch(temp, _) => Some(*temp),
        Operation::Switch(temp, _) => Some(*temp),
        _ => None,
    }
}

/// The temporary by which a branch or a switch goes on.
fn deciding_temp(flow: &Flow, block: u32) -> Option<u32>
    ensures { result ≡ deciding_temp flow.now block }
{
    match last_instruction(flow, block) {
        None => None,
        Some(found) => deciding_operand(&found.operation),
    }
}

/// Whether a truth value can be true, or false.
fn truth_can_be(found: Tri, truth: bool) -> bool
    ensures { result ≡ truth_can_be found truth }
{
    if truth {
        found.can_hold()
    } else {
        found.can_fail()
    }
}

/// Whether the scalar of a branch can be true, or false.
fn can_be<I: IntDomain>(flow: &Flow, row: &[Cell<I>], temp: Option<u32>, truth: bool) -> bool
    ensures { result ≡ can_be I.lattice I.numbers flow.now row.now temp truth }
{
    match temp {
        None => false,
        Some(temp) => truth_can_be(temp_value(flow, row, temp).truth(), truth),
    }
}

/// A temporary takes 0 or 1, where the edge says so.
#[tactic(auto, unfolding(crate::specs::Edges::put_kept))]
fn put_kept<I: IntDomain>(flow: &Flow, row: &mut [Cell<I>], kept: Option<(u32, i128)>)
    ensures length { length row.new ≡ length row.old }
    ensures row { row.new ≡ put_kept I.lattice I.numbers flow.now kept row.old }
{
    if let Some((temp, number)) = kept {
        let value = Value::of_number(I::one(number), Labels::none());
        put_temp(flow, row, temp, value);
    }
}

/// The row where the test of an edge holds, where it has one.
#[tactic(auto, unfolding(crate::specs::Edges::refine_if))]
fn refine_if<I: IntDomain>(flow: &Flow, row: &mut [Cell<I>], test: Option<Test>) -> bool
    ensures length { length row.new ≡ length row.old }
    ensures reached { result ≡ true → refine_if I.lattice I.numbers flow.now test row.old ≡ Some row.new }
    ensures unreached { result ≡ false → refine_if I.lattice I.numbers flow.now test row.old ≡ None }
{
    match test {
        None => true,
        Some(test) => refine(flow, row, test),
    }
}

/// The row behind the test of an edge.
#[tactic(auto, unfolding(crate::specs::Edges::behind_test))]
fn behind_test<I: IntDomain>(
    flow: &Flow,
    row: &mut [Cell<I>],
    test: Option<Test>,
    kept: Option<(u32, i128)>,
) -> bool
    ensures length { length row.new ≡ length row.old }
    ensures reached { result ≡ true → behind_test I.lattice I.numbers flow.now test kept row.old ≡ Some row.new }
    ensures unreached { result ≡ false → behind_test I.lattice I.numbers flow.now test kept row.old ≡ None }
{
    if refine_if(flow, row, test) {
        put_kept(flow, row, kept);
        true
    } else {
        false
    }
}

/// The true or the false edge of a branch on a scalar.
#[tactic(auto, unfolding(crate::specs::Edges::branch_edge))]
fn branch_edge<I: IntDomain>(
    flow: &Flow,
    row: &mut [Cell<I>],
    temp: Option<u32>,
    truth: bool,
    test: Option<Test>,
    kept: Option<(u32, i128)>,
) -> bool
    ensures length { length row.new ≡ length row.old }
    ensures reached { result ≡ true → branch_edge I.lattice I.numbers flow.now row.old temp truth test kept ≡ Some row.new }
    ensures unreached { result ≡ false → branch_edge I.lattice I.numbers flow.now row.old temp truth test kept ≡ None }
{
    if can_be(flow, row, temp, truth) {
        behind_test(flow, row, test, kept)
    } else {
        false
    }
}

/// The numbers of the value that is switched on.
fn switched<I: IntDomain>(flow: &Flow, row: &[Cell<I>], temp: Option<u32>) -> Option<(i128, i128)>
    ensures { result ≡ switched I.lattice I.numbers flow.now row.now temp }
{
    match temp {
        None => None,
        Some(temp) => temp_value(flow, row, temp).num.bounds(),
    }
}

/// Whether a range has the number.
fn includes(range: Option<(i128, i128)>, number: i128) -> bool
    ensures { result ≡ includes range number }
{
    match range {
        None => false,
        Some((lo, hi)) => lo <= number && number <= hi,
    }
}

/// The row where the object that is switched on, where there is one, has a label's value.
#[tactic(auto, unfolding(crate::specs::Edges::refine_object))]
fn refine_object<I: IntDomain>(flow: &Flow, row: &mut [Cell<I>], test: CaseTest) -> bool
    ensures length { length row.new ≡ length row.old }
    ensures reached { result ≡ true → refine_object I.lattice I.numbers flow.now test row.old ≡ Some row.new }
    ensures unreached { result ≡ false → refine_object I.lattice I.numbers flow.now test row.old ≡ None }
{
    match test.object {
        None => true,
        Some(base) => refine_case(flow, row, base, test.value),
    }
}

/// The edge of a label of a switch.
#[tactic(auto, unfolding(crate::specs::Edges::case_edge))]
fn case_edge<I: IntDomain>(
    flow: &Flow,
    row: &mut [Cell<I>],
    temp: Option<u32>,
    test: CaseTest,
) -> bool
    ensures length { length row.new ≡ length row.old }
    ensures reached { result ≡ true → case_edge I.lattice I.numbers flow.now row.old temp test ≡ Some row.new }
    ensures unreached { result ≡ false → case_edge I.lattice I.numbers flow.now row.old temp test ≡ None }
{
    if includes(switched(flow, row, temp), test.value) {
        refine_object(flow, row, test)
    } else {
        false
    }
}

fn has_label(labels: &[i128], number: i128) -> bool
    ensures { result ≡ has_label labels.now number }
{
    for at in 0..labels.len() {
        if labels[at] == number {
            return true;
        }
    }
    false
}

/// Whether a range has a number that is none of the labels, or may have.
fn is_other_than(range: Option<(i128, i128)>, labels: &[i128]) -> bool
    ensures { result ≡ is_other_than range labels.now }
{
    match range {
        None => false,
        Some((lo, hi)) => lo != hi || !has_label(labels, lo),
    }
}

/// A call of `fgets`: the temporaries of its result, where it is kept, and of its arguments.
#[derive(Clone, Copy)]
struct LineCall {
    to_temp: Option<u32>,
    line: u32,
    count: u32,
    stream: u32,
}

fn line_of(operation: &Operation) -> Option<LineCall>
    ensures { result ≡ line_of operation.now }
{
    match operation {
        Operation::ReadLine(to_temp, line, count, stream) => Some(LineCall {
            to_temp: *to_temp,
            line: *line,
            count: *count,
            stream: *stream,
        }),
        _ => None,
    }
}

/// The call of `fgets` that ends a block.
fn line_call(flow: &Flow, block: u32) -> Option<LineCall>
    ensures { result ≡ line_call flow.now block }
{
    match last_instruction(flow, block) {
        None => None,
        Some(found) => line_of(&found.operation),
    }
}

/// Puts null into a temporary, where there is one.
fn put_null<I: IntDomain>(flow: &Flow, row: &mut [Cell<I>], to_temp: Option<u32>)
    ensures length { length row.new ≡ length row.old }
    ensures row { row.new ≡ put_null I.lattice flow.now to_temp row.old }
{
    if let Some(temp) = to_temp {
        put_temp(flow, row, temp, Value::of_pointer(null_pointer()));
    }
}

/// The edge of `fgets` where its answer is null.
#[tactic(auto, unfolding(crate::specs::Edges::no_line_edge))]
fn no_line_edge<I: IntDomain>(flow: &Flow, row: &mut [Cell<I>], call: Option<LineCall>) -> bool
    ensures length { length row.new ≡ length row.old }
    ensures reached { result ≡ true → no_line_edge I.lattice flow.now row.old call ≡ Some row.new }
    ensures unreached { result ≡ false → no_line_edge I.lattice flow.now row.old call ≡ None }
{
    match call {
        None => false,
        Some(found) => {
            put_null(flow, row, found.to_temp);
            true
        }
    }
}

/// The edge of `fgets` where the line was read.
#[tactic(auto, unfolding(crate::specs::Edges::line_edge))]
fn line_edge<I: IntDomain>(flow: &Flow, row: &mut [Cell<I>], call: Option<LineCall>) -> bool
    ensures length { length row.new ≡ length row.old }
    ensures reached { result ≡ true → line_edge I.lattice I.numbers flow.now row.old call ≡ Some row.new }
    ensures unreached { result ≡ false → line_edge I.lattice I.numbers flow.now row.old call ≡ None }
{
    match call {
        None => false,
        Some(found) => write_line(
            flow,
            row,
            found.to_temp,
            found.line,
            found.count,
            found.stream,
        ),
    }
}

/// The row behind an edge.
#[tactic(auto, unfolding(crate::specs::Edges::follow))]
fn follow<I: IntDomain>(flow: &Flow, row: &mut [Cell<I>], edge: &Edge) -> bool
    ensures length { length row.new ≡ length row.old }
    ensures reached { result ≡ true → follow I.lattice I.numbers flow.now row.old edge.now.from edge.now.kind ≡ Some row.new }
    ensures unreached { result ≡ false → follow I.lattice I.numbers flow.now row.old edge.now.from edge.now.kind ≡ None }
{
    let temp = deciding_temp(flow, edge.from);
    let call = line_call(flow, edge.from);
    match &edge.kind {
        EdgeKind::Jump => true,
        EdgeKind::When(truth, test, kept) => branch_edge(flow, row, temp, *truth, *test, *kept),
        EdgeKind::Case(test) => case_edge(flow, row, temp, *test),
        EdgeKind::Other(labels) => is_other_than(switched(flow, row, temp), labels.as_slice()),
        EdgeKind::NoLine => no_line_edge(flow, row, call),
        EdgeKind::Line => line_edge(flow, row, call),
    }
}

/// Makes of the row at the end of the edge's source block the row that comes to its target. False
/// where no run takes the edge, or there is none; then the row is unspecified.
#[tactic(auto, unfolding(crate::specs::Edges::edge))]
pub fn edge<I: IntDomain>(flow: &Flow, row: &mut [Cell<I>], number: u32) -> bool
    ensures length { length row.new ≡ length row.old }
    ensures reached { result ≡ true → edge I.lattice I.numbers flow.now row.old number ≡ Some row.new }
    ensures unreached { result ≡ false → edge I.lattice I.numbers flow.now row.old number ≡ None }
{
    match flow.edges.get(number as usize) {
        None => false,
        Some(found) => follow(flow, row, found),
    }
}
