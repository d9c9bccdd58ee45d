//! Conditions that are a call of `fgets` alone.
ghost use Rattle.std.specs.Prelude.{◌≡◌, map};
ghost use Rattle.c_layout.specs.CheckedTrees.{term_tree, term_trees};
ghost use Rattle.lower_conditions.specs.Conditions as spec;
ghost use Rattle.lower_conditions.specs.Conditions.{line_call_view, read_view};

use c_layout::{BinaryOp, CheckedTerm, LibFn, TermForm};
use cc_base::Place;
use lower_templates::worklist::{is_null_constant, peeled};

/// A call of `fgets`: its place and its arguments.
#[derive(Clone, Copy)]
pub struct LineCall<'a> {
    pub place: Place,
    pub arguments: &'a [CheckedTerm],
}

/// The call, where a library function reads a line.
fn line_call_of<'a>(
    place: Place,
    function: LibFn,
    arguments: &'a [CheckedTerm],
) -> Option<LineCall<'a>>
    ensures { line_call_view result ≡ spec.line_call_of place function (term_trees (map term_tree arguments.now)) }
{
    if function.signature().reads_line {
        Some(LineCall { place, arguments })
    } else {
        None
    }
}

/// The call, where a term is one of `fgets`.
fn line_call_in(term: &CheckedTerm) -> Option<LineCall>
    ensures { line_call_view result ≡ spec.line_call_in (term_tree term.now) }
{
    match &term.form {
        TermForm::Number(_) => None,
        TermForm::Sizeof(_, None, _) => None,
        TermForm::Sizeof(_, Some(_), _) => None,
        TermForm::Load(_) => None,
        TermForm::AddressOf(_) => None,
        TermForm::Decay(_) => None,
        TermForm::Convert(_, _) => None,
        TermForm::Discard(_) => None,
        TermForm::Plus(_) => None,
        TermForm::Minus(_) => None,
        TermForm::Complement(_) => None,
        TermForm::Not(_) => None,
        TermForm::Integer(_, _, _) => None,
        TermForm::Shift(_, _, _, _) => None,
        TermForm::Difference(_, _, _) => None,
        TermForm::Compare(_, _, _) => None,
        TermForm::Logical(_, _, _) => None,
        TermForm::Conditional(_, _, _) => None,
        TermForm::Comma(_, _) => None,
        TermForm::Assign(_, _) => None,
        TermForm::Compound(_, _, _, _) => None,
        TermForm::CompoundShift(_, _, _, _) => None,
        TermForm::Step(_, _, _, _) => None,
        TermForm::StepPointer(_, _, _, _) => None,
        TermForm::Struct(_) => None,
        TermForm::Call(_, _, _) => None,
        TermForm::Library(function, arguments, _) => line_call_of(
            term.place,
            *function,
            arguments.as_slice(),
        ),
    }
}

/// The call, where a term is one of `fgets`, implicit conversions apart.
fn line_call(term: &CheckedTerm) -> Option<LineCall>
    ensures { line_call_view result ≡ spec.line_call (term_tree term.now) }
{
    line_call_in(peeled(term))
}

/// The call, where two terms are a call of `fgets` and a null pointer constant.
fn line_call_beside<'a>(left: &'a CheckedTerm, right: &'a CheckedTerm) -> Option<LineCall<'a>>
    ensures { line_call_view result ≡ spec.line_call_beside (term_tree left.now) (term_tree right.now) }
{
    if is_null_constant(right) {
        line_call(left)
    } else if is_null_constant(left) {
        line_call(right)
    } else {
        None
    }
}

/// A call of `fgets` whose answer alone a condition tests, and whether the condition is that it is not
/// null.
#[derive(Clone, Copy)]
pub struct ReadTest<'a> {
    pub call: LineCall<'a>,
    pub wants_line: bool,
}

fn read_test(call: Option<LineCall>, wants_line: bool) -> Option<ReadTest>
    ensures { read_view result ≡ spec.read_test (line_call_view call.entry) wants_line }
{
    match call {
        Some(call) => Some(ReadTest { call, wants_line }),
        None => None,
    }
}

/// The same for an equality of two pointers.
fn compared_read<'a>(
    op: BinaryOp,
    left: &'a CheckedTerm,
    right: &'a CheckedTerm,
) -> Option<ReadTest<'a>>
    ensures { read_view result ≡ spec.compared_read op (term_tree left.now) (term_tree right.now) }
{
    match op {
        BinaryOp::Equal => read_test(line_call_beside(left, right), false),
        BinaryOp::NotEqual => read_test(line_call_beside(left, right), true),
        _ => None,
    }
}

/// The call of `fgets` whose answer alone a condition tests.
pub fn read_by(term: &CheckedTerm) -> Option<ReadTest>
    ensures { read_view result ≡ spec.read_by (term_tree term.now) }
{
    match &term.form {
        TermForm::Number(_) => read_test(line_call(term), true),
        TermForm::Sizeof(_, None, _) => read_test(line_call(term), true),
        TermForm::Sizeof(_, Some(_), _) => read_test(line_call(term), true),
        TermForm::Load(_) => read_test(line_call(term), true),
        TermForm::AddressOf(_) => read_test(line_call(term), true),
        TermForm::Decay(_) => read_test(line_call(term), true),
        TermForm::Convert(_, _) => read_test(line_call(term), true),
        TermForm::Discard(_) => read_test(line_call(term), true),
        TermForm::Plus(_) => read_test(line_call(term), true),
        TermForm::Minus(_) => read_test(line_call(term), true),
        TermForm::Complement(_) => read_test(line_call(term), true),
        TermForm::Not(_) => read_test(line_call(term), true),
        TermForm::Integer(_, _, _) => read_test(line_call(term), true),
        TermForm::Shift(_, _, _, _) => read_test(line_call(term), true),
        TermForm::Difference(_, _, _) => read_test(line_call(term), true),
        TermForm::Compare(op, left, right) => compared_read(*op, left, right),
        TermForm::Logical(_, _, _) => read_test(line_call(term), true),
        TermForm::Conditional(_, _, _) => read_test(line_call(term), true),
        TermForm::Comma(_, _) => read_test(line_call(term), true),
        TermForm::Assign(_, _) => read_test(line_call(term), true),
        TermForm::Compound(_, _, _, _) => read_test(line_call(term), true),
        TermForm::CompoundShift(_, _, _, _) => read_test(line_call(term), true),
        TermForm::Step(_, _, _, _) => read_test(line_call(term), true),
        TermForm::StepPointer(_, _, _, _) => read_test(line_call(term), true),
        TermForm::Struct(_) => read_test(line_call(term), true),
        TermForm::Call(_, _, _) => read_test(line_call(term), true),
        TermForm::Library(_, _, _) => read_test(line_call(term), true),
    }
}
