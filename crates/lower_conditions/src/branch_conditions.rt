//! Conditions, which go straight to their targets.
ghost use Rattle.std.specs.Prelude.{◌≡◌, IfOk};
ghost use Rattle.c_layout.specs.CheckedTrees.{term_tree};
ghost use Rattle.lower_templates.specs.Worklist.Plans.{plan};
ghost use Rattle.lower_templates.specs.Worklist.Settings.{setting};
ghost use Rattle.lower_conditions.specs.Conditions as spec;

use crate::branch_tests::{opposite_of, test_of};
use crate::line_reads::{ReadTest, read_by};
use c_layout::{CheckedTerm, LogicalOp, TermForm};
use cfg::Test;
use lower_expressions::{Known, branch, left_targets, read_line};
use lower_templates::worklist::{Builder, Decision, Setting, Targets, Work};
use std::alloc::AllocError;

fn flipped(targets: Targets) -> Targets
    ensures { result ≡ spec.flipped targets }
{
    Targets {
        yes: targets.no,
        no: targets.yes,
    }
}

/// A condition in a block of its own.
fn push_part<'a>(
    builder: &mut Builder<'a>,
    label: u32,
    term: &'a CheckedTerm,
    decision: Decision,
) -> Result<(), AllocError>
    ensures { IfOk result (λ _. plan builder.new ≡ spec.part label (term_tree term.now) decision (plan builder.old)) }
{
    builder.mark(label)?;
    builder.add(Work::Condition(term, decision))
}

/// The same decision with other targets.
fn to_targets(decision: Decision, targets: Targets) -> Decision
    ensures { result ≡ spec.to_targets decision targets }
{
    Decision {
        targets,
        depth: decision.depth,
        is_test: decision.is_test,
    }
}

/// A decision that is a test or none.
fn tested_or_not(targets: Targets, depth: u32, is_test: bool) -> Decision
    ensures { result ≡ spec.tested_or_not targets depth is_test }
{
    Decision {
        targets,
        depth,
        is_test,
    }
}

fn logical_condition<'a>(
    builder: &mut Builder<'a>,
    op: LogicalOp,
    left: &'a CheckedTerm,
    right: &'a CheckedTerm,
    decision: Decision,
) -> Result<(), AllocError>
    ensures { IfOk result (λ _. plan builder.new ≡ spec.logical_condition op (term_tree left.now) (term_tree right.now) decision (plan builder.old)) }
{
    let first = builder.new_labels(2)?;
    let second = first + 1;
    let targets = left_targets(op, decision.targets, second);
    push_part(builder, first, left, to_targets(decision, targets))?;
    push_part(builder, second, right, decision)
}

/// `?:` in a condition: its arms go straight to the targets and are no tests.
fn conditional_condition<'a>(
    builder: &mut Builder<'a>,
    test: &'a CheckedTerm,
    yes: &'a CheckedTerm,
    no: &'a CheckedTerm,
    decision: Decision,
) -> Result<(), AllocError>
    ensures { IfOk result (λ _. plan builder.new ≡ spec.conditional_condition (term_tree test.now) (term_tree yes.now) (term_tree no.now) decision (plan builder.old)) }
{
    let first = builder.new_labels(3)?;
    let targets = Targets {
        yes: first + 1,
        no: first + 2,
    };
    let arm = tested_or_not(decision.targets, decision.depth, false);
    push_part(
        builder,
        first,
        test,
        tested_or_not(targets, decision.depth, true),
    )?;
    push_part(builder, first + 1, yes, arm)?;
    push_part(builder, first + 2, no, arm)
}

/// Where the edges of a call of `fgets` lead, success first.
fn read_targets(wants_line: bool, targets: Targets) -> Targets
    ensures { result ≡ spec.read_targets wants_line targets }
{
    if wants_line {
        targets
    } else {
        flipped(targets)
    }
}

fn read_condition<'a>(
    builder: &mut Builder<'a>,
    read: ReadTest<'a>,
    decision: Decision,
) -> Result<(), AllocError>
    ensures { IfOk result (λ _. plan builder.new ≡ spec.read_condition (spec.read_view_of read.entry) decision (plan builder.old)) }
{
    let targets = read_targets(read.wants_line, decision.targets);
    let call = read.call;
    read_line(
        builder,
        call.place,
        call.arguments,
        decision.depth,
        None,
        targets.no,
        targets.yes,
    )
}

/// The test of a condition, where it is one.
fn test_if(
    cx: &Setting,
    builder: &mut Builder,
    term: &CheckedTerm,
    is_test: bool,
) -> Result<Option<Test>, AllocError>
    ensures { IfOk result (λ t. spec.tested t (plan builder.new) ≡ spec.test_if (setting cx.now) (term_tree term.now) is_test (plan builder.old)) }
{
    if is_test {
        test_of(cx, builder, term)
    } else {
        Ok(None)
    }
}

/// What the edges of a branch know of a test.
fn known_by(test: Option<Test>) -> Known
    ensures { result ≡ spec.known_by test }
{
    Known {
        yes: test,
        no: opposite_of(test),
        yes_puts: None,
        no_puts: None,
    }
}

/// A condition that is a value.
fn plain_condition<'a>(
    cx: &Setting<'a>,
    builder: &mut Builder<'a>,
    term: &'a CheckedTerm,
    decision: Decision,
) -> Result<(), AllocError>
    ensures { IfOk result (λ _. plan builder.new ≡ spec.plain_condition (setting cx.now) (term_tree term.now) decision (plan builder.old)) }
{
    let test = test_if(cx, builder, term, decision.is_test)?;
    builder.add(Work::Value(term, decision.depth))?;
    branch(
        builder,
        term,
        decision.depth,
        decision.targets,
        known_by(test),
    )
}

fn leaf_condition<'a>(
    cx: &Setting<'a>,
    builder: &mut Builder<'a>,
    term: &'a CheckedTerm,
    decision: Decision,
) -> Result<(), AllocError>
    ensures { IfOk result (λ _. plan builder.new ≡ spec.leaf_condition (setting cx.now) (term_tree term.now) decision (plan builder.old)) }
{
    match read_by(term) {
        Some(read) => read_condition(builder, read, decision),
        None => plain_condition(cx, builder, term, decision),
    }
}

/// `!` exchanges the targets.
fn negated_condition<'a>(
    builder: &mut Builder<'a>,
    inner: &'a CheckedTerm,
    decision: Decision,
) -> Result<(), AllocError>
    ensures { IfOk result (λ _. plan builder.new ≡ spec.negated_condition (term_tree inner.now) decision (plan builder.old)) }
{
    let targets = flipped(decision.targets);
    builder.add(Work::Condition(inner, to_targets(decision, targets)))
}

/// The works of a condition.
pub fn condition_works<'a>(
    cx: &Setting<'a>,
    builder: &mut Builder<'a>,
    term: &'a CheckedTerm,
    decision: Decision,
) -> Result<(), AllocError>
    ensures { IfOk result (λ _. plan builder.new ≡ spec.condition (setting cx.now) (term_tree term.now) decision (plan builder.old)) }
{
    match &term.form {
        TermForm::Number(_) => leaf_condition(cx, builder, term, decision),
        TermForm::Sizeof(_, None, _) => leaf_condition(cx, builder, term, decision),
        TermForm::Sizeof(_, Some(_), _) => leaf_condition(cx, builder, term, decision),
        TermForm::Load(_) => leaf_condition(cx, builder, term, decision),
        TermForm::AddressOf(_) => leaf_condition(cx, builder, term, decision),
        TermForm::Decay(_) => leaf_condition(cx, builder, term, decision),
        TermForm::Convert(_, _) => leaf_condition(cx, builder, term, decision),
        TermForm::Discard(_) => leaf_condition(cx, builder, term, decision),
        TermForm::Plus(_) => leaf_condition(cx, builder, term, decision),
        TermForm::Minus(_) => leaf_condition(cx, builder, term, decision),
        TermForm::Complement(_) => leaf_condition(cx, builder, term, decision),
        TermForm::Not(inner) => negated_condition(builder, inner, decision),
        TermForm::Integer(_, _, _) => leaf_condition(cx, builder, term, decision),
        TermForm::Shift(_, _, _, _) => leaf_condition(cx, builder, term, decision),
        TermForm::Difference(_, _, _) => leaf_condition(cx, builder, term, decision),
        TermForm::Compare(_, _, _) => leaf_condition(cx, builder, term, decision),
        TermForm::Logical(op, left, right) => logical_condition(
            builder, *op, left, right, decision,
        ),
        TermForm::Conditional(test, yes, no) => conditional_condition(
            builder, test, yes, no, decision,
        ),
        TermForm::Comma(_, _) => leaf_condition(cx, builder, term, decision),
        TermForm::Assign(_, _) => leaf_condition(cx, builder, term, decision),
        TermForm::Compound(_, _, _, _) => leaf_condition(cx, builder, term, decision),
        TermForm::CompoundShift(_, _, _, _) => leaf_condition(cx, builder, term, decision),
        TermForm::Step(_, _, _, _) => leaf_condition(cx, builder, term, decision),
        TermForm::StepPointer(_, _, _, _) => leaf_condition(cx, builder, term, decision),
        TermForm::Struct(_) => leaf_condition(cx, builder, term, decision),
        TermForm::Call(_, _, _) => leaf_condition(cx, builder, term, decision),
        TermForm::Library(_, _, _) => leaf_condition(cx, builder, term, decision),
    }
}
