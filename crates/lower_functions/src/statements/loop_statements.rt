//! Selections and loops (6.8.4.1 and 6.8.5 of ISO/IEC 9899:2011).
ghost use Rattle.std.specs.Prelude.{◌≡◌, ◌≤◌, ◌+◌, ◌^◌, IfOk, map};
ghost use Rattle.std.specs.Option.{option_map};
ghost use Rattle.c_layout.specs.CheckedTrees.{term_tree, statement_tree, statement_trees};
ghost use Rattle.lower_templates.specs.Worklist.Plans.{plan};
ghost use Rattle.lower_templates.specs.Worklist.Settings.{setting};
ghost use Rattle.lower_functions.specs.Statements.Loops as spec;

use crate::statements::plain_statements::{in_scope, push_statements};
use crate::statements::scope_jumps::{push_enters, push_leaves};
use c_layout::{CheckedStatement, CheckedTerm};
use cc_base::Place;
use lower_expressions::jump;
use lower_templates::worklist::{Builder, Decision, Landing, Setting, Surroundings, Targets, Work};
use std::alloc::AllocError;

/// A controlling expression, whose value is in the first temporary.
fn push_condition<'a>(
    builder: &mut Builder<'a>,
    label: u32,
    test: &'a CheckedTerm,
    yes: u32,
    no: u32,
) -> Result<(), AllocError>
    ensures { IfOk result (λ _. plan builder.new ≡ spec.condition label (term_tree test.now) yes no (plan builder.old)) }
{
    builder.mark(label)?;
    builder.add(Work::Condition(
        test,
        Decision {
            targets: Targets { yes, no },
            depth: 0,
            is_test: true,
        },
    ))
}

/// A statement in a block of its own.
fn push_part<'a>(
    builder: &mut Builder<'a>,
    label: u32,
    body: &'a CheckedStatement,
    around: Surroundings,
) -> Result<(), AllocError>
    ensures { IfOk result (λ _. plan builder.new ≡ spec.part label (statement_tree body.now) around (plan builder.old)) }
{
    builder.mark(label)?;
    builder.add(Work::Statement(body, around))
}

/// `if` without `else`.
pub fn selection<'a>(
    builder: &mut Builder<'a>,
    test: &'a CheckedTerm,
    body: &'a CheckedStatement,
    around: Surroundings,
) -> Result<(), AllocError>
    ensures { IfOk result (λ _. plan builder.new ≡ spec.selection (term_tree test.now) (statement_tree body.now) around (plan builder.old)) }
{
    let first = builder.new_labels(3)?;
    push_condition(builder, first, test, first + 1, first + 2)?;
    push_part(builder, first + 1, body, around)?;
    builder.mark(first + 2)
}

/// `if` with `else`.
pub fn two_way_selection<'a>(
    cx: &Setting<'a>,
    builder: &mut Builder<'a>,
    test: &'a CheckedTerm,
    body: &'a CheckedStatement,
    other: &'a CheckedStatement,
    around: Surroundings,
) -> Result<(), AllocError>
    ensures { IfOk result (λ _. plan builder.new ≡ spec.two_way_selection (setting cx.now) (term_tree test.now) (statement_tree body.now) (statement_tree other.now) around (plan builder.old)) }
{
    let first = builder.new_labels(4)?;
    push_condition(builder, first, test, first + 1, first + 2)?;
    push_part(builder, first + 1, body, around)?;
    jump(builder, cx.place, first + 3)?;
    push_part(builder, first + 2, other, around)?;
    builder.mark(first + 3)
}

/// The surroundings of a loop's body.
fn in_loop(around: Surroundings, on_break: u32, on_continue: u32) -> Surroundings
    ensures { result ≡ spec.in_loop around on_break on_continue }
{
    let scope = around.scope;
    Surroundings {
        scope,
        on_break: Landing {
            label: on_break,
            scope,
        },
        on_continue: Landing {
            label: on_continue,
            scope,
        },
        choice: around.choice,
    }
}

/// `while`
pub fn while_loop<'a>(
    cx: &Setting<'a>,
    builder: &mut Builder<'a>,
    test: &'a CheckedTerm,
    body: &'a CheckedStatement,
    around: Surroundings,
) -> Result<(), AllocError>
    ensures { IfOk result (λ _. plan builder.new ≡ spec.while_loop (setting cx.now) (term_tree test.now) (statement_tree body.now) around (plan builder.old)) }
{
    let first = builder.new_labels(3)?;
    push_condition(builder, first, test, first + 1, first + 2)?;
    push_part(builder, first + 1, body, in_loop(around, first + 2, first))?;
    jump(builder, cx.place, first)?;
    builder.mark(first + 2)
}

/// `do`
pub fn do_loop<'a>(
    builder: &mut Builder<'a>,
    body: &'a CheckedStatement,
    test: &'a CheckedTerm,
    around: Surroundings,
) -> Result<(), AllocError>
    ensures { IfOk result (λ _. plan builder.new ≡ spec.do_loop (statement_tree body.now) (term_tree test.now) around (plan builder.old)) }
{
    let first = builder.new_labels(3)?;
    push_part(builder, first, body, in_loop(around, first + 2, first + 1))?;
    push_condition(builder, first + 1, test, first, first + 2)?;
    builder.mark(first + 2)
}

/// The condition of a `for`, where there is one, in a block of its own.
fn push_check<'a>(
    builder: &mut Builder<'a>,
    label: u32,
    test: &'a Option<CheckedTerm>,
    yes: u32,
    no: u32,
) -> Result<(), AllocError>
    ensures { IfOk result (λ _. plan builder.new ≡ spec.check label (option_map term_tree test.now) yes no (plan builder.old)) }
{
    match test {
        Some(term) => push_condition(builder, label, term, yes, no),
        None => builder.mark(label),
    }
}

/// The step of a `for`, where there is one.
fn push_unused<'a>(
    builder: &mut Builder<'a>,
    step: &'a Option<CheckedTerm>,
) -> Result<(), AllocError>
    ensures { IfOk result (λ _. plan builder.new ≡ spec.unused (option_map term_tree step.now) (plan builder.old)) }
{
    match step {
        Some(term) => builder.add(Work::Unused(term, 0)),
        None => Ok(()),
    }
}

/// The step of a `for` in a block of its own, and the jump back.
fn push_step<'a>(
    builder: &mut Builder<'a>,
    place: Place,
    label: u32,
    step: &'a Option<CheckedTerm>,
    back: u32,
) -> Result<(), AllocError>
    ensures { IfOk result (λ _. plan builder.new ≡ spec.step place label (option_map term_tree step.now) back (plan builder.old)) }
{
    builder.mark(label)?;
    push_unused(builder, step)?;
    jump(builder, place, back)
}

/// The first clause of a `for` in a block of its own: its objects are entered there.
fn push_first_clause<'a>(
    builder: &mut Builder<'a>,
    place: Place,
    label: u32,
    objects: &'a [u32],
    list: &'a [CheckedStatement],
    inside: Surroundings,
) -> Result<(), AllocError>
    ensures { IfOk result (λ _. plan builder.new ≡ spec.first_clause place label objects.now (statement_trees (map statement_tree list.now)) inside (plan builder.old)) }
{
    builder.mark(label)?;
    push_enters(builder, place, objects)?;
    push_statements(builder, list, inside)
}

/// What a `for` repeats: condition, body and step.
fn push_turn<'a>(
    builder: &mut Builder<'a>,
    place: Place,
    first: u32,
    test: &'a Option<CheckedTerm>,
    step: &'a Option<CheckedTerm>,
    body: &'a CheckedStatement,
    inside: Surroundings,
) -> Result<(), AllocError>
    requires { first + 5 ≤ 2 ^ 32 }
    ensures { IfOk result (λ _. plan builder.new ≡ spec.turn place first (option_map term_tree test.now) (option_map term_tree step.now) (statement_tree body.now) inside (plan builder.old)) }
{
    push_check(builder, first + 1, test, first + 2, first + 4)?;
    push_part(
        builder,
        first + 2,
        body,
        in_loop(inside, first + 4, first + 3),
    )?;
    push_step(builder, place, first + 3, step, first + 1)
}

/// `for`. Its objects are entered in the block of the first clause and left behind the loop.
pub fn for_loop<'a>(
    cx: &Setting<'a>,
    builder: &mut Builder<'a>,
    objects: &'a [u32],
    list: &'a [CheckedStatement],
    test: &'a Option<CheckedTerm>,
    step: &'a Option<CheckedTerm>,
    body: &'a CheckedStatement,
    around: Surroundings,
) -> Result<(), AllocError>
    ensures { IfOk result (λ _. plan builder.new ≡ spec.for_loop (setting cx.now) objects.now (statement_trees (map statement_tree list.now)) (option_map term_tree test.now) (option_map term_tree step.now) (statement_tree body.now) around (plan builder.old)) }
{
    let scope = builder.next_scope()?;
    let first = builder.new_labels(5)?;
    let inside = in_scope(around, scope);
    push_first_clause(builder, cx.place, first, objects, list, inside)?;
    push_turn(builder, cx.place, first, test, step, body, inside)?;
    builder.mark(first + 4)?;
    push_leaves(builder, cx.place, objects)
}
