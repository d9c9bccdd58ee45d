//! `switch` (6.8.4.2 of ISO/IEC 9899:2011).
ghost use Rattle.std.specs.Prelude.{◌≡◌, [], ◌∷◌, ◌++◌, IfOk, map, length};
ghost use Rattle.c_layout.specs.CheckedTrees.{term_tree, statement_tree};
ghost use Rattle.lower_templates.specs.Worklist.Pieces.{exits_view};
ghost use Rattle.lower_templates.specs.Worklist.Plans.{plan};
ghost use Rattle.lower_templates.specs.Worklist.Settings.{setting};
ghost use Rattle.lower_functions.specs.Statements.Switches as spec;
ghost use Rattle.lower_functions.specs.Statements.Switches.{targeted, armed_with, mentioned};

use crate::statements::scope_jumps::{enters_objects, push_jump};
use c_layout::{CaseLabel, CheckedStatement, CheckedTerm};
use cc_base::Place;
use cfg::{CaseTest, EdgeKind, Operation, Scalar};
use lower_conditions::{NamedObject, named};
use lower_templates::worklist::{
    Builder, Choice, Dispatch, Exit, Landing, Setting, Surroundings, Work, behind, integer_type,
};
use std::alloc::{AllocError, Global};

/// The labels of a `switch` that was come to.
pub fn dispatch_at(builder: &Builder, choice: u32) -> Dispatch
    ensures { result ≡ spec.dispatch_at (plan builder.now) choice }
{
    match builder.dispatches.get(choice as usize) {
        Some(found) => *found,
        None => Dispatch {
            cases: 0,
            fallback: 0,
        },
    }
}

/// Where the scopes of a `switch`'s labels are noted.
fn choice_at(cx: &Setting, choice: u32) -> Choice
    ensures { result ≡ spec.choice_at (setting cx.now) choice }
{
    match cx.tree.choices.get(choice as usize) {
        Some(found) => *found,
        None => Choice {
            first: 0,
            fallback: None,
        },
    }
}

/// The scope of a case label by its number among all of the function.
fn case_scope(cx: &Setting, number: u32) -> u32
    ensures { result ≡ spec.case_scope (setting cx.now) number }
{
    match cx.tree.cases.get(number as usize) {
        Some(found) => *found,
        None => 0,
    }
}

/// The integer object among what is named.
fn integer_mention(builder: &mut Builder, found: NamedObject) -> Result<Option<u32>, AllocError>
    ensures { IfOk result (λ b. mentioned b (plan builder.new) ≡ spec.integer_mention found (plan builder.old)) }
{
    match found.kind {
        Scalar::Int(_) => {
            let base = builder.object(found.object)?;
            Ok(Some(base))
        }
        Scalar::Pointer => Ok(None),
    }
}

/// The integer object that is switched on, where the value is one.
fn switched_object(builder: &mut Builder, value: &CheckedTerm) -> Result<Option<u32>, AllocError>
    ensures { IfOk result (λ b. mentioned b (plan builder.new) ≡ spec.switched_object (term_tree value.now) (plan builder.old)) }
{
    match named(value) {
        Some(found) => integer_mention(builder, found),
        None => Ok(None),
    }
}

/// The edge of a case: the label's value, where it goes, and where that leads.
#[derive(Clone, Copy)]
pub struct CaseArm {
    pub value: i128,
    pub to: u32,
    pub landing: Landing,
}

/// Where an edge of a dispatch goes: to the label itself or, where objects are entered on the way, to
/// a block of its own.
fn edge_target(
    cx: &Setting,
    builder: &mut Builder,
    from: u32,
    to: Landing,
) -> Result<u32, AllocError>
    ensures { IfOk result (λ n. targeted n (plan builder.new) ≡ spec.edge_target (setting cx.now) from to (plan builder.old)) }
{
    if enters_objects(cx, from, to.scope) {
        builder.new_labels(1)
    } else {
        Ok(to.label)
    }
}

/// The edges of the cases, in reading order, whose first one has a label and a scope by these numbers.
fn case_arms(
    cx: &Setting,
    builder: &mut Builder,
    cases: &[CaseLabel],
    from: u32,
    first: u32,
    place: u32,
) -> Result<Vec<CaseArm>, AllocError>
    ensures { IfOk result (λ v. armed_with v.items (plan builder.new) ≡ spec.case_arms (setting cx.now) from first place cases.now (plan builder.old)) }
{
    let mut arms = Vec::new(builder.alloc);
    let (mut label, mut number) = (first, place);
    for case in cases {
        let scope = case_scope(cx, number);
        let landing = Landing { label, scope };
        let to = edge_target(cx, builder, from, landing)?;
        arms.push(CaseArm {
            value: case.value,
            to,
            landing,
        })?;
        label = behind(label, 1);
        number = behind(number, 1);
    }
    Ok(arms)
}

/// The edge of a case, with what it knows.
fn push_case_exit(
    exits: &mut Vec<Exit>,
    arm: CaseArm,
    object: Option<u32>,
) -> Result<(), AllocError>
    ensures { IfOk result (λ _. exits_view exits.new.items ≡ exits_view exits.old.items ++ spec.case_exit object arm ∷ []) }
{
    let kind = EdgeKind::Case(CaseTest {
        value: arm.value,
        object,
    });
    Ok(exits.push(Exit { to: arm.to, kind })?)
}

/// The edges of the cases, in order.
fn push_case_exits(
    exits: &mut Vec<Exit>,
    arms: &[CaseArm],
    object: Option<u32>,
) -> Result<(), AllocError>
    ensures { IfOk result (λ _. exits_view exits.new.items ≡ exits_view exits.old.items ++ spec.case_exits arms.now object) }
{
    for arm in arms {
        push_case_exit(exits, *arm, object)?;
    }
    Ok(())
}

fn values(alloc: Global, cases: &[CaseLabel]) -> Result<Vec<i128>, AllocError>
    ensures { IfOk result (λ v. v.items ≡ spec.values cases.now) }
{
    let mut list = Vec::new(alloc);
    for case in cases {
        list.push(case.value)?;
    }
    Ok(list)
}

/// The edges of a dispatch: one for each case, and one for all other values.
fn dispatch_exits(
    alloc: Global,
    arms: &[CaseArm],
    cases: &[CaseLabel],
    object: Option<u32>,
    other: u32,
) -> Result<Vec<Exit>, AllocError>
    ensures { IfOk result (λ v. exits_view v.items ≡ spec.dispatch_exits arms.now cases.now object other) }
{
    let mut exits = Vec::new(alloc);
    push_case_exits(&mut exits, arms, object)?;
    let kind = EdgeKind::Other(values(alloc, cases)?);
    exits.push(Exit { to: other, kind })?;
    Ok(exits)
}

/// The block of an edge on whose way objects are entered: the enters, and a jump to the label.
fn push_block(
    cx: &Setting,
    builder: &mut Builder,
    from: u32,
    to: u32,
    landing: Landing,
) -> Result<(), AllocError>
    ensures { IfOk result (λ _. plan builder.new ≡ spec.edge_block (setting cx.now) from to landing (plan builder.old)) }
{
    if enters_objects(cx, from, landing.scope) {
        builder.mark(to)?;
        push_jump(cx, builder, from, landing)
    } else {
        Ok(())
    }
}

/// The blocks of the edges of the cases, in order.
fn push_blocks(
    cx: &Setting,
    builder: &mut Builder,
    from: u32,
    arms: &[CaseArm],
) -> Result<(), AllocError>
    ensures { IfOk result (λ _. plan builder.new ≡ spec.edge_blocks (setting cx.now) from arms.now (plan builder.old)) }
{
    for arm in arms {
        push_block(cx, builder, from, arm.to, arm.landing)?;
    }
    Ok(())
}

/// The default label, or the end of the `switch`.
fn other_landing(choice: Choice, dispatch: Dispatch, after: Landing) -> Landing
    ensures { result ≡ spec.other_landing choice dispatch after }
{
    match choice.fallback {
        Some(scope) => Landing {
            label: dispatch.fallback,
            scope,
        },
        None => after,
    }
}

/// Labels for the cases and the default of a `switch`.
fn new_dispatch(builder: &mut Builder, cases: &[CaseLabel]) -> Result<Dispatch, AllocError>
    ensures { IfOk result (λ d. spec.dispatched d (plan builder.new) ≡ spec.new_dispatch (length cases.now) (plan builder.old)) }
{
    let count = u32::try_from(cases.len()).ok().ok_or(AllocError)?;
    let first = builder.new_labels(count)?;
    let fallback = builder.new_labels(1)?;
    Ok(Dispatch {
        cases: first,
        fallback,
    })
}

/// A `switch` that was numbered: its number, its labels, and where its end is.
#[derive(Clone, Copy)]
pub struct SwitchBegun {
    pub choice: u32,
    pub dispatch: Dispatch,
    pub after: Landing,
}

/// Numbers a `switch` that stands in a scope.
fn begin_switch(
    builder: &mut Builder,
    cases: &[CaseLabel],
    scope: u32,
) -> Result<SwitchBegun, AllocError>
    ensures { IfOk result (λ b. spec.begun_with b (plan builder.new) ≡ spec.begin_switch (length cases.now) scope (plan builder.old)) }
{
    let dispatch = new_dispatch(builder, cases)?;
    let choice = builder.next_dispatch(dispatch)?;
    let label = builder.new_labels(1)?;
    Ok(SwitchBegun {
        choice,
        dispatch,
        after: Landing { label, scope },
    })
}

/// The surroundings of the body of a `switch`.
fn in_switch(around: Surroundings, begun: SwitchBegun) -> Surroundings
    ensures { result ≡ spec.in_switch around begun }
{
    Surroundings {
        scope: around.scope,
        on_break: begun.after,
        on_continue: around.on_continue,
        choice: begun.choice,
    }
}

/// The dispatch of a `switch` and the blocks of its edges.
fn push_dispatch<'a>(
    cx: &Setting<'a>,
    builder: &mut Builder<'a>,
    place: Place,
    value: &'a CheckedTerm,
    cases: &'a [CaseLabel],
    from: u32,
    begun: SwitchBegun,
) -> Result<(), AllocError>
    ensures { IfOk result (λ _. plan builder.new ≡ spec.dispatch (setting cx.now) place (term_tree value.now) cases.now from begun (plan builder.old)) }
{
    let choice = choice_at(cx, begun.choice);
    let arms = case_arms(cx, builder, cases, from, begun.dispatch.cases, choice.first)?;
    let landing = other_landing(choice, begun.dispatch, begun.after);
    let other = edge_target(cx, builder, from, landing)?;
    let object = switched_object(builder, value)?;
    let exits = dispatch_exits(builder.alloc, arms.as_slice(), cases, object, other)?;
    builder.add(Work::Value(value, 0))?;
    builder.close(
        place,
        Operation::Switch(0, integer_type(&value.ctype)),
        exits,
    )?;
    push_blocks(cx, builder, from, arms.as_slice())?;
    push_block(cx, builder, from, other, landing)
}

/// `switch`
pub fn switch<'a>(
    cx: &Setting<'a>,
    builder: &mut Builder<'a>,
    place: Place,
    value: &'a CheckedTerm,
    cases: &'a [CaseLabel],
    body: &'a CheckedStatement,
    around: Surroundings,
) -> Result<(), AllocError>
    ensures { IfOk result (λ _. plan builder.new ≡ spec.switch (setting cx.now) place (term_tree value.now) cases.now (statement_tree body.now) around (plan builder.old)) }
{
    let begun = begin_switch(builder, cases, around.scope)?;
    push_dispatch(cx, builder, place, value, cases, around.scope, begun)?;
    builder.add(Work::Statement(body, in_switch(around, begun)))?;
    builder.mark(begun.after.label)
}
