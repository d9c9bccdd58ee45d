//! Statements: each is typed after its parts (6.8 of ISO/IEC 9899:2011).
ghost use Rattle.std.specs.Prelude.{map, option_map};
ghost use Rattle.c_layout.specs.SyntaxTrees.{tree_of};
ghost use Rattle.c_layout.specs.DeclarationTrees as syntax;
ghost use Rattle.c_layout.specs.DeclarationTrees.{
  name_view,
  for_first_view,
  statement_trees,
};
ghost use Rattle.c_types_scopes.specs.Answers.{Leads};
ghost use Rattle.c_types_scopes.specs.States.{state};
ghost use Rattle.c_types_operands.specs.Operands.{boxed_term};
ghost use Rattle.c_types_statement_rules.specs.StatementRules.BodyFlow.{flow_view};
ghost use Rattle.c_types_statement_rules.specs.StatementRules.Points.{point};
ghost use Rattle.c_types_statement_rules.specs.Objects.LocalObjects.{parts_view};
ghost use Rattle.c_types_statements.specs.LocalDeclarations.{local_declaration};
ghost use Rattle.c_types_statement_rules.specs.StatementRules.SimpleStatements.{boxed_statement};
ghost use Rattle.c_types_statements.specs.Statements as spec;

use crate::leaf_statements::{
    alone, break_alone, clauses, continue_alone, declaration, declaration_of, goto_alone,
    label_number, return_alone, value_alone,
};
use c_layout::{CheckedStatement, CheckedTerm, Expr, ForFirst, Name, Statement};
use c_types_scopes::Context;
use c_types_statement_rules::objects::BlockParts;
use c_types_statement_rules::statement_rules::{
    BodyFlow, Clauses, block_node, case_standing, case_statement, close_switch,
    controlling_expression, default_statement, do_node, enter_loop, enter_switch, for_node,
    if_else_node, if_node, label_node, no_parts, open_switch, valued, while_node,
};
use cc_base::{Place, Stop};

/// A statement more of a block.
#[cycle(statements)]
fn stated(
    cx: &mut Context,
    flow: &mut BodyFlow,
    s: &Statement,
    parts: &mut BlockParts,
) -> Result<(), Stop>
    ensures { Leads (λ _. parts_view parts.new) (spec.stated local_declaration (point (state cx.old) (flow_view flow.old)) (parts_view parts.old) (syntax.statement_tree s.now)) result (point (state cx.new) (flow_view flow.new)) }
{
    let made = statement(cx, flow, s)?;
    parts.statements.push(Box::into_inner(made))?;
    Ok(())
}

/// An item of a block.
#[cycle(statements)]
fn item(
    cx: &mut Context,
    flow: &mut BodyFlow,
    s: &Statement,
    parts: &mut BlockParts,
) -> Result<(), Stop>
    ensures { Leads (λ _. parts_view parts.new) (spec.item_of local_declaration (point (state cx.old) (flow_view flow.old)) (parts_view parts.old) (syntax.statement_tree s.now)) result (point (state cx.new) (flow_view flow.new)) }
{
    match declaration_of(s) {
        Some(local) => declaration(cx, flow, local, parts),
        None => stated(cx, flow, s, parts),
    }
}

/// The items of a block, in the innermost scope.
#[cycle(statements)]
pub fn items(
    cx: &mut Context,
    flow: &mut BodyFlow,
    list: &[Statement],
    parts: &mut BlockParts,
) -> Result<(), Stop>
    ensures { Leads (λ _. parts_view parts.new) (spec.items local_declaration (point (state cx.old) (flow_view flow.old)) (parts_view parts.old) (statement_trees (map syntax.statement_tree list.now))) result (point (state cx.new) (flow_view flow.new)) }
{
    for s in list {
        item(cx, flow, s, parts)?;
    }
    Ok(())
}

/// A block with a scope of its own.
#[cycle(statements)]
fn block(
    cx: &mut Context,
    flow: &mut BodyFlow,
    list: &[Statement],
) -> Result<Box<CheckedStatement>, Stop>
    ensures { Leads boxed_statement (spec.block local_declaration (point (state cx.old) (flow_view flow.old)) (statement_trees (map syntax.statement_tree list.now))) result (point (state cx.new) (flow_view flow.new)) }
{
    let mut parts = no_parts(cx.alloc);
    cx.scopes.open()?;
    items(cx, flow, list, &mut parts)?;
    cx.scopes.close();
    block_node(cx.alloc, parts)
}

/// The body of a loop, which may break off and go on.
#[cycle(statements)]
fn loop_body(
    cx: &mut Context,
    flow: &mut BodyFlow,
    body: &Statement,
) -> Result<Box<CheckedStatement>, Stop>
    ensures { Leads boxed_statement (spec.loop_body local_declaration (point (state cx.old) (flow_view flow.old)) (syntax.statement_tree body.now)) result (point (state cx.new) (flow_view flow.new)) }
{
    let loops = flow.loops;
    let breakables = flow.breakables;
    enter_loop(flow);
    let made = statement(cx, flow, body)?;
    flow.loops = loops;
    flow.breakables = breakables;
    Ok(made)
}

/// `if` without `else`
#[cycle(statements)]
fn if_statement(
    cx: &mut Context,
    flow: &mut BodyFlow,
    body: &Statement,
    place: Place,
    e: &Expr,
) -> Result<Box<CheckedStatement>, Stop>
    ensures { Leads boxed_statement (spec.statement local_declaration (point (state cx.old) (flow_view flow.old)) (syntax.If place (tree_of e.now) (syntax.statement_tree body.now))) result (point (state cx.new) (flow_view flow.new)) }
{
    let value = valued(cx, e)?;
    let made = statement(cx, flow, body)?;
    if_node(cx.alloc, place, value, made)
}

/// The condition and the first statement of an `if` with `else`.
#[cycle(statements)]
fn first_branch(
    cx: &mut Context,
    flow: &mut BodyFlow,
    body: &Statement,
    e: &Expr,
) -> Result<(Box<CheckedTerm>, Box<CheckedStatement>), Stop>
    ensures { Leads (λ r. (boxed_term r.0, boxed_statement r.1)) (spec.first_branch local_declaration (point (state cx.old) (flow_view flow.old)) (tree_of e.now) (syntax.statement_tree body.now)) result (point (state cx.new) (flow_view flow.new)) }
{
    let value = valued(cx, e)?;
    let made = statement(cx, flow, body)?;
    Ok((value, made))
}

/// The second statement of an `if` with `else`, whose other parts have types.
#[cycle(statements)]
fn second_branch(
    cx: &mut Context,
    flow: &mut BodyFlow,
    body: &Statement,
    place: Place,
    value: Box<CheckedTerm>,
    first: Box<CheckedStatement>,
) -> Result<Box<CheckedStatement>, Stop>
    ensures { Leads boxed_statement (spec.second_branch local_declaration place (boxed_term value, boxed_statement first) (point (state cx.old) (flow_view flow.old)) (syntax.statement_tree body.now)) result (point (state cx.new) (flow_view flow.new)) }
{
    let second = statement(cx, flow, body)?;
    if_else_node(cx.alloc, place, value, first, second)
}

/// `while`
#[cycle(statements)]
fn while_statement(
    cx: &mut Context,
    flow: &mut BodyFlow,
    body: &Statement,
    place: Place,
    e: &Expr,
) -> Result<Box<CheckedStatement>, Stop>
    ensures { Leads boxed_statement (spec.statement local_declaration (point (state cx.old) (flow_view flow.old)) (syntax.While place (tree_of e.now) (syntax.statement_tree body.now))) result (point (state cx.new) (flow_view flow.new)) }
{
    let value = valued(cx, e)?;
    let made = loop_body(cx, flow, body)?;
    while_node(cx.alloc, place, value, made)
}

/// `do`
#[cycle(statements)]
fn do_statement(
    cx: &mut Context,
    flow: &mut BodyFlow,
    body: &Statement,
    place: Place,
    e: &Expr,
) -> Result<Box<CheckedStatement>, Stop>
    ensures { Leads boxed_statement (spec.statement local_declaration (point (state cx.old) (flow_view flow.old)) (syntax.Do place (syntax.statement_tree body.now) (tree_of e.now))) result (point (state cx.new) (flow_view flow.new)) }
{
    let made = loop_body(cx, flow, body)?;
    let value = valued(cx, e)?;
    do_node(cx.alloc, place, value, made)
}

/// `for`, in the scope of its own.
#[cycle(statements)]
fn for_in_scope(
    cx: &mut Context,
    flow: &mut BodyFlow,
    body: &Statement,
    place: Place,
    first: &ForFirst,
    test: Option<&Expr>,
    step: Option<&Expr>,
) -> Result<Box<CheckedStatement>, Stop>
    ensures { Leads boxed_statement (spec.for_in_scope local_declaration (point (state cx.old) (flow_view flow.old)) place (for_first_view first.now) (option_map (λ e. tree_of e.now) test.entry) (option_map (λ e. tree_of e.now) step.entry) (syntax.statement_tree body.now)) result (point (state cx.new) (flow_view flow.new)) }
{
    let made = clauses(cx, first, test, step)?;
    let body = loop_body(cx, flow, body)?;
    let Clauses { parts, test, step } = made;
    for_node(cx.alloc, place, parts, test, step, body)
}

/// `for`, in a scope of its own.
#[cycle(statements)]
fn for_statement(
    cx: &mut Context,
    flow: &mut BodyFlow,
    body: &Statement,
    place: Place,
    first: &ForFirst,
    test: Option<&Expr>,
    step: Option<&Expr>,
) -> Result<Box<CheckedStatement>, Stop>
    ensures { Leads boxed_statement (spec.statement local_declaration (point (state cx.old) (flow_view flow.old)) (syntax.For place (for_first_view first.now) (option_map (λ e. tree_of e.now) test.entry) (option_map (λ e. tree_of e.now) step.entry) (syntax.statement_tree body.now))) result (point (state cx.new) (flow_view flow.new)) }
{
    cx.scopes.open()?;
    let made = for_in_scope(cx, flow, body, place, first, test, step)?;
    cx.scopes.close();
    Ok(made)
}

/// The body of a switch, which may break off.
#[cycle(statements)]
fn switch_body(
    cx: &mut Context,
    flow: &mut BodyFlow,
    body: &Statement,
) -> Result<Box<CheckedStatement>, Stop>
    ensures { Leads boxed_statement (spec.switch_body local_declaration (point (state cx.old) (flow_view flow.old)) (syntax.statement_tree body.now)) result (point (state cx.new) (flow_view flow.new)) }
{
    let breakables = flow.breakables;
    enter_switch(flow);
    let made = statement(cx, flow, body)?;
    flow.breakables = breakables;
    Ok(made)
}

/// `switch`
#[cycle(statements)]
fn switch_statement(
    cx: &mut Context,
    flow: &mut BodyFlow,
    body: &Statement,
    place: Place,
    e: &Expr,
) -> Result<Box<CheckedStatement>, Stop>
    ensures { Leads boxed_statement (spec.statement local_declaration (point (state cx.old) (flow_view flow.old)) (syntax.Switch place (tree_of e.now) (syntax.statement_tree body.now))) result (point (state cx.new) (flow_view flow.new)) }
{
    let control = controlling_expression(cx, e)?;
    open_switch(cx, flow, &control)?;
    let made = switch_body(cx, flow, body)?;
    close_switch(cx, flow, place, control, made)
}

/// A statement with a label, by the label's number.
#[cycle(statements)]
fn label_by(
    cx: &mut Context,
    flow: &mut BodyFlow,
    place: Place,
    number: u32,
    inner: &Statement,
) -> Result<Box<CheckedStatement>, Stop>
    ensures { Leads boxed_statement (spec.label_by local_declaration place number (point (state cx.old) (flow_view flow.old)) (syntax.statement_tree inner.now)) result (point (state cx.new) (flow_view flow.new)) }
{
    let is_repeated = flow.meet_label(number);
    let made = statement(cx, flow, inner)?;
    label_node(cx.alloc, place, number, is_repeated, made)
}

/// A statement with a label.
#[cycle(statements)]
fn label_statement(
    cx: &mut Context,
    flow: &mut BodyFlow,
    name: &Name,
    inner: &Statement,
) -> Result<Box<CheckedStatement>, Stop>
    ensures { Leads boxed_statement (spec.statement local_declaration (point (state cx.old) (flow_view flow.old)) (syntax.Label (name_view name.now) (syntax.statement_tree inner.now))) result (point (state cx.new) (flow_view flow.new)) }
{
    let known = cx.name(&name.text)?;
    let number = label_number(flow, known);
    label_by(cx, flow, name.place, number, inner)
}

/// A statement with a case label.
#[cycle(statements)]
fn case_labelled(
    cx: &mut Context,
    flow: &mut BodyFlow,
    inner: &Statement,
    place: Place,
    e: &Expr,
) -> Result<Box<CheckedStatement>, Stop>
    ensures { Leads boxed_statement (spec.statement local_declaration (point (state cx.old) (flow_view flow.old)) (syntax.Case place (tree_of e.now) (syntax.statement_tree inner.now))) result (point (state cx.new) (flow_view flow.new)) }
{
    let standing = case_standing(cx, flow, place, e)?;
    let made = statement(cx, flow, inner)?;
    case_statement(cx, place, standing, made)
}

/// A statement with a default label.
#[cycle(statements)]
fn default_labelled(
    cx: &mut Context,
    flow: &mut BodyFlow,
    place: Place,
    inner: &Statement,
) -> Result<Box<CheckedStatement>, Stop>
    ensures { Leads boxed_statement (spec.statement local_declaration (point (state cx.old) (flow_view flow.old)) (syntax.Default place (syntax.statement_tree inner.now))) result (point (state cx.new) (flow_view flow.new)) }
{
    let before = flow.add_default();
    let made = statement(cx, flow, inner)?;
    default_statement(cx, place, before, made)
}

/// A statement.
#[cycle(statements)]
pub fn statement(
    cx: &mut Context,
    flow: &mut BodyFlow,
    s: &Statement,
) -> Result<Box<CheckedStatement>, Stop>
    ensures { Leads boxed_statement (spec.statement local_declaration (point (state cx.old) (flow_view flow.old)) (syntax.statement_tree s.now)) result (point (state cx.new) (flow_view flow.new)) }
{
    match s {
        Statement::Local(local) => alone(cx, flow, local),
        Statement::Label(name, inner) => label_statement(cx, flow, name, inner),
        Statement::Case(at, e, inner) => case_labelled(cx, flow, inner, *at, e),
        Statement::Default(at, inner) => default_labelled(cx, flow, *at, inner),
        Statement::Block(_, list) => block(cx, flow, list.as_slice()),
        Statement::Value(at, e) => value_alone(cx, flow, *at, e.as_ref()),
        Statement::If(at, e, first) => if_statement(cx, flow, first, *at, e),
        Statement::IfElse(at, e, first, second) => {
            let (value, made) = first_branch(cx, flow, first, e)?;
            second_branch(cx, flow, second, *at, value, made)
        }
        Statement::Switch(at, e, body) => switch_statement(cx, flow, body, *at, e),
        Statement::While(at, e, body) => while_statement(cx, flow, body, *at, e),
        Statement::Do(at, body, e) => do_statement(cx, flow, body, *at, e),
        Statement::For(at, first, test, step, body) => {
            for_statement(cx, flow, body, *at, first, test.as_ref(), step.as_ref())
        }
        Statement::Goto(at, name) => goto_alone(cx, flow, *at, name),
        Statement::Continue(at) => continue_alone(cx, flow, *at),
        Statement::Break(at) => break_alone(cx, flow, *at),
        Statement::Return(at, e) => return_alone(cx, flow, *at, e.as_ref()),
    }
}
