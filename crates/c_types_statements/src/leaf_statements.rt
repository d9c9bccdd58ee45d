//! Statements without statements in them, where they stand in a body (6.8 of ISO/IEC 9899:2011).
ghost use Rattle.std.specs.Prelude.{◌≡◌, option_map};
ghost use Rattle.c_layout.specs.SyntaxTrees.{tree_of};
ghost use Rattle.c_layout.specs.DeclarationTrees as syntax;
ghost use Rattle.c_layout.specs.DeclarationTrees.{name_view, local_view, for_first_view};
ghost use Rattle.c_types_scopes.specs.Answers.{Leads};
ghost use Rattle.c_types_scopes.specs.States.{state};
ghost use Rattle.c_types_statement_rules.specs.StatementRules.BodyFlow.{flow_view};
ghost use Rattle.c_types_statement_rules.specs.StatementRules.Points.{point};
ghost use Rattle.c_types_statement_rules.specs.Objects.LocalObjects.{parts_view};
ghost use Rattle.c_types_statements.specs.LocalDeclarations.{local_declaration};
ghost use Rattle.c_types_statement_rules.specs.StatementRules.SimpleStatements.{boxed_statement};
ghost use Rattle.c_types_statements.specs.Statements as spec;

use crate::local_declarations::local_declaration as declare_local;
use c_layout::{CheckedStatement, Expr, ForFirst, Local, Name, Statement};
use c_types_scopes::Context;
use c_types_statement_rules::objects::BlockParts;
use c_types_statement_rules::statement_rules::{
    BodyFlow, Clauses, block_node, break_statement, continue_statement, effect, goto_statement,
    no_parts, return_statement, step_clause, test_clause, value_statement,
};
use cc_base::{Place, Stop};

/// The declaration that a statement is.
pub fn declaration_of(s: &Statement) -> Option<&Local>
    ensures { option_map (λ l. local_view l.now) result ≡ spec.declaration_of (syntax.statement_tree s.now) }
{
    match s {
        Statement::Local(local) => Some(local),
        Statement::Label(_, _) => None,
        Statement::Case(_, _, _) => None,
        Statement::Default(_, _) => None,
        Statement::Block(_, _) => None,
        Statement::Value(_, _) => None,
        Statement::If(_, _, _) => None,
        Statement::IfElse(_, _, _, _) => None,
        Statement::Switch(_, _, _) => None,
        Statement::While(_, _, _) => None,
        Statement::Do(_, _, _) => None,
        Statement::For(_, _, _, _, _) => None,
        Statement::Goto(_, _) => None,
        Statement::Continue(_) => None,
        Statement::Break(_) => None,
        Statement::Return(_, _) => None,
    }
}

/// A declaration of a block.
pub fn declaration(
    cx: &mut Context,
    flow: &BodyFlow,
    local: &Local,
    parts: &mut BlockParts,
) -> Result<(), Stop>
    ensures { Leads (λ _. parts_view parts.new) (spec.in_flow (flow_view flow.now) (local_declaration (state cx.old) (local_view local.now) (parts_view parts.old))) result (point (state cx.new) (flow_view flow.now)) }
{
    declare_local(cx, local, parts)
}

/// A declaration in the place of a statement, which is a block of its own.
fn declared_alone(cx: &mut Context, local: &Local) -> Result<Box<CheckedStatement>, Stop>
    ensures { Leads boxed_statement (spec.declared_alone local_declaration (state cx.old) (local_view local.now)) result (state cx.new) }
{
    let mut parts = no_parts(cx.alloc);
    declare_local(cx, local, &mut parts)?;
    block_node(cx.alloc, parts)
}

/// A declaration in the place of a statement.
pub fn alone(
    cx: &mut Context,
    flow: &BodyFlow,
    local: &Local,
) -> Result<Box<CheckedStatement>, Stop>
    ensures { Leads boxed_statement (spec.statement local_declaration (point (state cx.old) (flow_view flow.now)) (syntax.Declaration (local_view local.now))) result (point (state cx.new) (flow_view flow.now)) }
{
    declared_alone(cx, local)
}

/// An expression statement or a null statement.
pub fn value_alone(
    cx: &mut Context,
    flow: &BodyFlow,
    place: Place,
    e: Option<&Expr>,
) -> Result<Box<CheckedStatement>, Stop>
    ensures { Leads boxed_statement (spec.statement local_declaration (point (state cx.old) (flow_view flow.now)) (syntax.Expression place (option_map (λ e. tree_of e.now) e.entry))) result (point (state cx.new) (flow_view flow.now)) }
{
    let _at = place;
    value_statement(cx, e)
}

/// `goto`
pub fn goto_alone(
    cx: &mut Context,
    flow: &BodyFlow,
    place: Place,
    name: &Name,
) -> Result<Box<CheckedStatement>, Stop>
    ensures { Leads boxed_statement (spec.statement local_declaration (point (state cx.old) (flow_view flow.now)) (syntax.Goto place (name_view name.now))) result (point (state cx.new) (flow_view flow.now)) }
{
    goto_statement(cx, flow, place, name)
}

/// `continue`
pub fn continue_alone(
    cx: &Context,
    flow: &BodyFlow,
    place: Place,
) -> Result<Box<CheckedStatement>, Stop>
    ensures { Leads boxed_statement (spec.statement local_declaration (point (state cx.now) (flow_view flow.now)) (syntax.Continue place)) result (point (state cx.now) (flow_view flow.now)) }
{
    continue_statement(flow, place)
}

/// `break`
pub fn break_alone(
    cx: &Context,
    flow: &BodyFlow,
    place: Place,
) -> Result<Box<CheckedStatement>, Stop>
    ensures { Leads boxed_statement (spec.statement local_declaration (point (state cx.now) (flow_view flow.now)) (syntax.Break place)) result (point (state cx.now) (flow_view flow.now)) }
{
    break_statement(flow, place)
}

/// `return`
pub fn return_alone(
    cx: &mut Context,
    flow: &BodyFlow,
    place: Place,
    e: Option<&Expr>,
) -> Result<Box<CheckedStatement>, Stop>
    ensures { Leads boxed_statement (spec.statement local_declaration (point (state cx.old) (flow_view flow.now)) (syntax.Return place (option_map (λ e. tree_of e.now) e.entry))) result (point (state cx.new) (flow_view flow.now)) }
{
    return_statement(cx, flow, place, e)
}

/// The number of a label by its name.
pub fn label_number(flow: &BodyFlow, known: u32) -> u32
    ensures { result ≡ spec.number_of_label (flow_view flow.now) known }
{
    match flow.label(known) {
        Some(number) => number,
        None => 0,
    }
}

/// An expression as the first clause of a `for`.
fn value_clause(cx: &mut Context, e: &Expr, parts: &mut BlockParts) -> Result<(), Stop>
    ensures { Leads (λ _. parts_view parts.new) (spec.value_clause (state cx.old) (tree_of e.now) (parts_view parts.old)) result (state cx.new) }
{
    let term = effect(cx, e)?;
    let value = CheckedStatement::Value(Box::into_inner(term));
    parts.statements.push(value)?;
    Ok(())
}

/// The first clause of a `for`.
fn first_clause(cx: &mut Context, first: &ForFirst, parts: &mut BlockParts) -> Result<(), Stop>
    ensures { Leads (λ _. parts_view parts.new) (spec.first_clause local_declaration (state cx.old) (for_first_view first.now) (parts_view parts.old)) result (state cx.new) }
{
    match first {
        ForFirst::Nothing => Ok(()),
        ForFirst::Value(e) => value_clause(cx, e, parts),
        ForFirst::Declaration(local) => { declare_local(cx, local, parts) }
    }
}

/// The clauses of a `for` before its body.
pub fn clauses(
    cx: &mut Context,
    first: &ForFirst,
    test: Option<&Expr>,
    step: Option<&Expr>,
) -> Result<Clauses, Stop>
    ensures { Leads spec.clauses_view (spec.clauses local_declaration (state cx.old) (for_first_view first.now) (option_map (λ e. tree_of e.now) test.entry) (option_map (λ e. tree_of e.now) step.entry)) result (state cx.new) }
{
    let mut parts = no_parts(cx.alloc);
    first_clause(cx, first, &mut parts)?;
    let test = test_clause(cx, test)?;
    let step = step_clause(cx, step)?;
    Ok(Clauses { parts, test, step })
}
