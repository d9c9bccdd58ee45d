//! The labels of a body, known before its first statement is typed (6.2.1p3 of ISO/IEC 9899:2011).
ghost use Rattle.std.specs.Prelude.{◌≡◌, IfOk, map};
ghost use Rattle.c_layout.specs.DeclarationTrees.{name_view, statement_tree, statement_trees};
ghost use Rattle.c_types_scopes.specs.States.{state};
ghost use Rattle.c_types_statement_rules.specs.StatementRules.BodyFlow.{flow_view};
ghost use Rattle.c_types_statement_rules.specs.StatementRules.Points.{point};
ghost use Rattle.c_types_statements.specs.LabelNumbers as spec;

use c_layout::{Name, Statement};
use c_types_scopes::Context;
use c_types_statement_rules::statement_rules::BodyFlow;
use cc_base::Memory;

/// Adds a label by its name.
fn add_name(cx: &mut Context, flow: &mut BodyFlow, name: &Name) -> Result<(), Memory>
    ensures { IfOk result (λ _. point (state cx.new) (flow_view flow.new) ≡ spec.labelled (name_view name.now) (point (state cx.old) (flow_view flow.old))) }
{
    let number = cx.name(&name.text)?;
    flow.add_label(number)
}

/// Adds the labels of one statement.
#[cycle(labels)]
fn add_statement(cx: &mut Context, flow: &mut BodyFlow, s: &Statement) -> Result<(), Memory>
    ensures { IfOk result (λ _. point (state cx.new) (flow_view flow.new) ≡ spec.with_labels (statement_tree s.now) (point (state cx.old) (flow_view flow.old))) }
{
    match s {
        Statement::Label(name, inner) => {
            add_name(cx, flow, name)?;
            add_statement(cx, flow, inner)
        }
        Statement::Case(_, _, inner) => add_statement(cx, flow, inner),
        Statement::Default(_, inner) => add_statement(cx, flow, inner),
        Statement::If(_, _, inner) => add_statement(cx, flow, inner),
        Statement::Switch(_, _, inner) => add_statement(cx, flow, inner),
        Statement::While(_, _, inner) => add_statement(cx, flow, inner),
        Statement::Do(_, inner, _) => add_statement(cx, flow, inner),
        Statement::For(_, _, _, _, inner) => add_statement(cx, flow, inner),
        Statement::IfElse(_, _, first, second) => {
            add_statement(cx, flow, first)?;
            add_statement(cx, flow, second)
        }
        Statement::Block(_, items) => add_labels(cx, flow, items.as_slice()),
        Statement::Local(_) => Ok(()),
        Statement::Value(_, _) => Ok(()),
        Statement::Goto(_, _) => Ok(()),
        Statement::Continue(_) => Ok(()),
        Statement::Break(_) => Ok(()),
        Statement::Return(_, _) => Ok(()),
    }
}

/// Adds the labels of statements in reading order.
#[cycle(labels)]
pub fn add_labels(cx: &mut Context, flow: &mut BodyFlow, items: &[Statement]) -> Result<(), Memory>
    ensures { IfOk result (λ _. point (state cx.new) (flow_view flow.new) ≡ spec.with_all_labels (statement_trees (map statement_tree items.now)) (point (state cx.old) (flow_view flow.old))) }
{
    for item in items {
        add_statement(cx, flow, item)?;
    }
    Ok(())
}
