//! Statements without statements in them (6.8.3, 6.8.6 of ISO/IEC 9899:2011).
ghost use Rattle.std.specs.Prelude.{◌≡◌, Ok, option_map};
ghost use Rattle.c_layout.specs.Types.{view};
ghost use Rattle.c_layout.specs.SyntaxTrees.{tree_of};
ghost use Rattle.c_layout.specs.DeclarationTrees.{name_view};
ghost use Rattle.c_layout.specs.CheckedTrees.{term_tree, statement_tree};
ghost use Rattle.c_types_scopes.specs.Answers.{Gives, Leads};
ghost use Rattle.c_types_scopes.specs.Known.{known};
ghost use Rattle.c_types_scopes.specs.Names.{known_in};
ghost use Rattle.c_types_scopes.specs.States.{state};
ghost use Rattle.c_types_operands.specs.Operands.{boxed_term};
ghost use Rattle.c_types_statement_rules.specs.StatementRules.BodyFlow.{flow_view};
ghost use Rattle.c_types_statement_rules.specs.StatementRules.SimpleStatements as spec;
ghost use Rattle.c_types_statement_rules.specs.StatementRules.SimpleStatements.{boxed_statement};

use crate::statement_rules::body_flow::BodyFlow;
use c_layout::{CType, CheckedStatement, CheckedTerm, Expr, Name};
use c_types_expressions::expressions::{assigned, is_scalar, term_of, typed, unused};
use c_types_scopes::{Context, type_fault, undeclared};
use cc_base::{Place, Stop};
use std::alloc::Global;

/// Boxes a statement.
pub fn boxed(alloc: Global, s: CheckedStatement) -> Result<Box<CheckedStatement>, Stop>
    ensures { Gives boxed_statement (Ok (statement_tree s)) result }
{
    Ok(Box::new(alloc, s)?)
}

/// The value of an expression.
pub fn valued(cx: &mut Context, e: &Expr) -> Result<Box<CheckedTerm>, Stop>
    ensures { Leads boxed_term (spec.valued (state cx.old) (tree_of e.now)) result (state cx.new) }
{
    let operand = typed(cx, e)?;
    Ok(term_of(cx.alloc, operand)?)
}

/// An expression whose value is not used.
pub fn effect(cx: &mut Context, e: &Expr) -> Result<Box<CheckedTerm>, Stop>
    ensures { Leads boxed_term (spec.effect (state cx.old) (tree_of e.now)) result (state cx.new) }
{
    let term = valued(cx, e)?;
    Ok(unused(term))
}

/// A controlling expression, which is a scalar, or the refusal of its statement.
pub fn condition(place: Place, term: Box<CheckedTerm>) -> Result<Box<CheckedTerm>, Stop>
    ensures { Gives boxed_term (spec.condition place (term_tree term.value)) result }
{
    if is_scalar(&term.ctype) {
        Ok(term)
    } else {
        Err(type_fault(place))
    }
}

/// An expression statement or a null statement.
pub fn value_statement(cx: &mut Context, e: Option<&Expr>) -> Result<Box<CheckedStatement>, Stop>
    ensures { Leads boxed_statement (spec.value_statement (state cx.old) (option_map (λ e. tree_of e.now) e.entry)) result (state cx.new) }
{
    match e {
        Some(e) => {
            let term = effect(cx, e)?;
            boxed(cx.alloc, CheckedStatement::Value(Box::into_inner(term)))
        }
        None => boxed(cx.alloc, CheckedStatement::Nothing),
    }
}

/// The number of the label that a name is.
fn label_named(cx: &Context, flow: &BodyFlow, name: &Name) -> Option<u32>
    ensures { result ≡ spec.label_named (flow_view flow.now) (known_in (state cx.now).scopes.names (name_view name.now).text) }
{
    match cx.scopes.known(&name.text) {
        Some(known) => flow.label(known),
        None => None,
    }
}

/// `goto`
pub fn goto_statement(
    cx: &Context,
    flow: &BodyFlow,
    place: Place,
    name: &Name,
) -> Result<Box<CheckedStatement>, Stop>
    ensures { Gives boxed_statement (spec.goto_statement (state cx.now) (flow_view flow.now) place (name_view name.now)) result }
{
    match label_named(cx, flow, name) {
        Some(number) => boxed(cx.alloc, CheckedStatement::Goto(number)),
        None => Err(undeclared(place)),
    }
}

/// `continue`, which stands in a loop.
pub fn continue_statement(flow: &BodyFlow, place: Place) -> Result<Box<CheckedStatement>, Stop>
    ensures { Gives boxed_statement (spec.continue_statement (flow_view flow.now) place) result }
{
    if flow.loops > 0 {
        boxed(flow.alloc, CheckedStatement::Continue)
    } else {
        Err(type_fault(place))
    }
}

/// `break`, which stands in a loop or a switch.
pub fn break_statement(flow: &BodyFlow, place: Place) -> Result<Box<CheckedStatement>, Stop>
    ensures { Gives boxed_statement (spec.break_statement (flow_view flow.now) place) result }
{
    if flow.breakables > 0 {
        boxed(flow.alloc, CheckedStatement::Break)
    } else {
        Err(type_fault(place))
    }
}

/// A value that a function of a result returns.
fn returned(
    cx: &Context,
    place: Place,
    from: Box<CheckedTerm>,
    to: &CType,
) -> Result<Box<CheckedTerm>, Stop>
    ensures { Gives boxed_term (spec.returned (known cx.now) place (term_tree from.value) (view to.now)) result }
{
    match to {
        CType::Void => Err(type_fault(place)),
        CType::Int(_) => assigned(cx, place, from, to),
        CType::Pointer(_) => assigned(cx, place, from, to),
        CType::Array(_, _) => assigned(cx, place, from, to),
        CType::Struct(_) => assigned(cx, place, from, to),
    }
}

/// `return` of a value.
fn return_value(
    cx: &mut Context,
    flow: &BodyFlow,
    place: Place,
    e: &Expr,
) -> Result<Box<CheckedTerm>, Stop>
    ensures { Leads boxed_term (spec.return_value (state cx.old) (flow_view flow.now) place (tree_of e.now)) result (state cx.new) }
{
    let from = valued(cx, e)?;
    returned(cx, place, from, &flow.result)
}

/// `return` without a value.
fn return_nothing(
    alloc: Global,
    place: Place,
    result_type: &CType,
) -> Result<Box<CheckedStatement>, Stop>
    ensures { Gives boxed_statement (spec.return_nothing place (view result_type.now)) result }
{
    match result_type {
        CType::Void => boxed(alloc, CheckedStatement::Return(place, None)),
        CType::Int(_) => Err(type_fault(place)),
        CType::Pointer(_) => Err(type_fault(place)),
        CType::Array(_, _) => Err(type_fault(place)),
        CType::Struct(_) => Err(type_fault(place)),
    }
}

/// `return`, with a value exactly where the function is not void.
pub fn return_statement(
    cx: &mut Context,
    flow: &BodyFlow,
    place: Place,
    e: Option<&Expr>,
) -> Result<Box<CheckedStatement>, Stop>
    ensures { Leads boxed_statement (spec.return_statement (state cx.old) (flow_view flow.now) place (option_map (λ e. tree_of e.now) e.entry)) result (state cx.new) }
{
    match e {
        Some(e) => {
            let term = return_value(cx, flow, place, e)?;
            let term = Some(Box::into_inner(term));
            boxed(cx.alloc, CheckedStatement::Return(place, term))
        }
        None => return_nothing(cx.alloc, place, &flow.result),
    }
}
