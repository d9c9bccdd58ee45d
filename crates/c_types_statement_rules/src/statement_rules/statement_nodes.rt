//! What statements with statements in them become once all their parts have types (6.8.4 to 6.8.6 of
//! ISO/IEC 9899:2011).
ghost use Rattle.std.specs.Prelude.{◌≡◌, Ok, option_map};
ghost use Rattle.c_layout.specs.SyntaxTrees.{tree_of};
ghost use Rattle.c_layout.specs.CheckedTrees.{term_tree, statement_tree};
ghost use Rattle.c_types_scopes.specs.Answers.{Gives, Leads};
ghost use Rattle.c_types_scopes.specs.States.{state};
ghost use Rattle.c_types_operands.specs.Operands.{boxed_term};
ghost use Rattle.c_types_statement_rules.specs.StatementRules.BodyFlow.{flow_view};
ghost use Rattle.c_types_statement_rules.specs.Objects.LocalObjects.{parts_view};
ghost use Rattle.c_types_statement_rules.specs.StatementRules.SimpleStatements.{boxed_statement};
ghost use Rattle.c_types_statement_rules.specs.StatementRules.StatementNodes as spec;

use crate::objects::BlockParts;
use crate::statement_rules::body_flow::BodyFlow;
use crate::statement_rules::simple_statements::{boxed, condition, effect, valued};
use c_layout::{CheckedStatement, CheckedTerm, Expr};
use c_types_scopes::{Context, redeclared};
use cc_base::{Place, Stop};
use std::alloc::Global;

/// A block without parts.
pub fn no_parts(alloc: Global) -> BlockParts
    ensures { parts_view result ≡ spec.no_parts }
{
    BlockParts {
        objects: Vec::new(alloc),
        statements: Vec::new(alloc),
    }
}

/// A block of parts.
pub fn block_node(alloc: Global, parts: BlockParts) -> Result<Box<CheckedStatement>, Stop>
    ensures { Gives boxed_statement (Ok (spec.block_node (parts_view parts))) result }
{
    let BlockParts {
        objects,
        statements,
    } = parts;
    boxed(alloc, CheckedStatement::Block(objects, statements))
}

/// `if` without `else`, whose parts have types.
pub fn if_node(
    alloc: Global,
    place: Place,
    value: Box<CheckedTerm>,
    first: Box<CheckedStatement>,
) -> Result<Box<CheckedStatement>, Stop>
    ensures { Gives boxed_statement (spec.if_node place (term_tree value.value) (statement_tree first.value)) result }
{
    let control = condition(place, value)?;
    boxed(alloc, CheckedStatement::If(Box::into_inner(control), first))
}

/// `if` with `else`, whose parts have types.
pub fn if_else_node(
    alloc: Global,
    place: Place,
    value: Box<CheckedTerm>,
    first: Box<CheckedStatement>,
    second: Box<CheckedStatement>,
) -> Result<Box<CheckedStatement>, Stop>
    ensures { Gives boxed_statement (spec.if_else_node place (term_tree value.value) (statement_tree first.value) (statement_tree second.value)) result }
{
    let control = condition(place, value)?;
    boxed(
        alloc,
        CheckedStatement::IfElse(Box::into_inner(control), first, second),
    )
}

/// `while`, whose parts have types.
pub fn while_node(
    alloc: Global,
    place: Place,
    value: Box<CheckedTerm>,
    body: Box<CheckedStatement>,
) -> Result<Box<CheckedStatement>, Stop>
    ensures { Gives boxed_statement (spec.while_node place (term_tree value.value) (statement_tree body.value)) result }
{
    let control = condition(place, value)?;
    boxed(
        alloc,
        CheckedStatement::While(Box::into_inner(control), body),
    )
}

/// `do`, whose parts have types.
pub fn do_node(
    alloc: Global,
    place: Place,
    value: Box<CheckedTerm>,
    body: Box<CheckedStatement>,
) -> Result<Box<CheckedStatement>, Stop>
    ensures { Gives boxed_statement (spec.do_node place (term_tree value.value) (statement_tree body.value)) result }
{
    let control = condition(place, value)?;
    boxed(alloc, CheckedStatement::Do(body, Box::into_inner(control)))
}

/// The clauses of a `for` before its body.
#[derive(Drop)]
pub struct Clauses {
    pub parts: BlockParts,
    pub test: Option<Box<CheckedTerm>>,
    pub step: Option<CheckedTerm>,
}

/// The step of a `for`.
pub fn step_clause(cx: &mut Context, step: Option<&Expr>) -> Result<Option<CheckedTerm>, Stop>
    ensures { Leads (λ o. option_map term_tree o) (spec.step_clause (state cx.old) (option_map (λ e. tree_of e.now) step.entry)) result (state cx.new) }
{
    match step {
        Some(e) => {
            let term = effect(cx, e)?;
            Ok(Some(Box::into_inner(term)))
        }
        None => Ok(None),
    }
}

/// The condition of a `for`, before it is judged.
pub fn test_clause(cx: &mut Context, test: Option<&Expr>) -> Result<Option<Box<CheckedTerm>>, Stop>
    ensures { Leads (λ o. option_map boxed_term o) (spec.test_clause (state cx.old) (option_map (λ e. tree_of e.now) test.entry)) result (state cx.new) }
{
    match test {
        Some(e) => Ok(Some(valued(cx, e)?)),
        None => Ok(None),
    }
}

/// A `for` whose parts have types.
pub fn for_node(
    alloc: Global,
    place: Place,
    parts: BlockParts,
    test: Option<Box<CheckedTerm>>,
    step: Option<CheckedTerm>,
    body: Box<CheckedStatement>,
) -> Result<Box<CheckedStatement>, Stop>
    ensures { Gives boxed_statement (spec.for_node place (parts_view parts) (option_map boxed_term test) (option_map term_tree step) (statement_tree body.value)) result }
{
    let BlockParts {
        objects,
        statements,
    } = parts;
    match test {
        Some(term) => {
            let control = Some(Box::into_inner(condition(place, term)?));
            boxed(
                alloc,
                CheckedStatement::For(objects, statements, control, step, body),
            )
        }
        None => boxed(
            alloc,
            CheckedStatement::For(objects, statements, None, step, body),
        ),
    }
}

/// A statement with a label, which is refused where there is another one of its name.
pub fn label_node(
    alloc: Global,
    place: Place,
    number: u32,
    is_repeated: bool,
    body: Box<CheckedStatement>,
) -> Result<Box<CheckedStatement>, Stop>
    ensures { Gives boxed_statement (spec.label_node place number is_repeated (statement_tree body.value)) result }
{
    if is_repeated {
        Err(redeclared(place))
    } else {
        boxed(alloc, CheckedStatement::Label(number, body))
    }
}

/// Goes into the body of a loop.
pub fn enter_loop(flow: &mut BodyFlow)
    ensures { flow_view flow.new ≡ spec.in_loop (flow_view flow.old) }
{
    flow.loops = flow.loops.saturating_add(1);
    flow.breakables = flow.breakables.saturating_add(1);
}

/// Goes into the body of a switch.
pub fn enter_switch(flow: &mut BodyFlow)
    ensures { flow_view flow.new ≡ spec.in_switch (flow_view flow.old) }
{
    flow.breakables = flow.breakables.saturating_add(1);
}
