//! The items of loops: their turns, and what follows their bodies.
ghost use Rattle.std.specs.Prelude.{[], ◌∷◌, ◌++◌, true};
ghost use Rattle.std.specs.Option.{option_map};
ghost use Rattle.c_layout.specs.CheckedTrees.{term_tree, statement_tree};
ghost use Rattle.c_layout.specs.CheckedUnits.{UnitView};
ghost use Rattle.semantics.specs.SourceMachine.Items as machine;
ghost use Rattle.semantics.specs.SourceMachine.ConditionItems.{condition};
ghost use Rattle.semantics.specs.SourceMachine.StatementItems as spec;
ghost use Rattle.interp_stack.specs.ItemViews.{turn_items, loop_item, loop_turn};
ghost use Rattle.interp_stack.specs.StackViews.{on_item, with_items, Stacks, Adds};

use c_layout::{CheckedStatement, CheckedTerm};
use interp_stack::{Item7, Next7, Use7, Way7, push_condition, push_item};
use std::alloc::AllocError;

/// A condition, and what follows it where it holds and where it does not.
pub fn push_test<'a>(
    control: &mut Vec<Item7<'a>>,
    test: &'a CheckedTerm,
    held: Item7<'a>,
    failed: Item7<'a>,
) -> Result<(), AllocError>
    ensures { (u : UnitView) → Stacks u (λ s. let t = on_item u held.entry (on_item u failed.entry s) in with_items (condition u true (term_tree test.now) t.yes t.no) t) control.old.items result control.new.items }
{
    push_item(control, failed)?;
    push_item(control, held)?;
    push_condition(control, test, true)?;
    Ok(())
}

// ---- what follows bodies

/// What follows the body of a `while` loop.
pub fn push_while_turn<'a>(
    control: &mut Vec<Item7<'a>>,
    statement: &'a CheckedStatement,
) -> Result<(), AllocError>
    ensures { (u : UnitView) → Adds u (machine.Hop ∷ (machine.IterationEnd ∷ (loop_item (statement_tree statement.now) ∷ []))) control.old.items result control.new.items }
{
    push_item(control, Item7::Statement(Way7::Turn, statement))?;
    push_item(control, Item7::IterationEnd)?;
    push_item(control, Item7::Hop)?;
    Ok(())
}

// The condition of a loop: its next turn follows where it holds, and nothing where it does not.
fn push_turn_test<'a>(
    control: &mut Vec<Item7<'a>>,
    statement: &'a CheckedStatement,
    test: &'a CheckedTerm,
) -> Result<(), AllocError>
    ensures { (u : UnitView) → Adds u (condition u true (term_tree test.now) (turn_items (statement_tree statement.now)) []) control.old.items result control.new.items }
{
    let held = Item7::Statement(Way7::After(Next7::Turn), statement);
    push_test(control, test, held, Item7::AfterNothing)
}

/// The test of a `do` loop behind its body.
pub fn push_do_test<'a>(
    control: &mut Vec<Item7<'a>>,
    statement: &'a CheckedStatement,
    test: &'a CheckedTerm,
) -> Result<(), AllocError>
    ensures { (u : UnitView) → Adds u (machine.IterationEnd ∷ condition u true (term_tree test.now) (turn_items (statement_tree statement.now)) []) control.old.items result control.new.items }
{
    push_turn_test(control, statement, test)?;
    push_item(control, Item7::IterationEnd)?;
    Ok(())
}

fn push_clause<'a>(
    control: &mut Vec<Item7<'a>>,
    clause: &'a Option<CheckedTerm>,
) -> Result<(), AllocError>
    ensures { (u : UnitView) → Adds u (spec.clause (option_map term_tree clause.now)) control.old.items result control.new.items }
{
    match clause {
        Some(term) => push_item(control, Item7::Term(Use7::Unused, term)),
        None => Ok(()),
    }
}

/// What follows the body of a `for` loop.
pub fn push_for_step<'a>(
    control: &mut Vec<Item7<'a>>,
    statement: &'a CheckedStatement,
    step: &'a Option<CheckedTerm>,
) -> Result<(), AllocError>
    ensures { (u : UnitView) → Adds u (machine.IterationEnd ∷ (spec.clause (option_map term_tree step.now) ++ (machine.Hop ∷ (loop_item (statement_tree statement.now) ∷ [])))) control.old.items result control.new.items }
{
    push_item(control, Item7::Statement(Way7::Turn, statement))?;
    push_item(control, Item7::Hop)?;
    push_clause(control, step)?;
    push_item(control, Item7::IterationEnd)?;
    Ok(())
}

// ---- turns

fn push_while_body<'a>(
    control: &mut Vec<Item7<'a>>,
    statement: &'a CheckedStatement,
    body: &'a CheckedStatement,
) -> Result<(), AllocError>
    ensures { (u : UnitView) → Adds u (machine.Statement (statement_tree body.now) ∷ (machine.Hop ∷ (machine.IterationEnd ∷ (loop_item (statement_tree statement.now) ∷ [])))) control.old.items result control.new.items }
{
    push_while_turn(control, statement)?;
    push_item(control, Item7::Statement(Way7::Whole, body))?;
    Ok(())
}

fn push_for_body<'a>(
    control: &mut Vec<Item7<'a>>,
    statement: &'a CheckedStatement,
    step: &'a Option<CheckedTerm>,
    body: &'a CheckedStatement,
) -> Result<(), AllocError>
    ensures { (u : UnitView) → Adds u (machine.Statement (statement_tree body.now) ∷ (machine.IterationEnd ∷ (spec.clause (option_map term_tree step.now) ++ (machine.Hop ∷ (loop_item (statement_tree statement.now) ∷ []))))) control.old.items result control.new.items }
{
    push_for_step(control, statement, step)?;
    push_item(control, Item7::Statement(Way7::Whole, body))?;
    Ok(())
}

/// What follows the condition of a loop that holds.
pub fn push_turn<'a>(
    control: &mut Vec<Item7<'a>>,
    statement: &'a CheckedStatement,
) -> Result<(), AllocError>
    ensures { (u : UnitView) → Adds u (turn_items (statement_tree statement.now)) control.old.items result control.new.items }
{
    match statement {
        CheckedStatement::Value(_) => Ok(()),
        CheckedStatement::Nothing => Ok(()),
        CheckedStatement::Forget(_, _) => Ok(()),
        CheckedStatement::Start(_, _, _) => Ok(()),
        CheckedStatement::StartCopy(_, _, _) => Ok(()),
        CheckedStatement::StartList(_, _, _) => Ok(()),
        CheckedStatement::Block(_, _) => Ok(()),
        CheckedStatement::If(_, _) => Ok(()),
        CheckedStatement::IfElse(_, _, _) => Ok(()),
        CheckedStatement::While(_, body) => push_while_body(control, statement, body),
        CheckedStatement::Do(_, _) => push_item(control, Item7::Statement(Way7::Turn, statement)),
        CheckedStatement::For(_, _, _, step, body) => {
            push_for_body(control, statement, step, body)
        }
        CheckedStatement::Switch(_, _, _, _, _, _) => Ok(()),
        CheckedStatement::Case(_, _) => Ok(()),
        CheckedStatement::Default(_) => Ok(()),
        CheckedStatement::Label(_, _) => Ok(()),
        CheckedStatement::Goto(_) => Ok(()),
        CheckedStatement::Break => Ok(()),
        CheckedStatement::Continue => Ok(()),
        CheckedStatement::Return(_, _) => Ok(()),
    }
}

fn push_do_turn<'a>(
    control: &mut Vec<Item7<'a>>,
    statement: &'a CheckedStatement,
    body: &'a CheckedStatement,
    test: &'a CheckedTerm,
) -> Result<(), AllocError>
    ensures { (u : UnitView) → Adds u (machine.Statement (statement_tree body.now) ∷ (machine.IterationEnd ∷ condition u true (term_tree test.now) (turn_items (statement_tree statement.now)) [])) control.old.items result control.new.items }
{
    push_do_test(control, statement, test)?;
    push_item(control, Item7::Statement(Way7::Whole, body))?;
    Ok(())
}

/// The next turn of a loop: its condition, or the body of a `do` loop.
pub fn push_loop<'a>(
    control: &mut Vec<Item7<'a>>,
    statement: &'a CheckedStatement,
) -> Result<(), AllocError>
    ensures { (u : UnitView) → Adds u (loop_turn u (statement_tree statement.now)) control.old.items result control.new.items }
{
    match statement {
        CheckedStatement::Value(_) => Ok(()),
        CheckedStatement::Nothing => Ok(()),
        CheckedStatement::Forget(_, _) => Ok(()),
        CheckedStatement::Start(_, _, _) => Ok(()),
        CheckedStatement::StartCopy(_, _, _) => Ok(()),
        CheckedStatement::StartList(_, _, _) => Ok(()),
        CheckedStatement::Block(_, _) => Ok(()),
        CheckedStatement::If(_, _) => Ok(()),
        CheckedStatement::IfElse(_, _, _) => Ok(()),
        CheckedStatement::While(condition, _) => push_turn_test(control, statement, condition),
        CheckedStatement::Do(body, condition) => {
            push_do_turn(control, statement, body, condition)
        }
        CheckedStatement::For(_, _, Some(condition), _, _) => {
            push_turn_test(control, statement, condition)
        }
        CheckedStatement::For(_, _, None, step, body) => {
            push_for_body(control, statement, step, body)
        }
        CheckedStatement::Switch(_, _, _, _, _, _) => Ok(()),
        CheckedStatement::Case(_, _) => Ok(()),
        CheckedStatement::Default(_) => Ok(()),
        CheckedStatement::Label(_, _) => Ok(()),
        CheckedStatement::Goto(_) => Ok(()),
        CheckedStatement::Break => Ok(()),
        CheckedStatement::Continue => Ok(()),
        CheckedStatement::Return(_, _) => Ok(()),
    }
}
