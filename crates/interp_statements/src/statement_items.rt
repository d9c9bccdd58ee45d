//! The items of statements.
ghost use Rattle.std.specs.Prelude.{[], ◌∷◌, ◌++◌, map, true, Some};
ghost use Rattle.std.specs.Option.{option_map};
ghost use Rattle.c_layout.specs.CheckedTrees.{term_tree, lvalue_tree, statement_tree, store_tree, StoreCopy};
ghost use Rattle.c_layout.specs.CheckedUnits.{UnitView, function_view};
ghost use Rattle.semantics.specs.SourceMachine.Items as machine;
ghost use Rattle.semantics.specs.SourceMachine.ConditionItems.{condition};
ghost use Rattle.semantics.specs.SourceMachine.StatementItems as spec;
ghost use Rattle.semantics.specs.SourceMachine.StatementItems.{list_statements};
ghost use Rattle.interp_stack.specs.ItemViews.{loop_item, select_item};
ghost use Rattle.interp_stack.specs.StackViews.{Adds};

use crate::loop_items::push_test;
use c_layout::{CheckedStatement, CheckedTerm, Function, InitStore, Lvalue, ObjectRef};
use cc_base::Place;
use interp_stack::{
    Change7, Item7, Next7, Operation7, Use7, Way7, push_copy, push_item, push_store,
};
use lower_templates::worklist::scalar;
use std::alloc::AllocError;

// ---- returns

// The value of the entry is only computed.
fn push_ignored<'a>(control: &mut Vec<Item7<'a>>, value: &'a CheckedTerm) -> Result<(), AllocError>
    ensures { (u : UnitView) → Adds u (machine.Value (term_tree value.now) ∷ (machine.Drop ∷ [])) control.old.items result control.new.items }
{
    push_item(control, Item7::Drop)?;
    push_item(control, Item7::Term(Use7::Value, value))?;
    Ok(())
}

// A function that was called stores its value.
fn push_outcome<'a>(
    control: &mut Vec<Item7<'a>>,
    at: Place,
    value: &'a CheckedTerm,
) -> Result<(), AllocError>
    ensures { (u : UnitView) → Adds u (spec.outcome at (term_tree value.now)) control.old.items result control.new.items }
{
    push_store(control, at, value)?;
    push_item(control, Item7::Outcome(at))?;
    Ok(())
}

fn push_returned<'a>(
    control: &mut Vec<Item7<'a>>,
    is_entry: bool,
    at: Place,
    value: &'a CheckedTerm,
) -> Result<(), AllocError>
    ensures { (u : UnitView) → Adds u (spec.returned is_entry at (Some (term_tree value.now))) control.old.items result control.new.items }
{
    if is_entry {
        push_ignored(control, value)
    } else {
        push_outcome(control, at, value)
    }
}

fn push_return<'a>(
    control: &mut Vec<Item7<'a>>,
    is_entry: bool,
    at: Place,
    value: &'a Option<CheckedTerm>,
) -> Result<(), AllocError>
    ensures { (u : UnitView) → Adds u (spec.returned is_entry at (option_map term_tree value.now) ++ machine.LeaveFunction ∷ []) control.old.items result control.new.items }
{
    push_item(control, Item7::LeaveFunction)?;
    match value {
        Some(term) => push_returned(control, is_entry, at, term),
        None => Ok(()),
    }
}

// ---- objects

fn push_start<'a>(
    control: &mut Vec<Item7<'a>>,
    at: Place,
    local: u32,
    value: &'a CheckedTerm,
) -> Result<(), AllocError>
    ensures { (u : UnitView) → Adds u (spec.start_scalar at local 0 (term_tree value.now)) control.old.items result control.new.items }
{
    push_store(control, at, value)?;
    push_item(control, Item7::Object(at, ObjectRef::Local(local), 0))?;
    Ok(())
}

fn push_start_copy<'a>(
    control: &mut Vec<Item7<'a>>,
    at: Place,
    local: u32,
    source: &'a Lvalue,
) -> Result<(), AllocError>
    ensures { (u : UnitView) → Adds u (spec.stored at local (StoreCopy 0 (lvalue_tree source.now))) control.old.items result control.new.items }
{
    push_copy(control, at, source)?;
    push_item(control, Item7::Object(at, ObjectRef::Local(local), 0))?;
    Ok(())
}

fn push_start_list<'a>(
    control: &mut Vec<Item7<'a>>,
    at: Place,
    local: u32,
    stores: &'a [InitStore],
) -> Result<(), AllocError>
    ensures { (u : UnitView) → Adds u (machine.OnObject at local machine.Clear ∷ spec.all_stored at local (map store_tree stores.now)) control.old.items result control.new.items }
{
    push_item(control, Item7::Stores(at, local, stores))?;
    push_item(control, Item7::OnObject(at, local, Change7::Clear))?;
    Ok(())
}

// ---- statements in statements

/// Statements, one after the other.
pub fn push_statements<'a>(
    control: &mut Vec<Item7<'a>>,
    statements: &'a [CheckedStatement],
) -> Result<(), AllocError>
    ensures { (u : UnitView) → Adds u (list_statements (map statement_tree statements.now)) control.old.items result control.new.items }
{
    push_item(control, Item7::Statements(statements))
}

fn push_block<'a>(
    control: &mut Vec<Item7<'a>>,
    objects: &'a [u32],
    statements: &'a [CheckedStatement],
) -> Result<(), AllocError>
    ensures { (u : UnitView) → Adds u (machine.Enters objects.now ∷ (list_statements (map statement_tree statements.now) ++ machine.Leaves objects.now ∷ [])) control.old.items result control.new.items }
{
    push_item(control, Item7::Leaves(objects))?;
    push_statements(control, statements)?;
    push_item(control, Item7::Enters(objects))?;
    Ok(())
}

fn push_if<'a>(
    control: &mut Vec<Item7<'a>>,
    test: &'a CheckedTerm,
    body: &'a CheckedStatement,
) -> Result<(), AllocError>
    ensures { (u : UnitView) → Adds u (condition u true (term_tree test.now) (machine.Statement (statement_tree body.now) ∷ []) []) control.old.items result control.new.items }
{
    let held = Item7::Statement(Way7::After(Next7::Body), body);
    push_test(control, test, held, Item7::AfterNothing)
}

fn push_if_else<'a>(
    control: &mut Vec<Item7<'a>>,
    test: &'a CheckedTerm,
    first: &'a CheckedStatement,
    second: &'a CheckedStatement,
) -> Result<(), AllocError>
    ensures { (u : UnitView) → Adds u (condition u true (term_tree test.now) (machine.Statement (statement_tree first.now) ∷ (machine.Hop ∷ [])) (machine.Statement (statement_tree second.now) ∷ [])) control.old.items result control.new.items }
{
    let held = Item7::Statement(Way7::After(Next7::BodyHop), first);
    let failed = Item7::Statement(Way7::After(Next7::Body), second);
    push_test(control, test, held, failed)
}

// A loop and where `break` leads.
fn push_looped<'a>(
    control: &mut Vec<Item7<'a>>,
    statement: &'a CheckedStatement,
) -> Result<(), AllocError>
    ensures { (u : UnitView) → Adds u (loop_item (statement_tree statement.now) ∷ (machine.LoopEnd ∷ [])) control.old.items result control.new.items }
{
    push_item(control, Item7::LoopEnd)?;
    push_item(control, Item7::Statement(Way7::Turn, statement))?;
    Ok(())
}

fn push_for<'a>(
    control: &mut Vec<Item7<'a>>,
    statement: &'a CheckedStatement,
    objects: &'a [u32],
    first: &'a [CheckedStatement],
) -> Result<(), AllocError>
    ensures { (u : UnitView) → Adds u (machine.Enters objects.now ∷ (list_statements (map statement_tree first.now) ++ (loop_item (statement_tree statement.now) ∷ (machine.LoopEnd ∷ (machine.Leaves objects.now ∷ []))))) control.old.items result control.new.items }
{
    push_item(control, Item7::Leaves(objects))?;
    push_looped(control, statement)?;
    push_statements(control, first)?;
    push_item(control, Item7::Enters(objects))?;
    Ok(())
}

fn push_switch<'a>(
    control: &mut Vec<Item7<'a>>,
    statement: &'a CheckedStatement,
    value: &'a CheckedTerm,
) -> Result<(), AllocError>
    ensures { (u : UnitView) → Adds u (machine.Value (term_tree value.now) ∷ (select_item (statement_tree statement.now) ∷ (machine.LoopEnd ∷ []))) control.old.items result control.new.items }
{
    push_item(control, Item7::LoopEnd)?;
    push_item(control, Item7::Statement(Way7::Select, statement))?;
    push_item(control, Item7::Term(Use7::Value, value))?;
    Ok(())
}

fn push_whole<'a>(
    control: &mut Vec<Item7<'a>>,
    statement: &'a CheckedStatement,
) -> Result<(), AllocError>
    ensures { (u : UnitView) → Adds u (machine.Statement (statement_tree statement.now) ∷ []) control.old.items result control.new.items }
{
    push_item(control, Item7::Statement(Way7::Whole, statement))
}

// ---- statements

/// The items of a statement of the entry or of a function that was called.
pub fn push_statement<'a>(
    control: &mut Vec<Item7<'a>>,
    is_entry: bool,
    statement: &'a CheckedStatement,
) -> Result<(), AllocError>
    ensures { (u : UnitView) → Adds u (spec.of_statement u is_entry (statement_tree statement.now)) control.old.items result control.new.items }
{
    match statement {
        CheckedStatement::Value(term) => push_item(control, Item7::Term(Use7::Unused, term)),
        CheckedStatement::Nothing => Ok(()),
        CheckedStatement::Forget(at, local) => {
            push_item(control, Item7::OnObject(*at, *local, Change7::Forget))
        }
        CheckedStatement::Start(at, local, value) => push_start(control, *at, *local, value),
        CheckedStatement::StartCopy(at, local, source) => {
            push_start_copy(control, *at, *local, source)
        }
        CheckedStatement::StartList(at, local, stores) => {
            push_start_list(control, *at, *local, stores.as_slice())
        }
        CheckedStatement::Block(objects, statements) => {
            push_block(control, objects.as_slice(), statements.as_slice())
        }
        CheckedStatement::If(condition, body) => push_if(control, condition, body),
        CheckedStatement::IfElse(condition, first, second) => {
            push_if_else(control, condition, first, second)
        }
        CheckedStatement::While(_, _) => push_looped(control, statement),
        CheckedStatement::Do(_, _) => push_looped(control, statement),
        CheckedStatement::For(objects, first, _, _, _) => {
            push_for(control, statement, objects.as_slice(), first.as_slice())
        }
        CheckedStatement::Switch(_, value, _, _, _, _) => push_switch(control, statement, value),
        CheckedStatement::Case(_, body) => push_whole(control, body),
        CheckedStatement::Default(body) => push_whole(control, body),
        CheckedStatement::Label(_, body) => push_whole(control, body),
        CheckedStatement::Goto(label) => push_item(control, Item7::GoTo(*label)),
        CheckedStatement::Break => push_item(control, Item7::BreakOut),
        CheckedStatement::Continue => push_item(control, Item7::NextIteration),
        CheckedStatement::Return(at, value) => push_return(control, is_entry, *at, value),
    }
}

/// What a function does from the end of its prologue on.
pub fn push_body<'a>(control: &mut Vec<Item7<'a>>, function: &'a Function) -> Result<(), AllocError>
    ensures { (u : UnitView) → Adds u (spec.body (function_view function.now)) control.old.items result control.new.items }
{
    push_item(control, Item7::EndBody)?;
    push_item(control, Item7::Leaves(function.scope.as_slice()))?;
    push_statements(control, function.body.as_slice())?;
    push_item(control, Item7::Enters(function.scope.as_slice()))?;
    Ok(())
}
