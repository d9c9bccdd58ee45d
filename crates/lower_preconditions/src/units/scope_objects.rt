//! Whether the scopes of a function have objects of their own.
ghost use Rattle.std.specs.Prelude.{◌≡◌, IfOk, Some, None, cond, map};
ghost use Rattle.c_layout.specs.CheckedTrees.{statement_tree, statement_trees};
ghost use Rattle.c_layout.specs.CheckedUnits.{function_view};
ghost use Rattle.lower_preconditions.specs.Units.ScopeObjects as spec;

use c_layout::{CheckedStatement, Function};
use std::alloc::{AllocError, Global};

/// Marks an object, and says whether it is there and was not marked before.
fn mark(seen: &mut Vec<bool>, object: u32) -> bool
    ensures { cond result (Some seen.new.items) None ≡ spec.marked object seen.old.items }
{
    match seen.get(object as usize) {
        Some(is_marked) => {
            if *is_marked {
                return false;
            }
            seen[object as usize] = true;
            true
        }
        None => false,
    }
}

fn mark_all(seen: &mut Vec<bool>, objects: &[u32]) -> bool
    ensures { cond result (Some seen.new.items) None ≡ spec.all_marked objects.now seen.old.items }
{
    for object in objects {
        if !mark(seen, *object) {
            return false;
        }
    }
    true
}

/// Marks the objects of the scopes in statements.
#[cycle(scopes)]
fn mark_all_scopes(seen: &mut Vec<bool>, list: &[CheckedStatement]) -> bool
    ensures { cond result (Some seen.new.items) None ≡ spec.all_scopes_marked (statement_trees (map statement_tree list.now)) seen.old.items }
{
    for statement in list {
        if !mark_scopes(seen, statement) {
            return false;
        }
    }
    true
}

/// Marks the objects of the scopes in a statement.
#[cycle(scopes)]
fn mark_scopes(seen: &mut Vec<bool>, statement: &CheckedStatement) -> bool
    ensures { cond result (Some seen.new.items) None ≡ spec.scopes_marked (statement_tree statement.now) seen.old.items }
{
    match statement {
        CheckedStatement::Value(_)
        | CheckedStatement::Nothing
        | CheckedStatement::Forget(_, _)
        | CheckedStatement::Start(_, _, _)
        | CheckedStatement::StartCopy(_, _, _)
        | CheckedStatement::StartList(_, _, _)
        | CheckedStatement::Goto(_)
        | CheckedStatement::Break
        | CheckedStatement::Continue
        | CheckedStatement::Return(_, _) => true,
        CheckedStatement::Block(objects, items) => {
            mark_all(seen, objects.as_slice()) && mark_all_scopes(seen, items.as_slice())
        }
        CheckedStatement::IfElse(_, first, second) => {
            mark_scopes(seen, first) && mark_scopes(seen, second)
        }
        CheckedStatement::For(objects, first, _, _, body) => {
            mark_all(seen, objects.as_slice())
                && mark_all_scopes(seen, first.as_slice())
                && mark_scopes(seen, body)
        }
        CheckedStatement::If(_, body)
        | CheckedStatement::While(_, body)
        | CheckedStatement::Do(body, _)
        | CheckedStatement::Switch(_, _, _, _, _, body)
        | CheckedStatement::Case(_, body)
        | CheckedStatement::Default(body)
        | CheckedStatement::Label(_, body) => mark_scopes(seen, body),
    }
}

/// The parameters are marked, and no other objects.
fn marked_parameters(
    alloc: Global,
    parameters: usize,
    others: usize,
) -> Result<Vec<bool>, AllocError>
    ensures { IfOk result (λ v. v.items ≡ spec.so_many_marked parameters others) }
{
    let mut seen = vec![in alloc; true; parameters]?;
    let mut rest = vec![in alloc; false; others]?;
    seen.append(&mut rest)?;
    Ok(seen)
}

/// Whether the objects of the scopes of a function are its own: none of them is a parameter, and none
/// stands in two scopes.
pub fn has_own_objects(alloc: Global, function: &Function) -> Result<bool, AllocError>
    ensures { IfOk result (λ b. b ≡ spec.has_own_objects (function_view function.now)) }
{
    let parameters = function.parameters as usize;
    let Some(others) = function.locals.len().checked_sub(parameters) else {
        return Ok(false);
    };
    let mut seen = marked_parameters(alloc, parameters, others)?;
    Ok(
        mark_all(&mut seen, function.scope.as_slice())
            && mark_all_scopes(&mut seen, function.body.as_slice()),
    )
}
