//! The places of the rules in statements.
ghost use Rattle.std.specs.Prelude.{◌≡◌, ◌++◌, IfOk};
ghost use Rattle.syntactic_rules.specs.Slots.{switched};
ghost use Rattle.syntactic_rules.specs.StatementPlaces.{condition_places, test_places, optional_places, stores_places, clauses_places, statement_places, statements_places};

use crate::switches::lacks_default;
use crate::term_places::{Slot, add_lvalue, add_term};
use c_layout::{CheckedStatement, CheckedTerm, InitStore};
use cc_base::{Diag, Place, Rule};
use std::alloc::AllocError;

/// Adds what a condition has: it stands in a slot that needs no parentheses.
fn add_condition(found: &mut Vec<Diag>, test: &CheckedTerm) -> Result<(), AllocError>
    ensures { IfOk result (λ _. found.new.items ≡ found.old.items ++ condition_places test.now) }
{
    add_term(found, test, Slot::Needs(0))
}

/// Adds what the condition of a `for` has.
fn add_test(found: &mut Vec<Diag>, test: &Option<CheckedTerm>) -> Result<(), AllocError>
    ensures { IfOk result (λ _. found.new.items ≡ found.old.items ++ test_places test.now) }
{
    match test {
        Some(term) => add_condition(found, term),
        None => Ok(()),
    }
}

/// Adds what an expression that stands in no slot has, where there is one.
fn add_optional(found: &mut Vec<Diag>, term: &Option<CheckedTerm>) -> Result<(), AllocError>
    ensures { IfOk result (λ _. found.new.items ≡ found.old.items ++ optional_places term.now) }
{
    match term {
        Some(term) => add_term(found, term, Slot::Outside),
        None => Ok(()),
    }
}

/// Adds what the stores of an initializer have.
fn add_stores(found: &mut Vec<Diag>, stores: &[InitStore]) -> Result<(), AllocError>
    ensures { IfOk result (λ _. found.new.items ≡ found.old.items ++ stores_places stores.now) }
{
    for store in stores {
        match store {
            InitStore::Value(_, term) => add_term(found, term, Slot::Outside)?,
            InitStore::Copy(_, source) => add_lvalue(found, source)?,
            InitStore::Spell(_, _, _) => {}
        }
    }
    Ok(())
}

/// Adds a `switch` without the default label that it should have.
fn add_switch(found: &mut Vec<Diag>, place: Place, lacks: bool) -> Result<(), AllocError>
    ensures { IfOk result (λ _. found.new.items ≡ found.old.items ++ switched place lacks) }
{
    if lacks {
        let rule = Rule::Swtchdflt;
        return Ok(found.push(Diag { place, rule })?);
    }
    Ok(())
}

/// Adds what the clauses of a `for` have besides the statements of the first one.
fn add_clauses(
    found: &mut Vec<Diag>,
    test: &Option<CheckedTerm>,
    step: &Option<CheckedTerm>,
) -> Result<(), AllocError>
    ensures { IfOk result (λ _. found.new.items ≡ found.old.items ++ clauses_places test.now step.now) }
{
    add_test(found, test)?;
    add_optional(found, step)
}

/// Adds what statements have, in order.
#[cycle(statements)]
pub fn add_statements(
    found: &mut Vec<Diag>,
    statements: &[CheckedStatement],
) -> Result<(), AllocError>
    ensures { IfOk result (λ _. found.new.items ≡ found.old.items ++ statements_places statements.now) }
{
    for statement in statements {
        add_statement(found, statement)?;
    }
    Ok(())
}

/// Adds what a statement has.
#[cycle(statements)]
fn add_statement(found: &mut Vec<Diag>, s: &CheckedStatement) -> Result<(), AllocError>
    ensures { IfOk result (λ _. found.new.items ≡ found.old.items ++ statement_places s.now) }
{
    match s {
        CheckedStatement::Nothing
        | CheckedStatement::Forget(_, _)
        | CheckedStatement::Goto(_)
        | CheckedStatement::Break
        | CheckedStatement::Continue => Ok(()),
        CheckedStatement::Value(term) | CheckedStatement::Start(_, _, term) => {
            add_term(found, term, Slot::Outside)
        }
        CheckedStatement::StartCopy(_, _, source) => add_lvalue(found, source),
        CheckedStatement::StartList(_, _, stores) => add_stores(found, stores.as_slice()),
        CheckedStatement::Return(_, term) => add_optional(found, term),
        CheckedStatement::Block(_, items) => add_statements(found, items.as_slice()),
        CheckedStatement::If(test, body) | CheckedStatement::While(test, body) => {
            add_condition(found, test)?;
            add_statement(found, body)
        }
        CheckedStatement::IfElse(test, first, second) => {
            add_condition(found, test)?;
            add_statement(found, first)?;
            add_statement(found, second)
        }
        CheckedStatement::Do(body, test) => {
            add_statement(found, body)?;
            add_condition(found, test)
        }
        CheckedStatement::For(_, first, test, step, body) => {
            add_statements(found, first.as_slice())?;
            add_clauses(found, test, step)?;
            add_statement(found, body)
        }
        CheckedStatement::Switch(place, value, cases, has_default, enumerators, body) => {
            let lacks = lacks_default(cases.as_slice(), *has_default, enumerators);
            add_switch(found, *place, lacks)?;
            add_term(found, value, Slot::Outside)?;
            add_statement(found, body)
        }
        CheckedStatement::Case(_, body)
        | CheckedStatement::Default(body)
        | CheckedStatement::Label(_, body) => add_statement(found, body),
    }
}
