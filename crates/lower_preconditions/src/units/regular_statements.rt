//! Whether statements are such as typing makes them.
ghost use Rattle.std.specs.Prelude.{◌≡◌, ◌&&◌, map, option_map};
ghost use Rattle.std.specs.List.{list_all};
ghost use Rattle.c_layout.specs.Types.{view, same_kind};
ghost use Rattle.c_layout.specs.CheckedTrees.{term_tree, lvalue_tree, store_tree, statement_tree, statement_trees};
ghost use Rattle.c_layout.specs.CheckedUnits.{function_view, unit_view};
ghost use Rattle.lower_preconditions.specs.Units.RegularStatements as spec;
ghost use Rattle.lower_preconditions.specs.Units.StatementGroups.{is_simple, is_declaration, is_selection, is_loop, is_jump};

use crate::units::regular_terms::{has_local, is_regular_place, is_regular_term, is_struct};
use c_layout::{
    CType, Checked, CheckedStatement, CheckedTerm, Function, InitStore, Lvalue, ObjectRef,
};
use cc_base::IntType;
use cfg::Scalar;
use lower_conditions::{NamedObject, named};

/// Whether a clause of a `for` is such as typing makes it, where there is one.
fn is_regular_clause(
    unit: &Checked,
    function: &Function,
    used: bool,
    clause: &Option<CheckedTerm>,
) -> bool
    ensures { result ≡ spec.is_regular_clause (unit_view unit.now) (function_view function.now) used (option_map term_tree clause.now) }
{
    match clause {
        Some(term) => is_regular_term(unit, function, used, 0, term),
        None => true,
    }
}

/// Whether the condition and the step of a `for` are such as typing makes them.
fn are_regular_clauses(
    unit: &Checked,
    function: &Function,
    test: &Option<CheckedTerm>,
    step: &Option<CheckedTerm>,
) -> bool
    ensures { result ≡ spec.are_regular_clauses (unit_view unit.now) (function_view function.now) (option_map term_tree test.now) (option_map term_tree step.now) }
{
    is_regular_clause(unit, function, true, test) && is_regular_clause(unit, function, false, step)
}

/// Whether a value that is returned is such as typing makes it, behind the address of the result.
fn is_regular_result(unit: &Checked, function: &Function, value: &Option<CheckedTerm>) -> bool
    ensures { result ≡ spec.is_regular_result (unit_view unit.now) (function_view function.now) (option_map term_tree value.now) }
{
    match value {
        Some(term) => is_regular_term(unit, function, true, 1, term),
        None => true,
    }
}

/// Whether a struct is copied from an lvalue, behind the address of its target.
fn is_regular_source(unit: &Checked, function: &Function, source: &Lvalue) -> bool
    ensures { result ≡ spec.is_regular_source (unit_view unit.now) (function_view function.now) (lvalue_tree source.now) }
{
    is_struct(&source.ctype) && is_regular_place(unit, function, 1, source)
}

fn is_regular_store(unit: &Checked, function: &Function, store: &InitStore) -> bool
    ensures { result ≡ spec.is_regular_store (unit_view unit.now) (function_view function.now) (store_tree store.now) }
{
    match store {
        InitStore::Value(_, value) => is_regular_term(unit, function, true, 1, value),
        InitStore::Copy(_, source) => is_regular_source(unit, function, source),
        InitStore::Spell(_, _, _) => true,
    }
}

fn are_regular_stores(unit: &Checked, function: &Function, stores: &[InitStore]) -> bool
    ensures { result ≡ list_all (spec.is_regular_store (unit_view unit.now) (function_view function.now)) (map store_tree stores.now) }
{
    for at in 0..stores.len() {
        if !is_regular_store(unit, function, &stores[at]) {
            return false;
        }
    }
    true
}

/// Whether a statement is a declaration or an expression.
fn is_plain(statement: &CheckedStatement) -> bool
    ensures { result ≡ spec.is_plain (statement_tree statement.now) }
{
    match statement {
        CheckedStatement::Value(_)
        | CheckedStatement::Nothing
        | CheckedStatement::Forget(_, _)
        | CheckedStatement::Start(_, _, _)
        | CheckedStatement::StartCopy(_, _, _)
        | CheckedStatement::StartList(_, _, _) => true,
        _ => false,
    }
}

fn are_plain(list: &[CheckedStatement]) -> bool
    ensures { result ≡ spec.are_plain (statement_trees (map statement_tree list.now)) }
{
    for statement in list {
        if !is_plain(statement) {
            return false;
        }
    }
    true
}

fn is_kind(a: IntType, b: IntType) -> bool
    ensures { result ≡ same_kind a b }
{
    a.bytes == b.bytes && (a.signed == b.signed && a.rank == b.rank)
}

fn is_of_kind(kind: IntType, t: &CType) -> bool
    ensures { result ≡ spec.is_of_kind kind (view t.now) }
{
    match t {
        CType::Int(own) => is_kind(kind, *own),
        CType::Pointer(_) | CType::Array(_, _) | CType::Struct(_) | CType::Void => false,
    }
}

/// Whether an object of the unit or of the function has an integer type.
fn has_kind(unit: &Checked, function: &Function, object: ObjectRef, kind: IntType) -> bool
    ensures { result ≡ spec.has_kind kind (spec.object_type (unit_view unit.now) (function_view function.now) object) }
{
    match object {
        ObjectRef::Static(number) => match unit.objects.get(number as usize) {
            Some(found) => is_of_kind(kind, &found.ctype),
            None => false,
        },
        ObjectRef::Local(number) => match function.locals.get(number as usize) {
            Some(found) => is_of_kind(kind, &found.ctype),
            None => false,
        },
    }
}

/// Whether an object that a switch names as an integer is declared with that type.
fn is_regular_named(unit: &Checked, function: &Function, found: Option<NamedObject>) -> bool
    ensures { result ≡ spec.is_regular_named (unit_view unit.now) (function_view function.now) found }
{
    match found {
        Some(found) => match found.kind {
            Scalar::Int(kind) => has_kind(unit, function, found.object, kind),
            Scalar::Pointer => true,
        },
        None => true,
    }
}

fn is_regular_switch(unit: &Checked, function: &Function, value: &CheckedTerm) -> bool
    ensures { result ≡ spec.is_regular_switch (unit_view unit.now) (function_view function.now) (term_tree value.now) }
{
    is_regular_named(unit, function, named(value))
        && is_regular_term(unit, function, true, 0, value)
}

/// Whether statements in a loop or `switch` or not, and in a loop or not, are such as typing makes them.
#[cycle(statements)]
pub fn are_regular_statements(
    unit: &Checked,
    function: &Function,
    breaks: bool,
    loops: bool,
    list: &[CheckedStatement],
) -> bool
    ensures { result ≡ spec.are_regular_statements (unit_view unit.now) (function_view function.now) breaks loops (statement_trees (map statement_tree list.now)) }
{
    for statement in list {
        if !is_regular_statement(unit, function, breaks, loops, statement) {
            return false;
        }
    }
    true
}

/// Whether a statement is a declaration, and such as typing makes it.
fn is_regular_declaration(
    unit: &Checked,
    function: &Function,
    breaks: bool,
    loops: bool,
    statement: &CheckedStatement,
) -> bool
    ensures { result ≡ (is_declaration (statement_tree statement.now) && spec.is_regular_statement (unit_view unit.now) (function_view function.now) breaks loops (statement_tree statement.now)) }
{
    match statement {
        CheckedStatement::Forget(_, local) => has_local(function, *local),
        CheckedStatement::Start(_, local, value) => {
            has_local(function, *local) && is_regular_term(unit, function, true, 1, value)
        }
        CheckedStatement::StartCopy(_, local, source) => {
            has_local(function, *local) && is_regular_source(unit, function, source)
        }
        CheckedStatement::StartList(_, local, stores) => {
            has_local(function, *local) && are_regular_stores(unit, function, stores.as_slice())
        }
        _ => false,
    }
}

/// Whether a statement is an expression, a block or behind a label, and such as typing makes it.
#[cycle(statements)]
fn is_regular_simple(
    unit: &Checked,
    function: &Function,
    breaks: bool,
    loops: bool,
    statement: &CheckedStatement,
) -> bool
    ensures { result ≡ (is_simple (statement_tree statement.now) && spec.is_regular_statement (unit_view unit.now) (function_view function.now) breaks loops (statement_tree statement.now)) }
{
    match statement {
        CheckedStatement::Nothing => true,
        CheckedStatement::Value(term) => is_regular_term(unit, function, false, 0, term),
        CheckedStatement::Block(_, items) => {
            are_regular_statements(unit, function, breaks, loops, items.as_slice())
        }
        CheckedStatement::Case(_, body)
        | CheckedStatement::Default(body)
        | CheckedStatement::Label(_, body) => {
            is_regular_statement(unit, function, breaks, loops, body)
        }
        _ => false,
    }
}

/// Whether a statement is a selection, and such as typing makes it.
#[cycle(statements)]
fn is_regular_selection(
    unit: &Checked,
    function: &Function,
    breaks: bool,
    loops: bool,
    statement: &CheckedStatement,
) -> bool
    ensures { result ≡ (is_selection (statement_tree statement.now) && spec.is_regular_statement (unit_view unit.now) (function_view function.now) breaks loops (statement_tree statement.now)) }
{
    match statement {
        CheckedStatement::If(test, body) => {
            is_regular_term(unit, function, true, 0, test)
                && is_regular_statement(unit, function, breaks, loops, body)
        }
        CheckedStatement::IfElse(test, first, second) => {
            is_regular_term(unit, function, true, 0, test)
                && (is_regular_statement(unit, function, breaks, loops, first)
                    && is_regular_statement(unit, function, breaks, loops, second))
        }
        CheckedStatement::Switch(_, value, _, _, _, body) => {
            is_regular_switch(unit, function, value)
                && is_regular_statement(unit, function, true, loops, body)
        }
        _ => false,
    }
}

/// Whether a statement is a loop, and such as typing makes it.
#[cycle(statements)]
fn is_regular_loop(
    unit: &Checked,
    function: &Function,
    breaks: bool,
    loops: bool,
    statement: &CheckedStatement,
) -> bool
    ensures { result ≡ (is_loop (statement_tree statement.now) && spec.is_regular_statement (unit_view unit.now) (function_view function.now) breaks loops (statement_tree statement.now)) }
{
    match statement {
        CheckedStatement::While(test, body) | CheckedStatement::Do(body, test) => {
            is_regular_term(unit, function, true, 0, test)
                && is_regular_statement(unit, function, true, true, body)
        }
        CheckedStatement::For(_, first, test, step, body) => {
            (are_plain(first.as_slice())
                && (are_regular_statements(unit, function, false, false, first.as_slice())
                    && are_regular_clauses(unit, function, test, step)))
                && is_regular_statement(unit, function, true, true, body)
        }
        _ => false,
    }
}

/// Whether a statement is a jump, and such as typing makes it.
fn is_regular_jump(
    unit: &Checked,
    function: &Function,
    breaks: bool,
    loops: bool,
    statement: &CheckedStatement,
) -> bool
    ensures { result ≡ (is_jump (statement_tree statement.now) && spec.is_regular_statement (unit_view unit.now) (function_view function.now) breaks loops (statement_tree statement.now)) }
{
    match statement {
        CheckedStatement::Goto(label) => *label < function.labels,
        CheckedStatement::Break => breaks,
        CheckedStatement::Continue => loops,
        CheckedStatement::Return(_, value) => is_regular_result(unit, function, value),
        _ => false,
    }
}

/// Whether a statement is such as typing makes it.
#[cycle(statements)]
fn is_regular_statement(
    unit: &Checked,
    function: &Function,
    breaks: bool,
    loops: bool,
    statement: &CheckedStatement,
) -> bool
    ensures { result ≡ spec.is_regular_statement (unit_view unit.now) (function_view function.now) breaks loops (statement_tree statement.now) }
{
    is_regular_simple(unit, function, breaks, loops, statement)
        || (is_regular_declaration(unit, function, breaks, loops, statement)
            || (is_regular_selection(unit, function, breaks, loops, statement)
                || (is_regular_loop(unit, function, breaks, loops, statement)
                    || is_regular_jump(unit, function, breaks, loops, statement))))
}
