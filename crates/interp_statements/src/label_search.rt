//! Where a label stands: what is left to do from there.
ghost use Rattle.std.specs.Prelude.{◌≡◌, [], ◌∷◌, List, map, is_some, IfOk};
ghost use Rattle.c_layout.specs.CheckedTrees.{statement_tree};
ghost use Rattle.c_layout.specs.CheckedUnits.{UnitView, function_view};
ghost use Rattle.semantics.specs.SourceMachine.Items as machine;
ghost use Rattle.semantics.specs.SourceMachine.Items.{Item};
ghost use Rattle.semantics.specs.SourceMachine.LabelSearch as search;
ghost use Rattle.interp_statements.specs.LabelViews.{sought_view, looks_into_switches, Finds};
ghost use Rattle.interp_stack.specs.StackViews.{standing};

use crate::loop_items::{push_do_test, push_for_step, push_while_turn};
use crate::statement_items::push_statements;
use c_layout::{CaseLabel, CheckedStatement, Function};
use interp_stack::{Item7, Way7, push_item};
use std::alloc::AllocError;

/// A label of the function, or one of the innermost switch.
#[derive(Clone, Copy)]
pub enum Sought7 {
    Label(u32),
    Case(usize),
    Other,
}

fn is_label(sought: Sought7, number: u32) -> bool
    ensures { result ≡ search.is_label (sought_view sought) number }
{
    match sought {
        Sought7::Label(n) => n == number,
        Sought7::Case(_) | Sought7::Other => false,
    }
}

fn is_case(sought: Sought7, number: u32) -> bool
    ensures { result ≡ search.is_case (sought_view sought) number }
{
    match sought {
        Sought7::Case(n) => n == number as usize,
        Sought7::Label(_) | Sought7::Other => false,
    }
}

fn is_other(sought: Sought7) -> bool
    ensures { result ≡ search.is_other (sought_view sought) }
{
    match sought {
        Sought7::Other => true,
        Sought7::Label(_) | Sought7::Case(_) => false,
    }
}

// The labels of a switch do not stand in the switches in its body.
fn looks_into_switches(sought: Sought7) -> bool
    ensures { result ≡ looks_into_switches (sought_view sought) }
{
    match sought {
        Sought7::Label(_) => true,
        Sought7::Case(_) | Sought7::Other => false,
    }
}

// Whether a label stands in one of some statements.
#[cycle(search)]
fn is_in_any(sought: Sought7, statements: &[CheckedStatement]) -> bool
    ensures { (u : UnitView) (rest : List Item) → result ≡ is_some (search.found_among u (sought_view sought) (map statement_tree statements.now) rest) }
{
    for statement in statements {
        if is_in(sought, statement) {
            return true;
        }
    }
    false
}

/// Whether a label stands in a statement.
#[cycle(search)]
pub fn is_in(sought: Sought7, statement: &CheckedStatement) -> bool
    ensures { (u : UnitView) (rest : List Item) → result ≡ is_some (search.found u (sought_view sought) (statement_tree statement.now) rest) }
{
    match statement {
        CheckedStatement::Value(_) => false,
        CheckedStatement::Nothing => false,
        CheckedStatement::Forget(_, _) => false,
        CheckedStatement::Start(_, _, _) => false,
        CheckedStatement::StartCopy(_, _, _) => false,
        CheckedStatement::StartList(_, _, _) => false,
        CheckedStatement::Block(_, statements) => is_in_any(sought, statements.as_slice()),
        CheckedStatement::If(_, body) => is_in(sought, body),
        CheckedStatement::IfElse(_, first, second) => {
            is_in(sought, first) || is_in(sought, second)
        }
        CheckedStatement::While(_, body) => is_in(sought, body),
        CheckedStatement::Do(body, _) => is_in(sought, body),
        CheckedStatement::For(_, _, _, _, body) => is_in(sought, body),
        CheckedStatement::Switch(_, _, _, _, _, body) => {
            looks_into_switches(sought) && is_in(sought, body)
        }
        CheckedStatement::Case(n, body) => is_case(sought, *n) || is_in(sought, body),
        CheckedStatement::Default(body) => is_other(sought) || is_in(sought, body),
        CheckedStatement::Label(n, body) => is_label(sought, *n) || is_in(sought, body),
        CheckedStatement::Goto(_) => false,
        CheckedStatement::Break => false,
        CheckedStatement::Continue => false,
        CheckedStatement::Return(_, _) => false,
    }
}

/// Whether a label stands in the body of a function.
pub fn has_label(function: &Function, label: u32) -> bool
    ensures { (u : UnitView) → result ≡ is_some (search.from_label u (function_view function.now) label) }
{
    is_in_any(Sought7::Label(label), function.body.as_slice())
}

// A labelled statement is where the search ends, or it is searched.
#[cycle(descent)]
fn find_labelled<'a>(
    control: &mut Vec<Item7<'a>>,
    sought: Sought7,
    is_here: bool,
    body: &'a CheckedStatement,
) -> Result<(), AllocError>
    ensures { (u : UnitView) → IfOk result (λ _. Finds (search.here_or is_here (machine.Statement (statement_tree body.now) ∷ (standing u control.old.items).items) (search.found u (sought_view sought) (statement_tree body.now) (standing u control.old.items).items)) (standing u control.new.items).items) }
{
    if is_here {
        push_item(control, Item7::Statement(Way7::Whole, body))
    } else {
        find(control, sought, body)
    }
}

#[cycle(descent)]
fn find_in<'a>(
    control: &mut Vec<Item7<'a>>,
    sought: Sought7,
    statements: &'a [CheckedStatement],
) -> Result<(), AllocError>
    ensures { (u : UnitView) → IfOk result (λ _. Finds (search.found_among u (sought_view sought) (map statement_tree statements.now) (standing u control.old.items).items) (standing u control.new.items).items) }
{
    let mut at = 0;
    for statement in statements {
        at += 1;
        if is_in(sought, statement) {
            push_statements(control, &statements[at..])?;
            return find(control, sought, statement);
        }
    }
    Ok(())
}

/// Pushes what is left to do from a label in a statement on, where the items that follow the statement
/// are pushed already. The label is there.
#[cycle(descent)]
pub fn find<'a>(
    control: &mut Vec<Item7<'a>>,
    sought: Sought7,
    statement: &'a CheckedStatement,
) -> Result<(), AllocError>
    ensures { (u : UnitView) → IfOk result (λ _. Finds (search.found u (sought_view sought) (statement_tree statement.now) (standing u control.old.items).items) (standing u control.new.items).items) }
{
    match statement {
        CheckedStatement::Value(_) => Ok(()),
        CheckedStatement::Nothing => Ok(()),
        CheckedStatement::Forget(_, _) => Ok(()),
        CheckedStatement::Start(_, _, _) => Ok(()),
        CheckedStatement::StartCopy(_, _, _) => Ok(()),
        CheckedStatement::StartList(_, _, _) => Ok(()),
        CheckedStatement::Block(objects, statements) => {
            push_item(control, Item7::Leaves(objects.as_slice()))?;
            find_in(control, sought, statements.as_slice())
        }
        CheckedStatement::If(_, body) => find(control, sought, body),
        CheckedStatement::IfElse(_, first, second) => {
            if is_in(sought, first) {
                push_item(control, Item7::Hop)?;
                find(control, sought, first)
            } else {
                find(control, sought, second)
            }
        }
        CheckedStatement::While(_, body) => {
            push_item(control, Item7::LoopEnd)?;
            push_while_turn(control, statement)?;
            find(control, sought, body)
        }
        CheckedStatement::Do(body, condition) => {
            push_item(control, Item7::LoopEnd)?;
            push_do_test(control, statement, condition)?;
            find(control, sought, body)
        }
        CheckedStatement::For(objects, _, _, step, body) => {
            push_item(control, Item7::Leaves(objects.as_slice()))?;
            push_item(control, Item7::LoopEnd)?;
            push_for_step(control, statement, step)?;
            find(control, sought, body)
        }
        CheckedStatement::Switch(_, _, _, _, _, body) => {
            push_item(control, Item7::LoopEnd)?;
            find(control, sought, body)
        }
        CheckedStatement::Case(n, body) => {
            find_labelled(control, sought, is_case(sought, *n), body)
        }
        CheckedStatement::Default(body) => {
            find_labelled(control, sought, is_other(sought), body)
        }
        CheckedStatement::Label(n, body) => {
            find_labelled(control, sought, is_label(sought, *n), body)
        }
        CheckedStatement::Goto(_) => Ok(()),
        CheckedStatement::Break => Ok(()),
        CheckedStatement::Continue => Ok(()),
        CheckedStatement::Return(_, _) => Ok(()),
    }
}

/// Pushes what is left to do from a label of a function on, which it has.
pub fn find_label<'a>(
    control: &mut Vec<Item7<'a>>,
    function: &'a Function,
    label: u32,
) -> Result<(), AllocError>
    ensures { (u : UnitView) → (standing u control.old.items).items ≡ [] → IfOk result (λ _. Finds (search.from_label u (function_view function.now) label) (standing u control.new.items).items) }
{
    push_item(control, Item7::EndBody)?;
    push_item(control, Item7::Leaves(function.scope.as_slice()))?;
    find_in(control, Sought7::Label(label), function.body.as_slice())
}

/// The label that a value selects: the case of that value.
pub fn case_of(labels: &[CaseLabel], value: i128) -> Sought7
    ensures { sought_view result ≡ search.case_of labels.now 0 value }
{
    for (n, label) in labels.iter().enumerate() {
        if label.value == value {
            return Sought7::Case(n);
        }
    }
    Sought7::Other
}
