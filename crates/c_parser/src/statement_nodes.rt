//! Statements, made of their parts.
ghost use Rattle.std.specs.Prelude.{◌≡◌, None, Some, map};
ghost use Rattle.std.specs.Option.{option_map};
ghost use Rattle.c_layout.specs.SyntaxTrees.{tree_of};
ghost use Rattle.c_layout.specs.DeclarationTrees.{Declaration, Label, Case, Default, Block, Expression, If, IfElse, Switch, While, Do, For, Goto, Continue, Break, Return, name_view, local_view, for_first_view, statement_tree, statement_trees};

use c_layout::{Expr, ForFirst, Local, Name, Statement};
use cc_base::Place;

/// A declaration among the items of a block.
pub fn local_item(local: Local) -> Statement
    ensures { statement_tree result ≡ Declaration (local_view local) }
{
    Statement::Local(local)
}

/// A statement behind a label.
pub fn label(name: Name, labelled: Box<Statement>) -> Statement
    ensures { statement_tree result ≡ Label (name_view name) (statement_tree labelled.value) }
{
    Statement::Label(name, labelled)
}

/// A statement behind `case`.
pub fn case(place: Place, value: Box<Expr>, labelled: Box<Statement>) -> Statement
    ensures { statement_tree result ≡ Case place (tree_of value.value) (statement_tree labelled.value) }
{
    Statement::Case(place, Box::into_inner(value), labelled)
}

/// A statement behind `default`.
pub fn default(place: Place, labelled: Box<Statement>) -> Statement
    ensures { statement_tree result ≡ Default place (statement_tree labelled.value) }
{
    Statement::Default(place, labelled)
}

/// A block as a statement.
pub fn block_node(place: Place, items: Vec<Statement>) -> Statement
    ensures { statement_tree result ≡ Block place (statement_trees (map statement_tree items.items)) }
{
    Statement::Block(place, items)
}

/// A null statement.
pub fn null_statement(place: Place) -> Statement
    ensures { statement_tree result ≡ Expression place None }
{
    Statement::Value(place, None)
}

/// An expression statement.
pub fn expression_statement(place: Place, value: Box<Expr>) -> Statement
    ensures { statement_tree result ≡ Expression place (Some (tree_of value.value)) }
{
    Statement::Value(place, Some(Box::into_inner(value)))
}

/// `if` without `else`.
pub fn if_alone(place: Place, test: Expr, first: Box<Statement>) -> Statement
    ensures { statement_tree result ≡ If place (tree_of test) (statement_tree first.value) }
{
    Statement::If(place, test, first)
}

/// `if` with `else`.
pub fn if_else(place: Place, test: Expr, first: Box<Statement>, second: Box<Statement>) -> Statement
    ensures { statement_tree result ≡ IfElse place (tree_of test) (statement_tree first.value) (statement_tree second.value) }
{
    Statement::IfElse(place, test, first, second)
}

/// `switch`
pub fn switch(place: Place, value: Expr, cases: Box<Statement>) -> Statement
    ensures { statement_tree result ≡ Switch place (tree_of value) (statement_tree cases.value) }
{
    Statement::Switch(place, value, cases)
}

/// `while`
pub fn while_loop(place: Place, test: Expr, repeated: Box<Statement>) -> Statement
    ensures { statement_tree result ≡ While place (tree_of test) (statement_tree repeated.value) }
{
    Statement::While(place, test, repeated)
}

/// `do`
pub fn do_loop(place: Place, repeated: Box<Statement>, test: Expr) -> Statement
    ensures { statement_tree result ≡ Do place (statement_tree repeated.value) (tree_of test) }
{
    Statement::Do(place, repeated, test)
}

/// `for`
pub fn for_loop(
    place: Place,
    first: ForFirst,
    test: Option<Expr>,
    step: Option<Expr>,
    repeated: Box<Statement>,
) -> Statement
    ensures { statement_tree result ≡ For place (for_first_view first) (option_map tree_of test) (option_map tree_of step) (statement_tree repeated.value) }
{
    Statement::For(place, first, test, step, repeated)
}

/// `goto`
pub fn goto(place: Place, label: Name) -> Statement
    ensures { statement_tree result ≡ Goto place (name_view label) }
{
    Statement::Goto(place, label)
}

/// `continue`
pub fn continue_node(place: Place) -> Statement
    ensures { statement_tree result ≡ Continue place }
{
    Statement::Continue(place)
}

/// `break`
pub fn break_node(place: Place) -> Statement
    ensures { statement_tree result ≡ Break place }
{
    Statement::Break(place)
}

/// `return`
pub fn return_node(place: Place, value: Option<Expr>) -> Statement
    ensures { statement_tree result ≡ Return place (option_map tree_of value) }
{
    Statement::Return(place, value)
}
