//! Statements and blocks (6.8 of ISO/IEC 9899:2011).
use crate::syntax_tree::declarations::{InitDeclarator, SpecWord};
use crate::syntax_tree::expressions::{Expr, Name};
use cc_base::Place;

/// A declaration in a block or in a `for`, at its first token. None of its declarators is that of a
/// function.
#[derive(Drop)]
pub struct Local {
    pub place: Place,
    pub words: Vec<SpecWord>,
    pub declarators: Vec<InitDeclarator>,
}

/// The first clause of a `for`.
#[derive(Drop)]
pub enum ForFirst {
    Nothing,
    Value(Expr),
    Declaration(Local),
}

/// A statement or, in a block, a declaration. The place is that of its first word or sign.
#[derive(Drop)]
pub enum Statement {
    /// A declaration; it stands only among the items of a block.
    Local(Local),
    Label(Name, Box<Statement>),
    Case(Place, Expr, Box<Statement>),
    Default(Place, Box<Statement>),
    Block(Place, Vec<Statement>),
    /// An expression statement or, without one, a null statement.
    Value(Place, Option<Expr>),
    If(Place, Expr, Box<Statement>),
    IfElse(Place, Expr, Box<Statement>, Box<Statement>),
    Switch(Place, Expr, Box<Statement>),
    While(Place, Expr, Box<Statement>),
    /// The body and the condition.
    Do(Place, Box<Statement>, Expr),
    /// The three clauses and the body.
    For(Place, ForFirst, Option<Expr>, Option<Expr>, Box<Statement>),
    Goto(Place, Name),
    Continue(Place),
    Break(Place),
    Return(Place, Option<Expr>),
}
