//! The parts of a type name and of an abstract declarator.
use c_layout::{AbstractLayer, Brackets, Expr, TypeName};
use cc_base::Place;

/// A type name and the lengths of its arrays.
#[derive(Drop)]
pub struct TypeNameParts {
    pub name: TypeName,
    pub lengths: Vec<Expr>,
}

/// The layers of an abstract declarator, innermost first, and the lengths of its arrays, in order.
#[derive(Drop)]
pub struct AbstractParts {
    pub layers: Vec<AbstractLayer>,
    pub lengths: Vec<Expr>,
}

/// One pair of brackets, with its length where one is given.
#[derive(Drop)]
pub struct ArrayLength {
    pub place: Place,
    pub length: Option<Box<Expr>>,
}

/// Pairs of brackets, and the lengths in them.
#[derive(Drop)]
pub struct ArrayParts {
    pub arrays: Vec<Brackets>,
    pub lengths: Vec<Expr>,
}
