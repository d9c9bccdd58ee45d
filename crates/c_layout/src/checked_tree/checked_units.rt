//! Checked units.
use crate::checked_tree::checked_statements::CheckedStatement;
use crate::checked_tree::checked_terms::CheckedTerm;
use crate::data_model::Model;
use crate::struct_table::Structs;
use crate::type_terms::CType;
use cc_base::{IntType, Place, Text};

/// An object of automatic storage, a parameter among them.
#[derive(Drop)]
pub struct LocalObject {
    pub name: Text,
    pub place: Place,
    pub ctype: CType,
}

/// A function of the unit with its definition.
#[derive(Drop)]
pub struct Function {
    pub name: Text,
    /// The place of its name in its definition.
    pub place: Place,
    pub result: CType,
    /// How many of the locals, the first ones, are parameters.
    pub parameters: u32,
    pub locals: Vec<LocalObject>,
    /// The objects of the outermost block, parameters left out, in order of declaration.
    pub scope: Vec<u32>,
    pub body: Vec<CheckedStatement>,
    pub labels: u32,
}

/// What a static initializer points into.
#[derive(Clone, Copy, PartialEq, Eq)]
pub enum StaticBase {
    Object(u32),
    Literal(u32),
}

/// A value of a static initializer.
#[derive(Clone, Copy, PartialEq, Eq)]
pub enum StaticValue {
    Number(i128, IntType),
    Null,
    /// A pointer into an object, by its offset and the bounds of the part that it may reach.
    Address(StaticBase, u64, u64, u64),
}

/// A store of a static initializer, in order, over an object that is all zero.
#[derive(Drop)]
pub enum StaticStore {
    /// At an offset.
    Value(u64, StaticValue),
    /// A literal's characters and its closing zero, as far as they fit, into the character array of
    /// so many bytes at an offset.
    Spell(u64, u64, Text),
}

/// An object of static storage.
#[derive(Drop)]
pub struct StaticObject {
    pub name: Text,
    pub place: Place,
    pub ctype: CType,
    pub stores: Vec<StaticStore>,
}

/// A string literal that is an object of the run: its bytes without the closing zero.
#[derive(Drop)]
pub struct StringLiteral {
    pub place: Place,
    pub bytes: Text,
}

/// A checked unit: its functions, objects of static storage, structs and literals, the entry's
/// number among the functions, and the model under which it was checked.
#[derive(Drop)]
pub struct Checked {
    pub functions: Vec<Function>,
    /// The expressions that no run evaluates, since only their values are needed: lengths of arrays,
    /// case labels, values of enumerators, and initializers of objects of static storage.
    pub constants: Vec<CheckedTerm>,
    pub objects: Vec<StaticObject>,
    pub structs: Structs,
    pub literals: Vec<StringLiteral>,
    pub entry: u32,
    pub model: Model,
}
