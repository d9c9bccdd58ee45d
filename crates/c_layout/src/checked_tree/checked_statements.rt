//! Checked statements.
use crate::checked_tree::checked_terms::{CheckedTerm, Lvalue};
use cc_base::{Place, Text};

/// A store of an initializer in braces or of a literal, in order, after the object is cleared.
#[derive(Drop)]
pub enum InitStore {
    /// The value of the scalar at an offset.
    Value(u64, CheckedTerm),
    /// The struct at an offset, copied from an lvalue.
    Copy(u64, Lvalue),
    /// A literal's characters and its closing zero, as far as they fit, into the character array of
    /// so many bytes at an offset.
    Spell(u64, u64, Text),
}

/// A case label of a `switch`: its value in the promoted type, and its place.
#[derive(Clone, Copy)]
pub struct CaseLabel {
    pub place: Place,
    pub value: i128,
}

/// A statement. Local objects and labels are numbers of the function.
#[derive(Drop)]
pub enum CheckedStatement {
    /// An expression statement.
    Value(CheckedTerm),
    /// `;`
    Nothing,
    /// A declaration without initializer makes the local object indeterminate, at its name.
    Forget(Place, u32),
    /// A local scalar and its initializer, at its name.
    Start(Place, u32, CheckedTerm),
    /// A local struct that is copied from an lvalue, at its name.
    StartCopy(Place, u32, Lvalue),
    /// A local object that is cleared and then stored to, at its name.
    StartList(Place, u32, Vec<InitStore>),
    /// A block with its objects of automatic storage, in order of declaration.
    Block(Vec<u32>, Vec<CheckedStatement>),
    If(CheckedTerm, Box<CheckedStatement>),
    IfElse(CheckedTerm, Box<CheckedStatement>, Box<CheckedStatement>),
    While(CheckedTerm, Box<CheckedStatement>),
    Do(Box<CheckedStatement>, CheckedTerm),
    /// The objects of the first clause, its statements, the condition, the step and the body.
    For(
        Vec<u32>,
        Vec<CheckedStatement>,
        Option<CheckedTerm>,
        Option<CheckedTerm>,
        Box<CheckedStatement>,
    ),
    /// At its word: the promoted value, its case labels in reading order, whether it has a default,
    /// and the enumerators' values where the value is declared with an enumerated type.
    Switch(Place, CheckedTerm, Vec<CaseLabel>, bool, Option<Vec<i128>>, Box<CheckedStatement>),
    /// The case label with this number of the innermost `switch`, and what it labels.
    Case(u32, Box<CheckedStatement>),
    Default(Box<CheckedStatement>),
    /// The label with this number of the function.
    Label(u32, Box<CheckedStatement>),
    Goto(u32),
    Break,
    Continue,
    Return(Place, Option<CheckedTerm>),
}
