//! A checked translation unit: every name resolved, every type known, every conversion explicit.
mod checked_statements;
mod checked_terms;
mod checked_units;

pub use checked_statements::{CaseLabel, CheckedStatement, InitStore};
pub use checked_terms::{
    CheckedTerm, ConversionKind, Lvalue, LvalueForm, ObjectRef, StepTime, TermForm,
};
pub use checked_units::{
    Checked, Function, LocalObject, StaticBase, StaticObject, StaticStore, StaticValue,
    StringLiteral,
};
