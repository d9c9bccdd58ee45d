//! What typing knows at a place of a unit: the names in scope, the structs so far, the objects,
//! functions and literals (6.2 of ISO/IEC 9899:2011).
#![tactic(auto)]

mod context;
mod data_models;
mod declared_types;
mod definitions;
mod library_types;
mod meanings;
mod name_numbers;
mod refusals;
mod scope_table;
mod struct_types;
mod type_steps;

pub use context::{Body, Context, Scopes, StaticInitializer};
pub use data_models::DataModel;
pub use declared_types::{DeclaredType, ObjectDeclaration, Signature, copied_types};
pub use definitions::Definitions;
pub use library_types::library_signature;
pub use meanings::{Meaning, Tag};
pub use name_numbers::NameNumbers;
pub use refusals::{
    constant_needed, format_fault, pointer_integer, redeclared, refused, type_fault, undeclared,
};
pub use scope_table::ScopeTable;
pub use struct_types::{FoundMember, StructTypes};
pub use type_steps::{TypeStep, stepped};
