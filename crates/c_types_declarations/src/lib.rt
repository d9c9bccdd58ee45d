//! The types of declarations (6.7 of ISO/IEC 9899:2011): specifiers, declarators and parameters.
#![tactic(auto)]

mod context_steps;
mod declarators;
mod enumerations;
mod parameters;
mod specifier_trees;
mod specifiers;
mod struct_bodies;

pub use c_types_expressions::braced_lists::initializer_of;
pub use c_types_initializers::{Initialized, static_stores};
pub use declarators::{declared_type, typed_steps};
pub use parameters::{FunctionHead, function_head};
pub use specifier_trees::specifiers_of;
pub use specifiers::{Specified, is_library_name};
