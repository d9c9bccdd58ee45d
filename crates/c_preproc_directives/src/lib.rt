//! The lines of a file as directives see them (6.10 of ISO/IEC 9899:2011): which lines are
//! directives and what they are named, the groups of if-sections, and what a `#define` line
//! defines.
#![tactic(auto)]

mod conditional_groups;
mod directive_names;
mod macro_definitions;
mod open_files;
mod theorems;

pub use conditional_groups::{GroupState, Section, Sections, Uneven};
pub use directive_names::{Directive, HeaderName, directive_named, header_name};
pub use macro_definitions::{DefinitionFault, definition, may_be_defined, same_definition};
pub use open_files::{OpenFile, begins_directive};
pub use theorems::first_group_is_taken;
