//! The rules of typing below operators: names, constants, literals, members, type names and calls
//! (6.4.4, 6.4.5, 6.5.1, 6.5.2.2, 6.5.2.3 and 6.7.7 of ISO/IEC 9899:2011).
#![tactic(auto)]

mod calls;
mod members;
mod primaries;
mod type_names;

pub use calls::{Callee, call, callee_named, note_callee};
pub use members::{arrow, member};
pub use primaries::{constant, literal, name};
pub use type_names::{Tagged, enumeration_tag, named_type, struct_tag, typedef_named};
