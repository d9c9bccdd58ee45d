//! Readers of declarations (6.7 and 6.9 of ISO/IEC 9899:2011): specifiers with the bodies of
//! structures and enumerations, parameters, initializers, and declarations in blocks.

mod enumerations;
mod file_declarators;
mod initializers;
mod local_declarations;
mod parameters;
mod specifier_lists;
mod storage_classes;

pub use file_declarators::{file_declarator, initialized, named_by};
pub use local_declarations::local_declaration;
pub use specifier_lists::specifiers;
pub use storage_classes::is_typedef;
