//! Laws of the readers of declarations: whatever derives within the budget is found.

mod theorems;

pub use theorems::{
    declarators_are_found, file_declarators_are_found, initializers_are_found,
    local_declarations_are_found, specifiers_are_found,
};
