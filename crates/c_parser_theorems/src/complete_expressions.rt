//! Laws of the readers of expressions: whatever derives within the budget is found.

mod theorems;

pub use theorems::expressions_are_found;
