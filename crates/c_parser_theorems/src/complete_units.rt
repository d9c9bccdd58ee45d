//! Laws of the readers of statements and units: whatever derives within the budget is found.

mod theorems;

pub use theorems::{
    external_declarations_are_found, refused_pieces_have_no_derivation, statements_are_found,
    units_are_found,
};
