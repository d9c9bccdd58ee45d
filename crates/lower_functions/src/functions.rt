//! The control-flow program of one function, with calls that are not put in yet.

mod finished_works;
mod function_templates;
mod function_works;
mod theorems;

pub use function_templates::template;
pub use lower_templates::worklist::{BaseName, Exit, OwnCall, Piece, Template};
pub use theorems::one_template;
