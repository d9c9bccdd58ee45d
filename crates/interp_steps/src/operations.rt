//! What the operators of terms do to the values that are pending in a run.

mod library_operations;
mod model_steps;
mod operations;
mod values;

pub use library_operations::{newest, target_size};
pub use model_steps::{load_from, store_to};
pub use operations::perform;
pub use values::{pop_value, push_value};
