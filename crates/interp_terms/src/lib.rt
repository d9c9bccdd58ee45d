//! The items of terms and lvalues.
#![tactic(auto)]

mod assigned_items;
mod called_items;
mod operated_items;
mod term_items;

pub use operated_items::push_address;
pub use term_items::push_term;
