//! Laws on the addresses that templates form.

mod theorems;

pub use theorems::literals_are_pointed_to_at_their_start;
