//! What typing says of the units that it makes.

mod theorems;

pub use theorems::entries_take_integers;
