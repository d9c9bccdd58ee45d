//! What the operators on intervals make of single numbers: the nearest one of a list, quotients and
//! remainders, numbers times powers of two, and numbers by blocks of as many as a type has.

mod divided_numbers;
mod nearest_numbers;
mod scaled_numbers;
mod turned_numbers;

pub use divided_numbers::{above_zero, below_zero, quotient, rest};
pub use nearest_numbers::{first_above, last_below, own_unless};
pub use scaled_numbers::{halved, ones_above, power_of_two, scaled};
pub use turned_numbers::{Turned, are_one_block, turned_product};
