//! `strcpy`, `strncpy`, `strcat` and `strcmp` (7.24.2.3, 7.24.2.4, 7.24.3.1 and 7.24.4.2 of
//! ISO/IEC 9899:2011), as calls.

mod comparisons;
mod copies;
mod padded_copies;

pub use comparisons::strcmp;
pub use copies::{strcat, strcpy};
pub use padded_copies::strncpy;
