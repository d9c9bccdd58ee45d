//! The expansion of macros in a list of tokens (6.10.3 of ISO/IEC 9899:2011), without the `#` and
//! `##` operators.
#![tactic(auto)]

mod argument_counts;
mod levels;
mod lexeme;
mod machine;
mod macro_table;
mod pending_list;
mod replacement;
mod spelling_numbers;
mod theorems;
mod trouble;

pub use lexeme::{Lexeme, Mark};
pub use machine::{Expansion, expand_list};
pub use macro_table::{Macro, Macros, Part};
pub use spelling_numbers::Spellings;
pub use theorems::goes_by_its_first_token;
pub use trouble::{Failure, Refused, Trouble};
