//! Well-formed programs meet the premises of the theorems on the store.

mod theorems;

pub use theorems::well_formed_programs_meet_premises;
