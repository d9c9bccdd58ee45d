//! Laws of the abstract store.

mod theorems;

pub use theorems::{
    frees_are_monotone, lives_are_consistent, lives_are_monotone, loads_are_monotone,
    plain_bases_are_regular, renewals_are_consistent, renewals_are_monotone, spells_are_consistent,
    spells_are_monotone, stores_are_consistent, stores_are_monotone,
};
