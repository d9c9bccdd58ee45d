//! Laws on what the instructions of templates do.

mod theorems;

pub use theorems::{
    calls_are_acts, copies_are_acts, newest_are_there, operations_are_acts, stores_are_acts,
};
