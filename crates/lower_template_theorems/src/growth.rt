//! Laws on the labels, names and scopes that works give away.

mod theorems;

pub use theorems::counters_grow;
