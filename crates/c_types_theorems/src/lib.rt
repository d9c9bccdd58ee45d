//! Theorems on integer entries and on the places of initial values.
#![tactic(auto)]

pub mod entries;
pub mod stores;
pub mod units;
