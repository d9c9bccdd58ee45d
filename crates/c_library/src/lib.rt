//! The standard headers of a unit, the library functions that it may call, and the formats of printf.
#![tactic(auto)]

pub mod formats;
pub mod headers;
