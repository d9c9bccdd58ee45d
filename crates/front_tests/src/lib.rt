//! Tests of layouts, headers and the preprocessor.
#![tactic(auto)]

pub mod headers;
pub mod layouts;
pub mod preprocessor;
