//! Certificates as text: the lines, and the invariant map that they write.
#![tactic(auto)]

pub mod lines;
pub mod maps;
