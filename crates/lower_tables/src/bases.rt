//! The bases of the control-flow program of a unit, in order of first naming, and the first bytes of
//! objects of static storage and of literals.

pub mod initial_objects;
mod program_bases;

pub use program_bases::BaseTable;
