//! Bases of well-formed programs are regular.

mod theorems;

pub use theorems::shaped_bases_are_regular;
