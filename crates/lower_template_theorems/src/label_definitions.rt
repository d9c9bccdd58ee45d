//! Laws on the labels that templates mark.

mod theorems;

pub use theorems::{labels_are_marked_below, labels_are_marked_once};
