//! Laws on where the labels of a function stand.

mod theorems;

pub use theorems::{
    function_labels_stand_in_scopes, labels_are_found, labels_are_noted, labels_stand_in_scopes,
};
