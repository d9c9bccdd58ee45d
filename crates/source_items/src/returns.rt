//! Functions of a unit that are called leave what they enter.

mod theorems;

pub use theorems::called_functions_leave_all;
