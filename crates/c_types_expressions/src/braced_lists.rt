//! The way down initializers (6.7.9 of ISO/IEC 9899:2011): each expression gets its type, in
//! reading order, and is stored in the subobject that it initializes.

mod braced_lists;
mod initializers;

pub use initializers::initializer_of;
