//! A look at the objects of static storage of a unit before it is lowered.

mod plain_objects;
mod plain_stores;
mod plain_types;

pub use plain_objects::with_plain_objects;
