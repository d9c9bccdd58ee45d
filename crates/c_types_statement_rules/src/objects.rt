//! Objects of blocks and of file scope once their types are known, and at the end of a unit (6.7, 6.9.2
//! of ISO/IEC 9899:2011).

mod file_objects;
mod local_objects;
mod unit_objects;

pub use file_objects::{
    first_declaration, may_be_object, meet_initializer, next_declaration, object_at,
};
pub use local_objects::{
    BlockParts, declare_automatic, declare_static, is_static, may_be_local, set_local, set_static,
    start,
};
pub use unit_objects::finish_objects;
