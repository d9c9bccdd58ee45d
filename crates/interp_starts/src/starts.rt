//! Objects that are there when a run begins, and texts of initializers (6.2.4, 6.4.5 and 6.7.9 of ISO/IEC
//! 9899:2011), as calls.

mod static_objects;
mod texts;
mod type_layouts;

pub use static_objects::{literal_instance, literal_size, make_input, make_literal, make_object};
pub use texts::spell;
pub use type_layouts::{TypeLayout, layout_of};
