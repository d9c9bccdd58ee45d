//! Structs that stand in no circle.

mod known_structs;
mod struct_orders;

pub use struct_orders::see_order;
