//! The state of the machine of a replayed run, and the turns that put the parts of an item in its
//! place, enter and leave objects, store, call and return.

mod call_turns;
mod item_turns;
mod machines;
mod object_turns;
mod store_turns;

pub use call_turns::{back_to, bind_parameter, end_body, invoke, leave_function};
pub use item_turns::{
    Turned7, again, bind_first, drop_one, drop_value, enter_all, enter_below, first_statement,
    first_store, first_value, held, leave_all, leave_below, own_place, quiet, step,
};
pub use machines::{
    Frame7, Machine, at_rest, function_at, instance_of, local_type, name_of, next_item, set_name,
};
pub use object_turns::{
    change, ends_objects, leave_outcome, point_to, point_to_literal, point_to_outcome,
};
