//! What a run of the source still has to do, as a stack over the checked unit: no tree is copied.
#![tactic(auto)]

mod condition_items;
mod items;
mod named_tests;
mod scopes;
mod store_items;

pub use condition_items::push_condition;
pub use items::{Arm7, Change7, Item7, Next7, Operation7, Order7, Use7, Way7};
pub use named_tests::{NamedSide7, NamedTest7, test_of};
pub use scopes::{drop_loop, drop_turn, enter_first, jump, open_scopes, push_objects};
pub use store_items::{push_copy, push_item, push_store};
