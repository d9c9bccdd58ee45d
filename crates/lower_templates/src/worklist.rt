//! What the control-flow program of one function is made of: its pieces, the works that are still to
//! be done, what terms and types are to it, its scopes, and the numbers that it gives away.

mod pending_works;
mod scope_trees;
mod template_builder;
mod template_pieces;
mod term_kinds;

pub use pending_works::{Decision, Landing, Surroundings, Targets, Work, behind};
pub use scope_trees::{Choice, Scope, ScopeTree, scope_tree};
pub use template_builder::{Builder, Dispatch, Setting};
pub use template_pieces::{BaseName, Exit, OwnCall, Piece, Template};
pub use term_kinds::{
    OperatorMeaning, assigned, common_with_int, integer_type, is_backward, is_null_constant,
    is_void, loaded, meaning, opposite, peeled, relation, scalar, step_operator, struct_number,
    turned,
};
