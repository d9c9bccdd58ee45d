//! The three small-step semantics: of the source, of templates, and of control-flow programs.
#![tactic(auto)]

pub mod cfg_machine;
pub mod source_machine;
pub mod template_machine;
