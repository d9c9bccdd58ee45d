//! What the program does: words in, a report or a refusal out, and a status.
#![tactic(auto)]

mod baseline_files;
mod certificate_decision;
mod decision;
mod draws_files;
mod further_files;
mod gate_decision;
mod model_choice;
mod program;
mod replay_decision;

pub use program::answer_words;
