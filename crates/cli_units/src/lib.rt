//! What a unit that was expanded comes to: its diagnostics, its certificate, or one run of it.
#![tactic(auto)]

mod byte_texts;
mod stages;
mod unit_answers;
mod unit_certificates;
mod unit_replays;
mod unit_thresholds;

pub use stages::{Stage, stage_of};
pub use unit_answers::{Judged, Setting, judge_unit};
pub use unit_certificates::{prove_unit, verify_unit};
pub use unit_replays::{Replayed, replay_unit};
