//! The public call `run`, with the clauses that its answers meet.
#![tactic(auto)]

mod program;
mod theorems;

pub use cli_texts::{load_unit, report_json, report_text};
pub use program::run;
pub use theorems::{
    answered_runs_are_defined, answers_hold_runs, certificates_hold_runs, gates_hold_runs,
    judged_pairs_are_violated, judged_runs_are_found, proved_texts_show_just_runs,
    replays_are_told, replays_stand_in_reports, reports_hold_just_runs, reports_hold_runs,
    typed_units_pass_looks, verified_hold_just_runs, verified_hold_runs,
};
