//! Theorems: a unit has one report, and an accepted unit gets it.
#![tactic(auto)]

mod theorems;

pub use theorems::{
    accepted_units_are_answered, accepted_units_are_not_refused, one_judgement, one_parse,
    one_report, proved_texts_are_accepted, refusals_of_grammar_are_exact, same_files_give_one_unit,
};
