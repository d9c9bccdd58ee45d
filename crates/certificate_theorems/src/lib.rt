//! Theorems: an accepted certificate shows every violation, and what `prove` writes is accepted.
#![tactic(auto)]

mod theorems;

pub use theorems::{
    accepted_certificates_hold_runs, accepted_certificates_hold_units,
    accepted_texts_are_closed_maps, closed_maps_are_carried, closed_maps_begin,
    fitted_rows_stand_for_more, inductive_maps_are_closed, lines_are_read_back, lines_decide,
    one_verdict, own_maps_are_read_back, premises_can_be_met, proved_certificates_are_accepted,
    proved_certificates_are_least, proved_certificates_show_analyses, refused_lines_begin_no_text,
    texts_have_one_spelling,
};
