//! Theorems: the analysis is determined by its program; unrolling keeps runs and adds no diagnostic.
#![tactic(auto)]

mod theorems;

pub use theorems::{
    analyses_are_exact, analyses_are_least, analyses_hang_on_views, ascending_lists_are_one,
    least_maps_are_exact, maps_are_copied, one_list_of_thresholds, places_hang_on_views,
    steps_are_counted, two_solvers_agree, unrolled_pairs_are_named, unrolled_runs_are_the_same,
    well_formed_programs_are_linked,
};
