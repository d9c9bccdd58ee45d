//! Each rule that a run of a unit violates is told, at its place.
ghost use Rattle.cli.specs.Theorems as spec;

use analysis_sound::checked_runs_are_found;
use c_types_well_formed_units::{
    checks_are_scoped, checks_are_small, checks_are_well_typed, trees_are_proper,
    trees_declare_in_blocks,
};
use certificate_theorems::accepted_certificates_hold_units;
use cli_theorems::one_parse;
use simulation_units::{looked_runs_are_program_runs, looked_units_are_never_stuck};
use typed_lowering::{plain_units_have_plain_programs, typed_units_have_typed_accesses};
use unit_exact::{looped_units_are_exact, plain_units_are_exact, unrolled_units_are_exact};

/// A unit that is typed from its tokens passes the looks at its terms and scopes, where tokens are of bytes and functions
/// are regular.
pub fn typed_units_pass_looks()
    ensures { spec.TypedUnitsPassLooks }
{
    trees_are_proper();
    trees_declare_in_blocks();
    checks_are_well_typed();
    checks_are_small();
    checks_are_scoped();
}

/// So no run of a unit that is answered is ever stuck.
pub fn answered_runs_are_defined()
    ensures { spec.RunsAreDefined }
{
    typed_units_pass_looks();
    looked_units_are_never_stuck();
}

/// Each rule that a run of an accepted unit violates at a place is among the pairs that are told of it, also where turns
/// are unrolled: whatever comes from the outside, and after any number of turns.
pub fn judged_runs_are_found()
    ensures { spec.JudgedRunsAreFound }
{
    looked_runs_are_program_runs();
    typed_units_pass_looks();
    checked_runs_are_found();
}

/// So it is among the diagnostics of the unit's report.
pub fn reports_hold_runs()
    ensures { spec.ReportsHoldRuns }
{
    judged_runs_are_found();
}

/// Where the unit is plain, each pair that is told of it is that of a syntactic rule, or is violated by the unit's run under no
/// numbers of the outside, also where turns are unrolled; and so where it has loops, and its run ends within those turns.
pub fn judged_pairs_are_violated()
    ensures { spec.JudgedPairsAreViolated }
{
    typed_units_pass_looks();
    plain_units_are_exact();
    unrolled_units_are_exact();
    looped_units_are_exact();
    plain_units_have_plain_programs();
    typed_units_have_typed_accesses();
}

/// So is each diagnostic of its report.
pub fn reports_hold_just_runs()
    ensures { spec.ReportsHoldJustRuns }
{
    judged_pairs_are_violated();
}

/// And each pair that a replay of an accepted unit finds is among those that are told of it.
pub fn replays_are_told()
    ensures { spec.ReplaysAreTold }
{
    one_parse();
    judged_runs_are_found();
}

/// What is told of a certificate that is accepted for a unit holds each rule that a run of the unit violates at a place.
pub fn certificates_hold_runs()
    ensures { spec.CertificatesHoldRuns }
{
    looked_runs_are_program_runs();
    typed_units_pass_looks();
    accepted_certificates_hold_units();
}

/// The sentence: where `check` answers 0 or 1, it has put the report of the unit whole and in one call, and its diagnostics
/// hold each rule that a run of the checked unit violates, at its place: whatever comes from the outside, and after any
/// number of turns. None of its runs is ever stuck. Where the unit is plain, each diagnostic is that of a syntactic rule, or is
/// violated by its run.
pub fn answers_hold_runs()
    ensures { spec.AnswersHoldRuns }
{
    answered_runs_are_defined();
    reports_hold_runs();
    reports_hold_just_runs();
}

/// So of `gate`: each such rule is told, or held by the baseline.
pub fn gates_hold_runs()
    ensures { spec.GatesHoldRuns }
{
    answered_runs_are_defined();
    reports_hold_runs();
    reports_hold_just_runs();
}

/// And of `verify`, where it accepts the certificate.
pub fn verified_hold_runs()
    ensures { spec.VerifiedHoldRuns }
{
    answered_runs_are_defined();
    certificates_hold_runs();
}

/// What `replay` tells of a unit stands in each report that `check` has of it.
pub fn replays_stand_in_reports()
    ensures { spec.ReplaysStandInReports }
{
    answered_runs_are_defined();
    replays_are_told();
}

// ---- Certificates of plain units: what the text that `prove` was called to tell shows.

/// A text that is proved of a plain unit shows just the pairs that the unit's run under no numbers of the outside violates.
pub fn proved_texts_show_just_runs()
    ensures { spec.ProvedTextsShowJustRuns }
{
    typed_units_pass_looks();
    plain_units_are_exact();
    plain_units_have_plain_programs();
    typed_units_have_typed_accesses();
}

/// So does `verify`, where it answers 0 or 1 and a file holds such a text of the same unit.
pub fn verified_hold_just_runs()
    ensures { spec.VerifiedHoldJustRuns }
{
    proved_texts_show_just_runs();
}
