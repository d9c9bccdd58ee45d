//! The program: from words to a status.
ghost use Rattle.cli.specs.Command.Clauses as spec;

use crate::theorems::{
    answers_hold_runs, gates_hold_runs, replays_stand_in_reports, verified_hold_runs,
};
use analysis_determined::analyses_are_exact;
use cc_base::{Sink, Tree};
use certificate_theorems::proved_certificates_are_least;
use cli_answers::answer_words;
use cli_theorems::accepted_units_are_answered;
use std::alloc::Global;

/// Does all that the program does: takes the words behind its name, reads from the tree, puts its
/// output into the sink in one call, and answers the status.
///
/// | status | when |
/// |---|---|
/// | 0, 1 | the unit is accepted; 1 where a diagnostic is printed |
/// | 2 | the unit is refused |
/// | 3 | the words, the model file, the baseline or the draws are refused |
/// | 4 | the unit's file, the model file, the baseline, the certificate or the file of draws is not held |
/// | 5 | a read failed; nothing is put |
/// | 6 | the write failed; a prefix of the text went out |
/// | 7 | want of memory; nothing is put |
/// | 8 | a limit is passed |
/// | 9 | the certificate is refused |
///
/// What each clause says; of a tree that does not tell its files, or a sink that does not tell its text, none says which
/// these are.
///
/// - `answer`: text and status are those that the definitions call for.
/// - `runs` is the sentence: where `check` answers 0 or 1, what it has put holds each rule that a run of the unit
///   violates; and of a plain unit only what its run violates and syntactic rules find.
/// - `gates`: so does what `gate` has put, together with what its baseline holds.
/// - `verifies`: what `verify` has put of a certificate that is accepted holds each rule that a run violates too; of a
///   plain unit it may have more.
/// - `replays`: where `replay` answers 0 or 1, it has put the pairs of one run, and they stand in the unit's reports.
/// - `complete`: a unit that each stage accepts, with all that the verb reads, is answered and not refused, or a read or
///   the write failed, or memory ran out.
/// - `least`: what an analysis of such an answer finds is just what every inductive map of its program admits, and the map of
///   a certificate is the least one.
/// - `files`, `read_faults`, `write_faults`: the files stay as they are, and no count of faults falls.
pub fn run<T: Tree, S: Sink>(alloc: Global, words: &[String], tree: &mut T, out: &mut S) -> u8
    ensures answer { spec.IsAnswered (spec.call_seen (T.files tree.old) (T.faults tree.old) (T.faults tree.new) (T.taken tree.old) (T.taken tree.new)) (spec.words_asked words.now) (spec.call_put (S.written out.old) (S.written out.new) (S.faults out.old) (S.faults out.new) (S.calls out.old) (S.calls out.new)) result }
    ensures runs { spec.RunsAreTold (spec.call_seen (T.files tree.old) (T.faults tree.old) (T.faults tree.new) (T.taken tree.old) (T.taken tree.new)) (spec.words_asked words.now) (spec.call_put (S.written out.old) (S.written out.new) (S.faults out.old) (S.faults out.new) (S.calls out.old) (S.calls out.new)) result }
    ensures gates { spec.FreshRunsAreTold (spec.call_seen (T.files tree.old) (T.faults tree.old) (T.faults tree.new) (T.taken tree.old) (T.taken tree.new)) (spec.words_asked words.now) (spec.call_put (S.written out.old) (S.written out.new) (S.faults out.old) (S.faults out.new) (S.calls out.old) (S.calls out.new)) result }
    ensures verifies { spec.VerifiedRunsAreTold (spec.call_seen (T.files tree.old) (T.faults tree.old) (T.faults tree.new) (T.taken tree.old) (T.taken tree.new)) (spec.words_asked words.now) (spec.call_put (S.written out.old) (S.written out.new) (S.faults out.old) (S.faults out.new) (S.calls out.old) (S.calls out.new)) result }
    ensures replays { spec.ReplayIsTold (spec.call_seen (T.files tree.old) (T.faults tree.old) (T.faults tree.new) (T.taken tree.old) (T.taken tree.new)) (spec.words_asked words.now) (spec.call_put (S.written out.old) (S.written out.new) (S.faults out.old) (S.faults out.new) (S.calls out.old) (S.calls out.new)) result }
    ensures complete { spec.IsComplete (spec.call_seen (T.files tree.old) (T.faults tree.old) (T.faults tree.new) (T.taken tree.old) (T.taken tree.new)) (spec.words_asked words.now) (spec.call_put (S.written out.old) (S.written out.new) (S.faults out.old) (S.faults out.new) (S.calls out.old) (S.calls out.new)) result }
    ensures least { spec.MapsAreLeast }
    ensures files { spec.FilesStay (T.files tree.old) (T.files tree.new) }
    ensures read_faults { spec.NoFewer (T.faults tree.old) (T.faults tree.new) }
    ensures write_faults { spec.NoFewer (S.faults out.old) (S.faults out.new) }
{
    answers_hold_runs();
    gates_hold_runs();
    verified_hold_runs();
    replays_stand_in_reports();
    accepted_units_are_answered();
    analyses_are_exact();
    proved_certificates_are_least();
    answer_words(alloc, words, tree, out)
}
