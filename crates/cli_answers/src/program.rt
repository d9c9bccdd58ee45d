//! The program: from words to a status.
ghost use Rattle.std.specs.Prelude.{◌≡◌, ◌≤◌, map, string_bytes};
ghost use Rattle.c_preproc.specs.Causes.{seen_of};
ghost use Rattle.cli_words.specs.Words.Requests.{asked};
ghost use Rattle.cli_answers.specs.Outcomes.{took, Answers};

use crate::decision::{Halt, decide};
use cc_base::{Sink, Tree};
use std::alloc::Global;

/// Does all that the program does: takes the words behind its name, reads from the tree, puts its
/// output into the sink in one call, and answers the status.
pub fn answer_words<T: Tree, S: Sink>(
    alloc: Global,
    words: &[String],
    tree: &mut T,
    out: &mut S,
) -> u8
    ensures answer { Answers (seen_of (T.files tree.old) (T.faults tree.old) (T.faults tree.new) (T.taken tree.old) (T.taken tree.new)) (asked (map string_bytes words.now)) (took (S.written out.old) (S.written out.new) (S.faults out.old) (S.faults out.new) (S.calls out.old) (S.calls out.new)) result }
    ensures files { T.files tree.new ≡ T.files tree.old }
    ensures read_faults { T.faults tree.old ≤ T.faults tree.new }
    ensures write_faults { S.faults out.old ≤ S.faults out.new }
{
    match decide(alloc, words, tree) {
        Ok(answer) => match out.put(answer.text.as_slice()) {
            Ok(()) => answer.status,
            Err(_) => 6,
        },
        Err(Halt::ReadFault) => 5,
        Err(Halt::Memory) => 7,
    }
}
