//! The draws of the file that the words name.
ghost use Rattle.std.specs.Prelude.{◌≡◌, ◌≤◌, IfOk, IsErrOf, Some, string_bytes};
ghost use Rattle.std.specs.Option.{option_map};
ghost use Rattle.cc_base.specs.Outside.{Rose};
ghost use Rattle.c_preproc.specs.Causes.{seen_of};
ghost use Rattle.cli_answers.specs.RunAnswers.{AreDrawsOf, AreDrawsIn};

use crate::decision::Halt;
use crate::further_files::{Further, read_further};
use cc_base::Tree;
use cli_texts::{Answer, no_draws};
use cli_words::draws::{DrawsFault, read_draws};
use std::alloc::Global;

/// The draws of a run, or the answer where they cannot be had.
#[derive(Drop)]
pub enum Draws {
    Read(Vec<i128>),
    Refused(Answer),
}

/// The draws that bytes have, or the answer where they are of another form.
fn draws_of(alloc: Global, name: &str, bytes: &[u8]) -> Result<Draws, Halt>
    ensures draws { IfOk result (AreDrawsOf name.now bytes.now) }
    ensures fault { IsErrOf result Halt.ReadFault → ⊥ }
{
    match read_draws(alloc, bytes) {
        Ok(draws) => Ok(Draws::Read(draws)),
        Err(DrawsFault::Shape) => Ok(Draws::Refused(no_draws(alloc, name)?)),
        Err(DrawsFault::Memory) => Err(Halt::Memory),
    }
}

/// The draws of the file with a name, or the answer where it has none.
fn draws_of_file<T: Tree>(alloc: Global, name: &str, tree: &mut T) -> Result<Draws, Halt>
    ensures draws { IfOk result (AreDrawsIn (seen_of (T.files tree.old) (T.faults tree.old) (T.faults tree.new) (T.taken tree.old) (T.taken tree.new)) (Some name.now)) }
    ensures fault { IsErrOf result Halt.ReadFault → Rose (T.faults tree.old) (T.faults tree.new) }
    ensures files { T.files tree.new ≡ T.files tree.old }
    ensures faults { T.faults tree.old ≤ T.faults tree.new }
    ensures taken { T.taken tree.old ≤ T.taken tree.new }
{
    match read_further(alloc, name, tree)? {
        Further::Held(bytes) => draws_of(alloc, name, bytes.as_slice()),
        Further::Refused(answer) => Ok(Draws::Refused(answer)),
    }
}

/// The draws of the file that is named, or none where no file is.
pub fn choose_draws<T: Tree>(
    alloc: Global,
    name: &Option<String>,
    tree: &mut T,
) -> Result<Draws, Halt>
    ensures draws { IfOk result (AreDrawsIn (seen_of (T.files tree.old) (T.faults tree.old) (T.faults tree.new) (T.taken tree.old) (T.taken tree.new)) (option_map string_bytes name.now)) }
    ensures fault { IsErrOf result Halt.ReadFault → Rose (T.faults tree.old) (T.faults tree.new) }
    ensures files { T.files tree.new ≡ T.files tree.old }
    ensures faults { T.faults tree.old ≤ T.faults tree.new }
    ensures taken { T.taken tree.old ≤ T.taken tree.new }
{
    match name {
        Some(name) => draws_of_file(alloc, name.as_str(), tree),
        None => Ok(Draws::Read(Vec::new(alloc))),
    }
}
