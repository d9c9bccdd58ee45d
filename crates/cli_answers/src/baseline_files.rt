//! The baseline that the words name.
ghost use Rattle.std.specs.Prelude.{◌≡◌, ◌≤◌, IfOk, IsErrOf};
ghost use Rattle.cc_base.specs.Outside.{Rose};
ghost use Rattle.c_preproc.specs.Causes.{seen_of};
ghost use Rattle.cli_answers.specs.Gates.{IsBaselineOf, IsBaselineIn};

use crate::decision::Halt;
use crate::further_files::{Further, read_further};
use cc_base::Tree;
use cli_texts::{Answer, no_baseline};
use sarif::{BaseFault, Known, read_sarif};
use std::alloc::Global;

/// What a baseline says is known, or the answer where there is no baseline.
#[derive(Drop)]
pub enum Baseline {
    Read(Vec<Known>),
    Refused(Answer),
}

/// What bytes say is known, or the answer where they are no report.
fn baseline_of(alloc: Global, name: &str, bytes: &[u8]) -> Result<Baseline, Halt>
    ensures baseline { IfOk result (IsBaselineOf name.now bytes.now) }
    ensures fault { IsErrOf result Halt.ReadFault → ⊥ }
{
    match read_sarif(alloc, bytes) {
        Ok(known) => Ok(Baseline::Read(known)),
        Err(BaseFault::Shape) => Ok(Baseline::Refused(no_baseline(alloc, name)?)),
        Err(BaseFault::Memory) => Err(Halt::Memory),
    }
}

/// What the file with a name says is known, or the answer where it says nothing.
pub fn read_baseline<T: Tree>(alloc: Global, name: &str, tree: &mut T) -> Result<Baseline, Halt>
    ensures baseline { IfOk result (IsBaselineIn (seen_of (T.files tree.old) (T.faults tree.old) (T.faults tree.new) (T.taken tree.old) (T.taken tree.new)) name.now) }
    ensures fault { IsErrOf result Halt.ReadFault → Rose (T.faults tree.old) (T.faults tree.new) }
    ensures files { T.files tree.new ≡ T.files tree.old }
    ensures faults { T.faults tree.old ≤ T.faults tree.new }
    ensures taken { T.taken tree.old ≤ T.taken tree.new }
{
    match read_further(alloc, name, tree)? {
        Further::Held(bytes) => baseline_of(alloc, name, bytes.as_slice()),
        Further::Refused(answer) => Ok(Baseline::Refused(answer)),
    }
}
