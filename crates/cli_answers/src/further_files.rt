//! Files that a verb reads behind the expansion of its unit.
ghost use Rattle.std.specs.Prelude.{◌≡◌, ◌≤◌, IfOk, IsErrOf};
ghost use Rattle.cc_base.specs.Outside.{Rose};
ghost use Rattle.c_preproc.specs.Causes.{seen_of};
ghost use Rattle.cli_answers.specs.Gates.{IsFurther};

use crate::decision::Halt;
use cc_base::{Tree, TreeFault};
use cli_texts::{Answer, file_too_long, no_file};
use std::alloc::Global;

/// The bytes of a further file, or the answer where it cannot be had.
#[derive(Drop)]
pub enum Further {
    Held(Vec<u8>),
    Refused(Answer),
}

/// The bytes of the file with a name, or the answer where it is not held or too long.
pub fn read_further<T: Tree>(alloc: Global, name: &str, tree: &mut T) -> Result<Further, Halt>
    ensures further { IfOk result (IsFurther (seen_of (T.files tree.old) (T.faults tree.old) (T.faults tree.new) (T.taken tree.old) (T.taken tree.new)) name.now) }
    ensures fault { IsErrOf result Halt.ReadFault → Rose (T.faults tree.old) (T.faults tree.new) }
    ensures files { T.files tree.new ≡ T.files tree.old }
    ensures faults { T.faults tree.old ≤ T.faults tree.new }
    ensures taken { T.taken tree.old ≤ T.taken tree.new }
{
    let mut bytes = Vec::new(alloc);
    match tree.read(alloc, name, &mut bytes) {
        Ok(()) => Ok(Further::Held(bytes)),
        Err(TreeFault::Missing) => Ok(Further::Refused(no_file(alloc, name)?)),
        Err(TreeFault::TooLong) => Ok(Further::Refused(file_too_long(alloc, name)?)),
        Err(TreeFault::Failed) => Err(Halt::ReadFault),
        Err(TreeFault::Memory) => Err(Halt::Memory),
    }
}
