//! The tree of the system's files.
ghost use Rattle.std.specs.Prelude.{◌≡◌, ◌≤◌, ◌+◌, ◌<◌, ◌^◌, ◌-◌, [], length, min, IsErrOf, OnOk, OnErr, ◌⊎◌, ◌≢◌, false};
ghost use Rattle.cc_base.specs.Outside.{Rose, RoseBeyond};

use crate::outside::{LONGEST_FILE, Tree, TreeFault};
use std::alloc::Global;
use std::io::{ErrorKind, Read};
use std::rt::Files;
use std::{fs, io};

/// Bytes that one read asks for.
const PIECE: usize = 4096;

/// Files as the system has them. What they hold is not told; `faults` counts the errors of the
/// system other than want of memory, `taken` the bytes that were read.
#[derive(Drop)]
pub struct FileTree<R: Files + Drop> {
    rt: R,
    faults: u64,
    taken: u64,
}

impl<R: Files + Drop> FileTree<R> {
    /// The files that `rt` reaches, with all counts 0.
    pub fn new(rt: R) -> Self {
        FileTree {
            rt,
            faults: 0,
            taken: 0,
        }
    }
}

/// Whether an error is want of memory; any other one counts as a fault.
fn is_memory(error: &io::Error, faults: &mut u64) -> bool
    ensures counted { result ≡ false → Rose faults.old faults.new }
    ensures grows { faults.old ≤ faults.new }
{
    let memory = matches!(error.kind(), ErrorKind::OutOfMemory);
    if !memory {
        *faults = faults.saturating_add(1);
    }
    memory
}

/// Why an open failed.
fn open_fault(error: &io::Error, faults: &mut u64) -> TreeFault
    ensures counted { result ≡ TreeFault.Memory ⊎ Rose faults.old faults.new }
    ensures grows { faults.old ≤ faults.new }
    ensures known { result ≢ TreeFault.TooLong }
{
    if is_memory(error, faults) {
        return TreeFault::Memory;
    }
    if matches!(error.kind(), ErrorKind::NotFound) {
        TreeFault::Missing
    } else {
        TreeFault::Failed
    }
}

/// Why a read failed.
fn read_fault(error: &io::Error, faults: &mut u64) -> TreeFault
    ensures counted { result ≡ TreeFault.Memory ⊎ Rose faults.old faults.new }
    ensures grows { faults.old ≤ faults.new }
    ensures known { result ≢ TreeFault.TooLong }
    ensures held { result ≢ TreeFault.Missing }
{
    if is_memory(error, faults) {
        TreeFault::Memory
    } else {
        TreeFault::Failed
    }
}

/// Reads the whole file into `into`, which is empty. Each turn takes at least one byte or ends the
/// call.
fn fill<F: Read>(
    file: &mut F,
    into: &mut Vec<u8>,
    faults: &mut u64,
    taken: &mut u64,
) -> Result<(), TreeFault>
    requires { into.old.items ≡ [] }
    ensures fits { OnOk result (length into.new.items ≤ LONGEST_FILE) }
    ensures too_long { IsErrOf result TreeFault.TooLong → RoseBeyond LONGEST_FILE taken.old taken.new }
    ensures failed { IsErrOf result TreeFault.Failed → Rose faults.old faults.new }
    ensures held { ¬ IsErrOf result TreeFault.Missing }
    ensures faults { faults.old ≤ faults.new }
    ensures taken { taken.old ≤ taken.new }
{
    let mut piece = [0u8; PIECE];
    let mut total = 0u64;
    for _turn in 0..LONGEST_FILE + 2 {
        let count = match file.read(&mut piece) {
            Ok(count) => count,
            Err(error) => return Err(read_fault(&error, faults)),
        };
        if count == 0 {
            return Ok(());
        }
        *taken = taken.saturating_add(count as u64);
        total += count as u64;
        if total > LONGEST_FILE {
            return Err(TreeFault::TooLong);
        }
        if into.extend_from_slice(&piece[..count]).is_err() {
            return Err(TreeFault::Memory);
        }
    }
    unreachable!()
}

impl<R: Files + Drop> Tree for FileTree<R> {
    ghost use Rattle.std.specs.Prelude.{None};

    ghost files = { λ _. None };

    ghost faults = { λ t. t.faults };

    ghost taken = { λ t. t.taken };

    fn read(&mut self, _alloc: Global, name: &str, into: &mut Vec<u8>) -> Result<(), TreeFault> {
        into.clear();
        let mut file = match fs::open(&self.rt, name) {
            Ok(file) => file,
            Err(error) => return Err(open_fault(&error, &mut self.faults)),
        };
        let outcome = fill(&mut file, into, &mut self.faults, &mut self.taken);
        if outcome.is_err() {
            into.clear();
        }
        outcome
    }
}
