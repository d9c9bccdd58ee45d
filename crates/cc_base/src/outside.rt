//! What the program reads and writes, as traits: a tree of files and a sink of bytes.
ghost use Rattle.std.specs.Prelude.{◌≡◌, ◌≤◌, ℕ, List, length, []};
ghost use Rattle.std.specs.Prelude.{OnOk, OnErr, IsErrOf, Option};
ghost use Rattle.cc_base.specs.Outside.{Files, Holds, HoldsTooLong, Lacks, Rose, RoseBeyond, StaysIfTold, Appends, AppendsPrefix, next_count};

use std::alloc::Global;
use thiserror::Error;

/// The most bytes that a file may have.
pub const LONGEST_FILE: u64 = 1_048_576;

/// Why a file could not be read.
#[derive(Clone, Copy, PartialEq, Eq, Debug, Error)]
pub enum TreeFault {
    /// The tree does not hold the name.
    #[error("no such file")]
    Missing,
    /// The file has more than `LONGEST_FILE` bytes.
    #[error("the file is too long")]
    TooLong,
    /// The outside failed.
    #[error("the read failed")]
    Failed,
    /// Want of memory.
    #[error("out of memory")]
    Memory,
}

/// A tree of files that can be read by name.
///
/// Contracts see three things of it. `files` are the files themselves, told or not: a tree in
/// memory tells them, one over the system does not. `faults` counts what failed, and never falls;
/// where the files are told it rises only in a call that answers `Failed`. `taken` counts the bytes
/// that came from the outside, and never falls.
pub trait Tree {
    ghost files: { Self → Option Files };

    ghost faults: { Self → ℕ };

    ghost taken: { Self → ℕ };

    /// Puts the bytes of the file into `into`, in place of what was there. On an error `into` is
    /// empty. The files are as before in each case.
    fn read(&mut self, alloc: Global, name: &str, into: &mut Vec<u8>) -> Result<(), TreeFault>
        ensures files { files self.new ≡ files self.old }
        ensures fits { length into.new.items ≤ LONGEST_FILE }
        ensures faults { faults self.old ≤ faults self.new }
        ensures taken { taken self.old ≤ taken self.new }
        ensures ok { OnOk result (Holds (files self.old) name.now into.new.items) }
        ensures empty { OnErr result (into.new.items ≡ []) }
        ensures quiet { ¬ IsErrOf result TreeFault.Failed → StaysIfTold (files self.old) (faults self.old) (faults self.new) }
        ensures missing { IsErrOf result TreeFault.Missing → Lacks (files self.old) name.now (Rose (faults self.old) (faults self.new)) }
        ensures too_long { IsErrOf result TreeFault.TooLong → HoldsTooLong LONGEST_FILE (files self.old) name.now (RoseBeyond LONGEST_FILE (taken self.old) (taken self.new)) }
        ensures failed { IsErrOf result TreeFault.Failed → Rose (faults self.old) (faults self.new) };
}

/// A write failed.
#[derive(Clone, Copy, PartialEq, Eq, Debug)]
pub struct SinkFailed;

/// Where the output goes.
///
/// Contracts see the bytes `written` so far, told or not, the count of `faults`, and the number of
/// `calls` of `put`, which each call raises by one until it stands at the last value of a u64.
pub trait Sink {
    ghost written: { Self → Option (List ℕ) };

    ghost faults: { Self → ℕ };

    ghost calls: { Self → ℕ };

    /// Appends the whole piece. After a fault the first bytes of the piece may have been appended.
    fn put(&mut self, bytes: &[u8]) -> Result<(), SinkFailed>
        ensures ok { OnOk result (Appends (written self.old) bytes.now (written self.new)) }
        ensures prefix { OnErr result (AppendsPrefix (written self.old) bytes.now (written self.new)) }
        ensures failed { OnErr result (Rose (faults self.old) (faults self.new)) }
        ensures faults { faults self.old ≤ faults self.new }
        ensures calls { calls self.new ≡ next_count (calls self.old) };
}
