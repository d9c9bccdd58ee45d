//! A tree of files in memory, for tests and for callers that bring their own files.
ghost use Rattle.std.specs.Prelude.{◌≡◌, ◌≤◌, [], ◌∷◌, length, Some, true, option_map, OnOk, OnErr, IsErrOf, IfOk};
ghost use Rattle.std.specs.Ordering.{nat_cmp, eq_by_cmp};
ghost use Rattle.std.specs.Cmp.Lexicographic.{slice_cmp};
ghost use Rattle.std.specs.FinMap as finite;
ghost use Rattle.cc_base.specs.MemoryTree.{Shelf, has_number, fails_now, is_failed};
ghost use Rattle.cc_base.specs.Outside.{file_at, Holds, HoldsTooLong, Lacks, Rose, RoseBeyond, StaysIfTold, next_count};

use crate::outside::{LONGEST_FILE, Tree, TreeFault};
use crate::refusals::Memory;
use crate::text_bytes::Text;
use std::alloc::Global;
use std::collections::VecDeque;
use std::marker::Model;

/// Files by their names, and a list of the calls of `read` that fail.
#[derive(Drop)]
pub struct MemTree {
    alloc: Global,
    // The newest first, so that a look-up finds what was added last.
    entries: VecDeque<(Text, Text)>,
    fail: Vec<u64>,
    reads: u64,
    faults: u64,
}

impl Model for MemTree {
    ghost use Rattle.std.specs.FinMap as finite;
    ghost use Rattle.cc_base.specs.MemoryTree.{Shelf, shelf_code};

    ghost Value = { Shelf };

    ghost coded = { shelf_code };

    ghost view = { λ t. record { files = finite.from_entries t.entries.items; fail = t.fail.items; reads = t.reads; faults = t.faults } };
}

/// Whether a name is this one.
#[tactic(auto, using(crate::proofs::Names::named))]
fn is_name(name: &[u8], text: &Text) -> bool
    ensures { result ≡ eq_by_cmp (slice_cmp nat_cmp) name.now text.now }
{
    name == text.as_bytes()
}

/// The bytes that stand first under a name.
fn held<'a>(entries: &'a VecDeque<(Text, Text)>, name: &[u8]) -> Option<&'a Text>
    ensures { option_map (λ b. b.now) result ≡ finite.find (slice_cmp nat_cmp) name.now entries.now.items }
{
    for entry in entries {
        if is_name(name, &entry.0) {
            return Some(&entry.1);
        }
    }
    None
}

/// Whether a list has a number.
fn has(list: &[u64], number: u64) -> bool
    ensures { result ≡ has_number number list.now }
{
    list.iter().any(|k| *k == number)
}

impl MemTree {
    /// A tree with no file, whose calls of `read` with these numbers, counted from 1, fail.
    pub fn new(alloc: Global, fail: Vec<u64>) -> MemTree
        ensures { result ≡ record { files = finite.empty; fail = fail.items; reads = 0; faults = 0 } }
    {
        MemTree {
            alloc,
            entries: VecDeque::new(alloc),
            fail,
            reads: 0,
            faults: 0,
        }
    }

    /// Adds a file, or puts it in the place of the one under its name. On want of memory the tree
    /// is as before.
    pub fn add(&mut self, name: &str, bytes: &[u8]) -> Result<(), Memory>
        ensures ok { OnOk result (self.new ≡ record self.old { files = finite.insert self.old.files name.now bytes.now }) }
        ensures err { OnErr result (self.new ≡ self.old) }
    {
        let alloc = self.alloc;
        let name = Text::from_bytes(alloc, name.as_bytes())?;
        let bytes = Text::from_bytes(alloc, bytes)?;
        self.entries.push_front((name, bytes))?;
        Ok(())
    }
}

/// Puts the bytes under a name into `into`, which is empty.
#[tactic(auto, using(crate::proofs::Names::held_is))]
fn fetch(entries: &VecDeque<(Text, Text)>, name: &str, into: &mut Vec<u8>) -> Result<(), TreeFault>
    requires { into.old.items ≡ [] }
    ensures fits { length into.new.items ≤ LONGEST_FILE }
    ensures ok { OnOk result (file_at (finite.from_entries entries.now.items) name.now ≡ Some into.new.items) }
    ensures empty { OnErr result (into.new.items ≡ []) }
    ensures missing { IsErrOf result TreeFault.Missing → file_at (finite.from_entries entries.now.items) name.now ≡ None }
    ensures too_long { IsErrOf result TreeFault.TooLong → HoldsTooLong LONGEST_FILE (Some (finite.from_entries entries.now.items)) name.now ⊥ }
    ensures never_failed { ¬ IsErrOf result TreeFault.Failed }
{
    let Some(text) = held(entries, name.as_bytes()) else {
        return Err(TreeFault::Missing);
    };
    let bytes = text.as_bytes();
    if bytes.len() as u64 > LONGEST_FILE {
        return Err(TreeFault::TooLong);
    }
    match into.extend_from_slice(bytes) {
        Ok(()) => Ok(()),
        Err(_) => Err(TreeFault::Memory),
    }
}

impl Tree for MemTree {
    ghost use Rattle.std.specs.Prelude.{Some};

    ghost files = { λ t. Some t.files };

    ghost faults = { λ t. t.faults };

    ghost taken = { λ _. 0 };

    /// Answers `Failed` exactly where the number of this call, from 1, is in the list, and then
    /// counts a fault.
    fn read(&mut self, _alloc: Global, name: &str, into: &mut Vec<u8>) -> Result<(), TreeFault>
        ensures files { Some self.new.files ≡ Some self.old.files }
        ensures fits { length into.new.items ≤ LONGEST_FILE }
        ensures faults { self.old.faults ≤ self.new.faults }
        ensures taken { 0 ≤ 0 }
        ensures ok { OnOk result (Holds (Some self.old.files) name.now into.new.items) }
        ensures empty { OnErr result (into.new.items ≡ []) }
        ensures quiet { ¬ IsErrOf result TreeFault.Failed → StaysIfTold (Some self.old.files) self.old.faults self.new.faults }
        ensures missing { IsErrOf result TreeFault.Missing → Lacks (Some self.old.files) name.now (Rose self.old.faults self.new.faults) }
        ensures too_long { IsErrOf result TreeFault.TooLong → HoldsTooLong LONGEST_FILE (Some self.old.files) name.now (RoseBeyond LONGEST_FILE 0 0) }
        ensures failed { IsErrOf result TreeFault.Failed → Rose self.old.faults self.new.faults }
        ensures exactly { is_failed result ≡ fails_now self.old }
        ensures counted { self.new.reads ≡ next_count self.old.reads }
        ensures list { self.new.fail ≡ self.old.fail }
    {
        into.clear();
        self.reads = self.reads.saturating_add(1);
        if has(self.fail.as_slice(), self.reads) {
            self.faults = self.faults.saturating_add(1);
            return Err(TreeFault::Failed);
        }
        fetch(&self.entries, name, into)
    }
}
