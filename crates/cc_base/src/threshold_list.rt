//! The numbers to which the bounds of abstract values are rounded.
ghost use Rattle.std.specs.Prelude.{◌≡◌, ◌≤◌, [], true, length};
ghost use Rattle.cc_base.specs.Ascending.{is_ascending};

use std::alloc::Global;
use std::marker::Model;

/// An ascending list of at most 320 numbers without repeats.
#[derive(Drop)]
pub struct Thresholds {
    numbers: Vec<i128>,
}

impl Model for Thresholds {
    ghost use Rattle.std.specs.Prelude.{ℤ, List, ◌≤◌, length, ◌≡◌, true};
    ghost use Rattle.cc_base.specs.Ascending.{is_ascending};

    ghost Value = { List ℤ };

    ghost view = { λ t. t.numbers.items };

    ghost invariant = { λ t. (is_ascending t.numbers.items ≡ true) × (length t.numbers.items ≤ 320) };
}

impl Thresholds {
    /// The empty list.
    pub fn new(alloc: Global) -> Thresholds
        ensures { result ≡ [] }
    {
        Thresholds {
            numbers: Vec::new(alloc),
        }
    }

    /// A list of these numbers, which ascend and are at most 320.
    pub fn from_ascending(numbers: Vec<i128>) -> Thresholds
        requires ascending { is_ascending numbers.items ≡ true }
        requires few { length numbers.items ≤ 320 }
        ensures { result ≡ numbers.items }
    {
        Thresholds { numbers }
    }

    /// The numbers, ascending.
    pub fn as_slice(&self) -> &[i128]
        ensures { result.now ≡ self.now }
    {
        self.numbers.as_slice()
    }
}
