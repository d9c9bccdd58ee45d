//! Checked units.
ghost use Rattle.c_types_theorems.specs.Entries.IntegerEntries.{EntriesTakeIntegers};

/// The parameters of the entry of a checked unit are its first local objects, and have integer types.
pub fn entries_take_integers()
    ensures { EntriesTakeIntegers }
{}
