//! The theorems on the store ask for bases of which no byte is counted twice, whose values stand apart in a row,
//! and whose first zeros lie over characters. Each well-formed program has such ones.
ghost use Rattle.cc_base.specs.Standard.{standard_limits};
ghost use Rattle.store_sound.specs.Programs.Premises.{AreHeld, MeetsPremises};

/// A program that is well formed within limits that sets of bases and rows can hold, as those of the product are, meets the
/// premises of the theorems on the store.
pub fn well_formed_programs_meet_premises()
    ensures programs { MeetsPremises }
    ensures standard { AreHeld standard_limits }
{}
