//! What a write of some bytes makes of a row, base by base, stands for the memory behind it, where what it makes of each base
//! does: all that is no cell of such a base stands for what it stood for.
ghost use Rattle.store_sound.specs.Regions.RegionWrites.{RegionWritesStand};

use cc_base::IntDomain;

/// Where some bytes of one instance were written, and the row is written base by base, it stands for the state behind the
/// write, if the write of each base of the set stands for it, and the instance's base is one of the set.
pub fn region_writes_are_sound<I: IntDomain>()
    ensures { RegionWritesStand I.lattice I.numbers I.stands }
{}
