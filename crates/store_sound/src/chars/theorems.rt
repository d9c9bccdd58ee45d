//! What a store of a character makes of a row stands for what the machine's store makes of a state for which the row stands,
//! over any domain of integers whose operations are sound.
ghost use Rattle.cc_base.specs.IntegerLaws.{SoundLaws};
ghost use Rattle.store_sound.specs.Chars.CharacterStores.{CharacterStoreStands};

use cc_base::IntDomain;

/// A store of a character leaves a row that stands for the state behind the machine's store: the cells that have the byte, the
/// first zeros of the arrays that it lies in, and all else as before. It leaves none only where the machine goes no further.
pub fn character_stores_are_sound<I: IntDomain>()
    ensures { SoundLaws I.lattice I.numbers I.stands → CharacterStoreStands I.lattice I.numbers I.stands }
{}
