//! What a load or a store makes of a row stands for what the machine's load or store makes of a state for which the row
//! stands, over any domain of integers whose operations are sound.
ghost use Rattle.cc_base.specs.IntegerLaws.{SoundLaws};
ghost use Rattle.c_layout.specs.declared.data_model.Model.{Model};
ghost use Rattle.c_layout.specs.declared.shapes.BaseInfo.{BaseInfo};
ghost use Rattle.std.specs.Prelude.{◌≡◌, ℕ, Some, List, slice_get};
ghost use Rattle.store_sound.specs.Operations.MemoryStatements.{LoadKeeps, StoreKeeps};
ghost use Rattle.store_sound.specs.Operations.Shapes.{AreShaped, CountsOnce, SeesPadding};
ghost use Rattle.store_sound.specs.Operations.TouchStatements.{TouchAdmits, LoadAdmits, TouchStands};
ghost use Rattle.store_sound.specs.Operations.Statements.{LoadStands, BlankStands, CharacterStands, BlankCharacterStands, FreedShows, StoreStands};

use cc_base::IntDomain;

/// Memory and the names of its instances stay sound behind a load, which gives only pointers into memory, and behind a store of
/// any scalar.
pub fn memory_stays_sound()
    ensures loads { (m : Model) (bases : List BaseInfo) → LoadKeeps m bases }
    ensures stores { (m : Model) (bases : List BaseInfo) → AreShaped bases → StoreKeeps m bases }
{}

/// A load of a scalar wider than a character gives a value that stands for what the machine loads, or says that it may be
/// indeterminate where the machine stops at an indeterminate byte. It gives nothing only where the machine does neither.
pub fn loads_are_sound<I: IntDomain>()
    ensures loads { SoundLaws I.lattice I.numbers I.stands → LoadStands I.lattice I.numbers I.stands }
    ensures blanks { SoundLaws I.lattice I.numbers I.stands → BlankStands I.lattice I.numbers I.stands }
{}

/// The counts of bytes see padding where no byte is counted for two leaves.
pub fn padding_is_seen()
    ensures { (m : Model) (bases : List BaseInfo) → AreShaped bases → ((b : ℕ) (base : BaseInfo) → slice_get bases b ≡ Some base → CountsOnce m base) → SeesPadding m bases }
{}

/// A load of a character gives a value that stands for what the machine loads, or says that it may be indeterminate where the
/// machine stops at an indeterminate byte: no such byte lies before the first zero of an array.
pub fn character_loads_are_sound<I: IntDomain>()
    ensures loads { SoundLaws I.lattice I.numbers I.stands → CharacterStands I.lattice I.numbers I.stands }
    ensures blanks { SoundLaws I.lattice I.numbers I.stands → BlankCharacterStands I.lattice I.numbers I.stands }
{}

/// Where the machine goes on with bytes that a pointer points to, the pointers with which the analysis goes on stand for it.
pub fn touches_are_sound<I: IntDomain>()
    ensures { TouchStands I.lattice I.numbers I.stands }
{}

/// The rule at which the machine stops before it reads or writes bytes is among those that the analysis admits there. A load
/// stops at no other but an indeterminate byte.
pub fn violations_are_admitted<I: IntDomain>()
    ensures touches { TouchAdmits I.lattice I.numbers I.stands }
    ensures loads { LoadAdmits I.lattice I.numbers I.stands }
{}

/// A pointer into a freed instance, as a load can give one, has a base that may be freed.
pub fn freed_pointers_show<I: IntDomain>()
    ensures { FreedShows I.lattice I.numbers I.stands }
{}

/// A store of a scalar wider than a character leaves a row that stands for the state behind the machine's store. It leaves none
/// only where the machine goes no further.
pub fn stores_are_sound<I: IntDomain>()
    ensures { SoundLaws I.lattice I.numbers I.stands → StoreStands I.lattice I.numbers I.stands }
{}
