//! The calls of the store grow with the row and with their arguments, over any domain of integers whose operations do.
ghost use Rattle.std.specs.Prelude.{◌≡◌, ◌<◌, ◌^◌, ℕ, true, List, length};
ghost use Rattle.cc_base.specs.IntegerLaws.{MonotoneLaws};
ghost use Rattle.c_layout.specs.declared.data_model.Model.{Model};
ghost use Rattle.c_layout.specs.declared.shapes.BaseInfo.{BaseInfo};
ghost use Rattle.pointer_domain.specs.declared.base_sets.Bases.{Bases};
ghost use Rattle.store_monotone.specs.Operations.TopRows.{top_row};
ghost use Rattle.store_monotone.specs.Operations.Placements.{IsRegular};
ghost use Rattle.store_monotone.specs.Operations.PlainShapes.{is_plain};
ghost use Rattle.store_monotone.specs.Operations.StoreLaws.{IsLayout, IsLoadMonotone, IsStoreMonotone, IsFreeMonotone, IsForgetMonotone, IsClearMonotone, IsLeaveMonotone, IsSpellMonotone, IsRenewMonotone, IsStoreConsistent, IsSpellConsistent, IsRenewConsistent, AreLivesConsistent};

use cc_base::IntDomain;

/// A load through larger pointers from a larger own row gives a larger value.
pub fn loads_are_monotone<I: IntDomain>()
    ensures { MonotoneLaws I.lattice I.numbers → (m : Model) (bases : List BaseInfo) → IsLayout m bases → (all : Bases) (temps : ℕ) → length (top_row I.numbers all bases temps) < 2 ^ 64 → IsLoadMonotone I.lattice I.numbers m bases all temps }
{}

/// A store of a larger value through larger pointers into a larger own row leaves a larger row, and an own one.
pub fn stores_are_monotone<I: IntDomain>()
    ensures { MonotoneLaws I.lattice I.numbers → (m : Model) (bases : List BaseInfo) → IsLayout m bases → (all : Bases) (temps : ℕ) → length (top_row I.numbers all bases temps) < 2 ^ 64 → IsStoreMonotone I.lattice I.numbers m bases all temps }
{}

/// Freeing through larger pointers, of which one is there, in a larger own row leaves a larger row, and an own one.
pub fn frees_are_monotone<I: IntDomain>()
    ensures { (m : Model) (bases : List BaseInfo) → IsLayout m bases → (all : Bases) (temps : ℕ) → length (top_row I.numbers all bases temps) < 2 ^ 64 → IsFreeMonotone I.lattice I.numbers m bases all temps }
{}

/// An object that is entered, forgotten, cleared or left in a larger own row leaves a larger row, and an own one; where it is
/// left, the pointers of the smaller row are consistent.
pub fn lives_are_monotone<I: IntDomain>()
    ensures forgotten { (m : Model) (bases : List BaseInfo) → IsLayout m bases → (all : Bases) (temps : ℕ) → length (top_row I.numbers all bases temps) < 2 ^ 64 → IsForgetMonotone I.lattice I.numbers m bases all temps }
    ensures cleared { (m : Model) (bases : List BaseInfo) → IsLayout m bases → (all : Bases) (temps : ℕ) → length (top_row I.numbers all bases temps) < 2 ^ 64 → IsClearMonotone I.lattice I.numbers m bases all temps }
    ensures left { (m : Model) (bases : List BaseInfo) → IsLayout m bases → (all : Bases) (temps : ℕ) → length (top_row I.numbers all bases temps) < 2 ^ 64 → IsLeaveMonotone I.lattice I.numbers m bases all temps }
{}

/// A text of bytes that is written into an array in a larger own row leaves a larger row, and an own one.
pub fn spells_are_monotone<I: IntDomain>()
    ensures { (m : Model) (bases : List BaseInfo) → IsLayout m bases → (all : Bases) (temps : ℕ) → length (top_row I.numbers all bases temps) < 2 ^ 64 → IsSpellMonotone I.lattice I.numbers m bases all temps }
{}

/// An allocation of a larger size, with larger old pointers, in a larger own row leaves a larger row, and an own one, where
/// the pointers of the smaller row are consistent; where no size is left, no instance is made, which is below a fresh one.
pub fn renewals_are_monotone<I: IntDomain>()
    ensures { MonotoneLaws I.lattice I.numbers → (m : Model) (bases : List BaseInfo) → IsLayout m bases → (all : Bases) (temps : ℕ) → length (top_row I.numbers all bases temps) < 2 ^ 64 → IsRenewMonotone I.lattice I.numbers m bases all temps }
{}

/// Bases without folded arrays, whose leaves and parts stand one behind the other, are such that larger windows reach more.
pub fn plain_bases_are_regular()
    ensures { (m : Model) (base : BaseInfo) → is_plain m base ≡ true → IsRegular m base }
{}

/// A store of an own value with a consistent pointer part into an own row of such ones leaves consistent pointer parts.
pub fn stores_are_consistent<I: IntDomain>()
    ensures { (m : Model) (bases : List BaseInfo) → IsLayout m bases → (all : Bases) (temps : ℕ) → length (top_row I.numbers all bases temps) < 2 ^ 64 → IsStoreConsistent I.lattice I.numbers m bases all temps }
{}

/// What is freed, entered, forgotten, cleared or left in a row of consistent pointer parts leaves such a row.
pub fn lives_are_consistent<I: IntDomain>()
    ensures { (bases : List BaseInfo) → AreLivesConsistent I.lattice I.numbers bases }
{}

/// A text of bytes that is written into an array of an own row of consistent pointer parts leaves such a row.
pub fn spells_are_consistent<I: IntDomain>()
    ensures { (m : Model) (bases : List BaseInfo) → IsLayout m bases → (all : Bases) (temps : ℕ) → length (top_row I.numbers all bases temps) < 2 ^ 64 → IsSpellConsistent I.lattice I.numbers m bases all temps }
{}

/// An allocation in an own row of consistent pointer parts leaves such a row.
pub fn renewals_are_consistent<I: IntDomain>()
    ensures { MonotoneLaws I.lattice I.numbers → (m : Model) (bases : List BaseInfo) → IsLayout m bases → (all : Bases) (temps : ℕ) → length (top_row I.numbers all bases temps) < 2 ^ 64 → IsRenewConsistent I.lattice I.numbers m bases all temps }
{}
