//! The operations on pointer parts, first zeros and values grow with their arguments, and stand for what they do to each
//! pointer and number, over any domain of integers whose own operations do.
ghost use Rattle.cc_base.specs.IntegerLaws.{MonotoneLaws, SoundLaws};
ghost use Rattle.pointer_domain.specs.PointerLattice.{pointer_lattice};
ghost use Rattle.value_domain.specs.Strings.FirstZeros.{zero_lattice};
ghost use Rattle.value_domain.specs.Values.Values.{value_lattice};
ghost use Rattle.value_domain.specs.Values.AllocStates.{state_lattice};
ghost use Rattle.value_domain.specs.Values.Cells.{cell_lattice};
ghost use Rattle.domain_theorems.specs.Values.JoinLaws.{JoinsRise};
ghost use Rattle.domain_theorems.specs.Values.PointerLaws.{PointerLaws};
ghost use Rattle.domain_theorems.specs.Values.BaseLaws.{BaseLaws};
ghost use Rattle.domain_theorems.specs.Values.ZeroLaws.{ZeroLaws};
ghost use Rattle.domain_theorems.specs.Values.ValueLaws.{ValueLaws};
ghost use Rattle.domain_theorems.specs.Values.PointerMeaning.{PointerMeaning};
ghost use Rattle.domain_theorems.specs.Values.BaseMeaning.{WithoutMeaning, RenameMeaning, EndMeaning};
ghost use Rattle.domain_theorems.specs.Values.EqualityMeaning.{EqualityMeaning};
ghost use Rattle.domain_theorems.specs.Values.ValueMeaning.{ValueMeaning};
ghost use Rattle.domain_theorems.specs.Values.ZeroMeaning.{ZeroMeaning};
ghost use Rattle.domain_theorems.specs.Values.LabelMeaning.{LabelMeaning};
ghost use Rattle.domain_theorems.specs.Values.LargerMeaning.{LargerMeaning};

use cc_base::IntDomain;

/// Larger pointer parts, moved, narrowed, compared or subtracted, give larger results.
pub fn pointers_are_monotone<I: IntDomain>()
    ensures { MonotoneLaws I.lattice I.numbers → PointerLaws I.lattice I.numbers }
{}

/// Larger pointer parts of which a base is renamed, or has ended, stay larger.
pub fn bases_are_monotone<I: IntDomain>()
    ensures { BaseLaws I.lattice I.numbers }
{}

/// Larger first zeros, from 0 to the end, are larger behind a write, and a scan of them gives a greater length or none.
pub fn zeros_are_monotone<I: IntDomain>()
    ensures { ZeroLaws I.lattice I.numbers }
{}

/// Larger values give larger results, with their labels, and no fewer truth values.
pub fn values_are_monotone<I: IntDomain>()
    ensures { MonotoneLaws I.lattice I.numbers → ValueLaws I.lattice I.numbers }
{}

/// Joins of larger pointer parts, first zeros, values, allocation states and cells are larger.
pub fn joins_are_monotone<I: IntDomain>()
    ensures pointers { JoinsRise (pointer_lattice I.lattice) }
    ensures zeros { JoinsRise (zero_lattice I.lattice) }
    ensures values { JoinsRise (value_lattice I.lattice) }
    ensures states { JoinsRise (state_lattice I.lattice) }
    ensures cells { JoinsRise (cell_lattice I.lattice) }
{}

/// Pointer parts, moved, narrowed, compared or subtracted, stand for what that makes of each pointer into an instance.
pub fn pointers_are_sound<I: IntDomain>()
    ensures { SoundLaws I.lattice I.numbers I.stands → PointerMeaning I.lattice I.numbers I.stands }
{}

/// A set without a base has all others. Pointer parts of which a base is renamed, or has ended, stand for what that makes of
/// each pointer.
pub fn bases_are_sound<I: IntDomain>()
    ensures sets { WithoutMeaning }
    ensures renaming { RenameMeaning I.stands }
    ensures ending { EndMeaning I.lattice I.stands }
{}

/// Equality of pointer parts may hold for pointers that are the same and for two nulls, and fail for null beside a pointer,
/// for pointers at different offsets and for pointers into two instances.
pub fn equality_is_sound<I: IntDomain>()
    ensures { EqualityMeaning I.numbers I.stands }
{}

/// Values stand for what the operators make of each number, a result that leaves its type is told, and so is each truth.
pub fn values_are_sound<I: IntDomain>()
    ensures { SoundLaws I.lattice I.numbers I.stands → ValueMeaning I.lattice I.numbers I.stands }
{}

/// First zeros, behind a char or a text that was written, stand for what comes of each first zero, and a scan that
/// answers finds a string within its bounds, and its length.
pub fn zeros_are_sound<I: IntDomain>()
    ensures { ZeroMeaning I.lattice I.numbers I.stands }
{}

/// Labels spread from operands to results, and the labels of a result are among those of the value that stands for it.
pub fn labels_are_sound<I: IntDomain>()
    ensures { LabelMeaning I.lattice I.numbers I.stands }
{}

/// A larger pointer part, first zero, value, allocation state or cell stands for at least as much.
pub fn larger_values_stand_for_more<I: IntDomain>()
    ensures { LargerMeaning I.stands I.lattice }
{}
