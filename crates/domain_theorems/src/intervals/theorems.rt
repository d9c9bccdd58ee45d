//! The operations on intervals stand for every result and grow with their operands.
ghost use Rattle.cc_base.specs.IntegerLaws.{MonotoneLaws, SoundLaws};
ghost use Rattle.interval_domain.specs.Intervals.Spans.{Stands};
ghost use Rattle.interval_domain.specs.Intervals.IntervalLattice.{interval_lattice};
ghost use Rattle.interval_domain.specs.Intervals.IntervalNumbers.{interval_numbers};
ghost use Rattle.domain_theorems.specs.Intervals.BestResults.{AreBest, RoundsToLeast};

/// Larger operands give larger results, and no fewer truth values.
pub fn intervals_are_monotone()
    ensures { MonotoneLaws interval_lattice interval_numbers }
{}

/// A result has each number that the machine gives for numbers of the operands, the left one a number of the
/// operation's type; a comparison has each truth value that comes, and refining keeps each number that has the relation.
pub fn intervals_are_sound()
    ensures { SoundLaws interval_lattice interval_numbers Stands }
{}

/// A result is the least interval that has each number that the machine gives: of two single numbers, of products and
/// quotients that are all of the type, of shifts to the right and of complements. The left operand is of the type.
pub fn results_are_best()
    ensures { AreBest }
{}

/// Rounding leaves an interval whose bounds stand in the list, and gives the least one with such bounds.
pub fn rounding_is_least()
    ensures { RoundsToLeast }
{}
