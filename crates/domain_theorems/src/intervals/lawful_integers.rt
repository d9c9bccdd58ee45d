//! Abstract integers with the laws on which the promises rest: exactness on the one, silence on the other.
ghost use Rattle.cc_base.specs.IntegerLaws.{MonotoneLaws, SoundLaws};
ghost use Rattle.domain_theorems.specs.Intervals.Operations.{interval_monotone, interval_sound};

use cc_base::IntDomain;
use interval_domain::intervals::Interval;

/// Abstract integers whose operations give more of more, and stand for every result that the machine gives.
///
/// The laws stand in a trait above `IntDomain`, since that is proved in the lowest crate and no code rests on them.
pub trait LawfulIntegers: IntDomain {
    /// Larger operands give larger results, and no fewer truth values.
    ghost monotone: { MonotoneLaws Self.lattice Self.numbers };

    /// A result has each number that the machine gives for numbers of the operands (6.5, 6.3.1.3).
    ghost sound: { SoundLaws Self.lattice Self.numbers Self.stands };
}

impl LawfulIntegers for Interval {
    ghost monotone = { interval_monotone };

    ghost sound = { interval_sound };
}
