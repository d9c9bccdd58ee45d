//! Lattices of abstract values, and the numbers to which their bounds are rounded.
ghost use Rattle.std.specs.Prelude.{◌≡◌};
ghost use Rattle.cc_base.specs.Lattices.{LatticeOf, OrderLaws, RoundLaws, HeightLaws};

use crate::threshold_list::Thresholds;

/// A join semilattice with a least element, whose values can be rounded up to a list of numbers
/// so that chains of rounded values are finite.
///
/// What the calls compute is one record, `lattice`; generic code is proved from the laws alone.
pub trait Lattice: Copy {
    ghost lattice: { LatticeOf Self };

    /// The least value, which stands for nothing.
    fn bottom() -> Self
        ensures { result ≡ lattice.least };

    /// The least upper bound.
    fn join(self, other: Self) -> Self
        ensures { result ≡ lattice.join self other };

    /// Whether `other` is at or above `self`.
    fn leq(self, other: Self) -> bool
        ensures { result ≡ lattice.leq self other };

    /// The value with each bound moved outwards to the nearest number of the list.
    fn round(self, list: &Thresholds) -> Self
        ensures { result ≡ lattice.round list.now self };

    ghost order: { OrderLaws lattice };

    ghost rounding: { RoundLaws lattice };

    ghost heights: { HeightLaws lattice };
}
