//! The pointer part of an abstract value, and its lattice.
ghost use Rattle.std.specs.Prelude.{◌≡◌};
ghost use Rattle.pointer_domain.specs.PointerLattice.{pointer_lattice, pointer_order, pointer_rounding, pointer_heights};

use crate::base_sets::Bases;
use cc_base::{IntDomain, Lattice, Thresholds};

/// The pointers that a value may be. A pointer into an instance has bounds `lo` and `hi` within
/// it, and an offset. The three intervals stand for nothing exactly where there is no base.
#[derive(Clone, Copy)]
pub struct Pointers<I> {
    /// The bases into which it may point.
    pub bases: Bases,
    /// The lower bound.
    pub lo: I,
    /// The offset less the lower bound.
    pub rel: I,
    /// The upper bound less the lower one.
    pub len: I,
    /// Whether the bounds may be other than those of the whole instance.
    pub part: bool,
    /// Whether it may be null.
    pub null: bool,
    /// Whether it may point to an object whose lifetime has ended.
    pub ended: bool,
}

impl<I: IntDomain> Lattice for Pointers<I> {
    ghost lattice = { pointer_lattice I.lattice };

    ghost order = { pointer_order I.order };

    ghost rounding = { pointer_rounding I.rounding };

    ghost heights = { pointer_heights I.order I.heights };

    fn bottom() -> Self {
        Pointers {
            bases: Bases::empty(),
            lo: I::bottom(),
            rel: I::bottom(),
            len: I::bottom(),
            part: false,
            null: false,
            ended: false,
        }
    }

    fn join(self, other: Self) -> Self {
        Pointers {
            bases: self.bases.union(other.bases),
            lo: self.lo.join(other.lo),
            rel: self.rel.join(other.rel),
            len: self.len.join(other.len),
            part: self.part || other.part,
            null: self.null || other.null,
            ended: self.ended || other.ended,
        }
    }

    fn leq(self, other: Self) -> bool {
        self.bases.within(other.bases)
            && self.lo.leq(other.lo)
            && self.rel.leq(other.rel)
            && self.len.leq(other.len)
            && (!self.part || other.part)
            && (!self.null || other.null)
            && (!self.ended || other.ended)
    }

    fn round(self, list: &Thresholds) -> Self {
        Pointers {
            bases: self.bases,
            lo: self.lo.round(list),
            rel: self.rel.round(list),
            len: self.len.round(list),
            part: self.part,
            null: self.null,
            ended: self.ended,
        }
    }
}
