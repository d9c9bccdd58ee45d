//! Equality, order and difference of pointers (6.5.6, 6.5.8 and 6.5.9 of ISO/IEC 9899:2011).
ghost use Rattle.std.specs.Prelude.{◌≡◌, ◌<◌, ◌≤◌, true};
ghost use Rattle.cc_base.specs.IntegerTypes.{is_size};
ghost use Rattle.pointer_domain.specs.PointerTables.{IsNearPointer, is_any, is_only_null, can_equal, same_one_base, must_equal, can_differ, pointers_equal, pointers_compare, pointers_difference, longest};

use crate::base_sets::Bases;
use crate::pointer_sets::Pointers;
use cc_base::{
    IntDomain, IntType, Rel, Tri, of_range, range_difference, range_met, range_over, ranges_meet,
    ranges_same_one,
};

impl<I: IntDomain> Pointers<I> {
    /// Whether there is a base or null.
    pub fn is_any(self) -> bool
        ensures { result ≡ is_any self }
    {
        !self.bases.is_empty() || self.null
    }

    fn is_only_null(self) -> bool
        ensures { result ≡ is_only_null self }
    {
        self.bases.is_empty() && self.null
    }

    fn can_equal(self, other: Self) -> bool
        requires left { IsNearPointer I.numbers self }
        requires right { IsNearPointer I.numbers other }
        ensures { result ≡ can_equal I.numbers self other }
    {
        self.null && other.null
            || self.bases.meets(other.bases) && ranges_meet(self.offsets(), other.offsets())
    }

    /// Whether both have the same one base, and `single` has it.
    pub fn same_one_base(self, other: Self, single: Bases) -> bool
        ensures { result ≡ same_one_base self other single }
    {
        self.bases.count() == 1
            && self.bases.within(other.bases)
            && other.bases.within(self.bases)
            && self.bases.within(single)
    }

    fn must_equal(self, other: Self, single: Bases) -> bool
        requires left { IsNearPointer I.numbers self }
        requires right { IsNearPointer I.numbers other }
        ensures { result ≡ must_equal I.numbers self other single }
    {
        self.same_one_base(other, single)
            && !(self.null || other.null)
            && ranges_same_one(self.offsets(), other.offsets())
    }

    fn can_differ(self, other: Self, single: Bases) -> bool
        requires left { IsNearPointer I.numbers self }
        requires right { IsNearPointer I.numbers other }
        ensures { result ≡ can_differ I.numbers self other single }
    {
        !(self.is_only_null() && other.is_only_null()) && !self.must_equal(other, single)
    }

    /// Which truth values `==` can have. `single` are the bases that stand for at most one
    /// instance. `Never` exactly where one side has neither a base nor null.
    pub fn equal(self, other: Self, single: Bases) -> Tri
        requires left { IsNearPointer I.numbers self }
        requires right { IsNearPointer I.numbers other }
        ensures { result ≡ pointers_equal I.numbers self other single }
    {
        if self.is_any() && other.is_any() {
            Tri::of(self.can_equal(other), self.can_differ(other, single))
        } else {
            Tri::Never
        }
    }

    /// Which truth values a relation of the offsets can have.
    pub fn compare(self, rel: Rel, other: Self) -> Tri
        requires left { IsNearPointer I.numbers self }
        requires right { IsNearPointer I.numbers other }
        ensures { result ≡ pointers_compare I.lattice I.numbers rel self other }
    {
        let left: I = of_range(self.offsets());
        let right: I = of_range(other.offsets());
        left.compare(rel, right)
    }

    /// The differences of the offsets in elements of `size` bytes, truncated, that lie in the range
    /// of `kind`.
    pub fn difference(self, other: Self, size: u64, kind: IntType) -> I
        requires left { IsNearPointer I.numbers self }
        requires right { IsNearPointer I.numbers other }
        requires positive { 0 < size }
        requires bytes { is_size kind.bytes ≡ true }
        ensures { result ≡ pointers_difference I.lattice I.numbers self other size kind }
    {
        let apart = range_difference(self.offsets(), other.offsets());
        of_range(range_met(range_over(apart, size), kind.least(), kind.greatest()))
    }
}
