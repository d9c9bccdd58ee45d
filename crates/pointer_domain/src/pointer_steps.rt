//! Moving, narrowing, renaming and ending pointers (6.5.6, 6.5.2.1 and 6.2.4 of ISO/IEC 9899:2011).
ghost use Rattle.std.specs.Prelude.{◌≡◌, ◌<◌, ◌≤◌, ◌-ℤ◌, pos, true, Some};
ghost use Rattle.cc_base.specs.IntegerDomains.{IsNear};
ghost use Rattle.pointer_domain.specs.PointerTables.{IsNearPointer, offsets, rooms, moved_to, length_above, shifted, part_starts, part_at, narrowed, renamed, without_bases, if_any_base, ended_at, longest};

use crate::base_sets::Bases;
use crate::pointer_sets::Pointers;
use cc_base::{
    IntDomain, Lattice, between_or_bottom, range_clamped, range_difference, range_met, range_sum,
    range_times, upper_or,
};

/// Above every offset.
pub const END: i128 = 0x1_0000_0000_0000_0000;

/// The range of `n` alone.
fn just(n: u64) -> Option<(i128, i128)>
    ensures { result ≡ Some (pos n, pos n) }
{
    Some((n as i128, n as i128))
}

impl<I: IntDomain> Pointers<I> {
    /// The offsets, each the sum of a lower bound and a number above it; `None` where there is none.
    pub fn offsets(self) -> Option<(i128, i128)>
        requires { IsNearPointer I.numbers self }
        ensures { result ≡ offsets I.numbers self }
    {
        range_sum(self.lo.bounds(), self.rel.bounds())
    }

    /// How many bytes stand from the offset to the upper bound, from 0 to 2^64.
    pub fn rooms(self) -> Option<(i128, i128)>
        requires { IsNearPointer I.numbers self }
        ensures { result ≡ rooms I.numbers self }
    {
        range_clamped(
            range_difference(self.len.bounds(), self.rel.bounds()),
            0,
            END,
        )
    }

    fn length_above(self) -> i128
        ensures { result ≡ length_above I.numbers self }
    {
        upper_or(0, self.len.bounds())
    }

    fn moved_to(self, places: Option<(i128, i128)>) -> Self
        ensures { result ≡ moved_to I.lattice I.numbers self places }
    {
        match places {
            None => Self::bottom(),
            Some((lo, hi)) => Pointers {
                bases: self.bases,
                lo: self.lo,
                rel: between_or_bottom(lo, hi),
                len: self.len,
                part: self.part,
                null: false,
                ended: false,
            },
        }
    }

    /// The pointers moved by `scale` times a number of `by`, as far as they stay within their
    /// bounds. Null and ended pointers do not go on.
    pub fn shift(self, by: I, scale: u64) -> Self
        requires near { IsNearPointer I.numbers self }
        requires by_near { IsNear (I.numbers.bounds by) }
        requires short { scale ≤ longest }
        ensures { result ≡ shifted I.lattice I.numbers self by scale }
    {
        let places = range_sum(self.rel.bounds(), range_times(by.bounds(), scale));
        self.moved_to(range_met(places, 0, self.length_above()))
    }

    /// The last place from which the `size` bytes at `offset` can lie within the bounds.
    fn last_place(self, offset: u64, size: u64) -> i128
        requires near { IsNearPointer I.numbers self }
        requires offset_short { offset ≤ longest }
        requires size_short { size ≤ longest }
        ensures { result ≡ (length_above I.numbers self -ℤ pos offset) -ℤ pos size }
    {
        self.length_above() - offset as i128 - size as i128
    }

    fn part_starts(self, offset: u64, size: u64) -> Option<(i128, i128)>
        requires near { IsNearPointer I.numbers self }
        requires offset_short { offset ≤ longest }
        requires size_short { size ≤ longest }
        ensures { result ≡ part_starts I.numbers self offset size }
    {
        let places = range_met(self.rel.bounds(), 0, self.last_place(offset, size));
        let starts = range_sum(self.lo.bounds(), places);
        range_met(range_sum(starts, just(offset)), 0, END)
    }

    fn part_at(self, size: u64, starts: Option<(i128, i128)>) -> Self
        ensures { result ≡ part_at I.lattice I.numbers self size starts }
    {
        match starts {
            None => Self::bottom(),
            Some((lo, hi)) => Pointers {
                bases: self.bases,
                lo: between_or_bottom(lo, hi),
                rel: I::one(0),
                len: I::one(size as i128),
                part: true,
                null: false,
                ended: false,
            },
        }
    }

    /// The pointers with their bounds narrowed to the `size` bytes at `offset`, as far as these lie
    /// within their bounds. Null and ended pointers do not go on.
    pub fn narrow(self, offset: u64, size: u64) -> Self
        requires near { IsNearPointer I.numbers self }
        requires offset_short { offset ≤ longest }
        requires size_short { size ≤ longest }
        ensures { result ≡ narrowed I.lattice I.numbers self offset size }
    {
        self.part_at(size, self.part_starts(offset, size))
    }

    fn with_bases(self, bases: Bases) -> Self
        ensures { result ≡ record self { bases = bases } }
    {
        Pointers {
            bases,
            lo: self.lo,
            rel: self.rel,
            len: self.len,
            part: self.part,
            null: self.null,
            ended: self.ended,
        }
    }

    /// The same pointers, where those into the base `from` are into `to`.
    pub fn rename(self, from: u16, to: u16) -> Self
        requires from_small { from < 1016 }
        requires to_small { to < 1016 }
        ensures { result ≡ renamed self from to }
    {
        if self.bases.has(from) {
            self.with_bases(self.bases.without(from).with(to))
        } else {
            self
        }
    }

    fn without_bases(self) -> Self
        ensures { result ≡ without_bases I.lattice self }
    {
        Pointers {
            bases: Bases::empty(),
            lo: I::bottom(),
            rel: I::bottom(),
            len: I::bottom(),
            part: false,
            null: self.null,
            ended: self.ended,
        }
    }

    fn if_any_base(self) -> Self
        ensures { result ≡ if_any_base I.lattice self }
    {
        if self.bases.is_empty() {
            self.without_bases()
        } else {
            self
        }
    }

    fn ended_without(self, bases: Bases) -> Self
        ensures { result ≡ if_any_base I.lattice (record self { bases = bases; ended = true }) }
    {
        let ended = Pointers {
            bases,
            lo: self.lo,
            rel: self.rel,
            len: self.len,
            part: self.part,
            null: self.null,
            ended: true,
        };
        ended.if_any_base()
    }

    /// The same pointers, where those into the base have ended.
    pub fn end(self, base: u16) -> Self
        requires { base < 1016 }
        ensures { result ≡ ended_at I.lattice self base }
    {
        if self.bases.has(base) {
            self.ended_without(self.bases.without(base))
        } else {
            self
        }
    }
}
