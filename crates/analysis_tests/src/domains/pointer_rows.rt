//! Rows of bases, pointers and first zeros.
ghost use Rattle.cc_base.specs.IntegerDomains.{IsNear};
ghost use Rattle.pointer_domain.specs.PointerTables.{IsNearPointer};

use cc_base::{IntDomain, Lattice, Rel, Tri};
use interval_domain::intervals::Interval;
use pointer_domain::{Bases, Pointers};
use value_domain::strings::{END, FirstZero};

/// A value with near bounds.
pub fn given<I: IntDomain>(lo: i128, hi: i128) -> I
    ensures { IsNear (I.numbers.bounds result) }
{
    if lo > hi || lo < -0x1_0000_0000_0000_0000 || hi > 0x1_0000_0000_0000_0000 {
        return I::bottom();
    }
    I::between(lo, hi)
}

fn into_base<I: IntDomain>(base: u16, rel: (i128, i128), len: i128) -> Pointers<I>
    ensures { IsNearPointer I.numbers result }
{
    let bases = if base < 1016 {
        Bases::empty().with(base)
    } else {
        Bases::empty()
    };
    Pointers {
        bases,
        lo: given(0, 0),
        rel: given(rel.0, rel.1),
        len: given(len, len),
        part: false,
        null: false,
        ended: false,
    }
}

fn bounds_are(x: Interval, lo: i128, hi: i128) -> bool {
    x.bounds() == Some((lo, hi))
}

#[test]
fn base_sets(rt: HostRuntime) {
    let two = Bases::empty().with(3).with(1015);
    assert!(rt; two.has(3) && two.has(1015) && !two.has(4));
    assert!(rt; two.count() == 2 && two.without(3).count() == 1 && !two.without(3).has(3));
    assert!(rt; two.without(3).within(two) && !two.within(two.without(3)));
    assert!(rt; two.without(3).without(1015).is_empty());
}

#[test]
fn pointer_steps(rt: HostRuntime) {
    let p: Pointers<Interval> = into_base(7, (0, 8), 40);
    assert!(rt; bounds_are(p.shift(given(-1, 3), 4).rel, 0, 20));
    assert!(rt; p.shift(given(20, 30), 4).bases.is_empty());
    assert!(rt; bounds_are(p.narrow(8, 4).lo, 8, 16) && p.narrow(8, 4).part);
    assert!(rt; p.rename(7, 8).bases.has(8) && !p.rename(7, 8).bases.has(7));
    assert!(rt; p.end(7).ended && p.end(7).bases.is_empty());
    assert!(rt; p.rooms() == Some((32, 40)) && p.offsets() == Some((0, 8)));
}

#[test]
fn pointer_relations(rt: HostRuntime) {
    let p: Pointers<Interval> = into_base(7, (4, 4), 40);
    let q: Pointers<Interval> = into_base(7, (0, 8), 40);
    let r: Pointers<Interval> = into_base(9, (4, 4), 40);
    let single = Bases::empty().with(7).with(9);
    assert!(rt; p.equal(p, single) == Tri::Yes && p.equal(p, Bases::empty()) == Tri::Both);
    assert!(rt; p.equal(q, single) == Tri::Both && p.equal(r, single) == Tri::No);
    let none: Pointers<Interval> = into_base(1016, (1, 0), 0);
    assert!(rt; p.equal(none, single) == Tri::Never);
    assert!(rt; p.compare(Rel::Lt, q) == Tri::Both && p.compare(Rel::Le, p) == Tri::Yes);
    assert!(rt; p.leq(p.join(r)) && !p.join(r).leq(p));
}

#[test]
fn first_zeros(rt: HostRuntime) {
    let none: FirstZero<Interval> = FirstZero {
        at: given(END, END),
    };
    let at_five: FirstZero<Interval> = FirstZero { at: given(5, 5) };
    assert!(rt; bounds_are(none.put(given(0, 0), Tri::Yes).at, 0, 0));
    assert!(rt; bounds_are(none.put(given(3, 3), Tri::Yes).at, 3, END));
    assert!(rt; bounds_are(at_five.put(given(2, 3), Tri::Yes).at, 2, 3));
    assert!(rt; bounds_are(at_five.put(given(2, 3), Tri::No).at, 5, 5));
    assert!(rt; bounds_are(at_five.put(given(2, 5), Tri::No).at, 5, END));
    assert!(rt; bounds_are(none.text(given(0, 0), given(0, 9)).at, 0, 9));
    assert!(rt; bounds_are(at_five.text(given(4, 4), given(2, 2)).at, 6, 6));
}

#[test]
fn scans(rt: HostRuntime) {
    let at_five: FirstZero<Interval> = FirstZero { at: given(5, 6) };
    let length = at_five.scan(given(2, 2), given(20, 20), false);
    assert!(rt; length.map_or(false, |n: Interval| n.bounds() == Some((3, 4))));
    assert!(rt; at_five.scan(given(6, 6), given(20, 20), false).is_none());
    assert!(rt; at_five.scan(given(2, 2), given(4, 4), true).is_none());
    assert!(rt; at_five.scan(given(2, 2), given(5, 5), true).is_some());
}
