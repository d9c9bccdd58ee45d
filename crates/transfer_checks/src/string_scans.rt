//! The scan of a string argument for its closing zero.
ghost use Rattle.std.specs.Prelude.{◌≡◌};
ghost use Rattle.cc_base.specs.IntegerDomains.{IsNear};
ghost use Rattle.pointer_domain.specs.PointerTables.{IsNearPointer};
ghost use Rattle.store.specs.FirstZeroWrites.{covering_part};
ghost use Rattle.transfer_checks.specs.StringScans.{scan_start, last_of_room, unknown_length, length_in, length_at, known_length, scan_base, goes_on_in, unknown_in, with_base, with_base_if, nothing_scanned, scan_bases, near_scanned, scan};

use c_layout::BaseInfo;
use cc_base::{IntDomain, Lattice, of_range, range_met, upper_or};
use pointer_domain::{Bases, Pointers};
use store::{
    Window, covering_part, has_base, near_number, offsets_of, only_base, window_within, zero_at,
    zero_position,
};
use value_domain::values::Cell;

/// What a scan finds: the lengths of the string, the bases into which it goes on, and those in which
/// its end is unknown.
#[derive(Clone, Copy)]
pub struct Scanned<I> {
    pub length: I,
    pub bases: Bases,
    pub unknown: Bases,
}

/// The length in one base, and whether its end is unknown.
#[derive(Clone, Copy)]
struct OneScan<I> {
    length: I,
    unknown: bool,
}

/// The offsets of the pointer.
pub fn scan_start<I: IntDomain>(p: Pointers<I>) -> Option<Window>
    requires { IsNearPointer I.numbers p }
    ensures { result ≡ scan_start I.numbers p }
{
    window_within(p.offsets())
}

/// The last byte of the room.
fn last_of_room<I: IntDomain>(p: Pointers<I>) -> i128
    requires { IsNearPointer I.numbers p }
    ensures { result ≡ last_of_room I.numbers p }
{
    upper_or(0, p.rooms()).saturating_sub(1)
}

/// The lengths that a string may have where its end is unknown: up to the last byte of the room.
fn unknown_length<I: IntDomain>(p: Pointers<I>) -> I
    requires { IsNearPointer I.numbers p }
    ensures near { IsNear (I.numbers.bounds result) }
    ensures value { result ≡ unknown_length I.lattice I.numbers p }
{
    let most = last_of_room(p);
    near_number(of_range(range_met(Some((0, most)), 0, most)))
}

/// The length up to a known first zero of a part of the base, counted from the part's start; None where
/// the end is unknown.
fn length_in<I: IntDomain>(
    base: &BaseInfo,
    row: &[Cell<I>],
    p: Pointers<I>,
    part: (usize, Window),
) -> Option<I>
    requires { IsNearPointer I.numbers p }
    ensures { result ≡ length_in I.lattice I.numbers base.now row.now p part }
{
    let zero = zero_at(row, zero_position(base, part.0));
    let room = near_number(of_range(p.rooms()));
    zero.scan(offsets_of(part.1), room, p.part)
}

/// The length up to a known first zero of the base, from offsets on; None where the end is unknown.
fn length_at<I: IntDomain>(
    base: &BaseInfo,
    row: &[Cell<I>],
    p: Pointers<I>,
    start: Window,
) -> Option<I>
    requires { IsNearPointer I.numbers p }
    ensures { result ≡ length_at I.lattice I.numbers base.now row.now p (covering_part base.now start) }
{
    match covering_part(base, start) {
        None => None,
        Some(part) => length_in(base, row, p, part),
    }
}

/// The length up to a known first zero of the base; None where the end is unknown.
#[tactic(auto, unfolding(crate::specs::StringScans::known_length))]
fn known_length<I: IntDomain>(base: &BaseInfo, row: &[Cell<I>], p: Pointers<I>) -> Option<I>
    requires { IsNearPointer I.numbers p }
    ensures { result ≡ known_length I.lattice I.numbers base.now row.now p }
{
    match scan_start(p) {
        None => None,
        Some(start) => length_at(base, row, p, start),
    }
}

#[tactic(auto, unfolding(crate::specs::StringScans::scan_base))]
fn scan_base<I: IntDomain>(base: &BaseInfo, row: &[Cell<I>], p: Pointers<I>) -> OneScan<I>
    requires { IsNearPointer I.numbers p }
    ensures { result ≡ scan_base I.lattice I.numbers base.now row.now p }
{
    match known_length(base, row, p) {
        Some(length) => OneScan {
            length,
            unknown: false,
        },
        None => OneScan {
            length: unknown_length(p),
            unknown: true,
        },
    }
}

/// The bases found, with one more if a string of these lengths can end.
fn goes_on_in<I: IntDomain>(found: Bases, base: usize, length: I) -> Bases
    ensures { result ≡ goes_on_in I.numbers found base length }
{
    if length.bounds().is_some() {
        found.union(only_base(base))
    } else {
        found
    }
}

/// The bases in which the end is unknown, with one more if it is unknown there.
fn unknown_in(found: Bases, base: usize, unknown: bool) -> Bases
    ensures { result ≡ unknown_in found base unknown }
{
    if unknown {
        found.union(only_base(base))
    } else {
        found
    }
}

fn with_base<I: IntDomain>(found: Scanned<I>, base: usize, one: OneScan<I>) -> Scanned<I>
    ensures { result ≡ with_base I.lattice I.numbers found base one }
{
    Scanned {
        length: found.length.join(one.length),
        bases: goes_on_in(found.bases, base, one.length),
        unknown: unknown_in(found.unknown, base, one.unknown),
    }
}

/// What was found, with the scan in a base if it is wanted.
#[tactic(auto, unfolding(crate::specs::StringScans::with_base_if))]
fn with_base_if<I: IntDomain>(
    wanted: bool,
    found: Scanned<I>,
    number: usize,
    base: &BaseInfo,
    row: &[Cell<I>],
    p: Pointers<I>,
) -> Scanned<I>
    requires { IsNearPointer I.numbers p }
    ensures { result ≡ with_base_if I.lattice I.numbers row.now p wanted number base.now found }
{
    if wanted {
        with_base(found, number, scan_base(base, row, p))
    } else {
        found
    }
}

fn nothing_scanned<I: IntDomain>() -> Scanned<I>
    ensures { result ≡ nothing_scanned I.lattice }
{
    Scanned {
        length: I::bottom(),
        bases: Bases::empty(),
        unknown: Bases::empty(),
    }
}

#[tactic(auto, unfolding(crate::specs::StringScans::scan_bases))]
fn scan_bases<I: IntDomain>(bases: &[BaseInfo], row: &[Cell<I>], p: Pointers<I>) -> Scanned<I>
    requires { IsNearPointer I.numbers p }
    ensures { result ≡ scan_bases I.lattice I.numbers bases.now row.now p }
{
    let mut found = nothing_scanned();
    for n in 0..bases.len() {
        found = with_base_if(has_base(p.bases, n), found, n, &bases[n], row, p);
    }
    found
}

fn near_scanned<I: IntDomain>(found: Scanned<I>) -> Scanned<I>
    ensures near { IsNear (I.numbers.bounds result.length) }
    ensures value { result ≡ near_scanned I.lattice I.numbers found }
{
    Scanned {
        length: near_number(found.length),
        bases: found.bases,
        unknown: found.unknown,
    }
}

/// Scans the string at the pointers, base by base. A base in which no string ends does not go on.
#[tactic(auto, unfolding(crate::specs::StringScans::scan))]
pub fn scan<I: IntDomain>(bases: &[BaseInfo], row: &[Cell<I>], p: Pointers<I>) -> Scanned<I>
    requires { IsNearPointer I.numbers p }
    ensures near { IsNear (I.numbers.bounds result.length) }
    ensures value { result ≡ scan I.lattice I.numbers bases.now row.now p }
{
    near_scanned(scan_bases(bases, row, p))
}
