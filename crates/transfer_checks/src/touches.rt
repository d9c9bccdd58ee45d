//! The touch of some bytes through a pointer: by a load, a store, a copy of a struct or a narrowing.
ghost use Rattle.std.specs.Prelude.{◌≡◌, ◌≤◌, ◌-ℤ◌, pos};
ghost use Rattle.cc_base.specs.IntegerDomains.{IsNear};
ghost use Rattle.pointer_domain.specs.PointerLattice.{no_pointer};
ghost use Rattle.pointer_domain.specs.PointerTables.{IsNearPointer, length_above, longest};
ghost use Rattle.store.specs.LiveBases.{is_literal_kind};
ghost use Rattle.transfer_checks.specs.Touches.{leaves_bounds_at, span_of, is_literal_or, any_literal, kept_of, is_nowhere, into_bases, leaves_bounds, places_within, touched_inside, touch_violations, touched_rest, touch};

use crate::violation_sets::Violations;
use c_layout::{BaseInfo, BaseKind};
use cc_base::{IntDomain, Lattice, of_range, range_met, range_sum, upper_or};
use pointer_domain::{Bases, Pointers};
use store::{any_freed, has_base, live_of, near_pointer, writable_of};
use value_domain::values::Cell;

/// What a touch may violate, and the pointers that go on: neither null nor ended, into bases that may
/// be live and, for a write, are no literals, at places where the bytes lie within the bounds.
#[derive(Clone, Copy)]
pub struct Touched<I> {
    pub violations: Violations,
    pub rest: Pointers<I>,
}

/// Whether a set has no base, or a value no number.
fn is_nowhere<I: IntDomain>(bases: Bases, rel: I) -> bool
    ensures { result ≡ is_nowhere I.numbers bases rel }
{
    bases.is_empty() || rel.bounds().is_none()
}

/// The pointers into these bases alone, at places within a range above their lower bound.
pub fn into_bases<I: IntDomain>(p: Pointers<I>, bases: Bases, rel: I) -> Pointers<I>
    ensures { result ≡ into_bases I.lattice I.numbers p bases rel }
{
    if is_nowhere(bases, rel) {
        no_pointer()
    } else {
        Pointers {
            bases,
            lo: p.lo,
            rel,
            len: p.len,
            part: p.part,
            null: false,
            ended: false,
        }
    }
}

/// No pointer at all.
pub fn no_pointer<I: IntDomain>() -> Pointers<I>
    ensures { result ≡ no_pointer I.lattice }
{
    Pointers::bottom()
}

/// Whether a place may lie before the bounds, or behind their length.
pub fn leaves_bounds_at(places: Option<(i128, i128)>, len: Option<(i128, i128)>) -> bool
    ensures { result ≡ leaves_bounds_at places len }
{
    match (places, len) {
        (Some(p), Some(q)) => p.0 < 0 || p.1 > q.0,
        _ => false,
    }
}

/// From the first byte at an offset to behind the last one of a size.
fn span_of(offset: u64, size: u64) -> Option<(i128, i128)>
    requires offset { offset ≤ longest }
    requires size { size ≤ longest }
    ensures { result ≡ span_of offset size }
{
    Some((offset as i128, (offset + size) as i128))
}

/// Whether a place may lie before the bounds, or the last byte behind them.
fn leaves_bounds<I: IntDomain>(p: Pointers<I>, offset: u64, size: u64) -> bool
    requires near { IsNearPointer I.numbers p }
    requires offset { offset ≤ longest }
    requires size { size ≤ longest }
    ensures { result ≡ leaves_bounds I.numbers p offset size }
{
    let places = range_sum(p.rel.bounds(), span_of(offset, size));
    leaves_bounds_at(places, p.len.bounds())
}

/// The last place from which the bytes can lie within the bounds.
fn last_place<I: IntDomain>(p: Pointers<I>, offset: u64, size: u64) -> i128
    requires near { IsNearPointer I.numbers p }
    requires offset { offset ≤ longest }
    requires size { size ≤ longest }
    ensures { result ≡ (length_above I.numbers p -ℤ pos offset) -ℤ pos size }
{
    length_above(p) - offset as i128 - size as i128
}

/// The greatest length.
fn length_above<I: IntDomain>(p: Pointers<I>) -> i128
    ensures { result ≡ length_above I.numbers p }
{
    upper_or(0, p.len.bounds())
}

/// The places from which the bytes can lie within the bounds.
fn places_within<I: IntDomain>(p: Pointers<I>, offset: u64, size: u64) -> I
    requires near { IsNearPointer I.numbers p }
    requires offset { offset ≤ longest }
    requires size { size ≤ longest }
    ensures { result ≡ places_within I.lattice I.numbers p offset size }
{
    of_range(range_met(p.rel.bounds(), 0, last_place(p, offset, size)))
}

fn is_literal(kind: BaseKind) -> bool
    ensures { result ≡ is_literal_kind kind }
{
    match kind {
        BaseKind::Static | BaseKind::Automatic | BaseKind::Newest | BaseKind::Older => false,
        BaseKind::Literal => true,
    }
}

fn is_literal_or(found: bool, base: &BaseInfo, number: usize, set: Bases) -> bool
    ensures { result ≡ is_literal_or set base.now number found }
{
    found || (has_base(set, number) && is_literal(base.kind))
}

/// Whether the set has a literal.
#[tactic(auto, unfolding(crate::specs::Touches::any_literal))]
pub fn any_literal(bases: &[BaseInfo], set: Bases) -> bool
    ensures { result ≡ any_literal bases.now set }
{
    let mut found = false;
    for n in 0..bases.len() {
        found = is_literal_or(found, &bases[n], n, set);
    }
    found
}

/// The bases that go on; for a write they are no literals.
fn kept_of(bases: &[BaseInfo], write: bool, set: Bases) -> Bases
    ensures { result ≡ kept_of bases.now write set }
{
    if write { writable_of(bases, set) } else { set }
}

/// The pointers into bases that may be live, at places where the bytes lie within the bounds.
fn touched_inside<I: IntDomain>(at: Pointers<I>, live: Bases, offset: u64, size: u64) -> Pointers<I>
    requires near { IsNearPointer I.numbers at }
    requires offset { offset ≤ longest }
    requires size { size ≤ longest }
    ensures { result ≡ touched_inside I.lattice I.numbers at live offset size }
{
    into_bases(at, live, places_within(at, offset, size))
}

/// What a touch may violate, with the bases that may be live, and of them those into which its bytes
/// lie within the bounds.
#[tactic(auto, unfolding(crate::specs::Touches::touch_violations))]
fn touch_violations<I: IntDomain>(
    bases: &[BaseInfo],
    row: &[Cell<I>],
    at: Pointers<I>,
    offset: u64,
    size: u64,
    write: bool,
    live: Bases,
    inside: Bases,
) -> Violations
    requires near { IsNearPointer I.numbers at }
    requires offset { offset ≤ longest }
    requires size { size ≤ longest }
    ensures { result ≡ touch_violations I.lattice I.numbers bases.now row.now at offset size write live inside }
{
    let mut found = Violations::none();
    found.nullref = at.null || at.ended;
    found.accfree = any_freed(bases, row, at.bases);
    found.invptr = !live.is_empty() && leaves_bounds(at, offset, size);
    found.strmod = write && any_literal(bases, inside);
    found
}

/// The touch of `size` bytes at an offset from the pointer, for reading or, where `write` is set, for
/// writing. The conditions are taken in the machine's order, each on what the earlier ones let
/// through.
#[tactic(auto, unfolding(crate::specs::Touches::touch))]
pub fn touch<I: IntDomain>(
    bases: &[BaseInfo],
    row: &[Cell<I>],
    at: Pointers<I>,
    offset: u64,
    size: u64,
    write: bool,
) -> Touched<I>
    requires near { IsNearPointer I.numbers at }
    requires offset { offset ≤ longest }
    requires size { size ≤ longest }
    ensures near { IsNearPointer I.numbers result.rest }
    ensures value { result ≡ touch I.lattice I.numbers bases.now row.now at offset size write }
{
    let live = live_of(bases, row, at.bases);
    let inside = touched_inside(at, live, offset, size);
    Touched {
        violations: touch_violations(bases, row, at, offset, size, write, live, inside.bases),
        rest: touched_rest(bases, write, inside),
    }
}

/// The pointers of a touch that go on.
fn touched_rest<I: IntDomain>(bases: &[BaseInfo], write: bool, inside: Pointers<I>) -> Pointers<I>
    ensures near { IsNearPointer I.numbers result }
    ensures value { result ≡ touched_rest I.lattice I.numbers bases.now write inside }
{
    let kept = kept_of(bases, write, inside.bases);
    near_pointer(into_bases(inside, kept, inside.rel))
}
