//! Rules on allocation and release.
ghost use Rattle.std.specs.Prelude.{◌≡◌};
ghost use Rattle.pointer_domain.specs.PointerTables.{IsNearPointer};
ghost use Rattle.store.specs.LiveBases.{with_base_if};
ghost use Rattle.store.specs.Freeing.{is_heap_in};
ghost use Rattle.transfer_checks.specs.AllocationChecks.{is_too_small, allocation_violations, heap_of, may_be_zero, may_differ, is_misplaced, release_violations, to_starts, released_rest, check_release};

use crate::touches::{into_bases, no_pointer};
use crate::violation_sets::Violations;
use c_layout::BaseInfo;
use cc_base::IntDomain;
use pointer_domain::{Bases, Pointers};
use store::{any_freed, has_base, live_of, near_pointer, only_base};
use value_domain::values::{Cell, Labels};

/// Whether fewer bytes than wanted may be asked for.
fn is_too_small(size: Option<(i128, i128)>, wanted: Option<u64>) -> bool
    ensures { result ≡ is_too_small size wanted }
{
    match (size, wanted) {
        (Some(n), Some(bytes)) => n.0 < bytes as i128,
        _ => false,
    }
}

/// What an allocation may violate that is asked for so many bytes, with these labels, where its result
/// is converted to a pointer to a type of `wanted` bytes.
pub fn allocation_violations(
    size: Option<(i128, i128)>,
    labels: Labels,
    wanted: Option<u64>,
) -> Violations
    ensures { result ≡ allocation_violations size labels wanted }
{
    let mut found = Violations::none();
    found.taintsink = !labels.is_empty();
    found.insufmem = is_too_small(size, wanted);
    found
}

/// What the release of an instance may violate, and the pointers that go on: null, and those to the
/// start of instances of heap bases that may be live.
#[derive(Clone, Copy)]
pub struct Released<I> {
    pub violations: Violations,
    pub rest: Pointers<I>,
}

fn is_heap_in(base: &BaseInfo, number: usize, set: Bases) -> bool
    ensures { result ≡ is_heap_in set base.now number }
{
    has_base(set, number) && base.shape.heap
}

fn with_heap_if(wanted: bool, number: usize, found: Bases) -> Bases
    ensures { result ≡ with_base_if wanted number found }
{
    if wanted {
        found.union(only_base(number))
    } else {
        found
    }
}

/// The heap bases of a set.
#[tactic(auto, unfolding(crate::specs::AllocationChecks::heap_of))]
fn heap_of(bases: &[BaseInfo], set: Bases) -> Bases
    ensures { result ≡ heap_of bases.now set }
{
    let mut found = Bases::empty();
    for n in 0..bases.len() {
        found = with_heap_if(is_heap_in(&bases[n], n, set), n, found);
    }
    found
}

/// Whether an offset may be 0.
fn may_be_zero(offsets: Option<(i128, i128)>) -> bool
    ensures { result ≡ may_be_zero offsets }
{
    match offsets {
        None => false,
        Some(p) => p.0 <= 0 && 0 <= p.1,
    }
}

/// Whether an offset may be another one than 0.
fn may_differ(offsets: Option<(i128, i128)>) -> bool
    ensures { result ≡ may_differ offsets }
{
    match offsets {
        None => false,
        Some(p) => p.0 != 0 || p.1 != 0,
    }
}

/// Whether some base is no heap base, or some offset is not 0.
fn is_misplaced(live: Bases, heap: Bases, offsets: Option<(i128, i128)>) -> bool
    ensures { result ≡ is_misplaced live heap offsets }
{
    !live.is_empty() && (!live.within(heap) || may_differ(offsets))
}

/// What a release may violate, whose pointers are into these bases that may be live.
fn release_violations<I: IntDomain>(
    bases: &[BaseInfo],
    row: &[Cell<I>],
    p: Pointers<I>,
    live: Bases,
) -> Violations
    requires { IsNearPointer I.numbers p }
    ensures { result ≡ release_violations I.lattice I.numbers bases.now row.now p live }
{
    let mut found = Violations::none();
    found.dblfree = any_freed(bases, row, p.bases);
    found.xfree = p.ended || is_misplaced(live, heap_of(bases, live), p.offsets());
    found
}

/// The pointers to the start of instances of heap bases.
fn to_starts<I: IntDomain>(p: Pointers<I>, heap: Bases) -> Pointers<I>
    requires { IsNearPointer I.numbers p }
    ensures { result ≡ to_starts I.lattice I.numbers p heap }
{
    if may_be_zero(p.offsets()) {
        into_bases(p, heap, p.rel)
    } else {
        no_pointer()
    }
}

/// Those, and null.
fn released_rest<I: IntDomain>(p: Pointers<I>, heap: Bases) -> Pointers<I>
    requires { IsNearPointer I.numbers p }
    ensures near { IsNearPointer I.numbers result }
    ensures value { result ≡ released_rest I.lattice I.numbers p heap }
{
    let kept = to_starts(p, heap);
    near_pointer(Pointers {
        bases: kept.bases,
        lo: kept.lo,
        rel: kept.rel,
        len: kept.len,
        part: kept.part,
        null: p.null,
        ended: false,
    })
}

/// The checks of `free` and `realloc`: of a freed instance first, each on what the earlier ones let
/// through.
#[tactic(auto, unfolding(crate::specs::AllocationChecks::check_release))]
pub fn check_release<I: IntDomain>(
    bases: &[BaseInfo],
    row: &[Cell<I>],
    p: Pointers<I>,
) -> Released<I>
    requires { IsNearPointer I.numbers p }
    ensures near { IsNearPointer I.numbers result.rest }
    ensures value { result ≡ check_release I.lattice I.numbers bases.now row.now p }
{
    let live = live_of(bases, row, p.bases);
    Released {
        violations: release_violations(bases, row, p, live),
        rest: released_rest(p, heap_of(bases, live)),
    }
}
