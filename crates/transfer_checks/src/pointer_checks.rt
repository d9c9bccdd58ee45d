//! Rules on the arithmetic and the comparison of pointers.
ghost use Rattle.std.specs.Prelude.{◌≡◌, ◌≤◌};
ghost use Rattle.cc_base.specs.IntegerDomains.{IsNear};
ghost use Rattle.pointer_domain.specs.PointerTables.{IsNearPointer, longest};
ghost use Rattle.transfer_checks.specs.PointerChecks.{moves_outside, shift_violations, are_alike, check_same_instance};

use crate::touches::leaves_bounds_at;
use crate::violation_sets::Violations;
use cc_base::{IntDomain, range_sum, range_times};
use pointer_domain::{Bases, Pointers};
use value_domain::values::Labels;

/// Whether a moved pointer may lie outside its bounds; the end counts as within.
fn moves_outside<I: IntDomain>(at: Pointers<I>, by: I, scale: u64) -> bool
    requires near { IsNearPointer I.numbers at }
    requires by { IsNear (I.numbers.bounds by) }
    requires scale { scale ≤ longest }
    ensures { result ≡ moves_outside I.numbers at by scale }
{
    let places = range_sum(at.rel.bounds(), range_times(by.bounds(), scale));
    leaves_bounds_at(places, at.len.bounds())
}

/// What the move of a pointer by elements of a size may violate.
pub fn shift_violations<I: IntDomain>(
    at: Pointers<I>,
    by: I,
    labels: Labels,
    scale: u64,
) -> Violations
    requires near { IsNearPointer I.numbers at }
    requires by { IsNear (I.numbers.bounds by) }
    requires scale { scale ≤ longest }
    ensures { result ≡ shift_violations I.numbers at by labels scale }
{
    let mut found = Violations::none();
    found.taintsink = !labels.is_empty();
    found.nullref = at.null || at.ended;
    found.invptr = !at.bases.is_empty() && moves_outside(at, by, scale);
    found
}

/// What the difference or the order of two pointers may violate, and whether it goes on: whether both
/// can be into one instance.
#[derive(Clone, Copy, PartialEq, Eq, Debug)]
pub struct Compared {
    pub violations: Violations,
    pub goes_on: bool,
}

/// Whether both are into one instance, and neither is null.
fn are_alike<I: IntDomain>(left: Pointers<I>, right: Pointers<I>, single: Bases) -> bool
    ensures { result ≡ are_alike left right single }
{
    left.same_one_base(right, single) && (!left.null && !right.null)
}

/// The checks of `-` and of the relational operators on two pointers. `single` are the bases that
/// stand for at most one instance.
pub fn check_same_instance<I: IntDomain>(
    left: Pointers<I>,
    right: Pointers<I>,
    single: Bases,
) -> Compared
    ensures { result ≡ check_same_instance left right single }
{
    let mut violations = Violations::none();
    violations.nullref = left.ended || right.ended;
    violations.ptrobj = left.is_any() && (right.is_any() && !are_alike(left, right, single));
    Compared {
        violations,
        goes_on: left.bases.meets(right.bases),
    }
}
