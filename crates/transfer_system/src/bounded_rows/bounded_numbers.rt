//! Abstract integers of which it can be told whether their bounds lie within the ends of a list.
ghost use Rattle.std.specs.Prelude.{◌≡◌, int_le, ◌&&◌, ◌||◌};
ghost use Rattle.std.specs.List.{list_any};
ghost use Rattle.transfer_system.specs.BoundedRows.EndLaws.{EndLaws};
ghost use Rattle.transfer_system.specs.BoundedRows.IntervalEnds.{interval_ends};

use cc_base::{IntDomain, Thresholds};
use interval_domain::intervals::Interval;

/// Abstract integers with a test whether they lie within the ends of a list of numbers. Values
/// within the ends grow only so often, once they are rounded.
pub trait Bounded: IntDomain {
    /// Whether the bounds lie between two numbers of the list.
    fn is_within(self, list: &Thresholds) -> bool
        ensures { result ≡ Self.lattice.within list.now self };

    ghost ends: { EndLaws Self.lattice Self.numbers };
}

/// Whether some number of the list is at most `x`.
fn has_below(list: &[i128], x: i128) -> bool
    ensures { result ≡ list_any (λ n. int_le n x) list.now }
{
    for at in 0..list.len() {
        if list[at] <= x {
            return true;
        }
    }
    false
}

/// Whether some number of the list is at least `x`.
fn has_above(list: &[i128], x: i128) -> bool
    ensures { result ≡ list_any (λ n. int_le x n) list.now }
{
    for at in 0..list.len() {
        if x <= list[at] {
            return true;
        }
    }
    false
}

/// Whether some number of the list is at least `x`. Of an ascending list the last one is asked first.
#[tactic(auto, using(crate::specs::BoundedRows::Ends::last_is_above))]
fn lies_below_end(list: &[i128], x: i128) -> bool
    ensures { result ≡ list_any (λ n. int_le x n) list.now }
{
    let count = list.len();
    if count > 0 && x <= list[count - 1] {
        return true;
    }
    has_above(list, x)
}

impl Bounded for Interval {
    ghost ends = { interval_ends };

    fn is_within(self, list: &Thresholds) -> bool {
        match self {
            Interval::Bottom => true,
            Interval::Of(span) => {
                has_below(list.as_slice(), span.lo) && lies_below_end(list.as_slice(), span.hi)
            }
        }
    }
}
