//! Ranges of numbers, as the bounds of a value of a domain of integers give them: the least and
//! the greatest number, or nothing.
ghost use Rattle.std.specs.Prelude.{◌≡◌, ◌≤ℤ◌, ◌<◌, ◌≤◌, ◌^◌, ℕ, pos};
ghost use Rattle.std.specs.Int.{int_min, int_max};
ghost use Rattle.cc_base.specs.NumberRanges.{range_between, range_sum, range_difference, range_times, range_over, range_met, range_clamped, ranges_meet, ranges_same_one, upper_or, FitsRange, LiesWithin};
ghost use Rattle.cc_base.specs.IntegerDomains.{between_or_least, of_range};

use crate::integer_bounds::between_or_bottom;
use crate::integer_domains::IntDomain;
use crate::lattices::Lattice;

/// The numbers from `lo` to `hi`, of which there may be none.
pub fn range_between(lo: i128, hi: i128) -> Option<(i128, i128)>
    ensures { result ≡ range_between lo hi }
{
    if lo <= hi { Some((lo, hi)) } else { None }
}

/// The sums of a number of each.
pub fn range_sum(x: Option<(i128, i128)>, y: Option<(i128, i128)>) -> Option<(i128, i128)>
    requires { FitsRange (range_sum x y) }
    ensures { result ≡ range_sum x y }
{
    match (x, y) {
        (Some(p), Some(q)) => Some((p.0 + q.0, p.1 + q.1)),
        _ => None,
    }
}

/// The differences of a number of each.
pub fn range_difference(x: Option<(i128, i128)>, y: Option<(i128, i128)>) -> Option<(i128, i128)>
    requires { FitsRange (range_difference x y) }
    ensures { result ≡ range_difference x y }
{
    match (x, y) {
        (Some(p), Some(q)) => Some((p.0 - q.1, p.1 - q.0)),
        _ => None,
    }
}

/// The numbers times a factor.
pub fn range_times(x: Option<(i128, i128)>, factor: u64) -> Option<(i128, i128)>
    requires { FitsRange (range_times x factor) }
    ensures { result ≡ range_times x factor }
{
    match x {
        None => None,
        Some(p) => Some((p.0 * factor as i128, p.1 * factor as i128)),
    }
}

/// The numbers divided by a divisor above 0, truncated towards zero.
pub fn range_over(x: Option<(i128, i128)>, divisor: u64) -> Option<(i128, i128)>
    requires { 0 < divisor }
    ensures { result ≡ range_over x divisor }
{
    match x {
        None => None,
        Some(p) => Some((p.0 / divisor as i128, p.1 / divisor as i128)),
    }
}

/// The numbers that lie from `lo` to `hi`.
pub fn range_met(x: Option<(i128, i128)>, lo: i128, hi: i128) -> Option<(i128, i128)>
    ensures { result ≡ range_met x lo hi }
{
    match x {
        None => None,
        Some(p) => range_between(p.0.max(lo), p.1.min(hi)),
    }
}

fn nearest_within(n: i128, lo: i128, hi: i128) -> i128
    ensures { result ≡ int_min (int_max n lo) hi }
{
    n.max(lo).min(hi)
}

/// The numbers, each moved to the nearest one from `lo` to `hi`.
pub fn range_clamped(x: Option<(i128, i128)>, lo: i128, hi: i128) -> Option<(i128, i128)>
    ensures { result ≡ range_clamped x lo hi }
{
    match x {
        None => None,
        Some(p) => Some((nearest_within(p.0, lo, hi), nearest_within(p.1, lo, hi))),
    }
}

/// Whether some number is in both.
pub fn ranges_meet(x: Option<(i128, i128)>, y: Option<(i128, i128)>) -> bool
    ensures { result ≡ ranges_meet x y }
{
    match (x, y) {
        (Some(p), Some(q)) => p.0 <= q.1 && q.0 <= p.1,
        _ => false,
    }
}

/// Whether both have one number, and it is the same.
pub fn ranges_same_one(x: Option<(i128, i128)>, y: Option<(i128, i128)>) -> bool
    ensures { result ≡ ranges_same_one x y }
{
    match (x, y) {
        (Some(p), Some(q)) => p.0 == p.1 && (q.0 == q.1 && p.0 == q.0),
        _ => false,
    }
}

/// The greatest number, or a default.
pub fn upper_or(default: i128, x: Option<(i128, i128)>) -> i128
    ensures { result ≡ upper_or default x }
{
    match x {
        None => default,
        Some(p) => p.1,
    }
}

/// The value with these bounds.
pub fn of_range<I: IntDomain>(x: Option<(i128, i128)>) -> I
    ensures { result ≡ of_range I.lattice I.numbers x }
{
    match x {
        None => I::bottom(),
        Some(p) => between_or_bottom(p.0, p.1),
    }
}
