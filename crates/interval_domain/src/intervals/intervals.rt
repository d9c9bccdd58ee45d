//! Intervals, their order, and rounding.
ghost use Rattle.std.specs.Prelude.{◌≡◌, Bool, ℤ, List};
ghost use Rattle.interval_domain.specs.Intervals.Spans.{between_or_empty};
ghost use Rattle.interval_domain.specs.Intervals.IntervalRound.{round_down, round_up};
ghost use Rattle.interval_domain.specs.Intervals.IntervalLattice.{interval_lattice, interval_order, interval_rounding, interval_heights};

use crate::intervals::spans::Span;
use crate::numbers::{first_above, last_below, own_unless};
use cc_base::{Lattice, Thresholds};

/// A set of consecutive integers.
#[derive(Clone, Copy, Debug)]
pub enum Interval {
    /// No number.
    Bottom,
    /// The numbers of a span.
    Of(Span),
}

/// The numbers from `lo` to `hi`, of which there may be none.
pub fn between_or_empty(lo: i128, hi: i128) -> Interval
    ensures { result ≡ between_or_empty lo hi }
{
    if lo <= hi {
        Interval::Of(Span { lo, hi })
    } else {
        Interval::Bottom
    }
}

impl Lattice for Interval {
    ghost lattice = { interval_lattice };

    ghost order = { interval_order };

    ghost rounding = { interval_rounding };

    ghost heights = { interval_heights };

    fn bottom() -> Self {
        Interval::Bottom
    }

    fn join(self, other: Self) -> Self {
        match (self, other) {
            (Interval::Bottom, y) => y,
            (x, Interval::Bottom) => x,
            (Interval::Of(s), Interval::Of(t)) => between_or_empty(s.lo.min(t.lo), s.hi.max(t.hi)),
        }
    }

    fn leq(self, other: Self) -> bool {
        match (self, other) {
            (Interval::Bottom, _) => true,
            (Interval::Of(_), Interval::Bottom) => false,
            (Interval::Of(s), Interval::Of(t)) => t.lo <= s.lo && s.hi <= t.hi,
        }
    }

    fn round(self, list: &Thresholds) -> Self {
        match self {
            Interval::Bottom => Interval::Bottom,
            Interval::Of(s) => {
                let numbers = list.as_slice();
                let lo = own_unless(s.lo, last_below(numbers, s.lo));
                let hi = own_unless(s.hi, first_above(numbers, s.hi));
                between_or_empty(lo, hi)
            }
        }
    }
}
