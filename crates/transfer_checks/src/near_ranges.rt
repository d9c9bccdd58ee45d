//! The bounds of near numbers, in order.
ghost use Rattle.std.specs.Prelude.{◌≡◌, ◌^◌};
ghost use Rattle.cc_base.specs.IntegerDomains.{IsNear};
ghost use Rattle.cc_base.specs.NumberRanges.{LiesWithin};

use cc_base::IntDomain;

/// The bounds of the numbers.
pub fn near_range<I: IntDomain>(x: I) -> Option<(i128, i128)>
    requires { IsNear (I.numbers.bounds x) }
    ensures value { result ≡ I.numbers.bounds x }
    ensures lies { LiesWithin (2 ^ 64) result }
{
    x.bounds()
}
