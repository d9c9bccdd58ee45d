//! Values of any domain of integers, made from bounds.
ghost use Rattle.std.specs.Prelude.{◌≡◌};
ghost use Rattle.cc_base.specs.IntegerDomains.{between_or_least};

use crate::integer_domains::IntDomain;
use crate::lattices::Lattice;

/// The numbers from `lo` to `hi`, and the least value where there are none.
pub fn between_or_bottom<I: IntDomain>(lo: i128, hi: i128) -> I
    ensures { result ≡ between_or_least I.lattice I.numbers lo hi }
{
    if lo <= hi {
        I::between(lo, hi)
    } else {
        I::bottom()
    }
}
