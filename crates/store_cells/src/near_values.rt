//! Values whose bounds lie from -2^64 to 2^64, as those of each row of a flow do.
ghost use Rattle.std.specs.Prelude.{◌≡◌};
ghost use Rattle.cc_base.specs.IntegerDomains.{IsNear};
ghost use Rattle.pointer_domain.specs.PointerTables.{IsNearPointer};
ghost use Rattle.store_cells.specs.NearValues.{near_part, near_number, near_pointer, near_value};

use cc_base::{IntDomain, Lattice, of_range, range_met};
use pointer_domain::Pointers;
use value_domain::values::Value;

/// The numbers from -2^64 to 2^64.
#[tactic(auto, using(crate::specs::NearValues::part_near))]
fn near_part<I: IntDomain>(x: I) -> I
    ensures near { IsNear (I.numbers.bounds result) }
    ensures value { result ≡ near_part I.lattice I.numbers x }
{
    of_range(range_met(
        x.bounds(),
        -0x1_0000_0000_0000_0000,
        0x1_0000_0000_0000_0000,
    ))
}

/// The numbers, where they lie from -2^64 to 2^64; else those of them that do. No row of a flow has
/// other numbers.
pub fn near_number<I: IntDomain>(x: I) -> I
    ensures near { IsNear (I.numbers.bounds result) }
    ensures value { result ≡ near_number I.lattice I.numbers x }
{
    match x.bounds() {
        None => I::bottom(),
        Some((lo, hi)) => {
            if lo < -0x1_0000_0000_0000_0000 || hi > 0x1_0000_0000_0000_0000 {
                near_part(x)
            } else {
                x
            }
        }
    }
}

/// The pointers with near bounds.
pub fn near_pointer<I: IntDomain>(p: Pointers<I>) -> Pointers<I>
    ensures near { IsNearPointer I.numbers result }
    ensures value { result ≡ near_pointer I.lattice I.numbers p }
{
    Pointers {
        bases: p.bases,
        lo: near_number(p.lo),
        rel: near_number(p.rel),
        len: near_number(p.len),
        part: p.part,
        null: p.null,
        ended: p.ended,
    }
}

/// The value with near bounds.
pub fn near_value<I: IntDomain>(v: Value<I>) -> Value<I>
    ensures number { IsNear (I.numbers.bounds result.num) }
    ensures pointer { IsNearPointer I.numbers result.pointer }
    ensures value { result ≡ near_value I.lattice I.numbers v }
{
    Value {
        num: near_number(v.num),
        pointer: near_pointer(v.pointer),
        indeterminate: v.indeterminate,
        labels: v.labels,
    }
}
