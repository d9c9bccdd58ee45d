//! The sizes of complete types (6.2.5 of ISO/IEC 9899:2011), and structs member by member.
ghost use Rattle.std.specs.Prelude.{◌≡◌, ◌≤◌, true, IfSome, OnSome};
ghost use Rattle.c_layout.specs.Types.{view};
ghost use Rattle.c_layout.specs.StructViews.{structs_view};
ghost use Rattle.c_layout.specs.Layout.{most_bytes, is_complete, size_of_type};
ghost use Rattle.c_types_rules.specs.Rules.TypeSizes.{array_size, sized};

use c_layout::{CType, Structs};

/// The most bytes that a type may have.
const MOST_BYTES: u64 = 1_073_741_824;

fn array_size(count: u64, size: u64) -> Option<u64>
    ensures { result ≡ array_size count size }
{
    let all = count.checked_mul(size)?;
    if 0 < count && all <= MOST_BYTES {
        Some(all)
    } else {
        None
    }
}

/// The size in bytes of a type that is complete and not too large; None for any other. An array of
/// unknown length has the count 0. A pointer has `pointer` bytes.
pub fn size_if_complete(t: &CType, structs: &Structs, pointer: u8) -> Option<u64>
    ensures exact { result ≡ sized (structs_view structs.now) pointer (view t.now) }
    ensures size { IfSome result (λ n. n ≡ size_of_type (structs_view structs.now) pointer (view t.now)) }
    ensures complete { OnSome result (is_complete (structs_view structs.now) pointer (view t.now) ≡ true) }
{
    match t {
        CType::Int(kind) => {
            if 0 < kind.bytes && kind.bytes <= 8 {
                Some(u64::from(kind.bytes))
            } else {
                None
            }
        }
        CType::Pointer(_) => Some(u64::from(pointer)),
        CType::Array(element, count) => {
            let size = size_if_complete(element, structs, pointer)?;
            array_size(*count, size)
        }
        CType::Struct(index) => {
            let found = structs.items.get(*index as usize)?;
            if found.complete && 0 < found.align && found.size <= MOST_BYTES {
                Some(found.size)
            } else {
                None
            }
        }
        CType::Void => None,
    }
}
