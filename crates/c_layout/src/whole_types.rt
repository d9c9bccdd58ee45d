//! Whether a type is complete.
ghost use Rattle.std.specs.Prelude.{◌≡◌, true};
ghost use Rattle.c_layout.specs.Types.{view};
ghost use Rattle.c_layout.specs.StructViews.{structs_view};
ghost use Rattle.c_layout.specs.Layout.{is_complete};

use crate::sizes::type_bytes;
use crate::struct_layouts::MOST_BYTES;
use crate::struct_table::Structs;
use crate::type_terms::CType;

/// Whether a type is complete (6.2.5 of ISO/IEC 9899:2011) and not too large, in each of its parts.
pub fn is_whole(t: &CType, structs: &Structs, pointer: u8) -> bool
    ensures { result ≡ true → is_complete (structs_view structs.now) pointer (view t.now) ≡ true }
{
    match t {
        CType::Int(kind) => 0 < kind.bytes && kind.bytes <= 8,
        CType::Pointer(_) => true,
        CType::Array(element, count) => {
            is_whole(element, structs, pointer)
                && match type_bytes(element, structs, pointer) {
                    Ok(size) => match count.checked_mul(size) {
                        Some(all) => all <= MOST_BYTES,
                        None => false,
                    },
                    Err(_) => false,
                }
        }
        CType::Struct(index) => match structs.items.get(*index as usize) {
            Some(found) => found.complete && (0 < found.align && found.size <= MOST_BYTES),
            None => false,
        },
        CType::Void => false,
    }
}
