//! Sizes and alignments of types.
ghost use Rattle.std.specs.Prelude.{◌≡◌, ◌≤◌, ◌<◌, true, IfOk};
ghost use Rattle.c_layout.specs.Types.{view};
ghost use Rattle.c_layout.specs.Models.{is_model};
ghost use Rattle.c_layout.specs.StructViews.{structs_view};
ghost use Rattle.c_layout.specs.Layout.{size_of_type, align_of_type, is_complete, most_bytes};

use crate::data_model::Model;
use crate::struct_table::Structs;
use crate::type_terms::CType;
use std::alloc::AllocError;

/// The size of a complete type in bytes, at most 1,073,741,824 (6.5.3.4 of ISO/IEC 9899:2011). The
/// structs that the type names are complete.
pub fn size_of(t: &CType, structs: &Structs, model: &Model) -> u64
    requires model { is_model model.now ≡ true }
    requires complete { is_complete (structs_view structs.now) model.now.pointer (view t.now) ≡ true }
    ensures size { result ≡ size_of_type (structs_view structs.now) model.now.pointer (view t.now) }
    ensures most { result ≤ most_bytes }
{
    match t {
        CType::Int(kind) => kind.bytes as u64,
        CType::Pointer(_) => model.pointer as u64,
        CType::Array(element, count) => *count * size_of(element, structs, model),
        CType::Struct(index) => structs.items[*index as usize].size,
        CType::Void => 0,
    }
}

/// The alignment of a complete type in bytes (6.2.8). Scalars are aligned to their size.
pub fn align_of(t: &CType, structs: &Structs, model: &Model) -> u64
    requires model { is_model model.now ≡ true }
    requires complete { is_complete (structs_view structs.now) model.now.pointer (view t.now) ≡ true }
    ensures align { result ≡ align_of_type (structs_view structs.now) model.now.pointer (view t.now) }
    ensures some { 0 < result }
{
    match t {
        CType::Int(kind) => kind.bytes as u64,
        CType::Pointer(_) => model.pointer as u64,
        CType::Array(element, _) => align_of(element, structs, model),
        CType::Struct(index) => structs.items[*index as usize].align,
        CType::Void => 1,
    }
}

/// The size of a type in bytes; one that no u64 holds comes to want of memory, since no complete
/// type has one.
pub fn type_bytes(t: &CType, structs: &Structs, pointer: u8) -> Result<u64, AllocError>
    ensures { IfOk result (λ n. n ≡ size_of_type (structs_view structs.now) pointer (view t.now)) }
{
    match t {
        CType::Int(kind) => Ok(kind.bytes as u64),
        CType::Pointer(_) => Ok(pointer as u64),
        CType::Array(element, count) => {
            let inner = type_bytes(element, structs, pointer)?;
            count.checked_mul(inner).ok_or(AllocError)
        }
        CType::Struct(index) => match structs.items.get(*index as usize) {
            Some(found) => Ok(found.size),
            None => Ok(0),
        },
        CType::Void => Ok(0),
    }
}
