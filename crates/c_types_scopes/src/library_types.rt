//! The types of the library's functions (7.4, 7.21, 7.22 and 7.24 of ISO/IEC 9899:2011), with
//! qualifiers dropped.
ghost use Rattle.std.specs.Prelude.{◌≡◌, IfOk, map};
ghost use Rattle.c_layout.specs.Types.{view, Pointer};
ghost use Rattle.c_types_scopes.specs.LibraryTypes as spec;

use crate::data_models::DataModel;
use c_layout::{CType, LibFn, Slot};
use c_types_rules::rules::{char_kind, int_kind, size_kind};
use std::alloc::{AllocError, Global};

/// A pointer to a type.
fn pointer_to(alloc: Global, target: CType) -> Result<CType, AllocError>
    ensures { IfOk result (λ t. view t ≡ Pointer (view target)) }
{
    Ok(CType::Pointer(Box::new(alloc, target)?))
}

/// The type of a slot; `stream` is the number of the struct that a stream points to.
fn slot_type(alloc: Global, model: &DataModel, slot: Slot, stream: u32) -> Result<CType, AllocError>
    ensures { IfOk result (λ t. view t ≡ spec.slot_type model.now.numbers stream slot) }
{
    match slot {
        Slot::Void => Ok(CType::Void),
        Slot::Int => Ok(CType::Int(int_kind(&model.numbers))),
        Slot::Size => Ok(CType::Int(size_kind(&model.numbers))),
        Slot::Text => pointer_to(alloc, CType::Int(char_kind(&model.numbers))),
        Slot::Memory => pointer_to(alloc, CType::Void),
        Slot::Stream => pointer_to(alloc, CType::Struct(stream)),
    }
}

/// The types of slots.
#[tactic(auto, unfolding(crate::specs::LibraryTypes::slot_types))]
fn slot_types(
    alloc: Global,
    model: &DataModel,
    slots: &[Slot],
    stream: u32,
) -> Result<Vec<CType>, AllocError>
    ensures { IfOk result (λ made. map view made.items ≡ spec.slot_types model.now.numbers stream slots.now) }
{
    let mut made = Vec::new(alloc);
    for slot in slots {
        made.push(slot_type(alloc, model, *slot, stream)?)?;
    }
    Ok(made)
}

/// The result and the parameters of a library function. `stream` is the number of the struct that
/// a stream points to.
pub fn library_signature(
    alloc: Global,
    model: &DataModel,
    function: LibFn,
    stream: u32,
) -> Result<(CType, Vec<CType>), AllocError>
    ensures result { IfOk result (λ made. view made.0 ≡ spec.library_result model.now.numbers stream function) }
    ensures parameters { IfOk result (λ made. map view made.1.items ≡ spec.library_parameters model.now.numbers stream function) }
{
    let signature = function.signature();
    let parameters = slot_types(alloc, model, signature.parameters, stream)?;
    let made = slot_type(alloc, model, signature.result, stream)?;
    Ok((made, parameters))
}
