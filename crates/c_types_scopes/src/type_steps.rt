//! Types from declarators (6.7.6 of ISO/IEC 9899:2011).
ghost use Rattle.std.specs.Prelude.{◌≡◌, IfOk, option_map};
ghost use Rattle.c_layout.specs.Types.{view};
ghost use Rattle.c_layout.specs.StructViews.{structs_view};
ghost use Rattle.c_types_scopes.specs.TypeSteps as spec;

use c_layout::{CType, Structs};
use c_types_rules::rules::size_if_complete;
use std::alloc::{AllocError, Global};

/// A step from a type to the one that a declarator makes of it.
#[derive(Clone, Copy, PartialEq, Eq, Debug)]
pub enum TypeStep {
    Pointer,
    /// An array of so many elements; 0 where the length is unknown.
    Array(u64),
}

/// The most bytes that a type may have.
const MOST_BYTES: u64 = 1_073_741_824;

/// Whether an array of so many elements of a type is not too large, and the type complete.
fn may_be_element(element: &CType, count: u64, structs: &Structs, pointer: u8) -> bool
    ensures { result ≡ spec.may_be_element (structs_view structs.now) pointer (view element.now) count }
{
    match size_if_complete(element, structs, pointer) {
        Some(size) => match size.checked_mul(count) {
            Some(all) => all <= MOST_BYTES,
            None => false,
        },
        None => false,
    }
}

/// An array of so many elements of a type, or none.
fn array_of(
    alloc: Global,
    element: CType,
    count: u64,
    structs: &Structs,
    pointer: u8,
) -> Result<Option<CType>, AllocError>
    ensures { IfOk result (λ t. option_map view t ≡ spec.array_of (structs_view structs.now) pointer (view element) count) }
{
    if may_be_element(&element, count, structs, pointer) {
        Ok(Some(CType::Array(Box::new(alloc, element)?, count)))
    } else {
        Ok(None)
    }
}

/// The type that a step makes of a type, or none.
fn step_of(
    alloc: Global,
    base: CType,
    step: TypeStep,
    structs: &Structs,
    pointer: u8,
) -> Result<Option<CType>, AllocError>
    ensures { IfOk result (λ t. option_map view t ≡ spec.step_of (structs_view structs.now) pointer (view base) step) }
{
    match step {
        TypeStep::Pointer => Ok(Some(CType::Pointer(Box::new(alloc, base)?))),
        TypeStep::Array(count) => array_of(alloc, base, count, structs, pointer),
    }
}

/// The type that a declarator makes, its steps read from the name outwards; None where an element
/// is not complete, or the type too large.
#[tactic(auto, using(crate::proofs::Steps::one_more, crate::proofs::Steps::none_at), unfolding(crate::specs::TypeSteps::stepped))]
pub fn stepped(
    alloc: Global,
    base: CType,
    steps: &[TypeStep],
    structs: &Structs,
    pointer: u8,
) -> Result<Option<CType>, AllocError>
    ensures { IfOk result (λ t. option_map view t ≡ spec.stepped (structs_view structs.now) pointer (view base) steps.now) }
{
    let mut made = base;
    for turn in 0..steps.len() {
        let step = steps[steps.len() - 1 - turn];
        match step_of(alloc, made, step, structs, pointer)? {
            Some(next) => made = next,
            None => return Ok(None),
        }
    }
    Ok(Some(made))
}
