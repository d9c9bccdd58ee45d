//! The arrays of characters of a type.
ghost use Rattle.std.specs.Prelude.{◌≡◌, ◌+◌, ◌*◌, ◌++◌, IfOk, map};
ghost use Rattle.c_layout.specs.Types.{view};
ghost use Rattle.c_layout.specs.StructViews.{field_view, structs_view, struct_at};
ghost use Rattle.c_layout.specs.Layout.{size_of_type};
ghost use Rattle.lower_objects.specs.Shapes.HeapBases as heap;
ghost use Rattle.lower_objects.specs.Shapes.FirstZeros as spec;

use c_layout::{CType, Field, Structs, ZeroPart, type_bytes};
use std::alloc::AllocError;

/// The most elements of an array that is not folded.
const SHORT: u64 = 64;

/// Whether the type is one of characters.
pub fn is_character(t: &CType) -> bool
    ensures { result ≡ heap.is_character (view t.now) }
{
    match t {
        CType::Int(kind) => kind.rank == 1,
        CType::Pointer(_) => false,
        CType::Array(_, _) => false,
        CType::Struct(_) => false,
        CType::Void => false,
    }
}

/// Whether an array is one unit: it is folded, or one of characters.
fn is_unit(element: &CType, count: u64) -> bool
    ensures { result ≡ spec.is_unit (view element.now) count }
{
    if SHORT < count {
        true
    } else {
        is_character(element)
    }
}

fn members<'a>(structs: &'a Structs, index: u32) -> &'a [Field]
    ensures { map field_view result.now ≡ (struct_at (structs_view structs.now) index).fields }
{
    match structs.items.get(index as usize) {
        Some(found) => found.fields.as_slice(),
        None => &[],
    }
}

/// The type behind the arrays that are neither folded nor of characters.
fn unit_of(t: &CType) -> &CType
    ensures { view result.now ≡ spec.unit_of (view t.now) }
{
    match t {
        CType::Array(element, count) => {
            if is_unit(element, *count) {
                t
            } else {
                unit_of(element)
            }
        }
        CType::Int(_) | CType::Pointer(_) | CType::Struct(_) | CType::Void => t,
    }
}

/// A product; one that no u64 holds comes to want of memory, since no complete type has one.
fn times(a: u64, b: u64) -> Result<u64, AllocError>
    ensures { IfOk result (λ n. n ≡ a * b) }
{
    a.checked_mul(b).ok_or(AllocError)
}

/// A sum; one that no u64 holds comes to want of memory, since no complete type has one.
fn plus(a: u64, b: u64) -> Result<u64, AllocError>
    ensures { IfOk result (λ n. n ≡ a + b) }
{
    a.checked_add(b).ok_or(AllocError)
}

/// How many units those arrays have.
fn unit_count(t: &CType) -> Result<u64, AllocError>
    ensures { IfOk result (λ n. n ≡ spec.unit_count (view t.now)) }
{
    match t {
        CType::Array(element, count) => {
            if is_unit(element, *count) {
                Ok(1)
            } else {
                let inner = unit_count(element)?;
                Ok(times(*count, inner)?)
            }
        }
        CType::Int(_) | CType::Pointer(_) | CType::Struct(_) | CType::Void => Ok(1),
    }
}

/// The array of characters of so many elements.
fn zero_part(at: u64, size: u64) -> ZeroPart
    ensures { result ≡ spec.zero_part at size }
{
    ZeroPart {
        offset: at,
        size: Some(size),
    }
}

/// Adds the arrays of characters of a type that lie in no folded array, by offset. `depth` bounds how
/// deep structs hold one another.
#[cycle(zeros)]
#[tactic(auto, using(crate::proofs::shapes::Depths::zeros_at))]
pub fn push_zeros(
    out: &mut Vec<ZeroPart>,
    depth: u32,
    structs: &Structs,
    pointer: u8,
    t: &CType,
    at: u64,
) -> Result<(), AllocError>
    ensures { IfOk result (λ _. out.new.items ≡ out.old.items ++ spec.zeros_within depth (structs_view structs.now) pointer (view t.now) at) }
{
    if depth == 0 {
        return Ok(());
    }
    let unit = unit_of(t);
    let count = unit_count(t)?;
    let step = type_bytes(unit, structs, pointer)?;
    let mut from = at;
    for _turn in 0..count {
        push_unit(out, depth - 1, structs, pointer, unit, from)?;
        from = plus(from, step)?;
    }
    Ok(())
}

#[cycle(zeros)]
fn push_unit(
    out: &mut Vec<ZeroPart>,
    depth: u32,
    structs: &Structs,
    pointer: u8,
    t: &CType,
    at: u64,
) -> Result<(), AllocError>
    ensures { IfOk result (λ _. out.new.items ≡ out.old.items ++ spec.unit_zeros (structs_view structs.now) (spec.zeros_within depth (structs_view structs.now) pointer) (view t.now) at) }
{
    match t {
        CType::Array(element, count) => {
            if is_character(element) {
                Ok(out.push(zero_part(at, *count))?)
            } else {
                Ok(())
            }
        }
        CType::Struct(index) => push_fields(
            out,
            depth,
            structs,
            pointer,
            members(structs, *index),
            at,
        ),
        CType::Int(_) | CType::Pointer(_) | CType::Void => Ok(()),
    }
}

#[cycle(zeros)]
fn push_fields(
    out: &mut Vec<ZeroPart>,
    depth: u32,
    structs: &Structs,
    pointer: u8,
    fields: &[Field],
    at: u64,
) -> Result<(), AllocError>
    ensures { IfOk result (λ _. out.new.items ≡ out.old.items ++ spec.of_fields (map field_view fields.now) at (spec.zeros_within depth (structs_view structs.now) pointer)) }
{
    for index in 0..fields.len() {
        let field = &fields[index];
        let from = plus(at, field.offset)?;
        push_zeros(out, depth, structs, pointer, &field.ctype, from)?;
    }
    Ok(())
}
