//! The cells and first zeros of a base.
ghost use Rattle.std.specs.Prelude.{◌≡◌, IfOk, true, false};
ghost use Rattle.c_layout.specs.Types.{view};
ghost use Rattle.c_layout.specs.StructViews.{structs_view};
ghost use Rattle.c_layout.specs.Leaves.{leaves_of};
ghost use Rattle.lower_templates.specs.Worklist.Pieces.{target_view};
ghost use Rattle.lower_objects.specs.Shapes.HeapBases as spec;
ghost use Rattle.lower_objects.specs.Shapes.FirstZeros.{object_shape, zeros_of};

use crate::shapes::struct_zeros::{is_character, push_zeros};
use c_layout::{
    CType, Leaf, Leaves, Model, Shape, Structs, ZeroPart, ZeroParts, count_leaves, is_sound,
    is_whole, leaves,
};
use std::alloc::{AllocError, Global};

/// The most leaves of a type that stand at the start of a heap base.
const MOST_LEAVES: u64 = 64;

/// The leaves of a type; want of memory where it is not complete, since every object's type is.
fn leaves_of(
    alloc: Global,
    t: &CType,
    structs: &Structs,
    model: &Model,
) -> Result<Vec<Leaf>, AllocError>
    ensures { IfOk result (λ v. v.items ≡ leaves_of (structs_view structs.now) model.now.pointer (view t.now)) }
{
    if is_sound(model) {
        if is_whole(t, structs, model.pointer) {
            match leaves(alloc, t, structs, model) {
                Ok(found) => Ok(found),
                Err(_) => Err(AllocError),
            }
        } else {
            Err(AllocError)
        }
    } else {
        Err(AllocError)
    }
}

/// The arrays of characters of a type that lie in no folded array.
#[tactic(auto, unfolding(crate::specs::Shapes::FirstZeros::zeros_of))]
fn zeros_of(
    alloc: Global,
    t: &CType,
    structs: &Structs,
    model: &Model,
) -> Result<Vec<ZeroPart>, AllocError>
    ensures { IfOk result (λ v. v.items ≡ zeros_of (structs_view structs.now) model.now.pointer (view t.now)) }
{
    let mut zeros = Vec::new(alloc);
    let depth = u32::try_from(structs.items.len())
        .ok()
        .and_then(|n| n.checked_add(1))
        .ok_or(AllocError)?;
    push_zeros(&mut zeros, depth, structs, model.pointer, t, 0)?;
    Ok(zeros)
}

/// The shape of an object: its leaves, and a first-zero part for each of its arrays of characters that
/// lies in no folded array.
pub fn object_shape(
    alloc: Global,
    t: &CType,
    structs: &Structs,
    model: &Model,
) -> Result<Shape, AllocError>
    ensures { IfOk result (λ s. s ≡ object_shape (structs_view structs.now) model.now.pointer (view t.now)) }
{
    let cells = leaves_of(alloc, t, structs, model)?;
    let zeros = zeros_of(alloc, t, structs, model)?;
    Ok(Shape {
        cells: Leaves::from_vec(cells),
        zeros: ZeroParts::from_vec(zeros),
        heap: false,
    })
}

/// Whether each leaf stands once.
fn are_single(found: &[Leaf]) -> bool
    ensures { result ≡ spec.are_single found.now }
{
    for leaf in found {
        if leaf.count != 1 {
            return false;
        }
    }
    true
}

/// The leaves, if none of them is folded.
fn unfolded(alloc: Global, found: Vec<Leaf>) -> Vec<Leaf>
    ensures { result.items ≡ spec.unfolded found.items }
{
    if are_single(found.as_slice()) {
        found
    } else {
        Vec::new(alloc)
    }
}

/// The leaves at the start of a heap base whose allocation is converted to a pointer to a type: none
/// for a character type, for one of more than 64 leaves, and where one of them is folded.
fn typed_leaves(
    alloc: Global,
    t: &CType,
    structs: &Structs,
    model: &Model,
) -> Result<Vec<Leaf>, AllocError>
    ensures { IfOk result (λ v. v.items ≡ spec.typed_leaves (structs_view structs.now) model.now.pointer (view t.now)) }
{
    if is_character(t) {
        Ok(Vec::new(alloc))
    } else if MOST_LEAVES < count_leaves(t, structs)? {
        Ok(Vec::new(alloc))
    } else {
        Ok(unfolded(alloc, leaves_of(alloc, t, structs, model)?))
    }
}

/// The leaves at the start of a heap base: those of the type to whose pointer the allocation is
/// converted at once, where it is.
pub fn heap_leaves(
    alloc: Global,
    target: Option<&CType>,
    structs: &Structs,
    model: &Model,
) -> Result<Vec<Leaf>, AllocError>
    ensures { IfOk result (λ v. v.items ≡ spec.heap_leaves (structs_view structs.now) model.now.pointer (target_view target.entry)) }
{
    match target {
        Some(t) => typed_leaves(alloc, t, structs, model),
        None => Ok(Vec::new(alloc)),
    }
}

/// The shape of a heap base.
pub fn heap_shape(
    alloc: Global,
    target: Option<&CType>,
    structs: &Structs,
    model: &Model,
) -> Result<Shape, AllocError>
    ensures { IfOk result (λ s. s ≡ spec.heap_shape (structs_view structs.now) model.now.pointer (target_view target.entry)) }
{
    let cells = heap_leaves(alloc, target, structs, model)?;
    let mut zeros = Vec::new(alloc);
    zeros.push(ZeroPart {
        offset: 0,
        size: None,
    })?;
    Ok(Shape {
        cells: Leaves::from_vec(cells),
        zeros: ZeroParts::from_vec(zeros),
        heap: true,
    })
}
