//! The tags of bytes by the leaves of a type.
ghost use Rattle.std.specs.Prelude.{◌≡◌, ◌≤◌, IfOk};
ghost use Rattle.memory_model.specs.Memory.ScalarSizes.{class_bytes};
ghost use Rattle.memory_model.specs.Memory.Tags.{stride_tag, leaf_tag, tag_at};
ghost use Rattle.memory_model.specs.Effects.ObjectEffects.{blank_bytes};
ghost use Rattle.interp_memory.specs.ByteViews.{tag_view, bytes_view};

use crate::byte_forms::{Byte7, Content7};
use c_layout::{Class, Leaf, Model};
use std::alloc::{AllocError, Global};

/// The size in bytes of a scalar of a class under a model.
pub fn class_size(model: &Model, class: Class) -> u8
    ensures size { result ≡ class_bytes model.now class }
    ensures most { result ≤ 8 }
{
    match class {
        Class::Char => 1,
        Class::Short => 2,
        Class::Int => { if model.int == 2 { 2 } else { 4 } }
        Class::Long => { if model.long == 4 { 4 } else { 8 } }
        Class::LongLong => 8,
        Class::Pointer => { if model.pointer == 4 { 4 } else { 8 } }
    }
}

/// The tag of the byte at an offset of a leaf, where the leaf has a scalar there.
fn tag_in_leaf(model: &Model, leaf: &Leaf, offset: u64) -> Option<(Class, u8)>
    ensures { tag_view result ≡ leaf_tag model.now leaf.now offset }
{
    if offset < leaf.offset {
        return None;
    }
    let distance = offset - leaf.offset;
    if leaf.stride == 0 {
        return tag_in_turn(model, leaf, 0, distance);
    }
    tag_in_turn(model, leaf, distance / leaf.stride, distance % leaf.stride)
}

/// The tag of a byte of one of a leaf's scalars, so far behind the scalar's start.
fn tag_in_turn(model: &Model, leaf: &Leaf, turn: u64, rest: u64) -> Option<(Class, u8)>
    ensures { tag_view result ≡ stride_tag model.now leaf.now turn rest }
{
    if turn < leaf.count && rest < u64::from(class_size(model, leaf.class)) {
        Some((leaf.class, rest as u8))
    } else {
        None
    }
}

/// The tag of the byte at an offset by the leaves of its object's type; padding has none.
pub fn tag_by_leaves(model: &Model, leaves: &[Leaf], offset: u64) -> Option<(Class, u8)>
    ensures { tag_view result ≡ tag_at model.now leaves.now offset }
{
    for leaf in leaves {
        let tag = tag_in_leaf(model, leaf, offset);
        if tag.is_some() {
            return tag;
        }
    }
    None
}

/// So many indeterminate bytes under the tags of a type's leaves.
pub(crate) fn blank(
    alloc: Global,
    model: &Model,
    leaves: &[Leaf],
    size: u64,
) -> Result<Vec<Byte7>, AllocError>
    ensures { IfOk result (λ bytes. bytes_view bytes.items ≡ blank_bytes model.now leaves.now 0 size) }
{
    let mut bytes = Vec::with_capacity(alloc, size as usize)?;
    for at in 0..size {
        bytes.push(Byte7 {
            content: Content7::Blank,
            tag: tag_by_leaves(model, leaves, at),
        })?;
    }
    Ok(bytes)
}
