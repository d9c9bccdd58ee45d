//! Copies of structs (6.5.16.1 of ISO/IEC 9899:2011), byte by byte.
ghost use Rattle.std.specs.Prelude.{◌≡◌, IfOk, option_map};
ghost use Rattle.memory_model.specs.Effects.StructCopies as machine;
ghost use Rattle.interp_memory.specs.ByteViews.{byte_view, bytes_view, content_view, pointer_view, scalar_view, tag_view};
ghost use Rattle.interp_memory.specs.AccessOutcomes.{spot_view};
ghost use Rattle.interp_accesses.specs.WorldViews.{world_view, ComesTo};
ghost use Rattle.interp_library.specs.Memory.Regions.{copied_byte, copied_region};

use crate::memory::region_writes::{byte_at, write_at};
use c_layout::{Class, Leaf, Model};
use interp_accesses::{Cause, Halt, World7, overlap, touched};
use interp_memory::{Byte7, Content7, Pointer7, Spot, Value7, fits, tag_by_leaves};
use std::alloc::{AllocError, Global};

// Whether a byte may be seen as that of a scalar of the struct's type.
fn fits_leaf(allocated: bool, tag: Option<(Class, u8)>, byte: Byte7) -> bool
    ensures { result ≡ machine.fits_leaf allocated (tag_view tag) (byte_view byte) }
{
    match tag {
        None => true,
        Some((class, at)) => class == Class::Char || fits(allocated, class, at, byte.tag),
    }
}

// Whether the bytes of one side may be seen as those of the struct's type.
fn fit_type(model: &Model, leaves: &[Leaf], allocated: bool, bytes: &[Byte7]) -> bool
    ensures { result ≡ machine.fit_type model.now leaves.now allocated 0 (bytes_view bytes.now) }
{
    for (k, byte) in bytes.iter().enumerate() {
        if !fits_leaf(allocated, tag_by_leaves(model, leaves, k as u64), *byte) {
            return false;
        }
    }
    true
}

// Whether a part of a pointer may be copied to a byte of the struct's type.
fn may_be_copied(content: Content7, tag: Option<(Class, u8)>) -> bool
    ensures { result ≡ machine.may_be_copied (content_view content) (tag_view tag) }
{
    match (content, tag) {
        (Content7::Part(_, _), Some((class, _))) => class == Class::Pointer,
        (Content7::Part(_, _), None) => false,
        (Content7::Blank, _) | (Content7::Number(_, _), _) => true,
    }
}

// Whether no part of a pointer lies where the struct has no pointer.
fn keeps_parts(model: &Model, leaves: &[Leaf], bytes: &[Byte7]) -> bool
    ensures { result ≡ machine.keeps_parts model.now leaves.now 0 (bytes_view bytes.now) }
{
    for (k, byte) in bytes.iter().enumerate() {
        if !may_be_copied(byte.content, tag_by_leaves(model, leaves, k as u64)) {
            return false;
        }
    }
    true
}

// The tag of a byte behind a copy.
fn copied_tag(
    allocated: bool,
    by: Option<(Class, u8)>,
    old: Option<(Class, u8)>,
) -> Option<(Class, u8)>
    ensures { tag_view result ≡ machine.copied_tag allocated (tag_view by) (tag_view old) }
{
    if !allocated {
        return old;
    }
    match by {
        Some(tag) => Some(tag),
        None => old,
    }
}

// The bytes of a place behind a copy.
fn copied(
    w: &World7,
    model: &Model,
    leaves: &[Leaf],
    size: u64,
    to: Spot,
    from: Spot,
) -> Result<Vec<Byte7>, AllocError>
    ensures { IfOk result (λ all. bytes_view all.items ≡ copied_region model.now leaves.now size (world_view w.now) (spot_view to) (spot_view from)) }
{
    let allocated = w.memory.is_allocated(to.inst);
    let tos = w.memory.region(to, size);
    let froms = w.memory.region(from, size);
    copied_over(w.alloc, model, leaves, allocated, tos, froms)
}

// Bytes with the contents of others and the tags that they have behind a copy.
fn copied_over(
    alloc: Global,
    model: &Model,
    leaves: &[Leaf],
    allocated: bool,
    tos: &[Byte7],
    froms: &[Byte7],
) -> Result<Vec<Byte7>, AllocError>
    ensures { IfOk result (λ all. bytes_view all.items ≡ machine.copied model.now leaves.now allocated 0 (bytes_view tos.now) (bytes_view froms.now)) }
{
    let mut all = Vec::new(alloc);
    for k in 0..tos.len() {
        let tag = tag_by_leaves(model, leaves, k as u64);
        all.push(copied_byte(allocated, tag, tos[k], byte_at(froms, k)))?;
    }
    Ok(all)
}

// A byte behind a copy, where there is one that is copied.
fn copied_byte(allocated: bool, by: Option<(Class, u8)>, to: Byte7, from: Option<Byte7>) -> Byte7
    ensures { byte_view result ≡ copied_byte allocated (tag_view by) (byte_view to) (option_map byte_view from) }
{
    match from {
        None => to,
        Some(from) => Byte7 {
            content: from.content,
            tag: copied_tag(allocated, by, to.tag),
        },
    }
}

// Whether two places are the same.
fn same_spot(p: Spot, q: Spot) -> bool
    ensures { result ≡ machine.same_spot (spot_view p) (spot_view q) }
{
    p.inst == q.inst && p.offset == q.offset
}

// Whether a struct may be copied between two places.
fn may_copy(w: &World7, model: &Model, leaves: &[Leaf], size: u64, to: Spot, from: Spot) -> bool
    ensures { result ≡ machine.may_copy model.now leaves.now size (world_view w.now) (spot_view to) (spot_view from) }
{
    let tos = w.memory.region(to, size);
    let froms = w.memory.region(from, size);
    let written = w.memory.is_allocated(to.inst) || fit_type(model, leaves, false, tos);
    let read = fit_type(model, leaves, w.memory.is_allocated(from.inst), froms);
    let apart = same_spot(to, from) || !overlap(to, size, from, size);
    written && (read && (apart && keeps_parts(model, leaves, froms)))
}

// Copies a struct between two places that may be touched.
fn copy_at(
    w: &mut World7,
    model: &Model,
    leaves: &[Leaf],
    size: u64,
    p: Pointer7,
    from: Spot,
    to: Spot,
) -> Result<Pointer7, Halt>
    ensures { ComesTo pointer_view (machine.copy_at model.now leaves.now size (pointer_view p) (spot_view from) (spot_view to) (world_view w.old)) result (world_view w.new) }
{
    if !may_copy(w, model, leaves, size, to, from) {
        return Err(Halt::Stops(Cause::Left));
    }
    match copied(w, model, leaves, size, to, from) {
        Ok(bytes) => {
            write_at(w, to, &bytes)?;
            Ok(p)
        }
        Err(_) => Err(Halt::Memory),
    }
}

// Copies a struct from where one pointer points to, which is touched first, to where another one does.
fn copy_between(
    w: &mut World7,
    model: &Model,
    leaves: &[Leaf],
    size: u64,
    p: Pointer7,
    q: Pointer7,
) -> Result<Pointer7, Halt>
    ensures { ComesTo pointer_view (machine.copy_between model.now leaves.now size (pointer_view p) (pointer_view q) (world_view w.old)) result (world_view w.new) }
{
    let from = touched(w, q, size, false)?;
    let to = touched(w, p, size, true)?;
    copy_at(w, model, leaves, size, p, from, to)
}

/// Copies a struct of a type by its leaves and size.
pub fn copy_struct(
    w: &mut World7,
    model: &Model,
    leaves: &[Leaf],
    size: u64,
    to: Value7,
    from: Value7,
) -> Result<Value7, Halt>
    ensures { ComesTo scalar_view (machine.copy_struct model.now leaves.now size (scalar_view to) (scalar_view from) (world_view w.old)) result (world_view w.new) }
{
    match (to, from) {
        (Value7::Ptr(p), Value7::Ptr(q)) => {
            Ok(Value7::Ptr(copy_between(w, model, leaves, size, p, q)?))
        }
        (Value7::Ptr(_), Value7::Int(_, _)) => Err(Halt::Stops(Cause::Stuck)),
        (Value7::Int(_, _), _) => Err(Halt::Stops(Cause::Stuck)),
    }
}
