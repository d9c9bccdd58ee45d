//! `memcpy` and `memmove` (7.24.2.1 and 7.24.2.2 of ISO/IEC 9899:2011).
ghost use Rattle.std.specs.Prelude.{◌≡◌, ◌||◌, IfOk, false, map, option_map};
ghost use Rattle.memory_model.specs.Effects.LibraryChecks.{bytes_from};
ghost use Rattle.memory_model.specs.Effects.Touches.{is_allocated, storage_at};
ghost use Rattle.memory_model.specs.Effects.MemoryCalls as machine;
ghost use Rattle.interp_memory.specs.ByteViews.{byte_view, bytes_view, content_view, pointer_view, scalar_view, tag_view};
ghost use Rattle.interp_accesses.specs.WorldViews.{world_view, ComesTo};
ghost use Rattle.interp_library.specs.Memory.Regions.{tagged_over};
ghost use Rattle.interp_accesses.specs.Reaches.{reach_view};

use crate::memory::region_writes::{byte_at, write_at};
use c_layout::Class;
use interp_accesses::{Cause, Halt, Reach, World7, fitting, overlap, reached, with_size, writable};
use interp_memory::{Byte7, Content7, Pointer7, Value7};
use std::alloc::{AllocError, Global};

// Whether a byte has the tag of a part of a pointer.
fn is_pointer_byte(tag: Option<(Class, u8)>, part: u8) -> bool
    ensures { result ≡ machine.is_pointer_byte (tag_view tag) part }
{
    match tag {
        None => false,
        Some((class, at)) => class == Class::Pointer && at == part,
    }
}

// A part of a pointer may come to a byte of a declared object only under its own tag.
fn may_come(content: Content7, tag: Option<(Class, u8)>) -> bool
    ensures { result ≡ machine.may_come (content_view content) (tag_view tag) }
{
    match content {
        Content7::Part(_, k) => is_pointer_byte(tag, k),
        Content7::Blank | Content7::Number(_, _) => true,
    }
}

// Whether all bytes may come to the place of others.
fn may_all_come(tos: &[Byte7], froms: &[Byte7]) -> bool
    ensures { result ≡ machine.may_all_come (bytes_view tos.now) (bytes_view froms.now) }
{
    let count = tos.len().min(froms.len());
    for k in 0..count {
        if !may_come(froms[k].content, tos[k].tag) {
            return false;
        }
    }
    true
}

// Bytes with the contents of others, under their own tags.
fn under_tags(alloc: Global, tos: &[Byte7], froms: &[Byte7]) -> Result<Vec<Byte7>, AllocError>
    ensures { IfOk result (λ all. bytes_view all.items ≡ machine.come_over false (bytes_view tos.now) (bytes_view froms.now)) }
{
    let mut all = Vec::new(alloc);
    for k in 0..tos.len() {
        all.push(under_tag(tos[k], byte_at(froms, k)))?;
    }
    Ok(all)
}

// A byte with the content of another one, where there is one.
fn under_tag(to: Byte7, from: Option<Byte7>) -> Byte7
    ensures { byte_view result ≡ tagged_over (byte_view to) (option_map byte_view from) }
{
    match from {
        None => to,
        Some(from) => Byte7 {
            content: from.content,
            tag: to.tag,
        },
    }
}

// The bytes that come to the place of others: an allocated object takes the tags too.
fn come_over(
    alloc: Global,
    allocated: bool,
    tos: &[Byte7],
    froms: &[Byte7],
) -> Result<Vec<Byte7>, AllocError>
    ensures { IfOk result (λ all. bytes_view all.items ≡ machine.come_over allocated (bytes_view tos.now) (bytes_view froms.now)) }
{
    if !allocated {
        return under_tags(alloc, tos, froms);
    }
    let mut all = Vec::new(alloc);
    all.extend_from_slice(froms)?;
    Ok(all)
}

// What the bytes behind one pointer are, where those behind another one come to their place.
fn region_over(w: &World7, to: Reach, from: Reach, size: u64) -> Result<Vec<Byte7>, AllocError>
    ensures { IfOk result (λ all. bytes_view all.items ≡ machine.come_over (is_allocated (storage_at w.now.memory.memory to.spot.inst)) (bytes_from (world_view w.now) (reach_view to) size) (bytes_from (world_view w.now) (reach_view from) size)) }
{
    let allocated = w.memory.is_allocated(to.spot.inst);
    come_over(
        w.alloc,
        allocated,
        w.memory.region(to.spot, size),
        w.memory.region(from.spot, size),
    )
}

// Whether the bytes behind one pointer may come to the place of those behind another one.
fn may_copy(w: &World7, to: Reach, from: Reach, size: u64) -> bool
    ensures { result ≡ (is_allocated (storage_at w.now.memory.memory to.spot.inst) || machine.may_all_come (bytes_from (world_view w.now) (reach_view to) size) (bytes_from (world_view w.now) (reach_view from) size)) }
{
    w.memory.is_allocated(to.spot.inst)
        || may_all_come(
            w.memory.region(to.spot, size),
            w.memory.region(from.spot, size),
        )
}

// Copies so many bytes, which may be written.
fn bytes_copied(
    w: &mut World7,
    size: u64,
    apart: bool,
    p: Pointer7,
    to: Reach,
    from: Reach,
) -> Result<Value7, Halt>
    ensures { ComesTo scalar_view (machine.bytes_copied size apart (pointer_view p) (reach_view to) (reach_view from) (world_view w.old)) result (world_view w.new) }
{
    if apart && overlap(to.spot, size, from.spot, size) && 0 < size {
        return Err(Halt::Stops(Cause::Left));
    }
    if !may_copy(w, to, from, size) {
        return Err(Halt::Stops(Cause::Left));
    }
    match region_over(w, to, from, size) {
        Ok(bytes) => {
            write_at(w, to.spot, &bytes)?;
            Ok(Value7::Ptr(p))
        }
        Err(_) => Err(Halt::Memory),
    }
}

// Copies so many bytes, behind all checks. So many that no u64 holds come to want of memory, since no
// pointer reaches so far.
fn copy_memory(
    w: &mut World7,
    apart: bool,
    p: Pointer7,
    q: Pointer7,
    size: u128,
) -> Result<Value7, Halt>
    ensures { ComesTo scalar_view (machine.copy_memory apart (pointer_view p) (pointer_view q) size (world_view w.old)) result (world_view w.new) }
{
    let to = reached(w, p)?;
    let from = reached(w, q)?;
    fitting(w, size, to)?;
    fitting(w, size, from)?;
    writable(w, size, to)?;
    match u64::try_from(size) {
        Ok(size) => bytes_copied(w, size, apart, p, to, from),
        Err(_) => Err(Halt::Memory),
    }
}

// A copy of regions, which may have to be apart.
fn copy_call(w: &mut World7, apart: bool, arguments: &[Value7]) -> Result<Value7, Halt>
    ensures { ComesTo scalar_view (machine.copy_call apart (map scalar_view arguments.now) (world_view w.old)) result (world_view w.new) }
{
    match arguments {
        [Value7::Ptr(p), Value7::Ptr(q), Value7::Int(size, labels)] => {
            with_size(w, *labels)?;
            copy_memory(w, apart, *p, *q, size.unsigned_abs())
        }
        _ => Err(Halt::Stops(Cause::Stuck)),
    }
}

/// `memcpy`.
pub fn memcpy(w: &mut World7, arguments: &[Value7]) -> Result<Value7, Halt>
    ensures { ComesTo scalar_view (machine.memcpy (map scalar_view arguments.now) (world_view w.old)) result (world_view w.new) }
{
    copy_call(w, true, arguments)
}

/// `memmove`.
pub fn memmove(w: &mut World7, arguments: &[Value7]) -> Result<Value7, Halt>
    ensures { ComesTo scalar_view (machine.memmove (map scalar_view arguments.now) (world_view w.old)) result (world_view w.new) }
{
    copy_call(w, false, arguments)
}
