//! `strcpy` and `strcat` (7.24.2.3 and 7.24.3.1 of ISO/IEC 9899:2011).
ghost use Rattle.std.specs.Prelude.{◌≡◌, ◌+◌, [], ◌∷◌, ℕ, IfOk};
ghost use Rattle.memory_model.specs.Memory.Scalars.{pointer};
ghost use Rattle.memory_model.specs.Effects.ScalarBytes.{contents};
ghost use Rattle.memory_model.specs.Effects.LibraryChecks.{bytes_from};
ghost use Rattle.memory_model.specs.Effects.StringCalls as machine;
ghost use Rattle.interp_memory.specs.ByteViews.{bytes_view, contents_view, pointer_view, scalar_view};
ghost use Rattle.interp_accesses.specs.WorldViews.{world_view, ComesTo, Computes};
ghost use Rattle.interp_accesses.specs.Reaches.{reach_view};

use interp_accesses::{
    Cause, Halt, Reach, World7, fitting, overlap, reached, string_length, writable,
};
use interp_memory::{Byte7, Content7, Pointer7, Spot, Value7};
use std::alloc::{AllocError, Global};

// The contents of bytes.
fn contents_of(alloc: Global, bytes: &[Byte7]) -> Result<Vec<Content7>, AllocError>
    ensures { IfOk result (λ text. contents_view text.items ≡ contents (bytes_view bytes.now)) }
{
    let mut text = Vec::with_capacity(alloc, bytes.len())?;
    for byte in bytes {
        text.push(byte.content)?;
    }
    Ok(text)
}

// The contents of the first bytes that a pointer reaches.
pub(crate) fn text_at(w: &World7, from: Reach, count: u64) -> Result<Vec<Content7>, AllocError>
    ensures { IfOk result (λ text. contents_view text.items ≡ contents (bytes_from (world_view w.now) (reach_view from) count)) }
{
    contents_of(w.alloc, w.memory.region(from.spot, count))
}

// Writes text where it does not overlap what was read.
pub(crate) fn written(
    w: &mut World7,
    to: Reach,
    size: u64,
    from: Reach,
    room: u64,
    text: &[Content7],
    outcome: Value7,
) -> Result<Value7, Halt>
    ensures { ComesTo scalar_view (machine.written (reach_view to) size (reach_view from) room (contents_view text.now) (scalar_view outcome) (world_view w.old)) result (world_view w.new) }
{
    if overlap(to.spot, size, from.spot, room) {
        return Err(Halt::Stops(Cause::Left));
    }
    w.memory.rewrite(to.spot, text);
    Ok(outcome)
}

// A number of characters with the zero behind them; so many are in no memory that no u64 holds them.
pub(crate) fn with_zero(characters: u64) -> Result<u64, Halt>
    ensures { Computes (λ (n : ℕ). n) (characters + 1) result }
{
    match characters.checked_add(1) {
        Some(count) => Ok(count),
        None => Err(Halt::Memory),
    }
}

// Copies a string with its zero.
fn copy_text(
    w: &mut World7,
    to: Reach,
    from: Reach,
    count: u64,
    p: Pointer7,
) -> Result<Value7, Halt>
    ensures { ComesTo scalar_view (machine.written (reach_view to) count (reach_view from) count (contents (bytes_from (world_view w.old) (reach_view from) count)) (pointer (pointer_view p)) (world_view w.old)) result (world_view w.new) }
{
    match text_at(w, from, count) {
        Ok(text) => written(w, to, count, from, count, &text, Value7::Ptr(p)),
        Err(_) => Err(Halt::Memory),
    }
}

// `strcpy` of two pointers.
fn copy_string(w: &mut World7, p: Pointer7, q: Pointer7) -> Result<Value7, Halt>
    ensures { ComesTo scalar_view (machine.copy_string (pointer_view p) (pointer_view q) (world_view w.old)) result (world_view w.new) }
{
    let to = reached(w, p)?;
    let from = reached(w, q)?;
    let length = string_length(w, from)?;
    let count = with_zero(length)?;
    fitting(w, u128::from(count), to)?;
    writable(w, u128::from(count), to)?;
    copy_text(w, to, from, count, p)
}

/// `strcpy`.
pub fn strcpy(w: &mut World7, to: Value7, from: Value7) -> Result<Value7, Halt>
    ensures { ComesTo scalar_view (machine.strcpy (scalar_view to ∷ (scalar_view from ∷ [])) (world_view w.old)) result (world_view w.new) }
{
    match (to, from) {
        (Value7::Ptr(p), Value7::Ptr(q)) => copy_string(w, p, q),
        (Value7::Ptr(_), Value7::Int(_, _)) => Err(Halt::Stops(Cause::Stuck)),
        (Value7::Int(_, _), _) => Err(Halt::Stops(Cause::Stuck)),
    }
}

// What a pointer reaches behind so many characters; a place that no u64 holds comes to want of memory,
// since no object has it.
fn further(reach: Reach, characters: u64) -> Result<Reach, Halt>
    ensures { Computes reach_view (machine.further (reach_view reach) characters) result }
{
    match reach.spot.offset.checked_add(characters) {
        Some(offset) => Ok(Reach {
            spot: Spot {
                inst: reach.spot.inst,
                offset,
            },
            room: reach.room.saturating_sub(characters),
        }),
        None => Err(Halt::Memory),
    }
}

// `strcat` of two pointers.
fn append_string(w: &mut World7, p: Pointer7, q: Pointer7) -> Result<Value7, Halt>
    ensures { ComesTo scalar_view (machine.append_string (pointer_view p) (pointer_view q) (world_view w.old)) result (world_view w.new) }
{
    let to = reached(w, p)?;
    let from = reached(w, q)?;
    let before = string_length(w, to)?;
    let length = string_length(w, from)?;
    let size = u128::from(before) + u128::from(length) + 1;
    fitting(w, size, to)?;
    writable(w, size, to)?;
    let count = with_zero(length)?;
    let end = further(to, before)?;
    copy_text(w, end, from, count, p)
}

/// `strcat`.
pub fn strcat(w: &mut World7, to: Value7, from: Value7) -> Result<Value7, Halt>
    ensures { ComesTo scalar_view (machine.strcat (scalar_view to ∷ (scalar_view from ∷ [])) (world_view w.old)) result (world_view w.new) }
{
    match (to, from) {
        (Value7::Ptr(p), Value7::Ptr(q)) => append_string(w, p, q),
        (Value7::Ptr(_), Value7::Int(_, _)) => Err(Halt::Stops(Cause::Stuck)),
        (Value7::Int(_, _), _) => Err(Halt::Stops(Cause::Stuck)),
    }
}
