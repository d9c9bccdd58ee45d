//! `strncpy` (7.24.2.4 of ISO/IEC 9899:2011).
ghost use Rattle.std.specs.Prelude.{◌≡◌, [], ◌∷◌, IfOk};
ghost use Rattle.memory_model.specs.Memory.Labels.{no_labels};
ghost use Rattle.memory_model.specs.Memory.Bytes.{number};
ghost use Rattle.memory_model.specs.Effects.ScalarBytes.{contents};
ghost use Rattle.memory_model.specs.Effects.LibraryChecks.{bytes_from};
ghost use Rattle.memory_model.specs.Effects.StringCalls as machine;
ghost use Rattle.interp_memory.specs.ByteViews.{content_view, contents_view, pointer_view, scalar_view};
ghost use Rattle.interp_accesses.specs.WorldViews.{world_view, ComesTo};
ghost use Rattle.interp_accesses.specs.Reaches.{reach_view};

use crate::strings::copies::{text_at, with_zero, written};
use interp_accesses::{
    Cause, Halt, Reach, World7, fitting, length_within, reached, repeated, with_size, writable,
};
use interp_memory::{Content7, Pointer7, Value7, unlabelled};
use std::alloc::AllocError;

// The number 0 as a byte.
fn zero() -> Content7
    ensures { content_view result ≡ number 0 no_labels }
{
    Content7::Number(0, unlabelled())
}

// So many characters that a pointer reaches, and zeros behind them.
fn padded(w: &World7, from: Reach, characters: u64, size: u64) -> Result<Vec<Content7>, AllocError>
    ensures { IfOk result (λ text. contents_view text.items ≡ machine.padded (contents (bytes_from (world_view w.now) (reach_view from) characters)) characters size) }
{
    let mut text = text_at(w, from, characters)?;
    let zeros = repeated(w.alloc, size.saturating_sub(characters) as usize, zero())?;
    text.extend_from_slice(&zeros)?;
    Ok(text)
}

// Writes a text of so many bytes, unless there is none.
fn fill_padded(
    w: &mut World7,
    p: Pointer7,
    size: u64,
    characters: u64,
    to: Reach,
    from: Reach,
) -> Result<Value7, Halt>
    ensures { ComesTo scalar_view (machine.fill_padded (pointer_view p) size characters (reach_view to) (reach_view from) (world_view w.old)) result (world_view w.new) }
{
    if size == 0 {
        return Ok(Value7::Ptr(p));
    }
    let count = with_zero(characters)?;
    match padded(w, from, characters, size) {
        Ok(text) => written(w, to, size, from, size.min(count), &text, Value7::Ptr(p)),
        Err(_) => Err(Halt::Memory),
    }
}

// `strncpy` of two pointers.
fn copy_padded(w: &mut World7, p: Pointer7, q: Pointer7, size: u128) -> Result<Value7, Halt>
    ensures { ComesTo scalar_view (machine.copy_padded (pointer_view p) (pointer_view q) size (world_view w.old)) result (world_view w.new) }
{
    let to = reached(w, p)?;
    let from = reached(w, q)?;
    let characters = length_within(w, size, from)?;
    fitting(w, size, to)?;
    writable(w, size, to)?;
    match u64::try_from(size) {
        Ok(size) => fill_padded(w, p, size, characters, to, from),
        Err(_) => Err(Halt::Memory),
    }
}

/// `strncpy`.
pub fn strncpy(w: &mut World7, to: Value7, from: Value7, size: Value7) -> Result<Value7, Halt>
    ensures { ComesTo scalar_view (machine.strncpy (scalar_view to ∷ (scalar_view from ∷ (scalar_view size ∷ []))) (world_view w.old)) result (world_view w.new) }
{
    match (to, from, size) {
        (Value7::Ptr(p), Value7::Ptr(q), Value7::Int(count, labels)) => {
            with_size(w, labels)?;
            copy_padded(w, p, q, count.unsigned_abs())
        }
        (Value7::Ptr(_), Value7::Ptr(_), Value7::Ptr(_)) => Err(Halt::Stops(Cause::Stuck)),
        (Value7::Ptr(_), Value7::Int(_, _), _) => Err(Halt::Stops(Cause::Stuck)),
        (Value7::Int(_, _), _, _) => Err(Halt::Stops(Cause::Stuck)),
    }
}
