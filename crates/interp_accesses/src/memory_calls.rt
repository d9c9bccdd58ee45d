//! `memset` (7.24.6.1 of ISO/IEC 9899:2011).
ghost use Rattle.std.specs.Prelude.{◌≡◌, [], ◌∷◌, IfOk};
ghost use Rattle.std.proofs.Common.{replicate};
ghost use Rattle.memory_model.specs.Memory.Bytes as byte;
ghost use Rattle.memory_model.specs.Effects.ScalarBytes.{bits_in};
ghost use Rattle.memory_model.specs.Effects.MemoryCalls as machine;
ghost use Rattle.memory_model.specs.Effects.StructCopies as copies;
ghost use Rattle.interp_memory.specs.ByteViews.{labels_view, content_view, pointer_view, scalar_view};
ghost use Rattle.interp_memory.specs.AccessOutcomes.{spot_view};
ghost use Rattle.interp_accesses.specs.WorldViews.{world_view, ComesTo, Leaves};
ghost use Rattle.interp_accesses.specs.Reaches.{reach_view};

use crate::library_checks::{Reach, fitting, reached, with_size, writable};
use crate::worlds::{Cause, Halt, World7};
use interp_memory::{Content7, LabelSet, Pointer7, Spot, Value7};
use std::alloc::{AllocError, Global};

// The low byte of a number, with its labels.
fn low_byte(number: i128, labels: LabelSet) -> Content7
    ensures { content_view result ≡ byte.number (bits_in 1 number) (labels_view labels) }
{
    Content7::Number(number.rem_euclid(256) as u8, labels)
}

/// Whether two regions have a byte in common.
pub fn overlap(p: Spot, size: u64, q: Spot, room: u64) -> bool
    ensures { result ≡ copies.overlap (spot_view p) size (spot_view q) room }
{
    p.inst == q.inst
        && u128::from(q.offset) < u128::from(p.offset) + u128::from(size)
        && u128::from(p.offset) < u128::from(q.offset) + u128::from(room)
}

/// So many times the same content.
pub fn repeated(alloc: Global, count: usize, content: Content7) -> Result<Vec<Content7>, AllocError>
    ensures { IfOk result (λ all. all.items ≡ replicate count content) }
{
    let mut all = Vec::with_capacity(alloc, count)?;
    all.resize(count, content)?;
    Ok(all)
}

// Writes a content into so many bytes.
fn write_all(w: &mut World7, to: Reach, content: Content7, size: u64) -> Result<(), Halt>
    ensures { Leaves (machine.with_contents (world_view w.old) (reach_view to) (replicate size (content_view content))) result (world_view w.new) }
{
    match repeated(w.alloc, size as usize, content) {
        Ok(contents) => {
            w.memory.rewrite(to.spot, &contents);
            Ok(())
        }
        Err(_) => Err(Halt::Memory),
    }
}

// Fills so many bytes behind a pointer with a content.
fn fill_memory(w: &mut World7, p: Pointer7, content: Content7, size: u128) -> Result<Value7, Halt>
    ensures { ComesTo scalar_view (machine.fill_memory (pointer_view p) (content_view content) size (world_view w.old)) result (world_view w.new) }
{
    let to = reached(w, p)?;
    fitting(w, size, to)?;
    writable(w, size, to)?;
    match u64::try_from(size) {
        Ok(size) => {
            write_all(w, to, content, size)?;
            Ok(Value7::Ptr(p))
        }
        Err(_) => Err(Halt::Memory),
    }
}

/// `memset`.
pub fn memset(w: &mut World7, to: Value7, character: Value7, size: Value7) -> Result<Value7, Halt>
    ensures { ComesTo scalar_view (machine.memset (scalar_view to ∷ (scalar_view character ∷ (scalar_view size ∷ []))) (world_view w.old)) result (world_view w.new) }
{
    match (to, character, size) {
        (Value7::Ptr(p), Value7::Int(number, labels), Value7::Int(count, count_labels)) => {
            with_size(w, count_labels)?;
            fill_memory(w, p, low_byte(number, labels), count.unsigned_abs())
        }
        (Value7::Ptr(_), Value7::Int(_, _), Value7::Ptr(_)) => Err(Halt::Stops(Cause::Stuck)),
        (Value7::Ptr(_), Value7::Ptr(_), _) => Err(Halt::Stops(Cause::Stuck)),
        (Value7::Int(_, _), _, _) => Err(Halt::Stops(Cause::Stuck)),
    }
}
