//! `realloc` (7.22.3.5 of ISO/IEC 9899:2011).
ghost use Rattle.std.specs.Prelude.{◌≡◌, true, map, IfOk, take};
ghost use Rattle.c_layout.specs.Models.{is_model};
ghost use Rattle.memory_model.specs.Memory.Instances.{bytes_at};
ghost use Rattle.memory_model.specs.Effects.Worlds.{with_memory};
ghost use Rattle.memory_model.specs.Effects.ScalarBytes.{replaced};
ghost use Rattle.memory_model.specs.Effects.Touches.{set_bytes};
ghost use Rattle.memory_model.specs.Effects.AllocationCalls as machine;
ghost use Rattle.interp_memory.specs.ByteViews.{bytes_view, pointer_view, scalar_view};
ghost use Rattle.interp_library.specs.Memory.Regions.{instance_at};
ghost use Rattle.interp_accesses.specs.WorldViews.{world_view, ComesTo, Leaves};

use c_layout::Model;
use cc_base::Rule;
use interp_accesses::{
    Cause, Halt, World7, freeable, give_back, is_given, make, too_small, with_size,
};
use interp_memory::{Byte7, Content7, Pointer7, Spot, Value7};
use std::alloc::AllocError;

// The bytes of an old instance that a new one of so many bytes takes.
fn common_bytes(w: &World7, p: Pointer7, size: u64) -> Result<Vec<Byte7>, AllocError>
    ensures { IfOk result (λ all. bytes_view all.items ≡ take size (machine.old_bytes w.now.memory.memory (pointer_view p))) }
{
    let mut all = Vec::new(w.alloc);
    match p {
        Pointer7::Null => {}
        Pointer7::At { inst, .. } => {
            all.extend_from_slice(w.memory.region(Spot { inst, offset: 0 }, size))?;
        }
    }
    Ok(all)
}

// A new instance with the bytes of an old one, as far as they reach, and indeterminate ones behind them.
fn make_with(w: &mut World7, size: u64, bytes: &[Byte7]) -> Result<Value7, Halt>
    ensures { ComesTo scalar_view (machine.allocated_with (machine.resized (bytes_view bytes.now) size) (world_view w.old)) result (world_view w.new) }
{
    if bytes.len() as u64 > size {
        return Err(Halt::Memory);
    }
    let made = make(w, Content7::Blank, size)?;
    match pointed(made) {
        Some(inst) => {
            fill_start(w, inst, bytes)?;
            Ok(made)
        }
        None => Err(Halt::Memory),
    }
}

// The instance into which a scalar points.
fn pointed(value: Value7) -> Option<u32>
    ensures { result ≡ instance_at (scalar_view value) }
{
    match value {
        Value7::Ptr(Pointer7::At { inst, .. }) => Some(inst),
        Value7::Ptr(Pointer7::Null) | Value7::Int(_, _) => None,
    }
}

// Writes bytes at the start of an instance. More than it has come to want of memory.
fn fill_start(w: &mut World7, inst: u32, bytes: &[Byte7]) -> Result<(), Halt>
    ensures { Leaves (with_memory (world_view w.old) (set_bytes w.old.memory.memory inst (replaced (bytes_at w.old.memory.memory inst) 0 (bytes_view bytes.now)))) result (world_view w.new) }
{
    if bytes.len() as u64 > w.memory.size(inst) {
        return Err(Halt::Memory);
    }
    w.memory.replace(Spot { inst, offset: 0 }, bytes);
    Ok(())
}

// An instance of another size.
fn move_to(w: &mut World7, size: u64, p: Pointer7) -> Result<Value7, Halt>
    ensures { ComesTo scalar_view (machine.moved_to size (pointer_view p) (world_view w.old)) result (world_view w.new) }
{
    match common_bytes(w, p, size) {
        Ok(bytes) => {
            give_back(w, p);
            make_with(w, size, &bytes)
        }
        Err(_) => Err(Halt::Memory),
    }
}

// The same where there is memory; a size that no u64 holds comes to want of memory, since so much is
// never given.
fn move_if(w: &mut World7, given: bool, size: u128, p: Pointer7) -> Result<Value7, Halt>
    ensures { ComesTo scalar_view (machine.if_given given (machine.moved_to size (pointer_view p)) (world_view w.old)) result (world_view w.new) }
{
    if !given {
        return Ok(Value7::Ptr(Pointer7::Null));
    }
    match u64::try_from(size) {
        Ok(size) => move_to(w, size, p),
        Err(_) => Err(Halt::Memory),
    }
}

// `realloc` of a pointer.
fn realloc_bytes(
    w: &mut World7,
    model: &Model,
    wanted: Option<u64>,
    p: Pointer7,
    size: u128,
) -> Result<Value7, Halt>
    requires { is_model model.now ≡ true }
    ensures { ComesTo scalar_view (machine.realloc_bytes model.now wanted (pointer_view p) size (world_view w.old)) result (world_view w.new) }
{
    w.note(too_small(wanted, size), Rule::Insufmem)?;
    freeable(w, p)?;
    let answer = w.draw(0, 1)?;
    move_if(w, is_given(answer, model, size), size, p)
}

/// `realloc`, whose result is converted at once to a pointer to an object of so many bytes.
pub fn realloc(
    w: &mut World7,
    model: &Model,
    wanted: Option<u64>,
    arguments: &[Value7],
) -> Result<Value7, Halt>
    requires { is_model model.now ≡ true }
    ensures { ComesTo scalar_view (machine.realloc model.now wanted (map scalar_view arguments.now) (world_view w.old)) result (world_view w.new) }
{
    match arguments {
        [Value7::Ptr(p), Value7::Int(size, labels)] => {
            with_size(w, *labels)?;
            realloc_bytes(w, model, wanted, *p, size.unsigned_abs())
        }
        _ => Err(Halt::Stops(Cause::Stuck)),
    }
}
