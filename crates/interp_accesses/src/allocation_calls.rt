//! `malloc`, `calloc`, `realloc` and `free` (7.22.3 of ISO/IEC 9899:2011).
ghost use Rattle.std.specs.Prelude.{◌≡◌, ◌&&◌, pos, nat_le, true, [], ◌∷◌, map};
ghost use Rattle.std.specs.Ordering.{int_eq};
ghost use Rattle.c_layout.specs.Models.{is_model};
ghost use Rattle.memory_model.specs.Memory.Labels.{no_labels};
ghost use Rattle.memory_model.specs.Memory.Bytes.{into, number};
ghost use Rattle.memory_model.specs.Memory.Scalars.{pointer};
ghost use Rattle.memory_model.specs.Effects.Worlds.{done};
ghost use Rattle.interp_memory.specs.InstanceViews.{life_view};
ghost use Rattle.memory_model.specs.Effects.LibraryChecks as checks;
ghost use Rattle.memory_model.specs.Effects.AllocationCalls as machine;
ghost use Rattle.interp_memory.specs.ByteViews.{content_view, pointer_view, scalar_view};
ghost use Rattle.interp_accesses.specs.WorldViews.{world_view, ComesTo, nothing_view};
ghost use Rattle.interp_accesses.specs.Allocations.{filled_allocation};

use crate::library_checks::{most_size, with_size};
use crate::worlds::{Cause, Halt, World7};
use c_layout::Model;
use cc_base::Rule;
use interp_memory::{Content7, InstKind, InstState, Pointer7, Value7, unlabelled};

// ---- what may be given back

// Whether a place is the start of an allocated instance.
fn is_start(w: &World7, inst: u32, offset: u64) -> bool
    ensures { result ≡ machine.is_start w.now.memory.memory inst offset }
{
    w.memory.is_allocated(inst) && offset == 0
}

/// Whether a pointer may be given back: a null pointer, or the start of allocated memory that was not
/// freed.
pub fn freeable(w: &mut World7, p: Pointer7) -> Result<(), Halt>
    ensures { ComesTo nothing_view (machine.freeable (pointer_view p) (world_view w.old)) result (world_view w.new) }
{
    match p {
        Pointer7::Null => Ok(()),
        Pointer7::At { inst, off, .. } => {
            let state = w.memory.state(inst);
            freeable_by(w, state, inst, off)
        }
    }
}

// The same by the life of the instance.
fn freeable_by(w: &mut World7, state: InstState, inst: u32, offset: u64) -> Result<(), Halt>
    ensures { ComesTo nothing_view (machine.freeable_by (world_view w.old) (life_view state) inst offset (done (world_view w.old))) result (world_view w.new) }
{
    match state {
        InstState::Freed => Err(w.stopped_by(Rule::Dblfree)),
        InstState::Ended => Err(w.stopped_by(Rule::Xfree)),
        InstState::Live => {
            if is_start(w, inst, offset) {
                Ok(())
            } else {
                Err(w.stopped_by(Rule::Xfree))
            }
        }
    }
}

/// Gives the memory back to which a pointer points.
pub fn give_back(w: &mut World7, p: Pointer7)
    ensures { world_view w.new ≡ machine.given_back (pointer_view p) (world_view w.old) }
{
    match p {
        Pointer7::Null => {}
        Pointer7::At { inst, .. } => w.memory.free(inst),
    }
}

// `free` of a pointer.
fn free_pointer(w: &mut World7, p: Pointer7) -> Result<(), Halt>
    ensures { ComesTo nothing_view (machine.free (pointer (pointer_view p) ∷ []) (world_view w.old)) result (world_view w.new) }
{
    freeable(w, p)?;
    give_back(w, p);
    Ok(())
}

/// `free`.
pub fn free(w: &mut World7, arguments: &[Value7]) -> Result<(), Halt>
    ensures { ComesTo nothing_view (machine.free (map scalar_view arguments.now) (world_view w.old)) result (world_view w.new) }
{
    match arguments {
        [Value7::Ptr(p)] => free_pointer(w, *p),
        _ => Err(Halt::Stops(Cause::Stuck)),
    }
}

// ---- what is made

/// A live instance of so many bytes of a content and without a type, and the pointer to it.
pub fn make(w: &mut World7, content: Content7, size: u64) -> Result<Value7, Halt>
    ensures { ComesTo scalar_view (machine.allocated_with (machine.untyped (content_view content) size) (world_view w.old)) result (world_view w.new) }
{
    if w.memory.count() >= 4294967295 {
        return Err(Halt::Memory);
    }
    match w.memory.enter(InstKind::Heap, &[], size) {
        Ok(inst) => {
            w.memory.fill(inst, content);
            Ok(whole_of(inst, size))
        }
        Err(_) => Err(Halt::Memory),
    }
}

// A pointer into the whole of an instance.
fn whole_of(inst: u32, size: u64) -> Value7
    ensures { scalar_view result ≡ pointer (into inst 0 0 size) }
{
    Value7::Ptr(Pointer7::At {
        inst,
        off: 0,
        lo: 0,
        hi: size,
    })
}

/// The same where there is memory; a size that no u64 holds comes to want of memory, since so much is
/// never given.
fn make_if(w: &mut World7, given: bool, content: Content7, size: u128) -> Result<Value7, Halt>
    ensures { ComesTo scalar_view (machine.if_given given (machine.allocated_with (machine.untyped (content_view content) size)) (world_view w.old)) result (world_view w.new) }
{
    if !given {
        return Ok(Value7::Ptr(Pointer7::Null));
    }
    match u64::try_from(size) {
        Ok(size) => make(w, content, size),
        Err(_) => Err(Halt::Memory),
    }
}

/// Whether an object that an allocation is for has more bytes.
pub fn too_small(wanted: Option<u64>, size: u128) -> bool
    ensures { result ≡ machine.too_small wanted size }
{
    match wanted {
        None => false,
        Some(wanted) => size < u128::from(wanted),
    }
}

/// Whether the outside, which has answered, gives so many bytes.
pub fn is_given(answer: i128, model: &Model, size: u128) -> bool
    requires { is_model model.now ≡ true }
    ensures { result ≡ (int_eq answer (pos 1) && nat_le size (checks.most_size model.now)) }
{
    answer == 1 && size <= most_size(model)
}

// An allocation of so many bytes of a content.
fn allocate_filled(
    w: &mut World7,
    model: &Model,
    wanted: Option<u64>,
    content: Content7,
    size: u128,
) -> Result<Value7, Halt>
    requires { is_model model.now ≡ true }
    ensures { ComesTo scalar_view (filled_allocation model.now wanted (content_view content) size (world_view w.old)) result (world_view w.new) }
{
    w.note(too_small(wanted, size), Rule::Insufmem)?;
    let answer = w.draw(0, 1)?;
    make_if(w, is_given(answer, model, size), content, size)
}

/// `malloc`, whose result is converted at once to a pointer to an object of so many bytes.
pub fn malloc(
    w: &mut World7,
    model: &Model,
    wanted: Option<u64>,
    arguments: &[Value7],
) -> Result<Value7, Halt>
    requires { is_model model.now ≡ true }
    ensures { ComesTo scalar_view (machine.malloc model.now wanted (map scalar_view arguments.now) (world_view w.old)) result (world_view w.new) }
{
    match arguments {
        [Value7::Int(number, labels)] => {
            with_size(w, *labels)?;
            allocate_filled(w, model, wanted, Content7::Blank, number.unsigned_abs())
        }
        _ => Err(Halt::Stops(Cause::Stuck)),
    }
}

/// `calloc`, whose result is converted at once to a pointer to an object of so many bytes. A product
/// that no u128 holds comes to want of memory, since no two sizes have it.
pub fn calloc(
    w: &mut World7,
    model: &Model,
    wanted: Option<u64>,
    arguments: &[Value7],
) -> Result<Value7, Halt>
    requires { is_model model.now ≡ true }
    ensures { ComesTo scalar_view (machine.calloc model.now wanted (map scalar_view arguments.now) (world_view w.old)) result (world_view w.new) }
{
    match arguments {
        [
            Value7::Int(count, count_labels),
            Value7::Int(size, size_labels),
        ] => {
            with_size(w, *count_labels)?;
            with_size(w, *size_labels)?;
            match count.unsigned_abs().checked_mul(size.unsigned_abs()) {
                Some(bytes) => allocate_filled(w, model, wanted, zero(), bytes),
                None => Err(Halt::Memory),
            }
        }
        _ => Err(Halt::Stops(Cause::Stuck)),
    }
}

// The number 0 as a byte.
fn zero() -> Content7
    ensures { content_view result ≡ number 0 no_labels }
{
    Content7::Number(0, unlabelled())
}
