//! Operators on pointers (6.3.2.1, 6.5.2.3, 6.5.6, 6.5.8 and 6.5.9 of ISO/IEC 9899:2011).
ghost use Rattle.std.specs.Prelude.{◌≡◌, ◌+◌, ◌<◌, ◌||◌, ℕ, ℤ, pos};
ghost use Rattle.cc_base.specs.MachineArithmetic.{holds};
ghost use Rattle.memory_model.specs.Memory.Labels.{no_labels};
ghost use Rattle.memory_model.specs.Memory.Scalars.{integer};
ghost use Rattle.memory_model.specs.Effects.Worlds.{World};
ghost use Rattle.memory_model.specs.Effects.PointerEffects as machine;
ghost use Rattle.memory_model.specs.Effects.Touches as touches;
ghost use Rattle.memory_model.specs.Effects.IntegerEffects.{truth};
ghost use Rattle.interp_memory.specs.ByteViews.{labels_view, pointer_view, scalar_view};
ghost use Rattle.interp_memory.specs.AccessOutcomes.{spot_view};
ghost use Rattle.interp_accesses.specs.WorldViews.{world_view, ComesTo, Computes};

use crate::library_checks::with_size;
use crate::worlds::{Cause, Halt, World7};
use cc_base::{Rel, Rule};
use interp_memory::{InstState, LabelSet, Pointer7, Spot, Value7, unlabelled};

/// Whether so many bytes at a pointer may be read or written.
pub fn touched(w: &mut World7, p: Pointer7, size: u64, writes: bool) -> Result<Spot, Halt>
    ensures { ComesTo spot_view (touches.touched (world_view w.old) (pointer_view p) size writes) result (world_view w.new) }
{
    match w.memory.touch(&p, size, writes) {
        Ok(spot) => Ok(spot),
        Err(rule) => Err(w.stopped_by(rule)),
    }
}

/// Whether the object that a pointer points to has ended.
fn is_ended(w: &World7, p: Pointer7) -> bool
    ensures { result ≡ machine.is_ended w.now.memory.memory (pointer_view p) }
{
    match p {
        Pointer7::Null => false,
        Pointer7::At { inst, .. } => w.memory.state(inst) == InstState::Ended,
    }
}

/// Whether two pointers point into one instance.
fn share_instance(p: Pointer7, q: Pointer7) -> bool
    ensures { result ≡ machine.share_instance (pointer_view p) (pointer_view q) }
{
    match (p, q) {
        (Pointer7::At { inst: i, .. }, Pointer7::At { inst: j, .. }) => i == j,
        (Pointer7::At { .. }, Pointer7::Null) => false,
        (Pointer7::Null, _) => false,
    }
}

/// The offset of a pointer, 0 where it is null.
fn offset_of(p: Pointer7) -> u64
    ensures { result ≡ machine.offset_of (pointer_view p) }
{
    match p {
        Pointer7::Null => 0,
        Pointer7::At { off, .. } => off,
    }
}

/// Whether two pointers are equal (6.5.9p6).
pub fn are_equal(p: Pointer7, q: Pointer7) -> bool
    ensures { result ≡ machine.are_equal (pointer_view p) (pointer_view q) }
{
    match p {
        Pointer7::Null => matches!(q, Pointer7::Null),
        Pointer7::At { off, .. } => share_instance(p, q) && off == offset_of(q),
    }
}

/// Where so many bytes end; an end that no u64 holds comes to want of memory, since no object has it.
fn end_of(start: u64, size: u64) -> Result<u64, Halt>
    ensures { Computes (λ (n : ℕ). n) (start + size) result }
{
    match start.checked_add(size) {
        Some(end) => Ok(end),
        None => Err(Halt::Memory),
    }
}

// A pointer to so many bytes at a place.
fn pointer_to(spot: Spot, size: u64) -> Result<Pointer7, Halt>
    ensures { (w : World) → ComesTo pointer_view (machine.narrowed_by size (spot_view spot) w) result w }
{
    let hi = end_of(spot.offset, size)?;
    Ok(Pointer7::At {
        inst: spot.inst,
        off: spot.offset,
        lo: spot.offset,
        hi,
    })
}

// A pointer moved to a part.
fn at_part(p: Pointer7, by: u64) -> Result<Pointer7, Halt>
    ensures { Computes pointer_view (machine.at_part (pointer_view p) by) result }
{
    match p {
        Pointer7::Null => Ok(Pointer7::Null),
        Pointer7::At { inst, off, lo, hi } => {
            let off = end_of(off, by)?;
            Ok(Pointer7::At { inst, off, lo, hi })
        }
    }
}

// So many bytes at an offset of what a pointer points to.
fn narrow_pointer(w: &mut World7, p: Pointer7, offset: u64, size: u64) -> Result<Pointer7, Halt>
    ensures { ComesTo pointer_view (machine.narrow_pointer offset size (pointer_view p) (world_view w.old)) result (world_view w.new) }
{
    let part = at_part(p, offset)?;
    let spot = touched(w, part, size, false)?;
    pointer_to(spot, size)
}

/// A member, or an array as a pointer to its first element: so many bytes at an offset of what a
/// pointer points to.
pub fn narrow(w: &mut World7, at: Value7, offset: u64, size: u64) -> Result<Value7, Halt>
    ensures { ComesTo scalar_view (machine.narrow (scalar_view at) offset size (world_view w.old)) result (world_view w.new) }
{
    match at {
        Value7::Ptr(p) => Ok(Value7::Ptr(narrow_pointer(w, p, offset, size)?)),
        Value7::Int(_, _) => Err(Halt::Stops(Cause::Stuck)),
    }
}

// How far so many elements of a size are; a distance that no i128 holds comes to want of memory,
// since no unit has it.
fn distance_of(back: bool, number: i128, size: u64) -> Result<i128, Halt>
    ensures { Computes (λ (n : ℤ). n) (machine.distance_of back number size) result }
{
    let Some(distance) = number.checked_mul(i128::from(size)) else {
        return Err(Halt::Memory);
    };
    if !back {
        return Ok(distance);
    }
    match distance.checked_neg() {
        Some(distance) => Ok(distance),
        None => Err(Halt::Memory),
    }
}

// A pointer into an instance moved to an offset, where its bounds have it.
fn moved_into(w: &mut World7, inst: u32, offset: i128, lo: u64, hi: u64) -> Result<Pointer7, Halt>
    ensures { ComesTo pointer_view (machine.moved_into (world_view w.old) inst offset lo hi) result (world_view w.new) }
{
    if i128::from(lo) <= offset && offset <= i128::from(hi) {
        Ok(Pointer7::At {
            inst,
            off: offset as u64,
            lo,
            hi,
        })
    } else {
        Err(w.stopped_by(Rule::Invptr))
    }
}

// A pointer moved by a distance.
fn moved(w: &mut World7, p: Pointer7, by: i128) -> Result<Pointer7, Halt>
    ensures { ComesTo pointer_view (machine.moved (world_view w.old) (pointer_view p) by) result (world_view w.new) }
{
    match p {
        Pointer7::Null => Err(w.stopped_by(Rule::Nullref)),
        Pointer7::At { inst, off, lo, hi } => {
            if is_ended(w, p) {
                return Err(w.stopped_by(Rule::Nullref));
            }
            match i128::from(off).checked_add(by) {
                Some(offset) => moved_into(w, inst, offset, lo, hi),
                None => Err(Halt::Memory),
            }
        }
    }
}

// A pointer moved by a number of elements of a size, backwards or not.
fn shift_pointer(
    w: &mut World7,
    p: Pointer7,
    number: i128,
    labels: LabelSet,
    size: u64,
    back: bool,
) -> Result<Pointer7, Halt>
    ensures { ComesTo pointer_view (machine.shift_pointer size back (pointer_view p) number (labels_view labels) (world_view w.old)) result (world_view w.new) }
{
    with_size(w, labels)?;
    let distance = distance_of(back, number, size)?;
    moved(w, p, distance)
}

/// A pointer moved by an integer's number of elements of a size, backwards or not.
pub fn shift(w: &mut World7, at: Value7, by: Value7, size: u64, back: bool) -> Result<Value7, Halt>
    ensures { ComesTo scalar_view (machine.shift (scalar_view at) (scalar_view by) size back (world_view w.old)) result (world_view w.new) }
{
    match (at, by) {
        (Value7::Ptr(p), Value7::Int(number, labels)) => Ok(Value7::Ptr(shift_pointer(
            w, p, number, labels, size, back,
        )?)),
        (Value7::Ptr(_), Value7::Ptr(_)) => Err(Halt::Stops(Cause::Stuck)),
        (Value7::Int(_, _), _) => Err(Halt::Stops(Cause::Stuck)),
    }
}

// Whether one of two pointers points to an object that has ended.
fn either_ended(w: &World7, p: Pointer7, q: Pointer7) -> bool
    ensures { result ≡ (machine.is_ended w.now.memory.memory (pointer_view p) || machine.is_ended w.now.memory.memory (pointer_view q)) }
{
    is_ended(w, p) || is_ended(w, q)
}

// A number without labels.
fn plain(number: i128) -> Value7
    ensures { scalar_view result ≡ integer number no_labels }
{
    Value7::Int(number, unlabelled())
}

// 0 or 1.
fn truth_value(holds: bool) -> Value7
    ensures { scalar_view result ≡ truth holds }
{
    plain(i128::from(holds))
}

// How many elements of a size lie between two pointers.
fn elements_between(p: Pointer7, q: Pointer7, size: u64) -> i128
    requires { 0 < size }
    ensures { result ≡ machine.elements_between (pointer_view p) (pointer_view q) size }
{
    (i128::from(offset_of(p)) - i128::from(offset_of(q))) / i128::from(size)
}

// The difference of two pointers in elements of a size; no element has no byte.
fn pointer_difference(w: &mut World7, p: Pointer7, q: Pointer7, size: u64) -> Result<Value7, Halt>
    ensures { ComesTo scalar_view (machine.pointer_difference size (pointer_view p) (pointer_view q) (world_view w.old)) result (world_view w.new) }
{
    if either_ended(w, p, q) {
        return Err(w.stopped_by(Rule::Nullref));
    }
    if !share_instance(p, q) {
        return Err(w.stopped_by(Rule::Ptrobj));
    }
    if size == 0 {
        return Err(Halt::Memory);
    }
    Ok(plain(elements_between(p, q, size)))
}

/// The difference of two pointers in elements of a size.
pub fn difference(w: &mut World7, left: Value7, right: Value7, size: u64) -> Result<Value7, Halt>
    ensures { ComesTo scalar_view (machine.difference (scalar_view left) (scalar_view right) size (world_view w.old)) result (world_view w.new) }
{
    match (left, right) {
        (Value7::Ptr(p), Value7::Ptr(q)) => pointer_difference(w, p, q, size),
        (Value7::Ptr(_), Value7::Int(_, _)) => Err(Halt::Stops(Cause::Stuck)),
        (Value7::Int(_, _), _) => Err(Halt::Stops(Cause::Stuck)),
    }
}

// Whether two offsets have a relation.
fn offsets_hold(rel: Rel, a: u64, b: u64) -> bool
    ensures { result ≡ holds rel (pos a) (pos b) }
{
    match rel {
        Rel::Lt => a < b,
        Rel::Le => a <= b,
        Rel::Gt => a > b,
        Rel::Ge => a >= b,
        Rel::Eq => a == b,
        Rel::Ne => a != b,
    }
}

// Equality asks alone that neither object has ended.
fn equality(w: &mut World7, p: Pointer7, q: Pointer7, outcome: bool) -> Result<Value7, Halt>
    ensures { ComesTo scalar_view (machine.equality (world_view w.old) (pointer_view p) (pointer_view q) outcome) result (world_view w.new) }
{
    if either_ended(w, p, q) {
        return Err(w.stopped_by(Rule::Nullref));
    }
    Ok(truth_value(outcome))
}

// An order of two pointers into one instance.
fn in_order(w: &mut World7, rel: Rel, p: Pointer7, q: Pointer7) -> Result<Value7, Halt>
    ensures { ComesTo scalar_view (machine.ordered rel (pointer_view p) (pointer_view q) (world_view w.old)) result (world_view w.new) }
{
    if either_ended(w, p, q) {
        return Err(w.stopped_by(Rule::Nullref));
    }
    if !share_instance(p, q) {
        return Err(w.stopped_by(Rule::Ptrobj));
    }
    Ok(truth_value(offsets_hold(rel, offset_of(p), offset_of(q))))
}

// A relation of two pointers.
fn compare_pointers(w: &mut World7, rel: Rel, p: Pointer7, q: Pointer7) -> Result<Value7, Halt>
    ensures { ComesTo scalar_view (machine.pointers_compared rel (pointer_view p) (pointer_view q) (world_view w.old)) result (world_view w.new) }
{
    match rel {
        Rel::Eq => equality(w, p, q, are_equal(p, q)),
        Rel::Ne => equality(w, p, q, !are_equal(p, q)),
        Rel::Lt | Rel::Le | Rel::Gt | Rel::Ge => in_order(w, rel, p, q),
    }
}

/// A relation of two pointers.
pub fn compare(w: &mut World7, rel: Rel, left: Value7, right: Value7) -> Result<Value7, Halt>
    ensures { ComesTo scalar_view (machine.compare rel (scalar_view left) (scalar_view right) (world_view w.old)) result (world_view w.new) }
{
    match (left, right) {
        (Value7::Ptr(p), Value7::Ptr(q)) => compare_pointers(w, rel, p, q),
        (Value7::Ptr(_), Value7::Int(_, _)) => Err(Halt::Stops(Cause::Stuck)),
        (Value7::Int(_, _), _) => Err(Halt::Stops(Cause::Stuck)),
    }
}
