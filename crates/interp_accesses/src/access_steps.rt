//! Loads and stores of scalars by their types (6.3.2.1 and 6.5.16 of ISO/IEC 9899:2011).
ghost use Rattle.std.specs.Prelude.{◌≡◌, true};
ghost use Rattle.c_layout.specs.Leaves.{class_of};
ghost use Rattle.memory_model.specs.Effects.Accesses as machine;
ghost use Rattle.memory_model.specs.Effects.Operands as operands;
ghost use Rattle.interp_memory.specs.ByteViews.{pointer_view, scalar_view};
ghost use Rattle.interp_memory.specs.AccessOutcomes.{loaded_reply, stored_reply};
ghost use Rattle.interp_memory.specs.SoundPointers.{IsWithin};
ghost use Rattle.interp_accesses.specs.WorldViews.{world_view, ComesTo};
ghost use Rattle.interp_accesses.specs.ScalarKinds as kinds;
ghost use Rattle.interp_accesses.specs.ScalarKinds.{sign_of};

use crate::worlds::{Cause, Halt, World7};
use c_layout::{Class, Model};
use cc_base::{IntType, Rule};
use cfg::Scalar;
use interp_memory::{Loaded, Pointer7, Stored, Value7, class_size};

// The class of an integer type.
fn class_for(kind: IntType) -> Class
    ensures { result ≡ class_of kind }
{
    if kind.rank == 1 {
        Class::Char
    } else if kind.rank == 2 {
        Class::Short
    } else if kind.rank == 3 {
        Class::Int
    } else if kind.rank == 4 {
        Class::Long
    } else {
        Class::LongLong
    }
}

// The class of a scalar type.
pub fn class_in(kind: Scalar) -> Class
    ensures { result ≡ machine.class_in kind }
{
    match kind {
        Scalar::Int(kind) => class_for(kind),
        Scalar::Pointer => Class::Pointer,
    }
}

// Whether a scalar type is a signed one.
pub fn is_signed(kind: Scalar) -> bool
    ensures { result ≡ sign_of kind }
{
    match kind {
        Scalar::Int(kind) => kind.signed,
        Scalar::Pointer => false,
    }
}

// Whether an integer type has a rank and the size of its class under a model.
fn is_model_integer(model: &Model, kind: IntType) -> bool
    ensures { result ≡ kinds.is_model_integer model.now kind }
{
    1 <= kind.rank && kind.rank <= 5 && kind.bytes == class_size(model, class_for(kind))
}

// Whether a scalar type is one of a model.
pub fn is_model_scalar(model: &Model, kind: Scalar) -> bool
    ensures { result ≡ kinds.is_model_scalar model.now kind }
{
    match kind {
        Scalar::Int(kind) => is_model_integer(model, kind),
        Scalar::Pointer => true,
    }
}

// What a load comes to in a world.
fn loaded_in(w: &mut World7, loaded: Loaded) -> Result<Value7, Halt>
    ensures { ComesTo scalar_view (loaded_reply loaded (world_view w.old)) result (world_view w.new) }
{
    match loaded {
        Loaded::Value(value) => Ok(value),
        Loaded::Freed(value) => {
            w.note(true, Rule::Accfree)?;
            Ok(value)
        }
        Loaded::Halt(None) => Err(Halt::Stops(Cause::Left)),
        Loaded::Halt(Some(rule)) => Err(w.stopped_by(rule)),
    }
}

// The scalar that a pointer points to, of a type of the model.
fn load_through(w: &mut World7, model: &Model, kind: Scalar, p: Pointer7) -> Result<Value7, Halt>
    requires model { w.old.memory.model ≡ model.now }
    requires of_model { kinds.is_model_scalar model.now kind ≡ true }
    ensures { ComesTo scalar_view (machine.load_through model.now kind (pointer_view p) (world_view w.old)) result (world_view w.new) }
{
    let loaded = w.memory.load(&p, class_in(kind), is_signed(kind));
    loaded_in(w, loaded)
}

/// The scalar of a type to which a pointer points. A type that the model has not comes to want of
/// memory, since no unit has it.
pub fn load(w: &mut World7, model: &Model, kind: Scalar, at: Value7) -> Result<Value7, Halt>
    requires { w.old.memory.model ≡ model.now }
    ensures { ComesTo scalar_view (machine.load model.now kind (scalar_view at) (world_view w.old)) result (world_view w.new) }
{
    match at {
        Value7::Ptr(p) => {
            if is_model_scalar(model, kind) {
                load_through(w, model, kind, p)
            } else {
                Err(Halt::Memory)
            }
        }
        Value7::Int(_, _) => Err(Halt::Stops(Cause::Stuck)),
    }
}

// What a store comes to in the world behind it.
fn stored_in(w: &mut World7, stored: Stored, value: Value7) -> Result<Value7, Halt>
    ensures { ComesTo scalar_view (stored_reply stored (scalar_view value) w.old.memory.memory (world_view w.old)) result (world_view w.new) }
{
    match stored {
        Stored::Done => Ok(value),
        Stored::Halt(None) => Err(Halt::Stops(Cause::Left)),
        Stored::Halt(Some(rule)) => Err(w.stopped_by(rule)),
    }
}

// Stores a scalar of a type of the model where a pointer points to.
fn store_through(
    w: &mut World7,
    model: &Model,
    kind: Scalar,
    p: Pointer7,
    value: Value7,
) -> Result<Value7, Halt>
    requires model { w.old.memory.model ≡ model.now }
    requires of_model { kinds.is_model_scalar model.now kind ≡ true }
    requires within { IsWithin w.old.memory.memory (pointer_view p) }
    ensures { ComesTo scalar_view (machine.store_through model.now kind (scalar_view value) (pointer_view p) (world_view w.old)) result (world_view w.new) }
{
    let stored = w.memory.store(&p, class_in(kind), &value);
    stored_in(w, stored, value)
}

// Whether a scalar is of the kind of a type.
fn is_of_kind(kind: Scalar, value: Value7) -> bool
    ensures { result ≡ operands.is_of_kind kind (scalar_view value) }
{
    match (kind, value) {
        (Scalar::Int(_), Value7::Int(_, _)) => true,
        (Scalar::Pointer, Value7::Ptr(_)) => true,
        (Scalar::Int(_), Value7::Ptr(_)) => false,
        (Scalar::Pointer, Value7::Int(_, _)) => false,
    }
}

/// Stores a scalar of a type where a pointer points to. A type that the model has not, and a pointer
/// whose bounds pass its instance, come to want of memory, since no run has them.
pub fn store(
    w: &mut World7,
    model: &Model,
    kind: Scalar,
    at: Value7,
    value: Value7,
) -> Result<Value7, Halt>
    requires { w.old.memory.model ≡ model.now }
    ensures { ComesTo scalar_view (machine.store model.now kind (scalar_view at) (scalar_view value) (world_view w.old)) result (world_view w.new) }
{
    let Value7::Ptr(p) = at else {
        return Err(Halt::Stops(Cause::Stuck));
    };
    if !is_of_kind(kind, value) {
        return Err(Halt::Stops(Cause::Stuck));
    }
    if !is_model_scalar(model, kind) || !w.memory.is_within(&p) {
        return Err(Halt::Memory);
    }
    store_through(w, model, kind, p, value)
}
