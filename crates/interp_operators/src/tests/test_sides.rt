//! The sides of tests, and what they are now.
ghost use Rattle.std.specs.Prelude.{◌≡◌, ◌≤◌, length, option_map, true};
ghost use Rattle.memory_model.specs.Effects.Tests as machine;
ghost use Rattle.interp_accesses.specs.ScalarKinds as kinds;
ghost use Rattle.interp_accesses.specs.WorldViews.{Computes};
ghost use Rattle.interp_memory.specs.ByteViews.{bytes_view, scalar_view};
ghost use Rattle.interp_operators.specs.Tests.SideViews.{side_view};

use c_layout::Model;
use cc_base::{IntType, Rel};
use cfg::Scalar;
use interp_accesses::{Halt, class_in, is_model_scalar, is_signed};
use interp_memory::{Byte7, Memory7, Pointer7, Spot, Value7, class_size, scalar_from, unlabelled};

/// A side of a test: a scalar object at the start of an instance, a number, or a null pointer.
#[derive(Clone, Copy)]
pub enum Side7 {
    Object(u32, Scalar),
    Constant(i128),
    Nothing,
}

/// A relation of two sides; of integers in their common type, of pointers where there is none.
#[derive(Clone, Copy)]
pub struct Test7 {
    pub left: Side7,
    pub rel: Rel,
    pub right: Side7,
    pub common: Option<IntType>,
}

/// The relation that holds where another one does not.
pub fn opposite(rel: Rel) -> Rel
    ensures { result ≡ machine.opposite rel }
{
    match rel {
        Rel::Lt => Rel::Ge,
        Rel::Le => Rel::Gt,
        Rel::Gt => Rel::Le,
        Rel::Ge => Rel::Lt,
        Rel::Eq => Rel::Ne,
        Rel::Ne => Rel::Eq,
    }
}

/// The relation with its sides exchanged.
pub fn turned(rel: Rel) -> Rel
    ensures { result ≡ machine.turned rel }
{
    match rel {
        Rel::Lt => Rel::Gt,
        Rel::Le => Rel::Ge,
        Rel::Gt => Rel::Lt,
        Rel::Ge => Rel::Le,
        Rel::Eq => Rel::Eq,
        Rel::Ne => Rel::Ne,
    }
}

/// The bytes of a scalar object at the start of an instance.
pub(crate) fn object_bytes<'a>(
    memory: &'a Memory7,
    model: &Model,
    inst: u32,
    kind: Scalar,
) -> &'a [Byte7]
    requires { kinds.is_model_scalar model.now kind ≡ true }
    ensures bytes { bytes_view result.now ≡ machine.object_bytes model.now memory.now.memory inst kind }
    ensures few { length result.now ≤ 8 }
{
    let size = class_size(model, class_in(kind));
    memory.region(Spot { inst, offset: 0 }, u64::from(size))
}

// The scalar that an object of a type of the model is now, where its bytes are one.
fn object_scalar(memory: &Memory7, model: &Model, inst: u32, kind: Scalar) -> Option<Value7>
    requires { kinds.is_model_scalar model.now kind ≡ true }
    ensures { option_map scalar_view result ≡ machine.side_scalar model.now memory.now.memory (machine.object inst kind) }
{
    let bytes = object_bytes(memory, model, inst, kind);
    scalar_from(model, class_in(kind), is_signed(kind), bytes)
}

/// What a side is now, where its bytes are a scalar. A type that the model has not comes to want of
/// memory, since no unit has it.
pub(crate) fn side_scalar(
    memory: &Memory7,
    model: &Model,
    side: Side7,
) -> Result<Option<Value7>, Halt>
    ensures { Computes (λ x. option_map scalar_view x) (machine.side_scalar model.now memory.now.memory (side_view side)) result }
{
    match side {
        Side7::Object(inst, kind) => {
            if is_model_scalar(model, kind) {
                Ok(object_scalar(memory, model, inst, kind))
            } else {
                Err(Halt::Memory)
            }
        }
        Side7::Constant(n) => Ok(Some(Value7::Int(n, unlabelled()))),
        Side7::Nothing => Ok(Some(Value7::Ptr(Pointer7::Null))),
    }
}
