//! Steps that need the model of a unit, in a memory that is under it.
ghost use Rattle.std.specs.Prelude.{◌≡◌, true};
ghost use Rattle.c_layout.specs.CheckedUnits.{unit_view};
ghost use Rattle.c_layout.specs.Models.{is_model};
ghost use Rattle.c_layout.specs.Types.{view};
ghost use Rattle.memory_model.specs.Effects.Accesses as accesses;
ghost use Rattle.memory_model.specs.Effects.StructCopies as copies;
ghost use Rattle.interp_memory.specs.ByteViews.{scalar_view};
ghost use Rattle.interp_accesses.specs.WorldViews.{world_view, ComesTo};
ghost use Rattle.semantics.specs.SourceMachine.Operations.{size_of, leaves};

use c_layout::{CType, Checked};
use cfg::Scalar;
use interp_accesses::{Halt, World7, load, store};
use interp_library::memory::copy_struct;
use interp_memory::Value7;
use interp_starts::starts::layout_of;

/// The scalar of a type to which a pointer points.
#[inline(always)]
pub fn load_from(w: &mut World7, unit: &Checked, kind: Scalar, at: Value7) -> Result<Value7, Halt>
    ensures { ComesTo scalar_view (accesses.load (unit_view unit.now).model kind (scalar_view at) (world_view w.old)) result (world_view w.new) }
{
    if !w.memory.is_under(&unit.model) {
        return Err(Halt::Memory);
    }
    load(w, &unit.model, kind, at)
}

/// Stores a scalar of a type where a pointer points to.
#[inline(always)]
pub fn store_to(
    w: &mut World7,
    unit: &Checked,
    kind: Scalar,
    at: Value7,
    value: Value7,
) -> Result<Value7, Halt>
    ensures { ComesTo scalar_view (accesses.store (unit_view unit.now).model kind (scalar_view at) (scalar_view value) (world_view w.old)) result (world_view w.new) }
{
    if !w.memory.is_under(&unit.model) {
        return Err(Halt::Memory);
    }
    store(w, &unit.model, kind, at, value)
}

/// Copies a struct of a type from where a pointer points to to where another one does.
pub fn copy_to(
    w: &mut World7,
    unit: &Checked,
    t: &CType,
    to: Value7,
    from: Value7,
) -> Result<Value7, Halt>
    requires { is_model unit.now.model ≡ true }
    ensures { ComesTo scalar_view (copies.copy_struct (unit_view unit.now).model (leaves (unit_view unit.now) (view t.now)) (size_of (unit_view unit.now) (view t.now)) (scalar_view to) (scalar_view from) (world_view w.old)) result (world_view w.new) }
{
    let layout = layout_of(w.alloc, t, &unit.structs, &unit.model)?;
    copy_struct(
        w,
        &unit.model,
        layout.leaves.as_slice(),
        layout.size,
        to,
        from,
    )
}
