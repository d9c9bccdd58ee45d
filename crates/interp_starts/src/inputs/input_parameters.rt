//! The entry's parameters, which take numbers of the outside.
ghost use Rattle.std.specs.Prelude.{◌≡◌, true, map};
ghost use Rattle.c_layout.specs.CheckedUnits.{unit_view, local_view};
ghost use Rattle.c_layout.specs.Models.{is_model};
ghost use Rattle.c_layout.specs.Types.{view, Int};
ghost use Rattle.memory_model.specs.Effects.UnitStarts as machine;
ghost use Rattle.memory_model.specs.Effects.Worlds.{done};
ghost use Rattle.interp_memory.specs.ByteViews.{scalar_view};
ghost use Rattle.memory_model.specs.Memory.Labels.{input_labels};
ghost use Rattle.memory_model.specs.Memory.Scalars.{integer};
ghost use Rattle.interp_accesses.specs.WorldViews.{world_view};
ghost use Rattle.interp_starts.specs.Inputs.Starts.{StartsAs};

use crate::inputs::instance_sums::{StartStop, may_make};
use crate::starts::{layout_of, make_input};
use c_layout::{CType, Checked, LocalObject};
use cc_base::IntType;
use interp_accesses::{Cause, World7, has_size};
use interp_memory::{LabelSet, Value7};

// A number of a type from the outside.
fn input(kind: IntType, number: i128) -> Value7
    ensures { scalar_view result ≡ integer number (input_labels kind) }
{
    Value7::Int(
        number,
        LabelSet {
            low: kind.signed,
            high: true,
            changed: false,
        },
    )
}

// Makes a parameter of an integer type that has taken a number.
fn make_parameter(
    w: &mut World7,
    unit: &Checked,
    t: &CType,
    kind: IntType,
    number: i128,
) -> Result<(), StartStop>
    requires model { is_model unit.now.model ≡ true }
    requires integer { view t.now ≡ Int kind }
    ensures { StartsAs (done (machine.input (unit_view unit.now) kind number (world_view w.old))) result (world_view w.new) }
{
    if !w.memory.is_under(&unit.model) {
        return Err(StartStop::Memory);
    }
    let layout = layout_of(w.alloc, t, &unit.structs, &unit.model)?;
    may_make(w, u128::from(layout.size))?;
    make_input(
        w,
        layout.leaves.as_slice(),
        layout.size,
        kind.bytes,
        &input(kind, number),
    )?;
    Ok(())
}

// A parameter of an integer type takes a number.
fn with_number(w: &mut World7, unit: &Checked, t: &CType, kind: IntType) -> Result<(), StartStop>
    requires model { is_model unit.now.model ≡ true }
    requires integer { view t.now ≡ Int kind }
    ensures { StartsAs (machine.with_parameter (unit_view unit.now) (Int kind) (world_view w.old)) result (world_view w.new) }
{
    if !has_size(kind) {
        return Err(StartStop::Memory);
    }
    let number = w.draw(kind.least(), kind.greatest())?;
    make_parameter(w, unit, t, kind, number)
}

fn with_parameter(w: &mut World7, unit: &Checked, t: &CType) -> Result<(), StartStop>
    requires { is_model unit.now.model ≡ true }
    ensures { StartsAs (machine.with_parameter (unit_view unit.now) (view t.now) (world_view w.old)) result (world_view w.new) }
{
    match t {
        CType::Int(kind) => with_number(w, unit, t, *kind),
        CType::Pointer(_) => Err(StartStop::Stops(Cause::Stuck)),
        CType::Array(_, _) => Err(StartStop::Stops(Cause::Stuck)),
        CType::Struct(_) => Err(StartStop::Stops(Cause::Stuck)),
        CType::Void => Err(StartStop::Stops(Cause::Stuck)),
    }
}

/// Parameters, one after the other: each takes a number of its type from the outside.
pub fn with_parameters(
    w: &mut World7,
    unit: &Checked,
    parameters: &[LocalObject],
) -> Result<(), StartStop>
    requires { is_model unit.now.model ≡ true }
    ensures { StartsAs (machine.with_parameters (unit_view unit.now) (map local_view parameters.now) (world_view w.old)) result (world_view w.new) }
{
    for parameter in parameters {
        with_parameter(w, unit, &parameter.ctype)?;
    }
    Ok(())
}
