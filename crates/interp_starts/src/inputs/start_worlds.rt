//! The world in which a run begins.
ghost use Rattle.std.specs.Prelude.{◌≡◌, true, map, IfErr};
ghost use Rattle.c_layout.specs.CheckedUnits.{unit_view, static_view, literal_view, local_view};
ghost use Rattle.c_layout.specs.Layout.{size_of_type};
ghost use Rattle.c_layout.specs.Models.{is_model};
ghost use Rattle.c_layout.specs.StructViews.{structs_view};
ghost use Rattle.c_layout.specs.Types.{view};
ghost use Rattle.memory_model.specs.Effects.ObjectEffects.{with_instance};
ghost use Rattle.memory_model.specs.Effects.UnitStarts as machine;
ghost use Rattle.memory_model.specs.Effects.Worlds.{done};
ghost use Rattle.memory_model.specs.Memory.Instances.{total_size};
ghost use Rattle.interp_accesses.specs.WorldViews.{world_view};
ghost use Rattle.interp_starts.specs.Inputs.Starts.{StartsAs, started};
ghost use Rattle.interp_starts.specs.Inputs.Sums.{PassesBy};
ghost use Rattle.interp_starts.specs.Starts.Rewrites.{objects_made, literals_made};

use crate::inputs::input_parameters::with_parameters;
use crate::inputs::instance_sums::{StartStop, may_make};
use crate::starts::{literal_size, make_literal, make_object};
use c_layout::{CType, Checked, LocalObject, StaticObject, StringLiteral, type_bytes};
use interp_accesses::World7;

// Whether another object of a type may be made.
fn may_make_object(w: &World7, unit: &Checked, t: &CType) -> Result<(), StartStop>
    ensures { IfErr result (PassesBy (total_size w.now.memory.memory) (size_of_type (structs_view unit.now.structs) unit.now.model.pointer (view t.now))) }
{
    match type_bytes(t, &unit.structs, unit.model.pointer) {
        Ok(size) => may_make(w, u128::from(size)),
        Err(_) => Err(StartStop::Memory),
    }
}

fn with_object(w: &mut World7, unit: &Checked, object: &StaticObject) -> Result<(), StartStop>
    requires { is_model unit.now.model ≡ true }
    ensures { StartsAs (done (with_instance (world_view w.old) (machine.static_instance (unit_view unit.now) (static_view object.now)))) result (world_view w.new) }
{
    if !w.memory.is_under(&unit.model) {
        return Err(StartStop::Memory);
    }
    may_make_object(w, unit, &object.ctype)?;
    make_object(w, unit, object)?;
    Ok(())
}

fn with_objects(w: &mut World7, unit: &Checked, objects: &[StaticObject]) -> Result<(), StartStop>
    requires { is_model unit.now.model ≡ true }
    ensures { StartsAs (done (objects_made (unit_view unit.now) (map static_view objects.now) (world_view w.old))) result (world_view w.new) }
{
    for object in objects {
        with_object(w, unit, object)?;
    }
    Ok(())
}

fn with_literal(w: &mut World7, literal: &StringLiteral) -> Result<(), StartStop>
    ensures { StartsAs (done (with_instance (world_view w.old) (machine.literal_made (literal_view literal.now)))) result (world_view w.new) }
{
    may_make(w, u128::from(literal_size(literal)))?;
    make_literal(w, literal)?;
    Ok(())
}

fn with_literals(w: &mut World7, literals: &[StringLiteral]) -> Result<(), StartStop>
    ensures { StartsAs (done (literals_made (map literal_view literals.now) (world_view w.old))) result (world_view w.new) }
{
    for literal in literals {
        with_literal(w, literal)?;
    }
    Ok(())
}

/// The entry's parameters.
pub fn entry_parameters(unit: &Checked) -> &[LocalObject]
    ensures { map local_view result.now ≡ machine.entry_parameters (unit_view unit.now) }
{
    match unit.functions.get(unit.entry as usize) {
        Some(function) => {
            let locals = function.locals.as_slice();
            let count = (function.parameters as usize).min(locals.len());
            &locals[..count]
        }
        None => &[],
    }
}

/// Makes the objects of static storage, the literals and the entry's parameters.
pub fn start(w: &mut World7, unit: &Checked) -> Result<(), StartStop>
    requires { is_model unit.now.model ≡ true }
    ensures { StartsAs (started (unit_view unit.now) (world_view w.old)) result (world_view w.new) }
{
    with_objects(w, unit, unit.objects.as_slice())?;
    with_literals(w, unit.literals.as_slice())?;
    with_parameters(w, unit, entry_parameters(unit))
}
