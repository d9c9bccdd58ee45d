//! Whether the functions of a unit are such as typing makes them.
ghost use Rattle.std.specs.Prelude.{◌≡◌, IfOk, map, true};
ghost use Rattle.std.specs.List.{list_all};
ghost use Rattle.c_layout.specs.CheckedUnits.{function_view, unit_view};
ghost use Rattle.lower_preconditions.specs.Units.RegularUnits as spec;

use crate::units::label_numbers::is_numbered;
use crate::units::regular_statements::are_regular_statements;
use crate::units::scope_objects::has_own_objects;
use c_layout::{Checked, Function};
use std::alloc::{AllocError, Global};

fn is_regular_function(
    alloc: Global,
    unit: &Checked,
    function: &Function,
) -> Result<bool, AllocError>
    ensures { IfOk result (λ b. b ≡ spec.is_regular_function (unit_view unit.now) (function_view function.now)) }
{
    if !is_numbered(function) {
        return Ok(false);
    }
    let own = has_own_objects(alloc, function)?;
    Ok(own && are_regular_statements(unit, function, false, false, function.body.as_slice()))
}

fn are_regular_functions(
    alloc: Global,
    unit: &Checked,
    functions: &[Function],
) -> Result<bool, AllocError>
    ensures { IfOk result (λ b. b ≡ list_all (spec.is_regular_function (unit_view unit.now)) (map function_view functions.now)) }
{
    for at in 0..functions.len() {
        if !is_regular_function(alloc, unit, &functions[at])? {
            return Ok(false);
        }
    }
    Ok(true)
}

/// Whether the functions of a unit are such as typing makes them, told in one pass over their bodies.
pub fn is_regular_unit(alloc: Global, unit: &Checked) -> Result<bool, AllocError>
    ensures { IfOk result (λ b. b ≡ spec.is_regular_unit (unit_view unit.now)) }
{
    are_regular_functions(alloc, unit, unit.functions.as_slice())
}

/// Goes on where the functions of a unit are such as typing makes them: labels have the numbers in
/// which they stand, no object stands in two scopes, terms and statements name what is there, values
/// are taken of what has some, and jumps have where to go. Another unit would come to want of memory.
pub fn with_regular_functions(alloc: Global, unit: &Checked) -> Result<(), AllocError>
    ensures { IfOk result (λ made. spec.is_regular_unit (unit_view unit.now) ≡ true) }
{
    if is_regular_unit(alloc, unit)? {
        Ok(())
    } else {
        Err(AllocError)
    }
}
