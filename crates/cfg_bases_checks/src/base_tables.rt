//! The bases of a program, and the objects and parameters that name them.
ghost use Rattle.std.specs.Prelude.{◌≡◌, ◌+◌, ◌==◌, IfOk};
ghost use Rattle.std.specs.List.{list_all};
ghost use Rattle.cfg.specs.WellFormed as spec;

use crate::base_kinds::{is_automatic, is_initial};
use crate::value_ranges::{is_extent, is_int_type};
use c_layout::{BaseInfo, Model};
use cfg::{Flow, InitialObject, ParameterInput};
use std::alloc::AllocError;

fn base_cells(base: &BaseInfo) -> Result<u64, AllocError>
    ensures { IfOk result (λ n. n ≡ spec.base_cells base.now) }
{
    let leaves = base.shape.cells.as_slice().len() as u64;
    let classes = if base.shape.heap { 6 } else { 0 };
    leaves.checked_add(classes).ok_or(AllocError)
}

/// How many values a base has in a row.
fn base_values(base: &BaseInfo) -> Result<u64, AllocError>
    ensures { IfOk result (λ n. n ≡ spec.base_values base.now) }
{
    let cells = base_cells(base)?;
    let zeros = base.shape.zeros.as_slice().len() as u64;
    let state = if base.shape.heap { 1 } else { 0 };
    let parts = cells.checked_add(zeros).ok_or(AllocError)?;
    parts.checked_add(state).ok_or(AllocError)
}

/// How many cells bases have together.
pub fn all_cells(bases: &[BaseInfo]) -> Result<u64, AllocError>
    ensures { IfOk result (λ n. n ≡ spec.all_cells bases.now) }
{
    let mut count: u64 = 0;
    for base in bases {
        let cells = base_cells(base)?;
        count = count.checked_add(cells).ok_or(AllocError)?;
    }
    Ok(count)
}

/// How many values bases have together in a row.
fn all_values(bases: &[BaseInfo]) -> Result<u64, AllocError>
    ensures { IfOk result (λ n. n ≡ spec.all_values bases.now) }
{
    let mut count: u64 = 0;
    for base in bases {
        let values = base_values(base)?;
        count = count.checked_add(values).ok_or(AllocError)?;
    }
    Ok(count)
}

/// Whether the values of bases follow each other in a row, and their sizes are ones.
pub fn are_placed(bases: &[BaseInfo]) -> Result<bool, AllocError>
    ensures { IfOk result (λ b. b ≡ spec.are_placed 0 bases.now) }
{
    let mut first: u64 = 0;
    for base in bases {
        if base.first as u64 != first || !is_extent(base.size) {
            return Ok(false);
        }
        let values = base_values(base)?;
        first = first.checked_add(values).ok_or(AllocError)?;
    }
    Ok(true)
}

/// Whether a row has the values of all bases and all temporaries.
pub fn is_width(flow: &Flow) -> Result<bool, AllocError>
    ensures { IfOk result (λ b. b ≡ (flow.now.width == spec.all_values flow.now.bases.items + flow.now.temps)) }
{
    let values = all_values(flow.bases.as_slice())?;
    let width = values.checked_add(flow.temps as u64).ok_or(AllocError)?;
    Ok(flow.width as u64 == width)
}

fn fits_initial_base(bases: &[BaseInfo], base: Option<u32>) -> bool
    ensures { result ≡ spec.fits_initial_base bases.now base }
{
    match base {
        None => true,
        Some(base) => is_initial(bases, base),
    }
}

fn is_initial_object(bases: &[BaseInfo], object: &InitialObject) -> bool
    ensures { result ≡ spec.is_initial_object bases.now object.now }
{
    is_extent(object.size) && fits_initial_base(bases, object.base)
}

/// Whether all objects of static storage and all literals are well formed.
pub fn are_initial_objects(bases: &[BaseInfo], objects: &[InitialObject]) -> bool
    ensures { result ≡ list_all (spec.is_initial_object bases.now) objects.now }
{
    objects
        .iter()
        .all(|object| is_initial_object(bases, object))
}

fn is_parameter(model: &Model, bases: &[BaseInfo], parameter: ParameterInput) -> bool
    ensures { result ≡ spec.is_parameter model.now bases.now parameter }
{
    is_automatic(bases, parameter.base) && is_int_type(model, parameter.kind)
}

/// Whether all parameters of the entry are well formed.
pub fn are_parameters(flow: &Flow) -> bool
    ensures { result ≡ list_all (spec.is_parameter flow.now.model flow.now.bases.items) flow.now.parameters.items }
{
    flow.parameters.iter().all(|parameter| is_parameter(
        &flow.model,
        flow.bases.as_slice(),
        *parameter,
    ))
}
