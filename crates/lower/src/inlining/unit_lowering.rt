//! Lowering: from a checked unit to its control-flow program.
ghost use Rattle.std.specs.Prelude.{◌≡◌, ◌≤◌, ◌<◌, ◌+◌, IfErr, IfOk, Some, slice_get, true};
ghost use Rattle.c_layout.specs.declared.checked_tree.checked_units.Function.{Function};
ghost use Rattle.c_layout.specs.Types.{view};
ghost use Rattle.cc_base.specs.declared.limit_table.Limits.{Limits};
ghost use Rattle.c_layout.specs.CheckedUnits.{function_view, unit_view};
ghost use Rattle.cfg.specs.WellFormed.{is_well_formed};
ghost use Rattle.lower_tables.specs.Counts.Preparations.{templates_view};
ghost use Rattle.lower_tables.specs.Counts.SizeRefusals.{IsTooLarge};
ghost use Rattle.lower_preconditions.specs.Objects.PlainObjects.{has_plain_objects};
ghost use Rattle.lower_preconditions.specs.Units.RegularUnits.{is_regular_unit};
ghost use Rattle.lower_templates.specs.Views.ProgramViews.{flow_view};
ghost use Rattle.lower.specs.Inlining.Inlinings.{program_view};
ghost use Rattle.lower.specs.Inlining.Lowerings as spec;
ghost use Rattle.lower.specs.Inlining.Lowerings.{AreUnitCounts, IsLowering, Refuses};
ghost use Rattle.lower.specs.Inlining.AsCounted.{HasJust};

use crate::inlining::counted_bases::with_counted_bases;
use crate::inlining::inlined_program::{InlinedProgram, inlined};
use c_layout::{CType, Checked, Function};
use cc_base::{Count, IntType, Limits, Stop};
use cfg::{Flow, ParameterInput};
use cfg_checks::well_formed;
use lower_preconditions::objects::with_plain_objects;
use lower_preconditions::units::with_regular_functions;
use lower_tables::bases::initial_objects::initial_objects;
use lower_tables::counts::{
    PreparedUnit, UnitCounts, all_within, counts_at, pool_values, prepared, shared_bases,
    unit_counts, within,
};
use lower_templates::views::structure_copies;
use std::alloc::{AllocError, Global};

/// The type of an entry's parameter, which is an integer.
fn input_type(t: &CType) -> Result<IntType, AllocError>
    ensures { IfOk result (λ k. k ≡ spec.input_type (view t.now)) }
{
    match t {
        CType::Int(kind) => Ok(*kind),
        CType::Pointer(_) => Err(AllocError),
        CType::Array(_, _) => Err(AllocError),
        CType::Struct(_) => Err(AllocError),
        CType::Void => Err(AllocError),
    }
}

fn input(entry: &Function, base: u32) -> Result<ParameterInput, AllocError>
    ensures { IfOk result (λ i. i ≡ spec.input (function_view entry.now) base) }
{
    match entry.locals.get(base as usize) {
        Some(local) => {
            let kind = input_type(&local.ctype)?;
            Ok(ParameterInput { base, kind })
        }
        None => Err(AllocError),
    }
}

/// The entry's parameters, whose bases are the first ones.
#[tactic(auto, using(crate::proofs::inlining::Lowered::next_input))]
fn inputs(alloc: Global, entry: &Function) -> Result<Vec<ParameterInput>, AllocError>
    ensures { IfOk result (λ v. v.items ≡ spec.inputs (function_view entry.now) entry.now.parameters) }
{
    let mut list = Vec::new(alloc);
    for base in 0..entry.parameters {
        let input = input(entry, base)?;
        list.push(input)?;
    }
    Ok(list)
}

/// The entry of a unit whose objects are plain and whose functions are regular.
fn looked_at_entry(alloc: Global, unit: &Checked) -> Result<&Function, AllocError>
    ensures plain { IfOk result (λ f. has_plain_objects (unit_view unit.now) ≡ true) }
    ensures regular { IfOk result (λ f. is_regular_unit (unit_view unit.now) ≡ true) }
    ensures found { IfOk result (λ f. slice_get (unit_view unit.now).functions unit.now.entry ≡ Some (function_view f.now)) }
    ensures only { IfOk result (λ f. (e : Function) → slice_get unit.now.functions.items unit.now.entry ≡ Some e → f.now ≡ e) }
{
    with_plain_objects(unit)?;
    with_regular_functions(alloc, unit)?;
    unit.functions.get(unit.entry as usize).ok_or(AllocError)
}

/// How many values a row has.
fn row_width(made: &InlinedProgram, temps: u64) -> Result<u32, AllocError>
    ensures { IfOk result (λ n. n ≡ (program_view made.now).bases.width + temps) }
{
    let temps = u32::try_from(temps).ok().ok_or(AllocError)?;
    made.bases.width.checked_add(temps).ok_or(AllocError)
}

fn flow(
    alloc: Global,
    unit: &Checked,
    entry: &Function,
    made: InlinedProgram,
    counts: UnitCounts,
) -> Result<Flow, AllocError>
    ensures model { IfOk result (λ f. f.model ≡ unit.now.model) }
    ensures entry { IfOk result (λ f. f.entry ≡ entry.now.place) }
    ensures temps { IfOk result (λ f. f.temps ≡ counts.temps) }
    ensures exact { IfOk result (λ f. flow_view f ≡ spec.lowered (unit_view unit.now) (function_view entry.now) (program_view made) counts.temps) }
{
    let width = row_width(&made, counts.temps)?;
    let initial = initial_objects(alloc, unit, &made.bases)?;
    let InlinedProgram {
        blocks,
        edges,
        bases,
    } = made;
    Ok(Flow {
        blocks,
        edges,
        bases: bases.bases,
        temps: u32::try_from(counts.temps).ok().ok_or(AllocError)?,
        initial,
        parameters: inputs(alloc, entry)?,
        entry: entry.place,
        structs: structure_copies(alloc, &unit.structs)?,
        width,
        model: unit.model,
    })
}

/// The counts that are known before the program is made.
fn counted(alloc: Global, unit: &Checked, found: &PreparedUnit) -> Result<UnitCounts, AllocError>
    ensures { IfOk result (λ c. AreUnitCounts (unit_view unit.now) (templates_view found.now.templates.items) found.now.counts.items c) }
{
    let shared = shared_bases(alloc, unit, found.templates.as_slice())?;
    let counts = counts_at(found.counts.as_slice(), unit.entry)?;
    Ok(unit_counts(counts, shared))
}

/// The control-flow program of a checked unit: the entry with every call of a function of the unit put
/// in at its place. It is refused where a count passes its limit; the counts are made first, from the
/// functions that are called up to the entry, so that nothing is made of a unit that is too large. The
/// unit is looked at before all else, and what is made before it is given away: a unit such as typing
/// does not make, a program that is not well formed, or one that has other bases or cells than were
/// counted, would come to want of memory.
pub fn lower(alloc: Global, unit: &Checked, limits: &Limits) -> Result<Flow, Stop>
    ensures model { IfOk result (λ f. f.model ≡ unit.now.model) }
    ensures entry { IfOk result (λ f. (e : Function) → slice_get unit.now.functions.items unit.now.entry ≡ Some e → f.entry ≡ e.place) }
    ensures temps { IfOk result (λ f. f.temps ≤ limits.now.temps) }
    ensures well_formed { IfOk result (λ f. is_well_formed limits.now f ≡ true) }
    ensures lowering { IfOk result (λ f. IsLowering (unit_view unit.now) limits.now (flow_view f)) }
    ensures counted { IfOk result (λ f. (is : IsLowering (unit_view unit.now) limits.now (flow_view f)) → HasJust is.counts (flow_view f)) }
    ensures plain { IfOk result (λ f. has_plain_objects (unit_view unit.now) ≡ true) }
    ensures regular { IfOk result (λ f. is_regular_unit (unit_view unit.now) ≡ true) }
    ensures refusal { IfErr result (λ s. Refuses (unit_view unit.now) limits.now s) }
    ensures cause { IfErr result (λ s. (e : Function) → slice_get unit.now.functions.items unit.now.entry ≡ Some e → IsTooLarge limits.now e.place s) }
{
    let entry = looked_at_entry(alloc, unit)?;
    let found = prepared(alloc, unit)?;
    let counts = counted(alloc, unit, &found)?;
    all_within(entry.place, counts, limits)?;
    let made = inlined(alloc, unit, found.templates.as_slice(), entry.place)?;
    let width = row_width(&made, counts.temps)?;
    let values = pool_values(counts.blocks, width as u64);
    within(entry.place, Count::Pool, values, limits)?;
    let made = flow(alloc, unit, entry, made, counts)?;
    let made = with_counted_bases(made, counts)?;
    Ok(well_formed(alloc, made, limits)?)
}
