//! The bases and cells of a function's objects and allocations.
ghost use Rattle.std.specs.Prelude.{◌≡◌, IfOk, map, slice_set, replicate, true, false};
ghost use Rattle.c_layout.specs.Types.{view};
ghost use Rattle.c_layout.specs.StructViews.{structs_view};
ghost use Rattle.c_layout.specs.CheckedUnits.{function_view};
ghost use Rattle.lower_templates.specs.Worklist.Pieces.{name_view, piece_view, target_view};
ghost use Rattle.lower_functions.specs.Functions.Functions.{local_type};
ghost use Rattle.lower_objects.specs.Counts.BaseCounts as spec;
ghost use Rattle.lower_objects.specs.Counts.BaseCounts.{tally};

use crate::counts::function_counts::{FunctionCounts, capped_sum, counts_at};
use crate::shapes::heap_leaves;
use c_layout::{CType, Checked, Function, count_leaves};
use lower_functions::functions::{BaseName, Piece};
use std::alloc::{AllocError, Global};

/// Bases and their cells.
#[derive(Clone, Copy)]
pub struct BaseCount {
    pub bases: u64,
    pub cells: u64,
}

/// How many classes of scalars a heap base has a cell for.
const CLASSES: u64 = 6;

/// No bases.
pub fn no_bases() -> BaseCount
    ensures { result ≡ spec.no_bases }
{
    BaseCount { bases: 0, cells: 0 }
}

/// Both counts summed.
pub fn both(a: BaseCount, b: BaseCount) -> BaseCount
    ensures { result ≡ spec.both a b }
{
    BaseCount {
        bases: capped_sum(a.bases, b.bases),
        cells: capped_sum(a.cells, b.cells),
    }
}

/// The base of an object.
pub fn object_base(t: &CType, unit: &Checked) -> Result<BaseCount, AllocError>
    ensures { IfOk result (λ c. c ≡ spec.object_base (structs_view unit.now.structs) (view t.now)) }
{
    let cells = count_leaves(t, &unit.structs)?;
    Ok(BaseCount { bases: 1, cells })
}

/// The two bases of an allocation.
fn allocation_bases(
    alloc: Global,
    target: Option<&CType>,
    unit: &Checked,
) -> Result<BaseCount, AllocError>
    ensures { IfOk result (λ c. c ≡ spec.allocation_bases (structs_view unit.now.structs) unit.now.model.pointer (target_view target.entry)) }
{
    let found = heap_leaves(alloc, target, &unit.structs, &unit.model)?;
    let cells = capped_sum(found.len() as u64, CLASSES);
    Ok(BaseCount {
        bases: 2,
        cells: capped_sum(cells, cells),
    })
}

/// The type of a local object; the result's for the number behind them.
pub fn local_type(function: &Function, number: usize) -> &CType
    ensures { view result.now ≡ local_type (function_view function.now) number }
{
    match function.locals.get(number) {
        Some(found) => &found.ctype,
        None => &function.result,
    }
}

/// So many times false.
pub fn all_false(alloc: Global, count: usize) -> Result<Vec<bool>, AllocError>
    ensures { IfOk result (λ v. v.items ≡ replicate count false) }
{
    Ok(vec![in alloc; false; count]?)
}

/// Which objects were counted, and the bases so far.
#[derive(Drop)]
pub struct BaseTally {
    pub noted: Vec<bool>,
    pub count: BaseCount,
}

/// Whether an object was not noted before.
pub fn is_new(noted: &[bool], number: usize) -> bool
    ensures { result ≡ spec.is_new noted.now number }
{
    match noted.get(number) {
        Some(before) => !*before,
        None => false,
    }
}

/// Notes an object.
pub fn note(noted: &mut Vec<bool>, number: usize)
    ensures { noted.new.items ≡ slice_set noted.old.items number true }
{
    if number < noted.len() {
        noted[number] = true;
    }
}

impl BaseTally {
    fn add(&mut self, more: BaseCount)
        ensures { tally self.new ≡ spec.with_more more (tally self.old) }
    {
        self.count = both(self.count, more);
    }

    /// Counts a local object or the result, where it was not counted before.
    fn add_slot(
        &mut self,
        unit: &Checked,
        function: &Function,
        slot: usize,
    ) -> Result<(), AllocError>
        ensures { IfOk result (λ _. tally self.new ≡ spec.with_slot (structs_view unit.now.structs) (function_view function.now) slot (tally self.old)) }
    {
        if is_new(self.noted.as_slice(), slot) {
            let more = object_base(local_type(function, slot), unit)?;
            note(&mut self.noted, slot);
            self.add(more);
            Ok(())
        } else {
            Ok(())
        }
    }

    fn add_allocation(
        &mut self,
        alloc: Global,
        unit: &Checked,
        target: Option<&CType>,
    ) -> Result<(), AllocError>
        ensures { IfOk result (λ _. tally self.new ≡ spec.with_more (spec.allocation_bases (structs_view unit.now.structs) unit.now.model.pointer (target_view target.entry)) (tally self.old)) }
    {
        let more = allocation_bases(alloc, target, unit)?;
        self.add(more);
        Ok(())
    }

    /// Counts what a mention names.
    fn add_name(
        &mut self,
        alloc: Global,
        unit: &Checked,
        function: &Function,
        name: BaseName,
    ) -> Result<(), AllocError>
        ensures { IfOk result (λ _. tally self.new ≡ spec.with_name (structs_view unit.now.structs) unit.now.model.pointer (function_view function.now) (name_view name.entry) (tally self.old)) }
    {
        match name {
            BaseName::Local(number) => self.add_slot(unit, function, number as usize),
            BaseName::Outcome => self.add_slot(unit, function, function.locals.len()),
            BaseName::Static(_) => Ok(()),
            BaseName::Literal(_) => Ok(()),
            BaseName::Allocation(target) => self.add_allocation(alloc, unit, target),
        }
    }

    /// Counts the parameters, which are the first local objects.
    #[tactic(auto, using(crate::proofs::counts::Slots::next_slot))]
    fn add_parameters(
        &mut self,
        unit: &Checked,
        function: &Function,
        parameters: u32,
    ) -> Result<(), AllocError>
        ensures { IfOk result (λ _. tally self.new ≡ spec.with_slots (structs_view unit.now.structs) (function_view function.now) parameters (tally self.old)) }
    {
        for number in 0..parameters {
            self.add_slot(unit, function, number as usize)?;
        }
        Ok(())
    }

    /// Counts what mentions name.
    fn add_names(
        &mut self,
        alloc: Global,
        unit: &Checked,
        function: &Function,
        names: &[BaseName],
    ) -> Result<(), AllocError>
        ensures { IfOk result (λ _. tally self.new ≡ spec.with_names (structs_view unit.now.structs) unit.now.model.pointer (function_view function.now) (map name_view names.now) (tally self.old)) }
    {
        for name in names {
            self.add_name(alloc, unit, function, *name)?;
        }
        Ok(())
    }
}

/// The bases of a function's own objects and allocations. `parameters` are named in any case.
pub fn own_bases(
    alloc: Global,
    unit: &Checked,
    function: &Function,
    names: &[BaseName],
    parameters: u32,
) -> Result<BaseCount, AllocError>
    ensures { IfOk result (λ c. c ≡ spec.own_bases (structs_view unit.now.structs) unit.now.model.pointer (function_view function.now) (map name_view names.now) parameters) }
{
    let slots = function.locals.len().checked_add(1).ok_or(AllocError)?;
    let mut found = BaseTally {
        noted: all_false(alloc, slots)?,
        count: no_bases(),
    };
    found.add_parameters(unit, function, parameters)?;
    found.add_names(alloc, unit, function, names)?;
    Ok(found.count)
}

fn called_bases(piece: &Piece, table: &[Option<FunctionCounts>]) -> Result<BaseCount, AllocError>
    ensures { IfOk result (λ c. c ≡ spec.called_bases table.now (piece_view piece.now)) }
{
    match piece {
        Piece::Do(_) => Ok(no_bases()),
        Piece::DoIfUsed(_) => Ok(no_bases()),
        Piece::End(_, _) => Ok(no_bases()),
        Piece::Mark(_) => Ok(no_bases()),
        Piece::Call(call) => {
            let counts = counts_at(table, call.function)?;
            Ok(BaseCount {
                bases: counts.bases,
                cells: counts.cells,
            })
        }
    }
}

/// The bases of all calls that are put in.
pub fn inner_bases(
    pieces: &[Piece],
    table: &[Option<FunctionCounts>],
) -> Result<BaseCount, AllocError>
    ensures { IfOk result (λ c. c ≡ spec.inner_bases table.now (map piece_view pieces.now) spec.no_bases) }
{
    let mut count = no_bases();
    for piece in pieces {
        let added = called_bases(piece, table)?;
        count = both(count, added);
    }
    Ok(count)
}
