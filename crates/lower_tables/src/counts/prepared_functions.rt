//! The functions that the entry reaches, each after those that it calls.
ghost use Rattle.std.specs.Prelude.{◌≡◌, ◌<◌, IfOk, IfSome, Some, None, true, length, map, replicate, slice_get, slice_set};
ghost use Rattle.c_layout.specs.StructViews.{structs_view};
ghost use Rattle.c_layout.specs.CheckedUnits.{function_view, unit_view};
ghost use Rattle.lower_templates.specs.Worklist.Pieces.{piece_view, template_view};
ghost use Rattle.lower_objects.specs.declared.counts.function_counts.FunctionCounts.{FunctionCounts};
ghost use Rattle.lower_tables.specs.Counts.FunctionTotals.{is_nothing, function_counts};
ghost use Rattle.lower_tables.specs.Counts.Preparations as spec;
ghost use Rattle.lower_tables.specs.Counts.Preparations.{templates_view, IsPrepared};
ghost use Rattle.lower_tables.specs.Counts.PreparingSteps.{progress, CallsOf, IsMade, AreMade, IsCounting, IsSettling, AreNormalized};

use crate::counts::normalized_templates::normalized;
use c_layout::{Checked, Function};
use lower_functions::functions::{Piece, Template, template};
use lower_objects::counts::{
    BlockExtent, FunctionCounts, both, counts_at, extent, if_used, inner_bases, own_bases, temps,
};
use lower_templates::worklist::is_void;
use std::alloc::{AllocError, Global};

/// The templates and counts of the functions that the entry reaches, by number.
#[derive(Drop)]
pub struct PreparedUnit<'a> {
    pub templates: Vec<Option<Template<'a>>>,
    pub counts: Vec<Option<FunctionCounts>>,
}

/// A function whose calls are looked at, and the number of the next piece.
#[derive(Clone, Copy)]
struct Pending {
    function: u32,
    at: usize,
}

fn function_at<'a>(unit: &'a Checked, number: u32) -> Result<&'a Function, AllocError>
    ensures { IfOk result (λ f. slice_get (unit_view unit.now).functions number ≡ Some (function_view f.now)) }
{
    unit.functions.get(number as usize).ok_or(AllocError)
}

/// The function that a piece calls.
fn called(piece: &Piece) -> Option<u32>
    ensures { result ≡ spec.called (piece_view piece.now) }
{
    match piece {
        Piece::Do(_) => None,
        Piece::DoIfUsed(_) => None,
        Piece::End(_, _) => None,
        Piece::Mark(_) => None,
        Piece::Call(call) => Some(call.function),
    }
}

fn is_made(templates: &[Option<Template>], number: u32) -> bool {
    match templates.get(number as usize) {
        Some(found) => found.is_some(),
        None => false,
    }
}

/// The function that a piece calls, where it has no template.
fn new_call(templates: &[Option<Template>], piece: &Piece) -> Option<u32>
    ensures { IfSome result (λ n. spec.called (piece_view piece.now) ≡ Some n) }
{
    match called(piece) {
        Some(number) => {
            if is_made(templates, number) {
                None
            } else {
                Some(number)
            }
        }
        None => None,
    }
}

/// The next call of a function that has no template, and the number of the piece behind it.
fn next_in(templates: &[Option<Template>], pieces: &[Piece], from: usize) -> Option<(u32, usize)>
    ensures { IfSome result (λ n. spec.Calls (map piece_view pieces.now) n.0) }
{
    for at in from..pieces.len() {
        if let Some(number) = new_call(templates, &pieces[at]) {
            return Some((number, at.saturating_add(1)));
        }
    }
    None
}

fn next_call(templates: &[Option<Template>], pending: Pending) -> Option<(u32, usize)>
    ensures { IfSome result (λ n. CallsOf (templates_view templates.now) pending.function n.0) }
{
    match templates.get(pending.function as usize) {
        Some(found) => match found {
            Some(template) => next_in(templates, template.pieces.as_slice(), pending.at),
            None => None,
        },
        None => None,
    }
}

/// Puts a value in its place.
fn put<T: Drop>(list: &mut Vec<Option<T>>, number: u32, value: T) -> Result<(), AllocError>
    ensures within { IfOk result (λ _. number < length list.old.items) }
    ensures items { IfOk result (λ _. list.new.items ≡ slice_set list.old.items number (Some value)) }
{
    if (number as usize) < list.len() {
        list[number as usize] = Some(value);
        Ok(())
    } else {
        Err(AllocError)
    }
}

/// Takes a value out of its place.
fn take<T: Drop>(list: &mut Vec<Option<T>>, number: u32) -> Result<T, AllocError>
    ensures value { IfOk result (λ v. slice_get list.old.items number ≡ Some (Some v)) }
    ensures items { IfOk result (λ _. list.new.items ≡ slice_set list.old.items number None) }
{
    if (number as usize) < list.len() {
        let found = std::mem::replace(&mut list[number as usize], None);
        found.ok_or(AllocError)
    } else {
        Err(AllocError)
    }
}

/// So many times None.
#[tactic(auto, using(crate::proofs::counts::Tables::empty_more))]
fn all_none<T: Drop>(alloc: Global, count: usize) -> Result<Vec<Option<T>>, AllocError>
    ensures { IfOk result (λ v. v.items ≡ replicate count None) }
{
    let mut list = Vec::new(alloc);
    for _at in 0..count {
        list.push(None)?;
    }
    Ok(list)
}

/// Makes the template of a function.
fn make<'a>(
    alloc: Global,
    unit: &'a Checked,
    templates: &mut Vec<Option<Template<'a>>>,
    number: u32,
) -> Result<(), AllocError>
    ensures { IfOk result (λ _. IsMade (unit_view unit.now) number (templates_view templates.old.items) (templates_view templates.new.items)) }
{
    let function = function_at(unit, number)?;
    let made = template(alloc, unit, function, number == unit.entry)?;
    put(templates, number, made)?;
    Ok(())
}

/// The templates of functions, and their numbers, each after those of the functions that it calls.
#[derive(Drop)]
pub struct OrderedCalls<'a> {
    templates: Vec<Option<Template<'a>>>,
    order: Vec<u32>,
}

/// Looks at the next call in a function, whose template is then made; a function without such calls is
/// next in the order.
fn turn<'a>(
    alloc: Global,
    unit: &'a Checked,
    found: &mut OrderedCalls<'a>,
    stack: &mut Vec<Pending>,
    pending: Pending,
) -> Result<(), AllocError>
    ensures { IfOk result (λ _. AreMade (unit_view unit.now) (templates_view found.old.templates.items) → AreMade (unit_view unit.now) (templates_view found.new.templates.items)) }
{
    match next_call(found.templates.as_slice(), pending) {
        Some((number, at)) => {
            make(alloc, unit, &mut found.templates, number)?;
            stack.push(Pending {
                function: pending.function,
                at,
            })?;
            Ok(stack.push(Pending {
                function: number,
                at: 0,
            })?)
        }
        None => Ok(found.order.push(pending.function)?),
    }
}

/// Looks at all calls of the functions on the stack, and of those that they lead to.
fn turn_all<'a>(
    alloc: Global,
    unit: &'a Checked,
    found: &mut OrderedCalls<'a>,
    mut stack: Vec<Pending>,
) -> Result<(), AllocError>
    ensures { IfOk result (λ _. AreMade (unit_view unit.now) (templates_view found.old.templates.items) → AreMade (unit_view unit.now) (templates_view found.new.templates.items)) }
{
    for _turn in 0..u64::MAX {
        match stack.pop() {
            Some(pending) => turn(alloc, unit, found, &mut stack, pending)?,
            None => return Ok(()),
        }
    }
    Ok(())
}

/// Makes the templates of the functions that the entry reaches, and answers their numbers, each after
/// those of the functions that it calls.
fn ordered_calls<'a>(alloc: Global, unit: &'a Checked) -> Result<OrderedCalls<'a>, AllocError>
    ensures { IfOk result (λ o. AreMade (unit_view unit.now) (templates_view o.templates.items)) }
{
    let mut found = OrderedCalls {
        templates: all_none(alloc, unit.functions.len())?,
        order: Vec::new(alloc),
    };
    let mut stack = Vec::new(alloc);
    make(alloc, unit, &mut found.templates, unit.entry)?;
    stack.push(Pending {
        function: unit.entry,
        at: 0,
    })?;
    turn_all(alloc, unit, &mut found, stack)?;
    Ok(found)
}

/// Whether a call adds nothing.
fn is_nothing(function: &Function, from_empty: BlockExtent) -> bool
    ensures { result ≡ is_nothing (function_view function.now) from_empty }
{
    from_empty.instructions == 0 && (function.parameters == 0 && is_void(&function.result))
}

/// The parameters that are bases in any case: those of the entry.
fn named_parameters(unit: &Checked, number: u32, function: &Function) -> u32
    ensures { result ≡ spec.named_parameters (unit_view unit.now) number (function_view function.now) }
{
    if number == unit.entry {
        function.parameters
    } else {
        0
    }
}

/// The counts of a function whose template is settled; `parameters` are bases in any case.
fn counts_of(
    alloc: Global,
    unit: &Checked,
    function: &Function,
    parameters: u32,
    made: &Template,
    table: &[Option<FunctionCounts>],
) -> Result<FunctionCounts, AllocError>
    ensures { IfOk result (λ c. c ≡ function_counts (structs_view unit.now.structs) unit.now.model.pointer (function_view function.now) parameters (template_view made.now) table.now) }
{
    let pieces = made.pieces.as_slice();
    let own = own_bases(alloc, unit, function, made.names.as_slice(), parameters)?;
    let bases = both(own, inner_bases(pieces, table)?);
    let from_empty = extent(pieces, true, table)?;
    Ok(FunctionCounts {
        from_empty,
        from_begun: extent(pieces, false, table)?,
        temps: temps(pieces, table)?,
        bases: bases.bases,
        cells: bases.cells,
        if_used: if_used(pieces),
        is_silent: is_nothing(function, from_empty),
    })
}

/// Refuses a piece that calls a function that was not counted.
fn check_called(piece: &Piece, table: &[Option<FunctionCounts>]) -> Result<(), AllocError>
    ensures { IfOk result (λ _. spec.is_counted table.now (spec.called (piece_view piece.now)) ≡ true) }
{
    match called(piece) {
        Some(number) => {
            counts_at(table, number)?;
            Ok(())
        }
        None => Ok(()),
    }
}

/// Refuses pieces that call a function that was not counted.
fn check_calls(pieces: &[Piece], table: &[Option<FunctionCounts>]) -> Result<(), AllocError>
    ensures { IfOk result (λ _. spec.are_counted table.now (map piece_view pieces.now) ≡ true) }
{
    for piece in pieces {
        check_called(piece, table)?;
    }
    Ok(())
}

/// The settled template of a function and its counts.
fn normalized_and_counted<'a>(
    alloc: Global,
    unit: &Checked,
    number: u32,
    plain: Template<'a>,
    table: &[Option<FunctionCounts>],
) -> Result<(Template<'a>, FunctionCounts), AllocError>
    ensures { IfOk result (λ r. IsCounting (unit_view unit.now) number (template_view plain.entry) table.now (template_view r.0) r.1) }
{
    check_calls(plain.pieces.as_slice(), table)?;
    let function = function_at(unit, number)?;
    let made = normalized(alloc, plain, table)?;
    let parameters = named_parameters(unit, number, function);
    let counts = counts_of(alloc, unit, function, parameters, &made, table)?;
    Ok((made, counts))
}

/// Settles and counts a function.
fn settle<'a>(
    alloc: Global,
    unit: &'a Checked,
    plain: &mut Vec<Option<Template<'a>>>,
    prepared: &mut PreparedUnit<'a>,
    number: u32,
) -> Result<(), AllocError>
    ensures { IfOk result (λ _. IsSettling (unit_view unit.now) number (progress plain.old.items prepared.old) (progress plain.new.items prepared.new)) }
{
    let made = take(plain, number)?;
    let (made, counts) = normalized_and_counted(
        alloc,
        unit,
        number,
        made,
        prepared.counts.as_slice(),
    )?;
    put(&mut prepared.templates, number, made)?;
    put(&mut prepared.counts, number, counts)?;
    Ok(())
}

fn settle_all<'a>(
    alloc: Global,
    unit: &'a Checked,
    mut plain: Vec<Option<Template<'a>>>,
    order: Vec<u32>,
) -> Result<PreparedUnit<'a>, AllocError>
    ensures { IfOk result (λ p. AreMade (unit_view unit.now) (templates_view plain.entry.items) → AreNormalized (unit_view unit.now) (templates_view p.templates.items) p.counts.items) }
{
    let count = unit.functions.len();
    let mut found = PreparedUnit {
        templates: all_none(alloc, count)?,
        counts: all_none(alloc, count)?,
    };
    for number in order {
        settle(alloc, unit, &mut plain, &mut found, number)?;
    }
    Ok(found)
}

/// The templates and counts of the functions that the entry reaches.
pub fn prepared<'a>(alloc: Global, unit: &'a Checked) -> Result<PreparedUnit<'a>, AllocError>
    ensures { IfOk result (λ p. IsPrepared (unit_view unit.now) (templates_view p.templates.items) p.counts.items) }
{
    let OrderedCalls { templates, order } = ordered_calls(alloc, unit)?;
    let found = settle_all(alloc, unit, templates, order)?;
    counts_at(found.counts.as_slice(), unit.entry)?;
    Ok(found)
}
