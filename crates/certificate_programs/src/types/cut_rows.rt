//! Rows cut to types.
ghost use Rattle.std.specs.Prelude.{◌≡◌, length};
ghost use Rattle.certificate_programs.specs.Types.CutCells as spec;
ghost use Rattle.certificate_programs.specs.Types.RowKinds as kinds_of;
ghost use Rattle.certificate_programs.specs.Types.CutRows.{cut_row};

use crate::types::kind_sets::{Kinds, has_pointers, leaves, numbers};
use crate::types::typed_temps::{kinds_at, place};
use c_layout::{BaseInfo, Class, Leaf, Model};
use cc_base::{IntDomain, Lattice, of_range, range_met};
use cfg::Flow;
use interval_domain::intervals::Interval;
use pointer_domain::Pointers;
use value_domain::values::{Cell, Value};

/// The numbers of an interval that lie in a range.
fn cut_to(num: Interval, range: Option<(i128, i128)>) -> Interval
    ensures { result ≡ spec.cut_to num range }
{
    match range {
        None => Interval::bottom(),
        Some((least, greatest)) => of_range(range_met(num.bounds(), least, greatest)),
    }
}

/// The pointers, where they are among the types.
fn cut_pointer(pointer: Pointers<Interval>, kinds: Kinds) -> Pointers<Interval>
    ensures { result ≡ spec.cut_pointer kinds pointer }
{
    if has_pointers(kinds) {
        pointer
    } else {
        Pointers::bottom()
    }
}

fn cut_value(value: Value<Interval>, kinds: Kinds) -> Value<Interval>
    ensures { result ≡ spec.cut_value kinds value }
{
    Value {
        num: cut_to(value.num, numbers(kinds)),
        pointer: cut_pointer(value.pointer, kinds),
        indeterminate: value.indeterminate,
        labels: value.labels,
    }
}

fn cut_cell(cell: Cell<Interval>, kinds: Kinds) -> Cell<Interval>
    ensures { result ≡ spec.cut_cell kinds cell }
{
    match cell {
        Cell::Value(value) => Cell::Value(cut_value(value, kinds)),
        _ => cell,
    }
}

/// Cuts the value at a position of a row, where there is one, to types.
fn cut_at(row: &mut [Cell<Interval>], at: usize, kinds: Kinds)
    ensures length { length row.new ≡ length row.old }
    ensures row { row.new ≡ spec.cut_at at kinds row.old }
{
    if at < row.len() {
        row[at] = cut_cell(row[at], kinds);
    }
}

/// The position behind so many cells.
fn position(first: usize, count: usize) -> usize
    ensures { result ≡ kinds_of.position first count }
{
    first.saturating_add(count)
}

/// Cuts the class cell of a heap base.
fn cut_class(model: &Model, row: &mut [Cell<Interval>], at: usize, class: Class)
    ensures length { length row.new ≡ length row.old }
    ensures row { row.new ≡ spec.cut_at at (kinds_of.class_kinds model.now class) row.old }
{
    cut_at(row, at, leaves(model, class, true));
}

/// Cuts the class cells of a heap base, of which the first one stands at a position.
fn cut_classes(model: &Model, row: &mut [Cell<Interval>], first: usize)
    ensures length { length row.new ≡ length row.old }
    ensures row { row.new ≡ spec.cut_all (kinds_of.classes_kinds model.now first) row.old }
{
    cut_class(model, row, position(first, 0), Class::Char);
    cut_class(model, row, position(first, 1), Class::Short);
    cut_class(model, row, position(first, 2), Class::Int);
    cut_class(model, row, position(first, 3), Class::Long);
    cut_class(model, row, position(first, 4), Class::LongLong);
    cut_class(model, row, position(first, 5), Class::Pointer);
}

/// Cuts the values of leaves, of which the first one stands at a position.
fn cut_leaves(model: &Model, row: &mut [Cell<Interval>], first: usize, cells: &[Leaf])
    ensures length { length row.new ≡ length row.old }
    ensures row { row.new ≡ spec.cut_all (kinds_of.leaves_kinds model.now first 0 cells.now) row.old }
{
    for at in 0..cells.len() {
        let leaf = cells[at];
        let kinds = leaves(model, leaf.class, leaf.signed);
        cut_at(row, position(first, at), kinds);
    }
}

/// Cuts the values of a base.
#[tactic(auto, unfolding(crate::specs::Types::RowKinds::base_kinds), using(crate::proofs::types::CutSteps::cut_both))]
fn cut_base(model: &Model, row: &mut [Cell<Interval>], base: &BaseInfo)
    ensures length { length row.new ≡ length row.old }
    ensures row { row.new ≡ spec.cut_all (kinds_of.base_kinds model.now base.now) row.old }
{
    let cells = base.shape.cells.as_slice();
    let first = base.first as usize;
    cut_leaves(model, row, first, cells);
    if base.shape.heap {
        cut_classes(model, row, position(first, cells.len()));
    }
}

/// Cuts the values of objects.
fn cut_objects(model: &Model, row: &mut [Cell<Interval>], bases: &[BaseInfo])
    ensures length { length row.new ≡ length row.old }
    ensures row { row.new ≡ spec.cut_all (kinds_of.objects_kinds model.now bases.now) row.old }
{
    for at in 0..bases.len() {
        cut_base(model, row, &bases[at]);
    }
}

/// Cuts the values of temporaries, which stand at the end of a row, to their types at the start of a
/// block.
#[tactic(auto, using(crate::proofs::types::CutSteps::cut_more))]
fn cut_temps(temps: usize, row: &mut [Cell<Interval>], all: &[Kinds], block: usize)
    ensures length { length row.new ≡ length row.old }
    ensures row { row.new ≡ spec.cut_all (kinds_of.temps_kinds temps all.now block (length row.old)) row.old }
{
    let first = row.len().saturating_sub(temps);
    for temp in 0..temps {
        let kinds = kinds_at(all, place(temps, block, temp));
        cut_at(row, position(first, temp), kinds);
    }
}

/// Cuts the row of a block to the types of what it holds: of objects to those of their leaves, and of
/// temporaries to those at the start of the block.
#[tactic(auto, using(crate::proofs::types::CutSteps::cut_both))]
pub fn cut_row(flow: &Flow, all: &[Kinds], block: usize, row: &mut [Cell<Interval>])
    ensures length { length row.new ≡ length row.old }
    ensures row { row.new ≡ cut_row flow.now all.now block row.old }
{
    cut_objects(&flow.model, row, flow.bases.as_slice());
    cut_temps(flow.temps as usize, row, all, block);
}
