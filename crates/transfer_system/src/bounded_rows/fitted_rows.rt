//! Rows made a program's own.
ghost use Rattle.std.specs.Prelude.{◌≡◌, length, map, replicate};
ghost use Rattle.transfer_system.specs.declared.bounded_rows.own_cells.Reach.{Reach};
ghost use Rattle.transfer_system.specs.BoundedRows.CellKinds.{all_kinds, kinds_in, first_kind, kinds_behind};
ghost use Rattle.transfer_system.specs.BoundedRows.FittedRows.{list_ends, count_ends, ranges_both, cut_to, number_fit, count_fit, bases_fit, if_somewhere, pointer_fit, value_fit, first_fit, state_fit, greatest_number, greatest_pointer, greatest_value, greatest_first, greatest_state, fit_as_value, fit_as_first, fit_as_state, cell_made, cell_fit, cells_fit, row_fit, filled_with};

use crate::bounded_rows::bounded_numbers::Bounded;
use crate::bounded_rows::cell_kinds::{
    CellKind, KindsLeft, first_kind, kinds_behind, settled, start_of_row,
};
use crate::bounded_rows::own_cells::{Reach, is_count, is_own_cell, is_somewhere, reach_of};
use c_layout::BaseInfo;
use cc_base::{Lattice, Thresholds, of_range, range_met};
use pointer_domain::{Bases, END, Pointers};
use value_domain::strings::FirstZero;
use value_domain::values::{AllocState, Cell, Labels, Value};

/// From the first number of a list to the last one.
fn list_ends(list: &Thresholds) -> Option<(i128, i128)>
    ensures { result ≡ list_ends list.now }
{
    let numbers = list.as_slice();
    let count = numbers.len();
    if 0 < count {
        Some((numbers[0], numbers[count - 1]))
    } else {
        None
    }
}

/// Those of the numbers between the ends of a list that are counts.
fn count_ends(list: &Thresholds) -> Option<(i128, i128)>
    ensures { result ≡ count_ends list.now }
{
    range_met(list_ends(list), 0, END)
}

/// The numbers of both.
fn ranges_both(x: Option<(i128, i128)>, y: Option<(i128, i128)>) -> Option<(i128, i128)>
    ensures { result ≡ ranges_both x y }
{
    match y {
        None => None,
        Some(ends) => range_met(x, ends.0, ends.1),
    }
}

/// The numbers of a range that the value may have.
fn cut_to<I: Bounded>(ends: Option<(i128, i128)>, x: I) -> I
    ensures { result ≡ cut_to I.lattice I.numbers ends x }
{
    of_range(ranges_both(x.bounds(), ends))
}

/// The numbers within the ends of the list.
fn fit_number<I: Bounded>(x: I, list: &Thresholds) -> I
    ensures { result ≡ number_fit I.lattice I.numbers list.now x }
{
    if x.is_within(list) {
        x
    } else {
        cut_to(list_ends(list), x)
    }
}

/// The numbers within the ends of the list that are counts.
fn fit_count<I: Bounded>(x: I, list: &Thresholds, reach: Reach<I>) -> I
    ensures { result ≡ count_fit I.lattice I.numbers list.now reach x }
{
    if is_count(x, list, reach) {
        x
    } else {
        cut_to(count_ends(list), x)
    }
}

fn fit_bases<I: Bounded>(bases: Bases, reach: Reach<I>) -> Bases
    ensures { result ≡ bases_fit reach bases }
{
    if bases.within(reach.bases) {
        bases
    } else {
        reach.bases
    }
}

/// The pointers; where a base or some bounds are missing, null and ended alone.
fn if_somewhere<I: Bounded>(p: Pointers<I>) -> Pointers<I>
    ensures { result ≡ if_somewhere I.lattice I.numbers p }
{
    if !p.bases.is_empty() && is_somewhere(p) {
        return p;
    }
    let mut nowhere = Pointers::bottom();
    nowhere.null = p.null;
    nowhere.ended = p.ended;
    nowhere
}

fn fit_pointer<I: Bounded>(p: Pointers<I>, list: &Thresholds, reach: Reach<I>) -> Pointers<I>
    ensures { result ≡ pointer_fit I.lattice I.numbers list.now reach p }
{
    if_somewhere(Pointers {
        bases: fit_bases(p.bases, reach),
        lo: fit_count(p.lo, list, reach),
        rel: fit_number(p.rel, list),
        len: fit_count(p.len, list, reach),
        part: p.part,
        null: p.null,
        ended: p.ended,
    })
}

fn fit_value<I: Bounded>(value: Value<I>, list: &Thresholds, reach: Reach<I>) -> Value<I>
    ensures { result ≡ value_fit I.lattice I.numbers list.now reach value }
{
    Value {
        num: fit_number(value.num, list),
        pointer: fit_pointer(value.pointer, list, reach),
        indeterminate: value.indeterminate,
        labels: value.labels,
    }
}

fn fit_first<I: Bounded>(zero: FirstZero<I>, list: &Thresholds, reach: Reach<I>) -> FirstZero<I>
    ensures { result ≡ first_fit I.lattice I.numbers list.now reach zero }
{
    FirstZero {
        at: fit_count(zero.at, list, reach),
    }
}

fn fit_state<I: Bounded>(state: AllocState<I>, list: &Thresholds, reach: Reach<I>) -> AllocState<I>
    ensures { result ≡ state_fit I.lattice I.numbers list.now reach state }
{
    AllocState {
        size: fit_count(state.size, list, reach),
        live: state.live,
        freed: state.freed,
    }
}

/// All numbers within the ends of the list.
fn greatest_number<I: Bounded>(list: &Thresholds) -> I
    ensures { result ≡ greatest_number I.lattice I.numbers list.now }
{
    of_range(list_ends(list))
}

fn greatest_pointer<I: Bounded>(list: &Thresholds, reach: Reach<I>) -> Pointers<I>
    ensures { result ≡ greatest_pointer I.lattice I.numbers list.now reach }
{
    Pointers {
        bases: reach.bases,
        lo: reach.counts,
        rel: greatest_number(list),
        len: reach.counts,
        part: true,
        null: true,
        ended: true,
    }
}

/// The greatest own value.
fn greatest_value<I: Bounded>(list: &Thresholds, reach: Reach<I>) -> Value<I>
    ensures { result ≡ greatest_value I.lattice I.numbers list.now reach }
{
    let all = Value {
        num: greatest_number(list),
        pointer: greatest_pointer(list, reach),
        indeterminate: true,
        labels: Labels::all(),
    };
    fit_value(all, list, reach)
}

/// The greatest own first zero.
fn greatest_first<I: Bounded>(list: &Thresholds, reach: Reach<I>) -> FirstZero<I>
    ensures { result ≡ greatest_first I.lattice I.numbers list.now reach }
{
    fit_first(FirstZero { at: reach.counts }, list, reach)
}

/// The greatest own state.
fn greatest_state<I: Bounded>(list: &Thresholds, reach: Reach<I>) -> AllocState<I>
    ensures { result ≡ greatest_state I.lattice I.numbers list.now reach }
{
    let all = AllocState {
        size: reach.counts,
        live: true,
        freed: true,
    };
    fit_state(all, list, reach)
}

fn fit_as_value<I: Bounded>(cell: Cell<I>, list: &Thresholds, reach: Reach<I>) -> Cell<I>
    ensures { result ≡ fit_as_value I.lattice I.numbers list.now reach cell }
{
    match cell {
        Cell::Value(value) => Cell::Value(fit_value(value, list, reach)),
        _ => Cell::Value(greatest_value(list, reach)),
    }
}

fn fit_as_first<I: Bounded>(cell: Cell<I>, list: &Thresholds, reach: Reach<I>) -> Cell<I>
    ensures { result ≡ fit_as_first I.lattice I.numbers list.now reach cell }
{
    match cell {
        Cell::First(zero) => Cell::First(fit_first(zero, list, reach)),
        _ => Cell::First(greatest_first(list, reach)),
    }
}

fn fit_as_state<I: Bounded>(cell: Cell<I>, list: &Thresholds, reach: Reach<I>) -> Cell<I>
    ensures { result ≡ fit_as_state I.lattice I.numbers list.now reach cell }
{
    match cell {
        Cell::State(state) => Cell::State(fit_state(state, list, reach)),
        _ => Cell::State(greatest_state(list, reach)),
    }
}

/// A cell made one of a kind: what is beyond the bounds of own cells is cut off, and a cell of another
/// kind becomes the greatest one.
fn make_cell<I: Bounded>(
    kind: CellKind,
    cell: Cell<I>,
    list: &Thresholds,
    reach: Reach<I>,
) -> Cell<I>
    ensures { result ≡ cell_made I.lattice I.numbers list.now reach kind cell }
{
    match kind {
        CellKind::Value => fit_as_value(cell, list, reach),
        CellKind::First => fit_as_first(cell, list, reach),
        CellKind::State => fit_as_state(cell, list, reach),
    }
}

/// Fits a cell in its place. Most are own ones already, and are not written.
#[tactic(auto, unfolding(crate::specs::BoundedRows::FittedRows::cell_fit))]
fn fit_in_place<I: Bounded>(kind: CellKind, cell: &mut Cell<I>, list: &Thresholds, reach: Reach<I>)
    ensures { cell.new ≡ cell_fit I.lattice I.numbers list.now reach kind cell.old }
{
    if !is_own_cell(kind, cell, list, reach) {
        *cell = make_cell(kind, *cell, list, reach);
    }
}

/// Fits the cell of the first position that is left; gives the positions behind it.
fn fit_next<I: Bounded>(
    bases: &[BaseInfo],
    left: KindsLeft,
    cell: &mut Cell<I>,
    list: &Thresholds,
    reach: Reach<I>,
) -> KindsLeft
    ensures cell { cell.new ≡ cell_fit I.lattice I.numbers list.now reach (first_kind (kinds_in bases.now left)) cell.old }
    ensures left { kinds_in bases.now result ≡ kinds_behind (kinds_in bases.now left) }
{
    let here = settled(bases, left);
    fit_in_place(first_kind(bases, here), cell, list, reach);
    kinds_behind(bases, here)
}

fn fit_cells<I: Bounded>(
    bases: &[BaseInfo],
    row: &mut [Cell<I>],
    list: &Thresholds,
    reach: Reach<I>,
)
    ensures length { length row.new ≡ length row.old }
    ensures row { row.new ≡ cells_fit I.lattice I.numbers list.now reach (all_kinds bases.now) row.old }
{
    let mut left = start_of_row(bases);
    for at in 0..row.len() {
        left = fit_next(bases, left, &mut row[at], list, reach);
    }
}

/// Makes of a row one of the program's own: each cell of the kind of its position, with what is beyond
/// the bounds of own cells cut off. An own row stays.
#[tactic(auto, unfolding(crate::specs::BoundedRows::FittedRows::row_fit), using(crate::specs::BoundedRows::FittedRows::all_cells))]
pub fn fit_row<I: Bounded>(bases: &[BaseInfo], row: &mut [Cell<I>], list: &Thresholds)
    ensures length { length row.new ≡ length row.old }
    ensures row { row.new ≡ row_fit I.lattice I.numbers list.now bases.now (length row.old) row.old }
{
    let reach = reach_of(list, bases.len());
    fit_cells(bases, row, list, reach);
}

fn filled_with<I: Bounded>(cell: Cell<I>, _old: Cell<I>) -> Cell<I>
    ensures { result ≡ filled_with cell _old }
{
    cell
}

fn overwrite<I: Bounded>(row: &mut [Cell<I>], cell: Cell<I>)
    ensures length { length row.new ≡ length row.old }
    ensures row { row.new ≡ map (filled_with cell) row.old }
{
    for at in 0..row.len() {
        row[at] = filled_with(cell, row[at]);
    }
}

/// Writes one cell into all of a row.
#[tactic(auto, using(crate::specs::BoundedRows::FittedRows::map_filled))]
pub fn fill_row<I: Bounded>(row: &mut [Cell<I>], cell: Cell<I>)
    ensures length { length row.new ≡ length row.old }
    ensures row { row.new ≡ replicate (length row.old) cell }
{
    overwrite(row, cell);
}
