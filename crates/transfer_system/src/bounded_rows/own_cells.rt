//! Which cells are a program's own.
ghost use Rattle.std.specs.Prelude.{◌≡◌, min, length, is_none, is_some, ◌&&◌, not};
ghost use Rattle.pointer_domain.specs.PointerLattice.{pointer_lattice};
ghost use Rattle.value_domain.specs.Values.Values.{value_lattice};
ghost use Rattle.transfer_system.specs.BoundedRows.OwnRows.{bases_below, program_bases, reach_of, is_nowhere, is_somewhere, is_consistent, is_own_pointer, is_known_value, is_known_first, is_known_state, is_own_value, is_own_first, is_own_state, is_own_cell};

use crate::bounded_rows::bounded_numbers::Bounded;
use crate::bounded_rows::cell_kinds::CellKind;
use cc_base::{Lattice, Thresholds};
use pointer_domain::{Bases, END, Pointers};
use value_domain::strings::FirstZero;
use value_domain::values::{AllocState, Cell, Value};

/// What own cells may reach.
#[derive(Clone, Copy)]
pub struct Reach<I> {
    /// What offsets, sizes and first zeros lie within: the numbers from 0 to 2^64, rounded to the list.
    pub counts: I,
    /// The bases of the program.
    pub bases: Bases,
}

/// The bases of a program that has so many; sets hold the numbers below 1,016.
#[tactic(auto, unfolding(crate::specs::BoundedRows::OwnRows::bases_below))]
fn program_bases(count: usize) -> Bases
    ensures { result ≡ program_bases count }
{
    let mut all = Bases::empty();
    for base in 0..count.min(1016) {
        all = all.with(base as u16);
    }
    all
}

/// What the own cells of a program with so many bases may reach.
pub fn reach_of<I: Bounded>(list: &Thresholds, count: usize) -> Reach<I>
    ensures { result ≡ reach_of I.lattice I.numbers list.now count }
{
    Reach {
        counts: I::between(0, END).round(list),
        bases: program_bases(count),
    }
}

fn is_nowhere<I: Bounded>(p: Pointers<I>) -> bool
    ensures { result ≡ is_nowhere I.numbers p }
{
    p.lo.bounds().is_none() && (p.rel.bounds().is_none() && (p.len.bounds().is_none() && !p.part))
}

pub fn is_somewhere<I: Bounded>(p: Pointers<I>) -> bool
    ensures { result ≡ is_somewhere I.numbers p }
{
    p.lo.bounds().is_some() && (p.rel.bounds().is_some() && p.len.bounds().is_some())
}

/// Whether there are bounds exactly where there is a base, and no part without a base.
fn is_consistent<I: Bounded>(p: Pointers<I>) -> bool
    ensures { result ≡ is_consistent I.numbers p }
{
    if p.bases.is_empty() {
        is_nowhere(p)
    } else {
        is_somewhere(p)
    }
}

fn is_own_pointer<I: Bounded>(p: Pointers<I>, reach: Reach<I>) -> bool
    ensures { result ≡ is_own_pointer I.lattice I.numbers reach p }
{
    p.bases.within(reach.bases)
        && (is_consistent(p) && (p.lo.leq(reach.counts) && p.len.leq(reach.counts)))
}

fn is_pointer_within<I: Bounded>(pointer: Pointers<I>, list: &Thresholds) -> bool
    ensures { result ≡ (pointer_lattice I.lattice).within list.now pointer }
{
    pointer.lo.is_within(list) && (pointer.rel.is_within(list) && pointer.len.is_within(list))
}

fn is_value_within<I: Bounded>(value: &Value<I>, list: &Thresholds) -> bool
    ensures { result ≡ (value_lattice I.lattice).within list.now value.now }
{
    value.num.is_within(list) && is_pointer_within(value.pointer, list)
}

fn is_known_value<I: Bounded>(value: &Value<I>, list: &Thresholds, reach: Reach<I>) -> bool
    ensures { result ≡ is_known_value I.lattice I.numbers list.now reach value.now }
{
    is_value_within(value, list) && is_own_pointer(value.pointer, reach)
}

/// Whether numbers lie within the ends of the list, and are counts.
pub fn is_count<I: Bounded>(x: I, list: &Thresholds, reach: Reach<I>) -> bool
    ensures { result ≡ (I.lattice.within list.now x && I.lattice.leq x reach.counts) }
{
    x.is_within(list) && x.leq(reach.counts)
}

fn is_own_value<I: Bounded>(cell: &Cell<I>, list: &Thresholds, reach: Reach<I>) -> bool
    ensures { result ≡ is_own_value I.lattice I.numbers list.now reach cell.now }
{
    match cell {
        Cell::Nothing => false,
        Cell::Value(value) => is_known_value(value, list, reach),
        Cell::First(_) => false,
        Cell::State(_) => false,
        Cell::Mixed => false,
    }
}

fn is_own_first<I: Bounded>(cell: &Cell<I>, list: &Thresholds, reach: Reach<I>) -> bool
    ensures { result ≡ is_own_first I.lattice list.now reach cell.now }
{
    match cell {
        Cell::Nothing => false,
        Cell::Value(_) => false,
        Cell::First(zero) => is_count(zero.at, list, reach),
        Cell::State(_) => false,
        Cell::Mixed => false,
    }
}

fn is_own_state<I: Bounded>(cell: &Cell<I>, list: &Thresholds, reach: Reach<I>) -> bool
    ensures { result ≡ is_own_state I.lattice list.now reach cell.now }
{
    match cell {
        Cell::Nothing => false,
        Cell::Value(_) => false,
        Cell::First(_) => false,
        Cell::State(state) => is_count(state.size, list, reach),
        Cell::Mixed => false,
    }
}

/// Whether a cell is an own one of a kind.
pub fn is_own_cell<I: Bounded>(
    kind: CellKind,
    cell: &Cell<I>,
    list: &Thresholds,
    reach: Reach<I>,
) -> bool
    ensures { result ≡ is_own_cell I.lattice I.numbers list.now reach kind cell.now }
{
    match kind {
        CellKind::Value => is_own_value(cell, list, reach),
        CellKind::First => is_own_first(cell, list, reach),
        CellKind::State => is_own_state(cell, list, reach),
    }
}
