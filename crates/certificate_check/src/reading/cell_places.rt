//! Which cells may have a line, and where.
ghost use Rattle.std.specs.Prelude.{◌≡◌, is_none, is_some};
ghost use Rattle.interval_domain.specs.Intervals.IntervalNumbers.{interval_numbers};
ghost use Rattle.transfer_system.specs.BoundedRows.OwnRows.{is_nowhere, is_somewhere, is_consistent};
ghost use Rattle.certificate_check.specs.Reading.CellPlaces.{is_consistent_cell, has_line, has_place};

use cc_base::{IntDomain, Lattice};
use certificate_text::maps::is_least;
use interval_domain::intervals::Interval;
use pointer_domain::Pointers;
use value_domain::values::Cell;

fn is_nowhere(p: Pointers<Interval>) -> bool
    ensures { result ≡ is_nowhere interval_numbers p }
{
    p.lo.bounds().is_none() && (p.rel.bounds().is_none() && (p.len.bounds().is_none() && !p.part))
}

fn is_somewhere(p: Pointers<Interval>) -> bool
    ensures { result ≡ is_somewhere interval_numbers p }
{
    p.lo.bounds().is_some() && (p.rel.bounds().is_some() && p.len.bounds().is_some())
}

/// Whether there are bounds exactly where there is a base, and no part without a base.
fn is_consistent(p: Pointers<Interval>) -> bool
    ensures { result ≡ is_consistent interval_numbers p }
{
    if p.bases.is_empty() {
        is_nowhere(p)
    } else {
        is_somewhere(p)
    }
}

fn is_consistent_cell(cell: &Cell<Interval>) -> bool
    ensures { result ≡ is_consistent_cell cell.now }
{
    match cell {
        Cell::Value(value) => is_consistent(value.pointer),
        _ => true,
    }
}

/// Whether a cell may have a line where the greatest one is given.
fn has_line(greatest: &Cell<Interval>, cell: &Cell<Interval>) -> bool
    ensures { result ≡ has_line greatest.now cell.now }
{
    (*cell).leq(*greatest) && (!is_least(cell) && is_consistent_cell(cell))
}

/// Whether a cell may have a line at a position, which is to be one from `from` on with room for so
/// many behind it as are owed.
pub fn has_place(
    greatest: &[Cell<Interval>],
    owed: u32,
    from: usize,
    at: u32,
    cell: &Cell<Interval>,
) -> bool
    ensures { result ≡ has_place greatest.now owed from at cell.now }
{
    from <= at as usize
        && (at as usize + (owed as usize) < greatest.len()
            && has_line(&greatest[at as usize], cell))
}
