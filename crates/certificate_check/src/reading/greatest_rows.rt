//! The greatest and the least row of a program whose numbers are those of certificates.
ghost use Rattle.std.specs.Prelude.{◌≡◌, IfOk, length, map};
ghost use Rattle.certificate_check.specs.Reading.GreatestRows.{cert_numbers, greatest_row, emptied, least_row};

use cc_base::{Lattice, Memory, Thresholds};
use cfg::Flow;
use interval_domain::intervals::Interval;
use std::alloc::Global;
use transfer_system::bounded_rows::fit_row;
use value_domain::strings::FirstZero;
use value_domain::values::{AllocState, Cell, Value};

/// The ends of the bounds of a certificate: -2^64 and 2^64.
///
/// # Errors
///
/// Want of memory.
pub fn cert_list(alloc: Global) -> Result<Thresholds, Memory>
    ensures { IfOk result (λ list. list ≡ cert_numbers) }
{
    let mut numbers = Vec::new(alloc);
    numbers.push(-0x1_0000_0000_0000_0000)?;
    numbers.push(0x1_0000_0000_0000_0000)?;
    Ok(Thresholds::from_ascending(numbers))
}

/// The row of a program in which each cell is the greatest one of the kind that its position has,
/// with numbers within the ends of the list of certificates.
///
/// # Errors
///
/// Want of memory.
#[tactic(auto, unfolding(crate::specs::Reading::GreatestRows::greatest_row))]
pub fn greatest_row(
    alloc: Global,
    flow: &Flow,
    list: &Thresholds,
) -> Result<Vec<Cell<Interval>>, Memory>
    requires { list.now ≡ cert_numbers }
    ensures row { IfOk result (λ row. row.items ≡ greatest_row flow.now) }
    ensures length { IfOk result (λ row. length row.items ≡ flow.now.width) }
{
    let mut row = vec![in alloc; Cell::<Interval>::bottom(); flow.width as usize]?;
    fit_row(flow.bases.as_slice(), row.as_mut_slice(), list);
    Ok(row)
}

/// The least cell of the same kind.
fn emptied(cell: &Cell<Interval>) -> Cell<Interval>
    ensures { result ≡ emptied cell.now }
{
    match cell {
        Cell::Nothing => Cell::Nothing,
        Cell::Value(_) => Cell::Value(Value::bottom()),
        Cell::First(_) => Cell::First(FirstZero::bottom()),
        Cell::State(_) => Cell::State(AllocState::bottom()),
        Cell::Mixed => Cell::Nothing,
    }
}

/// Makes of a row the least one.
pub fn clear_row(greatest: &[Cell<Interval>], row: &mut [Cell<Interval>])
    requires { length row.old ≡ length greatest.now }
    ensures { row.new ≡ least_row greatest.now }
{
    for at in 0..row.len() {
        row[at] = emptied(&greatest[at]);
    }
}
