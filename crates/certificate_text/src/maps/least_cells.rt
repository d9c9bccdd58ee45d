//! Cells that are the least of their kind, and have no line.
ghost use Rattle.std.specs.Prelude.{◌≡◌};
ghost use Rattle.certificate_text.specs.Maps.LeastCells.{is_none, is_no_pointer, is_no_value, is_no_state, is_least};

use interval_domain::intervals::Interval;
use pointer_domain::Pointers;
use value_domain::values::{AllocState, Cell, Value};

fn is_none(numbers: Interval) -> bool
    ensures { result ≡ is_none numbers }
{
    match numbers {
        Interval::Bottom => true,
        Interval::Of(_) => false,
    }
}

#[tactic(auto, unfolding(crate::specs::Maps::LeastCells::is_no_pointer))]
fn is_no_pointer(pointer: Pointers<Interval>) -> bool
    ensures { result ≡ is_no_pointer pointer }
{
    pointer.bases.is_empty() && (!pointer.null && !pointer.ended)
}

#[tactic(auto, unfolding(crate::specs::Maps::LeastCells::is_no_value))]
fn is_no_value(value: &Value<Interval>) -> bool
    ensures { result ≡ is_no_value value.now }
{
    is_none(value.num)
        && (is_no_pointer(value.pointer) && (!value.indeterminate && value.labels.is_empty()))
}

#[tactic(auto, unfolding(crate::specs::Maps::LeastCells::is_no_state))]
fn is_no_state(state: &AllocState<Interval>) -> bool
    ensures { result ≡ is_no_state state.now }
{
    is_none(state.size) && (!state.live && !state.freed)
}

/// Whether a cell is the least of its kind, so that it has no line.
pub fn is_least(cell: &Cell<Interval>) -> bool
    ensures { result ≡ is_least cell.now }
{
    match cell {
        Cell::Nothing => true,
        Cell::Value(value) => is_no_value(value),
        Cell::First(zero) => is_none(zero.at),
        Cell::State(state) => is_no_state(state),
        Cell::Mixed => true,
    }
}
