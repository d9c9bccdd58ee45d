//! Where a row keeps what belongs to a base: its leaves by offset, on a heap base the six class
//! cells, its first zeros by offset, and the allocation state of a heap base.
ghost use Rattle.std.specs.Prelude.{◌≡◌, ◌+◌, length, set};
ghost use Rattle.cc_base.specs.IntegerDomains.{IsNear};
ghost use Rattle.pointer_domain.specs.PointerTables.{IsNearPointer};
ghost use Rattle.store_cells.specs.RowPositions.{capped, leaf_position, class_position, class_count, zero_position, state_position, value_count, value_in, zero_in, state_in, cell_at, near_state, value_at, zero_at, state_at, put_value, put_zero, put_state, join_value, join_zero};

use crate::near_values::{near_number, near_value};
use c_layout::{BaseInfo, Class};
use cc_base::{IntDomain, Lattice};
use value_domain::strings::FirstZero;
use value_domain::values::{AllocState, Cell, Value};

/// The classes in the order of the class cells of a heap base.
pub const CLASSES: [Class; 6] = [
    Class::Char,
    Class::Short,
    Class::Int,
    Class::Long,
    Class::LongLong,
    Class::Pointer,
];

/// The position behind so many cells. No row is so long that it stops short.
fn behind(at: usize, count: usize) -> usize
    ensures { result ≡ capped (at + count) }
{
    at.saturating_add(count)
}

/// The position of a leaf of a base.
pub fn leaf_position(base: &BaseInfo, leaf: usize) -> usize
    ensures { result ≡ leaf_position base.now leaf }
{
    behind(base.first as usize, leaf)
}

/// The position of a class cell of a heap base.
pub fn class_position(base: &BaseInfo, class: usize) -> usize
    ensures { result ≡ class_position base.now class }
{
    behind(
        leaf_position(base, base.shape.cells.as_slice().len()),
        class,
    )
}

/// How many class cells a base has.
fn class_count(base: &BaseInfo) -> usize
    ensures { result ≡ class_count base.now }
{
    if base.shape.heap { 6 } else { 0 }
}

/// The position of a first zero of a base.
pub fn zero_position(base: &BaseInfo, part: usize) -> usize
    ensures { result ≡ zero_position base.now part }
{
    behind(class_position(base, class_count(base)), part)
}

/// The position of the allocation state of a heap base.
pub fn state_position(base: &BaseInfo) -> usize
    ensures { result ≡ state_position base.now }
{
    zero_position(base, base.shape.zeros.as_slice().len())
}

/// How many values a base has: its leaves and class cells, which stand in one run.
pub fn value_count(base: &BaseInfo) -> usize
    ensures { result ≡ value_count base.now }
{
    behind(base.shape.cells.as_slice().len(), class_count(base))
}

/// The value that a cell is; the least one where it is of another kind.
fn value_in<I: IntDomain>(cell: Cell<I>) -> Value<I>
    ensures { result ≡ value_in I.lattice cell }
{
    match cell {
        Cell::Value(v) => v,
        Cell::Nothing | Cell::First(_) | Cell::State(_) | Cell::Mixed => Value::bottom(),
    }
}

/// The first zero that a cell is; the least one where it is of another kind.
fn zero_in<I: IntDomain>(cell: Cell<I>) -> FirstZero<I>
    ensures { result ≡ zero_in I.lattice cell }
{
    match cell {
        Cell::First(f) => f,
        Cell::Nothing | Cell::Value(_) | Cell::State(_) | Cell::Mixed => FirstZero::bottom(),
    }
}

/// The allocation state that a cell is; the least one where it is of another kind.
fn state_in<I: IntDomain>(cell: Cell<I>) -> AllocState<I>
    ensures { result ≡ state_in I.lattice cell }
{
    match cell {
        Cell::State(s) => s,
        Cell::Nothing | Cell::Value(_) | Cell::First(_) | Cell::Mixed => AllocState::bottom(),
    }
}

/// The cell at a position; the least one behind the row.
fn cell_at<I: IntDomain>(row: &[Cell<I>], at: usize) -> Cell<I>
    ensures { result ≡ cell_at row.now at }
{
    match row.get(at) {
        Some(cell) => *cell,
        None => Cell::Nothing,
    }
}

/// The value at a position; the least one where none is kept there.
#[tactic(auto, unfolding(crate::specs::RowPositions::value_at))]
pub fn value_at<I: IntDomain>(row: &[Cell<I>], at: usize) -> Value<I>
    ensures number { IsNear (I.numbers.bounds result.num) }
    ensures pointer { IsNearPointer I.numbers result.pointer }
    ensures value { result ≡ value_at I.lattice I.numbers row.now at }
{
    near_value(value_in(cell_at(row, at)))
}

/// The first zero at a position; the least one where none is kept there.
#[tactic(auto, unfolding(crate::specs::RowPositions::zero_at))]
pub fn zero_at<I: IntDomain>(row: &[Cell<I>], at: usize) -> FirstZero<I>
    ensures near { IsNear (I.numbers.bounds result.at) }
    ensures value { result ≡ zero_at I.lattice I.numbers row.now at }
{
    FirstZero {
        at: near_number(zero_in(cell_at(row, at)).at),
    }
}

/// The allocation state with a near size.
fn near_state<I: IntDomain>(s: AllocState<I>) -> AllocState<I>
    ensures near { IsNear (I.numbers.bounds result.size) }
    ensures value { result ≡ near_state I.lattice I.numbers s }
{
    AllocState {
        size: near_number(s.size),
        live: s.live,
        freed: s.freed,
    }
}

/// The allocation state at a position; the least one where none is kept there.
#[tactic(auto, unfolding(crate::specs::RowPositions::state_at))]
pub fn state_at<I: IntDomain>(row: &[Cell<I>], at: usize) -> AllocState<I>
    ensures near { IsNear (I.numbers.bounds result.size) }
    ensures value { result ≡ state_at I.lattice I.numbers row.now at }
{
    near_state(state_in(cell_at(row, at)))
}

fn put_cell<I: IntDomain>(row: &mut [Cell<I>], at: usize, cell: Cell<I>)
    ensures length { length row.new ≡ length row.old }
    ensures row { row.new ≡ set row.old at cell }
{
    if at < row.len() {
        row[at] = cell;
    }
}

/// Keeps a value at a position.
pub fn put_value<I: IntDomain>(row: &mut [Cell<I>], at: usize, v: Value<I>)
    ensures length { length row.new ≡ length row.old }
    ensures row { row.new ≡ put_value row.old at v }
{
    put_cell(row, at, Cell::Value(v));
}

/// Joins a value into the one at a position.
#[tactic(auto, unfolding(crate::specs::RowPositions::join_value))]
pub fn join_value<I: IntDomain>(row: &mut [Cell<I>], at: usize, v: Value<I>)
    ensures length { length row.new ≡ length row.old }
    ensures row { row.new ≡ join_value I.lattice I.numbers row.old at v }
{
    let old = value_at(row, at);
    put_value(row, at, old.join(v));
}

/// Keeps a first zero at a position.
pub fn put_zero<I: IntDomain>(row: &mut [Cell<I>], at: usize, f: FirstZero<I>)
    ensures length { length row.new ≡ length row.old }
    ensures row { row.new ≡ put_zero row.old at f }
{
    put_cell(row, at, Cell::First(f));
}

/// Joins a first zero into the one at a position.
#[tactic(auto, unfolding(crate::specs::RowPositions::join_zero))]
pub fn join_zero<I: IntDomain>(row: &mut [Cell<I>], at: usize, f: FirstZero<I>)
    ensures length { length row.new ≡ length row.old }
    ensures row { row.new ≡ join_zero I.lattice I.numbers row.old at f }
{
    let old = zero_at(row, at);
    put_zero(row, at, old.join(f));
}

/// Keeps an allocation state at a position.
pub fn put_state<I: IntDomain>(row: &mut [Cell<I>], at: usize, s: AllocState<I>)
    ensures length { length row.new ≡ length row.old }
    ensures row { row.new ≡ put_state row.old at s }
{
    put_cell(row, at, Cell::State(s));
}
