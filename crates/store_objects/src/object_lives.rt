//! The life of objects: entered, left, made indeterminate and cleared.
ghost use Rattle.std.specs.Prelude.{◌≡◌, length, map};
ghost use Rattle.store_objects.specs.ObjectLives.{set_values, blank_object, forget, zero_value, clear_leaves, clear_object, clear, ended_pointer, ended_cell, holds_base, leave_object, leave};

use crate::live_bases::{MOST_BASES, has_base};
use c_layout::{BaseInfo, Class};
use cc_base::{IntDomain, Lattice};
use pointer_domain::Pointers;
use store_cells::{
    is_pointer, leaf_position, no_zero, null_pointer, put_value, set_zeros, value_count, zero_first,
};
use value_domain::strings::FirstZero;
use value_domain::values::{Cell, Labels, Value};

/// Each cell of the base, class cells too, has this value.
#[tactic(auto, using(store_cells::specs::TurnLaws::turns_next), unfolding(crate::specs::ObjectLives::set_values))]
pub fn set_values<I: IntDomain>(base: &BaseInfo, row: &mut [Cell<I>], value: Value<I>)
    ensures length { length row.new ≡ length row.old }
    ensures row { row.new ≡ set_values base.now value row.old }
{
    for at in 0..value_count(base) {
        put_value(row, leaf_position(base, at), value);
    }
}

/// An object's bytes are indeterminate.
#[tactic(auto, unfolding(crate::specs::ObjectLives::blank_object))]
fn blank_object<I: IntDomain>(base: &BaseInfo, row: &mut [Cell<I>])
    ensures length { length row.new ≡ length row.old }
    ensures row { row.new ≡ blank_object I.lattice I.numbers base.now row.old }
{
    set_values(base, row, Value::blank());
    set_zeros(base, row, no_zero());
}

/// A fresh instance of a block's object, with indeterminate bytes.
pub fn enter<I: IntDomain>(bases: &[BaseInfo], row: &mut [Cell<I>], base: u32)
    ensures length { length row.new ≡ length row.old }
    ensures row { row.new ≡ forget I.lattice I.numbers bases.now base row.old }
{
    forget(bases, row, base);
}

/// All bytes of an object become indeterminate.
#[tactic(auto, unfolding(crate::specs::ObjectLives::forget))]
pub fn forget<I: IntDomain>(bases: &[BaseInfo], row: &mut [Cell<I>], base: u32)
    ensures length { length row.new ≡ length row.old }
    ensures row { row.new ≡ forget I.lattice I.numbers bases.now base row.old }
{
    if let Some(info) = bases.get(base as usize) {
        blank_object(info, row);
    }
}

/// What a cell of a class is where all its bytes are 0: 0 or null, without labels.
pub fn zero_value<I: IntDomain>(class: Class) -> Value<I>
    ensures { result ≡ zero_value I.lattice I.numbers class }
{
    if is_pointer(class) {
        Value::of_pointer(null_pointer())
    } else {
        Value::of_number(I::one(0), Labels::none())
    }
}

/// All bytes of an object become 0.
#[tactic(auto, unfolding(crate::specs::ObjectLives::clear))]
pub fn clear<I: IntDomain>(bases: &[BaseInfo], row: &mut [Cell<I>], base: u32)
    ensures length { length row.new ≡ length row.old }
    ensures row { row.new ≡ clear I.lattice I.numbers bases.now base row.old }
{
    if let Some(info) = bases.get(base as usize) {
        clear_object(info, row);
    }
}

#[tactic(auto, unfolding(crate::specs::ObjectLives::clear_object))]
fn clear_object<I: IntDomain>(base: &BaseInfo, row: &mut [Cell<I>])
    ensures length { length row.new ≡ length row.old }
    ensures row { row.new ≡ clear_object I.lattice I.numbers base.now row.old }
{
    clear_leaves(base, row);
    set_zeros(base, row, zero_first());
}

#[tactic(auto, unfolding(crate::specs::ObjectLives::clear_leaves))]
fn clear_leaves<I: IntDomain>(base: &BaseInfo, row: &mut [Cell<I>])
    ensures length { length row.new ≡ length row.old }
    ensures row { row.new ≡ clear_leaves I.lattice I.numbers base.now row.old }
{
    let leaves = base.shape.cells.as_slice();
    for at in 0..leaves.len() {
        put_value(row, leaf_position(base, at), zero_value(leaves[at].class));
    }
}

/// The cell where the pointers into a base have ended.
fn ended_cell<I: IntDomain>(cell: Cell<I>, base: u32) -> Cell<I>
    ensures { result ≡ ended_cell I.lattice base cell }
{
    match cell {
        Cell::Value(v) => Cell::Value(Value {
            num: v.num,
            pointer: ended_pointer(v.pointer, base),
            indeterminate: v.indeterminate,
            labels: v.labels,
        }),
        Cell::Nothing => Cell::Nothing,
        Cell::First(f) => Cell::First(f),
        Cell::State(s) => Cell::State(s),
        Cell::Mixed => Cell::Mixed,
    }
}

fn ended_pointer<I: IntDomain>(p: Pointers<I>, base: u32) -> Pointers<I>
    ensures { result ≡ ended_pointer I.lattice base p }
{
    if (base as usize) < MOST_BASES {
        p.end(base as u16)
    } else {
        p
    }
}

/// Whether the pointers of a cell may point into a base.
fn holds_base<I: IntDomain>(cell: &Cell<I>, base: u32) -> bool
    ensures { result ≡ holds_base base cell.now }
{
    match cell {
        Cell::Value(v) => has_base(v.pointer.bases, base as usize),
        Cell::Nothing | Cell::First(_) | Cell::State(_) | Cell::Mixed => false,
    }
}

/// Ends the pointers of a cell into a base. Few cells have any, and the others are not written.
#[tactic(auto, using(crate::specs::ObjectLives::ended_elsewhere))]
fn end_in_place<I: IntDomain>(cell: &mut Cell<I>, base: u32)
    ensures { cell.new ≡ ended_cell I.lattice base cell.old }
{
    if holds_base(cell, base) {
        *cell = ended_cell(*cell, base);
    }
}

fn end_pointers<I: IntDomain>(row: &mut [Cell<I>], base: u32)
    ensures length { length row.new ≡ length row.old }
    ensures row { row.new ≡ map (ended_cell I.lattice base) row.old }
{
    for at in 0..row.len() {
        end_in_place(&mut row[at], base);
    }
}

/// The object of a block is ended: pointers to it are to an ended object, and nothing is in its cells.
#[tactic(auto, unfolding(crate::specs::ObjectLives::leave))]
pub fn leave<I: IntDomain>(bases: &[BaseInfo], row: &mut [Cell<I>], base: u32)
    ensures length { length row.new ≡ length row.old }
    ensures row { row.new ≡ leave I.lattice bases.now base row.old }
{
    if let Some(info) = bases.get(base as usize) {
        leave_object(base, info, row);
    }
}

#[tactic(auto, unfolding(crate::specs::ObjectLives::leave_object))]
fn leave_object<I: IntDomain>(number: u32, base: &BaseInfo, row: &mut [Cell<I>])
    ensures length { length row.new ≡ length row.old }
    ensures row { row.new ≡ leave_object I.lattice number base.now row.old }
{
    end_pointers(row, number);
    set_values(base, row, Value::bottom());
    set_zeros(base, row, FirstZero::bottom());
}
