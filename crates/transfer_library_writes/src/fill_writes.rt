//! Setting bytes to a number, as `memset` does (7.24.6.1 of ISO/IEC 9899:2011).
ghost use Rattle.std.specs.Prelude.{◌≡◌, ◌&&◌, ◌+◌, ◌<◌, length};
ghost use Rattle.transfer_library_writes.specs.FillWrites.{covered_value, is_covered, fill_leaf, fill_leaf_of, fill_leaves, clears_state, clears_instance, class_value, is_from_start, holds_whole, is_up_to_range, fill_stray, fill_class, fill_classes, fill_class_cells, is_up_to, zero_inside, zero_met, fill_zero, fill_zeros, fill_base, fill_base_if, write_fill};
ghost use Rattle.cc_base.specs.IntegerDomains.{IsNear};

use crate::text_writes::lies_in_array;
use c_layout::{BaseInfo, Class, Leaf, Model, ZeroPart};
use cc_base::{IntDomain, Lattice, Tri};
use cfg::Flow;
use pointer_domain::Bases;
use store::{
    Window, any_zero, byte_written, bytes_of, class_at, class_position, has_base, has_stray,
    is_one_instance, is_overlapped, join_value, labelled_null, leaf_position, offsets_of, put_zero,
    state_at, state_position, write_value, zero_at, zero_position, zero_target,
};
use value_domain::strings::FirstZero;
use value_domain::values::{AllocState, Cell, Labels, Value};

/// Bytes of the bases of a set, which are no literals, are set to a number: the offsets at which the
/// write begins, the bytes that it may touch and those that it surely touches, whether it is of one byte
/// at most, whether the number is 0, its labels, and the least count of bytes.
#[derive(Clone, Copy)]
pub struct FillWrite {
    pub bases: Bases,
    pub start: Window,
    pub window: Window,
    pub sure: Option<Window>,
    pub one_byte: bool,
    pub zero: bool,
    pub labels: Labels,
    pub least: i128,
}

/// What a cell is that is surely covered.
fn covered_value<I: IntDomain>(
    model: &Model,
    class: Class,
    signed: bool,
    write: FillWrite,
) -> Value<I>
    ensures { result ≡ covered_value I.lattice I.numbers model.now class signed write }
{
    match class {
        Class::Pointer => labelled_null(write.labels),
        _ => {
            if write.zero {
                Value::of_number(I::one(0), write.labels)
            } else {
                byte_written(model, class, signed, write.labels)
            }
        }
    }
}

/// Whether each byte of the leaf is surely touched: it is one place, of one instance.
fn is_covered(model: &Model, leaf: Leaf, write: FillWrite, alone: bool) -> bool
    ensures { result ≡ is_covered model.now leaf write alone }
{
    match write.sure {
        None => false,
        Some(sure) => {
            let last = leaf
                .offset
                .saturating_add(bytes_of(model, leaf.class).saturating_sub(1));
            alone && leaf.count == 1 && sure.lo <= leaf.offset && last <= sure.hi
        }
    }
}

#[tactic(auto, unfolding(crate::specs::FillWrites::fill_leaf))]
fn fill_leaf<I: IntDomain>(
    model: &Model,
    row: &mut [Cell<I>],
    position: usize,
    leaf: Leaf,
    write: FillWrite,
    alone: bool,
)
    ensures length { length row.new ≡ length row.old }
    ensures row { row.new ≡ fill_leaf I.lattice I.numbers model.now leaf write alone position row.old }
{
    if is_covered(model, leaf, write, alone) {
        let value = covered_value(model, leaf.class, leaf.signed, write);
        write_value(row, position, value, true);
    } else {
        let value = byte_written(model, leaf.class, leaf.signed, write.labels);
        write_value(row, position, value, false);
    }
}

#[tactic(auto, unfolding(crate::specs::FillWrites::fill_leaf_of))]
fn fill_leaf_of<I: IntDomain>(
    model: &Model,
    base: &BaseInfo,
    row: &mut [Cell<I>],
    write: FillWrite,
    alone: bool,
    leaf: Leaf,
    number: usize,
)
    ensures length { length row.new ≡ length row.old }
    ensures row { row.new ≡ fill_leaf_of I.lattice I.numbers model.now base.now write alone leaf number row.old }
{
    if is_overlapped(model, leaf, write.window) {
        fill_leaf(model, row, leaf_position(base, number), leaf, write, alone);
    }
}

#[tactic(auto, unfolding(crate::specs::FillWrites::fill_leaves))]
fn fill_leaves<I: IntDomain>(
    model: &Model,
    base: &BaseInfo,
    row: &mut [Cell<I>],
    write: FillWrite,
    alone: bool,
)
    ensures length { length row.new ≡ length row.old }
    ensures row { row.new ≡ fill_leaves I.lattice I.numbers model.now base.now write alone row.old }
{
    let leaves = base.shape.cells.as_slice();
    for at in 0..leaves.len() {
        fill_leaf_of(model, base, row, write, alone, leaves[at], at);
    }
}

/// Whether the write begins at the first byte alone.
fn is_from_start(start: Window) -> bool
    ensures { result ≡ is_from_start start }
{
    start.lo == 0 && start.hi == 0
}

/// Whether so many bytes are at least as many as the numbers.
fn holds_whole(least: i128, size: Option<(i128, i128)>) -> bool
    ensures { result ≡ holds_whole least size }
{
    match size {
        None => true,
        Some(size) => size.1 <= least,
    }
}

/// Whether a write sets a whole instance of this state to 0.
fn clears_state<I: IntDomain>(state: AllocState<I>, write: FillWrite) -> bool
    ensures { result ≡ clears_state I.numbers state write }
{
    write.zero && is_from_start(write.start) && holds_whole(write.least, state.size.bounds())
}

/// Whether a whole instance is set to 0.
#[tactic(auto, unfolding(crate::specs::FillWrites::clears_instance))]
fn clears_instance<I: IntDomain>(base: &BaseInfo, row: &[Cell<I>], write: FillWrite) -> bool
    ensures { result ≡ clears_instance I.lattice I.numbers base.now row.now write }
{
    clears_state(state_at(row, state_position(base)), write)
}

/// What a class cell is joined with.
fn class_value<I: IntDomain>(
    model: &Model,
    class: Class,
    write: FillWrite,
    cleared: bool,
) -> Value<I>
    ensures { result ≡ class_value I.lattice I.numbers model.now class write cleared }
{
    if cleared {
        covered_value(model, class, true, write)
    } else {
        byte_written(model, class, true, write.labels)
    }
}

fn fill_stray<I: IntDomain>(
    model: &Model,
    base: &BaseInfo,
    row: &mut [Cell<I>],
    write: FillWrite,
    cleared: bool,
)
    ensures length { length row.new ≡ length row.old }
    ensures row { row.new ≡ fill_stray I.lattice I.numbers model.now base.now write cleared row.old }
{
    if has_stray(base.shape.cells.as_slice(), Class::Char, write.window) {
        let value = class_value(model, Class::Char, write, cleared);
        join_value(row, class_position(base, 0), value);
    }
}

/// Joins a class cell behind that of characters.
fn fill_class<I: IntDomain>(
    model: &Model,
    base: &BaseInfo,
    row: &mut [Cell<I>],
    write: FillWrite,
    cleared: bool,
    number: usize,
)
    requires { number < 5 }
    ensures length { length row.new ≡ length row.old }
    ensures row { row.new ≡ fill_class I.lattice I.numbers model.now base.now write cleared number row.old }
{
    let class = number + 1;
    let value = class_value(model, class_at(class), write, cleared);
    join_value(row, class_position(base, class), value);
}

#[tactic(auto, using(store_cells::specs::TurnLaws::turns_next))]
fn fill_classes<I: IntDomain>(
    model: &Model,
    base: &BaseInfo,
    row: &mut [Cell<I>],
    write: FillWrite,
    cleared: bool,
)
    ensures length { length row.new ≡ length row.old }
    ensures row { row.new ≡ fill_classes I.lattice I.numbers model.now base.now write cleared row.old }
{
    fill_stray(model, base, row, write, cleared);
    for number in 0..5 {
        fill_class(model, base, row, write, cleared, number);
    }
}

#[tactic(auto, unfolding(crate::specs::FillWrites::fill_class_cells))]
fn fill_class_cells<I: IntDomain>(
    model: &Model,
    base: &BaseInfo,
    row: &mut [Cell<I>],
    write: FillWrite,
)
    ensures length { length row.new ≡ length row.old }
    ensures row { row.new ≡ fill_class_cells I.lattice I.numbers model.now base.now write row.old }
{
    let cleared = clears_instance(base, row, write);
    fill_classes(model, base, row, write, cleared);
}

/// Whether no offset is above the numbers.
fn is_up_to_range(local: Window, at: Option<(i128, i128)>) -> bool
    ensures { result ≡ is_up_to_range local at }
{
    match at {
        None => true,
        Some((lo, _)) => local.hi as i128 <= lo,
    }
}

/// Whether no offset of the write is behind the first zero.
fn is_up_to<I: IntDomain>(old: FirstZero<I>, local: Window) -> bool
    ensures { result ≡ is_up_to I.numbers old local }
{
    is_up_to_range(local, old.at.bounds())
}

/// The first zero of an array that the write meets: known where zeros are written from one offset on
/// that is not behind it, and the old one too where the write may begin elsewhere.
fn zero_met<I: IntDomain>(
    part: ZeroPart,
    old: FirstZero<I>,
    write: FillWrite,
    alone: bool,
) -> FirstZero<I>
    requires { IsNear (I.numbers.bounds old.at) }
    ensures { result ≡ zero_met I.lattice I.numbers part old write alone }
{
    let inside = match zero_target(part, write.window) {
        None => false,
        Some(target) => target.whole,
    };
    match zero_target(part, write.start) {
        Some(start) if lies_in_array(write.one_byte, inside, start) => {
            zero_inside(old, start.local, write, alone && start.whole)
        }
        _ => any_zero(),
    }
}

fn zero_inside<I: IntDomain>(
    old: FirstZero<I>,
    local: Window,
    write: FillWrite,
    alone: bool,
) -> FirstZero<I>
    requires { IsNear (I.numbers.bounds old.at) }
    ensures { result ≡ zero_inside I.lattice I.numbers old local write alone }
{
    if write.zero && write.least >= 1 && local.is_one() && is_up_to(old, local) {
        let new = old.put(offsets_of(local), Tri::Yes);
        if alone { new } else { old.join(new) }
    } else {
        any_zero()
    }
}

#[tactic(auto, unfolding(crate::specs::FillWrites::fill_zero))]
fn fill_zero<I: IntDomain>(
    base: &BaseInfo,
    row: &mut [Cell<I>],
    write: FillWrite,
    alone: bool,
    part: ZeroPart,
    number: usize,
)
    ensures length { length row.new ≡ length row.old }
    ensures row { row.new ≡ fill_zero I.lattice I.numbers base.now write alone part number row.old }
{
    if zero_target(part, write.window).is_some() {
        let position = zero_position(base, number);
        let old = zero_at(row, position);
        put_zero(row, position, zero_met(part, old, write, alone));
    }
}

#[tactic(auto, unfolding(crate::specs::FillWrites::fill_zeros))]
fn fill_zeros<I: IntDomain>(base: &BaseInfo, row: &mut [Cell<I>], write: FillWrite, alone: bool)
    ensures length { length row.new ≡ length row.old }
    ensures row { row.new ≡ fill_zeros I.lattice I.numbers base.now write alone row.old }
{
    let parts = base.shape.zeros.as_slice();
    for at in 0..parts.len() {
        fill_zero(base, row, write, alone, parts[at], at);
    }
}

#[tactic(auto, unfolding(crate::specs::FillWrites::fill_base))]
fn fill_base<I: IntDomain>(
    model: &Model,
    base: &BaseInfo,
    row: &mut [Cell<I>],
    write: FillWrite,
    alone: bool,
)
    ensures length { length row.new ≡ length row.old }
    ensures row { row.new ≡ fill_base I.lattice I.numbers model.now base.now write alone row.old }
{
    fill_leaves(model, base, row, write, alone);
    if base.shape.heap {
        fill_class_cells(model, base, row, write);
    }
    fill_zeros(base, row, write, alone);
}

#[tactic(auto, unfolding(crate::specs::FillWrites::fill_base_if))]
fn fill_base_if<I: IntDomain>(
    model: &Model,
    base: &BaseInfo,
    row: &mut [Cell<I>],
    write: FillWrite,
    alone: bool,
    wanted: bool,
)
    ensures length { length row.new ≡ length row.old }
    ensures row { row.new ≡ fill_base_if I.lattice I.numbers model.now write alone wanted base.now row.old }
{
    if wanted {
        fill_base(model, base, row, write, alone);
    }
}

/// Sets the bytes in each base of the set.
#[tactic(auto, unfolding(crate::specs::FillWrites::write_fill))]
pub fn write_fill<I: IntDomain>(flow: &Flow, row: &mut [Cell<I>], write: FillWrite)
    ensures length { length row.new ≡ length row.old }
    ensures row { row.new ≡ write_fill I.lattice I.numbers flow.now write row.old }
{
    let bases = flow.bases.as_slice();
    let alone = is_one_instance(bases, write.bases);
    for n in 0..bases.len() {
        let wanted = has_base(write.bases, n);
        fill_base_if(&flow.model, &bases[n], row, write, alone, wanted);
    }
}
