//! Copying bytes, as `memcpy` and `memmove` do (7.24.2.1, 7.24.2.2 of ISO/IEC 9899:2011).
ghost use Rattle.std.specs.Prelude.{◌≡◌, ◌<◌, length};
ghost use Rattle.transfer_library_writes.specs.CopyWrites.{no_bytes, with_cell, with_padding, with_leaf, with_leaves, is_read_class, with_class, with_class_cells, with_base, with_base_if, bytes_of_source, copied_value, with_null, copy_leaf, copy_leaves, copy_class, copy_class_of, copy_class_cells, copy_base, copy_base_if, write_copy};

use c_layout::{BaseInfo, Class, Leaf, Model};
use cc_base::{IntDomain, Lattice};
use cfg::Flow;
use pointer_domain::{Bases, Pointers};
use store::{
    Window, class_at, class_position, forget_zeros, has_base, has_stray, is_overlapped, join_value,
    kind_of, leaf_position, meets_padding, null_pointer, value_at, whole_range,
};
use value_domain::values::{Cell, Labels, Value};

/// What the bytes that are read can hold: whether one is indeterminate, their labels, the pointers
/// whose parts they are, and whether a byte is read that is of no pointer cell or of a heap base.
#[derive(Clone, Copy)]
pub struct CopiedBytes<I> {
    pub indeterminate: bool,
    pub labels: Labels,
    pub pointers: Pointers<I>,
    pub numbers: bool,
}

/// Bytes with this content are written to the bases of a set, which are no literals, within a window.
#[derive(Clone, Copy)]
pub struct CopyWrite<I> {
    pub bases: Bases,
    pub window: Window,
    pub bytes: CopiedBytes<I>,
}

/// No byte.
pub fn no_bytes<I: IntDomain>() -> CopiedBytes<I>
    ensures { result ≡ no_bytes I.lattice }
{
    CopiedBytes {
        indeterminate: false,
        labels: Labels::none(),
        pointers: Pointers::bottom(),
        numbers: false,
    }
}

/// The bytes of a cell besides others.
fn with_cell<I: IntDomain>(found: CopiedBytes<I>, value: Value<I>, class: Class) -> CopiedBytes<I>
    ensures { result ≡ with_cell I.lattice found value class }
{
    let is_pointer = class == Class::Pointer;
    CopiedBytes {
        indeterminate: found.indeterminate || value.indeterminate,
        labels: found.labels.union(value.labels),
        pointers: if is_pointer {
            found.pointers.join(value.pointer)
        } else {
            found.pointers
        },
        numbers: found.numbers || !is_pointer,
    }
}

/// Bytes of which nothing is known, besides others.
fn with_padding<I: IntDomain>(found: CopiedBytes<I>, met: bool) -> CopiedBytes<I>
    ensures { result ≡ with_padding found met }
{
    if !met {
        return found;
    }
    CopiedBytes {
        indeterminate: true,
        labels: Labels::all(),
        pointers: found.pointers,
        numbers: true,
    }
}

#[tactic(auto, unfolding(crate::specs::CopyWrites::with_leaf))]
fn with_leaf<I: IntDomain>(
    model: &Model,
    base: &BaseInfo,
    row: &[Cell<I>],
    window: Window,
    leaf: Leaf,
    number: usize,
    found: CopiedBytes<I>,
) -> CopiedBytes<I>
    ensures { result ≡ with_leaf I.lattice I.numbers model.now base.now row.now window leaf number found }
{
    if is_overlapped(model, leaf, window) {
        let value = value_at(row, leaf_position(base, number));
        with_cell(found, value, leaf.class)
    } else {
        found
    }
}

#[tactic(auto, unfolding(crate::specs::CopyWrites::with_leaves))]
fn with_leaves<I: IntDomain>(
    model: &Model,
    base: &BaseInfo,
    row: &[Cell<I>],
    window: Window,
    start: CopiedBytes<I>,
) -> CopiedBytes<I>
    ensures { result ≡ with_leaves I.lattice I.numbers model.now base.now row.now window start }
{
    let leaves = base.shape.cells.as_slice();
    let mut found = start;
    for at in 0..leaves.len() {
        found = with_leaf(model, base, row, window, leaves[at], at, found);
    }
    found
}

/// Whether a class cell is met: that of characters only where a byte is no character leaf.
fn is_read_class(stray: bool, number: usize) -> bool
    ensures { result ≡ is_read_class stray number }
{
    number != 0 || stray
}

fn with_class<I: IntDomain>(
    base: &BaseInfo,
    row: &[Cell<I>],
    stray: bool,
    number: usize,
    found: CopiedBytes<I>,
) -> CopiedBytes<I>
    ensures { result ≡ with_class I.lattice I.numbers base.now row.now stray number found }
{
    if is_read_class(stray, number) {
        let value = value_at(row, class_position(base, number));
        with_cell(found, value, class_at(number))
    } else {
        found
    }
}

#[tactic(auto, using(store_cells::specs::TurnLaws::turns_next), unfolding(crate::specs::CopyWrites::with_class_cells))]
fn with_class_cells<I: IntDomain>(
    base: &BaseInfo,
    row: &[Cell<I>],
    window: Window,
    start: CopiedBytes<I>,
) -> CopiedBytes<I>
    ensures { result ≡ with_class_cells I.lattice I.numbers base.now row.now window start }
{
    let mut found = start;
    let stray = has_stray(base.shape.cells.as_slice(), Class::Char, window);
    for number in 0..6 {
        found = with_class(base, row, stray, number, found);
    }
    CopiedBytes {
        indeterminate: found.indeterminate,
        labels: found.labels,
        pointers: found.pointers,
        numbers: true,
    }
}

#[tactic(auto, unfolding(crate::specs::CopyWrites::with_base))]
fn with_base<I: IntDomain>(
    model: &Model,
    base: &BaseInfo,
    row: &[Cell<I>],
    window: Window,
    start: CopiedBytes<I>,
) -> CopiedBytes<I>
    ensures { result ≡ with_base I.lattice I.numbers model.now base.now row.now window start }
{
    let found = with_leaves(model, base, row, window, start);
    if base.shape.heap {
        return with_class_cells(base, row, window, found);
    }
    let leaves = base.shape.cells.as_slice();
    with_padding(found, meets_padding(model, leaves, window, base.size))
}

#[tactic(auto, unfolding(crate::specs::CopyWrites::with_base_if))]
fn with_base_if<I: IntDomain>(
    model: &Model,
    row: &[Cell<I>],
    window: Window,
    wanted: bool,
    base: &BaseInfo,
    found: CopiedBytes<I>,
) -> CopiedBytes<I>
    ensures { result ≡ with_base_if I.lattice I.numbers model.now row.now window wanted base.now found }
{
    if wanted {
        with_base(model, base, row, window, found)
    } else {
        found
    }
}

/// What the bytes of a window can hold, over the bases of a set.
pub fn bytes_of_source<I: IntDomain>(
    flow: &Flow,
    row: &[Cell<I>],
    set: Bases,
    window: Option<Window>,
) -> CopiedBytes<I>
    ensures { result ≡ bytes_of_source I.lattice I.numbers flow.now row.now set window }
{
    let Some(window) = window else {
        return no_bytes();
    };
    let bases = flow.bases.as_slice();
    let mut found = no_bytes();
    for n in 0..bases.len() {
        found = with_base_if(&flow.model, row, window, has_base(set, n), &bases[n], found);
    }
    found
}

/// What a cell of a class is joined with where some of its bytes are overwritten by copied ones.
pub fn copied_value<I: IntDomain>(
    model: &Model,
    class: Class,
    signed: bool,
    bytes: CopiedBytes<I>,
) -> Value<I>
    ensures { result ≡ copied_value I.lattice I.numbers model.now class signed bytes }
{
    match class {
        Class::Pointer => Value {
            num: I::bottom(),
            pointer: with_null(bytes.pointers, bytes.numbers),
            indeterminate: bytes.indeterminate,
            labels: bytes.labels,
        },
        _ => whole_range(
            kind_of(model, class, signed),
            bytes.labels,
            bytes.indeterminate,
        ),
    }
}

fn with_null<I: IntDomain>(p: Pointers<I>, null: bool) -> Pointers<I>
    ensures { result ≡ with_null I.lattice p null }
{
    if null { p.join(null_pointer()) } else { p }
}

#[tactic(auto, unfolding(crate::specs::CopyWrites::copy_leaves))]
fn copy_leaves<I: IntDomain>(
    model: &Model,
    base: &BaseInfo,
    row: &mut [Cell<I>],
    write: CopyWrite<I>,
)
    ensures length { length row.new ≡ length row.old }
    ensures row { row.new ≡ copy_leaves I.lattice I.numbers model.now base.now write row.old }
{
    let leaves = base.shape.cells.as_slice();
    for at in 0..leaves.len() {
        copy_leaf(model, row, leaf_position(base, at), leaves[at], &write);
    }
}

#[tactic(auto, unfolding(crate::specs::CopyWrites::copy_leaf))]
fn copy_leaf<I: IntDomain>(
    model: &Model,
    row: &mut [Cell<I>],
    position: usize,
    leaf: Leaf,
    write: &CopyWrite<I>,
)
    ensures length { length row.new ≡ length row.old }
    ensures row { row.new ≡ copy_leaf I.lattice I.numbers model.now write.now leaf position row.old }
{
    if is_overlapped(model, leaf, write.window) {
        let value = copied_value(model, leaf.class, leaf.signed, write.bytes);
        join_value(row, position, value);
    }
}

fn copy_class_of<I: IntDomain>(
    model: &Model,
    base: &BaseInfo,
    row: &mut [Cell<I>],
    write: &CopyWrite<I>,
    stray: bool,
    number: usize,
)
    ensures length { length row.new ≡ length row.old }
    ensures row { row.new ≡ copy_class_of I.lattice I.numbers model.now base.now write.now stray number row.old }
{
    if is_read_class(stray, number) {
        let position = class_position(base, number);
        copy_class(model, row, position, class_at(number), write);
    }
}

#[tactic(auto, using(store_cells::specs::TurnLaws::turns_next), unfolding(crate::specs::CopyWrites::copy_class_cells))]
fn copy_class_cells<I: IntDomain>(
    model: &Model,
    base: &BaseInfo,
    row: &mut [Cell<I>],
    write: CopyWrite<I>,
)
    ensures length { length row.new ≡ length row.old }
    ensures row { row.new ≡ copy_class_cells I.lattice I.numbers model.now base.now write row.old }
{
    let stray = has_stray(base.shape.cells.as_slice(), Class::Char, write.window);
    for number in 0..6 {
        copy_class_of(model, base, row, &write, stray, number);
    }
}

fn copy_class<I: IntDomain>(
    model: &Model,
    row: &mut [Cell<I>],
    position: usize,
    class: Class,
    write: &CopyWrite<I>,
)
    ensures length { length row.new ≡ length row.old }
    ensures row { row.new ≡ copy_class I.lattice I.numbers model.now write.now position class row.old }
{
    join_value(row, position, copied_value(model, class, true, write.bytes));
}

#[tactic(auto, unfolding(crate::specs::CopyWrites::copy_base))]
fn copy_base<I: IntDomain>(model: &Model, base: &BaseInfo, row: &mut [Cell<I>], write: CopyWrite<I>)
    ensures length { length row.new ≡ length row.old }
    ensures row { row.new ≡ copy_base I.lattice I.numbers model.now base.now write row.old }
{
    copy_leaves(model, base, row, write);
    if base.shape.heap {
        copy_class_cells(model, base, row, write);
    }
    forget_zeros(base, row, write.window);
}

#[tactic(auto, unfolding(crate::specs::CopyWrites::copy_base_if))]
fn copy_base_if<I: IntDomain>(
    model: &Model,
    base: &BaseInfo,
    row: &mut [Cell<I>],
    write: &CopyWrite<I>,
    wanted: bool,
)
    ensures length { length row.new ≡ length row.old }
    ensures row { row.new ≡ copy_base_if I.lattice I.numbers model.now write.now wanted base.now row.old }
{
    if wanted {
        copy_base(model, base, row, *write);
    }
}

/// Writes the bytes to each base of the set.
#[tactic(auto, unfolding(crate::specs::CopyWrites::write_copy))]
pub fn write_copy<I: IntDomain>(flow: &Flow, row: &mut [Cell<I>], write: CopyWrite<I>)
    ensures length { length row.new ≡ length row.old }
    ensures row { row.new ≡ write_copy I.lattice I.numbers flow.now write row.old }
{
    let bases = flow.bases.as_slice();
    for n in 0..bases.len() {
        let wanted = has_base(write.bases, n);
        copy_base_if(&flow.model, &bases[n], row, &write, wanted);
    }
}
