//! Stores.
ghost use Rattle.std.specs.Prelude.{◌≡◌, ◌<◌, length, true, false, Some, None};
ghost use Rattle.cc_base.specs.IntegerDomains.{IsNear};
ghost use Rattle.pointer_domain.specs.PointerTables.{IsNearPointer};
ghost use Rattle.store.specs.Stores.{is_other_or, any_other, has_other_place, has_own_place, has_place, has_place_or, any_place, can_store, is_nothing, stored_value, cell_value, is_strong, store_leaf_at, store_leaves, store_class_cell, store_other_leaf_at, store_other_leaves, store_other_class, store_other_classes, store_other_bytes, store_own, store_character, store_wider, store_base, store_if, store_all, write_to, store_access, reached_of, store};

use crate::leaf_selection::{is_other, is_selected, meets_padding, selected_count};
use crate::loads::{loaded_labels, reaches_class};
use c_layout::{BaseInfo, Class, Leaf, Model};
use cc_base::{IntDomain, Rel};
use pointer_domain::{Bases, Pointers};
use store_cells::{
    Access, Window, as_stored, byte_written, bytes_of, class_at, class_number, class_position,
    forget_zeros, is_pointer, join_value, leaf_position, put_character, same_class, window_of,
    write_value,
};
use store_objects::{has_base, is_one_instance, live_of, writable_of};
use value_domain::values::{Cell, Labels, Value};

/// A store of a value, and whether its pointer has one base that stands for one instance.
#[derive(Clone, Copy)]
pub struct Write<I> {
    pub access: Access,
    pub value: Value<I>,
    pub alone: bool,
}

/// Stores a value of a class and a signedness through the pointers: over the bases that may be live
/// and are no literals. False where there is nothing to store, or no place for it.
#[tactic(auto, unfolding(crate::specs::Stores::store))]
pub fn store<I: IntDomain>(
    model: &Model,
    bases: &[BaseInfo],
    row: &mut [Cell<I>],
    at: Pointers<I>,
    class: Class,
    signed: bool,
    value: Value<I>,
) -> bool
    requires at { IsNearPointer I.numbers at }
    requires number { IsNear (I.numbers.bounds value.num) }
    ensures length { length row.new ≡ length row.old }
    ensures reached { result ≡ true → store I.lattice I.numbers model.now bases.now at class signed value row.old ≡ Some row.new }
    ensures unreached { result ≡ false → store I.lattice I.numbers model.now bases.now at class signed value row.old ≡ None }
{
    match window_of(at, bytes_of(model, class)) {
        None => false,
        Some(window) => {
            let access = Access {
                class,
                signed,
                window,
            };
            let reached = reached_of(bases, row, at.bases);
            store_access(model, bases, row, reached, access, value)
        }
    }
}

/// The bases of the set that may be live and are no literals.
fn reached_of<I: IntDomain>(bases: &[BaseInfo], row: &[Cell<I>], set: Bases) -> Bases
    ensures { result ≡ reached_of I.lattice I.numbers bases.now row.now set }
{
    writable_of(bases, live_of(bases, row, set))
}

/// Stores a value to the bases of a set. False where there is nothing to store, or no place for it.
#[tactic(auto, unfolding(crate::specs::Stores::store_access))]
fn store_access<I: IntDomain>(
    model: &Model,
    bases: &[BaseInfo],
    row: &mut [Cell<I>],
    set: Bases,
    access: Access,
    value: Value<I>,
) -> bool
    requires { IsNear (I.numbers.bounds value.num) }
    ensures length { length row.new ≡ length row.old }
    ensures reached { result ≡ true → store_access I.lattice I.numbers model.now bases.now set access value row.old ≡ Some row.new }
    ensures unreached { result ≡ false → store_access I.lattice I.numbers model.now bases.now set access value row.old ≡ None }
{
    if can_store(model, bases, set, access, value) {
        let write = write_to(bases, set, access, value);
        store_all(model, bases, row, set, write);
        true
    } else {
        false
    }
}

/// Whether there is something to store, and a place for it.
#[tactic(auto, unfolding(crate::specs::Stores::can_store))]
fn can_store<I: IntDomain>(
    model: &Model,
    bases: &[BaseInfo],
    set: Bases,
    access: Access,
    value: Value<I>,
) -> bool
    ensures { result ≡ can_store I.numbers model.now bases.now set access value }
{
    !is_nothing(access.class, value) && any_place(model, bases, set, access)
}

/// Whether there is no value of the class.
fn is_nothing<I: IntDomain>(class: Class, value: Value<I>) -> bool
    ensures { result ≡ is_nothing I.numbers class value }
{
    if is_pointer(class) {
        !value.pointer.is_any() && !value.pointer.ended
    } else {
        value.num.bounds().is_none()
    }
}

/// The write of a value to the bases of a set.
fn write_to<I: IntDomain>(
    bases: &[BaseInfo],
    set: Bases,
    access: Access,
    value: Value<I>,
) -> Write<I>
    ensures number { result.value.num ≡ value.num }
    ensures value { result ≡ write_to bases.now set access value }
{
    Write {
        access,
        value: stored_value(access.class, value),
        alone: is_one_instance(bases, set),
    }
}

/// What is stored: a pointer without labels, or a number with its labels.
fn stored_value<I: IntDomain>(class: Class, value: Value<I>) -> Value<I>
    ensures number { result.num ≡ value.num }
    ensures value { result ≡ stored_value class value }
{
    Value {
        num: value.num,
        pointer: value.pointer,
        indeterminate: false,
        labels: loaded_labels(class, value.labels),
    }
}

/// Whether some base of the set has a place for the access.
#[tactic(auto, unfolding(crate::specs::Stores::any_place))]
fn any_place(model: &Model, bases: &[BaseInfo], set: Bases, access: Access) -> bool
    ensures { result ≡ any_place model.now bases.now set access }
{
    let mut found = false;
    for n in 0..bases.len() {
        found = has_place_or(found, model, &bases[n], n, set, access);
    }
    found
}

/// Whether something was found, or the set has the base with this number and it has a place.
fn has_place_or(
    found: bool,
    model: &Model,
    base: &BaseInfo,
    number: usize,
    set: Bases,
    access: Access,
) -> bool
    ensures { result ≡ has_place_or model.now set access base.now number found }
{
    found || (has_base(set, number) && has_place(model, base, access))
}

/// Whether the base has a place for the access.
#[tactic(auto, unfolding(crate::specs::Stores::has_place))]
fn has_place(model: &Model, base: &BaseInfo, access: Access) -> bool
    ensures { result ≡ has_place model.now base.now access }
{
    has_own_place(base, access)
        || (same_class(access.class, Class::Char) && has_other_place(model, base, access.window))
}

/// Whether the access reaches a cell of its own class.
#[tactic(auto, unfolding(crate::specs::Stores::has_own_place))]
fn has_own_place(base: &BaseInfo, access: Access) -> bool
    ensures { result ≡ has_own_place base.now access }
{
    let leaves = base.shape.cells.as_slice();
    selected_count(leaves, access.class, access.window) != 0 || reaches_class(base, access)
}

/// Whether a character goes to bytes of cells of other classes, or to bytes of no cell.
#[tactic(auto, unfolding(crate::specs::Stores::has_other_place))]
fn has_other_place(model: &Model, base: &BaseInfo, window: Window) -> bool
    ensures { result ≡ has_other_place model.now base.now window }
{
    let leaves = base.shape.cells.as_slice();
    base.shape.heap
        || (any_other(model, leaves, window) || meets_padding(model, leaves, window, base.size))
}

/// Whether a byte of a leaf of another class lies in the window.
#[tactic(auto, unfolding(crate::specs::Stores::any_other))]
fn any_other(model: &Model, leaves: &[Leaf], window: Window) -> bool
    ensures { result ≡ any_other model.now leaves.now window }
{
    let mut found = false;
    for at in 0..leaves.len() {
        found = is_other_or(found, model, leaves[at], window);
    }
    found
}

/// Whether something was found, or a byte of the leaf, which is of another class, lies in the window.
fn is_other_or(found: bool, model: &Model, leaf: Leaf, window: Window) -> bool
    ensures { result ≡ is_other_or model.now window leaf 0 found }
{
    found || is_other(model, leaf, window)
}

#[tactic(auto, unfolding(crate::specs::Stores::store_all))]
fn store_all<I: IntDomain>(
    model: &Model,
    bases: &[BaseInfo],
    row: &mut [Cell<I>],
    set: Bases,
    write: Write<I>,
)
    requires { IsNear (I.numbers.bounds write.value.num) }
    ensures length { length row.new ≡ length row.old }
    ensures row { row.new ≡ store_all I.lattice I.numbers model.now bases.now set write row.old }
{
    for n in 0..bases.len() {
        store_if(has_base(set, n), model, &bases[n], row, &write);
    }
}

/// Stores to a base if it is wanted.
#[tactic(auto, unfolding(crate::specs::Stores::store_if))]
fn store_if<I: IntDomain>(
    wanted: bool,
    model: &Model,
    base: &BaseInfo,
    row: &mut [Cell<I>],
    write: &Write<I>,
)
    requires { IsNear (I.numbers.bounds write.now.value.num) }
    ensures length { length row.new ≡ length row.old }
    ensures row { row.new ≡ store_if I.lattice I.numbers model.now wanted write.now base.now row.old }
{
    if wanted {
        store_base(model, base, row, *write);
    }
}

/// Stores to one base.
#[tactic(auto, unfolding(crate::specs::Stores::store_base))]
fn store_base<I: IntDomain>(model: &Model, base: &BaseInfo, row: &mut [Cell<I>], write: Write<I>)
    requires { IsNear (I.numbers.bounds write.value.num) }
    ensures length { length row.new ≡ length row.old }
    ensures row { row.new ≡ store_base I.lattice I.numbers model.now base.now write row.old }
{
    store_own(model, base, row, write);
    if same_class(write.access.class, Class::Char) {
        store_character(model, base, row, write);
    } else {
        store_wider(base, row, write.access.window);
    }
}

/// Stores to the cells of the value's class.
#[tactic(auto, unfolding(crate::specs::Stores::store_own))]
fn store_own<I: IntDomain>(model: &Model, base: &BaseInfo, row: &mut [Cell<I>], write: Write<I>)
    requires { IsNear (I.numbers.bounds write.value.num) }
    ensures length { length row.new ≡ length row.old }
    ensures row { row.new ≡ store_own I.lattice I.numbers model.now base.now write row.old }
{
    store_leaves(model, base, row, write);
    store_class_cell(model, base, row, write);
}

/// What a store of a character does besides.
#[tactic(auto, unfolding(crate::specs::Stores::store_character))]
fn store_character<I: IntDomain>(
    model: &Model,
    base: &BaseInfo,
    row: &mut [Cell<I>],
    write: Write<I>,
)
    requires { IsNear (I.numbers.bounds write.value.num) }
    ensures length { length row.new ≡ length row.old }
    ensures row { row.new ≡ store_character I.lattice I.numbers model.now base.now write row.old }
{
    store_other_bytes(model, base, row, write);
    let stored = cell_value(model, write, write.access.signed);
    let zero = stored.num.compare(Rel::Eq, I::one(0));
    put_character(base, row, write.access.window, zero, write.alone);
}

/// What a store of another class does besides: on the heap it hides the first zero.
#[tactic(auto, unfolding(crate::specs::Stores::store_wider))]
fn store_wider<I: IntDomain>(base: &BaseInfo, row: &mut [Cell<I>], window: Window)
    ensures length { length row.new ≡ length row.old }
    ensures row { row.new ≡ store_wider I.lattice I.numbers base.now window row.old }
{
    if base.shape.heap {
        forget_zeros(base, row, window);
    }
}

/// Stores to the leaves of the value's class: strongly to the one place that is reached.
#[tactic(auto, unfolding(crate::specs::Stores::store_leaves))]
fn store_leaves<I: IntDomain>(model: &Model, base: &BaseInfo, row: &mut [Cell<I>], write: Write<I>)
    requires { IsNear (I.numbers.bounds write.value.num) }
    ensures length { length row.new ≡ length row.old }
    ensures row { row.new ≡ store_leaves I.lattice I.numbers model.now base.now write row.old }
{
    let leaves = base.shape.cells.as_slice();
    for at in 0..leaves.len() {
        store_leaf(model, leaves[at], row, leaf_position(base, at), write);
    }
}

/// Stores to a leaf at a position, if it is reached.
#[tactic(auto, unfolding(crate::specs::Stores::store_leaf_at))]
fn store_leaf<I: IntDomain>(
    model: &Model,
    leaf: Leaf,
    row: &mut [Cell<I>],
    position: usize,
    write: Write<I>,
)
    requires { IsNear (I.numbers.bounds write.value.num) }
    ensures length { length row.new ≡ length row.old }
    ensures row { row.new ≡ store_leaf_at I.lattice I.numbers model.now write leaf position row.old }
{
    if is_selected(leaf, write.access.class, write.access.window) {
        let value = cell_value(model, write, leaf.signed);
        write_value(row, position, value, is_strong(leaf, write));
    }
}

/// Whether the leaf is one place, and the one that is written.
fn is_strong<I: IntDomain>(leaf: Leaf, write: Write<I>) -> bool
    ensures { result ≡ is_strong leaf write }
{
    write.alone && (write.access.window.is_one() && leaf.count == 1)
}

/// The value in the type of a cell.
fn cell_value<I: IntDomain>(model: &Model, write: Write<I>, signed: bool) -> Value<I>
    requires { IsNear (I.numbers.bounds write.value.num) }
    ensures { result ≡ cell_value I.numbers model.now write signed }
{
    as_stored(model, write.value, write.access.class, signed)
}

/// Stores to the class cell of a heap base, where the store may begin at an offset of no leaf of its
/// class.
#[tactic(auto, unfolding(crate::specs::Stores::store_class_cell))]
fn store_class_cell<I: IntDomain>(
    model: &Model,
    base: &BaseInfo,
    row: &mut [Cell<I>],
    write: Write<I>,
)
    requires { IsNear (I.numbers.bounds write.value.num) }
    ensures length { length row.new ≡ length row.old }
    ensures row { row.new ≡ store_class_cell I.lattice I.numbers model.now base.now write row.old }
{
    if reaches_class(base, write.access) {
        let at = class_position(base, class_number(write.access.class));
        join_value(row, at, cell_value(model, write, true));
    }
}

/// Stores a character to bytes of cells of other classes. To bytes of no cell it changes nothing.
#[tactic(auto, unfolding(crate::specs::Stores::store_other_bytes))]
fn store_other_bytes<I: IntDomain>(
    model: &Model,
    base: &BaseInfo,
    row: &mut [Cell<I>],
    write: Write<I>,
)
    ensures length { length row.new ≡ length row.old }
    ensures row { row.new ≡ store_other_bytes I.lattice I.numbers model.now base.now write row.old }
{
    store_other_leaves(model, base, row, write);
    if base.shape.heap {
        store_other_classes(model, base, row, write.value.labels);
    }
}

#[tactic(auto, unfolding(crate::specs::Stores::store_other_leaves))]
fn store_other_leaves<I: IntDomain>(
    model: &Model,
    base: &BaseInfo,
    row: &mut [Cell<I>],
    write: Write<I>,
)
    ensures length { length row.new ≡ length row.old }
    ensures row { row.new ≡ store_other_leaves I.lattice I.numbers model.now base.now write row.old }
{
    let leaves = base.shape.cells.as_slice();
    for at in 0..leaves.len() {
        store_other_leaf(model, leaves[at], row, leaf_position(base, at), write);
    }
}

/// Stores a character to a byte of a leaf of another class at a position, if it is reached.
#[tactic(auto, unfolding(crate::specs::Stores::store_other_leaf_at))]
fn store_other_leaf<I: IntDomain>(
    model: &Model,
    leaf: Leaf,
    row: &mut [Cell<I>],
    position: usize,
    write: Write<I>,
)
    ensures length { length row.new ≡ length row.old }
    ensures row { row.new ≡ store_other_leaf_at I.lattice I.numbers model.now write leaf position row.old }
{
    if is_other(model, leaf, write.access.window) {
        let value = byte_written(model, leaf.class, leaf.signed, write.value.labels);
        join_value(row, position, value);
    }
}

/// Stores a character to bytes of the class cells of all classes but that of characters.
#[tactic(auto, using(store_cells::specs::TurnLaws::turns_next), unfolding(crate::specs::Stores::store_other_classes))]
fn store_other_classes<I: IntDomain>(
    model: &Model,
    base: &BaseInfo,
    row: &mut [Cell<I>],
    labels: Labels,
)
    ensures length { length row.new ≡ length row.old }
    ensures row { row.new ≡ store_other_classes I.lattice I.numbers model.now base.now labels row.old }
{
    for at in 0..5 {
        store_other_class(model, base, row, labels, at);
    }
}

#[tactic(auto, unfolding(crate::specs::Stores::store_other_class))]
fn store_other_class<I: IntDomain>(
    model: &Model,
    base: &BaseInfo,
    row: &mut [Cell<I>],
    labels: Labels,
    at: usize,
)
    requires { at < 5 }
    ensures length { length row.new ≡ length row.old }
    ensures row { row.new ≡ store_other_class I.lattice I.numbers model.now base.now labels at row.old }
{
    let value = byte_written(model, class_at(at + 1), true, labels);
    join_value(row, class_position(base, at + 1), value);
}
