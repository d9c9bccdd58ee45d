//! Loads.
ghost use Rattle.std.specs.Prelude.{◌≡◌, ◌<◌};
ghost use Rattle.pointer_domain.specs.PointerTables.{IsNearPointer};
ghost use Rattle.store_cells.specs.RowPositions.{value_at};
ghost use Rattle.store.specs.Loads.{reaches_class, joined_leaf, load_leaves, load_class_cell, joined_other_leaf, load_other_leaves, read_class_cell, load_other_class_cells, load_padding, load_other_bytes, is_text, determinate_if, load_own, load_others, load_character, load_base, read_base, read_base_if, load_bases, labels_of, loaded, load};

use crate::leaf_selection::{has_stray, is_other, is_selected, meets_padding};
use c_layout::{BaseInfo, Class, Leaf, Model};
use cc_base::IntDomain;
use pointer_domain::{Bases, Pointers};
use store_cells::{
    Access, Window, as_read, byte_read, bytes_of, class_at, class_number, class_position,
    covering_part, is_determinate_before, is_pointer, joined, kind_of, leaf_position, same_class,
    value_at, whole_range, window_of, zero_at, zero_position,
};
use store_objects::{has_base, may_be_live};
use value_domain::values::{Cell, Labels, Value};

/// The value that a load of a class and a signedness gets through the pointers: the join of the cells
/// that it may reach, over the bases that may be live. None where it reaches nothing. The flag
/// `indeterminate` says that it may read an indeterminate byte.
#[tactic(auto, unfolding(crate::specs::Loads::load))]
pub fn load<I: IntDomain>(
    model: &Model,
    bases: &[BaseInfo],
    row: &[Cell<I>],
    at: Pointers<I>,
    class: Class,
    signed: bool,
) -> Option<Value<I>>
    requires { IsNearPointer I.numbers at }
    ensures { result ≡ load I.lattice I.numbers model.now bases.now row.now at class signed }
{
    match window_of(at, bytes_of(model, class)) {
        None => None,
        Some(window) => {
            let access = Access {
                class,
                signed,
                window,
            };
            loaded(class, load_bases(model, bases, row, at.bases, access))
        }
    }
}

/// A loaded pointer has no labels.
fn loaded<I: IntDomain>(class: Class, found: Option<Value<I>>) -> Option<Value<I>>
    ensures { result ≡ loaded class found }
{
    match found {
        None => None,
        Some(value) => Some(Value {
            num: value.num,
            pointer: value.pointer,
            indeterminate: value.indeterminate,
            labels: loaded_labels(class, value.labels),
        }),
    }
}

/// The labels of a value of a class; pointers have none.
pub fn loaded_labels(class: Class, labels: Labels) -> Labels
    ensures { result ≡ labels_of class labels }
{
    if is_pointer(class) {
        Labels::none()
    } else {
        labels
    }
}

#[tactic(auto, unfolding(crate::specs::Loads::load_bases))]
fn load_bases<I: IntDomain>(
    model: &Model,
    bases: &[BaseInfo],
    row: &[Cell<I>],
    set: Bases,
    access: Access,
) -> Option<Value<I>>
    ensures { result ≡ load_bases I.lattice I.numbers model.now bases.now row.now set access }
{
    let mut found = None;
    for n in 0..bases.len() {
        read_base(model, &bases[n], n, row, &set, access, &mut found);
    }
    found
}

/// Joins what was found with what the load gets from the base with this number, if the set has it and
/// it may be live.
fn read_base<I: IntDomain>(
    model: &Model,
    base: &BaseInfo,
    number: usize,
    row: &[Cell<I>],
    set: &Bases,
    access: Access,
    found: &mut Option<Value<I>>,
)
    ensures { found.new ≡ read_base I.lattice I.numbers model.now row.now set.now access base.now number found.old }
{
    if has_base(*set, number) {
        read_base_if(model, base, row, may_be_live(base, row), access, found);
    }
}

/// Joins what was found with what the load gets from a base, if it is wanted.
fn read_base_if<I: IntDomain>(
    model: &Model,
    base: &BaseInfo,
    row: &[Cell<I>],
    wanted: bool,
    access: Access,
    found: &mut Option<Value<I>>,
)
    ensures { found.new ≡ read_base_if I.lattice I.numbers model.now row.now wanted access base.now found.old }
{
    if wanted {
        *found = joined(*found, load_base(model, base, row, access));
    }
}

/// What the load gets from one base.
#[tactic(auto, unfolding(crate::specs::Loads::load_base))]
pub fn load_base<I: IntDomain>(
    model: &Model,
    base: &BaseInfo,
    row: &[Cell<I>],
    access: Access,
) -> Option<Value<I>>
    ensures { result ≡ load_base I.lattice I.numbers model.now base.now row.now access }
{
    if same_class(access.class, Class::Char) {
        let found = load_character(model, base, row, access);
        determinate_if(is_text(base, row, access.window), found)
    } else {
        load_own(model, base, row, access)
    }
}

/// What a character load gets from one base, whatever is known of first zeros.
#[tactic(auto, unfolding(crate::specs::Loads::load_character))]
pub fn load_character<I: IntDomain>(
    model: &Model,
    base: &BaseInfo,
    row: &[Cell<I>],
    access: Access,
) -> Option<Value<I>>
    ensures { result ≡ load_character I.lattice I.numbers model.now base.now row.now access }
{
    joined(
        load_own(model, base, row, access),
        load_others(model, base, row, access),
    )
}

/// What the load gets from the cells of its own class.
#[tactic(auto, unfolding(crate::specs::Loads::load_own))]
fn load_own<I: IntDomain>(
    model: &Model,
    base: &BaseInfo,
    row: &[Cell<I>],
    access: Access,
) -> Option<Value<I>>
    ensures { result ≡ load_own I.lattice I.numbers model.now base.now row.now access }
{
    joined(
        load_leaves(model, base, row, access),
        load_class_cell(model, base, row, access),
    )
}

/// What a character load gets from bytes of other cells, or of none.
#[tactic(auto, unfolding(crate::specs::Loads::load_others))]
fn load_others<I: IntDomain>(
    model: &Model,
    base: &BaseInfo,
    row: &[Cell<I>],
    access: Access,
) -> Option<Value<I>>
    ensures { result ≡ load_others I.lattice I.numbers model.now base.now row.now access }
{
    joined(
        load_other_leaves(model, base, row, access),
        load_other_bytes(model, base, row, access),
    )
}

/// The join of the leaves of the access's class that it reaches.
#[tactic(auto, unfolding(crate::specs::Loads::load_leaves))]
fn load_leaves<I: IntDomain>(
    model: &Model,
    base: &BaseInfo,
    row: &[Cell<I>],
    access: Access,
) -> Option<Value<I>>
    ensures { result ≡ load_leaves I.lattice I.numbers model.now base.now row.now access }
{
    let leaves = base.shape.cells.as_slice();
    let mut found = None;
    for at in 0..leaves.len() {
        let position = leaf_position(base, at);
        read_leaf(model, leaves[at], row, position, access, &mut found);
    }
    found
}

/// Joins what was found with the value at the position of a leaf, if the access reaches it.
fn read_leaf<I: IntDomain>(
    model: &Model,
    leaf: Leaf,
    row: &[Cell<I>],
    position: usize,
    access: Access,
    found: &mut Option<Value<I>>,
)
    ensures { found.new ≡ joined_leaf I.lattice I.numbers model.now access leaf (value_at I.lattice I.numbers row.now position) found.old }
{
    if is_selected(leaf, access.class, access.window) {
        let value = value_at(row, position);
        let read = as_read(model, value, access.class, leaf.signed, access.signed);
        *found = joined(*found, Some(read));
    }
}

/// Whether the access may begin at an offset of a heap base that is no offset of a leaf of its class.
pub fn reaches_class(base: &BaseInfo, access: Access) -> bool
    ensures { result ≡ reaches_class base.now access }
{
    base.shape.heap && has_stray(base.shape.cells.as_slice(), access.class, access.window)
}

/// The class cell of a heap base, where the access may begin at an offset of no leaf of its class.
/// Class cells are signed.
#[tactic(auto, unfolding(crate::specs::Loads::load_class_cell))]
fn load_class_cell<I: IntDomain>(
    model: &Model,
    base: &BaseInfo,
    row: &[Cell<I>],
    access: Access,
) -> Option<Value<I>>
    ensures { result ≡ load_class_cell I.lattice I.numbers model.now base.now row.now access }
{
    if reaches_class(base, access) {
        let value = value_at(row, class_position(base, class_number(access.class)));
        Some(as_read(model, value, access.class, true, access.signed))
    } else {
        None
    }
}

/// What a character load gets from the leaves of other classes that it reaches.
#[tactic(auto, unfolding(crate::specs::Loads::load_other_leaves))]
fn load_other_leaves<I: IntDomain>(
    model: &Model,
    base: &BaseInfo,
    row: &[Cell<I>],
    access: Access,
) -> Option<Value<I>>
    ensures { result ≡ load_other_leaves I.lattice I.numbers model.now base.now row.now access }
{
    let leaves = base.shape.cells.as_slice();
    let mut found = None;
    for at in 0..leaves.len() {
        let position = leaf_position(base, at);
        read_other_leaf(model, leaves[at], row, position, access, &mut found);
    }
    found
}

/// Joins what was found with a byte of a leaf of another class, if the access reaches it.
fn read_other_leaf<I: IntDomain>(
    model: &Model,
    leaf: Leaf,
    row: &[Cell<I>],
    position: usize,
    access: Access,
    found: &mut Option<Value<I>>,
)
    ensures { found.new ≡ joined_other_leaf I.lattice I.numbers model.now access leaf (value_at I.lattice I.numbers row.now position) found.old }
{
    if is_other(model, leaf, access.window) {
        let value = value_at(row, position);
        let read = byte_read(model, value, leaf.class, access.signed);
        *found = joined(*found, Some(read));
    }
}

/// What a character load gets from the class cells of other classes, or from bytes of no leaf.
#[tactic(auto, unfolding(crate::specs::Loads::load_other_bytes))]
fn load_other_bytes<I: IntDomain>(
    model: &Model,
    base: &BaseInfo,
    row: &[Cell<I>],
    access: Access,
) -> Option<Value<I>>
    ensures { result ≡ load_other_bytes I.lattice I.numbers model.now base.now row.now access }
{
    if base.shape.heap {
        load_other_class_cells(model, base, row, access)
    } else {
        load_padding(model, base, access)
    }
}

/// What a character load gets from bytes of no leaf.
#[tactic(auto, unfolding(crate::specs::Loads::load_padding))]
fn load_padding<I: IntDomain>(model: &Model, base: &BaseInfo, access: Access) -> Option<Value<I>>
    ensures { result ≡ load_padding I.lattice I.numbers model.now base.now access }
{
    let leaves = base.shape.cells.as_slice();
    if meets_padding(model, leaves, access.window, base.size) {
        let kind = kind_of(model, Class::Char, access.signed);
        Some(whole_range(kind, Labels::all(), true))
    } else {
        None
    }
}

/// The class cells of all classes but that of characters, which is the first.
#[tactic(auto, using(store_cells::specs::TurnLaws::turns_next), unfolding(crate::specs::Loads::load_other_class_cells))]
fn load_other_class_cells<I: IntDomain>(
    model: &Model,
    base: &BaseInfo,
    row: &[Cell<I>],
    access: Access,
) -> Option<Value<I>>
    ensures { result ≡ load_other_class_cells I.lattice I.numbers model.now base.now row.now access }
{
    let mut found = None;
    for at in 0..5 {
        found = read_class_cell(model, base, row, access, at, found);
    }
    found
}

fn read_class_cell<I: IntDomain>(
    model: &Model,
    base: &BaseInfo,
    row: &[Cell<I>],
    access: Access,
    at: usize,
    found: Option<Value<I>>,
) -> Option<Value<I>>
    requires { at < 5 }
    ensures { result ≡ read_class_cell I.lattice I.numbers model.now base.now row.now access at found }
{
    let value = value_at(row, class_position(base, at + 1));
    let read = byte_read(model, value, class_at(at + 1), access.signed);
    joined(found, Some(read))
}

/// The value, determinate if it lies in a text.
fn determinate_if<I: IntDomain>(text: bool, found: Option<Value<I>>) -> Option<Value<I>>
    ensures { result ≡ determinate_if text found }
{
    match found {
        None => None,
        Some(value) => Some(Value {
            num: value.num,
            pointer: value.pointer,
            indeterminate: value.indeterminate && !text,
            labels: value.labels,
        }),
    }
}

/// Whether the window lies in one array of characters, up to its first zero.
#[tactic(auto, unfolding(crate::specs::Loads::is_text))]
fn is_text<I: IntDomain>(base: &BaseInfo, row: &[Cell<I>], window: Window) -> bool
    ensures { result ≡ is_text I.lattice I.numbers base.now row.now window }
{
    match covering_part(base, window) {
        None => false,
        Some(found) => {
            is_determinate_before(zero_at(row, zero_position(base, found.0)), found.1)
        }
    }
}
