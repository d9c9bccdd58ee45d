//! One leaf of a copied struct: read from the source, written to the destination.
ghost use Rattle.std.specs.Prelude.{◌≡◌, ◌<◌, length, true, false, Some, None};
ghost use Rattle.cc_base.specs.IntegerDomains.{IsNear};
ghost use Rattle.store.specs.Loads.{joined_if};
ghost use Rattle.store_struct_leaves.specs.LeafCopies.{any_padded, span_meets_padding, reaches_class, is_touched_or, any_touched, has_own_place, has_other_place, has_place, has_place_or, any_place, own_leaf, read_class_cell, read_own, other_leaf, read_class_byte, read_class_bytes, read_padding, read_bytes, read_others, read_base, read_base_if, read_leaf, with_flag, is_strong, write_leaf_at, write_class_cell, write_own, write_leaves, write_other_leaves, write_other_at, write_class_byte, write_class_bytes, write_bytes, write_others, write_others_if, write_base, write_base_if, write_all, write_leaf};

use crate::copy_places::{Span, is_reached, is_touched, reached_count, span_has_stray};
use c_layout::{BaseInfo, Class, Leaf, Model};
use cc_base::IntDomain;
use pointer_domain::Bases;
use store::{
    as_read, as_stored, byte_read, byte_written, class_at, class_number, class_position, has_base,
    join_value, joined, kind_of, leaf_position, meets_padding, near_value, same_class, value_at,
    whole_range, write_value,
};
use value_domain::values::{Cell, Labels, Value};

/// A leaf's class and signedness, and the offsets that it can have.
#[derive(Clone, Copy)]
pub struct LeafAccess {
    pub class: Class,
    pub signed: bool,
    pub span: Span,
}

/// Where leaves are read: the bases, each of which may be live.
#[derive(Clone, Copy)]
pub struct Side<'a> {
    pub model: &'a Model,
    pub bases: &'a [BaseInfo],
    pub set: Bases,
}

/// What was found, joined with one more value if it is wanted.
fn joined_if<I: IntDomain>(
    wanted: bool,
    found: Option<Value<I>>,
    value: Value<I>,
) -> Option<Value<I>>
    ensures { result ≡ joined_if I.lattice wanted found value }
{
    if wanted {
        joined(found, Some(value))
    } else {
        found
    }
}

/// What was found, joined with the value of a leaf of the same class if it is reached.
#[tactic(auto, unfolding(crate::specs::LeafCopies::own_leaf))]
fn own_leaf<I: IntDomain>(
    model: &Model,
    leaf: Leaf,
    value: Value<I>,
    access: LeafAccess,
    found: Option<Value<I>>,
) -> Option<Value<I>>
    requires { IsNear (I.numbers.bounds value.num) }
    ensures { result ≡ own_leaf I.lattice I.numbers model.now access leaf value found }
{
    let read = as_read(model, value, access.class, leaf.signed, access.signed);
    joined_if(is_reached(leaf, access.class, access.span), found, read)
}

#[tactic(auto, unfolding(crate::specs::LeafCopies::read_own))]
fn read_own<I: IntDomain>(
    model: &Model,
    base: &BaseInfo,
    row: &[Cell<I>],
    access: LeafAccess,
) -> Option<Value<I>>
    ensures { result ≡ read_own I.lattice I.numbers model.now base.now row.now access }
{
    let leaves = base.shape.cells.as_slice();
    let mut found = read_class_cell(model, base, row, access);
    for at in 0..leaves.len() {
        let value = value_at(row, leaf_position(base, at));
        found = own_leaf(model, leaves[at], value, access, found);
    }
    found
}

/// Whether the leaf can be at an offset of a heap base that is no offset of a leaf of its class.
#[tactic(auto, unfolding(crate::specs::LeafCopies::reaches_class))]
fn reaches_class(base: &BaseInfo, access: LeafAccess) -> bool
    ensures { result ≡ reaches_class base.now access }
{
    base.shape.heap && span_has_stray(base.shape.cells.as_slice(), access.class, access.span)
}

#[tactic(auto, unfolding(crate::specs::LeafCopies::read_class_cell))]
fn read_class_cell<I: IntDomain>(
    model: &Model,
    base: &BaseInfo,
    row: &[Cell<I>],
    access: LeafAccess,
) -> Option<Value<I>>
    ensures { result ≡ read_class_cell I.lattice I.numbers model.now base.now row.now access }
{
    if reaches_class(base, access) {
        let value = value_at(row, class_position(base, class_number(access.class)));
        Some(as_read(model, value, access.class, true, access.signed))
    } else {
        None
    }
}

/// What was found, joined with a byte of a leaf of another class if it is touched.
#[tactic(auto, unfolding(crate::specs::LeafCopies::other_leaf))]
fn other_leaf<I: IntDomain>(
    model: &Model,
    leaf: Leaf,
    value: Value<I>,
    access: LeafAccess,
    found: Option<Value<I>>,
) -> Option<Value<I>>
    ensures { result ≡ other_leaf I.lattice I.numbers model.now access leaf value found }
{
    let read = byte_read(model, value, leaf.class, access.signed);
    joined_if(is_touched(model, leaf, access.span), found, read)
}

/// What a character gets from cells of other classes, or from bytes of no cell.
#[tactic(auto, unfolding(crate::specs::LeafCopies::read_others))]
fn read_others<I: IntDomain>(
    model: &Model,
    base: &BaseInfo,
    row: &[Cell<I>],
    access: LeafAccess,
) -> Option<Value<I>>
    ensures { result ≡ read_others I.lattice I.numbers model.now base.now row.now access }
{
    let leaves = base.shape.cells.as_slice();
    let mut found = read_bytes(model, base, row, access);
    for at in 0..leaves.len() {
        let value = value_at(row, leaf_position(base, at));
        found = other_leaf(model, leaves[at], value, access, found);
    }
    found
}

#[tactic(auto, unfolding(crate::specs::LeafCopies::read_bytes))]
fn read_bytes<I: IntDomain>(
    model: &Model,
    base: &BaseInfo,
    row: &[Cell<I>],
    access: LeafAccess,
) -> Option<Value<I>>
    ensures { result ≡ read_bytes I.lattice I.numbers model.now base.now row.now access }
{
    if base.shape.heap {
        read_class_bytes(model, base, row, access)
    } else {
        read_padding(model, base, access)
    }
}

#[tactic(auto, unfolding(crate::specs::LeafCopies::read_padding))]
fn read_padding<I: IntDomain>(
    model: &Model,
    base: &BaseInfo,
    access: LeafAccess,
) -> Option<Value<I>>
    ensures { result ≡ read_padding I.lattice I.numbers model.now base.now access }
{
    if span_meets_padding(model, base, access.span) {
        let kind = kind_of(model, Class::Char, access.signed);
        Some(whole_range(kind, Labels::all(), true))
    } else {
        None
    }
}

/// The class cells of all classes but that of characters, which is the first.
#[tactic(auto, using(store_cells::specs::TurnLaws::turns_next), unfolding(crate::specs::LeafCopies::read_class_bytes))]
fn read_class_bytes<I: IntDomain>(
    model: &Model,
    base: &BaseInfo,
    row: &[Cell<I>],
    access: LeafAccess,
) -> Option<Value<I>>
    ensures { result ≡ read_class_bytes I.lattice I.numbers model.now base.now row.now access }
{
    let mut found = None;
    for at in 0..5 {
        found = read_class_byte(model, base, row, access, at, found);
    }
    found
}

#[tactic(auto, unfolding(crate::specs::LeafCopies::read_class_byte))]
fn read_class_byte<I: IntDomain>(
    model: &Model,
    base: &BaseInfo,
    row: &[Cell<I>],
    access: LeafAccess,
    at: usize,
    found: Option<Value<I>>,
) -> Option<Value<I>>
    requires { at < 5 }
    ensures { result ≡ read_class_byte I.lattice I.numbers model.now base.now row.now access at found }
{
    let value = value_at(row, class_position(base, at + 1));
    let read = byte_read(model, value, class_at(at + 1), access.signed);
    joined(found, Some(read))
}

/// Whether some window of the span has an offset of a byte of no leaf.
#[tactic(auto, using(crate::proofs::Somewhere::somewhere, crate::proofs::Somewhere::nowhere_next), unfolding(crate::specs::LeafCopies::any_padded))]
fn any_padded(model: &Model, base: &BaseInfo, span: Span) -> bool
    ensures { result ≡ any_padded model.now base.now span }
{
    for number in 0..span.count {
        let window = span.window(number);
        if meets_padding(model, base.shape.cells.as_slice(), window, base.size) {
            return true;
        }
    }
    false
}

/// Whether an offset of the span is one of a byte of no leaf.
#[tactic(auto, unfolding(crate::specs::LeafCopies::span_meets_padding))]
pub fn span_meets_padding(model: &Model, base: &BaseInfo, span: Span) -> bool
    ensures { result ≡ span_meets_padding model.now base.now span }
{
    any_padded(model, base, span.joined())
}

#[tactic(auto, unfolding(crate::specs::LeafCopies::read_base))]
fn read_base<I: IntDomain>(
    model: &Model,
    base: &BaseInfo,
    row: &[Cell<I>],
    access: LeafAccess,
) -> Option<Value<I>>
    ensures { result ≡ read_base I.lattice I.numbers model.now base.now row.now access }
{
    let own = read_own(model, base, row, access);
    if same_class(access.class, Class::Char) {
        joined(own, read_others(model, base, row, access))
    } else {
        own
    }
}

/// What was found, joined with what the leaf can be in a base if it is wanted.
#[tactic(auto, unfolding(crate::specs::LeafCopies::read_base_if))]
fn read_base_if<I: IntDomain>(
    wanted: bool,
    model: &Model,
    base: &BaseInfo,
    row: &[Cell<I>],
    access: LeafAccess,
    found: Option<Value<I>>,
) -> Option<Value<I>>
    ensures { result ≡ read_base_if I.lattice I.numbers model.now row.now wanted access base.now found }
{
    if wanted {
        joined(found, read_base(model, base, row, access))
    } else {
        found
    }
}

/// What the leaf can be in the source, with its flag and its labels; None where it can be nowhere.
pub fn read_leaf<I: IntDomain>(side: Side, row: &[Cell<I>], access: LeafAccess) -> Option<Value<I>>
    ensures { result ≡ read_leaf I.lattice I.numbers side.entry.model.now side.entry.bases.now side.entry.set row.now access }
{
    read_from_bases(side.model, side.bases, side.set, row, access)
}

#[tactic(auto, unfolding(crate::specs::LeafCopies::read_leaf))]
fn read_from_bases<I: IntDomain>(
    model: &Model,
    bases: &[BaseInfo],
    set: Bases,
    row: &[Cell<I>],
    access: LeafAccess,
) -> Option<Value<I>>
    ensures { result ≡ read_leaf I.lattice I.numbers model.now bases.now set row.now access }
{
    let mut found = None;
    for n in 0..bases.len() {
        found = read_base_if(has_base(set, n), model, &bases[n], row, access, found);
    }
    found
}

fn with_flag<I: IntDomain>(value: Value<I>, indeterminate: bool) -> Value<I>
    ensures { result ≡ with_flag value indeterminate }
{
    Value {
        num: value.num,
        pointer: value.pointer,
        indeterminate: value.indeterminate || indeterminate,
        labels: value.labels,
    }
}

/// Whether the leaf of an object is one place, and the one that is written.
fn is_strong(leaf: Leaf, access: LeafAccess, alone: bool) -> bool
    ensures { result ≡ is_strong leaf access alone }
{
    alone && (access.span.is_one() && leaf.count == 1)
}

/// Writes to a leaf at a position, if it is reached.
#[tactic(auto, unfolding(crate::specs::LeafCopies::write_leaf_at))]
fn write_leaf_at<I: IntDomain>(
    model: &Model,
    leaf: Leaf,
    row: &mut [Cell<I>],
    position: usize,
    access: LeafAccess,
    value: Value<I>,
    alone: bool,
)
    requires { IsNear (I.numbers.bounds value.num) }
    ensures length { length row.new ≡ length row.old }
    ensures row { row.new ≡ write_leaf_at I.lattice I.numbers model.now access value alone leaf position row.old }
{
    if is_reached(leaf, access.class, access.span) {
        let written = as_stored(model, value, access.class, leaf.signed);
        write_value(row, position, written, is_strong(leaf, access, alone));
    }
}

#[tactic(auto, unfolding(crate::specs::LeafCopies::write_own))]
fn write_own<I: IntDomain>(
    model: &Model,
    base: &BaseInfo,
    row: &mut [Cell<I>],
    access: LeafAccess,
    value: Value<I>,
    alone: bool,
)
    requires { IsNear (I.numbers.bounds value.num) }
    ensures length { length row.new ≡ length row.old }
    ensures row { row.new ≡ write_own I.lattice I.numbers model.now base.now access value alone row.old }
{
    write_class_cell(model, base, row, access, value);
    write_leaves(model, base, row, access, value, alone);
}

#[tactic(auto, unfolding(crate::specs::LeafCopies::write_leaves))]
fn write_leaves<I: IntDomain>(
    model: &Model,
    base: &BaseInfo,
    row: &mut [Cell<I>],
    access: LeafAccess,
    value: Value<I>,
    alone: bool,
)
    requires { IsNear (I.numbers.bounds value.num) }
    ensures length { length row.new ≡ length row.old }
    ensures row { row.new ≡ write_leaves I.lattice I.numbers model.now base.now access value alone row.old }
{
    let leaves = base.shape.cells.as_slice();
    for at in 0..leaves.len() {
        write_leaf_at(
            model,
            leaves[at],
            row,
            leaf_position(base, at),
            access,
            value,
            alone,
        );
    }
}

#[tactic(auto, unfolding(crate::specs::LeafCopies::write_class_cell))]
fn write_class_cell<I: IntDomain>(
    model: &Model,
    base: &BaseInfo,
    row: &mut [Cell<I>],
    access: LeafAccess,
    value: Value<I>,
)
    requires { IsNear (I.numbers.bounds value.num) }
    ensures length { length row.new ≡ length row.old }
    ensures row { row.new ≡ write_class_cell I.lattice I.numbers model.now base.now access value row.old }
{
    if reaches_class(base, access) {
        let written = as_stored(model, value, access.class, true);
        let at = class_position(base, class_number(access.class));
        join_value(row, at, written);
    }
}

/// Writes to a byte of a leaf of another class at a position, if it is touched.
#[tactic(auto, unfolding(crate::specs::LeafCopies::write_other_at))]
fn write_other_at<I: IntDomain>(
    model: &Model,
    leaf: Leaf,
    row: &mut [Cell<I>],
    position: usize,
    access: LeafAccess,
    value: Value<I>,
)
    ensures length { length row.new ≡ length row.old }
    ensures row { row.new ≡ write_other_at I.lattice I.numbers model.now access value leaf position row.old }
{
    if is_touched(model, leaf, access.span) {
        let written = byte_written(model, leaf.class, leaf.signed, value.labels);
        join_value(row, position, with_flag(written, value.indeterminate));
    }
}

#[tactic(auto, unfolding(crate::specs::LeafCopies::write_others))]
fn write_others<I: IntDomain>(
    model: &Model,
    base: &BaseInfo,
    row: &mut [Cell<I>],
    access: LeafAccess,
    value: Value<I>,
)
    ensures length { length row.new ≡ length row.old }
    ensures row { row.new ≡ write_others I.lattice I.numbers model.now base.now access value row.old }
{
    write_bytes(model, base, row, value);
    write_other_leaves(model, base, row, access, value);
}

#[tactic(auto, unfolding(crate::specs::LeafCopies::write_other_leaves))]
fn write_other_leaves<I: IntDomain>(
    model: &Model,
    base: &BaseInfo,
    row: &mut [Cell<I>],
    access: LeafAccess,
    value: Value<I>,
)
    ensures length { length row.new ≡ length row.old }
    ensures row { row.new ≡ write_other_leaves I.lattice I.numbers model.now base.now access value row.old }
{
    let leaves = base.shape.cells.as_slice();
    for at in 0..leaves.len() {
        write_other_at(
            model,
            leaves[at],
            row,
            leaf_position(base, at),
            access,
            value,
        );
    }
}

#[tactic(auto, unfolding(crate::specs::LeafCopies::write_bytes))]
fn write_bytes<I: IntDomain>(model: &Model, base: &BaseInfo, row: &mut [Cell<I>], value: Value<I>)
    ensures length { length row.new ≡ length row.old }
    ensures row { row.new ≡ write_bytes I.lattice I.numbers model.now base.now value row.old }
{
    if base.shape.heap {
        write_class_bytes(model, base, row, value);
    }
}

/// Writes to bytes of the class cells of all classes but that of characters.
#[tactic(auto, using(store_cells::specs::TurnLaws::turns_next), unfolding(crate::specs::LeafCopies::write_class_bytes))]
fn write_class_bytes<I: IntDomain>(
    model: &Model,
    base: &BaseInfo,
    row: &mut [Cell<I>],
    value: Value<I>,
)
    ensures length { length row.new ≡ length row.old }
    ensures row { row.new ≡ write_class_bytes I.lattice I.numbers model.now base.now value row.old }
{
    for at in 0..5 {
        write_class_byte(model, base, row, value, at);
    }
}

#[tactic(auto, unfolding(crate::specs::LeafCopies::write_class_byte))]
fn write_class_byte<I: IntDomain>(
    model: &Model,
    base: &BaseInfo,
    row: &mut [Cell<I>],
    value: Value<I>,
    at: usize,
)
    requires { at < 5 }
    ensures length { length row.new ≡ length row.old }
    ensures row { row.new ≡ write_class_byte I.lattice I.numbers model.now base.now value at row.old }
{
    let written = byte_written(model, class_at(at + 1), true, value.labels);
    join_value(
        row,
        class_position(base, at + 1),
        with_flag(written, value.indeterminate),
    );
}

fn write_others_if<I: IntDomain>(
    model: &Model,
    base: &BaseInfo,
    row: &mut [Cell<I>],
    access: LeafAccess,
    value: Value<I>,
)
    ensures length { length row.new ≡ length row.old }
    ensures row { row.new ≡ write_others_if I.lattice I.numbers model.now base.now access value row.old }
{
    if same_class(access.class, Class::Char) {
        write_others(model, base, row, access, value);
    }
}

#[tactic(auto, unfolding(crate::specs::LeafCopies::write_base))]
fn write_base<I: IntDomain>(
    model: &Model,
    base: &BaseInfo,
    row: &mut [Cell<I>],
    access: LeafAccess,
    value: Value<I>,
    alone: bool,
)
    requires { IsNear (I.numbers.bounds value.num) }
    ensures length { length row.new ≡ length row.old }
    ensures row { row.new ≡ write_base I.lattice I.numbers model.now base.now access value alone row.old }
{
    write_own(model, base, row, access, value, alone);
    write_others_if(model, base, row, access, value);
}

/// Writes to a base if it is wanted.
#[tactic(auto, unfolding(crate::specs::LeafCopies::write_base_if))]
fn write_base_if<I: IntDomain>(
    wanted: bool,
    model: &Model,
    base: &BaseInfo,
    row: &mut [Cell<I>],
    access: LeafAccess,
    value: Value<I>,
    alone: bool,
)
    requires { IsNear (I.numbers.bounds value.num) }
    ensures length { length row.new ≡ length row.old }
    ensures row { row.new ≡ write_base_if I.lattice I.numbers model.now wanted access value alone base.now row.old }
{
    if wanted {
        write_base(model, base, row, access, value, alone);
    }
}

#[tactic(auto, unfolding(crate::specs::LeafCopies::write_all))]
fn write_all<I: IntDomain>(
    model: &Model,
    bases: &[BaseInfo],
    set: Bases,
    row: &mut [Cell<I>],
    access: LeafAccess,
    value: Value<I>,
    alone: bool,
)
    requires { IsNear (I.numbers.bounds value.num) }
    ensures length { length row.new ≡ length row.old }
    ensures row { row.new ≡ write_all I.lattice I.numbers model.now bases.now set access value alone row.old }
{
    for n in 0..bases.len() {
        write_base_if(
            has_base(set, n),
            model,
            &bases[n],
            row,
            access,
            value,
            alone,
        );
    }
}

/// Whether something was found, or a byte of the leaf is touched.
fn is_touched_or(found: bool, model: &Model, leaf: Leaf, span: Span) -> bool
    ensures { result ≡ is_touched_or model.now span leaf 0 found }
{
    found || is_touched(model, leaf, span)
}

#[tactic(auto, unfolding(crate::specs::LeafCopies::any_touched))]
fn any_touched(model: &Model, leaves: &[Leaf], span: Span) -> bool
    ensures { result ≡ any_touched model.now leaves.now span }
{
    let mut found = false;
    for at in 0..leaves.len() {
        found = is_touched_or(found, model, leaves[at], span);
    }
    found
}

/// Whether the leaf reaches a cell of its class.
#[tactic(auto, unfolding(crate::specs::LeafCopies::has_own_place))]
fn has_own_place(base: &BaseInfo, access: LeafAccess) -> bool
    ensures { result ≡ has_own_place base.now access }
{
    let leaves = base.shape.cells.as_slice();
    reached_count(leaves, access.class, access.span) != 0 || reaches_class(base, access)
}

/// Whether a character goes to bytes of cells of other classes, or to bytes of no cell.
#[tactic(auto, unfolding(crate::specs::LeafCopies::has_other_place))]
fn has_other_place(model: &Model, base: &BaseInfo, span: Span) -> bool
    ensures { result ≡ has_other_place model.now base.now span }
{
    let leaves = base.shape.cells.as_slice();
    base.shape.heap || (any_touched(model, leaves, span) || span_meets_padding(model, base, span))
}

/// Whether the base has a place for the leaf.
#[tactic(auto, unfolding(crate::specs::LeafCopies::has_place))]
fn has_place(model: &Model, base: &BaseInfo, access: LeafAccess) -> bool
    ensures { result ≡ has_place model.now base.now access }
{
    has_own_place(base, access)
        || (same_class(access.class, Class::Char) && has_other_place(model, base, access.span))
}

/// Whether something was found, or the set has the base with this number and it has a place.
fn has_place_or(
    found: bool,
    model: &Model,
    base: &BaseInfo,
    number: usize,
    set: Bases,
    access: LeafAccess,
) -> bool
    ensures { result ≡ has_place_or model.now set access base.now number found }
{
    found || (has_base(set, number) && has_place(model, base, access))
}

/// Whether some base of the set has a place for the leaf.
#[tactic(auto, unfolding(crate::specs::LeafCopies::any_place))]
fn any_place(model: &Model, bases: &[BaseInfo], set: Bases, access: LeafAccess) -> bool
    ensures { result ≡ any_place model.now bases.now set access }
{
    let mut found = false;
    for n in 0..bases.len() {
        found = has_place_or(found, model, &bases[n], n, set, access);
    }
    found
}

/// Writes the leaf to the bases of the destination, which are no literals; `alone` says that it is one
/// base, which stands for one instance. False where the leaf can be nowhere.
#[tactic(auto, unfolding(crate::specs::LeafCopies::write_leaf))]
pub fn write_leaf<I: IntDomain>(
    side: Side,
    row: &mut [Cell<I>],
    access: LeafAccess,
    value: Value<I>,
    alone: bool,
) -> bool
    ensures length { length row.new ≡ length row.old }
    ensures reached { result ≡ true → write_leaf I.lattice I.numbers side.entry.model.now side.entry.bases.now side.entry.set access value alone row.old ≡ Some row.new }
    ensures unreached { result ≡ false → write_leaf I.lattice I.numbers side.entry.model.now side.entry.bases.now side.entry.set access value alone row.old ≡ None }
{
    if any_place(side.model, side.bases, side.set, access) {
        let near = near_value(value);
        write_all(side.model, side.bases, side.set, row, access, near, alone);
        true
    } else {
        false
    }
}
