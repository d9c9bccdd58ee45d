//! Allocation: what a call of malloc, calloc or realloc makes of the two bases of its site.
ghost use Rattle.std.specs.Prelude.{◌≡◌, ◌<◌, true, length, map};
ghost use Rattle.cc_base.specs.IntegerDomains.{IsNear};
ghost use Rattle.store_objects.specs.Allocations.{is_named, renamed, renamed_cell, renamed_fresh, join_cell, join_values, join_part, join_zeros, join_state, join_base, in_target, class_cell, joined_if, class_leaf_of, class_values, old_value, fresh_value, leaf_target, class_target, fresh_cell, fresh_leaves, fresh_classes, fresh_values, zero_if_any, fresh_zero, make_instance, make_nothing, make_fresh, free_old, replaced, renew_site, renew, is_fresh, fresh_pointer, renewed_pointer, site_of};

use crate::freeing::free_perhaps;
use crate::live_bases::{MOST_BASES, has_base};
use crate::object_lives::{set_values, zero_value};
use c_layout::{BaseInfo, Class, Leaf, Model};
use cc_base::{IntDomain, Lattice};
use pointer_domain::{Bases, Pointers};
use store_cells::{
    any_zero, as_stored, class_at, class_number, class_position, join_value, join_zero,
    leaf_position, no_zero, null_pointer, put_state, put_value, same_class, set_zeros, state_at,
    state_position, value_at, value_count, zero_at, zero_first, zero_position,
};
use value_domain::strings::FirstZero;
use value_domain::values::{AllocState, Cell, Value};

/// What the bytes of a new instance are.
#[derive(Clone, Copy)]
pub enum Fresh<I> {
    /// Indeterminate.
    Blank,
    /// 0.
    Zero,
    /// Those of the instances that a pointer is into, as far as they go; else indeterminate.
    Old(Pointers<I>),
}

/// The numbers of the newest and the older base of a site.
#[derive(Clone, Copy)]
struct Site {
    newest: u32,
    older: u32,
}

/// An allocation at a site: the newest base is renamed to the older one and joined into it, and is
/// then a fresh instance of so many bytes. The answer is the pointer to it, or null; where no size is
/// left, null alone. The bases that `Fresh::Old` names may be freed afterwards.
#[tactic(auto, unfolding(crate::specs::Allocations::renewed_pointer, crate::specs::Allocations::renew))]
pub fn renew<I: IntDomain>(
    model: &Model,
    bases: &[BaseInfo],
    row: &mut [Cell<I>],
    newest: u32,
    older: u32,
    size: I,
    fresh: Fresh<I>,
) -> Pointers<I>
    requires { IsNear (I.numbers.bounds size) }
    ensures length { length row.new ≡ length row.old }
    ensures row { row.new ≡ renew I.lattice I.numbers model.now bases.now newest older size fresh row.old }
    ensures pointer { result ≡ renewed_pointer I.lattice I.numbers bases.now (site_of newest older) size }
{
    let site = Site { newest, older };
    match bases.get(newest as usize) {
        None => null_pointer(),
        Some(new) => match bases.get(older as usize) {
            None => null_pointer(),
            Some(old) => {
                renew_site(model, bases, row, site, size, fresh, new, old);
                fresh_pointer(site, size)
            }
        },
    }
}

/// The row after an allocation at a site with these two bases.
#[tactic(auto, unfolding(crate::specs::Allocations::renew_site))]
fn renew_site<I: IntDomain>(
    model: &Model,
    bases: &[BaseInfo],
    row: &mut [Cell<I>],
    site: Site,
    size: I,
    fresh: Fresh<I>,
    new: &BaseInfo,
    old: &BaseInfo,
)
    requires { IsNear (I.numbers.bounds size) }
    ensures length { length row.new ≡ length row.old }
    ensures row { row.new ≡ renew_site I.lattice I.numbers model.now bases.now site size fresh new.now old.now row.old }
{
    rename_pointers(row, site);
    join_base(new, old, row);
    replace(model, bases, row, new, size, renamed_fresh(fresh, site));
}

/// Puts the fresh instance in place of the newest one; the old bases may be freed.
#[tactic(auto, unfolding(crate::specs::Allocations::replaced))]
fn replace<I: IntDomain>(
    model: &Model,
    bases: &[BaseInfo],
    row: &mut [Cell<I>],
    new: &BaseInfo,
    size: I,
    fresh: Fresh<I>,
)
    requires { IsNear (I.numbers.bounds size) }
    ensures length { length row.new ≡ length row.old }
    ensures row { row.new ≡ replaced I.lattice I.numbers model.now bases.now new.now size fresh row.old }
{
    make_fresh(model, bases, row, new, size, fresh);
    free_old(bases, row, fresh);
}

/// Whether both numbers are those of bases that sets can hold.
fn is_named(site: Site) -> bool
    ensures value { result ≡ is_named site }
    ensures newest { result ≡ true → site.newest < 1016 }
    ensures older { result ≡ true → site.older < 1016 }
{
    (site.newest as usize) < MOST_BASES && (site.older as usize) < MOST_BASES
}

fn renamed<I: IntDomain>(p: Pointers<I>, site: Site) -> Pointers<I>
    ensures { result ≡ renamed site p }
{
    if is_named(site) {
        p.rename(site.newest as u16, site.older as u16)
    } else {
        p
    }
}

fn renamed_cell<I: IntDomain>(cell: Cell<I>, site: Site) -> Cell<I>
    ensures { result ≡ renamed_cell site cell }
{
    match cell {
        Cell::Value(v) => Cell::Value(Value {
            num: v.num,
            pointer: renamed(v.pointer, site),
            indeterminate: v.indeterminate,
            labels: v.labels,
        }),
        Cell::Nothing => Cell::Nothing,
        Cell::First(f) => Cell::First(f),
        Cell::State(s) => Cell::State(s),
        Cell::Mixed => Cell::Mixed,
    }
}

fn rename_pointers<I: IntDomain>(row: &mut [Cell<I>], site: Site)
    ensures length { length row.new ≡ length row.old }
    ensures row { row.new ≡ map (renamed_cell site) row.old }
{
    for at in 0..row.len() {
        row[at] = renamed_cell(row[at], site);
    }
}

fn renamed_fresh<I: IntDomain>(fresh: Fresh<I>, site: Site) -> Fresh<I>
    ensures { result ≡ renamed_fresh site fresh }
{
    match fresh {
        Fresh::Old(p) => Fresh::Old(renamed(p, site)),
        Fresh::Blank => Fresh::Blank,
        Fresh::Zero => Fresh::Zero,
    }
}

/// Joins what the newest base has into the older one. Both have the same shape.
#[tactic(auto, unfolding(crate::specs::Allocations::join_base))]
fn join_base<I: IntDomain>(new: &BaseInfo, old: &BaseInfo, row: &mut [Cell<I>])
    ensures length { length row.new ≡ length row.old }
    ensures row { row.new ≡ join_base I.lattice I.numbers new.now old.now row.old }
{
    join_values(new, old, row);
    join_zeros(new, old, row);
    join_state(new, old, row);
}

#[tactic(auto, unfolding(crate::specs::Allocations::join_state))]
fn join_state<I: IntDomain>(new: &BaseInfo, old: &BaseInfo, row: &mut [Cell<I>])
    ensures length { length row.new ≡ length row.old }
    ensures row { row.new ≡ join_state I.lattice I.numbers new.now old.now row.old }
{
    let state = state_at(row, state_position(old)).join(state_at(row, state_position(new)));
    put_state(row, state_position(old), state);
}

#[tactic(auto, using(store_cells::specs::TurnLaws::turns_next), unfolding(crate::specs::Allocations::join_values))]
fn join_values<I: IntDomain>(new: &BaseInfo, old: &BaseInfo, row: &mut [Cell<I>])
    ensures length { length row.new ≡ length row.old }
    ensures row { row.new ≡ join_values I.lattice I.numbers new.now old.now row.old }
{
    for at in 0..value_count(new) {
        join_cell(new, old, at, row);
    }
}

#[tactic(auto, unfolding(crate::specs::Allocations::join_cell))]
fn join_cell<I: IntDomain>(new: &BaseInfo, old: &BaseInfo, at: usize, row: &mut [Cell<I>])
    ensures length { length row.new ≡ length row.old }
    ensures row { row.new ≡ join_cell I.lattice I.numbers new.now old.now at row.old }
{
    let value = value_at(row, leaf_position(new, at));
    join_value(row, leaf_position(old, at), value);
}

#[tactic(auto, using(store_cells::specs::TurnLaws::turns_next), unfolding(crate::specs::Allocations::join_zeros))]
fn join_zeros<I: IntDomain>(new: &BaseInfo, old: &BaseInfo, row: &mut [Cell<I>])
    ensures length { length row.new ≡ length row.old }
    ensures row { row.new ≡ join_zeros I.lattice I.numbers new.now old.now row.old }
{
    for at in 0..new.shape.zeros.as_slice().len() {
        join_part(new, old, at, row);
    }
}

#[tactic(auto, unfolding(crate::specs::Allocations::join_part))]
fn join_part<I: IntDomain>(new: &BaseInfo, old: &BaseInfo, at: usize, row: &mut [Cell<I>])
    ensures length { length row.new ≡ length row.old }
    ensures row { row.new ≡ join_part I.lattice I.numbers new.now old.now at row.old }
{
    let zero = zero_at(row, zero_position(new, at));
    join_zero(row, zero_position(old, at), zero);
}

/// Makes the newest base a fresh instance, or none where no size is left.
#[tactic(auto, unfolding(crate::specs::Allocations::make_fresh))]
fn make_fresh<I: IntDomain>(
    model: &Model,
    bases: &[BaseInfo],
    row: &mut [Cell<I>],
    new: &BaseInfo,
    size: I,
    fresh: Fresh<I>,
)
    requires { IsNear (I.numbers.bounds size) }
    ensures length { length row.new ≡ length row.old }
    ensures row { row.new ≡ make_fresh I.lattice I.numbers model.now bases.now new.now size fresh row.old }
{
    match size.bounds() {
        None => make_nothing(row, new),
        Some(p) => make_instance(model, bases, row, new, size, fresh, p.0),
    }
}

/// The base has one instance of the size, which is at least so many bytes.
#[tactic(auto, unfolding(crate::specs::Allocations::make_instance))]
fn make_instance<I: IntDomain>(
    model: &Model,
    bases: &[BaseInfo],
    row: &mut [Cell<I>],
    new: &BaseInfo,
    size: I,
    fresh: Fresh<I>,
    least: i128,
)
    ensures length { length row.new ≡ length row.old }
    ensures row { row.new ≡ make_instance I.lattice I.numbers model.now bases.now new.now size fresh least row.old }
{
    fresh_values(model, bases, row, new, fresh);
    set_zeros(new, row, fresh_zero(fresh, least));
    put_state(
        row,
        state_position(new),
        AllocState {
            size,
            live: true,
            freed: false,
        },
    );
}

/// The base has no instance.
#[tactic(auto, unfolding(crate::specs::Allocations::make_nothing))]
fn make_nothing<I: IntDomain>(row: &mut [Cell<I>], new: &BaseInfo)
    ensures length { length row.new ≡ length row.old }
    ensures row { row.new ≡ make_nothing I.lattice new.now row.old }
{
    set_values(new, row, Value::bottom());
    set_zeros(new, row, FirstZero::bottom());
    put_state(row, state_position(new), AllocState::bottom());
}

/// The first zero of a fresh instance of at least so many bytes.
fn fresh_zero<I: IntDomain>(fresh: Fresh<I>, least: i128) -> FirstZero<I>
    ensures { result ≡ fresh_zero I.lattice I.numbers fresh least }
{
    match fresh {
        Fresh::Blank => no_zero(),
        Fresh::Zero => zero_if_any(least),
        Fresh::Old(_) => any_zero(),
    }
}

/// The first zero of at least so many bytes, which are 0.
fn zero_if_any<I: IntDomain>(least: i128) -> FirstZero<I>
    ensures { result ≡ zero_if_any I.lattice I.numbers least }
{
    if least >= 1 { zero_first() } else { any_zero() }
}

/// A cell of a fresh instance: its class and its signedness.
#[derive(Clone, Copy)]
struct Target {
    class: Class,
    signed: bool,
}

fn leaf_target(leaf: Leaf) -> Target
    ensures { result ≡ leaf_target leaf }
{
    Target {
        class: leaf.class,
        signed: leaf.signed,
    }
}

fn class_target(class: usize) -> Target
    ensures { result ≡ class_target class }
{
    Target {
        class: class_at(class),
        signed: true,
    }
}

#[tactic(auto, unfolding(crate::specs::Allocations::fresh_values))]
fn fresh_values<I: IntDomain>(
    model: &Model,
    bases: &[BaseInfo],
    row: &mut [Cell<I>],
    new: &BaseInfo,
    fresh: Fresh<I>,
)
    ensures length { length row.new ≡ length row.old }
    ensures row { row.new ≡ fresh_values I.lattice I.numbers model.now bases.now new.now fresh row.old }
{
    fresh_leaves(model, bases, row, new, fresh);
    fresh_classes(model, bases, row, new, fresh);
}

#[tactic(auto, unfolding(crate::specs::Allocations::fresh_leaves))]
fn fresh_leaves<I: IntDomain>(
    model: &Model,
    bases: &[BaseInfo],
    row: &mut [Cell<I>],
    new: &BaseInfo,
    fresh: Fresh<I>,
)
    ensures length { length row.new ≡ length row.old }
    ensures row { row.new ≡ fresh_leaves I.lattice I.numbers model.now bases.now new.now fresh row.old }
{
    let leaves = new.shape.cells.as_slice();
    for at in 0..leaves.len() {
        fresh_cell(
            model,
            bases,
            row,
            leaf_position(new, at),
            fresh,
            leaf_target(leaves[at]),
        );
    }
}

#[tactic(auto, using(store_cells::specs::TurnLaws::turns_next), unfolding(crate::specs::Allocations::fresh_classes))]
fn fresh_classes<I: IntDomain>(
    model: &Model,
    bases: &[BaseInfo],
    row: &mut [Cell<I>],
    new: &BaseInfo,
    fresh: Fresh<I>,
)
    ensures length { length row.new ≡ length row.old }
    ensures row { row.new ≡ fresh_classes I.lattice I.numbers model.now bases.now new.now fresh row.old }
{
    for class in 0..6 {
        fresh_cell(
            model,
            bases,
            row,
            class_position(new, class),
            fresh,
            class_target(class),
        );
    }
}

#[tactic(auto, unfolding(crate::specs::Allocations::fresh_cell))]
fn fresh_cell<I: IntDomain>(
    model: &Model,
    bases: &[BaseInfo],
    row: &mut [Cell<I>],
    position: usize,
    fresh: Fresh<I>,
    target: Target,
)
    ensures length { length row.new ≡ length row.old }
    ensures row { row.new ≡ fresh_cell I.lattice I.numbers model.now bases.now fresh target position row.old }
{
    let value = fresh_value(model, bases, row, fresh, target);
    put_value(row, position, value);
}

#[tactic(auto, unfolding(crate::specs::Allocations::fresh_value))]
fn fresh_value<I: IntDomain>(
    model: &Model,
    bases: &[BaseInfo],
    row: &[Cell<I>],
    fresh: Fresh<I>,
    target: Target,
) -> Value<I>
    ensures { result ≡ fresh_value I.lattice I.numbers model.now bases.now fresh target row.now }
{
    match fresh {
        Fresh::Blank => Value::blank(),
        Fresh::Zero => zero_value(target.class),
        Fresh::Old(p) => Value::blank().join(old_value(model, bases, row, p.bases, target)),
    }
}

/// The join of all cells of a class of the bases of a set.
#[tactic(auto, unfolding(crate::specs::Allocations::old_value))]
fn old_value<I: IntDomain>(
    model: &Model,
    bases: &[BaseInfo],
    row: &[Cell<I>],
    set: Bases,
    target: Target,
) -> Value<I>
    ensures { result ≡ old_value I.lattice I.numbers model.now bases.now row.now set target }
{
    let mut found = Value::bottom();
    for n in 0..bases.len() {
        let value = class_values(model, &bases[n], row, target);
        found = joined_if(has_base(set, n), found, value);
    }
    found
}

/// What was found, joined with one more value if it is wanted.
fn joined_if<I: IntDomain>(wanted: bool, found: Value<I>, value: Value<I>) -> Value<I>
    ensures { result ≡ joined_if I.lattice wanted found value }
{
    if wanted { found.join(value) } else { found }
}

/// The join of the cells of a class of a base, in the type of the target.
#[tactic(auto, unfolding(crate::specs::Allocations::class_values))]
fn class_values<I: IntDomain>(
    model: &Model,
    base: &BaseInfo,
    row: &[Cell<I>],
    target: Target,
) -> Value<I>
    ensures { result ≡ class_values I.lattice I.numbers model.now row.now target base.now }
{
    let leaves = base.shape.cells.as_slice();
    let mut found = class_cell(model, base, row, target);
    for at in 0..leaves.len() {
        let value = value_at(row, leaf_position(base, at));
        found = class_leaf(model, leaves[at], value, target, found);
    }
    found
}

/// What was found, joined with a leaf's value if the leaf is of the target's class.
fn class_leaf<I: IntDomain>(
    model: &Model,
    leaf: Leaf,
    value: Value<I>,
    target: Target,
    found: Value<I>,
) -> Value<I>
    requires { IsNear (I.numbers.bounds value.num) }
    ensures { result ≡ class_leaf_of I.lattice I.numbers model.now target leaf value found }
{
    let read = in_target(model, value, target);
    joined_if(same_class(leaf.class, target.class), found, read)
}

#[tactic(auto, unfolding(crate::specs::Allocations::class_cell))]
fn class_cell<I: IntDomain>(
    model: &Model,
    base: &BaseInfo,
    row: &[Cell<I>],
    target: Target,
) -> Value<I>
    ensures { result ≡ class_cell I.lattice I.numbers model.now row.now target base.now }
{
    if base.shape.heap {
        let value = value_at(row, class_position(base, class_number(target.class)));
        in_target(model, value, target)
    } else {
        Value::bottom()
    }
}

/// A value in the type of the target.
fn in_target<I: IntDomain>(model: &Model, value: Value<I>, target: Target) -> Value<I>
    requires { IsNear (I.numbers.bounds value.num) }
    ensures { result ≡ in_target I.numbers model.now value target }
{
    as_stored(model, value, target.class, target.signed)
}

/// The bases of the old pointer may be freed.
#[tactic(auto, unfolding(crate::specs::Allocations::free_old))]
fn free_old<I: IntDomain>(bases: &[BaseInfo], row: &mut [Cell<I>], fresh: Fresh<I>)
    ensures length { length row.new ≡ length row.old }
    ensures row { row.new ≡ free_old I.lattice I.numbers bases.now fresh row.old }
{
    match fresh {
        Fresh::Old(p) => free_perhaps(bases, row, p.bases),
        Fresh::Blank => {}
        Fresh::Zero => {}
    }
}

/// Whether the site has bases that sets can hold, and a size is left.
fn is_fresh<I: IntDomain>(site: Site, size: I) -> bool
    ensures value { result ≡ is_fresh I.numbers site size }
    ensures newest { result ≡ true → site.newest < 1016 }
{
    is_named(site) && size.bounds().is_some()
}

#[tactic(auto, unfolding(crate::specs::Allocations::fresh_pointer))]
fn fresh_pointer<I: IntDomain>(site: Site, size: I) -> Pointers<I>
    ensures { result ≡ fresh_pointer I.lattice I.numbers site size }
{
    if is_fresh(site, size) {
        Pointers {
            bases: Bases::empty().with(site.newest as u16),
            lo: I::one(0),
            rel: I::one(0),
            len: size,
            part: false,
            null: true,
            ended: false,
        }
    } else {
        null_pointer()
    }
}
