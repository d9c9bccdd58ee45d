//! The copy of a struct.
ghost use Rattle.std.specs.Prelude.{◌≡◌, length, slice_get, Some};
ghost use Rattle.std.specs.Option.{option_map, option_copied};
ghost use Rattle.c_layout.specs.StructViews.{structs_view, struct_view};
ghost use Rattle.store_structs.specs.CopyZeros.{exact_view};
ghost use Rattle.store_structs.specs.PaddingWrites.{padded_view};
ghost use Rattle.store_structs.specs.StructCopies.{route_view, leaf_access, route_for, is_declared_in, first_declared, one_declared, is_exact, exact_copy, most_at_once, batch_first, batch_count, reached_row, read_source, write_target, copy_step, copy_leaves, copy_batch, copy_all, pad_if, finish_base, finish_if, finish_all, finish, padded_of, finish_reached, copy_route, copy_between, copy_struct};

use crate::copy_zeros::{ExactCopy, copied_window, copy_zeros};
use crate::leaf_counts::Table;
use crate::leaf_numbers::struct_leaf;
use crate::padding_writes::{Padded, has_padding, write_padding};
use c_layout::{BaseInfo, Leaf, Model, StructType, Structs};
use cc_base::IntDomain;
use pointer_domain::{Bases, Pointers};
use store::{Window, has_base, is_one_instance, window_of};
use store_struct_leaves::{LeafAccess, Side, Span, read_leaf, write_leaf};
use value_domain::values::{Cell, Value};

/// The most leaves that are all read before one is written.
const MOST_AT_ONCE: u64 = 1_024;

/// A struct that is copied: the unit's structs, and its number among them.
#[derive(Clone, Copy)]
pub struct StructCopy<'a> {
    pub model: &'a Model,
    pub bases: &'a [BaseInfo],
    pub structs: &'a Structs,
    pub index: u32,
}

/// The two sides of a copy, which may begin in a window each.
#[derive(Clone, Copy)]
struct Route<'a> {
    model: &'a Model,
    bases: &'a [BaseInfo],
    table: Table<'a>,
    index: u32,
    source: Bases,
    from: Window,
    target: Bases,
    to: Window,
    alone: bool,
}

fn leaf_access(leaf: Leaf, start: Window) -> LeafAccess
    ensures { result ≡ leaf_access leaf start }
{
    LeafAccess {
        class: leaf.class,
        signed: leaf.signed,
        span: Span::of_leaf(leaf, start),
    }
}

/// What a leaf can be in the source.
#[tactic(auto, unfolding(crate::specs::StructCopies::read_source))]
fn read_source<I: IntDomain>(route: Route, row: &[Cell<I>], leaf: Leaf) -> Option<Value<I>>
    ensures { result ≡ read_source I.lattice I.numbers (route_view route.entry) leaf row.now }
{
    let side = Side {
        model: route.model,
        bases: route.bases,
        set: route.source,
    };
    read_leaf(side, row, leaf_access(leaf, route.from))
}

/// Writes a leaf to the destination. False where it can be nowhere.
#[tactic(auto, unfolding(crate::specs::StructCopies::write_target))]
fn write_target<I: IntDomain>(
    route: Route,
    row: &mut [Cell<I>],
    leaf: Leaf,
    value: Value<I>,
) -> bool
    ensures length { length row.new ≡ length row.old }
    ensures row { reached_row result row.new ≡ write_target I.lattice I.numbers (route_view route.entry) leaf value row.old }
{
    let side = Side {
        model: route.model,
        bases: route.bases,
        set: route.target,
    };
    if write_leaf(side, row, leaf_access(leaf, route.to), value, route.alone) {
        true
    } else {
        false
    }
}

/// Copies so many leaves from a number on: each is read before any of them is written. False where a
/// leaf can be nowhere.
#[cycle(leaves)]
fn copy_leaves<I: IntDomain>(route: Route, row: &mut [Cell<I>], first: u64, count: u64) -> bool
    ensures length { length row.new ≡ length row.old }
    ensures row { reached_row result row.new ≡ copy_leaves I.lattice I.numbers (route_view route.entry) count first row.old }
{
    if count == 0 {
        return true;
    }
    match struct_leaf(route.table, route.index, first) {
        None => true,
        Some(leaf) => copy_leaf(route, row, leaf, first.saturating_add(1), count - 1),
    }
}

/// Copies a leaf, and after its reading the leaves that come next.
#[cycle(leaves)]
fn copy_leaf<I: IntDomain>(
    route: Route,
    row: &mut [Cell<I>],
    leaf: Leaf,
    next: u64,
    left: u64,
) -> bool
    ensures length { length row.new ≡ length row.old }
    ensures row { reached_row result row.new ≡ copy_step I.lattice I.numbers (route_view route.entry) row.old (Some leaf) (copy_leaves I.lattice I.numbers (route_view route.entry) left next row.old) }
{
    match read_source(route, row, leaf) {
        None => false,
        Some(value) => {
            if copy_leaves(route, row, next, left) {
                write_target(route, row, leaf, value)
            } else {
                false
            }
        }
    }
}

fn batch_first(turn: u64) -> u64
    ensures { result ≡ batch_first turn }
{
    turn.saturating_mul(MOST_AT_ONCE)
}

fn batch_count(turn: u64, count: u64) -> u64
    ensures { result ≡ batch_count turn count }
{
    let first = batch_first(turn);
    first
        .saturating_add(MOST_AT_ONCE)
        .min(count)
        .saturating_sub(first)
}

/// Copies the leaves of a turn, if those before were copied.
fn copy_batch<I: IntDomain>(
    goes_on: bool,
    route: Route,
    row: &mut [Cell<I>],
    turn: u64,
    count: u64,
) -> bool
    ensures length { length row.new ≡ length row.old }
    ensures row { reached_row result row.new ≡ copy_batch I.lattice I.numbers (route_view route.entry) count turn (reached_row goes_on row.old) }
{
    if goes_on {
        copy_leaves(route, row, batch_first(turn), batch_count(turn, count))
    } else {
        false
    }
}

#[tactic(auto, using(store_cells::specs::TurnLaws::turns_next), unfolding(crate::specs::StructCopies::copy_all))]
fn copy_all<I: IntDomain>(route: Route, row: &mut [Cell<I>], count: u64) -> bool
    ensures length { length row.new ≡ length row.old }
    ensures row { reached_row result row.new ≡ copy_all I.lattice I.numbers (route_view route.entry) count row.old }
{
    let mut goes_on = true;
    for turn in 0..count / MOST_AT_ONCE + 1 {
        goes_on = copy_batch(goes_on, route, row, turn, count);
    }
    goes_on
}

/// Whether the set has the base with this number, and it is no heap base.
fn is_declared_in(base: &BaseInfo, number: usize, set: Bases) -> bool
    ensures { result ≡ is_declared_in set base.now number }
{
    has_base(set, number) && !base.shape.heap
}

/// The first base of a set that is no heap base.
fn first_declared<'a>(bases: &'a [BaseInfo], set: Bases) -> Option<&'a BaseInfo>
    ensures { option_copied result ≡ first_declared set 0 bases.now }
{
    for n in 0..bases.len() {
        if is_declared_in(&bases[n], n, set) {
            return Some(&bases[n]);
        }
    }
    None
}

/// The one base of a set that is no heap base.
#[tactic(auto, unfolding(crate::specs::StructCopies::one_declared))]
fn one_declared<'a>(bases: &'a [BaseInfo], set: Bases) -> Option<&'a BaseInfo>
    ensures { option_copied result ≡ one_declared bases.now set }
{
    if set.count() == 1 {
        first_declared(bases, set)
    } else {
        None
    }
}

fn is_exact(route: Route) -> bool
    ensures { result ≡ is_exact (route_view route.entry) }
{
    route.alone && (route.from.is_one() && route.to.is_one())
}

/// The copy as one between two offsets, where both sides have one declared base and one offset.
#[tactic(auto, unfolding(crate::specs::StructCopies::exact_copy))]
fn exact_copy<'a>(route: Route<'a>, size: u64) -> Option<ExactCopy<'a>>
    ensures { option_map exact_view result ≡ exact_copy (route_view route.entry) size }
{
    match one_declared(route.bases, route.source) {
        None => None,
        Some(source) => {
            if is_exact(route) {
                Some(ExactCopy {
                    source,
                    from: route.from.lo,
                    to: route.to.lo,
                    size,
                })
            } else {
                None
            }
        }
    }
}

#[tactic(auto, unfolding(crate::specs::StructCopies::finish_base))]
fn finish_base<I: IntDomain>(
    route: Route,
    base: &BaseInfo,
    row: &mut [Cell<I>],
    padded: Padded,
    exact: Option<ExactCopy>,
    padding: bool,
)
    ensures length { length row.new ≡ length row.old }
    ensures row { row.new ≡ finish_base I.lattice I.numbers (route_view route.entry) (padded_view padded.entry) (option_map exact_view exact.entry) padding base.now row.old }
{
    copy_zeros(base, row, copied_window(route.to, padded.size), exact);
    if padding {
        write_padding(route.model, base, row, padded);
    }
}

/// The first zeros and the padding of a base of the destination, if it is wanted.
#[tactic(auto, unfolding(crate::specs::StructCopies::finish_if))]
fn finish_if<I: IntDomain>(
    wanted: bool,
    route: Route,
    base: &BaseInfo,
    row: &mut [Cell<I>],
    padded: Padded,
    exact: Option<ExactCopy>,
    padding: bool,
)
    ensures length { length row.new ≡ length row.old }
    ensures row { row.new ≡ finish_if I.lattice I.numbers (route_view route.entry) (padded_view padded.entry) (option_map exact_view exact.entry) padding wanted base.now row.old }
{
    if wanted {
        finish_base(route, base, row, padded, exact, padding);
    }
}

#[tactic(auto, unfolding(crate::specs::StructCopies::finish_all))]
fn finish_all<I: IntDomain>(
    route: Route,
    bases: &[BaseInfo],
    row: &mut [Cell<I>],
    padded: Padded,
    exact: Option<ExactCopy>,
    padding: bool,
)
    ensures length { length row.new ≡ length row.old }
    ensures row { row.new ≡ finish_all I.lattice I.numbers (route_view route.entry) (padded_view padded.entry) (option_map exact_view exact.entry) padding bases.now row.old }
{
    for n in 0..bases.len() {
        finish_if(
            has_base(route.target, n),
            route,
            &bases[n],
            row,
            padded,
            exact,
            padding,
        );
    }
}

#[tactic(auto, unfolding(crate::specs::StructCopies::finish))]
fn finish<I: IntDomain>(route: Route, row: &mut [Cell<I>], padded: Padded)
    ensures length { length row.new ≡ length row.old }
    ensures row { row.new ≡ finish I.lattice I.numbers (route_view route.entry) (padded_view padded.entry) row.old }
{
    let padding = has_padding(route.model, padded);
    let exact = exact_copy(route, padded.size);
    finish_all(route, route.bases, row, padded, exact, padding);
}

fn padded_of<'a>(route: Route<'a>, layout: &StructType) -> Padded<'a>
    ensures { padded_view result ≡ padded_of (route_view route.entry) (struct_view layout.now) }
{
    Padded {
        table: route.table,
        index: route.index,
        size: layout.size,
        leaves: layout.leaves,
        start: route.to,
    }
}

#[tactic(auto, unfolding(crate::specs::StructCopies::copy_route))]
fn copy_route<I: IntDomain>(route: Route, row: &mut [Cell<I>], layout: &StructType) -> bool
    ensures length { length row.new ≡ length row.old }
    ensures row { reached_row result row.new ≡ copy_route I.lattice I.numbers (route_view route.entry) (struct_view layout.now) row.old }
{
    if copy_all(route, row, layout.leaves) {
        finish(route, row, padded_of(route, layout));
        true
    } else {
        false
    }
}

/// Copies a struct between windows.
fn copy_between<I: IntDomain>(
    copy: StructCopy,
    row: &mut [Cell<I>],
    layout: &StructType,
    target: (Bases, Option<Window>),
    source: (Bases, Option<Window>),
) -> bool
    ensures length { length row.new ≡ length row.old }
    ensures row { reached_row result row.new ≡ copy_between I.lattice I.numbers copy.entry.model.now copy.entry.bases.now (structs_view copy.entry.structs.now) copy.entry.index (struct_view layout.now) target.0 target.1 source.0 source.1 row.old }
{
    match target.1 {
        None => false,
        Some(to) => match source.1 {
            None => false,
            Some(from) => {
                let route = route_of(copy, target.0, to, source.0, from);
                copy_route(route, row, layout)
            }
        },
    }
}

/// The struct with a number, if there is one.
fn layout_of<'a>(structs: &'a Structs, index: u32) -> Option<&'a StructType>
    ensures { option_map struct_view (option_copied result) ≡ slice_get (structs_view structs.now) index }
{
    structs.items.get(index as usize)
}

/// Copies a struct between places that were touched: into bases that may be live, within their
/// bounds, and to no literal. False where there is no such place; then the row is unspecified.
#[tactic(auto, unfolding(crate::specs::StructCopies::copy_struct))]
pub fn copy_struct<I: IntDomain>(
    copy: StructCopy,
    row: &mut [Cell<I>],
    to: Pointers<I>,
    from: Pointers<I>,
) -> bool
    ensures length { length row.new ≡ length row.old }
    ensures row { reached_row result row.new ≡ copy_struct I.lattice I.numbers copy.entry.model.now copy.entry.bases.now (structs_view copy.entry.structs.now) copy.entry.index to from row.old }
{
    match layout_of(copy.structs, copy.index) {
        None => false,
        Some(layout) => {
            let target = (to.bases, window_of(to, layout.size));
            let source = (from.bases, window_of(from, layout.size));
            copy_between(copy, row, layout, target, source)
        }
    }
}

fn route_of<'a>(
    copy: StructCopy<'a>,
    target: Bases,
    to: Window,
    source: Bases,
    from: Window,
) -> Route<'a>
    ensures { route_view result ≡ route_for copy.entry.model.now copy.entry.bases.now (structs_view copy.entry.structs.now) copy.entry.index target to source from }
{
    Route {
        model: copy.model,
        bases: copy.bases,
        table: Table {
            structs: copy.structs,
            pointer: copy.model.pointer as u64,
        },
        index: copy.index,
        source,
        from,
        target,
        to,
        alone: is_one_instance(copy.bases, target),
    }
}
