//! What the padding of a copied struct makes of the cells that it may meet.
ghost use Rattle.std.specs.Prelude.{◌≡◌, ◌<◌, ◌+◌, ◌*◌, length};
ghost use Rattle.store_cells.specs.RowPositions.{capped};
ghost use Rattle.store.specs.LeafSelection.{turn_bytes, bytes_behind, bytes_below, covered_more};
ghost use Rattle.store_cells.specs.FirstZeroWrites.{last_of};
ghost use Rattle.store_structs.specs.PaddingWrites.{padded_view, covered_by, leaf_bytes, is_padded_in, has_padding_in, has_padding, padding_meets, place_of, place_padded, meets_leaf, unknown_pointer, unknown_value, pad_leaf_at, pad_leaves, pad_class, pad_classes, pad_part_at, pad_zeros, pad_cells, write_padding};

use crate::leaf_counts::Table;
use crate::leaf_numbers::struct_leaf;
use c_layout::{BaseInfo, Class, Leaf, Model, ZeroPart};
use cc_base::{IntDomain, Lattice};
use store::{
    Window, any_zero, bytes_of, class_at, class_position, is_pointer, join_value, kind_of,
    leaf_position, null_pointer, put_zero, whole_range, zero_position,
};
use value_domain::values::{Cell, Labels, Value};

/// A struct whose bytes are copied: its number, its size, how many leaves it has, and where the copy
/// can begin.
#[derive(Clone, Copy)]
pub struct Padded<'a> {
    pub table: Table<'a>,
    pub index: u32,
    pub size: u64,
    pub leaves: u64,
    pub start: Window,
}

/// Null, indeterminate and with all labels.
fn unknown_pointer<I: IntDomain>() -> Value<I>
    ensures { result ≡ unknown_pointer I.lattice }
{
    Value {
        num: I::bottom(),
        pointer: null_pointer(),
        indeterminate: true,
        labels: Labels::all(),
    }
}

/// What a byte of which nothing is known makes of a cell of a class.
fn unknown_value<I: IntDomain>(model: &Model, class: Class, signed: bool) -> Value<I>
    ensures { result ≡ unknown_value I.lattice I.numbers model.now class signed }
{
    if is_pointer(class) {
        unknown_pointer()
    } else {
        whole_range(kind_of(model, class, signed), Labels::all(), true)
    }
}

/// How many bytes of so many places of a size, and of the next one up to an offset behind its start.
fn turn_bytes(size: u64, turns: u64, behind: u64) -> u64
    ensures { result ≡ turn_bytes size turns behind }
{
    turns.saturating_mul(size).saturating_add(behind.min(size))
}

/// How many bytes of the leaf lie below an offset.
fn bytes_below(model: &Model, leaf: Leaf, offset: u64) -> u64
    ensures { result ≡ bytes_below model.now leaf offset }
{
    if offset <= leaf.offset || leaf.stride == 0 {
        0
    } else {
        bytes_behind(model, leaf, offset - leaf.offset)
    }
}

/// How many bytes of the leaf lie below a distance from its first place.
fn bytes_behind(model: &Model, leaf: Leaf, apart: u64) -> u64
    requires { 0 < leaf.stride }
    ensures { result ≡ bytes_behind model.now leaf apart }
{
    let size = bytes_of(model, leaf.class);
    if apart / leaf.stride < leaf.count {
        turn_bytes(size, apart / leaf.stride, apart % leaf.stride)
    } else {
        leaf.count.saturating_mul(size)
    }
}

/// With the bytes of one more leaf that lie from `lo` to below `end`.
fn covered_more(model: &Model, lo: u64, end: u64, leaf: Leaf, covered: u64) -> u64
    ensures { result ≡ covered_more model.now lo end leaf 0 covered }
{
    let here = bytes_below(model, leaf, end);
    let before = bytes_below(model, leaf, lo);
    covered.saturating_add(here.saturating_sub(before))
}

/// The same, if there is one more leaf.
fn covered_by(model: &Model, lo: u64, end: u64, leaf: Option<Leaf>, covered: u64) -> u64
    ensures { result ≡ covered_by model.now lo end leaf covered }
{
    match leaf {
        None => covered,
        Some(leaf) => covered_more(model, lo, end, leaf, covered),
    }
}

/// How many bytes of the struct's leaves lie in a window.
#[tactic(auto, using(store_cells::specs::TurnLaws::turns_next), unfolding(crate::specs::PaddingWrites::leaf_bytes))]
fn leaf_bytes(model: &Model, padded: Padded, window: Window) -> u64
    ensures { result ≡ leaf_bytes model.now (padded_view padded.entry) window }
{
    let end = window.hi.saturating_add(1);
    let mut covered: u64 = 0;
    for number in 0..padded.leaves {
        let leaf = struct_leaf(padded.table, padded.index, number);
        covered = covered_by(model, window.lo, end, leaf, covered);
    }
    covered
}

/// Whether the leaves leave a byte of a window of the struct.
fn is_padded_in(model: &Model, padded: Padded, window: Window) -> bool
    ensures { result ≡ is_padded_in model.now (padded_view padded.entry) window }
{
    let count = window.hi.saturating_sub(window.lo).saturating_add(1);
    padded.size != 0 && leaf_bytes(model, padded, window) < count
}

/// Whether a byte of the struct's padding lies in a window of offsets from its start.
#[tactic(auto, unfolding(crate::specs::PaddingWrites::has_padding_in))]
fn has_padding_in(model: &Model, padded: Padded, window: Window) -> bool
    ensures { result ≡ has_padding_in model.now (padded_view padded.entry) window }
{
    match window.met(0, padded.size.saturating_sub(1)) {
        None => false,
        Some(met) => is_padded_in(model, padded, met),
    }
}

/// Whether the struct has padding.
#[tactic(auto, unfolding(crate::specs::PaddingWrites::has_padding))]
pub fn has_padding(model: &Model, padded: Padded) -> bool
    ensures { result ≡ has_padding model.now (padded_view padded.entry) }
{
    has_padding_in(
        model,
        padded,
        Window {
            lo: 0,
            hi: padded.size.saturating_sub(1),
        },
    )
}

/// Whether a byte of padding may stand at one of the bytes from `lo` to `hi` of the destination.
#[tactic(auto, unfolding(crate::specs::PaddingWrites::padding_meets))]
fn padding_meets(model: &Model, padded: Padded, lo: u64, hi: u64) -> bool
    ensures { result ≡ padding_meets model.now (padded_view padded.entry) lo hi }
{
    if hi < padded.start.lo {
        false
    } else {
        has_padding_in(
            model,
            padded,
            Window {
                lo: lo.saturating_sub(padded.start.hi),
                hi: hi - padded.start.lo,
            },
        )
    }
}

/// The offset of a place of a leaf.
fn place_of(leaf: Leaf, place: u64) -> u64
    ensures { result ≡ place_of leaf place }
{
    leaf.offset
        .saturating_add(place.saturating_mul(leaf.stride))
}

/// Whether a byte of padding may stand at a byte of a place of the leaf.
fn place_padded(model: &Model, padded: Padded, leaf: Leaf, place: u64) -> bool
    ensures { result ≡ place_padded model.now (padded_view padded.entry) leaf place }
{
    let at = place_of(leaf, place);
    let last = bytes_of(model, leaf.class).saturating_sub(1);
    padding_meets(model, padded, at, at.saturating_add(last))
}

/// Whether a byte of padding may stand at a byte of the leaf.
#[tactic(auto, using(store_struct_leaves::proofs::Somewhere::nowhere_next), unfolding(crate::specs::PaddingWrites::meets_leaf))]
fn meets_leaf(model: &Model, padded: Padded, leaf: Leaf) -> bool
    ensures { result ≡ meets_leaf model.now (padded_view padded.entry) leaf }
{
    for place in 0..leaf.count {
        if place_padded(model, padded, leaf, place) {
            return true;
        }
    }
    false
}

#[tactic(auto, unfolding(crate::specs::PaddingWrites::pad_leaf_at))]
fn pad_leaf<I: IntDomain>(
    model: &Model,
    leaf: Leaf,
    row: &mut [Cell<I>],
    position: usize,
    padded: Padded,
)
    ensures length { length row.new ≡ length row.old }
    ensures row { row.new ≡ pad_leaf_at I.lattice I.numbers model.now (padded_view padded.entry) leaf position row.old }
{
    if meets_leaf(model, padded, leaf) {
        join_value(row, position, unknown_value(model, leaf.class, leaf.signed));
    }
}

#[tactic(auto, unfolding(crate::specs::PaddingWrites::pad_leaves))]
fn pad_leaves<I: IntDomain>(model: &Model, base: &BaseInfo, row: &mut [Cell<I>], padded: Padded)
    ensures length { length row.new ≡ length row.old }
    ensures row { row.new ≡ pad_leaves I.lattice I.numbers model.now base.now (padded_view padded.entry) row.old }
{
    let leaves = base.shape.cells.as_slice();
    for at in 0..leaves.len() {
        pad_leaf(model, leaves[at], row, leaf_position(base, at), padded);
    }
}

#[tactic(auto, unfolding(crate::specs::PaddingWrites::pad_class))]
fn pad_class<I: IntDomain>(model: &Model, base: &BaseInfo, row: &mut [Cell<I>], at: usize)
    ensures length { length row.new ≡ length row.old }
    ensures row { row.new ≡ pad_class I.lattice I.numbers model.now base.now at row.old }
{
    join_value(
        row,
        class_position(base, at),
        unknown_value(model, class_at(at), true),
    );
}

#[tactic(auto, using(store_cells::specs::TurnLaws::turns_next), unfolding(crate::specs::PaddingWrites::pad_classes))]
fn pad_classes<I: IntDomain>(model: &Model, base: &BaseInfo, row: &mut [Cell<I>])
    ensures length { length row.new ≡ length row.old }
    ensures row { row.new ≡ pad_classes I.lattice I.numbers model.now base.now row.old }
{
    for at in 0..6 {
        pad_class(model, base, row, at);
    }
}

/// The last offset of an array at an offset; the part of a whole heap instance has none but the
/// greatest.
fn last_of(offset: u64, size: Option<u64>) -> u64
    ensures { result ≡ last_of offset size }
{
    match size {
        None => u64::MAX,
        Some(size) => offset.saturating_add(size.saturating_sub(1)),
    }
}

#[tactic(auto, unfolding(crate::specs::PaddingWrites::pad_part_at))]
fn pad_part<I: IntDomain>(
    model: &Model,
    part: ZeroPart,
    row: &mut [Cell<I>],
    position: usize,
    padded: Padded,
)
    ensures length { length row.new ≡ length row.old }
    ensures row { row.new ≡ pad_part_at I.lattice I.numbers model.now (padded_view padded.entry) part position row.old }
{
    if padding_meets(model, padded, part.offset, last_of(part.offset, part.size)) {
        put_zero(row, position, any_zero());
    }
}

#[tactic(auto, unfolding(crate::specs::PaddingWrites::pad_zeros))]
fn pad_zeros<I: IntDomain>(model: &Model, base: &BaseInfo, row: &mut [Cell<I>], padded: Padded)
    ensures length { length row.new ≡ length row.old }
    ensures row { row.new ≡ pad_zeros I.lattice I.numbers model.now base.now (padded_view padded.entry) row.old }
{
    let parts = base.shape.zeros.as_slice();
    for at in 0..parts.len() {
        pad_part(model, parts[at], row, zero_position(base, at), padded);
    }
}

#[tactic(auto, unfolding(crate::specs::PaddingWrites::pad_cells))]
fn pad_cells<I: IntDomain>(model: &Model, base: &BaseInfo, row: &mut [Cell<I>], padded: Padded)
    ensures length { length row.new ≡ length row.old }
    ensures row { row.new ≡ pad_cells I.lattice I.numbers model.now base.now (padded_view padded.entry) row.old }
{
    pad_leaves(model, base, row, padded);
    if base.shape.heap {
        pad_classes(model, base, row);
    }
}

/// What the padding of the copied struct makes of a base of the destination.
#[tactic(auto, unfolding(crate::specs::PaddingWrites::write_padding))]
pub fn write_padding<I: IntDomain>(
    model: &Model,
    base: &BaseInfo,
    row: &mut [Cell<I>],
    padded: Padded,
)
    ensures length { length row.new ≡ length row.old }
    ensures row { row.new ≡ write_padding I.lattice I.numbers model.now base.now (padded_view padded.entry) row.old }
{
    pad_cells(model, base, row, padded);
    pad_zeros(model, base, row, padded);
}
