//! Which cells an access reaches.
ghost use Rattle.std.specs.Prelude.{◌≡◌, ◌<◌, ◌≤◌, ◌-◌, ◌*◌, ◌/◌, ◌%◌};
ghost use Rattle.store_cells.specs.RowPositions.{capped};
ghost use Rattle.store.specs.LeafSelection.{has_place_in, turns_into, places_before, is_selected, is_overlapped, is_other, selected_count, has_stray, turn_bytes, bytes_behind, bytes_below, covered_more, covered_bytes, window_end, meets_padding};

use c_layout::{Class, Leaf, Model};
use store_cells::{Window, bytes_of, same_class};

/// Whether one of the places of a leaf lies in the window.
pub fn has_place_in(leaf: Leaf, window: Window) -> bool
    ensures { result ≡ has_place_in leaf window }
{
    if leaf.stride == 0 || window.hi < leaf.offset {
        false
    } else {
        turns_into(leaf, window)
    }
}

/// Whether the first place from the start of the window on is one of the leaf's, and does not lie
/// behind the end of the window.
fn turns_into(leaf: Leaf, window: Window) -> bool
    requires stride { 0 < leaf.stride }
    requires reached { leaf.offset ≤ window.hi }
    ensures { result ≡ turns_into leaf window }
{
    let first = places_before(leaf, window.lo);
    let last = (window.hi - leaf.offset) / leaf.stride;
    first < leaf.count && first <= last
}

/// How many places of an endless row of places lie before an offset.
fn places_before(leaf: Leaf, offset: u64) -> u64
    requires { 0 < leaf.stride }
    ensures { result ≡ places_before leaf offset }
{
    if offset <= leaf.offset {
        0
    } else {
        (offset - leaf.offset - 1) / leaf.stride + 1
    }
}

/// Whether an access of a class that begins in the window reaches the leaf as one of its own class.
pub fn is_selected(leaf: Leaf, class: Class, window: Window) -> bool
    ensures { result ≡ is_selected leaf class window }
{
    same_class(leaf.class, class) && has_place_in(leaf, window)
}

/// Whether a byte of the leaf lies in the window.
pub fn is_overlapped(model: &Model, leaf: Leaf, window: Window) -> bool
    ensures { result ≡ is_overlapped model.now leaf window }
{
    let before = bytes_of(model, leaf.class).saturating_sub(1);
    let wider = Window {
        lo: window.lo.saturating_sub(before),
        hi: window.hi,
    };
    has_place_in(leaf, wider)
}

/// Whether the leaf is none of characters, and a byte of it lies in the window.
pub fn is_other(model: &Model, leaf: Leaf, window: Window) -> bool
    ensures { result ≡ is_other model.now leaf window }
{
    !same_class(leaf.class, Class::Char) && is_overlapped(model, leaf, window)
}

/// How many leaves the access reaches.
pub fn selected_count(leaves: &[Leaf], class: Class, window: Window) -> u64
    ensures { result ≡ selected_count leaves.now class window }
{
    let mut found: u64 = 0;
    for leaf in leaves {
        if is_selected(*leaf, class, window) {
            found += 1;
        }
    }
    found
}

/// Whether the window has an offset that is no offset of a leaf of the class. The leaves of a heap
/// base have one place each.
pub fn has_stray(leaves: &[Leaf], class: Class, window: Window) -> bool
    ensures { result ≡ has_stray leaves.now class window }
{
    window.hi.saturating_sub(window.lo) >= selected_count(leaves, class, window)
}

/// How many bytes of so many places of a size, and of the next one up to an offset behind its start.
fn turn_bytes(size: u64, turns: u64, behind: u64) -> u64
    ensures { result ≡ turn_bytes size turns behind }
{
    turns.saturating_mul(size).saturating_add(behind.min(size))
}

/// How many bytes of the leaf lie below an offset.
fn bytes_below(model: &Model, leaf: Leaf, offset: u64) -> u64
    ensures { result ≡ bytes_below model.now leaf offset }
{
    if offset <= leaf.offset || leaf.stride == 0 {
        0
    } else {
        bytes_behind(model, leaf, offset - leaf.offset)
    }
}

/// How many bytes of the leaf lie below a distance from its first place.
fn bytes_behind(model: &Model, leaf: Leaf, apart: u64) -> u64
    requires { 0 < leaf.stride }
    ensures { result ≡ bytes_behind model.now leaf apart }
{
    let size = bytes_of(model, leaf.class);
    if apart / leaf.stride < leaf.count {
        turn_bytes(size, apart / leaf.stride, apart % leaf.stride)
    } else {
        leaf.count.saturating_mul(size)
    }
}

/// With the bytes of one more leaf that lie from `lo` to below `end`.
fn covered_more(model: &Model, lo: u64, end: u64, leaf: Leaf, covered: u64) -> u64
    ensures { result ≡ covered_more model.now lo end leaf 0 covered }
{
    let here = bytes_below(model, leaf, end);
    let before = bytes_below(model, leaf, lo);
    covered.saturating_add(here.saturating_sub(before))
}

/// How many bytes of the leaves lie from `lo` to below `end`.
fn covered_bytes(model: &Model, leaves: &[Leaf], lo: u64, end: u64) -> u64
    ensures { result ≡ covered_bytes model.now leaves.now lo end }
{
    let mut covered: u64 = 0;
    for at in 0..leaves.len() {
        covered = covered_more(model, lo, end, leaves[at], covered);
    }
    covered
}

/// The offset behind the window, within an object of at least one byte.
fn window_end(window: Window, size: u64) -> u64
    requires { 0 < size }
    ensures { result ≡ window_end window size }
{
    window.hi.min(size - 1) + 1
}

/// Whether an offset of the window, below the size of the object, is the offset of no leaf's byte.
pub fn meets_padding(model: &Model, leaves: &[Leaf], window: Window, size: u64) -> bool
    ensures { result ≡ meets_padding model.now leaves.now window size }
{
    if window.lo < size {
        let end = window_end(window, size);
        covered_bytes(model, leaves, window.lo, end) < end.saturating_sub(window.lo)
    } else {
        false
    }
}
