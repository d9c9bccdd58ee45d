//! Leaves that stand apart.
ghost use Rattle.std.specs.Prelude.{◌≡◌, ◌*◌, true};
ghost use Rattle.std.specs.List.{list_all};
ghost use Rattle.cfg.specs.BaseShapes as spec;

use crate::value_ranges::{class_bytes, is_extent, same_class, same_truth};
use c_layout::{Class, Leaf, Model};

/// Whether so many bytes from an offset on end at a limit or before it.
pub fn ends_by(at: u64, size: u64, limit: u64) -> bool
    ensures { result ≡ spec.ends_by at size limit }
{
    at <= limit && size <= limit - at
}

fn has_extents(leaf: Leaf) -> bool
    ensures { result ≡ spec.has_extents leaf }
{
    is_extent(leaf.offset) && (is_extent(leaf.stride) && is_extent(leaf.count))
}

/// The first byte behind the last element of the array in which a leaf stands.
fn array_end(leaf: Leaf) -> u64
    requires { spec.has_extents leaf ≡ true }
    ensures { result ≡ spec.array_end leaf }
{
    leaf.offset + leaf.stride * leaf.count
}

/// The first byte behind the first place of a leaf.
fn leaf_end(model: &Model, leaf: Leaf) -> u64
    requires { spec.has_extents leaf ≡ true }
    ensures { result ≡ spec.leaf_end model.now leaf }
{
    leaf.offset + class_bytes(model, leaf.class) as u64
}

fn is_stride(model: &Model, leaf: Leaf) -> bool
    ensures { result ≡ spec.is_stride model.now leaf }
{
    let bytes = class_bytes(model, leaf.class) as u64;
    if leaf.count == 1 {
        leaf.stride == bytes
    } else {
        bytes <= leaf.stride
    }
}

fn is_behind(first: Leaf, leaf: Leaf) -> bool
    requires { spec.has_extents first ≡ true }
    ensures { result ≡ spec.is_behind first leaf }
{
    array_end(first) <= leaf.offset
}

/// Whether a leaf stands in the element of another one, behind the bytes that are taken.
fn is_beside(model: &Model, first: Leaf, taken: u64, leaf: Leaf) -> bool
    requires first { spec.has_extents first ≡ true }
    requires leaf { spec.has_extents leaf ≡ true }
    ensures { result ≡ spec.is_beside model.now first taken leaf }
{
    (leaf.stride == first.stride && leaf.count == first.count)
        && (taken <= leaf.offset && leaf_end(model, leaf) <= first.offset + first.stride)
}

/// Whether a leaf that is the first one of an element, or stands in that of another one, is apart from
/// those before it.
fn is_apart(model: &Model, room: u64, first: Leaf, taken: u64, leaf: Leaf) -> bool
    requires first { spec.has_extents first ≡ true }
    requires leaf { spec.has_extents leaf ≡ true }
    ensures { result ≡ spec.is_apart model.now room first taken leaf }
{
    if is_behind(first, leaf) {
        0 < leaf.count && array_end(leaf) <= room
    } else {
        is_beside(model, first, taken, leaf)
    }
}

/// Whether a leaf is apart from those before it, and has its place in the room.
fn follows(model: &Model, room: u64, first: Leaf, taken: u64, leaf: Leaf) -> bool
    requires { spec.has_extents first ≡ true }
    ensures { result ≡ spec.follows model.now room first taken leaf }
{
    (has_extents(leaf) && is_stride(model, leaf)) && is_apart(model, room, first, taken, leaf)
}

/// The first leaf of the element that a leaf stands in.
fn first_of(first: Leaf, leaf: Leaf) -> Leaf
    requires { spec.has_extents first ≡ true }
    ensures { result ≡ spec.first_of first leaf }
{
    if is_behind(first, leaf) { leaf } else { first }
}

/// What stands before all leaves.
fn nowhere() -> Leaf
    ensures { result ≡ spec.nowhere }
{
    Leaf {
        offset: 0,
        class: Class::Char,
        signed: false,
        stride: 0,
        count: 0,
    }
}

/// Whether leaves ascend, no two of them share a byte, and all have their places in a room.
pub fn are_leaves(model: &Model, room: u64, leaves: &[Leaf]) -> bool
    ensures { result ≡ spec.are_leaves model.now room leaves.now }
{
    let mut first = nowhere();
    let mut taken = 0;
    for leaf in leaves {
        if !follows(model, room, first, taken, *leaf) {
            return false;
        }
        first = first_of(first, *leaf);
        taken = leaf_end(model, *leaf);
    }
    true
}

fn is_single(leaf: &Leaf) -> bool
    ensures { result ≡ spec.is_single leaf.now }
{
    leaf.count == 1
}

/// Whether each leaf stands once.
pub fn are_single(leaves: &[Leaf]) -> bool
    ensures { result ≡ list_all spec.is_single leaves.now }
{
    leaves.iter().all(|leaf| is_single(leaf))
}

fn same_leaf(a: Leaf, b: Leaf) -> bool
    ensures { result ≡ spec.same_leaf a b }
{
    (a.offset == b.offset && same_class(a.class, b.class))
        && (same_truth(a.signed, b.signed) && (a.stride == b.stride && a.count == b.count))
}

/// Whether two lists of leaves are the same.
pub fn same_leaves(a: &[Leaf], b: &[Leaf]) -> bool
    ensures { result ≡ spec.same_leaves a.now b.now }
{
    if a.len() != b.len() {
        return false;
    }
    for at in 0..a.len() {
        if !same_leaf(a[at], b[at]) {
            return false;
        }
    }
    true
}
