//! The shapes of bases, and the two bases of each site of allocations.
ghost use Rattle.std.specs.Prelude.{◌≡◌, false};
ghost use Rattle.std.specs.List.{list_all};
ghost use Rattle.cfg.specs.BaseShapes as spec;

use crate::apart_leaves::{are_leaves, are_single, same_leaves};
use crate::first_zero_parts::{are_parts, are_whole, lie_over};
use crate::value_ranges::{is_extent, same_truth};
use c_layout::{BaseInfo, BaseKind, Model};

fn is_heap(kind: BaseKind) -> bool
    ensures { result ≡ spec.is_heap kind }
{
    match kind {
        BaseKind::Static => false,
        BaseKind::Automatic => false,
        BaseKind::Literal => false,
        BaseKind::Newest => true,
        BaseKind::Older => true,
    }
}

/// Whether a heap base begins with leaves of which none is folded, and is one part.
fn is_heap_base(model: &Model, base: &BaseInfo) -> bool
    ensures { result ≡ spec.is_heap_base model.now base.now }
{
    let leaves = base.shape.cells.as_slice();
    (base.shape.heap && base.size == 0)
        && (are_leaves(model, 1 << 30, leaves)
            && (are_single(leaves) && are_whole(base.shape.zeros.as_slice())))
}

/// Whether the leaves and the parts of an object lie within it, and its parts over characters.
fn is_declared_base(model: &Model, base: &BaseInfo) -> bool
    ensures { result ≡ spec.is_declared_base model.now base.now }
{
    let leaves = base.shape.cells.as_slice();
    let parts = base.shape.zeros.as_slice();
    (!base.shape.heap && is_extent(base.size))
        && (are_leaves(model, base.size, leaves)
            && (are_parts(base.size, parts) && lie_over(leaves, parts)))
}

fn is_shaped(model: &Model, base: &BaseInfo) -> bool
    ensures { result ≡ spec.is_shaped model.now base.now }
{
    if is_heap(base.kind) {
        is_heap_base(model, base)
    } else {
        is_declared_base(model, base)
    }
}

fn is_newest(kind: BaseKind) -> bool
    ensures { result ≡ spec.is_newest_kind kind }
{
    match kind {
        BaseKind::Newest => true,
        _ => false,
    }
}

fn is_older(kind: BaseKind) -> bool
    ensures { result ≡ spec.is_older_kind kind }
{
    match kind {
        BaseKind::Older => true,
        _ => false,
    }
}

/// Whether the base behind a newest one is its older one, of the same shape.
fn has_older(base: &BaseInfo, behind: &[BaseInfo]) -> bool
    ensures { result ≡ spec.has_older base.now behind.now }
{
    match behind {
        [] => false,
        [older, ..] => {
            is_older(older.kind)
                && same_leaves(base.shape.cells.as_slice(), older.shape.cells.as_slice())
        }
    }
}

/// Whether a base is an older one just where the one before it is a newest one, and has its older one
/// behind it where it is a newest one.
fn is_paired(newest: bool, base: &BaseInfo, behind: &[BaseInfo]) -> bool
    ensures { result ≡ spec.is_paired newest base.now behind.now }
{
    same_truth(is_older(base.kind), newest) && (!is_newest(base.kind) || has_older(base, behind))
}

/// Whether newest and older bases stand in pairs of one shape.
fn are_sites(bases: &[BaseInfo]) -> bool
    ensures { result ≡ spec.are_sites false bases.now }
{
    let mut newest = false;
    for at in 0..bases.len() {
        let base = &bases[at];
        if !is_paired(newest, base, &bases[at + 1..]) {
            return false;
        }
        newest = is_newest(base.kind);
    }
    true
}

fn each_is_shaped(model: &Model, bases: &[BaseInfo]) -> bool
    ensures { result ≡ list_all (spec.is_shaped model.now) bases.now }
{
    bases.iter().all(|base| is_shaped(model, base))
}

/// Whether bases have the shapes of objects and of sites of allocations.
pub fn are_shaped(model: &Model, bases: &[BaseInfo]) -> bool
    ensures { result ≡ spec.are_shaped model.now bases.now }
{
    each_is_shaped(model, bases) && are_sites(bases)
}
