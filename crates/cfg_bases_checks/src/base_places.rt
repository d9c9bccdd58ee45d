//! Places in a base.
ghost use Rattle.std.specs.Prelude.{◌≡◌, slice_get};
ghost use Rattle.std.specs.List.{list_all, list_any};
ghost use Rattle.cfg.specs.BaseShapes as spec;
ghost use Rattle.cfg.specs.WellFormed.{reaches};

use crate::apart_leaves::ends_by;
use crate::first_zero_parts::part_size;
use crate::value_ranges::same_class;
use c_layout::{BaseInfo, Class, Leaf, ZeroPart};

/// Whether an offset is one of an object, or its end.
pub fn reaches(bases: &[BaseInfo], base: u32, at: u64) -> bool
    ensures { result ≡ reaches at (slice_get bases.now base) }
{
    match bases.get(base as usize) {
        None => false,
        Some(info) => at <= info.size,
    }
}

/// Whether a part is the room that a text is spelled into, or no byte of it is.
fn is_room_or_apart(at: u64, room: u64, part: ZeroPart) -> bool
    ensures { result ≡ spec.is_room_or_apart at room part }
{
    let size = part_size(part);
    (part.offset == at && size == room)
        || (ends_by(part.offset, size, at) || ends_by(at, room, part.offset))
}

fn leaves_parts(at: u64, room: u64, parts: &[ZeroPart]) -> bool
    ensures { result ≡ list_all (spec.is_room_or_apart at room) parts.now }
{
    parts.iter().all(|part| is_room_or_apart(at, room, *part))
}

/// Whether a text may be spelled into so many bytes at an offset: they are bytes of the object, and a
/// whole part of it or beside all of them.
pub fn has_room(bases: &[BaseInfo], base: u32, at: u64, room: u64) -> bool
    ensures { result ≡ spec.has_room at room (slice_get bases.now base) }
{
    match bases.get(base as usize) {
        None => false,
        Some(info) => {
            ends_by(at, room, info.size) && leaves_parts(at, room, info.shape.zeros.as_slice())
        }
    }
}

/// Whether a scalar of a class at an offset is a place of the leaf.
fn is_place(class: Class, at: u64, leaf: Leaf) -> bool
    ensures { result ≡ spec.is_place class at leaf }
{
    same_class(class, leaf.class)
        && (0 < leaf.stride
            && (leaf.offset <= at
                && ((at - leaf.offset) % leaf.stride == 0
                    && (at - leaf.offset) / leaf.stride < leaf.count)))
}

fn any_place(class: Class, at: u64, leaves: &[Leaf]) -> bool
    ensures { result ≡ list_any (spec.is_place class at) leaves.now }
{
    leaves.iter().any(|leaf| is_place(class, at, *leaf))
}

/// Whether a base has a leaf of the class at an offset.
pub fn has_place(bases: &[BaseInfo], base: u32, class: Class, at: u64) -> bool
    ensures { result ≡ spec.has_place class at (slice_get bases.now base) }
{
    match bases.get(base as usize) {
        None => false,
        Some(info) => any_place(class, at, info.shape.cells.as_slice()),
    }
}
