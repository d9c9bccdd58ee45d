//! First-zero parts that lie over characters alone.
ghost use Rattle.std.specs.Prelude.{◌≡◌, ◌+◌, true};
ghost use Rattle.cfg.specs.BaseShapes as spec;

use crate::apart_leaves::ends_by;
use crate::value_ranges::same_class;
use c_layout::{Class, Leaf, ZeroPart};

/// The size of a part, or 0 where it has none.
pub fn part_size(part: ZeroPart) -> u64
    ensures { result ≡ spec.part_size part }
{
    match part.size {
        None => 0,
        Some(size) => size,
    }
}

/// Whether parts ascend, no two of them share a byte, and all lie in a room.
pub fn are_parts(room: u64, parts: &[ZeroPart]) -> bool
    ensures { result ≡ spec.are_parts room 0 parts.now }
{
    let mut from = 0;
    for part in parts {
        let size = part_size(*part);
        if part.offset < from || !ends_by(part.offset, size, room) {
            return false;
        }
        from = part.offset + size;
    }
    true
}

/// Whether a leaf of characters side by side goes on with a part, of which so many bytes lie over the
/// leaves before it.
fn goes_on(part: ZeroPart, done: u64, leaf: Leaf) -> bool
    ensures { result ≡ spec.goes_on part done leaf }
{
    (ends_by(part.offset, done, leaf.offset)
        && (leaf.offset - part.offset == done && ends_by(done, leaf.count, part_size(part))))
        && (same_class(leaf.class, Class::Char) && leaf.stride == 1)
}

/// How many bytes of the part lie over leaves behind one that goes on with it.
fn reached(part: ZeroPart, done: u64, leaf: Leaf) -> u64
    requires { spec.goes_on part done leaf ≡ true }
    ensures { result ≡ done + leaf.count }
{
    done + leaf.count
}

/// Whether parts lie over characters alone, from the first byte of each to its last one.
pub fn lie_over(leaves: &[Leaf], parts: &[ZeroPart]) -> bool
    ensures { result ≡ spec.lie_over 0 leaves.now parts.now }
{
    let mut at = 0;
    let mut done = 0;
    for leaf in leaves {
        match parts.get(at) {
            None => return true,
            Some(part) => {
                if part.offset <= leaf.offset {
                    if !goes_on(*part, done, *leaf) {
                        return false;
                    }
                    done = reached(*part, done, *leaf);
                    if done == part_size(*part) {
                        at += 1;
                        done = 0;
                    }
                }
            }
        }
    }
    at == parts.len()
}

fn is_whole_part(part: ZeroPart) -> bool
    ensures { result ≡ spec.is_whole_part part }
{
    part.offset == 0 && part.size.is_none()
}

/// Whether there is one part, which has no size.
pub fn are_whole(parts: &[ZeroPart]) -> bool
    ensures { result ≡ spec.are_whole parts.now }
{
    match parts {
        [] => false,
        [part] => is_whole_part(*part),
        [_, _, ..] => false,
    }
}
