//! Texts that are spelled into objects.
ghost use Rattle.std.specs.Prelude.{◌≡◌, ◌+◌, true, slice_get};
ghost use Rattle.std.specs.List.{list_all, list_any};
ghost use Rattle.c_layout.specs.declared.leaf_lists.Class.TheVariants.{Char};
ghost use Rattle.cfg.specs.BaseShapes.{is_extent, is_place};
ghost use Rattle.cfg.specs.ModelKinds.{same_class};
ghost use Rattle.analysis_preconditions.specs.Objects.SpelledTexts as spec;

use c_layout::{BaseInfo, Class, Leaf, ZeroPart};
use cfg::{BasicBlock, Flow, Instruction, Operation};

fn is_extent(n: u64) -> bool
    ensures { result ≡ is_extent n }
{
    n <= 1_073_741_824
}

fn is_character(class: Class) -> bool
    ensures { result ≡ same_class Char class }
{
    matches!(class, Class::Char)
}

/// Whether a character at an offset is a place of the leaf.
fn is_place(at: u64, leaf: &Leaf) -> bool
    ensures { result ≡ is_place Char at leaf.now }
{
    is_character(leaf.class)
        && (0 < leaf.stride
            && (leaf.offset <= at
                && ((at - leaf.offset) % leaf.stride == 0
                    && (at - leaf.offset) / leaf.stride < leaf.count)))
}

/// The first byte, up to an end, that is not of the characters that stand in a leaf side by side from an
/// offset on.
fn behind_characters(leaf: &Leaf, at: u64, end: u64) -> u64
    ensures { result ≡ spec.behind_characters leaf.now at end }
{
    if at < end && is_place(at, leaf) {
        if leaf.stride == 1 {
            at + (end - at).min(leaf.count.saturating_sub(at.saturating_sub(leaf.offset)))
        } else {
            at + 1
        }
    } else {
        at
    }
}

/// Whether each byte from an offset up to an end is a character, of leaves in this order.
fn reaches_over(leaves: &[Leaf], offset: u64, end: u64) -> bool
    ensures { result ≡ spec.reaches_over leaves.now offset end }
{
    let mut at = offset;
    for number in 0..leaves.len() {
        at = behind_characters(&leaves[number], at, end);
    }
    at == end
}

fn is_size_of(room: u64, size: Option<u64>) -> bool
    ensures { result ≡ spec.is_size_of room size }
{
    match size {
        None => false,
        Some(n) => n == room,
    }
}

/// Whether room is an array whose first zero is followed.
fn is_followed(offset: u64, room: u64, part: &ZeroPart) -> bool
    ensures { result ≡ spec.is_followed offset room part.now }
{
    part.offset == offset && is_size_of(room, part.size)
}

fn any_followed(offset: u64, room: u64, parts: &[ZeroPart]) -> bool
    ensures { result ≡ list_any (spec.is_followed offset room) parts.now }
{
    parts.iter().any(|part| is_followed(offset, room, part))
}

fn has_followed(offset: u64, room: u64, info: &BaseInfo) -> bool
    ensures { result ≡ spec.has_followed offset room info.now }
{
    !info.shape.heap && any_followed(offset, room, info.shape.zeros.as_slice())
}

fn has_characters(leaves: &[Leaf], offset: u64, room: u64) -> bool
    ensures { result ≡ spec.has_characters leaves.now offset room }
{
    if is_extent(offset) && is_extent(room) {
        reaches_over(leaves, offset, offset + room)
    } else {
        false
    }
}

fn takes_text(bases: &[BaseInfo], base: u32, offset: u64, room: u64) -> bool
    ensures { result ≡ spec.takes_text offset room (slice_get bases.now base) }
{
    match bases.get(base as usize) {
        None => true,
        Some(info) => {
            has_followed(offset, room, info)
                || has_characters(info.shape.cells.as_slice(), offset, room)
        }
    }
}

/// Whether a text that an operation spells lies over characters.
fn spells_characters(bases: &[BaseInfo], operation: &Operation) -> bool
    ensures { result ≡ spec.spells_characters bases.now operation.now }
{
    match operation {
        Operation::Spell(base, offset, room, _) => {
            0 < *room && takes_text(bases, *base, *offset, *room)
        }
        _ => true,
    }
}

fn spell_characters(bases: &[BaseInfo], instructions: &[Instruction]) -> bool
    ensures { result ≡ list_all (λ i. spec.spells_characters bases.now i.operation) instructions.now }
{
    instructions
        .iter()
        .all(|one| spells_characters(bases, &one.operation))
}

fn blocks_spell_characters(bases: &[BaseInfo], blocks: &[BasicBlock]) -> bool
    ensures { result ≡ list_all (λ b. list_all (λ i. spec.spells_characters bases.now i.operation) b.instructions.items) blocks.now }
{
    blocks.iter().all(|block| spell_characters(bases, block.instructions.as_slice()))
}

/// Whether each text that a program spells lies over characters.
pub fn spells_over_characters(flow: &Flow) -> bool
    ensures { result ≡ spec.spells_over_characters flow.now }
{
    blocks_spell_characters(flow.bases.as_slice(), flow.blocks.as_slice())
}
