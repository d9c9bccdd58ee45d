//! Writing the characters of a literal into an array.
ghost use Rattle.std.specs.Prelude.{◌≡◌, length};
ghost use Rattle.store.specs.Spelling.{written_count, character, character_number, written_window, begins_at, text_length, number_of, hull_more, hull, is_one_place, one_character, characters, spell_cell, is_spelled, spell_leaf_at, spell_leaves, first_zero_of, spell_part_at, spell_zero, spell_object, spell};

use crate::leaf_selection::{has_place_in, is_selected};
use c_layout::{BaseInfo, Class, Leaf, ZeroPart};
use cc_base::{IntDomain, Lattice};
use store_cells::{Window, join_value, leaf_position, no_zero, put_value, put_zero, zero_position};
use value_domain::strings::FirstZero;
use value_domain::values::{Cell, Labels, Value};

/// Writes `text` and its closing zero into the array of `room` characters at `offset` of a base, as
/// far as they fit. The array was cleared before.
#[tactic(auto, unfolding(crate::specs::Spelling::spell))]
pub fn spell<I: IntDomain>(
    bases: &[BaseInfo],
    row: &mut [Cell<I>],
    base: u32,
    offset: u64,
    room: u64,
    text: &[u8],
)
    ensures length { length row.new ≡ length row.old }
    ensures row { row.new ≡ spell I.lattice I.numbers bases.now base offset room text.now row.old }
{
    if let Some(info) = bases.get(base as usize) {
        spell_object(info, row, offset, room, text);
    }
}

#[tactic(auto, unfolding(crate::specs::Spelling::spell_object))]
fn spell_object<I: IntDomain>(
    base: &BaseInfo,
    row: &mut [Cell<I>],
    offset: u64,
    room: u64,
    text: &[u8],
)
    ensures length { length row.new ≡ length row.old }
    ensures row { row.new ≡ spell_object I.lattice I.numbers offset room text.now base.now row.old }
{
    spell_leaves(base, row, offset, written_count(room, text), text);
    spell_zero(base, row, offset, room, text);
}

/// How many characters are written: those of the text and the closing zero, as far as they fit.
fn written_count(room: u64, text: &[u8]) -> u64
    ensures { result ≡ written_count room text.now }
{
    room.min(text.len() as u64 + 1)
}

/// The character at a place of the text and its closing zero.
fn character(text: &[u8], at: u64) -> u8
    ensures { result ≡ character text.now at }
{
    if at < text.len() as u64 {
        text[at as usize]
    } else {
        0
    }
}

/// The number of a byte in a signed or unsigned character type.
fn character_number(byte: u8, signed: bool) -> i128
    ensures { result ≡ character_number byte signed }
{
    if signed && byte >= 128 {
        byte as i128 - 256
    } else {
        byte as i128
    }
}

/// The byte in a signed or unsigned character type.
fn number_of<I: IntDomain>(byte: u8, signed: bool) -> I
    ensures { result ≡ number_of I.numbers byte signed }
{
    I::one(character_number(byte, signed))
}

/// The offsets of so many characters from an offset on.
fn written_window(offset: u64, count: u64) -> Window
    ensures { result ≡ written_window offset count }
{
    Window {
        lo: offset,
        hi: offset.saturating_add(count.saturating_sub(1)),
    }
}

#[tactic(auto, unfolding(crate::specs::Spelling::spell_leaves))]
fn spell_leaves<I: IntDomain>(
    base: &BaseInfo,
    row: &mut [Cell<I>],
    offset: u64,
    count: u64,
    text: &[u8],
)
    ensures length { length row.new ≡ length row.old }
    ensures row { row.new ≡ spell_leaves I.lattice I.numbers base.now offset count text.now row.old }
{
    let leaves = base.shape.cells.as_slice();
    for at in 0..leaves.len() {
        spell_leaf(
            row,
            leaf_position(base, at),
            leaves[at],
            offset,
            count,
            text,
        );
    }
}

/// Writes the characters to a leaf, if some are written and it is reached.
#[tactic(auto, unfolding(crate::specs::Spelling::spell_leaf_at))]
fn spell_leaf<I: IntDomain>(
    row: &mut [Cell<I>],
    position: usize,
    leaf: Leaf,
    offset: u64,
    count: u64,
    text: &[u8],
)
    ensures length { length row.new ≡ length row.old }
    ensures row { row.new ≡ spell_leaf_at I.lattice I.numbers offset count text.now leaf position row.old }
{
    if is_spelled(leaf, offset, count) {
        spell_cell(row, position, leaf, offset, count, text);
    }
}

/// Whether some characters are written, and the leaf is reached.
fn is_spelled(leaf: Leaf, offset: u64, count: u64) -> bool
    ensures { result ≡ is_spelled leaf offset count }
{
    count != 0 && is_selected(leaf, Class::Char, written_window(offset, count))
}

/// Writes the characters to a leaf: its one character, or those at its places where it stands for more
/// than one.
#[tactic(auto, unfolding(crate::specs::Spelling::spell_cell))]
fn spell_cell<I: IntDomain>(
    row: &mut [Cell<I>],
    position: usize,
    leaf: Leaf,
    offset: u64,
    count: u64,
    text: &[u8],
)
    ensures length { length row.new ≡ length row.old }
    ensures row { row.new ≡ spell_cell I.lattice I.numbers row.old position leaf offset count text.now }
{
    if is_one_place(leaf) {
        put_value(row, position, one_character(leaf, offset, text));
    } else {
        join_value(row, position, characters(leaf, offset, count, text));
    }
}

/// Whether the leaf stands for one place.
fn is_one_place(leaf: Leaf) -> bool
    ensures { result ≡ is_one_place leaf }
{
    leaf.count == 1
}

/// The character that is written to a leaf of one place.
#[tactic(auto, unfolding(crate::specs::Spelling::one_character))]
fn one_character<I: IntDomain>(leaf: Leaf, offset: u64, text: &[u8]) -> Value<I>
    ensures { result ≡ one_character I.lattice I.numbers leaf offset text.now }
{
    let byte = character(text, leaf.offset.saturating_sub(offset));
    Value::of_number(number_of(byte, leaf.signed), Labels::none())
}

/// The characters that are written to the places of a leaf.
#[tactic(auto, unfolding(crate::specs::Spelling::characters))]
fn characters<I: IntDomain>(leaf: Leaf, offset: u64, count: u64, text: &[u8]) -> Value<I>
    ensures { result ≡ characters I.lattice I.numbers leaf offset count text.now }
{
    Value::of_number(hull(leaf, offset, count, text), Labels::none())
}

/// Whether a place of the leaf begins at an offset.
fn begins_at(leaf: Leaf, offset: u64) -> bool
    ensures { result ≡ begins_at leaf offset }
{
    has_place_in(
        leaf,
        Window {
            lo: offset,
            hi: offset,
        },
    )
}

/// The least value that has each character written to a place of the leaf.
#[tactic(auto, using(store_cells::specs::TurnLaws::turns_next), unfolding(crate::specs::Spelling::hull))]
fn hull<I: IntDomain>(leaf: Leaf, offset: u64, count: u64, text: &[u8]) -> I
    ensures { result ≡ hull I.lattice I.numbers leaf offset count text.now }
{
    let mut found = I::bottom();
    for at in 0..count {
        found = hull_more(leaf, offset, text, at, found);
    }
    found
}

/// What was found, joined with the character at a place of the text, if it goes to a place of the leaf.
fn hull_more<I: IntDomain>(leaf: Leaf, offset: u64, text: &[u8], at: u64, found: I) -> I
    ensures { result ≡ hull_more I.lattice I.numbers leaf offset text.now at found }
{
    if begins_at(leaf, offset.saturating_add(at)) {
        found.join(number_of(character(text, at), leaf.signed))
    } else {
        found
    }
}

/// The first zero of the array that begins at the offset: that of what was written, or the byte
/// behind it, which was cleared; none where the text fills the array.
#[tactic(auto, unfolding(crate::specs::Spelling::spell_zero))]
fn spell_zero<I: IntDomain>(
    base: &BaseInfo,
    row: &mut [Cell<I>],
    offset: u64,
    room: u64,
    text: &[u8],
)
    ensures length { length row.new ≡ length row.old }
    ensures row { row.new ≡ spell_zero base.now offset (first_zero_of I.numbers room text.now) row.old }
{
    let zero = first_zero_of(room, text);
    let parts = base.shape.zeros.as_slice();
    for at in 0..parts.len() {
        spell_part(row, zero_position(base, at), parts[at], offset, zero);
    }
}

/// Keeps the first zero of a part, if it begins at the offset.
fn spell_part<I: IntDomain>(
    row: &mut [Cell<I>],
    position: usize,
    part: ZeroPart,
    offset: u64,
    zero: FirstZero<I>,
)
    ensures length { length row.new ≡ length row.old }
    ensures row { row.new ≡ spell_part_at offset zero part position row.old }
{
    if part.offset == offset {
        put_zero(row, position, zero);
    }
}

fn first_zero_of<I: IntDomain>(room: u64, text: &[u8]) -> FirstZero<I>
    ensures { result ≡ first_zero_of I.numbers room text.now }
{
    let at = text_length(text);
    if at < room {
        FirstZero {
            at: I::one(at as i128),
        }
    } else {
        no_zero()
    }
}

/// How many characters stand before the first zero.
fn text_length(text: &[u8]) -> u64
    ensures { result ≡ text_length text.now }
{
    for at in 0..text.len() {
        if text[at] == 0 {
            return at as u64;
        }
    }
    text.len() as u64
}
