//! Writing a text and its closing zero.
ghost use Rattle.std.specs.Prelude.{◌≡◌, ◌+◌, ◌<◌, length};
ghost use Rattle.transfer_library_writes.specs.TextWrites.{character_value, leaf_value, write_leaf, write_leaves, write_stray, write_class, write_class_cells, zero_after, up_to_end, zero_met, write_zero, write_zeros, write_heap_part, write_base, write_base_if, write_text, is_whole, lies_in_array, text_lies_in_array, rule_in, write_into};
ghost use Rattle.cc_base.specs.IntegerDomains.{IsNear};

use crate::source_bytes::Characters;
use c_layout::{BaseInfo, Class, Leaf, Model, ZeroPart};
use cc_base::{IntDomain, Lattice, of_range};
use cfg::Flow;
use pointer_domain::Bases;
use store::{
    Window, ZeroTarget, added_ranges, any_zero, byte_written, class_at, class_position, has_base,
    has_stray, is_one_instance, is_other, is_overlapped, join_value, leaf_position, near_number,
    offsets_of, put_zero, zero_at, zero_position, zero_target,
};
use value_domain::strings::{END, FirstZero};
use value_domain::values::{Cell, Labels, Value};

/// What a write makes of the first zero of its array.
#[derive(Clone, Copy)]
pub enum ZeroRule<I> {
    /// A text of this length is written from the start of the write on.
    Text(I),
    /// A text of this length is written behind the one that is there, whose end is unknown in these
    /// bases.
    Append(I, Bases),
    /// Nothing is known any more.
    Any,
}

/// A write of characters to the bases of a set, which are no literals: the offsets at which it begins,
/// the bytes that it may touch, whether it is of one byte at most, the characters, and what becomes of
/// the first zero.
#[derive(Clone, Copy)]
pub struct TextWrite<I> {
    pub bases: Bases,
    pub start: Window,
    pub window: Window,
    pub one_byte: bool,
    pub characters: Characters<I>,
    pub zero: ZeroRule<I>,
}

/// What a character cell may be: 0, or a character of the text; determinate.
fn character_value<I: IntDomain>(characters: Characters<I>, signed: bool) -> Value<I>
    ensures { result ≡ character_value I.lattice I.numbers characters signed }
{
    let num = if signed {
        characters.signed
    } else {
        characters.unsigned
    };
    Value::of_number(num.join(I::one(0)), characters.labels)
}

/// What a leaf that is touched is joined with.
fn leaf_value<I: IntDomain>(model: &Model, leaf: Leaf, characters: Characters<I>) -> Value<I>
    ensures { result ≡ leaf_value I.lattice I.numbers model.now leaf characters }
{
    match leaf.class {
        Class::Char => character_value(characters, leaf.signed),
        _ => byte_written(model, leaf.class, leaf.signed, characters.labels),
    }
}

#[tactic(auto, unfolding(crate::specs::TextWrites::write_leaves))]
fn write_leaves<I: IntDomain>(
    model: &Model,
    base: &BaseInfo,
    row: &mut [Cell<I>],
    write: TextWrite<I>,
)
    ensures length { length row.new ≡ length row.old }
    ensures row { row.new ≡ write_leaves I.lattice I.numbers model.now base.now write row.old }
{
    let leaves = base.shape.cells.as_slice();
    for at in 0..leaves.len() {
        write_leaf(model, row, leaf_position(base, at), leaves[at], &write);
    }
}

#[tactic(auto, unfolding(crate::specs::TextWrites::write_leaf))]
fn write_leaf<I: IntDomain>(
    model: &Model,
    row: &mut [Cell<I>],
    position: usize,
    leaf: Leaf,
    write: &TextWrite<I>,
)
    ensures length { length row.new ≡ length row.old }
    ensures row { row.new ≡ write_leaf I.lattice I.numbers model.now write.now leaf position row.old }
{
    if is_overlapped(model, leaf, write.window) {
        join_value(row, position, leaf_value(model, leaf, write.characters));
    }
}

/// Joins the class cell of characters with the text, where a byte is no character leaf.
fn write_stray<I: IntDomain>(base: &BaseInfo, row: &mut [Cell<I>], write: &TextWrite<I>)
    ensures length { length row.new ≡ length row.old }
    ensures row { row.new ≡ write_stray I.lattice I.numbers base.now write.now row.old }
{
    if has_stray(base.shape.cells.as_slice(), Class::Char, write.window) {
        let value = character_value(write.characters, true);
        join_value(row, class_position(base, 0), value);
    }
}

/// Joins a class cell behind that of characters with bytes of the text.
fn write_class<I: IntDomain>(
    model: &Model,
    base: &BaseInfo,
    row: &mut [Cell<I>],
    write: &TextWrite<I>,
    number: usize,
)
    requires { number < 5 }
    ensures length { length row.new ≡ length row.old }
    ensures row { row.new ≡ write_class I.lattice I.numbers model.now base.now write.now number row.old }
{
    let class = number + 1;
    let value = byte_written(model, class_at(class), true, write.characters.labels);
    join_value(row, class_position(base, class), value);
}

#[tactic(auto, using(store_cells::specs::TurnLaws::turns_next), unfolding(crate::specs::TextWrites::write_class_cells))]
fn write_class_cells<I: IntDomain>(
    model: &Model,
    base: &BaseInfo,
    row: &mut [Cell<I>],
    write: TextWrite<I>,
)
    ensures length { length row.new ≡ length row.old }
    ensures row { row.new ≡ write_class_cells I.lattice I.numbers model.now base.now write row.old }
{
    write_stray(base, row, &write);
    for number in 0..5 {
        write_class(model, base, row, &write, number);
    }
}

/// The first zero of an array after a write that lies in it.
fn zero_after<I: IntDomain>(old: FirstZero<I>, local: Window, rule: ZeroRule<I>) -> FirstZero<I>
    requires { IsNear (I.numbers.bounds old.at) }
    ensures { result ≡ zero_after I.lattice I.numbers old local rule }
{
    match rule {
        ZeroRule::Text(len) => old.text(offsets_of(local), near_number(len)),
        ZeroRule::Append(len, _) => FirstZero {
            at: up_to_end(old.at, near_number(len)),
        },
        ZeroRule::Any => any_zero(),
    }
}

/// The sums, none above `END`.
fn up_to_end<I: IntDomain>(x: I, y: I) -> I
    requires x { IsNear (I.numbers.bounds x) }
    requires y { IsNear (I.numbers.bounds y) }
    ensures { result ≡ up_to_end I.lattice I.numbers x y }
{
    match added_ranges(x.bounds(), y.bounds()) {
        None => I::bottom(),
        Some(p) => of_range(Some((p.0.min(END), p.1.min(END)))),
    }
}

/// Whether each write that may meet an array lies in it: all of them do, or each is of one byte.
pub fn lies_in_array(one_byte: bool, inside: bool, start: ZeroTarget) -> bool
    ensures { result ≡ lies_in_array one_byte inside start }
{
    one_byte || (inside && start.whole)
}

/// Whether each write of a text that may meet an array lies in it: of one that may begin behind the
/// array each byte lies there, or none is written; a text that is appended begins there too.
fn text_lies_in_array<I: IntDomain>(
    rule: ZeroRule<I>,
    one_byte: bool,
    inside: bool,
    start: ZeroTarget,
) -> bool
    ensures { result ≡ text_lies_in_array rule one_byte inside start }
{
    match rule {
        ZeroRule::Text(_) => one_byte || inside,
        _ => lies_in_array(one_byte, inside, start),
    }
}

/// The first zero of an array that the write meets: the old one too where the write may begin elsewhere.
fn zero_met<I: IntDomain>(
    part: ZeroPart,
    old: FirstZero<I>,
    write: TextWrite<I>,
    alone: bool,
) -> FirstZero<I>
    requires { IsNear (I.numbers.bounds old.at) }
    ensures { result ≡ zero_met I.lattice I.numbers part old write alone }
{
    let inside = match zero_target(part, write.window) {
        None => false,
        Some(target) => target.whole,
    };
    match zero_target(part, write.start) {
        Some(start) if text_lies_in_array(write.zero, write.one_byte, inside, start) => {
            let new = zero_after(old, start.local, write.zero);
            if alone && start.whole {
                new
            } else {
                old.join(new)
            }
        }
        _ => any_zero(),
    }
}

/// The first zero of an array that the write may meet.
#[tactic(auto, unfolding(crate::specs::TextWrites::write_zero))]
fn write_zero<I: IntDomain>(
    base: &BaseInfo,
    row: &mut [Cell<I>],
    write: &TextWrite<I>,
    alone: bool,
    part: ZeroPart,
    number: usize,
)
    ensures length { length row.new ≡ length row.old }
    ensures row { row.new ≡ write_zero I.lattice I.numbers base.now write.now alone part number row.old }
{
    if zero_target(part, write.window).is_some() {
        let position = zero_position(base, number);
        let old = zero_at(row, position);
        put_zero(row, position, zero_met(part, old, *write, alone));
    }
}

#[tactic(auto, unfolding(crate::specs::TextWrites::write_zeros))]
fn write_zeros<I: IntDomain>(base: &BaseInfo, row: &mut [Cell<I>], write: TextWrite<I>, alone: bool)
    ensures length { length row.new ≡ length row.old }
    ensures row { row.new ≡ write_zeros I.lattice I.numbers base.now write alone row.old }
{
    let parts = base.shape.zeros.as_slice();
    for at in 0..parts.len() {
        write_zero(base, row, &write, alone, parts[at], at);
    }
}

#[tactic(auto, unfolding(crate::specs::TextWrites::write_base))]
fn write_base<I: IntDomain>(
    model: &Model,
    base: &BaseInfo,
    row: &mut [Cell<I>],
    write: TextWrite<I>,
    alone: bool,
)
    ensures length { length row.new ≡ length row.old }
    ensures row { row.new ≡ write_base I.lattice I.numbers model.now base.now write alone row.old }
{
    write_leaves(model, base, row, write);
    if base.shape.heap {
        write_class_cells(model, base, row, write);
    }
    write_zeros(base, row, write, alone);
}

#[tactic(auto, unfolding(crate::specs::TextWrites::write_base_if))]
fn write_base_if<I: IntDomain>(
    model: &Model,
    base: &BaseInfo,
    row: &mut [Cell<I>],
    write: &TextWrite<I>,
    alone: bool,
    wanted: bool,
)
    ensures length { length row.new ≡ length row.old }
    ensures row { row.new ≡ write_base_if I.lattice I.numbers model.now write.now alone wanted base.now row.old }
{
    if wanted {
        write_base(model, base, row, *write, alone);
    }
}

/// What becomes of a first zero in the base with this number: nothing is known behind a text that is
/// not known to end there.
fn rule_in<I: IntDomain>(rule: ZeroRule<I>, number: usize) -> ZeroRule<I>
    ensures { result ≡ rule_in rule number }
{
    match rule {
        ZeroRule::Append(_, unknown) if has_base(unknown, number) => ZeroRule::Any,
        _ => rule,
    }
}

fn write_into<I: IntDomain>(write: TextWrite<I>, number: usize) -> TextWrite<I>
    ensures { result ≡ write_into write number }
{
    TextWrite {
        zero: rule_in(write.zero, number),
        ..write
    }
}

/// Writes the text to each base of the set.
#[tactic(auto, unfolding(crate::specs::TextWrites::write_text))]
pub fn write_text<I: IntDomain>(flow: &Flow, row: &mut [Cell<I>], write: TextWrite<I>)
    ensures length { length row.new ≡ length row.old }
    ensures row { row.new ≡ write_text I.lattice I.numbers flow.now write row.old }
{
    let bases = flow.bases.as_slice();
    let alone = is_one_instance(bases, write.bases);
    for n in 0..bases.len() {
        let wanted = has_base(write.bases, n);
        let there = write_into(write, n);
        write_base_if(&flow.model, &bases[n], row, &there, alone, wanted);
    }
}
