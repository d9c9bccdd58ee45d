//! The characters that a call reads.
ghost use Rattle.std.specs.Prelude.{◌≡◌};
ghost use Rattle.transfer_library_writes.specs.Sources.{characters_read, is_blank_in, is_blank_or, reads_blank, read_characters_if, no_characters, number_of, labels_of, characters_of};

use c_layout::{BaseInfo, Class, Model};
use cc_base::IntDomain;
use pointer_domain::Bases;
use store::{Access, Window, has_base, joined, load_base, load_character};
use value_domain::values::{Cell, Labels, Value};

/// What a character load of any of the bytes of a window gets, over the bases of a set; None where
/// there is no byte.
#[tactic(auto, unfolding(crate::specs::Sources::characters_read))]
fn characters_read<I: IntDomain>(
    model: &Model,
    bases: &[BaseInfo],
    row: &[Cell<I>],
    set: Bases,
    window: Window,
    signed: bool,
) -> Option<Value<I>>
    ensures { result ≡ characters_read I.lattice I.numbers model.now bases.now row.now set window signed }
{
    let access = Access {
        class: Class::Char,
        signed,
        window,
    };
    let mut found = None;
    for n in 0..bases.len() {
        found = read_characters_if(model, row, has_base(set, n), access, &bases[n], found);
    }
    found
}

fn read_characters_if<I: IntDomain>(
    model: &Model,
    row: &[Cell<I>],
    wanted: bool,
    access: Access,
    base: &BaseInfo,
    found: Option<Value<I>>,
) -> Option<Value<I>>
    ensures { result ≡ read_characters_if I.lattice I.numbers model.now row.now wanted access base.now found }
{
    if wanted {
        joined(found, load_base(model, base, row, access))
    } else {
        found
    }
}

/// Whether a byte of the window may be indeterminate in the base, whatever is known of its first zero.
fn is_blank_in<I: IntDomain>(
    model: &Model,
    base: &BaseInfo,
    row: &[Cell<I>],
    window: Window,
) -> bool
    ensures { result ≡ is_blank_in I.lattice I.numbers model.now row.now window base.now }
{
    let access = Access {
        class: Class::Char,
        signed: true,
        window,
    };
    match load_character(model, base, row, access) {
        None => false,
        Some(value) => value.indeterminate,
    }
}

/// Whether a byte of the window may be indeterminate in some base of the set, whatever is known of its
/// first zero.
#[tactic(auto, unfolding(crate::specs::Sources::reads_blank))]
pub fn reads_blank<I: IntDomain>(
    model: &Model,
    bases: &[BaseInfo],
    row: &[Cell<I>],
    set: Bases,
    window: Window,
) -> bool
    ensures { result ≡ reads_blank I.lattice I.numbers model.now bases.now row.now set window }
{
    let mut found = false;
    for n in 0..bases.len() {
        found = is_blank_or(found, model, &bases[n], n, row, set, window);
    }
    found
}

/// Whether something was found, or the set has the base with this number and a byte may be
/// indeterminate there.
fn is_blank_or<I: IntDomain>(
    found: bool,
    model: &Model,
    base: &BaseInfo,
    number: usize,
    row: &[Cell<I>],
    set: Bases,
    window: Window,
) -> bool
    ensures { result ≡ is_blank_or I.lattice I.numbers model.now row.now set window base.now number found }
{
    found || (has_base(set, number) && is_blank_in(model, base, row, window))
}

/// The characters of a text as signed and as unsigned characters, and their labels.
#[derive(Clone, Copy)]
pub struct Characters<I> {
    pub signed: I,
    pub unsigned: I,
    pub labels: Labels,
}

/// No character.
pub fn no_characters<I: IntDomain>() -> Characters<I>
    ensures { result ≡ no_characters I.lattice }
{
    Characters {
        signed: I::bottom(),
        unsigned: I::bottom(),
        labels: Labels::none(),
    }
}

fn number_of<I: IntDomain>(value: Option<Value<I>>) -> I
    ensures { result ≡ number_of I.lattice value }
{
    match value {
        None => I::bottom(),
        Some(v) => v.num,
    }
}

fn labels_of<I: IntDomain>(value: Option<Value<I>>) -> Labels
    ensures { result ≡ labels_of value }
{
    match value {
        None => Labels::none(),
        Some(v) => v.labels,
    }
}

/// The characters that the bytes of a window can be.
pub fn characters_of<I: IntDomain>(
    model: &Model,
    bases: &[BaseInfo],
    row: &[Cell<I>],
    set: Bases,
    window: Option<Window>,
) -> Characters<I>
    ensures { result ≡ characters_of I.lattice I.numbers model.now bases.now row.now set window }
{
    match window {
        None => no_characters(),
        Some(w) => {
            let signed = characters_read(model, bases, row, set, w, true);
            let unsigned = characters_read(model, bases, row, set, w, false);
            Characters {
                signed: number_of(signed),
                unsigned: number_of(unsigned),
                labels: labels_of(signed),
            }
        }
    }
}
