//! The cell that words give. Words that are those of no cell give some cell all the same: who reads a
//! line compares it with the text of what it gave.
ghost use Rattle.std.specs.Prelude.{◌≡◌};
ghost use Rattle.certificate_text.specs.Lines.CellReaders.{is_set, labels_given, pointer_given, value_given, first_given, state_given, cell_given};

use crate::lines::base_digits::bases_of;
use crate::lines::decimal_words::{range_of, small};
use crate::lines::line_words::{behind, first_byte, until};
use interval_domain::intervals::Interval;
use pointer_domain::Pointers;
use value_domain::strings::FirstZero;
use value_domain::values::{AllocState, Cell, Labels, Value};

/// Whether a text begins with 1.
fn is_set(text: &[u8]) -> bool
    ensures { result ≡ is_set text.now }
{
    first_byte(text) == 49
}

/// The labels of a sum.
#[tactic(auto, unfolding(crate::specs::Lines::CellReaders::labels_given))]
fn labels_given(word: &[u8]) -> Labels
    ensures { result ≡ labels_given word.now }
{
    let sum = small(word);
    Labels {
        lo: sum % 2 == 1,
        hi: sum / 2 % 2 == 1,
        mutated: sum / 4 % 2 == 1,
    }
}

#[tactic(auto, unfolding(crate::specs::Lines::CellReaders::pointer_given))]
fn pointer_given(text: &[u8]) -> Pointers<Interval>
    ensures { result ≡ pointer_given text.now }
{
    let lo = behind(text, 32);
    let rel = behind(lo, 32);
    let len = behind(rel, 32);
    let part = behind(len, 32);
    let null = behind(part, 32);
    let ended = behind(null, 32);
    Pointers {
        bases: bases_of(until(text, 32)),
        lo: range_of(until(lo, 32)),
        rel: range_of(until(rel, 32)),
        len: range_of(until(len, 32)),
        part: is_set(part),
        null: is_set(null),
        ended: is_set(ended),
    }
}

#[tactic(auto, unfolding(crate::specs::Lines::CellReaders::value_given))]
fn value_given(text: &[u8]) -> Value<Interval>
    ensures { result ≡ value_given text.now }
{
    let indeterminate = behind(text, 32);
    let labels = behind(indeterminate, 32);
    Value {
        num: range_of(until(text, 32)),
        pointer: pointer_given(behind(labels, 32)),
        indeterminate: is_set(indeterminate),
        labels: labels_given(until(labels, 32)),
    }
}

#[tactic(auto, unfolding(crate::specs::Lines::CellReaders::first_given))]
fn first_given(text: &[u8]) -> FirstZero<Interval>
    ensures { result ≡ first_given text.now }
{
    FirstZero { at: range_of(text) }
}

#[tactic(auto, unfolding(crate::specs::Lines::CellReaders::state_given))]
fn state_given(text: &[u8]) -> AllocState<Interval>
    ensures { result ≡ state_given text.now }
{
    let live = behind(text, 32);
    AllocState {
        size: range_of(until(text, 32)),
        live: is_set(live),
        freed: is_set(behind(live, 32)),
    }
}

/// The cell that the words of a text give.
#[tactic(auto, unfolding(crate::specs::Lines::CellReaders::cell_given))]
pub(crate) fn cell_given(text: &[u8]) -> Cell<Interval>
    ensures { result ≡ cell_given text.now }
{
    let words = behind(text, 32);
    match first_byte(text) {
        118 => Cell::Value(value_given(words)),
        122 => Cell::First(first_given(words)),
        104 => Cell::State(state_given(words)),
        _ => Cell::Nothing,
    }
}
