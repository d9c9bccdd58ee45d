//! The text of a cell.
ghost use Rattle.std.specs.Prelude.{◌≡◌, ◌++◌, ◌∷◌, [], codes, IfOk, string_bytes};
ghost use Rattle.std.specs.Fmt.{decimal};
ghost use Rattle.certificate_text.specs.Lines.CellTexts.{bit_text, labels_sum, range_text, with_word, with_words, with_value, with_pointer, with_first, with_state, with_cell};

use crate::lines::base_digits::bases_text;
use cc_base::IntDomain;
use interval_domain::intervals::Interval;
use pointer_domain::Pointers;
use std::alloc::{AllocError, Global};
use value_domain::strings::FirstZero;
use value_domain::values::{AllocState, Cell, Labels, Value};

/// 1 for yes.
#[tactic(auto, unfolding(crate::specs::Lines::CellTexts::bit_text))]
fn bit_text(bit: bool) -> &'static str
    ensures { result.now ≡ bit_text bit }
{
    if bit { "1" } else { "0" }
}

/// The sum of the labels: 1 for too low, 2 for too high, 4 for changed.
#[tactic(auto, unfolding(crate::specs::Lines::CellTexts::labels_sum))]
fn labels_sum(labels: Labels) -> u8
    ensures { result ≡ labels_sum labels }
{
    let low = if labels.lo { 1 } else { 0 };
    let high = if labels.hi { 2 } else { 0 };
    let mutated = if labels.mutated { 4 } else { 0 };
    low + (high + mutated)
}

/// The least and the greatest number, or `-` for none.
fn range_text(alloc: Global, numbers: Interval) -> Result<String, AllocError>
    ensures { IfOk result (λ s. string_bytes s ≡ range_text numbers) }
{
    match numbers {
        Interval::Bottom => format!(in alloc; "-"),
        Interval::Of(span) => {
            let (lo, hi) = (span.lo, span.hi);
            format!(in alloc; "{lo}:{hi}")
        }
    }
}

/// Adds a blank and a word.
fn push_word(out: &mut Vec<u8>, word: &[u8]) -> Result<(), AllocError>
    ensures { IfOk result (λ _. out.new.items ≡ with_word out.old.items word.now) }
{
    out.push(32)?;
    out.extend_from_slice(word)
}

fn push_bit(out: &mut Vec<u8>, bit: bool) -> Result<(), AllocError>
    ensures { IfOk result (λ _. out.new.items ≡ with_word out.old.items (bit_text bit)) }
{
    push_word(out, bit_text(bit).as_bytes())
}

fn push_range(alloc: Global, out: &mut Vec<u8>, numbers: Interval) -> Result<(), AllocError>
    ensures { IfOk result (λ _. out.new.items ≡ with_word out.old.items (range_text numbers)) }
{
    let text = range_text(alloc, numbers)?;
    push_word(out, text.as_bytes())
}

fn push_labels(alloc: Global, out: &mut Vec<u8>, labels: Labels) -> Result<(), AllocError>
    ensures { IfOk result (λ _. out.new.items ≡ with_word out.old.items (decimal (labels_sum labels))) }
{
    let sum = labels_sum(labels);
    let text = format!(in alloc; "{sum}")?;
    push_word(out, text.as_bytes())
}

#[tactic(auto, unfolding(crate::specs::Lines::CellTexts::with_pointer))]
fn push_pointer(
    alloc: Global,
    out: &mut Vec<u8>,
    pointer: Pointers<Interval>,
) -> Result<(), AllocError>
    ensures { IfOk result (λ _. out.new.items ≡ with_pointer out.old.items pointer) }
{
    let bases = bases_text(alloc, pointer.bases)?;
    push_word(out, bases.as_slice())?;
    push_range(alloc, out, pointer.lo)?;
    push_range(alloc, out, pointer.rel)?;
    push_range(alloc, out, pointer.len)?;
    push_bit(out, pointer.part)?;
    push_bit(out, pointer.null)?;
    push_bit(out, pointer.ended)
}

#[tactic(auto, unfolding(crate::specs::Lines::CellTexts::with_value))]
fn push_value(alloc: Global, out: &mut Vec<u8>, value: &Value<Interval>) -> Result<(), AllocError>
    ensures { IfOk result (λ _. out.new.items ≡ with_value out.old.items value.now) }
{
    push_word(out, "v".as_bytes())?;
    push_range(alloc, out, value.num)?;
    push_bit(out, value.indeterminate)?;
    push_labels(alloc, out, value.labels)?;
    push_pointer(alloc, out, value.pointer)
}

#[tactic(auto, unfolding(crate::specs::Lines::CellTexts::with_first))]
fn push_first(
    alloc: Global,
    out: &mut Vec<u8>,
    zero: &FirstZero<Interval>,
) -> Result<(), AllocError>
    ensures { IfOk result (λ _. out.new.items ≡ with_first out.old.items zero.now) }
{
    push_word(out, "z".as_bytes())?;
    push_range(alloc, out, zero.at)
}

#[tactic(auto, unfolding(crate::specs::Lines::CellTexts::with_state))]
fn push_state(
    alloc: Global,
    out: &mut Vec<u8>,
    state: &AllocState<Interval>,
) -> Result<(), AllocError>
    ensures { IfOk result (λ _. out.new.items ≡ with_state out.old.items state.now) }
{
    push_word(out, "h".as_bytes())?;
    push_range(alloc, out, state.size)?;
    push_bit(out, state.live)?;
    push_bit(out, state.freed)
}

/// Adds the words of a cell; none for a cell of no kind.
pub(crate) fn push_cell(
    alloc: Global,
    out: &mut Vec<u8>,
    cell: &Cell<Interval>,
) -> Result<(), AllocError>
    ensures { IfOk result (λ _. out.new.items ≡ with_cell out.old.items cell.now) }
{
    match cell {
        Cell::Value(value) => push_value(alloc, out, value),
        Cell::First(zero) => push_first(alloc, out, zero),
        Cell::State(state) => push_state(alloc, out, state),
        Cell::Nothing => Ok(()),
        Cell::Mixed => Ok(()),
    }
}
