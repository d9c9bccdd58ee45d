//! The lines of a certificate behind the first one.
ghost use Rattle.std.specs.Prelude.{◌≡◌, ◌++◌, codes, IfOk};
ghost use Rattle.certificate_text.specs.Lines.MapLines.{placed_text, reached_text, line_text, line_given, line_of};

use crate::lines::cell_readers::cell_given;
use crate::lines::cell_texts::push_cell;
use crate::lines::decimal_words::small;
use crate::lines::line_words::{behind, first_byte, same_bytes, until};
use interval_domain::intervals::Interval;
use std::alloc::{AllocError, Global};
use value_domain::values::Cell;

/// What a line says.
#[derive(Clone, Copy)]
pub enum MapLine {
    /// The next block is not reached.
    Unreached,
    /// The next block is reached, and so many lines of cells follow.
    Reached(u32),
    /// The cell at a position of the row of the block.
    Placed(u32, Cell<Interval>),
}

#[tactic(auto, unfolding(crate::specs::Lines::MapLines::placed_text))]
fn placed_text(alloc: Global, at: u32, cell: &Cell<Interval>) -> Result<Vec<u8>, AllocError>
    ensures { IfOk result (λ b. b.items ≡ placed_text at cell.now) }
{
    let position = format!(in alloc; "{at}")?;
    let mut text = Vec::from_slice(alloc, position.as_bytes())?;
    push_cell(alloc, &mut text, cell)?;
    Ok(text)
}

#[tactic(auto, unfolding(crate::specs::Lines::MapLines::reached_text))]
fn reached_text(alloc: Global, count: u32) -> Result<Vec<u8>, AllocError>
    ensures { IfOk result (λ b. b.items ≡ reached_text count) }
{
    let text = format!(in alloc; "r {count}")?;
    Vec::from_slice(alloc, text.as_bytes())
}

/// The text of a line, without its end.
pub fn line_text(alloc: Global, line: &MapLine) -> Result<Vec<u8>, AllocError>
    ensures { IfOk result (λ b. b.items ≡ line_text line.now) }
{
    match line {
        MapLine::Unreached => Vec::from_slice(alloc, "u".as_bytes()),
        MapLine::Reached(count) => reached_text(alloc, *count),
        MapLine::Placed(at, cell) => placed_text(alloc, *at, cell),
    }
}

/// The line that words give, right where the text is that of some line.
#[tactic(auto, unfolding(crate::specs::Lines::MapLines::line_given))]
fn line_given(text: &[u8]) -> MapLine
    ensures { result ≡ line_given text.now }
{
    match first_byte(text) {
        117 => MapLine::Unreached,
        114 => MapLine::Reached(small(behind(text, 32))),
        _ => MapLine::Placed(small(until(text, 32)), cell_given(behind(text, 32))),
    }
}

/// The line of a text, without its end; None where it is the text of no line.
pub fn read_line(alloc: Global, text: &[u8]) -> Result<Option<MapLine>, AllocError>
    ensures { IfOk result (λ line. line ≡ line_of text.now) }
{
    let given = line_given(text);
    let written = line_text(alloc, &given)?;
    if same_bytes(written.as_slice(), text) {
        Ok(Some(given))
    } else {
        Ok(None)
    }
}
