//! The lines of a text, named by the places where they begin.
ghost use Rattle.std.specs.Prelude.{◌≡◌, ◌+◌, ◌==◌, IfOk, count_by, drop, take, length};
ghost use Rattle.certificate_check.specs.Reading.TextPlaces.{line_at, next_place, line_number};

use certificate_text::lines::{MapLine, behind, read_line, until};
use std::alloc::{AllocError, Global};

/// The bytes from a place on.
fn bytes_from(text: &[u8], at: usize) -> &[u8]
    ensures { result.now ≡ drop at text.now }
{
    if at < text.len() {
        &text[at..]
    } else {
        &text[text.len()..]
    }
}

/// The line that begins at a place; None where it has no end or is the text of no line.
#[tactic(auto, unfolding(crate::specs::Reading::TextPlaces::line_at))]
pub fn line_at(alloc: Global, text: &[u8], at: usize) -> Result<Option<MapLine>, AllocError>
    ensures { IfOk result (λ line. line ≡ line_at text.now at) }
{
    let rest = bytes_from(text, at);
    let line = until(rest, 10);
    if line.len() < rest.len() {
        read_line(alloc, line)
    } else {
        Ok(None)
    }
}

/// The place behind the end of the line that begins at a place.
#[tactic(auto, unfolding(crate::specs::Reading::TextPlaces::next_place))]
pub fn next_place(text: &[u8], at: usize) -> usize
    ensures { result ≡ next_place text.now at }
{
    let rest = behind(bytes_from(text, at), 10);
    text.len().saturating_sub(rest.len())
}

/// How many bytes end a line.
fn count_ends(text: &[u8]) -> usize
    ensures { result ≡ count_by (λ b. b == 10) text.now }
{
    text.iter().filter(|byte| **byte == 10).count()
}

/// The number of the line that begins at a place, counted from 1.
#[tactic(auto, unfolding(crate::specs::Reading::TextPlaces::line_number))]
pub fn line_number(text: &[u8], at: usize) -> u64
    ensures { result ≡ line_number text.now at }
{
    let within = at.min(text.len());
    count_ends(&text[..within]) as u64 + 1
}
