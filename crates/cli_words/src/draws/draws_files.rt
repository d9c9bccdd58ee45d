//! The numbers of a draws file.
ghost use Rattle.std.specs.Prelude.{◌≡◌, ◌++◌, ◌∷◌, [], Some, None, IfOk, IsErrOf, true, false};
ghost use Rattle.cli_words.specs.Draws.DrawsFiles.{is_gap, joined, numbers_in, numbers_of, words_from, draws_in};

use crate::draws::draw_numbers::draw_of;
use std::alloc::{AllocError, Global};

/// Why a file gives no draws.
#[derive(Clone, Copy, PartialEq, Eq, Debug)]
pub enum DrawsFault {
    /// It is of another form.
    Shape,
    /// Memory is short.
    Memory,
}

impl From<AllocError> for DrawsFault {
    ghost use Rattle.std.specs.Prelude.{◌≡◌};
    ghost use Rattle.cli_words.specs.declared.draws.draws_files.DrawsFault.TheVariants as fault;

    ghost from_gives = { λ _ e. e ≡ fault.Memory };

    fn from(_error: AllocError) -> DrawsFault {
        DrawsFault::Memory
    }
}

/// Whether a byte stands between numbers.
fn is_gap(byte: u8) -> bool
    ensures { result ≡ is_gap byte }
{
    byte == 32 || byte == 10 || byte == 9
}

fn add(draws: &mut Vec<i128>, draw: i128) -> Result<(), AllocError>
    ensures { IfOk result (λ _. draws.new.items ≡ draws.old.items ++ (draw ∷ [])) }
{
    draws.push(draw)?;
    Ok(())
}

/// Adds the number of a word, if it is not empty.
fn add_word(draws: &mut Vec<i128>, word: &[u8]) -> Result<(), DrawsFault>
    ensures added { IfOk result (λ _. joined (Some draws.old.items) (numbers_in word.now) ≡ Some draws.new.items) }
    ensures shape { IsErrOf result DrawsFault.Shape → numbers_in word.now ≡ None }
{
    if word.is_empty() {
        return Ok(());
    }
    match draw_of(word) {
        Some(draw) => {
            add(draws, draw)?;
            Ok(())
        }
        None => Err(DrawsFault::Shape),
    }
}

/// The numbers of all words.
fn numbers_of(alloc: Global, bytes: &[u8]) -> Result<Vec<i128>, DrawsFault>
    ensures numbers { IfOk result (λ v. numbers_of (words_from [] bytes.now) ≡ Some v.items) }
    ensures shape { IsErrOf result DrawsFault.Shape → numbers_of (words_from [] bytes.now) ≡ None }
{
    let mut draws = Vec::new(alloc);
    let mut start = 0;
    for at in 0..bytes.len() {
        if is_gap(bytes[at]) {
            add_word(&mut draws, &bytes[start..at])?;
            start = at + 1;
        }
    }
    add_word(&mut draws, &bytes[start..])?;
    Ok(draws)
}

/// The numbers of a draws file: decimal integers with an optional minus and without leading zeros, set apart by
/// blanks, tabs and line feeds, each from -2^63 to 2^64-1, at most 65,536 of them. `Shape` comes exactly where the
/// bytes are of another form.
#[tactic(auto, unfolding(crate::specs::Draws::DrawsFiles::draws_in))]
pub fn read_draws(alloc: Global, bytes: &[u8]) -> Result<Vec<i128>, DrawsFault>
    ensures draws { IfOk result (λ v. draws_in bytes.now ≡ Some v.items) }
    ensures shape { IsErrOf result DrawsFault.Shape → draws_in bytes.now ≡ None }
{
    let draws = numbers_of(alloc, bytes)?;
    if draws.len() <= 65_536 {
        Ok(draws)
    } else {
        Err(DrawsFault::Shape)
    }
}
