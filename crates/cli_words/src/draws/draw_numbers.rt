//! The number that a word of a draws file spells.
ghost use Rattle.std.specs.Prelude.{◌≡◌, true};
ghost use Rattle.cli_words.specs.Draws.DrawNumbers.{magnitude, negative, positive, draw_of};
ghost use Rattle.cli_words.specs.Numerals.{is_plain};

use crate::numerals::is_plain;
use std::str;

/// The number of digits without leading zeros, below 2^64.
fn number_of(digits: &[u8]) -> Option<u64>
    requires { is_plain digits.now ≡ true }
    ensures { result ≡ magnitude digits.now }
{
    match str::from_utf8(digits) {
        Ok(text) => text.parse::<u64>().ok(),
        Err(_) => None,
    }
}

/// The number of digits without leading zeros, below 2^64.
fn magnitude(word: &[u8]) -> Option<u64>
    ensures { result ≡ magnitude word.now }
{
    if is_plain(word) {
        number_of(word)
    } else {
        None
    }
}

/// The number that is behind a minus; it is at least -2^63.
fn negative(number: Option<u64>) -> Option<i128>
    ensures { result ≡ negative number }
{
    match number {
        Some(size) if size <= 9_223_372_036_854_775_808 => Some(0 - i128::from(size)),
        _ => None,
    }
}

fn positive(number: Option<u64>) -> Option<i128>
    ensures { result ≡ positive number }
{
    match number {
        Some(size) => Some(i128::from(size)),
        None => None,
    }
}

/// The number of a word.
pub fn draw_of(word: &[u8]) -> Option<i128>
    ensures { result ≡ draw_of word.now }
{
    match word {
        [] => None,
        [45, digits @ ..] => negative(magnitude(digits)),
        _ => positive(magnitude(word)),
    }
}
