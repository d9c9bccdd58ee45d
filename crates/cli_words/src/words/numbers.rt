//! The numbers of options.
ghost use Rattle.std.specs.Prelude.{◌≡◌};
ghost use Rattle.cli_words.specs.Numerals.{plain_number};
ghost use Rattle.cli_words.specs.Words.Requests.{number_within};

use crate::numerals::is_plain;

/// The number that decimal digits without a sign and without leading zeros spell.
fn number(text: &str) -> Option<u32>
    ensures { result ≡ plain_number 32 text.now }
{
    if is_plain(text.as_bytes()) {
        text.parse::<u32>().ok()
    } else {
        None
    }
}

/// A number from `least` to `most`.
pub fn number_within(text: &str, least: u32, most: u32) -> Option<u32>
    ensures { result ≡ number_within text.now least most }
{
    match number(text) {
        Some(found) if least <= found && found <= most => Some(found),
        _ => None,
    }
}
