//! Decimal digits without leading zeros.
ghost use Rattle.std.specs.Prelude.{◌≡◌};
ghost use Rattle.std.specs.Str.{all_ascii_digits};
ghost use Rattle.cli_words.specs.Numerals.{is_plain};

/// Whether each byte is a decimal digit.
fn has_digits_alone(word: &[u8]) -> bool
    ensures { result ≡ all_ascii_digits word.now }
{
    for at in 0..word.len() {
        if !word[at].is_ascii_digit() {
            return false;
        }
    }
    true
}

/// Whether a word is digits, of which the first is not a zero where there are more.
pub(crate) fn is_plain(word: &[u8]) -> bool
    ensures { result ≡ is_plain word.now }
{
    match word {
        [] => false,
        [_] => has_digits_alone(word),
        [first, ..] => *first > 48 && has_digits_alone(word),
    }
}
