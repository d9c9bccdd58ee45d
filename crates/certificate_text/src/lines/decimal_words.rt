//! Decimal numbers that words give. A word that is no number gives some number all the same: who
//! reads a line compares it with the text of what it gave.
ghost use Rattle.std.specs.Prelude.{◌≡◌, ◌≤ℤ◌, ◌^◌, pos};
ghost use Rattle.certificate_text.specs.Lines.DecimalWords.{grown, magnitude, small, capped, number_of, range_of};

use crate::lines::line_words::{behind, first_byte, until};
use cc_base::between_or_bottom;
use interval_domain::intervals::Interval;

/// Above every number of a certificate.
const CAP: u128 = 0x10_0000_0000_0000_0000;

/// A number with one digit more.
#[tactic(auto, unfolding(crate::specs::Lines::DecimalWords::grown, crate::specs::Lines::DecimalWords::cap))]
fn grown(number: u128, digit: u8) -> u128
    ensures { result ≡ grown number digit }
{
    number.min(CAP) * 10 + u128::from(digit.saturating_sub(48))
}

/// The number that digits give.
fn magnitude(word: &[u8]) -> u128
    ensures { result ≡ magnitude 0 word.now }
{
    let mut number = 0;
    for at in 0..word.len() {
        number = grown(number, word[at]);
    }
    number
}

/// The number of a position, or a count of cells.
#[tactic(auto, unfolding(crate::specs::Lines::DecimalWords::small))]
pub(crate) fn small(word: &[u8]) -> u32
    ensures { result ≡ small word.now }
{
    magnitude(word).min(4_294_967_295) as u32
}

#[tactic(auto, unfolding(crate::specs::Lines::DecimalWords::capped, crate::specs::Lines::DecimalWords::cap))]
fn capped(word: &[u8]) -> i128
    ensures number { result ≡ capped word.now }
    ensures few { result ≤ℤ pos (2 ^ 68) }
    ensures count { pos 0 ≤ℤ result }
{
    magnitude(word).min(CAP) as i128
}

/// A number with a sign where it is negative.
#[tactic(auto, unfolding(crate::specs::Lines::DecimalWords::number_of))]
fn number_of(word: &[u8]) -> i128
    ensures { result ≡ number_of word.now }
{
    if first_byte(word) == 45 {
        0 - capped(behind(word, 45))
    } else {
        capped(word)
    }
}

/// The numbers from one to another, or none.
#[tactic(auto, unfolding(crate::specs::Lines::DecimalWords::range_of))]
pub(crate) fn range_of(word: &[u8]) -> Interval
    ensures { result ≡ range_of word.now }
{
    if word.len() < 3 {
        Interval::Bottom
    } else {
        between_or_bottom(number_of(until(word, 58)), number_of(behind(word, 58)))
    }
}
