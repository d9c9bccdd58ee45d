//! Sets of bases as hexadecimal numbers in lower case: bit k stands for base k.
ghost use Rattle.std.specs.Prelude.{◌≡◌, ◌<◌, ◌≤◌, ◌+◌, ◌++◌, codes, IfOk, string_bytes};
ghost use Rattle.certificate_text.specs.Lines.BaseDigits.{bit_value, nibble, hex_digit, used_below, digits_below, bases_text, hex_value, with_bit, with_digit, with_nibble, bases_from, bases_of};

use pointer_domain::Bases;
use std::alloc::{AllocError, Global};

/// How many digits the greatest set has.
const DIGITS: usize = 254;

/// The value of a bit of a digit where the base is in the set.
#[tactic(auto, unfolding(crate::specs::Lines::BaseDigits::bit_value))]
fn bit_value(set: Bases, base: u16, value: u8) -> u8
    requires { base < 1016 }
    ensures { result ≡ bit_value set base value }
{
    if set.has(base) { value } else { 0 }
}

/// The digit with the bases from four times `at` on.
#[tactic(auto, unfolding(crate::specs::Lines::BaseDigits::nibble, crate::specs::Lines::BaseDigits::bit_value))]
fn nibble(set: Bases, at: usize) -> u8
    requires { at < 254 }
    ensures digit { result ≡ nibble set at }
    ensures few { result < 16 }
{
    let first = at as u16 * 4;
    let low = bit_value(set, first, 1) + bit_value(set, first + 1, 2);
    let high = bit_value(set, first + 2, 4) + bit_value(set, first + 3, 8);
    low + high
}

/// The byte of a digit.
fn hex_digit(digit: u8) -> u8
    requires { digit < 128 }
    ensures { result ≡ hex_digit digit }
{
    if digit < 10 { digit + 48 } else { digit + 87 }
}

/// The byte of the digit at a place.
fn digit_at(set: Bases, at: usize) -> u8
    requires { at < 254 }
    ensures { result ≡ hex_digit (nibble set at) }
{
    hex_digit(nibble(set, at))
}

/// How many digits of the lowest ones a set needs.
#[tactic(auto, unfolding(crate::specs::Lines::BaseDigits::used_below))]
fn used_digits(set: Bases, count: usize) -> usize
    requires { count ≤ 254 }
    ensures used { result ≡ used_below set count }
    ensures few { result ≤ 254 }
{
    let mut used = 0;
    for at in 0..count {
        if nibble(set, at) != 0 {
            used = at + 1;
        }
    }
    used
}

/// The digits of a set, so many from the lowest.
fn digits_text(alloc: Global, set: Bases, count: usize) -> Result<Vec<u8>, AllocError>
    requires { count ≤ 254 }
    ensures { IfOk result (λ b. b.items ≡ digits_below set count) }
{
    let mut text = Vec::new(alloc);
    let mut left = count;
    while left > 0 {
        left -= 1;
        text.push(digit_at(set, left))?;
    }
    Ok(text)
}

/// The text of a set.
#[tactic(auto, unfolding(crate::specs::Lines::BaseDigits::bases_text))]
pub(crate) fn bases_text(alloc: Global, set: Bases) -> Result<Vec<u8>, AllocError>
    ensures { IfOk result (λ b. b.items ≡ bases_text set) }
{
    if set.is_empty() {
        Vec::from_slice(alloc, "0".as_bytes())
    } else {
        digits_text(alloc, set, used_digits(set, DIGITS))
    }
}

/// What a byte is worth as a digit.
fn hex_value(byte: u8) -> u8
    ensures { result ≡ hex_value byte }
{
    if byte < 58 {
        byte.saturating_sub(48)
    } else {
        byte.saturating_sub(87)
    }
}

#[tactic(auto, unfolding(crate::specs::Lines::BaseDigits::with_bit))]
fn with_bit(set: Bases, base: u16, present: bool) -> Bases
    requires { base < 1016 }
    ensures { result ≡ with_bit set base present }
{
    if present { set.with(base) } else { set }
}

/// The set with the bases of a digit, the first of which is given.
#[tactic(auto, unfolding(crate::specs::Lines::BaseDigits::with_digit))]
fn with_digit(set: Bases, first: u16, value: u8) -> Bases
    requires { first < 1013 }
    ensures { result ≡ with_digit set first value }
{
    let one = with_bit(set, first, value % 2 == 1);
    let two = with_bit(one, first + 1, value / 2 % 2 == 1);
    let three = with_bit(two, first + 2, value / 4 % 2 == 1);
    with_bit(three, first + 3, value / 8 % 2 == 1)
}

/// The set with the bases of the digit at a place.
fn with_nibble(set: Bases, at: usize, value: u8) -> Bases
    ensures { result ≡ with_nibble set at value }
{
    if at < DIGITS {
        with_digit(set, at as u16 * 4, value)
    } else {
        set
    }
}

/// The set that digits give.
pub(crate) fn bases_of(word: &[u8]) -> Bases
    ensures { result ≡ bases_of word.now }
{
    let mut set = Bases::empty();
    for at in 0..word.len() {
        set = with_nibble(set, word.len() - 1 - at, hex_value(word[at]));
    }
    set
}
