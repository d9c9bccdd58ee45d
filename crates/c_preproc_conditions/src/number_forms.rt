//! Integer constants and character constants of a condition (6.4.4.1, 6.4.4.4).
ghost use Rattle.c_preproc_conditions.specs.NumberForms.{digit_value, is_digit_of, digit_count, suffix_is_unsigned, typed, simple_escape, magnitude, based_number, integer_constant, escape_code, character_code, before_quote, between_quotes, signed_char, char_value, character_constant};
ghost use Rattle.std.specs.Prelude.{◌≡◌, ◌≤◌, length, option_copied};

use crate::condition_value::Number;

/// The value of a digit in bases up to 16.
fn digit_value(b: u8) -> Option<u8>
    ensures { result ≡ digit_value b }
{
    match b {
        b'0'..=b'9' => Some(b - b'0'),
        b'a'..=b'f' => Some(b - b'a' + 10),
        b'A'..=b'F' => Some(b - b'A' + 10),
        _ => None,
    }
}

/// Whether a byte is a digit of a base.
fn is_digit_of(base: u8, b: u8) -> bool
    ensures { result ≡ is_digit_of base b }
{
    match digit_value(b) {
        None => false,
        Some(value) => value < base,
    }
}

/// How many digits of a base stand at the front.
fn digit_count(base: u8, text: &[u8]) -> usize
    ensures count { result ≡ digit_count base text.now }
    ensures most { result ≤ length text.now }
{
    for at in 0..text.len() {
        if !is_digit_of(base, text[at]) {
            return at;
        }
    }
    text.len()
}

/// The number that digits of a base spell; None where it passes 2^64 - 1.
fn magnitude(base: u8, digits: &[u8]) -> Option<u64>
    ensures { result ≡ magnitude base digits.now }
{
    let mut total = 0u64;
    for at in 0..digits.len() {
        let value = digit_value(digits[at])?;
        total = total
            .checked_mul(u64::from(base))?
            .checked_add(u64::from(value))?;
    }
    Some(total)
}

/// Whether a suffix has a `u`; None where it is no suffix.
fn suffix_is_unsigned(suffix: &[u8]) -> Option<bool>
    ensures { result ≡ suffix_is_unsigned suffix.now }
{
    match suffix {
        [] | [b'l' | b'L'] | [b'l', b'l'] | [b'L', b'L'] => Some(false),
        [b'u' | b'U'] | [b'u' | b'U', b'l' | b'L'] | [b'l' | b'L', b'u' | b'U'] => Some(true),
        [b'u' | b'U', b'l', b'l'] | [b'u' | b'U', b'L', b'L'] => Some(true),
        [b'l', b'l', b'u' | b'U'] | [b'L', b'L', b'u' | b'U'] => Some(true),
        _ => None,
    }
}

/// A number by its magnitude, its base and its suffix.
fn typed(base: u8, value: u64, is_unsigned: bool) -> Option<Number>
    ensures { result ≡ typed base value is_unsigned }
{
    if is_unsigned {
        return Some(Number::Unsigned(value));
    }
    match i64::try_from(value) {
        Ok(signed) => Some(Number::Signed(signed)),
        Err(_) => {
            if base == 10 {
                None
            } else {
                Some(Number::Unsigned(value))
            }
        }
    }
}

/// A constant whose digits begin at the front.
fn based_number(base: u8, text: &[u8]) -> Option<Number>
    ensures { result ≡ based_number base text.now }
{
    let count = digit_count(base, text);
    if count == 0 {
        return None;
    }
    let (digits, suffix) = text.split_at(count);
    let is_unsigned = suffix_is_unsigned(suffix)?;
    typed(base, magnitude(base, digits)?, is_unsigned)
}

/// The value of an integer constant; None where its form is not in, or its value does not fit.
pub fn integer_constant(text: &[u8]) -> Option<Number>
    ensures { result ≡ integer_constant text.now }
{
    match text {
        [b'0', b'x' | b'X', digits @ ..] => based_number(16, digits),
        [b'0', ..] => based_number(8, text),
        _ => based_number(10, text),
    }
}

/// The value of a simple escape.
fn simple_escape(b: u8) -> Option<u8>
    ensures { result ≡ simple_escape b }
{
    match b {
        b'\'' | b'"' | b'?' | b'\\' => Some(b),
        b'a' => Some(7),
        b'b' => Some(8),
        b'f' => Some(12),
        b'n' => Some(10),
        b'r' => Some(13),
        b't' => Some(9),
        b'v' => Some(11),
        _ => None,
    }
}

/// The code of an escape, without its backslash.
fn escape_code(text: &[u8]) -> Option<u8>
    ensures { result ≡ escape_code text.now }
{
    match text {
        [b'x', digits @ ..] => {
            if digits.is_empty() {
                return None;
            }
            u8::try_from(magnitude(16, digits)?).ok()
        }
        [b'0'..=b'7', ..] => {
            if digit_count(8, text) < text.len() || text.len() > 3 {
                return None;
            }
            u8::try_from(magnitude(8, text)?).ok()
        }
        [b] => simple_escape(*b),
        _ => None,
    }
}

/// The code of the one character between the quotes.
fn character_code(inside: &[u8]) -> Option<u8>
    ensures { result ≡ character_code inside.now }
{
    match inside {
        [b'\\', escape @ ..] => escape_code(escape),
        [b] => Some(*b),
        _ => None,
    }
}

/// What stands before a quote at the end.
fn before_quote(text: &[u8]) -> Option<&[u8]>
    ensures { option_copied result ≡ before_quote text.now }
{
    let n = text.len();
    if n > 0 && text[n - 1] == b'\'' {
        return Some(&text[..n - 1]);
    }
    None
}

/// What stands between two quotes.
fn between_quotes(text: &[u8]) -> Option<&[u8]>
    ensures { option_copied result ≡ between_quotes text.now }
{
    match text {
        [b'\'', rest @ ..] => before_quote(rest),
        _ => None,
    }
}

/// A code as a signed char.
fn signed_char(code: u8) -> i64
    ensures { result ≡ signed_char code }
{
    if code > 127 {
        i64::from(code) - 256
    } else {
        i64::from(code)
    }
}

/// A code as a char.
fn char_value(char_signed: bool, code: u8) -> Number
    ensures { result ≡ char_value char_signed code }
{
    if char_signed {
        Number::Signed(signed_char(code))
    } else {
        Number::Signed(i64::from(code))
    }
}

/// The value of a character constant with its quotes; None where it has no one character or an
/// escape that is not in.
pub fn character_constant(text: &[u8], char_signed: bool) -> Option<Number>
    ensures { result ≡ character_constant text.now char_signed }
{
    let inside = between_quotes(text)?;
    let code = character_code(inside)?;
    Some(char_value(char_signed, code))
}
