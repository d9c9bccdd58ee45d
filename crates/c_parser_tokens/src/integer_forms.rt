//! The digits and the suffix of an integer constant (6.4.4.1).
ghost use Rattle.std.specs.Prelude.{◌≡◌, ◌≤◌, length};
ghost use Rattle.c_parser_tokens.specs.IntegerForms.{digit_value, is_digit_of, digit_count, magnitude, suffix_of, spelled_in, read_integer};

/// The suffix of an integer constant.
#[derive(Clone, Copy, PartialEq, Eq, Debug)]
pub struct Suffix {
    pub is_unsigned: bool,
    /// How many `l` it has, from 0 to 2.
    pub longs: u8,
}

/// An integer constant as it is spelled.
#[derive(Clone, Copy, PartialEq, Eq, Debug)]
pub struct Spelled {
    /// 8, 10 or 16.
    pub base: u8,
    pub value: u64,
    pub suffix: Suffix,
}

/// The value of a digit in bases up to 16.
fn digit_value(b: u8) -> Option<u8>
    ensures { result ≡ digit_value b }
{
    match b {
        b'0'..=b'9' => Some(b - b'0'),
        b'a'..=b'f' => Some(b - b'a' + 10),
        b'A'..=b'F' => Some(b - b'A' + 10),
        _ => None,
    }
}

/// Whether a byte is a digit of a base.
fn is_digit_of(base: u8, b: u8) -> bool
    ensures { result ≡ is_digit_of base b }
{
    match digit_value(b) {
        None => false,
        Some(value) => value < base,
    }
}

/// How many digits of a base stand at the front.
pub fn digit_count(base: u8, text: &[u8]) -> usize
    ensures count { result ≡ digit_count base text.now }
    ensures most { result ≤ length text.now }
{
    for at in 0..text.len() {
        if !is_digit_of(base, text[at]) {
            return at;
        }
    }
    text.len()
}

/// The number that digits spell; None where it passes 2^64 - 1.
pub fn magnitude(base: u8, digits: &[u8]) -> Option<u64>
    ensures { result ≡ magnitude base digits.now }
{
    let mut total = 0u64;
    for at in 0..digits.len() {
        let value = digit_value(digits[at])?;
        total = total
            .checked_mul(u64::from(base))?
            .checked_add(u64::from(value))?;
    }
    Some(total)
}

/// The suffix that is spelled so.
fn suffix_of(text: &[u8]) -> Option<Suffix>
    ensures { result ≡ suffix_of text.now }
{
    let (is_unsigned, longs) = match text {
        [] => (false, 0),
        [b'l' | b'L'] => (false, 1),
        [b'l', b'l'] | [b'L', b'L'] => (false, 2),
        [b'u' | b'U'] => (true, 0),
        [b'u' | b'U', b'l' | b'L'] | [b'l' | b'L', b'u' | b'U'] => (true, 1),
        [b'u' | b'U', b'l', b'l'] | [b'u' | b'U', b'L', b'L'] => (true, 2),
        [b'l', b'l', b'u' | b'U'] | [b'L', b'L', b'u' | b'U'] => (true, 2),
        _ => return None,
    };
    Some(Suffix { is_unsigned, longs })
}

/// Digits of a base and a suffix.
fn spelled_in(base: u8, text: &[u8]) -> Option<Spelled>
    ensures { result ≡ spelled_in base text.now }
{
    let count = digit_count(base, text);
    if count == 0 {
        return None;
    }
    let (digits, suffix) = text.split_at(count);
    let value = magnitude(base, digits)?;
    let suffix = suffix_of(suffix)?;
    Some(Spelled {
        base,
        value,
        suffix,
    })
}

/// The integer constant that is spelled so; None where its form is not in, or its value passes
/// 2^64 - 1.
pub fn read_integer(text: &[u8]) -> Option<Spelled>
    ensures { result ≡ read_integer text.now }
{
    match text {
        [b'0', b'x' | b'X', digits @ ..] => spelled_in(16, digits),
        [b'0', ..] => spelled_in(8, text),
        _ => spelled_in(10, text),
    }
}
