//! File names as uris, byte by byte.
ghost use Rattle.std.specs.Prelude.{◌≡◌, ◌++◌, ◌∷◌, ◌<◌, length, IfOk, OnOk, IfSome, IfNone, None, string_bytes, option_map};
ghost use Rattle.std.specs.Str.{is_utf8};
ghost use Rattle.sarif.specs.Uris.{is_plain, hex_digit, escaped, uri_of, hex_value, hex_pair, uri_bytes, file_of_uri};

use cc_base::Text;
use std::alloc::{AllocError, Global};

/// Whether a byte stands for itself in a uri that is written.
fn is_plain(byte: u8) -> bool
    ensures { result ≡ is_plain byte }
{
    matches!(byte, b'A'..=b'Z' | b'a'..=b'z' | b'0'..=b'9' | b'-' | b'.' | b'_' | b'~' | b'/')
}

/// The upper-case hexadecimal digit of a number below 16.
fn hex_digit(number: u8) -> char
    requires { number < 16 }
    ensures value { result ≡ hex_digit number }
    ensures small { result < 128 }
{
    if number < 10 {
        char::from(b'0' + number)
    } else {
        char::from(b'A' + (number - 10))
    }
}

/// Adds a byte of a file name to a uri.
fn push_escaped(uri: &mut String, byte: u8) -> Result<(), AllocError>
    ensures { OnOk result (string_bytes uri.new ≡ string_bytes uri.old ++ escaped byte) }
{
    if is_plain(byte) {
        uri.push(char::from(byte))
    } else {
        uri.push('%')?;
        uri.push(hex_digit(byte / 16))?;
        uri.push(hex_digit(byte % 16))
    }
}

/// The uri of a file name: each byte other than letters, digits, `-`, `.`, `_`, `~` and `/` as `%`
/// and two upper-case hexadecimal digits.
pub fn uri_of(alloc: Global, name: &[u8]) -> Result<String, AllocError>
    ensures { IfOk result (λ s. string_bytes s ≡ uri_of name.now) }
{
    let mut uri = String::new(alloc);
    for at in 0..name.len() {
        push_escaped(&mut uri, name[at])?;
    }
    Ok(uri)
}

/// The number of a hexadecimal digit of either case.
fn hex_value(digit: u8) -> Option<u8>
    ensures value { result ≡ hex_value digit }
    ensures small { IfSome result (λ n. n < 16) }
{
    match digit {
        b'0'..=b'9' => Some(digit - b'0'),
        b'A'..=b'F' => Some(digit - b'A' + 10),
        b'a'..=b'f' => Some(digit - b'a' + 10),
        _ => None,
    }
}

/// The byte that two hexadecimal digits stand for.
fn hex_pair(high: u8, low: u8) -> Option<u8>
    ensures { result ≡ hex_pair high low }
{
    let high = hex_value(high)?;
    let low = hex_value(low)?;
    Some(16 * high + low)
}

/// The first byte that a uri stands for, and the uri behind it; nothing where the uri is empty or
/// begins with a `%` without two hexadecimal digits.
fn first_byte(uri: &[u8]) -> Option<(u8, &[u8])>
    ensures found { IfSome result (λ p. uri_bytes uri.now ≡ option_map (λ bytes. p.0 ∷ bytes) (uri_bytes p.1.now)) }
    ensures shorter { IfSome result (λ p. length p.1.now < length uri.now) }
    ensures none { 0 < length uri.now → IfNone result (uri_bytes uri.now ≡ None) }
{
    match uri {
        [b'%', high, low, rest @ ..] => {
            let byte = hex_pair(*high, *low)?;
            Some((byte, rest))
        }
        [b'%', ..] => None,
        [byte, rest @ ..] => Some((*byte, rest)),
        [] => None,
    }
}

/// The bytes that a uri stands for: each `%` with two hexadecimal digits of either case is the byte
/// with that number, every other byte is itself. Nothing where a `%` lacks its digits.
fn uri_bytes(alloc: Global, uri: &[u8]) -> Result<Option<Text>, AllocError>
    ensures { IfOk result (λ o. o ≡ uri_bytes uri.now) }
{
    let mut bytes = Text::new(alloc);
    let mut rest = uri;
    while !rest.is_empty() {
        let Some((byte, more)) = first_byte(rest) else {
            return Ok(None);
        };
        bytes.push(byte)?;
        rest = more;
    }
    Ok(Some(bytes))
}

/// Whether bytes are UTF-8.
fn is_utf8(bytes: &[u8]) -> bool
    ensures { result ≡ is_utf8 bytes.now }
{
    str::from_utf8(bytes).is_ok()
}

/// The name of the file that a uri stands for. Nothing where a `%` lacks its digits, or the name is
/// not UTF-8.
pub fn file_of_uri(alloc: Global, uri: &str) -> Result<Option<Text>, AllocError>
    ensures { IfOk result (λ o. o ≡ file_of_uri uri.now) }
{
    let Some(name) = uri_bytes(alloc, uri.as_bytes())? else {
        return Ok(None);
    };
    if is_utf8(name.as_bytes()) {
        Ok(Some(name))
    } else {
        Ok(None)
    }
}
