//! Characters and escapes of character constants and string literals (6.4.4.4, 6.4.5).
ghost use Rattle.std.specs.Prelude.{◌≡◌, ◌≤◌, length, MatchOption, IfOk, map};
ghost use Rattle.std.specs.Option.{option_map};
ghost use Rattle.c_parser_tokens.specs.CharacterCodes.{simple_escape, numeric_escape, escape, first_character, inside, code_constant, character_constant, literal_bytes, character_at};

use crate::integer_forms::{digit_count, magnitude};
use c_layout::{Constant, Model};
use cc_base::{IntType, Text};
use std::alloc::{AllocError, Global};

/// The code of a simple escape.
fn simple_escape(b: u8) -> Option<u8>
    ensures { result ≡ simple_escape b }
{
    match b {
        b'\'' | b'"' | b'?' | b'\\' => Some(b),
        b'a' => Some(7),
        b'b' => Some(8),
        b'f' => Some(12),
        b'n' => Some(10),
        b'r' => Some(13),
        b't' => Some(9),
        b'v' => Some(11),
        _ => None,
    }
}

/// A character at the front of a text: its code, and what stands behind it.
#[derive(Clone, Copy)]
pub struct Character<'a> {
    code: u8,
    rest: &'a [u8],
}

/// A numeric escape of at most `most` digits.
fn numeric_escape(base: u8, most: usize, text: &[u8]) -> Option<Character<'_>>
    ensures { option_map character_at result ≡ numeric_escape base most text.now }
{
    let count = digit_count(base, text).min(most);
    if count == 0 {
        return None;
    }
    let (digits, rest) = text.split_at(count);
    let value = magnitude(base, digits)?;
    match u8::try_from(value) {
        Ok(code) => Some(Character { code, rest }),
        Err(_) => None,
    }
}

/// An escape, behind its backslash.
fn escape(text: &[u8]) -> Option<Character<'_>>
    ensures { option_map character_at result ≡ escape text.now }
{
    match text {
        [b'x', rest @ ..] => numeric_escape(16, rest.len(), rest),
        [b'0'..=b'7', ..] => numeric_escape(8, 3, text),
        [first, rest @ ..] => {
            let code = simple_escape(*first)?;
            Some(Character { code, rest })
        }
        [] => None,
    }
}

/// The character at the front; None at the end, and where an escape is not in.
fn first_character(text: &[u8]) -> Option<Character<'_>>
    ensures { option_map character_at result ≡ first_character text.now }
{
    match text {
        [b'\\', rest @ ..] => escape(rest),
        [first, rest @ ..] => Some(Character { code: *first, rest }),
        [] => None,
    }
}

/// A text without its first and its last byte.
fn inside(text: &[u8]) -> &[u8]
    ensures { result.now ≡ inside text.now }
{
    match text {
        [_, inner @ .., _] => inner,
        _ => &[],
    }
}

/// A character constant by its code. Its type is int (6.4.4.4p10).
fn code_constant(model: &Model, code: u8) -> Constant
    ensures { result ≡ code_constant model.now code }
{
    let negative = model.char_signed && code > 127;
    let code = u64::from(code);
    Constant {
        value: if negative { 256 - code } else { code },
        negative,
        kind: IntType {
            bytes: model.int,
            signed: true,
            rank: 3,
        },
    }
}

/// The character constant that is spelled so, with its quotes; None where it is not one character,
/// or an escape that is not in.
pub fn character_constant(model: &Model, text: &[u8]) -> Option<Constant>
    ensures { result ≡ character_constant model.now text.now }
{
    let found = first_character(inside(text))?;
    if found.rest.is_empty() {
        Some(code_constant(model, found.code))
    } else {
        None
    }
}

/// The bytes that a string literal with its quotes stands for; None where an escape is not in.
///
/// # Errors
///
/// Want of memory.
pub fn literal_bytes(alloc: Global, text: &[u8]) -> Result<Option<Text>, AllocError>
    ensures { IfOk result (λ found. found ≡ literal_bytes text.now) }
{
    let mut bytes = Text::new(alloc);
    let mut rest = inside(text);
    for _turn in 0..text.len() {
        if rest.is_empty() {
            return Ok(Some(bytes));
        }
        let Some(found) = first_character(rest) else {
            return Ok(None);
        };
        bytes.push(found.code)?;
        rest = found.rest;
    }
    Ok(Some(bytes))
}
