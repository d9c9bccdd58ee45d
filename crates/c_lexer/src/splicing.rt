//! A file as it is written and as it is read: CR LF is one line end, and a backslash before a
//! line end joins two lines (5.1.1.2, phases 1 and 2).
ghost use Rattle.std.specs.Prelude.{◌≡◌, ◌≤◌, ◌<◌, ◌+◌, ◌-◌, ◌^◌, ℕ, length, drop, IfOk};
ghost use Rattle.c_lexer.specs.Splicing.{skipped, skipped_by, begins_return, spliced_from, spliced, bytes_of, is_plain, line_after, column_after, ends_line, step_size, left_after};

use crate::reading::begins;
use cc_base::Place;
use std::alloc::{AllocError, Global};
use std::marker::Model;

/// What is left of a file as it is written, with the place of its first byte. It never stands on
/// a splice.
#[derive(Drop)]
pub struct Cursor<'a> {
    rest: &'a [u8],
    line: u32,
    column: u32,
}

impl<'a> Model for Cursor<'a> {
    ghost use Rattle.std.specs.Prelude.{List, ◌≡◌, ◌≤◌, ◌+◌, ◌^◌, length};
    ghost use Rattle.c_lexer.specs.Splicing.{Cell, spliced_from, skipped};

    ghost Value = { List Cell };

    ghost view = { λ c. spliced_from c.line c.column c.rest.now };

    ghost invariant = { λ c. (skipped c.rest.now ≡ 0) × (1 ≤ c.column) × (c.line + c.column + length c.rest.now ≤ 2 ^ 31) };
}

fn is_return(z: &[u8]) -> bool
    ensures { result ≡ begins_return z.now }
{
    match z {
        [] => false,
        [x, rest @ ..] => *x == 13 && begins(10, rest),
    }
}

/// How many bytes at the front are no character: a splice, or a CR before a LF.
fn skipped(z: &[u8]) -> usize
    ensures value { result ≡ skipped z.now }
    ensures fits { result ≤ length z.now }
{
    match z {
        [] => 0,
        [b, rest @ ..] => skipped_by(*b == 92, begins(10, rest), is_return(rest), *b == 13),
    }
}

fn skipped_by(backslash: bool, line: bool, spliced: bool, lone: bool) -> usize
    ensures { result ≡ skipped_by backslash line spliced lone }
{
    if backslash {
        return if line {
            2
        } else if spliced {
            3
        } else {
            0
        };
    }
    if lone && line { 1 } else { 0 }
}

/// The line after a line end, or after another byte.
fn line_after(line: u32, ends: bool) -> u32
    requires { line < 2 ^ 32 - 1 }
    ensures { result ≡ line_after ends line }
{
    if ends { line + 1 } else { line }
}

/// The column after a line end, or after another byte.
fn column_after(column: u32, ends: bool) -> u32
    requires { column < 2 ^ 32 - 1 }
    ensures { result ≡ column_after ends column }
{
    if ends { 1 } else { column + 1 }
}

/// Whether a step from here ends the line, where `over` bytes are no character.
fn ends_line(over: usize, b: u8) -> bool
    ensures { result ≡ ends_line over b }
{
    if over == 0 {
        return b == 10;
    }
    over != 1
}

/// How many bytes a step goes over.
fn step_size(over: usize) -> usize
    ensures { result ≡ step_size over }
{
    if over == 0 { 1 } else { over }
}

/// How many characters are left to step over.
fn left_after(left: usize, over: usize) -> usize
    requires { 0 < over + left }
    ensures { result ≡ left_after over left }
{
    if over == 0 { left - 1 } else { left }
}

/// Steps over `count` characters, and then over what is no character.
fn moved<'a>(rest: &'a [u8], line: u32, column: u32, count: usize) -> Cursor<'a>
    requires start { 1 ≤ column }
    requires small { line + column + length rest.now ≤ 2 ^ 31 }
    ensures { result ≡ drop count (spliced_from line column rest.entry.now) }
{
    let mut rest = rest;
    let mut line = line;
    let mut column = column;
    let mut left = count;
    'steps: loop {
        if rest.len() == 0 {
            return Cursor { rest, line, column };
        }
        let over = skipped(rest);
        if over == 0 && left == 0 {
            return Cursor { rest, line, column };
        }
        let ends = ends_line(over, rest[0]);
        line = line_after(line, ends);
        column = column_after(column, ends);
        left = left_after(left, over);
        rest = rest.split_at(step_size(over)).1;
    }
}

impl<'a> Cursor<'a> {
    ghost use Rattle.std.specs.Prelude.{◌≡◌, ◌≤◌, ◌<◌, ◌+◌, ◌^◌, length, drop};
    ghost use Rattle.c_lexer.specs.Splicing.{spliced, place_of, first_byte, is_no_cell};

    /// At the start of a file.
    pub fn new(bytes: &'a [u8]) -> Cursor<'a>
        requires { length bytes.now ≤ 2 ^ 20 }
        ensures { result ≡ spliced bytes.entry.now }
    {
        moved(bytes, 1, 1, 0)
    }

    /// Whether no character is left.
    pub fn is_empty(&self) -> bool
        ensures { result ≡ is_no_cell self.now }
    {
        self.rest.is_empty()
    }

    /// The next character.
    fn byte(&self) -> u8
        requires { 0 < length self.now }
        ensures { result ≡ first_byte self.now }
    {
        self.rest[0]
    }

    /// The place of the next character.
    pub fn place(&self, file: u32) -> Place
        requires { 0 < length self.now }
        ensures { result ≡ place_of file self.now }
    {
        Place {
            file,
            line: self.line,
            col: self.column,
        }
    }

    /// Steps over `count` characters.
    pub fn skip(&mut self, count: usize)
        ensures { self.new ≡ drop count self.old }
    {
        *self = moved(self.rest, self.line, self.column, count);
    }
}

/// Whether a file has neither a backslash nor a CR.
fn is_plain(bytes: &[u8]) -> bool
    ensures { result ≡ is_plain bytes.now }
{
    bytes.iter().all(|b| *b != 92 && *b != 13)
}

/// The characters of a file.
pub fn splice(alloc: Global, bytes: &[u8]) -> Result<Vec<u8>, AllocError>
    requires { length bytes.now ≤ 2 ^ 20 }
    ensures { IfOk result (λ v. v.items ≡ bytes_of (spliced bytes.now)) }
{
    if is_plain(bytes) {
        return Vec::from_slice(alloc, bytes);
    }
    let mut characters = Vec::new(alloc);
    let mut cursor = Cursor::new(bytes);
    while !cursor.is_empty() {
        characters.push(cursor.byte())?;
        cursor.skip(1);
    }
    Ok(characters)
}
