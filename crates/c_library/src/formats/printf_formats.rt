//! The formats of `printf` (7.21.6.1 of ISO/IEC 9899:2011).
ghost use Rattle.std.specs.Prelude.{◌≡◌, IfOk, option_map, vec_items};
ghost use Rattle.c_library.specs.Formats.PrintfFormats as spec;
ghost use Rattle.c_library.specs.Formats.PrintfFormats.{length_view, piece_view};

use std::alloc::{AllocError, Global};

/// How long a number is.
#[derive(Clone, Copy, PartialEq, Eq, Debug)]
pub enum Length {
    /// None, `h` or `hh`: an int.
    Plain,
    Long,
    LongLong,
    Size,
}

/// The argument that a conversion takes.
#[derive(Clone, Copy, PartialEq, Eq, Debug)]
pub enum Wanted {
    /// An integer of a length, signed or not.
    Number(Length),
    /// `%c`: an int.
    Character,
    /// `%s`: a pointer to char.
    Text,
}

/// Whether a byte is a flag.
fn is_flag(b: u8) -> bool
    ensures { result ≡ spec.is_flag b }
{
    b == b'-' || (b == b'+' || (b == b' ' || (b == b'0' || b == b'#')))
}

/// What is left behind flags.
#[tactic(auto, using(crate::proofs::formats::Flags::flag_passes, crate::proofs::formats::Flags::flag_stays, crate::proofs::formats::Flags::flags_none, crate::proofs::formats::Flags::flags_over))]
fn behind_flags(text: &[u8]) -> &[u8]
    ensures { result.now ≡ spec.behind_flags text.now }
{
    let mut rest = text;
    for _turn in 0..text.len() {
        match rest.split_first() {
            Some((b, more)) => {
                if !is_flag(*b) {
                    return rest;
                }
                rest = more;
            }
            None => return rest,
        }
    }
    rest
}

/// What is left behind a width.
#[tactic(auto, using(crate::proofs::formats::Flags::digit_passes, crate::proofs::formats::Flags::digit_stays, crate::proofs::formats::Flags::width_none, crate::proofs::formats::Flags::width_over))]
fn behind_width(text: &[u8]) -> &[u8]
    ensures { result.now ≡ spec.behind_width text.now }
{
    let mut rest = text;
    for _turn in 0..text.len() {
        match rest.split_first() {
            Some((b, more)) => {
                if !b.is_ascii_digit() {
                    return rest;
                }
                rest = more;
            }
            None => return rest,
        }
    }
    rest
}

/// What stands behind one `h`: a length, that one is written, and what is left behind it.
fn behind_h(text: &[u8]) -> (Length, bool, &[u8])
    ensures { length_view result.0 result.1 result.2.now ≡ spec.behind_h text.now }
{
    match text.split_first() {
        Some((b, more)) => {
            if *b == b'h' {
                (Length::Plain, true, more)
            } else {
                (Length::Plain, true, text)
            }
        }
        None => (Length::Plain, true, text),
    }
}

/// What stands behind one `l`: a length, that one is written, and what is left behind it.
fn behind_l(text: &[u8]) -> (Length, bool, &[u8])
    ensures { length_view result.0 result.1 result.2.now ≡ spec.behind_l text.now }
{
    match text.split_first() {
        Some((b, more)) => {
            if *b == b'l' {
                (Length::LongLong, true, more)
            } else {
                (Length::Long, true, text)
            }
        }
        None => (Length::Long, true, text),
    }
}

/// The length that a text of a byte and more begins with, whether one is written, and what is left.
fn length_from<'a>(b: u8, more: &'a [u8], text: &'a [u8]) -> (Length, bool, &'a [u8])
    ensures { length_view result.0 result.1 result.2.now ≡ spec.length_from b more.now text.now }
{
    if b == b'h' {
        return behind_h(more);
    }
    if b == b'l' {
        return behind_l(more);
    }
    if b == b'z' {
        return (Length::Size, true, more);
    }
    (Length::Plain, false, text)
}

/// A length, whether one is written, and what is left behind it.
fn length_of(text: &[u8]) -> (Length, bool, &[u8])
    ensures { length_view result.0 result.1 result.2.now ≡ spec.length_of text.now }
{
    match text.split_first() {
        Some((b, more)) => length_from(*b, more, text),
        None => (Length::Plain, false, text),
    }
}

/// Whether a letter is that of a number.
fn is_number(b: u8) -> bool
    ensures { result ≡ spec.is_number b }
{
    b == b'd' || (b == b'i' || (b == b'u' || (b == b'x' || (b == b'X' || b == b'o'))))
}

/// What a letter wants that takes no length.
fn plain_letter(b: u8) -> Option<Wanted>
    ensures { result ≡ spec.plain_letter b }
{
    if b == b'c' {
        Some(Wanted::Character)
    } else if b == b's' {
        Some(Wanted::Text)
    } else {
        None
    }
}

/// What the letter of a conversion wants.
fn letter(b: u8, length: Length, is_written: bool) -> Option<Wanted>
    ensures { result ≡ spec.letter b length is_written }
{
    if is_number(b) {
        Some(Wanted::Number(length))
    } else if is_written {
        None
    } else {
        plain_letter(b)
    }
}

/// A piece of a format, and what is left behind it.
#[derive(Clone, Copy)]
enum Piece<'a> {
    /// The end: nothing, or a zero byte.
    Ends,
    /// A byte that is written as it stands, or `%%`.
    Passes(&'a [u8]),
    /// A conversion.
    Takes(Wanted, &'a [u8]),
    /// A `%` with another form behind it.
    Faults,
}

/// A conversion whose letter wants this.
fn taken(rest: &[u8], wanted: Option<Wanted>) -> Piece<'_>
    ensures { piece_view result ≡ spec.taken rest.now wanted }
{
    match wanted {
        Some(wanted) => Piece::Takes(wanted, rest),
        None => Piece::Faults,
    }
}

/// A conversion from its letter on.
fn lettered(length: Length, is_written: bool, text: &[u8]) -> Piece<'_>
    ensures { piece_view result ≡ spec.lettered length is_written text.now }
{
    match text.split_first() {
        Some((b, more)) => taken(more, letter(*b, length, is_written)),
        None => Piece::Faults,
    }
}

/// A conversion behind its `%`.
fn conversion(text: &[u8]) -> Piece<'_>
    ensures { piece_view result ≡ spec.conversion text.now }
{
    let (length, is_written, rest) = length_of(behind_width(behind_flags(text)));
    lettered(length, is_written, rest)
}

/// What stands behind a `%`.
fn behind_percent(text: &[u8]) -> Piece<'_>
    ensures { piece_view result ≡ spec.behind_percent text.now }
{
    match text.split_first() {
        Some((b, more)) => {
            if *b == b'%' {
                Piece::Passes(more)
            } else {
                conversion(text)
            }
        }
        None => conversion(text),
    }
}

/// The piece that begins with a byte.
fn piece_from(b: u8, more: &[u8]) -> Piece<'_>
    ensures { piece_view result ≡ spec.piece_from b more.now }
{
    if b == 0 {
        Piece::Ends
    } else if b == b'%' {
        behind_percent(more)
    } else {
        Piece::Passes(more)
    }
}

/// The first piece of a format.
fn first_piece(text: &[u8]) -> Piece<'_>
    ensures { piece_view result ≡ spec.first_piece text.now }
{
    match text.split_first() {
        Some((b, more)) => piece_from(*b, more),
        None => Piece::Ends,
    }
}

/// What the conversions of a format want, in order; None where it has another form. It ends at its
/// first zero byte.
#[tactic(auto, using(crate::proofs::formats::Formats::begins, crate::proofs::formats::Formats::faults))]
pub fn wanted_by(alloc: Global, format: &[u8]) -> Result<Option<Vec<Wanted>>, AllocError>
    ensures { IfOk result (λ o. option_map vec_items o ≡ spec.wanted_by format.now) }
{
    let mut found = Vec::new(alloc);
    let mut rest = format;
    for _turn in 0..format.len() {
        match first_piece(rest) {
            Piece::Ends => return Ok(Some(found)),
            Piece::Passes(more) => rest = more,
            Piece::Takes(wanted, more) => {
                found.push(wanted)?;
                rest = more;
            }
            Piece::Faults => return Ok(None),
        }
    }
    Ok(Some(found))
}
