//! Reads one piece at the front of some bytes.
ghost use Rattle.std.specs.Prelude.{◌≡◌, ◌≤◌, ◌<◌, ◌+◌, ◌^◌, false, true, length, IfSome};
ghost use Rattle.std.specs.Option.{ForSome};
ghost use Rattle.c_lexer.specs.ByteClasses.{is_word, is_no_line_end, begins, begins_digit};
ghost use Rattle.c_lexer.specs.Reading.{prefix_length, number_length, close_at, header_end, comment_end, head_of, rest_of, punctuator_piece, punctuator_at, longer_piece, slash_at, plain_at, header_at, or_else, piece_by, piece_at};
ghost use Rattle.c_lexer.specs.Pieces.{may_stand};

use crate::byte_class::{Class, class_of, goes_on, is_digit, is_no_line_end, is_word};
use crate::pieces::{Context, Piece, Shape};
use crate::punctuator_table::punctuator_length;
use cc_base::Kind;

fn word_length(z: &[u8]) -> usize
    ensures value { result ≡ prefix_length is_word z.now }
    ensures within { result ≤ length z.now }
{
    let mut at = 0;
    while at < z.len() && is_word(z[at]) {
        at += 1;
    }
    at
}

fn line_length(z: &[u8]) -> usize
    ensures value { result ≡ prefix_length is_no_line_end z.now }
    ensures within { result ≤ length z.now }
{
    let mut at = 0;
    while at < z.len() && is_no_line_end(z[at]) {
        at += 1;
    }
    at
}

/// How many bytes at the front may stand in a piece of this shape.
pub fn legal_length(shape: Shape, z: &[u8]) -> usize
    ensures { result ≡ prefix_length (may_stand shape) z.now }
{
    let mut at = 0;
    while at < z.len() && shape.may_stand(z[at]) {
        at += 1;
    }
    at
}

fn number_length(first: u8, z: &[u8]) -> usize
    ensures value { result ≡ number_length first z.now }
    ensures within { result ≤ length z.now }
{
    let mut last = first;
    let mut at = 0;
    while at < z.len() && goes_on(last, z[at]) {
        last = z[at];
        at += 1;
    }
    at
}

fn close_at(quote: u8, escapes: bool, z: &[u8]) -> Option<usize>
    ensures value { result ≡ close_at quote escapes false 0 z.now }
    ensures within { IfSome result (λ n. n ≤ length z.now) }
{
    let mut escaped = false;
    for (at, b) in z.iter().enumerate() {
        if *b == 10 {
            return None;
        }
        if escaped {
            escaped = false;
        } else if *b == quote {
            return Some(at + 1);
        } else {
            escaped = escapes && *b == 92;
        }
    }
    None
}

fn comment_end(z: &[u8]) -> Option<usize>
    ensures value { result ≡ comment_end false 0 z.now }
    ensures within { IfSome result (λ n. n ≤ length z.now) }
{
    let mut star = false;
    for (at, b) in z.iter().enumerate() {
        if star && *b == 47 {
            return Some(at + 1);
        }
        star = *b == 42;
    }
    None
}

pub fn begins(b: u8, z: &[u8]) -> bool
    ensures { result ≡ begins b z.now }
{
    match z {
        [] => false,
        [x, ..] => *x == b,
    }
}

fn begins_digit(z: &[u8]) -> bool
    ensures { result ≡ begins_digit z.now }
{
    match z {
        [] => false,
        [x, ..] => is_digit(*x),
    }
}

fn head_of(z: &[u8]) -> u8
    ensures { result ≡ head_of z.now }
{
    match z {
        [] => 0,
        [x, ..] => *x,
    }
}

fn rest_of(z: &[u8]) -> &[u8]
    ensures value { result.now ≡ rest_of z.now }
    ensures within { length result.now ≤ length z.now }
{
    match z {
        [] => z,
        [_, rest @ ..] => rest,
    }
}

fn header_end(quote: u8, z: &[u8]) -> Option<usize>
    ensures value { result ≡ header_end quote z.now }
    ensures within { IfSome result (λ n. n ≤ length z.now) }
{
    if begins(quote, z) {
        return None;
    }
    close_at(quote, false, z)
}

fn longer_piece(shape: Shape, more: usize, size: Option<usize>) -> Option<Piece>
    requires { ForSome size (λ n. n + more < 2 ^ 64) }
    ensures { result ≡ longer_piece shape more size }
{
    match size {
        None => None,
        Some(n) => Some(Piece::new(shape, n + more)),
    }
}

fn punctuator_piece(size: usize) -> Option<Piece>
    ensures { result ≡ punctuator_piece size }
{
    if size == 0 {
        return None;
    }
    Some(Piece::new(Shape::Token(Kind::Punct), size))
}

#[tactic(auto, unfolding(crate::specs::Reading::punctuator_at))]
fn punctuator_at(b: u8, z: &[u8]) -> Option<Piece>
    ensures { result ≡ punctuator_at b z.now }
{
    let n = head_of(z);
    let m = head_of(rest_of(z));
    punctuator_piece(punctuator_length(b, n, m))
}

fn slash_at(b: u8, z: &[u8]) -> Option<Piece>
    ensures { result ≡ slash_at b z.now }
{
    if begins(42, z) {
        return longer_piece(Shape::Comment, 2, comment_end(rest_of(z)));
    }
    if begins(47, z) {
        return Some(Piece::new(Shape::Comment, line_length(rest_of(z)) + 2));
    }
    punctuator_at(b, z)
}

fn dot_at(b: u8, z: &[u8]) -> Option<Piece>
    ensures { result ≡ plain_at Class.Dot b z.now }
{
    if begins_digit(z) {
        return Some(Piece::new(Shape::Token(Kind::Number), number_length(b, z) + 1));
    }
    punctuator_at(b, z)
}

fn plain_at(class: Class, b: u8, z: &[u8]) -> Option<Piece>
    ensures { result ≡ plain_at class b z.now }
{
    match class {
        Class::Letter => Some(Piece::new(Shape::Token(Kind::Name), word_length(z) + 1)),
        Class::Digit => Some(Piece::new(Shape::Token(Kind::Number), number_length(b, z) + 1)),
        Class::Dot => dot_at(b, z),
        Class::Quote => longer_piece(Shape::Token(Kind::Str), 1, close_at(b, true, z)),
        Class::Apostrophe => longer_piece(Shape::Token(Kind::Char), 1, close_at(b, true, z)),
        Class::Slash => slash_at(b, z),
        Class::LineEnd => Some(Piece::new(Shape::LineEnd, 1)),
        Class::Blank => Some(Piece::new(Shape::Blank, 1)),
        _ => punctuator_at(b, z),
    }
}

fn header_at(class: Class, z: &[u8]) -> Option<Piece>
    ensures { result ≡ header_at class z.now }
{
    match class {
        Class::Quote => longer_piece(Shape::Token(Kind::HeaderName), 1, header_end(34, z)),
        Class::Less => longer_piece(Shape::Token(Kind::HeaderName), 1, header_end(62, z)),
        _ => None,
    }
}

fn or_else(first: Option<Piece>, class: Class, b: u8, z: &[u8]) -> Option<Piece>
    ensures { result ≡ or_else first (plain_at class b z.now) }
{
    match first {
        None => plain_at(class, b, z),
        Some(piece) => Some(piece),
    }
}

fn piece_by(context: Context, class: Class, b: u8, z: &[u8]) -> Option<Piece>
    ensures { result ≡ piece_by context class b z.now }
{
    match context {
        Context::AfterInclude => or_else(header_at(class, z), class, b, z),
        _ => plain_at(class, b, z),
    }
}

/// The piece at the front of `z`, or None where none begins there.
#[tactic(auto, unfolding(crate::specs::Reading::piece_at))]
pub fn piece_at(context: Context, z: &[u8]) -> Option<Piece>
    ensures { result ≡ piece_at context z.now }
{
    match z {
        [] => None,
        [b, rest @ ..] => piece_by(context, class_of(*b), *b, rest),
    }
}
