//! Pieces of a file, and what is known between them.
ghost use Rattle.std.specs.Prelude.{◌≡◌};

use crate::byte_class::{is_source, is_text};
use crate::line_context::context_after;
use cc_base::Kind;

/// What a piece of a file is.
#[derive(Clone, Copy, PartialEq, Eq, Debug)]
pub enum Shape {
    /// A space, a tab, a vertical tab or a form feed.
    Blank,
    /// The end of a line.
    LineEnd,
    /// A comment, without the line end after a `//`.
    Comment,
    /// A preprocessing token.
    Token(Kind),
}

/// A piece at the front of some bytes.
#[derive(Clone, Copy, PartialEq, Eq, Debug)]
pub struct Piece {
    pub shape: Shape,
    /// How many bytes it has, at least 1.
    pub size: usize,
}

/// What stands on the line so far.
#[derive(Clone, Copy, PartialEq, Eq, Debug)]
pub enum Context {
    /// No token.
    LineStart,
    /// A `#` alone.
    AfterHash,
    /// `#include` alone.
    AfterInclude,
    /// Any other tokens.
    Plain,
}

/// What is known between two pieces.
#[derive(Clone, Copy, PartialEq, Eq, Debug)]
pub struct State {
    pub context: Context,
    /// Whether the last piece is white space.
    pub space: bool,
}

impl Piece {
    ghost use Rattle.c_lexer.specs.Reading.{piece_of};

    pub fn new(shape: Shape, size: usize) -> Piece
        ensures { result ≡ piece_of shape size }
    {
        Piece { shape, size }
    }
}

impl Shape {
    ghost use Rattle.c_lexer.specs.Pieces.{may_stand};
    ghost use Rattle.c_lexer.specs.Cutting.{is_token, is_past};

    /// Whether a byte may stand in such a piece.
    #[inline(always)]
    pub fn may_stand(self, b: u8) -> bool
        ensures { result ≡ may_stand self b }
    {
        match self {
            Shape::Comment => is_text(b),
            Shape::Token(Kind::Str) => is_text(b),
            _ => is_source(b),
        }
    }

    pub fn is_token(self) -> bool
        ensures { result ≡ is_token self }
    {
        match self {
            Shape::Token(_) => true,
            _ => false,
        }
    }

    /// Whether such a piece is one token too many after `count` tokens.
    pub fn is_past(self, count: usize) -> bool
        ensures { result ≡ is_past self count }
    {
        self.is_token() && 131_072 <= count
    }
}

impl Context {
    ghost use Rattle.c_lexer.specs.Cutting.{is_line_start};

    pub fn is_line_start(self) -> bool
        ensures { result ≡ is_line_start self }
    {
        match self {
            Context::LineStart => true,
            _ => false,
        }
    }
}

impl State {
    ghost use Rattle.c_lexer.specs.Cutting.{start, after};

    /// At the start of a file.
    pub fn start() -> State
        ensures { result ≡ start }
    {
        State {
            context: Context::LineStart,
            space: false,
        }
    }

    /// After a piece of this shape and text.
    pub fn after(self, shape: Shape, text: &[u8]) -> State
        ensures { result ≡ after self shape text.now }
    {
        match shape {
            Shape::Token(kind) => State {
                context: context_after(self.context, kind, text),
                space: false,
            },
            Shape::LineEnd => State {
                context: Context::LineStart,
                space: true,
            },
            _ => State {
                context: self.context,
                space: true,
            },
        }
    }
}
