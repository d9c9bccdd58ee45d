//! Tokens as macro expansion sees them.
ghost use Rattle.std.specs.Prelude.{◌≡◌};
ghost use Rattle.c_preproc_macros.specs.Lexemes.{placed_at, mark_of, kind_of};

use cc_base::{Kind, Place};

/// Where a token stands.
#[derive(Clone, Copy, PartialEq, Eq, Debug)]
pub struct Mark {
    pub place: Place,
    /// Whether it is the first token on its line.
    pub first: bool,
    /// Whether white space stands before it.
    pub space: bool,
}

/// A token. Spellings have numbers, two tokens the same one exactly where they are spelled alike.
#[derive(Clone, Copy, PartialEq, Eq, Debug)]
pub enum Lexeme {
    /// A name.
    Name(u32, Mark),
    /// A name that is not available for replacement any more (6.10.3.4).
    Painted(u32, Mark),
    /// `(`
    Open(Mark),
    /// `)`
    Close(Mark),
    /// `,`
    Comma(Mark),
    /// Every other token.
    Other(Kind, u32, Mark),
}

impl Mark {
    fn at(self, place: Place) -> Mark
        ensures { result ≡ record self { place = place } }
    {
        Mark {
            place,
            first: self.first,
            space: self.space,
        }
    }
}

impl Lexeme {
    /// Where it stands.
    pub fn mark(self) -> Mark
        ensures { result ≡ mark_of self }
    {
        match self {
            Lexeme::Name(_, mark) => mark,
            Lexeme::Painted(_, mark) => mark,
            Lexeme::Open(mark) => mark,
            Lexeme::Close(mark) => mark,
            Lexeme::Comma(mark) => mark,
            Lexeme::Other(_, _, mark) => mark,
        }
    }

    /// Its kind.
    pub fn kind(self) -> Kind
        ensures { result ≡ kind_of self }
    {
        match self {
            Lexeme::Name(_, _) => Kind::Name,
            Lexeme::Painted(_, _) => Kind::Name,
            Lexeme::Other(kind, _, _) => kind,
            _ => Kind::Punct,
        }
    }

    /// The same token at another place.
    pub fn at(self, place: Place) -> Lexeme
        ensures { result ≡ placed_at place self }
    {
        match self {
            Lexeme::Name(name, mark) => Lexeme::Name(name, mark.at(place)),
            Lexeme::Painted(name, mark) => Lexeme::Painted(name, mark.at(place)),
            Lexeme::Open(mark) => Lexeme::Open(mark.at(place)),
            Lexeme::Close(mark) => Lexeme::Close(mark.at(place)),
            Lexeme::Comma(mark) => Lexeme::Comma(mark.at(place)),
            Lexeme::Other(kind, text, mark) => Lexeme::Other(kind, text, mark.at(place)),
        }
    }
}
