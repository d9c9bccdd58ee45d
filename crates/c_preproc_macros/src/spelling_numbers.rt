//! Numbers for spellings.
ghost use Rattle.std.specs.Prelude.{◌≡◌, [], IfOk};
ghost use Rattle.c_preproc_macros.specs.Lexemes.{kind_of, mark_of};
ghost use Rattle.c_preproc_macros.specs.Numbering.{texts_of, text_of, spelled, token_in, number_in, with_text, bracket, bracket_of, numbered, read_as, read_token};

use crate::lexeme::{Lexeme, Mark};
use cc_base::{Kind, Memory, Text, Token};
use indexmap::IndexSet;
use std::alloc::Global;

/// The spellings that were met, each with its number, in the order in which they were met.
#[derive(Drop)]
pub struct Spellings {
    texts: IndexSet<Vec<u8>>,
}

/// A number that is small enough.
fn short(n: usize) -> Result<u32, Memory>
    ensures { IfOk result (λ m. m ≡ n) }
{
    match u32::try_from(n) {
        Ok(m) => Ok(m),
        Err(_) => Err(Memory),
    }
}

/// A parenthesis or a comma, which have no numbers.
fn bracket(text: &[u8], mark: Mark) -> Option<Lexeme>
    ensures { result ≡ bracket text.now mark }
{
    match text {
        [b'('] => Some(Lexeme::Open(mark)),
        [b')'] => Some(Lexeme::Close(mark)),
        [b','] => Some(Lexeme::Comma(mark)),
        _ => None,
    }
}

/// A parenthesis or a comma, if a token of this kind is one.
fn bracket_of(kind: Kind, text: &[u8], mark: Mark) -> Option<Lexeme>
    ensures { result ≡ bracket_of kind text.now mark }
{
    match kind {
        Kind::Punct => bracket(text, mark),
        Kind::Name => None,
        Kind::Number => None,
        Kind::Char => None,
        Kind::Str => None,
        Kind::HeaderName => None,
    }
}

/// A token of a kind whose spelling has this number.
fn numbered(kind: Kind, number: u32, mark: Mark) -> Lexeme
    ensures { result ≡ numbered kind number mark }
{
    match kind {
        Kind::Name => Lexeme::Name(number, mark),
        Kind::Number => Lexeme::Other(kind, number, mark),
        Kind::Char => Lexeme::Other(kind, number, mark),
        Kind::Str => Lexeme::Other(kind, number, mark),
        Kind::Punct => Lexeme::Other(kind, number, mark),
        Kind::HeaderName => Lexeme::Other(kind, number, mark),
    }
}

impl Spellings {
    /// No spelling.
    pub fn new(alloc: Global) -> Spellings
        ensures { texts_of result ≡ [] }
    {
        Spellings {
            texts: IndexSet::new(alloc),
        }
    }

    /// The number of a spelling, a new one if it is new.
    pub fn number(&mut self, alloc: Global, text: &[u8]) -> Result<u32, Memory>
        ensures number { IfOk result (λ n. n ≡ number_in (texts_of self.old) text.now) }
        ensures texts { IfOk result (λ _. texts_of self.new ≡ with_text (texts_of self.old) text.now) }
    {
        let key = Vec::from_slice(alloc, text)?;
        let (number, _) = self.texts.insert_full(key)?;
        short(number)
    }

    /// The spelling with a number; empty where no spelling has it.
    pub fn text(&self, number: u32) -> &[u8]
        ensures { result.now ≡ text_of self.now number }
    {
        match self.texts.get_index(number as usize) {
            None => &[],
            Some(text) => text.as_slice(),
        }
    }

    /// A token of a kind with its spelling as a number.
    fn word(&mut self, alloc: Global, kind: Kind, text: &[u8], mark: Mark) -> Result<Lexeme, Memory>
        ensures { IfOk result (λ x. (texts_of self.new, x) ≡ read_as (texts_of self.old) kind text.now mark None) }
    {
        let number = self.number(alloc, text)?;
        Ok(numbered(kind, number, mark))
    }

    /// A token of a file with its spelling as a number.
    pub fn lexeme(&mut self, alloc: Global, token: &Token) -> Result<Lexeme, Memory>
        ensures { IfOk result (λ x. (texts_of self.new, x) ≡ read_token (texts_of self.old) token.now) }
    {
        let mark = Mark {
            place: token.place,
            first: token.first,
            space: token.space,
        };
        let text = token.text.as_bytes();
        match bracket_of(token.kind, text, mark) {
            Some(x) => Ok(x),
            None => self.word(alloc, token.kind, text, mark),
        }
    }

    /// The spelling of a token.
    pub fn spelling(&self, x: Lexeme) -> &[u8]
        ensures { result.now ≡ spelled self.now x }
    {
        match x {
            Lexeme::Name(text, _) => self.text(text),
            Lexeme::Painted(text, _) => self.text(text),
            Lexeme::Open(_) => b"(",
            Lexeme::Close(_) => b")",
            Lexeme::Comma(_) => b",",
            Lexeme::Other(_, text, _) => self.text(text),
        }
    }

    /// The token again.
    pub fn token(&self, alloc: Global, x: Lexeme) -> Result<Token, Memory>
        ensures value { IfOk result (λ t. t ≡ token_in (texts_of self.now) x) }
        ensures kind { IfOk result (λ t. t.kind ≡ kind_of x) }
        ensures text { IfOk result (λ t. t.text ≡ spelled self.now x) }
        ensures place { IfOk result (λ t. t.place ≡ (mark_of x).place) }
        ensures first { IfOk result (λ t. t.first ≡ (mark_of x).first) }
        ensures space { IfOk result (λ t. t.space ≡ (mark_of x).space) }
    {
        let text = Text::from_bytes(alloc, self.spelling(x))?;
        let mark = x.mark();
        Ok(Token {
            kind: x.kind(),
            text,
            place: mark.place,
            first: mark.first,
            space: mark.space,
        })
    }
}
