//! The tokens of a file (6.4 of ISO/IEC 9899:2011).
ghost use Rattle.std.specs.Prelude.{◌≡◌, ◌++◌, ◌∷◌, [], IfOk, OnErr};

use crate::diagnostics::Place;
use crate::text_bytes::Text;
use std::alloc::{AllocError, Global};
use std::marker::Model;

/// The kinds of preprocessing token.
#[derive(Clone, Copy, PartialEq, Eq, Debug)]
pub enum Kind {
    /// An identifier or a keyword (6.4.2).
    Name,
    /// A preprocessing number (6.4.8).
    Number,
    /// A character constant with its quotes (6.4.4.4).
    Char,
    /// A string literal with its quotes (6.4.5).
    Str,
    /// A punctuator (6.4.6).
    Punct,
    /// A header name with its quotes or angle brackets (6.4.7).
    HeaderName,
}

/// A token as it is spelled, splices removed.
#[derive(Drop)]
pub struct Token {
    pub kind: Kind,
    pub text: Text,
    /// The place of its first byte in the file as written.
    pub place: Place,
    /// Whether it is the first token on its line.
    pub first: bool,
    /// Whether white space stands before it.
    pub space: bool,
}

/// A list of tokens.
#[derive(Drop)]
pub struct Tokens {
    items: Vec<Token>,
}

impl Model for Tokens {
    ghost use Rattle.std.specs.Prelude.{List};
    ghost use Rattle.cc_base.specs.declared.lexemes.Token.{Token};

    ghost Value = { List Token };

    ghost view = { λ t. t.items.items };
}

impl Tokens {
    /// No token.
    pub fn new(alloc: Global) -> Tokens
        ensures { result ≡ [] }
    {
        Tokens {
            items: Vec::new(alloc),
        }
    }

    /// The tokens, in order.
    pub fn as_slice(&self) -> &[Token]
        ensures { result.now ≡ self.now }
    {
        self.items.as_slice()
    }

    /// Adds a token at the end. On want of memory the list is as before.
    pub fn push(&mut self, token: Token) -> Result<(), AllocError>
        ensures ok { IfOk result (λ _. self.new ≡ self.old ++ token ∷ []) }
        ensures err { OnErr result (self.new ≡ self.old) }
    {
        self.items.push(token)?;
        Ok(())
    }
}

impl Token {
    /// A token with the same parts.
    pub fn copy(&self, alloc: Global) -> Result<Token, AllocError>
        ensures { IfOk result (λ t. t ≡ self.now) }
    {
        let text = self.text.copy(alloc)?;
        Ok(Token {
            kind: self.kind,
            text,
            place: self.place,
            first: self.first,
            space: self.space,
        })
    }
}
