//! The tokens of a unit, of which there are at most so many.
ghost use Rattle.std.specs.Prelude.{◌≡◌, ◌≤◌, ◌<◌, ◌++◌, ◌∷◌, [], length, nat_le, IfOk};

use cc_base::{Memory, Token, Tokens};
use std::alloc::Global;
use std::marker::Model;

/// At most 131,072 tokens.
#[derive(Drop)]
pub struct UnitTokens {
    tokens: Tokens,
}

impl Model for UnitTokens {
    ghost use Rattle.std.specs.Prelude.{List, ◌≤◌, length};
    ghost use Rattle.cc_base.specs.declared.lexemes.Token.{Token};

    ghost Value = { List Token };

    ghost view = { λ t. t.tokens };

    ghost invariant = { λ t. length t.tokens ≤ 131072 };
}

impl UnitTokens {
    /// No token.
    pub fn new(alloc: Global) -> UnitTokens
        ensures { result ≡ [] }
    {
        UnitTokens {
            tokens: Tokens::new(alloc),
        }
    }

    /// Whether no further token may be added.
    pub fn is_full(&self) -> bool
        ensures { result ≡ nat_le 131072 (length self.now) }
    {
        131_072 <= self.tokens.as_slice().len()
    }

    /// Adds a token at the end.
    pub fn push(&mut self, token: Token) -> Result<(), Memory>
        requires { length self.old < 131072 }
        ensures { IfOk result (λ _. self.new ≡ self.old ++ token ∷ []) }
    {
        match self.tokens.push(token) {
            Ok(()) => Ok(()),
            Err(_) => Err(Memory),
        }
    }

    /// The tokens.
    pub fn into_tokens(self) -> Tokens
        ensures tokens { result ≡ self }
        ensures few { length result ≤ 131072 }
    {
        self.tokens
    }
}
