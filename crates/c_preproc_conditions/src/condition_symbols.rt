//! The tokens of a condition.

ghost use Rattle.std.specs.Prelude.{◌≡◌};
ghost use Rattle.c_preproc_conditions.specs.Lines.{constant, symbol_of};
ghost use Rattle.c_preproc_conditions.specs.Symbols.{short_punctuator, punctuator};

use crate::condition_value::Number;
use crate::number_forms::{character_constant, integer_constant};
use crate::operations::{Binary, Unary};
use c_preproc_macros::{Lexeme, Spellings};
use cc_base::{Kind, Place};

/// A token of a condition.
#[derive(Clone, Copy, PartialEq, Eq, Debug)]
pub enum Symbol {
    Constant(Number),
    Open,
    Close,
    Question,
    Colon,
    /// `+`, which has one or two operands.
    Plus,
    /// `-`, which has one or two operands.
    Minus,
    Prefix(Unary),
    Infix(Binary),
    /// A token that no condition has.
    Foreign,
}

fn short_punctuator(b: u8) -> Symbol
    ensures { result ≡ short_punctuator b }
{
    match b {
        b'+' => Symbol::Plus,
        b'-' => Symbol::Minus,
        b'?' => Symbol::Question,
        b':' => Symbol::Colon,
        b'~' => Symbol::Prefix(Unary::Complement),
        b'!' => Symbol::Prefix(Unary::Not),
        b'*' => Symbol::Infix(Binary::Multiply),
        b'/' => Symbol::Infix(Binary::Divide),
        b'%' => Symbol::Infix(Binary::Remainder),
        b'<' => Symbol::Infix(Binary::Less),
        b'>' => Symbol::Infix(Binary::Greater),
        b'&' => Symbol::Infix(Binary::And),
        b'^' => Symbol::Infix(Binary::Xor),
        b'|' => Symbol::Infix(Binary::Or),
        _ => Symbol::Foreign,
    }
}

fn punctuator(text: &[u8]) -> Symbol
    ensures { result ≡ punctuator text.now }
{
    match text {
        [b] => short_punctuator(*b),
        [b'<', b'<'] => Symbol::Infix(Binary::ShiftLeft),
        [b'>', b'>'] => Symbol::Infix(Binary::ShiftRight),
        [b'<', b'='] => Symbol::Infix(Binary::LessEqual),
        [b'>', b'='] => Symbol::Infix(Binary::GreaterEqual),
        [b'=', b'='] => Symbol::Infix(Binary::Equal),
        [b'!', b'='] => Symbol::Infix(Binary::NotEqual),
        [b'&', b'&'] => Symbol::Infix(Binary::LogicalAnd),
        [b'|', b'|'] => Symbol::Infix(Binary::LogicalOr),
        _ => Symbol::Foreign,
    }
}

/// A constant, or the place of a token that is none.
fn constant(number: Option<Number>, place: Place) -> Result<Symbol, Place>
    ensures { result ≡ constant number place }
{
    match number {
        Some(number) => Ok(Symbol::Constant(number)),
        None => Err(place),
    }
}

/// What a token is in a condition: a name that is left is 0. An error is the place of a number or
/// a character constant whose form is not in.
pub fn symbol_of(spellings: &Spellings, char_signed: bool, x: Lexeme) -> Result<Symbol, Place>
    ensures { result ≡ symbol_of spellings.now char_signed x }
{
    match x {
        Lexeme::Name(_, _) | Lexeme::Painted(_, _) => Ok(Symbol::Constant(Number::Signed(0))),
        Lexeme::Open(_) => Ok(Symbol::Open),
        Lexeme::Close(_) => Ok(Symbol::Close),
        Lexeme::Comma(_) => Ok(Symbol::Foreign),
        Lexeme::Other(Kind::Number, text, mark) => {
            constant(integer_constant(spellings.text(text)), mark.place)
        }
        Lexeme::Other(Kind::Char, text, mark) => constant(
            character_constant(spellings.text(text), char_signed),
            mark.place,
        ),
        Lexeme::Other(Kind::Punct, text, _) => Ok(punctuator(spellings.text(text))),
        Lexeme::Other(_, _, _) => Ok(Symbol::Foreign),
    }
}
