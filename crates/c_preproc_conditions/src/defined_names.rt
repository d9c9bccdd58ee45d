//! `defined NAME` and `defined (NAME)` in a condition, before its macros are expanded (6.10.1p1).
ghost use Rattle.std.specs.Prelude.{◌≡◌, ◌∷◌, option_map};
ghost use Rattle.c_preproc_macros.specs.Numbering.{texts_of};
ghost use Rattle.c_preproc_macros.specs.Rules.{macros_of};
ghost use Rattle.c_preproc_conditions.specs.DefinedNames.{named_of, named, named_by, in_parentheses, parenthesized, closed_by, digit, is_defined_word, is_defined, replaced, Replaces};

use crate::evaluation::ConditionFault;
use c_preproc_macros::{Lexeme, Macros, Mark, Spellings};
use cc_base::Kind;
use std::alloc::Global;

/// The numbers of the spellings `0` and `1`.
#[derive(Clone, Copy, PartialEq, Eq, Debug)]
pub struct Digits {
    pub zero: u32,
    pub one: u32,
}

/// The name before a token that closes its parenthesis.
fn closed_by(name: u32, x: Lexeme, more: &[Lexeme]) -> Option<(u32, &[Lexeme])>
    ensures { option_map named_of result ≡ closed_by name x more.now }
{
    match x {
        Lexeme::Close(_) => Some((name, more)),
        _ => None,
    }
}

/// The name that stands in parentheses.
fn parenthesized(x: Lexeme, y: Lexeme, more: &[Lexeme]) -> Option<(u32, &[Lexeme])>
    ensures { option_map named_of result ≡ parenthesized x y more.now }
{
    match x {
        Lexeme::Name(name, _) => closed_by(name, y, more),
        _ => None,
    }
}

/// The name that stands behind a `(`.
fn in_parentheses(rest: &[Lexeme]) -> Option<(u32, &[Lexeme])>
    ensures { option_map named_of result ≡ in_parentheses rest.now }
{
    match rest {
        [x, y, more @ ..] => parenthesized(*x, *y, more),
        _ => None,
    }
}

/// The name that begins with this token.
fn named_by(x: Lexeme, more: &[Lexeme]) -> Option<(u32, &[Lexeme])>
    ensures { option_map named_of result ≡ named_by x more.now }
{
    match x {
        Lexeme::Name(name, _) => Some((name, more)),
        Lexeme::Open(_) => in_parentheses(more),
        _ => None,
    }
}

/// What the rest of a line behind `defined` names, and the tokens behind that.
fn named(rest: &[Lexeme]) -> Option<(u32, &[Lexeme])>
    ensures { option_map named_of result ≡ named rest.now }
{
    match rest {
        [x, more @ ..] => named_by(*x, more),
        [] => None,
    }
}

/// A `1` or a `0`.
fn digit(digits: Digits, holds: bool, mark: Mark) -> Lexeme
    ensures { result ≡ digit digits holds mark }
{
    let number = if holds { digits.one } else { digits.zero };
    Lexeme::Other(Kind::Number, number, mark)
}

fn is_defined_word(spellings: &Spellings, x: Lexeme) -> bool
    ensures { result ≡ is_defined_word (texts_of spellings.now) x }
{
    match x {
        Lexeme::Name(name, _) => spellings.text(name) == b"defined".as_slice(),
        _ => false,
    }
}

fn is_defined(macros: &Macros, name: u32) -> bool
    ensures { result ≡ is_defined (macros_of macros.now) name }
{
    macros.get(name).is_some()
}

/// The line with each `defined` and its name replaced by 1 or 0.
///
/// # Errors
///
/// `Malformed` where a `defined` has no name behind it.
pub fn replace_defined(
    alloc: Global,
    spellings: &Spellings,
    macros: &Macros,
    digits: Digits,
    line: &[Lexeme],
) -> Result<Vec<Lexeme>, ConditionFault>
    ensures { Replaces (replaced (texts_of spellings.now) (macros_of macros.now) digits line.now) result }
{
    let mut made = Vec::new(alloc);
    let mut rest = line;
    'tokens: while let Some((x, more)) = rest.split_first() {
        if is_defined_word(spellings, *x) {
            match named(more) {
                Some((name, behind)) => {
                    made.push(digit(digits, is_defined(macros, name), x.mark()))?;
                    rest = behind;
                }
                None => return Err(ConditionFault::Malformed),
            }
        } else {
            made.push(*x)?;
            rest = more;
        }
    }
    Ok(made)
}
