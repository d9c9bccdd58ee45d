//! Classes of characters (7.4 of ISO/IEC 9899:2011) in the "C" locale.
ghost use Rattle.std.specs.Prelude.{◌≡◌};
ghost use Rattle.c_layout.specs.CharacterClasses as spec;

use crate::library_functions::LibFn;
use crate::library_signatures::CharacterClass;

/// Whether a character lies between two others.
pub fn lies_in(least: i128, most: i128, c: i128) -> bool
    ensures { result ≡ spec.lies_in least most c }
{
    least <= c && c <= most
}

/// Whether a character is a small letter.
pub fn is_lower(c: i128) -> bool
    ensures { result ≡ spec.is_lower c }
{
    lies_in(97, 122, c)
}

/// Whether a character is a capital letter.
pub fn is_upper(c: i128) -> bool
    ensures { result ≡ spec.is_upper c }
{
    lies_in(65, 90, c)
}

fn is_digit(c: i128) -> bool
    ensures { result ≡ spec.is_digit c }
{
    lies_in(48, 57, c)
}

fn is_space(c: i128) -> bool
    ensures { result ≡ spec.is_space c }
{
    c == 32 || lies_in(9, 13, c)
}

fn is_letter_or_digit(c: i128) -> bool
    ensures { result ≡ spec.is_letter_or_digit c }
{
    is_lower(c) || (is_upper(c) || is_digit(c))
}

/// Letters and digits are asked for where no other class is tested.
fn in_class(class: Option<CharacterClass>, c: i128) -> bool
    ensures { result ≡ spec.in_class class c }
{
    match class {
        Some(CharacterClass::Letter) => is_lower(c) || is_upper(c),
        Some(CharacterClass::Digit) => is_digit(c),
        Some(CharacterClass::Space) => is_space(c),
        Some(CharacterClass::Upper) => is_upper(c),
        Some(CharacterClass::Lower) => is_lower(c),
        Some(CharacterClass::LetterOrDigit) => is_letter_or_digit(c),
        Some(CharacterClass::ToUpper) => is_letter_or_digit(c),
        Some(CharacterClass::ToLower) => is_letter_or_digit(c),
        None => is_letter_or_digit(c),
    }
}

/// Whether a character is of the class that a function tests.
pub fn has_class(function: LibFn, c: i128) -> bool
    ensures { result ≡ spec.has_class function c }
{
    in_class(function.signature().character, c)
}
