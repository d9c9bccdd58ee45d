//! What a byte is, and what it can begin.
ghost use Rattle.std.specs.Prelude.{◌≡◌};
ghost use Rattle.c_lexer.specs.ByteClasses.{is_letter, is_digit, is_word, is_blank, is_source, is_text, goes_on, is_no_line_end, class_of};

/// The classes of bytes by what they can begin.
#[derive(Clone, Copy, PartialEq, Eq, Debug)]
pub enum Class {
    /// A nondigit: names.
    Letter,
    /// A digit: numbers.
    Digit,
    /// A dot: numbers and punctuators.
    Dot,
    /// `"`: string literals and header names.
    Quote,
    /// `'`: character constants.
    Apostrophe,
    /// `/`: comments and punctuators.
    Slash,
    /// `<`: punctuators and header names.
    Less,
    /// A line end.
    LineEnd,
    /// Other white space.
    Blank,
    /// Every other byte: a punctuator or nothing.
    Other,
}

#[inline(always)]
pub fn is_letter(b: u8) -> bool
    ensures { result ≡ is_letter b }
{
    (97 <= b && b <= 122) || (65 <= b && b <= 90) || b == 95
}

#[inline(always)]
pub fn is_digit(b: u8) -> bool
    ensures { result ≡ is_digit b }
{
    48 <= b && b <= 57
}

#[inline(always)]
pub fn is_word(b: u8) -> bool
    ensures { result ≡ is_word b }
{
    is_letter(b) || is_digit(b)
}

#[inline(always)]
pub fn is_blank(b: u8) -> bool
    ensures { result ≡ is_blank b }
{
    b == 32 || b == 9 || b == 11 || b == 12
}

#[inline(always)]
pub fn is_source(b: u8) -> bool
    ensures { result ≡ is_source b }
{
    (9 <= b && b <= 12) || (32 <= b && b <= 126)
}

#[inline(always)]
pub fn is_text(b: u8) -> bool
    ensures { result ≡ is_text b }
{
    is_source(b) || 128 <= b
}

#[inline(always)]
pub fn is_no_line_end(b: u8) -> bool
    ensures { result ≡ is_no_line_end b }
{
    b != 10
}

#[inline(always)]
pub fn goes_on(last: u8, b: u8) -> bool
    ensures { result ≡ goes_on last b }
{
    is_word(b)
        || b == 46
        || ((b == 43 || b == 45) && (last == 101 || last == 69 || last == 112 || last == 80))
}

#[tactic(auto, unfolding(crate::specs::ByteClasses::class_of))]
pub fn class_of(b: u8) -> Class
    ensures { result ≡ class_of b }
{
    if is_letter(b) {
        return Class::Letter;
    }
    if is_digit(b) {
        return Class::Digit;
    }
    if b == 46 {
        return Class::Dot;
    }
    if b == 34 {
        return Class::Quote;
    }
    if b == 39 {
        return Class::Apostrophe;
    }
    if b == 47 {
        return Class::Slash;
    }
    if b == 60 {
        return Class::Less;
    }
    if b == 10 {
        return Class::LineEnd;
    }
    if is_blank(b) {
        return Class::Blank;
    }
    Class::Other
}
