//! Punctuators (6.4.6).
ghost use Rattle.std.specs.Prelude.{◌≡◌};
ghost use Rattle.c_parser_tokens.specs.Punctuators.{separator, arithmetic_sign, comparison_sign, assignment_sign, punctuator_of};

use crate::terminals::Punctuator;

/// The brackets and the marks that stand between parts.
fn separator(text: &[u8]) -> Option<Punctuator>
    ensures { result ≡ separator text.now }
{
    if text == b"[".as_slice() {
        return Some(Punctuator::LeftBracket);
    }
    if text == b"]".as_slice() {
        return Some(Punctuator::RightBracket);
    }
    if text == b"(".as_slice() {
        return Some(Punctuator::LeftParenthesis);
    }
    if text == b")".as_slice() {
        return Some(Punctuator::RightParenthesis);
    }
    if text == b"{".as_slice() {
        return Some(Punctuator::LeftBrace);
    }
    if text == b"}".as_slice() {
        return Some(Punctuator::RightBrace);
    }
    if text == b".".as_slice() {
        return Some(Punctuator::Dot);
    }
    if text == b"->".as_slice() {
        return Some(Punctuator::Arrow);
    }
    if text == b"?".as_slice() {
        return Some(Punctuator::Question);
    }
    if text == b":".as_slice() {
        return Some(Punctuator::Colon);
    }
    if text == b";".as_slice() {
        return Some(Punctuator::Semicolon);
    }
    if text == b",".as_slice() {
        return Some(Punctuator::Comma);
    }
    None
}

/// The signs that stand before an operand, and those of multiplication.
fn arithmetic_sign(text: &[u8]) -> Option<Punctuator>
    ensures { result ≡ arithmetic_sign text.now }
{
    if text == b"++".as_slice() {
        return Some(Punctuator::Increment);
    }
    if text == b"--".as_slice() {
        return Some(Punctuator::Decrement);
    }
    if text == b"&".as_slice() {
        return Some(Punctuator::Ampersand);
    }
    if text == b"*".as_slice() {
        return Some(Punctuator::Star);
    }
    if text == b"+".as_slice() {
        return Some(Punctuator::Plus);
    }
    if text == b"-".as_slice() {
        return Some(Punctuator::Minus);
    }
    if text == b"~".as_slice() {
        return Some(Punctuator::Tilde);
    }
    if text == b"!".as_slice() {
        return Some(Punctuator::Exclamation);
    }
    if text == b"/".as_slice() {
        return Some(Punctuator::Slash);
    }
    if text == b"%".as_slice() {
        return Some(Punctuator::Percent);
    }
    None
}

/// The signs of shifts, comparisons and bitwise and logical operators.
fn comparison_sign(text: &[u8]) -> Option<Punctuator>
    ensures { result ≡ comparison_sign text.now }
{
    if text == b"<<".as_slice() {
        return Some(Punctuator::ShiftLeft);
    }
    if text == b">>".as_slice() {
        return Some(Punctuator::ShiftRight);
    }
    if text == b"<".as_slice() {
        return Some(Punctuator::Less);
    }
    if text == b">".as_slice() {
        return Some(Punctuator::Greater);
    }
    if text == b"<=".as_slice() {
        return Some(Punctuator::LessEqual);
    }
    if text == b">=".as_slice() {
        return Some(Punctuator::GreaterEqual);
    }
    if text == b"==".as_slice() {
        return Some(Punctuator::EqualEqual);
    }
    if text == b"!=".as_slice() {
        return Some(Punctuator::NotEqual);
    }
    if text == b"^".as_slice() {
        return Some(Punctuator::Caret);
    }
    if text == b"|".as_slice() {
        return Some(Punctuator::Bar);
    }
    if text == b"&&".as_slice() {
        return Some(Punctuator::AndAnd);
    }
    if text == b"||".as_slice() {
        return Some(Punctuator::OrOr);
    }
    None
}

/// The assignment operators.
fn assignment_sign(text: &[u8]) -> Option<Punctuator>
    ensures { result ≡ assignment_sign text.now }
{
    if text == b"=".as_slice() {
        return Some(Punctuator::Assign);
    }
    if text == b"*=".as_slice() {
        return Some(Punctuator::StarAssign);
    }
    if text == b"/=".as_slice() {
        return Some(Punctuator::SlashAssign);
    }
    if text == b"%=".as_slice() {
        return Some(Punctuator::PercentAssign);
    }
    if text == b"+=".as_slice() {
        return Some(Punctuator::PlusAssign);
    }
    if text == b"-=".as_slice() {
        return Some(Punctuator::MinusAssign);
    }
    if text == b"<<=".as_slice() {
        return Some(Punctuator::ShiftLeftAssign);
    }
    if text == b">>=".as_slice() {
        return Some(Punctuator::ShiftRightAssign);
    }
    if text == b"&=".as_slice() {
        return Some(Punctuator::AndAssign);
    }
    if text == b"^=".as_slice() {
        return Some(Punctuator::XorAssign);
    }
    if text == b"|=".as_slice() {
        return Some(Punctuator::OrAssign);
    }
    None
}

/// The punctuator that is spelled so; None for `...`, `#` and `##`, which are left out.
pub fn punctuator_of(text: &[u8]) -> Option<Punctuator>
    ensures { result ≡ punctuator_of text.now }
{
    if let Some(sign) = separator(text) {
        return Some(sign);
    }
    if let Some(sign) = arithmetic_sign(text) {
        return Some(sign);
    }
    if let Some(sign) = comparison_sign(text) {
        return Some(sign);
    }
    assignment_sign(text)
}
