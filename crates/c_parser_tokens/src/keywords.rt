//! Keywords (6.4.1), and the words that are left out.
ghost use Rattle.std.specs.Prelude.{◌≡◌};
ghost use Rattle.c_parser_tokens.specs.Keywords.{declaration_keyword, type_keyword, statement_keyword, keyword_of, is_left_out};

use crate::terminals::Keyword;

/// The keywords of storage classes, qualifiers, structures and enumerations.
fn declaration_keyword(text: &[u8]) -> Option<Keyword>
    ensures { result ≡ declaration_keyword text.now }
{
    if text == b"auto".as_slice() {
        return Some(Keyword::Auto);
    }
    if text == b"const".as_slice() {
        return Some(Keyword::Const);
    }
    if text == b"enum".as_slice() {
        return Some(Keyword::Enum);
    }
    if text == b"extern".as_slice() {
        return Some(Keyword::Extern);
    }
    if text == b"inline".as_slice() {
        return Some(Keyword::Inline);
    }
    if text == b"register".as_slice() {
        return Some(Keyword::Register);
    }
    if text == b"restrict".as_slice() {
        return Some(Keyword::Restrict);
    }
    if text == b"static".as_slice() {
        return Some(Keyword::Static);
    }
    if text == b"struct".as_slice() {
        return Some(Keyword::Struct);
    }
    if text == b"typedef".as_slice() {
        return Some(Keyword::Typedef);
    }
    None
}

/// The keywords of 6.7.2 for integer types and `void`.
fn type_keyword(text: &[u8]) -> Option<Keyword>
    ensures { result ≡ type_keyword text.now }
{
    if text == b"char".as_slice() {
        return Some(Keyword::Char);
    }
    if text == b"int".as_slice() {
        return Some(Keyword::Int);
    }
    if text == b"long".as_slice() {
        return Some(Keyword::Long);
    }
    if text == b"short".as_slice() {
        return Some(Keyword::Short);
    }
    if text == b"signed".as_slice() {
        return Some(Keyword::Signed);
    }
    if text == b"unsigned".as_slice() {
        return Some(Keyword::Unsigned);
    }
    if text == b"void".as_slice() {
        return Some(Keyword::Void);
    }
    None
}

/// The keywords of statements, and `sizeof`.
fn statement_keyword(text: &[u8]) -> Option<Keyword>
    ensures { result ≡ statement_keyword text.now }
{
    if text == b"break".as_slice() {
        return Some(Keyword::Break);
    }
    if text == b"case".as_slice() {
        return Some(Keyword::Case);
    }
    if text == b"continue".as_slice() {
        return Some(Keyword::Continue);
    }
    if text == b"default".as_slice() {
        return Some(Keyword::Default);
    }
    if text == b"do".as_slice() {
        return Some(Keyword::Do);
    }
    if text == b"else".as_slice() {
        return Some(Keyword::Else);
    }
    if text == b"for".as_slice() {
        return Some(Keyword::For);
    }
    if text == b"goto".as_slice() {
        return Some(Keyword::Goto);
    }
    if text == b"if".as_slice() {
        return Some(Keyword::If);
    }
    if text == b"return".as_slice() {
        return Some(Keyword::Return);
    }
    if text == b"sizeof".as_slice() {
        return Some(Keyword::Sizeof);
    }
    if text == b"switch".as_slice() {
        return Some(Keyword::Switch);
    }
    if text == b"while".as_slice() {
        return Some(Keyword::While);
    }
    None
}

/// The keyword that is spelled so.
pub fn keyword_of(text: &[u8]) -> Option<Keyword>
    ensures { result ≡ keyword_of text.now }
{
    if let Some(keyword) = declaration_keyword(text) {
        return Some(keyword);
    }
    if let Some(keyword) = type_keyword(text) {
        return Some(keyword);
    }
    statement_keyword(text)
}

/// Whether a word is left out of the language.
pub fn is_left_out(text: &[u8]) -> bool
    ensures { result ≡ is_left_out text.now }
{
    text == b"float".as_slice()
        || text == b"double".as_slice()
        || text == b"union".as_slice()
        || text == b"volatile".as_slice()
        || text == b"_Bool".as_slice()
        || text == b"_Complex".as_slice()
        || text == b"_Imaginary".as_slice()
        || text == b"_Atomic".as_slice()
        || text == b"_Alignas".as_slice()
        || text == b"_Alignof".as_slice()
        || text == b"_Generic".as_slice()
        || text == b"_Noreturn".as_slice()
        || text == b"_Static_assert".as_slice()
        || text == b"_Thread_local".as_slice()
        || text == b"asm".as_slice()
        || text == b"__asm__".as_slice()
        || text == b"__attribute__".as_slice()
}
