//! The directives (6.10).
ghost use Rattle.std.specs.Prelude.{◌≡◌, ◌∷◌, true, false, length, unwrap_or, MatchOption, option_map};
ghost use Rattle.c_preproc_directives.specs.Directives.{is_conditional, is_include, conditional_named, other_named, directive_named, is_utf8, header_between, header_name, header_of};

/// The directives that are in, and all others.
#[derive(Clone, Copy, PartialEq, Eq, Debug)]
pub enum Directive {
    If,
    Ifdef,
    Ifndef,
    Elif,
    Else,
    Endif,
    Include,
    Define,
    Undef,
    Error,
    Pragma,
    Unknown,
}

impl Directive {
    /// Whether it is one of an if-section (6.10.1).
    pub fn is_conditional(self) -> bool
        ensures { result ≡ is_conditional self }
    {
        match self {
            Directive::If => true,
            Directive::Ifdef => true,
            Directive::Ifndef => true,
            Directive::Elif => true,
            Directive::Else => true,
            Directive::Endif => true,
            _ => false,
        }
    }

    /// Whether it is `#include`.
    pub fn is_include(self) -> bool
        ensures { result ≡ is_include self }
    {
        match self {
            Directive::Include => true,
            _ => false,
        }
    }
}

/// The conditional directives (6.10.1).
fn conditional_named(name: &[u8]) -> Option<Directive>
    ensures { result ≡ conditional_named name.now }
{
    if name == b"if".as_slice() {
        return Some(Directive::If);
    }
    if name == b"ifdef".as_slice() {
        return Some(Directive::Ifdef);
    }
    if name == b"ifndef".as_slice() {
        return Some(Directive::Ifndef);
    }
    if name == b"elif".as_slice() {
        return Some(Directive::Elif);
    }
    if name == b"else".as_slice() {
        return Some(Directive::Else);
    }
    if name == b"endif".as_slice() {
        return Some(Directive::Endif);
    }
    None
}

/// The other directives.
fn other_named(name: &[u8]) -> Directive
    ensures { result ≡ other_named name.now }
{
    if name == b"include".as_slice() {
        return Directive::Include;
    }
    if name == b"define".as_slice() {
        return Directive::Define;
    }
    if name == b"undef".as_slice() {
        return Directive::Undef;
    }
    if name == b"error".as_slice() {
        return Directive::Error;
    }
    if name == b"pragma".as_slice() {
        return Directive::Pragma;
    }
    Directive::Unknown
}

/// The directive with a name.
pub fn directive_named(name: &[u8]) -> Directive
    ensures { result ≡ directive_named name.now }
{
    match conditional_named(name) {
        Some(directive) => directive,
        None => other_named(name),
    }
}

/// A header name (6.4.7).
#[derive(Clone, Copy, Debug)]
pub struct HeaderName<'a> {
    /// What stands between its quotes or angle brackets.
    pub name: &'a str,
    /// Whether it stands in `"`.
    pub quoted: bool,
}

/// Bytes as a text, if they are one.
fn as_text(bytes: &[u8]) -> Option<&str>
    ensures { MatchOption result (is_utf8 bytes.now ≡ false) (λ s. (s.now ≡ bytes.now) × (is_utf8 bytes.now ≡ true)) }
{
    match str::from_utf8(bytes) {
        Ok(text) => Some(text),
        Err(_) => None,
    }
}

/// The header with this quote and name.
fn header_between(quote: u8, name: &[u8]) -> Option<HeaderName<'_>>
    ensures { option_map header_of result ≡ header_between quote name.now }
{
    match as_text(name) {
        Some(name) => Some(HeaderName {
            name,
            quoted: quote == b'"',
        }),
        None => None,
    }
}

/// The header of a header name with its quotes or angle brackets; None where there is nothing
/// between them, or nothing that is a text.
pub fn header_name(text: &[u8]) -> Option<HeaderName<'_>>
    ensures { option_map header_of result ≡ header_name text.now }
{
    match text {
        [] => None,
        [quote, more @ ..] => {
            if more.is_empty() {
                None
            } else {
                header_between(*quote, more.split_at(more.len() - 1).0)
            }
        }
    }
}
