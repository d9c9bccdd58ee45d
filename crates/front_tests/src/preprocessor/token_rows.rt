//! Files and what the standard makes of them.
use c_lexer::lex;
use cc_base::{Kind, Refusal, Stop, Tokens};
use std::alloc::Global;
use std::fmt::Write;
use std::process::Abort;
use std::test::Fail;

fn letter(kind: Kind) -> char {
    match kind {
        Kind::Name => 'n',
        Kind::Number => 'i',
        Kind::Char => 'c',
        Kind::Str => 's',
        Kind::Punct => 'p',
        Kind::HeaderName => 'h',
    }
}

/// Each token by its kind and place, `^` where it is the first of its line and `_` where white
/// space stands before it.
fn shown(alloc: Global, tokens: &Tokens) -> Result<String, Fail> {
    let mut text = String::new(alloc);
    for token in tokens.as_slice() {
        let kind = letter(token.kind);
        let line = token.place.line;
        let column = token.place.col;
        let first = if token.first { "^" } else { "" };
        let space = if token.space { "_" } else { "" };
        let spelling = str::from_utf8(token.text.as_bytes()).unwrap_or("?");
        write!(text, "{kind}{line}:{column}{first}{space} {spelling} ")?;
    }
    Ok(text)
}

fn word(refusal: &Refusal) -> &'static str {
    match refusal {
        Refusal::BadByte => "BadByte",
        Refusal::OpenComment => "OpenComment",
        Refusal::OpenLiteral => "OpenLiteral",
        Refusal::TooManyTokens { .. } => "TooManyTokens",
        _ => "another",
    }
}

fn answer(alloc: Global, bytes: &[u8]) -> Result<String, Fail> {
    if bytes.len() > 1_048_576 {
        return Ok(String::from_str(alloc, "long")?);
    }
    match lex(alloc, 0, bytes) {
        Ok(tokens) => shown(alloc, &tokens),
        Err(Stop::Refused(fault)) => {
            let line = fault.place.line;
            let column = fault.place.col;
            let why = word(&fault.refusal);
            Ok(format!(in alloc; "{why} {line}:{column}")?)
        }
        Err(_) => Ok(String::from_str(alloc, "no memory")?),
    }
}

/// Bytes of a file, and its tokens or why and where it is refused.
type Row = (&'static [u8], &'static str);

/// Fails unless each file is answered so.
fn expect_all(rt: &impl Abort, alloc: Global, rows: &[Row]) -> Result<(), Fail> {
    for (bytes, wanted) in rows {
        let found = answer(alloc, bytes)?;
        assert!(rt; found.as_str() == *wanted, "{wanted}: {found}");
    }
    Ok(())
}

const PIECES: [Row; 7] = [
    (b"a+++b", "n1:1^ a p1:2 ++ p1:4 + n1:5 b "),
    (
        b"x = 0x1E+1.5.;",
        "n1:1^ x p1:3_ = i1:5_ 0x1E+1.5. p1:14 ; ",
    ),
    (
        b"a<<=b>>c..",
        "n1:1^ a p1:2 <<= n1:5 b p1:6 >> n1:8 c p1:9 . p1:10 . ",
    ),
    (b"\"/*\"'\\''//c\nb", "s1:1^ \"/*\" c1:5 '\\'' n2:1^_ b "),
    (b"a/* b\n */ c", "n1:1^ a n2:5_ c "),
    (
        b"#include <a.h>x\n#include \"b\"\n",
        "p1:1^ # n1:2 include h1:10_ <a.h> n1:15 x p2:1^_ # n2:2 include h2:10_ \"b\" ",
    ),
    (b"a <b> \"\"", "n1:1^ a p1:3_ < n1:4 b p1:5 > s1:7_ \"\" "),
];

#[test]
fn cuts_longest_pieces(rt: HostRuntime) -> Result<(), Fail> {
    expect_all(&rt, rt.alloc(), &PIECES)
}

const PLACES: [Row; 11] = [
    (
        b"int ma\\\nin;\r\nx\\\r\ny z",
        "n1:1^ int n1:5_ main p2:3 ; n3:1^_ xy n4:3_ z ",
    ),
    (b"\\\n a", "n2:2^_ a "),
    (b"int x; /* a", "OpenComment 1:8"),
    (b"int x=@;", "BadByte 1:7"),
    (b"/* \x01 */a", "BadByte 1:4"),
    (b"/* \x01 ", "OpenComment 1:1"),
    (b"x=\"a\x01;", "OpenLiteral 1:3"),
    (b"'\x80'", "BadByte 1:2"),
    (b"\"\x80\"//\x80", "s1:1^ ? "),
    (b"a\rb", "BadByte 1:2"),
    (b"\"a\\", "OpenLiteral 1:1"),
];

#[test]
fn splices_and_places(rt: HostRuntime) -> Result<(), Fail> {
    expect_all(&rt, rt.alloc(), &PLACES)
}
