//! Units of words that blanks set apart. The column of a token is its number.
use c_layout::{Model, Tree7, Unit7};
use c_parser::parse;
use cc_base::{Fault, Kind, Place, Refusal, Stop, Text, Token, Tokens};
use std::alloc::Global;
use std::process::Abort;
use std::test::Fail;

const LP64: Model = Model {
    short: 2,
    int: 4,
    long: 8,
    long_long: 8,
    pointer: 8,
    char_signed: true,
};

fn kind_of(word: &[u8]) -> Kind {
    match word {
        [b'0'..=b'9', ..] => Kind::Number,
        [b'\'', ..] => Kind::Char,
        [b'"', ..] => Kind::Str,
        [b'a'..=b'z' | b'A'..=b'Z' | b'_', ..] => Kind::Name,
        _ => Kind::Punct,
    }
}

fn tokens_of(alloc: Global, text: &str) -> Result<Tokens, Fail> {
    let mut tokens = Tokens::new(alloc);
    let mut col = 0u32;
    for word in text.split(' ') {
        col = col.saturating_add(1);
        tokens.push(Token {
            kind: kind_of(word.as_bytes()),
            text: Text::from_bytes(alloc, word.as_bytes())?,
            place: Place {
                file: 0,
                line: 1,
                col,
            },
            first: false,
            space: true,
        })?;
    }
    Ok(tokens)
}

/// What the unit of these words parses to.
pub fn parsed(alloc: Global, text: &str) -> Result<Result<Tree7, Stop>, Fail> {
    let unit = Unit7 {
        tokens: tokens_of(alloc, text)?,
        model: LP64,
    };
    Ok(parse(alloc, &unit))
}

fn refusal_name(refusal: &Refusal) -> &'static str {
    match refusal {
        Refusal::NumberForm => "NumberForm",
        Refusal::Unsupported(_) => "Unsupported",
        Refusal::Syntax => "Syntax",
        _ => "another",
    }
}

fn refused(alloc: Global, fault: &Fault) -> Result<String, Fail> {
    let name = refusal_name(&fault.refusal);
    let col = fault.place.col;
    Ok(format!(in alloc; "{name} {col}")?)
}

/// `ok`, or the refusal of a unit and the number of the token at which it stands.
fn answer(alloc: Global, text: &str) -> Result<String, Fail> {
    match parsed(alloc, text)? {
        Ok(_) => Ok(String::from_str(alloc, "ok")?),
        Err(Stop::Refused(fault)) => refused(alloc, &fault),
        Err(_) => Ok(String::from_str(alloc, "want of memory")?),
    }
}

/// Fails unless a unit is answered so.
pub fn expect(rt: &impl Abort, alloc: Global, text: &str, wanted: &str) -> Result<(), Fail> {
    let found = answer(alloc, text)?;
    assert!(rt; found.as_str() == wanted, "{text}: {found}");
    Ok(())
}

/// Fails unless each unit is answered so.
pub fn answer_all(rt: &impl Abort, alloc: Global, rows: &[(&str, &str)]) -> Result<(), Fail> {
    for (text, wanted) in rows {
        expect(rt, alloc, text, wanted)?;
    }
    Ok(())
}

/// Fails unless each unit parses.
pub fn accept_all(rt: &impl Abort, alloc: Global, texts: &[&str]) -> Result<(), Fail> {
    for text in texts {
        expect(rt, alloc, text, "ok")?;
    }
    Ok(())
}
