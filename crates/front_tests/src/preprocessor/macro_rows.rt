//! Examples of 6.10.3.5 with the results that the standard gives, refusals with their places, and
//! calls in one another.
use c_preproc_macros::{
    Expansion, Failure, Lexeme, Macro, Macros, Mark, Part, Spellings, Trouble, expand_list,
};
use cc_base::{Kind, Place};
use std::alloc::Global;
use std::fmt::Write;
use std::test::Fail;

/// The place of the word with this number.
fn mark(index: usize) -> Mark {
    Mark {
        place: Place {
            file: 0,
            line: 1,
            col: u32::try_from(index).unwrap_or(0),
        },
        first: false,
        space: false,
    }
}

/// Macros, and the spellings of their tokens.
#[derive(Drop)]
struct Bench {
    spellings: Spellings,
    macros: Macros,
}

impl Bench {
    fn new(alloc: Global) -> Bench {
        Bench {
            spellings: Spellings::new(alloc),
            macros: Macros::new(alloc),
        }
    }

    /// A word as a token: a name where it begins with a letter.
    fn word(&mut self, alloc: Global, word: &str, mark: Mark) -> Result<Lexeme, Fail> {
        let bytes = word.as_bytes();
        match bytes {
            [b'('] => Ok(Lexeme::Open(mark)),
            [b')'] => Ok(Lexeme::Close(mark)),
            [b','] => Ok(Lexeme::Comma(mark)),
            [b'a'..=b'z' | b'A'..=b'Z', ..] => {
                Ok(Lexeme::Name(self.spellings.number(alloc, bytes)?, mark))
            }
            _ => {
                let number = self.spellings.number(alloc, bytes)?;
                Ok(Lexeme::Other(Kind::Punct, number, mark))
            }
        }
    }

    /// The words of a text, each with its number as its column.
    fn words(&mut self, alloc: Global, text: &str) -> Result<Vec<Lexeme>, Fail> {
        let mut list = Vec::new(alloc);
        for word in text.split_whitespace() {
            let x = self.word(alloc, word, mark(list.len()))?;
            list.push(x)?;
        }
        Ok(list)
    }

    /// The numbers of names.
    fn names(&mut self, alloc: Global, text: &str) -> Result<Vec<u32>, Fail> {
        let mut names = Vec::new(alloc);
        for name in text.split_whitespace() {
            let number = self.spellings.number(alloc, name.as_bytes())?;
            names.push(number)?;
        }
        Ok(names)
    }

    /// A macro with these parameters, if it has a list of them.
    fn rule(&mut self, alloc: Global, parameters: Option<&str>, list: &str) -> Result<Macro, Fail> {
        let names = self.names(alloc, parameters.unwrap_or(""))?;
        let words = self.words(alloc, list)?;
        let body = parts(alloc, names.as_slice(), words.as_slice())?;
        match parameters {
            None => Ok(Macro {
                parameters: None,
                body,
            }),
            Some(_) => Ok(Macro {
                parameters: Some(names),
                body,
            }),
        }
    }

    fn define(
        &mut self,
        alloc: Global,
        name: &str,
        parameters: Option<&str>,
        list: &str,
    ) -> Result<(), Fail> {
        let number = self.spellings.number(alloc, name.as_bytes())?;
        let rule = self.rule(alloc, parameters, list)?;
        self.macros.define(number, rule)?;
        Ok(())
    }

    /// The expansion of a text with a blank before each token, or why and where it is refused.
    fn expanded(&mut self, alloc: Global, text: &str) -> Result<String, Fail> {
        let list = self.words(alloc, text)?;
        match expand_list(alloc, &self.macros, 0, list.as_slice()) {
            Ok(expansion) => self.spelled(alloc, &expansion),
            Err(Failure::Memory) => Ok(String::from_str(alloc, "memory")?),
            Err(Failure::Refused(refused)) => {
                let why = trouble_word(refused.trouble);
                let column = refused.place.col;
                Ok(format!(in alloc; "{why} at {column}")?)
            }
        }
    }

    fn spelled(&self, alloc: Global, expansion: &Expansion) -> Result<String, Fail> {
        let mut text = String::new(alloc);
        for x in expansion.words.as_slice() {
            let spelling = str::from_utf8(self.spellings.spelling(*x)).unwrap_or("?");
            write!(text, " {spelling}")?;
        }
        Ok(text)
    }

    fn gives(&mut self, alloc: Global, text: &str, wanted: &str) -> Result<bool, Fail> {
        let found = self.expanded(alloc, text)?;
        Ok(found.as_str() == wanted)
    }
}

fn trouble_word(trouble: Trouble) -> &'static str {
    match trouble {
        Trouble::Spill => "spill",
        Trouble::Arguments => "arguments",
        Trouble::Unclosed => "unclosed",
        Trouble::TooMany(_) => "too many",
    }
}

/// A replacement list, with the parameters by their numbers.
fn parts(alloc: Global, names: &[u32], words: &[Lexeme]) -> Result<Vec<Part>, Fail> {
    let mut body = Vec::new(alloc);
    for x in words {
        body.push(part(names, *x))?;
    }
    Ok(body)
}

fn part(names: &[u32], x: Lexeme) -> Part {
    match x {
        Lexeme::Name(name, _) => match names.iter().position(|n| *n == name) {
            None => Part::Word(x),
            Some(index) => Part::Parameter(u32::try_from(index).unwrap_or(0), false),
        },
        _ => Part::Word(x),
    }
}

/// The macros of the first three examples, as they are when their texts are read.
const MACROS: [(&str, Option<&str>, &str); 12] = [
    ("TABSIZE", None, "100"),
    ("max", Some("a b"), "( ( a ) > ( b ) ? ( a ) : ( b ) )"),
    ("f", Some("a"), "f ( x * ( a ) )"),
    ("x", None, "2"),
    ("g", None, "f"),
    ("z", None, "z [ 0 ]"),
    ("h", None, "g ( ~"),
    ("m", Some("a"), "a ( w )"),
    ("w", None, "0 , 1"),
    ("t", Some("a"), "a"),
    ("p", Some(""), "int"),
    ("q", Some("x"), "x"),
];

/// Texts, and for each its expansion or why and where it is refused.
const ROWS: [(&str, &str); 12] = [
    ("int table [ TABSIZE ] ;", " int table [ 100 ] ;"),
    (
        "max ( u , ( v , s ) )",
        " ( ( u ) > ( ( v , s ) ) ? ( u ) : ( ( v , s ) ) )",
    ),
    (
        "f ( y + 1 ) + f ( f ( z ) ) ;",
        " f ( 2 * ( y + 1 ) ) + f ( 2 * ( f ( 2 * ( z [ 0 ] ) ) ) ) ;",
    ),
    (
        "m ( f ) ^ m ( m ) ;",
        " f ( 2 * ( 0 , 1 ) ) ^ m ( 0 , 1 ) ;",
    ),
    (
        "p ( ) i [ q ( ) ] = { q ( 1 ) , q ( 23 ) , q ( 4 ) , q ( 5 ) , } ;",
        " int i [ ] = { 1 , 23 , 4 , 5 , } ;",
    ),
    // A call that begins in a replacement and goes on behind it, at the outermost name.
    ("f ( 1 ) | g ( x + ( 3 , 4 ) - w )", "spill at 5"),
    ("t ( t ( g ) ( 0 ) + t ) ( 1 ) ;", "spill at 0"),
    ("y h 5 ) ;", "spill at 1"),
    ("return q ( 1 , 2 ) ;", "arguments at 1"),
    ("q ( p ( 1 ) )", "arguments at 0"),
    ("q ( 1 , 2", "unclosed at 0"),
    ("p + ( p )", " p + ( p )"),
];

/// The macros of the examples.
fn bench_of(alloc: Global) -> Result<Bench, Fail> {
    let mut bench = Bench::new(alloc);
    for (name, parameters, list) in &MACROS {
        bench.define(alloc, name, *parameters, list)?;
    }
    Ok(bench)
}

#[test]
fn standard_examples_and_refusals(rt: HostRuntime) -> Result<(), Fail> {
    let alloc = rt.alloc();
    let mut bench = bench_of(alloc)?;
    for (text, wanted) in &ROWS {
        assert!(rt; bench.gives(alloc, text, wanted)?);
    }
    Ok(())
}

/// A call of a macro in a call of it, and so on.
fn nested_calls(
    alloc: Global,
    name: Lexeme,
    word: Lexeme,
    depth: usize,
) -> Result<Vec<Lexeme>, Fail> {
    let mut list = Vec::new(alloc);
    for _ in 0..depth {
        list.push(name)?;
        list.push(Lexeme::Open(mark(0)))?;
    }
    list.push(word)?;
    for _ in 0..depth {
        list.push(Lexeme::Close(mark(0)))?;
    }
    Ok(list)
}

/// Whether that many calls of `q` in one another give one token.
fn expands_to_one(alloc: Global, bench: &mut Bench, depth: usize) -> Result<bool, Fail> {
    let name = bench.word(alloc, "q", mark(0))?;
    let word = bench.word(alloc, "1", mark(0))?;
    let list = nested_calls(alloc, name, word, depth)?;
    match expand_list(alloc, &bench.macros, 0, list.as_slice()) {
        Ok(expansion) => Ok(expansion.words.len() == 1 && expansion.used == depth),
        Err(_) => Ok(false),
    }
}

#[test]
fn forty_thousand_calls_in_one_another(rt: HostRuntime) -> Result<(), Fail> {
    let alloc = rt.alloc();
    let mut bench = bench_of(alloc)?;
    assert!(rt; expands_to_one(alloc, &mut bench, 40000)?);
    Ok(())
}
