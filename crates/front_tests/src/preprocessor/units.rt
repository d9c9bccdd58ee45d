//! What a unit gives, as text.
ghost use Rattle.std.specs.Prelude.{◌≡◌, true};

use c_layout::{Model, Unit7};
use c_preproc::expand;
use cc_base::{Fault, MemTree, Refusal, Stop, Tokens};
use std::alloc::Global;
use std::fmt::Write;
use std::process::Abort;
use std::test::Fail;

fn lp64() -> Model
    ensures { result ≡ record { short = 2; int = 4; long = 8; long_long = 8; pointer = 8; char_signed = true } }
{
    Model {
        short: 2,
        int: 4,
        long: 8,
        long_long: 8,
        pointer: 8,
        char_signed: true,
    }
}

fn word(refusal: &Refusal) -> &'static str {
    match refusal {
        Refusal::BadByte => "BadByte",
        Refusal::OpenComment => "OpenComment",
        Refusal::OpenLiteral => "OpenLiteral",
        Refusal::TooManyTokens { .. } => "TooManyTokens",
        Refusal::HeaderMissing(_) => "HeaderMissing",
        Refusal::BadDirective => "BadDirective",
        Refusal::UnevenConditional => "UnevenConditional",
        Refusal::ErrorDirective => "ErrorDirective",
        Refusal::MacroSpill => "MacroSpill",
        Refusal::MacroArguments => "MacroArguments",
        Refusal::IncludeDepth => "IncludeDepth",
        Refusal::MacroRedefined => "MacroRedefined",
        Refusal::FileTooLong { .. } => "FileTooLong",
        Refusal::NumberForm => "NumberForm",
        _ => "another",
    }
}

/// The tokens with a blank before each.
fn spelled(alloc: Global, tokens: &Tokens) -> Result<String, Fail> {
    let mut text = String::new(alloc);
    for token in tokens.as_slice() {
        let spelling = str::from_utf8(token.text.as_bytes()).unwrap_or("?");
        write!(text, " {spelling}")?;
    }
    Ok(text)
}

/// A refusal as it is printed, with its counts.
fn printed(alloc: Global, files: &[String], fault: &Fault) -> Result<String, Fail> {
    let name = match files.get(fault.place.file as usize) {
        None => "?",
        Some(name) => name.as_str(),
    };
    let line = fault.place.line;
    let column = fault.place.col;
    let why = word(&fault.refusal);
    let mut text = format!(in alloc; "{name}:{line}:{column}: {why}")?;
    match &fault.refusal {
        Refusal::TooManyTokens { count, limit } => write!(text, " {count}/{limit}")?,
        Refusal::HeaderMissing(header) => {
            let header = str::from_utf8(header.as_bytes()).unwrap_or("?");
            write!(text, " {header}")?;
        }
        _ => {}
    }
    Ok(text)
}

fn shown(alloc: Global, files: &[String], answer: Result<Unit7, Stop>) -> Result<String, Fail> {
    match answer {
        Ok(unit) => spelled(alloc, &unit.tokens),
        Err(Stop::Refused(fault)) => printed(alloc, files, &fault),
        Err(Stop::NotHeld) => Ok(String::from_str(alloc, "not held")?),
        Err(Stop::ReadFault) => Ok(String::from_str(alloc, "read fault")?),
        Err(Stop::Memory) => Ok(String::from_str(alloc, "no memory")?),
    }
}

/// What the unit `a.c` of a tree gives.
fn unit_of(alloc: Global, tree: &mut MemTree) -> Result<String, Fail> {
    let mut dirs = Vec::new(alloc);
    dirs.push(String::from_str(alloc, "inc")?)?;
    let mut files = Vec::new(alloc);
    let model = lp64();
    let answer = expand(alloc, tree, "a.c", dirs.as_slice(), &model, &mut files);
    shown(alloc, files.as_slice(), answer)
}

/// Fails unless the unit `a.c` gives this.
pub fn expect(rt: &impl Abort, alloc: Global, text: &str, wanted: &str) -> Result<(), Fail> {
    let mut tree = MemTree::new(alloc, Vec::new(alloc));
    tree.add("a.c", text.as_bytes())?;
    let found = unit_of(alloc, &mut tree)?;
    assert!(rt; found.as_str() == wanted, "{found}");
    Ok(())
}

/// A file beside `a.c`: its name and its text.
pub type File = (&'static str, &'static str);

/// Fails unless `a.c` gives this beside another file.
pub fn expect_with(
    rt: &impl Abort,
    alloc: Global,
    file: File,
    text: &str,
    wanted: &str,
) -> Result<(), Fail> {
    let mut tree = MemTree::new(alloc, Vec::new(alloc));
    tree.add(file.0, file.1.as_bytes())?;
    tree.add("a.c", text.as_bytes())?;
    let found = unit_of(alloc, &mut tree)?;
    assert!(rt; found.as_str() == wanted, "{found}");
    Ok(())
}

/// Fails unless each unit gives its text.
pub fn expect_all(rt: &impl Abort, alloc: Global, units: &[(&str, &str)]) -> Result<(), Fail> {
    for (text, wanted) in units {
        expect(rt, alloc, text, wanted)?;
    }
    Ok(())
}
