//! The control-flow program of a unit, as text.
use crate::program_text::program_text;
use c_layout::{Checked, Model, Unit7};
use c_parser::parse;
use c_preproc::expand_bytes;
use c_types::units::check;
use cc_base::{Limits, MemTree, Stop};
use lower::inlining::lower;
use std::alloc::Global;
use std::process::Abort;
use std::test::Fail;

const LP64: Model = Model {
    short: 2,
    int: 4,
    long: 8,
    long_long: 8,
    pointer: 8,
    char_signed: true,
};

fn expanded(alloc: Global, unit: &str) -> Result<Unit7, Stop> {
    let mut tree = MemTree::new(alloc, Vec::new(alloc));
    let mut files = Vec::new(alloc);
    let bytes = unit.as_bytes();
    if bytes.len() > 4096 {
        return Err(Stop::NotHeld);
    }
    expand_bytes(alloc, &mut tree, "a.c", bytes, &[], &LP64, &mut files)
}

fn checked(alloc: Global, unit: &str) -> Result<Checked, Stop> {
    let unit = expanded(alloc, unit)?;
    let tree = parse(alloc, &unit)?;
    check(alloc, &tree, &LP64, "main")
}

fn lowered(alloc: Global, unit: &str) -> Result<String, Stop> {
    let unit = checked(alloc, unit)?;
    let flow = lower(alloc, &unit, &Limits::standard())?;
    Ok(program_text(alloc, &flow)?)
}

/// The text of the program of a unit; `refused` where it has none.
fn dump(alloc: Global, unit: &str) -> Result<String, Fail> {
    match lowered(alloc, unit) {
        Ok(text) => Ok(text),
        Err(_) => Ok(String::from_str(alloc, "refused")?),
    }
}

/// Fails unless the text of the program of a unit is this one.
pub fn dumps_to(rt: &impl Abort, alloc: Global, unit: &str, wanted: &str) -> Result<(), Fail> {
    let made = dump(alloc, unit)?;
    assert_eq!(rt; made.as_str(), wanted);
    Ok(())
}
