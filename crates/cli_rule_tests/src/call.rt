//! `check a.c` on a unit in memory.
use cc_base::{MemSink, MemTree};
use cli_answers::answer_words;
use std::alloc::Global;
use std::process::Abort;
use std::test::Fail;

/// A unit, and the status and the text that answer `check a.c` on it.
pub(crate) type Unit = (&'static str, u8, &'static str);

/// The text of an analysis that finds nothing.
pub(crate) const NONE: &str = "0 diagnostics in a.c\n";

/// The status and the bytes that were put.
#[derive(Drop)]
pub(crate) struct Told {
    pub(crate) status: u8,
    pub(crate) text: Vec<u8>,
}

/// What the program answers to `check a.c` on a unit.
pub(crate) fn checked(alloc: Global, source: &str) -> Result<Told, Fail> {
    let mut words = Vec::new(alloc);
    words.push(String::from_str(alloc, "check")?)?;
    words.push(String::from_str(alloc, "a.c")?)?;
    let mut tree = MemTree::new(alloc, Vec::new(alloc));
    tree.add("a.c", source.as_bytes())?;
    let mut sink = MemSink::new(alloc, 65536, None)?;
    let status = answer_words(alloc, words.as_slice(), &mut tree, &mut sink);
    let text = Vec::from_slice(alloc, sink.bytes())?;
    Ok(Told { status, text })
}

/// Fails unless `check a.c` on the unit answers so.
pub(crate) fn check(
    rt: &impl Abort,
    alloc: Global,
    source: &str,
    status: u8,
    text: &str,
) -> Result<(), Fail> {
    let told = checked(alloc, source)?;
    let found = str::from_utf8(told.text.as_slice()).unwrap_or("?");
    assert!(rt;
        told.status == status && told.text.as_slice() == text.as_bytes(),
        "{source}: {found}"
    );
    Ok(())
}

/// Fails unless each unit is answered so.
pub(crate) fn check_all(rt: &impl Abort, alloc: Global, units: &[Unit]) -> Result<(), Fail> {
    for (source, status, text) in units {
        check(rt, alloc, source, *status, text)?;
    }
    Ok(())
}
