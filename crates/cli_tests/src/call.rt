//! One call of the program over files in memory.
use cc_base::{MemSink, MemTree};
use cli_answers::answer_words;
use std::alloc::Global;
use std::process::Abort;
use std::test::Fail;

/// The name and the text of each file.
pub(crate) type Files = &'static [(&'static str, &'static str)];

/// Files, the words of a call that blanks set apart, and the status and the text that answer it.
pub(crate) type Call = (Files, &'static str, u8, &'static str);

/// A unit, and the status and the text that answer `check a.c` on it.
pub(crate) type Unit = (&'static str, u8, &'static str);

/// The text of an analysis that finds nothing.
pub(crate) const NONE: &str = "0 diagnostics in a.c\n";

/// The status and the bytes that were put.
#[derive(Drop)]
pub(crate) struct Told {
    pub(crate) status: u8,
    pub(crate) text: Vec<u8>,
}

/// Files, and the bytes that the sink takes.
#[derive(Drop)]
pub(crate) struct Setting {
    pub(crate) tree: MemTree,
    pub(crate) most: Option<usize>,
}

/// A setting with these files.
pub(crate) fn with_files(alloc: Global, files: &[(&str, &str)]) -> Result<Setting, Fail> {
    let mut tree = MemTree::new(alloc, Vec::new(alloc));
    for (name, text) in files {
        tree.add(name, text.as_bytes())?;
    }
    Ok(Setting { tree, most: None })
}

/// A setting whose only file is `a.c`.
pub(crate) fn with_unit(alloc: Global, bytes: &[u8]) -> Result<Setting, Fail> {
    let mut tree = MemTree::new(alloc, Vec::new(alloc));
    tree.add("a.c", bytes)?;
    Ok(Setting { tree, most: None })
}

/// What the program answers to words that blanks set apart.
pub(crate) fn call(alloc: Global, words: &str, setting: Setting) -> Result<Told, Fail> {
    let mut list = Vec::new(alloc);
    for word in words.split(' ') {
        list.push(String::from_str(alloc, word)?)?;
    }
    let mut tree = setting.tree;
    let mut sink = MemSink::new(alloc, 65536, setting.most)?;
    let status = answer_words(alloc, list.as_slice(), &mut tree, &mut sink);
    let text = Vec::from_slice(alloc, sink.bytes())?;
    Ok(Told { status, text })
}

/// Whether the program answered so.
pub(crate) fn is(told: &Told, status: u8, text: &str) -> bool {
    told.status == status && told.text.as_slice() == text.as_bytes()
}

/// What the program answers to `check a.c` on a unit.
pub(crate) fn checked(alloc: Global, source: &str) -> Result<Told, Fail> {
    call(alloc, "check a.c", with_unit(alloc, source.as_bytes())?)
}

/// Fails unless `check a.c` on the unit answers so.
pub(crate) fn check(
    rt: &impl Abort,
    alloc: Global,
    source: &str,
    status: u8,
    text: &str,
) -> Result<(), Fail> {
    let told = checked(alloc, source)?;
    let found = str::from_utf8(told.text.as_slice()).unwrap_or("?");
    assert!(rt; is(&told, status, text), "{source}: {found}");
    Ok(())
}

/// Fails unless each unit is answered so.
pub(crate) fn check_all(rt: &impl Abort, alloc: Global, units: &[Unit]) -> Result<(), Fail> {
    for (source, status, text) in units {
        check(rt, alloc, source, *status, text)?;
    }
    Ok(())
}

/// Fails unless the words over the files are answered so.
pub(crate) fn answer(
    rt: &impl Abort,
    alloc: Global,
    words: &str,
    setting: Setting,
    status: u8,
    text: &str,
) -> Result<(), Fail> {
    let told = call(alloc, words, setting)?;
    let found = str::from_utf8(told.text.as_slice()).unwrap_or("?");
    assert!(rt; is(&told, status, text), "{words}: {found}");
    Ok(())
}

/// Fails unless each call is answered so.
pub(crate) fn answer_all(rt: &impl Abort, alloc: Global, calls: &[Call]) -> Result<(), Fail> {
    for (files, words, status, text) in calls {
        answer(rt, alloc, words, with_files(alloc, files)?, *status, text)?;
    }
    Ok(())
}
