//! One call of the program over files in memory.
use cc_base::{MemSink, MemTree};
use cli_answers::answer_words;
use std::alloc::Global;
use std::process::Abort;
use std::test::Fail;

/// A tree with these files, of which these calls of `read` fail.
pub(crate) fn with_files(
    alloc: Global,
    failing: Vec<u64>,
    files: &[(&str, &str)],
) -> Result<MemTree, Fail> {
    let mut tree = MemTree::new(alloc, failing);
    for (name, text) in files {
        tree.add(name, text.as_bytes())?;
    }
    Ok(tree)
}

/// Fails unless the program answers so to words that blanks set apart.
pub(crate) fn answer(
    rt: &impl Abort,
    alloc: Global,
    words: &str,
    tree: MemTree,
    status: u8,
    text: &str,
) -> Result<(), Fail> {
    let mut list = Vec::new(alloc);
    for word in words.split(' ') {
        list.push(String::from_str(alloc, word)?)?;
    }
    let mut tree = tree;
    let mut sink = MemSink::new(alloc, 65536, None)?;
    let told = answer_words(alloc, list.as_slice(), &mut tree, &mut sink);
    let found = str::from_utf8(sink.bytes()).unwrap_or("?");
    assert!(rt; told == status && found == text, "{words}: {found}");
    Ok(())
}
