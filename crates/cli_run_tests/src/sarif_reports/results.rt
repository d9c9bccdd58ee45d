//! Diagnostics and known results, as text.
use cc_base::{Diag, Place, Rule};
use sarif::{BaseFault, Known, read_sarif};
use std::alloc::Global;
use std::fmt::Write;
use std::process::Abort;
use std::test::Fail;

/// An index into the list of files, a line, a column and a rule.
pub type Found = (u32, u32, u32, Rule);

/// The names of files.
pub fn names(alloc: Global, files: &[&str]) -> Result<Vec<String>, Fail> {
    let mut list = Vec::new(alloc);
    for name in files {
        list.push(String::from_str(alloc, name)?)?;
    }
    Ok(list)
}

/// Diagnostics.
pub fn diagnostics(alloc: Global, found: &[Found]) -> Result<Vec<Diag>, Fail> {
    let mut list = Vec::new(alloc);
    for (file, line, col, rule) in found {
        let place = Place {
            file: *file,
            line: *line,
            col: *col,
        };
        list.push(Diag { place, rule: *rule })?;
    }
    Ok(list)
}

/// Known results, each as FILE:LINE:COL:TAG and a blank.
fn known_text(alloc: Global, known: &[Known]) -> Result<String, Fail> {
    let mut text = String::new(alloc);
    for entry in known {
        let file = str::from_utf8(entry.file.as_bytes()).unwrap_or("?");
        let line = entry.line;
        let col = entry.col;
        let tag = entry.rule.tag();
        write!(text, "{file}:{line}:{col}:{tag} ")?;
    }
    Ok(text)
}

/// What bytes say is known, as text.
pub fn baseline_text(alloc: Global, bytes: &[u8]) -> Result<String, Fail> {
    match read_sarif(alloc, bytes) {
        Ok(known) => known_text(alloc, known.as_slice()),
        Err(BaseFault::Shape) => Ok(String::from_str(alloc, "shape")?),
        Err(BaseFault::Memory) => Ok(String::from_str(alloc, "memory")?),
    }
}

/// Fails unless each text says that these are known.
pub fn expect_known(rt: &impl Abort, alloc: Global, rows: &[(&str, &str)]) -> Result<(), Fail> {
    for (text, wanted) in rows {
        let found = baseline_text(alloc, text.as_bytes())?;
        assert!(rt; found.as_str() == *wanted, "{text} {found}");
    }
    Ok(())
}
