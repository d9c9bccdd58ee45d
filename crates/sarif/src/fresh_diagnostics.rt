//! Diagnostics that a baseline does not hold.
ghost use Rattle.std.specs.Prelude.{◌≡◌, List, IfOk, map, string_bytes};
ghost use Rattle.sarif.specs.Comparing.{is_known, fresh_of};
ghost use Rattle.sarif.specs.Keys.{IsKey, Indexes};
ghost use Rattle.sarif.specs.declared.known_results.Known.{Known};

use crate::known_results::Known;
use cc_base::{Diag, Memory, Rule};
use std::alloc::{AllocError, Global};
use std::collections::BTreeSet;

/// What two results agree in where they are the same.
#[derive(Debug, Drop, PartialEq, Eq, PartialOrd, Ord)]
struct Key {
    file: Vec<u8>,
    line: u64,
    col: u64,
    rule: Rule,
}

/// The key of a known result.
fn key_of(alloc: Global, known: &Known) -> Result<Key, AllocError>
    ensures { IfOk result (λ k. IsKey k known.now.file known.now.line known.now.col known.now.rule) }
{
    let file = Vec::from_slice(alloc, known.file.as_bytes())?;
    Ok(Key {
        file,
        line: known.line,
        col: known.col,
        rule: known.rule,
    })
}

/// The key of a diagnostic in a file.
fn diagnostic_key(alloc: Global, file: &str, diag: &Diag) -> Result<Key, AllocError>
    ensures { IfOk result (λ k. IsKey k file.now diag.now.place.line diag.now.place.col diag.now.rule) }
{
    let file = Vec::from_slice(alloc, file.as_bytes())?;
    Ok(Key {
        file,
        line: u64::from(diag.place.line),
        col: u64::from(diag.place.col),
        rule: diag.rule,
    })
}

/// The keys of what is known.
fn keys_of(alloc: Global, known: &[Known]) -> Result<BTreeSet<Key>, AllocError>
    ensures { IfOk result (λ keys. Indexes ⟦<Key as Ord>⟧.cmp keys known.now) }
{
    let mut keys = BTreeSet::new(alloc);
    for entry in known {
        let key = key_of(alloc, entry)?;
        keys.insert(key)?;
    }
    Ok(keys)
}

/// Whether a diagnostic is among the known results whose keys are given.
fn is_known(
    alloc: Global,
    files: &[String],
    keys: &BTreeSet<Key>,
    diag: &Diag,
) -> Result<bool, AllocError>
    ensures { IfOk result (λ b. (known : List Known) → Indexes ⟦<Key as Ord>⟧.cmp keys.now known
        → b ≡ is_known (map string_bytes files.now) known diag.now) }
{
    let Some(file) = files.get(diag.place.file as usize) else {
        return Ok(false);
    };
    let key = diagnostic_key(alloc, file, diag)?;
    Ok(keys.contains(&key))
}

/// The diagnostics, in the order given, whose file name, line, column and rule are those of no known
/// result. Each diagnostic's file is an index into `files`; one that is none is known by nothing.
pub fn fresh(
    alloc: Global,
    files: &[String],
    diags: &[Diag],
    known: &[Known],
) -> Result<Vec<Diag>, Memory>
    ensures { IfOk result (λ v. v.items ≡ fresh_of (map string_bytes files.now) known.now diags.now) }
{
    let keys = keys_of(alloc, known)?;
    let mut fresh = Vec::new(alloc);
    for diag in diags {
        if !is_known(alloc, files, &keys, diag)? {
            fresh.push(*diag)?;
        }
    }
    Ok(fresh)
}
