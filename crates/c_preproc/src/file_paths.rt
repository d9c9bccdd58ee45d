//! The names under which an included file is searched (6.10.2).
ghost use Rattle.std.specs.Prelude.{◌≡◌, ◌≤◌, ◌++◌, ◌∷◌, [], ℕ, Option, None, Some, true, length, map, string_bytes, option_map, slice_get, IfOk, IfErr, IfSome, MatchOption};
ghost use Rattle.c_preproc.specs.Searching.{slash_end, directory_of, in_directory, beside, searched_names};

use cc_base::Memory;
use std::alloc::Global;

/// The length of a name up to its last `/`, with it.
fn directory_length(name: &[u8]) -> usize
    ensures value { result ≡ slash_end 0 0 name.now }
    ensures within { result ≤ length name.now }
{
    let mut last = 0;
    for (at, b) in name.iter().enumerate() {
        if *b == b'/' {
            last = at + 1;
        }
    }
    last
}

/// A name up to its last `/`, with it; empty where there is none.
#[tactic(auto, unfolding(crate::specs::Searching::directory_of))]
fn directory_of(name: &[u8]) -> &[u8]
    ensures { result.now ≡ directory_of name.now }
{
    name.split_at(directory_length(name)).0
}

/// Two texts as one, where they are one text.
fn joined(alloc: Global, front: &[u8], back: &[u8]) -> Result<String, Memory>
    ensures { IfOk result (λ s. string_bytes s ≡ front.now ++ back.now) }
{
    let mut bytes = Vec::from_slice(alloc, front)?;
    bytes.extend_from_slice(back)?;
    match String::from_utf8(bytes) {
        Ok(text) => Ok(text),
        Err(_) => Err(Memory),
    }
}

/// The name of a file in a directory.
fn path_in(alloc: Global, dir: &str, name: &str) -> Result<String, Memory>
    ensures { IfOk result (λ s. string_bytes s ≡ in_directory name.now dir.now) }
{
    let mut behind = Vec::new(alloc);
    behind.push(b'/')?;
    behind.extend_from_slice(name.as_bytes())?;
    joined(alloc, dir.as_bytes(), behind.as_slice())
}

/// The names that are tried in turn.
pub fn candidates(
    alloc: Global,
    includer: Option<&str>,
    dirs: &[String],
    name: &str,
) -> Result<Vec<String>, Memory>
    ensures { IfOk result (λ v. map string_bytes v.items ≡ searched_names (option_map (λ s. s.now) includer.entry) (map string_bytes dirs.now) name.now) }
{
    let mut names = Vec::new(alloc);
    if let Some(includer) = includer {
        names.push(joined(alloc, directory_of(includer.as_bytes()), name.as_bytes())?)?;
    }
    for dir in dirs {
        names.push(path_in(alloc, dir.as_str(), name)?)?;
    }
    Ok(names)
}
