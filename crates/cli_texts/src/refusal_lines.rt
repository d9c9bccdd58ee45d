//! The line of a refusal.
ghost use Rattle.std.specs.Prelude.{◌≡◌, ◌++◌, IfOk, codes, string_bytes};
ghost use Rattle.std.specs.Fmt.{decimal};
ghost use Rattle.cli_texts.specs.Refusals.{refused_line, named_line, limit_line, large_line, is_plain, detailed_line, refusal_line, refusal_status};

use crate::answers::Answer;
use crate::refusal_words::{count_word, word_of};
use cc_base::{Fault, Memory, Place, Refusal};
use std::alloc::{AllocError, Global};

/// `FILE:LINE:COL: refused: WORD`
fn refused_line(alloc: Global, file: &str, place: Place, word: &str) -> Result<Vec<u8>, AllocError>
    ensures { IfOk result (λ b. b.items ≡ refused_line file.now place word.now) }
{
    let line = place.line;
    let col = place.col;
    let text = format!(in alloc; "{file}:{line}:{col}: refused: {word}\n")?;
    Vec::from_slice(alloc, text.as_bytes())
}

/// `FILE:LINE:COL: refused: WORD NAME`
fn named_line(
    alloc: Global,
    file: &str,
    place: Place,
    word: &str,
    name: &[u8],
) -> Result<Vec<u8>, AllocError>
    ensures { IfOk result (λ b. b.items ≡ named_line file.now place word.now name.now) }
{
    let line = place.line;
    let col = place.col;
    let start = format!(in alloc; "{file}:{line}:{col}: refused: {word} ")?;
    let mut text = Vec::from_slice(alloc, start.as_bytes())?;
    text.extend_from_slice(name)?;
    text.push(b'\n')?;
    Ok(text)
}

/// `FILE:LINE:COL: limit: WORD COUNT/LIMIT`
fn limit_line(
    alloc: Global,
    file: &str,
    place: Place,
    word: &str,
    count: u128,
    limit: u64,
) -> Result<Vec<u8>, AllocError>
    ensures { IfOk result (λ b. b.items ≡ limit_line file.now place word.now count limit) }
{
    let line = place.line;
    let col = place.col;
    let text = format!(in alloc; "{file}:{line}:{col}: limit: {word} {count}/{limit}\n")?;
    Vec::from_slice(alloc, text.as_bytes())
}

/// `FILE:LINE:COL: limit: TooLarge WHAT COUNT/LIMIT`
fn large_line(
    alloc: Global,
    file: &str,
    place: Place,
    what: &str,
    count: u64,
    limit: u64,
) -> Result<Vec<u8>, AllocError>
    ensures { IfOk result (λ b. b.items ≡ large_line file.now place what.now count limit) }
{
    let line = place.line;
    let col = place.col;
    let text = format!(in alloc; "{file}:{line}:{col}: limit: TooLarge {what} {count}/{limit}\n")?;
    Vec::from_slice(alloc, text.as_bytes())
}

/// 8 for a limit, 2 for every other refusal.
fn refusal_status(refusal: &Refusal) -> u8
    ensures { result ≡ refusal_status refusal.now }
{
    match refusal {
        Refusal::TooManyTokens { count: _, limit: _ }
        | Refusal::FileTooLong { count: _, limit: _ }
        | Refusal::TooLarge {
            what: _,
            count: _,
            limit: _,
        } => 8,
        _ => 2,
    }
}

/// Whether the line has the word alone: no name and no counts.
fn is_plain(refusal: &Refusal) -> bool
    ensures { result ≡ is_plain refusal.now }
{
    match refusal {
        Refusal::TooManyTokens { count: _, limit: _ }
        | Refusal::FileTooLong { count: _, limit: _ }
        | Refusal::TooLarge {
            what: _,
            count: _,
            limit: _,
        }
        | Refusal::HeaderMissing(_)
        | Refusal::Unsupported(_) => false,
        _ => true,
    }
}

/// The line of a refusal with a name or with counts.
fn detailed_line(
    alloc: Global,
    file: &str,
    place: Place,
    refusal: &Refusal,
) -> Result<Vec<u8>, AllocError>
    ensures { IfOk result (λ b. b.items ≡ detailed_line file.now place refusal.now) }
{
    let word = word_of(refusal);
    match refusal {
        Refusal::TooManyTokens { count, limit } => {
            limit_line(alloc, file, place, word, u128::from(*count), *limit)
        }
        Refusal::FileTooLong { count, limit } => {
            limit_line(alloc, file, place, word, u128::from(*count), *limit)
        }
        Refusal::TooLarge { what, count, limit } => {
            large_line(alloc, file, place, count_word(*what), *count, *limit)
        }
        Refusal::HeaderMissing(name) => named_line(alloc, file, place, word, name.as_bytes()),
        Refusal::Unsupported(name) => named_line(alloc, file, place, word, name.as_bytes()),
        _ => Ok(Vec::new(alloc)),
    }
}

/// The line that a refusal in a file prints.
fn refusal_line(
    alloc: Global,
    file: &str,
    place: Place,
    refusal: &Refusal,
) -> Result<Vec<u8>, AllocError>
    ensures { IfOk result (λ b. b.items ≡ refusal_line file.now place refusal.now) }
{
    if is_plain(refusal) {
        return refused_line(alloc, file, place, word_of(refusal));
    }
    detailed_line(alloc, file, place, refusal)
}

/// A run whose instances have together more bytes than it may have, with how many they have, at the place of its
/// entry in a file.
pub fn replay_memory(
    alloc: Global,
    file: &str,
    place: Place,
    count: u128,
    limit: u64,
) -> Result<Answer, Memory>
    ensures status { IfOk result (λ a. a.status ≡ 8) }
    ensures text { IfOk result (λ a. a.text.items ≡ limit_line file.now place (codes "ReplayMemory") count limit) }
{
    let text = limit_line(alloc, file, place, "ReplayMemory", count, limit)?;
    Ok(Answer { status: 8, text })
}

/// The status and the line of a refusal in a file.
pub fn refusal_answer(alloc: Global, file: &str, fault: &Fault) -> Result<Answer, Memory>
    ensures status { IfOk result (λ a. a.status ≡ refusal_status fault.now.refusal) }
    ensures text { IfOk result (λ a. a.text.items ≡ refusal_line file.now fault.now.place fault.now.refusal) }
{
    let text = refusal_line(alloc, file, fault.place, &fault.refusal)?;
    let status = refusal_status(&fault.refusal);
    Ok(Answer { status, text })
}
