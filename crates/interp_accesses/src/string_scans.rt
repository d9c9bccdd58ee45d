//! The lengths of strings.
ghost use Rattle.std.specs.Prelude.{◌≡◌, ◌-◌, [], ℕ};
ghost use Rattle.memory_model.specs.Effects.LibraryChecks as machine;
ghost use Rattle.memory_model.specs.Effects.ScalarBytes.{contents};
ghost use Rattle.interp_memory.specs.ByteViews.{bytes_view};
ghost use Rattle.interp_accesses.specs.WorldViews.{world_view, ComesTo};
ghost use Rattle.interp_accesses.specs.Reaches.{reach_view};
ghost use Rattle.interp_accesses.specs.Scans.{scan_view, behind_characters};

use crate::library_checks::Reach;
use crate::worlds::{Cause, Halt, World7};
use cc_base::Rule;
use interp_memory::{Byte7, Content7};

/// What a string comes to.
#[derive(Clone, Copy)]
pub(crate) enum Scan {
    /// A zero byte behind so many characters.
    Ends(u64),
    /// No zero byte before an indeterminate one or the end.
    Unended,
    /// A part of a pointer, which is no character.
    Broken,
}

/// What the string comes to that begins with these bytes.
fn scanned(bytes: &[Byte7]) -> Scan
    ensures { scan_view result ≡ machine.scanned (contents (bytes_view bytes.now)) }
{
    for (k, byte) in bytes.iter().enumerate() {
        match byte.content {
            Content7::Blank => return Scan::Unended,
            Content7::Part(_, _) => return Scan::Broken,
            Content7::Number(n, _) => {
                if n == 0 {
                    return Scan::Ends(k as u64);
                }
            }
        }
    }
    Scan::Unended
}

/// The length of the string that a pointer reaches.
pub fn string_length(w: &mut World7, reach: Reach) -> Result<u64, Halt>
    ensures { ComesTo (λ (n : ℕ). n) (machine.string_length (reach_view reach) (world_view w.old)) result (world_view w.new) }
{
    match scanned(w.memory.region(reach.spot, reach.room)) {
        Scan::Ends(n) => Ok(n),
        Scan::Unended => Err(w.stopped_by(Rule::Nonnullcs)),
        Scan::Broken => Err(Halt::Stops(Cause::Left)),
    }
}

/// What the first so many bytes come to as a string; a zero byte or their end ends it.
fn scanned_first(bytes: &[Byte7], size: u128) -> Scan
    ensures { scan_view result ≡ machine.scanned_first size (contents (bytes_view bytes.now)) }
{
    for (k, byte) in bytes.iter().enumerate() {
        let at = k as u64;
        if size <= u128::from(at) {
            return Scan::Ends(at);
        }
        match byte.content {
            Content7::Blank => return Scan::Unended,
            Content7::Part(_, _) => return Scan::Broken,
            Content7::Number(n, _) => {
                if n == 0 {
                    return Scan::Ends(at);
                }
            }
        }
    }
    end_at(bytes.len() as u64, size)
}

// A string that no zero byte ends before the end of so many bytes.
fn end_at(room: u64, size: u128) -> Scan
    ensures { scan_view result ≡ behind_characters room (machine.scanned_first (size - room) []) }
{
    if size <= u128::from(room) {
        Scan::Ends(room)
    } else {
        Scan::Unended
    }
}

/// The length of the string that a pointer reaches, as far as its first so many bytes.
pub fn length_within(w: &mut World7, size: u128, reach: Reach) -> Result<u64, Halt>
    ensures { ComesTo (λ (n : ℕ). n) (machine.length_within size (reach_view reach) (world_view w.old)) result (world_view w.new) }
{
    match scanned_first(w.memory.region(reach.spot, reach.room), size) {
        Scan::Ends(n) => Ok(n),
        Scan::Unended => Err(w.stopped_by(Rule::Nonnullcs)),
        Scan::Broken => Err(Halt::Stops(Cause::Left)),
    }
}
