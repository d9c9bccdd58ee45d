//! `strcmp` (7.24.4.2 of ISO/IEC 9899:2011).
ghost use Rattle.std.specs.Prelude.{◌≡◌, [], ◌∷◌, ℤ};
ghost use Rattle.memory_model.specs.Effects.ScalarBytes.{contents};
ghost use Rattle.memory_model.specs.Effects.StringCalls as machine;
ghost use Rattle.interp_memory.specs.ByteViews.{bytes_view, content_view, pointer_view, scalar_view};
ghost use Rattle.interp_accesses.specs.WorldViews.{world_view, ComesTo};

use crate::strings::copies::with_zero;
use interp_accesses::{Cause, Halt, World7, reached, string_length};
use interp_memory::{Byte7, Content7, Pointer7, Value7, unlabelled};

// The character that a byte is.
fn character_of(content: Content7) -> u8
    ensures { result ≡ machine.character_of (content_view content) }
{
    match content {
        Content7::Number(n, _) => n,
        Content7::Blank | Content7::Part(_, _) => 0,
    }
}

// The order of two texts: the first bytes that differ decide.
fn order_in(left: &[Byte7], right: &[Byte7]) -> i128
    ensures { result ≡ machine.order_in (contents (bytes_view left.now)) (contents (bytes_view right.now)) }
{
    let count = left.len().min(right.len());
    for k in 0..count {
        let a = character_of(left[k].content);
        let b = character_of(right[k].content);
        if a < b {
            return -1;
        }
        if b < a {
            return 1;
        }
    }
    0
}

// `strcmp` of two pointers.
fn compare_strings(w: &mut World7, p: Pointer7, q: Pointer7) -> Result<Value7, Halt>
    ensures { ComesTo scalar_view (machine.compare_strings (pointer_view p) (pointer_view q) (world_view w.old)) result (world_view w.new) }
{
    let a = reached(w, p)?;
    let b = reached(w, q)?;
    let m = string_length(w, a)?;
    let n = string_length(w, b)?;
    let m = with_zero(m)?;
    let n = with_zero(n)?;
    let order = order_in(w.memory.region(a.spot, m), w.memory.region(b.spot, n));
    Ok(Value7::Int(order, unlabelled()))
}

/// `strcmp`.
pub fn strcmp(w: &mut World7, left: Value7, right: Value7) -> Result<Value7, Halt>
    ensures { ComesTo scalar_view (machine.strcmp (scalar_view left ∷ (scalar_view right ∷ [])) (world_view w.old)) result (world_view w.new) }
{
    match (left, right) {
        (Value7::Ptr(p), Value7::Ptr(q)) => compare_strings(w, p, q),
        (Value7::Ptr(_), Value7::Int(_, _)) => Err(Halt::Stops(Cause::Stuck)),
        (Value7::Int(_, _), _) => Err(Halt::Stops(Cause::Stuck)),
    }
}
