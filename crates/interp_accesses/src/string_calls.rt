//! Functions on strings that change nothing (7.21.7.9 and 7.24.6.3 of ISO/IEC 9899:2011).
ghost use Rattle.std.specs.Prelude.{◌≡◌, pos, ℕ, [], ◌∷◌, map};
ghost use Rattle.memory_model.specs.Memory.Scalars.{pointer};
ghost use Rattle.memory_model.specs.Effects.StringCalls as machine;
ghost use Rattle.memory_model.specs.Effects.LibraryCalls as calls;
ghost use Rattle.interp_memory.specs.ByteViews.{pointer_view, scalar_view};
ghost use Rattle.interp_accesses.specs.WorldViews.{world_view, ComesTo};

use crate::library_checks::reached;
use crate::string_scans::string_length;
use crate::worlds::{Cause, Halt, World7};
use interp_memory::{Pointer7, Value7, unlabelled};

// A number without labels.
fn plain(number: u64) -> Value7
    ensures { scalar_view result ≡ machine.plain (pos number) }
{
    Value7::Int(i128::from(number), unlabelled())
}

// The length of the string that a pointer points to.
fn length_at(w: &mut World7, p: Pointer7) -> Result<Value7, Halt>
    ensures { ComesTo scalar_view (machine.strlen (pointer (pointer_view p) ∷ []) (world_view w.old)) result (world_view w.new) }
{
    let reach = reached(w, p)?;
    let length = string_length(w, reach)?;
    Ok(plain(length))
}

/// `strlen`.
pub fn strlen(w: &mut World7, arguments: &[Value7]) -> Result<Value7, Halt>
    ensures { ComesTo scalar_view (machine.strlen (map scalar_view arguments.now) (world_view w.old)) result (world_view w.new) }
{
    match arguments {
        [Value7::Ptr(p)] => length_at(w, *p),
        _ => Err(Halt::Stops(Cause::Stuck)),
    }
}

// `puts` of the string that a pointer points to.
fn put_string(w: &mut World7, p: Pointer7) -> Result<Value7, Halt>
    ensures { ComesTo scalar_view (calls.puts (pointer (pointer_view p) ∷ []) (world_view w.old)) result (world_view w.new) }
{
    let reach = reached(w, p)?;
    string_length(w, reach)?;
    Ok(plain(0))
}

/// `puts`.
pub fn puts(w: &mut World7, arguments: &[Value7]) -> Result<Value7, Halt>
    ensures { ComesTo scalar_view (calls.puts (map scalar_view arguments.now) (world_view w.old)) result (world_view w.new) }
{
    match arguments {
        [Value7::Ptr(p)] => put_string(w, *p),
        _ => Err(Halt::Stops(Cause::Stuck)),
    }
}
