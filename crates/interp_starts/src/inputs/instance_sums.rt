//! How many bytes all instances may have together.
ghost use Rattle.std.specs.Prelude.{◌+◌, ◌≤◌, IfOk, IfErr};
ghost use Rattle.memory_model.specs.Memory.Instances.{total_size};
ghost use Rattle.interp_starts.specs.Inputs.Sums.{most_bytes, PassesBy};

use interp_accesses::{Cause, Halt, World7};

/// The most bytes that all instances have together.
pub const MOST_BYTES: u64 = 4_194_304;

/// A run is followed no further.
#[derive(Clone, Copy)]
pub enum StartStop {
    Stops(Cause),
    /// All instances together have so many bytes, up to the one with which they pass the most.
    Large(u128),
    /// Want of memory.
    Memory,
}

/// Whether another instance of so many bytes may be made.
pub fn may_make(w: &World7, size: u128) -> Result<(), StartStop>
    ensures within { IfOk result (λ _. total_size w.now.memory.memory + size ≤ most_bytes) }
    ensures passes { IfErr result (PassesBy (total_size w.now.memory.memory) size) }
{
    let made = u128::from(w.memory.total());
    let most = u128::from(MOST_BYTES);
    if made > most {
        return Err(StartStop::Memory);
    }
    match made.checked_add(size) {
        Some(sum) => {
            if sum <= most {
                Ok(())
            } else {
                Err(StartStop::Large(sum))
            }
        }
        None => Err(StartStop::Memory),
    }
}

impl From<Halt> for StartStop {
    ghost use Rattle.std.specs.Prelude.{◌≡◌};
    ghost use Rattle.interp_starts.specs.Inputs.Sums.{stop_by};

    ghost from_gives = { λ halt stop. stop ≡ stop_by halt };

    fn from(halt: Halt) -> StartStop {
        match halt {
            Halt::Stops(cause) => StartStop::Stops(cause),
            Halt::Memory => StartStop::Memory,
        }
    }
}
