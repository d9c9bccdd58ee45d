//! Bytes that are written with their tags.
ghost use Rattle.std.specs.Prelude.{◌≡◌, slice_get};
ghost use Rattle.interp_memory.specs.ByteViews.{bytes_view};
ghost use Rattle.interp_memory.specs.AccessOutcomes.{spot_view};
ghost use Rattle.interp_accesses.specs.WorldViews.{world_view, Leaves};
ghost use Rattle.interp_library.specs.Memory.Regions.{region_written};

use interp_accesses::{Halt, World7};
use interp_memory::{Byte7, Spot};

/// Writes bytes with their tags. A place that passes the end comes to want of memory, since no pointer
/// reaches so far.
pub(crate) fn write_at(w: &mut World7, to: Spot, bytes: &[Byte7]) -> Result<(), Halt>
    ensures { Leaves (region_written (world_view w.old) (spot_view to) (bytes_view bytes.now)) result (world_view w.new) }
{
    let end = u128::from(to.offset) + bytes.len() as u128;
    if end > u128::from(w.memory.size(to.inst)) {
        return Err(Halt::Memory);
    }
    w.memory.replace(to, bytes);
    Ok(())
}

/// The byte at a place of a list, where there is one.
pub(crate) fn byte_at(bytes: &[Byte7], at: usize) -> Option<Byte7>
    ensures { result ≡ slice_get bytes.now at }
{
    match bytes.get(at) {
        Some(byte) => Some(*byte),
        None => None,
    }
}
