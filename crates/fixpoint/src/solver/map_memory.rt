//! The memory of a map.
ghost use Rattle.std.specs.Prelude.{◌≡◌, ℕ, IfOk, None, slice_index_or};
ghost use Rattle.std.proofs.Common.{replicate};

use crate::pool::Row;
use cc_base::Memory;
use std::alloc::Global;

/// A map of None for each of `blocks` blocks. `Memory` where memory is short.
pub fn new_map(alloc: Global, blocks: u32) -> Result<Vec<Option<Row>>, Memory>
    ensures { IfOk result (λ map. map.items ≡ replicate blocks None) }
{
    let mut map = Vec::with_capacity(alloc, blocks as usize)?;
    for _block in 0..blocks {
        match map.push(None) {
            Ok(()) => {}
            Err(_) => unreachable!(),
        }
    }
    Ok(map)
}

/// Lets a map go that holds no row.
pub fn drop_map(map: Vec<Option<Row>>)
    requires { (b : ℕ) → slice_index_or map.items b None ≡ None }
{
    let mut map = map;
    while let Some(slot) = map.pop() {
        match slot {
            None => {}
            Some(_) => unreachable!(),
        }
    }
    map.destroy_empty();
}
