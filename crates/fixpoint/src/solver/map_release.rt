//! The end of a map.
ghost use Rattle.std.specs.Prelude.{◌≡◌, ◌≢◌, ◌+◌, ◌<◌, ℕ, true, length, count_by, Some, None, [], ◌∷◌};
ghost use Rattle.std.proofs.Common.{replicate};
ghost use Rattle.fixpoint.specs.Pool.Pool.{IsTaken, free_count};
ghost use Rattle.fixpoint.specs.Solver.RowMap.{slot_index, index_at, is_held, IsHeld};

use crate::pool::{Row, RowPool};

/// Gives all rows of the map back to their pool.
pub fn release<V: Copy>(pool: &mut RowPool<V>, map: &mut [Option<Row>])
    requires { IsHeld pool.old map.old }
    ensures vacant { map.new ≡ replicate (length map.old) None }
    ensures room { free_count pool.new ≡ free_count pool.old + count_by is_held map.old }
    ensures others { (s : ℕ) → IsTaken pool.old s → ((b : ℕ) → index_at map.old b ≡ Some s → ⊥) → IsTaken pool.new s }
    ensures width { pool.new.width ≡ pool.old.width }
    ensures cells { pool.new.cells ≡ pool.old.cells }
{
    for i in 0..map.len() {
        give_back(pool, &mut map[i]);
    }
}

fn give_back<V: Copy>(pool: &mut RowPool<V>, slot: &mut Option<Row>)
    requires { (s : ℕ) → slot_index slot.old ≡ Some s → IsTaken pool.old s }
    ensures vacant { slot.new ≡ None }
    ensures room { free_count pool.new ≡ free_count pool.old + count_by is_held (slot.old ∷ []) }
    ensures others { (s : ℕ) → IsTaken pool.old s → (slot_index slot.old ≡ Some s → ⊥) → IsTaken pool.new s }
    ensures width { pool.new.width ≡ pool.old.width }
    ensures cells { pool.new.cells ≡ pool.old.cells }
{
    if let Some(row) = slot.take() {
        pool.give(row);
    }
}
