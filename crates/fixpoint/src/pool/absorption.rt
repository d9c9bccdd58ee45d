//! Joins of the rows of a pool.
ghost use Rattle.std.specs.Prelude.{◌≡◌, ◌≢◌, ◌+◌, ◌<◌, ◌≤◌, ◌++◌, not, length, take, drop, slice_range};
ghost use Rattle.cc_base.specs.Rows.{absorbed, row_absorbed, row_leq};
ghost use Rattle.fixpoint.specs.Pool.Pool.{row_of, with_row, IsTaken};

use crate::pool::pool::RowPool;
use crate::pool::row_name::Row;
use cc_base::{Lattice, Thresholds};

impl<V: Lattice> RowPool<V> {
    /// Makes the row `to` the join of itself and the row `from`, each cell that grows rounded to
    /// `list` where `rounding` is set. A cell that is at or above the one that arrives stays. Says
    /// whether a cell grew.
    #[tactic(auto, using(crate::specs::Pool::PoolLaws::row_below, crate::specs::Pool::PoolLaws::row_above, crate::specs::Pool::PoolLaws::row_end))]
    pub fn absorb(&mut self, from: &Row, to: &Row, rounding: bool, list: &Thresholds) -> bool
        requires from { IsTaken self.old from.now.index }
        requires to { IsTaken self.old to.now.index }
        requires apart { from.now.index ≢ to.now.index }
        ensures row { self.new ≡ with_row self.old to.now.index (row_absorbed V.lattice list.now rounding (row_of self.old to.now.index) (row_of self.old from.now.index)) }
        ensures grew { result ≡ not (row_leq V.lattice (row_of self.old from.now.index) (row_of self.old to.now.index)) }
    {
        let width = self.width as usize;
        let source = from.index as usize * width;
        let target = to.index as usize * width;
        absorb_part(
            self.cells.as_mut_slice(),
            source,
            target,
            width,
            rounding,
            list,
        )
    }
}

// The same for `width` cells at `to`, which the cells at `from` arrive at.
fn absorb_part<V: Lattice>(
    cells: &mut [V],
    from: usize,
    to: usize,
    width: usize,
    rounding: bool,
    list: &Thresholds,
) -> bool
    requires from_within { from + width ≤ length cells.old }
    requires to_within { to + width ≤ length cells.old }
    requires below { from < to → from + width ≤ to }
    requires above { to ≤ from → to + width ≤ from }
    ensures cells { cells.new ≡ take to cells.old ++ (row_absorbed V.lattice list.now rounding (take width (drop to cells.old)) (take width (drop from cells.old)) ++ drop (to + width) cells.old) }
    ensures grew { result ≡ not (row_leq V.lattice (take width (drop from cells.old)) (take width (drop to cells.old))) }
{
    if from < to {
        let (low, high) = cells.split_at_mut(to);
        absorb_row(&mut high[..width], &low[from..from + width], rounding, list)
    } else {
        let (low, high) = cells.split_at_mut(from);
        absorb_row(&mut low[to..to + width], &high[..width], rounding, list)
    }
}

// The same for two rows.
fn absorb_row<V: Lattice>(row: &mut [V], with: &[V], rounding: bool, list: &Thresholds) -> bool
    requires { length with.now ≡ length row.old }
    ensures row { row.new ≡ row_absorbed V.lattice list.now rounding row.old with.now }
    ensures grew { result ≡ not (row_leq V.lattice with.now row.old) }
{
    let mut grew = false;
    for i in 0..row.len() {
        grew |= absorb_cell(&mut row[i], &with[i], rounding, list);
    }
    grew
}

// The same for two cells.
fn absorb_cell<V: Lattice>(cell: &mut V, with: &V, rounding: bool, list: &Thresholds) -> bool
    ensures cell { cell.new ≡ absorbed V.lattice list.now rounding cell.old with.now }
    ensures grew { result ≡ not (V.lattice.leq with.now cell.old) }
{
    if (*with).leq(*cell) {
        return false;
    }
    let joined = (*cell).join(*with);
    *cell = if rounding { joined.round(list) } else { joined };
    true
}
