//! Systems of flow equations over rows of lattice values.
ghost use Rattle.std.specs.Prelude.{◌≡◌, ◌+◌, ◌<◌, true, false, length, Some, None};
ghost use Rattle.cc_base.specs.Machine.{Machine, MachineLaws};

use crate::lattices::Lattice;
use crate::step_counter::Steps;
use crate::threshold_list::Thresholds;
use std::sync::ledger::Ledger;

/// Blocks with a row of cells each, and edges between them that make a row of a row.
///
/// Block 0 is the entry. Blocks and edges are named by numbers from 0 on, and edges are numbered by
/// the block that they leave. What the calls compute is one record, `machine`; a solver is proved
/// from the laws alone.
pub trait System {
    /// The lattice of a row's cells.
    type Cell: Lattice;

    ghost machine: { Self → Machine Self.Cell };

    ghost valid: { Self → Type 0 };

    /// The number of blocks, at least 1.
    fn blocks(&self) -> u32
        requires { valid self.now }
        ensures { result ≡ (machine self.now).blocks };

    /// The number of cells of a row.
    fn width(&self) -> u32
        requires { valid self.now }
        ensures { result ≡ (machine self.now).width };

    /// The number of edges.
    fn edges(&self) -> u32
        requires { valid self.now }
        ensures { result ≡ (machine self.now).edges };

    /// The block that the edge leaves.
    fn edge_from(&self, edge: u32) -> u32
        requires valid { valid self.now }
        requires edge { edge < (machine self.now).edges }
        ensures { result ≡ (machine self.now).source edge };

    /// The block that the edge enters.
    fn edge_to(&self, edge: u32) -> u32
        requires valid { valid self.now }
        requires edge { edge < (machine self.now).edges }
        ensures { result ≡ (machine self.now).target edge };

    /// Whether rows are rounded at the block. Each edge that enters a block with the same or a
    /// lower number enters such a one.
    fn is_head(&self, block: u32) -> bool
        requires valid { valid self.now }
        requires block { block < (machine self.now).blocks }
        ensures { result ≡ (machine self.now).head block };

    /// Makes `row` the row of the entry.
    fn start(&self, row: &mut [Self::Cell])
        requires valid { valid self.now }
        requires width { length row.old ≡ (machine self.now).width }
        ensures { row.new ≡ (machine self.now).start };

    /// Makes `row`, the row of the block that the edge leaves, the row after the edge, and counts
    /// one step. False exactly where the edge is not taken; then `row` is unspecified.
    fn flow<L: Ledger>(&self, edge: u32, row: &mut [Self::Cell], steps: &mut Steps<L>) -> bool
        requires valid { valid self.now }
        requires edge { edge < (machine self.now).edges }
        requires own { (machine self.now).own row.old ≡ true }
        ensures ticked { steps.new ≡ steps.old + 1 }
        ensures reached { result ≡ true → (machine self.now).through edge row.old ≡ Some row.new }
        ensures unreached { result ≡ false → (machine self.now).through edge row.old ≡ None };

    /// The numbers to which bounds are rounded.
    fn thresholds(&self) -> &Thresholds
        requires { valid self.now }
        ensures { result.now ≡ (machine self.now).list };

    ghost lawful: { (s : Self) → valid s → MachineLaws Self.Cell.lattice (machine s) };
}
