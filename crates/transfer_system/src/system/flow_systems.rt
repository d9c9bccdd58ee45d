//! Control-flow programs as systems of flow equations.
ghost use Rattle.std.specs.Prelude.{◌≡◌, ◌<◌, true, false, Some, None, length, replicate};
ghost use Rattle.value_domain.specs.declared.values.row_cells.Cell.TheVariants.{Nothing};
ghost use Rattle.transfer_edges.specs.StartRows.{start_row};
ghost use Rattle.transfer_system.specs.System.FlowMachines.{flow_machine, has_start, known_start, start_of, through};
ghost use Rattle.transfer_system.specs.System.SystemChecks.{is_system};
ghost use Rattle.transfer_system.specs.System.FlowLaws.{flow-laws};

use crate::bounded_rows::{Bounded, fill_row, fit_row};
use crate::system::block_passes::pass_edge;
use crate::system::system_checks::is_head_at;
use cc_base::{Steps, System, Thresholds};
use cfg::Flow;
use std::marker::PhantomData;
use std::sync::ledger::Ledger;
use transfer_edges::start_row;
use value_domain::values::Cell;

/// The system of a control-flow program: its blocks, edges and heads, rows as long as those of the
/// program, and the numbers of a list to which rows are rounded at heads.
#[derive(Drop)]
pub struct FlowSystem<'a, I: Bounded> {
    flow: &'a Flow,
    list: &'a Thresholds,
    numbers: PhantomData<I>,
}

/// The system of a program whose rows are rounded to the numbers of a list.
pub fn system<'a, I: Bounded>(flow: &'a Flow, list: &'a Thresholds) -> FlowSystem<'a, I>
    ensures flow { result.flow.now ≡ flow.now }
    ensures list { result.list.now ≡ list.now }
{
    FlowSystem {
        flow,
        list,
        numbers: PhantomData,
    }
}

/// Whether each static initializer of a program has its place, so that there is a row of the entry;
/// the row is used to find it out.
pub fn has_start<I: Bounded>(flow: &Flow, row: &mut [Cell<I>]) -> bool
    requires { length row.old ≡ flow.now.width }
    ensures { result ≡ has_start I.lattice I.numbers flow.now }
{
    fill_row(row, Cell::Nothing);
    start_row(flow, row)
}

/// Makes `row` the row of the entry; where a static initializer has no place, no cell has anything.
fn begin_known<I: Bounded>(flow: &Flow, row: &mut [Cell<I>])
    requires { length row.old ≡ flow.now.width }
    ensures length { length row.new ≡ length row.old }
    ensures row { row.new ≡ known_start flow.now.width (start_row I.lattice I.numbers flow.now (replicate flow.now.width Nothing)) }
{
    fill_row(row, Cell::Nothing);
    if !start_row(flow, row) {
        fill_row(row, Cell::Nothing);
    }
}

/// Makes `row` the row of the entry, fitted to the ends of the list.
#[tactic(auto, unfolding(crate::specs::System::FlowMachines::start_of))]
fn begin<I: Bounded>(flow: &Flow, list: &Thresholds, row: &mut [Cell<I>])
    requires { length row.old ≡ flow.now.width }
    ensures { row.new ≡ start_of I.lattice I.numbers flow.now list.now }
{
    begin_known(flow, row);
    fit_row(flow.bases.as_slice(), row, list);
}

/// Makes of the row of the block that an edge leaves the row behind the edge, fitted to the ends of
/// the list; false where no run takes the edge.
#[tactic(auto, unfolding(crate::specs::System::FlowMachines::through))]
fn go_through<I: Bounded>(flow: &Flow, list: &Thresholds, number: u32, row: &mut [Cell<I>]) -> bool
    requires edge { number < length flow.now.edges.items }
    requires width { length row.old ≡ flow.now.width }
    ensures reached { result ≡ true → through I.lattice I.numbers flow.now list.now number row.old ≡ Some row.new }
    ensures unreached { result ≡ false → through I.lattice I.numbers flow.now list.now number row.old ≡ None }
{
    let from = flow.edges[number as usize].from;
    if pass_edge(flow, row, from, number) {
        fit_row(flow.bases.as_slice(), row, list);
        true
    } else {
        false
    }
}

impl<'a, I: Bounded> System for FlowSystem<'a, I> {
    type Cell = Cell<I>;

    ghost machine = { λ s. flow_machine I.lattice I.numbers s.flow.now s.list.now };

    ghost valid = { λ s. is_system s.flow.now ≡ true };

    ghost lawful = { λ s valid. flow-laws I.order I.rounding I.heights I.bounding I.ends s.flow.now s.list.now valid };

    fn blocks(&self) -> u32 {
        self.flow.blocks.len() as u32
    }

    fn width(&self) -> u32 {
        self.flow.width
    }

    fn edges(&self) -> u32 {
        self.flow.edges.len() as u32
    }

    fn edge_from(&self, edge: u32) -> u32 {
        self.flow.edges[edge as usize].from
    }

    fn edge_to(&self, edge: u32) -> u32 {
        self.flow.edges[edge as usize].to
    }

    fn is_head(&self, block: u32) -> bool {
        is_head_at(self.flow.blocks.as_slice(), block)
    }

    fn start(&self, row: &mut [Cell<I>]) {
        begin(self.flow, self.list, row);
    }

    fn flow<L: Ledger>(&self, edge: u32, row: &mut [Cell<I>], steps: &mut Steps<L>) -> bool {
        steps.tick();
        go_through(self.flow, self.list, edge, row)
    }

    fn thresholds(&self) -> &Thresholds {
        self.list
    }
}
