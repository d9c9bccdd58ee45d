//! Small systems: rows of one number, an upper bound, and edges that cut and raise it.
ghost use Rattle.std.specs.Prelude.{◌≡◌, ◌<◌, ◌≤◌, ◌+◌, ℕ, true, false, length, Some, None, IfOk, cond, map};
ghost use Rattle.analysis_tests.specs.Solver.Levels.{level_lattice, rung_above};
ghost use Rattle.analysis_tests.specs.Solver.LevelLaws.{level_order, level_rounding, level_heights};
ghost use Rattle.analysis_tests.specs.Solver.Tables.{Table, table_machine, pass, is_level, is_fit, IsFit};
ghost use Rattle.analysis_tests.specs.Solver.TableLaws.{table-laws};
ghost use Rattle.fixpoint.specs.Solver.RowMap.{slot_index};
ghost use Rattle.fixpoint.specs.Pool.Pool.{IsTaken, free_count};
ghost use Rattle.std.proofs.Common.{replicate};

use cc_base::{Lattice, Memory, Steps, System, Thresholds};
use fixpoint::pool::{Row, RowPool};
use fixpoint::solver::{drop_map, new_map, release, solve};
use std::alloc::Global;
use std::marker::{Brand, Model};
use std::sync::ledger::{Blank, Ledger};
use std::test::Fail;

/// The numbers up to `most`.
#[derive(Clone, Copy)]
struct Level {
    most: u8,
}

impl Model for Level {
    ghost use Rattle.std.specs.Prelude.{ℕ};

    ghost Value = { ℕ };

    ghost view = { λ l. l.most };

    ghost inverse = { λ n. record { most = n } };
}

impl Lattice for Level {
    ghost lattice = { level_lattice };

    ghost order = { level_order };

    ghost rounding = { level_rounding };

    ghost heights = { level_heights };

    fn bottom() -> Level {
        Level { most: 0 }
    }

    fn join(self, other: Level) -> Level {
        Level {
            most: self.most.max(other.most),
        }
    }

    fn leq(self, other: Level) -> bool {
        self.most <= other.most
    }

    fn round(self, _list: &Thresholds) -> Level {
        Level {
            most: rung(self.most),
        }
    }
}

fn rung(x: u8) -> u8
    ensures { result ≡ rung_above x }
{
    match x {
        0 => 0,
        1..=10 => 10,
        _ => 255,
    }
}

/// An edge that is taken by numbers from `least` on, cuts them to `cap` and adds `plus`.
#[derive(Clone, Copy)]
struct Passage {
    source: u32,
    target: u32,
    least: u8,
    cap: u8,
    plus: u8,
}

impl Model for Passage {
    ghost use Rattle.analysis_tests.specs.Solver.Tables.{Passage as Entry};

    ghost Value = { Entry };

    ghost view = { λ p. record { source = p.source; target = p.target; least = p.least; cap = p.cap; plus = p.plus } };

    ghost inverse = { λ p. record { source = p.source; target = p.target; least = p.least; cap = p.cap; plus = p.plus } };
}

#[derive(Drop)]
struct TableSystem {
    heads: Vec<bool>,
    passages: Vec<Passage>,
    list: Thresholds,
}

impl Model for TableSystem {
    ghost use Rattle.analysis_tests.specs.Solver.Tables.{Table};

    ghost Value = { Table };

    ghost view = { λ t. record { heads = t.heads.items; passages = t.passages.items; list = t.list } };
}

impl System for TableSystem {
    type Cell = Level;

    ghost machine = { table_machine };

    ghost valid = { IsFit };

    ghost lawful = { λ t fit. table-laws t fit };

    fn blocks(&self) -> u32 {
        self.heads.len() as u32
    }

    fn width(&self) -> u32 {
        1
    }

    fn edges(&self) -> u32 {
        self.passages.len() as u32
    }

    fn edge_from(&self, edge: u32) -> u32 {
        let passage = self.passages[edge as usize];
        passage.source
    }

    fn edge_to(&self, edge: u32) -> u32 {
        let passage = self.passages[edge as usize];
        passage.target
    }

    fn is_head(&self, block: u32) -> bool {
        self.heads[block as usize]
    }

    fn start(&self, row: &mut [Level]) {
        row[0] = Level { most: 0 };
    }

    fn flow<L: Ledger>(&self, edge: u32, row: &mut [Level], steps: &mut Steps<L>) -> bool {
        steps.tick();
        let passage = self.passages[edge as usize];
        go_through(passage, row)
    }

    fn thresholds(&self) -> &Thresholds {
        &self.list
    }
}

fn go_through(passage: Passage, row: &mut [Level]) -> bool
    requires fits { passage.cap + passage.plus ≤ 255 }
    requires own { is_level row.old ≡ true }
    ensures reached { result ≡ true → pass passage row.old ≡ Some row.new }
    ensures unreached { result ≡ false → pass passage row.old ≡ None }
{
    let first = row[0];
    let level = first.most;
    if level < passage.least {
        return false;
    }
    row[0] = Level {
        most: level.min(passage.cap) + passage.plus,
    };
    true
}

// The upper bound at a block in the least map, None where the block is not reached.
fn bound_at<L: Ledger>(
    alloc: Global,
    system: &TableSystem,
    block: u32,
    blank: Blank,
) -> Result<Option<u8>, Memory>
    requires fit { IsFit system.now }
    requires block { block < length system.now.heads }
    requires name { blank.name ≡ L.name }
    requires parts { blank.parts ≡ L.parts }
    requires some { 0 < blank.parts }
{
    let blocks = system.blocks();
    let mut pool = RowPool::new(alloc, blocks + 2, 1, Level::bottom())?;
    let mut map = new_map(alloc, blocks)?;
    let mut steps = Steps::<L>::start(blank);
    let bound = bound_in(system, &mut pool, map.as_mut_slice(), block, &mut steps);
    drop_map(map);
    Ok(bound)
}

fn bound_in<L: Ledger>(
    system: &TableSystem,
    pool: &mut RowPool<Level>,
    map: &mut [Option<Row>],
    block: u32,
    steps: &mut Steps<L>,
) -> Option<u8>
    requires fit { IsFit system.now }
    requires block { block < length system.now.heads }
    requires width { pool.old.width ≡ 1 }
    requires vacant { map.old ≡ replicate (length system.now.heads) None }
    requires room { length system.now.heads + 2 ≤ free_count pool.old }
    ensures { map.new ≡ replicate (length map.old) None }
{
    solve(system, pool, map, steps);
    let bound = read(pool, &map[block as usize]);
    release(pool, map);
    bound
}

fn read(pool: &RowPool<Level>, slot: &Option<Row>) -> Option<u8>
    requires taken { (i : ℕ) → slot_index slot.now ≡ Some i → IsTaken pool.now i }
{
    match slot {
        Some(row) => pool.row(row).first().map(|level| level.most),
        None => None,
    }
}

fn edge(source: u32, target: u32, least: u8, cap: u8, plus: u8) -> Passage
    ensures { result ≡ record { source = source; target = target; least = least; cap = cap; plus = plus } }
{
    Passage {
        source,
        target,
        least,
        cap,
        plus,
    }
}

// A counter goes from 0 up to 10: block 1 is the head, block 2 the body, block 3 the exit.
fn counting_loop(alloc: Global) -> Result<TableSystem, Memory>
    ensures { IfOk result (λ t. (is_fit t ≡ true) × (length t.heads ≡ 4)) }
{
    Ok(TableSystem {
        heads: Vec::from_array(alloc, [false, true, false, false])?,
        passages: Vec::from_array(
            alloc,
            [
                edge(0, 1, 0, 255, 0),
                edge(1, 2, 0, 9, 0),
                edge(1, 3, 10, 255, 0),
                edge(2, 1, 0, 254, 1),
            ],
        )?,
        list: Thresholds::new(alloc),
    })
}

// An inner loop goes up to 10: block 1 is the outer head, block 2 the inner one, block 4 the exit.
fn nested_loops(alloc: Global) -> Result<TableSystem, Memory>
    ensures { IfOk result (λ t. (is_fit t ≡ true) × (length t.heads ≡ 5)) }
{
    Ok(TableSystem {
        heads: Vec::from_array(alloc, [false, true, true, false, false])?,
        passages: Vec::from_array(
            alloc,
            [
                edge(0, 1, 0, 255, 0),
                edge(1, 2, 0, 9, 0),
                edge(1, 4, 10, 255, 0),
                edge(2, 2, 0, 9, 1),
                edge(2, 3, 10, 255, 0),
                edge(3, 1, 0, 255, 0),
            ],
        )?,
        list: Thresholds::new(alloc),
    })
}

// Block 1 is entered by numbers from 5 on, and there are none.
fn unreached_block(alloc: Global) -> Result<TableSystem, Memory>
    ensures { IfOk result (λ t. (is_fit t ≡ true) × (length t.heads ≡ 3)) }
{
    Ok(TableSystem {
        heads: Vec::from_array(alloc, [false, false, false])?,
        passages: Vec::from_array(alloc, [edge(0, 1, 5, 255, 0), edge(0, 2, 0, 250, 3)])?,
        list: Thresholds::new(alloc),
    })
}

#[test]
#[tactic(auto, using(crate::specs::Solver::TableLaws::fit_from))]
fn the_counter_is_10_at_the_exit(rt: HostRuntime) -> Result<(), Fail> {
    let system = counting_loop(rt.alloc())?;
    let exit = bound_at::<Brand>(rt.alloc(), &system, 3, Blank::new(1))?;
    assert_eq!(rt; exit, Some(10));
    Ok(())
}

#[test]
#[tactic(auto, using(crate::specs::Solver::TableLaws::fit_from))]
fn nested_loops_end_at_10(rt: HostRuntime) -> Result<(), Fail> {
    let system = nested_loops(rt.alloc())?;
    let exit = bound_at::<Brand>(rt.alloc(), &system, 4, Blank::new(1))?;
    assert_eq!(rt; exit, Some(10));
    Ok(())
}

#[test]
#[tactic(auto, using(crate::specs::Solver::TableLaws::fit_from))]
fn a_block_that_is_not_entered_has_no_row(rt: HostRuntime) -> Result<(), Fail> {
    let system = unreached_block(rt.alloc())?;
    let unreached = bound_at::<Brand>(rt.alloc(), &system, 1, Blank::new(1))?;
    assert_eq!(rt; unreached, None);
    let reached = bound_at::<Brand>(rt.alloc(), &system, 2, Blank::new(1))?;
    assert_eq!(rt; reached, Some(3));
    Ok(())
}
