//! A block that divides by zero.
use c_layout::{Structs, by_name};
use cc_base::{IntOp, IntType, Lattice, Place, Rule};
use cfg::{Amount, BasicBlock, Flow, Instruction, Operation};
use diagnose::diagnostics::admits;
use interval_domain::intervals::Interval;
use std::alloc::{AllocError, Global};
use std::test::Fail;
use transfer_edges::start_row;
use transfer_instructions::instructions::{step, violations_at};
use value_domain::values::Cell;

const INT: IntType = IntType {
    bytes: 4,
    signed: true,
    rank: 3,
};

const PLACE: Place = Place {
    file: 0,
    line: 1,
    col: 1,
};

/// 1, 0, the one divided by the other, and the end.
fn block(alloc: Global) -> Result<BasicBlock, AllocError> {
    let mut instructions = Vec::new(alloc);
    for operation in [
        Operation::Constant(0, 1, INT),
        Operation::Constant(1, 0, INT),
        Operation::Binary(0, IntOp::Div, 0, Amount::Temp(1), INT),
        Operation::Stop,
    ] {
        instructions.push(Instruction {
            place: PLACE,
            operation,
        })?;
    }
    Ok(BasicBlock {
        instructions,
        first_edge: 0,
        edges: 0,
        is_head: false,
    })
}

fn dividing(alloc: Global) -> Result<Flow, AllocError> {
    let mut blocks = Vec::new(alloc);
    blocks.push(block(alloc)?)?;
    Ok(Flow {
        blocks,
        edges: Vec::new(alloc),
        bases: Vec::new(alloc),
        temps: 2,
        initial: Vec::new(alloc),
        parameters: Vec::new(alloc),
        entry: PLACE,
        structs: Structs {
            items: Vec::new(alloc),
        },
        width: 2,
        model: by_name("lp64").ok_or(AllocError)?,
    })
}

/// The row before the division, if a run comes there.
fn row_before_division(alloc: Global, flow: &Flow) -> Result<Option<Vec<Cell<Interval>>>, Fail> {
    let mut row = vec![in alloc; Cell::bottom(); 2]?;
    let is_reached = start_row(flow, row.as_mut_slice())
        && step(flow, row.as_mut_slice(), 0, 0)
        && step(flow, row.as_mut_slice(), 0, 1);
    Ok(if is_reached { Some(row) } else { None })
}

#[test]
fn a_division_by_zero_is_admitted(rt: HostRuntime) -> Result<(), Fail> {
    let flow = dividing(rt.alloc())?;
    let row = row_before_division(rt.alloc(), &flow)?.ok_or("no row")?;
    assert!(rt; admits(&flow, row.as_slice(), 0, 2, Rule::Diverr));
    assert!(rt; !admits(&flow, row.as_slice(), 0, 2, Rule::Intoflow));
    assert!(rt; !admits(&flow, row.as_slice(), 0, 3, Rule::Diverr));
    Ok(())
}

#[test]
fn it_violates_one_rule_and_no_other_does(rt: HostRuntime) -> Result<(), Fail> {
    let flow = dividing(rt.alloc())?;
    let row = row_before_division(rt.alloc(), &flow)?.ok_or("no row")?;
    assert!(rt; violations_at(&flow, row.as_slice(), 0, 2).has(Rule::Diverr));
    assert!(rt; !violations_at(&flow, row.as_slice(), 0, 1).has(Rule::Diverr));
    assert!(rt; !violations_at(&flow, row.as_slice(), 1, 0).has(Rule::Diverr));
    Ok(())
}

#[test]
fn no_run_goes_on_behind_it(rt: HostRuntime) -> Result<(), Fail> {
    let flow = dividing(rt.alloc())?;
    let mut row = row_before_division(rt.alloc(), &flow)?.ok_or("no row")?;
    assert!(rt; !step(&flow, row.as_mut_slice(), 0, 2));
    assert!(rt; !step(&flow, row.as_mut_slice(), 1, 0));
    Ok(())
}
