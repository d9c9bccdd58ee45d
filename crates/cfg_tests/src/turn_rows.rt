//! A loop of one block, unrolled, and refused for its size.
use c_layout::{Structs, by_name};
use cc_base::{Limits, Place, Stop};
use cfg::{BasicBlock, Edge, EdgeKind, Flow, Instruction, Operation};
use loop_unrolling::split;
use std::alloc::{AllocError, Global};
use std::test::Fail;

fn place() -> Place {
    Place {
        file: 0,
        line: 1,
        col: 5,
    }
}

fn block(
    alloc: Global,
    operation: Operation,
    first_edge: u32,
    edges: u32,
    is_head: bool,
) -> Result<BasicBlock, AllocError> {
    let mut instructions = Vec::new(alloc);
    instructions.push(Instruction {
        place: place(),
        operation,
    })?;
    Ok(BasicBlock {
        instructions,
        first_edge,
        edges,
        is_head,
    })
}

/// A block that jumps to itself, and one that stops.
fn turning(alloc: Global) -> Result<Flow, Fail> {
    let mut blocks = Vec::new(alloc);
    blocks.push(block(alloc, Operation::Jump, 0, 1, true)?)?;
    blocks.push(block(alloc, Operation::Stop, 1, 0, false)?)?;
    let mut edges = Vec::new(alloc);
    edges.push(Edge {
        from: 0,
        to: 0,
        kind: EdgeKind::Jump,
    })?;
    Ok(Flow {
        blocks,
        edges,
        bases: Vec::new(alloc),
        temps: 0,
        initial: Vec::new(alloc),
        parameters: Vec::new(alloc),
        entry: place(),
        structs: Structs {
            items: Vec::new(alloc),
        },
        width: 0,
        model: by_name("lp64").ok_or(AllocError)?,
    })
}

/// Whether the turns lead to the next copy, and the last copy alone has a head.
fn is_turned(flow: &Flow) -> bool {
    let turns = match flow.edges.as_slice() {
        [first, second, third] => first.to == 2 && second.to == 4 && third.to == 4,
        _ => false,
    };
    let heads = match flow.blocks.as_slice() {
        [a, _, b, _, c, _] => !a.is_head && !b.is_head && c.is_head,
        _ => false,
    };
    turns && heads
}

#[test]
fn turns_lead_to_the_next_copy(rt: HostRuntime) -> Result<(), Fail> {
    let alloc = rt.alloc();
    let flow = turning(alloc)?;
    let holds = match split(alloc, &flow, 1, &Limits::standard()) {
        Ok(made) => is_turned(&made),
        Err(_) => false,
    };
    assert!(rt; holds);
    Ok(())
}

fn is_refused_at_entry(answer: Result<Flow, Stop>) -> bool {
    match answer {
        Err(Stop::Refused(fault)) => fault.place.line == 1 && fault.place.col == 5,
        _ => false,
    }
}

#[test]
fn too_many_blocks_are_refused(rt: HostRuntime) -> Result<(), Fail> {
    let alloc = rt.alloc();
    let flow = turning(alloc)?;
    let mut limits = Limits::standard();
    limits.blocks = 2;
    let refused = split(alloc, &flow, 1, &limits);
    assert!(rt; is_refused_at_entry(refused));
    Ok(())
}
