//! A well-formed program, and one for each fault that a program may have.
use crate::sample_program::{allocation, edge, instruction, int, object_shape, sample};
use c_layout::{BaseKind, StaticBase, StaticStore, StaticValue};
use cc_base::{IntOp, IntType, Limits, Rel, Text};
use cfg::{Amount, CaseTest, EdgeKind, Flow, InitialValue, Operation, Scalar, Side, Test};
use cfg_checks::is_well_formed;
use std::alloc::{AllocError, Global};
use std::test::Fail;

fn holds(alloc: Global, flow: &Flow) -> Result<bool, AllocError> {
    is_well_formed(alloc, flow, &Limits::standard())
}

/// Whether the program is well formed with an operation more at its start.
fn with_operation(alloc: Global, operation: Operation) -> Result<bool, Fail> {
    let mut flow = sample(alloc)?;
    let start = flow.blocks.get_mut(0).ok_or("no block")?;
    start.instructions.insert(0, instruction(operation))?;
    Ok(holds(alloc, &flow)?)
}

/// Whether the program is well formed where an edge knows something else.
fn with_kind(alloc: Global, number: usize, kind: EdgeKind) -> Result<bool, Fail> {
    let mut flow = sample(alloc)?;
    let changed = flow.edges.get_mut(number).ok_or("no edge")?;
    changed.kind = kind;
    Ok(holds(alloc, &flow)?)
}

/// Whether the program is well formed where an edge leads elsewhere.
fn with_target(alloc: Global, number: usize, to: u32) -> Result<bool, Fail> {
    let mut flow = sample(alloc)?;
    let changed = flow.edges.get_mut(number).ok_or("no edge")?;
    changed.to = to;
    Ok(holds(alloc, &flow)?)
}

fn odd_type() -> IntType {
    IntType {
        bytes: 3,
        signed: true,
        rank: 3,
    }
}

#[test]
fn the_program_is_well_formed(rt: HostRuntime) -> Result<(), Fail> {
    let alloc = rt.alloc();
    assert!(rt; holds(alloc, &sample(alloc)?)?);
    Ok(())
}

#[test]
fn temporaries_are_there(rt: HostRuntime) -> Result<(), Fail> {
    let alloc = rt.alloc();
    let int = Scalar::Int(int());
    assert!(rt; with_operation(alloc, Operation::Load(3, 3, int))?);
    assert!(rt; !with_operation(alloc, Operation::Load(4, 3, int))?);
    assert!(rt; !with_operation(alloc, Operation::Load(3, 4, int))?);
    assert!(rt; with_operation(alloc, Operation::Store(0, 1, int, Some((3, 3))))?);
    assert!(rt; !with_operation(alloc, Operation::Store(0, 1, int, Some((3, 4))))?);
    Ok(())
}

#[test]
fn operands_are_there(rt: HostRuntime) -> Result<(), Fail> {
    let alloc = rt.alloc();
    let one = Operation::Binary(0, IntOp::Add, 1, Amount::One, int());
    assert!(rt; with_operation(alloc, one)?);
    let past = Operation::Binary(0, IntOp::Add, 1, Amount::Temp(4), int());
    assert!(rt; !with_operation(alloc, past)?);
    assert!(rt; !with_operation(alloc, Operation::Copy(0, 1, 0))?);
    Ok(())
}

#[test]
fn bases_are_of_their_kind(rt: HostRuntime) -> Result<(), Fail> {
    let alloc = rt.alloc();
    assert!(rt; with_operation(alloc, Operation::Clear(1))?);
    assert!(rt; !with_operation(alloc, Operation::Clear(0))?);
    assert!(rt; with_operation(alloc, Operation::Address(0, 0, 0))?);
    assert!(rt; !with_operation(alloc, Operation::Address(0, 2, 0))?);
    assert!(rt; !with_operation(alloc, Operation::Address(0, 4, 0))?);
    Ok(())
}

#[test]
fn sites_have_two_bases(rt: HostRuntime) -> Result<(), Fail> {
    let alloc = rt.alloc();
    assert!(rt; with_operation(alloc, allocation(alloc, 2)?)?);
    assert!(rt; !with_operation(alloc, allocation(alloc, 3)?)?);
    assert!(rt; !with_operation(alloc, allocation(alloc, u32::MAX)?)?);
    let mut flow = sample(alloc)?;
    flow.bases.get_mut(3).ok_or("no base")?.kind = BaseKind::Newest;
    assert!(rt; !holds(alloc, &flow)?);
    Ok(())
}

#[test]
fn types_and_numbers_are_in_range(rt: HostRuntime) -> Result<(), Fail> {
    let alloc = rt.alloc();
    let most = u64::MAX as i128;
    assert!(rt; with_operation(alloc, Operation::Constant(0, most, int()))?);
    assert!(rt; !with_operation(alloc, Operation::Constant(0, most + 1, int()))?);
    assert!(rt; !with_operation(alloc, Operation::Constant(0, 1, odd_type()))?);
    Ok(())
}

#[test]
fn extents_are_in_range(rt: HostRuntime) -> Result<(), Fail> {
    let alloc = rt.alloc();
    let most = 1 << 30;
    assert!(rt; with_operation(alloc, Operation::Narrow(0, 1, most, most))?);
    assert!(rt; !with_operation(alloc, Operation::Narrow(0, 1, most + 1, 0))?);
    let text = Operation::Spell(1, 0, most + 1, Text::new(alloc));
    assert!(rt; !with_operation(alloc, text)?);
    let mut flow = sample(alloc)?;
    flow.bases.get_mut(0).ok_or("no base")?.size = most + 1;
    assert!(rt; !holds(alloc, &flow)?);
    Ok(())
}

#[test]
fn edges_are_those_of_the_last_instruction(rt: HostRuntime) -> Result<(), Fail> {
    let alloc = rt.alloc();
    assert!(rt; !with_kind(alloc, 0, EdgeKind::Line)?);
    assert!(rt; !with_kind(alloc, 1, EdgeKind::When(false, None, None))?);
    assert!(rt; !with_kind(alloc, 2, EdgeKind::When(true, None, None))?);
    assert!(rt; !with_kind(alloc, 4, EdgeKind::Line)?);
    assert!(rt; !with_kind(alloc, 6, EdgeKind::Other(Vec::new(alloc)))?);
    assert!(rt; !with_kind(alloc, 7, EdgeKind::Jump)?);
    Ok(())
}

#[test]
fn edges_know_what_is_there(rt: HostRuntime) -> Result<(), Fail> {
    let alloc = rt.alloc();
    assert!(rt; with_kind(alloc, 1, EdgeKind::When(true, None, Some((3, 1))))?);
    assert!(rt; !with_kind(alloc, 1, EdgeKind::When(true, None, Some((4, 1))))?);
    let case = CaseTest {
        value: 1,
        object: Some(2),
    };
    assert!(rt; !with_kind(alloc, 6, EdgeKind::Case(case))?);
    let values = Vec::from_slice(alloc, &[1i128 << 64])?;
    assert!(rt; !with_kind(alloc, 7, EdgeKind::Other(values))?);
    Ok(())
}

#[test]
fn tests_are_of_declared_objects(rt: HostRuntime) -> Result<(), Fail> {
    let alloc = rt.alloc();
    let test = |left: Side| {
        Some(Test {
            left,
            rel: Rel::Eq,
            right: Side::Null,
            common: None,
        })
    };
    let known = test(Side::Object(1, Scalar::Pointer));
    assert!(rt; with_kind(alloc, 1, EdgeKind::When(true, known, None))?);
    let heap = test(Side::Object(3, Scalar::Pointer));
    assert!(rt; !with_kind(alloc, 1, EdgeKind::When(true, heap, None))?);
    Ok(())
}

#[test]
fn edges_enter_blocks_that_are_there(rt: HostRuntime) -> Result<(), Fail> {
    let alloc = rt.alloc();
    assert!(rt; with_target(alloc, 5, 4)?);
    assert!(rt; !with_target(alloc, 5, 6)?);
    Ok(())
}

#[test]
fn heads_are_where_edges_go_back_to(rt: HostRuntime) -> Result<(), Fail> {
    let alloc = rt.alloc();
    assert!(rt; !with_target(alloc, 3, 2)?);
    assert!(rt; !with_target(alloc, 5, 3)?);
    let mut flow = sample(alloc)?;
    flow.blocks.get_mut(4).ok_or("no block")?.is_head = true;
    assert!(rt; !holds(alloc, &flow)?);
    Ok(())
}

#[test]
fn edges_are_numbered_by_blocks(rt: HostRuntime) -> Result<(), Fail> {
    let alloc = rt.alloc();
    let mut flow = sample(alloc)?;
    flow.edges.get_mut(3).ok_or("no edge")?.from = 1;
    assert!(rt; !holds(alloc, &flow)?);
    let mut flow = sample(alloc)?;
    flow.blocks.get_mut(2).ok_or("no block")?.first_edge = 2;
    assert!(rt; !holds(alloc, &flow)?);
    let mut flow = sample(alloc)?;
    flow.edges.push(edge(5, 5, EdgeKind::Jump))?;
    assert!(rt; !holds(alloc, &flow)?);
    let mut flow = sample(alloc)?;
    flow.blocks.get_mut(4).ok_or("no block")?.edges = u32::MAX;
    assert!(rt; !holds(alloc, &flow)?);
    Ok(())
}

#[test]
fn blocks_end(rt: HostRuntime) -> Result<(), Fail> {
    let alloc = rt.alloc();
    assert!(rt; !with_operation(alloc, Operation::Stop)?);
    let mut flow = sample(alloc)?;
    let last = flow.blocks.get_mut(5).ok_or("no block")?;
    last.instructions.truncate(1);
    assert!(rt; !holds(alloc, &flow)?);
    let mut flow = sample(alloc)?;
    flow.blocks
        .get_mut(5)
        .ok_or("no block")?
        .instructions
        .clear();
    assert!(rt; !holds(alloc, &flow)?);
    Ok(())
}

#[test]
fn values_follow_each_other(rt: HostRuntime) -> Result<(), Fail> {
    let alloc = rt.alloc();
    let mut flow = sample(alloc)?;
    flow.bases.get_mut(3).ok_or("no base")?.first = 11;
    assert!(rt; !holds(alloc, &flow)?);
    let mut flow = sample(alloc)?;
    flow.width = 25;
    assert!(rt; !holds(alloc, &flow)?);
    Ok(())
}

#[test]
fn objects_and_parameters_have_their_bases(rt: HostRuntime) -> Result<(), Fail> {
    let alloc = rt.alloc();
    let mut flow = sample(alloc)?;
    flow.initial.get_mut(0).ok_or("no object")?.base = Some(1);
    assert!(rt; !holds(alloc, &flow)?);
    let mut flow = sample(alloc)?;
    flow.parameters.get_mut(0).ok_or("no parameter")?.base = 0;
    assert!(rt; !holds(alloc, &flow)?);
    Ok(())
}

/// Whether the program is well formed where the text of an object has its leaf and its part elsewhere.
fn with_text(alloc: Global, leaf: u64, part: u64) -> Result<bool, Fail> {
    let mut flow = sample(alloc)?;
    flow.bases.get_mut(1).ok_or("no base")?.shape = object_shape(alloc, leaf, part)?;
    Ok(holds(alloc, &flow)?)
}

#[test]
fn leaves_and_parts_stand_apart(rt: HostRuntime) -> Result<(), Fail> {
    let alloc = rt.alloc();
    assert!(rt; with_text(alloc, 4, 4)?);
    assert!(rt; !with_text(alloc, 3, 3)?);
    assert!(rt; !with_text(alloc, 5, 5)?);
    assert!(rt; !with_text(alloc, 4, 0)?);
    assert!(rt; !with_text(alloc, 4, 5)?);
    Ok(())
}

#[test]
fn texts_are_spelled_into_whole_parts(rt: HostRuntime) -> Result<(), Fail> {
    let alloc = rt.alloc();
    for (at, room, fits) in [(4, 80, true), (0, 4, true), (5, 79, false), (4, 81, false)] {
        let spell = Operation::Spell(1, at, room, Text::new(alloc));
        assert!(rt; with_operation(alloc, spell)? == fits);
    }
    Ok(())
}

/// Whether the program is well formed where its static object begins with a store.
fn with_store(alloc: Global, store: StaticStore) -> Result<bool, Fail> {
    let mut flow = sample(alloc)?;
    let mut stores = Vec::new(alloc);
    stores.push(store)?;
    flow.initial.get_mut(0).ok_or("no object")?.value = InitialValue::Stores(stores);
    Ok(holds(alloc, &flow)?)
}

#[test]
fn static_stores_meet_leaves(rt: HostRuntime) -> Result<(), Fail> {
    let alloc = rt.alloc();
    let number = StaticValue::Number(7, int());
    let hidden = StaticValue::Address(StaticBase::Object(1), 0, 0, 1);
    assert!(rt; with_store(alloc, StaticStore::Value(0, number))?);
    assert!(rt; !with_store(alloc, StaticStore::Value(4, number))?);
    assert!(rt; !with_store(alloc, StaticStore::Value(0, StaticValue::Null))?);
    assert!(rt; !with_store(alloc, StaticStore::Value(0, hidden))?);
    Ok(())
}

/// Whether the program is well formed within limits that are the standard ones but for one change.
fn within(alloc: Global, limits: Limits) -> Result<bool, AllocError> {
    is_well_formed(alloc, &sample(alloc)?, &limits)
}

#[test]
fn counts_are_within_their_limits(rt: HostRuntime) -> Result<(), Fail> {
    let alloc = rt.alloc();
    let exact = Limits {
        temps: 4,
        bases: 4,
        cells: 16,
        blocks: 6,
        instructions: 12,
        pool: 8 * 26,
    };
    assert!(rt; within(alloc, exact)?);
    assert!(rt; !within(alloc, Limits { temps: 3, ..exact })?);
    assert!(rt; !within(alloc, Limits { bases: 3, ..exact })?);
    assert!(rt; !within(alloc, Limits { cells: 15, ..exact })?);
    assert!(rt; !within(alloc, Limits { blocks: 5, ..exact })?);
    assert!(rt;
        !within(
            alloc,
            Limits {
                instructions: 11,
                ..exact
            }
        )?
    );
    assert!(rt; !within(alloc, Limits { pool: 207, ..exact })?);
    Ok(())
}

#[test]
fn there_is_a_block(rt: HostRuntime) -> Result<(), Fail> {
    let alloc = rt.alloc();
    let mut flow = sample(alloc)?;
    flow.blocks.clear();
    flow.edges.clear();
    assert!(rt; !holds(alloc, &flow)?);
    Ok(())
}
