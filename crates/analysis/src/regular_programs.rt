//! Whether a program and a list of numbers are such that the analysis is by the least inductive map.
ghost use Rattle.std.specs.Prelude.{◌≡◌, IfOk};
ghost use Rattle.std.specs.List.{list_all};
ghost use Rattle.transfer_system.specs.BoundedRows.NearLists.{is_near_number};
ghost use Rattle.transfer_system.specs.System.RegularPrograms as spec;

use crate::laid_apart::are_laid_apart;
use c_layout::{BaseInfo, StaticStore};
use cc_base::{Limits, Memory, Text, Thresholds};
use cfg::{BasicBlock, Edge, EdgeKind, Flow, InitialValue, Instruction, Operation, Side, Test};
use cfg_checks::is_well_formed;
use std::alloc::Global;

fn is_byte(character: u8) -> bool
    ensures { result ≡ spec.is_byte character }
{
    (character as u32) < 256
}

fn are_bytes(text: &Text) -> bool
    ensures { result ≡ list_all spec.is_byte text.now }
{
    text.as_bytes().iter().all(|character| is_byte(*character))
}

/// Whether the characters of a text that is spelled are bytes.
fn has_bytes(operation: &Operation) -> bool
    ensures { result ≡ spec.has_bytes operation.now }
{
    match operation {
        Operation::Spell(_, _, _, text) => are_bytes(text),
        _ => true,
    }
}

fn spell_bytes(instructions: &[Instruction]) -> bool
    ensures { result ≡ list_all (λ i. spec.has_bytes i.operation) instructions.now }
{
    instructions.iter().all(|one| has_bytes(&one.operation))
}

fn blocks_spell_bytes(blocks: &[BasicBlock]) -> bool
    ensures { result ≡ list_all (λ b. list_all (λ i. spec.has_bytes i.operation) b.instructions.items) blocks.now }
{
    blocks
        .iter()
        .all(|block| spell_bytes(block.instructions.as_slice()))
}

/// Whether a base, where it is there, has a leaf.
fn has_leaf(bases: &[BaseInfo], base: u32) -> bool
    ensures { result ≡ spec.matches_leaf bases.now (Some base) }
{
    match bases.get(base as usize) {
        None => true,
        Some(info) => info.shape.cells.as_slice().len() > 0,
    }
}

fn names_leaf(bases: &[BaseInfo], side: Side) -> bool
    ensures { result ≡ spec.names_leaf bases.now side }
{
    match side {
        Side::Object(base, _) => has_leaf(bases, base),
        Side::Number(_) => true,
        Side::Null => true,
    }
}

fn tests_leaves(bases: &[BaseInfo], test: Option<Test>) -> bool
    ensures { result ≡ spec.tests_leaves bases.now test }
{
    match test {
        None => true,
        Some(test) => names_leaf(bases, test.left) && names_leaf(bases, test.right),
    }
}

fn matches_leaf(bases: &[BaseInfo], object: Option<u32>) -> bool
    ensures { result ≡ spec.matches_leaf bases.now object }
{
    match object {
        None => true,
        Some(base) => has_leaf(bases, base),
    }
}

/// Whether the objects that an edge names have leaves.
fn follows_leaves(bases: &[BaseInfo], kind: &EdgeKind) -> bool
    ensures { result ≡ spec.follows_leaves bases.now kind.now }
{
    match kind {
        EdgeKind::When(_, test, _) => tests_leaves(bases, *test),
        EdgeKind::Case(case) => matches_leaf(bases, case.object),
        EdgeKind::Jump => true,
        EdgeKind::Other(_) => true,
        EdgeKind::NoLine => true,
        EdgeKind::Line => true,
    }
}

fn edges_follow_leaves(bases: &[BaseInfo], edges: &[Edge]) -> bool
    ensures { result ≡ list_all (λ e. spec.follows_leaves bases.now e.kind) edges.now }
{
    edges.iter().all(|edge| follows_leaves(bases, &edge.kind))
}

fn has_scalars(flow: &Flow) -> bool
    ensures { result ≡ spec.has_scalars flow.now }
{
    blocks_spell_bytes(flow.blocks.as_slice())
        && edges_follow_leaves(flow.bases.as_slice(), flow.edges.as_slice())
}

/// Whether the characters of a text that an initializer spells are bytes.
fn spells_bytes(store: &StaticStore) -> bool
    ensures { result ≡ spec.spells_bytes store.now }
{
    match store {
        StaticStore::Value(_, _) => true,
        StaticStore::Spell(_, _, text) => are_bytes(text),
    }
}

fn stores_spell_bytes(stores: &[StaticStore]) -> bool
    ensures { result ≡ list_all spec.spells_bytes stores.now }
{
    stores.iter().all(|store| spells_bytes(store))
}

fn begins_with_bytes(value: &InitialValue) -> bool
    ensures { result ≡ spec.begins_with_bytes value.now }
{
    match value {
        InitialValue::Stores(stores) => stores_spell_bytes(stores.as_slice()),
        InitialValue::Literal(text) => are_bytes(text),
    }
}

fn has_initial_bytes(flow: &Flow) -> bool
    ensures { result ≡ spec.has_initial_bytes flow.now }
{
    flow.initial
        .as_slice()
        .iter()
        .all(|object| begins_with_bytes(&object.value))
}

fn is_near_number(least: i128, number: i128) -> bool
    ensures { result ≡ is_near_number least number }
{
    least <= number && number <= 18_446_744_073_709_551_616
}

fn are_near(least: i128, numbers: &[i128]) -> bool
    ensures { result ≡ list_all (is_near_number least) numbers.now }
{
    numbers.iter().all(|number| is_near_number(least, *number))
}

/// Whether numbers go from one that is from -2^64 to 0 up to 2^64, and 0 is among them.
fn is_near_list(numbers: &[i128]) -> bool
    ensures { result ≡ spec.is_near_list numbers.now }
{
    if numbers.len() > 0 {
        let first = numbers[0];
        let last = numbers[numbers.len() - 1];
        is_near_number(-18_446_744_073_709_551_616, first)
            && (first <= 0
                && (last == 18_446_744_073_709_551_616
                    && (are_near(first, numbers) && numbers.contains(&0))))
    } else {
        false
    }
}

/// Whether a program is well formed within the limits of the product, its texts are of bytes, those
/// that it begins with too, its tests name objects with leaves and the members of its structs stand
/// apart, and rows are cut between the ends of the list in order. Each part of the program and of the
/// list is looked at once.
///
/// # Errors
///
/// Out of memory.
pub fn is_regular(alloc: Global, flow: &Flow, list: &Thresholds) -> Result<bool, Memory>
    ensures { IfOk result (λ held. held ≡ spec.is_regular flow.now list.now) }
{
    let formed = is_well_formed(alloc, flow, &Limits::standard())?;
    let apart = are_laid_apart(&flow.model, &flow.structs);
    let near = is_near_list(list.as_slice());
    Ok(formed && (has_scalars(flow) && (has_initial_bytes(flow) && (apart && near))))
}
