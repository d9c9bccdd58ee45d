//! The types that temporaries may have at the starts of blocks.
ghost use Rattle.std.specs.Prelude.{◌≡◌, ◌+◌, ◌*◌, length, IfOk};
ghost use Rattle.certificate_programs.specs.Types.TypedTemps as spec;

use crate::types::kind_sets::{Kinds, NONE, POINTER, differences, int, integers, results, scalars};
use c_layout::Model;
use cc_base::Memory;
use cfg::{BasicBlock, Edge, EdgeKind, Flow, Instruction, Operation};
use std::alloc::Global;

/// The types at a place of a list; none where there is no such place.
pub fn kinds_at(list: &[Kinds], at: usize) -> Kinds
    ensures { result ≡ spec.kinds_at list.now at }
{
    match list.get(at) {
        Some(kinds) => *kinds,
        None => NONE,
    }
}

fn put(list: &mut [Kinds], at: usize, kinds: Kinds)
    ensures length { length list.new ≡ length list.old }
    ensures list { list.new ≡ spec.put list.old at kinds }
{
    if at < list.len() {
        list[at] = kinds;
    }
}

/// The place of a temporary at the start of a block.
pub fn place(temps: usize, block: usize, temp: usize) -> usize
    ensures { result ≡ spec.place temps block temp }
{
    block.saturating_mul(temps).saturating_add(temp)
}

/// The temporary that an operation gives a value, and the value's types, where it is no copy of
/// another one's.
fn given(model: &Model, operation: &Operation) -> Option<(u32, Kinds)>
    ensures { result ≡ spec.given model.now operation.now }
{
    match operation {
        Operation::Constant(to, _, kind) => Some((*to, integers(*kind))),
        Operation::Binary(to, _, _, _, kind) => Some((*to, integers(*kind))),
        Operation::Unary(to, _, _, kind) => Some((*to, integers(*kind))),
        Operation::Load(to, _, scalar) => Some((*to, scalars(*scalar))),
        Operation::Convert(to, _, _, scalar) => Some((*to, scalars(*scalar))),
        Operation::Compare(to, _, _, _) => Some((*to, int(model))),
        Operation::Not(to, _, _) => Some((*to, int(model))),
        Operation::ComparePointers(to, _, _, _) => Some((*to, int(model))),
        Operation::Difference(to, _, _, _) => Some((*to, differences(model))),
        Operation::Address(to, _, _) => Some((*to, POINTER)),
        Operation::Narrow(to, _, _, _) => Some((*to, POINTER)),
        Operation::Shift(to, _, _, _, _) => Some((*to, POINTER)),
        Operation::Copy(to, _, _) => Some((*to, POINTER)),
        Operation::Library(Some(to), name, _, _, _) => Some((*to, results(model, *name))),
        Operation::ReadLine(Some(to), _, _, _) => Some((*to, POINTER)),
        _ => None,
    }
}

/// Puts the types of a value where its temporary has them.
fn put_given(kinds: &mut [Kinds], value: Option<(u32, Kinds)>)
    ensures length { length kinds.new ≡ length kinds.old }
    ensures kinds { kinds.new ≡ spec.put_given kinds.old value }
{
    match value {
        Some((to, made)) => put(kinds, to as usize, made),
        None => {}
    }
}

/// Makes of the types before an operation those behind it.
fn pass(model: &Model, kinds: &mut [Kinds], operation: &Operation)
    ensures length { length kinds.new ≡ length kinds.old }
    ensures kinds { kinds.new ≡ spec.pass model.now kinds.old operation.now }
{
    match operation {
        Operation::Store(_, _, _, Some((to, from))) => {
            let copied = kinds_at(kinds, *from as usize);
            put(kinds, *to as usize, copied);
        }
        _ => put_given(kinds, given(model, operation)),
    }
}

fn pass_all(model: &Model, kinds: &mut [Kinds], instructions: &[Instruction])
    ensures length { length kinds.new ≡ length kinds.old }
    ensures kinds { kinds.new ≡ spec.pass_all model.now kinds.old instructions.now }
{
    for at in 0..instructions.len() {
        pass(model, kinds, &instructions[at].operation);
    }
}

/// The types of a temporary behind an edge.
fn behind(model: &Model, kind: &EdgeKind, temp: usize, kinds: Kinds) -> Kinds
    ensures { result ≡ spec.behind model.now kind.now temp kinds }
{
    match kind {
        EdgeKind::When(_, _, Some((kept, _))) => {
            if *kept as usize == temp {
                int(model)
            } else {
                kinds
            }
        }
        _ => kinds,
    }
}

/// Adds types at a place; says whether there are more.
fn add_at(all: &mut [Kinds], at: usize, more: Kinds) -> bool
    ensures length { length all.new ≡ length all.old }
    ensures all { all.new ≡ (spec.add_at at more all.old).all }
    ensures grew { result ≡ (spec.add_at at more all.old).grew }
{
    let had = kinds_at(all, at);
    let has = had | more;
    put(all, at, has);
    has != had
}

/// Adds the types behind an edge to those at the start of its target; says whether there are more.
fn arrive(model: &Model, all: &mut [Kinds], kinds: &[Kinds], edge: &Edge) -> bool
    ensures length { length all.new ≡ length all.old }
    ensures all { all.new ≡ (spec.arrive model.now kinds.now edge.now all.old).all }
    ensures grew { result ≡ (spec.arrive model.now kinds.now edge.now all.old).grew }
{
    let mut grew = false;
    for temp in 0..kinds.len() {
        let at = place(kinds.len(), edge.to as usize, temp);
        let more = add_at(all, at, behind(model, &edge.kind, temp, kinds[temp]));
        grew = grew || more;
    }
    grew
}

fn arrive_all(model: &Model, all: &mut [Kinds], kinds: &[Kinds], edges: &[Edge]) -> bool
    ensures length { length all.new ≡ length all.old }
    ensures all { all.new ≡ (spec.arrive_all model.now kinds.now edges.now all.old).all }
    ensures grew { result ≡ (spec.arrive_all model.now kinds.now edges.now all.old).grew }
{
    let mut grew = false;
    for at in 0..edges.len() {
        let more = arrive(model, all, kinds, &edges[at]);
        grew = grew || more;
    }
    grew
}

/// Makes `kinds` the types at the start of a block.
fn enter(all: &[Kinds], kinds: &mut [Kinds], number: usize)
    ensures length { length kinds.new ≡ length kinds.old }
    ensures kinds { kinds.new ≡ spec.kinds_before all.now (length kinds.old) number }
{
    for temp in 0..kinds.len() {
        kinds[temp] = kinds_at(all, place(kinds.len(), number, temp));
    }
}

/// The edges of a block.
fn own_edges<'a>(flow: &'a Flow, block: &BasicBlock) -> &'a [Edge]
    ensures { result.now ≡ spec.own_edges flow.now block.now }
{
    let edges = flow.edges.as_slice();
    let first = edges.len().min(block.first_edge as usize);
    let count = (edges.len() - first).min(block.edges as usize);
    &edges[first..first + count]
}

/// Adds the types at the end of a block to those at the starts of the blocks behind it; says whether
/// there are more. `kinds` becomes the types at its end.
fn follow(
    flow: &Flow,
    all: &mut [Kinds],
    kinds: &mut [Kinds],
    number: usize,
    block: &BasicBlock,
) -> bool
    ensures length { length all.new ≡ length all.old }
    ensures kinds { kinds.new ≡ spec.kinds_after flow.now all.old (length kinds.old) number block.now }
    ensures all { all.new ≡ (spec.follow flow.now (length kinds.old) number block.now all.old).all }
    ensures grew { result ≡ (spec.follow flow.now (length kinds.old) number block.now all.old).grew }
{
    enter(all, kinds, number);
    pass_all(&flow.model, kinds, block.instructions.as_slice());
    arrive_all(&flow.model, all, kinds, own_edges(flow, block))
}

/// Goes once over all blocks; says whether there are more types.
fn spread(flow: &Flow, all: &mut [Kinds], kinds: &mut [Kinds]) -> bool
    ensures length { length all.new ≡ length all.old }
    ensures kinds { length kinds.new ≡ length kinds.old }
    ensures all { all.new ≡ (spec.spread flow.now (length kinds.old) all.old).all }
    ensures grew { result ≡ (spec.spread flow.now (length kinds.old) all.old).grew }
{
    let mut grew = false;
    for number in 0..flow.blocks.len() {
        let more = follow(flow, all, kinds, number, &flow.blocks[number]);
        grew = grew || more;
    }
    grew
}

/// Goes over all blocks until nothing is new, once more than there are blocks at most.
fn settle(flow: &Flow, all: &mut [Kinds], kinds: &mut [Kinds])
    ensures length { length all.new ≡ length all.old }
    ensures all { all.new ≡ spec.settle flow.now (length kinds.old) (length flow.now.blocks.items + 1) all.old }
{
    for _pass in 0..flow.blocks.len() + 1 {
        if !spread(flow, all, kinds) {
            return;
        }
    }
}

/// The types that temporaries may have at the starts of blocks, block by block. It goes over the blocks
/// until nothing is new.
///
/// # Errors
///
/// Out of memory.
pub fn temp_kinds(alloc: Global, flow: &Flow) -> Result<Vec<Kinds>, Memory>
    ensures { IfOk result (λ all. all.items ≡ spec.temp_kinds flow.now) }
{
    let temps = flow.temps as usize;
    let count = flow.blocks.len().checked_mul(temps).ok_or(Memory)?;
    let mut all = vec![in alloc; NONE; count]?;
    let mut kinds = vec![in alloc; NONE; temps]?;
    settle(flow, all.as_mut_slice(), kinds.as_mut_slice());
    Ok(all)
}
