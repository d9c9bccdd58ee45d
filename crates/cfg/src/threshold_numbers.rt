//! The numbers that a control-flow program speaks of.
ghost use Rattle.std.specs.Prelude.{◌≡◌, ◌≤◌, ◌≤ℤ◌, ◌<ℤ◌, ◌++◌, ◌∷◌, ◌^◌, [], IfOk, true, pos, negsuc, drop};
ghost use Rattle.cc_base.specs.IntegerTypes.{is_size};
ghost use Rattle.c_layout.specs.Models.{is_model};
ghost use Rattle.cfg.specs.ThresholdNumbers.{ends_of, size_ends, limits_of, neighbours};
ghost use Rattle.cfg.specs.FlowNumbers.{operation_numbers, edge_numbers, base_numbers, instructions_numbers, blocks_numbers, edges_numbers, bases_numbers};

use crate::basic_blocks::BasicBlock;
use crate::flow_edges::{Edge, EdgeKind};
use crate::machine_instructions::{Instruction, Operation};
use c_layout::{BaseInfo, BaseKind, Model};
use cc_base::IntType;
use std::alloc::{AllocError, Global};

/// END, the offset of a first zero byte that is not there.
const END: i128 = 0x1_0000_0000_0000_0000;

fn push_ends(out: &mut Vec<i128>, kind: IntType) -> Result<(), AllocError>
    requires { is_size kind.bytes ≡ true }
    ensures { IfOk result (λ _. out.new.items ≡ out.old.items ++ ends_of kind) }
{
    out.push(kind.least())?;
    out.push(kind.greatest())?;
    Ok(())
}

/// Adds the ends of the signed and the unsigned type of a size.
fn push_size_ends(out: &mut Vec<i128>, bytes: u8) -> Result<(), AllocError>
    requires { is_size bytes ≡ true }
    ensures { IfOk result (λ _. out.new.items ≡ out.old.items ++ size_ends bytes) }
{
    let signed = IntType {
        bytes,
        signed: true,
        rank: 0,
    };
    push_ends(out, signed)?;
    let unsigned = IntType {
        bytes,
        signed: false,
        rank: 0,
    };
    push_ends(out, unsigned)
}

/// The ends of each integer type, and END.
pub(crate) fn limits(alloc: Global, model: &Model) -> Result<Vec<i128>, AllocError>
    requires { is_model model.now ≡ true }
    ensures { IfOk result (λ v. v.items ≡ limits_of model.now) }
{
    let mut out = Vec::new(alloc);
    push_size_ends(&mut out, 1)?;
    push_size_ends(&mut out, model.short)?;
    push_size_ends(&mut out, model.int)?;
    push_size_ends(&mut out, model.long)?;
    push_size_ends(&mut out, model.long_long)?;
    out.push(END)?;
    Ok(out)
}

/// Adds a number with its two neighbours; one that has none comes to want of memory, since no
/// program has such a number.
fn push_neighbours(out: &mut Vec<i128>, n: i128) -> Result<(), AllocError>
    ensures { IfOk result (λ _. out.new.items ≡ out.old.items ++ neighbours n) }
{
    let below = n.checked_sub(1).ok_or(AllocError)?;
    let above = n.checked_add(1).ok_or(AllocError)?;
    out.push(below)?;
    out.push(n)?;
    out.push(above)?;
    Ok(())
}

fn push_operation(out: &mut Vec<i128>, operation: &Operation) -> Result<(), AllocError>
    ensures { IfOk result (λ _. out.new.items ≡ out.old.items ++ operation_numbers operation.now) }
{
    match operation {
        Operation::Constant(_, n, _) => push_neighbours(out, *n),
        Operation::Narrow(_, _, _, size) => Ok(out.push(*size as i128)?),
        _ => Ok(()),
    }
}

fn push_instructions(out: &mut Vec<i128>, instructions: &[Instruction]) -> Result<(), AllocError>
    ensures { IfOk result (λ _. out.new.items ≡ out.old.items ++ instructions_numbers instructions.now) }
{
    for at in 0..instructions.len() {
        push_operation(out, &instructions[at].operation)?;
    }
    Ok(())
}

pub(crate) fn push_blocks(out: &mut Vec<i128>, blocks: &[BasicBlock]) -> Result<(), AllocError>
    ensures { IfOk result (λ _. out.new.items ≡ out.old.items ++ blocks_numbers blocks.now) }
{
    for at in 0..blocks.len() {
        push_instructions(out, blocks[at].instructions.as_slice())?;
    }
    Ok(())
}

fn push_edge(out: &mut Vec<i128>, kind: &EdgeKind) -> Result<(), AllocError>
    ensures { IfOk result (λ _. out.new.items ≡ out.old.items ++ edge_numbers kind.now) }
{
    match kind {
        EdgeKind::Case(test) => push_neighbours(out, test.value),
        EdgeKind::Jump
        | EdgeKind::When(_, _, _)
        | EdgeKind::Other(_)
        | EdgeKind::NoLine
        | EdgeKind::Line => Ok(()),
    }
}

pub(crate) fn push_edges(out: &mut Vec<i128>, edges: &[Edge]) -> Result<(), AllocError>
    ensures { IfOk result (λ _. out.new.items ≡ out.old.items ++ edges_numbers edges.now) }
{
    for at in 0..edges.len() {
        push_edge(out, &edges[at].kind)?;
    }
    Ok(())
}

fn push_base(out: &mut Vec<i128>, kind: BaseKind, size: u64) -> Result<(), AllocError>
    ensures { IfOk result (λ _. out.new.items ≡ out.old.items ++ base_numbers kind size) }
{
    match kind {
        BaseKind::Static | BaseKind::Automatic => Ok(out.push(size as i128)?),
        BaseKind::Literal | BaseKind::Newest | BaseKind::Older => Ok(()),
    }
}

pub(crate) fn push_bases(out: &mut Vec<i128>, bases: &[BaseInfo]) -> Result<(), AllocError>
    ensures { IfOk result (λ _. out.new.items ≡ out.old.items ++ bases_numbers bases.now) }
{
    for at in 0..bases.len() {
        let base = &bases[at];
        push_base(out, base.kind, base.size)?;
    }
    Ok(())
}
