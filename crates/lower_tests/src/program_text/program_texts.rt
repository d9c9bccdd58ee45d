//! The text of a control-flow program.
use crate::program_text::edge_texts::push_edge;
use crate::program_text::operation_texts::push_operation;
use crate::program_text::word_texts::{class_text, kind_text};
use c_layout::{BaseInfo, Leaf, ZeroPart};
use cfg::{BasicBlock, Edge, Flow, Instruction};
use std::alloc::{AllocError, Global};
use std::fmt::Write;

fn push_instruction(out: &mut String, instruction: &Instruction) -> Result<(), AllocError> {
    let (line, col) = (instruction.place.line, instruction.place.col);
    write!(out, "  {line}:{col} ")?;
    push_operation(out, &instruction.operation)?;
    out.push_str("\n")
}

fn push_block(
    out: &mut String,
    number: usize,
    block: &BasicBlock,
    edges: &[Edge],
) -> Result<(), AllocError> {
    write!(out, "block {number}")?;
    if block.is_head {
        out.push_str(" head")?;
    }
    out.push_str("\n")?;
    for instruction in block.instructions.iter() {
        push_instruction(out, instruction)?;
    }
    let first = block.first_edge as usize;
    for edge in edges.iter().skip(first).take(block.edges as usize) {
        push_edge(out, edge)?;
    }
    Ok(())
}

fn push_leaf(out: &mut String, leaf: &Leaf) -> Result<(), AllocError> {
    let sign = if leaf.signed { "s" } else { "u" };
    let class = class_text(leaf.class);
    let (offset, stride, count) = (leaf.offset, leaf.stride, leaf.count);
    write!(out, " {sign}{class}@{offset}")?;
    if count != 1 {
        write!(out, "+{stride}*{count}")?;
    }
    Ok(())
}

fn push_zero(out: &mut String, zero: &ZeroPart) -> Result<(), AllocError> {
    let offset = zero.offset;
    match zero.size {
        Some(size) => write!(out, " F@{offset}:{size}"),
        None => write!(out, " F@{offset}"),
    }
}

fn push_base(out: &mut String, number: usize, base: &BaseInfo) -> Result<(), AllocError> {
    let kind = kind_text(base.kind);
    let (size, first) = (base.size, base.first);
    write!(out, "base {number} {kind} size {size} first {first}:")?;
    for leaf in base.shape.cells.as_slice() {
        push_leaf(out, leaf)?;
    }
    for zero in base.shape.zeros.as_slice() {
        push_zero(out, zero)?;
    }
    out.push_str("\n")
}

/// The program as text for people and tests: a line for each base, block, instruction and edge.
pub fn program_text(alloc: Global, flow: &Flow) -> Result<String, AllocError> {
    let mut out = String::new(alloc);
    let (temps, width) = (flow.temps, flow.width);
    write!(out, "temps {temps}, width {width}\n")?;
    for (number, base) in flow.bases.iter().enumerate() {
        push_base(&mut out, number, base)?;
    }
    for (number, block) in flow.blocks.iter().enumerate() {
        push_block(&mut out, number, block, flow.edges.as_slice())?;
    }
    Ok(out)
}
