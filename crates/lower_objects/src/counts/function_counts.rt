//! What a function adds to a control-flow program, counted without making it.
ghost use Rattle.std.specs.Prelude.{◌≡◌, ◌+◌, ◌*◌, cond, map, IfOk, Some, slice_get};
ghost use Rattle.lower_templates.specs.Worklist.Acts.{act};
ghost use Rattle.lower_templates.specs.Worklist.Pieces.{piece_view};
ghost use Rattle.lower_objects.specs.Counts.Extents.{capped, with_instruction, with_end, with_mark, added_by, with_call};
ghost use Rattle.lower_objects.specs.Counts.PieceCounts as spec;
ghost use Rattle.lower_objects.specs.Counts.PieceCounts.{counted};

use cfg::Operation;
use lower_functions::functions::{OwnCall, Piece};
use lower_templates::worklist::behind;
use std::alloc::AllocError;

/// The greatest count; it stands for all greater ones too.
const MOST: u64 = 1_000_000_000_000_000_000;

/// A sum of counts.
pub fn capped_sum(a: u64, b: u64) -> u64
    ensures { result ≡ capped (a + b) }
{
    a.saturating_add(b).min(MOST)
}

/// A product of counts.
pub fn capped_product(a: u64, b: u64) -> u64
    ensures { result ≡ capped (a * b) }
{
    a.saturating_mul(b).min(MOST)
}

/// What was made so far: blocks that ended, instructions, and whether the current block has none.
#[derive(Clone, Copy)]
pub struct BlockExtent {
    pub blocks: u64,
    pub instructions: u64,
    pub is_empty: bool,
}

/// What a function adds where it begins in an empty block and in one that has instructions; its
/// temporaries; the bases and cells of its objects and allocations; how many instructions more it has
/// where its value is used; and whether it adds nothing at all.
#[derive(Clone, Copy)]
pub struct FunctionCounts {
    pub from_empty: BlockExtent,
    pub from_begun: BlockExtent,
    pub temps: u64,
    pub bases: u64,
    pub cells: u64,
    pub if_used: u64,
    pub is_silent: bool,
}

fn after_instruction(at: BlockExtent) -> BlockExtent
    ensures { result ≡ with_instruction at }
{
    BlockExtent {
        blocks: at.blocks,
        instructions: capped_sum(at.instructions, 1),
        is_empty: false,
    }
}

fn after_end(at: BlockExtent) -> BlockExtent
    ensures { result ≡ with_end at }
{
    BlockExtent {
        blocks: capped_sum(at.blocks, 1),
        instructions: capped_sum(at.instructions, 1),
        is_empty: true,
    }
}

/// A label: where the current block has instructions, a jump ends it.
fn after_mark(at: BlockExtent) -> BlockExtent
    ensures { result ≡ with_mark at }
{
    if at.is_empty { at } else { after_end(at) }
}

fn used_instructions(counts: FunctionCounts, used: bool) -> u64
    ensures { result ≡ cond used counts.if_used 0 }
{
    if used { counts.if_used } else { 0 }
}

fn extent_from(counts: FunctionCounts, is_empty: bool) -> BlockExtent
    ensures { result ≡ added_by counts is_empty }
{
    if is_empty {
        counts.from_empty
    } else {
        counts.from_begun
    }
}

fn after_call(at: BlockExtent, counts: FunctionCounts, used: bool) -> BlockExtent
    ensures { result ≡ with_call at counts used }
{
    let added = extent_from(counts, at.is_empty);
    let instructions = capped_sum(added.instructions, used_instructions(counts, used));
    BlockExtent {
        blocks: capped_sum(at.blocks, added.blocks),
        instructions: capped_sum(at.instructions, instructions),
        is_empty: added.is_empty,
    }
}

/// The counts of a function that was counted before.
pub fn counts_at(
    table: &[Option<FunctionCounts>],
    function: u32,
) -> Result<FunctionCounts, AllocError>
    ensures counts { IfOk result (λ c. c ≡ counted table.now function) }
    ensures there { IfOk result (λ c. slice_get table.now function ≡ Some (Some c)) }
{
    match table.get(function as usize) {
        Some(found) => match found {
            Some(counts) => Ok(*counts),
            None => Err(AllocError),
        },
        None => Err(AllocError),
    }
}

fn after_piece(
    at: BlockExtent,
    piece: &Piece,
    table: &[Option<FunctionCounts>],
) -> Result<BlockExtent, AllocError>
    ensures { IfOk result (λ e. e ≡ spec.with_piece table.now (piece_view piece.now) at) }
{
    match piece {
        Piece::Do(_) => Ok(after_instruction(at)),
        Piece::DoIfUsed(_) => Ok(at),
        Piece::End(_, _) => Ok(after_end(at)),
        Piece::Mark(_) => Ok(after_mark(at)),
        Piece::Call(call) => {
            let counts = counts_at(table, call.function)?;
            Ok(after_call(at, counts, call.used))
        }
    }
}

/// What pieces add to a block that has no instruction or has some.
pub fn extent(
    pieces: &[Piece],
    is_empty: bool,
    table: &[Option<FunctionCounts>],
) -> Result<BlockExtent, AllocError>
    ensures { IfOk result (λ e. e ≡ spec.extent table.now (map piece_view pieces.now) is_empty) }
{
    let mut at = BlockExtent {
        blocks: 0,
        instructions: 0,
        is_empty,
    };
    for piece in pieces {
        at = after_piece(at, piece, table)?;
    }
    Ok(at)
}

/// How many temporaries there are up to one that may take a result.
fn result_temps(to: Option<u32>) -> u32
    ensures { result ≡ spec.result_temps to }
{
    match to {
        Some(to) => behind(to, 1),
        None => 0,
    }
}

/// How many temporaries there are up to the one that an operation writes.
fn written(operation: &Operation) -> u32
    ensures { result ≡ spec.written (act operation.now) }
{
    match operation {
        Operation::Constant(to, _, _) => behind(*to, 1),
        Operation::Address(to, _, _) => behind(*to, 1),
        Operation::Load(to, _, _) => behind(*to, 1),
        Operation::Store(_, _, _, _) => 0,
        Operation::Copy(_, _, _) => 0,
        Operation::Narrow(to, _, _, _) => behind(*to, 1),
        Operation::Shift(to, _, _, _, _) => behind(*to, 1),
        Operation::Binary(to, _, _, _, _) => behind(*to, 1),
        Operation::Unary(to, _, _, _) => behind(*to, 1),
        Operation::Compare(to, _, _, _) => behind(*to, 1),
        Operation::Not(to, _, _) => behind(*to, 1),
        Operation::Difference(to, _, _, _) => behind(*to, 1),
        Operation::ComparePointers(to, _, _, _) => behind(*to, 1),
        Operation::Convert(to, _, _, _) => behind(*to, 1),
        Operation::Library(to, _, _, _, _) => result_temps(*to),
        Operation::Enter(_) => 0,
        Operation::Leave(_) => 0,
        Operation::Forget(_) => 0,
        Operation::Clear(_) => 0,
        Operation::Spell(_, _, _, _) => 0,
        Operation::Jump => 0,
        Operation::Branch(_, _) => 0,
        Operation::Switch(_, _) => 0,
        Operation::ReadLine(to, _, _, _) => result_temps(*to),
        Operation::Stop => 0,
    }
}

fn used_temps(call: OwnCall) -> u32
    ensures { result ≡ spec.used_temps call }
{
    if call.used { behind(call.depth, 1) } else { 0 }
}

/// The temporaries of a call whose function has these counts.
fn called_temps(call: OwnCall, counts: FunctionCounts) -> u64
    ensures { result ≡ spec.called_temps call counts }
{
    let inner = capped_sum(call.depth as u64, counts.temps);
    inner.max(used_temps(call) as u64)
}

fn piece_temps(piece: &Piece, table: &[Option<FunctionCounts>]) -> Result<u64, AllocError>
    ensures { IfOk result (λ n. n ≡ spec.piece_temps table.now (piece_view piece.now)) }
{
    match piece {
        Piece::Do(instruction) => Ok(written(&instruction.operation) as u64),
        Piece::End(instruction, _) => Ok(written(&instruction.operation) as u64),
        Piece::DoIfUsed(_) => Ok(0),
        Piece::Mark(_) => Ok(0),
        Piece::Call(call) => {
            let counts = counts_at(table, call.function)?;
            Ok(called_temps(*call, counts))
        }
    }
}

/// How many temporaries pieces need.
pub fn temps(pieces: &[Piece], table: &[Option<FunctionCounts>]) -> Result<u64, AllocError>
    ensures { IfOk result (λ n. n ≡ spec.temps table.now (map piece_view pieces.now) 0) }
{
    let mut most = 0;
    for piece in pieces {
        let found = piece_temps(piece, table)?;
        most = found.max(most);
    }
    Ok(most)
}

/// How many instructions a piece adds only where the value is used.
fn if_used_by(piece: &Piece) -> u64
    ensures { result ≡ spec.if_used_by (piece_view piece.now) }
{
    match piece {
        Piece::Do(_) => 0,
        Piece::DoIfUsed(_) => 1,
        Piece::End(_, _) => 0,
        Piece::Mark(_) => 0,
        Piece::Call(_) => 0,
    }
}

/// How many instructions are done only where the value is used.
pub fn if_used(pieces: &[Piece]) -> u64
    ensures { result ≡ spec.if_used (map piece_view pieces.now) 0 }
{
    let mut count = 0;
    for piece in pieces {
        count = capped_sum(count, if_used_by(piece));
    }
    count
}
