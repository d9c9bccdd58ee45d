//! Copies of instructions and of what edges know.
ghost use Rattle.std.specs.Prelude.{◌≡◌, IfOk, IfSome, map};
ghost use Rattle.lower_templates.specs.Worklist.Acts.{act, step, Library};
ghost use Rattle.lower_templates.specs.Worklist.Pieces.{way};

use c_layout::LibFn;
use cfg::{EdgeKind, Instruction, Operation};
use std::alloc::{AllocError, Global};

/// An operation that has no list, as it is.
fn plain_copy(operation: &Operation) -> Option<Operation>
    ensures { IfSome result (λ o. act o ≡ act operation.now) }
{
    match operation {
        Operation::Constant(to, n, kind) => Some(Operation::Constant(*to, *n, *kind)),
        Operation::Address(to, base, at) => Some(Operation::Address(*to, *base, *at)),
        Operation::Load(to, from, kind) => Some(Operation::Load(*to, *from, *kind)),
        Operation::Store(to, from, kind, kept) => {
            Some(Operation::Store(*to, *from, *kind, *kept))
        }
        Operation::Copy(to, from, number) => Some(Operation::Copy(*to, *from, *number)),
        Operation::Narrow(to, from, at, size) => Some(Operation::Narrow(*to, *from, *at, *size)),
        Operation::Shift(to, from, by, size, back) => {
            Some(Operation::Shift(*to, *from, *by, *size, *back))
        }
        Operation::Binary(to, op, a, b, kind) => Some(Operation::Binary(*to, *op, *a, *b, *kind)),
        Operation::Unary(to, op, from, kind) => Some(Operation::Unary(*to, *op, *from, *kind)),
        Operation::Compare(to, rel, a, b) => Some(Operation::Compare(*to, *rel, *a, *b)),
        Operation::Not(to, from, kind) => Some(Operation::Not(*to, *from, *kind)),
        Operation::Difference(to, a, b, size) => Some(Operation::Difference(*to, *a, *b, *size)),
        Operation::ComparePointers(to, rel, a, b) => {
            Some(Operation::ComparePointers(*to, *rel, *a, *b))
        }
        Operation::Convert(to, from, old, new) => {
            Some(Operation::Convert(*to, *from, *old, *new))
        }
        Operation::Library(_, _, _, _, _) => None,
        Operation::Enter(base) => Some(Operation::Enter(*base)),
        Operation::Leave(base) => Some(Operation::Leave(*base)),
        Operation::Forget(base) => Some(Operation::Forget(*base)),
        Operation::Clear(base) => Some(Operation::Clear(*base)),
        Operation::Spell(_, _, _, _) => None,
        Operation::Jump => Some(Operation::Jump),
        Operation::Branch(from, kind) => Some(Operation::Branch(*from, *kind)),
        Operation::Switch(from, kind) => Some(Operation::Switch(*from, *kind)),
        Operation::ReadLine(to, a, b, c) => Some(Operation::ReadLine(*to, *a, *b, *c)),
        Operation::Stop => Some(Operation::Stop),
    }
}

/// A library call.
fn library_copy(
    alloc: Global,
    to: Option<u32>,
    function: LibFn,
    arguments: &[u32],
    newest: Option<u32>,
    size: Option<u64>,
) -> Result<Operation, AllocError>
    ensures { IfOk result (λ o. act o ≡ Library to function arguments.now newest size) }
{
    let arguments = Vec::from_slice(alloc, arguments)?;
    Ok(Operation::Library(to, function, arguments, newest, size))
}

fn operation_copy(alloc: Global, operation: &Operation) -> Result<Operation, AllocError>
    ensures { IfOk result (λ o. act o ≡ act operation.now) }
{
    match operation {
        Operation::Library(to, function, arguments, newest, size) => {
            library_copy(alloc, *to, *function, arguments.as_slice(), *newest, *size)
        }
        Operation::Spell(base, at, room, text) => {
            let text = text.copy(alloc)?;
            Ok(Operation::Spell(*base, *at, *room, text))
        }
        _ => plain_copy(operation).ok_or(AllocError),
    }
}

fn instruction_copy(alloc: Global, one: &Instruction) -> Result<Instruction, AllocError>
    ensures { IfOk result (λ i. step i ≡ step one.now) }
{
    Ok(Instruction {
        place: one.place,
        operation: operation_copy(alloc, &one.operation)?,
    })
}

/// The same instructions.
pub fn instruction_copies(
    alloc: Global,
    instructions: &[Instruction],
) -> Result<Vec<Instruction>, AllocError>
    ensures { IfOk result (λ v. map step v.items ≡ map step instructions.now) }
{
    let mut list = Vec::new(alloc);
    for one in instructions {
        let copy = instruction_copy(alloc, one)?;
        list.push(copy)?;
    }
    Ok(list)
}

/// What the same edge knows.
pub fn kind_copy(alloc: Global, kind: &EdgeKind) -> Result<EdgeKind, AllocError>
    ensures { IfOk result (λ k. way k ≡ way kind.now) }
{
    match kind {
        EdgeKind::Jump => Ok(EdgeKind::Jump),
        EdgeKind::When(truth, test, put) => Ok(EdgeKind::When(*truth, *test, *put)),
        EdgeKind::Case(case) => Ok(EdgeKind::Case(*case)),
        EdgeKind::Other(values) => {
            let values = Vec::from_slice(alloc, values.as_slice())?;
            Ok(EdgeKind::Other(values))
        }
        EdgeKind::NoLine => Ok(EdgeKind::NoLine),
        EdgeKind::Line => Ok(EdgeKind::Line),
    }
}
