//! The bodies of blocks, and the edges with which they end.
ghost use Rattle.std.specs.Prelude.{◌≡◌, true, false};
ghost use Rattle.cfg.specs.WellFormed as spec;
ghost use Rattle.cfg.specs.WellFormed.{On, Once, TwoWays, ByCases, ByLine};
ghost use Rattle.cfg_checks.specs.Bodies.{is_on};

use cfg::{Edge, EdgeKind, Instruction, Operation};
use cfg_bases_checks::same_truth;

fn is_jump(kind: &EdgeKind) -> bool
    ensures { result ≡ spec.is_jump kind.now }
{
    match kind {
        EdgeKind::Jump => true,
        _ => false,
    }
}

/// Whether an edge is that of a branch with this truth.
fn is_when(truth: bool, kind: &EdgeKind) -> bool
    ensures { result ≡ spec.is_when truth kind.now }
{
    match kind {
        EdgeKind::When(on, _, _) => same_truth(truth, *on),
        _ => false,
    }
}

fn is_case(kind: &EdgeKind) -> bool
    ensures { result ≡ spec.is_case kind.now }
{
    match kind {
        EdgeKind::Case(_) => true,
        _ => false,
    }
}

fn is_other(kind: &EdgeKind) -> bool
    ensures { result ≡ spec.is_other kind.now }
{
    match kind {
        EdgeKind::Other(_) => true,
        _ => false,
    }
}

fn is_no_line(kind: &EdgeKind) -> bool
    ensures { result ≡ spec.is_no_line kind.now }
{
    match kind {
        EdgeKind::NoLine => true,
        _ => false,
    }
}

fn is_line(kind: &EdgeKind) -> bool
    ensures { result ≡ spec.is_line kind.now }
{
    match kind {
        EdgeKind::Line => true,
        _ => false,
    }
}

/// Whether there is one edge, a jump.
fn is_one_jump(own: &[Edge]) -> bool
    ensures { result ≡ spec.are_led Once own.now }
{
    match own {
        [] => false,
        [edge] => is_jump(&edge.kind),
        [_, _, ..] => false,
    }
}

/// Whether there are two edges, the true one first.
fn are_two_ways(own: &[Edge]) -> bool
    ensures { result ≡ spec.are_led TwoWays own.now }
{
    match own {
        [] => false,
        [_] => false,
        [first, second] => is_when(true, &first.kind) && is_when(false, &second.kind),
        [_, _, _, ..] => false,
    }
}

/// Whether there are two edges, that of no line first.
fn are_line_ways(own: &[Edge]) -> bool
    ensures { result ≡ spec.are_led ByLine own.now }
{
    match own {
        [] => false,
        [_] => false,
        [first, second] => is_no_line(&first.kind) && is_line(&second.kind),
        [_, _, _, ..] => false,
    }
}

/// Whether the last one of some edges is that of all other values, and those before it are cases.
fn are_cases(own: &[Edge]) -> bool
    ensures { result ≡ spec.are_cases own.now }
{
    for at in 0..own.len() {
        if at + 1 == own.len() {
            return is_other(&own[at].kind);
        }
        if !is_case(&own[at].kind) {
            return false;
        }
    }
    false
}

/// Whether the instruction behind an operation is one of the same block.
fn leads_on(operation: &Operation) -> bool
    ensures { result ≡ is_on (spec.leads operation.now) }
{
    match operation {
        Operation::Jump => false,
        Operation::Branch(_, _) => false,
        Operation::Switch(_, _) => false,
        Operation::ReadLine(_, _, _, _) => false,
        Operation::Stop => false,
        _ => true,
    }
}

/// Whether edges are those with which an operation ends its block.
fn are_led(operation: &Operation, own: &[Edge]) -> bool
    ensures { result ≡ spec.are_led (spec.leads operation.now) own.now }
{
    match operation {
        Operation::Jump => is_one_jump(own),
        Operation::Branch(_, _) => are_two_ways(own),
        Operation::Switch(_, _) => are_cases(own),
        Operation::ReadLine(_, _, _, _) => are_line_ways(own),
        Operation::Stop => own.is_empty(),
        _ => false,
    }
}

/// Whether the last one of some instructions ends the block, by these edges, and no other one does.
pub fn is_body(instructions: &[Instruction], own: &[Edge]) -> bool
    ensures { result ≡ spec.is_body On instructions.now own.now }
{
    for at in 0..instructions.len() {
        let operation = &instructions[at].operation;
        if !leads_on(operation) {
            return at + 1 == instructions.len() && are_led(operation, own);
        }
    }
    false
}
