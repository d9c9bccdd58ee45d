//! Edges between blocks, with what is known on them.
use crate::machine_instructions::Scalar;
use cc_base::{IntType, Rel};

/// A side of a test: a named object or a number.
#[derive(Clone, Copy, PartialEq, Eq, Debug)]
pub enum Side {
    /// The scalar at the start of a base.
    Object(u32, Scalar),
    /// A constant, before its conversion to the common type.
    Number(i128),
    /// A null pointer constant.
    Null,
}

/// A relation that holds on an edge: two sides and, for integers, the common type.
#[derive(Clone, Copy, PartialEq, Eq, Debug)]
pub struct Test {
    pub left: Side,
    pub rel: Rel,
    pub right: Side,
    pub common: Option<IntType>,
}

/// What a case edge knows: the label's value, and the integer object that is switched on, where the
/// controlling expression is one.
#[derive(Clone, Copy, PartialEq, Eq, Debug)]
pub struct CaseTest {
    pub value: i128,
    pub object: Option<u32>,
}

/// When an edge is taken, and what it does.
#[derive(Drop)]
pub enum EdgeKind {
    /// Always.
    Jump,
    /// Where the temporary of the branch is not 0 (true) or is 0 (false): the test that then holds,
    /// and a temporary that takes 0 or 1.
    When(bool, Option<Test>, Option<(u32, i128)>),
    /// Where the value that is switched on is the label's.
    Case(CaseTest),
    /// Where the value that is switched on is none of these.
    Other(Vec<i128>),
    /// The two edges of a call of `fgets`: its answer is null, or the line was read.
    NoLine,
    Line,
}

/// An edge. Edges are numbered by their source blocks.
#[derive(Drop)]
pub struct Edge {
    pub from: u32,
    pub to: u32,
    pub kind: EdgeKind,
}
