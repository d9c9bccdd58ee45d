//! What stands behind the operand of a postfix expression (6.5.2).
ghost use Rattle.std.specs.Prelude.{◌≡◌, ◌+◌, ◌≤◌, max, IfOk, IfErr};
ghost use Rattle.c_layout.specs.SyntaxTrees.{tree_of};
ghost use Rattle.c_parser_expression_grammar.specs.Findings.{suffixed};
ghost use Rattle.c_parser_expression_grammar.specs.ReadingResults.{OnSyntax};

use crate::heights::{Parsed, Trouble, made};
use c_layout::{Expr, Name, StepOp};
use cc_base::Place;
use std::alloc::Global;

/// An operator behind an operand.
#[derive(Drop)]
pub enum Suffix {
    /// `[`, and the index behind it.
    Subscript(Place, Box<Expr>),
    /// `.`
    Member(Place, Name),
    /// `->`
    Arrow(Place, Name),
    /// `++` or `--`
    Step(Place, StepOp),
}

/// An operand and the operator behind it.
pub fn suffix_node(
    alloc: Global,
    operand: Parsed<Box<Expr>>,
    suffix: Parsed<Suffix>,
    budget: u32,
) -> Result<Parsed<Box<Expr>>, Trouble>
    ensures tree { IfOk result (λ n. tree_of n.tree.value ≡ suffixed suffix.tree (tree_of operand.tree.value)) }
    ensures height { IfOk result (λ n. (n.height ≡ max operand.height suffix.height + 1) × (n.height ≤ budget)) }
    ensures refused { IfErr result (OnSyntax (budget ≤ max operand.height suffix.height)) }
{
    let height = made(budget, operand.height.max(suffix.height))?;
    let tree = match suffix.tree {
        Suffix::Subscript(at, index) => Expr::Subscript(at, operand.tree, index),
        Suffix::Member(at, name) => Expr::Member(at, operand.tree, name.text),
        Suffix::Arrow(at, name) => Expr::Arrow(at, operand.tree, name.text),
        Suffix::Step(at, op) => Expr::Postfix(at, op, operand.tree),
    };
    let tree = Box::new(alloc, tree)?;
    Ok(Parsed { tree, height })
}
