//! Expressions from the comma operator down to the binary operators (6.5.5 to 6.5.17).
ghost use Rattle.std.specs.Prelude.{◌≡◌, ◌<◌, ◌≤◌, IfOk};
ghost use Rattle.c_layout.specs.SyntaxTrees.{tree_of};
ghost use Rattle.c_parser_expression_grammar.specs.Findings.{Found, FoundLevel, is_unary};
ghost use Rattle.c_parser_expression_grammar.specs.Readings.{got};
ghost use Rattle.c_parser_expression_grammar.specs.ReadingResults.{Reads};
ghost use Rattle.c_parser_expression_grammar.specs.TypeNameReaders.{all_readers};

use crate::unary_expressions::cast;
use c_layout::Expr;
use c_parser_expression_grammar::{
    LOGICAL_OR, Parsed, Reader, Scope, Trouble, assign_at, assign_node, assign_sign, comma_node,
    conditional_node, infix_from, infix_level, infix_node, infix_sign, inner,
};
use c_parser_tokens::Punctuator;

/// An expression of a level from logical-OR-expression to cast-expression. Operators group from the
/// left, and one that binds tighter takes its operands first.
#[tactic(auto, using(crate::proofs::Climbing::first, crate::proofs::Climbing::more, crate::proofs::Climbing::last))]
#[cycle(expressions)]
fn binary(
    scope: Scope<'_>,
    reader: &mut Reader<'_>,
    level: u32,
    budget: u32,
) -> Result<Parsed<Box<Expr>>, Trouble>
    requires from { 0 < level }
    requires to { level ≤ 13 }
    ensures found { IfOk result (λ n. FoundLevel scope.entry.typedefs.now level budget (tree_of n.tree.value) n.height reader.old reader.new) }
    ensures read { Reads result (λ n. got (tree_of n.tree.value) n.height reader.new) ((all_readers scope.entry.typedefs.now budget).binary level reader.old) }
{
    let mut left = cast(scope, reader, budget)?;
    for _turn in 0..budget {
        let Some(op) = infix_from(level, reader.peek()) else {
            return Ok(left);
        };
        let place = reader.expect(infix_sign(op))?;
        let right = binary(scope, reader, infix_level(op) + 1, inner(budget)?)?;
        left = infix_node(scope.alloc, place, op, left, right, budget)?;
    }
    match infix_from(level, reader.peek()) {
        None => Ok(left),
        Some(_) => Err(Trouble::Syntax),
    }
}

/// A conditional-expression, which is a constant-expression too.
#[tactic(auto, using(crate::proofs::Productions::as_conditional, crate::proofs::Productions::conditional))]
#[cycle(expressions)]
pub fn conditional(
    scope: Scope<'_>,
    reader: &mut Reader<'_>,
    budget: u32,
) -> Result<Parsed<Box<Expr>>, Trouble>
    ensures found { IfOk result (λ n. Found scope.entry.typedefs.now 2 budget (tree_of n.tree.value) n.height reader.old reader.new) }
    ensures read { Reads result (λ n. got (tree_of n.tree.value) n.height reader.new) ((all_readers scope.entry.typedefs.now budget).conditional reader.old) }
{
    let condition = binary(scope, reader, LOGICAL_OR, budget)?;
    if !reader.is_at(Punctuator::Question) {
        return Ok(condition);
    }
    let place = reader.expect(Punctuator::Question)?;
    let first = expression(scope, reader, inner(budget)?)?;
    reader.expect(Punctuator::Colon)?;
    let second = conditional(scope, reader, inner(budget)?)?;
    conditional_node(scope.alloc, place, condition, first, second, budget)
}

/// Whether an expression is a unary-expression.
fn is_unary(e: &Expr) -> bool
    ensures { result ≡ is_unary (tree_of e.now) }
{
    match e {
        Expr::Cast(_, _, _, _)
        | Expr::Binary(_, _, _, _)
        | Expr::Logical(_, _, _, _)
        | Expr::Conditional(_, _, _, _)
        | Expr::Assign(_, _, _, _)
        | Expr::Comma(_, _, _) => false,
        _ => true,
    }
}

/// An assignment-expression.
#[tactic(auto, using(crate::proofs::Productions::as_assignment, crate::proofs::Productions::assigned))]
#[cycle(expressions)]
pub fn assignment(
    scope: Scope<'_>,
    reader: &mut Reader<'_>,
    budget: u32,
) -> Result<Parsed<Box<Expr>>, Trouble>
    ensures found { IfOk result (λ n. Found scope.entry.typedefs.now 1 budget (tree_of n.tree.value) n.height reader.old reader.new) }
    ensures read { Reads result (λ n. got (tree_of n.tree.value) n.height reader.new) ((all_readers scope.entry.typedefs.now budget).assignment reader.old) }
{
    let left = conditional(scope, reader, budget)?;
    let Some(op) = assign_at(reader.peek()) else {
        return Ok(left);
    };
    if !is_unary(&left.tree) {
        return Err(Trouble::Syntax);
    }
    let Some(sign) = assign_sign(op) else {
        return Err(Trouble::Syntax);
    };
    let place = reader.expect(sign)?;
    let right = assignment(scope, reader, inner(budget)?)?;
    let whole = assign_node(scope.alloc, place, op, left, right, budget)?;
    Ok(whole)
}

/// An expression. Its height is at most `budget`.
///
/// # Errors
///
/// `Syntax` where no expression of such a height stands next, or want of memory.
#[tactic(auto, using(crate::proofs::Productions::as_expression, crate::proofs::Productions::comma))]
#[cycle(expressions)]
pub fn expression(
    scope: Scope<'_>,
    reader: &mut Reader<'_>,
    budget: u32,
) -> Result<Parsed<Box<Expr>>, Trouble>
    ensures found { IfOk result (λ n. Found scope.entry.typedefs.now 0 budget (tree_of n.tree.value) n.height reader.old reader.new) }
    ensures read { Reads result (λ n. got (tree_of n.tree.value) n.height reader.new) ((all_readers scope.entry.typedefs.now budget).expression reader.old) }
{
    let mut found = assignment(scope, reader, budget)?;
    for _turn in 0..budget {
        if !reader.is_at(Punctuator::Comma) {
            return Ok(found);
        }
        let place = reader.expect(Punctuator::Comma)?;
        let second = assignment(scope, reader, inner(budget)?)?;
        found = comma_node(scope.alloc, place, found, second, budget)?;
    }
    if reader.is_at(Punctuator::Comma) {
        return Err(Trouble::Syntax);
    }
    Ok(found)
}
