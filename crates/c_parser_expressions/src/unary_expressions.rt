//! Casts and unary expressions (6.5.3, 6.5.4).
ghost use Rattle.std.specs.Prelude.{◌≡◌, ◌≤◌, IfOk, Some, None};
ghost use Rattle.c_layout.specs.SyntaxTrees.{tree_of};
ghost use Rattle.c_parser_expression_grammar.specs.Findings.{Found};
ghost use Rattle.c_parser_expression_grammar.specs.Fronts.{first_symbol};
ghost use Rattle.c_parser_expression_grammar.specs.Levels.{step_of, unary_of};
ghost use Rattle.c_parser_expression_grammar.specs.Readings.{got, expect, is_sizeof, is_left_parenthesis};
ghost use Rattle.c_parser_expression_grammar.specs.ReadingResults.{Reads};
ghost use Rattle.c_parser_expression_grammar.specs.ExpressionReaders.{size_of_type, size_of_expression, unary_by, cast_to};
ghost use Rattle.c_parser_expression_grammar.specs.TypeNameReaders.{all_readers, readers_inside};

use crate::postfix_expressions::postfix;
use crate::type_names::type_name;
use c_layout::{Expr, StepOp, UnaryOp};
use c_parser_expression_grammar::{
    Parsed, Reader, Scope, Trouble, cast_node, inner, prefix_node, sizeof_node, sizeof_type_node,
    step_at, step_sign, unary_at, unary_node, unary_sign,
};
use c_parser_tokens::{Keyword, Punctuator};

/// `sizeof` of a type name.
#[cycle(expressions)]
fn sizeof_type(
    scope: Scope<'_>,
    reader: &mut Reader<'_>,
    budget: u32,
) -> Result<Parsed<Box<Expr>>, Trouble>
    ensures found { IfOk result (λ n. Found scope.entry.typedefs.now 14 budget (tree_of n.tree.value) n.height reader.old reader.new) }
    ensures read { Reads result (λ n. got (tree_of n.tree.value) n.height reader.new) (expect is_sizeof reader.old (λ a. expect is_left_parenthesis a (λ _. size_of_type budget (readers_inside scope.entry.typedefs.now budget) reader.old))) }
{
    let place = reader.expect_word(Keyword::Sizeof)?;
    reader.expect(Punctuator::LeftParenthesis)?;
    let named = type_name(scope, reader, inner(budget)?)?;
    reader.expect(Punctuator::RightParenthesis)?;
    sizeof_type_node(scope.alloc, place, named, budget)
}

/// `sizeof` of an expression.
#[cycle(expressions)]
fn sizeof_expression(
    scope: Scope<'_>,
    reader: &mut Reader<'_>,
    budget: u32,
) -> Result<Parsed<Box<Expr>>, Trouble>
    ensures found { IfOk result (λ n. Found scope.entry.typedefs.now 14 budget (tree_of n.tree.value) n.height reader.old reader.new) }
    ensures read { Reads result (λ n. got (tree_of n.tree.value) n.height reader.new) (expect is_sizeof reader.old (λ a. size_of_expression budget (readers_inside scope.entry.typedefs.now budget) reader.old)) }
{
    let place = reader.expect_word(Keyword::Sizeof)?;
    let operand = unary(scope, reader, inner(budget)?)?;
    sizeof_node(scope.alloc, place, operand, budget)
}

/// `++` or `--` before a unary-expression.
#[cycle(expressions)]
fn step_expression(
    scope: Scope<'_>,
    reader: &mut Reader<'_>,
    op: StepOp,
    budget: u32,
) -> Result<Parsed<Box<Expr>>, Trouble>
    ensures found { IfOk result (λ n. Found scope.entry.typedefs.now 14 budget (tree_of n.tree.value) n.height reader.old reader.new) }
    ensures read { step_of (first_symbol reader.old) ≡ Some op → Reads result (λ n. got (tree_of n.tree.value) n.height reader.new) (unary_by budget (readers_inside scope.entry.typedefs.now budget) scope.entry.typedefs.now reader.old (Some op) None) }
{
    let place = reader.expect(step_sign(op))?;
    let operand = unary(scope, reader, inner(budget)?)?;
    prefix_node(scope.alloc, place, op, operand, budget)
}

/// A unary operator before a cast-expression.
#[cycle(expressions)]
fn operator_expression(
    scope: Scope<'_>,
    reader: &mut Reader<'_>,
    op: UnaryOp,
    budget: u32,
) -> Result<Parsed<Box<Expr>>, Trouble>
    ensures found { IfOk result (λ n. Found scope.entry.typedefs.now 14 budget (tree_of n.tree.value) n.height reader.old reader.new) }
    ensures read { unary_of (first_symbol reader.old) ≡ Some op → Reads result (λ n. got (tree_of n.tree.value) n.height reader.new) (unary_by budget (readers_inside scope.entry.typedefs.now budget) scope.entry.typedefs.now reader.old None (Some op)) }
{
    let place = reader.expect(unary_sign(op))?;
    let operand = cast(scope, reader, inner(budget)?)?;
    unary_node(scope.alloc, place, op, operand, budget)
}

/// A unary-expression.
#[tactic(auto, using(crate::proofs::Productions::as_unary))]
#[cycle(expressions)]
pub fn unary(
    scope: Scope<'_>,
    reader: &mut Reader<'_>,
    budget: u32,
) -> Result<Parsed<Box<Expr>>, Trouble>
    ensures found { IfOk result (λ n. Found scope.entry.typedefs.now 14 budget (tree_of n.tree.value) n.height reader.old reader.new) }
    ensures read { Reads result (λ n. got (tree_of n.tree.value) n.height reader.new) ((all_readers scope.entry.typedefs.now budget).unary reader.old) }
{
    if let Some(op) = step_at(reader.peek()) {
        return step_expression(scope, reader, op, budget);
    }
    if let Some(op) = unary_at(reader.peek()) {
        return operator_expression(scope, reader, op, budget);
    }
    if !reader.is_at_word(Keyword::Sizeof) {
        return postfix(scope, reader, budget);
    }
    if reader.is_before_type_name(scope) {
        sizeof_type(scope, reader, budget)
    } else {
        sizeof_expression(scope, reader, budget)
    }
}

/// A type name in parentheses and its operand.
#[cycle(expressions)]
fn cast_expression(
    scope: Scope<'_>,
    reader: &mut Reader<'_>,
    budget: u32,
) -> Result<Parsed<Box<Expr>>, Trouble>
    ensures found { IfOk result (λ n. Found scope.entry.typedefs.now 13 budget (tree_of n.tree.value) n.height reader.old reader.new) }
    ensures read { Reads result (λ n. got (tree_of n.tree.value) n.height reader.new) (expect is_left_parenthesis reader.old (λ _. cast_to budget (readers_inside scope.entry.typedefs.now budget) reader.old)) }
{
    let place = reader.expect(Punctuator::LeftParenthesis)?;
    let named = type_name(scope, reader, inner(budget)?)?;
    reader.expect(Punctuator::RightParenthesis)?;
    let operand = cast(scope, reader, inner(budget)?)?;
    cast_node(scope.alloc, place, named, operand, budget)
}

/// A cast-expression.
#[tactic(auto, using(crate::proofs::Productions::as_cast))]
#[cycle(expressions)]
pub fn cast(
    scope: Scope<'_>,
    reader: &mut Reader<'_>,
    budget: u32,
) -> Result<Parsed<Box<Expr>>, Trouble>
    ensures found { IfOk result (λ n. Found scope.entry.typedefs.now 13 budget (tree_of n.tree.value) n.height reader.old reader.new) }
    ensures read { Reads result (λ n. got (tree_of n.tree.value) n.height reader.new) ((all_readers scope.entry.typedefs.now budget).cast reader.old) }
{
    if reader.opens_type_name(scope) {
        cast_expression(scope, reader, budget)
    } else {
        unary(scope, reader, budget)
    }
}
