//! Expressions: each is typed after its parts, by the rule of its operator (6.5 of ISO/IEC
//! 9899:2011).
ghost use Rattle.std.specs.Prelude.{map};
ghost use Rattle.c_layout.specs.Types.{view};
ghost use Rattle.c_layout.specs.SyntaxTrees as syntax;
ghost use Rattle.c_layout.specs.SyntaxTrees.{tree_of, trees, type_name_view};
ghost use Rattle.c_types_scopes.specs.Answers.{Leads};
ghost use Rattle.c_types_scopes.specs.States.{state};
ghost use Rattle.c_types_operands.specs.Operands.{operand_view};
ghost use Rattle.c_types_expressions.specs.Expressions.Lengths.{length_view, lengths_view};
ghost use Rattle.c_types_expressions.specs.Expressions.Expressions as spec;

use crate::expressions::leaves::{first_argument, named, noted_callee};
use crate::expressions::lengths::length_of;
use c_layout::{CType, Expr, StepTime, TypeName};
use c_types_operands::{Operand, binary, parenthesized, subscript, term_of};
use c_types_operators::{
    assignment, cast, comma, conditional, logical, size_of_operand, size_of_type, step, unary,
};
use c_types_primary::{arrow, call, constant, literal, member, named_type};
use c_types_scopes::{Context, type_fault};
use cc_base::{Place, Stop, Text};

/// The length that an expression is: a constant above 0.
#[cycle(expressions)]
pub fn length(cx: &mut Context, e: &Expr) -> Result<Option<u64>, Stop>
    ensures { Leads length_view (spec.length (state cx.old) (tree_of e.now)) result (state cx.new) }
{
    let operand = typed(cx, e)?;
    let term = term_of(cx.alloc, operand)?;
    let length = length_of(&term);
    cx.keep_constant(term)?;
    Ok(length)
}

/// The lengths of a type name's arrays.
#[cycle(expressions)]
fn lengths(cx: &mut Context, expressions: &[Expr]) -> Result<Vec<Option<u64>>, Stop>
    ensures { Leads lengths_view (spec.lengths (state cx.old) (trees (map tree_of expressions.now))) result (state cx.new) }
{
    let mut made = Vec::new(cx.alloc);
    for e in expressions {
        made.push(length(cx, e)?)?;
    }
    Ok(made)
}

/// The type of a type name; `place` is that of the `sizeof` or the cast.
#[cycle(expressions)]
fn type_named(
    cx: &mut Context,
    place: Place,
    named: &TypeName,
    expressions: &[Expr],
) -> Result<CType, Stop>
    ensures { Leads view (spec.type_named (state cx.old) place (type_name_view named.now) (trees (map tree_of expressions.now))) result (state cx.new) }
{
    let lengths = lengths(cx, expressions)?;
    named_type(cx, place, named, lengths.as_slice())
}

/// The arguments of a call.
#[cycle(expressions)]
fn arguments(cx: &mut Context, expressions: &[Expr]) -> Result<Vec<Operand>, Stop>
    ensures { Leads (λ v. map operand_view v.items) (spec.operands (state cx.old) (trees (map tree_of expressions.now))) result (state cx.new) }
{
    let mut made = Vec::new(cx.alloc);
    for e in expressions {
        made.push(typed(cx, e)?)?;
    }
    Ok(made)
}

/// A call.
#[cycle(expressions)]
fn called(
    cx: &mut Context,
    place: Place,
    name: &Text,
    expressions: &[Expr],
) -> Result<Operand, Stop>
    ensures { Leads operand_view (spec.typed (state cx.old) (syntax.Call place name.now (trees (map tree_of expressions.now)))) result (state cx.new) }
{
    let callee = noted_callee(cx, place, name)?;
    let arguments = arguments(cx, expressions)?;
    let first = first_argument(expressions);
    call(cx, place, callee, first, arguments)
}

/// `sizeof` of an expression, which is not evaluated.
#[cycle(expressions)]
fn sized(cx: &mut Context, place: Place, e: &Expr) -> Result<Operand, Stop>
    ensures { Leads operand_view (spec.typed (state cx.old) (syntax.SizeofExpr place (tree_of e.now))) result (state cx.new) }
{
    let outer = cx.unevaluated;
    cx.unevaluated = outer.saturating_add(1);
    let operand = typed(cx, e)?;
    cx.unevaluated = outer;
    size_of_operand(cx, place, operand)
}

/// Primary and postfix expressions alone.
#[cycle(expressions)]
fn postfix(cx: &mut Context, e: &Expr) -> Result<Operand, Stop>
    ensures { Leads operand_view (spec.postfix (state cx.old) (tree_of e.now)) result (state cx.new) }
{
    match e {
        Expr::Name(at, text) => named(cx, *at, text),
        Expr::Constant(at, value) => Ok(constant(cx, *at, value)?),
        Expr::Literal(at, bytes) => literal(cx, *at, bytes),
        Expr::Paren(_, inner) => Ok(parenthesized(typed(cx, inner)?)),
        Expr::Subscript(at, left, right) => {
            let left = typed(cx, left)?;
            let right = typed(cx, right)?;
            subscript(cx, *at, left, right)
        }
        Expr::Call(at, callee, expressions) => called(cx, *at, callee, expressions.as_slice()),
        Expr::Member(at, whole, text) => {
            let whole = typed(cx, whole)?;
            member(cx, *at, whole, text)
        }
        Expr::Arrow(at, pointer, text) => {
            let pointer = typed(cx, pointer)?;
            arrow(cx, *at, pointer, text)
        }
        Expr::Postfix(at, op, operand) => {
            let operand = typed(cx, operand)?;
            step(cx, *at, *op, StepTime::Postfix, operand)
        }
        Expr::Prefix(at, _, _) => Err(type_fault(*at)),
        Expr::Unary(at, _, _) => Err(type_fault(*at)),
        Expr::SizeofExpr(at, _) => Err(type_fault(*at)),
        Expr::SizeofType(at, _, _) => Err(type_fault(*at)),
        Expr::Cast(at, _, _, _) => Err(type_fault(*at)),
        Expr::Binary(at, _, _, _) => Err(type_fault(*at)),
        Expr::Logical(at, _, _, _) => Err(type_fault(*at)),
        Expr::Conditional(at, _, _, _) => Err(type_fault(*at)),
        Expr::Assign(at, _, _, _) => Err(type_fault(*at)),
        Expr::Comma(at, _, _) => Err(type_fault(*at)),
    }
}

/// These, unary expressions and casts.
#[cycle(expressions)]
fn prefixed(cx: &mut Context, e: &Expr) -> Result<Operand, Stop>
    ensures { Leads operand_view (spec.prefixed (state cx.old) (tree_of e.now)) result (state cx.new) }
{
    match e {
        Expr::Prefix(at, op, operand) => {
            let operand = typed(cx, operand)?;
            step(cx, *at, *op, StepTime::Prefix, operand)
        }
        Expr::Unary(at, op, operand) => {
            let operand = typed(cx, operand)?;
            unary(cx, *at, *op, operand)
        }
        Expr::SizeofExpr(at, operand) => sized(cx, *at, operand),
        Expr::SizeofType(at, named, expressions) => {
            let named = type_named(cx, *at, named, expressions.as_slice())?;
            size_of_type(cx, *at, &named)
        }
        Expr::Cast(at, named, expressions, operand) => {
            let named = type_named(cx, *at, named, expressions.as_slice())?;
            let operand = typed(cx, operand)?;
            cast(cx, *at, named, operand)
        }
        Expr::Name(_, _) => postfix(cx, e),
        Expr::Constant(_, _) => postfix(cx, e),
        Expr::Literal(_, _) => postfix(cx, e),
        Expr::Paren(_, _) => postfix(cx, e),
        Expr::Subscript(_, _, _) => postfix(cx, e),
        Expr::Call(_, _, _) => postfix(cx, e),
        Expr::Member(_, _, _) => postfix(cx, e),
        Expr::Arrow(_, _, _) => postfix(cx, e),
        Expr::Postfix(_, _, _) => postfix(cx, e),
        Expr::Binary(at, _, _, _) => Err(type_fault(*at)),
        Expr::Logical(at, _, _, _) => Err(type_fault(*at)),
        Expr::Conditional(at, _, _, _) => Err(type_fault(*at)),
        Expr::Assign(at, _, _, _) => Err(type_fault(*at)),
        Expr::Comma(at, _, _) => Err(type_fault(*at)),
    }
}

/// These and operators between two operands.
#[cycle(expressions)]
fn combined(cx: &mut Context, e: &Expr) -> Result<Operand, Stop>
    ensures { Leads operand_view (spec.combined (state cx.old) (tree_of e.now)) result (state cx.new) }
{
    match e {
        Expr::Binary(at, op, left, right) => {
            let left = typed(cx, left)?;
            let right = typed(cx, right)?;
            binary(cx, *at, *op, left, right)
        }
        Expr::Logical(at, op, left, right) => {
            let left = typed(cx, left)?;
            let right = typed(cx, right)?;
            logical(cx, *at, *op, left, right)
        }
        Expr::Name(_, _) => prefixed(cx, e),
        Expr::Constant(_, _) => prefixed(cx, e),
        Expr::Literal(_, _) => prefixed(cx, e),
        Expr::Paren(_, _) => prefixed(cx, e),
        Expr::Subscript(_, _, _) => prefixed(cx, e),
        Expr::Call(_, _, _) => prefixed(cx, e),
        Expr::Member(_, _, _) => prefixed(cx, e),
        Expr::Arrow(_, _, _) => prefixed(cx, e),
        Expr::Postfix(_, _, _) => prefixed(cx, e),
        Expr::Prefix(_, _, _) => prefixed(cx, e),
        Expr::Unary(_, _, _) => prefixed(cx, e),
        Expr::SizeofExpr(_, _) => prefixed(cx, e),
        Expr::SizeofType(_, _, _) => prefixed(cx, e),
        Expr::Cast(_, _, _, _) => prefixed(cx, e),
        Expr::Conditional(at, _, _, _) => Err(type_fault(*at)),
        Expr::Assign(at, _, _, _) => Err(type_fault(*at)),
        Expr::Comma(at, _, _) => Err(type_fault(*at)),
    }
}

/// An expression with its type. A refusal is that of the first expression, in reading order, whose
/// parts have types and which has none.
#[cycle(expressions)]
pub fn typed(cx: &mut Context, e: &Expr) -> Result<Operand, Stop>
    ensures { Leads operand_view (spec.typed (state cx.old) (tree_of e.now)) result (state cx.new) }
{
    match e {
        Expr::Conditional(at, condition, first, second) => {
            let condition = typed(cx, condition)?;
            let first = typed(cx, first)?;
            let second = typed(cx, second)?;
            conditional(cx, *at, condition, first, second)
        }
        Expr::Assign(at, op, left, right) => {
            let left = typed(cx, left)?;
            let right = typed(cx, right)?;
            assignment(cx, *at, *op, left, right)
        }
        Expr::Comma(at, first, second) => {
            let first = typed(cx, first)?;
            let second = typed(cx, second)?;
            Ok(comma(cx, *at, first, second)?)
        }
        Expr::Name(_, _) => combined(cx, e),
        Expr::Constant(_, _) => combined(cx, e),
        Expr::Literal(_, _) => combined(cx, e),
        Expr::Paren(_, _) => combined(cx, e),
        Expr::Subscript(_, _, _) => combined(cx, e),
        Expr::Call(_, _, _) => combined(cx, e),
        Expr::Member(_, _, _) => combined(cx, e),
        Expr::Arrow(_, _, _) => combined(cx, e),
        Expr::Postfix(_, _, _) => combined(cx, e),
        Expr::Prefix(_, _, _) => combined(cx, e),
        Expr::Unary(_, _, _) => combined(cx, e),
        Expr::SizeofExpr(_, _) => combined(cx, e),
        Expr::SizeofType(_, _, _) => combined(cx, e),
        Expr::Cast(_, _, _, _) => combined(cx, e),
        Expr::Binary(_, _, _, _) => combined(cx, e),
        Expr::Logical(_, _, _, _) => combined(cx, e),
    }
}
