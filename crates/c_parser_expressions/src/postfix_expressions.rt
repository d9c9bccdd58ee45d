//! Primary and postfix expressions (6.5.1, 6.5.2).
ghost use Rattle.std.specs.Prelude.{◌≡◌, ◌≤◌, ℕ, cond, length, map, IfOk, Some, None};
ghost use Rattle.c_layout.specs.SyntaxTrees.{trees, tree_of};
ghost use Rattle.c_parser_expression_grammar.specs.Findings.{Found, FoundSome, FoundArguments, FoundSuffix};
ghost use Rattle.c_parser_expression_grammar.specs.Levels.{goes_on};
ghost use Rattle.c_parser_expression_grammar.specs.Fronts.{first_symbol, is_identifier};
ghost use Rattle.c_parser_expression_grammar.specs.Readings.{got};
ghost use Rattle.c_parser_expression_grammar.specs.ReadingResults.{Reads, ReadsSuffix};
ghost use Rattle.c_parser_expression_grammar.specs.ExpressionReaders.{no_readers, some_arguments, arguments, name_or_call, parenthesized, primary_by, primary, subscript, suffix_by, suffix};
ghost use Rattle.c_parser_expression_grammar.specs.TypeNameReaders.{all_readers, readers_inside};

use crate::expressions::{assignment, expression};
use c_layout::{Constant, Expr, Name};
use c_parser_expression_grammar::{
    Parsed, Reader, Scope, Suffix, Trouble, add_expression, call_node, inner, leaf_node,
    paren_node, step_at, step_sign, suffix_node,
};
use c_parser_tokens::{Punctuator, Symbol};

/// One argument or more behind the `(` of a call, with the `)`.
#[tactic(auto, using(crate::proofs::Arguments::none_read, crate::proofs::Arguments::one_more, crate::proofs::Arguments::last_one))]
#[cycle(expressions)]
fn some_arguments(
    scope: Scope<'_>,
    reader: &mut Reader<'_>,
    budget: u32,
) -> Result<Parsed<Vec<Expr>>, Trouble>
    ensures found { IfOk result (λ n. FoundArguments scope.entry.typedefs.now budget (map tree_of n.tree.items) n.height reader.old reader.new) }
    ensures read { Reads result (λ n. record { trees = trees (map tree_of n.tree.items); height = n.height; rest = reader.new }) (some_arguments (all_readers scope.entry.typedefs.now budget) (length reader.old) reader.old) }
{
    let mut found = Vec::new(scope.alloc);
    let mut height = 0u32;
    for _turn in 0..reader.left() {
        let argument = assignment(scope, reader, budget)?;
        height = height.max(argument.height);
        add_expression(&mut found, argument.tree)?;
        if !reader.accept(Punctuator::Comma) {
            reader.expect(Punctuator::RightParenthesis)?;
            return Ok(Parsed {
                tree: found,
                height,
            });
        }
    }
    Err(Trouble::Syntax)
}

/// The arguments of a call, behind its `(`, with the `)`.
#[cycle(expressions)]
fn arguments(
    scope: Scope<'_>,
    reader: &mut Reader<'_>,
    budget: u32,
) -> Result<Parsed<Vec<Expr>>, Trouble>
    ensures found { IfOk result (λ n. FoundArguments scope.entry.typedefs.now budget (map tree_of n.tree.items) n.height reader.old reader.new) }
    ensures read { Reads result (λ n. record { trees = trees (map tree_of n.tree.items); height = n.height; rest = reader.new }) (arguments (all_readers scope.entry.typedefs.now budget) reader.old) }
{
    if reader.accept(Punctuator::RightParenthesis) {
        return Ok(Parsed {
            tree: Vec::new(scope.alloc),
            height: 0,
        });
    }
    some_arguments(scope, reader, budget)
}

/// An identifier, or a call where `(` follows it.
#[cycle(expressions)]
fn name_or_call(
    scope: Scope<'_>,
    reader: &mut Reader<'_>,
    budget: u32,
) -> Result<Parsed<Box<Expr>>, Trouble>
    ensures found { IfOk result (λ n. Found scope.entry.typedefs.now 15 budget (tree_of n.tree.value) n.height reader.old reader.new) }
    ensures read { Reads result (λ n. got (tree_of n.tree.value) n.height reader.new) (cond (is_identifier (first_symbol reader.old)) (name_or_call budget (readers_inside scope.entry.typedefs.now budget) scope.entry.typedefs.now reader.old) None) }
{
    let name = reader.identifier(scope)?;
    if !reader.accept(Punctuator::LeftParenthesis) {
        return leaf_node(scope.alloc, Expr::Name(name.place, name.text));
    }
    let found = arguments(scope, reader, inner(budget)?)?;
    call_node(scope.alloc, name, found, budget)
}

/// An expression in parentheses.
#[cycle(expressions)]
fn parenthesized(
    scope: Scope<'_>,
    reader: &mut Reader<'_>,
    budget: u32,
) -> Result<Parsed<Box<Expr>>, Trouble>
    ensures found { IfOk result (λ n. Found scope.entry.typedefs.now 15 budget (tree_of n.tree.value) n.height reader.old reader.new) }
    ensures read { Reads result (λ n. got (tree_of n.tree.value) n.height reader.new) (parenthesized budget (readers_inside scope.entry.typedefs.now budget) reader.old) }
{
    let place = reader.expect(Punctuator::LeftParenthesis)?;
    let nested = expression(scope, reader, inner(budget)?)?;
    reader.expect(Punctuator::RightParenthesis)?;
    paren_node(scope.alloc, place, nested, budget)
}

/// A string literal.
fn literal(
    scope: Scope<'_>,
    reader: &mut Reader<'_>,
    budget: u32,
) -> Result<Parsed<Box<Expr>>, Trouble>
    ensures found { IfOk result (λ n. Found scope.entry.typedefs.now 15 budget (tree_of n.tree.value) n.height reader.old reader.new) }
    ensures read { first_symbol reader.old ≡ Symbol.Literal → Reads result (λ n. got (tree_of n.tree.value) n.height reader.new) (primary_by budget (readers_inside scope.entry.typedefs.now budget) scope.entry.typedefs.now reader.old Symbol.Literal) }
{
    let Name { place, text } = reader.literal(scope.alloc)?;
    leaf_node(scope.alloc, Expr::Literal(place, text))
}

/// An integer or a character constant.
fn constant(
    scope: Scope<'_>,
    reader: &mut Reader<'_>,
    budget: u32,
) -> Result<Parsed<Box<Expr>>, Trouble>
    ensures found { IfOk result (λ n. Found scope.entry.typedefs.now 15 budget (tree_of n.tree.value) n.height reader.old reader.new) }
    ensures read { (value : Constant) → first_symbol reader.old ≡ Symbol.Constant value → Reads result (λ n. got (tree_of n.tree.value) n.height reader.new) (primary_by budget (readers_inside scope.entry.typedefs.now budget) scope.entry.typedefs.now reader.old (Symbol.Constant value)) }
{
    let (place, value) = reader.constant()?;
    leaf_node(scope.alloc, Expr::Constant(place, value))
}

/// A primary-expression or a call.
#[cycle(expressions)]
fn primary(
    scope: Scope<'_>,
    reader: &mut Reader<'_>,
    budget: u32,
) -> Result<Parsed<Box<Expr>>, Trouble>
    ensures found { IfOk result (λ n. Found scope.entry.typedefs.now 15 budget (tree_of n.tree.value) n.height reader.old reader.new) }
    ensures read { Reads result (λ n. got (tree_of n.tree.value) n.height reader.new) (primary budget (readers_inside scope.entry.typedefs.now budget) scope.entry.typedefs.now reader.old) }
{
    match reader.peek() {
        Symbol::Constant(_) => constant(scope, reader, budget),
        Symbol::Literal => literal(scope, reader, budget),
        Symbol::Identifier => name_or_call(scope, reader, budget),
        _ => parenthesized(scope, reader, budget),
    }
}

/// `[`, an index and `]`.
#[cycle(expressions)]
fn subscript(
    scope: Scope<'_>,
    reader: &mut Reader<'_>,
    budget: u32,
) -> Result<Parsed<Suffix>, Trouble>
    ensures found { IfOk result (λ n. FoundSuffix scope.entry.typedefs.now n.tree n.height reader.old reader.new) }
    ensures read { ReadsSuffix result budget (λ e h. subscript budget (readers_inside scope.entry.typedefs.now budget) (got e h reader.old)) reader.new }
{
    let place = reader.expect(Punctuator::LeftBracket)?;
    let index = expression(scope, reader, inner(budget)?)?;
    reader.expect(Punctuator::RightBracket)?;
    Ok(Parsed {
        tree: Suffix::Subscript(place, index.tree),
        height: index.height,
    })
}

/// `.` and a member's name.
fn member(scope: Scope<'_>, reader: &mut Reader<'_>) -> Result<Parsed<Suffix>, Trouble>
    ensures found { IfOk result (λ n. FoundSuffix scope.entry.typedefs.now n.tree n.height reader.old reader.new) }
    ensures read { (budget : ℕ) → first_symbol reader.old ≡ Symbol.Punctuator Punctuator.Dot → ReadsSuffix result budget (λ e h. suffix_by budget no_readers scope.entry.typedefs.now (got e h reader.old) None (Symbol.Punctuator Punctuator.Dot)) reader.new }
{
    let place = reader.expect(Punctuator::Dot)?;
    let name = reader.identifier(scope)?;
    Ok(Parsed {
        tree: Suffix::Member(place, name),
        height: 0,
    })
}

/// `->` and a member's name.
fn arrow(scope: Scope<'_>, reader: &mut Reader<'_>) -> Result<Parsed<Suffix>, Trouble>
    ensures found { IfOk result (λ n. FoundSuffix scope.entry.typedefs.now n.tree n.height reader.old reader.new) }
    ensures read { (budget : ℕ) → first_symbol reader.old ≡ Symbol.Punctuator Punctuator.Arrow → ReadsSuffix result budget (λ e h. suffix_by budget no_readers scope.entry.typedefs.now (got e h reader.old) None (Symbol.Punctuator Punctuator.Arrow)) reader.new }
{
    let place = reader.expect(Punctuator::Arrow)?;
    let name = reader.identifier(scope)?;
    Ok(Parsed {
        tree: Suffix::Arrow(place, name),
        height: 0,
    })
}

/// Whether a symbol goes on with a postfix-expression.
fn goes_on(symbol: Symbol) -> bool
    ensures { result ≡ goes_on symbol }
{
    match symbol {
        Symbol::Punctuator(sign) => matches!(
            sign,
            Punctuator::LeftBracket
                | Punctuator::Dot
                | Punctuator::Arrow
                | Punctuator::Increment
                | Punctuator::Decrement
        ),
        _ => false,
    }
}

/// The operator that stands next, behind an operand.
#[cycle(expressions)]
fn suffix(scope: Scope<'_>, reader: &mut Reader<'_>, budget: u32) -> Result<Parsed<Suffix>, Trouble>
    ensures found { IfOk result (λ n. FoundSuffix scope.entry.typedefs.now n.tree n.height reader.old reader.new) }
    ensures read { ReadsSuffix result budget (λ e h. suffix budget (readers_inside scope.entry.typedefs.now budget) scope.entry.typedefs.now (got e h reader.old)) reader.new }
{
    if let Some(op) = step_at(reader.peek()) {
        let place = reader.expect(step_sign(op))?;
        return Ok(Parsed {
            tree: Suffix::Step(place, op),
            height: 0,
        });
    }
    match reader.peek() {
        Symbol::Punctuator(Punctuator::Dot) => member(scope, reader),
        Symbol::Punctuator(Punctuator::Arrow) => arrow(scope, reader),
        _ => subscript(scope, reader, budget),
    }
}

/// A postfix-expression.
#[tactic(auto, using(crate::proofs::Suffixes::one_more))]
#[cycle(expressions)]
pub fn postfix(
    scope: Scope<'_>,
    reader: &mut Reader<'_>,
    budget: u32,
) -> Result<Parsed<Box<Expr>>, Trouble>
    ensures found { IfOk result (λ n. Found scope.entry.typedefs.now 15 budget (tree_of n.tree.value) n.height reader.old reader.new) }
    ensures read { Reads result (λ n. got (tree_of n.tree.value) n.height reader.new) ((all_readers scope.entry.typedefs.now budget).postfix reader.old) }
{
    let mut found = primary(scope, reader, budget)?;
    for _turn in 0..budget {
        if !goes_on(reader.peek()) {
            return Ok(found);
        }
        let behind = suffix(scope, reader, budget)?;
        found = suffix_node(scope.alloc, found, behind, budget)?;
    }
    if goes_on(reader.peek()) {
        return Err(Trouble::Syntax);
    }
    Ok(found)
}
