//! Statements and blocks (6.8).
ghost use Rattle.std.specs.Prelude.{◌≡◌, map, IfOk};
ghost use Rattle.c_layout.specs.DeclarationTrees.{statement_tree};
ghost use Rattle.c_parser.specs.Findings.{FoundStatement, FoundItem, FoundBraced, FoundBlock, is_else};
ghost use Rattle.c_parser_expression_grammar.specs.Fronts.{first_symbol};
ghost use Rattle.c_parser_tokens.specs.declared.terminals.Keyword.TheVariants as k;
ghost use Rattle.c_parser_tokens.specs.declared.terminals.Symbol.TheVariants as symbol;
ghost use Rattle.c_parser_expression_grammar.specs.TypeNameReaders.{readers_inside};
ghost use Rattle.c_parser_expression_grammar.specs.ReadingResults.{Reads};
ghost use Rattle.c_parser_declarations.specs.Grammar.Answers.{as_item};
ghost use Rattle.c_parser_declarations.specs.Grammar.Items.{item_of};
ghost use Rattle.c_parser.specs.StatementReaders as readers;
ghost use Rattle.c_parser.specs.StatementReaders.{statement_inside};

use crate::jump_statements::{plain_statement, value_statement};
use crate::statement_nodes::{
    block_node, case, default, do_loop, for_loop, if_alone, if_else, label, local_item, switch,
    while_loop,
};
use crate::statement_parts::{condition, for_first, optional_expression};
use c_layout::Statement;
use c_parser_declarations::readers::local_declaration;
use c_parser_expressions::{Parsed, Reader, Scope, Trouble, conditional, inner, made};
use c_parser_tokens::{Keyword, Punctuator, Symbol};

/// A statement inside another one.
#[cycle(statements)]
fn body(
    scope: Scope<'_>,
    reader: &mut Reader<'_>,
    budget: u32,
) -> Result<Parsed<Box<Statement>>, Trouble>
    ensures found { IfOk result (λ n. FoundStatement scope.entry.typedefs.now budget (statement_tree n.tree.value) n.height reader.old reader.new) }
    ensures read { Reads result (λ n. item_of (statement_tree n.tree.value) n.height reader.new) (readers.statement scope.entry.typedefs.now budget reader.old) }
{
    let found = statement(scope, reader, budget)?;
    Ok(Parsed {
        tree: Box::new(scope.alloc, found.tree)?,
        height: found.height,
    })
}

/// A statement with a label.
#[cycle(statements)]
fn label_statement(
    scope: Scope<'_>,
    reader: &mut Reader<'_>,
    budget: u32,
) -> Result<Parsed<Statement>, Trouble>
    ensures found { IfOk result (λ n. FoundStatement scope.entry.typedefs.now budget (statement_tree n.tree) n.height reader.old reader.new) }
    ensures read { Reads result (as_item statement_tree reader.new) (readers.labelled scope.entry.typedefs.now budget (statement_inside scope.entry.typedefs.now budget) reader.old) }
{
    let name = reader.identifier(scope)?;
    reader.expect(Punctuator::Colon)?;
    let labelled = body(scope, reader, inner(budget)?)?;
    let height = made(budget, labelled.height)?;
    let tree = label(name, labelled.tree);
    Ok(Parsed { tree, height })
}

/// `case`
#[cycle(statements)]
fn case_statement(
    scope: Scope<'_>,
    reader: &mut Reader<'_>,
    budget: u32,
) -> Result<Parsed<Statement>, Trouble>
    ensures found { IfOk result (λ n. FoundStatement scope.entry.typedefs.now budget (statement_tree n.tree) n.height reader.old reader.new) }
    ensures read { first_symbol reader.old ≡ symbol.Keyword k.Case → Reads result (as_item statement_tree reader.new) (readers.case_statement budget (readers_inside scope.entry.typedefs.now budget) (statement_inside scope.entry.typedefs.now budget) reader.old) }
{
    let place = reader.expect_word(Keyword::Case)?;
    let value = conditional(scope, reader, inner(budget)?)?;
    reader.expect(Punctuator::Colon)?;
    let labelled = body(scope, reader, inner(budget)?)?;
    let parts = value.height.max(labelled.height);
    let height = made(budget, parts)?;
    let tree = case(place, value.tree, labelled.tree);
    Ok(Parsed { tree, height })
}

/// `default`
#[cycle(statements)]
fn default_statement(
    scope: Scope<'_>,
    reader: &mut Reader<'_>,
    budget: u32,
) -> Result<Parsed<Statement>, Trouble>
    ensures found { IfOk result (λ n. FoundStatement scope.entry.typedefs.now budget (statement_tree n.tree) n.height reader.old reader.new) }
    ensures read { first_symbol reader.old ≡ symbol.Keyword k.Default → Reads result (as_item statement_tree reader.new) (readers.default_statement budget (statement_inside scope.entry.typedefs.now budget) reader.old) }
{
    let place = reader.expect_word(Keyword::Default)?;
    reader.expect(Punctuator::Colon)?;
    let labelled = body(scope, reader, inner(budget)?)?;
    let height = made(budget, labelled.height)?;
    let tree = default(place, labelled.tree);
    Ok(Parsed { tree, height })
}

/// Whether `else` stands next.
fn is_at_else(reader: &Reader<'_>) -> bool
    ensures { result ≡ is_else (first_symbol reader.now) }
{
    matches!(reader.peek(), Symbol::Keyword(Keyword::Else))
}

/// `if`. An `else` goes with the nearest `if` before it.
#[cycle(statements)]
fn if_statement(
    scope: Scope<'_>,
    reader: &mut Reader<'_>,
    budget: u32,
) -> Result<Parsed<Statement>, Trouble>
    ensures found { IfOk result (λ n. FoundStatement scope.entry.typedefs.now budget (statement_tree n.tree) n.height reader.old reader.new) }
    ensures read { first_symbol reader.old ≡ symbol.Keyword k.If → Reads result (as_item statement_tree reader.new) (readers.if_statement budget (readers_inside scope.entry.typedefs.now budget) (statement_inside scope.entry.typedefs.now budget) reader.old) }
{
    let place = reader.expect_word(Keyword::If)?;
    let test = condition(scope, reader, inner(budget)?)?;
    let first = body(scope, reader, inner(budget)?)?;
    let parts = test.height.max(first.height);
    if !is_at_else(reader) {
        let height = made(budget, parts)?;
        let tree = if_alone(place, test.tree, first.tree);
        return Ok(Parsed { tree, height });
    }
    reader.expect_word(Keyword::Else)?;
    let second = body(scope, reader, inner(budget)?)?;
    let all = parts.max(second.height);
    let height = made(budget, all)?;
    let tree = if_else(place, test.tree, first.tree, second.tree);
    Ok(Parsed { tree, height })
}

/// `switch`
#[cycle(statements)]
fn switch_statement(
    scope: Scope<'_>,
    reader: &mut Reader<'_>,
    budget: u32,
) -> Result<Parsed<Statement>, Trouble>
    ensures found { IfOk result (λ n. FoundStatement scope.entry.typedefs.now budget (statement_tree n.tree) n.height reader.old reader.new) }
    ensures read { first_symbol reader.old ≡ symbol.Keyword k.Switch → Reads result (as_item statement_tree reader.new) (readers.switch_statement budget (readers_inside scope.entry.typedefs.now budget) (statement_inside scope.entry.typedefs.now budget) reader.old) }
{
    let place = reader.expect_word(Keyword::Switch)?;
    let value = condition(scope, reader, inner(budget)?)?;
    let cases = body(scope, reader, inner(budget)?)?;
    let parts = value.height.max(cases.height);
    let height = made(budget, parts)?;
    let tree = switch(place, value.tree, cases.tree);
    Ok(Parsed { tree, height })
}

/// `while`
#[cycle(statements)]
fn while_statement(
    scope: Scope<'_>,
    reader: &mut Reader<'_>,
    budget: u32,
) -> Result<Parsed<Statement>, Trouble>
    ensures found { IfOk result (λ n. FoundStatement scope.entry.typedefs.now budget (statement_tree n.tree) n.height reader.old reader.new) }
    ensures read { first_symbol reader.old ≡ symbol.Keyword k.While → Reads result (as_item statement_tree reader.new) (readers.while_statement budget (readers_inside scope.entry.typedefs.now budget) (statement_inside scope.entry.typedefs.now budget) reader.old) }
{
    let place = reader.expect_word(Keyword::While)?;
    let test = condition(scope, reader, inner(budget)?)?;
    let repeated = body(scope, reader, inner(budget)?)?;
    let parts = test.height.max(repeated.height);
    let height = made(budget, parts)?;
    let tree = while_loop(place, test.tree, repeated.tree);
    Ok(Parsed { tree, height })
}

/// `do`
#[cycle(statements)]
fn do_statement(
    scope: Scope<'_>,
    reader: &mut Reader<'_>,
    budget: u32,
) -> Result<Parsed<Statement>, Trouble>
    ensures found { IfOk result (λ n. FoundStatement scope.entry.typedefs.now budget (statement_tree n.tree) n.height reader.old reader.new) }
    ensures read { first_symbol reader.old ≡ symbol.Keyword k.Do → Reads result (as_item statement_tree reader.new) (readers.do_statement budget (readers_inside scope.entry.typedefs.now budget) (statement_inside scope.entry.typedefs.now budget) reader.old) }
{
    let place = reader.expect_word(Keyword::Do)?;
    let repeated = body(scope, reader, inner(budget)?)?;
    reader.expect_word(Keyword::While)?;
    let test = condition(scope, reader, inner(budget)?)?;
    reader.expect(Punctuator::Semicolon)?;
    let parts = repeated.height.max(test.height);
    let height = made(budget, parts)?;
    let tree = do_loop(place, repeated.tree, test.tree);
    Ok(Parsed { tree, height })
}

/// `for`
#[cycle(statements)]
fn for_statement(
    scope: Scope<'_>,
    reader: &mut Reader<'_>,
    budget: u32,
) -> Result<Parsed<Statement>, Trouble>
    ensures found { IfOk result (λ n. FoundStatement scope.entry.typedefs.now budget (statement_tree n.tree) n.height reader.old reader.new) }
    ensures read { first_symbol reader.old ≡ symbol.Keyword k.For → Reads result (as_item statement_tree reader.new) (readers.for_statement scope.entry.typedefs.now budget (readers_inside scope.entry.typedefs.now budget) (statement_inside scope.entry.typedefs.now budget) reader.old) }
{
    let place = reader.expect_word(Keyword::For)?;
    let within = inner(budget)?;
    reader.expect(Punctuator::LeftParenthesis)?;
    let first = for_first(scope, reader, within)?;
    let test = optional_expression(scope, reader, Punctuator::Semicolon, within)?;
    let step = optional_expression(scope, reader, Punctuator::RightParenthesis, within)?;
    let repeated = body(scope, reader, within)?;
    let begun = first.height.max(test.height);
    let clauses = begun.max(step.height);
    let parts = clauses.max(repeated.height);
    let height = made(budget, parts)?;
    let tree = for_loop(place, first.tree, test.tree, step.tree, repeated.tree);
    Ok(Parsed { tree, height })
}

/// A declaration as an item of a block.
fn declared_item(
    scope: Scope<'_>,
    reader: &mut Reader<'_>,
    budget: u32,
) -> Result<Parsed<Statement>, Trouble>
    ensures found { IfOk result (λ n. FoundItem scope.entry.typedefs.now budget (statement_tree n.tree) n.height reader.old reader.new) }
    ensures read { Reads result (as_item statement_tree reader.new) (readers.declared_item scope.entry.typedefs.now budget reader.old) }
{
    let found = local_declaration(scope, reader, budget)?;
    let tree = local_item(found.tree);
    Ok(Parsed {
        tree,
        height: found.height,
    })
}

/// An item of a block.
#[cycle(statements)]
fn item(
    scope: Scope<'_>,
    reader: &mut Reader<'_>,
    budget: u32,
) -> Result<Parsed<Statement>, Trouble>
    ensures found { IfOk result (λ n. FoundItem scope.entry.typedefs.now budget (statement_tree n.tree) n.height reader.old reader.new) }
    ensures read { Reads result (as_item statement_tree reader.new) (readers.item_within scope.entry.typedefs.now budget reader.old) }
{
    if reader.begins_specifiers(scope) {
        return declared_item(scope, reader, budget);
    }
    let found = statement(scope, reader, budget)?;
    Ok(found)
}

/// The items of a block behind its `{`, with the `}`.
#[cycle(statements)]
#[tactic(auto, using(crate::proofs::Turns::items_begun))]
fn items(
    scope: Scope<'_>,
    reader: &mut Reader<'_>,
    budget: u32,
) -> Result<Parsed<Vec<Statement>>, Trouble>
    ensures found { IfOk result (λ n. FoundBraced scope.entry.typedefs.now budget (map statement_tree n.tree.items) n.height reader.old reader.new) }
    ensures read { Reads result (as_item (λ ss. map statement_tree ss.items) reader.new) (readers.items_within scope.entry.typedefs.now budget reader.old) }
{
    let mut found = Vec::new(scope.alloc);
    let mut height = 0u32;
    for _turn in 0..reader.left() {
        if reader.is_at(Punctuator::RightBrace) {
            reader.take();
            let tree = found;
            return Ok(Parsed { tree, height });
        }
        let next = item(scope, reader, budget)?;
        height = height.max(next.height);
        found.push(next.tree)?;
    }
    reader.expect(Punctuator::RightBrace)?;
    let tree = found;
    Ok(Parsed { tree, height })
}

/// A block.
///
/// # Errors
///
/// `Syntax` where none of a height of at most `budget` stands next, or want of memory.
#[cycle(statements)]
pub fn block(
    scope: Scope<'_>,
    reader: &mut Reader<'_>,
    budget: u32,
) -> Result<Parsed<Vec<Statement>>, Trouble>
    ensures found { IfOk result (λ n. FoundBlock scope.entry.typedefs.now budget (map statement_tree n.tree.items) n.height reader.old reader.new) }
    ensures read { Reads result (as_item (λ ss. map statement_tree ss.items) reader.new) (readers.block scope.entry.typedefs.now budget (statement_inside scope.entry.typedefs.now budget) reader.old) }
{
    reader.expect(Punctuator::LeftBrace)?;
    let found = items(scope, reader, inner(budget)?)?;
    let height = made(budget, found.height)?;
    let tree = found.tree;
    Ok(Parsed { tree, height })
}

/// A block as a statement, which adds nothing to the height.
#[cycle(statements)]
fn block_statement(
    scope: Scope<'_>,
    reader: &mut Reader<'_>,
    budget: u32,
) -> Result<Parsed<Statement>, Trouble>
    ensures found { IfOk result (λ n. FoundStatement scope.entry.typedefs.now budget (statement_tree n.tree) n.height reader.old reader.new) }
    ensures read { Reads result (as_item statement_tree reader.new) (readers.block_statement scope.entry.typedefs.now budget (statement_inside scope.entry.typedefs.now budget) reader.old) }
{
    let place = reader.place();
    let found = block(scope, reader, budget)?;
    let tree = block_node(place, found.tree);
    Ok(Parsed {
        tree,
        height: found.height,
    })
}

/// A statement that a keyword begins.
#[cycle(statements)]
fn keyword_statement(
    scope: Scope<'_>,
    reader: &mut Reader<'_>,
    word: Keyword,
    budget: u32,
) -> Result<Parsed<Statement>, Trouble>
    ensures found { IfOk result (λ n. FoundStatement scope.entry.typedefs.now budget (statement_tree n.tree) n.height reader.old reader.new) }
    ensures read { first_symbol reader.old ≡ symbol.Keyword word → Reads result (as_item statement_tree reader.new) (readers.keyword_statement scope.entry.typedefs.now budget (readers_inside scope.entry.typedefs.now budget) (statement_inside scope.entry.typedefs.now budget) reader.old word) }
{
    match word {
        Keyword::Case => case_statement(scope, reader, budget),
        Keyword::Default => default_statement(scope, reader, budget),
        Keyword::If => if_statement(scope, reader, budget),
        Keyword::Switch => switch_statement(scope, reader, budget),
        Keyword::While => while_statement(scope, reader, budget),
        Keyword::Do => do_statement(scope, reader, budget),
        Keyword::For => for_statement(scope, reader, budget),
        _ => plain_statement(scope, reader, word, budget),
    }
}

/// A statement.
#[cycle(statements)]
fn statement(
    scope: Scope<'_>,
    reader: &mut Reader<'_>,
    budget: u32,
) -> Result<Parsed<Statement>, Trouble>
    ensures found { IfOk result (λ n. FoundStatement scope.entry.typedefs.now budget (statement_tree n.tree) n.height reader.old reader.new) }
    ensures read { Reads result (as_item statement_tree reader.new) (readers.statement scope.entry.typedefs.now budget reader.old) }
{
    if let Symbol::Keyword(word) = reader.peek() {
        return keyword_statement(scope, reader, word, budget);
    }
    if reader.is_at(Punctuator::LeftBrace) {
        return block_statement(scope, reader, budget);
    }
    if reader.is_at_identifier(scope) && reader.is_before(Punctuator::Colon) {
        return label_statement(scope, reader, budget);
    }
    value_statement(scope, reader, budget)
}
