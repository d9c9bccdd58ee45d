//! Statements without statements in them: jumps (6.8.6) and expression statements (6.8.3).
ghost use Rattle.std.specs.Prelude.{◌≡◌, IfOk};
ghost use Rattle.c_layout.specs.DeclarationTrees.{statement_tree};
ghost use Rattle.c_parser.specs.Findings.{FoundStatement};
ghost use Rattle.c_parser_tokens.specs.declared.terminals.Keyword.TheVariants as k;
ghost use Rattle.c_parser_tokens.specs.declared.terminals.Symbol.TheVariants as symbol;
ghost use Rattle.c_parser_expression_grammar.specs.Fronts.{first_symbol};
ghost use Rattle.c_parser_expression_grammar.specs.TypeNameReaders.{readers_inside};
ghost use Rattle.c_parser_expression_grammar.specs.ReadingResults.{Reads};
ghost use Rattle.c_parser_declarations.specs.Grammar.Answers.{as_item};
ghost use Rattle.c_parser.specs.StatementReaders as readers;

use crate::statement_nodes::{
    break_node, continue_node, expression_statement, goto, null_statement, return_node,
};
use crate::statement_parts::optional_expression;
use c_layout::Statement;
use c_parser_expressions::{Parsed, Reader, Scope, Trouble, expression, inner, made};
use c_parser_tokens::{Keyword, Punctuator};

/// `goto`
fn goto_statement(
    scope: Scope<'_>,
    reader: &mut Reader<'_>,
    budget: u32,
) -> Result<Parsed<Statement>, Trouble>
    ensures found { IfOk result (λ n. FoundStatement scope.entry.typedefs.now budget (statement_tree n.tree) n.height reader.old reader.new) }
    ensures read { first_symbol reader.old ≡ symbol.Keyword k.Goto → Reads result (as_item statement_tree reader.new) (readers.goto_statement scope.entry.typedefs.now budget reader.old) }
{
    let place = reader.expect_word(Keyword::Goto)?;
    let label = reader.identifier(scope)?;
    reader.expect(Punctuator::Semicolon)?;
    let height = made(budget, 0)?;
    let tree = goto(place, label);
    Ok(Parsed { tree, height })
}

/// `continue`
fn continue_statement(
    scope: Scope<'_>,
    reader: &mut Reader<'_>,
    budget: u32,
) -> Result<Parsed<Statement>, Trouble>
    ensures found { IfOk result (λ n. FoundStatement scope.entry.typedefs.now budget (statement_tree n.tree) n.height reader.old reader.new) }
    ensures read { first_symbol reader.old ≡ symbol.Keyword k.Continue → Reads result (as_item statement_tree reader.new) (readers.continue_statement budget reader.old) }
{
    let place = reader.expect_word(Keyword::Continue)?;
    reader.expect(Punctuator::Semicolon)?;
    let height = made(budget, 0)?;
    let tree = continue_node(place);
    Ok(Parsed { tree, height })
}

/// `break`
fn break_statement(
    scope: Scope<'_>,
    reader: &mut Reader<'_>,
    budget: u32,
) -> Result<Parsed<Statement>, Trouble>
    ensures found { IfOk result (λ n. FoundStatement scope.entry.typedefs.now budget (statement_tree n.tree) n.height reader.old reader.new) }
    ensures read { first_symbol reader.old ≡ symbol.Keyword k.Break → Reads result (as_item statement_tree reader.new) (readers.break_statement budget reader.old) }
{
    let place = reader.expect_word(Keyword::Break)?;
    reader.expect(Punctuator::Semicolon)?;
    let height = made(budget, 0)?;
    let tree = break_node(place);
    Ok(Parsed { tree, height })
}

/// `return`
fn return_statement(
    scope: Scope<'_>,
    reader: &mut Reader<'_>,
    budget: u32,
) -> Result<Parsed<Statement>, Trouble>
    ensures found { IfOk result (λ n. FoundStatement scope.entry.typedefs.now budget (statement_tree n.tree) n.height reader.old reader.new) }
    ensures read { first_symbol reader.old ≡ symbol.Keyword k.Return → Reads result (as_item statement_tree reader.new) (readers.return_statement budget (readers_inside scope.entry.typedefs.now budget) reader.old) }
{
    let place = reader.expect_word(Keyword::Return)?;
    let value = optional_expression(scope, reader, Punctuator::Semicolon, inner(budget)?)?;
    let height = made(budget, value.height)?;
    let tree = return_node(place, value.tree);
    Ok(Parsed { tree, height })
}

/// An expression statement, or a null statement, which adds nothing to the height.
pub fn value_statement(
    scope: Scope<'_>,
    reader: &mut Reader<'_>,
    budget: u32,
) -> Result<Parsed<Statement>, Trouble>
    ensures found { IfOk result (λ n. FoundStatement scope.entry.typedefs.now budget (statement_tree n.tree) n.height reader.old reader.new) }
    ensures read { Reads result (as_item statement_tree reader.new) (readers.value_statement budget (readers_inside scope.entry.typedefs.now budget) reader.old) }
{
    let place = reader.place();
    if reader.accept(Punctuator::Semicolon) {
        let tree = null_statement(place);
        return Ok(Parsed { tree, height: 0 });
    }
    let value = expression(scope, reader, inner(budget)?)?;
    reader.expect(Punctuator::Semicolon)?;
    let height = made(budget, value.height)?;
    let tree = expression_statement(place, value.tree);
    Ok(Parsed { tree, height })
}

/// A statement that a keyword of a jump begins, or an expression statement.
pub fn plain_statement(
    scope: Scope<'_>,
    reader: &mut Reader<'_>,
    word: Keyword,
    budget: u32,
) -> Result<Parsed<Statement>, Trouble>
    ensures found { IfOk result (λ n. FoundStatement scope.entry.typedefs.now budget (statement_tree n.tree) n.height reader.old reader.new) }
    ensures read { first_symbol reader.old ≡ symbol.Keyword word → Reads result (as_item statement_tree reader.new) (readers.plain_statement scope.entry.typedefs.now budget (readers_inside scope.entry.typedefs.now budget) reader.old word) }
{
    match word {
        Keyword::Goto => goto_statement(scope, reader, budget),
        Keyword::Continue => continue_statement(scope, reader, budget),
        Keyword::Break => break_statement(scope, reader, budget),
        Keyword::Return => return_statement(scope, reader, budget),
        _ => value_statement(scope, reader, budget),
    }
}
