//! What statements are made of besides statements (6.8).
ghost use Rattle.std.specs.Prelude.{◌≡◌, ◌≢◌, Bool, true, false, IfOk};
ghost use Rattle.std.specs.Option.{option_map};
ghost use Rattle.c_layout.specs.SyntaxTrees.{tree_of};
ghost use Rattle.c_layout.specs.DeclarationTrees.{for_first_view};
ghost use Rattle.c_parser.specs.Findings.{FoundCondition, FoundMaybe, FoundFirst};
ghost use Rattle.c_parser_tokens.specs.declared.terminals.Symbol.{Symbol};
ghost use Rattle.c_parser_tokens.specs.declared.terminals.Symbol.TheVariants as symbol;
ghost use Rattle.c_parser_expression_grammar.specs.TypeNameReaders.{all_readers};
ghost use Rattle.c_parser_expression_grammar.specs.ReadingResults.{Reads};
ghost use Rattle.c_parser_declarations.specs.Grammar.Answers.{as_item};
ghost use Rattle.c_parser.specs.StatementReaders as readers;

use c_layout::{Expr, ForFirst};
use c_parser_declarations::readers::local_declaration;
use c_parser_expressions::{Parsed, Reader, Scope, Trouble, expression};
use c_parser_tokens::Punctuator;

/// An expression outside of its box.
fn unboxed(value: Box<Expr>) -> Expr
    ensures { tree_of result ≡ tree_of value.value }
{
    Box::into_inner(value)
}

/// An expression in the parentheses that belong to a statement.
pub fn condition(
    scope: Scope<'_>,
    reader: &mut Reader<'_>,
    budget: u32,
) -> Result<Parsed<Expr>, Trouble>
    ensures found { IfOk result (λ n. FoundCondition scope.entry.typedefs.now budget (tree_of n.tree) n.height reader.old reader.new) }
    ensures read { Reads result (as_item tree_of reader.new) (readers.condition (all_readers scope.entry.typedefs.now budget) reader.old) }
{
    reader.expect(Punctuator::LeftParenthesis)?;
    let found = expression(scope, reader, budget)?;
    reader.expect(Punctuator::RightParenthesis)?;
    let tree = unboxed(found.tree);
    Ok(Parsed {
        tree,
        height: found.height,
    })
}

/// The expression before this sign, if one is there, with the sign.
pub fn optional_expression(
    scope: Scope<'_>,
    reader: &mut Reader<'_>,
    end: Punctuator,
    budget: u32,
) -> Result<Parsed<Option<Expr>>, Trouble>
    ensures found { IfOk result (λ n. FoundMaybe scope.entry.typedefs.now budget end (option_map tree_of n.tree) n.height reader.old reader.new) }
    ensures read { (is : Symbol → Bool) → is (symbol.Punctuator end) ≡ true → ((s : Symbol) → s ≢ symbol.Punctuator end → is s ≡ false) → Reads result (as_item (option_map tree_of) reader.new) (readers.optional_expression is (all_readers scope.entry.typedefs.now budget) reader.old) }
{
    if reader.accept(end) {
        return Ok(Parsed {
            tree: None,
            height: 0,
        });
    }
    let found = expression(scope, reader, budget)?;
    reader.expect(end)?;
    let value = unboxed(found.tree);
    Ok(Parsed {
        tree: Some(value),
        height: found.height,
    })
}

/// The first clause of a `for` as an expression or nothing, with its `;`.
fn first_value(
    scope: Scope<'_>,
    reader: &mut Reader<'_>,
    budget: u32,
) -> Result<Parsed<ForFirst>, Trouble>
    ensures found { IfOk result (λ n. FoundFirst scope.entry.typedefs.now budget (for_first_view n.tree) n.height reader.old reader.new) }
    ensures read { Reads result (as_item for_first_view reader.new) (readers.first_value (all_readers scope.entry.typedefs.now budget) reader.old) }
{
    if reader.accept(Punctuator::Semicolon) {
        let tree = ForFirst::Nothing;
        return Ok(Parsed { tree, height: 0 });
    }
    let found = expression(scope, reader, budget)?;
    reader.expect(Punctuator::Semicolon)?;
    let value = unboxed(found.tree);
    let tree = ForFirst::Value(value);
    Ok(Parsed {
        tree,
        height: found.height,
    })
}

/// The first clause of a `for` as a declaration, with its `;`.
fn first_local(
    scope: Scope<'_>,
    reader: &mut Reader<'_>,
    budget: u32,
) -> Result<Parsed<ForFirst>, Trouble>
    ensures found { IfOk result (λ n. FoundFirst scope.entry.typedefs.now budget (for_first_view n.tree) n.height reader.old reader.new) }
    ensures read { Reads result (as_item for_first_view reader.new) (readers.first_local scope.entry.typedefs.now budget reader.old) }
{
    let found = local_declaration(scope, reader, budget)?;
    let tree = ForFirst::Declaration(found.tree);
    Ok(Parsed {
        tree,
        height: found.height,
    })
}

/// The first clause of a `for`, with its `;`.
pub fn for_first(
    scope: Scope<'_>,
    reader: &mut Reader<'_>,
    budget: u32,
) -> Result<Parsed<ForFirst>, Trouble>
    ensures found { IfOk result (λ n. FoundFirst scope.entry.typedefs.now budget (for_first_view n.tree) n.height reader.old reader.new) }
    ensures read { Reads result (as_item for_first_view reader.new) (readers.for_first_within scope.entry.typedefs.now budget reader.old) }
{
    if reader.begins_specifiers(scope) {
        first_local(scope, reader, budget)
    } else {
        first_value(scope, reader, budget)
    }
}
