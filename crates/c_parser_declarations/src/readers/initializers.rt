//! Initializers (6.7.9).
ghost use Rattle.std.specs.Prelude.{◌≡◌, length, map, IfOk};
ghost use Rattle.c_layout.specs.SyntaxTrees.{tree_of};
ghost use Rattle.c_layout.specs.DeclarationTrees.{Single, Braces, declarator_view, init_declarator_view, initializer_tree, initializer_trees};
ghost use Rattle.c_parser_declarations.specs.Grammar.Findings.{FoundInitializer, FoundBraced, FoundAssigned};
ghost use Rattle.c_parser_declarations.specs.Grammar.Answers.{as_item};
ghost use Rattle.c_parser_declarations.specs.Grammar.DeclarationReaders as declarations;
ghost use Rattle.c_parser_declarations.specs.Grammar.InitializerReaders as readers;
ghost use Rattle.c_parser_declarations.specs.Grammar.InitializerReaders.{value_of};
ghost use Rattle.c_parser_declarations.specs.Grammar.Items.{braced};
ghost use Rattle.c_parser_expression_grammar.specs.TypeNameReaders.{all_readers};
ghost use Rattle.c_parser_expression_grammar.specs.ReadingResults.{Reads};

use c_layout::{Declarator, Expr, InitDeclarator, Initializer};
use c_parser_expressions::{Parsed, Reader, Scope, Trouble, assignment, inner, made};
use c_parser_tokens::Punctuator;
use cc_base::Place;

/// An expression as an initializer.
fn single(value: Box<Expr>) -> Initializer
    ensures { initializer_tree result ≡ Single (tree_of value.value) }
{
    Initializer::Value(Box::into_inner(value))
}

/// A list in braces as an initializer.
fn braces(place: Place, items: Vec<Initializer>) -> Initializer
    ensures { initializer_tree result ≡ Braces place (initializer_trees (map initializer_tree items.items)) }
{
    Initializer::Braces(place, items)
}

/// An expression as an initializer.
#[tactic(auto, using(crate::proofs::readers::Initializing::one_value))]
fn value(
    scope: Scope<'_>,
    reader: &mut Reader<'_>,
    budget: u32,
) -> Result<Parsed<Initializer>, Trouble>
    ensures found { IfOk result (λ n. FoundInitializer scope.entry.typedefs.now budget (initializer_tree n.tree) n.height reader.old reader.new) }
    ensures read { Reads result (as_item initializer_tree reader.new) (value_of ((all_readers scope.entry.typedefs.now budget).assignment reader.old)) }
{
    let found = assignment(scope, reader, budget)?;
    let tree = single(found.tree);
    Ok(Parsed {
        tree,
        height: found.height,
    })
}

/// The initializers behind `{`, with the `}`.
#[cycle(initializers)]
#[tactic(auto, using(crate::proofs::grammar::Turns::braced_begun))]
fn initializer_list(
    scope: Scope<'_>,
    reader: &mut Reader<'_>,
    budget: u32,
) -> Result<Parsed<Vec<Initializer>>, Trouble>
    ensures found { IfOk result (λ n. FoundBraced scope.entry.typedefs.now budget (map initializer_tree n.tree.items) n.height reader.old reader.new) }
    ensures read { Reads result (as_item (λ items. map initializer_tree items.items) reader.new) (braced (readers.initializer scope.entry.typedefs.now budget) (length reader.old) reader.old) }
{
    let mut found = Vec::new(scope.alloc);
    let mut height = 0u32;
    for _turn in 0..reader.left() {
        let next = initializer(scope, reader, budget)?;
        height = height.max(next.height);
        found.push(next.tree)?;
        if !reader.accept(Punctuator::Comma) {
            reader.expect(Punctuator::RightBrace)?;
            let tree = found;
            return Ok(Parsed { tree, height });
        }
        if reader.accept(Punctuator::RightBrace) {
            let tree = found;
            return Ok(Parsed { tree, height });
        }
    }
    Err(Trouble::Syntax)
}

/// An initializer.
#[cycle(initializers)]
#[tactic(auto, using(crate::proofs::readers::Initializing::in_braces))]
pub fn initializer(
    scope: Scope<'_>,
    reader: &mut Reader<'_>,
    budget: u32,
) -> Result<Parsed<Initializer>, Trouble>
    ensures found { IfOk result (λ n. FoundInitializer scope.entry.typedefs.now budget (initializer_tree n.tree) n.height reader.old reader.new) }
    ensures read { Reads result (as_item initializer_tree reader.new) (readers.initializer scope.entry.typedefs.now budget reader.old) }
{
    if !reader.is_at(Punctuator::LeftBrace) {
        return value(scope, reader, budget);
    }
    let place = reader.expect(Punctuator::LeftBrace)?;
    let items = initializer_list(scope, reader, inner(budget)?)?;
    let height = made(budget, items.height)?;
    let tree = braces(place, items.tree);
    Ok(Parsed { tree, height })
}

/// A declarator and the initializer that follows its `=`. The height is the greatest of the two, and
/// that of the initializer is at most `budget`.
pub fn assigned(
    scope: Scope<'_>,
    reader: &mut Reader<'_>,
    declared: Parsed<Declarator>,
    budget: u32,
) -> Result<Parsed<InitDeclarator>, Trouble>
    ensures found { IfOk result (λ n. FoundAssigned scope.entry.typedefs.now budget (declarator_view declared.tree) declared.height (init_declarator_view n.tree) n.height reader.old reader.new) }
    ensures read { Reads result (as_item init_declarator_view reader.new) (declarations.assigned scope.entry.typedefs.now budget (declarator_view declared.tree) declared.height reader.old) }
{
    let place = reader.expect(Punctuator::Assign)?;
    let found = initializer(scope, reader, budget)?;
    let tree = InitDeclarator::Initialized(declared.tree, place, found.tree);
    Ok(Parsed {
        tree,
        height: declared.height.max(found.height),
    })
}
