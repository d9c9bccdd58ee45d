//! Declarators (6.7.6) and abstract declarators (6.7.7).
ghost use Rattle.std.specs.Prelude.{◌≡◌, length, map, IfOk};
ghost use Rattle.std.specs.Option.{option_map};
ghost use Rattle.c_layout.specs.SyntaxTrees.{tree_of};
ghost use Rattle.c_layout.specs.DeclarationTrees.{name_view, suffix_view, declarator_layer_view, declarator_view};
ghost use Rattle.c_parser_declarations.specs.Grammar.Findings.{FoundSuffix, FoundSuffixes, FoundInside, FoundLayers, FoundBehind, FoundDeclarator, FoundNamed, FoundNamedBehind, FoundListed};
ghost use Rattle.c_parser_declarations.specs.Grammar.Declarators.{declarator_height};
ghost use Rattle.c_parser_declarations.specs.Grammar.Specifiers.{IsNamed};
ghost use Rattle.c_parser_declarations.specs.Grammar.Answers.{as_item, as_parts, as_suffixes};
ghost use Rattle.c_parser_declarations.specs.Grammar.DeclaratorReaders as readers;
ghost use Rattle.c_parser_declarations.specs.Grammar.DeclaratorReaders.{declarators_inside};
ghost use Rattle.c_parser_expression_grammar.specs.Fronts.{first_symbol};
ghost use Rattle.c_parser_expression_grammar.specs.ReadingResults.{Reads};
ghost use Rattle.c_parser_tokens.specs.declared.terminals.Punctuator.TheVariants as p;
ghost use Rattle.c_parser_tokens.specs.declared.terminals.Symbol.TheVariants as symbol;
ghost use Rattle.c_parser_expression_grammar.specs.TypeNameReaders.{readers_inside};

use crate::grammar::declarator_layers::{
    DeclaratorParts, Suffixes, climb, declarator_of, enclosed_height, layered,
};
use c_layout::{ArraySuffix, Declarator, Expr};
use c_parser_expressions::{Parsed, Reader, Scope, Trouble, conditional, inner, stars};
use c_parser_tokens::Punctuator;
use cc_base::Place;

/// A pair of brackets with its length.
fn with_length(place: Place, length: Box<Expr>) -> ArraySuffix
    ensures { suffix_view result ≡ record { at = place; length = Some (tree_of length.value) } }
{
    ArraySuffix {
        place,
        length: Some(Box::into_inner(length)),
    }
}

/// One pair of brackets, with its length where one is given.
fn suffix(
    scope: Scope<'_>,
    reader: &mut Reader<'_>,
    budget: u32,
) -> Result<Parsed<ArraySuffix>, Trouble>
    ensures found { IfOk result (λ n. FoundSuffix scope.entry.typedefs.now (suffix_view n.tree) n.height reader.old reader.new) }
    ensures read { first_symbol reader.old ≡ symbol.Punctuator p.LeftBracket → Reads result (as_item suffix_view reader.new) (readers.suffix (readers_inside scope.entry.typedefs.now budget) reader.old) }
{
    let place = reader.expect(Punctuator::LeftBracket)?;
    if reader.accept(Punctuator::RightBracket) {
        return Ok(Parsed {
            tree: ArraySuffix {
                place,
                length: None,
            },
            height: 0,
        });
    }
    let found = conditional(scope, reader, inner(budget)?)?;
    reader.expect(Punctuator::RightBracket)?;
    let tree = with_length(place, found.tree);
    Ok(Parsed {
        tree,
        height: found.height,
    })
}

/// The brackets that stand next, behind something of this height.
#[tactic(auto, using(crate::proofs::grammar::Turns::suffixes_begun))]
fn suffixes(
    scope: Scope<'_>,
    reader: &mut Reader<'_>,
    inside: u32,
    budget: u32,
) -> Result<Suffixes, Trouble>
    ensures found { IfOk result (λ s. FoundSuffixes scope.entry.typedefs.now inside (map suffix_view s.arrays.items) s.flat s.climbed reader.old reader.new) }
    ensures read { Reads result (as_suffixes reader.new) (readers.suffixes (readers_inside scope.entry.typedefs.now budget) (length reader.old) inside inside reader.old) }
{
    let mut arrays = Vec::new(scope.alloc);
    let mut flat = inside;
    let mut climbed = inside;
    for _turn in 0..reader.left() {
        if !reader.is_at(Punctuator::LeftBracket) {
            return Ok(Suffixes {
                arrays,
                flat,
                climbed,
            });
        }
        let next = suffix(scope, reader, budget)?;
        flat = flat.max(next.height);
        climbed = climb(climbed, next.height)?;
        arrays.push(next.tree)?;
    }
    Ok(Suffixes {
        arrays,
        flat,
        climbed,
    })
}

/// A declarator in parentheses. Around a name the parentheses are a production; around an abstract
/// declarator they belong to the production that they stand in.
#[cycle(declarators)]
fn enclosed(
    scope: Scope<'_>,
    reader: &mut Reader<'_>,
    budget: u32,
) -> Result<Parsed<DeclaratorParts>, Trouble>
    ensures found { IfOk result (λ n. FoundInside scope.entry.typedefs.now (map declarator_layer_view n.tree.layers.items) (option_map name_view n.tree.name) n.height reader.old reader.new) }
    ensures read { Reads result (as_parts reader.new) (readers.enclosed budget (declarators_inside scope.entry.typedefs.now budget) reader.old) }
{
    reader.expect(Punctuator::LeftParenthesis)?;
    let inside = any_declarator(scope, reader, inner(budget)?)?;
    reader.expect(Punctuator::RightParenthesis)?;
    let height = enclosed_height(inside.tree.name.is_some(), inside.height, budget)?;
    Ok(Parsed {
        tree: inside.tree,
        height,
    })
}

/// A name.
fn named_core(scope: Scope<'_>, reader: &mut Reader<'_>) -> Result<Parsed<DeclaratorParts>, Trouble>
    ensures found { IfOk result (λ n. FoundInside scope.entry.typedefs.now (map declarator_layer_view n.tree.layers.items) (option_map name_view n.tree.name) n.height reader.old reader.new) }
    ensures read { Reads result (as_parts reader.new) (readers.named_core scope.entry.typedefs.now reader.old) }
{
    let name = reader.identifier(scope)?;
    let tree = DeclaratorParts {
        layers: Vec::new(scope.alloc),
        name: Some(name),
    };
    Ok(Parsed { tree, height: 0 })
}

/// What stands between the stars and the brackets of a declarator: a name, a declarator in
/// parentheses or, in an abstract declarator, nothing.
#[cycle(declarators)]
fn core(
    scope: Scope<'_>,
    reader: &mut Reader<'_>,
    budget: u32,
) -> Result<Parsed<DeclaratorParts>, Trouble>
    ensures found { IfOk result (λ n. FoundInside scope.entry.typedefs.now (map declarator_layer_view n.tree.layers.items) (option_map name_view n.tree.name) n.height reader.old reader.new) }
    ensures read { Reads result (as_parts reader.new) (readers.core scope.entry.typedefs.now budget (declarators_inside scope.entry.typedefs.now budget) reader.old) }
{
    if reader.is_at(Punctuator::LeftParenthesis) {
        return enclosed(scope, reader, budget);
    }
    if reader.is_at_identifier(scope) {
        return named_core(scope, reader);
    }
    let tree = DeclaratorParts {
        layers: Vec::new(scope.alloc),
        name: None,
    };
    Ok(Parsed { tree, height: 0 })
}

/// A declarator or an abstract declarator behind these stars.
#[cycle(declarators)]
fn behind_stars(
    scope: Scope<'_>,
    reader: &mut Reader<'_>,
    stars: Vec<u32>,
    budget: u32,
) -> Result<Parsed<DeclaratorParts>, Trouble>
    ensures found { IfOk result (λ n. FoundBehind scope.entry.typedefs.now budget stars.items (map declarator_layer_view n.tree.layers.items) (option_map name_view n.tree.name) n.height reader.old reader.new) }
    ensures read { Reads result (as_parts reader.new) (readers.behind_stars scope.entry.typedefs.now budget (readers_inside scope.entry.typedefs.now budget) (declarators_inside scope.entry.typedefs.now budget) stars.items reader.old) }
{
    let inside = core(scope, reader, budget)?;
    let suffixes = suffixes(scope, reader, inside.height, budget)?;
    let whole = layered(inside.tree, stars, suffixes, budget)?;
    Ok(whole)
}

/// A declarator or an abstract declarator.
#[cycle(declarators)]
fn any_declarator(
    scope: Scope<'_>,
    reader: &mut Reader<'_>,
    budget: u32,
) -> Result<Parsed<DeclaratorParts>, Trouble>
    ensures found { IfOk result (λ n. FoundLayers scope.entry.typedefs.now budget (map declarator_layer_view n.tree.layers.items) (option_map name_view n.tree.name) n.height reader.old reader.new) }
    ensures read { Reads result (as_parts reader.new) (readers.declarators scope.entry.typedefs.now budget reader.old) }
{
    let stars = stars(scope.alloc, reader)?;
    let found = behind_stars(scope, reader, stars, budget)?;
    Ok(found)
}

/// A declarator or an abstract declarator.
pub fn parameter_declarator(
    scope: Scope<'_>,
    reader: &mut Reader<'_>,
    budget: u32,
) -> Result<Parsed<Declarator>, Trouble>
    ensures found { IfOk result (λ n. FoundDeclarator scope.entry.typedefs.now budget (declarator_view n.tree) n.height reader.old reader.new) }
    ensures read { Reads result (as_item declarator_view reader.new) (readers.parameter_declarator scope.entry.typedefs.now budget reader.old) }
{
    let parts = any_declarator(scope, reader, budget)?;
    let whole = declarator_of(parts);
    Ok(whole)
}

/// A declarator, which has a name, behind these stars.
pub fn named_declarator(
    scope: Scope<'_>,
    reader: &mut Reader<'_>,
    stars: Vec<u32>,
    budget: u32,
) -> Result<Parsed<Declarator>, Trouble>
    ensures found { IfOk result (λ n. FoundNamedBehind scope.entry.typedefs.now budget stars.items (declarator_view n.tree) n.height reader.old reader.new) }
    ensures read { Reads result (as_item declarator_view reader.new) (readers.named_declarator scope.entry.typedefs.now budget stars.items reader.old) }
{
    let found = behind_stars(scope, reader, stars, budget)?;
    if !found.tree.name.is_some() {
        return Err(Trouble::Syntax);
    }
    let whole = declarator_of(found);
    Ok(whole)
}

/// A declarator, which has a name.
pub fn declarator(
    scope: Scope<'_>,
    reader: &mut Reader<'_>,
    budget: u32,
) -> Result<Parsed<Declarator>, Trouble>
    ensures found { IfOk result (λ n. FoundNamed scope.entry.typedefs.now budget (declarator_view n.tree) n.height reader.old reader.new) }
    ensures read { Reads result (as_item declarator_view reader.new) (readers.declarator scope.entry.typedefs.now budget reader.old) }
{
    let stars = stars(scope.alloc, reader)?;
    let whole = named_declarator(scope, reader, stars, budget)?;
    Ok(whole)
}

/// One declarator or more, with commas between them.
#[tactic(auto, using(crate::proofs::grammar::Turns::listed_begun))]
pub fn declarator_list(
    scope: Scope<'_>,
    reader: &mut Reader<'_>,
    budget: u32,
) -> Result<Parsed<Vec<Declarator>>, Trouble>
    ensures found { IfOk result (λ n. FoundListed (IsNamed scope.entry.typedefs.now) declarator_height budget (map declarator_view n.tree.items) n.height reader.old reader.new) }
    ensures read { Reads result (as_item (λ ds. map declarator_view ds.items) reader.new) (readers.declarator_list scope.entry.typedefs.now budget reader.old) }
{
    let mut found = Vec::new(scope.alloc);
    let mut height = 0u32;
    for _turn in 0..reader.left() {
        let next = declarator(scope, reader, budget)?;
        height = height.max(next.height);
        found.push(next.tree)?;
        if !reader.accept(Punctuator::Comma) {
            let tree = found;
            return Ok(Parsed { tree, height });
        }
    }
    Err(Trouble::Syntax)
}
