//! Enumerations (6.7.2.2).
ghost use Rattle.std.specs.Prelude.{◌≡◌, Some, map, IfOk};
ghost use Rattle.std.specs.Option.{option_map};
ghost use Rattle.c_layout.specs.SyntaxTrees.{tree_of};
ghost use Rattle.c_layout.specs.DeclarationTrees.{EnumTag, EnumBody, name_view, enumerator_view, spec_tree};
ghost use Rattle.c_parser_declarations.specs.Grammar.Findings.{FoundEnumerator, FoundEnumerators, FoundWord};
ghost use Rattle.c_parser_declarations.specs.Grammar.Specifiers.{Tag};
ghost use Rattle.c_parser_declarations.specs.Grammar.Answers.{as_item};
ghost use Rattle.c_parser_declarations.specs.Grammar.SpecifierReaders.{optional_tag, enumerator, enumerators, enumeration};
ghost use Rattle.c_parser_expression_grammar.specs.ReadingResults.{Reads};
ghost use Rattle.c_parser_expression_grammar.specs.Fronts.{first_symbol};
ghost use Rattle.c_parser_tokens.specs.declared.terminals.Keyword.TheVariants as k;
ghost use Rattle.c_parser_tokens.specs.declared.terminals.Symbol.TheVariants as symbol;

use c_layout::{Enumerator, Expr, Name, SpecWord};
use c_parser_expressions::{Parsed, Reader, Scope, Trouble, conditional, inner, made};
use c_parser_tokens::{Keyword, Punctuator};
use cc_base::Place;

/// The tag that stands next, if one does.
pub fn optional_tag(scope: Scope<'_>, reader: &mut Reader<'_>) -> Result<Option<Name>, Trouble>
    ensures found { IfOk result (λ tag. Tag scope.entry.typedefs.now (option_map name_view tag) reader.old reader.new) }
    ensures read { Reads result (λ tag. record { tag = option_map name_view tag; rest = reader.new }) (Some (optional_tag scope.entry.typedefs.now reader.old)) }
{
    if reader.is_at_identifier(scope) {
        let name = reader.identifier(scope)?;
        Ok(Some(name))
    } else {
        Ok(None)
    }
}

/// An enumerator with its value.
fn valued(name: Name, value: Box<Expr>) -> Enumerator
    ensures { enumerator_view result ≡ record { name = name_view name; value = Some (tree_of value.value) } }
{
    Enumerator {
        name,
        value: Some(Box::into_inner(value)),
    }
}

/// An enumerator. A name alone adds nothing to the height.
fn enumerator(
    scope: Scope<'_>,
    reader: &mut Reader<'_>,
    budget: u32,
) -> Result<Parsed<Enumerator>, Trouble>
    ensures found { IfOk result (λ n. FoundEnumerator scope.entry.typedefs.now budget (enumerator_view n.tree) n.height reader.old reader.new) }
    ensures read { Reads result (as_item enumerator_view reader.new) (enumerator scope.entry.typedefs.now budget reader.old) }
{
    let name = reader.identifier(scope)?;
    if !reader.accept(Punctuator::Assign) {
        let tree = Enumerator { name, value: None };
        return Ok(Parsed { tree, height: 0 });
    }
    let value = conditional(scope, reader, inner(budget)?)?;
    let height = made(budget, value.height)?;
    let tree = valued(name, value.tree);
    Ok(Parsed { tree, height })
}

/// The enumerators behind `{`, with the `}`.
#[tactic(auto, using(crate::proofs::grammar::Turns::braced_begun))]
fn enumerators(
    scope: Scope<'_>,
    reader: &mut Reader<'_>,
    budget: u32,
) -> Result<Parsed<Vec<Enumerator>>, Trouble>
    ensures found { IfOk result (λ n. FoundEnumerators scope.entry.typedefs.now budget (map enumerator_view n.tree.items) n.height reader.old reader.new) }
    ensures read { Reads result (as_item (λ es. map enumerator_view es.items) reader.new) (enumerators scope.entry.typedefs.now budget reader.old) }
{
    let mut found = Vec::new(scope.alloc);
    let mut height = 0u32;
    for _turn in 0..reader.left() {
        let next = enumerator(scope, reader, budget)?;
        height = height.max(next.height);
        found.push(next.tree)?;
        if !reader.accept(Punctuator::Comma) {
            reader.expect(Punctuator::RightBrace)?;
            let tree = found;
            return Ok(Parsed { tree, height });
        }
        if reader.accept(Punctuator::RightBrace) {
            let tree = found;
            return Ok(Parsed { tree, height });
        }
    }
    Err(Trouble::Syntax)
}

/// `enum` with a body.
fn enum_body(place: Place, tag: Option<Name>, body: Vec<Enumerator>) -> SpecWord
    ensures { spec_tree result ≡ EnumBody place (option_map name_view tag) (map enumerator_view body.items) }
{
    SpecWord::Enum(place, tag, Some(body))
}

/// `enum` with a tag alone.
fn enum_tag(place: Place, tag: Option<Name>) -> SpecWord
    ensures { spec_tree result ≡ EnumTag place (option_map name_view tag) }
{
    SpecWord::Enum(place, tag, None)
}

/// `enum` with a tag, a body or both.
pub fn enumeration(
    scope: Scope<'_>,
    reader: &mut Reader<'_>,
    budget: u32,
) -> Result<Parsed<SpecWord>, Trouble>
    ensures found { IfOk result (λ n. FoundWord scope.entry.typedefs.now budget (spec_tree n.tree) n.height reader.old reader.new) }
    ensures read { first_symbol reader.old ≡ symbol.Keyword k.Enum → Reads result (as_item spec_tree reader.new) (enumeration scope.entry.typedefs.now budget reader.old) }
{
    let place = reader.expect_word(Keyword::Enum)?;
    let tag = optional_tag(scope, reader)?;
    if reader.accept(Punctuator::LeftBrace) {
        let body = enumerators(scope, reader, inner(budget)?)?;
        let height = made(budget, body.height)?;
        let tree = enum_body(place, tag, body.tree);
        return Ok(Parsed { tree, height });
    }
    if !tag.is_some() {
        return Err(Trouble::Syntax);
    }
    let height = made(budget, 0)?;
    let tree = enum_tag(place, tag);
    Ok(Parsed { tree, height })
}
