//! Type names and abstract declarators (6.7.7).
ghost use Rattle.std.specs.Prelude.{◌≡◌, true, length, map, List, Option, IfOk, MatchResult};
ghost use Rattle.c_layout.specs.SyntaxTrees.{trees, tree_of, layer_view, type_name_view};
ghost use Rattle.c_parser_expression_grammar.specs.Findings.{FoundPair, FoundArrays, FoundLayers, FoundNested, FoundTypeName};
ghost use Rattle.c_parser_expression_grammar.specs.Spans.{Chain};
ghost use Rattle.c_parser_expression_grammar.specs.TypeNames.{IsTypeNameWord, type_word_of, words_height, is_one_type, counts_of};
ghost use Rattle.c_parser_expression_grammar.specs.Fronts.{first_symbol};
ghost use Rattle.c_parser_expression_grammar.specs.ReadingResults.{Reads, Refuses, bracketed, with_pair, arrays_got, layers_got};
ghost use Rattle.c_parser_expression_grammar.specs.TypeNameReaders.{GotArrays, other_word, keyword_word, word_by, words, after_words, of_one_type, pair, after_arrays, pairs, nested, begins_abstract, all_readers, readers_inside};
ghost use Rattle.c_parser_tokens.specs.declared.terminals.Terminal.{Terminal};

use crate::abstract_layers::{add_brackets, declared_name, layered, plain_name};
use crate::expressions::conditional;
use crate::pointer_stars::stars;
use c_layout::TypeNameWord;
use c_parser_expression_grammar::{
    AbstractParts, ArrayLength, ArrayParts, Parsed, Reader, Scope, SpecifierCounts, Trouble,
    TypeNameParts, count_word, inner, is_qualifier, storage_class, type_word, words_height,
};
use c_parser_tokens::{Keyword, Punctuator, Symbol};

/// `struct` or `enum` with a tag and no body.
fn tagged(scope: Scope<'_>, reader: &mut Reader<'_>, word: Keyword) -> Result<TypeNameWord, Trouble>
    ensures found { IfOk result (λ w. IsTypeNameWord scope.entry.typedefs.now w reader.old reader.new) }
    ensures read { first_symbol reader.old ≡ Symbol.Keyword word → Reads result (λ w. record { word = w; rest = reader.new }) (other_word scope.entry.typedefs.now reader.old word) }
{
    let place = reader.expect_word(word)?;
    let tag = reader.identifier(scope)?;
    match word {
        Keyword::Struct => Ok(TypeNameWord::Struct(place, tag)),
        Keyword::Enum => Ok(TypeNameWord::Enum(place, tag)),
        _ => Err(Trouble::Syntax),
    }
}

/// One word of a type name that a keyword begins.
fn keyword_word(
    scope: Scope<'_>,
    reader: &mut Reader<'_>,
    word: Keyword,
) -> Result<TypeNameWord, Trouble>
    ensures found { IfOk result (λ w. IsTypeNameWord scope.entry.typedefs.now w reader.old reader.new) }
    ensures read { first_symbol reader.old ≡ Symbol.Keyword word → Reads result (λ w. record { word = w; rest = reader.new }) (keyword_word scope.entry.typedefs.now reader.old word (type_word_of word)) }
{
    if let Some(named) = type_word(word) {
        return Ok(TypeNameWord::Type(reader.expect_word(word)?, named));
    }
    if let Some(class) = storage_class(word) {
        return Ok(TypeNameWord::Storage(reader.expect_word(word)?, class));
    }
    if is_qualifier(word) {
        return Ok(TypeNameWord::Qualifier(reader.expect_word(word)?));
    }
    tagged(scope, reader, word)
}

/// One word of a type name.
fn type_name_word(scope: Scope<'_>, reader: &mut Reader<'_>) -> Result<TypeNameWord, Trouble>
    ensures found { IfOk result (λ w. IsTypeNameWord scope.entry.typedefs.now w reader.old reader.new) }
    ensures read { Reads result (λ w. record { word = w; rest = reader.new }) (word_by scope.entry.typedefs.now reader.old (first_symbol reader.old)) }
{
    match reader.peek() {
        Symbol::Keyword(word) => keyword_word(scope, reader, word),
        _ => Ok(TypeNameWord::Typedef(reader.typedef_name(scope)?)),
    }
}

/// The words of a type name.
fn type_name_words(
    scope: Scope<'_>,
    reader: &mut Reader<'_>,
) -> Result<Parsed<Vec<TypeNameWord>>, Trouble>
    ensures words { IfOk result (λ n. Chain (IsTypeNameWord scope.entry.typedefs.now) n.tree.items reader.old reader.new) }
    ensures one_type { IfOk result (λ n. is_one_type (counts_of n.tree.items) ≡ true) }
    ensures height { IfOk result (λ n. n.height ≡ words_height n.tree.items) }
    ensures read { Reads result (λ n. record { words = n.tree.items; rest = reader.new }) (after_words (words scope.entry.typedefs.now (length reader.old) reader.old) of_one_type) }
{
    let mut words = Vec::new(scope.alloc);
    let mut counts = SpecifierCounts::new();
    for _turn in 0..reader.left() {
        if !reader.begins_specifiers(scope) {
            break;
        }
        let word = type_name_word(scope, reader)?;
        count_word(&mut counts, &word);
        words.push(word)?;
    }
    if !counts.is_one_type() {
        return Err(Trouble::Syntax);
    }
    let height = words_height(words.as_slice());
    Ok(Parsed {
        tree: words,
        height,
    })
}

/// One pair of brackets.
#[cycle(expressions)]
fn bracket_pair(
    scope: Scope<'_>,
    reader: &mut Reader<'_>,
    budget: u32,
) -> Result<Parsed<ArrayLength>, Trouble>
    ensures found { IfOk result (λ n. FoundPair scope.entry.typedefs.now n.tree n.height reader.old reader.new) }
    ensures read { (more : List Terminal → Option GotArrays) → MatchResult result (λ n. bracketed reader.old (pair (readers_inside scope.entry.typedefs.now budget) reader.old more) ≡ after_arrays (more reader.new) (with_pair n.tree n.height)) (Refuses (bracketed reader.old (pair (readers_inside scope.entry.typedefs.now budget) reader.old more))) }
{
    let place = reader.expect(Punctuator::LeftBracket)?;
    if reader.accept(Punctuator::RightBracket) {
        return Ok(Parsed {
            tree: ArrayLength {
                place,
                length: None,
            },
            height: 0,
        });
    }
    let found = conditional(scope, reader, inner(budget)?)?;
    reader.expect(Punctuator::RightBracket)?;
    Ok(Parsed {
        tree: ArrayLength {
            place,
            length: Some(found.tree),
        },
        height: found.height,
    })
}

/// The brackets that stand next.
#[cycle(expressions)]
fn brackets(
    scope: Scope<'_>,
    reader: &mut Reader<'_>,
    budget: u32,
) -> Result<Parsed<ArrayParts>, Trouble>
    ensures found { IfOk result (λ n. FoundArrays scope.entry.typedefs.now n.tree.arrays.items (map tree_of n.tree.lengths.items) n.height reader.old reader.new) }
    ensures read { Reads result (λ n. arrays_got n.tree n.height reader.new) (pairs (readers_inside scope.entry.typedefs.now budget) (length reader.old) reader.old) }
{
    let mut parts = ArrayParts {
        arrays: Vec::new(scope.alloc),
        lengths: Vec::new(scope.alloc),
    };
    let mut height = 0u32;
    for _turn in 0..reader.left() {
        if !reader.is_at(Punctuator::LeftBracket) {
            return Ok(Parsed {
                tree: parts,
                height,
            });
        }
        let pair = bracket_pair(scope, reader, budget)?;
        height = height.max(pair.height);
        add_brackets(&mut parts, pair.tree)?;
    }
    Ok(Parsed {
        tree: parts,
        height,
    })
}

/// The declarator in parentheses, if there is one, else no layer.
#[cycle(expressions)]
fn nested_abstract(
    scope: Scope<'_>,
    reader: &mut Reader<'_>,
    budget: u32,
) -> Result<Parsed<AbstractParts>, Trouble>
    ensures found { IfOk result (λ n. FoundNested scope.entry.typedefs.now (map layer_view n.tree.layers.items) (map tree_of n.tree.lengths.items) n.height reader.old reader.new) }
    ensures read { Reads result (λ n. layers_got n.tree n.height reader.new) (nested (readers_inside scope.entry.typedefs.now budget) reader.old) }
{
    if !reader.accept(Punctuator::LeftParenthesis) {
        return Ok(Parsed {
            tree: AbstractParts {
                layers: Vec::new(scope.alloc),
                lengths: Vec::new(scope.alloc),
            },
            height: 0,
        });
    }
    let nested = abstract_declarator(scope, reader, inner(budget)?)?;
    reader.expect(Punctuator::RightParenthesis)?;
    Ok(nested)
}

/// An abstract declarator, which is not empty. One star alone adds nothing to the height.
#[cycle(expressions)]
fn abstract_declarator(
    scope: Scope<'_>,
    reader: &mut Reader<'_>,
    budget: u32,
) -> Result<Parsed<AbstractParts>, Trouble>
    ensures found { IfOk result (λ n. FoundLayers scope.entry.typedefs.now (map layer_view n.tree.layers.items) (map tree_of n.tree.lengths.items) n.height reader.old reader.new) }
    ensures read { Reads result (λ n. layers_got n.tree n.height reader.new) ((all_readers scope.entry.typedefs.now budget).declarator reader.old) }
{
    let stars = stars(scope.alloc, reader)?;
    let nested = nested_abstract(scope, reader, budget)?;
    let arrays = brackets(scope, reader, budget)?;
    let whole = layered(stars, nested, arrays, budget)?;
    Ok(whole)
}

/// Whether an abstract declarator stands next.
fn begins_abstract(reader: &Reader<'_>) -> bool
    ensures { result ≡ begins_abstract (first_symbol reader.now) }
{
    reader.is_at(Punctuator::Star)
        || reader.is_at(Punctuator::LeftParenthesis)
        || reader.is_at(Punctuator::LeftBracket)
}

/// A type name.
#[cycle(expressions)]
pub fn type_name(
    scope: Scope<'_>,
    reader: &mut Reader<'_>,
    budget: u32,
) -> Result<Parsed<Box<TypeNameParts>>, Trouble>
    ensures found { IfOk result (λ n. FoundTypeName scope.entry.typedefs.now (type_name_view n.tree.value.name) (map tree_of n.tree.value.lengths.items) n.height reader.old reader.new) }
    ensures read { Reads result (λ n. record { name = type_name_view n.tree.value.name; lengths = trees (map tree_of n.tree.value.lengths.items); height = n.height; rest = reader.new }) ((all_readers scope.entry.typedefs.now budget).type_name reader.old) }
{
    let words = type_name_words(scope, reader)?;
    if !begins_abstract(reader) {
        let plain = plain_name(scope.alloc, words)?;
        return Ok(plain);
    }
    let declarator = abstract_declarator(scope, reader, inner(budget)?)?;
    let declared = declared_name(scope.alloc, words, declarator, budget)?;
    Ok(declared)
}
