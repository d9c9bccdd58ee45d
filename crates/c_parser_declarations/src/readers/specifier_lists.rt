//! Declaration specifiers (6.7), with the bodies of structures (6.7.2.1).
ghost use Rattle.std.specs.Prelude.{◌≡◌, ◌+◌, ◌==◌, ◌≤◌, true, cond, List, length, map, Some, IfOk};
ghost use Rattle.std.specs.Option.{option_map};
ghost use Rattle.c_layout.specs.DeclarationTrees.{StructTag, StructBody, Members, TypedefName, name_view, declarator_view, spec_tree, spec_trees, member_tree, member_trees};
ghost use Rattle.c_parser_expression_grammar.specs.TypeNames.{is_one_type};
ghost use Rattle.c_parser_declarations.specs.Grammar.Findings.{FoundWord, FoundSpec, FoundMember, FoundMembers, PlainWord};
ghost use Rattle.c_parser_declarations.specs.Grammar.Specifiers.{counted};
ghost use Rattle.c_parser_declarations.specs.Grammar.Answers.{as_item};
ghost use Rattle.c_parser_declarations.specs.Grammar.Items.{item_of};
ghost use Rattle.c_parser_declarations.specs.Grammar.SpecifierReaders as readers;
ghost use Rattle.c_parser_expression_grammar.specs.ReadingResults.{Reads};
ghost use Rattle.c_parser_expression_grammar.specs.Fronts.{first_symbol};
ghost use Rattle.c_parser_tokens.specs.declared.terminals.Terminal.{Terminal};
ghost use Rattle.c_parser_declarations.specs.Grammar.DeclaratorReaders.{above};
ghost use Rattle.c_parser_declarations.specs.Grammar.Specifiers.{counts_of};
ghost use Rattle.c_parser_expression_grammar.specs.TypeNames.{storage_class, type_word_of};

use crate::grammar::declarator_list;
use crate::readers::enumerations::{enumeration, optional_tag};
use c_layout::{Declarator, Member, Name, SpecWord};
use c_parser_expressions::{
    Parsed, Reader, Scope, SpecifierCounts, Trouble, inner, is_qualifier, made, storage_class,
    type_word,
};
use c_parser_tokens::{Keyword, Punctuator, Symbol};
use cc_base::Place;

/// Counts a word.
fn count_word(counts: &mut SpecifierCounts, word: &SpecWord)
    ensures { counts.new ≡ counted counts.old (spec_tree word.now) }
{
    match word {
        SpecWord::Storage(_, _) => counts.add_storage(),
        SpecWord::Qualifier(_) => {}
        SpecWord::Type(_, named) => counts.add_type(*named),
        SpecWord::Struct(_, _, None)
        | SpecWord::Struct(_, _, Some(_))
        | SpecWord::Enum(_, _, None)
        | SpecWord::Enum(_, _, Some(_))
        | SpecWord::Typedef(_) => counts.add_other(),
    }
}

/// A declaration of members.
fn member_of(words: Vec<SpecWord>, declarators: Vec<Declarator>) -> Member
    ensures { member_tree result ≡ Members (spec_trees (map spec_tree words.items)) (map declarator_view declarators.items) }
{
    Member { words, declarators }
}

/// A member's declaration.
#[cycle(specifiers)]
#[tactic(auto, using(crate::proofs::readers::Specifying::member))]
fn member(scope: Scope<'_>, reader: &mut Reader<'_>, budget: u32) -> Result<Parsed<Member>, Trouble>
    ensures found { IfOk result (λ n. FoundMember scope.entry.typedefs.now budget (member_tree n.tree) n.height reader.old reader.new) }
    ensures read { Reads result (as_item member_tree reader.new) ((readers.specifier_readers scope.entry.typedefs.now budget).member reader.old) }
{
    let words = specifiers(scope, reader, inner(budget)?)?;
    let declared = declarator_list(scope, reader, inner(budget)?)?;
    reader.expect(Punctuator::Semicolon)?;
    let height = made(budget, words.height.max(declared.height))?;
    let tree = member_of(words.tree, declared.tree);
    Ok(Parsed { tree, height })
}

/// The members behind `{`, with the `}`.
#[cycle(specifiers)]
#[tactic(auto, using(crate::proofs::grammar::Turns::chained_begun))]
fn members(
    scope: Scope<'_>,
    reader: &mut Reader<'_>,
    budget: u32,
) -> Result<Parsed<Vec<Member>>, Trouble>
    ensures found { IfOk result (λ n. FoundMembers scope.entry.typedefs.now budget (map member_tree n.tree.items) n.height reader.old reader.new) }
    ensures read { Reads result (as_item (λ ms. map member_tree ms.items) reader.new) (readers.members (readers.specifier_readers scope.entry.typedefs.now budget).member reader.old) }
{
    let mut found = Vec::new(scope.alloc);
    let mut height = 0u32;
    for _turn in 0..reader.left() {
        let next = member(scope, reader, budget)?;
        height = height.max(next.height);
        found.push(next.tree)?;
        if reader.accept(Punctuator::RightBrace) {
            let tree = found;
            return Ok(Parsed { tree, height });
        }
    }
    Err(Trouble::Syntax)
}

/// `struct` with a body.
fn struct_body(place: Place, tag: Option<Name>, body: Vec<Member>) -> SpecWord
    ensures { spec_tree result ≡ StructBody place (option_map name_view tag) (member_trees (map member_tree body.items)) }
{
    SpecWord::Struct(place, tag, Some(body))
}

/// `struct` with a tag alone.
fn struct_tag(place: Place, tag: Option<Name>) -> SpecWord
    ensures { spec_tree result ≡ StructTag place (option_map name_view tag) }
{
    SpecWord::Struct(place, tag, None)
}

/// `struct` with a tag, a body or both.
#[cycle(specifiers)]
fn structure(
    scope: Scope<'_>,
    reader: &mut Reader<'_>,
    budget: u32,
) -> Result<Parsed<SpecWord>, Trouble>
    ensures found { IfOk result (λ n. FoundWord scope.entry.typedefs.now budget (spec_tree n.tree) n.height reader.old reader.new) }
    ensures read { first_symbol reader.old ≡ Symbol.Keyword Keyword.Struct → Reads result (as_item spec_tree reader.new) (readers.structure scope.entry.typedefs.now budget (readers.specifiers_inside scope.entry.typedefs.now budget).member reader.old) }
{
    let place = reader.expect_word(Keyword::Struct)?;
    let tag = optional_tag(scope, reader)?;
    if reader.accept(Punctuator::LeftBrace) {
        let body = members(scope, reader, inner(budget)?)?;
        let height = made(budget, body.height)?;
        let tree = struct_body(place, tag, body.tree);
        return Ok(Parsed { tree, height });
    }
    if !tag.is_some() {
        return Err(Trouble::Syntax);
    }
    let height = made(budget, 0)?;
    let tree = struct_tag(place, tag);
    Ok(Parsed { tree, height })
}

/// A word without parts.
fn plain_word(reader: &mut Reader<'_>, word: Keyword) -> Result<SpecWord, Trouble>
    ensures found { IfOk result (λ w. PlainWord (spec_tree w) reader.old reader.new) }
    ensures read { first_symbol reader.old ≡ Symbol.Keyword word → Reads result (λ w. item_of (spec_tree w) 0 reader.new) (readers.plain_by reader.old word (type_word_of word) (storage_class word)) }
{
    let place = reader.expect_word(word)?;
    if let Some(named) = type_word(word) {
        return Ok(SpecWord::Type(place, named));
    }
    if let Some(class) = storage_class(word) {
        return Ok(SpecWord::Storage(place, class));
    }
    if is_qualifier(word) {
        Ok(SpecWord::Qualifier(place))
    } else {
        Err(Trouble::Syntax)
    }
}

/// A word without parts, or a typedef name.
#[tactic(auto, using(crate::proofs::readers::Specifying::plain_found))]
fn simple_word(
    scope: Scope<'_>,
    reader: &mut Reader<'_>,
    budget: u32,
) -> Result<Parsed<SpecWord>, Trouble>
    ensures found { IfOk result (λ n. FoundWord scope.entry.typedefs.now budget (spec_tree n.tree) n.height reader.old reader.new) }
    ensures read { Reads result (as_item spec_tree reader.new) (readers.simple_word scope.entry.typedefs.now reader.old) }
{
    match reader.peek() {
        Symbol::Keyword(word) => {
            let tree = plain_word(reader, word)?;
            Ok(Parsed { tree, height: 0 })
        }
        _ => {
            let name = reader.typedef_name(scope)?;
            let tree = SpecWord::Typedef(name);
            Ok(Parsed { tree, height: 0 })
        }
    }
}

/// One word of specifiers, where one stands next.
#[cycle(specifiers)]
fn specifier(
    scope: Scope<'_>,
    reader: &mut Reader<'_>,
    budget: u32,
) -> Result<Parsed<SpecWord>, Trouble>
    ensures found { IfOk result (λ n. FoundWord scope.entry.typedefs.now budget (spec_tree n.tree) n.height reader.old reader.new) }
    ensures read { Reads result (as_item spec_tree reader.new) (readers.word scope.entry.typedefs.now budget (readers.specifiers_inside scope.entry.typedefs.now budget).member reader.old) }
{
    match reader.peek() {
        Symbol::Keyword(Keyword::Struct) => structure(scope, reader, budget),
        Symbol::Keyword(Keyword::Enum) => enumeration(scope, reader, budget),
        _ => simple_word(scope, reader, budget),
    }
}

/// Declaration specifiers: exactly one type, and at most one storage class. One word adds nothing to
/// the height.
///
/// # Errors
///
/// `Syntax` where no specifiers of a height of at most `budget` stand next, or want of memory.
#[cycle(specifiers)]
#[tactic(auto, using(crate::proofs::grammar::Turns::words_begun))]
pub fn specifiers(
    scope: Scope<'_>,
    reader: &mut Reader<'_>,
    budget: u32,
) -> Result<Parsed<Vec<SpecWord>>, Trouble>
    ensures found { IfOk result (λ n. FoundSpec scope.entry.typedefs.now budget (spec_trees (map spec_tree n.tree.items)) n.height reader.old reader.new) }
    ensures read { Reads result (as_item (λ ws. spec_trees (map spec_tree ws.items)) reader.new) (readers.specifiers scope.entry.typedefs.now budget reader.old) }
{
    let mut words = Vec::new(scope.alloc);
    let mut counts = SpecifierCounts::new();
    let mut height = 0u32;
    for _turn in 0..reader.left() {
        if !reader.begins_specifiers(scope) {
            let whole = listed(words, counts, height, budget)?;
            return Ok(whole);
        }
        let word = specifier(scope, reader, budget)?;
        count_word(&mut counts, &word.tree);
        height = height.max(word.height);
        words.push(word.tree)?;
    }
    let whole = listed(words, counts, height, budget)?;
    Ok(whole)
}

/// The height of a list of so many words: one word alone adds nothing.
pub fn list_height(count: usize, parts: u32, budget: u32) -> Result<u32, Trouble>
    ensures is { IfOk result (λ h. h ≡ cond (count == 1) parts (parts + 1)) }
    ensures within { IfOk result (λ h. parts ≤ budget → h ≤ budget) }
    ensures read { Reads result (λ h. h) (cond (count == 1) (Some parts) (above budget parts)) }
{
    if count == 1 {
        return Ok(parts);
    }
    made(budget, parts)
}

/// The words of specifiers, of heights of at most `parts`, judged as a list.
fn listed(
    words: Vec<SpecWord>,
    counts: SpecifierCounts,
    parts: u32,
    budget: u32,
) -> Result<Parsed<Vec<SpecWord>>, Trouble>
    ensures words { IfOk result (λ n. n.tree.items ≡ words.items) }
    ensures one_type { IfOk result (λ n. is_one_type counts ≡ true) }
    ensures height { IfOk result (λ n. n.height ≡ cond (length words.items == 1) parts (parts + 1)) }
    ensures within { IfOk result (λ n. parts ≤ budget → n.height ≤ budget) }
    ensures read { (rest : List Terminal) → counts ≡ counts_of (spec_trees (map spec_tree words.items)) → Reads result (as_item (λ ws. spec_trees (map spec_tree ws.items)) rest) (readers.judged budget (item_of (spec_trees (map spec_tree words.items)) parts rest)) }
{
    if !counts.is_one_type() {
        return Err(Trouble::Syntax);
    }
    let height = list_height(words.len(), parts, budget)?;
    let tree = words;
    Ok(Parsed { tree, height })
}
