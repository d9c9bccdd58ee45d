//! External declarations (6.9).
ghost use Rattle.std.specs.Prelude.{◌≡◌, ◌+◌, ◌≤◌, List, [], length, map, IfOk};
ghost use Rattle.c_layout.specs.DeclarationTrees.{Declared, Prototype, spec_tree, spec_trees, function_declarator_view, init_declarator_view, external_tree};
ghost use Rattle.c_parser_declarations.specs.Grammar.Findings.{FoundSpec, FoundBare, FoundTail};
ghost use Rattle.c_parser_expression_grammar.specs.Fronts.{first_place};
ghost use Rattle.c_parser.specs.Externals.{with_declared};
ghost use Rattle.c_parser.specs.Findings.{FoundLast, FoundBehind, FoundNamed, FoundExternal};
ghost use Rattle.c_parser_tokens.specs.declared.terminals.Terminal.{Terminal};
ghost use Rattle.c_parser_expression_grammar.specs.ReadingResults.{Reads};
ghost use Rattle.c_parser_declarations.specs.Grammar.Answers.{as_item};
ghost use Rattle.c_parser_declarations.specs.Grammar.DeclarationReaders.{file_declarator, initialized};
ghost use Rattle.c_parser_declarations.specs.Grammar.Items.{item_of, after_item};
ghost use Rattle.c_parser_declarations.specs.Grammar.SpecifierReaders.{raised, specifiers};
ghost use Rattle.c_parser.specs.UnitReaders as readers;
ghost use Rattle.c_parser.specs.UnitReaders.{within, behind_items};

use crate::statements::block;
use c_layout::{External, FunctionDeclarator, InitDeclarator, SpecWord};
use c_parser_declarations::readers::{
    file_declarator, initialized, is_typedef, named_by, specifiers,
};
use c_parser_expressions::{Parsed, Reader, Scope, Trouble, TypedefNames, inner, made};
use c_parser_tokens::Punctuator;
use cc_base::Place;
use std::alloc::{AllocError, Global};

/// The first token and the specifiers of an external declaration.
#[derive(Drop)]
struct Head {
    place: Place,
    words: Vec<SpecWord>,
    height: u32,
}

/// Puts the declarator's name in force, where it `gives` it as a typedef name.
fn put_in_force(
    alloc: Global,
    typedefs: &mut TypedefNames,
    declared: &InitDeclarator,
    gives: bool,
) -> Result<(), AllocError>
    ensures { IfOk result (λ _. typedefs.new ≡ with_declared gives typedefs.old (init_declarator_view declared.now)) }
{
    if !gives {
        return Ok(());
    }
    match named_by(declared) {
        Some(name) => typedefs.add(alloc, name.text.as_bytes()),
        None => Ok(()),
    }
}

/// A declarator without initializer. Behind it its name is in force, where it is a typedef name.
fn declared_name(
    alloc: Global,
    typedefs: &mut TypedefNames,
    reader: &mut Reader<'_>,
    gives: bool,
    budget: u32,
) -> Result<Parsed<InitDeclarator>, Trouble>
    ensures found { IfOk result (λ n. FoundBare typedefs.old budget (init_declarator_view n.tree) n.height reader.old reader.new) }
    ensures names { IfOk result (λ n. typedefs.new ≡ with_declared gives typedefs.old (init_declarator_view n.tree)) }
    ensures read { Reads result (as_item init_declarator_view reader.new) (file_declarator typedefs.old budget reader.old) }
{
    let scope = Scope { alloc, typedefs };
    let found = file_declarator(scope, reader, budget)?;
    put_in_force(alloc, typedefs, &found.tree, gives)?;
    Ok(found)
}

/// A declarator with the initializer that stands next, if one does.
fn completed(
    alloc: Global,
    typedefs: &TypedefNames,
    reader: &mut Reader<'_>,
    declared: Parsed<InitDeclarator>,
    budget: u32,
) -> Result<Parsed<InitDeclarator>, Trouble>
    ensures found { IfOk result (λ n. FoundTail typedefs.now budget (init_declarator_view declared.tree) declared.height (init_declarator_view n.tree) n.height reader.old reader.new) }
    ensures read { Reads result (as_item init_declarator_view reader.new) (initialized typedefs.now budget (as_item init_declarator_view reader.old declared)) }
{
    let scope = Scope { alloc, typedefs };
    initialized(scope, reader, declared, budget)
}

/// The declarators behind the first one, each behind a comma, with the `;`. They go to the end of
/// `found`, and the greatest height is the answer.
#[tactic(auto, using(crate::proofs::Turns::further_begun))]
fn further_declarators(
    alloc: Global,
    typedefs: &mut TypedefNames,
    reader: &mut Reader<'_>,
    gives: bool,
    found: &mut Vec<InitDeclarator>,
    budget: u32,
) -> Result<u32, Trouble>
    ensures found { IfOk result (λ h. FoundLast gives typedefs.old typedefs.new budget (map init_declarator_view found.old.items) (map init_declarator_view found.new.items) h reader.old reader.new) }
    ensures read { Reads result (λ h. item_of (map init_declarator_view found.new.items) h reader.new) (behind_items (map init_declarator_view found.old.items) (readers.further gives budget (length reader.old) typedefs.old reader.old)) }
{
    let mut height = 0u32;
    for _turn in 0..reader.left() {
        if !reader.accept(Punctuator::Comma) {
            reader.expect(Punctuator::Semicolon)?;
            return Ok(height);
        }
        let name = declared_name(alloc, typedefs, reader, gives, budget)?;
        let next = completed(alloc, typedefs, reader, name, budget)?;
        height = height.max(next.height);
        found.push(next.tree)?;
    }
    reader.expect(Punctuator::Semicolon)?;
    Ok(height)
}

/// A declaration, behind its first declarator without initializer.
fn declaration(
    alloc: Global,
    typedefs: &mut TypedefNames,
    reader: &mut Reader<'_>,
    head: Head,
    name: Parsed<InitDeclarator>,
    budget: u32,
) -> Result<Parsed<External>, Trouble>
    ensures found { IfOk result (λ n. FoundBehind typedefs.old typedefs.new budget head.place (map spec_tree head.words.items) head.height (init_declarator_view name.tree) name.height (external_tree n.tree) n.height reader.old reader.new) }
    ensures read { Reads result (as_item external_tree reader.new) (within budget (λ b. readers.declaration_named b typedefs.old head.place (item_of (spec_trees (map spec_tree head.words.items)) head.height []) (as_item init_declarator_view reader.old name))) }
{
    let parts = inner(budget)?;
    let gives = is_typedef(head.words.as_slice());
    let first = completed(alloc, typedefs, reader, name, parts)?;
    let mut found = Vec::new(alloc);
    found.push(first.tree)?;
    let further = further_declarators(alloc, typedefs, reader, gives, &mut found, parts)?;
    let begun = head.height.max(first.height);
    let all = begun.max(further);
    let height = made(budget, all)?;
    let tree = External::Declaration(head.place, head.words, found);
    Ok(Parsed { tree, height })
}

/// The definition of a function with this declarator, which has this height.
fn function(
    alloc: Global,
    typedefs: &TypedefNames,
    reader: &mut Reader<'_>,
    head: Head,
    name: Parsed<FunctionDeclarator>,
    budget: u32,
) -> Result<Parsed<External>, Trouble>
    ensures found { IfOk result (λ n. FoundBehind typedefs.now typedefs.now budget head.place (map spec_tree head.words.items) head.height (Prototype (function_declarator_view name.tree)) name.height (external_tree n.tree) n.height reader.old reader.new) }
    ensures read { Reads result (as_item external_tree reader.new) (readers.definition_within budget typedefs.now head.place (item_of (spec_trees (map spec_tree head.words.items)) head.height []) (Prototype (function_declarator_view name.tree)) name.height reader.old) }
{
    let scope = Scope { alloc, typedefs };
    let body = block(scope, reader, inner(budget)?)?;
    let begun = head.height.max(name.height);
    let all = begun.max(body.height);
    let height = made(budget, all)?;
    let tree = External::Function(head.place, head.words, name.tree, body.tree);
    Ok(Parsed { tree, height })
}

/// The definition of a function, behind its declarator.
fn definition(
    alloc: Global,
    typedefs: &TypedefNames,
    reader: &mut Reader<'_>,
    head: Head,
    name: Parsed<InitDeclarator>,
    budget: u32,
) -> Result<Parsed<External>, Trouble>
    ensures found { IfOk result (λ n. FoundBehind typedefs.now typedefs.now budget head.place (map spec_tree head.words.items) head.height (init_declarator_view name.tree) name.height (external_tree n.tree) n.height reader.old reader.new) }
    ensures read { Reads result (as_item external_tree reader.new) (readers.definition_within budget typedefs.now head.place (item_of (spec_trees (map spec_tree head.words.items)) head.height []) (init_declarator_view name.tree) name.height reader.old) }
{
    let Parsed { tree, height } = name;
    match tree {
        InitDeclarator::Function(tree) => {
            function(
                alloc,
                typedefs,
                reader,
                head,
                Parsed { tree, height },
                budget,
            )
        }
        _ => Err(Trouble::Syntax),
    }
}

/// The first token and the specifiers.
fn read_head(
    alloc: Global,
    typedefs: &TypedefNames,
    reader: &mut Reader<'_>,
    budget: u32,
) -> Result<Head, Trouble>
    ensures place { IfOk result (λ h. h.place ≡ first_place reader.old) }
    ensures found { IfOk result (λ h. FoundSpec typedefs.now budget (spec_trees (map spec_tree h.words.items)) h.height reader.old reader.new) }
    ensures read { Reads result (λ h. item_of (spec_trees (map spec_tree h.words.items)) h.height reader.new) (specifiers typedefs.now budget reader.old) }
{
    let place = reader.place();
    let scope = Scope { alloc, typedefs };
    let found = specifiers(scope, reader, budget)?;
    Ok(Head {
        place,
        words: found.tree,
        height: found.height,
    })
}

/// A declaration without declarators, behind its `;`.
fn nameless(alloc: Global, head: Head, budget: u32) -> Result<Parsed<External>, Trouble>
    ensures tree { IfOk result (λ n. external_tree n.tree ≡ Declared head.place (map spec_tree head.words.items) []) }
    ensures height { IfOk result (λ n. (n.height ≡ head.height + 1) × (n.height ≤ budget)) }
    ensures read { (rest : List Terminal) → Reads result (as_item external_tree rest) (raised budget (Declared head.place (map spec_tree head.words.items) []) head.height rest) }
{
    let height = made(budget, head.height)?;
    let tree = External::Declaration(head.place, head.words, Vec::new(alloc));
    Ok(Parsed { tree, height })
}

/// An external declaration with declarators, behind its specifiers.
fn with_declarators(
    alloc: Global,
    typedefs: &mut TypedefNames,
    reader: &mut Reader<'_>,
    head: Head,
    budget: u32,
) -> Result<Parsed<External>, Trouble>
    ensures found { IfOk result (λ n. FoundNamed typedefs.old typedefs.new budget head.place (map spec_tree head.words.items) head.height (external_tree n.tree) n.height reader.old reader.new) }
    ensures read { Reads result (as_item external_tree reader.new) (within budget (λ b. after_item (file_declarator typedefs.old b reader.old) (readers.behind_declarator b typedefs.old head.place (item_of (spec_trees (map spec_tree head.words.items)) head.height [])))) }
{
    let gives = is_typedef(head.words.as_slice());
    let name = declared_name(alloc, typedefs, reader, gives, inner(budget)?)?;
    if reader.is_at(Punctuator::LeftBrace) {
        let found = definition(alloc, typedefs, reader, head, name, budget)?;
        return Ok(found);
    }
    let found = declaration(alloc, typedefs, reader, head, name, budget)?;
    Ok(found)
}

/// An external declaration. The typedef names that it declares are then in force.
///
/// # Errors
///
/// `Syntax` where none of a height of at most `budget` stands next, or want of memory.
pub fn external(
    alloc: Global,
    typedefs: &mut TypedefNames,
    reader: &mut Reader<'_>,
    budget: u32,
) -> Result<Parsed<External>, Trouble>
    ensures found { IfOk result (λ n. FoundExternal typedefs.old typedefs.new budget (external_tree n.tree) n.height reader.old reader.new) }
    ensures read { Reads result (as_item external_tree reader.new) (readers.external typedefs.old budget reader.old) }
{
    let head = read_head(alloc, typedefs, reader, inner(budget)?)?;
    if reader.accept(Punctuator::Semicolon) {
        let found = nameless(alloc, head, budget)?;
        return Ok(found);
    }
    let found = with_declarators(alloc, typedefs, reader, head, budget)?;
    Ok(found)
}
