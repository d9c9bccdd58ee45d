//! Declarations in blocks (6.7, 6.8.2).
ghost use Rattle.std.specs.Prelude.{◌≡◌, true, length, map, IfOk};
ghost use Rattle.std.specs.List.{list_all};
ghost use Rattle.c_layout.specs.DeclarationTrees.{spec_tree, spec_trees, declarator_view, init_declarator_view, local_view};
ghost use Rattle.c_parser_declarations.specs.Grammar.Declarations.{is_local_class, is_local_word, IsLocalDeclarator, local_init_height};
ghost use Rattle.c_parser_declarations.specs.Grammar.Findings.{FoundSpec, FoundListed, FoundLocalTail, FoundLocalDeclarator, FoundLocalDeclarators, FoundLocal};
ghost use Rattle.c_parser_declarations.specs.Grammar.Answers.{as_item};
ghost use Rattle.c_parser_declarations.specs.Grammar.DeclarationReaders as readers;
ghost use Rattle.c_parser_declarations.specs.Grammar.Items.{listed};
ghost use Rattle.c_parser_expression_grammar.specs.ReadingResults.{Reads};

use crate::grammar::declarator;
use crate::readers::initializers::assigned;
use crate::readers::specifier_lists::specifiers;
use c_layout::{Declarator, InitDeclarator, Local, SpecWord, Storage};
use c_parser_expressions::{Parsed, Reader, Scope, Trouble, inner, made};
use c_parser_tokens::Punctuator;

/// Whether a storage class may stand in a block.
fn is_local_class(class: Storage) -> bool
    ensures { result ≡ is_local_class class }
{
    !matches!(class, Storage::Typedef | Storage::Extern)
}

/// Whether a word may stand in a block: no `typedef`, no `extern`, and no body.
fn is_local_word(word: &SpecWord) -> bool
    ensures { result ≡ is_local_word (spec_tree word.now) }
{
    match word {
        SpecWord::Storage(_, class) => is_local_class(*class),
        SpecWord::Struct(_, _, Some(_)) => false,
        SpecWord::Enum(_, _, Some(_)) => false,
        SpecWord::Struct(_, _, None) | SpecWord::Enum(_, _, None) => true,
        SpecWord::Qualifier(_) | SpecWord::Type(_, _) | SpecWord::Typedef(_) => true,
    }
}

/// Whether each of these words may stand in a block.
fn each_local(words: &[SpecWord]) -> bool
    ensures { result ≡ list_all (λ word. is_local_word (spec_tree word)) words.now }
{
    words.iter().all(|word| is_local_word(word))
}

/// Whether all words may stand in a block.
#[tactic(auto, using(crate::proofs::readers::Among::local_all))]
fn are_local(words: &[SpecWord]) -> bool
    ensures { result ≡ list_all is_local_word (map spec_tree words.now) }
{
    each_local(words)
}

/// The specifiers of a declaration in a block.
fn local_specifiers(
    scope: Scope<'_>,
    reader: &mut Reader<'_>,
    budget: u32,
) -> Result<Parsed<Vec<SpecWord>>, Trouble>
    ensures found { IfOk result (λ n. FoundSpec scope.entry.typedefs.now budget (spec_trees (map spec_tree n.tree.items)) n.height reader.old reader.new) }
    ensures local { IfOk result (λ n. list_all is_local_word (map spec_tree n.tree.items) ≡ true) }
    ensures read { Reads result (as_item (λ ws. spec_trees (map spec_tree ws.items)) reader.new) (readers.local_specifiers scope.entry.typedefs.now budget reader.old) }
{
    let words = specifiers(scope, reader, budget)?;
    if !are_local(words.tree.as_slice()) {
        return Err(Trouble::Syntax);
    }
    Ok(words)
}

/// A declarator with the initializer that follows its `=`, if one does.
fn with_initializer(
    scope: Scope<'_>,
    reader: &mut Reader<'_>,
    declared: Parsed<Declarator>,
    budget: u32,
) -> Result<Parsed<InitDeclarator>, Trouble>
    ensures found { IfOk result (λ n. FoundLocalTail scope.entry.typedefs.now budget (declarator_view declared.tree) declared.height (init_declarator_view n.tree) n.height reader.old reader.new) }
    ensures read { Reads result (as_item init_declarator_view reader.new) (readers.with_initializer scope.entry.typedefs.now budget (as_item declarator_view reader.old declared)) }
{
    if !reader.is_at(Punctuator::Assign) {
        let tree = InitDeclarator::Object(declared.tree);
        return Ok(Parsed {
            tree,
            height: declared.height,
        });
    }
    let found = assigned(scope, reader, declared, budget)?;
    Ok(found)
}

/// A declarator of an object, with its initializer.
fn local_declarator(
    scope: Scope<'_>,
    reader: &mut Reader<'_>,
    budget: u32,
) -> Result<Parsed<InitDeclarator>, Trouble>
    ensures found { IfOk result (λ n. FoundLocalDeclarator scope.entry.typedefs.now budget (init_declarator_view n.tree) n.height reader.old reader.new) }
    ensures read { Reads result (as_item init_declarator_view reader.new) (readers.local_declarator scope.entry.typedefs.now budget reader.old) }
{
    let declared = declarator(scope, reader, budget)?;
    let found = with_initializer(scope, reader, declared, budget)?;
    Ok(found)
}

/// One declarator or more, with a comma between any two.
#[tactic(auto, using(crate::proofs::grammar::Turns::listed_begun))]
fn some_declarators(
    scope: Scope<'_>,
    reader: &mut Reader<'_>,
    budget: u32,
) -> Result<Parsed<Vec<InitDeclarator>>, Trouble>
    ensures found { IfOk result (λ n. FoundListed (IsLocalDeclarator scope.entry.typedefs.now) local_init_height budget (map init_declarator_view n.tree.items) n.height reader.old reader.new) }
    ensures read { Reads result (as_item (λ ds. map init_declarator_view ds.items) reader.new) (listed (readers.local_declarator scope.entry.typedefs.now budget) (length reader.old) reader.old) }
{
    let mut found = Vec::new(scope.alloc);
    let mut height = 0u32;
    for _turn in 0..reader.left() {
        let next = local_declarator(scope, reader, budget)?;
        height = height.max(next.height);
        found.push(next.tree)?;
        if !reader.accept(Punctuator::Comma) {
            let tree = found;
            return Ok(Parsed { tree, height });
        }
    }
    Err(Trouble::Syntax)
}

/// The declarators of a declaration in a block, with the `;`.
fn local_declarators(
    scope: Scope<'_>,
    reader: &mut Reader<'_>,
    budget: u32,
) -> Result<Parsed<Vec<InitDeclarator>>, Trouble>
    ensures found { IfOk result (λ n. FoundLocalDeclarators scope.entry.typedefs.now budget (map init_declarator_view n.tree.items) n.height reader.old reader.new) }
    ensures read { Reads result (as_item (λ ds. map init_declarator_view ds.items) reader.new) (readers.local_declarators scope.entry.typedefs.now budget reader.old) }
{
    if reader.accept(Punctuator::Semicolon) {
        let tree = Vec::new(scope.alloc);
        return Ok(Parsed { tree, height: 0 });
    }
    let found = some_declarators(scope, reader, budget)?;
    reader.expect(Punctuator::Semicolon)?;
    Ok(found)
}

/// A declaration in a block or in a `for`, with its `;`.
///
/// # Errors
///
/// `Syntax` where none of a height of at most `budget` stands next, or want of memory.
pub fn local_declaration(
    scope: Scope<'_>,
    reader: &mut Reader<'_>,
    budget: u32,
) -> Result<Parsed<Local>, Trouble>
    ensures found { IfOk result (λ n. FoundLocal scope.entry.typedefs.now budget (local_view n.tree) n.height reader.old reader.new) }
    ensures read { Reads result (as_item local_view reader.new) (readers.local_declaration scope.entry.typedefs.now budget reader.old) }
{
    let place = reader.place();
    let words = local_specifiers(scope, reader, inner(budget)?)?;
    let declared = local_declarators(scope, reader, inner(budget)?)?;
    let height = made(budget, words.height.max(declared.height))?;
    let tree = Local {
        place,
        words: words.tree,
        declarators: declared.tree,
    };
    Ok(Parsed { tree, height })
}
