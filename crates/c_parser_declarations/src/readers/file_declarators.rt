//! Declarators at file scope (6.9), each with its initializer.
ghost use Rattle.std.specs.Prelude.{◌≡◌, IfOk};
ghost use Rattle.std.specs.Option.{option_map, option_copied};
ghost use Rattle.c_layout.specs.DeclarationTrees.{Object, name_view, declarator_view, init_declarator_view};
ghost use Rattle.c_parser_declarations.specs.Grammar.Declarations.{name_of};
ghost use Rattle.c_parser_declarations.specs.Grammar.Findings.{FoundBareBehind, FoundBare, FoundTail};
ghost use Rattle.c_parser_declarations.specs.Grammar.Answers.{as_item};
ghost use Rattle.c_parser_declarations.specs.Grammar.DeclarationReaders as readers;
ghost use Rattle.c_parser_declarations.specs.Grammar.DeclaratorReaders.{named_declarator};
ghost use Rattle.c_parser_declarations.specs.Grammar.Items.{after_item};
ghost use Rattle.c_parser_declarations.specs.Grammar.ParameterReaders.{function_declarator};
ghost use Rattle.c_parser_expression_grammar.specs.ReadingResults.{Reads};

use crate::grammar::named_declarator;
use crate::readers::initializers::assigned;
use crate::readers::parameters::function_declarator;
use c_layout::{Declarator, InitDeclarator, Name};
use c_parser_expressions::{Parsed, Reader, Scope, Trouble, inner, made, stars};
use c_parser_tokens::Punctuator;

/// The declarator of a function as a declarator at file scope.
fn prototype(
    scope: Scope<'_>,
    reader: &mut Reader<'_>,
    stars: Vec<u32>,
    budget: u32,
) -> Result<Parsed<InitDeclarator>, Trouble>
    ensures found { IfOk result (λ n. FoundBareBehind scope.entry.typedefs.now budget stars.items (init_declarator_view n.tree) n.height reader.old reader.new) }
    ensures read { Reads result (as_item init_declarator_view reader.new) (after_item (function_declarator scope.entry.typedefs.now budget stars.items reader.old) readers.as_prototype) }
{
    let found = function_declarator(scope, reader, stars, budget)?;
    let tree = InitDeclarator::Function(found.tree);
    Ok(Parsed {
        tree,
        height: found.height,
    })
}

/// The declarator of an object as a declarator at file scope, without initializer.
fn object(
    scope: Scope<'_>,
    reader: &mut Reader<'_>,
    stars: Vec<u32>,
    budget: u32,
) -> Result<Parsed<InitDeclarator>, Trouble>
    ensures found { IfOk result (λ n. FoundBareBehind scope.entry.typedefs.now budget stars.items (init_declarator_view n.tree) n.height reader.old reader.new) }
    ensures read { Reads result (as_item init_declarator_view reader.new) (after_item (named_declarator scope.entry.typedefs.now budget stars.items reader.old) readers.as_object) }
{
    let found = named_declarator(scope, reader, stars, budget)?;
    let tree = InitDeclarator::Object(found.tree);
    Ok(Parsed {
        tree,
        height: found.height,
    })
}

/// A declarator without initializer behind its stars. It is that of a function exactly where `(`
/// follows the name.
fn behind_stars(
    scope: Scope<'_>,
    reader: &mut Reader<'_>,
    stars: Vec<u32>,
    budget: u32,
) -> Result<Parsed<InitDeclarator>, Trouble>
    ensures found { IfOk result (λ n. FoundBareBehind scope.entry.typedefs.now budget stars.items (init_declarator_view n.tree) n.height reader.old reader.new) }
    ensures read { Reads result (as_item init_declarator_view reader.new) (readers.bare_behind scope.entry.typedefs.now budget stars.items reader.old) }
{
    if reader.is_at_identifier(scope) && reader.is_before(Punctuator::LeftParenthesis) {
        prototype(scope, reader, stars, budget)
    } else {
        object(scope, reader, stars, budget)
    }
}

/// The declarator of an object or a function, without initializer.
///
/// # Errors
///
/// `Syntax` where no declarator of a height of at most `budget` stands next, or want of memory.
pub fn file_declarator(
    scope: Scope<'_>,
    reader: &mut Reader<'_>,
    budget: u32,
) -> Result<Parsed<InitDeclarator>, Trouble>
    ensures found { IfOk result (λ n. FoundBare scope.entry.typedefs.now budget (init_declarator_view n.tree) n.height reader.old reader.new) }
    ensures read { Reads result (as_item init_declarator_view reader.new) (readers.file_declarator scope.entry.typedefs.now budget reader.old) }
{
    let stars = stars(scope.alloc, reader)?;
    let found = behind_stars(scope, reader, stars, budget)?;
    Ok(found)
}

/// The name that a declarator declares.
pub fn named_by(declared: &InitDeclarator) -> Option<&Name>
    ensures { option_map name_view (option_copied result) ≡ name_of (init_declarator_view declared.now) }
{
    match declared {
        InitDeclarator::Object(found) => found.name.as_ref(),
        InitDeclarator::Initialized(found, _, _) => found.name.as_ref(),
        InitDeclarator::Function(found) => Some(&found.name),
    }
}

/// A declarator and the initializer behind it, which are a production together.
fn initialized_object(
    scope: Scope<'_>,
    reader: &mut Reader<'_>,
    declared: Parsed<Declarator>,
    budget: u32,
) -> Result<Parsed<InitDeclarator>, Trouble>
    ensures found { IfOk result (λ n. FoundTail scope.entry.typedefs.now budget (Object (declarator_view declared.tree)) declared.height (init_declarator_view n.tree) n.height reader.old reader.new) }
    ensures read { Reads result (as_item init_declarator_view reader.new) (readers.initialized_object scope.entry.typedefs.now budget (declarator_view declared.tree) declared.height reader.old) }
{
    let found = assigned(scope, reader, declared, inner(budget)?)?;
    let height = made(budget, found.height)?;
    Ok(Parsed {
        tree: found.tree,
        height,
    })
}

/// A declarator with the initializer that stands next, if one does.
///
/// # Errors
///
/// `Syntax` where `=` stands next and no initializer of a height below `budget` follows, or want of
/// memory.
pub fn initialized(
    scope: Scope<'_>,
    reader: &mut Reader<'_>,
    declared: Parsed<InitDeclarator>,
    budget: u32,
) -> Result<Parsed<InitDeclarator>, Trouble>
    ensures found { IfOk result (λ n. FoundTail scope.entry.typedefs.now budget (init_declarator_view declared.tree) declared.height (init_declarator_view n.tree) n.height reader.old reader.new) }
    ensures read { Reads result (as_item init_declarator_view reader.new) (readers.initialized scope.entry.typedefs.now budget (as_item init_declarator_view reader.old declared)) }
{
    if !reader.is_at(Punctuator::Assign) {
        return Ok(declared);
    }
    let Parsed { tree, height } = declared;
    match tree {
        InitDeclarator::Object(tree) => {
            initialized_object(scope, reader, Parsed { tree, height }, budget)
        }
        _ => Err(Trouble::Syntax),
    }
}
