//! Parameters and the declarators of functions (6.7.6.3).
ghost use Rattle.std.specs.Prelude.{◌≡◌, length, map, IfOk};
ghost use Rattle.c_layout.specs.DeclarationTrees.{ParameterList, parameter_view, parameters_view, function_declarator_view};
ghost use Rattle.c_parser_declarations.specs.Grammar.Declarations.{IsParameter, parameter_height, is_declarator_sign, begins_declarator, is_void_word, is_closing, is_void_first};
ghost use Rattle.c_parser_declarations.specs.Grammar.Findings.{FoundListed, FoundParameter, FoundParameterList, FoundParameters, FoundFunctionBehind};
ghost use Rattle.c_parser_expression_grammar.specs.Fronts.{first_symbol, behind_first};
ghost use Rattle.c_parser_declarations.specs.Grammar.Answers.{as_item};
ghost use Rattle.c_parser_declarations.specs.Grammar.Items.{listed};
ghost use Rattle.c_parser_declarations.specs.Grammar.ParameterReaders as readers;
ghost use Rattle.c_parser_expression_grammar.specs.ReadingResults.{Reads};

use crate::grammar::parameter_declarator;
use crate::readers::specifier_lists::{list_height, specifiers};
use c_layout::{FunctionDeclarator, Parameter, Parameters};
use c_parser_expressions::{Parsed, Reader, Scope, Trouble, inner, made};
use c_parser_tokens::{Keyword, Punctuator, Symbol};

/// Whether a declarator or an abstract one begins with a symbol, which is no name.
fn is_declarator_sign(symbol: Symbol) -> bool
    ensures { result ≡ is_declarator_sign symbol }
{
    match symbol {
        Symbol::Punctuator(sign) => matches!(
            sign,
            Punctuator::Star | Punctuator::LeftParenthesis | Punctuator::LeftBracket
        ),
        _ => false,
    }
}

/// Whether a declarator or an abstract declarator stands next.
fn begins_declarator(scope: Scope<'_>, reader: &Reader<'_>) -> bool
    ensures { result ≡ begins_declarator scope.entry.typedefs.now reader.now }
{
    is_declarator_sign(reader.peek()) || reader.is_at_identifier(scope)
}

/// A parameter. Specifiers alone add nothing to the height.
fn parameter(
    scope: Scope<'_>,
    reader: &mut Reader<'_>,
    budget: u32,
) -> Result<Parsed<Parameter>, Trouble>
    ensures found { IfOk result (λ n. FoundParameter scope.entry.typedefs.now budget (parameter_view n.tree) n.height reader.old reader.new) }
    ensures read { Reads result (as_item parameter_view reader.new) (readers.parameter scope.entry.typedefs.now budget reader.old) }
{
    let place = reader.place();
    let words = specifiers(scope, reader, budget)?;
    if !begins_declarator(scope, reader) {
        let tree = Parameter {
            place,
            words: words.tree,
            declarator: None,
        };
        return Ok(Parsed {
            tree,
            height: words.height,
        });
    }
    let found = parameter_declarator(scope, reader, inner(budget)?)?;
    let height = made(budget, words.height.max(found.height))?;
    let tree = Parameter {
        place,
        words: words.tree,
        declarator: Some(found.tree),
    };
    Ok(Parsed { tree, height })
}

/// One parameter or more, with a comma between any two.
#[tactic(auto, using(crate::proofs::grammar::Turns::listed_begun))]
fn some_parameters(
    scope: Scope<'_>,
    reader: &mut Reader<'_>,
    budget: u32,
) -> Result<Parsed<Vec<Parameter>>, Trouble>
    ensures found { IfOk result (λ n. FoundListed (IsParameter scope.entry.typedefs.now) parameter_height budget (map parameter_view n.tree.items) n.height reader.old reader.new) }
    ensures read { Reads result (as_item (λ items. map parameter_view items.items) reader.new) (listed (readers.parameter scope.entry.typedefs.now budget) (length reader.old) reader.old) }
{
    let mut found = Vec::new(scope.alloc);
    let mut height = 0u32;
    for _turn in 0..reader.left() {
        let next = parameter(scope, reader, budget)?;
        height = height.max(next.height);
        found.push(next.tree)?;
        if !reader.accept(Punctuator::Comma) {
            let tree = found;
            return Ok(Parsed { tree, height });
        }
    }
    Err(Trouble::Syntax)
}

/// One parameter or more, with the `)`. One alone adds nothing to the height.
fn parameter_list(
    scope: Scope<'_>,
    reader: &mut Reader<'_>,
    budget: u32,
) -> Result<Parsed<Vec<Parameter>>, Trouble>
    ensures found { IfOk result (λ n. FoundParameterList scope.entry.typedefs.now budget (map parameter_view n.tree.items) n.height reader.old reader.new) }
    ensures read { Reads result (as_item (λ items. ParameterList (map parameter_view items.items)) reader.new) (readers.parameter_list scope.entry.typedefs.now budget reader.old) }
{
    let found = some_parameters(scope, reader, budget)?;
    reader.expect(Punctuator::RightParenthesis)?;
    let height = list_height(found.tree.len(), found.height, budget)?;
    let tree = found.tree;
    Ok(Parsed { tree, height })
}

/// Whether a symbol is the word `void`.
fn is_void_word(symbol: Symbol) -> bool
    ensures { result ≡ is_void_word symbol }
{
    matches!(symbol, Symbol::Keyword(Keyword::Void))
}

/// Whether the word `void` stands next, and `)` behind it.
fn is_void_first(reader: &Reader<'_>) -> bool
    ensures { result ≡ is_void_first reader.now }
{
    is_void_word(reader.peek()) && reader.is_before(Punctuator::RightParenthesis)
}

/// What stands between the parentheses of a function's declarator, behind the `(`, with the `)`.
fn parameters(
    scope: Scope<'_>,
    reader: &mut Reader<'_>,
    budget: u32,
) -> Result<Parsed<Parameters>, Trouble>
    ensures found { IfOk result (λ n. FoundParameters scope.entry.typedefs.now budget (parameters_view n.tree) n.height reader.old reader.new) }
    ensures read { Reads result (as_item parameters_view reader.new) (readers.parameters scope.entry.typedefs.now budget reader.old) }
{
    if reader.accept(Punctuator::RightParenthesis) {
        let tree = Parameters::Empty;
        return Ok(Parsed { tree, height: 0 });
    }
    if is_void_first(reader) {
        reader.expect_word(Keyword::Void)?;
        reader.expect(Punctuator::RightParenthesis)?;
        let tree = Parameters::Void;
        return Ok(Parsed { tree, height: 0 });
    }
    let found = parameter_list(scope, reader, budget)?;
    let tree = Parameters::List(found.tree);
    Ok(Parsed {
        tree,
        height: found.height,
    })
}

/// The declarator of a function behind its stars.
pub fn function_declarator(
    scope: Scope<'_>,
    reader: &mut Reader<'_>,
    stars: Vec<u32>,
    budget: u32,
) -> Result<Parsed<FunctionDeclarator>, Trouble>
    ensures found { IfOk result (λ n. FoundFunctionBehind scope.entry.typedefs.now budget stars.items (function_declarator_view n.tree) n.height reader.old reader.new) }
    ensures read { Reads result (as_item function_declarator_view reader.new) (readers.function_declarator scope.entry.typedefs.now budget stars.items reader.old) }
{
    let name = reader.identifier(scope)?;
    reader.expect(Punctuator::LeftParenthesis)?;
    let found = parameters(scope, reader, inner(budget)?)?;
    let height = made(budget, found.height)?;
    let tree = FunctionDeclarator {
        stars,
        name,
        parameters: found.tree,
    };
    Ok(Parsed { tree, height })
}
