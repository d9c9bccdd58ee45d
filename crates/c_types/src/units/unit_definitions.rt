//! What a unit defines, read before it is typed (6.9.1, 6.9.2 of ISO/IEC 9899:2011).
ghost use Rattle.std.specs.Prelude.{◌≡◌, IfOk, map, option_map};
ghost use Rattle.c_layout.specs.DeclarationTrees.{
  name_view,
  spec_tree,
  init_declarator_view,
  external_tree,
};
ghost use Rattle.c_types_scopes.specs.States.{state};
ghost use Rattle.c_types.specs.Units.UnitDefinitions as spec;

use c_layout::{External, InitDeclarator, Name, SpecWord, Storage};
use c_types_scopes::Context;
use cc_base::Memory;

/// The storage class behind a word.
fn storage_word(word: &SpecWord, found: Option<Storage>) -> Option<Storage>
    ensures { result ≡ spec.storage_word (spec_tree word.now) found }
{
    match word {
        SpecWord::Storage(_, storage) => Some(*storage),
        SpecWord::Qualifier(_) => found,
        SpecWord::Type(_, _) => found,
        SpecWord::Struct(_, _, None) => found,
        SpecWord::Struct(_, _, Some(_)) => found,
        SpecWord::Enum(_, _, None) => found,
        SpecWord::Enum(_, _, Some(_)) => found,
        SpecWord::Typedef(_) => found,
    }
}

/// The storage class among specifiers.
#[tactic(auto, unfolding(crate::specs::Units::UnitDefinitions::last_storage))]
fn storage_of(words: &[SpecWord]) -> Option<Storage>
    ensures { result ≡ spec.storage_of (map spec_tree words.now) }
{
    let mut found = None;
    for word in words {
        found = storage_word(word, found);
    }
    found
}

/// Whether an object without initializer is defined by a declaration of a storage class.
fn is_definition(storage: Option<Storage>) -> bool
    ensures { result ≡ spec.is_definition storage }
{
    match storage {
        Some(Storage::Typedef) => false,
        Some(Storage::Extern) => false,
        Some(Storage::Static) => true,
        Some(Storage::Auto) => true,
        Some(Storage::Register) => true,
        None => true,
    }
}

/// Adds the object of a name.
fn define_object(cx: &mut Context, name: &Name) -> Result<(), Memory>
    ensures { IfOk result (λ _. state cx.new ≡ spec.with_object (name_view name.now) (state cx.old)) }
{
    let known = cx.name(&name.text)?;
    cx.definitions.add_object(known)
}

/// Adds the function of a name.
fn define_function(cx: &mut Context, name: &Name) -> Result<(), Memory>
    ensures { IfOk result (λ _. state cx.new ≡ spec.with_function (name_view name.now) (state cx.old)) }
{
    let known = cx.name(&name.text)?;
    cx.definitions.add_function(known)
}

/// Adds the object that a declarator names.
fn define_named(cx: &mut Context, name: Option<&Name>) -> Result<(), Memory>
    ensures { IfOk result (λ _. state cx.new ≡ spec.with_named (option_map (λ n. name_view n.now) name.entry) (state cx.old)) }
{
    match name {
        Some(name) => define_object(cx, name),
        None => Ok(()),
    }
}

/// Adds what a declarator defines; `defines` says whether it does without an initializer.
fn add_declarator(
    cx: &mut Context,
    defines: bool,
    declarator: &InitDeclarator,
) -> Result<(), Memory>
    ensures { IfOk result (λ _. state cx.new ≡ spec.with_declarator defines (init_declarator_view declarator.now) (state cx.old)) }
{
    match declarator {
        InitDeclarator::Object(declarator) => {
            if defines {
                define_named(cx, declarator.name.as_ref())
            } else {
                Ok(())
            }
        }
        InitDeclarator::Initialized(declarator, _, _) => {
            define_named(cx, declarator.name.as_ref())
        }
        InitDeclarator::Function(_) => Ok(()),
    }
}

/// Adds what declarators define.
#[tactic(auto, unfolding(crate::specs::Units::UnitDefinitions::with_declarators))]
fn add_declarators(
    cx: &mut Context,
    defines: bool,
    declarators: &[InitDeclarator],
) -> Result<(), Memory>
    ensures { IfOk result (λ _. state cx.new ≡ spec.with_declarators defines (map init_declarator_view declarators.now) (state cx.old)) }
{
    for declarator in declarators {
        add_declarator(cx, defines, declarator)?;
    }
    Ok(())
}

/// Adds what an external declaration defines.
fn add_external(cx: &mut Context, external: &External) -> Result<(), Memory>
    ensures { IfOk result (λ _. state cx.new ≡ spec.with_external (external_tree external.now) (state cx.old)) }
{
    match external {
        External::Declaration(_, words, declarators) => {
            let storage = storage_of(words.as_slice());
            add_declarators(cx, is_definition(storage), declarators.as_slice())
        }
        External::Function(_, _, declarator, _) => define_function(cx, &declarator.name),
    }
}

/// Adds the definitions of a unit in reading order.
#[tactic(auto, unfolding(crate::specs::Units::UnitDefinitions::with_externals))]
pub fn add_definitions(cx: &mut Context, externals: &[External]) -> Result<(), Memory>
    ensures { IfOk result (λ _. state cx.new ≡ spec.with_externals (map external_tree externals.now) (state cx.old)) }
{
    for external in externals {
        add_external(cx, external)?;
    }
    Ok(())
}
