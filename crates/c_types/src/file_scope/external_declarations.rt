//! Declarations at file scope (6.7, 6.9.2 of ISO/IEC 9899:2011).
ghost use Rattle.std.specs.Prelude.{◌≡◌, map};
ghost use Rattle.c_layout.specs.Types.{view};
ghost use Rattle.c_layout.specs.DeclarationTrees.{
  name_view,
  spec_tree,
  declarator_view,
  initializer_tree,
  init_declarator_view,
};
ghost use Rattle.c_types_scopes.specs.Answers.{Leads};
ghost use Rattle.c_types_scopes.specs.DeclaredTypes.{declared_view};
ghost use Rattle.c_types_scopes.specs.States.{state};
ghost use Rattle.c_types_declarations.specs.Specifiers.{specified_view};
ghost use Rattle.c_types.specs.FileScope.ExternalDeclarations as spec;

use crate::file_scope::function_declarations::prototype;
use c_layout::{Declarator, InitDeclarator, Initializer, Name, SpecWord, Storage};
use c_types_declarations::{
    Specified, declared_type, initializer_of, is_library_name, specifiers_of,
};
use c_types_scopes::{Context, DeclaredType, Meaning, redeclared, type_fault};
use c_types_statement_rules::objects::{
    first_declaration, may_be_object, meet_initializer, next_declaration, object_at,
};
use c_types_statements::{are_none, is_empty, static_initializer};
use cc_base::{Place, Stop, Text};

/// Whether a name is one of the library, or declared already.
fn is_taken(cx: &Context, known: u32, name: &Text) -> bool
    ensures { result ≡ spec.is_taken known name.now (state cx.now) }
{
    if is_library_name(name) {
        true
    } else {
        cx.scopes.find_here(known).is_some()
    }
}

/// Declares a typedef name by its number.
fn typedef_by(cx: &mut Context, known: u32, name: &Name, declared: DeclaredType) -> Result<(), Stop>
    ensures { Leads (λ _. tt) (spec.typedef_by known (name_view name.now) (declared_view declared) (state cx.old)) result (state cx.new) }
{
    if is_taken(cx, known, &name.text) {
        return Err(redeclared(name.place));
    }
    let number = u32::try_from(cx.typedefs.len()).map_err(|_| Stop::Memory)?;
    cx.typedefs.push(declared)?;
    cx.scopes.declare(known, Meaning::Typedef(number))?;
    Ok(())
}

/// A typedef name.
fn typedef_name(
    cx: &mut Context,
    base: &Specified,
    name: &Name,
    declarator: &Declarator,
) -> Result<(), Stop>
    ensures { Leads (λ _. tt) (spec.typedef_name (state cx.old) (specified_view base.now) (name_view name.now) (declarator_view declarator.now).layers) result (state cx.new) }
{
    let declared = declared_type(cx, name.place, &base.declared, declarator.layers.as_slice())?;
    let known = cx.name(&name.text)?;
    typedef_by(cx, known, name, declared)
}

/// A typedef name with an initializer, which it may not have.
fn initialized_typedef(
    cx: &mut Context,
    base: &Specified,
    name: &Name,
    declarator: &Declarator,
    equals: Place,
    initializer: &Initializer,
) -> Result<(), Stop>
    ensures { Leads (λ _. tt) (spec.initialized_typedef (state cx.old) (specified_view base.now) (name_view name.now) (declarator_view declarator.now).layers equals (initializer_tree initializer.now)) result (state cx.new) }
{
    let declared = declared_type(cx, name.place, &base.declared, declarator.layers.as_slice())?;
    let _made = initializer_of(cx, equals, declared.ctype, initializer)?;
    Err(type_fault(equals))
}

/// A declarator of a typedef without initializer, which needs a name.
fn typedef_named(
    cx: &mut Context,
    base: &Specified,
    place: Place,
    declarator: &Declarator,
) -> Result<(), Stop>
    ensures { Leads (λ _. tt) (spec.typedef_named (state cx.old) (specified_view base.now) place (declarator_view declarator.now).name (declarator_view declarator.now).layers) result (state cx.new) }
{
    match &declarator.name {
        Some(name) => typedef_name(cx, base, name, declarator),
        None => Err(type_fault(place)),
    }
}

/// A declarator of a typedef with an initializer.
fn initialized_typedef_named(
    cx: &mut Context,
    base: &Specified,
    declarator: &Declarator,
    equals: Place,
    initializer: &Initializer,
) -> Result<(), Stop>
    ensures { Leads (λ _. tt) (spec.initialized_typedef_named (state cx.old) (specified_view base.now) (declarator_view declarator.now).name (declarator_view declarator.now).layers equals (initializer_tree initializer.now)) result (state cx.new) }
{
    match &declarator.name {
        Some(name) => initialized_typedef(cx, base, name, declarator, equals, initializer),
        None => Err(type_fault(equals)),
    }
}

/// A declarator of a typedef.
fn typedef_declarator(
    cx: &mut Context,
    base: &Specified,
    place: Place,
    declarator: &InitDeclarator,
) -> Result<(), Stop>
    ensures { Leads (λ _. tt) (spec.typedef_declarator (state cx.old) (specified_view base.now) place (init_declarator_view declarator.now)) result (state cx.new) }
{
    match declarator {
        InitDeclarator::Object(declarator) => typedef_named(cx, base, place, declarator),
        InitDeclarator::Initialized(declarator, equals, initializer) => {
            initialized_typedef_named(cx, base, declarator, *equals, initializer)
        }
        InitDeclarator::Function(function) => Err(type_fault(function.name.place)),
    }
}

/// Declares an object of file scope by the number of its name; its number among those declared.
fn object_by(cx: &mut Context, known: u32, name: &Name, declared: DeclaredType) -> Result<u32, Stop>
    ensures { Leads (λ n. n) (spec.object_by known (name_view name.now) (declared_view declared) (state cx.old)) result (state cx.new) }
{
    match cx.scopes.find_here(known) {
        None => Ok(first_declaration(cx, known, name, declared)?),
        Some(Meaning::Static(index)) => {
            next_declaration(cx, index, name.place, declared)?;
            Ok(index)
        }
        Some(Meaning::Local(_)) => Err(redeclared(name.place)),
        Some(Meaning::Function(_)) => Err(redeclared(name.place)),
        Some(Meaning::Typedef(_)) => Err(redeclared(name.place)),
        Some(Meaning::Enumerator(_)) => Err(redeclared(name.place)),
    }
}

/// Declares an object of file scope whose type may be one's; its number among those declared.
fn object_named(cx: &mut Context, name: &Name, declared: DeclaredType) -> Result<u32, Stop>
    ensures { Leads (λ n. n) (spec.object_named (name_view name.now) (declared_view declared) (state cx.old)) result (state cx.new) }
{
    if is_library_name(&name.text) {
        return Err(redeclared(name.place));
    }
    let known = cx.name(&name.text)?;
    object_by(cx, known, name, declared)
}

/// Declares an object of file scope of a type; its number among those declared.
fn object_in(
    cx: &mut Context,
    name: &Name,
    storage: Option<Storage>,
    has_initializer: bool,
    declared: DeclaredType,
) -> Result<u32, Stop>
    ensures { Leads (λ n. n) (spec.object_in (name_view name.now) storage has_initializer (declared_view declared) (state cx.old)) result (state cx.new) }
{
    if may_be_object(cx, &declared.ctype, storage, has_initializer) {
        object_named(cx, name, declared)
    } else {
        Err(type_fault(name.place))
    }
}

/// Declares an object of file scope; its number among those declared.
fn declare_object(
    cx: &mut Context,
    base: &Specified,
    name: &Name,
    declarator: &Declarator,
    has_initializer: bool,
) -> Result<u32, Stop>
    ensures { Leads (λ n. n) (spec.declared_object (state cx.old) (specified_view base.now) (name_view name.now) (declarator_view declarator.now).layers has_initializer) result (state cx.new) }
{
    let declared = declared_type(cx, name.place, &base.declared, declarator.layers.as_slice())?;
    object_in(cx, name, base.storage, has_initializer, declared)
}

/// An object of file scope without initializer.
fn plain_object(
    cx: &mut Context,
    base: &Specified,
    name: &Name,
    declarator: &Declarator,
) -> Result<(), Stop>
    ensures { Leads (λ _. tt) (spec.plain_object (state cx.old) (specified_view base.now) (name_view name.now) (declarator_view declarator.now).layers) result (state cx.new) }
{
    let _index = declare_object(cx, base, name, declarator, false)?;
    Ok(())
}

/// The initializer of an object that had none.
fn initializer_at(
    cx: &mut Context,
    place: Place,
    equals: Place,
    initializer: &Initializer,
    index: u32,
) -> Result<(), Stop>
    ensures { Leads (λ _. tt) (spec.initializer_at place equals (initializer_tree initializer.now) index (state cx.old)) result (state cx.new) }
{
    let (ctype, number) = object_at(cx, place, index)?;
    static_initializer(cx, index, number, equals, ctype, initializer)
}

/// The initializer of an object, which has one at most.
fn object_initializer(
    cx: &mut Context,
    place: Place,
    equals: Place,
    initializer: &Initializer,
    index: u32,
) -> Result<(), Stop>
    ensures { Leads (λ _. tt) (spec.object_initializer place equals (initializer_tree initializer.now) index (state cx.old)) result (state cx.new) }
{
    if meet_initializer(cx, index) {
        return Err(redeclared(place));
    }
    initializer_at(cx, place, equals, initializer, index)
}

/// An object of file scope with an initializer.
fn initialized_object(
    cx: &mut Context,
    base: &Specified,
    name: &Name,
    declarator: &Declarator,
    equals: Place,
    initializer: &Initializer,
) -> Result<(), Stop>
    ensures { Leads (λ _. tt) (spec.initialized_object (state cx.old) (specified_view base.now) (name_view name.now) (declarator_view declarator.now).layers equals (initializer_tree initializer.now)) result (state cx.new) }
{
    let index = declare_object(cx, base, name, declarator, true)?;
    object_initializer(cx, name.place, equals, initializer, index)
}

/// A declarator of an object without initializer, which needs a name.
fn plain_named(
    cx: &mut Context,
    base: &Specified,
    place: Place,
    declarator: &Declarator,
) -> Result<(), Stop>
    ensures { Leads (λ _. tt) (spec.plain_named (state cx.old) (specified_view base.now) place (declarator_view declarator.now).name (declarator_view declarator.now).layers) result (state cx.new) }
{
    match &declarator.name {
        Some(name) => plain_object(cx, base, name, declarator),
        None => Err(type_fault(place)),
    }
}

/// A declarator of an object with an initializer, which needs a name.
fn initialized_named(
    cx: &mut Context,
    base: &Specified,
    place: Place,
    declarator: &Declarator,
    equals: Place,
    initializer: &Initializer,
) -> Result<(), Stop>
    ensures { Leads (λ _. tt) (spec.initialized_named (state cx.old) (specified_view base.now) place (declarator_view declarator.now).name (declarator_view declarator.now).layers equals (initializer_tree initializer.now)) result (state cx.new) }
{
    match &declarator.name {
        Some(name) => initialized_object(cx, base, name, declarator, equals, initializer),
        None => Err(type_fault(place)),
    }
}

/// A declarator of an object or a function.
fn object_declarator(
    cx: &mut Context,
    base: &Specified,
    place: Place,
    declarator: &InitDeclarator,
) -> Result<(), Stop>
    ensures { Leads (λ _. tt) (spec.object_declarator (state cx.old) (specified_view base.now) place (init_declarator_view declarator.now)) result (state cx.new) }
{
    match declarator {
        InitDeclarator::Object(declarator) => plain_named(cx, base, place, declarator),
        InitDeclarator::Initialized(declarator, equals, initializer) => {
            initialized_named(cx, base, place, declarator, *equals, initializer)
        }
        InitDeclarator::Function(function) => prototype(cx, base, function),
    }
}

/// Whether a storage class is `typedef`.
pub fn is_typedef(storage: Option<Storage>) -> bool
    ensures { result ≡ spec.is_typedef storage }
{
    match storage {
        Some(Storage::Typedef) => true,
        Some(Storage::Extern) => false,
        Some(Storage::Static) => false,
        Some(Storage::Auto) => false,
        Some(Storage::Register) => false,
        None => false,
    }
}

/// One declarator of a declaration.
fn declarator_of(
    cx: &mut Context,
    base: &Specified,
    place: Place,
    declarator: &InitDeclarator,
) -> Result<(), Stop>
    ensures { Leads (λ _. tt) (spec.declarator (state cx.old) (specified_view base.now) place (init_declarator_view declarator.now)) result (state cx.new) }
{
    if is_typedef(base.storage) {
        typedef_declarator(cx, base, place, declarator)
    } else {
        object_declarator(cx, base, place, declarator)
    }
}

/// The declarators of a declaration, in order.
fn declarators_of(
    cx: &mut Context,
    base: &Specified,
    place: Place,
    declarators: &[InitDeclarator],
) -> Result<(), Stop>
    ensures { Leads (λ _. tt) (spec.declarators (state cx.old) (specified_view base.now) place (map init_declarator_view declarators.now)) result (state cx.new) }
{
    for declarator in declarators {
        declarator_of(cx, base, place, declarator)?;
    }
    Ok(())
}

/// The declarators of a declaration whose specifiers are read.
fn declared_by(
    cx: &mut Context,
    place: Place,
    declarators: &[InitDeclarator],
    base: &Specified,
) -> Result<(), Stop>
    ensures { Leads (λ _. tt) (spec.declared_by place (map init_declarator_view declarators.now) (specified_view base.now) (state cx.old)) result (state cx.new) }
{
    if is_empty(declarators, base) {
        Err(type_fault(place))
    } else {
        declarators_of(cx, base, place, declarators)
    }
}

/// A declaration at file scope.
pub fn external_declaration(
    cx: &mut Context,
    place: Place,
    words: &[SpecWord],
    declarators: &[InitDeclarator],
) -> Result<(), Stop>
    ensures { Leads (λ _. tt) (spec.external_declaration (state cx.old) place (map spec_tree words.now) (map init_declarator_view declarators.now)) result (state cx.new) }
{
    let is_alone = are_none(declarators);
    let base = specifiers_of(cx, place, words, is_alone)?;
    declared_by(cx, place, declarators, &base)
}
