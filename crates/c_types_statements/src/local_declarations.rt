//! Declarations in blocks (6.7, 6.8.2 of ISO/IEC 9899:2011).
ghost use Rattle.std.specs.Prelude.{◌≡◌, map};
ghost use Rattle.c_layout.specs.Types.{view};
ghost use Rattle.c_layout.specs.DeclarationTrees.{
  name_view,
  declarator_view,
  initializer_tree,
  init_declarator_view,
  local_view,
};
ghost use Rattle.c_types_scopes.specs.Answers.{Gives, Leads};
ghost use Rattle.c_types_scopes.specs.DeclaredTypes.{declared_view};
ghost use Rattle.c_types_scopes.specs.States.{state};
ghost use Rattle.c_types_initializers.specs.Initialized.{initialized_view};
ghost use Rattle.c_types_declarations.specs.Specifiers.{specified_view};
ghost use Rattle.c_types_statement_rules.specs.Objects.LocalObjects.{parts_view};
ghost use Rattle.c_types_statements.specs.LocalDeclarations as spec;

use crate::static_initializers::{has_size, static_initializer};
use c_layout::{CType, CheckedStatement, Declarator, InitDeclarator, Initializer, Local, Name};
use c_types_declarations::{Initialized, Specified, declared_type, initializer_of, specifiers_of};
use c_types_scopes::{Context, DeclaredType, redeclared, type_fault};
use c_types_statement_rules::objects::{
    BlockParts, declare_automatic, declare_static, is_static, may_be_local, set_local, start,
};
use cc_base::{Place, Stop};

/// The type of an object whose name, by its number, is free in the innermost scope.
fn if_free(
    cx: &Context,
    known: u32,
    name: &Name,
    declared: DeclaredType,
) -> Result<DeclaredType, Stop>
    ensures { Gives declared_view (spec.if_free known (name_view name.now) (declared_view declared) (state cx.now)) result }
{
    match cx.scopes.find_here(known) {
        None => Ok(declared),
        Some(_) => Err(redeclared(name.place)),
    }
}

/// The type of an object, which is complete or gets its length, its name being free.
fn judged_object(
    cx: &mut Context,
    name: &Name,
    has_initializer: bool,
    declared: DeclaredType,
) -> Result<DeclaredType, Stop>
    ensures { Leads declared_view (spec.judged_object (name_view name.now) has_initializer (declared_view declared) (state cx.old)) result (state cx.new) }
{
    if may_be_local(cx, &declared.ctype, has_initializer) {
        let known = cx.name(&name.text)?;
        if_free(cx, known, name, declared)
    } else {
        Err(type_fault(name.place))
    }
}

/// The type of a local object, its name being free in the innermost scope.
fn object_type(
    cx: &mut Context,
    base: &Specified,
    name: &Name,
    declarator: &Declarator,
    has_initializer: bool,
) -> Result<DeclaredType, Stop>
    ensures { Leads declared_view (spec.object_type (state cx.old) (specified_view base.now) (name_view name.now) (declarator_view declarator.now).layers has_initializer) result (state cx.new) }
{
    let declared = declared_type(cx, name.place, &base.declared, declarator.layers.as_slice())?;
    judged_object(cx, name, has_initializer, declared)
}

/// An object of automatic storage without initializer.
fn plain_automatic(
    cx: &mut Context,
    name: &Name,
    declared: DeclaredType,
    parts: &mut BlockParts,
) -> Result<(), Stop>
    ensures { Leads (λ _. parts_view parts.new) (spec.plain_automatic (name_view name.now) (declared_view declared) (parts_view parts.old) (state cx.old)) result (state cx.new) }
{
    let number = declare_automatic(cx, name, declared, parts)?;
    let forgotten = CheckedStatement::Forget(name.place, number);
    parts.statements.push(forgotten)?;
    Ok(())
}

/// An object without initializer.
fn plain_stored(
    cx: &mut Context,
    name: &Name,
    declared: DeclaredType,
    parts: &mut BlockParts,
    is_static: bool,
) -> Result<(), Stop>
    ensures { Leads (λ _. parts_view parts.new) (spec.plain_stored (name_view name.now) (declared_view declared) (parts_view parts.old) is_static (state cx.old)) result (state cx.new) }
{
    if is_static {
        let _numbers = declare_static(cx, name, declared)?;
        Ok(())
    } else {
        plain_automatic(cx, name, declared, parts)
    }
}

/// A declarator without initializer.
fn plain_object(
    cx: &mut Context,
    base: &Specified,
    name: &Name,
    declarator: &Declarator,
    parts: &mut BlockParts,
) -> Result<(), Stop>
    ensures { Leads (λ _. parts_view parts.new) (spec.plain_object (state cx.old) (specified_view base.now) (name_view name.now) (declarator_view declarator.now).layers (parts_view parts.old)) result (state cx.new) }
{
    let declared = object_type(cx, base, name, declarator, false)?;
    let stays = is_static(base.storage, name.place)?;
    plain_stored(cx, name, declared, parts, stays)
}

/// Starts an object of automatic storage whose initializer has types.
fn start_automatic(
    cx: &mut Context,
    place: Place,
    equals: Place,
    number: u32,
    parts: &mut BlockParts,
    initialized: (Initialized, CType),
) -> Result<(), Stop>
    ensures { Leads (λ _. parts_view parts.new) (spec.start_automatic place equals number (parts_view parts.old) (initialized_view initialized.0, view initialized.1) (state cx.old)) result (state cx.new) }
{
    let (made, ctype) = initialized;
    if has_size(cx, &ctype) {
        set_local(cx, number, ctype);
        let started = start(place, number, made);
        parts.statements.push(started)?;
        Ok(())
    } else {
        Err(type_fault(equals))
    }
}

/// An object of automatic storage with an initializer.
fn initialized_automatic(
    cx: &mut Context,
    name: &Name,
    declared: DeclaredType,
    equals: Place,
    initializer: &Initializer,
    parts: &mut BlockParts,
) -> Result<(), Stop>
    ensures { Leads (λ _. parts_view parts.new) (spec.initialized_automatic (name_view name.now) (declared_view declared) equals (initializer_tree initializer.now) (parts_view parts.old) (state cx.old)) result (state cx.new) }
{
    let ctype = declared.ctype.copy(cx.alloc)?;
    let number = declare_automatic(cx, name, declared, parts)?;
    let made = initializer_of(cx, equals, ctype, initializer)?;
    start_automatic(cx, name.place, equals, number, parts, made)
}

/// An object of static storage with an initializer.
fn initialized_static(
    cx: &mut Context,
    name: &Name,
    declared: DeclaredType,
    equals: Place,
    initializer: &Initializer,
) -> Result<(), Stop>
    ensures { Leads (λ _. tt) (spec.initialized_static (name_view name.now) (declared_view declared) equals (initializer_tree initializer.now) (state cx.old)) result (state cx.new) }
{
    let ctype = declared.ctype.copy(cx.alloc)?;
    let (index, number) = declare_static(cx, name, declared)?;
    static_initializer(cx, index, number, equals, ctype, initializer)
}

/// An object with an initializer.
fn initialized_stored(
    cx: &mut Context,
    name: &Name,
    declared: DeclaredType,
    equals: Place,
    initializer: &Initializer,
    parts: &mut BlockParts,
    is_static: bool,
) -> Result<(), Stop>
    ensures { Leads (λ _. parts_view parts.new) (spec.initialized_stored (name_view name.now) (declared_view declared) equals (initializer_tree initializer.now) (parts_view parts.old) is_static (state cx.old)) result (state cx.new) }
{
    if is_static {
        initialized_static(cx, name, declared, equals, initializer)
    } else {
        initialized_automatic(cx, name, declared, equals, initializer, parts)
    }
}

/// A declarator with an initializer.
fn initialized_object(
    cx: &mut Context,
    base: &Specified,
    name: &Name,
    declarator: &Declarator,
    equals: Place,
    initializer: &Initializer,
    parts: &mut BlockParts,
) -> Result<(), Stop>
    ensures { Leads (λ _. parts_view parts.new) (spec.initialized_object (state cx.old) (specified_view base.now) (name_view name.now) (declarator_view declarator.now).layers equals (initializer_tree initializer.now) (parts_view parts.old)) result (state cx.new) }
{
    let declared = object_type(cx, base, name, declarator, true)?;
    let stays = is_static(base.storage, name.place)?;
    initialized_stored(cx, name, declared, equals, initializer, parts, stays)
}

/// A declarator without initializer, which needs a name.
fn plain_named(
    cx: &mut Context,
    base: &Specified,
    place: Place,
    declarator: &Declarator,
    parts: &mut BlockParts,
) -> Result<(), Stop>
    ensures { Leads (λ _. parts_view parts.new) (spec.plain_named (state cx.old) (specified_view base.now) place (declarator_view declarator.now).name (declarator_view declarator.now).layers (parts_view parts.old)) result (state cx.new) }
{
    match &declarator.name {
        Some(name) => plain_object(cx, base, name, declarator, parts),
        None => Err(type_fault(place)),
    }
}

/// A declarator with an initializer, which needs a name.
fn initialized_named(
    cx: &mut Context,
    base: &Specified,
    place: Place,
    declarator: &Declarator,
    equals: Place,
    initializer: &Initializer,
    parts: &mut BlockParts,
) -> Result<(), Stop>
    ensures { Leads (λ _. parts_view parts.new) (spec.initialized_named (state cx.old) (specified_view base.now) place (declarator_view declarator.now).name (declarator_view declarator.now).layers equals (initializer_tree initializer.now) (parts_view parts.old)) result (state cx.new) }
{
    match &declarator.name {
        Some(name) => initialized_object(cx, base, name, declarator, equals, initializer, parts),
        None => Err(type_fault(place)),
    }
}

/// One declarator of a declaration.
fn declarator_of(
    cx: &mut Context,
    base: &Specified,
    place: Place,
    declarator: &InitDeclarator,
    parts: &mut BlockParts,
) -> Result<(), Stop>
    ensures { Leads (λ _. parts_view parts.new) (spec.declarator (state cx.old) (specified_view base.now) place (init_declarator_view declarator.now) (parts_view parts.old)) result (state cx.new) }
{
    match declarator {
        InitDeclarator::Object(declarator) => plain_named(cx, base, place, declarator, parts),
        InitDeclarator::Initialized(declarator, equals, initializer) => {
            initialized_named(cx, base, place, declarator, *equals, initializer, parts)
        }
        InitDeclarator::Function(function) => Err(type_fault(function.name.place)),
    }
}

/// The declarators of a declaration, in order.
fn declarators_of(
    cx: &mut Context,
    base: &Specified,
    place: Place,
    declarators: &[InitDeclarator],
    parts: &mut BlockParts,
) -> Result<(), Stop>
    ensures { Leads (λ _. parts_view parts.new) (spec.declarators (state cx.old) (specified_view base.now) place (map init_declarator_view declarators.now) (parts_view parts.old)) result (state cx.new) }
{
    for declarator in declarators {
        declarator_of(cx, base, place, declarator, parts)?;
    }
    Ok(())
}

/// Whether there is no declarator.
pub fn are_none(declarators: &[InitDeclarator]) -> bool
    ensures { result ≡ spec.are_none (map init_declarator_view declarators.now) }
{
    declarators.is_empty()
}

/// Whether a declaration declares nothing: no declarator, no tag and no enumeration constant.
pub fn is_empty(declarators: &[InitDeclarator], base: &Specified) -> bool
    ensures { result ≡ spec.is_empty (map init_declarator_view declarators.now) (specified_view base.now) }
{
    if are_none(declarators) {
        !base.declares
    } else {
        false
    }
}

/// The declarators of a declaration whose specifiers are read.
fn declared_by(
    cx: &mut Context,
    local: &Local,
    parts: &mut BlockParts,
    base: &Specified,
) -> Result<(), Stop>
    ensures { Leads (λ _. parts_view parts.new) (spec.declared_by (local_view local.now) (parts_view parts.old) (specified_view base.now) (state cx.old)) result (state cx.new) }
{
    if is_empty(local.declarators.as_slice(), base) {
        Err(type_fault(local.place))
    } else {
        declarators_of(cx, base, local.place, local.declarators.as_slice(), parts)
    }
}

/// A declaration in a block or in a `for`.
pub fn local_declaration(
    cx: &mut Context,
    local: &Local,
    parts: &mut BlockParts,
) -> Result<(), Stop>
    ensures { Leads (λ _. parts_view parts.new) (spec.local_declaration (state cx.old) (local_view local.now) (parts_view parts.old)) result (state cx.new) }
{
    let is_alone = are_none(local.declarators.as_slice());
    let base = specifiers_of(cx, local.place, local.words.as_slice(), is_alone)?;
    declared_by(cx, local, parts, &base)
}
