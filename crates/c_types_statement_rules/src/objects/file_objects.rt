//! Objects of file scope, once their types are known (6.7, 6.9.2 of ISO/IEC 9899:2011).
ghost use Rattle.std.specs.Prelude.{◌≡◌, IfOk, length, option_map};
ghost use Rattle.c_layout.specs.Types.{view};
ghost use Rattle.c_layout.specs.DeclarationTrees.{name_view};
ghost use Rattle.c_types_scopes.specs.Answers.{Gives, Leads};
ghost use Rattle.c_types_scopes.specs.DeclaredTypes.{declared_view, object_view};
ghost use Rattle.c_types_scopes.specs.Known.{known};
ghost use Rattle.c_types_scopes.specs.States.{state};
ghost use Rattle.c_types_statement_rules.specs.Objects.FileObjects as spec;

use crate::objects::local_objects::set_static;
use c_layout::{CType, Name, Storage};
use c_types_scopes::{Context, DeclaredType, Meaning, ObjectDeclaration, redeclared};
use cc_base::{Memory, Place, Stop};
use std::alloc::Global;

/// Whether a storage class is `static`.
fn is_static_storage(storage: Option<Storage>) -> bool
    ensures { result ≡ spec.is_static_storage storage }
{
    match storage {
        Some(Storage::Static) => true,
        Some(Storage::Typedef) => false,
        Some(Storage::Extern) => false,
        Some(Storage::Auto) => false,
        Some(Storage::Register) => false,
        None => false,
    }
}

/// Whether a storage class is `extern`.
fn is_extern_storage(storage: Option<Storage>) -> bool
    ensures { result ≡ spec.is_extern_storage storage }
{
    match storage {
        Some(Storage::Extern) => true,
        Some(Storage::Static) => false,
        Some(Storage::Typedef) => false,
        Some(Storage::Auto) => false,
        Some(Storage::Register) => false,
        None => false,
    }
}

/// Whether an object of file scope may have a type.
pub fn may_be_object(
    cx: &Context,
    t: &CType,
    storage: Option<Storage>,
    has_initializer: bool,
) -> bool
    ensures { result ≡ spec.may_be_object (known cx.now) (view t.now) storage has_initializer }
{
    match t {
        CType::Void => false,
        CType::Array(_, count) => {
            if *count == 0 {
                has_initializer || !is_static_storage(storage)
            } else {
                cx.size_of(t).is_some()
            }
        }
        CType::Struct(_) => {
            cx.size_of(t).is_some() || (!has_initializer && is_extern_storage(storage))
        }
        CType::Int(_) => cx.size_of(t).is_some(),
        CType::Pointer(_) => cx.size_of(t).is_some(),
    }
}

/// The length of an array by two declarations of it; None where they differ.
fn common_length(old: u64, new: u64) -> Option<u64>
    ensures { result ≡ spec.common_length old new }
{
    if old == new {
        Some(old)
    } else if new == 0 {
        Some(old)
    } else if old == 0 {
        Some(new)
    } else {
        None
    }
}

/// The array of elements of a type with the length that two declarations give.
fn array_composite(
    alloc: Global,
    element: &CType,
    length: Option<u64>,
) -> Result<Option<CType>, Memory>
    ensures { IfOk result (λ t. option_map view t ≡ spec.array_composite (view element.now) length) }
{
    match length {
        Some(count) => {
            let element = element.copy(alloc)?;
            Ok(Some(CType::Array(Box::new(alloc, element)?, count)))
        }
        None => Ok(None),
    }
}

/// The type of an array of so many elements of a type, and of another declaration of it.
fn composite_with(
    alloc: Global,
    element: &CType,
    count: u64,
    new: &CType,
) -> Result<Option<CType>, Memory>
    ensures { IfOk result (λ t. option_map view t ≡ spec.composite_with (view element.now) count (view new.now)) }
{
    match new {
        CType::Array(other, length) => {
            if other.is_same(element) {
                array_composite(alloc, other, common_length(count, *length))
            } else {
                Ok(None)
            }
        }
        CType::Int(_) => Ok(None),
        CType::Pointer(_) => Ok(None),
        CType::Struct(_) => Ok(None),
        CType::Void => Ok(None),
    }
}

/// The type of two declarations of one object that differ.
fn composite_of(alloc: Global, old: &CType, new: &CType) -> Result<Option<CType>, Memory>
    ensures { IfOk result (λ t. option_map view t ≡ spec.composite_of (view old.now) (view new.now)) }
{
    match old {
        CType::Array(element, count) => composite_with(alloc, element, *count, new),
        CType::Int(_) => Ok(None),
        CType::Pointer(_) => Ok(None),
        CType::Struct(_) => Ok(None),
        CType::Void => Ok(None),
    }
}

/// The type of two declarations of one object: the same, or that of an array whose length one of
/// them gives.
fn composite(alloc: Global, old: &CType, new: &CType) -> Result<Option<CType>, Memory>
    ensures { IfOk result (λ t. option_map view t ≡ spec.composite (view old.now) (view new.now)) }
{
    if old.is_same(new) {
        return Ok(Some(new.copy(alloc)?));
    }
    composite_of(alloc, old, new)
}

/// Defines an object, where the unit does; its number among the objects of the run.
fn define(cx: &mut Context, known: u32, name: &Name, t: &CType) -> Result<Option<u32>, Memory>
    ensures number { IfOk result (λ n. n ≡ spec.defined_number known (state cx.old)) }
    ensures after { IfOk result (λ _. state cx.new ≡ spec.with_defined known (name_view name.now) (view t.now) (state cx.old)) }
    ensures objects { IfOk result (λ _. (state cx.new).objects ≡ (state cx.old).objects) }
{
    if cx.definitions.has_object(known) {
        let text = name.text.copy(cx.alloc)?;
        let ctype = t.copy(cx.alloc)?;
        Ok(Some(cx.add_static(text, name.place, ctype)?))
    } else {
        Ok(None)
    }
}

/// Declares an object by the number of its name; its number among those declared.
fn declare(cx: &mut Context, known: u32, object: ObjectDeclaration) -> Result<u32, Memory>
    ensures number { IfOk result (λ n. n ≡ length (state cx.old).objects) }
    ensures after { IfOk result (λ _. state cx.new ≡ spec.with_declaration known (object_view object) (state cx.old)) }
{
    let index = u32::try_from(cx.objects.len()).map_err(|_| Memory)?;
    cx.objects.push(object)?;
    cx.scopes.declare(known, Meaning::Static(index))?;
    Ok(index)
}

/// Declares an object of file scope for the first time; its number among those declared.
pub fn first_declaration(
    cx: &mut Context,
    known: u32,
    name: &Name,
    declared: DeclaredType,
) -> Result<u32, Memory>
    ensures number { IfOk result (λ n. n ≡ length (state cx.old).objects) }
    ensures after { IfOk result (λ _. state cx.new ≡ spec.first_declaration known (name_view name.now) (declared_view declared) (state cx.old)) }
{
    let number = define(cx, known, name, &declared.ctype)?;
    let object = ObjectDeclaration {
        declared,
        number,
        initialized: false,
    };
    declare(cx, known, object)
}

/// The number of an object of the run, or the greatest number.
fn number_or(number: Option<u32>) -> u32
    ensures { result ≡ spec.number_or number }
{
    match number {
        Some(number) => number,
        None => u32::MAX,
    }
}

/// Notes the enumerated type that a declaration of an object names.
fn set_enumeration(cx: &mut Context, index: u32, enumeration: Option<u32>)
    ensures { state cx.new ≡ spec.with_enumeration index enumeration (state cx.old) }
{
    if let Some(object) = cx.objects.get_mut(index as usize) {
        object.declared.enumeration = enumeration;
    }
}

/// Declares an object of file scope again.
pub fn next_declaration(
    cx: &mut Context,
    index: u32,
    place: Place,
    declared: DeclaredType,
) -> Result<(), Stop>
    ensures { Leads (λ _. tt) (spec.next_declaration index place (declared_view declared) (state cx.old)) result (state cx.new) }
{
    let DeclaredType { ctype, enumeration } = declared;
    let Some(object) = cx.objects.get(index as usize) else {
        return Err(redeclared(place));
    };
    let number = object.number;
    let Some(made) = composite(cx.alloc, &object.declared.ctype, &ctype)? else {
        return Err(redeclared(place));
    };
    set_enumeration(cx, index, enumeration);
    set_static(cx, index, number_or(number), made)?;
    Ok(())
}

/// Whether an object has an initializer already, and notes that it has one.
pub fn meet_initializer(cx: &mut Context, index: u32) -> bool
    ensures before { result ≡ spec.is_initialized (state cx.old) index }
    ensures after { state cx.new ≡ spec.with_initialized index (state cx.old) }
{
    match cx.objects.get_mut(index as usize) {
        Some(object) => {
            let before = object.initialized;
            object.initialized = true;
            before
        }
        None => false,
    }
}

/// The type and the number of an object.
pub fn object_at(cx: &Context, place: Place, index: u32) -> Result<(CType, u32), Stop>
    ensures { Gives (λ r. (view r.0, r.1)) (spec.object_at (state cx.now) place index) result }
{
    match cx.objects.get(index as usize) {
        Some(object) => {
            let ctype = object.declared.ctype.copy(cx.alloc)?;
            Ok((ctype, number_or(object.number)))
        }
        None => Err(redeclared(place)),
    }
}
