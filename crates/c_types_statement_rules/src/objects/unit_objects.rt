//! What becomes of the objects of static storage at the end of a unit (6.9.2 of ISO/IEC 9899:2011).
ghost use Rattle.std.specs.Prelude.{◌≡◌, IfOk, map, slice_get};
ghost use Rattle.c_layout.specs.Types.{view};
ghost use Rattle.c_layout.specs.CheckedUnits.{static_view, static_store_view};
ghost use Rattle.c_types_scopes.specs.Answers.{Leads};
ghost use Rattle.c_types_scopes.specs.Known.{known};
ghost use Rattle.c_types_scopes.specs.States.{state};
ghost use Rattle.c_types_statement_rules.specs.Objects.Changes.{changed};
ghost use Rattle.c_types_statement_rules.specs.Objects.UnitObjects as spec;

use c_layout::{CType, StaticBase, StaticObject, StaticStore, StaticValue};
use c_types_scopes::{Context, StaticInitializer, constant_needed};
use cc_base::{Memory, Place, Stop};

/// The length of an array that has so many elements, or none in the whole unit.
fn completed_count(count: u64) -> u64
    ensures { result ≡ spec.completed_count count }
{
    if count == 0 { 1 } else { count }
}

/// An array without a length in the whole unit has one element.
fn completed(ctype: CType) -> CType
    ensures { view result ≡ spec.completed (view ctype) }
{
    match ctype {
        CType::Array(element, count) => CType::Array(element, completed_count(count)),
        CType::Int(kind) => CType::Int(kind),
        CType::Pointer(target) => CType::Pointer(target),
        CType::Struct(number) => CType::Struct(number),
        CType::Void => CType::Void,
    }
}

/// Gives an object a length.
fn complete(object: &mut StaticObject)
    ensures { static_view object.new ≡ spec.completed_object (static_view object.old) }
{
    let ctype = std::mem::replace(&mut object.ctype, CType::Void);
    object.ctype = completed(ctype);
}

/// Gives the object with a number a length.
fn complete_at(cx: &mut Context, at: usize)
    ensures { state cx.new ≡ spec.with_statics (state cx.old) (changed spec.completed_object at (state cx.old).statics) }
{
    if let Some(object) = cx.statics.get_mut(at) {
        complete(object);
    }
}

/// Gives each array of unknown length one element.
fn complete_objects(cx: &mut Context)
    ensures { state cx.new ≡ spec.with_completed (state cx.old) }
{
    for at in 0..cx.statics.len() {
        complete_at(cx, at);
    }
}

/// A number, or 0.
fn or_0(n: Option<u64>) -> u64
    ensures { result ≡ spec.or_0 n }
{
    match n {
        Some(n) => n,
        None => 0,
    }
}

/// The size of an object.
fn object_size(cx: &Context, object: &StaticObject) -> u64
    ensures { result ≡ spec.object_size (known cx.now) (static_view object.now) }
{
    or_0(cx.size_of(&object.ctype))
}

/// The sizes of the objects of static storage.
fn object_sizes(cx: &Context) -> Result<Vec<u64>, Memory>
    ensures { IfOk result (λ sizes. sizes.items ≡ spec.object_sizes (state cx.now)) }
{
    let mut sizes = Vec::new(cx.alloc);
    for object in &cx.statics {
        sizes.push(object_size(cx, object))?;
    }
    Ok(sizes)
}

/// The size of the object with a number.
fn size_at(sizes: &[u64], number: u32) -> Option<u64>
    ensures { result ≡ slice_get sizes.now number }
{
    sizes.get(number as usize).copied()
}

/// A bound, which is the object's size where its length was not known.
fn bound_of(sizes: &[u64], number: u32, high: u64) -> u64
    ensures { result ≡ spec.bound_of sizes.now number high }
{
    if high == u64::MAX {
        or_0(size_at(sizes, number))
    } else {
        high
    }
}

/// A static value whose bound is that of an object whose length was not known.
fn bounded(value: StaticValue, sizes: &[u64]) -> StaticValue
    ensures { result ≡ spec.bounded sizes.now value }
{
    match value {
        StaticValue::Address(StaticBase::Object(number), offset, low, high) => {
            let high = bound_of(sizes, number, high);
            StaticValue::Address(StaticBase::Object(number), offset, low, high)
        }
        StaticValue::Address(StaticBase::Literal(number), offset, low, high) => {
            StaticValue::Address(StaticBase::Literal(number), offset, low, high)
        }
        StaticValue::Number(n, kind) => StaticValue::Number(n, kind),
        StaticValue::Null => StaticValue::Null,
    }
}

/// Bounds the address in a store.
fn bound_store(store: &mut StaticStore, sizes: &[u64])
    ensures { static_store_view store.new ≡ spec.bounded_store sizes.now (static_store_view store.old) }
{
    match store {
        StaticStore::Value(_, value) => *value = bounded(*value, sizes),
        StaticStore::Spell(_, _, _) => {}
    }
}

/// Bounds the address in the store with a number.
fn bound_at(stores: &mut Vec<StaticStore>, at: usize, sizes: &[u64])
    ensures { map static_store_view stores.new.items ≡ changed (spec.bounded_store sizes.now) at (map static_store_view stores.old.items) }
{
    if let Some(store) = stores.get_mut(at) {
        bound_store(store, sizes);
    }
}

/// Bounds the addresses in stores.
fn bound_stores(stores: &mut Vec<StaticStore>, sizes: &[u64])
    ensures { map static_store_view stores.new.items ≡ map (spec.bounded_store sizes.now) (map static_store_view stores.old.items) }
{
    for at in 0..stores.len() {
        bound_at(stores, at, sizes);
    }
}

/// Bounds the addresses in an object's initializer.
fn bound_object(object: &mut StaticObject, sizes: &[u64])
    ensures { static_view object.new ≡ spec.bounded_object sizes.now (static_view object.old) }
{
    bound_stores(&mut object.stores, sizes);
}

/// Bounds the addresses in the initializer of the object with a number.
fn bound_object_at(cx: &mut Context, at: usize, sizes: &[u64])
    ensures { state cx.new ≡ spec.with_statics (state cx.old) (changed (spec.bounded_object sizes.now) at (state cx.old).statics) }
{
    if let Some(object) = cx.statics.get_mut(at) {
        bound_object(object, sizes);
    }
}

/// Bounds the addresses in the initializers of all objects.
fn bound_objects(cx: &mut Context, sizes: &[u64])
    ensures { state cx.new ≡ spec.with_statics (state cx.old) (map (spec.bounded_object sizes.now) (state cx.old).statics) }
{
    for at in 0..cx.statics.len() {
        bound_object_at(cx, at, sizes);
    }
}

/// Whether an address lies in its object, or just behind it, and so do all that it may reach.
fn reaches_no_further(sizes: &[u64], base: StaticBase, offset: u64, high: u64) -> bool
    ensures { result ≡ spec.reaches_no_further sizes.now base offset high }
{
    match base {
        StaticBase::Object(number) => offset <= high && high <= or_0(size_at(sizes, number)),
        StaticBase::Literal(_) => true,
    }
}

/// Whether a static value is no address past its object.
fn value_fits(value: StaticValue, sizes: &[u64]) -> bool
    ensures { result ≡ spec.value_fits sizes.now value }
{
    match value {
        StaticValue::Address(base, offset, _, high) => reaches_no_further(
            sizes, base, offset, high,
        ),
        StaticValue::Number(_, _) => true,
        StaticValue::Null => true,
    }
}

/// Whether a store has no address past its object.
fn store_fits(store: &StaticStore, sizes: &[u64]) -> bool
    ensures { result ≡ spec.store_fits sizes.now (static_store_view store.now) }
{
    match store {
        StaticStore::Value(_, value) => value_fits(*value, sizes),
        StaticStore::Spell(_, _, _) => true,
    }
}

/// Whether no store has an address past its object.
#[tactic(auto, unfolding(crate::specs::Objects::UnitObjects::stores_fit))]
fn stores_fit(stores: &[StaticStore], sizes: &[u64]) -> bool
    ensures { result ≡ spec.stores_fit sizes.now (map static_store_view stores.now) }
{
    for at in 0..stores.len() {
        if !store_fits(&stores[at], sizes) {
            return false;
        }
    }
    true
}

/// Whether no address in the initializer of the object with a number goes past its object.
fn object_fits(objects: &[StaticObject], number: u32, sizes: &[u64]) -> bool
    ensures { result ≡ spec.object_fits sizes.now (slice_get (map static_view objects.now) number) }
{
    match objects.get(number as usize) {
        Some(object) => stores_fit(object.stores.as_slice(), sizes),
        None => true,
    }
}

/// The `=` of the first initializer that goes past an object.
#[tactic(auto, unfolding(crate::specs::Objects::UnitObjects::first_past))]
fn first_past(
    objects: &[StaticObject],
    sizes: &[u64],
    initializers: &[StaticInitializer],
) -> Option<Place>
    ensures { result ≡ spec.first_past sizes.now (map static_view objects.now) initializers.now }
{
    for at in 0..initializers.len() {
        if !object_fits(objects, initializers[at].object, sizes) {
            return Some(initializers[at].equals);
        }
    }
    None
}

/// Gives each array of unknown length one element, and bounds the addresses in static initializers.
///
/// # Errors
///
/// `ConstantNeeded` at the `=` of the first initializer that goes past an array of which the length
/// became known behind it (6.6p9, 6.7.9p4); or want of memory.
pub fn finish_objects(cx: &mut Context) -> Result<(), Stop>
    ensures { Leads (λ _. tt) (spec.finished_objects (state cx.old)) result (state cx.new) }
{
    complete_objects(cx);
    let sizes = object_sizes(cx)?;
    bound_objects(cx, sizes.as_slice());
    match first_past(
        cx.statics.as_slice(),
        sizes.as_slice(),
        cx.initializers.as_slice(),
    ) {
        Some(place) => Err(constant_needed(place)),
        None => Ok(()),
    }
}
