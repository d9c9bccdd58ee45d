//! How objects of static storage and literals start.
ghost use Rattle.std.specs.Prelude.{◌≡◌, ◌+◌, ◌&&◌, ◌==◌, ◌≤◌, ◌^◌, IfSome, None, Some, length, slice_get};
ghost use Rattle.std.specs.List.{list_all};
ghost use Rattle.cfg.specs.StaticStarts as spec;

use crate::base_places::{has_place, has_room};
use crate::value_ranges::{class_of, is_int_type};
use c_layout::{BaseInfo, Class, Model, StaticBase, StaticStore, StaticValue};
use cc_base::Text;
use cfg::{Flow, InitialObject, InitialValue};

fn is_object(object: StaticBase) -> bool
    ensures { result ≡ spec.is_object object }
{
    match object {
        StaticBase::Object(_) => true,
        StaticBase::Literal(_) => false,
    }
}

fn same_static(a: StaticBase, b: StaticBase) -> bool
    ensures { result ≡ spec.same_static a b }
{
    match a {
        StaticBase::Object(m) => match b {
            StaticBase::Object(n) => m == n,
            StaticBase::Literal(_) => false,
        },
        StaticBase::Literal(m) => match b {
            StaticBase::Object(_) => false,
            StaticBase::Literal(n) => m == n,
        },
    }
}

/// The number by which an object or a literal is named.
fn own_number(object: StaticBase) -> u32
    ensures { result ≡ spec.own_number object }
{
    match object {
        StaticBase::Object(n) => n,
        StaticBase::Literal(n) => n,
    }
}

/// Whether the objects come first and then the literals, each by its number.
fn are_numbered(all: &[InitialObject]) -> bool
    ensures { result ≡ spec.are_numbered 0 0 all.now }
{
    let mut objects: usize = 0;
    let mut literals: usize = 0;
    for at in 0..all.len() {
        let object = all[at].object;
        let number = own_number(object) as usize;
        if is_object(object) {
            if number != objects || literals != 0 {
                return false;
            }
            objects += 1;
        } else {
            if number != literals {
                return false;
            }
            literals += 1;
        }
    }
    true
}

fn object_count(all: &[InitialObject]) -> usize
    ensures { result ≡ spec.object_count all.now }
{
    let mut count = 0;
    for at in 0..all.len() {
        if is_object(all[at].object) {
            count += 1;
        }
    }
    count
}

/// Where an object or a literal stands behind so many objects; None where no list is so long.
fn number_of(objects: usize, object: StaticBase) -> Option<usize>
    ensures there { IfSome result (λ n. n ≡ spec.number_of objects object) }
    ensures none { result ≡ None → 2 ^ 64 ≤ spec.number_of objects object }
{
    match object {
        StaticBase::Object(number) => Some(number as usize),
        StaticBase::Literal(number) => objects.checked_add(number as usize),
    }
}

/// A pointer into an object or a literal, by its offset and its bounds.
#[derive(Clone, Copy)]
struct StaticAddress {
    object: StaticBase,
    at: u64,
    lo: u64,
    hi: u64,
}

/// Whether an address is one of an object: its bounds are within the object and the offset within the
/// bounds, and what has a base points into what has one.
fn fits_target(based: bool, address: StaticAddress, target: &InitialObject) -> bool
    ensures { result ≡ spec.fits_target based address.object address.at address.lo address.hi (Some target.now) }
{
    (same_static(address.object, target.object) && (target.base.is_some() || !based))
        && (address.lo <= address.at && (address.at <= address.hi && address.hi <= target.size))
}

fn fits_address(all: &[InitialObject], objects: usize, based: bool, address: StaticAddress) -> bool
    ensures { result ≡ spec.fits_target based address.object address.at address.lo address.hi (slice_get all.now (spec.number_of objects address.object)) }
{
    match number_of(objects, address.object) {
        None => false,
        Some(number) => match all.get(number) {
            None => false,
            Some(target) => fits_target(based, address, target),
        },
    }
}

/// Whether a value has a type of the model, or is an address within an object.
fn fits_value(flow: &Flow, objects: usize, based: bool, value: StaticValue) -> bool
    ensures { result ≡ spec.fits_value flow.now.model flow.now.initial.items objects based value }
{
    match value {
        StaticValue::Number(_, kind) => is_int_type(&flow.model, kind),
        StaticValue::Null => true,
        StaticValue::Address(object, at, lo, hi) => {
            let address = StaticAddress { object, at, lo, hi };
            fits_address(flow.initial.as_slice(), objects, based, address)
        }
    }
}

fn value_class(value: StaticValue) -> Class
    ensures { result ≡ spec.value_class value }
{
    match value {
        StaticValue::Number(_, kind) => class_of(kind),
        StaticValue::Null => Class::Pointer,
        StaticValue::Address(_, _, _, _) => Class::Pointer,
    }
}

fn has_place_in(bases: &[BaseInfo], base: Option<u32>, class: Class, at: u64) -> bool
    ensures { result ≡ spec.has_place_in bases.now base class at }
{
    match base {
        None => true,
        Some(base) => has_place(bases, base, class, at),
    }
}

fn has_room_in(bases: &[BaseInfo], base: Option<u32>, at: u64, room: u64) -> bool
    ensures { result ≡ spec.has_room_in bases.now base at room }
{
    match base {
        None => true,
        Some(base) => has_room(bases, base, at, room),
    }
}

/// Whether a store meets a leaf of its class, or spells into a part.
fn fits_store(flow: &Flow, objects: usize, base: Option<u32>, store: &StaticStore) -> bool
    ensures { result ≡ spec.fits_store flow.now.model flow.now.bases.items flow.now.initial.items objects base store.now }
{
    let bases = flow.bases.as_slice();
    match store {
        StaticStore::Value(at, value) => {
            fits_value(flow, objects, base.is_some(), *value)
                && has_place_in(bases, base, value_class(*value), *at)
        }
        StaticStore::Spell(at, room, _) => has_room_in(bases, base, *at, *room),
    }
}

fn fit_stores(flow: &Flow, objects: usize, base: Option<u32>, stores: &[StaticStore]) -> bool
    ensures { result ≡ list_all (spec.fits_store flow.now.model flow.now.bases.items flow.now.initial.items objects base) stores.now }
{
    stores
        .iter()
        .all(|store| fits_store(flow, objects, base, store))
}

fn fits_literal(flow: &Flow, base: Option<u32>, size: u64, text: &Text) -> bool
    ensures { result ≡ ((length text.now + 1 == size) && spec.has_room_in flow.now.bases.items base 0 size) }
{
    (0 < size && text.as_bytes().len() as u64 == size - 1)
        && has_room_in(flow.bases.as_slice(), base, 0, size)
}

/// Whether an object of a size begins with what fits it.
fn fits_start(
    flow: &Flow,
    objects: usize,
    base: Option<u32>,
    size: u64,
    value: &InitialValue,
) -> bool
    ensures { result ≡ spec.fits_start flow.now.model flow.now.bases.items flow.now.initial.items objects base size value.now }
{
    match value {
        InitialValue::Stores(stores) => fit_stores(flow, objects, base, stores.as_slice()),
        InitialValue::Literal(text) => fits_literal(flow, base, size, text),
    }
}

/// Whether a base that may be given has so many bytes.
fn has_size_of(bases: &[BaseInfo], base: Option<u32>, size: u64) -> bool
    ensures { result ≡ spec.has_size_of bases.now base size }
{
    match base {
        None => true,
        Some(base) => match bases.get(base as usize) {
            None => false,
            Some(info) => info.size == size,
        },
    }
}

fn is_started(flow: &Flow, objects: usize, object: &InitialObject) -> bool
    ensures { result ≡ spec.is_started flow.now.model flow.now.bases.items flow.now.initial.items objects object.now }
{
    has_size_of(flow.bases.as_slice(), object.base, object.size)
        && fits_start(flow, objects, object.base, object.size, &object.value)
}

fn each_is_started(flow: &Flow, objects: usize) -> bool
    ensures { result ≡ list_all (spec.is_started flow.now.model flow.now.bases.items flow.now.initial.items objects) flow.now.initial.items }
{
    flow.initial
        .iter()
        .all(|object| is_started(flow, objects, object))
}

/// Whether the objects of static storage and the literals are numbered, and each starts with what
/// fits it.
pub fn are_started(flow: &Flow) -> bool
    ensures { result ≡ spec.are_started flow.now.model flow.now.bases.items flow.now.initial.items }
{
    are_numbered(flow.initial.as_slice())
        && each_is_started(flow, object_count(flow.initial.as_slice()))
}
