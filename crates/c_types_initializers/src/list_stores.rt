//! The stores of a list in braces (6.7.9p16 to p21 of ISO/IEC 9899:2011).
ghost use Rattle.std.specs.Prelude.{◌≡◌, IfOk, option_map};
ghost use Rattle.c_layout.specs.Types.{view};
ghost use Rattle.c_layout.specs.CheckedTrees.{store_tree};
ghost use Rattle.c_types_scopes.specs.Known.{known};
ghost use Rattle.c_types_operands.specs.Operands.{operand_view};
ghost use Rattle.c_types_initializers.specs.Subobjects.{subobject_view, cursor_view};
ghost use Rattle.c_types_initializers.specs.ListStores as spec;
ghost use Rattle.c_types_initializers.specs.ListStores.{filling_view};

use crate::literals::character_room;
use crate::subobjects::{Cursor, Subobject};
use c_layout::{CType, InitStore};
use c_types_operands::{Form, Operand, assigned, is_scalar, is_struct, term_of};
use c_types_operators::struct_source;
use c_types_scopes::Context;
use cc_base::{Fault, Memory, Place, Refusal, Stop, Text};
use std::alloc::Global;

/// The stores so far, and the first refusal of an initializer whose parts have types. It counts
/// only where all of them have.
#[derive(Drop)]
pub struct Filling {
    pub stores: Vec<InitStore>,
    pub fault: Option<Fault>,
}

impl Filling {
    /// No store.
    pub fn new(alloc: Global) -> Filling
        ensures { filling_view result ≡ spec.nothing }
    {
        Filling {
            stores: Vec::new(alloc),
            fault: None,
        }
    }

    /// Keeps the first refusal.
    fn keep(&mut self, fault: Fault)
        ensures { filling_view self.new ≡ spec.with_fault (filling_view self.old) fault }
    {
        if self.fault.is_none() {
            self.fault = Some(fault);
        }
    }

    /// Keeps, as the first refusal, that no rule of types applies.
    pub fn keep_type_fault(&mut self, place: Place)
        ensures { filling_view self.new ≡ spec.with_type_fault (filling_view self.old) place }
    {
        self.keep(Fault {
            place,
            refusal: Refusal::TypeFault,
        })
    }

    /// Adds a store.
    fn add(&mut self, store: InitStore) -> Result<(), Memory>
        ensures { IfOk result (λ _. filling_view self.new ≡ spec.with_store (filling_view self.old) (store_tree store)) }
    {
        self.stores.push(store)?;
        Ok(())
    }

    /// Spells a literal into an array of characters.
    pub fn spell(
        &mut self,
        alloc: Global,
        offset: u64,
        room: u64,
        bytes: &Text,
    ) -> Result<(), Memory>
        ensures { IfOk result (λ _. filling_view self.new ≡ spec.with_text (filling_view self.old) offset room bytes.now) }
    {
        let bytes = bytes.copy(alloc)?;
        self.add(InitStore::Spell(offset, room, bytes))
    }
}

/// Stores a value in a scalar.
pub fn store_scalar(
    cx: &Context,
    equals: Place,
    subobject: &Subobject,
    operand: Operand,
    filling: &mut Filling,
) -> Result<(), Memory>
    ensures { IfOk result (λ _. filling_view filling.new ≡ spec.with_scalar (known cx.now) equals (subobject_view subobject.now) (operand_view operand) (filling_view filling.old)) }
{
    let from = term_of(cx.alloc, operand)?;
    match assigned(cx, equals, from, &subobject.ctype) {
        Ok(term) => {
            let term = Box::into_inner(term);
            filling.add(InitStore::Value(subobject.offset, term))
        }
        Err(Stop::Refused(fault)) => {
            filling.keep(fault);
            Ok(())
        }
        Err(_) => Err(Memory),
    }
}

/// Copies a struct into another one.
fn store_struct(
    equals: Place,
    subobject: &Subobject,
    operand: Operand,
    filling: &mut Filling,
) -> Result<(), Memory>
    ensures { IfOk result (λ _. filling_view filling.new ≡ spec.with_struct equals (subobject_view subobject.now) (operand_view operand) (filling_view filling.old)) }
{
    match struct_source(operand, &subobject.ctype) {
        Some(source) => {
            let source = Box::into_inner(source);
            filling.add(InitStore::Copy(subobject.offset, source))
        }
        None => {
            filling.keep_type_fault(equals);
            Ok(())
        }
    }
}

/// Whether an operand is an lvalue of a type.
fn is_form_of(operand: &Operand, t: &CType) -> bool
    ensures { result ≡ spec.is_form_of (operand_view operand.now).form (view t.now) }
{
    match &operand.form {
        Form::Lvalue(lvalue) => lvalue.ctype.is_same(t),
        Form::Value(_) => false,
    }
}

/// Whether an operand is an lvalue of a struct type.
fn is_struct_operand(operand: &Operand, t: &CType) -> bool
    ensures { result ≡ spec.is_struct_operand (operand_view operand.now) (view t.now) }
{
    if is_struct(t) {
        is_form_of(operand, t)
    } else {
        false
    }
}

/// Whether a value initializes a subobject of a type as a whole.
fn takes_value(operand: &Operand, t: &CType) -> bool
    ensures { result ≡ spec.takes_value (operand_view operand.now) (view t.now) }
{
    if is_scalar(t) {
        true
    } else {
        is_struct_operand(operand, t)
    }
}

/// Whether a literal initializes a subobject of a type as a whole.
fn takes_text(t: &CType) -> bool
    ensures { result ≡ spec.takes_text (view t.now) }
{
    if is_scalar(t) {
        true
    } else {
        character_room(t).is_some()
    }
}

/// The subobject that a value initializes as a whole, found by going into aggregates; None where
/// there is none.
fn sought(cx: &Context, cursor: &mut Cursor, operand: &Operand) -> Result<Option<Subobject>, Memory>
    ensures { IfOk result (λ s. (option_map subobject_view s, cursor_view cursor.new) ≡ spec.sought (known cx.now) (spec.takes_value (operand_view operand.now)) (cursor_view cursor.old)) }
{
    for _level in 0..u32::MAX {
        let Some(subobject) = cursor.next(cx)? else {
            return Ok(None);
        };
        if takes_value(operand, &subobject.ctype) {
            return Ok(Some(subobject));
        }
        cursor.enter(subobject)?;
    }
    Err(Memory)
}

/// The subobject that a literal initializes: an array of characters, or a scalar.
pub fn sought_text(cx: &Context, cursor: &mut Cursor) -> Result<Option<Subobject>, Memory>
    ensures { IfOk result (λ s. (option_map subobject_view s, cursor_view cursor.new) ≡ spec.sought (known cx.now) spec.takes_text (cursor_view cursor.old)) }
{
    for _level in 0..u32::MAX {
        let Some(subobject) = cursor.next(cx)? else {
            return Ok(None);
        };
        if takes_text(&subobject.ctype) {
            return Ok(Some(subobject));
        }
        cursor.enter(subobject)?;
    }
    Err(Memory)
}

/// A subobject by a value.
fn store_value(
    cx: &Context,
    equals: Place,
    subobject: &Subobject,
    operand: Operand,
    filling: &mut Filling,
) -> Result<(), Memory>
    ensures { IfOk result (λ _. filling_view filling.new ≡ spec.with_value (known cx.now) equals (subobject_view subobject.now) (operand_view operand) (filling_view filling.old)) }
{
    if is_scalar(&subobject.ctype) {
        store_scalar(cx, equals, subobject, operand, filling)
    } else {
        store_struct(equals, subobject, operand, filling)
    }
}

/// The subobject that was sought, if there is one, by a value.
fn store_found(
    cx: &Context,
    equals: Place,
    subobject: Option<Subobject>,
    operand: Operand,
    filling: &mut Filling,
) -> Result<(), Memory>
    ensures { IfOk result (λ _. filling_view filling.new ≡ spec.with_found (known cx.now) equals (operand_view operand) (filling_view filling.old) (option_map subobject_view subobject)) }
{
    match subobject {
        Some(subobject) => store_value(cx, equals, &subobject, operand, filling),
        None => {
            filling.keep_type_fault(equals);
            Ok(())
        }
    }
}

/// A value in a list: it initializes the next subobject that it may initialize as a whole.
pub fn store_next(
    cx: &Context,
    equals: Place,
    cursor: &mut Cursor,
    operand: Operand,
    filling: &mut Filling,
) -> Result<(), Memory>
    ensures { IfOk result (λ _. (cursor_view cursor.new, filling_view filling.new) ≡ spec.stored_next (known cx.now) equals (operand_view operand) (cursor_view cursor.old) (filling_view filling.old)) }
{
    let found = sought(cx, cursor, &operand)?;
    store_found(cx, equals, found, operand, filling)
}
