//! Declarations, blocks and expression statements (6.7.9, 6.8.2 and 6.8.3 of ISO/IEC 9899:2011).
ghost use Rattle.std.specs.Prelude.{◌≡◌, IfOk, map};
ghost use Rattle.c_layout.specs.CheckedTrees.{term_tree, lvalue_tree, statement_tree, statement_trees, store_tree};
ghost use Rattle.lower_templates.specs.Worklist.Plans.{plan};
ghost use Rattle.lower_templates.specs.Worklist.Settings.{setting};
ghost use Rattle.lower_functions.specs.Statements.PlainStatements as spec;

use crate::statements::scope_jumps::{push_enters, push_leaves};
use c_layout::{CheckedStatement, CheckedTerm, InitStore, Lvalue};
use cc_base::{Place, Text};
use cfg::Operation;
use lower_templates::worklist::{
    BaseName, Builder, Setting, Surroundings, Work, scalar, struct_number,
};
use std::alloc::AllocError;

/// A declaration without initializer.
pub fn forget(builder: &mut Builder, place: Place, local: u32) -> Result<(), AllocError>
    ensures { IfOk result (λ _. plan builder.new ≡ spec.forget place local (plan builder.old)) }
{
    let base = builder.base(BaseName::Local(local))?;
    builder.emit(place, Operation::Forget(base))
}

/// Adds the pointer to a byte of a local object into the first temporary.
fn push_address(
    builder: &mut Builder,
    place: Place,
    local: u32,
    offset: u64,
) -> Result<(), AllocError>
    ensures { IfOk result (λ _. plan builder.new ≡ spec.address place local offset (plan builder.old)) }
{
    let base = builder.base(BaseName::Local(local))?;
    builder.emit(place, Operation::Address(0, base, offset))
}

/// A scalar at an offset of a local object and its initializer.
fn start_scalar<'a>(
    builder: &mut Builder<'a>,
    place: Place,
    local: u32,
    offset: u64,
    value: &'a CheckedTerm,
) -> Result<(), AllocError>
    ensures { IfOk result (λ _. plan builder.new ≡ spec.start_scalar place local offset (term_tree value.now) (plan builder.old)) }
{
    push_address(builder, place, local, offset)?;
    builder.add(Work::Value(value, 1))?;
    builder.emit(place, Operation::Store(0, 1, scalar(&value.ctype), None))
}

/// A struct at an offset of a local object that is copied from an lvalue.
fn start_struct<'a>(
    builder: &mut Builder<'a>,
    place: Place,
    local: u32,
    offset: u64,
    source: &'a Lvalue,
) -> Result<(), AllocError>
    ensures { IfOk result (λ _. plan builder.new ≡ spec.start_struct place local offset (lvalue_tree source.now) (plan builder.old)) }
{
    push_address(builder, place, local, offset)?;
    builder.add(Work::Address(source, 1))?;
    builder.emit(place, Operation::Copy(0, 1, struct_number(&source.ctype)))
}

/// The characters of a literal in an array of a local object.
fn start_text(
    builder: &mut Builder,
    place: Place,
    local: u32,
    offset: u64,
    room: u64,
    text: &Text,
) -> Result<(), AllocError>
    ensures { IfOk result (λ _. plan builder.new ≡ spec.start_text place local offset room text.now (plan builder.old)) }
{
    let text = text.copy(builder.alloc)?;
    let base = builder.base(BaseName::Local(local))?;
    builder.emit(place, Operation::Spell(base, offset, room, text))
}

/// A scalar and its initializer.
pub fn start<'a>(
    builder: &mut Builder<'a>,
    place: Place,
    local: u32,
    value: &'a CheckedTerm,
) -> Result<(), AllocError>
    ensures { IfOk result (λ _. plan builder.new ≡ spec.start_scalar place local 0 (term_tree value.now) (plan builder.old)) }
{
    start_scalar(builder, place, local, 0, value)
}

/// A struct that is copied from an lvalue.
pub fn start_copy<'a>(
    builder: &mut Builder<'a>,
    place: Place,
    local: u32,
    source: &'a Lvalue,
) -> Result<(), AllocError>
    ensures { IfOk result (λ _. plan builder.new ≡ spec.start_struct place local 0 (lvalue_tree source.now) (plan builder.old)) }
{
    start_struct(builder, place, local, 0, source)
}

/// A store of an initializer in braces.
fn push_store<'a>(
    builder: &mut Builder<'a>,
    place: Place,
    local: u32,
    store: &'a InitStore,
) -> Result<(), AllocError>
    ensures { IfOk result (λ _. plan builder.new ≡ spec.stored place local (store_tree store.now) (plan builder.old)) }
{
    match store {
        InitStore::Value(offset, value) => start_scalar(builder, place, local, *offset, value),
        InitStore::Copy(offset, source) => start_struct(builder, place, local, *offset, source),
        InitStore::Spell(offset, room, text) => {
            start_text(builder, place, local, *offset, *room, text)
        }
    }
}

/// The stores of an initializer in braces, in order.
fn push_stores<'a>(
    builder: &mut Builder<'a>,
    place: Place,
    local: u32,
    stores: &'a [InitStore],
) -> Result<(), AllocError>
    ensures { IfOk result (λ _. plan builder.new ≡ spec.all_stored place local (map store_tree stores.now) (plan builder.old)) }
{
    for store in stores {
        push_store(builder, place, local, store)?;
    }
    Ok(())
}

/// Adds the clearing of a local object.
fn push_clear(builder: &mut Builder, place: Place, local: u32) -> Result<(), AllocError>
    ensures { IfOk result (λ _. plan builder.new ≡ spec.cleared place local (plan builder.old)) }
{
    let base = builder.base(BaseName::Local(local))?;
    builder.emit(place, Operation::Clear(base))
}

/// An object that is cleared and then stored to.
pub fn start_list<'a>(
    builder: &mut Builder<'a>,
    place: Place,
    local: u32,
    stores: &'a [InitStore],
) -> Result<(), AllocError>
    ensures { IfOk result (λ _. plan builder.new ≡ spec.start_list place local (map store_tree stores.now) (plan builder.old)) }
{
    push_clear(builder, place, local)?;
    push_stores(builder, place, local, stores)
}

/// Adds statements in order.
pub fn push_statements<'a>(
    builder: &mut Builder<'a>,
    list: &'a [CheckedStatement],
    around: Surroundings,
) -> Result<(), AllocError>
    ensures { IfOk result (λ _. plan builder.new ≡ spec.all_statements (statement_trees (map statement_tree list.now)) around (plan builder.old)) }
{
    for statement in list {
        builder.add(Work::Statement(statement, around))?;
    }
    Ok(())
}

/// The same surroundings in another scope.
pub fn in_scope(around: Surroundings, scope: u32) -> Surroundings
    ensures { result ≡ spec.in_scope around scope }
{
    Surroundings {
        scope,
        on_break: around.on_break,
        on_continue: around.on_continue,
        choice: around.choice,
    }
}

/// A block and its objects.
pub fn block<'a>(
    cx: &Setting<'a>,
    builder: &mut Builder<'a>,
    objects: &'a [u32],
    list: &'a [CheckedStatement],
    around: Surroundings,
) -> Result<(), AllocError>
    ensures { IfOk result (λ _. plan builder.new ≡ spec.block (setting cx.now) objects.now (statement_trees (map statement_tree list.now)) around (plan builder.old)) }
{
    let scope = builder.next_scope()?;
    push_enters(builder, cx.place, objects)?;
    push_statements(builder, list, in_scope(around, scope))?;
    push_leaves(builder, cx.place, objects)
}
