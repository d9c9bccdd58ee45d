//! The stores of static initializers, which are constant (6.7.9p4 of ISO/IEC 9899:2011).
ghost use Rattle.std.specs.Prelude.{◌≡◌, IfOk, map};
ghost use Rattle.c_layout.specs.CheckedTrees.{term_tree, store_tree};
ghost use Rattle.c_layout.specs.CheckedUnits.{static_store_view};
ghost use Rattle.c_types_scopes.specs.Known.{known};
ghost use Rattle.c_types_scopes.specs.Answers.{Gives, Leads};
ghost use Rattle.c_types_scopes.specs.States.{state};
ghost use Rattle.c_types_initializers.specs.Initialized.{initialized_view};
ghost use Rattle.c_types_initializers.specs.StaticStores as spec;
ghost use Rattle.c_types_initializers.specs.StaticStores.{stores_view};

use crate::address_constants::static_value;
use crate::object_initializers::Initialized;
use c_layout::{CheckedTerm, InitStore, StaticStore, StaticValue};
use c_types_scopes::{Context, constant_needed, type_fault};
use cc_base::{Memory, Place, Stop};

/// The store of a value at an offset, or the refusal at a place where it is not constant.
fn value_at(equals: Place, offset: u64, value: Option<StaticValue>) -> Result<StaticStore, Stop>
    ensures { Gives static_store_view (spec.value_at equals offset value) result }
{
    match value {
        Some(value) => Ok(StaticStore::Value(offset, value)),
        None => Err(constant_needed(equals)),
    }
}

/// One store of a static initializer, or the refusal at a place.
fn static_store(cx: &Context, equals: Place, store: &InitStore) -> Result<StaticStore, Stop>
    ensures { Gives static_store_view (spec.static_store (known cx.now) equals (store_tree store.now)) result }
{
    match store {
        InitStore::Value(offset, term) => value_at(equals, *offset, static_value(cx, term)),
        InitStore::Copy(_, _) => Err(type_fault(equals)),
        InitStore::Spell(offset, room, bytes) => {
            Ok(StaticStore::Spell(*offset, *room, bytes.copy(cx.alloc)?))
        }
    }
}

/// The stores of a list.
#[tactic(auto, unfolding(crate::specs::StaticStores::stores_from))]
fn list_stores(cx: &Context, equals: Place, list: &[InitStore]) -> Result<Vec<StaticStore>, Stop>
    ensures { Gives stores_view (spec.list_stores (known cx.now) equals (map store_tree list.now)) result }
{
    let mut made = Vec::new(cx.alloc);
    for store in list {
        made.push(static_store(cx, equals, store)?)?;
    }
    Ok(made)
}

/// The store of a static scalar.
fn scalar_store(cx: &Context, equals: Place, term: &CheckedTerm) -> Result<Vec<StaticStore>, Stop>
    ensures { Gives stores_view (spec.scalar_store (known cx.now) equals (term_tree term.now)) result }
{
    let store = value_at(equals, 0, static_value(cx, term))?;
    let mut made = Vec::new(cx.alloc);
    made.push(store)?;
    Ok(made)
}

/// The stores of an initializer, which has to be constant.
fn constant_stores(
    cx: &Context,
    equals: Place,
    made: &Initialized,
) -> Result<Vec<StaticStore>, Stop>
    ensures { Gives stores_view (spec.constant_stores (known cx.now) equals (initialized_view made.now)) result }
{
    match made {
        Initialized::Scalar(term) => scalar_store(cx, equals, term),
        Initialized::Struct(_) => Err(type_fault(equals)),
        Initialized::List(list) => list_stores(cx, equals, list.as_slice()),
    }
}

/// Keeps the expression of a store.
fn keep_store(cx: &mut Context, store: InitStore) -> Result<(), Memory>
    ensures { IfOk result (λ _. state cx.new ≡ spec.with_expression (state cx.old) (store_tree store)) }
{
    match store {
        InitStore::Value(_, term) => {
            cx.constants.push(term)?;
            Ok(())
        }
        InitStore::Copy(_, _) => Ok(()),
        InitStore::Spell(_, _, _) => Ok(()),
    }
}

/// Keeps the expressions of a list: no run evaluates them.
#[tactic(auto, using(crate::proofs::StoreLists::list_more), unfolding(crate::specs::StaticStores::with_list))]
fn keep_list(cx: &mut Context, list: Vec<InitStore>) -> Result<(), Memory>
    ensures { IfOk result (λ _. state cx.new ≡ spec.with_list (state cx.old) (map store_tree list.items)) }
{
    for store in list {
        keep_store(cx, store)?;
    }
    Ok(())
}

/// Keeps the expressions of a static initializer: no run evaluates them.
fn keep_expressions(cx: &mut Context, made: Initialized) -> Result<(), Memory>
    ensures { IfOk result (λ _. state cx.new ≡ spec.with_expressions (state cx.old) (initialized_view made)) }
{
    match made {
        Initialized::Scalar(term) => cx.keep_constant(term),
        Initialized::Struct(_) => Ok(()),
        Initialized::List(list) => keep_list(cx, list),
    }
}

/// The stores of a static initializer, which has to be constant; else the refusal at its `=`. Its
/// expressions are kept for the syntactic rules.
pub fn static_stores(
    cx: &mut Context,
    equals: Place,
    made: Initialized,
) -> Result<Vec<StaticStore>, Stop>
    ensures { Leads stores_view (spec.static_stores equals (initialized_view made) (state cx.old)) result (state cx.new) }
{
    let stores = constant_stores(cx, equals, &made)?;
    keep_expressions(cx, made)?;
    Ok(stores)
}
