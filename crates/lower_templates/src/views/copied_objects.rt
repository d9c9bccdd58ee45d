//! Copies of the first bytes of objects and literals.
ghost use Rattle.std.specs.Prelude.{◌≡◌, IfOk, map};
ghost use Rattle.c_layout.specs.CheckedUnits.{static_store_view};
ghost use Rattle.lower_templates.specs.Views.ProgramViews.{bytes, initial};

use c_layout::StaticStore;
use cfg::{InitialObject, InitialValue};
use std::alloc::{AllocError, Global};

fn store_copy(alloc: Global, store: &StaticStore) -> Result<StaticStore, AllocError>
    ensures { IfOk result (λ s. static_store_view s ≡ static_store_view store.now) }
{
    match store {
        StaticStore::Value(offset, value) => Ok(StaticStore::Value(*offset, *value)),
        StaticStore::Spell(offset, room, text) => {
            let text = text.copy(alloc)?;
            Ok(StaticStore::Spell(*offset, *room, text))
        }
    }
}

/// The same stores.
pub fn store_copies(alloc: Global, stores: &[StaticStore]) -> Result<Vec<StaticStore>, AllocError>
    ensures { IfOk result (λ v. map static_store_view v.items ≡ map static_store_view stores.now) }
{
    let mut list = Vec::new(alloc);
    for store in stores {
        let store = store_copy(alloc, store)?;
        list.push(store)?;
    }
    Ok(list)
}

fn value_copy(alloc: Global, value: &InitialValue) -> Result<InitialValue, AllocError>
    ensures { IfOk result (λ v. bytes v ≡ bytes value.now) }
{
    match value {
        InitialValue::Stores(stores) => {
            let stores = store_copies(alloc, stores.as_slice())?;
            Ok(InitialValue::Stores(stores))
        }
        InitialValue::Literal(text) => {
            let text = text.copy(alloc)?;
            Ok(InitialValue::Literal(text))
        }
    }
}

fn object_copy(alloc: Global, object: &InitialObject) -> Result<InitialObject, AllocError>
    ensures { IfOk result (λ o. initial o ≡ initial object.now) }
{
    Ok(InitialObject {
        object: object.object,
        size: object.size,
        base: object.base,
        value: value_copy(alloc, &object.value)?,
    })
}

/// The same objects with the same first bytes.
pub fn object_copies(
    alloc: Global,
    objects: &[InitialObject],
) -> Result<Vec<InitialObject>, AllocError>
    ensures { IfOk result (λ v. map initial v.items ≡ map initial objects.now) }
{
    let mut list = Vec::new(alloc);
    for object in objects {
        let copy = object_copy(alloc, object)?;
        list.push(copy)?;
    }
    Ok(list)
}
