//! Whether initial values are of their types.
ghost use Rattle.std.specs.Prelude.{◌≡◌, map};
ghost use Rattle.std.specs.List.{list_all};
ghost use Rattle.c_layout.specs.CheckedUnits.{static_store_view};
ghost use Rattle.lower_preconditions.specs.Objects.PlainObjects as spec;

use c_layout::{Model, StaticStore, StaticValue};
use cfg_checks::is_int_type;

/// Whether a number is one of its type, which is the model's.
fn is_plain_value(model: &Model, value: StaticValue) -> bool
    ensures { result ≡ spec.is_plain_value model.now value }
{
    match value {
        StaticValue::Number(n, kind) => is_int_type(model, kind) && kind.has(n),
        StaticValue::Null | StaticValue::Address(_, _, _, _) => true,
    }
}

fn is_plain_store(model: &Model, store: &StaticStore) -> bool
    ensures { result ≡ spec.is_plain_store model.now (static_store_view store.now) }
{
    match store {
        StaticStore::Value(_, value) => is_plain_value(model, *value),
        StaticStore::Spell(_, room, _) => 0 < *room,
    }
}

/// Whether the numbers of an initializer are of their types, and its texts have room.
pub fn are_plain_stores(model: &Model, stores: &[StaticStore]) -> bool
    ensures { result ≡ list_all (spec.is_plain_store model.now) (map static_store_view stores.now) }
{
    for at in 0..stores.len() {
        if !is_plain_store(model, &stores[at]) {
            return false;
        }
    }
    true
}
