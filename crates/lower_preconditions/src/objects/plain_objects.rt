//! Whether the objects of static storage of a unit are plain.
ghost use Rattle.std.specs.Prelude.{◌≡◌, IfErr, IfOk, false, map, true};
ghost use Rattle.std.specs.List.{list_all};
ghost use Rattle.c_layout.specs.CheckedUnits.{static_view, unit_view};
ghost use Rattle.lower_preconditions.specs.Objects.PlainObjects as spec;

use crate::objects::plain_stores::are_plain_stores;
use crate::objects::plain_types::{are_plain_structs, has_model_kind};
use c_layout::{Checked, Model, StaticObject};
use std::alloc::AllocError;

fn is_plain_object(model: &Model, object: &StaticObject) -> bool
    ensures { result ≡ spec.is_plain_object model.now (static_view object.now) }
{
    has_model_kind(model, &object.ctype) && are_plain_stores(model, object.stores.as_slice())
}

fn are_plain_objects(model: &Model, objects: &[StaticObject]) -> bool
    ensures { result ≡ list_all (spec.is_plain_object model.now) (map static_view objects.now) }
{
    for at in 0..objects.len() {
        if !is_plain_object(model, &objects[at]) {
            return false;
        }
    }
    true
}

/// Whether the objects of static storage of a unit are plain, told in one pass over structs, objects
/// and initial values.
fn has_plain_objects(unit: &Checked) -> bool
    ensures { result ≡ spec.has_plain_objects (unit_view unit.now) }
{
    u32::try_from(unit.objects.len()).is_ok()
        && (are_plain_structs(unit.structs.items.as_slice())
            && are_plain_objects(&unit.model, unit.objects.as_slice()))
}

/// Goes on where the objects of static storage are plain: there are at most 4,294,967,295, their
/// integer types are the model's, arrays have lengths and complete structs bytes, and initial values
/// are of their types (6.7.9 of ISO/IEC 9899:2011). Typing makes no others; one would come to want of
/// memory.
pub fn with_plain_objects(unit: &Checked) -> Result<(), AllocError>
    ensures plain { IfOk result (λ made. spec.has_plain_objects (unit_view unit.now) ≡ true) }
    ensures other { IfErr result (λ why. spec.has_plain_objects (unit_view unit.now) ≡ false) }
{
    if has_plain_objects(unit) {
        Ok(())
    } else {
        Err(AllocError)
    }
}
