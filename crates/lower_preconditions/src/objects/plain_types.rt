//! Whether types are made of the model's integer types, and have lengths.
ghost use Rattle.std.specs.Prelude.{◌≡◌, map};
ghost use Rattle.std.specs.List.{list_all};
ghost use Rattle.c_layout.specs.StructViews.{field_view, struct_view};
ghost use Rattle.c_layout.specs.Types.{view};
ghost use Rattle.lower_preconditions.specs.Objects.PlainObjects as spec;

use c_layout::{CType, Field, Model, StructType};
use cfg_checks::is_int_type;

/// Whether an integer type, also behind arrays, is one of the model's.
pub fn has_model_kind(model: &Model, t: &CType) -> bool
    ensures { result ≡ spec.has_model_kind model.now (view t.now) }
{
    match t {
        CType::Int(kind) => is_int_type(model, *kind),
        CType::Array(element, _) => has_model_kind(model, element),
        CType::Pointer(_) | CType::Struct(_) | CType::Void => true,
    }
}

/// Whether a type that is an array has a length, and its elements too.
fn has_length(t: &CType) -> bool
    ensures { result ≡ spec.has_length (view t.now) }
{
    match t {
        CType::Array(element, count) => 0 < *count && has_length(element),
        CType::Int(_) | CType::Pointer(_) | CType::Struct(_) | CType::Void => true,
    }
}

fn have_lengths(members: &[Field]) -> bool
    ensures { result ≡ list_all (λ f. spec.has_length f.ctype) (map field_view members.now) }
{
    for at in 0..members.len() {
        if !has_length(&members[at].ctype) {
            return false;
        }
    }
    true
}

fn is_plain_struct(made: &StructType) -> bool
    ensures { result ≡ spec.is_plain_struct (struct_view made.now) }
{
    (!made.complete || 0 < made.size) && have_lengths(made.fields.as_slice())
}

/// Whether each complete struct has bytes, and the arrays among its members have lengths.
pub fn are_plain_structs(structs: &[StructType]) -> bool
    ensures { result ≡ list_all spec.is_plain_struct (map struct_view structs.now) }
{
    for at in 0..structs.len() {
        if !is_plain_struct(&structs[at]) {
            return false;
        }
    }
    true
}
