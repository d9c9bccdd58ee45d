//! Structs that are known to hold only known ones.
ghost use Rattle.std.specs.Prelude.{◌≡◌, map};
ghost use Rattle.c_layout.specs.StructViews.{field_view, structs_view, struct_at};
ghost use Rattle.c_layout.specs.Types.{view};
ghost use Rattle.analysis_preconditions.specs.StructNesting.OrderedStructs.{is_made_of, are_made_of};
ghost use Rattle.analysis_preconditions.specs.StructNesting.KnownStructs as spec;

use c_layout::{CType, Field, Structs};

/// Whether a struct of the table is known.
pub fn is_known(known: &[bool], index: u32) -> bool
    ensures { result ≡ spec.is_known known.now index }
{
    match known.get(index as usize) {
        None => false,
        Some(found) => *found,
    }
}

/// Whether a type is a scalar or a known struct, through arrays.
fn is_made_of_known(known: &[bool], t: &CType) -> bool
    ensures { result ≡ is_made_of (spec.is_known known.now) (view t.now) }
{
    match t {
        CType::Int(_) | CType::Pointer(_) => true,
        CType::Array(element, _) => is_made_of_known(known, element),
        CType::Struct(index) => is_known(known, *index),
        CType::Void => false,
    }
}

/// Whether members are of scalars and known structs alone.
fn are_made_of_known(known: &[bool], members: &[Field]) -> bool
    ensures { result ≡ are_made_of (spec.is_known known.now) (map field_view members.now) }
{
    for at in 0..members.len() {
        if !is_made_of_known(known, &members[at].ctype) {
            return false;
        }
    }
    true
}

fn has_known_members(structs: &Structs, known: &[bool], at: usize) -> bool
    ensures { result ≡ are_made_of (spec.is_known known.now) (struct_at (structs_view structs.now) at).fields }
{
    match structs.items.get(at) {
        None => true,
        Some(found) => are_made_of_known(known, found.fields.as_slice()),
    }
}

/// Makes a struct known that is not, where it holds known ones alone.
pub fn mark(structs: &Structs, known: &mut [bool], at: usize)
    ensures { known.new ≡ spec.marked (structs_view structs.now) known.old at }
{
    if at < known.len() {
        if !known[at] {
            if has_known_members(structs, known, at) {
                known[at] = true;
            }
        }
    }
}
