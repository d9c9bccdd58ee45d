//! The leaves that are recorded of structs.
ghost use Rattle.std.specs.Prelude.{◌≡◌, ◌+◌, IfOk, map};
ghost use Rattle.std.specs.List.{list_all};
ghost use Rattle.c_layout.specs.Leaves.{full_count, behind_all};
ghost use Rattle.c_layout.specs.StructLayouts.{plain_unit_count, plain_count};
ghost use Rattle.c_layout.specs.StructViews.{field_view, struct_view, structs_view};
ghost use Rattle.c_layout.specs.Types.{view};
ghost use Rattle.cfg.specs.StructCounts as spec;

use c_layout::{CType, Field, StructType, Structs, count_leaves};
use std::alloc::AllocError;

/// What stands behind all arrays on the outside.
fn behind_all(t: &CType) -> &CType
    ensures { view result.now ≡ behind_all (view t.now) }
{
    match t {
        CType::Array(element, _) => behind_all(element),
        CType::Int(_) | CType::Pointer(_) | CType::Struct(_) | CType::Void => t,
    }
}

/// How many elements those arrays have together.
fn full_count(t: &CType) -> Result<u64, AllocError>
    ensures { IfOk result (λ n. n ≡ full_count (view t.now)) }
{
    match t {
        CType::Array(element, count) => {
            let inner = full_count(element)?;
            count.checked_mul(inner).ok_or(AllocError)
        }
        CType::Int(_) | CType::Pointer(_) | CType::Struct(_) | CType::Void => Ok(1),
    }
}

fn plain_unit_count(t: &CType, structs: &Structs) -> u64
    ensures { result ≡ plain_unit_count (structs_view structs.now) (view t.now) }
{
    match t {
        CType::Struct(index) => match structs.items.get(*index as usize) {
            Some(found) => found.plain_leaves,
            None => 0,
        },
        CType::Int(_) | CType::Pointer(_) | CType::Array(_, _) | CType::Void => 1,
    }
}

/// How many leaves a type has with no array folded.
fn plain_count(t: &CType, structs: &Structs) -> Result<u64, AllocError>
    ensures { IfOk result (λ n. n ≡ plain_count (structs_view structs.now) (view t.now)) }
{
    let count = full_count(t)?;
    let unit = plain_unit_count(behind_all(t), structs);
    count.checked_mul(unit).ok_or(AllocError)
}

fn leaves_of_fields(fields: &[Field], structs: &Structs) -> Result<u64, AllocError>
    ensures { IfOk result (λ n. n ≡ spec.leaves_of_fields (structs_view structs.now) (map field_view fields.now)) }
{
    let mut count: u64 = 0;
    for at in 0..fields.len() {
        let more = count_leaves(&fields[at].ctype, structs)?;
        count = count.checked_add(more).ok_or(AllocError)?;
    }
    Ok(count)
}

fn plain_leaves_of_fields(fields: &[Field], structs: &Structs) -> Result<u64, AllocError>
    ensures { IfOk result (λ n. n ≡ spec.plain_leaves_of_fields (structs_view structs.now) (map field_view fields.now)) }
{
    let mut count: u64 = 0;
    for at in 0..fields.len() {
        let more = plain_count(&fields[at].ctype, structs)?;
        count = count.checked_add(more).ok_or(AllocError)?;
    }
    Ok(count)
}

fn is_counted(found: &StructType, structs: &Structs) -> Result<bool, AllocError>
    ensures { IfOk result (λ b. b ≡ spec.is_counted (structs_view structs.now) (struct_view found.now)) }
{
    let leaves = leaves_of_fields(found.fields.as_slice(), structs)?;
    let plain_leaves = plain_leaves_of_fields(found.fields.as_slice(), structs)?;
    Ok(found.leaves == leaves && found.plain_leaves == plain_leaves)
}

/// Whether the leaves that are recorded of each struct are those of its members.
pub fn are_counted(structs: &Structs) -> Result<bool, AllocError>
    ensures { IfOk result (λ b. b ≡ spec.are_counted (structs_view structs.now)) }
{
    for at in 0..structs.items.len() {
        if !is_counted(&structs.items[at], structs)? {
            return Ok(false);
        }
    }
    Ok(true)
}
