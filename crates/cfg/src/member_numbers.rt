//! The offsets and ends of the members of structs.
ghost use Rattle.std.specs.Prelude.{◌≡◌, ◌++◌, IfOk, map};
ghost use Rattle.c_layout.specs.StructViews.{field_view, struct_view, structs_view};
ghost use Rattle.cfg.specs.StructNumbers.{field_numbers, fields_numbers, struct_numbers, structs_numbers};

use c_layout::{Field, StructType, Structs, type_bytes};
use std::alloc::AllocError;

fn push_field(
    out: &mut Vec<i128>,
    field: &Field,
    structs: &Structs,
    pointer: u8,
) -> Result<(), AllocError>
    ensures { IfOk result (λ _. out.new.items ≡ out.old.items ++ field_numbers (structs_view structs.now) pointer (field_view field.now)) }
{
    let size = type_bytes(&field.ctype, structs, pointer)?;
    let end = field.offset.checked_add(size).ok_or(AllocError)?;
    out.push(field.offset as i128)?;
    out.push(end as i128)?;
    Ok(())
}

fn push_fields(
    out: &mut Vec<i128>,
    fields: &[Field],
    structs: &Structs,
    pointer: u8,
) -> Result<(), AllocError>
    ensures { IfOk result (λ _. out.new.items ≡ out.old.items ++ fields_numbers (structs_view structs.now) pointer (map field_view fields.now)) }
{
    for at in 0..fields.len() {
        push_field(out, &fields[at], structs, pointer)?;
    }
    Ok(())
}

fn push_struct(
    out: &mut Vec<i128>,
    found: &StructType,
    structs: &Structs,
    pointer: u8,
) -> Result<(), AllocError>
    ensures { IfOk result (λ _. out.new.items ≡ out.old.items ++ struct_numbers (structs_view structs.now) pointer (struct_view found.now)) }
{
    if found.complete {
        push_fields(out, found.fields.as_slice(), structs, pointer)
    } else {
        Ok(())
    }
}

/// Adds the offset and the end of each member of each complete struct.
pub(crate) fn push_structs(
    out: &mut Vec<i128>,
    structs: &Structs,
    pointer: u8,
) -> Result<(), AllocError>
    ensures { IfOk result (λ _. out.new.items ≡ out.old.items ++ structs_numbers (structs_view structs.now) pointer (structs_view structs.now)) }
{
    for at in 0..structs.items.len() {
        push_struct(out, &structs.items[at], structs, pointer)?;
    }
    Ok(())
}
