//! Copies of the structs of a unit.
ghost use Rattle.std.specs.Prelude.{◌≡◌, IfOk, map};
ghost use Rattle.c_layout.specs.StructViews.{field_view, struct_view, structs_view};

use c_layout::{Field, StructType, Structs};
use std::alloc::{AllocError, Global};

fn field_copy(alloc: Global, field: &Field) -> Result<Field, AllocError>
    ensures { IfOk result (λ f. field_view f ≡ field_view field.now) }
{
    Ok(Field {
        name: field.name.copy(alloc)?,
        ctype: field.ctype.copy(alloc)?,
        offset: field.offset,
    })
}

fn field_copies(alloc: Global, fields: &[Field]) -> Result<Vec<Field>, AllocError>
    ensures { IfOk result (λ v. map field_view v.items ≡ map field_view fields.now) }
{
    let mut list = Vec::new(alloc);
    for field in fields {
        let field = field_copy(alloc, field)?;
        list.push(field)?;
    }
    Ok(list)
}

fn struct_copy(alloc: Global, found: &StructType) -> Result<StructType, AllocError>
    ensures { IfOk result (λ s. struct_view s ≡ struct_view found.now) }
{
    Ok(StructType {
        fields: field_copies(alloc, found.fields.as_slice())?,
        complete: found.complete,
        size: found.size,
        align: found.align,
        leaves: found.leaves,
        plain_leaves: found.plain_leaves,
    })
}

fn item_copies(alloc: Global, structs: &[StructType]) -> Result<Vec<StructType>, AllocError>
    ensures { IfOk result (λ v. map struct_view v.items ≡ map struct_view structs.now) }
{
    let mut list = Vec::new(alloc);
    for found in structs {
        let found = struct_copy(alloc, found)?;
        list.push(found)?;
    }
    Ok(list)
}

/// The same structs.
pub fn structure_copies(alloc: Global, structs: &Structs) -> Result<Structs, AllocError>
    ensures { IfOk result (λ s. structs_view s ≡ structs_view structs.now) }
{
    let items = item_copies(alloc, structs.items.as_slice())?;
    Ok(Structs { items })
}
