//! Copies of bases.
ghost use Rattle.std.specs.Prelude.{◌≡◌, IfOk};

use c_layout::{BaseInfo, Leaves, Shape, ZeroParts};
use std::alloc::{AllocError, Global};

fn shape_copy(alloc: Global, shape: &Shape) -> Result<Shape, AllocError>
    ensures { IfOk result (λ s. s ≡ shape.now) }
{
    let cells = Vec::from_slice(alloc, shape.cells.as_slice())?;
    let zeros = Vec::from_slice(alloc, shape.zeros.as_slice())?;
    Ok(Shape {
        cells: Leaves::from_vec(cells),
        zeros: ZeroParts::from_vec(zeros),
        heap: shape.heap,
    })
}

fn base_copy(alloc: Global, base: &BaseInfo) -> Result<BaseInfo, AllocError>
    ensures { IfOk result (λ b. b ≡ base.now) }
{
    Ok(BaseInfo {
        kind: base.kind,
        size: base.size,
        first: base.first,
        shape: shape_copy(alloc, &base.shape)?,
    })
}

/// The same bases.
pub fn base_copies(alloc: Global, bases: &[BaseInfo]) -> Result<Vec<BaseInfo>, AllocError>
    ensures { IfOk result (λ v. v.items ≡ bases.now) }
{
    let mut list = Vec::new(alloc);
    for base in bases {
        let copy = base_copy(alloc, base)?;
        list.push(copy)?;
    }
    Ok(list)
}
