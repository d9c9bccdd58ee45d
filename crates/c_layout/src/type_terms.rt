//! C types.
ghost use Rattle.std.specs.Prelude.{◌≡◌, IfOk};
ghost use Rattle.c_layout.specs.Types.{view, same_type, same_kind};

use cc_base::IntType;
use std::alloc::{AllocError, Global};

/// A type (6.2.5 of ISO/IEC 9899:2011). Qualifiers are dropped from every type, and plain char is
/// the type signed char or unsigned char by the model.
#[derive(Drop)]
pub enum CType {
    Int(IntType),
    Pointer(Box<CType>),
    /// The type of the elements and their number.
    Array(Box<CType>, u64),
    /// The struct with this number in the unit's list.
    Struct(u32),
    Void,
}

impl CType {
    /// A type that is the same.
    pub fn copy(&self, alloc: Global) -> Result<CType, AllocError>
        ensures { IfOk result (λ t. view t ≡ view self.now) }
    {
        match self {
            CType::Int(kind) => Ok(CType::Int(*kind)),
            CType::Pointer(target) => {
                let target = target.copy(alloc)?;
                Ok(CType::Pointer(Box::new(alloc, target)?))
            }
            CType::Array(element, count) => {
                let element = element.copy(alloc)?;
                Ok(CType::Array(Box::new(alloc, element)?, *count))
            }
            CType::Struct(index) => Ok(CType::Struct(*index)),
            CType::Void => Ok(CType::Void),
        }
    }

    /// Whether two types are the same.
    pub fn is_same(&self, other: &CType) -> bool
        ensures { result ≡ same_type (view self.now) (view other.now) }
    {
        match self {
            CType::Int(a) => match other {
                CType::Int(b) => is_kind(*a, *b),
                CType::Pointer(_) | CType::Array(_, _) | CType::Struct(_) | CType::Void => false,
            },
            CType::Pointer(a) => match other {
                CType::Pointer(b) => a.is_same(b),
                CType::Int(_) | CType::Array(_, _) | CType::Struct(_) | CType::Void => false,
            },
            CType::Array(a, m) => match other {
                CType::Array(b, n) => *m == *n && a.is_same(b),
                CType::Int(_) | CType::Pointer(_) | CType::Struct(_) | CType::Void => false,
            },
            CType::Struct(a) => match other {
                CType::Struct(b) => *a == *b,
                CType::Int(_) | CType::Pointer(_) | CType::Array(_, _) | CType::Void => false,
            },
            CType::Void => match other {
                CType::Void => true,
                CType::Int(_) | CType::Pointer(_) | CType::Array(_, _) | CType::Struct(_) => false,
            },
        }
    }
}

fn is_kind(a: IntType, b: IntType) -> bool
    ensures { result ≡ same_kind a b }
{
    a.bytes == b.bytes && (a.signed == b.signed && a.rank == b.rank)
}
