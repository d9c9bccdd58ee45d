//! The leaves of types.
ghost use Rattle.std.specs.Prelude.{◌≡◌, ◌≤◌, ◌<◌, ◌+◌, ◌*◌, ◌++◌, IfOk, true, false, length};
ghost use Rattle.c_layout.specs.Types.{view};
ghost use Rattle.c_layout.specs.Models.{is_model};
ghost use Rattle.c_layout.specs.StructViews.{structs_view};
ghost use Rattle.c_layout.specs.Layout.{size_of_type, is_complete, most_bytes};
ghost use Rattle.c_layout.specs.Leaves.{class_of, is_short, short_count, behind_short, long_count, behind_long, full_count, behind_all};

use crate::type_terms::CType;
use cc_base::IntType;
use std::alloc::AllocError;

/// The classes of scalars: signed and unsigned types share one.
#[derive(Clone, Copy, PartialEq, Eq, PartialOrd, Ord, Debug)]
pub enum Class {
    Char,
    Short,
    Int,
    Long,
    LongLong,
    Pointer,
}

/// A scalar of a type: `count` scalars of one class, the first at `offset` and the others each
/// `stride` bytes behind the one before.
#[derive(Clone, Copy, PartialEq, Eq, Debug)]
pub struct Leaf {
    pub offset: u64,
    pub class: Class,
    pub signed: bool,
    pub stride: u64,
    pub count: u64,
}

/// How often a leaf stands, and how far apart.
#[derive(Clone, Copy)]
pub(crate) struct Places {
    pub(crate) stride: u64,
    pub(crate) count: u64,
}

/// The class of an integer type.
pub(crate) fn class_for(kind: IntType) -> Class
    ensures { result ≡ class_of kind }
{
    if kind.rank == 1 {
        Class::Char
    } else if kind.rank == 2 {
        Class::Short
    } else if kind.rank == 3 {
        Class::Int
    } else if kind.rank == 4 {
        Class::Long
    } else {
        Class::LongLong
    }
}

/// Whether an array of so many elements is not folded.
fn is_short_array(count: u64) -> bool
    ensures { result ≡ is_short count }
{
    count <= 64
}

/// What stands behind the short arrays on the outside.
pub(crate) fn after_short(t: &CType) -> &CType
    ensures { view result.now ≡ behind_short (view t.now) }
{
    match t {
        CType::Array(element, count) => {
            if is_short_array(*count) {
                after_short(element)
            } else {
                t
            }
        }
        CType::Int(_) | CType::Pointer(_) | CType::Struct(_) | CType::Void => t,
    }
}

pub(crate) fn after_long(t: &CType) -> &CType
    ensures { view result.now ≡ behind_long (view t.now) }
{
    match t {
        CType::Array(element, count) => {
            if is_short_array(*count) {
                t
            } else {
                after_long(element)
            }
        }
        CType::Int(_) | CType::Pointer(_) | CType::Struct(_) | CType::Void => t,
    }
}

pub(crate) fn after_all(t: &CType) -> &CType
    ensures { view result.now ≡ behind_all (view t.now) }
{
    match t {
        CType::Array(element, _) => after_all(element),
        CType::Int(_) | CType::Pointer(_) | CType::Struct(_) | CType::Void => t,
    }
}

/// A product; one that no u64 holds comes to want of memory, since no complete type has one.
pub(crate) fn times(a: u64, b: u64) -> Result<u64, AllocError>
    ensures { IfOk result (λ n. n ≡ a * b) }
{
    a.checked_mul(b).ok_or(AllocError)
}

/// A sum; one that no u64 holds comes to want of memory, since no complete type has one.
pub(crate) fn plus(a: u64, b: u64) -> Result<u64, AllocError>
    ensures { IfOk result (λ n. n ≡ a + b) }
{
    a.checked_add(b).ok_or(AllocError)
}

pub(crate) fn count_short(t: &CType) -> Result<u64, AllocError>
    ensures { IfOk result (λ n. n ≡ short_count (view t.now)) }
{
    match t {
        CType::Array(element, count) => {
            if is_short_array(*count) {
                let inner = count_short(element)?;
                Ok(times(*count, inner)?)
            } else {
                Ok(1)
            }
        }
        CType::Int(_) | CType::Pointer(_) | CType::Struct(_) | CType::Void => Ok(1),
    }
}

pub(crate) fn count_long(t: &CType) -> Result<u64, AllocError>
    ensures { IfOk result (λ n. n ≡ long_count (view t.now)) }
{
    match t {
        CType::Array(element, count) => {
            if is_short_array(*count) {
                Ok(1)
            } else {
                let inner = count_long(element)?;
                Ok(times(*count, inner)?)
            }
        }
        CType::Int(_) | CType::Pointer(_) | CType::Struct(_) | CType::Void => Ok(1),
    }
}

pub(crate) fn count_all(t: &CType) -> Result<u64, AllocError>
    ensures { IfOk result (λ n. n ≡ full_count (view t.now)) }
{
    match t {
        CType::Array(element, count) => {
            let inner = count_all(element)?;
            Ok(times(*count, inner)?)
        }
        CType::Int(_) | CType::Pointer(_) | CType::Struct(_) | CType::Void => Ok(1),
    }
}
