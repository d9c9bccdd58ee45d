//! Extents, numbers and types that are in range; truths that are the same.
ghost use Rattle.std.specs.Prelude.{◌≡◌};
ghost use Rattle.cc_base.specs.IntegerTypes.{is_size};
ghost use Rattle.c_layout.specs.Leaves.{class_of};
ghost use Rattle.cfg.specs.BaseShapes.{is_extent, same_truth};
ghost use Rattle.cfg.specs.ModelKinds as kinds;
ghost use Rattle.cfg.specs.WellFormed as spec;

use c_layout::{Class, Model};
use cc_base::IntType;
use cfg::Scalar;

/// Whether two truths are the same.
pub fn same_truth(a: bool, b: bool) -> bool
    ensures { result ≡ same_truth a b }
{
    if a { b } else { !b }
}

/// Whether a number may be an offset, a size or a scale.
pub fn is_extent(n: u64) -> bool
    ensures { result ≡ is_extent n }
{
    n <= 1 << 30
}

/// Whether a size that may be given is one.
pub fn is_optional_extent(size: Option<u64>) -> bool
    ensures { result ≡ spec.is_optional_extent size }
{
    match size {
        None => true,
        Some(n) => is_extent(n),
    }
}

/// Whether some integer type has a number.
pub fn is_number(n: i128) -> bool
    ensures { result ≡ spec.is_number n }
{
    -9_223_372_036_854_775_808 <= n && n <= 18_446_744_073_709_551_615
}

/// The size of a scalar of a class.
pub fn class_bytes(model: &Model, class: Class) -> u8
    ensures { result ≡ kinds.class_bytes model.now class }
{
    match class {
        Class::Char => 1,
        Class::Short => model.short,
        Class::Int => model.int,
        Class::Long => model.long,
        Class::LongLong => model.long_long,
        Class::Pointer => model.pointer,
    }
}

fn class_number(class: Class) -> u8
    ensures { result ≡ kinds.class_number class }
{
    match class {
        Class::Char => 0,
        Class::Short => 1,
        Class::Int => 2,
        Class::Long => 3,
        Class::LongLong => 4,
        Class::Pointer => 5,
    }
}

/// Whether two classes are the same.
pub fn same_class(a: Class, b: Class) -> bool
    ensures { result ≡ kinds.same_class a b }
{
    class_number(a) == class_number(b)
}

/// The class of an integer type.
pub fn class_of(kind: IntType) -> Class
    ensures { result ≡ class_of kind }
{
    if kind.rank == 1 {
        Class::Char
    } else if kind.rank == 2 {
        Class::Short
    } else if kind.rank == 3 {
        Class::Int
    } else if kind.rank == 4 {
        Class::Long
    } else {
        Class::LongLong
    }
}

fn is_size(bytes: u8) -> bool
    ensures { result ≡ is_size bytes }
{
    bytes == 1 || (bytes == 2 || (bytes == 4 || bytes == 8))
}

/// Whether an integer type is one of the model's.
pub fn is_int_type(model: &Model, kind: IntType) -> bool
    ensures { result ≡ kinds.is_int_type model.now kind }
{
    is_size(kind.bytes)
        && (kind.bytes == class_bytes(model, class_of(kind)) && (1 <= kind.rank && kind.rank <= 5))
}

/// Whether a type that may be given is one.
pub fn is_common(model: &Model, kind: Option<IntType>) -> bool
    ensures { result ≡ spec.is_common model.now kind }
{
    match kind {
        None => true,
        Some(kind) => is_int_type(model, kind),
    }
}

/// Whether a scalar is a pointer or of such an integer type.
pub fn is_scalar(model: &Model, kind: Scalar) -> bool
    ensures { result ≡ spec.is_scalar model.now kind }
{
    match kind {
        Scalar::Int(kind) => is_int_type(model, kind),
        Scalar::Pointer => true,
    }
}
