//! Sets of types of scalars, of which each integer type is told by its size and its sign.
ghost use Rattle.std.specs.Prelude.{◌≡◌, true};
ghost use Rattle.cc_base.specs.IntegerTypes.{is_size};
ghost use Rattle.certificate_programs.specs.Types.KindSets as spec;

use c_layout::{Class, LibFn, Model, Slot};
use cc_base::IntType;
use cfg::Scalar;

/// A set of types: a bit for each size and sign of integers, and one for pointers.
pub type Kinds = u16;

/// No type.
pub const NONE: Kinds = 0;

/// The type of pointers.
pub const POINTER: Kinds = 256;

/// The integers of a size, signed or not.
fn integers_of(bytes: u8, signed: bool) -> Kinds
    ensures { result ≡ spec.integers_of bytes signed }
{
    match (bytes, signed) {
        (1, true) => 1,
        (1, false) => 2,
        (2, true) => 4,
        (2, false) => 8,
        (4, true) => 16,
        (4, false) => 32,
        (_, true) => 64,
        (_, false) => 128,
    }
}

/// An integer type.
pub fn integers(kind: IntType) -> Kinds
    ensures { result ≡ spec.integers kind }
{
    integers_of(kind.bytes, kind.signed)
}

/// The type of a scalar.
pub fn scalars(scalar: Scalar) -> Kinds
    ensures { result ≡ spec.scalars scalar }
{
    match scalar {
        Scalar::Int(kind) => integers(kind),
        Scalar::Pointer => POINTER,
    }
}

/// The type of int.
pub fn int(model: &Model) -> Kinds
    ensures { result ≡ spec.int model.now }
{
    integers_of(model.int, true)
}

/// The type of the differences of pointers.
pub fn differences(model: &Model) -> Kinds
    ensures { result ≡ spec.differences model.now }
{
    integers_of(model.pointer, true)
}

/// The type of sizes.
fn sizes(model: &Model) -> Kinds
    ensures { result ≡ spec.sizes model.now }
{
    integers_of(model.pointer, false)
}

/// The type of a class of leaves.
pub fn leaves(model: &Model, class: Class, signed: bool) -> Kinds
    ensures { result ≡ spec.leaves model.now class signed }
{
    match class {
        Class::Char => integers_of(1, signed),
        Class::Short => integers_of(model.short, signed),
        Class::Int => integers_of(model.int, signed),
        Class::Long => integers_of(model.long, signed),
        Class::LongLong => integers_of(model.long_long, signed),
        Class::Pointer => POINTER,
    }
}

/// The type of what a library function gives.
pub fn results(model: &Model, name: LibFn) -> Kinds
    ensures { result ≡ spec.results model.now name }
{
    match name.signature().result {
        Slot::Memory | Slot::Text | Slot::Stream => POINTER,
        Slot::Size => sizes(model),
        Slot::Int | Slot::Void => int(model),
    }
}

/// Whether pointers are among the types.
pub fn has_pointers(kinds: Kinds) -> bool
    ensures { result ≡ spec.has_pointers kinds }
{
    kinds & POINTER != 0
}

/// Whether the integers of a type are among the types.
fn has_integers(kinds: Kinds, kind: IntType) -> bool
    ensures { result ≡ spec.has_integers kinds kind }
{
    kinds & integers(kind) != 0
}

/// The least range with two.
fn ranges_joined(x: Option<(i128, i128)>, y: (i128, i128)) -> Option<(i128, i128)>
    ensures { result ≡ spec.ranges_joined x y }
{
    match x {
        None => Some(y),
        Some((least, greatest)) => Some((least.min(y.0), greatest.max(y.1))),
    }
}

/// The least range with another one and, where they are among the types, with the integers of a size.
fn with_integers(
    range: Option<(i128, i128)>,
    kinds: Kinds,
    bytes: u8,
    signed: bool,
) -> Option<(i128, i128)>
    requires { is_size bytes ≡ true }
    ensures { result ≡ spec.with_integers kinds range (spec.sized bytes signed) }
{
    let kind = IntType {
        bytes,
        signed,
        rank: 0,
    };
    if has_integers(kinds, kind) {
        ranges_joined(range, (kind.least(), kind.greatest()))
    } else {
        range
    }
}

/// The least range with all integers among the types.
pub fn numbers(kinds: Kinds) -> Option<(i128, i128)>
    ensures { result ≡ spec.numbers kinds }
{
    let bytes = with_integers(with_integers(None, kinds, 1, true), kinds, 1, false);
    let shorts = with_integers(with_integers(bytes, kinds, 2, true), kinds, 2, false);
    let ints = with_integers(with_integers(shorts, kinds, 4, true), kinds, 4, false);
    with_integers(with_integers(ints, kinds, 8, true), kinds, 8, false)
}
