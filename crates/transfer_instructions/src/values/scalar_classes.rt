//! Scalars of instructions, by class.
ghost use Rattle.std.specs.Prelude.{◌≡◌, true};
ghost use Rattle.cc_base.specs.IntegerTypes.{is_size};
ghost use Rattle.transfer_instructions.specs.Values.Scalars.{class_of_kind, class_of, minds_blank};

use c_layout::Class;
use cc_base::IntType;
use cfg::Scalar;
use store::same_class;

/// The class of an integer type.
pub fn class_of_kind(kind: IntType) -> Class
    ensures { result ≡ class_of_kind kind }
{
    match kind.rank {
        1 => Class::Char,
        2 => Class::Short,
        3 => Class::Int,
        4 => Class::Long,
        _ => Class::LongLong,
    }
}

/// The class of a scalar, and whether it is signed. Pointers are not.
pub fn class_of(scalar: Scalar) -> (Class, bool)
    ensures { result ≡ class_of scalar }
{
    match scalar {
        Scalar::Int(kind) => (class_of_kind(kind), kind.signed),
        Scalar::Pointer => (Class::Pointer, false),
    }
}

/// Whether the type has 1, 2, 4 or 8 bytes, as each type of a flow has.
pub fn is_sized(kind: IntType) -> bool
    ensures { result ≡ is_size kind.bytes }
{
    match kind.bytes {
        1 | 2 | 4 | 8 => true,
        _ => false,
    }
}

/// Whether a load of the scalar may not read an indeterminate byte: of unsigned char it stops there
/// and violates nothing.
pub fn minds_blank(class: Class, signed: bool) -> bool
    ensures { result ≡ minds_blank class signed }
{
    !same_class(class, Class::Char) || signed
}
