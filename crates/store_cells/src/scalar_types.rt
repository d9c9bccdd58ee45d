//! The scalar types of a model, by class.
ghost use Rattle.std.specs.Prelude.{◌≡◌, ◌≤◌, true};
ghost use Rattle.cc_base.specs.IntegerTypes.{is_size};
ghost use Rattle.store_cells.specs.ScalarTypes.{int_bytes, long_bytes, pointer_bytes, class_bytes, class_rank, kind_of};

use c_layout::{Class, Model};
use cc_base::IntType;

fn int_bytes(model: &Model) -> u8
    ensures { result ≡ int_bytes model.now }
{
    if model.int == 2 { 2 } else { 4 }
}

fn long_bytes(model: &Model) -> u8
    ensures { result ≡ long_bytes model.now }
{
    if model.long == 4 { 4 } else { 8 }
}

fn pointer_bytes(model: &Model) -> u8
    ensures { result ≡ pointer_bytes model.now }
{
    if model.pointer == 4 { 4 } else { 8 }
}

fn class_bytes(model: &Model, class: Class) -> u8
    ensures value { result ≡ class_bytes model.now class }
    ensures size { is_size result ≡ true }
{
    match class {
        Class::Char => 1,
        Class::Short => 2,
        Class::Int => int_bytes(model),
        Class::Long => long_bytes(model),
        Class::LongLong => 8,
        Class::Pointer => pointer_bytes(model),
    }
}

fn class_rank(class: Class) -> u8
    ensures { result ≡ class_rank class }
{
    match class {
        Class::Pointer => 0,
        Class::Char => 1,
        Class::Short => 2,
        Class::Int => 3,
        Class::Long => 4,
        Class::LongLong => 5,
    }
}

/// The size in bytes of a scalar of a class, from 1 to 8.
pub fn bytes_of(model: &Model, class: Class) -> u64
    ensures value { result ≡ class_bytes model.now class }
    ensures most { result ≤ 8 }
{
    class_bytes(model, class) as u64
}

/// The integer type of a class and a signedness; of the pointers an integer type of their size.
pub fn kind_of(model: &Model, class: Class, signed: bool) -> IntType
    ensures value { result ≡ kind_of model.now class signed }
    ensures size { is_size result.bytes ≡ true }
{
    IntType {
        bytes: class_bytes(model, class),
        signed,
        rank: class_rank(class),
    }
}
