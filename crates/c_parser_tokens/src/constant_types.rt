//! The type of an integer constant: the first of the list of 6.4.4.1 that has its value.
ghost use Rattle.std.specs.Prelude.{◌≡◌};
ghost use Rattle.c_parser_tokens.specs.ConstantTypes.{bytes_of, greatest, fitting, is_listed, of_rank, type_of, integer_constant};

use crate::integer_forms::{Spelled, read_integer};
use c_layout::{Constant, Model};
use cc_base::IntType;

/// The size of the type of a rank: 3 for int, 4 for long, 5 for long long.
fn bytes_of(model: &Model, rank: u8) -> u8
    ensures { result ≡ bytes_of model.now rank }
{
    match rank {
        3 => model.int,
        4 => model.long,
        _ => model.long_long,
    }
}

/// The greatest number of an integer type.
fn greatest(bytes: u8, signed: bool) -> u64
    ensures { result ≡ greatest bytes signed }
{
    match (bytes, signed) {
        (1, true) => 0x7f,
        (1, false) => 0xff,
        (2, true) => 0x7fff,
        (2, false) => 0xffff,
        (4, true) => 0x7fff_ffff,
        (4, false) => 0xffff_ffff,
        (_, true) => 0x7fff_ffff_ffff_ffff,
        (_, false) => 0xffff_ffff_ffff_ffff,
    }
}

/// The signed or unsigned type of a rank, where it has the value.
fn fitting(model: &Model, rank: u8, signed: bool, value: u64) -> Option<IntType>
    ensures { result ≡ fitting model.now rank signed value }
{
    let bytes = bytes_of(model, rank);
    if value <= greatest(bytes, signed) {
        return Some(IntType {
            bytes,
            signed,
            rank,
        });
    }
    None
}

/// Whether the types of a rank stand in the list of a suffix.
fn is_listed(longs: u8, rank: u8) -> bool
    ensures { result ≡ is_listed longs rank }
{
    match longs {
        0 => true,
        1 => rank >= 4,
        _ => rank >= 5,
    }
}

/// The type of a rank that the list has and that has the value. The signed one goes first.
fn of_rank(model: &Model, constant: Spelled, rank: u8) -> Option<IntType>
    ensures { result ≡ of_rank model.now constant rank }
{
    if !is_listed(constant.suffix.longs, rank) {
        return None;
    }
    if !constant.suffix.is_unsigned {
        if let Some(kind) = fitting(model, rank, true, constant.value) {
            return Some(kind);
        }
    }
    if constant.suffix.is_unsigned || constant.base != 10 {
        return fitting(model, rank, false, constant.value);
    }
    None
}

/// The type of an integer constant; None where no type of its list has its value.
fn type_of(model: &Model, constant: Spelled) -> Option<IntType>
    ensures { result ≡ type_of model.now constant }
{
    if let Some(kind) = of_rank(model, constant, 3) {
        return Some(kind);
    }
    if let Some(kind) = of_rank(model, constant, 4) {
        return Some(kind);
    }
    of_rank(model, constant, 5)
}

/// The integer constant that is spelled so, with its type; None where its form is not in or no type
/// has its value.
pub fn integer_constant(model: &Model, text: &[u8]) -> Option<Constant>
    ensures { result ≡ integer_constant model.now text.now }
{
    let constant = read_integer(text)?;
    let kind = type_of(model, constant)?;
    Some(Constant {
        value: constant.value,
        negative: false,
        kind,
    })
}
