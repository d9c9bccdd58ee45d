//! The integer types of a data model (6.2.5, 6.3.1.1 and 6.3.1.8 of ISO/IEC 9899:2011).
ghost use Rattle.std.specs.Prelude.{◌≡◌, true, false};
ghost use Rattle.c_types_rules.specs.Rules.IntegerKinds.{bytes_of, number_of, kind_of, promoted, mixed, joined, common, size_rank};
ghost use Rattle.c_types_rules.specs.declared.rules.integer_kinds.Rank.TheVariants as rank;

use c_layout::Model;
use cc_base::IntType;

/// The ranks of the integer types, from the least one on.
#[derive(Clone, Copy, PartialEq, Eq, Debug)]
pub enum Rank {
    Char,
    Short,
    Int,
    Long,
    LongLong,
}

impl Rank {
    fn bytes(self, model: &Model) -> u8
        ensures { result ≡ bytes_of model.now self }
    {
        match self {
            Rank::Char => 1,
            Rank::Short => model.short,
            Rank::Int => model.int,
            Rank::Long => model.long,
            Rank::LongLong => model.long_long,
        }
    }

    /// The rank as a number, from 1 on.
    pub fn number(self) -> u8
        ensures { result ≡ number_of self }
    {
        match self {
            Rank::Char => 1,
            Rank::Short => 2,
            Rank::Int => 3,
            Rank::Long => 4,
            Rank::LongLong => 5,
        }
    }
}

/// The integer type of a rank, signed or not.
pub fn integer_kind(model: &Model, rank: Rank, signed: bool) -> IntType
    ensures { result ≡ kind_of model.now rank signed }
{
    IntType {
        bytes: rank.bytes(model),
        signed,
        rank: rank.number(),
    }
}

/// `int`.
pub fn int_kind(model: &Model) -> IntType
    ensures { result ≡ kind_of model.now rank.Int true }
{
    integer_kind(model, Rank::Int, true)
}

/// Plain `char`.
pub fn char_kind(model: &Model) -> IntType
    ensures { result ≡ kind_of model.now rank.Char model.now.char_signed }
{
    integer_kind(model, Rank::Char, model.char_signed)
}

/// The first of long, int and long long that has the size of a pointer.
fn size_rank(model: &Model) -> Rank
    ensures { result ≡ size_rank model.now }
{
    if model.long == model.pointer {
        Rank::Long
    } else if model.int == model.pointer {
        Rank::Int
    } else {
        Rank::LongLong
    }
}

/// `size_t` (7.19).
pub fn size_kind(model: &Model) -> IntType
    ensures { result ≡ kind_of model.now (size_rank model.now) false }
{
    integer_kind(model, size_rank(model), false)
}

/// `ptrdiff_t` (7.19).
pub fn difference_kind(model: &Model) -> IntType
    ensures { result ≡ kind_of model.now (size_rank model.now) true }
{
    integer_kind(model, size_rank(model), true)
}

/// The type to which the integer promotions take a type (6.3.1.1).
pub fn promoted(model: &Model, kind: IntType) -> IntType
    ensures { result ≡ promoted model.now kind }
{
    if kind.rank < 3 {
        integer_kind(model, Rank::Int, kind.signed || kind.bytes < model.int)
    } else {
        kind
    }
}

/// The common type of a signed and an unsigned type.
fn mixed(signed: IntType, unsigned: IntType) -> IntType
    ensures { result ≡ mixed signed unsigned }
{
    if signed.rank <= unsigned.rank {
        unsigned
    } else if unsigned.bytes < signed.bytes {
        signed
    } else {
        IntType {
            bytes: signed.bytes,
            signed: false,
            rank: signed.rank,
        }
    }
}

/// The common type of two promoted types.
fn joined(a: IntType, b: IntType) -> IntType
    ensures { result ≡ joined a b }
{
    if a.signed == b.signed {
        return if b.rank <= a.rank { a } else { b };
    }
    if a.signed { mixed(a, b) } else { mixed(b, a) }
}

/// The type to which the usual arithmetic conversions take two types (6.3.1.8).
pub fn common_kind(model: &Model, a: IntType, b: IntType) -> IntType
    ensures { result ≡ common model.now a b }
{
    joined(promoted(model, a), promoted(model, b))
}
