//! Abstract integers: lattices whose values stand for sets of numbers.
ghost use Rattle.std.specs.Prelude.{◌≡◌, ◌≤ℤ◌, ℤ, true, Option};
ghost use Rattle.cc_base.specs.IntegerTypes.{is_size};
ghost use Rattle.cc_base.specs.IntegerDomains.{IntegersOf, IsNear, BoundLaws, RangeLaws};

use crate::int_types::IntType;
use crate::integer_operators::{IntOp, Rel, Tri, UnOp};
use crate::lattices::Lattice;

/// A lattice of sets of integers. Each value but the least one has two bounds, and each operation
/// gives a value that holds every result of the operation on numbers of its operands.
///
/// What the calls compute is one record, `numbers`; generic code is proved from the laws alone.
/// `stands` says which numbers a value stands for.
pub trait IntDomain: Lattice {
    ghost numbers: { IntegersOf Self };

    ghost stands: { Self → ℤ → Type 0 };

    /// The value that stands for `n` alone.
    fn one(n: i128) -> Self
        ensures { result ≡ numbers.one n };

    /// The least value that stands for each number from `lo` to `hi`.
    fn between(lo: i128, hi: i128) -> Self
        requires { lo ≤ℤ hi }
        ensures { result ≡ numbers.between lo hi };

    /// The least and the greatest number, and `None` for the least value.
    fn bounds(self) -> Option<(i128, i128)>
        ensures { result ≡ numbers.bounds self };

    /// A binary operator at a type. The result lies in the range of the type.
    fn arith(self, op: IntOp, other: Self, kind: IntType) -> Self
        requires left { IsNear (numbers.bounds self) }
        requires right { IsNear (numbers.bounds other) }
        requires size { is_size kind.bytes ≡ true }
        ensures { result ≡ numbers.arith op self other kind };

    /// A unary operator at a type. The result lies in the range of the type.
    fn unary(self, op: UnOp, kind: IntType) -> Self
        requires near { IsNear (numbers.bounds self) }
        requires size { is_size kind.bytes ≡ true }
        ensures { result ≡ numbers.unary op self kind };

    /// The conversion to a type (6.3.1.3). The result lies in the range of the type.
    fn convert(self, to: IntType) -> Self
        requires near { IsNear (numbers.bounds self) }
        requires size { is_size to.bytes ≡ true }
        ensures { result ≡ numbers.convert self to };

    /// Which truth values the relation can have between a number of `self` and one of `other`.
    /// `Never` exactly where one of them stands for nothing.
    fn compare(self, rel: Rel, other: Self) -> Tri
        ensures { result ≡ numbers.compare rel self other };

    /// The numbers of `self` that have the relation to some number of `other`.
    fn refine(self, rel: Rel, other: Self) -> Self
        requires left { IsNear (numbers.bounds self) }
        requires right { IsNear (numbers.bounds other) }
        ensures { result ≡ numbers.refine rel self other };

    ghost bounding: { BoundLaws Self.lattice numbers stands };

    ghost ranges: { RangeLaws Self.lattice numbers };
}
