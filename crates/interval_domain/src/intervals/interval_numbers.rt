//! Intervals as the integers of the analysis.
ghost use Rattle.std.specs.Prelude.{◌≡◌, ◌≤ℤ◌, ◌+ℤ◌, ◌-ℤ◌, true, Some};
ghost use Rattle.cc_base.specs.IntegerTypes.{is_size, least_of, greatest_of};
ghost use Rattle.cc_base.specs.IntegerDomains.{IsNear};
ghost use Rattle.interval_domain.specs.Intervals.Spans.{Stands, interval_bounds};
ghost use Rattle.interval_domain.specs.Intervals.Relations.{interval_compare, interval_refine};
ghost use Rattle.interval_domain.specs.Intervals.Exactness.{IsBestArith, IsBestUnary, IsBestConversion, IsExactCompare, IsBestRefinement};
ghost use Rattle.interval_domain.specs.Intervals.Arithmetic.{arith_spans, unary_span, wrapped, interval_arith, interval_unary, interval_convert};
ghost use Rattle.interval_domain.specs.Intervals.IntervalNumbers.{interval_numbers, interval_bounding, interval_ranges};

use crate::intervals::intervals::{Interval, between_or_empty};
use crate::intervals::span_arithmetic::{clamped, differences, into, sums, wrapped};
use crate::intervals::span_bits::{conjunctions, disjunctions, exclusives};
use crate::intervals::span_division::{quotients, remainders, shifted_left, shifted_right};
use crate::intervals::span_products::products;
use crate::intervals::span_relations::{can_hold, opposite, refined};
use crate::intervals::spans::Span;
use cc_base::{IntDomain, IntOp, IntType, Rel, Tri, UnOp};

/// A binary operator on a number of `s` and one of `t`, at a type.
fn arith_spans(op: IntOp, kind: IntType, s: Span, t: Span) -> Interval
    requires size { is_size kind.bytes ≡ true }
    requires left { IsNear (Some (s.lo, s.hi)) }
    requires right { IsNear (Some (t.lo, t.hi)) }
    ensures { result ≡ arith_spans op kind s t }
{
    match op {
        IntOp::Add => sums(kind, s, t),
        IntOp::Sub => differences(kind, s, t),
        IntOp::Mul => products(kind, s, t),
        IntOp::Div => quotients(kind, s, t),
        IntOp::Rem => remainders(kind, s, t),
        IntOp::And => conjunctions(kind, s, t),
        IntOp::Or => disjunctions(kind, s, t),
        IntOp::Xor => exclusives(kind, s, t),
        IntOp::Shl => shifted_left(kind, s, t),
        IntOp::Shr => shifted_right(kind, s, t),
    }
}

/// The negatives of the numbers of `s`.
fn negations(kind: IntType, s: Span) -> Interval
    requires size { is_size kind.bytes ≡ true }
    requires near { IsNear (Some (s.lo, s.hi)) }
    ensures { result ≡ unary_span UnOp.Neg kind s }
{
    into(kind, -s.hi, -s.lo)
}

/// `n` mirrored at the middle of the type.
fn mirrored(kind: IntType, n: i128) -> i128
    requires size { is_size kind.bytes ≡ true }
    requires near { IsNear (Some (n, n)) }
    ensures { result ≡ (least_of kind +ℤ greatest_of kind) -ℤ n }
{
    kind.least() + kind.greatest() - n
}

/// The complements of the numbers of `s`.
fn complements(kind: IntType, s: Span) -> Interval
    requires size { is_size kind.bytes ≡ true }
    requires near { IsNear (Some (s.lo, s.hi)) }
    ensures { result ≡ unary_span UnOp.Compl kind s }
{
    clamped(kind, mirrored(kind, s.hi), mirrored(kind, s.lo))
}

fn unary_span(op: UnOp, kind: IntType, s: Span) -> Interval
    requires size { is_size kind.bytes ≡ true }
    requires near { IsNear (Some (s.lo, s.hi)) }
    ensures { result ≡ unary_span op kind s }
{
    match op {
        UnOp::Neg => negations(kind, s),
        UnOp::Compl => complements(kind, s),
    }
}

/// The numbers of `s` converted to a type.
fn conversions(kind: IntType, s: Span) -> Interval
    requires size { is_size kind.bytes ≡ true }
    requires near { IsNear (Some (s.lo, s.hi)) }
    ensures { result ≡ wrapped kind s.lo s.hi }
{
    wrapped(kind, s.lo, s.hi)
}

fn interval_arith(op: IntOp, x: Interval, y: Interval, kind: IntType) -> Interval
    requires left { IsNear (interval_bounds x) }
    requires right { IsNear (interval_bounds y) }
    requires size { is_size kind.bytes ≡ true }
    ensures { result ≡ interval_arith op x y kind }
{
    match (x, y) {
        (Interval::Of(s), Interval::Of(t)) => arith_spans(op, kind, s, t),
        _ => Interval::Bottom,
    }
}

fn interval_unary(op: UnOp, x: Interval, kind: IntType) -> Interval
    requires near { IsNear (interval_bounds x) }
    requires size { is_size kind.bytes ≡ true }
    ensures { result ≡ interval_unary op x kind }
{
    match x {
        Interval::Bottom => Interval::Bottom,
        Interval::Of(s) => unary_span(op, kind, s),
    }
}

fn interval_convert(x: Interval, to: IntType) -> Interval
    requires near { IsNear (interval_bounds x) }
    requires size { is_size to.bytes ≡ true }
    ensures { result ≡ interval_convert x to }
{
    match x {
        Interval::Bottom => Interval::Bottom,
        Interval::Of(s) => conversions(to, s),
    }
}

fn interval_compare(rel: Rel, x: Interval, y: Interval) -> Tri
    ensures { result ≡ interval_compare rel x y }
{
    match (x, y) {
        (Interval::Of(s), Interval::Of(t)) => Tri::of(
            can_hold(rel, s, t),
            can_hold(opposite(rel), s, t),
        ),
        _ => Tri::Never,
    }
}

fn interval_refine(rel: Rel, x: Interval, y: Interval) -> Interval
    requires left { IsNear (interval_bounds x) }
    requires right { IsNear (interval_bounds y) }
    ensures { result ≡ interval_refine rel x y }
{
    match (x, y) {
        (Interval::Of(s), Interval::Of(t)) => refined(rel, s, t),
        _ => Interval::Bottom,
    }
}

impl IntDomain for Interval {
    ghost numbers = { interval_numbers };

    ghost stands = { Stands };

    ghost bounding = { interval_bounding };

    ghost ranges = { interval_ranges };

    fn one(n: i128) -> Self {
        between_or_empty(n, n)
    }

    fn between(lo: i128, hi: i128) -> Self {
        between_or_empty(lo, hi)
    }

    fn bounds(self) -> Option<(i128, i128)> {
        match self {
            Interval::Bottom => None,
            Interval::Of(s) => Some((s.lo, s.hi)),
        }
    }

    fn arith(self, op: IntOp, other: Self, kind: IntType) -> Self
        requires left { IsNear (interval_bounds self) }
        requires right { IsNear (interval_bounds other) }
        requires size { is_size kind.bytes ≡ true }
        ensures value { result ≡ interval_arith op self other kind }
        ensures best { IsBestArith op self other kind result }
    {
        interval_arith(op, self, other, kind)
    }

    fn unary(self, op: UnOp, kind: IntType) -> Self
        requires near { IsNear (interval_bounds self) }
        requires size { is_size kind.bytes ≡ true }
        ensures value { result ≡ interval_unary op self kind }
        ensures best { IsBestUnary op self kind result }
    {
        interval_unary(op, self, kind)
    }

    fn convert(self, to: IntType) -> Self
        requires near { IsNear (interval_bounds self) }
        requires size { is_size to.bytes ≡ true }
        ensures value { result ≡ interval_convert self to }
        ensures best { IsBestConversion self to result }
    {
        interval_convert(self, to)
    }

    fn compare(self, rel: Rel, other: Self) -> Tri
        ensures value { result ≡ interval_compare rel self other }
        ensures exact { IsExactCompare rel self other result }
    {
        interval_compare(rel, self, other)
    }

    fn refine(self, rel: Rel, other: Self) -> Self
        requires left { IsNear (interval_bounds self) }
        requires right { IsNear (interval_bounds other) }
        ensures value { result ≡ interval_refine rel self other }
        ensures best { IsBestRefinement rel self other result }
    {
        interval_refine(rel, self, other)
    }
}
