//! The offset of the first zero byte, its lattice, and what writes and scans make of it.
ghost use Rattle.std.specs.Prelude.{◌≡◌, ◌≤ℤ◌, ◌+ℤ◌, ◌-ℤ◌, pos, ◌&&◌, int_lt, FitsSigned, Some};
ghost use Rattle.std.specs.Ordering.{int_eq};
ghost use Rattle.std.specs.Int.{int_min, w128};
ghost use Rattle.cc_base.specs.IntegerDomains.{IsNear};
ghost use Rattle.cc_base.specs.NumberRanges.{FitsRange, range_difference, range_met};
ghost use Rattle.value_domain.specs.Strings.FirstZeros.{zero_lattice, zero_order, zero_rounding, zero_heights, zero_of, the_end};
ghost use Rattle.value_domain.specs.Strings.ZeroTables.{must_be_zero, cannot_be_zero, is_start, is_before, ends_text_behind, ends_text, is_known_at, is_known, lengths, zero_written, other_written, put_at, text_at, scanned};

use cc_base::{IntDomain, Lattice, Thresholds, Tri, of_range, range_difference, range_met};

/// The offset of no byte, above every offset: the array has no zero byte behind determinate ones.
pub const END: i128 = 0x1_0000_0000_0000_0000;

/// Where the first zero byte of an array can be, counted from its first byte: the first one before
/// which all bytes are determinate, and `END` where there is none.
#[derive(Clone, Copy)]
pub struct FirstZero<I> {
    pub at: I,
}

impl<I: IntDomain> Lattice for FirstZero<I> {
    ghost lattice = { zero_lattice I.lattice };

    ghost order = { zero_order I.order };

    ghost rounding = { zero_rounding I.rounding };

    ghost heights = { zero_heights I.heights };

    fn bottom() -> Self {
        FirstZero { at: I::bottom() }
    }

    fn join(self, other: Self) -> Self {
        FirstZero {
            at: self.at.join(other.at),
        }
    }

    fn leq(self, other: Self) -> bool {
        self.at.leq(other.at)
    }

    fn round(self, list: &Thresholds) -> Self {
        FirstZero {
            at: self.at.round(list),
        }
    }
}

/// The lesser of two numbers, and a number above it.
fn from_lesser(a: i128, b: i128, hi: i128) -> (i128, i128)
    ensures { result ≡ (int_min a b, hi) }
{
    (lesser(a, b), hi)
}

fn lesser(a: i128, b: i128) -> i128
    ensures { result ≡ int_min a b }
{
    a.min(b)
}

fn lesser_bounds(x: (i128, i128), y: (i128, i128)) -> (i128, i128)
    ensures { result ≡ (int_min x.0 y.0, int_min x.1 y.1) }
{
    (lesser(x.0, y.0), lesser(x.1, y.1))
}

/// The bounds without what is above `END`.
fn up_to_end(lo: i128, hi: i128) -> (i128, i128)
    ensures { result ≡ (int_min lo the_end, int_min hi the_end) }
{
    (lesser(lo, END), lesser(hi, END))
}

/// The bounds after a byte at an offset from `at.0` to `at.1` was set to zero.
fn must_be_zero(zero: (i128, i128), at: (i128, i128)) -> (i128, i128)
    ensures { result ≡ must_be_zero zero at }
{
    if zero.1 != END {
        lesser_bounds(zero, at)
    } else if at.0 == 0 && at.1 == 0 {
        from_lesser(zero.0, at.0, 0)
    } else {
        from_lesser(zero.0, at.0, END)
    }
}

/// The lesser of `a` and `b` + 1, up to `END`.
fn from_lesser_or_next(a: i128, b: i128) -> (i128, i128)
    requires { b ≤ℤ the_end }
    ensures { result ≡ (int_min a (b +ℤ pos 1), the_end) }
{
    from_lesser(a, b + 1, END)
}

/// The bounds after a byte at an offset from `at.0` to `at.1` was set to another number.
fn cannot_be_zero(zero: (i128, i128), at: (i128, i128)) -> (i128, i128)
    requires { at.0 ≤ℤ the_end }
    ensures { result ≡ cannot_be_zero zero at }
{
    if zero.1 == END {
        from_lesser_or_next(zero.0, at.0)
    } else if at.1 < zero.0 || zero.1 < at.0 {
        zero
    } else {
        (zero.0, END)
    }
}

/// The end of a text of `len` bytes behind an offset, up to `END`.
fn text_end(at: (i128, i128), len: (i128, i128)) -> (i128, i128)
    requires at_lo { FitsSigned w128 (at.0 +ℤ len.0) }
    requires at_hi { FitsSigned w128 (at.1 +ℤ len.1) }
    ensures { result ≡ (int_min (at.0 +ℤ len.0) the_end, int_min (at.1 +ℤ len.1) the_end) }
{
    up_to_end(at.0 + len.0, at.1 + len.1)
}

/// Whether the offset is 0 alone.
fn is_start(at: (i128, i128)) -> bool
    ensures { result ≡ is_start at }
{
    at.0 == 0 && at.1 == 0
}

/// Whether no offset is behind the first zero, and there is one.
fn is_before(zero: (i128, i128), at: (i128, i128)) -> bool
    ensures { result ≡ is_before zero at }
{
    at.1 <= zero.0 && zero.1 != END
}

fn is_one_before(zero: (i128, i128), at: (i128, i128)) -> bool
    ensures { result ≡ (int_eq at.0 at.1 && is_before zero at) }
{
    at.0 == at.1 && is_before(zero, at)
}

fn ends_text_behind(zero: (i128, i128), at: (i128, i128), len: (i128, i128)) -> (i128, i128)
    requires at_lo { FitsSigned w128 (at.0 +ℤ len.0) }
    requires at_hi { FitsSigned w128 (at.1 +ℤ len.1) }
    ensures { result ≡ ends_text_behind zero at len }
{
    if is_one_before(zero, at) {
        text_end(at, len)
    } else {
        from_lesser(zero.0, at.0, END)
    }
}

/// The bounds after a text of `len` bytes and a zero was written at an offset.
fn ends_text(zero: (i128, i128), at: (i128, i128), len: (i128, i128)) -> (i128, i128)
    requires at_lo { FitsSigned w128 (at.0 +ℤ len.0) }
    requires at_hi { FitsSigned w128 (at.1 +ℤ len.1) }
    ensures { result ≡ ends_text zero at len }
{
    if is_start(at) {
        up_to_end(len.0, len.1)
    } else {
        ends_text_behind(zero, at, len)
    }
}

/// Whether the first zero is before the upper bound.
fn is_inside(zero: (i128, i128), at: (i128, i128), room: (i128, i128)) -> bool
    requires { FitsSigned w128 (zero.1 -ℤ at.0) }
    ensures { result ≡ int_lt (zero.1 -ℤ at.0) room.0 }
{
    zero.1 - at.0 < room.0
}

/// Whether the scan from an offset comes to the first zero before the upper bound.
fn is_known_at(part: bool, zero: (i128, i128), at: (i128, i128), room: (i128, i128)) -> bool
    requires { FitsSigned w128 (zero.1 -ℤ at.0) }
    ensures { result ≡ is_known_at part zero at room }
{
    is_before(zero, at) && (!part || is_inside(zero, at, room))
}

fn is_known(
    part: bool,
    zero: Option<(i128, i128)>,
    at: Option<(i128, i128)>,
    room: Option<(i128, i128)>,
) -> bool
    requires { FitsRange (range_difference zero at) }
    ensures { result ≡ is_known part zero at room }
{
    match (zero, at, room) {
        (Some(f), Some(o), Some(r)) => is_known_at(part, f, o, r),
        _ => true,
    }
}

/// How far the first zero is from the offset, within `room`.
fn lengths(
    zero: Option<(i128, i128)>,
    at: Option<(i128, i128)>,
    room: Option<(i128, i128)>,
) -> Option<(i128, i128)>
    requires fits { FitsRange (range_difference zero at) }
    requires room_fits { FitsRange (range_difference room (Some (pos 1, pos 1))) }
    ensures { result ≡ lengths zero at room }
{
    match room {
        None => None,
        Some(r) => within_room(range_difference(zero, at), r),
    }
}

fn within_room(lengths: Option<(i128, i128)>, room: (i128, i128)) -> Option<(i128, i128)>
    requires { FitsSigned w128 (room.1 -ℤ pos 1) }
    ensures { result ≡ range_met lengths (pos 0) (room.1 -ℤ pos 1) }
{
    range_met(lengths, 0, room.1 - 1)
}

impl<I: IntDomain> FirstZero<I> {
    fn zero_written(self, at: I) -> Self
        ensures { result ≡ zero_written I.lattice I.numbers self at }
    {
        let zero = match (self.at.bounds(), at.bounds()) {
            (Some(f), Some(o)) => Some(must_be_zero(f, o)),
            _ => None,
        };
        FirstZero { at: of_range(zero) }
    }

    fn other_written(self, at: I) -> Self
        requires { IsNear (I.numbers.bounds at) }
        ensures { result ≡ other_written I.lattice I.numbers self at }
    {
        let zero = match (self.at.bounds(), at.bounds()) {
            (Some(f), Some(o)) => Some(cannot_be_zero(f, o)),
            _ => None,
        };
        FirstZero { at: of_range(zero) }
    }

    /// The first zero after a char was written at the offsets `at`. `zero` says whether the char
    /// is zero.
    pub fn put(self, at: I, zero: Tri) -> Self
        requires { IsNear (I.numbers.bounds at) }
        ensures { result ≡ put_at I.lattice I.numbers self at zero }
    {
        match zero {
            Tri::Yes => self.zero_written(at),
            Tri::No => self.other_written(at),
            Tri::Both => self.zero_written(at).join(self.other_written(at)),
            Tri::Never => Self::bottom(),
        }
    }

    /// The first zero after a text of `len` bytes and its closing zero were written at `at`.
    pub fn text(self, at: I, len: I) -> Self
        requires at_near { IsNear (I.numbers.bounds at) }
        requires len_near { IsNear (I.numbers.bounds len) }
        ensures { result ≡ text_at I.lattice I.numbers self at len }
    {
        let zero = match (self.at.bounds(), at.bounds(), len.bounds()) {
            (Some(f), Some(o), Some(t)) => Some(ends_text(f, o, t)),
            _ => None,
        };
        FirstZero { at: of_range(zero) }
    }

    /// The length of the string at the offsets `at`, which have `room` bytes up to the upper
    /// bound; `part` says whether the bounds may be other than those of the whole instance. `None`
    /// exactly where the length is unknown; the least value where no string can be.
    pub fn scan(self, at: I, room: I, part: bool) -> Option<I>
        requires near { IsNear (I.numbers.bounds self.at) }
        requires at_near { IsNear (I.numbers.bounds at) }
        requires room_near { IsNear (I.numbers.bounds room) }
        ensures { result ≡ scanned I.lattice I.numbers self at room part }
    {
        if is_known(part, self.at.bounds(), at.bounds(), room.bounds()) {
            Some(of_range(lengths(self.at.bounds(), at.bounds(), room.bounds())))
        } else {
            None
        }
    }
}
