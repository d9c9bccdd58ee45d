//! What a struct copy makes of first zeros.
ghost use Rattle.std.specs.Prelude.{◌≡◌, length};
ghost use Rattle.std.specs.Option.{option_map};
ghost use Rattle.store_structs.specs.CopyZeros.{exact_view, copied_window, same_size, is_array_at, array_at, source_part, lies_within, lies_inside, zero_from, zero_exact, zero_copied, copy_part_at, copy_zeros};

use c_layout::{BaseInfo, ZeroPart};
use cc_base::IntDomain;
use store::{Window, any_zero, put_zero, zero_at, zero_position, zero_target};
use value_domain::strings::FirstZero;
use value_domain::values::Cell;

/// A copy of so many bytes from one offset of one declared base to one offset of another one.
#[derive(Clone, Copy)]
pub struct ExactCopy<'a> {
    pub source: &'a BaseInfo,
    pub from: u64,
    pub to: u64,
    pub size: u64,
}

/// The bytes that a copy may touch, whose struct can begin in a window.
pub fn copied_window(start: Window, size: u64) -> Window
    ensures { result ≡ copied_window start size }
{
    Window {
        lo: start.lo,
        hi: start.hi.saturating_add(size.saturating_sub(1)),
    }
}

fn same_size(a: Option<u64>, b: Option<u64>) -> bool
    ensures { result ≡ same_size a b }
{
    match (a, b) {
        (None, None) => true,
        (Some(m), Some(n)) => m == n,
        (None, Some(_)) => false,
        (Some(_), None) => false,
    }
}

fn is_array_at(offset: u64, size: Option<u64>, part: ZeroPart) -> bool
    ensures { result ≡ is_array_at offset size part }
{
    part.offset == offset && same_size(part.size, size)
}

/// The number of the first array of a size at an offset.
fn array_at(parts: &[ZeroPart], offset: u64, size: Option<u64>) -> Option<usize>
    ensures { result ≡ array_at offset size 0 parts.now }
{
    for at in 0..parts.len() {
        if is_array_at(offset, size, parts[at]) {
            return Some(at);
        }
    }
    None
}

/// The array of the source that stands at the same distance as one of the destination and has its
/// size.
#[tactic(auto, unfolding(crate::specs::CopyZeros::source_part))]
fn source_part(exact: ExactCopy, part: ZeroPart) -> Option<usize>
    ensures { result ≡ source_part (exact_view exact.entry) part }
{
    if part.offset < exact.to {
        None
    } else {
        let offset = exact.from.saturating_add(part.offset - exact.to);
        array_at(exact.source.shape.zeros.as_slice(), offset, part.size)
    }
}

fn lies_within(offset: u64, length: Option<u64>, to: u64, size: u64) -> bool
    ensures { result ≡ lies_within offset length to size }
{
    match length {
        None => false,
        Some(length) => to <= offset && offset.saturating_add(length) <= to.saturating_add(size),
    }
}

/// Whether the array lies wholly within the copied bytes.
fn lies_inside(exact: ExactCopy, part: ZeroPart) -> bool
    ensures { result ≡ lies_inside (exact_view exact.entry) part }
{
    lies_within(part.offset, part.size, exact.to, exact.size)
}

/// The first zero of a part of the source, if there is one; else nothing is known.
fn zero_from<I: IntDomain>(source: &BaseInfo, row: &[Cell<I>], part: Option<usize>) -> FirstZero<I>
    ensures { result ≡ zero_from I.lattice I.numbers source.now row.now part }
{
    match part {
        None => any_zero(),
        Some(at) => zero_at(row, zero_position(source, at)),
    }
}

/// The first zero of an array under an exact copy.
fn zero_exact<I: IntDomain>(exact: ExactCopy, part: ZeroPart, row: &[Cell<I>]) -> FirstZero<I>
    ensures { result ≡ zero_exact I.lattice I.numbers (exact_view exact.entry) part row.now }
{
    if lies_inside(exact, part) {
        zero_from(exact.source, row, source_part(exact, part))
    } else {
        any_zero()
    }
}

/// The first zero of an array that the copy meets: the source's where the copy is exact.
fn zero_copied<I: IntDomain>(
    exact: Option<ExactCopy>,
    part: ZeroPart,
    row: &[Cell<I>],
) -> FirstZero<I>
    ensures { result ≡ zero_copied I.lattice I.numbers (option_map exact_view exact.entry) part row.now }
{
    match exact {
        Some(copy) => zero_exact(copy, part, row),
        None => any_zero(),
    }
}

#[tactic(auto, unfolding(crate::specs::CopyZeros::copy_part_at))]
fn copy_part<I: IntDomain>(
    row: &mut [Cell<I>],
    position: usize,
    part: ZeroPart,
    window: Window,
    exact: Option<ExactCopy>,
)
    ensures length { length row.new ≡ length row.old }
    ensures row { row.new ≡ copy_part_at I.lattice I.numbers window (option_map exact_view exact.entry) part position row.old }
{
    if zero_target(part, window).is_some() {
        let zero = zero_copied(exact, part, row);
        put_zero(row, position, zero);
    }
}

/// The first zeros of a base of the destination.
#[tactic(auto, unfolding(crate::specs::CopyZeros::copy_zeros))]
pub fn copy_zeros<I: IntDomain>(
    base: &BaseInfo,
    row: &mut [Cell<I>],
    window: Window,
    exact: Option<ExactCopy>,
)
    ensures length { length row.new ≡ length row.old }
    ensures row { row.new ≡ copy_zeros I.lattice I.numbers base.now window (option_map exact_view exact.entry) row.old }
{
    let parts = base.shape.zeros.as_slice();
    for at in 0..parts.len() {
        copy_part(row, zero_position(base, at), parts[at], window, exact);
    }
}
