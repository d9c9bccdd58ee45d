//! The offsets that a leaf of a copied struct can have in an object: those of a folded leaf stand at
//! each of its places.
ghost use Rattle.std.specs.Prelude.{◌≡◌, ◌<◌};
ghost use Rattle.store_struct_leaves.specs.CopyPlaces.{shifted, span_of_leaf, span_width, span_is_one, is_apart, all_in_one, span_joined, span_window, span_raised, span_size, one_place_meets, alike_meets, each_meets, several_meet, joined_meet, meets, is_reached, leaf_raised, is_touched, reached_count, span_has_stray};

use c_layout::{Class, Leaf, Model};
use store::{Window, bytes_of, has_place_in, same_class};

/// The offsets of a window, and of the windows that lie each `stride` behind the one before, so many
/// in all.
#[derive(Clone, Copy, PartialEq, Eq, Debug)]
pub struct Span {
    pub first: Window,
    pub stride: u64,
    pub count: u64,
}

fn shifted(window: Window, by: u64) -> Window
    ensures { result ≡ shifted window by }
{
    Window {
        lo: window.lo.saturating_add(by),
        hi: window.hi.saturating_add(by),
    }
}

impl Span {
    /// The offsets of a leaf in an object, where the struct can begin in a window.
    pub fn of_leaf(leaf: Leaf, start: Window) -> Span
        ensures { result ≡ span_of_leaf leaf start }
    {
        Span {
            first: shifted(start, leaf.offset),
            stride: leaf.stride,
            count: leaf.count,
        }
    }

    fn width(self) -> u64
        ensures { result ≡ span_width self }
    {
        self.first.hi.saturating_sub(self.first.lo)
    }

    /// Whether there is one offset.
    pub fn is_one(self) -> bool
        ensures { result ≡ span_is_one self }
    {
        self.count == 1 && self.first.is_one()
    }

    /// Whether no window reaches the next one.
    fn is_apart(self) -> bool
        ensures { result ≡ is_apart self }
    {
        self.count == 0 || self.width().saturating_add(1) < self.stride
    }

    /// The offsets from the first to the last one.
    fn all_in_one(self) -> Span
        ensures { result ≡ all_in_one self }
    {
        let more = self.count.saturating_sub(1).saturating_mul(self.stride);
        Span {
            first: Window {
                lo: self.first.lo,
                hi: self.first.hi.saturating_add(more),
            },
            stride: 1,
            count: 1,
        }
    }

    /// The windows as one, where none lies apart from the next one.
    pub fn joined(self) -> Span
        ensures { result ≡ span_joined self }
    {
        if self.is_apart() {
            self
        } else {
            self.all_in_one()
        }
    }

    /// The window with a number.
    pub fn window(self, number: u64) -> Window
        ensures { result ≡ span_window self number }
    {
        shifted(self.first, number.saturating_mul(self.stride))
    }

    /// The span of the offsets up to so many bytes behind each one.
    fn raised(self, bytes: u64) -> Span
        ensures { result ≡ span_raised self bytes }
    {
        Span {
            first: Window {
                lo: self.first.lo,
                hi: self.first.hi.saturating_add(bytes),
            },
            stride: self.stride,
            count: self.count,
        }
    }

    /// How many offsets there are, where no window overlaps the next one.
    fn size(self) -> u64
        ensures { result ≡ span_size self }
    {
        self.width().saturating_add(1).saturating_mul(self.count)
    }
}

/// Whether the one place of a leaf lies in a window of the span.
fn one_place_meets(leaf: Leaf, span: Span) -> bool
    ensures { result ≡ one_place_meets leaf span }
{
    let starts = Leaf {
        offset: span.first.lo,
        class: leaf.class,
        signed: leaf.signed,
        stride: span.stride,
        count: span.count,
    };
    let window = Window {
        lo: leaf.offset.saturating_sub(span.width()),
        hi: leaf.offset,
    };
    has_place_in(starts, window)
}

/// The same where the places of the leaf lie as far apart as the windows.
fn alike_meets(leaf: Leaf, span: Span) -> bool
    ensures { result ≡ alike_meets leaf span }
{
    let before = span.count.saturating_sub(1);
    let wide = Leaf {
        offset: leaf.offset,
        class: leaf.class,
        signed: leaf.signed,
        stride: leaf.stride,
        count: leaf.count.saturating_add(before),
    };
    has_place_in(
        wide,
        shifted(span.first, before.saturating_mul(span.stride)),
    )
}

/// Whether a place of the leaf lies in some window of the span.
#[tactic(auto, using(crate::proofs::Somewhere::somewhere, crate::proofs::Somewhere::nowhere_next), unfolding(crate::specs::CopyPlaces::each_meets))]
fn each_meets(leaf: Leaf, span: Span) -> bool
    ensures { result ≡ each_meets leaf span }
{
    for number in 0..span.count {
        if has_place_in(leaf, span.window(number)) {
            return true;
        }
    }
    false
}

/// The same, by the shortest way, where the span has more windows than one.
#[tactic(auto, unfolding(crate::specs::CopyPlaces::several_meet))]
fn several_meet(leaf: Leaf, span: Span) -> bool
    ensures { result ≡ several_meet leaf span }
{
    if leaf.count == 1 {
        one_place_meets(leaf, span)
    } else if leaf.stride == span.stride {
        alike_meets(leaf, span)
    } else {
        each_meets(leaf, span)
    }
}

/// The same for a span whose windows lie apart.
#[tactic(auto, unfolding(crate::specs::CopyPlaces::joined_meet))]
fn joined_meet(leaf: Leaf, span: Span) -> bool
    ensures { result ≡ joined_meet leaf span }
{
    if span.count == 1 {
        has_place_in(leaf, span.first)
    } else {
        several_meet(leaf, span)
    }
}

/// Whether a place of the leaf lies in the span.
#[tactic(auto, unfolding(crate::specs::CopyPlaces::meets))]
fn meets(leaf: Leaf, span: Span) -> bool
    ensures { result ≡ meets leaf span }
{
    joined_meet(leaf, span.joined())
}

/// Whether an access of a class at an offset of the span reaches the leaf as one of its own class.
#[tactic(auto, unfolding(crate::specs::CopyPlaces::is_reached))]
pub fn is_reached(leaf: Leaf, class: Class, span: Span) -> bool
    ensures { result ≡ is_reached leaf class span }
{
    same_class(leaf.class, class) && meets(leaf, span)
}

/// The leaf with each place so many bytes further on.
fn raised(leaf: Leaf, bytes: u64) -> Leaf
    ensures { result ≡ leaf_raised leaf bytes }
{
    Leaf {
        offset: leaf.offset.saturating_add(bytes),
        class: leaf.class,
        signed: leaf.signed,
        stride: leaf.stride,
        count: leaf.count,
    }
}

/// Whether a byte of a leaf that is none of characters lies in the span. The last byte of the scalar
/// is looked for behind the offsets of the span, since windows that are widened downwards would be
/// cut at 0 together.
#[tactic(auto, unfolding(crate::specs::CopyPlaces::is_touched))]
pub fn is_touched(model: &Model, leaf: Leaf, span: Span) -> bool
    ensures { result ≡ is_touched model.now leaf span }
{
    let behind = bytes_of(model, leaf.class).saturating_sub(1);
    !same_class(leaf.class, Class::Char)
        && meets(raised(leaf, behind), span.joined().raised(behind))
}

/// How many leaves the access reaches.
#[tactic(auto, unfolding(crate::specs::CopyPlaces::reached_count))]
pub fn reached_count(leaves: &[Leaf], class: Class, span: Span) -> u64
    ensures { result ≡ reached_count leaves.now class span }
{
    let mut found: u64 = 0;
    for leaf in leaves {
        if is_reached(*leaf, class, span) {
            found += 1;
        }
    }
    found
}

/// Whether the span has an offset that is no offset of a leaf of the class. The leaves of a heap base
/// have one place each.
#[tactic(auto, unfolding(crate::specs::CopyPlaces::span_has_stray))]
pub fn span_has_stray(leaves: &[Leaf], class: Class, span: Span) -> bool
    ensures { result ≡ span_has_stray leaves.now class span }
{
    let span = span.joined();
    span.size() > reached_count(leaves, class, span)
}
