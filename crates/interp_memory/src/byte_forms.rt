//! Pointers, bytes and scalars as memory holds them.
use c_layout::Class;
use cc_base::Rule;

/// The labels of a number from the outside: it may be too low, too high, or changed by a conversion
/// or by wrapping round.
#[derive(Clone, Copy, PartialEq, Eq)]
pub struct LabelSet {
    pub low: bool,
    pub high: bool,
    pub changed: bool,
}

/// A null pointer, or an offset into an instance and the bounds within which the pointer may move.
#[derive(Clone, Copy, PartialEq, Eq)]
pub enum Pointer7 {
    Null,
    At {
        /// The number of the instance.
        inst: u32,
        /// In bytes, as the bounds: the pointer may touch the bytes from `lo` on and below `hi`.
        off: u64,
        lo: u64,
        hi: u64,
    },
}

/// A byte is indeterminate, a number with its labels, or a part of a pointer, counted from 0.
#[derive(Clone, Copy)]
pub enum Content7 {
    Blank,
    Number(u8, LabelSet),
    Part(Pointer7, u8),
}

/// A byte of memory. Its tag says of which class of scalars it is which byte, counted from 0; a byte
/// of no type has none.
#[derive(Clone, Copy)]
pub struct Byte7 {
    pub content: Content7,
    pub tag: Option<(Class, u8)>,
}

/// A scalar: an integer with its labels, or a pointer.
#[derive(Clone, Copy, PartialEq, Eq)]
pub enum Value7 {
    Int(i128, LabelSet),
    Ptr(Pointer7),
}

/// What a load gives.
#[derive(Clone, Copy, PartialEq, Eq)]
pub enum Loaded {
    Value(Value7),
    /// A pointer into an instance that was freed, which violates `accfree`; the run goes on.
    Freed(Value7),
    /// The run stops, at a violation of the rule where there is one.
    Halt(Option<Rule>),
}

/// What a store comes to.
#[derive(Clone, Copy, PartialEq, Eq)]
pub enum Stored {
    Done,
    /// The run stops, at a violation of the rule where there is one. Nothing was stored.
    Halt(Option<Rule>),
}

/// The storage duration of an instance's object (6.2.4 and 7.22.3 of ISO/IEC 9899:2011); string
/// literals are told apart.
#[derive(Clone, Copy, PartialEq, Eq)]
pub enum InstKind {
    Static,
    Automatic,
    Heap,
    Literal,
}

/// Whether an instance's lifetime goes on, has ended, or its memory was freed.
#[derive(Clone, Copy, PartialEq, Eq)]
pub enum InstState {
    Live,
    Ended,
    Freed,
}

/// A byte of an instance.
#[derive(Clone, Copy)]
pub struct Spot {
    pub inst: u32,
    pub offset: u64,
}
