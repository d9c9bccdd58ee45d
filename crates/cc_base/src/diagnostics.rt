//! Places in source files, the eighteen rules and what is reported.
/// A byte of a source file.
#[derive(Clone, Copy, PartialEq, Eq, PartialOrd, Ord, Debug)]
pub struct Place {
    /// An index into the unit's list of file names.
    pub file: u32,
    /// The line, counted from 1.
    pub line: u32,
    /// The byte of the line, counted from 1. A tab is one column.
    pub col: u32,
}

/// The rules, in the order of their tags. The tags are those of ISO/IEC TS 17961:2013; what each
/// means here is this project's own definition (docs/rules.md).
#[derive(Clone, Copy, PartialEq, Eq, PartialOrd, Ord, Debug)]
pub enum Rule {
    /// Freed memory is used.
    Accfree,
    /// An assignment stands as a condition.
    Boolasgn,
    /// A character function gets an argument outside its range.
    Chrsgnext,
    /// Memory is freed twice.
    Dblfree,
    /// A division is undefined.
    Diverr,
    /// An allocation is too small for its type.
    Insufmem,
    /// A signed result is out of range.
    Intoflow,
    /// A pointer is out of bounds.
    Invptr,
    /// A library call passes the end of an object.
    Libptr,
    /// A string has no terminating zero.
    Nonnullcs,
    /// A null or ended pointer is dereferenced.
    Nullref,
    /// Pointers into different objects are compared or subtracted.
    Ptrobj,
    /// `sizeof` is taken of a pointer.
    Sizeofptr,
    /// A string literal is modified.
    Strmod,
    /// A `switch` has no default.
    Swtchdflt,
    /// A tainted value reaches a sink.
    Taintsink,
    /// Uninitialized memory is read.
    Uninitref,
    /// Memory that was not allocated is freed.
    Xfree,
}

/// A violation that a run may reach: a place and the rule that may be violated there.
#[derive(Clone, Copy, PartialEq, Eq, PartialOrd, Ord, Debug)]
pub struct Diag {
    pub place: Place,
    pub rule: Rule,
}
