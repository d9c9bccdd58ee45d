//! Theorems: copies of structs are sound.
ghost use Rattle.struct_copies_sound.specs.Theorems as spec;

use cc_base::IntDomain;

// ---- What holds of a cell behind the write of a leaf of a copied struct.

/// That a cell stands for a number or for what a byte holds is kept by the write of a leaf where the cell is not
/// written in its place, and comes to the cells that the write reaches where it holds of the value that is written.
pub fn leaf_writes_stand<I: IntDomain>()
    ensures { spec.LeafWritesStandEverywhere I.lattice I.numbers I.stands }
{}

// ---- Where a row stands for a state, the row behind a copy of a struct stands for the state behind it, there is
// none only where no run goes on, and each rule that the copy violates is admitted.

/// Copies of structs, where the leaves of each struct by number are those of its type and share no bytes.
pub fn copies_are_sound<I: IntDomain>()
    ensures { spec.CopiesAreSoundEverywhere I.lattice I.numbers I.stands }
{}

// ---- What holds of memory and of first zeros behind the copy of a struct.

/// Memory behind a copy of a struct is sound.
pub fn copies_keep_memory()
    ensures { spec.CopiesKeepMemory }
{}

/// The first zeros of a base stand for its arrays behind a copy of bytes, where the copy is exact with those of the
/// source.
pub fn copied_zeros_stand<I: IntDomain>()
    ensures { spec.CopiedZerosStandEverywhere I.lattice I.numbers I.stands }
{}

// ---- Which programs have structs as the law on copies asks.

/// The leaves of each struct by number are those of its type, as many as are recorded of it, where leaves are counted
/// over members, members stand apart and structs stand in no circle.
pub fn ordered_structs_are_numbered()
    ensures { spec.AreNumbered }
{}

/// Well-formed programs have such structs as the law on copies asks, where members stand apart and structs stand in no
/// circle.
pub fn ordered_programs_have_structs()
    ensures { spec.HaveStructs }
{}

/// Structs stand in no circle in a table that is made step by step, where structs are declared and get members of
/// complete types.
pub fn made_tables_are_ordered()
    ensures { spec.MakesOrdered }
{}

// ---- Tests whether a leaf that is copied reaches a cell miss no place and no byte of it.

/// A leaf of an object that has a place among the offsets of a copied leaf is seen there, and so is one that has a byte
/// there.
pub fn spans_see_bytes()
    ensures { spec.SpansSeeBytes }
{}

// ---- Which programs have structs as the law on copies asks, and which have not.

/// Well-formed programs have such structs where members stand apart and the leaves of each struct by number are those
/// of its type.
pub fn well_formed_programs_have_structs()
    ensures { spec.MeetsStructs }
{}

/// A table whose structs stand in a circle passes the tests of well-formed programs, and a copy loses a leaf there.
pub fn circular_structs_lose_leaves()
    ensures { spec.LosesLeaf }
{}
