//! Theorems: the abstract state of the entry contains the start of each run.
ghost use Rattle.entry_sound.specs.Theorems as spec;

use cc_base::IntDomain;

// ---- Rows that say nothing stand for everything.

/// A row in which each base has the greatest cells stands for each state without temporaries.
pub fn greatest_rows_stand<I: IntDomain>()
    ensures { spec.GreatestRowsStandEverywhere I.lattice I.numbers I.stands }
{}

// ---- Where programs of checked units begin.

/// The lowered program of each unit that is checked, where its objects are plain, begins with what is in the unit's tables,
/// where the program is regular and its structs stand in no circle, as is looked at before it is analysed.
pub fn checked_units_begin()
    ensures { spec.CheckedUnitsBegin }
{}

// ---- What the row of the entry stands for, over intervals.

/// The row of the entry of a regular program's system stands for the state in which each run of a unit begins, where the
/// program has a start row and begins with what is in the unit's tables.
pub fn entry_rows_stand()
    ensures { spec.EntryRowsStandEverywhere }
{}

// ---- Typed initializers.

/// The initializers of each unit that is checked are typed (6.7.9 of ISO/IEC 9899:2011): each value is stored over a
/// scalar of its class and is one of its type, each text over characters, where the unit's objects are plain and its
/// structs stand in no circle, with members that stand apart.
pub fn checked_initializers_are_typed()
    ensures { spec.CheckedInitializersAreTyped }
{}

// ---- What lowering makes of the tables of a unit.

/// A lowered program begins with the objects and literals of its unit and with the parameters of its entry, each with a
/// base of its own, where the initializers of the unit are typed and its entry takes integers.
pub fn lowered_programs_start()
    ensures { spec.LoweredProgramsStart }
{}

// ---- What the first state of a run is made of.

/// A run begins with the objects of the unit, then its literals, then the entry's parameters, each of which took a number.
pub fn runs_begin_in_memory()
    ensures { spec.RunsBeginInMemory }
{}

// ---- What the row of the entry is made of stands for the objects with which a run begins.

/// The cells of an object of static storage, cleared and then initialized, stand for its first bytes.
pub fn static_objects_stand<I: IntDomain>()
    ensures { spec.StaticObjectsStandEverywhere I.lattice I.numbers I.stands }
{}

/// The cells of a literal that is spelled stand for its bytes.
pub fn literals_stand<I: IntDomain>()
    ensures { spec.LiteralsStandEverywhere I.lattice I.numbers I.stands }
{}

/// The cell of a parameter of the entry stands for its bytes.
pub fn parameters_stand<I: IntDomain>()
    ensures { spec.ParametersStandEverywhere I.lattice I.numbers I.stands }
{}

/// The row of the entry stands for a state whose memory has the initial objects and the parameters of the entry, as they
/// begin.
pub fn start_rows_stand<I: IntDomain>()
    ensures { spec.StartRowsStandEverywhere I.lattice I.numbers I.stands }
{}

/// So it does for the state in which each run begins, where that state has such a memory.
pub fn runs_begin_in_start_rows<I: IntDomain>()
    ensures { spec.RunsBeginInStartRowsEverywhere I.lattice I.numbers I.stands }
{}

/// The first bytes of an object of static storage are the stores of its initializer over these bytes, all cleared.
pub fn static_bytes_are_stored()
    ensures { spec.StaticBytesAreStoredEverywhere }
{}

// ---- What a run begins with.

/// A run begins with the initial objects and the parameters of the entry, each with its first bytes and a base of its
/// own, in sound memory, where the program begins with what is in the unit's tables.
pub fn runs_begin_as_declared()
    ensures { spec.RunsBeginAsDeclared }
{}
