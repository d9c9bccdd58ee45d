//! Each run of a unit is one of the templates of its functions.
ghost use Rattle.simulation_statements.specs.Entry.Entries.{EntriesAreSimulated, FunctionsAreSimulated};

/// A function that is called follows in the template that lowering makes of it, whoever calls it: its parameters take the
/// arguments, its body is done, with all jumps of `goto` and `switch`, and its result is given where the call uses it.
pub fn functions_are_simulated()
    ensures { FunctionsAreSimulated }
{}

/// Each run of the unit is one of the templates that lowering makes of its functions: after any number of turns both have
/// come to the same memory with the same draws left, have violated the same rules at the same places in the same order, and
/// go on or have stopped for the same reason.
pub fn entries_are_simulated()
    ensures { EntriesAreSimulated }
{}
