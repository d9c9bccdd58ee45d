//! Where the items of the source stand in the pieces of templates, a run of the unit is one of the templates.
ghost use Rattle.simulation_terms.specs.SmallSteps.Alike.{TurnsAreSimulated, RunsAreSimulated};

/// Where both runs stand alike for one turn more, a turn of the source is so many pieces of the templates: none, or one,
/// and before it the labels and what is done only where a call's value is used. A step, a call and a return are a piece, and
/// behind each piece the templates stand where the source stands before the turn or behind it.
pub fn turns_are_simulated()
    ensures { TurnsAreSimulated }
{}

/// Where for any number of turns the body of the entry follows in the pieces of its template, and each function
/// that is called in those of its own, each run of the unit is one of the templates: they come to the same memory
/// with the same draws left, have violated the same rules at the same places in the same order, and go on or have
/// stopped for the same reason.
pub fn runs_are_simulated()
    ensures { RunsAreSimulated }
{}
