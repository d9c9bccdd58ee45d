//! Theorems: the control-flow program, with calls inlined, simulates its templates.
ghost use Rattle.simulation_layout.specs.Theorems as spec;

// ---- Labels, objects, names and terms of the functions of a regular unit.

/// Each function of a regular unit is regular.
pub fn functions_are_regular()
    ensures { spec.FunctionsAreRegular }
{}

/// Each label of a function stands once in its body, each case label of a `switch` once in that, a default label once
/// where the `switch` says so, and none outside of a `switch`.
pub fn labels_stand_once()
    ensures { spec.LabelsStandOnce }
{}

/// So a function has each of its labels at most once, as the laws on what templates mark ask.
pub fn functions_are_labelled()
    ensures { spec.FunctionsAreLabelled }
{}

/// No scope of a function has a parameter or an object of the scopes around it.
pub fn scopes_are_own()
    ensures { spec.ScopesAreOwn }
{}

/// No object stands in two scopes of a function.
pub fn scopes_are_apart()
    ensures { spec.ScopesAreApart }
{}

/// Each object, literal and object of static storage that a function names is there.
pub fn names_are_there()
    ensures { spec.NamesAreThere }
{}

/// What a `switch` is on by name as on an integer is declared as one.
pub fn switches_are_on_integers()
    ensures { spec.SwitchesAreOnIntegers }
{}

/// A term behind so many temporaries has numbers for its own ones.
pub fn terms_have_room()
    ensures terms { spec.TermsHaveRoom }
    ensures places { spec.PlacesHaveRoom }
{}

// ---- Where templates are laid out in a program, nothing else happens in it.

/// Where the templates of a unit are laid out in a control-flow program, each run of the templates in which each called
/// function leaves what it enters is one of the program: after any number of steps there is a number of steps after which
/// both have come to the same memory with the same draws left, have violated the same rules at the same places in the
/// same order, and go on or have stopped for the same reason, unless the first is stuck.
pub fn laid_runs_are_the_same()
    ensures { spec.LaidRunsAreTheSame }
{}

// ---- Putting in every call at its place changes no run.

/// Each run over the settled templates of a unit is one of the program that the unit is lowered to: after any number of
/// steps there is a number of steps after which both have come to the same memory with the same draws left, have violated
/// the same rules at the same places in the same order, and go on or have stopped for the same reason, unless the first is
/// stuck. It is asked that templates mark each label once, name what is there and switch on integers, that temporaries
/// have numbers below the last one, and that in the run each called function leaves what it enters.
pub fn inlined_runs_are_the_same()
    ensures { spec.InlinedRunsAreTheSame }
{}

/// So each run over the templates as they are made is one of the program, where each called function leaves what it enters
/// whenever it returns.
pub fn lowered_runs_are_the_same()
    ensures { spec.LoweredRunsAreTheSame }
{}

// ---- In a regular function `break` and `continue` stand where they have something to leave.

/// Each `break` of a regular function stands in a loop or `switch`, and each `continue` in a loop.
pub fn regular_jumps_stand()
    ensures { spec.RegularJumpsStand }
{}

// ---- Settling changes no run.

/// Each run over the templates of a unit as they are made is one over its settled templates: after any number of steps
/// there is a number of steps after which both have come to the same memory with the same draws left, have violated the
/// same rules at the same places in the same order, and go on or have stopped for the same reason, unless the first is
/// stuck.
pub fn normalized_runs_are_the_same()
    ensures { spec.NormalizedRunsAreTheSame }
{}

/// Where in a run over the templates as they are made each called function that returns names no object any more, each
/// one does so in the run over settled templates, up to where that comes to the same.
pub fn normalized_runs_return_alike()
    ensures { spec.NormalizedRunsReturnAlike }
{}

// ---- Premises that hold of each checked unit and of each well-formed program.

/// No temporary of a well-formed program has the last number, at which numbers stop, where the limit on temporaries is
/// not past it.
pub fn well_formed_programs_are_low()
    ensures { spec.WellFormedProgramsAreLow }
{}

/// The entry of a checked unit has no more parameters than local objects.
pub fn entries_have_locals()
    ensures { spec.EntriesHaveLocals }
{}

// ---- Each run of the templates of a checked unit is one of its well-formed program.

/// Where a checked unit is lowered to a well-formed program, each run over its templates as they are made is one of the
/// program: after any number of steps there is a number of steps after which both have come to the same memory with the
/// same draws left, have violated the same rules at the same places in the same order, and go on or have stopped for the
/// same reason, unless the first is stuck. It is asked of each function that is reached that it has its labels once, that
/// it names what is there and switches on integers, and that the last number is none of its labels; and of the run that
/// each called function that returns names no object any more.
pub fn checked_runs_are_the_same()
    ensures { spec.CheckedRunsAreTheSame }
{
    lowered_runs_are_the_same();
}
