//! Theorems: a unit has one report, and an accepted unit gets it.
ghost use Rattle.cli_theorems.specs.Theorems as spec;

// ---- Certificates that the program told, over files that are told.

/// Files that are the same give one model and one unit.
pub fn same_files_give_one_unit()
    ensures { spec.SameFilesGiveOneUnit }
{}

/// Where a file holds a text that `prove` was called to tell of the same unit, `verify` is not called to refuse it, and
/// does not answer 9; and where it is called to tell a report, its diagnostics are just those that `check` without turns has
/// beside what is found in the text of the unit alone.
pub fn proved_texts_are_accepted()
    ensures refused { spec.NeverRefused }
    ensures answered { spec.NeverAnsweredSo }
    ensures runs { spec.ShowsRuns }
{}

// ---- What is told of an accepted unit is settled by what is held, whatever the values are by which it is found.

/// Two judgements of a unit under the same setting have the same pairs, and the same counts of bases and of cells.
pub fn one_judgement()
    ensures { spec.OneJudgement }
{}

/// Where the files are told, two reports of a unit have the same names and diagnostics, and two summaries of one that was
/// made the same counts and diagnostics. Where a model is given too and the unit is accepted, `check` and `load` are called
/// to tell one thing.
pub fn one_report()
    ensures report { spec.OneReport }
    ensures summary { spec.OneSummary }
    ensures verdict { spec.OneVerdict }
    ensures load { spec.OneLoadVerdict }
{}

// ---- A unit has one tree, one checked unit and one program; one that has a program is not refused, and one that
// the grammar refuses is refused exactly.

/// Two trees that the tokens of a unit derive are the same, and so are what they are typed to and the programs of that.
pub fn one_parse()
    ensures tree { spec.OneTree }
    ensures checked { spec.OneCheckedUnit }
    ensures program { spec.OneProgram }
{}

/// No stage behind the expansion is called to refuse a unit with a tree, a checked unit and a program, unless for a
/// count of the program with turns of its loops unrolled, where such are asked for.
pub fn accepted_units_are_not_refused()
    ensures turns { spec.RefusedForTurns }
    ensures accepted { spec.AcceptedNotRefused }
    ensures judged { spec.JudgedNotRefused }
{}

/// A refusal of the grammar stands at the first token whose form is not in, or at the first word that is left out;
/// where each token is in, at the first token of the first piece without a derivation. A unit that has a tree has none.
pub fn refusals_of_grammar_are_exact()
    ensures exactly { spec.RefusedExactly }
    ensures syntax { spec.SyntaxExactly }
    ensures no_tree { spec.RefusedHasNoTree }
{}

/// Where the files are told and a model is given, `check` is called to tell of an accepted unit nothing but its
/// report: it answers 0 or 1 with the report, or 5, 6 or 7. `load` is called to tell nothing but its summary.
pub fn accepted_units_are_answered()
    ensures reported { spec.AcceptedIsReported }
    ensures answered { spec.AcceptedIsAnswered }
    ensures summed { spec.AcceptedIsSummed }
{}
