//! Worked examples, proved: one small unit from its bytes to its report.
ghost use Rattle.cli_examples.specs.Theorems as spec;

use analysis_determined::two_solvers_agree;
use c_parser_theorems::unique_units::one_tree;
use cli_theorems::{accepted_units_are_answered, one_report};
use lower::inlining::one_lowering;
use lower_functions::functions::one_template;

// ---- What an analysis of the program of `int main(void){return 1/0;}` finds, and which maps, lists and
// thresholds it excludes.

/// No map with a row more than there are blocks is inductive.
pub fn inductive_maps_have_a_row_for_each_block()
    ensures { spec.NoLongerMap }
{}

/// There is a program, the only one of the unit that divides by 0, whose analysis finds this and nothing else, with
/// just these numbers as thresholds, and a larger inductive map, which is not the least one. It is a single one, as
/// those of plain units are.
pub fn one_division_is_found()
    ensures { spec.OneDivisionIsFound }
{
    two_solvers_agree();
    one_template();
    one_lowering();
}

// ---- Whose outcome, whose model, whose unit and whose report an answer is: there is one of each.

/// The status tells what happened, and where the sink is told an answer has one outcome, but for the text that could not be
/// written.
pub fn one_outcome()
    ensures by_status { spec.OutcomeByStatus }
    ensures one { spec.OneOutcome }
{}

/// Files that are told give one model, one unit or one refusal, one baseline and one list of draws.
pub fn held_files_give_one_unit()
    ensures model { spec.OneModel }
    ensures expansion { spec.OneExpansion }
    ensures refusal { spec.OneRefusal }
    ensures apart { spec.RefusedOrExpanded }
    ensures baseline { spec.OneBaseline }
    ensures fresh { spec.OneFreshList }
    ensures draws { spec.OneListOfDraws }
{}

/// Of the bytes of a unit that divides by 0 these are the tokens, and those of no other text; its model is the one that is
/// named.
pub fn held_bytes_give_one_unit()
    ensures model { spec.IsNamedModel }
    ensures unit { spec.IsExpandedFromHeld }
{
    held_bytes_are_expanded();
}

/// What is found is told once, in order, and with no line beside: no shorter list will do, no longer one, and no other order.
/// The status is 1 where something was found.
pub fn what_is_found_is_told()
    ensures one { spec.OneLine }
    ensures two { spec.TwoLines }
    ensures status { spec.FoundIsTold }
    ensures nothing { spec.NothingIsTold }
{}

// ---- Of a unit that divides by 0, from its bytes to the text that is put.

/// Where `int main(void){return 1/0;}` is held, `check` answers 1 and puts one line, or a device gives out, or memory: no
/// other report of it, no other verdict and no other answer meets the clause of the program. It is a plain unit. The unit's
/// values are built in the memory of some program.
pub fn one_line_is_told()
    ensures { spec.OneLineIsTold }
{
    held_bytes_give_one_unit();
    tokens_are_parsed();
    trees_are_checked();
    one_division_is_found();
    accepted_units_are_answered();
    one_report();
}

/// The run of the unit violates that rule there, and ends by it.
pub fn unit_divides_by_zero()
    ensures { spec.DividesByZero }
{}

/// What the theorem on runs of programs supposes of a checked unit and its program is met.
pub fn premises_of_soundness_are_met()
    ensures { spec.PremisesOfSoundnessAreMet }
{
    trees_are_checked();
    one_division_is_found();
}

// ---- `int main(void){return 1/0;}` from its bytes to its checked unit, and what each stage excludes.

/// The bytes that are held give these tokens and no others, since what they give is computed.
pub fn held_bytes_are_expanded()
    ensures { spec.IsExpandedTo }
{}

/// The tokens derive this tree alone. Those of a unit with another number derive another one.
pub fn tokens_are_parsed()
    ensures { spec.IsParsedTo }
{
    one_tree();
}

/// The tree is checked to this unit, which is so for this entry and this model.
pub fn trees_are_checked()
    ensures { spec.IsCheckedTo }
{}
