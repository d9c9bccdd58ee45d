//! The scopes in which labels stand.
ghost use Rattle.simulation_statements.specs.Labels.FoundLabels.{LabelsAreFound};
ghost use Rattle.simulation_statements.specs.Labels.LabelScopes.{FunctionLabelsStandInScopes, LabelsStandInScopes};
ghost use Rattle.simulation_statements.specs.Labels.NotedScopes.{LabelsAreNoted};

/// What is left to do from a label on leaves the scopes around the label, the innermost one first.
pub fn labels_stand_in_scopes()
    ensures { LabelsStandInScopes }
{}

/// So it is of the labels of a function, from its outermost block on.
pub fn function_labels_stand_in_scopes()
    ensures { FunctionLabelsStandInScopes }
{}

/// The tree of a function's scopes notes each of its labels with the scope in which it stands, where it stands once.
pub fn labels_are_noted()
    ensures { LabelsAreNoted }
{}

/// A label that stands in the body of a function is found there: no label stands in the first clause of a `for`, where
/// the search does not look.
pub fn labels_are_found()
    ensures { LabelsAreFound }
{}
