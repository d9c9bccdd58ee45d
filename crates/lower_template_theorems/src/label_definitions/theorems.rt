//! Each label of a template is marked at most once.
ghost use Rattle.lower_template_theorems.specs.LabelDefinitions.MarkedLabels.{LabelsAreMarkedOnce, LabelsAreMarkedBelow};

/// In the template of a function that has each of its labels at most once, and in each switch each of its cases and
/// its default label at most once, each label is marked at most once. A template has no more labels than numbers of 32
/// bits.
pub fn labels_are_marked_once()
    ensures { LabelsAreMarkedOnce }
{}

/// So it is, and only where the template has a label of that number.
pub fn labels_are_marked_below()
    ensures { LabelsAreMarkedBelow }
{}
