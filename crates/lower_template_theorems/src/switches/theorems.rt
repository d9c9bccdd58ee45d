//! What the switches of a template are on.
ghost use Rattle.lower_template_theorems.specs.Switches.SwitchedTrees.{TemplatesSwitchAsTrees};

/// A template switches on what its function does: what passes a test for all objects of integer types that switches of
/// the function name passes it for all that cases of the template name.
pub fn templates_switch_as_trees()
    ensures { TemplatesSwitchAsTrees }
{}
