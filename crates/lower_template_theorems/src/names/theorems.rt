//! What a template names.
ghost use Rattle.lower_template_theorems.specs.Names.NamedTrees.{TemplatesNameTheSame};

/// A template names only what the trees of its function name: what passes a test for all objects, literals, parameters
/// and scopes of the function, its result and allocation sites passes it for all names of the template.
pub fn templates_name_the_same()
    ensures { TemplatesNameTheSame }
{}
