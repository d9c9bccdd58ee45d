//! The pieces of a template are those to which its works come, as a tree.
ghost use Rattle.lower_template_theorems.specs.Worklists.Derivations.{TemplatesAreDerived};

/// Where works are done until none is left, their pieces are those of a derivation: each work comes to those of the
/// works that it consists of, one after the other.
pub fn templates_are_derived()
    ensures { TemplatesAreDerived }
{}
