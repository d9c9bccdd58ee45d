//! A function has one template.
ghost use Rattle.std.specs.Prelude.{◌≡◌, ℕ, Bool, List};
ghost use Rattle.c_layout.specs.CheckedUnits.{FunctionView};
ghost use Rattle.c_layout.specs.StructViews.{StructView};
ghost use Rattle.lower_templates.specs.Worklist.Pieces.{TemplateView};
ghost use Rattle.lower_functions.specs.Functions.Functions.{IsTemplate};

/// A function has one template at most.
pub fn one_template()
    ensures { (structs : List StructView) (pointer int_bytes : ℕ) (f : FunctionView) (is_entry : Bool) (t u : TemplateView) → IsTemplate structs pointer int_bytes f is_entry t → IsTemplate structs pointer int_bytes f is_entry u → t ≡ u }
{}
