//! What pieces of templates name, and in which order they stand.
ghost use Rattle.std.specs.Prelude.{ℕ, Bool, List, Option, ◌≡◌, true};
ghost use Rattle.c_layout.specs.CheckedUnits.{FunctionView};
ghost use Rattle.c_layout.specs.StructViews.{StructView};
ghost use Rattle.lower_templates.specs.Worklist.Pieces.{TemplateView};
ghost use Rattle.lower_functions.specs.Functions.Functions.{IsTemplate};
ghost use Rattle.lower_objects.specs.declared.counts.function_counts.FunctionCounts.{FunctionCounts};
ghost use Rattle.lower_tables.specs.Counts.NormalizedTemplates.{normalized};
ghost use Rattle.lower.specs.TemplateLaws.NamedBases.{AreNamed};
ghost use Rattle.lower.specs.TemplateLaws.PieceOrder.{AreFollowed};
ghost use Rattle.lower.specs.TemplateLaws.PieceOrder as spec;

/// The pieces of a template name bases that the template has, and each of its allocation sites once, also
/// when it is settled.
pub fn are_named()
    ensures template { (structs : List StructView) (pointer int_bytes : ℕ) (f : FunctionView) (is_entry : Bool) (t : TemplateView) → IsTemplate structs pointer int_bytes f is_entry t → AreNamed t }
    ensures normalized { (table : List (Option FunctionCounts)) (t : TemplateView) → AreNamed t → AreNamed (normalized table t) }
{}

/// Behind each instruction that is done only where a call's value is used another instruction of the same
/// block stands, in a template and when it is settled.
pub fn are_followed()
    ensures template { (structs : List StructView) (pointer int_bytes : ℕ) (f : FunctionView) (is_entry : Bool) (t : TemplateView) → IsTemplate structs pointer int_bytes f is_entry t → AreFollowed t.pieces }
    ensures normalized { (table : List (Option FunctionCounts)) (t : TemplateView) → AreFollowed t.pieces → AreFollowed (normalized table t).pieces }
{}

/// The last piece of the entry's template ends a block, and that of a template that does still does so
/// when it is settled.
pub fn ends_block()
    ensures entry { (structs : List StructView) (pointer int_bytes : ℕ) (f : FunctionView) (t : TemplateView) → IsTemplate structs pointer int_bytes f true t → spec.ends_block t.pieces ≡ true }
    ensures normalized { (table : List (Option FunctionCounts)) (t : TemplateView) → spec.ends_block t.pieces ≡ true → spec.ends_block (normalized table t).pieces ≡ true }
{}
