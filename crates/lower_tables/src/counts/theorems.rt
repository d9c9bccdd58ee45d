//! A function has one count.
ghost use Rattle.std.specs.Prelude.{◌≡◌, ℕ};
ghost use Rattle.c_layout.specs.CheckedUnits.{UnitView};
ghost use Rattle.lower_templates.specs.Worklist.Pieces.{TemplateView};
ghost use Rattle.lower_objects.specs.declared.counts.function_counts.FunctionCounts.{FunctionCounts};
ghost use Rattle.lower_tables.specs.Counts.Preparations.{Counts, IsNormalized};

/// A function has one row of counts and one settled template at most, whatever tables they are made from.
pub fn one_count()
    ensures counts { (u : UnitView) (n : ℕ) (c d : FunctionCounts) → Counts u n c → Counts u n d → c ≡ d }
    ensures normalized { (u : UnitView) (n : ℕ) (s t : TemplateView) → IsNormalized u n s → IsNormalized u n t → s ≡ t }
{}
