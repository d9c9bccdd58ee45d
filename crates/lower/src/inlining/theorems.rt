//! A unit has one program, which is made as it was counted.
ghost use Rattle.std.specs.Prelude.{◌≡◌, ◌<◌, ◌^◌, length};
ghost use Rattle.cc_base.specs.declared.limit_table.Limits.{Limits};
ghost use Rattle.cc_base.specs.declared.refusals.Fault.{Fault};
ghost use Rattle.c_layout.specs.CheckedUnits.{UnitView};
ghost use Rattle.lower_templates.specs.Views.ProgramViews.{FlowView};
ghost use Rattle.lower.specs.Inlining.Lowerings.{IsLowering, IsRefusal};
ghost use Rattle.lower.specs.Inlining.WellMade.{IsWellMade, AllLead};
ghost use Rattle.lower.specs.Inlining.AsCounted.{IsAsCounted, IsWithin, HasNoMore, HasFew, all_mentions};

/// A unit has one program at most and one refusal at most, and where it has a program it is not refused.
pub fn one_lowering()
    ensures program { (u : UnitView) (limits : Limits) (f g : FlowView) → IsLowering u limits f → IsLowering u limits g → f ≡ g }
    ensures refusal { (u : UnitView) (limits : Limits) (f g : Fault) → IsRefusal u limits f → IsRefusal u limits g → f ≡ g }
    ensures apart { (u : UnitView) (limits : Limits) (f : FlowView) (g : Fault) → IsLowering u limits f → IsRefusal u limits g → ⊥ }
{}

/// What lowering makes is well formed in its bases, in its edges and in its heads.
pub fn well_made()
    ensures made { (u : UnitView) (limits : Limits) (f : FlowView) → IsLowering u limits f → IsWellMade f }
    ensures lead { (u : UnitView) (limits : Limits) (f : FlowView) → IsLowering u limits f → AllLead (length f.blocks) f.edges }
{}

/// A program has just the blocks and the instructions that were counted before it was made.
pub fn as_counted()
    ensures counts { (u : UnitView) (limits : Limits) (f : FlowView) (is : IsLowering u limits f) → IsAsCounted is.counts f }
    ensures within { (u : UnitView) (limits : Limits) (f : FlowView) (is : IsLowering u limits f) → IsWithin limits is.counts f }
{}

/// A program has no more bases and cells than were counted, where templates and initializers name less
/// than 2^64 things, and for cells where each type has as many leaves as were recorded.
pub fn no_more_bases()
    ensures counts { (u : UnitView) (limits : Limits) (f : FlowView) (is : IsLowering u limits f) → all_mentions u is.templates < 2 ^ 64 → HasNoMore u is.counts f }
    ensures within { (u : UnitView) (limits : Limits) (f : FlowView) (is : IsLowering u limits f) → all_mentions u is.templates < 2 ^ 64 → HasFew u limits f }
{}
