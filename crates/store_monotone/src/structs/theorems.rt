//! A leaf of a copied struct that can stand at more offsets of a base reaches more of its cells; leaves that stand apart
//! share no bytes.
ghost use Rattle.std.specs.Prelude.{◌≡◌, ℕ, true, List};
ghost use Rattle.c_layout.specs.Models.{is_model};
ghost use Rattle.c_layout.specs.StructViews.{StructView};
ghost use Rattle.c_layout.specs.declared.data_model.Model.{Model};
ghost use Rattle.c_layout.specs.declared.shapes.BaseInfo.{BaseInfo};
ghost use Rattle.cfg.specs.BaseShapes.{is_shaped};
ghost use Rattle.store_monotone.specs.Structs.LargerSpans.{ReachesMore};
ghost use Rattle.store_monotone.specs.Structs.SpreadStructs.{is_apart, IsSpread};

/// Under a data model, the leaves of a struct that stand apart within its size, at most 2^30 bytes, share no byte and are
/// short.
pub fn apart_leaves_are_spread()
    ensures { (m : Model) → is_model m ≡ true → (structs : List StructView) (index : ℕ) (s : StructView) → is_apart m structs index s ≡ true → IsSpread m structs index s }
{}

/// Under a data model, in a base whose leaves stand apart a span of more offsets reaches each leaf that a smaller one
/// reaches, and has an offset of no leaf where that has one.
pub fn larger_spans_reach_more()
    ensures { (m : Model) → is_model m ≡ true → (base : BaseInfo) → is_shaped m base ≡ true → ReachesMore m base }
{}
