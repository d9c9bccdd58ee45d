//! The bases of well-formed programs have shapes for which larger windows reach more.
ghost use Rattle.std.specs.Prelude.{◌≡◌, true};
ghost use Rattle.c_layout.specs.Models.{is_model};
ghost use Rattle.c_layout.specs.declared.data_model.Model.{Model};
ghost use Rattle.c_layout.specs.declared.shapes.BaseInfo.{BaseInfo};
ghost use Rattle.cfg.specs.BaseShapes.{is_shaped};
ghost use Rattle.store_monotone.specs.Operations.Placements.{IsRegular};

/// Under a data model, bases whose leaves stand apart, those of folded arrays too, and whose first zeros lie over
/// characters alone, are such that larger windows reach more.
pub fn shaped_bases_are_regular()
    ensures { (m : Model) → is_model m ≡ true → (base : BaseInfo) → is_shaped m base ≡ true → IsRegular m base }
{}
