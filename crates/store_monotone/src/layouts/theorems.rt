//! Structs whose members stand one behind the other share no bytes among their leaves, and layouts that are made member by
//! member are such.
ghost use Rattle.std.specs.Prelude.{◌≡◌, ℕ, true, Some, List, slice_get};
ghost use Rattle.c_layout.specs.Models.{is_model};
ghost use Rattle.c_layout.specs.StructViews.{StructView};
ghost use Rattle.c_layout.specs.declared.data_model.Model.{Model};
ghost use Rattle.store_monotone.specs.Structs.SpreadStructs.{IsSpread};
ghost use Rattle.store_structs.specs.LaidApart.{is_laid_apart, are_laid_apart};
ghost use Rattle.store_monotone.specs.Layouts.MadeLayouts.{Declared, layout_of, are_declarable};

/// Under a data model, of structs whose members stand one behind the other within at most 2^30 bytes, no byte is of two
/// leaves; leaves are short.
pub fn structs_laid_apart_are_spread()
    ensures { (m : Model) → is_model m ≡ true → (structs : List StructView) → are_laid_apart m structs ≡ true → (index : ℕ) (s : StructView) → slice_get structs index ≡ Some s → IsSpread m structs index s }
{}

/// Under a data model, a layout that is made of members of complete types, one after the other, has members that stand one
/// behind the other.
pub fn made_layouts_stand_apart()
    ensures { (m : Model) → is_model m ≡ true → (structs : List StructView) (members : List Declared) → are_declarable m structs members ≡ true → (s : StructView) → layout_of structs m.pointer members ≡ Some s → is_laid_apart m structs s ≡ true }
{}
