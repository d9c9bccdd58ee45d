//! A data model whose numbers are such as one has.
ghost use Rattle.std.specs.Prelude.{◌≡◌, true};
ghost use Rattle.c_layout.specs.Models.{is_model};

use c_layout::Model;

/// A data model whose numbers are such as one has.
#[derive(Clone, Copy)]
pub struct DataModel {
    pub numbers: Model,
    ghost fits: { is_model numbers ≡ true },
}

impl DataModel {
    /// The model with these numbers.
    pub fn new(numbers: &Model) -> DataModel
        requires { is_model numbers.now ≡ true }
        ensures { result.numbers ≡ numbers.now }
    {
        DataModel { numbers: *numbers }
    }
}
