//! Whether a data model is one.
ghost use Rattle.std.specs.Prelude.{◌≡◌};
ghost use Rattle.c_layout.specs.Models.{is_model, pointer_fits};

use c_layout::Model;

fn is_pointer_size(model: &Model) -> bool
    ensures { result ≡ pointer_fits model.now.int model.now.long model.now.long_long model.now.pointer }
{
    let size = model.pointer;
    (size == 4 || size == 8)
        && ((size == model.int || size == model.long) || size == model.long_long)
}

/// Whether a model's sizes are such as a data model has.
pub fn is_model(model: &Model) -> bool
    ensures { result ≡ is_model model.now }
{
    model.short == 2
        && ((model.int == 2 || model.int == 4)
            && ((model.long == 4 || model.long == 8)
                && (model.long_long == 8 && is_pointer_size(model))))
}
