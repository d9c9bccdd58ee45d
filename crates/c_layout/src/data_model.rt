//! Data models: the sizes of the scalar types.
ghost use Rattle.std.specs.Prelude.{◌≡◌};
ghost use Rattle.c_layout.specs.Models.{model_named, is_model, pointer_fits};

/// The sizes in bytes of the integer types and of pointers, and whether plain char is signed.
/// Bytes have 8 bits, numbers are little-endian, and each scalar is aligned to its size.
#[derive(Clone, Copy, PartialEq, Eq, Debug)]
pub struct Model {
    /// 2.
    pub short: u8,
    /// 2 or 4.
    pub int: u8,
    /// 4 or 8.
    pub long: u8,
    /// 8.
    pub long_long: u8,
    /// 4 or 8, and the size of int, long or long long.
    pub pointer: u8,
    pub char_signed: bool,
}

/// The model `lp64`, `ilp32` or `llp64`; None exactly for any other name.
pub fn by_name(name: &str) -> Option<Model>
    ensures { result ≡ model_named name.now }
{
    if name == "lp64" {
        return Some(Model {
            short: 2,
            int: 4,
            long: 8,
            long_long: 8,
            pointer: 8,
            char_signed: true,
        });
    }
    if name == "ilp32" {
        return Some(Model {
            short: 2,
            int: 4,
            long: 4,
            long_long: 8,
            pointer: 4,
            char_signed: true,
        });
    }
    if name == "llp64" {
        return Some(Model {
            short: 2,
            int: 4,
            long: 4,
            long_long: 8,
            pointer: 8,
            char_signed: true,
        });
    }
    None
}

fn is_pointer_size(model: &Model) -> bool
    ensures { result ≡ pointer_fits model.now.int model.now.long model.now.long_long model.now.pointer }
{
    let size = model.pointer;
    (size == 4 || size == 8)
        && ((size == model.int || size == model.long) || size == model.long_long)
}

/// Whether a model's sizes are such as a data model has.
pub fn is_sound(model: &Model) -> bool
    ensures { result ≡ is_model model.now }
{
    model.short == 2
        && ((model.int == 2 || model.int == 4)
            && ((model.long == 4 || model.long == 8)
                && (model.long_long == 8 && is_pointer_size(model))))
}
