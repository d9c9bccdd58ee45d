//! What names mean.
/// What an ordinary identifier means.
#[derive(Clone, Copy, PartialEq, Eq)]
pub enum Meaning {
    /// An object of the unit, by its number among those that were declared.
    Static(u32),
    /// An object of the function at hand, by its number.
    Local(u32),
    /// A function, by its number among those that were declared.
    Function(u32),
    /// A type, by its number among the typedef names.
    Typedef(u32),
    /// An enumeration constant.
    Enumerator(i128),
}

/// What a tag means.
#[derive(Clone, Copy, PartialEq, Eq)]
pub enum Tag {
    /// A struct, by its number in the unit.
    Struct(u32),
    /// An enumerated type, by its number in the unit.
    Enumeration(u32),
}
