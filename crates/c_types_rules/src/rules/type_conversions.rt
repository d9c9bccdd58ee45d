//! Which types convert to which (6.3.2, 6.5.4, 6.5.9, 6.5.15 and 6.5.16.1 of ISO/IEC 9899:2011).
ghost use Rattle.std.specs.Prelude.{◌≡◌};
ghost use Rattle.c_layout.specs.Types.{view};
ghost use Rattle.c_types_rules.specs.Rules.TypeConversions.{is_void, pointer_conversion, assigned, cast, pointers_paired, paired_types};

use c_layout::CType;

/// How a value of one type comes to another one.
#[derive(Clone, Copy, PartialEq, Eq, Debug)]
pub enum Conversion {
    /// The types are the same.
    Same,
    Converted,
    /// A pointer and an integer other than the constant 0 would be converted.
    Crossing,
    /// It does not.
    Nothing,
}

/// How two operands come to one type.
#[derive(Clone, Copy, PartialEq, Eq, Debug)]
pub enum Pairing {
    /// Both are integers.
    Integers,
    /// The right one is converted to the left one's type.
    AsLeft,
    /// The left one is converted to the right one's type.
    AsRight,
    /// A pointer and an integer other than the constant 0 would be converted.
    Crosses,
    /// They do not.
    Apart,
}

fn is_void(t: &CType) -> bool
    ensures { result ≡ is_void (view t.now) }
{
    match t {
        CType::Void => true,
        _ => false,
    }
}

/// A pointer to `from` where one to `to` is wanted.
fn pointer_conversion(from: &CType, to: &CType) -> Conversion
    ensures { result ≡ pointer_conversion (view from.now) (view to.now) }
{
    if from.is_same(to) {
        Conversion::Same
    } else if is_void(from) {
        Conversion::Converted
    } else if is_void(to) {
        Conversion::Converted
    } else {
        Conversion::Nothing
    }
}

/// What becomes of a value that is assigned, passed or returned; `null` says that it is a null
/// pointer constant. Structs are not looked at.
pub fn argument_conversion(from: &CType, null: bool, to: &CType) -> Conversion
    ensures { result ≡ assigned (view from.now) null (view to.now) }
{
    match from {
        CType::Int(a) => match to {
            CType::Int(b) => {
                if CType::Int(*a).is_same(&CType::Int(*b)) {
                    Conversion::Same
                } else {
                    Conversion::Converted
                }
            }
            CType::Pointer(_) => {
                if null {
                    Conversion::Converted
                } else {
                    Conversion::Crossing
                }
            }
            CType::Array(_, _) | CType::Struct(_) | CType::Void => Conversion::Nothing,
        },
        CType::Pointer(t) => match to {
            CType::Int(_) => Conversion::Crossing,
            CType::Pointer(u) => pointer_conversion(t, u),
            CType::Array(_, _) | CType::Struct(_) | CType::Void => Conversion::Nothing,
        },
        CType::Array(_, _) | CType::Struct(_) | CType::Void => Conversion::Nothing,
    }
}

/// What becomes of a value under a cast to a scalar type.
pub fn cast_conversion(from: &CType, null: bool, to: &CType) -> Conversion
    ensures { result ≡ cast (view from.now) null (view to.now) }
{
    match from {
        CType::Int(_) => match to {
            CType::Int(_) => Conversion::Converted,
            CType::Pointer(_) => {
                if null {
                    Conversion::Converted
                } else {
                    Conversion::Crossing
                }
            }
            CType::Array(_, _) | CType::Struct(_) | CType::Void => Conversion::Nothing,
        },
        CType::Pointer(_) => match to {
            CType::Int(_) => Conversion::Crossing,
            CType::Pointer(_) => Conversion::Converted,
            CType::Array(_, _) | CType::Struct(_) | CType::Void => Conversion::Nothing,
        },
        CType::Array(_, _) | CType::Struct(_) | CType::Void => Conversion::Nothing,
    }
}

/// Pointers to two types.
fn pointers_paired(t: &CType, left_null: bool, u: &CType, right_null: bool) -> Pairing
    ensures { result ≡ pointers_paired (view t.now) left_null (view u.now) right_null }
{
    if t.is_same(u) {
        Pairing::AsLeft
    } else if left_null {
        Pairing::AsRight
    } else if right_null {
        Pairing::AsLeft
    } else if is_void(t) {
        Pairing::AsLeft
    } else if is_void(u) {
        Pairing::AsRight
    } else {
        Pairing::Apart
    }
}

/// How the operands of `==` and `!=` and the arms of `?:` come to one type, where both are scalars;
/// two flags say which of them are null pointer constants.
pub fn paired(left: &CType, left_null: bool, right: &CType, right_null: bool) -> Pairing
    ensures { result ≡ paired_types (view left.now) left_null (view right.now) right_null }
{
    match left {
        CType::Int(_) => match right {
            CType::Int(_) => Pairing::Integers,
            CType::Pointer(_) => {
                if left_null {
                    Pairing::AsRight
                } else {
                    Pairing::Crosses
                }
            }
            CType::Array(_, _) | CType::Struct(_) | CType::Void => Pairing::Apart,
        },
        CType::Pointer(t) => match right {
            CType::Int(_) => {
                if right_null {
                    Pairing::AsLeft
                } else {
                    Pairing::Crosses
                }
            }
            CType::Pointer(u) => pointers_paired(t, left_null, u, right_null),
            CType::Array(_, _) | CType::Struct(_) | CType::Void => Pairing::Apart,
        },
        CType::Array(_, _) | CType::Struct(_) | CType::Void => Pairing::Apart,
    }
}
