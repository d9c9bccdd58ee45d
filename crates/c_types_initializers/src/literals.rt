//! String literals as initializers of arrays of characters (6.7.9p14 of ISO/IEC 9899:2011).
ghost use Rattle.std.specs.Prelude.{◌≡◌, IfOk, map, option_map};
ghost use Rattle.c_layout.specs.Types.{view};
ghost use Rattle.c_layout.specs.SyntaxTrees.{tree_of};
ghost use Rattle.c_layout.specs.DeclarationTrees.{initializer_tree, initializer_trees};
ghost use Rattle.c_types_initializers.specs.Literals as spec;

use c_layout::{CType, Expr, Initializer};
use cc_base::{Memory, Text};

/// The size of an array of so many elements of a type, where they are characters.
fn room_of(element: &CType, count: u64) -> Option<u64>
    ensures { result ≡ spec.room_of (view element.now) count }
{
    match element {
        CType::Int(kind) => { if kind.bytes == 1 { Some(count) } else { None } }
        CType::Pointer(_) => None,
        CType::Array(_, _) => None,
        CType::Struct(_) => None,
        CType::Void => None,
    }
}

/// The size of an array of characters that a literal may initialize; 0 where it has no length yet.
pub fn character_room(t: &CType) -> Option<u64>
    ensures { result ≡ spec.character_room (view t.now) }
{
    match t {
        CType::Array(element, count) => room_of(element, *count),
        CType::Int(_) => None,
        CType::Pointer(_) => None,
        CType::Struct(_) => None,
        CType::Void => None,
    }
}

/// The bytes of a literal that stands without parentheses.
pub fn bare_literal(e: &Expr) -> Option<&Text>
    ensures { option_map (λ t. t.now) result ≡ spec.bare_literal (tree_of e.now) }
{
    match e {
        Expr::Literal(_, bytes) => Some(bytes),
        _ => None,
    }
}

/// The bytes of a literal without braces.
fn literal_item(item: &Initializer) -> Option<&Text>
    ensures { option_map (λ t. t.now) result ≡ spec.literal_item (initializer_tree item.now) }
{
    match item {
        Initializer::Value(e) => bare_literal(e),
        Initializer::Braces(_, _) => None,
    }
}

/// The literal of a list with one literal.
pub fn only_literal(items: &[Initializer]) -> Option<&Text>
    ensures { option_map (λ t. t.now) result ≡ spec.only_literal (initializer_trees (map initializer_tree items.now)) }
{
    match items {
        [] => None,
        [item] => literal_item(item),
        [_, _, ..] => None,
    }
}

/// How many characters an array of unknown length has for a literal, with its closing zero.
pub fn literal_length(bytes: &Text) -> Result<u64, Memory>
    ensures { IfOk result (λ n. n ≡ spec.literal_length bytes.now) }
{
    let count = u64::try_from(bytes.as_bytes().len()).map_err(|_| Memory)?;
    count.checked_add(1).ok_or(Memory)
}

/// The length of an array, if it has none that of its initializer.
pub fn length_or(had: u64, count: u64) -> u64
    ensures { result ≡ spec.length_or had count }
{
    if had == 0 { count } else { had }
}

/// An array's type with the length that its initializer gives, where it has none.
pub fn with_length(ctype: CType, count: u64) -> CType
    ensures { view result ≡ spec.with_length (view ctype) count }
{
    match ctype {
        CType::Array(element, had) => CType::Array(element, length_or(had, count)),
        CType::Int(kind) => CType::Int(kind),
        CType::Pointer(target) => CType::Pointer(target),
        CType::Struct(number) => CType::Struct(number),
        CType::Void => CType::Void,
    }
}
