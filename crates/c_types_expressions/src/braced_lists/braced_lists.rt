//! Lists of initializers in braces (6.7.9p16 to p21 of ISO/IEC 9899:2011).
ghost use Rattle.std.specs.Prelude.{◌≡◌, map, option_map};
ghost use Rattle.c_layout.specs.SyntaxTrees.{tree_of};
ghost use Rattle.c_layout.specs.DeclarationTrees.{initializer_tree, initializer_trees};
ghost use Rattle.c_types_scopes.specs.Answers.{Leads};
ghost use Rattle.c_types_scopes.specs.States.{state};
ghost use Rattle.c_types_initializers.specs.Subobjects.{subobject_view, cursor_view};
ghost use Rattle.c_types_initializers.specs.Literals as literals;
ghost use Rattle.c_types_initializers.specs.ListStores.{filling_view};
ghost use Rattle.c_types_expressions.specs.BracedLists.BracedLists as spec;

use crate::expressions::{is_scalar, typed};
use c_layout::{Expr, Initializer};
use c_types_initializers::{
    Cursor, Filling, Subobject, bare_literal, character_room, only_literal, sought_text,
    store_next, store_scalar,
};
use c_types_scopes::Context;
use cc_base::{Memory, Place, Stop, Text};

/// An expression that is no literal.
fn fill_value(
    cx: &mut Context,
    equals: Place,
    cursor: &mut Cursor,
    e: &Expr,
    filling: &mut Filling,
) -> Result<(), Stop>
    ensures { Leads (λ _. (cursor_view cursor.new, filling_view filling.new)) (spec.fill_value (state cx.old) equals (cursor_view cursor.old) (filling_view filling.old) (tree_of e.now)) result (state cx.new) }
{
    let operand = typed(cx, e)?;
    store_next(cx, equals, cursor, operand, filling)?;
    Ok(())
}

/// A scalar by an expression.
fn fill_scalar(
    cx: &mut Context,
    equals: Place,
    subobject: &Subobject,
    e: &Expr,
    filling: &mut Filling,
) -> Result<(), Stop>
    ensures { Leads (λ _. filling_view filling.new) (spec.fill_scalar (state cx.old) equals (subobject_view subobject.now) (filling_view filling.old) (tree_of e.now)) result (state cx.new) }
{
    let operand = typed(cx, e)?;
    store_scalar(cx, equals, subobject, operand, filling)?;
    Ok(())
}

/// A literal in an array of characters; in a scalar it is an expression as others.
fn fill_text(
    cx: &mut Context,
    equals: Place,
    subobject: &Subobject,
    e: &Expr,
    bytes: &Text,
    filling: &mut Filling,
) -> Result<(), Stop>
    ensures { Leads (λ _. filling_view filling.new) (spec.fill_text (state cx.old) equals (subobject_view subobject.now) (filling_view filling.old) (tree_of e.now) bytes.now) result (state cx.new) }
{
    match character_room(&subobject.ctype) {
        Some(room) => Ok(filling.spell(cx.alloc, subobject.offset, room, bytes)?),
        None => fill_scalar(cx, equals, subobject, e, filling),
    }
}

/// A literal in the subobject that was sought, if there is one.
fn fill_found(
    cx: &mut Context,
    equals: Place,
    found: Option<Subobject>,
    e: &Expr,
    bytes: &Text,
    filling: &mut Filling,
) -> Result<(), Stop>
    ensures { Leads (λ _. filling_view filling.new) (spec.fill_found (state cx.old) equals (filling_view filling.old) (tree_of e.now) bytes.now (option_map subobject_view found)) result (state cx.new) }
{
    match found {
        Some(subobject) => fill_text(cx, equals, &subobject, e, bytes, filling),
        None => {
            filling.keep_type_fault(equals);
            Ok(())
        }
    }
}

/// A literal.
fn fill_literal(
    cx: &mut Context,
    equals: Place,
    cursor: &mut Cursor,
    e: &Expr,
    bytes: &Text,
    filling: &mut Filling,
) -> Result<(), Stop>
    ensures { Leads (λ _. (cursor_view cursor.new, filling_view filling.new)) (spec.fill_literal (state cx.old) equals (cursor_view cursor.old) (filling_view filling.old) (tree_of e.now) bytes.now) result (state cx.new) }
{
    let found = sought_text(cx, cursor)?;
    fill_found(cx, equals, found, e, bytes, filling)?;
    Ok(())
}

/// An item without braces.
fn fill_single(
    cx: &mut Context,
    equals: Place,
    cursor: &mut Cursor,
    e: &Expr,
    filling: &mut Filling,
) -> Result<(), Stop>
    ensures { Leads (λ _. (cursor_view cursor.new, filling_view filling.new)) (spec.fill_single (state cx.old) equals (cursor_view cursor.old) (filling_view filling.old) (tree_of e.now)) result (state cx.new) }
{
    match bare_literal(e) {
        Some(bytes) => fill_literal(cx, equals, cursor, e, bytes, filling),
        None => fill_value(cx, equals, cursor, e, filling),
    }
}

/// Types an item of what initializes nothing.
#[cycle(unused)]
fn typed_item(cx: &mut Context, item: &Initializer) -> Result<(), Stop>
    ensures { Leads (λ _. tt) (spec.typed_item (state cx.old) (initializer_tree item.now)) result (state cx.new) }
{
    match item {
        Initializer::Value(e) => {
            let _operand = typed(cx, e)?;
            Ok(())
        }
        Initializer::Braces(_, inner) => typed_items(cx, inner.as_slice()),
    }
}

/// Types what initializes nothing.
#[cycle(unused)]
fn typed_items(cx: &mut Context, items: &[Initializer]) -> Result<(), Stop>
    ensures { Leads (λ _. tt) (spec.typed_items (state cx.old) (initializer_trees (map initializer_tree items.now))) result (state cx.new) }
{
    for item in items {
        typed_item(cx, item)?;
    }
    Ok(())
}

/// Types a list that initializes nothing, for which no rule applies.
fn refuse_list(
    cx: &mut Context,
    equals: Place,
    items: &[Initializer],
    filling: &mut Filling,
) -> Result<(), Stop>
    ensures { Leads (λ _. filling_view filling.new) (spec.refuse_list (state cx.old) equals (filling_view filling.old) (initializer_trees (map initializer_tree items.now))) result (state cx.new) }
{
    typed_items(cx, items)?;
    filling.keep_type_fault(equals);
    Ok(())
}

/// The expression of an item without braces.
fn item_value(item: &Initializer) -> Option<&Expr>
    ensures { option_map (λ e. tree_of e.now) result ≡ spec.item_value (initializer_tree item.now) }
{
    match item {
        Initializer::Value(e) => Some(e),
        Initializer::Braces(_, _) => None,
    }
}

/// The expression of a list with one expression.
fn only_value(items: &[Initializer]) -> Option<&Expr>
    ensures { option_map (λ e. tree_of e.now) result ≡ spec.only_value (initializer_trees (map initializer_tree items.now)) }
{
    match items {
        [] => None,
        [item] => item_value(item),
        [_, _, ..] => None,
    }
}

/// A scalar by a list: one expression.
fn fill_from_list(
    cx: &mut Context,
    equals: Place,
    subobject: &Subobject,
    items: &[Initializer],
    filling: &mut Filling,
) -> Result<(), Stop>
    ensures { Leads (λ _. filling_view filling.new) (spec.fill_from_list (state cx.old) equals (subobject_view subobject.now) (filling_view filling.old) (initializer_trees (map initializer_tree items.now))) result (state cx.new) }
{
    match only_value(items) {
        Some(e) => fill_scalar(cx, equals, subobject, e, filling),
        None => refuse_list(cx, equals, items, filling),
    }
}

/// One item of a list.
#[cycle(lists)]
fn fill_item(
    cx: &mut Context,
    equals: Place,
    cursor: &mut Cursor,
    item: &Initializer,
    filling: &mut Filling,
) -> Result<(), Stop>
    ensures { Leads (λ _. (cursor_view cursor.new, filling_view filling.new)) (spec.fill_item (state cx.old) equals (cursor_view cursor.old) (filling_view filling.old) (initializer_tree item.now)) result (state cx.new) }
{
    match item {
        Initializer::Value(e) => fill_single(cx, equals, cursor, e, filling),
        Initializer::Braces(_, inner) => match cursor.next(cx)? {
            Some(subobject) => {
                let _passed = fill(cx, equals, &subobject, inner.as_slice(), filling)?;
                Ok(())
            }
            None => {
                refuse_list(cx, equals, inner.as_slice(), filling)?;
                Ok(())
            }
        },
    }
}

/// Items in order.
#[cycle(lists)]
fn fill_items(
    cx: &mut Context,
    equals: Place,
    cursor: &mut Cursor,
    items: &[Initializer],
    filling: &mut Filling,
) -> Result<(), Stop>
    ensures { Leads (λ _. (cursor_view cursor.new, filling_view filling.new)) (spec.fill_items (state cx.old) equals (cursor_view cursor.old) (filling_view filling.old) (initializer_trees (map initializer_tree items.now))) result (state cx.new) }
{
    for item in items {
        fill_item(cx, equals, cursor, item, filling)?;
    }
    Ok(())
}

/// An aggregate item by item; how many of its subobjects are passed then.
#[cycle(lists)]
fn fill_aggregate(
    cx: &mut Context,
    equals: Place,
    subobject: &Subobject,
    items: &[Initializer],
    filling: &mut Filling,
) -> Result<u64, Stop>
    ensures { Leads (λ n. (n, filling_view filling.new)) (spec.fill_aggregate (state cx.old) equals (subobject_view subobject.now) (filling_view filling.old) (initializer_trees (map initializer_tree items.now))) result (state cx.new) }
{
    let mut cursor = Cursor::new(cx, &subobject.ctype, subobject.offset)?;
    fill_items(cx, equals, &mut cursor, items, filling)?;
    Ok(cursor.passed())
}

/// An array of characters of so much room, by one literal or item by item.
#[cycle(lists)]
fn fill_characters(
    cx: &mut Context,
    equals: Place,
    subobject: &Subobject,
    room: u64,
    items: &[Initializer],
    filling: &mut Filling,
) -> Result<u64, Stop>
    ensures { Leads (λ n. (n, filling_view filling.new)) (spec.characters_or (state cx.old) (subobject_view subobject.now) (filling_view filling.old) room (literals.only_literal (initializer_trees (map initializer_tree items.now))) (spec.fill_aggregate (state cx.old) equals (subobject_view subobject.now) (filling_view filling.old) (initializer_trees (map initializer_tree items.now)))) result (state cx.new) }
{
    match only_literal(items) {
        Some(bytes) => {
            filling.spell(cx.alloc, subobject.offset, room, bytes)?;
            Ok(u64::try_from(bytes.as_bytes().len()).map_err(|_| Memory)?)
        }
        None => fill_aggregate(cx, equals, subobject, items, filling),
    }
}

/// An object that is no scalar by a list.
#[cycle(lists)]
fn fill_whole(
    cx: &mut Context,
    equals: Place,
    subobject: &Subobject,
    items: &[Initializer],
    filling: &mut Filling,
) -> Result<u64, Stop>
    ensures { Leads (λ n. (n, filling_view filling.new)) (spec.whole_or (state cx.old) (subobject_view subobject.now) (filling_view filling.old) (initializer_trees (map initializer_tree items.now)) (literals.character_room (subobject_view subobject.now).ctype) (spec.fill_aggregate (state cx.old) equals (subobject_view subobject.now) (filling_view filling.old) (initializer_trees (map initializer_tree items.now)))) result (state cx.new) }
{
    match character_room(&subobject.ctype) {
        Some(room) => fill_characters(cx, equals, subobject, room, items, filling),
        None => fill_aggregate(cx, equals, subobject, items, filling),
    }
}

/// Fills an object by a list in braces; how many subobjects of it the list reaches.
#[cycle(lists)]
pub fn fill(
    cx: &mut Context,
    equals: Place,
    subobject: &Subobject,
    items: &[Initializer],
    filling: &mut Filling,
) -> Result<u64, Stop>
    ensures { Leads (λ n. (n, filling_view filling.new)) (spec.fill (state cx.old) equals (subobject_view subobject.now) (filling_view filling.old) (initializer_trees (map initializer_tree items.now))) result (state cx.new) }
{
    if is_scalar(&subobject.ctype) {
        fill_from_list(cx, equals, subobject, items, filling)?;
        Ok(1)
    } else {
        fill_whole(cx, equals, subobject, items, filling)
    }
}
