//! Initializers (6.7.9 of ISO/IEC 9899:2011).
ghost use Rattle.std.specs.Prelude.{map};
ghost use Rattle.c_layout.specs.Types.{view};
ghost use Rattle.c_layout.specs.SyntaxTrees.{tree_of};
ghost use Rattle.c_layout.specs.DeclarationTrees.{initializer_tree, initializer_trees};
ghost use Rattle.c_types_scopes.specs.Answers.{Leads};
ghost use Rattle.c_types_scopes.specs.States.{state};
ghost use Rattle.c_types_initializers.specs.Literals as literals;
ghost use Rattle.c_types_initializers.specs.Initialized.{initialized_view};
ghost use Rattle.c_types_expressions.specs.BracedLists.Initializers as spec;
ghost use Rattle.c_types_expressions.specs.BracedLists.Initializers.{made_view};

use crate::braced_lists::braced_lists::fill;
use crate::expressions::typed;
use c_layout::{CType, Expr, Initializer};
use c_types_initializers::{
    Filling, Initialized, Subobject, bare_literal, by_operand, character_room, filled,
    only_literal, spelled,
};
use c_types_scopes::Context;
use cc_base::{Place, Stop};

/// An object by an expression that is no literal for an array of characters.
fn by_value(cx: &mut Context, equals: Place, ctype: &CType, e: &Expr) -> Result<Initialized, Stop>
    ensures { Leads initialized_view (spec.by_value (state cx.old) equals (view ctype.now) (tree_of e.now)) result (state cx.new) }
{
    let operand = typed(cx, e)?;
    by_operand(cx, equals, ctype, operand)
}

/// The same with the object's type, which it does not change.
fn by_term(
    cx: &mut Context,
    equals: Place,
    ctype: CType,
    e: &Expr,
) -> Result<(Initialized, CType), Stop>
    ensures { Leads made_view (spec.by_term (state cx.old) equals (view ctype) (tree_of e.now)) result (state cx.new) }
{
    let made = by_value(cx, equals, &ctype, e)?;
    Ok((made, ctype))
}

/// An array of characters of so much room, by an expression.
fn by_text(
    cx: &mut Context,
    equals: Place,
    ctype: CType,
    room: u64,
    e: &Expr,
) -> Result<(Initialized, CType), Stop>
    ensures { Leads made_view (spec.by_text (state cx.old) equals (view ctype) room (tree_of e.now) (literals.bare_literal (tree_of e.now))) result (state cx.new) }
{
    match bare_literal(e) {
        Some(bytes) => Ok(spelled(cx, ctype, room, bytes)?),
        None => by_term(cx, equals, ctype, e),
    }
}

/// An object by an expression.
fn by_expression(
    cx: &mut Context,
    equals: Place,
    ctype: CType,
    e: &Expr,
) -> Result<(Initialized, CType), Stop>
    ensures { Leads made_view (spec.by_expression (state cx.old) equals (view ctype) (tree_of e.now)) result (state cx.new) }
{
    match character_room(&ctype) {
        Some(room) => by_text(cx, equals, ctype, room, e),
        None => by_term(cx, equals, ctype, e),
    }
}

/// An object by the items of a list.
fn by_items(
    cx: &mut Context,
    equals: Place,
    ctype: CType,
    items: &[Initializer],
) -> Result<(Initialized, CType), Stop>
    ensures { Leads made_view (spec.by_items (state cx.old) equals (view ctype) (initializer_trees (map initializer_tree items.now))) result (state cx.new) }
{
    let mut filling = Filling::new(cx.alloc);
    let whole = Subobject { ctype, offset: 0 };
    let passed = fill(cx, equals, &whole, items, &mut filling)?;
    let Subobject { ctype, .. } = whole;
    filled(filling, ctype, passed)
}

/// An array of characters of so much room, by a list in braces.
fn by_braced_text(
    cx: &mut Context,
    equals: Place,
    ctype: CType,
    room: u64,
    items: &[Initializer],
) -> Result<(Initialized, CType), Stop>
    ensures { Leads made_view (spec.by_braced_text (state cx.old) equals (view ctype) room (initializer_trees (map initializer_tree items.now)) (literals.only_literal (initializer_trees (map initializer_tree items.now)))) result (state cx.new) }
{
    match only_literal(items) {
        Some(bytes) => Ok(spelled(cx, ctype, room, bytes)?),
        None => by_items(cx, equals, ctype, items),
    }
}

/// An object by a list in braces.
fn by_list(
    cx: &mut Context,
    equals: Place,
    ctype: CType,
    items: &[Initializer],
) -> Result<(Initialized, CType), Stop>
    ensures { Leads made_view (spec.by_list (state cx.old) equals (view ctype) (initializer_trees (map initializer_tree items.now))) result (state cx.new) }
{
    match character_room(&ctype) {
        Some(room) => by_braced_text(cx, equals, ctype, room, items),
        None => by_items(cx, equals, ctype, items),
    }
}

/// What an initializer does, and the object's type with the length that it gives. A refusal stands
/// at `equals`, the place of its `=`.
pub fn initializer_of(
    cx: &mut Context,
    equals: Place,
    ctype: CType,
    initializer: &Initializer,
) -> Result<(Initialized, CType), Stop>
    ensures { Leads made_view (spec.initializer_of (state cx.old) equals (view ctype) (initializer_tree initializer.now)) result (state cx.new) }
{
    match initializer {
        Initializer::Braces(_, items) => by_list(cx, equals, ctype, items.as_slice()),
        Initializer::Value(e) => by_expression(cx, equals, ctype, e),
    }
}
