//! Enumerations (6.7.2.2 of ISO/IEC 9899:2011).
ghost use Rattle.std.specs.Prelude.{◌≡◌, IfOk, [], ◌∷◌, ◌++◌, length, map, option_map};
ghost use Rattle.c_layout.specs.CheckedTrees.{term_tree};
ghost use Rattle.c_layout.specs.SyntaxTrees.{tree_of};
ghost use Rattle.c_layout.specs.DeclarationTrees.{name_view, enumerator_view};
ghost use Rattle.c_types_scopes.specs.Answers.{Leads};
ghost use Rattle.c_types_scopes.specs.States.{state};
ghost use Rattle.c_types_operands.specs.Operands.{operand_view};
ghost use Rattle.c_types_declarations.specs.Enumerations as spec;

use crate::context_steps::{declare_meaning, declare_tag};
use crate::specifiers::is_library_name;
use c_layout::{CType, CheckedTerm, Enumerator, Expr, Name};
use c_types_expressions::expressions::{Operand, term_of, typed};
use c_types_rules::rules::{has_number, int_kind};
use c_types_scopes::{Context, Meaning, Tag, constant_needed, redeclared};
use cc_base::{Memory, Place, Stop};

/// Declares the tag of an enumeration by the number of its name.
fn tag_by(cx: &mut Context, at: Place, number: u32, name: u32) -> Result<(), Stop>
    ensures { Leads (λ _. tt) (spec.tag_by at number name (state cx.old)) result (state cx.new) }
{
    match cx.scopes.find_tag_here(name) {
        Some(_) => Err(redeclared(at)),
        None => Ok(declare_tag(cx, name, Tag::Enumeration(number))?),
    }
}

/// Declares the tag of an enumeration that has a body.
fn declare_enumeration(cx: &mut Context, tag: &Name, number: u32) -> Result<(), Stop>
    ensures { Leads (λ _. tt) (spec.declare_tag (name_view tag.now) number (state cx.old)) result (state cx.new) }
{
    let name = cx.name(&tag.text)?;
    tag_by(cx, tag.place, number, name)
}

/// The value of an integer constant expression; None for any other term.
fn integer_constant(term: &CheckedTerm) -> Option<i128>
    ensures { result ≡ spec.integer_constant (term_tree term.now) }
{
    match &term.ctype {
        CType::Int(_) => term.constant,
        CType::Pointer(_) => None,
        CType::Array(_, _) => None,
        CType::Struct(_) => None,
        CType::Void => None,
    }
}

/// The value of an integer constant expression, which is kept; None for any other one.
fn constant_value(cx: &mut Context, operand: Operand) -> Result<Option<i128>, Memory>
    ensures { IfOk result (λ v. (v, state cx.new) ≡ spec.constant_value (operand_view operand) (state cx.old)) }
{
    let term = term_of(cx.alloc, operand)?;
    let value = integer_constant(&term);
    cx.keep_constant(term)?;
    Ok(value)
}

/// The value that an expression gives an enumeration constant; None where it is no constant.
fn given(cx: &mut Context, e: &Expr) -> Result<Option<i128>, Stop>
    ensures { Leads (λ v. v) (spec.given (state cx.old) (tree_of e.now)) result (state cx.new) }
{
    let operand = typed(cx, e)?;
    Ok(constant_value(cx, operand)?)
}

/// The value behind another one.
fn next_value(last: i128) -> Option<i128>
    ensures { result ≡ spec.next_value last }
{
    if last < i128::MAX {
        Some(last + 1)
    } else {
        None
    }
}

/// The value of an enumeration constant where that of the one before it is `last`.
fn enumerator_value(
    cx: &mut Context,
    enumerator: &Enumerator,
    last: i128,
) -> Result<Option<i128>, Stop>
    ensures { Leads (λ v. v) (spec.enumerator_value (state cx.old) (enumerator_view enumerator.now).value last) result (state cx.new) }
{
    match &enumerator.value {
        Some(e) => given(cx, e),
        None => Ok(next_value(last)),
    }
}

/// Whether an identifier may be declared in the innermost scope.
fn is_free(cx: &Context, name: u32, text: &Name) -> bool
    ensures { result ≡ spec.is_free (state cx.now) name (name_view text.now).text }
{
    if cx.scopes.find_here(name).is_none() {
        !is_library_name(&text.text)
    } else {
        false
    }
}

/// An enumeration constant of a value, which has to be an int.
fn value_of(cx: &mut Context, place: Place, name: u32, value: Option<i128>) -> Result<i128, Stop>
    ensures { Leads (λ n. n) (spec.value_of place name (state cx.old) value) result (state cx.new) }
{
    match value {
        Some(n) => {
            if has_number(int_kind(&cx.model.numbers), n) {
                declare_meaning(cx, name, Meaning::Enumerator(n))?;
                Ok(n)
            } else {
                Err(constant_needed(place))
            }
        }
        None => Err(constant_needed(place)),
    }
}

/// Declares an enumeration constant by the number of its name.
fn value_by(cx: &mut Context, known: u32, name: &Name, value: Option<i128>) -> Result<i128, Stop>
    ensures { Leads (λ n. n) (spec.value_by known (name_view name.now) value (state cx.old)) result (state cx.new) }
{
    if is_free(cx, known, name) {
        value_of(cx, name.place, known, value)
    } else {
        Err(redeclared(name.place))
    }
}

/// Declares an enumeration constant of a value, or of none; its value.
fn declare_value(cx: &mut Context, name: &Name, value: Option<i128>) -> Result<i128, Stop>
    ensures { Leads (λ n. n) (spec.declare_value (name_view name.now) value (state cx.old)) result (state cx.new) }
{
    let known = cx.name(&name.text)?;
    value_by(cx, known, name, value)
}

/// Declares an enumeration constant; its value.
fn declare_enumerator(cx: &mut Context, enumerator: &Enumerator, last: i128) -> Result<i128, Stop>
    ensures { Leads (λ n. n) (spec.declare_enumerator (state cx.old) (enumerator_view enumerator.now) last) result (state cx.new) }
{
    let value = enumerator_value(cx, enumerator, last)?;
    declare_value(cx, &enumerator.name, value)
}

/// An enumeration more, of which no value is known; its number.
fn new_enumeration(cx: &mut Context) -> Result<u32, Memory>
    ensures number { IfOk result (λ n. n ≡ length (state cx.old).enumerations) }
    ensures after { IfOk result (λ _. state cx.new ≡ spec.with_enumeration (state cx.old)) }
{
    let number = u32::try_from(cx.enumerations.len()).map_err(|_| Memory)?;
    cx.enumerations.push(Vec::new(cx.alloc))?;
    Ok(number)
}

/// Keeps the values of an enumeration.
fn keep_values(cx: &mut Context, number: u32, values: Vec<i128>)
    ensures { state cx.new ≡ spec.with_values (state cx.old) number values.items }
{
    if let Some(known) = cx.enumerations.get_mut(number as usize) {
        *known = values;
    }
}

/// The values of enumeration constants so far, and that of the one before the next.
#[derive(Drop)]
struct Numbering {
    last: i128,
    values: Vec<i128>,
}

/// Declares an enumeration constant, and keeps its value.
fn add_enumerator(
    cx: &mut Context,
    enumerator: &Enumerator,
    numbering: &mut Numbering,
) -> Result<(), Stop>
    ensures value { Leads (λ _. numbering.new.last) (spec.declare_enumerator (state cx.old) (enumerator_view enumerator.now) numbering.old.last) result (state cx.new) }
    ensures kept { IfOk result (λ _. numbering.new.values.items ≡ numbering.old.values.items ++ numbering.new.last ∷ []) }
{
    let value = declare_enumerator(cx, enumerator, numbering.last)?;
    numbering.last = value;
    numbering.values.push(value)?;
    Ok(())
}

/// Declares enumeration constants in order, the first one behind a value; their values.
fn enumerator_values(
    cx: &mut Context,
    enumerators: &[Enumerator],
    before: i128,
) -> Result<Vec<i128>, Stop>
    ensures { Leads (λ v. v.items) (spec.enumerator_values (state cx.old) (map enumerator_view enumerators.now) before) result (state cx.new) }
{
    let mut numbering = Numbering {
        last: before,
        values: Vec::new(cx.alloc),
    };
    for enumerator in enumerators {
        add_enumerator(cx, enumerator, &mut numbering)?;
    }
    Ok(numbering.values)
}

/// Declares the tag of an enumeration that has a body, where it has one.
fn tagged(cx: &mut Context, tag: Option<&Name>, number: u32) -> Result<(), Stop>
    ensures { Leads (λ _. tt) (spec.tagged (option_map (λ n. name_view n.now) tag.entry) number (state cx.old)) result (state cx.new) }
{
    match tag {
        Some(tag) => declare_enumeration(cx, tag, number),
        None => Ok(()),
    }
}

/// An enumeration with a body; its number.
pub fn enumeration(
    cx: &mut Context,
    tag: Option<&Name>,
    enumerators: &[Enumerator],
) -> Result<u32, Stop>
    ensures { Leads (λ n. n) (spec.enumeration (state cx.old) (option_map (λ n. name_view n.now) tag.entry) (map enumerator_view enumerators.now)) result (state cx.new) }
{
    let number = new_enumeration(cx)?;
    let values = enumerator_values(cx, enumerators, -1)?;
    tagged(cx, tag, number)?;
    keep_values(cx, number, values);
    Ok(number)
}
