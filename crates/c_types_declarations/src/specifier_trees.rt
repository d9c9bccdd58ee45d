//! The way down declaration specifiers and the bodies of structs (6.7, 6.7.2.1 of ISO/IEC
//! 9899:2011).
ghost use Rattle.std.specs.Prelude.{◌≡◌, map, option_map};
ghost use Rattle.c_layout.specs.StructLayouts.{partial_view, no_members};
ghost use Rattle.c_layout.specs.DeclarationTrees.{name_view, spec_tree, spec_trees, member_tree, member_trees};
ghost use Rattle.c_types_scopes.specs.Answers.{Leads};
ghost use Rattle.c_types_scopes.specs.States.{state};
ghost use Rattle.c_types_declarations.specs.Specifiers.{specified_view, reading_view, nothing_read};
ghost use Rattle.c_types_declarations.specs.SpecifierTrees as spec;

use crate::enumerations::enumeration;
use crate::specifiers::{Reading, Specified, said};
use crate::struct_bodies::{alone_tag, begun_body, declared_members, ended};
use c_layout::{Member, Name, SpecWord, StructLayout};
use c_types_expressions::expressions::{enumeration_tag, struct_tag, typedef_named};
use c_types_scopes::{Context, type_fault};
use cc_base::{Place, Stop};

/// A `struct` without a body. `alone` says that nothing is declared but its tag.
fn struct_alone(
    cx: &mut Context,
    place: Place,
    tag: Option<&Name>,
    alone: bool,
) -> Result<u32, Stop>
    ensures { Leads (λ n. n) (spec.struct_alone (state cx.old) alone place (option_map (λ n. name_view n.now) tag.entry)) result (state cx.new) }
{
    match tag {
        None => Err(type_fault(place)),
        Some(tag) => {
            if alone {
                alone_tag(cx, tag)
            } else {
                struct_tag(cx, tag)
            }
        }
    }
}

/// An `enum` without a body.
fn enumeration_alone(cx: &mut Context, place: Place, tag: Option<&Name>) -> Result<u32, Stop>
    ensures { Leads (λ n. n) (spec.enumeration_alone (state cx.old) place (option_map (λ n. name_view n.now) tag.entry)) result (state cx.new) }
{
    match tag {
        None => Err(type_fault(place)),
        Some(tag) => enumeration_tag(cx, place, tag),
    }
}

/// Reads one specifier. `alone` says that nothing is declared but its tag.
#[cycle(specifiers)]
fn read(cx: &mut Context, word: &SpecWord, alone: bool, reading: &mut Reading) -> Result<(), Stop>
    ensures { Leads (λ _. reading_view reading.new) (spec.read (state cx.old) alone (reading_view reading.old) (spec_tree word.now)) result (state cx.new) }
{
    match word {
        SpecWord::Storage(_, storage) => {
            reading.storage = Some(*storage);
            Ok(())
        }
        SpecWord::Qualifier(_) => Ok(()),
        SpecWord::Type(_, named) => {
            reading.counts.add(*named);
            Ok(())
        }
        SpecWord::Struct(at, tag, None) => {
            let number = struct_alone(cx, *at, tag.as_ref(), alone)?;
            reading.name_struct(number, tag.is_some());
            Ok(())
        }
        SpecWord::Struct(at, tag, Some(members)) => {
            let number = struct_body(cx, *at, tag.as_ref(), members.as_slice())?;
            reading.name_struct(number, tag.is_some());
            Ok(())
        }
        SpecWord::Enum(at, tag, None) => {
            let number = enumeration_alone(cx, *at, tag.as_ref())?;
            reading.name_enumeration(cx, number);
            Ok(())
        }
        SpecWord::Enum(_, tag, Some(enumerators)) => {
            let number = enumeration(cx, tag.as_ref(), enumerators.as_slice())?;
            reading.name_enumeration(cx, number);
            Ok(())
        }
        SpecWord::Typedef(name) => {
            reading.named = Some(typedef_named(cx, name)?);
            Ok(())
        }
    }
}

/// Reads specifiers in order.
#[cycle(specifiers)]
fn read_all(cx: &mut Context, words: &[SpecWord], alone: bool) -> Result<Reading, Stop>
    ensures { Leads reading_view (spec.read_all (state cx.old) alone nothing_read (spec_trees (map spec_tree words.now))) result (state cx.new) }
{
    let mut reading = Reading::new();
    for word in words {
        read(cx, word, alone, &mut reading)?;
    }
    Ok(reading)
}

/// Adds the members of one declaration; how many members there are then.
#[cycle(specifiers)]
fn add_members(
    cx: &mut Context,
    owner: u32,
    place: Place,
    member: &Member,
    fields: u32,
    layout: &mut StructLayout,
) -> Result<u32, Stop>
    ensures { Leads (λ n. (n, partial_view layout.new)) (spec.add_members (state cx.old) owner place fields (partial_view layout.old) (member_tree member.now)) result (state cx.new) }
{
    let reading = read_all(cx, member.words.as_slice(), false)?;
    let base = said(cx, place, reading)?;
    declared_members(
        cx,
        owner,
        &base,
        member.declarators.as_slice(),
        fields,
        layout,
    )
}

/// The members of a body, laid out.
#[cycle(specifiers)]
fn laid_out(
    cx: &mut Context,
    owner: u32,
    place: Place,
    members: &[Member],
) -> Result<StructLayout, Stop>
    ensures { Leads partial_view (spec.laid_out (state cx.old) owner place 0 no_members (member_trees (map member_tree members.now))) result (state cx.new) }
{
    let mut layout = StructLayout::new(cx.alloc);
    let mut fields = 0u32;
    for member in members {
        fields = add_members(cx, owner, place, member, fields, &mut layout)?;
    }
    Ok(layout)
}

/// A struct with a body, at its word; its number. A second body is typed as that of another struct
/// before it is refused.
#[cycle(specifiers)]
fn struct_body(
    cx: &mut Context,
    place: Place,
    tag: Option<&Name>,
    members: &[Member],
) -> Result<u32, Stop>
    ensures { Leads (λ n. n) (spec.struct_body (state cx.old) place (option_map (λ n. name_view n.now) tag.entry) (member_trees (map member_tree members.now))) result (state cx.new) }
{
    let begun = begun_body(cx, place, tag)?;
    let layout = laid_out(cx, begun.number, place, members)?;
    ended(cx, begun, layout)
}

/// Whether there is one specifier.
fn is_single(words: &[SpecWord]) -> bool
    ensures { result ≡ spec.is_single (spec_trees (map spec_tree words.now)) }
{
    match words {
        [] => false,
        [_] => true,
        [_, _, ..] => false,
    }
}

/// Whether one specifier stands alone.
fn is_alone(words: &[SpecWord], alone: bool) -> bool
    ensures { result ≡ spec.is_alone alone (spec_trees (map spec_tree words.now)) }
{
    if alone { is_single(words) } else { false }
}

/// What specifiers say; `place` is that of the first one, and `alone` says that no declarator
/// follows them.
pub fn specifiers_of(
    cx: &mut Context,
    place: Place,
    words: &[SpecWord],
    alone: bool,
) -> Result<Specified, Stop>
    ensures { Leads specified_view (spec.specifiers (state cx.old) place alone (spec_trees (map spec_tree words.now))) result (state cx.new) }
{
    let reading = read_all(cx, words, is_alone(words, alone))?;
    said(cx, place, reading)
}
