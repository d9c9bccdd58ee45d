//! Tags, typedef names and type names (6.7.2.2, 6.7.2.3, 6.7.7, 6.7.8 of ISO/IEC 9899:2011).
ghost use Rattle.std.specs.Prelude.{◌≡◌, IfOk, length, map, option_map};
ghost use Rattle.c_layout.specs.Types.{view};
ghost use Rattle.c_layout.specs.SyntaxTrees.{layer_view, type_name_view};
ghost use Rattle.c_types_scopes.specs.Answers.{Gives, Leads};
ghost use Rattle.c_types_scopes.specs.Known.{known};
ghost use Rattle.c_types_scopes.specs.DeclaredTypes.{declared_view};
ghost use Rattle.c_types_scopes.specs.States.{state};
ghost use Rattle.c_types_primary.specs.TypeNames as spec;
ghost use Rattle.c_types_primary.specs.TypeNames.{tagged_view, said_view, steps_view, numbers_view, same_number};

use crate::primaries::meaning_of;
use c_layout::{AbstractLayer, Brackets, CType, Name, Storage, TypeName, TypeNameWord};
use c_types_rules::rules::{NamedKind, WordCounts, int_kind};
use c_types_scopes::{
    Context, DeclaredType, Meaning, Tag, TypeStep, constant_needed, redeclared, stepped,
    type_fault, undeclared,
};
use cc_base::{Memory, Place, Stop};

/// What the words of a type say besides those of an integer type.
#[derive(Drop)]
pub enum Tagged {
    /// Nothing.
    Nothing,
    /// The type that a tag or a typedef name means.
    Type(DeclaredType),
}

/// A struct more, whose tag is declared in the innermost scope.
fn declared_struct(cx: &mut Context, name: u32) -> Result<u32, Memory>
    ensures number { IfOk result (λ n. n ≡ length (state cx.old).types.structs) }
    ensures after { IfOk result (λ _. state cx.new ≡ spec.with_struct_tag (state cx.old) name) }
{
    let number = cx.types.declare(cx.alloc)?;
    cx.scopes.declare_tag(name, Tag::Struct(number))?;
    Ok(number)
}

/// The struct of a tag with a numbered name.
fn struct_numbered(cx: &mut Context, tag: &Name, name: u32) -> Result<u32, Stop>
    ensures { Leads same_number (spec.struct_numbered (state cx.old) tag.now name) result (state cx.new) }
{
    match cx.scopes.find_tag(name) {
        Some(Tag::Struct(number)) => Ok(number),
        Some(Tag::Enumeration(_)) => Err(redeclared(tag.place)),
        None => Ok(declared_struct(cx, name)?),
    }
}

/// The struct of a tag, which its first mention declares in the innermost scope.
pub fn struct_tag(cx: &mut Context, tag: &Name) -> Result<u32, Stop>
    ensures { Leads same_number (spec.struct_tag (state cx.old) tag.now) result (state cx.new) }
{
    let name = cx.name(&tag.text)?;
    struct_numbered(cx, tag, name)
}

/// The enumerated type of a tag with a numbered name.
fn enumeration_numbered(cx: &Context, word: Place, tag: &Name, name: u32) -> Result<u32, Stop>
    ensures { Gives same_number (spec.enumeration_numbered (state cx.now) word tag.now name) result }
{
    match cx.scopes.find_tag(name) {
        Some(Tag::Enumeration(number)) => Ok(number),
        Some(Tag::Struct(_)) => Err(redeclared(tag.place)),
        None => Err(undeclared(word)),
    }
}

/// The enumerated type of a tag, which has to be declared; `word` is the place of `enum`.
pub fn enumeration_tag(cx: &mut Context, word: Place, tag: &Name) -> Result<u32, Stop>
    ensures { Leads same_number (spec.enumeration_tag (state cx.old) word tag.now) result (state cx.new) }
{
    let name = cx.name(&tag.text)?;
    enumeration_numbered(cx, word, tag, name)
}

/// The type of the typedef name with a number.
fn typedef_numbered(cx: &Context, place: Place, number: u32) -> Result<DeclaredType, Stop>
    ensures { Gives declared_view (spec.typedef_numbered (state cx.now) place number) result }
{
    match cx.typedefs.get(number as usize) {
        Some(found) => Ok(found.copy(cx.alloc)?),
        None => Err(undeclared(place)),
    }
}

/// The type of a typedef name.
pub fn typedef_named(cx: &Context, name: &Name) -> Result<DeclaredType, Stop>
    ensures { Gives declared_view (spec.typedef_named (state cx.now) name.now) result }
{
    match meaning_of(cx, &name.text) {
        Some(Meaning::Typedef(number)) => typedef_numbered(cx, name.place, number),
        Some(Meaning::Static(_)) => Err(undeclared(name.place)),
        Some(Meaning::Local(_)) => Err(undeclared(name.place)),
        Some(Meaning::Function(_)) => Err(undeclared(name.place)),
        Some(Meaning::Enumerator(_)) => Err(undeclared(name.place)),
        None => Err(undeclared(name.place)),
    }
}

/// A `struct` and its tag.
fn struct_word(cx: &mut Context, tag: &Name) -> Result<Tagged, Stop>
    ensures { Leads tagged_view (spec.struct_word (state cx.old) tag.now) result (state cx.new) }
{
    let number = struct_tag(cx, tag)?;
    Ok(Tagged::Type(DeclaredType::plain(CType::Struct(number))))
}

/// An enumerated type is int.
fn enumerated(cx: &Context, number: u32) -> DeclaredType
    ensures { declared_view result ≡ spec.enumerated (known cx.now) number }
{
    DeclaredType {
        ctype: CType::Int(int_kind(&cx.model.numbers)),
        enumeration: Some(number),
    }
}

/// An `enum` and its tag.
fn enumeration_word(cx: &mut Context, at: Place, tag: &Name) -> Result<Tagged, Stop>
    ensures { Leads tagged_view (spec.enumeration_word (state cx.old) at tag.now) result (state cx.new) }
{
    let number = enumeration_tag(cx, at, tag)?;
    Ok(Tagged::Type(enumerated(cx, number)))
}

/// A typedef name.
fn typedef_word(cx: &Context, name: &Name) -> Result<Tagged, Stop>
    ensures { Gives tagged_view (spec.typedef_word (state cx.now) name.now) result }
{
    Ok(Tagged::Type(typedef_named(cx, name)?))
}

/// What a storage class says: `auto` and `register` say nothing, and others are refused at the place
/// of the `sizeof` or the cast (6.7.1, 6.7.7).
fn storage_word(place: Place, class: Storage) -> Result<Tagged, Stop>
    ensures { Gives tagged_view (spec.storage_word place class) result }
{
    match class {
        Storage::Auto | Storage::Register => Ok(Tagged::Nothing),
        Storage::Typedef | Storage::Extern | Storage::Static => Err(type_fault(place)),
    }
}

/// What one word of a type name says. `place` is that of the `sizeof` or the cast.
fn word_type(cx: &mut Context, place: Place, word: &TypeNameWord) -> Result<Tagged, Stop>
    ensures { Leads tagged_view (spec.word_type (state cx.old) place word.now) result (state cx.new) }
{
    match word {
        TypeNameWord::Storage(_, class) => storage_word(place, *class),
        TypeNameWord::Qualifier(_) => Ok(Tagged::Nothing),
        TypeNameWord::Type(_, _) => Ok(Tagged::Nothing),
        TypeNameWord::Struct(_, tag) => struct_word(cx, tag),
        TypeNameWord::Enum(at, tag) => enumeration_word(cx, *at, tag),
        TypeNameWord::Typedef(name) => typedef_word(cx, name),
    }
}

/// The words of integer types are counted.
fn counted(counts: WordCounts, word: &TypeNameWord) -> WordCounts
    ensures { result ≡ spec.counted counts word.now }
{
    let mut made = counts;
    if let TypeNameWord::Type(_, named) = word {
        made.add(*named);
    }
    made
}

/// What is said last.
fn newest(old: Tagged, new: Tagged) -> Tagged
    ensures { tagged_view result ≡ spec.newest (tagged_view old) (tagged_view new) }
{
    match new {
        Tagged::Nothing => old,
        Tagged::Type(named) => Tagged::Type(named),
    }
}

/// What words say so far: the counts, and the type of the newest tag or typedef name.
#[derive(Drop)]
struct Said {
    counts: WordCounts,
    named: Tagged,
}

/// What a word more says.
fn one_word(cx: &mut Context, place: Place, said: Said, word: &TypeNameWord) -> Result<Said, Stop>
    ensures { Leads said_view (spec.one_word (state cx.old) place (said_view said) word.now) result (state cx.new) }
{
    let next = word_type(cx, place, word)?;
    Ok(Said {
        counts: counted(said.counts, word),
        named: newest(said.named, next),
    })
}

/// What words say.
fn words_said(cx: &mut Context, place: Place, words: &[TypeNameWord]) -> Result<Said, Stop>
    ensures { Leads said_view (spec.words_from (state cx.old) place spec.nothing_said words.now) result (state cx.new) }
{
    let mut said = Said {
        counts: WordCounts::new(),
        named: Tagged::Nothing,
    };
    for next in words {
        said = one_word(cx, place, said, next)?;
    }
    Ok(said)
}

/// The type that counted words name.
pub fn counted_type(cx: &Context, counts: WordCounts) -> Option<CType>
    ensures { option_map view result ≡ spec.counted_type (known cx.now) counts }
{
    match counts.named(&cx.model.numbers) {
        Some(NamedKind::Void) => Some(CType::Void),
        Some(NamedKind::Integer(kind)) => Some(CType::Int(kind)),
        None => None,
    }
}

/// The type that counted words name, or the refusal at a place.
fn counted_or_fault(cx: &Context, place: Place, counts: WordCounts) -> Result<CType, Stop>
    ensures { Gives view (spec.said_type (known cx.now) place counts None) result }
{
    match counted_type(cx, counts) {
        Some(named) => Ok(named),
        None => Err(type_fault(place)),
    }
}

/// The type that words say.
fn said_type(cx: &Context, place: Place, said: Said) -> Result<CType, Stop>
    ensures { Gives view (spec.said_type (known cx.now) place said.counts (tagged_view said.named)) result }
{
    match said.named {
        Tagged::Type(named) => Ok(named.ctype),
        Tagged::Nothing => counted_or_fault(cx, place, said.counts),
    }
}

/// The type that the words of a type name name.
fn words_type(cx: &mut Context, place: Place, words: &[TypeNameWord]) -> Result<CType, Stop>
    ensures { Leads view (spec.words_type (state cx.old) place words.now) result (state cx.new) }
{
    let said = words_said(cx, place, words)?;
    said_type(cx, place, said)
}

/// An array of the first length that is left; what is left of the lengths.
fn with_length<'a>(lengths: &'a [u64], steps: &mut Vec<TypeStep>) -> Result<&'a [u64], Memory>
    ensures { IfOk result (λ rest. steps_view steps.new rest.now ≡ spec.with_length steps.old.items lengths.now) }
{
    match lengths.split_first() {
        Some((first, more)) => {
            steps.push(TypeStep::Array(*first))?;
            Ok(more)
        }
        None => {
            steps.push(TypeStep::Array(0))?;
            Ok(lengths)
        }
    }
}

/// The array of brackets; what is left of the lengths.
fn with_brackets<'a>(
    brackets: &Brackets,
    lengths: &'a [u64],
    steps: &mut Vec<TypeStep>,
) -> Result<&'a [u64], Memory>
    ensures { IfOk result (λ rest. steps_view steps.new rest.now ≡ spec.with_brackets (steps_view steps.old lengths.now) brackets.now) }
{
    if brackets.has_length {
        with_length(lengths, steps)
    } else {
        steps.push(TypeStep::Array(0))?;
        Ok(lengths)
    }
}

/// The arrays of brackets; what is left of the lengths.
#[tactic(auto, unfolding(crate::specs::TypeNames::with_arrays))]
fn with_arrays<'a>(
    arrays: &[Brackets],
    lengths: &'a [u64],
    steps: &mut Vec<TypeStep>,
) -> Result<&'a [u64], Memory>
    ensures { IfOk result (λ rest. steps_view steps.new rest.now ≡ spec.with_arrays (steps_view steps.old lengths.now) arrays.now) }
{
    let mut rest = lengths;
    for brackets in arrays {
        rest = with_brackets(brackets, rest, steps)?;
    }
    Ok(rest)
}

/// A pointer for each star.
#[tactic(auto, unfolding(crate::specs::TypeNames::with_stars))]
fn with_stars(stars: &[u32], steps: &mut Vec<TypeStep>) -> Result<(), Memory>
    ensures { IfOk result (λ _. steps.new.items ≡ spec.with_stars steps.old.items stars.now) }
{
    for _star in stars {
        steps.push(TypeStep::Pointer)?;
    }
    Ok(())
}

/// The steps of one layer, from its brackets outwards; what is left of the lengths.
fn with_layer<'a>(
    layer: &AbstractLayer,
    lengths: &'a [u64],
    steps: &mut Vec<TypeStep>,
) -> Result<&'a [u64], Memory>
    ensures { IfOk result (λ rest. steps_view steps.new rest.now ≡ spec.with_layer (steps_view steps.old lengths.now) (layer_view layer.now)) }
{
    let rest = with_arrays(layer.arrays.as_slice(), lengths, steps)?;
    with_stars(layer.stars.as_slice(), steps)?;
    Ok(rest)
}

/// The steps of an abstract declarator, from its innermost layer outwards.
#[tactic(auto, using(crate::proofs::Layers::none_yet), unfolding(crate::specs::TypeNames::with_layers))]
fn all_steps(
    cx: &Context,
    layers: &[AbstractLayer],
    lengths: &[u64],
) -> Result<Vec<TypeStep>, Memory>
    ensures { IfOk result (λ steps. steps.items ≡ spec.all_steps (map layer_view layers.now) lengths.now) }
{
    let mut steps = Vec::new(cx.alloc);
    let mut rest = lengths;
    for turn in 0..layers.len() {
        let layer = &layers[layers.len() - 1 - turn];
        rest = with_layer(layer, rest, &mut steps)?;
    }
    Ok(steps)
}

/// The lengths of arrays, each of which is a positive constant, or the refusal at a place.
#[tactic(auto, unfolding(crate::specs::TypeNames::constant_lengths))]
fn constant_lengths(cx: &Context, place: Place, lengths: &[Option<u64>]) -> Result<Vec<u64>, Stop>
    ensures { Gives numbers_view (spec.constant_lengths place lengths.now) result }
{
    let mut made = Vec::new(cx.alloc);
    for length in lengths {
        match *length {
            Some(count) => made.push(count)?,
            None => return Err(constant_needed(place)),
        }
    }
    Ok(made)
}

/// The type that steps make of a type, or the refusal at a place.
fn stepped_type(cx: &Context, place: Place, base: CType, steps: &[TypeStep]) -> Result<CType, Stop>
    ensures { Gives view (spec.stepped_type (known cx.now) place (view base) steps.now) result }
{
    let structs = &cx.types.structs;
    let pointer = cx.model.numbers.pointer;
    match stepped(cx.alloc, base, steps, structs, pointer)? {
        Some(made) => Ok(made),
        None => Err(type_fault(place)),
    }
}

/// The type that an abstract declarator makes of a type.
fn shaped(
    cx: &Context,
    place: Place,
    layers: &[AbstractLayer],
    lengths: &[Option<u64>],
    base: CType,
) -> Result<CType, Stop>
    ensures { Gives view (spec.shaped (known cx.now) place (map layer_view layers.now) lengths.now (view base)) result }
{
    let lengths = constant_lengths(cx, place, lengths)?;
    let steps = all_steps(cx, layers, lengths.as_slice())?;
    stepped_type(cx, place, base, steps.as_slice())
}

/// The type of a type name whose lengths have values; `place` is that of the `sizeof` or the cast.
pub fn named_type(
    cx: &mut Context,
    place: Place,
    name: &TypeName,
    lengths: &[Option<u64>],
) -> Result<CType, Stop>
    ensures { Leads view (spec.named_type (state cx.old) place (type_name_view name.now) lengths.now) result (state cx.new) }
{
    let base = words_type(cx, place, name.words.as_slice())?;
    shaped(cx, place, name.layers.as_slice(), lengths, base)
}
