//! Declaration specifiers (6.7.1 to 6.7.3 of ISO/IEC 9899:2011).
ghost use Rattle.std.specs.Prelude.{◌≡◌, MatchOption, true, false, option_map};
ghost use Rattle.c_types_scopes.specs.Answers.{Gives};
ghost use Rattle.c_types_scopes.specs.Known.{known};
ghost use Rattle.c_types_scopes.specs.DeclaredTypes.{declared_view};
ghost use Rattle.c_types_declarations.specs.Specifiers as spec;
ghost use Rattle.c_types_declarations.specs.Specifiers.{is_utf8, specified_view, reading_view};

use c_layout::{CType, Storage};
use c_library::headers::signature;
use c_types_rules::rules::{NamedKind, WordCounts, int_kind};
use c_types_scopes::{Context, DeclaredType, type_fault};
use cc_base::{Place, Stop, Text};

/// What specifiers say.
#[derive(Drop)]
pub struct Specified {
    pub declared: DeclaredType,
    pub storage: Option<Storage>,
    /// Whether they declare a tag or enumeration constants, and so may stand alone.
    pub declares: bool,
}

/// What specifiers say as far as they are read.
#[derive(Drop)]
pub struct Reading {
    pub counts: WordCounts,
    pub named: Option<DeclaredType>,
    pub storage: Option<Storage>,
    pub declares: bool,
}

impl Reading {
    /// Nothing is read.
    pub fn new() -> Reading
        ensures { reading_view result ≡ spec.nothing_read }
    {
        Reading {
            counts: WordCounts::new(),
            named: None,
            storage: None,
            declares: false,
        }
    }

    /// A `struct` or an `enum` of a type, and whether it declares something by itself.
    fn name(&mut self, declared: DeclaredType, declares: bool)
        ensures { reading_view self.new ≡ spec.with_named (reading_view self.old) (declared_view declared) declares }
    {
        self.named = Some(declared);
        self.declares = declares;
    }

    /// A `struct`, and whether it declares something by itself.
    pub fn name_struct(&mut self, number: u32, declares: bool)
        ensures { reading_view self.new ≡ spec.with_struct (reading_view self.old) number declares }
    {
        self.name(DeclaredType::plain(CType::Struct(number)), declares)
    }

    /// An `enum`, which declares something by itself.
    pub fn name_enumeration(&mut self, cx: &Context, number: u32)
        ensures { reading_view self.new ≡ spec.with_enumeration (known cx.now).numbers (reading_view self.old) number }
    {
        self.name(enumerated(cx, number), true)
    }
}

/// Bytes as a text, if they are one.
fn as_text(bytes: &[u8]) -> Option<&str>
    ensures { MatchOption result (is_utf8 bytes.now ≡ false) (λ s. (s.now ≡ bytes.now) × (is_utf8 bytes.now ≡ true)) }
{
    match std::str::from_utf8(bytes) {
        Ok(text) => Some(text),
        Err(_) => None,
    }
}

/// Whether the library has a function of this name.
pub fn is_library_name(name: &Text) -> bool
    ensures { result ≡ spec.is_library_name name.now }
{
    match as_text(name.as_bytes()) {
        Some(text) => signature(text).is_some(),
        None => false,
    }
}

/// An enumerated type is int.
fn enumerated(cx: &Context, number: u32) -> DeclaredType
    ensures { declared_view result ≡ spec.enumerated (known cx.now).numbers number }
{
    DeclaredType {
        ctype: CType::Int(int_kind(&cx.model.numbers)),
        enumeration: Some(number),
    }
}

/// The type that counted words name, or the refusal at a place.
fn counted(cx: &Context, place: Place, counts: WordCounts) -> Result<DeclaredType, Stop>
    ensures { Gives declared_view (spec.counted (known cx.now) place counts) result }
{
    match counts.named(&cx.model.numbers) {
        Some(NamedKind::Void) => Ok(DeclaredType::plain(CType::Void)),
        Some(NamedKind::Integer(kind)) => Ok(DeclaredType::plain(CType::Int(kind))),
        None => Err(type_fault(place)),
    }
}

/// The type of a tag or a typedef name, or else that of the words.
fn declared_of(
    cx: &Context,
    place: Place,
    named: Option<DeclaredType>,
    counts: WordCounts,
) -> Result<DeclaredType, Stop>
    ensures { Gives declared_view (spec.declared_of (known cx.now) place (option_map declared_view named) counts) result }
{
    match named {
        Some(named) => Ok(named),
        None => counted(cx, place, counts),
    }
}

/// What specifiers say that were read.
pub fn said(cx: &Context, place: Place, reading: Reading) -> Result<Specified, Stop>
    ensures { Gives specified_view (spec.said (known cx.now) place (reading_view reading)) result }
{
    let Reading {
        counts,
        named,
        storage,
        declares,
    } = reading;
    let declared = declared_of(cx, place, named, counts)?;
    Ok(Specified {
        declared,
        storage,
        declares,
    })
}
