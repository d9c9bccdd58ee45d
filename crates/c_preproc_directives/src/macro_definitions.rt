//! `#define`: the definitions of macros (6.10.3).
ghost use Rattle.std.specs.Prelude.{◌≡◌, ◌≤◌, ◌∷◌, [], codes, nat_eq, map, position, option_map, Some, None, MatchResult, IfOk, IfSome};
ghost use Rattle.c_preproc_directives.specs.Definitions.{is_spelled, is_barred, may_be_defined, fresh_name, fresh, ends, closes, heading, headed, part_in, function_like, object_like, definition, close_by, Refuses, kind_rank, is_name, is_open, is_comma, is_other, same_spelling, same_space, is_parameter, is_word, same_part, same_rest, same_body, same_parameters, same_definition};
ghost use Rattle.c_preproc_macros.specs.Numbering.{texts_of};
ghost use Rattle.c_preproc_macros.specs.Rules.{defined_of};
ghost use Rattle.std.specs.Prelude.{vec_items};

use c_preproc_macros::{Lexeme, Macro, Part, Spellings};
use cc_base::{Kind, Memory};
use indexmap::IndexSet;
use std::alloc::{AllocError, AllocFailed, Global};

/// Why a line defines no macro.
#[derive(Clone, Copy, PartialEq, Eq, Debug)]
pub enum DefinitionFault {
    Malformed,
    Memory,
}

impl From<AllocError> for DefinitionFault {
    ghost use Rattle.std.specs.Prelude.{◌≡◌};
    ghost use Rattle.c_preproc_directives.specs.declared.macro_definitions.DefinitionFault.TheVariants as definition_fault;

    ghost from_gives = { λ _ e. e ≡ definition_fault.Memory };

    fn from(_error: AllocError) -> DefinitionFault {
        DefinitionFault::Memory
    }
}

impl<T: Drop> From<AllocFailed<T>> for DefinitionFault {
    ghost use Rattle.std.specs.Prelude.{◌≡◌};
    ghost use Rattle.c_preproc_directives.specs.declared.macro_definitions.DefinitionFault.TheVariants as definition_fault;

    ghost from_gives = { λ _ e. e ≡ definition_fault.Memory };

    fn from(_error: AllocFailed<T>) -> DefinitionFault {
        DefinitionFault::Memory
    }
}

/// Whether a name is spelled so.
fn is_spelled(spellings: &Spellings, name: u32, text: &[u8]) -> bool
    ensures { result ≡ is_spelled (texts_of spellings.now) name text.now }
{
    spellings.text(name) == text
}

/// Whether a name may be defined and undefined.
pub fn may_be_defined(spellings: &Spellings, name: u32) -> bool
    ensures { result ≡ may_be_defined (texts_of spellings.now) name }
{
    !is_spelled(spellings, name, b"defined") && !is_spelled(spellings, name, b"__STDC__")
}

/// Adds the name of a parameter.
fn add_name(
    spellings: &Spellings,
    names: &mut IndexSet<u32>,
    name: u32,
) -> Result<(), DefinitionFault>
    ensures { let found = fresh_name (is_barred (texts_of spellings.now)) names.old.keys name in MatchResult result (λ _. found ≡ Some names.new.keys) (Refuses found) }
{
    if is_spelled(spellings, name, b"__VA_ARGS__") {
        return Err(DefinitionFault::Malformed);
    }
    let (_, is_new) = names.insert_full(name)?;
    if is_new {
        Ok(())
    } else {
        Err(DefinitionFault::Malformed)
    }
}

/// Adds a parameter.
fn add_parameter(
    spellings: &Spellings,
    names: &mut IndexSet<u32>,
    x: Lexeme,
) -> Result<(), DefinitionFault>
    ensures { let found = fresh (is_barred (texts_of spellings.now)) names.old.keys x in MatchResult result (λ _. found ≡ Some names.new.keys) (Refuses found) }
{
    match x {
        Lexeme::Name(name, _) => add_name(spellings, names, name),
        _ => Err(DefinitionFault::Malformed),
    }
}

/// Whether a token ends the parameters; None where it does not part them either.
fn ends(x: Lexeme) -> Option<bool>
    ensures { result ≡ ends x }
{
    match x {
        Lexeme::Close(_) => Some(true),
        Lexeme::Comma(_) => Some(false),
        _ => None,
    }
}

/// One or more parameters, and what follows their `)`.
fn listed<'a>(
    alloc: Global,
    spellings: &Spellings,
    rest: &'a [Lexeme],
) -> Result<(IndexSet<u32>, &'a [Lexeme]), DefinitionFault>
    ensures { let found = heading (is_barred (texts_of spellings.now)) [] rest.now in MatchResult result (λ p. found ≡ Some (record { names = p.0.keys; list = p.1.now })) (Refuses found) }
{
    let mut names = IndexSet::new(alloc);
    let mut left = rest;
    'names: while let [x, behind, more @ ..] = left {
        match add_parameter(spellings, &mut names, *x) {
            Ok(()) => {}
            Err(fault) => return Err(fault),
        }
        match ends(*behind) {
            Some(true) => return Ok((names, more)),
            Some(false) => left = more,
            None => return Err(DefinitionFault::Malformed),
        }
    }
    Err(DefinitionFault::Malformed)
}

fn is_close(x: Lexeme) -> bool
    ensures { result ≡ closes x }
{
    match x {
        Lexeme::Close(_) => true,
        _ => false,
    }
}

/// The parameters that begin with this token of the rest of a line, and what follows their `)`.
fn headed_by<'a>(
    alloc: Global,
    spellings: &Spellings,
    first: Lexeme,
    more: &'a [Lexeme],
    rest: &'a [Lexeme],
) -> Result<(IndexSet<u32>, &'a [Lexeme]), DefinitionFault>
    requires { rest.now ≡ first ∷ more.now }
    ensures rest { rest.now ≡ first ∷ more.now }
    ensures found { let found = headed (is_barred (texts_of spellings.now)) (first ∷ more.now) in MatchResult result (λ p. found ≡ Some (record { names = p.0.keys; list = p.1.now })) (Refuses found) }
{
    if is_close(first) {
        Ok((IndexSet::new(alloc), more))
    } else {
        listed(alloc, spellings, rest)
    }
}

/// The parameters behind the `(` of a definition, and what follows their `)`.
fn parameters<'a>(
    alloc: Global,
    spellings: &Spellings,
    rest: &'a [Lexeme],
) -> Result<(IndexSet<u32>, &'a [Lexeme]), DefinitionFault>
    ensures { let found = headed (is_barred (texts_of spellings.now)) rest.now in MatchResult result (λ p. found ≡ Some (record { names = p.0.keys; list = p.1.now })) (Refuses found) }
{
    match rest {
        [] => Err(DefinitionFault::Malformed),
        [first, more @ ..] => headed_by(alloc, spellings, *first, more, rest),
    }
}

/// A token of a replacement list.
fn part(names: &IndexSet<u32>, x: Lexeme) -> Result<Part, Memory>
    ensures { IfOk result (λ p. p ≡ part_in names.now.keys x) }
{
    match x {
        Lexeme::Name(name, mark) => match names.get_index_of(&name) {
            None => Ok(Part::Word(x)),
            Some(index) => match u32::try_from(index) {
                Ok(k) => Ok(Part::Parameter(k, mark.space)),
                Err(_) => Err(Memory),
            },
        },
        _ => Ok(Part::Word(x)),
    }
}

/// A replacement list with its parameters by number.
fn body_of(alloc: Global, names: &IndexSet<u32>, list: &[Lexeme]) -> Result<Vec<Part>, Memory>
    ensures { IfOk result (λ body. body.items ≡ map (part_in names.now.keys) list.now) }
{
    let mut body = Vec::with_capacity(alloc, list.len())?;
    for x in list {
        let next = part(names, *x)?;
        body.push(next)?;
    }
    Ok(body)
}

fn names_of(alloc: Global, names: &IndexSet<u32>) -> Result<Vec<u32>, Memory>
    ensures { IfOk result (λ list. list.items ≡ names.now.keys) }
{
    let list = names.iter().copied().collect(alloc)?;
    Ok(list)
}

/// A function-like macro with these parameters and this list.
fn function_like(alloc: Global, names: &IndexSet<u32>, list: &[Lexeme]) -> Result<Macro, Memory>
    ensures { IfOk result (λ m. defined_of m ≡ function_like (record { names = names.now.keys; list = list.now })) }
{
    let body = body_of(alloc, names, list)?;
    let parameters = names_of(alloc, names)?;
    Ok(Macro {
        parameters: Some(parameters),
        body,
    })
}

/// An object-like macro with this list.
fn object_like(alloc: Global, list: &[Lexeme]) -> Result<Macro, Memory>
    ensures { IfOk result (λ m. defined_of m ≡ object_like list.now) }
{
    let names = IndexSet::new(alloc);
    let body = body_of(alloc, &names, list)?;
    Ok(Macro {
        parameters: None,
        body,
    })
}

/// The function-like macro whose parameters and list stand behind its `(`.
fn with_parameters(
    alloc: Global,
    spellings: &Spellings,
    rest: &[Lexeme],
) -> Result<Macro, DefinitionFault>
    ensures { let found = option_map function_like (headed (is_barred (texts_of spellings.now)) rest.now) in MatchResult result (λ m. found ≡ Some (defined_of m)) (Refuses found) }
{
    match parameters(alloc, spellings, rest) {
        Err(fault) => Err(fault),
        Ok((names, list)) => match function_like(alloc, &names, list) {
            Ok(made) => Ok(made),
            Err(_) => Err(DefinitionFault::Memory),
        },
    }
}

/// The macro behind whose name this token stands without white space.
fn close_by(
    alloc: Global,
    spellings: &Spellings,
    x: Lexeme,
    more: &[Lexeme],
) -> Result<Macro, DefinitionFault>
    ensures { let found = close_by (is_barred (texts_of spellings.now)) x more.now in MatchResult result (λ m. found ≡ Some (defined_of m)) (Refuses found) }
{
    match x {
        Lexeme::Open(_) => with_parameters(alloc, spellings, more),
        _ => Err(DefinitionFault::Malformed),
    }
}

/// The object-like macro with this list.
fn object(alloc: Global, list: &[Lexeme]) -> Result<Macro, DefinitionFault>
    ensures { MatchResult result (λ m. defined_of m ≡ object_like list.now) (Refuses (Some (object_like list.now))) }
{
    match object_like(alloc, list) {
        Ok(made) => Ok(made),
        Err(_) => Err(DefinitionFault::Memory),
    }
}

/// The macro that is defined by the rest of a line behind its name: a `(` without white space
/// before it begins the parameters, and an object-like macro has white space behind its name.
pub fn definition(
    alloc: Global,
    spellings: &Spellings,
    rest: &[Lexeme],
) -> Result<Macro, DefinitionFault>
    ensures { let found = definition (is_barred (texts_of spellings.now)) rest.now in MatchResult result (λ m. found ≡ Some (defined_of m)) (Refuses found) }
{
    match rest {
        [] => object(alloc, rest),
        [first, more @ ..] => {
            if first.mark().space {
                object(alloc, rest)
            } else {
                close_by(alloc, spellings, *first, more)
            }
        }
    }
}

fn kind_rank(kind: Kind) -> u8
    ensures { result ≡ kind_rank kind }
{
    match kind {
        Kind::Name => 0,
        Kind::Number => 1,
        Kind::Char => 2,
        Kind::Str => 3,
        Kind::Punct => 4,
        Kind::HeaderName => 5,
    }
}

fn is_name(name: u32, y: Lexeme) -> bool
    ensures { result ≡ is_name name y }
{
    match y {
        Lexeme::Name(other, _) => name == other,
        _ => false,
    }
}

fn is_open(y: Lexeme) -> bool
    ensures { result ≡ is_open y }
{
    match y {
        Lexeme::Open(_) => true,
        _ => false,
    }
}

fn is_comma(y: Lexeme) -> bool
    ensures { result ≡ is_comma y }
{
    match y {
        Lexeme::Comma(_) => true,
        _ => false,
    }
}

fn is_other(kind: Kind, text: u32, y: Lexeme) -> bool
    ensures { result ≡ is_other kind text y }
{
    match y {
        Lexeme::Other(k, t, _) => kind_rank(kind) == kind_rank(k) && text == t,
        _ => false,
    }
}

/// Whether two tokens are spelled alike.
fn same_spelling(x: Lexeme, y: Lexeme) -> bool
    ensures { result ≡ same_spelling x y }
{
    match x {
        Lexeme::Name(name, _) => is_name(name, y),
        Lexeme::Open(_) => is_open(y),
        Lexeme::Close(_) => is_close(y),
        Lexeme::Comma(_) => is_comma(y),
        Lexeme::Other(kind, text, _) => is_other(kind, text, y),
        Lexeme::Painted(_, _) => false,
    }
}

/// Whether white space stands before both or before none; the first of a list may have it or not.
fn same_space(is_first: bool, s: bool, t: bool) -> bool
    ensures { result ≡ same_space is_first s t }
{
    if is_first {
        return true;
    }
    if s { t } else { !t }
}

fn is_parameter(is_first: bool, index: u32, space: bool, y: Part) -> bool
    ensures { result ≡ is_parameter is_first index space y }
{
    match y {
        Part::Parameter(j, t) => index == j && same_space(is_first, space, t),
        Part::Word(_) => false,
    }
}

fn is_word(is_first: bool, x: Lexeme, y: Part) -> bool
    ensures { result ≡ is_word is_first x y }
{
    match y {
        Part::Parameter(_, _) => false,
        Part::Word(w) => {
            same_spelling(x, w) && same_space(is_first, x.mark().space, w.mark().space)
        }
    }
}

/// Whether two parts are spelled alike, with white space before both or before none.
fn same_part(is_first: bool, x: Part, y: Part) -> bool
    ensures { result ≡ same_part is_first x y }
{
    match x {
        Part::Parameter(index, space) => is_parameter(is_first, index, space, y),
        Part::Word(v) => is_word(is_first, v, y),
    }
}

/// Whether two lists behind their first parts are the same.
fn same_rest(x: &[Part], y: &[Part]) -> bool
    ensures { result ≡ same_rest x.now y.now }
{
    let mut others = y;
    for a in x {
        match others {
            [] => return false,
            [b, more @ ..] => {
                if !same_part(false, *a, *b) {
                    return false;
                }
                others = more;
            }
        }
    }
    others.is_empty()
}

/// Whether two replacement lists are the same.
fn same_body(x: &[Part], y: &[Part]) -> bool
    ensures { result ≡ same_body x.now y.now }
{
    match x {
        [] => y.is_empty(),
        [a, rest @ ..] => match y {
            [] => false,
            [b, others @ ..] => same_part(true, *a, *b) && same_rest(rest, others),
        },
    }
}

fn same_parameters(x: &Option<Vec<u32>>, y: &Option<Vec<u32>>) -> bool
    ensures { result ≡ same_parameters (option_map vec_items x.now) (option_map vec_items y.now) }
{
    match x {
        None => y.is_none(),
        Some(names) => match y {
            None => false,
            Some(others) => names.as_slice() == others.as_slice(),
        },
    }
}

/// Whether two definitions are the same (6.10.3p1 and p2).
pub fn same_definition(x: &Macro, y: &Macro) -> bool
    ensures { result ≡ same_definition (defined_of x.now) (defined_of y.now) }
{
    same_parameters(&x.parameters, &y.parameters) && same_body(x.body.as_slice(), y.body.as_slice())
}
