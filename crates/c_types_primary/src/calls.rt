//! Calls (6.5.2.2 of ISO/IEC 9899:2011).
ghost use Rattle.std.specs.Prelude.{◌≡◌, IfOk, length, map, option_map};
ghost use Rattle.c_layout.specs.Types.{view};
ghost use Rattle.c_layout.specs.CheckedTrees.{term_tree};
ghost use Rattle.c_layout.specs.SyntaxTrees.{tree_of};
ghost use Rattle.c_types_scopes.specs.Answers.{Gives, Leads};
ghost use Rattle.c_types_scopes.specs.Known.{known};
ghost use Rattle.c_types_scopes.specs.DeclaredTypes.{signature_view};
ghost use Rattle.c_types_scopes.specs.States.{state};
ghost use Rattle.c_types_operands.specs.Operands.{operand_view};
ghost use Rattle.c_types_primary.specs.Lists.{behind};
ghost use Rattle.c_types_primary.specs.Calls as spec;
ghost use Rattle.c_types_primary.specs.Calls.{done, terms_view};

use crate::primaries::{is_missing, library_named, meaning_of};
use c_layout::{CType, CheckedTerm, Expr, LibFn, TermForm};
use c_library::formats::{Length, Wanted, wanted_by};
use c_types_operands::{Operand, assigned, integer_as, is_void, term_of, value_operand};
use c_types_operators::promoted_kind;
use c_types_rules::rules::{char_kind, int_kind, size_kind};
use c_types_scopes::{
    Context, Meaning, Signature, format_fault, library_signature, type_fault, undeclared,
};
use cc_base::{Memory, Place, Stop, Text};

/// What a call calls.
#[derive(Clone, Copy)]
pub enum Callee {
    /// A function that the unit declares.
    Own(u32),
    Library(LibFn),
    /// A name that means something else.
    Other,
    Unknown,
}

/// What a name means that is not declared.
fn not_declared(function: Option<LibFn>) -> Callee
    ensures { result ≡ spec.not_declared function }
{
    match function {
        Some(function) => Callee::Library(function),
        None => Callee::Unknown,
    }
}

/// What the name of a call means.
pub fn callee_named(cx: &Context, name: &Text) -> Callee
    ensures { result ≡ spec.callee_named (state cx.now) name.now }
{
    match meaning_of(cx, name) {
        Some(Meaning::Function(number)) => Callee::Own(number),
        Some(Meaning::Static(_)) => Callee::Other,
        Some(Meaning::Local(_)) => Callee::Other,
        Some(Meaning::Typedef(_)) => Callee::Other,
        Some(Meaning::Enumerator(_)) => Callee::Other,
        None => not_declared(library_named(name)),
    }
}

/// The number of a function that the unit defines.
fn defined_number(functions: &[Signature], declared: u32) -> Option<u32>
    ensures { result ≡ spec.number_of_function (map signature_view functions.now) declared }
{
    match functions.get(declared as usize) {
        Some(function) => function.number,
        None => None,
    }
}

/// Notes the call of a function that has a number.
fn note_number(cx: &mut Context, place: Place, number: Option<u32>) -> Result<(), Memory>
    ensures { IfOk result (λ _. state cx.new ≡ spec.noted_call (state cx.old) place number) }
{
    match number {
        Some(number) => cx.note_call(number, place),
        None => Ok(()),
    }
}

/// Notes the call of a function that the unit defines, before its arguments.
pub fn note_callee(cx: &mut Context, place: Place, callee: Callee) -> Result<(), Stop>
    ensures { Leads done (spec.note_callee (state cx.old) place callee) result (state cx.new) }
{
    match callee {
        Callee::Own(declared) => {
            let number = defined_number(cx.functions.as_slice(), declared);
            Ok(note_number(cx, place, number)?)
        }
        Callee::Library(_) => Ok(()),
        Callee::Other => Ok(()),
        Callee::Unknown => Ok(()),
    }
}

/// An argument, converted to the type of its parameter.
fn converted_argument(
    cx: &Context,
    place: Place,
    argument: Operand,
    parameter: &CType,
) -> Result<CheckedTerm, Stop>
    ensures { Gives term_tree (spec.converted_argument (known cx.now) place (operand_view argument) (view parameter.now)) result }
{
    let from = term_of(cx.alloc, argument)?;
    Ok(Box::into_inner(assigned(cx, place, from, parameter)?))
}

/// Each argument, converted to the type of the parameter at its place.
#[tactic(auto, using(crate::proofs::Begins::converted_begins, crate::proofs::Arguments::converted_more, crate::proofs::Arguments::converted_refused, crate::proofs::Arguments::converted_apart, crate::proofs::Arguments::converted_all))]
fn each_converted(
    cx: &Context,
    place: Place,
    arguments: Vec<Operand>,
    parameters: &[CType],
) -> Result<Vec<CheckedTerm>, Stop>
    ensures { Gives terms_view (spec.each_converted (known cx.now) place (map operand_view arguments.items) (map view parameters.now)) result }
{
    let mut made = Vec::new(cx.alloc);
    let mut rest = parameters;
    for argument in arguments {
        match rest.split_first() {
            Some((parameter, more)) => {
                made.push(converted_argument(cx, place, argument, parameter)?)?;
                rest = more;
            }
            None => return Err(type_fault(place)),
        }
    }
    Ok(made)
}

/// The arguments, converted to the types of the parameters, of which there are as many.
fn converted_arguments(
    cx: &Context,
    place: Place,
    arguments: Vec<Operand>,
    parameters: &[CType],
) -> Result<Vec<CheckedTerm>, Stop>
    ensures { Gives terms_view (spec.converted_arguments (known cx.now) place (map operand_view arguments.items) (map view parameters.now)) result }
{
    if arguments.len() == parameters.len() {
        each_converted(cx, place, arguments, parameters)
    } else {
        Err(type_fault(place))
    }
}

/// The value of a call of a function of the unit. One that the unit does not define has the
/// greatest number.
fn called(
    cx: &Context,
    place: Place,
    function: &Signature,
    arguments: Vec<CheckedTerm>,
) -> Result<Operand, Memory>
    ensures { IfOk result (λ o. operand_view o ≡ spec.called place (signature_view function.now) (terms_view arguments)) }
{
    let number = function.number.unwrap_or(u32::MAX);
    let is_used = !is_void(&function.result.ctype);
    let ctype = function.result.ctype.copy(cx.alloc)?;
    let form = TermForm::Call(number, arguments, is_used);
    let mut made = value_operand(cx.alloc, place, ctype, form)?;
    made.enumeration = function.result.enumeration;
    Ok(made)
}

/// A call of a function of the unit that may be called.
fn own_with(
    cx: &Context,
    place: Place,
    function: &Signature,
    arguments: Vec<Operand>,
) -> Result<Operand, Stop>
    ensures { Gives operand_view (spec.own_with (known cx.now) place (signature_view function.now) (map operand_view arguments.items)) result }
{
    let arguments = converted_arguments(cx, place, arguments, function.parameters.as_slice())?;
    Ok(called(cx, place, function, arguments)?)
}

/// A call of a function that the unit declares. One that the unit does not define is not called,
/// unless it is not evaluated.
fn own_declared(
    cx: &Context,
    place: Place,
    function: &Signature,
    arguments: Vec<Operand>,
) -> Result<Operand, Stop>
    ensures { Gives operand_view (spec.own_declared (state cx.now) place (signature_view function.now) (map operand_view arguments.items)) result }
{
    if is_missing(cx, function.number) {
        Err(undeclared(place))
    } else {
        own_with(cx, place, function, arguments)
    }
}

/// A call of a function of the unit.
fn own_call(
    cx: &Context,
    place: Place,
    declared: u32,
    arguments: Vec<Operand>,
) -> Result<Operand, Stop>
    ensures { Gives operand_view (spec.own_call (state cx.now) place declared (map operand_view arguments.items)) result }
{
    match cx.functions.get(declared as usize) {
        Some(function) => own_declared(cx, place, function, arguments),
        None => Err(undeclared(place)),
    }
}

/// Whether a type is a pointer to plain char.
fn is_text(cx: &Context, t: &CType) -> bool
    ensures { result ≡ spec.is_text (known cx.now) (view t.now) }
{
    match t {
        CType::Pointer(target) => target.is_same(&CType::Int(char_kind(&cx.model.numbers))),
        CType::Int(_) => false,
        CType::Array(_, _) => false,
        CType::Struct(_) => false,
        CType::Void => false,
    }
}

/// The rank that a length wants.
fn wanted_rank(cx: &Context, length: Length) -> u8
    ensures { result ≡ spec.wanted_rank (known cx.now) length }
{
    match length {
        Length::Plain => 3,
        Length::Long => 4,
        Length::LongLong => 5,
        Length::Size => size_kind(&cx.model.numbers).rank,
    }
}

/// Whether a type is an integer's of this rank.
fn has_rank(rank: u8, t: &CType) -> bool
    ensures { result ≡ spec.has_rank rank (view t.now) }
{
    match t {
        CType::Int(kind) => kind.rank == rank,
        CType::Pointer(_) => false,
        CType::Array(_, _) => false,
        CType::Struct(_) => false,
        CType::Void => false,
    }
}

/// Whether an argument that was promoted is what a conversion wants.
fn is_wanted(cx: &Context, wanted: Wanted, argument: &CType) -> bool
    ensures { result ≡ spec.is_wanted (known cx.now) wanted (view argument.now) }
{
    match wanted {
        Wanted::Text => is_text(cx, argument),
        Wanted::Character => argument.is_same(&CType::Int(int_kind(&cx.model.numbers))),
        Wanted::Number(length) => has_rank(wanted_rank(cx, length), argument),
    }
}

/// An argument after the default promotions (6.5.2.2p6).
fn promoted_argument(cx: &Context, argument: Box<CheckedTerm>) -> Result<Box<CheckedTerm>, Memory>
    ensures { IfOk result (λ b. term_tree b.value ≡ spec.promoted_argument (known cx.now) (term_tree argument.value)) }
{
    match promoted_kind(cx, &argument.ctype) {
        Some(kind) => integer_as(cx, argument, kind),
        None => Ok(argument),
    }
}

/// A promoted argument, where a conversion wants it.
fn if_wanted(
    cx: &Context,
    place: Place,
    wanted: Wanted,
    argument: Box<CheckedTerm>,
) -> Result<CheckedTerm, Stop>
    ensures { Gives term_tree (spec.if_wanted (known cx.now) place wanted (term_tree argument.value)) result }
{
    if is_wanted(cx, wanted, &argument.ctype) {
        Ok(Box::into_inner(argument))
    } else {
        Err(format_fault(place))
    }
}

/// An argument for a conversion.
fn formatted(
    cx: &Context,
    place: Place,
    wanted: Wanted,
    argument: Operand,
) -> Result<CheckedTerm, Stop>
    ensures { Gives term_tree (spec.formatted (known cx.now) place wanted (operand_view argument)) result }
{
    let from = term_of(cx.alloc, argument)?;
    let promoted = promoted_argument(cx, from)?;
    if_wanted(cx, place, wanted, promoted)
}

/// Terms, and behind them each argument for the conversion at its place.
#[tactic(auto, using(crate::proofs::Arguments::formatted_more, crate::proofs::Arguments::formatted_refused, crate::proofs::Arguments::formatted_apart, crate::proofs::Arguments::formatted_all))]
fn each_formatted(
    cx: &Context,
    place: Place,
    wanted: &[Wanted],
    arguments: Vec<Operand>,
    first: Vec<CheckedTerm>,
) -> Result<Vec<CheckedTerm>, Stop>
    ensures { Gives terms_view (behind (terms_view first) (spec.each_formatted (known cx.now) place wanted.now (map operand_view arguments.items))) result }
{
    let mut made = first;
    let mut rest = wanted;
    for argument in arguments {
        match rest.split_first() {
            Some((next, more)) => {
                made.push(formatted(cx, place, *next, argument)?)?;
                rest = more;
            }
            None => return Err(format_fault(place)),
        }
    }
    Ok(made)
}

/// Terms, and behind them the arguments for the conversions, of which there are as many.
fn formatted_arguments(
    cx: &Context,
    place: Place,
    wanted: &[Wanted],
    arguments: Vec<Operand>,
    first: Vec<CheckedTerm>,
) -> Result<Vec<CheckedTerm>, Stop>
    ensures { Gives terms_view (behind (terms_view first) (spec.formatted_arguments (known cx.now) place wanted.now (map operand_view arguments.items))) result }
{
    if arguments.len() == wanted.len() {
        each_formatted(cx, place, wanted, arguments, first)
    } else {
        Err(format_fault(place))
    }
}

/// The bytes of a literal, parentheses removed.
fn literal_bytes(e: &Expr) -> Option<&Text>
    ensures { option_map (λ t. t.now) result ≡ spec.literal_bytes (tree_of e.now) }
{
    match e {
        Expr::Literal(_, bytes) => Some(bytes),
        Expr::Paren(_, inner) => literal_bytes(inner),
        _ => None,
    }
}

/// The value of a call of a library function.
fn library_called(
    cx: &Context,
    place: Place,
    ctype: CType,
    function: LibFn,
    arguments: Vec<CheckedTerm>,
) -> Result<Operand, Memory>
    ensures { IfOk result (λ o. operand_view o ≡ spec.library_called place (view ctype) function (terms_view arguments)) }
{
    let form = TermForm::Library(function, arguments, None);
    value_operand(cx.alloc, place, ctype, form)
}

/// A call of `printf` with its format and the arguments behind it.
fn printed(
    cx: &Context,
    place: Place,
    wanted: &[Wanted],
    format: Box<CheckedTerm>,
    others: Vec<Operand>,
) -> Result<Operand, Stop>
    ensures { Gives operand_view (spec.printed_with (known cx.now) place wanted.now (term_tree format.value) (map operand_view others.items)) result }
{
    let mut first = Vec::new(cx.alloc);
    first.push(Box::into_inner(format))?;
    let made = formatted_arguments(cx, place, wanted, others, first)?;
    let ctype = CType::Int(int_kind(&cx.model.numbers));
    Ok(library_called(cx, place, ctype, LibFn::Printf, made)?)
}

/// A call of `printf` whose format wants this.
fn printf_with(
    cx: &Context,
    place: Place,
    wanted: &[Wanted],
    arguments: Vec<Operand>,
) -> Result<Operand, Stop>
    ensures { Gives operand_view (spec.printf_with (known cx.now) place wanted.now (map operand_view arguments.items)) result }
{
    let mut others = arguments;
    if others.is_empty() {
        return Err(format_fault(place));
    }
    let first = others.remove(0);
    let format = term_of(cx.alloc, first)?;
    printed(cx, place, wanted, format, others)
}

/// A call of `printf` whose format has these bytes.
fn printf_by(
    cx: &Context,
    place: Place,
    format: &Text,
    arguments: Vec<Operand>,
) -> Result<Operand, Stop>
    ensures { Gives operand_view (spec.printf_by (known cx.now) place (map operand_view arguments.items) format.now) result }
{
    match wanted_by(cx.alloc, format.as_bytes())? {
        Some(wanted) => printf_with(cx, place, wanted.as_slice(), arguments),
        None => Err(format_fault(place)),
    }
}

/// A call of `printf` whose format is an expression.
fn printf_of(
    cx: &Context,
    place: Place,
    format: &Expr,
    arguments: Vec<Operand>,
) -> Result<Operand, Stop>
    ensures { Gives operand_view (spec.printf_of (known cx.now) place (map operand_view arguments.items) (tree_of format.now)) result }
{
    match literal_bytes(format) {
        Some(bytes) => printf_by(cx, place, bytes, arguments),
        None => Err(format_fault(place)),
    }
}

/// A call of `printf`.
fn printf_call(
    cx: &Context,
    place: Place,
    format: Option<&Expr>,
    arguments: Vec<Operand>,
) -> Result<Operand, Stop>
    ensures { Gives operand_view (spec.printf_call (known cx.now) place (option_map (λ e. tree_of e.now) format.entry) (map operand_view arguments.items)) result }
{
    match format {
        Some(format) => printf_of(cx, place, format, arguments),
        None => Err(format_fault(place)),
    }
}

/// A call of a library function with a prototype.
fn library_call(
    cx: &Context,
    place: Place,
    function: LibFn,
    arguments: Vec<Operand>,
) -> Result<Operand, Stop>
    ensures { Gives operand_view (spec.library_call (state cx.now) place function (map operand_view arguments.items)) result }
{
    let (ctype, parameters) = library_signature(cx.alloc, &cx.model, function, cx.stream)?;
    let arguments = converted_arguments(cx, place, arguments, parameters.as_slice())?;
    Ok(library_called(cx, place, ctype, function, arguments)?)
}

/// A call of a library function.
fn called_library(
    cx: &Context,
    place: Place,
    function: LibFn,
    format: Option<&Expr>,
    arguments: Vec<Operand>,
) -> Result<Operand, Stop>
    ensures { Gives operand_view (spec.called_library (state cx.now) place function (option_map (λ e. tree_of e.now) format.entry) (map operand_view arguments.items)) result }
{
    if function.signature().takes_format {
        printf_call(cx, place, format, arguments)
    } else {
        library_call(cx, place, function, arguments)
    }
}

/// A call whose arguments have types; `format` is the first one as it stands.
pub fn call(
    cx: &Context,
    place: Place,
    callee: Callee,
    format: Option<&Expr>,
    arguments: Vec<Operand>,
) -> Result<Operand, Stop>
    ensures { Gives operand_view (spec.call (state cx.now) place callee (option_map (λ e. tree_of e.now) format.entry) (map operand_view arguments.items)) result }
{
    match callee {
        Callee::Own(function) => own_call(cx, place, function, arguments),
        Callee::Library(function) => called_library(cx, place, function, format, arguments),
        Callee::Other => Err(type_fault(place)),
        Callee::Unknown => Err(undeclared(place)),
    }
}
