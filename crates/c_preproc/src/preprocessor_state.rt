//! What is known while a unit is preprocessed, and what its directives do to it.
ghost use Rattle.std.specs.Prelude.{◌≡◌, ◌∷◌, [], Some, not, true, false, IfErr, IfOk, option_map};
ghost use Rattle.c_preproc_macros.specs.Numbering.{texts_of};
ghost use Rattle.c_preproc_conditions.specs.DefinedNames.{named_of};
ghost use Rattle.c_lexer.specs.Cutting.{fault_of};
ghost use Rattle.c_preproc.specs.Causes.{IsOwn, IsOwnRefusal};
ghost use Rattle.c_preproc_directives.specs.OpenFiles.{opened_of};
ghost use Rattle.c_preproc.specs.Known.{known_of, reading_of, Gives, start, trouble_fault, unclosed_fault, uneven_fault, condition_fault, appended, text_read, condition, decided, begun_if, begun_ifdef, turned_elif, else_turned, if_ended, define, undefine, pragma, is_once, name_of, only_name, name_before, first_name, is_nil, define_as, condition_expanded, IsConditionStop};
ghost use Rattle.c_preproc_macros.specs.Expanding.{Outcome};
ghost use Rattle.c_preproc_macros.specs.Rules.{defined_of};

use crate::unit_tokens::UnitTokens;
use c_preproc_conditions::{ConditionFault, Digits, holds, replace_defined};
use c_preproc_directives::{
    DefinitionFault, GroupState, OpenFile, Uneven, definition, may_be_defined, same_definition,
};
use c_preproc_macros::{
    Expansion, Failure, Lexeme, Macro, Macros, Mark, Part, Refused, Spellings, Trouble, expand_list,
};
use cc_base::{Fault, Kind, Memory, Place, Refusal, Stop};
use std::alloc::Global;

/// What is known while a unit is preprocessed.
#[derive(Drop)]
pub struct State {
    pub spellings: Spellings,
    pub macros: Macros,
    /// The numbers of the spellings `0` and `1`.
    pub digits: Digits,
    /// How many tokens all replacements so far have made.
    pub used: usize,
    /// How many inclusions there were.
    pub inclusions: u32,
    /// The files with `#pragma once`, by their indices.
    pub once: Vec<u32>,
    /// The tokens so far.
    pub out: UnitTokens,
}

/// A refusal at a place.
pub fn refused(place: Place, refusal: Refusal) -> Stop
    ensures { result ≡ Stop.Refused (fault_of place refusal) }
{
    Stop::Refused(Fault { place, refusal })
}

/// The refusal of a call of a macro; a call that is not closed is refused as `unclosed`.
fn trouble(fault: Refused, unclosed: Fault) -> Stop
    requires { IsOwnRefusal unclosed.refusal }
    ensures own { IsOwn result }
    ensures fault { result ≡ Stop.Refused (trouble_fault fault.trouble fault.place unclosed) }
{
    match fault.trouble {
        Trouble::Spill => refused(fault.place, Refusal::MacroSpill),
        Trouble::Arguments => refused(fault.place, Refusal::MacroArguments),
        Trouble::Unclosed => Stop::Refused(unclosed),
        Trouble::TooMany(count) => refused(
            fault.place,
            Refusal::TooManyTokens {
                count,
                limit: 1_048_576,
            },
        ),
    }
}

/// What refuses a call that is not closed in its list: the directive behind the list, if there is
/// one, or else the call itself.
fn unclosed_by(directive: Option<Place>, call: Place) -> Fault
    ensures own { IsOwnRefusal result.refusal }
    ensures fault { result ≡ unclosed_fault directive call }
{
    match directive {
        Some(place) => Fault {
            place,
            refusal: Refusal::BadDirective,
        },
        None => Fault {
            place: call,
            refusal: Refusal::MacroArguments,
        },
    }
}

fn uneven(place: Place, fault: Uneven) -> Stop
    ensures own { IsOwn result }
    ensures fault { result ≡ Stop.Refused (uneven_fault place fault) }
{
    match fault {
        Uneven::Misplaced => refused(place, Refusal::UnevenConditional),
        Uneven::Trailing => refused(place, Refusal::BadDirective),
    }
}

fn name_of(x: Lexeme) -> Option<u32>
    ensures { result ≡ name_of x }
{
    match x {
        Lexeme::Name(name, _) => Some(name),
        _ => None,
    }
}

/// The name that a line is.
fn only_name(line: &[Lexeme]) -> Option<u32>
    ensures { result ≡ only_name line.now }
{
    match line {
        [x] => name_of(*x),
        _ => None,
    }
}

fn name_before(x: Lexeme, rest: &[Lexeme]) -> Option<(u32, &[Lexeme])>
    ensures { option_map named_of result ≡ name_before x rest.now }
{
    match x {
        Lexeme::Name(name, _) => Some((name, rest)),
        _ => None,
    }
}

/// The name that a line begins with, and what stands behind it.
pub fn first_name(line: &[Lexeme]) -> Option<(u32, &[Lexeme])>
    ensures { option_map named_of result ≡ first_name line.now }
{
    match line {
        [] => None,
        [x, rest @ ..] => name_before(*x, rest),
    }
}

impl State {
    /// At the start of a unit, where `__STDC__` alone is defined, as 1.
    pub fn new(alloc: Global) -> Result<State, Memory>
        ensures { IfOk result (λ s. known_of s ≡ start) }
    {
        let mut spellings = Spellings::new(alloc);
        let mut macros = Macros::new(alloc);
        let name = spellings.number(alloc, b"__STDC__")?;
        let one = spellings.number(alloc, b"1")?;
        let zero = spellings.number(alloc, b"0")?;
        let mark = Mark {
            place: Place {
                file: 0,
                line: 1,
                col: 1,
            },
            first: false,
            space: true,
        };
        let mut body = Vec::new(alloc);
        body.push(Part::Word(Lexeme::Other(Kind::Number, one, mark)))?;
        macros.define(
            name,
            Macro {
                parameters: None,
                body,
            },
        )?;
        Ok(State {
            spellings,
            macros,
            digits: Digits { zero, one },
            used: 0,
            inclusions: 0,
            once: Vec::new(alloc),
            out: UnitTokens::new(alloc),
        })
    }

    /// Expands a list of text lines. `directive` is the place of the directive that ends it.
    pub fn text(
        &mut self,
        alloc: Global,
        list: &[Lexeme],
        directive: Option<Place>,
    ) -> Result<(), Stop>
        ensures own { IfErr result IsOwn }
        ensures given { Gives (text_read list.now directive (known_of self.old)) (λ _. known_of self.new) result }
    {
        match expand_list(alloc, &self.macros, self.used, list) {
            Ok(expansion) => self.append(alloc, expansion),
            Err(Failure::Refused(fault)) => {
                Err(trouble(fault, unclosed_by(directive, fault.place)))
            }
            Err(Failure::Memory) => Err(Stop::Memory),
        }
    }

    /// Adds a token of an expanded list to the unit's.
    fn push(&mut self, alloc: Global, x: Lexeme) -> Result<(), Stop>
        ensures own { IfErr result IsOwn }
        ensures given { Gives (appended (x ∷ []) (known_of self.old)) (λ _. known_of self.new) result }
    {
        if self.out.is_full() {
            return Err(refused(
                x.mark().place,
                Refusal::TooManyTokens {
                    count: 131_073,
                    limit: 131_072,
                },
            ));
        }
        let token = self.spellings.token(alloc, x)?;
        self.out.push(token)?;
        Ok(())
    }

    /// Adds the tokens of an expanded list to the unit's.
    fn append(&mut self, alloc: Global, expansion: Expansion) -> Result<(), Stop>
        ensures own { IfErr result IsOwn }
        ensures given { Gives (appended expansion.words.items (record (known_of self.old) { used = expansion.used })) (λ _. known_of self.new) result }
    {
        self.used = expansion.used;
        for x in &expansion.words {
            match self.push(alloc, *x) {
                Ok(()) => {}
                Err(stop) => return Err(stop),
            }
        }
        Ok(())
    }

    /// Whether the expanded condition of the directive at `place` holds.
    fn truth(
        &mut self,
        alloc: Global,
        char_signed: bool,
        place: Place,
        expansion: Expansion,
    ) -> Result<bool, Stop>
        ensures own { IfErr result IsOwn }
        ensures given { Gives (condition_expanded char_signed place (Outcome.done expansion.words.items expansion.used) (known_of self.old)) (λ b. decided (known_of self.new) b) result }
    {
        self.used = expansion.used;
        match holds(
            alloc,
            &self.spellings,
            char_signed,
            expansion.words.as_slice(),
        ) {
            Ok(value) => Ok(value),
            Err(fault) => Err(condition_fault(place, fault)),
        }
    }

    /// Whether the condition of the directive at `place` holds.
    fn condition(
        &mut self,
        alloc: Global,
        char_signed: bool,
        place: Place,
        line: &[Lexeme],
    ) -> Result<bool, Stop>
        ensures own { IfErr result IsOwn }
        ensures given { Gives (condition char_signed place line.now (known_of self.old)) (λ b. decided (known_of self.new) b) result }
    {
        let named = match replace_defined(alloc, &self.spellings, &self.macros, self.digits, line) {
            Ok(list) => list,
            Err(fault) => return Err(condition_fault(place, fault)),
        };
        match expand_list(alloc, &self.macros, self.used, named.as_slice()) {
            Err(Failure::Memory) => Err(Stop::Memory),
            Err(Failure::Refused(fault)) => Err(trouble(fault, unclosed_by(None, fault.place))),
            Ok(expansion) => self.truth(alloc, char_signed, place, expansion),
        }
    }

    /// `#if`
    pub fn begin_if(
        &mut self,
        alloc: Global,
        char_signed: bool,
        top: &mut OpenFile,
        place: Place,
        line: &[Lexeme],
    ) -> Result<(), Stop>
        ensures own { IfErr result IsOwn }
        ensures given { Gives (begun_if char_signed place line.now (reading_of self.old top.old)) (λ _. reading_of self.new top.new) result }
    {
        if top.sections.is_skipping() {
            top.sections.enter(place, GroupState::Outside)?;
            return Ok(());
        }
        match self.condition(alloc, char_signed, place, line) {
            Ok(holds) => {
                top.sections.enter(place, GroupState::first(holds))?;
                Ok(())
            }
            Err(stop) => Err(stop),
        }
    }

    /// `#ifdef`, or `#ifndef` where `wanted` is false.
    pub fn begin_ifdef(
        &self,
        top: &mut OpenFile,
        wanted: bool,
        place: Place,
        line: &[Lexeme],
    ) -> Result<(), Stop>
        ensures own { IfErr result IsOwn }
        ensures given { Gives (begun_ifdef wanted place line.now (reading_of self.now top.old)) (λ _. reading_of self.now top.new) result }
    {
        if top.sections.is_skipping() {
            top.sections.enter(place, GroupState::Outside)?;
            return Ok(());
        }
        let Some(name) = only_name(line) else {
            return Err(refused(place, Refusal::BadDirective));
        };
        let known = self.macros.get(name).is_some();
        let holds = if wanted { known } else { !known };
        top.sections.enter(place, GroupState::first(holds))?;
        Ok(())
    }

    /// `#elif`
    pub fn turn_elif(
        &mut self,
        alloc: Global,
        char_signed: bool,
        top: &mut OpenFile,
        place: Place,
        line: &[Lexeme],
    ) -> Result<(), Stop>
        ensures own { IfErr result IsOwn }
        ensures given { Gives (turned_elif char_signed place line.now (reading_of self.old top.old)) (λ _. reading_of self.new top.new) result }
    {
        let Some(before) = top.sections.before_elif() else {
            return Err(refused(place, Refusal::UnevenConditional));
        };
        if !before.is_waiting() {
            top.sections.set_state(before.behind());
            return Ok(());
        }
        match self.condition(alloc, char_signed, place, line) {
            Ok(holds) => {
                top.sections.set_state(GroupState::first(holds));
                Ok(())
            }
            Err(stop) => Err(stop),
        }
    }

    /// Defines a name that is not defined, or looks whether its definition is the same.
    fn define_as(&mut self, place: Place, name: u32, rule: Macro) -> Result<(), Stop>
        ensures own { IfErr result IsOwn }
        ensures given { Gives (define_as place name (Some (defined_of rule)) (known_of self.old)) (λ _. known_of self.new) result }
    {
        match self.macros.get(name) {
            Some(old) => {
                if same_definition(old, &rule) {
                    return Ok(());
                }
                return Err(refused(place, Refusal::MacroRedefined));
            }
            None => {}
        }
        self.macros.define(name, rule)?;
        Ok(())
    }

    /// `#define`
    pub fn define(&mut self, alloc: Global, place: Place, line: &[Lexeme]) -> Result<(), Stop>
        ensures own { IfErr result IsOwn }
        ensures given { Gives (define place line.now (known_of self.old)) (λ _. known_of self.new) result }
    {
        let Some((name, rest)) = first_name(line) else {
            return Err(refused(place, Refusal::BadDirective));
        };
        if !may_be_defined(&self.spellings, name) {
            return Err(refused(place, Refusal::BadDirective));
        }
        match definition(alloc, &self.spellings, rest) {
            Ok(rule) => self.define_as(place, name, rule),
            Err(DefinitionFault::Malformed) => Err(refused(place, Refusal::BadDirective)),
            Err(DefinitionFault::Memory) => Err(Stop::Memory),
        }
    }

    /// `#undef`
    pub fn undefine(&mut self, place: Place, line: &[Lexeme]) -> Result<(), Stop>
        ensures own { IfErr result IsOwn }
        ensures given { Gives (undefine place line.now (known_of self.old)) (λ _. known_of self.new) result }
    {
        let Some(name) = only_name(line) else {
            return Err(refused(place, Refusal::BadDirective));
        };
        if !may_be_defined(&self.spellings, name) {
            return Err(refused(place, Refusal::BadDirective));
        }
        self.macros.undefine(name);
        Ok(())
    }

    /// `#pragma`: `once` is obeyed, all others are skipped.
    pub fn pragma(&mut self, file: u32, line: &[Lexeme]) -> Result<(), Stop>
        ensures own { IfErr result IsOwn }
        ensures given { Gives (pragma file line.now (known_of self.old)) (λ _. known_of self.new) result }
    {
        let Some(name) = only_name(line) else {
            return Ok(());
        };
        if self.spellings.text(name) == b"once".as_slice() && !self.is_once(file) {
            self.once.push(file)?;
        }
        Ok(())
    }

    /// Whether a file has `#pragma once`.
    pub fn is_once(&self, file: u32) -> bool
        ensures { result ≡ is_once self.now.once.items file }
    {
        self.once.iter().any(|x| *x == file)
    }
}

fn condition_fault(place: Place, fault: ConditionFault) -> Stop
    ensures own { IsOwn result }
    ensures fault { IsConditionStop place fault result }
{
    match fault {
        ConditionFault::NumberForm(at) => refused(at, Refusal::NumberForm),
        ConditionFault::Malformed => refused(place, Refusal::BadDirective),
        ConditionFault::Memory => Stop::Memory,
    }
}

/// `#else`
pub fn turn_else(top: &mut OpenFile, place: Place, line: &[Lexeme]) -> Result<(), Stop>
    ensures own { IfErr result IsOwn }
    ensures given { Gives (else_turned place line.now (opened_of top.old)) (λ _. opened_of top.new) result }
{
    match top.sections.turn_else(!line.is_empty()) {
        None => Ok(()),
        Some(fault) => Err(uneven(place, fault)),
    }
}

/// `#endif`
pub fn end_if(top: &mut OpenFile, place: Place, line: &[Lexeme]) -> Result<(), Stop>
    ensures own { IfErr result IsOwn }
    ensures given { Gives (if_ended place line.now (opened_of top.old)) (λ _. opened_of top.new) result }
{
    match top.sections.leave(!line.is_empty()) {
        None => Ok(()),
        Some(fault) => Err(uneven(place, fault)),
    }
}
