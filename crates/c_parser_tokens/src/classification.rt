//! Classifies the tokens of a unit.
ghost use Rattle.std.specs.Prelude.{◌≡◌, ◌++◌, [], find, IfOk, IfErr};
ghost use Rattle.std.specs.Option.{option_copied};
ghost use Rattle.c_parser_tokens.specs.Classes.{symbol_of_name, punctuator_symbol, symbol_of, kept_text, terminal_of, is_literal, joined_two, joined, is_unsupported, terminals_after, judged, classified, IsStop};
ghost use Rattle.c_parser_tokens.specs.Punctuators.{punctuator_of};

use crate::character_codes::{character_constant, literal_bytes};
use crate::constant_types::integer_constant;
use crate::keywords::{is_left_out, keyword_of};
use crate::punctuators::punctuator_of;
use crate::terminals::{Symbol, Terminal};
use c_layout::{Model as DataModel, Unit7};
use cc_base::{Fault, Kind, Refusal, Stop, Text, Token};
use std::alloc::{AllocError, Global};
use std::marker::Model;

/// The terminals of a unit.
#[derive(Drop)]
pub struct Terminals {
    items: Vec<Terminal>,
}

impl Model for Terminals {
    ghost use Rattle.std.specs.Prelude.{List};
    ghost use Rattle.c_parser_tokens.specs.declared.terminals.Terminal.{Terminal};

    ghost Value = { List Terminal };

    ghost view = { λ t. t.items.items };
}

/// What a word or a punctuator is.
fn symbol_of_name(text: &[u8]) -> Symbol
    ensures { result ≡ symbol_of_name text.now }
{
    if is_left_out(text) {
        return Symbol::Unsupported;
    }
    match keyword_of(text) {
        Some(keyword) => Symbol::Keyword(keyword),
        None => Symbol::Identifier,
    }
}

fn symbol_of_punctuator(text: &[u8]) -> Symbol
    ensures { result ≡ punctuator_symbol (punctuator_of text.now) }
{
    match punctuator_of(text) {
        Some(sign) => Symbol::Punctuator(sign),
        None => Symbol::Unsupported,
    }
}

/// What a token is; None where it is a constant whose form is not in.
fn symbol_of(model: &DataModel, token: &Token) -> Option<Symbol>
    ensures { result ≡ symbol_of model.now token.now }
{
    let text = token.text.as_bytes();
    match token.kind {
        Kind::Name => Some(symbol_of_name(text)),
        Kind::Number => {
            let value = integer_constant(model, text)?;
            Some(Symbol::Constant(value))
        }
        Kind::Char => {
            let value = character_constant(model, text)?;
            Some(Symbol::Constant(value))
        }
        Kind::Str => Some(Symbol::Literal),
        Kind::Punct => Some(symbol_of_punctuator(text)),
        Kind::HeaderName => Some(Symbol::HeaderName),
    }
}

/// The text that a terminal keeps; None where an escape is not in.
fn kept_text(alloc: Global, symbol: Symbol, token: &Token) -> Result<Option<Text>, AllocError>
    ensures { IfOk result (λ found. found ≡ kept_text symbol token.now.text) }
{
    match symbol {
        Symbol::Identifier | Symbol::Unsupported => Ok(Some(token.text.copy(alloc)?)),
        Symbol::Literal => literal_bytes(alloc, token.text.as_bytes()),
        _ => Ok(Some(Text::new(alloc))),
    }
}

/// The terminal of a token; None where its form is not in.
fn terminal_of(
    alloc: Global,
    model: &DataModel,
    token: &Token,
) -> Result<Option<Terminal>, AllocError>
    ensures { IfOk result (λ found. found ≡ terminal_of model.now token.now) }
{
    let Some(symbol) = symbol_of(model, token) else {
        return Ok(None);
    };
    let Some(text) = kept_text(alloc, symbol, token)? else {
        return Ok(None);
    };
    Ok(Some(Terminal {
        place: token.place,
        symbol,
        text,
    }))
}

/// Adds the bytes of a literal to the literal before it.
fn append(to: &mut Text, bytes: &[u8]) -> Result<(), AllocError>
    ensures { IfOk result (λ _. to.new ≡ to.old ++ bytes.now) }
{
    for b in bytes {
        to.push(*b)?;
    }
    Ok(())
}

/// Whether a symbol is a string literal.
fn is_literal(symbol: Symbol) -> bool
    ensures { result ≡ is_literal symbol }
{
    matches!(symbol, Symbol::Literal)
}

/// Adds two terminals; two literals are one (5.1.1.2, translation phase 6).
fn push_two(items: &mut Vec<Terminal>, mut last: Terminal, next: Terminal) -> Result<(), AllocError>
    ensures { IfOk result (λ _. items.new.items ≡ items.old.items ++ joined_two last next) }
{
    if is_literal(last.symbol) && is_literal(next.symbol) {
        append(&mut last.text, next.text.as_bytes())?;
        items.push(last)?;
        return Ok(());
    }
    items.push(last)?;
    items.push(next)?;
    Ok(())
}

impl Terminals {
    /// The terminals, in order.
    pub fn as_slice(&self) -> &[Terminal]
        ensures { result.now ≡ self.now }
    {
        self.items.as_slice()
    }

    /// Adds a terminal; a literal is joined to a literal before it.
    #[tactic(auto, using(crate::proofs::Joining::joined_last))]
    fn push(&mut self, next: Terminal) -> Result<(), AllocError>
        ensures { IfOk result (λ _. self.new ≡ joined self.old next) }
    {
        match self.items.pop() {
            Some(last) => push_two(&mut self.items, last, next),
            None => Ok(self.items.push(next)?),
        }
    }
}

/// Whether a symbol is a word or a punctuator that is left out.
fn is_unsupported(symbol: Symbol) -> bool
    ensures { result ≡ is_unsupported symbol }
{
    matches!(symbol, Symbol::Unsupported)
}

/// The first word or punctuator that is left out.
fn first_left_out(terminals: &[Terminal]) -> Option<&Terminal>
    ensures { option_copied result ≡ find (λ t. is_unsupported t.symbol) terminals.now }
{
    terminals.iter().find(|x| is_unsupported(x.symbol))
}

/// The terminals of a unit, adjacent string literals joined.
fn all_terminals(alloc: Global, unit: &Unit7) -> Result<Terminals, Stop>
    ensures found { IfOk result (λ ts. terminals_after unit.now.model [] unit.now.tokens ≡ Ok ts) }
    ensures refused { IfErr result (IsStop (judged (terminals_after unit.now.model [] unit.now.tokens))) }
{
    let mut terminals = Terminals {
        items: Vec::new(alloc),
    };
    let tokens = unit.tokens.as_slice();
    for at in 0..tokens.len() {
        let token = &tokens[at];
        let Some(next) = terminal_of(alloc, &unit.model, token)? else {
            return Err(Stop::Refused(Fault {
                place: token.place,
                refusal: Refusal::NumberForm,
            }));
        };
        terminals.push(next)?;
    }
    Ok(terminals)
}

/// The terminals of a unit, adjacent string literals joined.
///
/// # Errors
///
/// `NumberForm` at the first token that is a number, a character constant or a string literal with
/// a form that is not in; else `Unsupported` at the first word or punctuator that is left out; or
/// want of memory.
pub fn classify(alloc: Global, unit: &Unit7) -> Result<Terminals, Stop>
    ensures found { IfOk result (λ ts. classified unit.now.model unit.now.tokens ≡ Ok ts) }
    ensures refused { IfErr result (IsStop (classified unit.now.model unit.now.tokens)) }
{
    let terminals = all_terminals(alloc, unit)?;
    if let Some(word) = first_left_out(terminals.as_slice()) {
        return Err(Stop::Refused(Fault {
            place: word.place,
            refusal: Refusal::Unsupported(word.text.copy(alloc)?),
        }));
    }
    Ok(terminals)
}
