//! The terminals that are still to be read.
ghost use Rattle.std.specs.Prelude.{◌≡◌, ◌≢◌, false, length, IfOk, IfErr, IsTrue, ◌↔◌};
ghost use Rattle.std.specs.Bool.{OnTrue, OnFalse};
ghost use Rattle.c_parser_expression_grammar.specs.Fronts.{first_symbol, first_place, first_text, behind_first, is_identifier, is_typedef_first, is_identifier_first, is_specifier, begins_specifiers, IsSign, IsWord, IsName, IsTypedefName, IsConstant, IsLiteral};
ghost use Rattle.c_parser_expression_grammar.specs.ExpressionReaders.{opens_type_name};
ghost use Rattle.c_parser_expression_grammar.specs.ReadingResults.{OnSyntax};

use crate::heights::Trouble;
use crate::typedef_names::TypedefNames;
use c_layout::{Constant, Name};
use c_parser_tokens::{Keyword, Punctuator, Symbol, Terminal};
use cc_base::{Place, Text};
use std::alloc::{AllocError, Global};
use std::marker::Model;

/// Where trees are made, and the typedef names in force.
#[derive(Clone, Copy)]
pub struct Scope<'a> {
    pub alloc: Global,
    pub typedefs: &'a TypedefNames,
}

/// A list of terminals of which the first is read next.
#[derive(Drop)]
pub struct Reader<'a> {
    rest: &'a [Terminal],
}

impl<'a> Model for Reader<'a> {
    ghost use Rattle.std.specs.Prelude.{List};
    ghost use Rattle.c_parser_tokens.specs.declared.terminals.Terminal.{Terminal};

    ghost Value = { List Terminal };

    ghost view = { λ r. r.rest.now };
}

/// The symbol at the front of a list.
fn first_symbol(rest: &[Terminal]) -> Symbol
    ensures { result ≡ first_symbol rest.now }
{
    match rest {
        [first, ..] => first.symbol,
        [] => Symbol::End,
    }
}

/// The list behind its front.
fn behind_first(rest: &[Terminal]) -> &[Terminal]
    ensures { result.now ≡ behind_first rest.now }
{
    match rest {
        [_, behind @ ..] => behind,
        [] => rest,
    }
}

/// Whether this punctuator stands at the front.
fn is_first(rest: &[Terminal], sign: Punctuator) -> bool
    ensures { IsTrue result ↔ (first_symbol rest.now ≡ Symbol.Punctuator sign) }
{
    match first_symbol(rest) {
        Symbol::Punctuator(found) => found == sign,
        _ => false,
    }
}

/// Whether an identifier stands at the front.
fn is_identifier(rest: &[Terminal]) -> bool
    ensures { result ≡ is_identifier (first_symbol rest.now) }
{
    matches!(first_symbol(rest), Symbol::Identifier)
}

/// The text at the front; none at the end.
fn first_text(rest: &[Terminal]) -> &[u8]
    ensures { result.now ≡ first_text rest.now }
{
    match rest {
        [first, ..] => first.text.as_bytes(),
        [] => &[],
    }
}

/// Whether a typedef name stands at the front.
fn is_typedef_first(rest: &[Terminal], typedefs: &TypedefNames) -> bool
    ensures { result ≡ is_typedef_first typedefs.now rest.now }
{
    is_identifier(rest) && typedefs.has(first_text(rest))
}

/// Whether a keyword stands among declaration specifiers.
fn is_specifier(word: Keyword) -> bool
    ensures { result ≡ is_specifier word }
{
    matches!(
        word,
        Keyword::Auto
            | Keyword::Char
            | Keyword::Const
            | Keyword::Enum
            | Keyword::Extern
            | Keyword::Inline
            | Keyword::Int
            | Keyword::Long
            | Keyword::Register
            | Keyword::Restrict
            | Keyword::Short
            | Keyword::Signed
            | Keyword::Static
            | Keyword::Struct
            | Keyword::Typedef
            | Keyword::Unsigned
            | Keyword::Void
    )
}

/// Whether declaration specifiers begin at the front.
fn begins_specifiers(rest: &[Terminal], typedefs: &TypedefNames) -> bool
    ensures { result ≡ begins_specifiers typedefs.now rest.now }
{
    match first_symbol(rest) {
        Symbol::Keyword(word) => is_specifier(word),
        _ => is_typedef_first(rest, typedefs),
    }
}

impl<'a> Reader<'a> {
    /// A reader of these terminals.
    pub fn new(rest: &'a [Terminal]) -> Reader<'a>
        ensures { result ≡ rest.now }
    {
        Reader { rest }
    }

    /// How many terminals are left.
    pub fn left(&self) -> usize
        ensures { result ≡ length self.now }
    {
        self.rest.len()
    }

    /// The next terminal's symbol.
    pub fn peek(&self) -> Symbol
        ensures { result ≡ first_symbol self.now }
    {
        first_symbol(self.rest)
    }

    /// Whether the next terminal is this punctuator.
    pub fn is_at(&self, sign: Punctuator) -> bool
        ensures { IsTrue result ↔ (first_symbol self.now ≡ Symbol.Punctuator sign) }
    {
        is_first(self.rest, sign)
    }

    /// Whether the next terminal is this keyword.
    pub fn is_at_word(&self, word: Keyword) -> bool
        ensures { IsTrue result ↔ (first_symbol self.now ≡ Symbol.Keyword word) }
    {
        match self.peek() {
            Symbol::Keyword(found) => found == word,
            _ => false,
        }
    }

    /// Whether the terminal behind the next one is this punctuator.
    pub fn is_before(&self, sign: Punctuator) -> bool
        ensures { IsTrue result ↔ (first_symbol (behind_first self.now) ≡ Symbol.Punctuator sign) }
    {
        is_first(behind_first(self.rest), sign)
    }

    /// The place of the next terminal; at the end 1:1 of the first file.
    pub fn place(&self) -> Place
        ensures { result ≡ first_place self.now }
    {
        match self.rest {
            [first, ..] => first.place,
            [] => Place {
                file: 0,
                line: 1,
                col: 1,
            },
        }
    }

    /// Reads the next terminal, whose place is the answer.
    pub fn take(&mut self) -> Place
        ensures place { result ≡ first_place self.old }
        ensures behind { self.new ≡ behind_first self.old }
    {
        let place = self.place();
        self.rest = behind_first(self.rest);
        place
    }

    /// Reads this punctuator where it stands next.
    pub fn accept(&mut self, sign: Punctuator) -> bool
        ensures yes { OnTrue result (IsSign sign self.old self.new) }
        ensures no { OnFalse result (self.new ≡ self.old) }
        ensures other { OnFalse result (first_symbol self.old ≢ Symbol.Punctuator sign) }
    {
        if self.is_at(sign) {
            self.take();
            return true;
        }
        false
    }

    /// Reads this punctuator, whose place is the answer.
    pub fn expect(&mut self, sign: Punctuator) -> Result<Place, Trouble>
        ensures place { IfOk result (λ at. at ≡ first_place self.old) }
        ensures sign { IfOk result (λ at. IsSign sign self.old self.new) }
        ensures refused { IfErr result (λ e. (e ≡ Trouble.Syntax) × (first_symbol self.old ≢ Symbol.Punctuator sign)) }
    {
        if self.is_at(sign) {
            Ok(self.take())
        } else {
            Err(Trouble::Syntax)
        }
    }

    /// Reads this keyword, whose place is the answer.
    pub fn expect_word(&mut self, word: Keyword) -> Result<Place, Trouble>
        ensures place { IfOk result (λ at. at ≡ first_place self.old) }
        ensures word { IfOk result (λ at. IsWord word self.old self.new) }
        ensures refused { IfErr result (λ e. (e ≡ Trouble.Syntax) × (first_symbol self.old ≢ Symbol.Keyword word)) }
    {
        if self.is_at_word(word) {
            Ok(self.take())
        } else {
            Err(Trouble::Syntax)
        }
    }

    /// Reads an integer or a character constant.
    pub fn constant(&mut self) -> Result<(Place, Constant), Trouble>
        ensures found { IfOk result (λ found. IsConstant found.0 found.1 self.old self.new) }
        ensures refused { IfErr result (λ e. (value : Constant) → first_symbol self.old ≢ Symbol.Constant value) }
    {
        match self.peek() {
            Symbol::Constant(value) => Ok((self.take(), value)),
            _ => Err(Trouble::Syntax),
        }
    }

    /// Reads the next terminal, whose place and text are the answer.
    fn take_name(&mut self, alloc: Global) -> Result<Name, AllocError>
        ensures place { IfOk result (λ n. n.place ≡ first_place self.old) }
        ensures spelled { IfOk result (λ n. n.text ≡ first_text self.old) }
        ensures behind { IfOk result (λ n. self.new ≡ behind_first self.old) }
    {
        let text = Text::from_bytes(alloc, first_text(self.rest))?;
        let place = self.take();
        Ok(Name { place, text })
    }

    /// Reads a string literal.
    pub fn literal(&mut self, alloc: Global) -> Result<Name, Trouble>
        ensures found { IfOk result (λ n. IsLiteral n.place n.text self.old self.new) }
        ensures refused { IfErr result (OnSyntax (first_symbol self.old ≢ Symbol.Literal)) }
    {
        match self.peek() {
            Symbol::Literal => Ok(self.take_name(alloc)?),
            _ => Err(Trouble::Syntax),
        }
    }

    /// Whether the next terminal is an identifier that is no typedef name.
    pub fn is_at_identifier(&self, scope: Scope<'_>) -> bool
        ensures { result ≡ is_identifier_first scope.entry.typedefs.now self.now }
    {
        is_identifier(self.rest) && !scope.typedefs.has(first_text(self.rest))
    }

    /// Whether the next terminal is a typedef name.
    pub fn is_at_typedef(&self, scope: Scope<'_>) -> bool
        ensures { result ≡ is_typedef_first scope.entry.typedefs.now self.now }
    {
        is_typedef_first(self.rest, scope.typedefs)
    }

    /// Reads an identifier that is no typedef name.
    pub fn identifier(&mut self, scope: Scope<'_>) -> Result<Name, Trouble>
        ensures found { IfOk result (λ n. IsName scope.entry.typedefs.now n.place n.text self.old self.new) }
        ensures refused { IfErr result (OnSyntax (is_identifier_first scope.entry.typedefs.now self.old ≡ false)) }
    {
        if !self.is_at_identifier(scope) {
            return Err(Trouble::Syntax);
        }
        Ok(self.take_name(scope.alloc)?)
    }

    /// Reads a typedef name.
    pub fn typedef_name(&mut self, scope: Scope<'_>) -> Result<Name, Trouble>
        ensures found { IfOk result (λ n. IsTypedefName scope.entry.typedefs.now n.place n.text self.old self.new) }
        ensures refused { IfErr result (OnSyntax (is_typedef_first scope.entry.typedefs.now self.old ≡ false)) }
    {
        if !self.is_at_typedef(scope) {
            return Err(Trouble::Syntax);
        }
        Ok(self.take_name(scope.alloc)?)
    }

    /// Whether the next terminal begins declaration specifiers.
    pub fn begins_specifiers(&self, scope: Scope<'_>) -> bool
        ensures { result ≡ begins_specifiers scope.entry.typedefs.now self.now }
    {
        begins_specifiers(self.rest, scope.typedefs)
    }

    /// Whether `(` stands next, and behind it what begins a type name.
    pub fn opens_type_name(&self, scope: Scope<'_>) -> bool
        ensures { result ≡ opens_type_name scope.entry.typedefs.now self.now }
    {
        self.is_at(Punctuator::LeftParenthesis)
            && begins_specifiers(behind_first(self.rest), scope.typedefs)
    }

    /// Whether behind the next terminal `(` stands, and behind that what begins a type name.
    pub fn is_before_type_name(&self, scope: Scope<'_>) -> bool
        ensures { result ≡ opens_type_name scope.entry.typedefs.now (behind_first self.now) }
    {
        self.is_before(Punctuator::LeftParenthesis)
            && begins_specifiers(behind_first(behind_first(self.rest)), scope.typedefs)
    }
}
