//! A file that is being read, line by line.
ghost use Rattle.std.specs.Prelude.{◌≡◌, ◌∷◌, [], OnOk, IfOk};
ghost use Rattle.c_preproc_macros.specs.Numbering.{texts_of};
ghost use Rattle.c_preproc_directives.specs.OpenFiles.{is_punctuator, begins_directive, first_of, cut, cut_text, cut_line, cut_directive, opened_of, opened_file, read_tokens};

use crate::conditional_groups::Sections;
use c_preproc_macros::{Lexeme, Spellings};
use cc_base::{Kind, Memory, Token};
use std::alloc::Global;
use std::collections::VecDeque;

/// A file that is being read.
#[derive(Drop)]
pub struct OpenFile {
    /// Its index in the unit's list of file names.
    pub file: u32,
    /// The if-sections that are open in it.
    pub sections: Sections,
    /// What is not read yet.
    unread: VecDeque<Lexeme>,
}

fn is_punctuator(kind: Kind) -> bool
    ensures { result ≡ is_punctuator kind }
{
    match kind {
        Kind::Punct => true,
        _ => false,
    }
}

/// A token that begins a directive: a `#` that is the first token of its line (6.10p2).
pub fn begins_directive(spellings: &Spellings, x: Lexeme) -> bool
    ensures { result ≡ begins_directive (texts_of spellings.now) x }
{
    match x {
        Lexeme::Other(kind, text, mark) => {
            is_punctuator(kind) && mark.first && spellings.text(text) == b"#".as_slice()
        }
        _ => false,
    }
}

/// Takes the tokens before the first that begins a directive.
fn take_text(
    alloc: Global,
    spellings: &Spellings,
    unread: &mut VecDeque<Lexeme>,
) -> Result<Vec<Lexeme>, Memory>
    ensures { IfOk result (λ list. cut list.items unread.new.items ≡ cut_text (texts_of spellings.now) unread.old.items) }
{
    let mut list = Vec::new(alloc);
    'tokens: while let Some(x) = unread.pop_front() {
        if begins_directive(spellings, x) {
            unread.push_front(x)?;
            return Ok(list);
        }
        list.push(x)?;
    }
    Ok(list)
}

/// Takes the tokens before the first that begins a line.
fn take_line(alloc: Global, unread: &mut VecDeque<Lexeme>) -> Result<Vec<Lexeme>, Memory>
    ensures { IfOk result (λ list. cut list.items unread.new.items ≡ cut_line unread.old.items) }
{
    let mut list = Vec::new(alloc);
    'tokens: while let Some(x) = unread.pop_front() {
        if x.mark().first {
            unread.push_front(x)?;
            return Ok(list);
        }
        list.push(x)?;
    }
    Ok(list)
}

/// Tokens with their spellings as numbers.
fn read_tokens(
    alloc: Global,
    spellings: &mut Spellings,
    tokens: &[Token],
) -> Result<VecDeque<Lexeme>, Memory>
    ensures { IfOk result (λ list. (texts_of spellings.new, list.items) ≡ read_tokens (texts_of spellings.old) tokens.now) }
{
    let mut list = VecDeque::new(alloc);
    for token in tokens {
        let x = spellings.lexeme(alloc, token)?;
        list.push_back(x)?;
    }
    Ok(list)
}

impl OpenFile {
    /// A file that begins with these tokens, where no section is open.
    pub fn new(
        alloc: Global,
        spellings: &mut Spellings,
        file: u32,
        tokens: &[Token],
    ) -> Result<OpenFile, Memory>
        ensures { IfOk result (λ f. (texts_of spellings.new, opened_of f) ≡ opened_file (texts_of spellings.old) file tokens.now) }
    {
        let unread = read_tokens(alloc, spellings, tokens)?;
        Ok(OpenFile {
            file,
            sections: Sections::new(alloc),
            unread,
        })
    }

    /// The next token.
    pub fn next(&self) -> Option<Lexeme>
        ensures { result ≡ first_of (opened_of self.now).unread }
    {
        match self.unread.front() {
            None => None,
            Some(x) => Some(*x),
        }
    }

    /// Takes the text lines before the next directive.
    pub fn text_lines(
        &mut self,
        alloc: Global,
        spellings: &Spellings,
    ) -> Result<Vec<Lexeme>, Memory>
        ensures lines { IfOk result (λ list. list.items ≡ (cut_text (texts_of spellings.now) (opened_of self.old).unread).front) }
        ensures left { IfOk result (λ _. opened_of self.new ≡ record (opened_of self.old) { unread = (cut_text (texts_of spellings.now) (opened_of self.old).unread).rest }) }
    {
        take_text(alloc, spellings, &mut self.unread)
    }

    /// Takes the line of the directive that the next token begins; what stands behind that token.
    pub fn directive_line(&mut self, alloc: Global) -> Result<Vec<Lexeme>, Memory>
        ensures line { IfOk result (λ list. list.items ≡ (cut_directive (opened_of self.old).unread).front) }
        ensures left { IfOk result (λ _. opened_of self.new ≡ record (opened_of self.old) { unread = (cut_directive (opened_of self.old).unread).rest }) }
    {
        match self.unread.pop_front() {
            None => Ok(Vec::new(alloc)),
            Some(_) => take_line(alloc, &mut self.unread),
        }
    }
}
