//! What is still to be read: tokens, and the ends of replaced lists.
ghost use Rattle.std.specs.Prelude.{◌≡◌, ◌∷◌, [], ◌++◌, ◌+◌, ◌<◌, OnOk, IfNone, option_to_list, drop, length, slice_get};
ghost use Rattle.c_preproc_macros.specs.Pending.{next_open, next_close, pushed, counts_with, note_of, opens, closes, Seen};

use crate::argument_counts::Counts;
use crate::lexeme::Lexeme;
use cc_base::Memory;
use std::alloc::Global;
use std::collections::VecDeque;

/// What is still to be read.
#[derive(Clone, Copy, PartialEq, Eq, Debug)]
pub enum Item {
    /// A token, and where it is a `(` that is closed in its list, the number of commas of the call
    /// that it opens.
    Unread(Lexeme, Option<usize>),
    /// The end of a replaced list.
    Leave,
}

/// What is still to be read, the next item first.
#[derive(Drop)]
pub struct Pending {
    items: VecDeque<Item>,
}

fn is_open(x: Lexeme) -> bool
    ensures { result ≡ opens x }
{
    match x {
        Lexeme::Open(_) => true,
        _ => false,
    }
}

fn is_close(x: Lexeme) -> bool
    ensures { result ≡ closes x }
{
    match x {
        Lexeme::Close(_) => true,
        _ => false,
    }
}

impl Pending {
    pub fn new(alloc: Global) -> Pending
        ensures { result.items.items ≡ [] }
    {
        Pending {
            items: VecDeque::new(alloc),
        }
    }

    /// Puts a token in front of what `counts` was made of.
    fn push_token(&mut self, counts: &mut Counts, x: Lexeme) -> Result<(), Memory>
        ensures items { OnOk result (self.new.items.items ≡ Item.Unread x (note_of x counts.old.closed.items) ∷ self.old.items.items) }
        ensures counts { OnOk result (counts.new.closed.items ≡ counts_with x counts.old.closed.items) }
    {
        let note = counts.note(x);
        self.items.push_front(Item::Unread(x, note))?;
        counts.step(x)
    }

    /// Puts a list in front.
    pub fn push_list(&mut self, alloc: Global, list: &[Lexeme]) -> Result<(), Memory>
        ensures { OnOk result (self.new.items.items ≡ pushed list.now self.old.items.items) }
    {
        let mut counts = Counts::new(alloc);
        let n = list.len();
        for i in 0..n {
            self.push_token(&mut counts, list[n - 1 - i])?;
        }
        Ok(())
    }

    /// Puts an item in front.
    pub fn push(&mut self, item: Item) -> Result<(), Memory>
        ensures { OnOk result (self.new.items.items ≡ item ∷ self.old.items.items) }
    {
        self.items.push_front(item)?;
        Ok(())
    }

    /// Takes the next item.
    pub fn pop(&mut self) -> Option<Item>
        ensures items { self.old.items.items ≡ option_to_list result ++ self.new.items.items }
        ensures none { IfNone result (self.old.items.items ≡ []) }
    {
        self.items.pop_front()
    }

    /// Whether the next item is `)`.
    pub fn next_is_close(&self) -> bool
        ensures { result ≡ next_close self.now.items.items }
    {
        match self.items.front() {
            Some(Item::Unread(x, _)) => is_close(*x),
            _ => false,
        }
    }

    /// Whether the item with this number is `(`; None where it is no token.
    fn opens_at(&self, i: usize) -> Option<bool>
        requires { i < length self.now.items.items }
        ensures { Seen (drop i self.now.items.items) (drop (i + 1) self.now.items.items) result }
    {
        match self.items[i] {
            Item::Unread(x, _) => Some(is_open(x)),
            Item::Leave => None,
        }
    }

    /// Whether `(` is the next token, through the ends of replaced lists.
    pub fn next_is_open(&self) -> bool
        ensures { result ≡ next_open self.now.items.items }
    {
        for i in 0..self.items.len() {
            if let Some(answer) = self.opens_at(i) {
                return answer;
            }
        }
        false
    }
}
