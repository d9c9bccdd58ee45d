//! How many commas the call has that a `(` opens, found while its list is pushed from its end.
ghost use Rattle.std.specs.Prelude.{◌≡◌, [], OnOk};
ghost use Rattle.c_preproc_macros.specs.Pending.{counts_with, innermost, more_commas, note_of};

use crate::lexeme::Lexeme;
use cc_base::Memory;
use std::alloc::Global;
use std::collections::VecDeque;

/// For the part of a list behind a place, the number of commas at each depth of parentheses that is
/// closed, the innermost first.
#[derive(Drop)]
pub struct Counts {
    closed: VecDeque<usize>,
}

impl Counts {
    /// Behind the end of a list.
    pub fn new(alloc: Global) -> Counts
        ensures { result.closed.items ≡ [] }
    {
        Counts {
            closed: VecDeque::new(alloc),
        }
    }

    /// The number of commas of the innermost call.
    fn innermost(&self) -> Option<usize>
        ensures { result ≡ innermost self.now.closed.items }
    {
        self.closed.front().copied()
    }

    /// The number of commas of the call that a token opens; None where it is no `(` or is not
    /// closed in its list.
    pub fn note(&self, x: Lexeme) -> Option<usize>
        ensures { result ≡ note_of x self.now.closed.items }
    {
        match x {
            Lexeme::Open(_) => self.innermost(),
            _ => None,
        }
    }

    /// Counts a comma of the innermost call.
    fn comma(&mut self) -> Result<(), Memory>
        ensures { OnOk result (self.new.closed.items ≡ more_commas self.old.closed.items) }
    {
        match self.closed.pop_front() {
            None => Ok(()),
            Some(count) => {
                let Some(more) = count.checked_add(1) else {
                    return Err(Memory);
                };
                self.closed.push_front(more)?;
                Ok(())
            }
        }
    }

    /// Goes on to the next token before.
    pub fn step(&mut self, x: Lexeme) -> Result<(), Memory>
        ensures { OnOk result (self.new.closed.items ≡ counts_with x self.old.closed.items) }
    {
        match x {
            Lexeme::Open(_) => {
                let _ = self.closed.pop_front();
                Ok(())
            }
            Lexeme::Close(_) => {
                self.closed.push_front(0)?;
                Ok(())
            }
            Lexeme::Comma(_) => self.comma(),
            _ => Ok(()),
        }
    }
}
