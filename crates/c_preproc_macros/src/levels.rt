//! The calls and the replaced lists that are under way.
ghost use Rattle.std.specs.Prelude.{◌≡◌, ◌∷◌, [], ◌++◌, OnOk, IfNone, option_to_list};
ghost use Rattle.c_preproc_macros.specs.Expanding.{member};
ghost use Rattle.c_preproc_macros.specs.Frames.{frame_of, frames_of};
ghost use Rattle.c_preproc_macros.specs.Machine.{at_of, deepened, left_frames, left_names};

use crate::lexeme::Lexeme;
use cc_base::{Memory, Place};
use smallvec::SmallVec;
use std::alloc::Global;
use std::collections::VecDeque;

/// The arguments of a call, which nearly always has few.
pub type Arguments = SmallVec<Vec<Lexeme>, 4>;

/// A call of a function-like macro whose arguments are being read.
#[derive(Drop)]
pub struct Call {
    /// The name of the macro.
    pub name: u32,
    /// The parentheses that are open in this argument.
    pub depth: usize,
    /// What was made before the call.
    pub outer: Vec<Lexeme>,
    /// The arguments before this one, expanded.
    pub finished: Arguments,
}

/// What is under way.
#[derive(Drop)]
pub enum Level {
    /// The list that replaced a macro.
    Within(u32),
    /// The arguments of a call.
    Calling(Call),
}

/// The levels, the innermost first.
#[derive(Drop)]
pub struct Levels {
    stack: VecDeque<Level>,
    /// The names of the replaced lists among them.
    within: VecDeque<u32>,
}

impl Levels {
    pub fn new(alloc: Global) -> Levels
        ensures stack { result.stack.items ≡ [] }
        ensures within { result.within.items ≡ [] }
    {
        Levels {
            stack: VecDeque::new(alloc),
            within: VecDeque::new(alloc),
        }
    }

    /// The place of the outermost macro name, if anything is under way.
    pub fn outermost(&self, place: Place) -> Option<Place>
        ensures { result ≡ at_of (frames_of self.now.stack.items) place }
    {
        match self.stack.front() {
            None => None,
            Some(_) => Some(place),
        }
    }

    /// Whether a name may not be replaced here.
    pub fn hides(&self, name: u32) -> bool
        ensures { result ≡ member name self.now.within.items }
    {
        self.within.contains(&name)
    }

    /// Opens a parenthesis of the argument that is being read, if one is.
    pub fn deepen(&mut self) -> Result<(), Memory>
        ensures frames { OnOk result (frames_of self.new.stack.items ≡ deepened (frames_of self.old.stack.items)) }
        ensures within { self.new.within.items ≡ self.old.within.items }
    {
        match self.stack.pop_front() {
            None => Ok(()),
            Some(Level::Within(name)) => {
                self.stack.push_front(Level::Within(name))?;
                Ok(())
            }
            Some(Level::Calling(call)) => {
                let Some(depth) = call.depth.checked_add(1) else {
                    return Err(Memory);
                };
                let deeper = Call {
                    name: call.name,
                    depth,
                    outer: call.outer,
                    finished: call.finished,
                };
                self.stack.push_front(Level::Calling(deeper))?;
                Ok(())
            }
        }
    }

    /// Takes the innermost level.
    pub fn take(&mut self) -> Option<Level>
        ensures stack { self.old.stack.items ≡ option_to_list result ++ self.new.stack.items }
        ensures none { IfNone result (self.old.stack.items ≡ []) }
        ensures within { self.new.within.items ≡ self.old.within.items }
    {
        self.stack.pop_front()
    }

    /// Puts a level inside the others.
    pub fn put(&mut self, level: Level) -> Result<(), Memory>
        ensures stack { OnOk result (self.new.stack.items ≡ level ∷ self.old.stack.items) }
        ensures within { self.new.within.items ≡ self.old.within.items }
    {
        self.stack.push_front(level)?;
        Ok(())
    }

    /// Begins to read the list that replaced a macro.
    pub fn enter(&mut self, name: u32) -> Result<(), Memory>
        ensures stack { OnOk result (self.new.stack.items ≡ Level.Within name ∷ self.old.stack.items) }
        ensures within { OnOk result (self.new.within.items ≡ name ∷ self.old.within.items) }
    {
        self.within.push_front(name)?;
        self.stack.push_front(Level::Within(name))?;
        Ok(())
    }

    /// Ends the list that replaced a macro.
    pub fn leave(&mut self)
        ensures frames { frames_of self.new.stack.items ≡ left_frames (frames_of self.old.stack.items) }
        ensures within { self.new.within.items ≡ left_names self.old.within.items }
    {
        let _ = self.stack.pop_front();
        let _ = self.within.pop_front();
    }
}
