//! Expands a list with a stack of what is still to be read, and no recursion.
ghost use Rattle.std.specs.Prelude.{◌≡◌, Bool, true, ◌∷◌, [], ◌++◌, map, vec_items};
ghost use Rattle.c_preproc_macros.specs.Expanding.{expansion, look, put, unclosed};
ghost use Rattle.c_preproc_macros.specs.Frames.{frame_of, frames_of};
ghost use Rattle.c_preproc_macros.specs.Lexemes.{moved, place_by};
ghost use Rattle.c_preproc_macros.specs.Machine.{at_of, call_at, call_ended, close_in, comma_in, function_at, kept, macro_at, opened, replaced, started, suits, token_at, turned};
ghost use Rattle.c_preproc_macros.specs.Rules.{rule_of, macros_of};
ghost use Rattle.c_preproc_macros.specs.States.{state_of, setting_of, setting_in, Moves, Turns, Expands};
ghost use Rattle.c_preproc_macros.specs.Places.{StandsBy, IfPlaced};
ghost use Rattle.std.specs.List.{All};
ghost use Rattle.cc_base.specs.declared.diagnostics.Place.{Place};

use crate::levels::{Arguments, Call, Level, Levels};
use crate::lexeme::{Lexeme, Mark};
use crate::macro_table::{Macro, Macros, Part};
use crate::pending_list::{Item, Pending};
use crate::replacement::{replacement, replacement_length};
use crate::trouble::{Failure, Refused, Trouble};
use cc_base::Place;
use std::alloc::Global;
use std::mem;

/// The most tokens that all replacements of a unit may make.
const LIMIT: usize = 1_048_576;

/// The expansion of a list.
#[derive(Drop)]
pub struct Expansion {
    pub words: Vec<Lexeme>,
    /// How many tokens all replacements so far have made.
    pub used: usize,
}

#[derive(Drop)]
struct Machine {
    pending: Pending,
    levels: Levels,
    /// The place of the outermost macro name, while there are levels.
    place: Place,
    out: Vec<Lexeme>,
    used: usize,
}

impl Machine {
    fn new(alloc: Global, used: usize) -> Machine
        ensures frames { result.levels.stack.items ≡ [] }
        ensures names { result.levels.within.items ≡ [] }
        ensures pending { result.pending.items.items ≡ [] }
        ensures out { result.out.items ≡ [] }
        ensures used { result.used ≡ used }
    {
        Machine {
            pending: Pending::new(alloc),
            levels: Levels::new(alloc),
            place: Place {
                file: 0,
                line: 0,
                col: 0,
            },
            out: Vec::new(alloc),
            used,
        }
    }

    /// The place of the outermost macro name round a token, or else its own.
    fn place_of(&self, mark: Mark) -> Place
        ensures { result ≡ place_by (at_of (frames_of self.now.levels.stack.items) self.now.place) mark.place }
    {
        match self.levels.outermost(self.place) {
            None => mark.place,
            Some(outer) => outer,
        }
    }

    /// A token at the place of the outermost macro name round it.
    fn moved(&self, x: Lexeme) -> Lexeme
        ensures { result ≡ moved (at_of (frames_of self.now.levels.stack.items) self.now.place) x }
    {
        match self.levels.outermost(self.place) {
            None => x,
            Some(outer) => x.at(outer),
        }
    }

    fn refused(&self, trouble: Trouble, mark: Mark) -> Failure
        ensures { result ≡ Failure.Refused (record { trouble = trouble; place = place_by (at_of (frames_of self.now.levels.stack.items) self.now.place) mark.place }) }
    {
        Failure::Refused(Refused {
            trouble,
            place: self.place_of(mark),
        })
    }

    fn keep(&mut self, x: Lexeme) -> Result<(), Failure>
        ensures { Moves (kept x (state_of self.old)) self.new result }
    {
        let word = self.moved(x);
        self.out.push(word)?;
        Ok(())
    }

    fn open(&mut self, x: Lexeme) -> Result<(), Failure>
        ensures { Moves (opened x (state_of self.old)) self.new result }
    {
        self.levels.deepen()?;
        self.keep(x)
    }

    fn comma(&mut self, alloc: Global, x: Lexeme) -> Result<(), Failure>
        ensures { let old = state_of self.old in Moves (comma_in old.frames x old) self.new result }
    {
        match self.levels.take() {
            None => self.keep(x),
            Some(Level::Within(name)) => {
                self.levels.put(Level::Within(name))?;
                self.keep(x)
            }
            Some(Level::Calling(call)) => self.comma_in_call(alloc, call, x),
        }
    }

    /// Meets a comma in an argument of a call that was taken from the levels.
    fn comma_in_call(&mut self, alloc: Global, call: Call, x: Lexeme) -> Result<(), Failure>
        ensures { let frames = frame_of (Level.Calling call) ∷ frames_of self.old.levels.stack.items in Moves (comma_in frames x (record (state_of self.old) { frames = frames })) self.new result }
    {
        if call.depth > 0 {
            self.levels.put(Level::Calling(call))?;
            return self.keep(x);
        }
        let argument = mem::replace(&mut self.out, Vec::new(alloc));
        let mut finished = call.finished;
        finished.push(argument)?;
        self.levels.put(Level::Calling(Call {
            name: call.name,
            depth: 0,
            outer: call.outer,
            finished,
        }))?;
        Ok(())
    }

    fn close(&mut self, alloc: Global, macros: &Macros, x: Lexeme) -> Result<(), Failure>
        ensures { let old = state_of self.old in Moves (close_in (setting_of macros.now) old.frames x old) self.new result }
    {
        match self.levels.take() {
            None => self.keep(x),
            Some(Level::Within(name)) => {
                self.levels.put(Level::Within(name))?;
                self.keep(x)
            }
            Some(Level::Calling(call)) => self.close_in_call(alloc, macros, call, x),
        }
    }

    /// Meets `)` in an argument of a call that was taken from the levels.
    fn close_in_call(
        &mut self,
        alloc: Global,
        macros: &Macros,
        call: Call,
        x: Lexeme,
    ) -> Result<(), Failure>
        ensures { let frames = frame_of (Level.Calling call) ∷ frames_of self.old.levels.stack.items in Moves (close_in (setting_of macros.now) frames x (record (state_of self.old) { frames = frames })) self.new result }
    {
        if call.depth == 0 {
            return self.end_call(alloc, macros, call);
        }
        self.levels.put(Level::Calling(Call {
            name: call.name,
            depth: call.depth - 1,
            outer: call.outer,
            finished: call.finished,
        }))?;
        self.keep(x)
    }

    /// Replaces a call that was taken from the levels, and whose last argument is read.
    fn end_call(&mut self, alloc: Global, macros: &Macros, call: Call) -> Result<(), Failure>
        ensures { let s = setting_of macros.now in Moves (call_ended s (look s.table call.name) call.name (map vec_items call.finished.items ++ self.old.out.items ∷ []) (record (state_of self.old) { out = call.outer.items })) self.new result }
    {
        let argument = mem::replace(&mut self.out, call.outer);
        let mut finished = call.finished;
        finished.push(argument)?;
        match macros.get(call.name) {
            None => Ok(()),
            Some(rule) => {
                let body = rule.body.as_slice();
                self.replace(alloc, call.name, body, finished.as_slice(), self.place)
            }
        }
    }

    /// Puts the list of a macro in front of what is still to be read.
    fn replace(
        &mut self,
        alloc: Global,
        name: u32,
        body: &[Part],
        arguments: &[Vec<Lexeme>],
        place: Place,
    ) -> Result<(), Failure>
        ensures { Moves (replaced LIMIT name (put (map vec_items arguments.now) body.now) place (state_of self.old)) self.new result }
    {
        let length = replacement_length(body, arguments)?;
        let Some(used) = self.used.checked_add(length) else {
            return Err(Failure::Memory);
        };
        if used > LIMIT {
            let trouble = Trouble::TooMany(used as u64);
            return Err(Failure::Refused(Refused { trouble, place }));
        }
        let made = replacement(alloc, body, arguments)?;
        self.place = place;
        self.used = used;
        self.pending.push(Item::Leave)?;
        self.pending.push_list(alloc, made.as_slice())?;
        self.levels.enter(name)?;
        Ok(())
    }

    fn name(&mut self, alloc: Global, macros: &Macros, name: u32, mark: Mark) -> Result<(), Failure>
        ensures { Moves (token_at (setting_of macros.now) (Lexeme.Name name mark) (state_of self.old)) self.new result }
    {
        let Some(rule) = macros.get(name) else {
            return self.keep(Lexeme::Name(name, mark));
        };
        if self.levels.hides(name) {
            return self.keep(Lexeme::Painted(name, mark));
        }
        self.macro_name(alloc, rule, name, mark)
    }

    /// Meets the name of a macro that may be replaced.
    fn macro_name(
        &mut self,
        alloc: Global,
        rule: &Macro,
        name: u32,
        mark: Mark,
    ) -> Result<(), Failure>
        ensures { Moves (macro_at (record { table = []; limit = LIMIT }) name mark (rule_of rule.now) (rule_of rule.now).parameters (state_of self.old)) self.new result }
    {
        match &rule.parameters {
            None => {
                let place = self.place_of(mark);
                self.replace(alloc, name, rule.body.as_slice(), &[], place)
            }
            Some(parameters) => self.function(alloc, name, parameters.len(), mark),
        }
    }

    /// Meets the name of a function-like macro.
    fn function(
        &mut self,
        alloc: Global,
        name: u32,
        parameters: usize,
        mark: Mark,
    ) -> Result<(), Failure>
        ensures { let old = state_of self.old in Moves (function_at name mark parameters old.pending old) self.new result }
    {
        match self.pending.pop() {
            None => self.keep(Lexeme::Name(name, mark)),
            Some(Item::Leave) => self.at_end(name, mark),
            Some(Item::Unread(Lexeme::Open(_), commas)) => {
                self.call(alloc, name, parameters, commas, mark)
            }
            Some(Item::Unread(x, note)) => {
                self.pending.push(Item::Unread(x, note))?;
                self.keep(Lexeme::Name(name, mark))
            }
        }
    }

    /// Meets the name of a function-like macro at the end of a replaced list, which was taken from
    /// what is still to be read.
    fn at_end(&mut self, name: u32, mark: Mark) -> Result<(), Failure>
        ensures { let old = record (state_of self.old) { pending = Item.Leave ∷ self.old.pending.items.items } in Moves (function_at name mark 0 old.pending old) self.new result }
    {
        if self.pending.next_is_open() {
            return Err(self.refused(Trouble::Spill, mark));
        }
        self.pending.push(Item::Leave)?;
        self.keep(Lexeme::Name(name, mark))
    }

    /// Begins a call whose `(` was taken from what is still to be read.
    fn call(
        &mut self,
        alloc: Global,
        name: u32,
        parameters: usize,
        commas: Option<usize>,
        mark: Mark,
    ) -> Result<(), Failure>
        ensures { Moves (call_at name mark parameters commas self.old.pending.items.items (state_of self.old)) self.new result }
    {
        let Some(commas) = commas else {
            return Err(self.refused(self.unclosed(), mark));
        };
        if !self.fits(parameters, commas) {
            return Err(self.refused(Trouble::Arguments, mark));
        }
        let place = self.place_of(mark);
        self.start(alloc, name, place)
    }

    /// Begins to read the arguments of a call.
    fn start(&mut self, alloc: Global, name: u32, place: Place) -> Result<(), Failure>
        ensures { Moves (started name place self.old.pending.items.items (state_of self.old)) self.new result }
    {
        let outer = mem::replace(&mut self.out, Vec::new(alloc));
        self.place = place;
        self.levels.put(Level::Calling(Call {
            name,
            depth: 0,
            outer,
            finished: Arguments::new(alloc),
        }))?;
        Ok(())
    }

    /// A call that is not closed: in the text itself, or in a replacement.
    fn unclosed(&self) -> Trouble
        ensures { result ≡ unclosed (at_of (frames_of self.now.levels.stack.items) self.now.place) }
    {
        match self.levels.outermost(self.place) {
            None => Trouble::Unclosed,
            Some(_) => Trouble::Arguments,
        }
    }

    /// Whether a call with so many commas, whose arguments are next, fits so many parameters.
    fn fits(&self, parameters: usize, commas: usize) -> bool
        ensures { result ≡ suits parameters commas self.now.pending.items.items }
    {
        if parameters == 0 {
            return commas == 0 && self.pending.next_is_close();
        }
        commas == parameters - 1
    }

    fn token(&mut self, alloc: Global, macros: &Macros, x: Lexeme) -> Result<(), Failure>
        ensures { Moves (token_at (setting_of macros.now) x (state_of self.old)) self.new result }
    {
        match x {
            Lexeme::Name(name, mark) => self.name(alloc, macros, name, mark),
            Lexeme::Open(_) => self.open(x),
            Lexeme::Close(_) => self.close(alloc, macros, x),
            Lexeme::Comma(_) => self.comma(alloc, x),
            _ => self.keep(x),
        }
    }

    /// Reads one item; false at the end.
    fn turn(&mut self, alloc: Global, macros: &Macros) -> Result<bool, Failure>
        ensures { Turns (turned (setting_of macros.now) (state_of self.old)) self.new result }
    {
        match self.pending.pop() {
            None => Ok(false),
            Some(Item::Leave) => {
                self.levels.leave();
                Ok(true)
            }
            Some(Item::Unread(x, _)) => {
                self.token(alloc, macros, x)?;
                Ok(true)
            }
        }
    }
}

/// Runs the machine over a list of tokens.
fn run(alloc: Global, macros: &Macros, used: usize, text: &[Lexeme]) -> Result<Expansion, Failure>
    ensures { Expands (expansion (setting_of macros.now) text.now used) result }
{
    let mut machine = Machine::new(alloc, used);
    machine.pending.push_list(alloc, text)?;
    'turns: loop {
        match machine.turn(alloc, macros) {
            Err(failure) => return Err(failure),
            Ok(true) => {}
            Ok(false) => {
                return Ok(Expansion {
                    words: machine.out,
                    used: machine.used,
                });
            }
        }
    }
}

/// Expands a list of tokens under some macros, where replacements before it have made `used`
/// tokens. Each token that comes out, and each refusal, stands at the place of a token of the list.
///
/// # Errors
///
/// `Refused` by the first call that is wrong; `Memory` for want of memory.
pub fn expand_list(
    alloc: Global,
    macros: &Macros,
    used: usize,
    text: &[Lexeme],
) -> Result<Expansion, Failure>
    ensures value { Expands (expansion (setting_in (macros_of macros.now)) text.now used) result }
    ensures placed { (p : Place → Bool) → All (StandsBy (λ at. p at ≡ true)) text.now → IfPlaced (λ at. p at ≡ true) result }
{
    run(alloc, macros, used, text)
}
