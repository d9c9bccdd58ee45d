//! Conditional inclusion: which groups of an if-section are taken (6.10.1).
ghost use Rattle.std.specs.Prelude.{◌≡◌, [], IfOk, IfNone, option_map, slice_get, length, ◌-◌};
ghost use Rattle.c_preproc_directives.specs.Groups.{is_taken, is_waiting, is_outside, is_skipped, entered, state_before_elif, with_state, else_fault, turned_else, end_fault, left};

use cc_base::{Memory, Place};
use std::alloc::Global;
use std::collections::VecDeque;

/// What becomes of the group that is being read.
#[derive(Clone, Copy, PartialEq, Eq, Debug)]
pub enum GroupState {
    /// It is taken.
    Taken,
    /// It is skipped, and no group of its section has been taken.
    Waiting,
    /// It is skipped, and a group of its section has been taken.
    Done,
    /// It is skipped with the whole section, which stands in a skipped group.
    Outside,
}

/// An if-section that is open.
#[derive(Clone, Copy, PartialEq, Eq, Debug)]
pub struct Section {
    /// The place of the `#` of its `#if`.
    pub place: Place,
    pub state: GroupState,
    /// Whether its `#else` was met.
    pub after_else: bool,
}

/// What a directive of an if-section is answered with.
#[derive(Clone, Copy, PartialEq, Eq, Debug)]
pub enum Uneven {
    /// It has no `#if`, or its section had its `#else`.
    Misplaced,
    /// It has tokens behind it.
    Trailing,
}

impl GroupState {
    ghost use Rattle.c_preproc_directives.specs.Groups.{first_state, state_behind, state_otherwise};

    /// The state of the first group of a section with this condition.
    pub fn first(holds: bool) -> GroupState
        ensures { result ≡ first_state holds }
    {
        if holds {
            GroupState::Taken
        } else {
            GroupState::Waiting
        }
    }

    /// The state of a group behind a group in this state, where its condition is not asked for.
    pub fn behind(self) -> GroupState
        ensures { result ≡ state_behind self }
    {
        match self {
            GroupState::Taken => GroupState::Done,
            other => other,
        }
    }

    /// Whether the group is taken.
    pub fn is_taken(self) -> bool
        ensures { result ≡ is_taken self }
    {
        match self {
            GroupState::Taken => true,
            _ => false,
        }
    }

    /// Whether the group is skipped, and no group of its section has been taken.
    pub fn is_waiting(self) -> bool
        ensures { result ≡ is_waiting self }
    {
        match self {
            GroupState::Waiting => true,
            _ => false,
        }
    }

    /// Whether the group is skipped with its whole section.
    pub fn is_outside(self) -> bool
        ensures { result ≡ is_outside self }
    {
        match self {
            GroupState::Outside => true,
            _ => false,
        }
    }

    /// The state of an `#else` group behind a group in this state.
    pub fn otherwise(self) -> GroupState
        ensures { result ≡ state_otherwise self }
    {
        match self {
            GroupState::Waiting => GroupState::Taken,
            other => other.behind(),
        }
    }
}

/// The if-sections that are open in a file, the innermost first.
#[derive(Drop)]
pub struct Sections {
    open: VecDeque<Section>,
}

impl Sections {
    /// No section.
    pub fn new(alloc: Global) -> Sections
        ensures { result.open.items ≡ [] }
    {
        Sections {
            open: VecDeque::new(alloc),
        }
    }

    /// The place of the first section that is open.
    pub fn first_open(&self) -> Option<Place>
        ensures { result ≡ option_map (λ s. s.place) (slice_get self.now.open.items (length self.now.open.items - 1)) }
    {
        match self.open.back() {
            None => None,
            Some(section) => Some(section.place),
        }
    }

    /// Whether the group that is being read is skipped.
    pub fn is_skipping(&self) -> bool
        ensures { result ≡ is_skipped self.now.open.items }
    {
        match self.open.front() {
            None => false,
            Some(section) => !section.state.is_taken(),
        }
    }

    /// Begins a section whose first group has this state.
    pub fn enter(&mut self, place: Place, state: GroupState) -> Result<(), Memory>
        ensures { IfOk result (λ _. self.new.open.items ≡ entered place state self.old.open.items) }
    {
        self.open.push_front(Section {
            place,
            state,
            after_else: false,
        })?;
        Ok(())
    }

    /// The state of the group before an `#elif`, or None where the `#elif` is misplaced.
    pub fn before_elif(&self) -> Option<GroupState>
        ensures { result ≡ state_before_elif self.now.open.items }
    {
        match self.open.front() {
            None => None,
            Some(section) => {
                if section.after_else {
                    None
                } else {
                    Some(section.state)
                }
            }
        }
    }

    /// Goes on to an `#elif` group with this state.
    pub fn set_state(&mut self, state: GroupState)
        ensures { self.new.open.items ≡ with_state state self.old.open.items }
    {
        if let Some(section) = self.open.front_mut() {
            section.state = state;
        }
    }

    /// What is wrong with an `#else`.
    fn else_fault(&self, trailing: bool) -> Option<Uneven>
        ensures { result ≡ else_fault trailing self.now.open.items }
    {
        match self.open.front() {
            None => Some(Uneven::Misplaced),
            Some(section) => {
                if section.after_else {
                    Some(Uneven::Misplaced)
                } else if trailing && !section.state.is_outside() {
                    Some(Uneven::Trailing)
                } else {
                    None
                }
            }
        }
    }

    /// Goes on to an `#else` group. `trailing` says whether tokens follow the `#else`.
    pub fn turn_else(&mut self, trailing: bool) -> Option<Uneven>
        ensures fault { result ≡ else_fault trailing self.old.open.items }
        ensures turned { IfNone result (self.new.open.items ≡ turned_else self.old.open.items) }
    {
        if let Some(fault) = self.else_fault(trailing) {
            return Some(fault);
        }
        if let Some(section) = self.open.front_mut() {
            section.state = section.state.otherwise();
            section.after_else = true;
        }
        None
    }

    /// Ends a section. `trailing` says whether tokens follow the `#endif`.
    pub fn leave(&mut self, trailing: bool) -> Option<Uneven>
        ensures fault { result ≡ end_fault trailing self.old.open.items }
        ensures left { self.new.open.items ≡ left self.old.open.items }
    {
        match self.open.pop_front() {
            None => Some(Uneven::Misplaced),
            Some(section) => {
                if trailing && !section.state.is_outside() {
                    Some(Uneven::Trailing)
                } else {
                    None
                }
            }
        }
    }
}
