//! The names of one name space in nested scopes (6.2.1, 6.2.3 of ISO/IEC 9899:2011).
ghost use Rattle.std.specs.Prelude.{◌≡◌, ◌<◌, ◌-◌, ◌+◌, ◌∷◌, ◌++◌, [], ℕ, None, IfOk, OnErr, slice_set, get_or, map, take, length, slice_get, Some, cond};
ghost use Rattle.c_types_scopes.specs.ScopeTables as spec;
ghost use Rattle.c_types_scopes.specs.NewestNames.{declarations};

use crate::name_numbers::short;
use cc_base::Memory;
use std::alloc::Global;
use std::marker::Model;

/// A declaration: the number of its name, and what it means.
#[derive(Clone, Copy)]
pub struct NameDeclaration {
    pub name: u32,
    pub meaning: u32,
}

/// A declaration, and the position of the one of the same name that it hides.
#[derive(Clone, Copy)]
struct ScopeEntry {
    declared: NameDeclaration,
    hidden: Option<u32>,
}

/// The declarations in force, the newest last, with the newest one of each name, so that a name is
/// found at once however many there are.
#[derive(Drop)]
pub struct ScopeTable {
    entries: Vec<ScopeEntry>,
    newest: Vec<Option<u32>>,
    /// For each open scope but the outermost the number of declarations before it.
    marks: Vec<usize>,
}

impl Model for ScopeTable {
    ghost use Rattle.c_types_scopes.specs.ScopeTables.{TableView};
    ghost use Rattle.c_types_scopes.specs.NewestNames.{IsIndexed, declarations};

    ghost Value = { TableView };

    ghost view = { λ t. record { entries = declarations t.entries.items; marks = t.marks.items } };

    ghost invariant = { λ t. IsIndexed t.entries.items t.newest.items };
}

/// Notes the position of the newest declaration of a name.
fn set_newest(newest: &mut Vec<Option<u32>>, name: u32, at: Option<u32>)
    ensures { newest.new.items ≡ slice_set newest.old.items name at }
{
    if let Some(place) = newest.get_mut(name as usize) {
        *place = at;
    }
}

/// The position of the newest declaration of a name.
fn position_in(newest: &[Option<u32>], name: u32) -> Option<u32>
    ensures { result ≡ get_or newest.now name None }
{
    match newest.get(name as usize) {
        Some(at) => *at,
        None => None,
    }
}

/// Makes room for a name; no name is declared by it.
fn make_room(newest: &mut Vec<Option<u32>>, name: u32) -> Result<(), Memory>
    ensures same { (other : ℕ) → get_or newest.new.items other None ≡ get_or newest.old.items other None }
    ensures room { IfOk result (λ _. name < length newest.new.items) }
{
    while newest.len() <= name as usize {
        newest.push(None)?;
    }
    Ok(())
}

/// What a declaration at a position says.
fn meaning_of(entries: &[ScopeEntry], at: u32) -> Option<u32>
    ensures { result ≡ spec.meaning_at (declarations entries.now) (Some at) }
{
    match entries.get(at as usize) {
        Some(entry) => Some(entry.declared.meaning),
        None => None,
    }
}

/// How many declarations stand in outer scopes.
fn outer(marks: &[usize]) -> usize
    ensures { result ≡ spec.outer marks.now }
{
    match marks.last() {
        Some(mark) => *mark,
        None => 0,
    }
}

impl ScopeTable {
    /// The outermost scope, without names.
    pub fn new(alloc: Global) -> ScopeTable
        ensures { result ≡ spec.no_names }
    {
        ScopeTable {
            entries: Vec::new(alloc),
            newest: Vec::new(alloc),
            marks: Vec::new(alloc),
        }
    }

    /// Opens a scope.
    pub fn open(&mut self) -> Result<(), Memory>
        ensures { IfOk result (λ _. self.new ≡ spec.opened self.old) }
    {
        self.marks.push(self.entries.len())?;
        Ok(())
    }

    /// How many declarations are in force.
    fn count(&self) -> usize
        ensures { result ≡ length self.now.entries }
    {
        self.entries.len()
    }

    /// Takes the newest declaration away; its name means again what it meant before.
    fn drop_newest(&mut self)
        ensures { self.new ≡ record { entries = take (length self.old.entries - 1) self.old.entries; marks = self.old.marks } }
    {
        if let Some(entry) = self.entries.pop() {
            set_newest(&mut self.newest, entry.declared.name, entry.hidden);
        }
    }

    /// Takes the newest declarations away, down to so many.
    fn drop_to(&mut self, mark: usize)
        ensures { self.new ≡ record { entries = take mark self.old.entries; marks = self.old.marks } }
    {
        while self.count() > mark {
            self.drop_newest();
        }
    }

    /// Takes the newest mark away.
    fn pop_mark(&mut self) -> Option<usize>
        ensures mark { result ≡ slice_get self.old.marks (length self.old.marks - 1) }
        ensures rest { self.new ≡ record { entries = self.old.entries; marks = take (length self.old.marks - 1) self.old.marks } }
    {
        self.marks.pop()
    }

    /// Closes the innermost scope; its names mean again what they meant before.
    pub fn close(&mut self)
        ensures { self.new ≡ spec.closed self.old }
    {
        if let Some(mark) = self.pop_mark() {
            self.drop_to(mark);
        }
    }

    /// What a name means.
    pub fn find(&self, name: u32) -> Option<u32>
        ensures { result ≡ spec.found self.now name }
    {
        match position_in(self.newest.as_slice(), name) {
            Some(at) => meaning_of(self.entries.as_slice(), at),
            None => None,
        }
    }

    /// What a name means by a declaration in the innermost scope.
    pub fn find_here(&self, name: u32) -> Option<u32>
        ensures { result ≡ spec.found_here self.now name }
    {
        match position_in(self.newest.as_slice(), name) {
            Some(at) => {
                if (at as usize) < outer(self.marks.as_slice()) {
                    None
                } else {
                    meaning_of(self.entries.as_slice(), at)
                }
            }
            None => None,
        }
    }

    /// Declares a name in the innermost scope.
    pub fn declare(&mut self, name: u32, meaning: u32) -> Result<(), Memory>
        ensures { IfOk result (λ _. self.new ≡ spec.declared_in self.old name meaning) }
    {
        let at = short(self.entries.len())?;
        make_room(&mut self.newest, name)?;
        let hidden = position_in(self.newest.as_slice(), name);
        let declared = NameDeclaration { name, meaning };
        self.entries.push(ScopeEntry { declared, hidden })?;
        set_newest(&mut self.newest, name, Some(at));
        Ok(())
    }
}
