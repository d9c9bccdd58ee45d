//! The names of the files that were met.
ghost use Rattle.std.specs.Prelude.{◌≡◌, ◌++◌, ◌∷◌, [], true, map, length, string_bytes, slice_get, Some, option_map, IfOk, false};
ghost use Rattle.c_preproc_macros.specs.Numbering.{number_in, with_text};
ghost use Rattle.c_preproc.specs.Names.{is_among, is_distinct, position_from};

use cc_base::Memory;
use std::alloc::Global;
use std::marker::Model;

/// Names without repeats, in order of first inclusion.
#[derive(Drop)]
pub struct FileNames {
    names: Vec<String>,
}

impl Model for FileNames {
    ghost use Rattle.std.specs.Prelude.{◌≡◌, ℕ, List, true, map, string_bytes};
    ghost use Rattle.c_preproc.specs.Names.{is_distinct};

    ghost Value = { List (List ℕ) };

    ghost view = { λ f. map string_bytes f.names.items };

    ghost invariant = { λ f. is_distinct (map string_bytes f.names.items) ≡ true };
}

/// The first position of a name in a list, if it is there.
fn position_of(names: &[String], name: &str) -> Option<usize>
    ensures { result ≡ position_from 0 name.now (map string_bytes names.now) }
{
    for (at, known) in names.iter().enumerate() {
        if name == known.as_str() {
            return Some(at);
        }
    }
    None
}

/// A position as an index.
fn index_of(at: usize) -> Result<u32, Memory>
    ensures { IfOk result (λ k. k ≡ at) }
{
    match u32::try_from(at) {
        Ok(index) => Ok(index),
        Err(_) => Err(Memory),
    }
}

impl FileNames {
    /// No name.
    pub fn new(alloc: Global) -> FileNames
        ensures { result ≡ [] }
    {
        FileNames {
            names: Vec::new(alloc),
        }
    }

    /// How many names there are.
    pub fn len(&self) -> usize
        ensures { result ≡ length self.now }
    {
        self.names.len()
    }

    /// The name of a file.
    pub fn name(&self, file: u32) -> Option<&str>
        ensures { option_map (λ s. s.now) result ≡ slice_get self.now file }
    {
        match self.names.get(file as usize) {
            None => None,
            Some(name) => Some(name.as_str()),
        }
    }

    /// The index of a name, which joins the list at the end if it is not there.
    #[tactic(auto, using(crate::proofs::NameLists::number_found, crate::proofs::NameLists::name_found, crate::proofs::NameLists::list_found, crate::proofs::NameLists::number_new, crate::proofs::NameLists::name_new, crate::proofs::NameLists::list_new, crate::proofs::NameLists::is_new))]
    pub fn number(&mut self, alloc: Global, name: &str) -> Result<u32, Memory>
        ensures number { IfOk result (λ k. k ≡ number_in self.old name.now) }
        ensures names { IfOk result (λ _. self.new ≡ with_text self.old name.now) }
        ensures name { IfOk result (λ k. slice_get self.new k ≡ Some name.now) }
    {
        match position_of(self.names.as_slice(), name) {
            Some(at) => index_of(at),
            None => self.add(alloc, name),
        }
    }

    /// Adds a name that is not there.
    fn add(&mut self, alloc: Global, name: &str) -> Result<u32, Memory>
        requires { is_among name.now self.old ≡ false }
        ensures number { IfOk result (λ k. k ≡ length self.old) }
        ensures names { IfOk result (λ _. self.new ≡ self.old ++ name.now ∷ []) }
    {
        let at = index_of(self.names.len())?;
        let name = String::from_str(alloc, name)?;
        self.names.push(name)?;
        Ok(at)
    }

    /// The names.
    pub fn into_names(self) -> Vec<String>
        ensures names { map string_bytes result.items ≡ self }
        ensures distinct { is_distinct (map string_bytes result.items) ≡ true }
    {
        self.names
    }
}
