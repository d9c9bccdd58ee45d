//! The typedef names in force.
ghost use Rattle.std.specs.Prelude.{◌≡◌, [], IfOk};
ghost use Rattle.c_parser_expression_grammar.specs.Fronts.{is_typedef, with_text};

use indexmap::IndexSet;
use std::alloc::{AllocError, Global};
use std::marker::Model;

/// The typedef names in force, in the order in which they were declared. Whether a name is among them takes no search.
#[derive(Drop)]
pub struct TypedefNames {
    texts: IndexSet<Vec<u8>>,
}

impl Model for TypedefNames {
    ghost use Rattle.std.specs.Prelude.{List, ℕ, map, vec_items};

    ghost Value = { List (List ℕ) };

    ghost view = { λ names. map vec_items names.texts.keys };
}

impl TypedefNames {
    /// No name.
    pub fn new(alloc: Global) -> TypedefNames
        ensures { result ≡ [] }
    {
        TypedefNames {
            texts: IndexSet::new(alloc),
        }
    }

    /// Puts a name in force, behind the others if it is new.
    pub fn add(&mut self, alloc: Global, text: &[u8]) -> Result<(), AllocError>
        ensures { IfOk result (λ _. self.new ≡ with_text self.old text.now) }
    {
        let name = Vec::from_slice(alloc, text)?;
        self.texts.insert_full(name)?;
        Ok(())
    }

    /// Whether a name is in force.
    pub fn has(&self, text: &[u8]) -> bool
        ensures { result ≡ is_typedef self.now text.now }
    {
        self.texts.contains(text)
    }
}
