//! The macros that are defined.
ghost use Rattle.std.specs.Prelude.{◌≡◌, [], MatchOption, OnOk, OnErr, option_copied};
ghost use Rattle.c_preproc_macros.specs.Expanding.{look};
ghost use Rattle.c_preproc_macros.specs.Rules.{rule_of, rules_of, macro_of, macros_of, defined_of, defined_in, Sets, IsSame};
ghost use Rattle.std.specs.Prelude.{nat_eq, option_map};
ghost use Rattle.indexmap.specs.IndexMap.{insert_entry, swap_remove_entry};

use crate::lexeme::Lexeme;
use indexmap::IndexMap;
use std::alloc::{AllocError, Global};

/// A part of a replacement list.
#[derive(Clone, Copy, PartialEq, Eq, Debug)]
pub enum Part {
    /// The parameter with this number, from 0, and whether white space stands before it.
    Parameter(u32, bool),
    /// A token.
    Word(Lexeme),
}

/// A macro's definition (6.10.3).
#[derive(Drop)]
pub struct Macro {
    /// The names of the parameters; None for an object-like macro.
    pub parameters: Option<Vec<u32>>,
    /// The replacement list.
    pub body: Vec<Part>,
}

/// Macros by the numbers of their names, in no order.
#[derive(Drop)]
pub struct Macros {
    table: IndexMap<u32, Macro>,
}

impl Macros {
    /// No macro.
    pub fn new(alloc: Global) -> Macros
        ensures rules { rules_of result ≡ [] }
        ensures macros { macros_of result ≡ [] }
    {
        Macros {
            table: IndexMap::new(alloc),
        }
    }

    /// The definition of a name.
    pub fn get(&self, name: u32) -> Option<&Macro>
        ensures value { option_copied result ≡ macro_of self.now name }
        ensures defined { option_map (λ m. defined_of m.now) result ≡ defined_in (macros_of self.now) name }
        ensures rule { MatchOption result (look (rules_of self.now) name ≡ None) (λ m. look (rules_of self.now) name ≡ Some (rule_of m.now)) }
    {
        self.table.get(&name)
    }

    /// Defines a name that is not defined.
    pub fn define(&mut self, name: u32, rule: Macro) -> Result<(), AllocError>
        ensures macros { OnOk result (macros_of self.new ≡ insert_entry nat_eq (macros_of self.old) name (defined_of rule)) }
        ensures ok { OnOk result (Sets self.old name (Some rule) self.new) }
        ensures err { OnErr result (IsSame self.old self.new) }
    {
        self.table.insert(name, rule)?;
        Ok(())
    }

    /// Takes a definition away, if there is one.
    pub fn undefine(&mut self, name: u32)
        ensures macros { macros_of self.new ≡ swap_remove_entry (nat_eq name) (macros_of self.old) }
        ensures sets { Sets self.old name None self.new }
    {
        let _ = self.table.swap_remove(&name);
    }
}
