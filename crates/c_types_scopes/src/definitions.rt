//! What a unit defines, known before its first declaration is typed.
ghost use Rattle.std.specs.Prelude.{◌≡◌, IfOk};
ghost use Rattle.c_types_scopes.specs.Definitions as spec;
ghost use Rattle.c_types_scopes.specs.Definitions.{definitions_view};

use cc_base::Memory;
use indexmap::{IndexMap, IndexSet};
use std::alloc::Global;

/// The functions that a unit defines, numbered in order, and its objects of file scope with a
/// definition, by the numbers of their names.
#[derive(Drop)]
pub struct Definitions {
    functions: IndexMap<u32, u32>,
    objects: IndexSet<u32>,
    count: u32,
}

impl Definitions {
    /// No definition.
    pub fn new(alloc: Global) -> Definitions
        ensures { definitions_view result ≡ spec.no_definitions }
    {
        Definitions {
            functions: IndexMap::new(alloc),
            objects: IndexSet::new(alloc),
            count: 0,
        }
    }

    /// Adds the definition of a function. A second one of the same name, which typing refuses,
    /// takes a number and is not found.
    pub fn add_function(&mut self, name: u32) -> Result<(), Memory>
        ensures { IfOk result (λ _. definitions_view self.new ≡ spec.with_function (definitions_view self.old) name) }
    {
        let Some(next) = self.count.checked_add(1) else {
            return Err(Memory);
        };
        if self.functions.get(&name).is_none() {
            self.functions.insert(name, self.count)?;
        }
        self.count = next;
        Ok(())
    }

    /// Adds the definition of an object.
    pub fn add_object(&mut self, name: u32) -> Result<(), Memory>
        ensures { IfOk result (λ _. definitions_view self.new ≡ spec.with_object (definitions_view self.old) name) }
    {
        self.objects.insert(name)?;
        Ok(())
    }

    /// The number of the function of a name, where the unit defines it.
    pub fn function(&self, name: u32) -> Option<u32>
        ensures { result ≡ spec.function_of (definitions_view self.now) name }
    {
        self.functions.get(&name).copied()
    }

    /// Whether the unit defines an object of this name at file scope.
    pub fn has_object(&self, name: u32) -> bool
        ensures { result ≡ spec.has_object (definitions_view self.now) name }
    {
        self.objects.contains(&name)
    }
}
