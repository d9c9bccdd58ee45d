//! What typing knows at a place of a unit.
ghost use Rattle.std.specs.Prelude.{◌≡◌, IfOk, length, slice_get};
ghost use Rattle.c_layout.specs.Types.{view};
ghost use Rattle.c_layout.specs.CheckedTrees.{term_tree};
ghost use Rattle.c_types_scopes.specs.Known.{known, size_of};
ghost use Rattle.c_types_scopes.specs.DeclaredTypes.{declared_view};
ghost use Rattle.c_types_scopes.specs.Names as names;
ghost use Rattle.c_types_scopes.specs.Names.{scopes_view};
ghost use Rattle.c_types_scopes.specs.States as spec;
ghost use Rattle.c_types_scopes.specs.States.{state};

use crate::data_models::DataModel;
use crate::declared_types::{DeclaredType, ObjectDeclaration, Signature};
use crate::definitions::Definitions;
use crate::meanings::{Meaning, Tag};
use crate::name_numbers::NameNumbers;
use crate::scope_table::ScopeTable;
use crate::struct_types::StructTypes;
use c_layout::{CType, CheckedTerm, LocalObject, StaticObject, StringLiteral};
use c_types_rules::call_cycles::{Call, CallGraph};
use c_types_rules::rules::size_if_complete;
use cc_base::{Memory, Place, Text};
use std::alloc::Global;

/// The names in scope, and what they mean.
#[derive(Drop)]
pub struct Scopes {
    names: NameNumbers,
    ordinary: ScopeTable,
    meanings: Vec<Meaning>,
    tags: ScopeTable,
    tag_meanings: Vec<Tag>,
}

/// The meaning with a number.
fn meaning_at(meanings: &[Meaning], number: u32) -> Option<Meaning>
    ensures { result ≡ slice_get meanings.now number }
{
    meanings.get(number as usize).copied()
}

/// The tag's meaning with a number.
fn tag_at(tags: &[Tag], number: u32) -> Option<Tag>
    ensures { result ≡ slice_get tags.now number }
{
    tags.get(number as usize).copied()
}

impl Scopes {
    /// The outermost scope, without names.
    pub fn new(alloc: Global) -> Scopes
        ensures { scopes_view result ≡ names.no_scopes }
    {
        Scopes {
            names: NameNumbers::new(alloc),
            ordinary: ScopeTable::new(alloc),
            meanings: Vec::new(alloc),
            tags: ScopeTable::new(alloc),
            tag_meanings: Vec::new(alloc),
        }
    }

    /// The number of a name.
    pub fn number(&mut self, alloc: Global, name: &Text) -> Result<u32, Memory>
        ensures number { IfOk result (λ n. n ≡ names.number_in (scopes_view self.old).names name.now) }
        ensures after { IfOk result (λ _. scopes_view self.new ≡ names.with_name (scopes_view self.old) name.now) }
    {
        self.names.number(alloc, name.as_bytes())
    }

    /// The number of a name that was met.
    pub fn known(&self, name: &Text) -> Option<u32>
        ensures { result ≡ names.known_in (scopes_view self.now).names name.now }
    {
        self.names.known(name.as_bytes())
    }

    /// Opens a scope of identifiers and of tags.
    pub fn open(&mut self) -> Result<(), Memory>
        ensures { IfOk result (λ _. scopes_view self.new ≡ names.opened (scopes_view self.old)) }
    {
        self.ordinary.open()?;
        self.tags.open()
    }

    /// Closes the innermost scope.
    pub fn close(&mut self)
        ensures { scopes_view self.new ≡ names.closed (scopes_view self.old) }
    {
        self.ordinary.close();
        self.tags.close();
    }

    /// What an identifier means.
    pub fn find(&self, name: u32) -> Option<Meaning>
        ensures { result ≡ names.found (scopes_view self.now) name }
    {
        match self.ordinary.find(name) {
            Some(found) => meaning_at(self.meanings.as_slice(), found),
            None => None,
        }
    }

    /// What an identifier means by a declaration in the innermost scope.
    pub fn find_here(&self, name: u32) -> Option<Meaning>
        ensures { result ≡ names.found_here (scopes_view self.now) name }
    {
        match self.ordinary.find_here(name) {
            Some(found) => meaning_at(self.meanings.as_slice(), found),
            None => None,
        }
    }

    /// Declares an identifier in the innermost scope.
    pub fn declare(&mut self, name: u32, meaning: Meaning) -> Result<(), Memory>
        ensures { IfOk result (λ _. scopes_view self.new ≡ names.declared (scopes_view self.old) name meaning) }
    {
        let number = u32::try_from(self.meanings.len()).map_err(|_| Memory)?;
        self.meanings.push(meaning)?;
        self.ordinary.declare(name, number)
    }

    /// What a tag means.
    pub fn find_tag(&self, name: u32) -> Option<Tag>
        ensures { result ≡ names.found_tag (scopes_view self.now) name }
    {
        match self.tags.find(name) {
            Some(found) => tag_at(self.tag_meanings.as_slice(), found),
            None => None,
        }
    }

    /// What a tag means by a declaration in the innermost scope.
    pub fn find_tag_here(&self, name: u32) -> Option<Tag>
        ensures { result ≡ names.found_tag_here (scopes_view self.now) name }
    {
        match self.tags.find_here(name) {
            Some(found) => tag_at(self.tag_meanings.as_slice(), found),
            None => None,
        }
    }

    /// Declares a tag in the innermost scope.
    pub fn declare_tag(&mut self, name: u32, tag: Tag) -> Result<(), Memory>
        ensures { IfOk result (λ _. scopes_view self.new ≡ names.declared_tag (scopes_view self.old) name tag) }
    {
        let number = u32::try_from(self.tag_meanings.len()).map_err(|_| Memory)?;
        self.tag_meanings.push(tag)?;
        self.tags.declare(name, number)
    }
}

/// The function whose body is typed: its number, its objects, and the enumerated types that their
/// declarations name.
#[derive(Drop)]
pub struct Body {
    pub number: u32,
    pub locals: Vec<LocalObject>,
    pub enumerations: Vec<Option<u32>>,
}

/// An initializer of an object of static storage: the object's number among those of the run, and the
/// place of its `=` (6.7.9).
#[derive(Clone, Copy)]
pub struct StaticInitializer {
    pub object: u32,
    pub equals: Place,
}

/// What typing knows at a place of a unit.
#[derive(Drop)]
pub struct Context {
    pub alloc: Global,
    pub model: DataModel,
    pub scopes: Scopes,
    pub types: StructTypes,
    /// The values of the enumerators of each enumerated type.
    pub enumerations: Vec<Vec<i128>>,
    pub typedefs: Vec<DeclaredType>,
    pub objects: Vec<ObjectDeclaration>,
    pub functions: Vec<Signature>,
    pub definitions: Definitions,
    /// The objects of static storage of the run.
    pub statics: Vec<StaticObject>,
    /// Their initializers, in reading order.
    pub initializers: Vec<StaticInitializer>,
    /// The string literals of the run.
    pub literals: Vec<StringLiteral>,
    /// The expressions of which only the values are needed.
    pub constants: Vec<CheckedTerm>,
    pub calls: CallGraph,
    /// How many operands of `sizeof` are open: what stands in them is not evaluated.
    pub unevaluated: u32,
    pub body: Body,
    /// The struct that a stream points to.
    pub stream: u32,
}

impl Context {
    /// What is known before a unit's first declaration.
    pub fn new(alloc: Global, model: DataModel) -> Context
        ensures { state result ≡ spec.first_state model.numbers }
    {
        Context {
            alloc,
            model,
            scopes: Scopes::new(alloc),
            types: StructTypes::new(alloc),
            enumerations: Vec::new(alloc),
            typedefs: Vec::new(alloc),
            objects: Vec::new(alloc),
            functions: Vec::new(alloc),
            definitions: Definitions::new(alloc),
            statics: Vec::new(alloc),
            initializers: Vec::new(alloc),
            literals: Vec::new(alloc),
            constants: Vec::new(alloc),
            calls: CallGraph::new(alloc),
            unevaluated: 0,
            body: Body {
                number: 0,
                locals: Vec::new(alloc),
                enumerations: Vec::new(alloc),
            },
            stream: 0,
        }
    }

    /// The size of a complete type; None for any other.
    pub fn size_of(&self, t: &CType) -> Option<u64>
        ensures { result ≡ size_of (known self.now) (view t.now) }
    {
        size_if_complete(t, &self.types.structs, self.model.numbers.pointer)
    }

    /// The number of a name.
    pub fn name(&mut self, name: &Text) -> Result<u32, Memory>
        ensures number { IfOk result (λ n. n ≡ names.number_in (state self.old).scopes.names name.now) }
        ensures after { IfOk result (λ _. state self.new ≡ spec.with_name (state self.old) name.now) }
    {
        self.scopes.number(self.alloc, name)
    }

    /// Whether what is typed is evaluated.
    pub fn is_evaluated(&self) -> bool
        ensures { result ≡ spec.is_evaluated (state self.now) }
    {
        self.unevaluated == 0
    }

    /// Adds a string literal to those of the run; its number. One that is not evaluated is none,
    /// and has the greatest number.
    pub fn add_literal(&mut self, place: Place, bytes: &Text) -> Result<u32, Memory>
        ensures number { IfOk result (λ n. n ≡ spec.literal_number (state self.old)) }
        ensures after { IfOk result (λ _. state self.new ≡ spec.with_literal (state self.old) place bytes.now) }
    {
        if !self.is_evaluated() {
            return Ok(u32::MAX);
        }
        let number = u32::try_from(self.literals.len()).map_err(|_| Memory)?;
        let bytes = bytes.copy(self.alloc)?;
        self.literals.push(StringLiteral { place, bytes })?;
        Ok(number)
    }

    /// Keeps an expression of which only the value is needed: the syntactic rules look at it.
    pub fn keep_constant(&mut self, term: Box<CheckedTerm>) -> Result<(), Memory>
        ensures { IfOk result (λ _. state self.new ≡ spec.with_constant (state self.old) (term_tree term.value)) }
    {
        self.constants.push(Box::into_inner(term))?;
        Ok(())
    }

    /// Notes a call in the body at hand, where it is evaluated.
    pub fn note_call(&mut self, callee: u32, place: Place) -> Result<(), Memory>
        ensures { IfOk result (λ _. state self.new ≡ spec.with_call (state self.old) callee place) }
    {
        if !self.is_evaluated() {
            return Ok(());
        }
        let caller = self.body.number;
        self.calls.add(Call {
            caller,
            callee,
            place,
        })
    }

    /// Adds an object of automatic storage to the body at hand; its number.
    pub fn add_local(
        &mut self,
        name: Text,
        place: Place,
        declared: DeclaredType,
    ) -> Result<u32, Memory>
        ensures number { IfOk result (λ n. n ≡ length (state self.old).body.locals) }
        ensures after { IfOk result (λ _. state self.new ≡ spec.with_local (state self.old) name place (declared_view declared)) }
    {
        let number = u32::try_from(self.body.locals.len()).map_err(|_| Memory)?;
        let DeclaredType { ctype, enumeration } = declared;
        self.body.locals.push(LocalObject { name, place, ctype })?;
        self.body.enumerations.push(enumeration)?;
        Ok(number)
    }

    /// Adds an object of static storage, all zero so far; its number.
    pub fn add_static(&mut self, name: Text, place: Place, ctype: CType) -> Result<u32, Memory>
        ensures number { IfOk result (λ n. n ≡ length (state self.old).statics) }
        ensures after { IfOk result (λ _. state self.new ≡ spec.with_static (state self.old) name place (view ctype)) }
    {
        let number = u32::try_from(self.statics.len()).map_err(|_| Memory)?;
        self.statics.push(StaticObject {
            name,
            place,
            ctype,
            stores: Vec::new(self.alloc),
        })?;
        Ok(number)
    }

    /// Notes an initializer of an object of static storage.
    pub fn note_initializer(&mut self, object: u32, equals: Place) -> Result<(), Memory>
        ensures { IfOk result (λ _. state self.new ≡ spec.with_initializer (state self.old) object equals) }
    {
        self.initializers
            .push(StaticInitializer { object, equals })?;
        Ok(())
    }
}
