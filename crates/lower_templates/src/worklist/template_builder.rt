//! The works of one turn and the numbers that a template gives away.
ghost use Rattle.std.specs.Prelude.{◌≡◌, ◌+◌, ◌^◌, ◌<◌, IfOk, length};
ghost use Rattle.c_layout.specs.Types.{view};
ghost use Rattle.c_layout.specs.Layout.{size_of_type};
ghost use Rattle.c_layout.specs.StructViews.{structs_view};
ghost use Rattle.lower_templates.specs.Worklist.Acts.{act};
ghost use Rattle.lower_templates.specs.Worklist.Pieces.{name_view, exits_view};
ghost use Rattle.lower_templates.specs.Worklist.Works.{job};
ghost use Rattle.lower_templates.specs.Worklist.Plans.{plan, with_work, with_name, with_labels, with_scope, with_dispatch, with_dispatch, done, ended, begun, name_of_object};

use crate::worklist::pending_works::Work;
use crate::worklist::scope_trees::ScopeTree;
use crate::worklist::template_pieces::{BaseName, Exit, Piece};
use c_layout::{CType, ObjectRef, Structs, type_bytes};
use cc_base::Place;
use cfg::{Instruction, Operation};
use std::alloc::{AllocError, Global};

/// What a function's template is made from.
#[derive(Drop)]
pub struct Setting<'a> {
    pub structs: &'a Structs,
    /// How many bytes a pointer has, and an int.
    pub pointer: u8,
    pub int: u8,
    /// The place of the function's name, which instructions have that violate nothing.
    pub place: Place,
    /// The parameters, which are the first local objects.
    pub parameters: Vec<u32>,
    pub is_entry: bool,
    /// The label behind the body, where a return goes.
    pub end: u32,
    pub tree: ScopeTree<'a>,
}

/// The labels of a `switch`: that of its first case, which those of the others follow, and that of
/// its default.
#[derive(Clone, Copy)]
pub struct Dispatch {
    pub cases: u32,
    pub fallback: u32,
}

/// The works of one turn, in order, and the numbers that were given away.
#[derive(Drop)]
pub struct Builder<'a> {
    pub alloc: Global,
    pub works: Vec<Work<'a>>,
    /// The bases, one for each mention.
    pub names: Vec<BaseName<'a>>,
    /// How many labels there are. The first ones are those of the function.
    pub labels: u32,
    /// How many scopes were come to.
    pub scopes: u32,
    /// The labels of the `switch`es that were come to.
    pub dispatches: Vec<Dispatch>,
}

impl<'a> Setting<'a> {
    /// The size of a type.
    pub fn bytes(&self, t: &CType) -> Result<u64, AllocError>
        ensures { IfOk result (λ n. n ≡ size_of_type (structs_view self.now.structs.now) self.now.pointer (view t.now)) }
    {
        type_bytes(t, self.structs, self.pointer)
    }
}

impl<'a> Builder<'a> {
    /// Adds a work.
    #[tactic(auto, unfolding(crate::specs::Worklist::Plans::with_work))]
    pub fn add(&mut self, work: Work<'a>) -> Result<(), AllocError>
        ensures { IfOk result (λ _. plan self.new ≡ with_work (job work.entry) (plan self.old)) }
    {
        Ok(self.works.push(work)?)
    }

    /// Adds an instruction that does not end its block.
    pub fn emit(&mut self, place: Place, operation: Operation) -> Result<(), AllocError>
        ensures { IfOk result (λ _. plan self.new ≡ done place (act operation) (plan self.old)) }
    {
        self.add(Work::Ready(Piece::Do(Instruction { place, operation })))
    }

    /// Adds an instruction that ends its block, and the edges of the block in order.
    pub fn close(
        &mut self,
        place: Place,
        operation: Operation,
        exits: Vec<Exit>,
    ) -> Result<(), AllocError>
        ensures { IfOk result (λ _. plan self.new ≡ ended place (act operation) (exits_view exits.items) (plan self.old)) }
    {
        self.add(Work::Ready(Piece::End(Instruction { place, operation }, exits)))
    }

    /// Adds a label.
    pub fn mark(&mut self, label: u32) -> Result<(), AllocError>
        ensures { IfOk result (λ _. plan self.new ≡ begun label (plan self.old)) }
    {
        self.add(Work::Ready(Piece::Mark(label)))
    }

    /// A base for a mention.
    #[tactic(auto, unfolding(crate::specs::Worklist::Plans::with_name))]
    pub fn base(&mut self, name: BaseName<'a>) -> Result<u32, AllocError>
        ensures number { IfOk result (λ n. n ≡ length (plan self.old).names) }
        ensures after { IfOk result (λ _. plan self.new ≡ with_name (name_view name.entry) (plan self.old)) }
    {
        let number = u32::try_from(self.names.len()).ok().ok_or(AllocError)?;
        self.names.push(name)?;
        Ok(number)
    }

    /// A base for a mention of an object.
    pub fn object(&mut self, object: ObjectRef) -> Result<u32, AllocError>
        ensures number { IfOk result (λ n. n ≡ length (plan self.old).names) }
        ensures after { IfOk result (λ _. plan self.new ≡ with_name (name_of_object object) (plan self.old)) }
    {
        match object {
            ObjectRef::Static(number) => self.base(BaseName::Static(number)),
            ObjectRef::Local(number) => self.base(BaseName::Local(number)),
        }
    }

    /// Labels that no other work has; the first of them, which the others follow.
    #[tactic(auto, unfolding(crate::specs::Worklist::Plans::with_labels))]
    pub fn new_labels(&mut self, count: u32) -> Result<u32, AllocError>
        ensures first { IfOk result (λ n. n ≡ (plan self.old).labels) }
        ensures room { IfOk result (λ n. n + count < 2 ^ 32) }
        ensures after { IfOk result (λ _. plan self.new ≡ with_labels count (plan self.old)) }
    {
        let first = self.labels;
        self.labels = first.checked_add(count).ok_or(AllocError)?;
        Ok(first)
    }

    /// The number of the scope that begins next.
    #[tactic(auto, unfolding(crate::specs::Worklist::Plans::with_scope))]
    pub fn next_scope(&mut self) -> Result<u32, AllocError>
        ensures number { IfOk result (λ n. n ≡ (plan self.old).scopes) }
        ensures after { IfOk result (λ _. plan self.new ≡ with_scope (plan self.old)) }
    {
        let scope = self.scopes;
        self.scopes = scope.checked_add(1).ok_or(AllocError)?;
        Ok(scope)
    }

    /// The number of the `switch` that begins next, whose labels these are.
    #[tactic(auto, unfolding(crate::specs::Worklist::Plans::with_dispatch))]
    pub fn next_dispatch(&mut self, dispatch: Dispatch) -> Result<u32, AllocError>
        ensures number { IfOk result (λ n. n ≡ length (plan self.old).dispatches) }
        ensures after { IfOk result (λ _. plan self.new ≡ with_dispatch dispatch (plan self.old)) }
    {
        let choice = u32::try_from(self.dispatches.len()).ok().ok_or(AllocError)?;
        self.dispatches.push(dispatch)?;
        Ok(choice)
    }
}
