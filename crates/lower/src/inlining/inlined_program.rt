//! The program with every call put in at its place.
ghost use Rattle.std.specs.Prelude.{◌≡◌, ◌+◌, ◌++◌, ◌∷◌, ◌-◌, ◌^◌, [], IfOk, None, Some, length, map, replicate, reverse, slice_get, slice_set};
ghost use Rattle.std.specs.Option.{option_map};
ghost use Rattle.c_layout.specs.CheckedUnits.{function_view, unit_view};
ghost use Rattle.lower_templates.specs.Worklist.Acts as acts;
ghost use Rattle.lower_templates.specs.Worklist.Acts.{act, step};
ghost use Rattle.lower_templates.specs.Worklist.Pieces.{name_view, way, exit_view, exits_view, piece_view, template_view};
ghost use Rattle.lower.specs.Inlining.MovedActs.{own_base};
ghost use Rattle.lower_tables.specs.Bases.BaseTables.{table};
ghost use Rattle.lower_templates.specs.Views.ProgramViews.{block, edge};
ghost use Rattle.lower.specs.Inlining.Inlinings as spec;
ghost use Rattle.lower_tables.specs.Counts.Preparations.{templates_view};
ghost use Rattle.lower.specs.Inlining.Inlinings.{made, copy_view, placed, inlined, inlining};

use crate::inlining::moved_operations::{Shifted, own_base};
use crate::inlining::resolved_edges::{note_heads, resolved};
use c_layout::{Checked, Function};
use cc_base::Place;
use cfg::{BasicBlock, CaseTest, Edge, EdgeKind, Instruction, Operation, Side, Test};
use lower_functions::functions::{BaseName, Exit, OwnCall, Piece, Template};
use lower_tables::bases::BaseTable;
use lower_templates::worklist::behind;
use std::alloc::{AllocError, Global};

/// A call that is put in: the function and its template, the number of the next piece, the first
/// temporary, the number of the first label, the bases of the local objects, the place of the call and
/// whether its value is used.
#[derive(Drop)]
pub struct CallCopy<'a, 't> {
    function: &'a Function,
    template: &'t Template<'a>,
    at: usize,
    depth: u32,
    labels: u32,
    locals: Vec<Option<u32>>,
    place: Place,
    used: bool,
}

/// The program as far as it is made. Until the end edges lead to labels, whose blocks are then known.
#[derive(Drop)]
pub struct Making {
    alloc: Global,
    /// The blocks that ended, and the instructions of the current one.
    blocks: Vec<BasicBlock>,
    ready: Vec<Instruction>,
    edges: Vec<Edge>,
    /// The block of each label.
    labels: Vec<u32>,
    bases: BaseTable,
}

/// What is made of a unit: blocks, edges and bases.
#[derive(Drop)]
pub struct InlinedProgram {
    pub blocks: Vec<BasicBlock>,
    pub edges: Vec<Edge>,
    pub bases: BaseTable,
}

fn name_at<'a>(names: &[BaseName<'a>], number: u32) -> Result<BaseName<'a>, AllocError>
    ensures { IfOk result (λ n. name_view n ≡ spec.name_at (map name_view names.now) number) }
{
    match names.get(number as usize) {
        Some(name) => Ok(*name),
        None => Err(AllocError),
    }
}

/// So many times None.
fn all_none(alloc: Global, count: usize) -> Result<Vec<Option<u32>>, AllocError>
    ensures { IfOk result (λ v. v.items ≡ replicate count None) }
{
    Ok(vec![in alloc; None; count]?)
}

fn sum(a: u32, b: u32) -> Result<u32, AllocError>
    ensures { IfOk result (λ n. n ≡ a + b) }
{
    a.checked_add(b).ok_or(AllocError)
}

fn as_number(count: usize) -> Result<u32, AllocError>
    ensures { IfOk result (λ n. n ≡ count) }
{
    u32::try_from(count).ok().ok_or(AllocError)
}

fn set(list: &mut Vec<u32>, at: u32, value: u32)
    ensures { list.new.items ≡ slice_set list.old.items at value }
{
    if (at as usize) < list.len() {
        list[at as usize] = value;
    }
}

fn jump_instruction(place: Place) -> Instruction
    ensures { step result ≡ spec.instruction place acts.Jump }
{
    Instruction {
        place,
        operation: Operation::Jump,
    }
}

impl Making {
    /// The base that a name of a copy's template stands for.
    fn base<'a, 't>(
        &mut self,
        unit: &Checked,
        copy: &mut CallCopy<'a, 't>,
        number: u32,
    ) -> Result<u32, AllocError>
        ensures number { IfOk result (λ n. n ≡ spec.base_number (unit_view unit.now) number (placed (made self.old) (copy_view copy.old))) }
        ensures after { IfOk result (λ _. placed (made self.new) (copy_view copy.new) ≡ spec.with_base (unit_view unit.now) number (placed (made self.old) (copy_view copy.old))) }
    {
        let name = name_at(copy.template.names.as_slice(), number)?;
        self.bases
            .base(self.alloc, unit, copy.function, &mut copy.locals, name)
    }

    /// The base that stands for the one that an operation names.
    fn own_number<'a, 't>(
        &mut self,
        unit: &Checked,
        copy: &mut CallCopy<'a, 't>,
        own: Option<u32>,
    ) -> Result<u32, AllocError>
        ensures number { IfOk result (λ n. n ≡ spec.own_number (unit_view unit.now) own (placed (made self.old) (copy_view copy.old))) }
        ensures after { IfOk result (λ _. placed (made self.new) (copy_view copy.new) ≡ spec.with_own (unit_view unit.now) own (placed (made self.old) (copy_view copy.old))) }
    {
        match own {
            Some(number) => self.base(unit, copy, number),
            None => Ok(0),
        }
    }

    fn push(&mut self, instruction: Instruction) -> Result<(), AllocError>
        ensures { IfOk result (λ _. made self.new ≡ spec.with_ready (step instruction) (made self.old)) }
    {
        Ok(self.ready.push(instruction)?)
    }

    /// Adds an instruction of a copy's template to the current block.
    fn add<'a, 't>(
        &mut self,
        unit: &Checked,
        copy: &mut CallCopy<'a, 't>,
        operation: &Operation,
        place: Place,
    ) -> Result<(), AllocError>
        ensures { IfOk result (λ _. placed (made self.new) (copy_view copy.new) ≡ spec.with_act (unit_view unit.now) place (act operation.now) (placed (made self.old) (copy_view copy.old))) }
    {
        let depth = copy.depth;
        let base = self.own_number(unit, copy, own_base(operation))?;
        let shifted = Shifted { depth, base };
        let operation = shifted.operation(self.alloc, operation)?;
        self.push(Instruction { place, operation })
    }

    /// Ends the current block; its edges begin at a number.
    fn end_block(&mut self, first_edge: usize) -> Result<(), AllocError>
        ensures { IfOk result (λ _. made self.new ≡ spec.ended first_edge (made self.old)) }
    {
        let all = self.edges.len();
        let count = all.checked_sub(first_edge).ok_or(AllocError)?;
        let instructions = std::mem::replace(&mut self.ready, Vec::new(self.alloc));
        self.blocks.push(BasicBlock {
            instructions,
            first_edge: as_number(first_edge)?,
            edges: as_number(count)?,
            is_head: false,
        })?;
        Ok(())
    }

    fn block_number(&self) -> Result<u32, AllocError>
        ensures { IfOk result (λ n. n ≡ length (made self.now).blocks) }
    {
        as_number(self.blocks.len())
    }

    fn push_edge(&mut self, from: u32, to: u32, kind: EdgeKind) -> Result<(), AllocError>
        ensures { IfOk result (λ _. made self.new ≡ spec.with_edge (spec.edge_to from to (way kind)) (made self.old)) }
    {
        Ok(self.edges.push(Edge { from, to, kind })?)
    }

    /// Ends the current block by a jump to a label.
    fn jump(&mut self, label: u32, place: Place) -> Result<(), AllocError>
        ensures { IfOk result (λ _. made self.new ≡ spec.jumped place label (made self.old)) }
    {
        let from = self.block_number()?;
        let first_edge = self.edges.len();
        self.push(jump_instruction(place))?;
        self.push_edge(from, label, EdgeKind::Jump)?;
        self.end_block(first_edge)
    }

    fn jump_if(&mut self, label: u32, place: Place) -> Result<(), AllocError>
        ensures { IfOk result (λ _. made self.new ≡ spec.jumped_if place label (made self.old)) }
    {
        if self.ready.is_empty() {
            Ok(())
        } else {
            self.jump(label, place)
        }
    }

    /// Begins a block at a label.
    fn mark(&mut self, label: u32, place: Place) -> Result<(), AllocError>
        ensures { IfOk result (λ _. made self.new ≡ spec.marked place label (made self.old)) }
    {
        self.jump_if(label, place)?;
        let block = self.block_number()?;
        set(&mut self.labels, label, block);
        Ok(())
    }

    fn side<'a, 't>(
        &mut self,
        unit: &Checked,
        copy: &mut CallCopy<'a, 't>,
        side: Side,
    ) -> Result<Side, AllocError>
        ensures side { IfOk result (λ s. s ≡ spec.side_moved (unit_view unit.now) side (placed (made self.old) (copy_view copy.old))) }
        ensures after { IfOk result (λ _. placed (made self.new) (copy_view copy.new) ≡ spec.with_side (unit_view unit.now) side (placed (made self.old) (copy_view copy.old))) }
    {
        match side {
            Side::Object(number, kind) => {
                let base = self.base(unit, copy, number)?;
                Ok(Side::Object(base, kind))
            }
            Side::Number(n) => Ok(Side::Number(n)),
            Side::Null => Ok(Side::Null),
        }
    }

    fn test<'a, 't>(
        &mut self,
        unit: &Checked,
        copy: &mut CallCopy<'a, 't>,
        test: Option<Test>,
    ) -> Result<Option<Test>, AllocError>
        ensures test { IfOk result (λ t. t ≡ spec.test_moved (unit_view unit.now) test (placed (made self.old) (copy_view copy.old))) }
        ensures after { IfOk result (λ _. placed (made self.new) (copy_view copy.new) ≡ spec.with_test (unit_view unit.now) test (placed (made self.old) (copy_view copy.old))) }
    {
        match test {
            Some(test) => {
                let left = self.side(unit, copy, test.left)?;
                let right = self.side(unit, copy, test.right)?;
                Ok(Some(Test {
                    left,
                    rel: test.rel,
                    right,
                    common: test.common,
                }))
            }
            None => Ok(None),
        }
    }

    /// The base that is switched on.
    fn object<'a, 't>(
        &mut self,
        unit: &Checked,
        copy: &mut CallCopy<'a, 't>,
        object: Option<u32>,
    ) -> Result<Option<u32>, AllocError>
        ensures object { IfOk result (λ o. o ≡ spec.object_moved (unit_view unit.now) object (placed (made self.old) (copy_view copy.old))) }
        ensures after { IfOk result (λ _. placed (made self.new) (copy_view copy.new) ≡ spec.with_own (unit_view unit.now) object (placed (made self.old) (copy_view copy.old))) }
    {
        match object {
            Some(number) => {
                let base = self.base(unit, copy, number)?;
                Ok(Some(base))
            }
            None => Ok(None),
        }
    }

    fn case<'a, 't>(
        &mut self,
        unit: &Checked,
        copy: &mut CallCopy<'a, 't>,
        case: CaseTest,
    ) -> Result<CaseTest, AllocError>
        ensures case { IfOk result (λ c. c ≡ spec.case_moved (unit_view unit.now) case (placed (made self.old) (copy_view copy.old))) }
        ensures after { IfOk result (λ _. placed (made self.new) (copy_view copy.new) ≡ spec.with_own (unit_view unit.now) case.object (placed (made self.old) (copy_view copy.old))) }
    {
        let object = self.object(unit, copy, case.object)?;
        Ok(CaseTest {
            value: case.value,
            object,
        })
    }

    /// What an edge of a copy's template knows.
    fn edge_kind<'a, 't>(
        &mut self,
        unit: &Checked,
        copy: &mut CallCopy<'a, 't>,
        kind: &EdgeKind,
    ) -> Result<EdgeKind, AllocError>
        ensures kind { IfOk result (λ k. way k ≡ spec.way_moved (unit_view unit.now) (way kind.now) (placed (made self.old) (copy_view copy.old))) }
        ensures after { IfOk result (λ _. placed (made self.new) (copy_view copy.new) ≡ spec.with_way (unit_view unit.now) (way kind.now) (placed (made self.old) (copy_view copy.old))) }
    {
        match kind {
            EdgeKind::Jump => Ok(EdgeKind::Jump),
            EdgeKind::When(truth, test, put) => {
                let shifted = Shifted {
                    depth: copy.depth,
                    base: 0,
                };
                let test = self.test(unit, copy, *test)?;
                Ok(EdgeKind::When(*truth, test, shifted.put(*put)))
            }
            EdgeKind::Case(case) => {
                let case = self.case(unit, copy, *case)?;
                Ok(EdgeKind::Case(case))
            }
            EdgeKind::Other(values) => {
                let values = Vec::from_slice(self.alloc, values.as_slice())?;
                Ok(EdgeKind::Other(values))
            }
            EdgeKind::NoLine => Ok(EdgeKind::NoLine),
            EdgeKind::Line => Ok(EdgeKind::Line),
        }
    }

    fn add_edge<'a, 't>(
        &mut self,
        unit: &Checked,
        copy: &mut CallCopy<'a, 't>,
        from: u32,
        exit: &Exit,
    ) -> Result<(), AllocError>
        ensures { IfOk result (λ _. placed (made self.new) (copy_view copy.new) ≡ spec.with_exit (unit_view unit.now) from (exit_view exit.now) (placed (made self.old) (copy_view copy.old))) }
    {
        let to = sum(exit.to, copy.labels)?;
        let kind = self.edge_kind(unit, copy, &exit.kind)?;
        self.push_edge(from, to, kind)
    }

    fn add_edges<'a, 't>(
        &mut self,
        unit: &Checked,
        copy: &mut CallCopy<'a, 't>,
        from: u32,
        exits: &[Exit],
    ) -> Result<(), AllocError>
        ensures { IfOk result (λ _. placed (made self.new) (copy_view copy.new) ≡ spec.with_exits (unit_view unit.now) from (exits_view exits.now) (placed (made self.old) (copy_view copy.old))) }
    {
        for exit in exits {
            self.add_edge(unit, copy, from, exit)?;
        }
        Ok(())
    }

    /// Ends the current block with an instruction of a copy's template.
    fn close<'a, 't>(
        &mut self,
        unit: &Checked,
        copy: &mut CallCopy<'a, 't>,
        instruction: &Instruction,
        exits: &[Exit],
    ) -> Result<(), AllocError>
        ensures { IfOk result (λ _. placed (made self.new) (copy_view copy.new) ≡ spec.closed (unit_view unit.now) (step instruction.now) (exits_view exits.now) (placed (made self.old) (copy_view copy.old))) }
    {
        let from = self.block_number()?;
        let first_edge = self.edges.len();
        self.add(unit, copy, &instruction.operation, instruction.place)?;
        self.add_edges(unit, copy, from, exits)?;
        self.end_block(first_edge)
    }

    /// Adds an instruction that is done where the call's value is used.
    fn add_if_used<'a, 't>(
        &mut self,
        unit: &Checked,
        copy: &mut CallCopy<'a, 't>,
        operation: &Operation,
    ) -> Result<(), AllocError>
        ensures { IfOk result (λ _. placed (made self.new) (copy_view copy.new) ≡ spec.with_act_if_used (unit_view unit.now) (act operation.now) (placed (made self.old) (copy_view copy.old))) }
    {
        if copy.used {
            let place = copy.place;
            self.add(unit, copy, operation, place)
        } else {
            Ok(())
        }
    }

    /// Begins a block at a label of a copy.
    fn add_mark<'a, 't>(&mut self, copy: &CallCopy<'a, 't>, label: u32) -> Result<(), AllocError>
        ensures { IfOk result (λ _. placed (made self.new) (copy_view copy.now) ≡ spec.with_mark label (placed (made self.old) (copy_view copy.now))) }
    {
        let label = sum(label, copy.labels)?;
        self.mark(label, copy.place)
    }

    /// Adds a piece that is no call.
    fn add_piece<'a, 't>(
        &mut self,
        unit: &Checked,
        copy: &mut CallCopy<'a, 't>,
        piece: &Piece,
    ) -> Result<(), AllocError>
        ensures { IfOk result (λ _. placed (made self.new) (copy_view copy.new) ≡ spec.with_piece (unit_view unit.now) (piece_view piece.now) (placed (made self.old) (copy_view copy.old))) }
    {
        match piece {
            Piece::Do(instruction) => {
                self.add(unit, copy, &instruction.operation, instruction.place)
            }
            Piece::DoIfUsed(instruction) => { self.add_if_used(unit, copy, &instruction.operation) }
            Piece::End(instruction, exits) => {
                self.close(unit, copy, instruction, exits.as_slice())
            }
            Piece::Mark(label) => self.add_mark(copy, *label),
            Piece::Call(_) => Ok(()),
        }
    }

    /// Gives labels numbers; the first one.
    fn new_labels(&mut self, count: u32) -> Result<u32, AllocError>
        ensures first { IfOk result (λ n. n ≡ length (made self.old).labels) }
        ensures after { IfOk result (λ _. made self.new ≡ spec.with_labels count (made self.old)) }
    {
        let first = as_number(self.labels.len())?;
        let zeros = vec![in self.alloc; 0u32; count as usize]?;
        self.labels.extend_from_slice(zeros.as_slice())?;
        Ok(first)
    }
}

/// The copies that are not finished, the innermost last, and the program as far as it is made.
#[derive(Drop)]
pub struct Inlining<'a, 't> {
    stack: Vec<CallCopy<'a, 't>>,
    making: Making,
}

fn template_at<'a, 't>(
    templates: &'t [Option<Template<'a>>],
    function: u32,
) -> Option<&'t Template<'a>>
    ensures { option_map (λ t. template_view t.now) result ≡ spec.template_at (templates_view templates.now) function }
{
    match templates.get(function as usize) {
        Some(found) => match found {
            Some(template) => Some(template),
            None => None,
        },
        None => None,
    }
}

/// A call in a copy: its first temporary is counted from that of the copy.
fn inner<'a, 't>(call: OwnCall, caller: &CallCopy<'a, 't>) -> OwnCall
    ensures { result ≡ spec.inner call (copy_view caller.now) }
{
    OwnCall {
        place: call.place,
        function: call.function,
        depth: behind(call.depth, caller.depth),
        used: call.used,
    }
}

impl<'a, 't> Inlining<'a, 't> {
    /// Puts a copy of a function's pieces for a call on the stack.
    #[tactic(auto, using(lower_tables::proofs::bases::Stacks::top))]
    fn enter(
        &mut self,
        call: OwnCall,
        function: &'a Function,
        template: &'t Template<'a>,
    ) -> Result<(), AllocError>
        ensures { IfOk result (λ _. inlining self.new ≡ spec.entered call (inlining self.old).stack (inlining self.old).program (Some (function_view function.now)) (Some (template_view template.now))) }
    {
        let slots = function.locals.len().checked_add(1).ok_or(AllocError)?;
        let locals = all_none(self.making.alloc, slots)?;
        let labels = self.making.new_labels(template.labels)?;
        self.stack.push(CallCopy {
            function,
            template,
            at: 0,
            depth: call.depth,
            labels,
            locals,
            place: call.place,
            used: call.used,
        })?;
        Ok(())
    }

    /// Begins a call: its copy comes on the stack.
    fn begin(
        &mut self,
        unit: &'a Checked,
        templates: &'t [Option<Template<'a>>],
        call: OwnCall,
    ) -> Result<(), AllocError>
        ensures { IfOk result (λ _. inlining self.new ≡ spec.with_call (unit_view unit.now) (templates_view templates.now) call (inlining self.old).stack (inlining self.old).program) }
    {
        match unit.functions.get(call.function as usize) {
            Some(function) => match template_at(templates, call.function) {
                Some(template) => self.enter(call, function, template),
                None => Err(AllocError),
            },
            None => Err(AllocError),
        }
    }

    /// Adds a piece that is no call, and puts its copy back.
    #[tactic(auto, using(lower_tables::proofs::bases::Stacks::top))]
    fn add(
        &mut self,
        unit: &'a Checked,
        mut copy: CallCopy<'a, 't>,
        piece: &Piece,
    ) -> Result<(), AllocError>
        ensures { IfOk result (λ _. inlining self.new ≡ spec.back_in (inlining self.old).stack (spec.with_piece (unit_view unit.now) (piece_view piece.now) (placed (inlining self.old).program (copy_view copy.entry)))) }
    {
        self.making.add_piece(unit, &mut copy, piece)?;
        Ok(self.stack.push(copy)?)
    }

    /// Puts a copy back, and a copy for a call in it on top.
    #[tactic(auto, using(lower_tables::proofs::bases::Stacks::top))]
    fn call(
        &mut self,
        unit: &'a Checked,
        templates: &'t [Option<Template<'a>>],
        copy: CallCopy<'a, 't>,
        call: OwnCall,
    ) -> Result<(), AllocError>
        ensures { IfOk result (λ _. inlining self.new ≡ spec.with_call (unit_view unit.now) (templates_view templates.now) (spec.inner call (copy_view copy.entry)) (copy_view copy.entry ∷ (inlining self.old).stack) (inlining self.old).program) }
    {
        let call = inner(call, &copy);
        self.stack.push(copy)?;
        self.begin(unit, templates, call)
    }

    /// Adds a piece of a copy.
    fn turn(
        &mut self,
        unit: &'a Checked,
        templates: &'t [Option<Template<'a>>],
        copy: CallCopy<'a, 't>,
        piece: &Piece,
    ) -> Result<(), AllocError>
        ensures { IfOk result (λ _. inlining self.new ≡ spec.turn (unit_view unit.now) (templates_view templates.now) (piece_view piece.now) (copy_view copy.entry) (inlining self.old).stack (inlining self.old).program) }
    {
        match piece {
            Piece::Do(_) => self.add(unit, copy, piece),
            Piece::DoIfUsed(_) => self.add(unit, copy, piece),
            Piece::End(_, _) => self.add(unit, copy, piece),
            Piece::Mark(_) => self.add(unit, copy, piece),
            Piece::Call(call) => self.call(unit, templates, copy, *call),
        }
    }

    /// Adds the next piece of a copy; a copy without further pieces is finished.
    #[tactic(auto, using(lower_tables::proofs::bases::Stacks::rest_at, lower_tables::proofs::bases::Stacks::rest_none))]
    fn advance(
        &mut self,
        unit: &'a Checked,
        templates: &'t [Option<Template<'a>>],
        mut copy: CallCopy<'a, 't>,
    ) -> Result<(), AllocError>
        ensures { IfOk result (λ _. inlining self.new ≡ spec.next (unit_view unit.now) (templates_view templates.now) (copy_view copy.entry) (inlining self.old).stack (inlining self.old).program) }
    {
        let template = copy.template;
        match template.pieces.get(copy.at) {
            Some(piece) => {
                copy.at = copy.at.checked_add(1).ok_or(AllocError)?;
                self.turn(unit, templates, copy, piece)
            }
            None => Ok(()),
        }
    }

    /// Makes all turns, or those until no copy is left.
    #[tactic(auto, using(lower_tables::proofs::bases::Stacks::top, crate::proofs::inlining::InliningTurns::no_copy))]
    fn run_turns(
        &mut self,
        unit: &'a Checked,
        templates: &'t [Option<Template<'a>>],
    ) -> Result<(), AllocError>
        ensures { IfOk result (λ _. inlining self.new ≡ spec.run (unit_view unit.now) (templates_view templates.now) (2 ^ 64 - 1) (inlining self.old).stack (inlining self.old).program) }
    {
        for _turn in 0..u64::MAX {
            match self.stack.pop() {
                Some(copy) => self.advance(unit, templates, copy)?,
                None => return Ok(()),
            }
        }
        Ok(())
    }

    /// Adds what is on the stack, and all calls that are put in there. Where a copy is left when all turns
    /// are made, nothing is answered.
    fn run_all(
        &mut self,
        unit: &'a Checked,
        templates: &'t [Option<Template<'a>>],
    ) -> Result<(), AllocError>
        ensures run { IfOk result (λ _. inlining self.new ≡ spec.run (unit_view unit.now) (templates_view templates.now) (2 ^ 64 - 1) (inlining self.old).stack (inlining self.old).program) }
        ensures ends { IfOk result (λ _. (inlining self.new).stack ≡ []) }
    {
        self.run_turns(unit, templates)?;
        if self.stack.is_empty() {
            Ok(())
        } else {
            Err(AllocError)
        }
    }

    /// Names the parameters of the entry, whose bases come first, and opens the entry.
    fn run_entry(
        &mut self,
        unit: &'a Checked,
        templates: &'t [Option<Template<'a>>],
    ) -> Result<(), AllocError>
        ensures inlined { IfOk result (λ _. inlining self.new ≡ spec.unresolved (unit_view unit.now) (templates_view templates.now) (inlining self.old)) }
        ensures ends { IfOk result (λ _. (inlining self.new).stack ≡ []) }
    {
        match self.stack.pop() {
            Some(mut copy) => {
                name_parameters(&mut self.making, unit, &mut copy)?;
                self.stack.push(copy)?;
                self.run_all(unit, templates)?;
                Ok(())
            }
            None => Ok(()),
        }
    }
}

/// The bases of the entry's parameters, which come first.
#[tactic(auto, using(crate::proofs::inlining::InliningTurns::next_parameter))]
fn name_parameters<'a, 't>(
    making: &mut Making,
    unit: &Checked,
    copy: &mut CallCopy<'a, 't>,
) -> Result<(), AllocError>
    ensures { IfOk result (λ _. placed (made making.new) (copy_view copy.new) ≡ spec.with_parameters (unit_view unit.now) (copy_view copy.old).function.parameters (placed (made making.old) (copy_view copy.old))) }
{
    for number in 0..copy.function.parameters {
        name_local(making, unit, copy, number)?;
    }
    Ok(())
}

/// The base of a local object.
fn name_local<'a, 't>(
    making: &mut Making,
    unit: &Checked,
    copy: &mut CallCopy<'a, 't>,
    number: u32,
) -> Result<(), AllocError>
    ensures { IfOk result (λ _. placed (made making.new) (copy_view copy.new) ≡ spec.with_local (unit_view unit.now) number (placed (made making.old) (copy_view copy.old))) }
{
    let name = BaseName::Local(number);
    making
        .bases
        .base(making.alloc, unit, copy.function, &mut copy.locals, name)?;
    Ok(())
}

fn no_bases(alloc: Global, unit: &Checked) -> Result<BaseTable, AllocError>
    ensures { IfOk result (λ b. table b ≡ (spec.nothing_made (unit_view unit.now)).bases) }
{
    Ok(BaseTable {
        bases: Vec::new(alloc),
        width: 0,
        objects: all_none(alloc, unit.objects.len())?,
        literals: all_none(alloc, unit.literals.len())?,
    })
}

fn nothing_made(alloc: Global, unit: &Checked) -> Result<Making, AllocError>
    ensures { IfOk result (λ m. made m ≡ spec.nothing_made (unit_view unit.now)) }
{
    Ok(Making {
        alloc,
        blocks: Vec::new(alloc),
        ready: Vec::new(alloc),
        edges: Vec::new(alloc),
        labels: Vec::new(alloc),
        bases: no_bases(alloc, unit)?,
    })
}

/// The entry's program, whose edges lead to labels.
fn unresolved<'a>(
    alloc: Global,
    unit: &'a Checked,
    templates: &[Option<Template<'a>>],
    place: Place,
) -> Result<Making, AllocError>
    ensures program { IfOk result (λ m. made m ≡ (spec.whole (unit_view unit.now) (templates_view templates.now) place).program) }
    ensures ends { IfOk result (λ _. spec.unfinished (unit_view unit.now) (templates_view templates.now) place ≡ []) }
{
    let mut inlining = Inlining {
        stack: Vec::new(alloc),
        making: nothing_made(alloc, unit)?,
    };
    let call = OwnCall {
        place,
        function: unit.entry,
        depth: 0,
        used: false,
    };
    inlining.begin(unit, templates, call)?;
    inlining.run_entry(unit, templates)?;
    let Inlining { making, .. } = inlining;
    Ok(making)
}

/// The program whose edges lead to blocks.
fn finished(making: Making) -> Result<InlinedProgram, AllocError>
    ensures { IfOk result (λ p. spec.program_view p ≡ spec.finished (made making)) }
{
    let Making {
        alloc,
        mut blocks,
        edges,
        labels,
        bases,
        ..
    } = making;
    let edges = resolved(alloc, edges, labels.as_slice())?;
    note_heads(&mut blocks, edges.as_slice());
    Ok(InlinedProgram {
        blocks,
        edges,
        bases,
    })
}

/// The entry's program with every call put in at its place.
pub fn inlined<'a>(
    alloc: Global,
    unit: &'a Checked,
    templates: &[Option<Template<'a>>],
    place: Place,
) -> Result<InlinedProgram, AllocError>
    ensures program { IfOk result (λ p. spec.program_view p ≡ spec.program (unit_view unit.now) (templates_view templates.now) place) }
    ensures ends { IfOk result (λ _. spec.unfinished (unit_view unit.now) (templates_view templates.now) place ≡ []) }
{
    finished(unresolved(alloc, unit, templates, place)?)
}
