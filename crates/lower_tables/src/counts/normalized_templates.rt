//! Templates without the calls that add nothing, and with one label where several stand together.
ghost use Rattle.std.specs.Prelude.{◌≡◌, ◌++◌, IfOk, map, replicate, slice_set, true, false};
ghost use Rattle.lower_templates.specs.Worklist.Acts.{step};
ghost use Rattle.lower_templates.specs.Worklist.Pieces.{piece_view, exits_view, template_view};
ghost use Rattle.lower_tables.specs.Counts.NormalizedTemplates as spec;
ghost use Rattle.lower_tables.specs.Counts.NormalizedTemplates.{names_of, settling};

use cfg::Instruction;
use lower_functions::functions::{Exit, Piece, Template};
use lower_objects::counts::FunctionCounts;
use std::alloc::{AllocError, Global};

fn is_silent(table: &[Option<FunctionCounts>], function: u32) -> bool
    ensures { result ≡ spec.is_silent table.now function }
{
    match table.get(function as usize) {
        Some(found) => match found {
            Some(counts) => counts.is_silent,
            None => false,
        },
        None => false,
    }
}

/// Whether a piece adds nothing.
fn adds_nothing(piece: &Piece, table: &[Option<FunctionCounts>]) -> bool
    ensures { result ≡ spec.adds_nothing table.now (piece_view piece.now) }
{
    match piece {
        Piece::Do(_) => false,
        Piece::DoIfUsed(_) => false,
        Piece::End(_, _) => false,
        Piece::Mark(_) => false,
        Piece::Call(call) => is_silent(table, call.function),
    }
}

fn filled(alloc: Global, count: u32) -> Result<Vec<u32>, AllocError>
    ensures { IfOk result (λ v. v.items ≡ replicate count 0) }
{
    Ok(vec![in alloc; 0u32; count as usize]?)
}

fn set(list: &mut Vec<u32>, at: u32, value: u32)
    ensures { list.new.items ≡ slice_set list.old.items at value }
{
    if (at as usize) < list.len() {
        list[at as usize] = value;
    }
}

/// New numbers of labels: labels with no piece between them that adds something have one number.
#[derive(Drop)]
pub struct LabelNames {
    to: Vec<u32>,
    count: u32,
    /// Whether the last piece that adds something is a label.
    is_behind_label: bool,
}

impl LabelNames {
    /// The number of a label that stands here.
    fn begin_label(&mut self) -> Result<(), AllocError>
        ensures { IfOk result (λ _. names_of self.new ≡ spec.with_begun (names_of self.old)) }
    {
        if self.is_behind_label {
            Ok(())
        } else {
            self.count = self.count.checked_add(1).ok_or(AllocError)?;
            self.is_behind_label = true;
            Ok(())
        }
    }

    fn note_label(&mut self, label: u32) -> Result<(), AllocError>
        ensures { IfOk result (λ _. names_of self.new ≡ spec.with_label label (names_of self.old)) }
    {
        self.begin_label()?;
        let number = self.count.saturating_sub(1);
        set(&mut self.to, label, number);
        Ok(())
    }

    fn note_other(&mut self, adds_nothing: bool)
        ensures { names_of self.new ≡ spec.with_other adds_nothing (names_of self.old) }
    {
        if !adds_nothing {
            self.is_behind_label = false;
        }
    }

    fn note(&mut self, piece: &Piece, table: &[Option<FunctionCounts>]) -> Result<(), AllocError>
        ensures { IfOk result (λ _. names_of self.new ≡ spec.with_piece table.now (piece_view piece.now) (names_of self.old)) }
    {
        match piece {
            Piece::Mark(label) => self.note_label(*label),
            Piece::Do(_) => {
                self.note_other(false);
                Ok(())
            }
            Piece::DoIfUsed(_) => {
                self.note_other(false);
                Ok(())
            }
            Piece::End(_, _) => {
                self.note_other(false);
                Ok(())
            }
            Piece::Call(call) => {
                self.note_other(is_silent(table, call.function));
                Ok(())
            }
        }
    }

    fn of(&self, label: u32) -> u32
        ensures { result ≡ spec.renamed (names_of self.now) label }
    {
        match self.to.get(label as usize) {
            Some(number) => *number,
            None => 0,
        }
    }
}

fn renaming(
    alloc: Global,
    pieces: &[Piece],
    labels: u32,
    table: &[Option<FunctionCounts>],
) -> Result<LabelNames, AllocError>
    ensures { IfOk result (λ n. names_of n ≡ spec.renaming table.now (map piece_view pieces.now) labels) }
{
    let mut found = LabelNames {
        to: filled(alloc, labels)?,
        count: 0,
        is_behind_label: false,
    };
    for piece in pieces {
        found.note(piece, table)?;
    }
    Ok(found)
}

fn renamed_exits(
    alloc: Global,
    exits: Vec<Exit>,
    names: &LabelNames,
) -> Result<Vec<Exit>, AllocError>
    ensures { IfOk result (λ v. exits_view v.items ≡ spec.renamed_exits (names_of names.now) (exits_view exits.items)) }
{
    let mut out = Vec::new(alloc);
    for exit in exits {
        let to = names.of(exit.to);
        out.push(Exit {
            to,
            kind: exit.kind,
        })?;
    }
    Ok(out)
}

fn is_last(last: Option<u32>, number: u32) -> bool
    ensures { result ≡ spec.is_last last number }
{
    match last {
        Some(before) => before == number,
        None => false,
    }
}

/// Pieces as far as they are renamed, and the number of the last label.
#[derive(Drop)]
pub struct Settling {
    pieces: Vec<Piece>,
    last: Option<u32>,
}

impl Settling {
    fn push(&mut self, piece: Piece) -> Result<(), AllocError>
        ensures { IfOk result (λ _. settling self.new ≡ spec.with_normalized (piece_view piece) (settling self.old)) }
    {
        Ok(self.pieces.push(piece)?)
    }

    fn mark(&mut self, number: u32) -> Result<(), AllocError>
        ensures { IfOk result (λ _. settling self.new ≡ spec.with_mark number (settling self.old)) }
    {
        if is_last(self.last, number) {
            Ok(())
        } else {
            self.last = Some(number);
            self.push(Piece::Mark(number))
        }
    }

    fn end(
        &mut self,
        alloc: Global,
        instruction: Instruction,
        exits: Vec<Exit>,
        names: &LabelNames,
    ) -> Result<(), AllocError>
        ensures { IfOk result (λ _. settling self.new ≡ spec.with_normalized (spec.renamed_end (names_of names.now) (step instruction) (exits_view exits.items)) (settling self.old)) }
    {
        let exits = renamed_exits(alloc, exits, names)?;
        self.push(Piece::End(instruction, exits))
    }

    /// Adds a piece that adds something.
    fn add(&mut self, alloc: Global, piece: Piece, names: &LabelNames) -> Result<(), AllocError>
        ensures { IfOk result (λ _. settling self.new ≡ spec.with_renamed (names_of names.now) (piece_view piece) (settling self.old)) }
    {
        match piece {
            Piece::Mark(label) => self.mark(names.of(label)),
            Piece::End(instruction, exits) => self.end(alloc, instruction, exits, names),
            Piece::Do(instruction) => self.push(Piece::Do(instruction)),
            Piece::DoIfUsed(instruction) => self.push(Piece::DoIfUsed(instruction)),
            Piece::Call(call) => self.push(Piece::Call(call)),
        }
    }

    /// Adds a piece, where it adds something.
    #[tactic(auto, unfolding(crate::specs::Counts::NormalizedTemplates::with_if))]
    fn add_if(
        &mut self,
        alloc: Global,
        piece: Piece,
        names: &LabelNames,
        table: &[Option<FunctionCounts>],
    ) -> Result<(), AllocError>
        ensures { IfOk result (λ _. settling self.new ≡ spec.with_if table.now (names_of names.now) (piece_view piece) (settling self.old)) }
    {
        if adds_nothing(&piece, table) {
            Ok(())
        } else {
            self.add(alloc, piece, names)
        }
    }
}

/// The pieces that add something, renamed.
#[tactic(auto, using(crate::proofs::counts::Settling::one_more))]
fn normalized_pieces(
    alloc: Global,
    pieces: Vec<Piece>,
    names: &LabelNames,
    table: &[Option<FunctionCounts>],
) -> Result<Vec<Piece>, AllocError>
    ensures { IfOk result (λ v. map piece_view v.items ≡ spec.normalized_pieces table.now (names_of names.now) (map piece_view pieces.items)) }
{
    let mut found = Settling {
        pieces: Vec::new(alloc),
        last: None,
    };
    for piece in pieces {
        found.add_if(alloc, piece, names, table)?;
    }
    Ok(found.pieces)
}

/// A template without calls that add nothing, whose labels all differ in their places.
pub fn normalized<'a>(
    alloc: Global,
    template: Template<'a>,
    table: &[Option<FunctionCounts>],
) -> Result<Template<'a>, AllocError>
    ensures { IfOk result (λ t. template_view t ≡ spec.normalized table.now (template_view template.entry)) }
{
    let names = renaming(alloc, template.pieces.as_slice(), template.labels, table)?;
    let pieces = normalized_pieces(alloc, template.pieces, &names, table)?;
    Ok(Template {
        pieces,
        names: template.names,
        labels: names.count,
    })
}
