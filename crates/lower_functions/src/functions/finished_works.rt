//! Works are done until none is left: a work is a piece, or the works that it consists of.
ghost use Rattle.std.specs.Prelude.{◌≡◌, ◌++◌, IfOk, map, reverse};
ghost use Rattle.lower_templates.specs.Worklist.Pieces.{piece_view, template_view};
ghost use Rattle.lower_templates.specs.Worklist.Works.{job};
ghost use Rattle.lower_templates.specs.Worklist.Plans.{plan};
ghost use Rattle.lower_templates.specs.Worklist.Settings.{setting};
ghost use Rattle.lower_functions.specs.Functions.Turns as spec;
ghost use Rattle.lower_functions.specs.Functions.Turns.{turned, going, Finishes};

use crate::statements::statement_works;
use lower_conditions::condition_works;
use lower_expressions::{address_works, term_works};
use lower_templates::worklist::{Builder, Piece, Setting, Template, Work};
use std::alloc::AllocError;

/// The pieces so far, the works that are still to be done, the next one last, and what was given away.
#[derive(Drop)]
pub struct Making<'a> {
    pub pieces: Vec<Piece>,
    pub stack: Vec<Work<'a>>,
    pub builder: Builder<'a>,
}

/// Puts works on the stack, the first one on top.
#[tactic(auto, using(crate::proofs::functions::Stacks::pushed))]
fn schedule<'a>(stack: &mut Vec<Work<'a>>, mut works: Vec<Work<'a>>) -> Result<(), AllocError>
    ensures { IfOk result (λ _. map job stack.new.items ≡ map job stack.old.items ++ reverse (map job works.entry.items)) }
{
    while let Some(work) = works.pop() {
        stack.push(work)?;
    }
    Ok(())
}

/// Does a work: adds its piece, or plans the works that it consists of.
fn turn<'a>(
    cx: &Setting<'a>,
    builder: &mut Builder<'a>,
    pieces: &mut Vec<Piece>,
    work: Work<'a>,
) -> Result<(), AllocError>
    ensures { IfOk result (λ _. turned (map piece_view pieces.new.items) (plan builder.new) ≡ spec.turn (setting cx.now) (job work.entry) (map piece_view pieces.old.items) (plan builder.old)) }
{
    match work {
        Work::Value(term, depth) => term_works(cx, builder, term, depth, true),
        Work::Unused(term, depth) => term_works(cx, builder, term, depth, false),
        Work::Address(lvalue, depth) => address_works(cx, builder, lvalue, depth),
        Work::Condition(term, decision) => condition_works(cx, builder, term, decision),
        Work::Statement(statement, around) => statement_works(cx, builder, statement, around),
        Work::Ready(piece) => Ok(pieces.push(piece)?),
    }
}

/// Puts the works that are planned on the stack.
#[tactic(auto, using(crate::proofs::functions::Stacks::on_top))]
fn schedule_plan(making: &mut Making) -> Result<(), AllocError>
    ensures { IfOk result (λ _. going making.new ≡ spec.scheduled (going making.old)) }
{
    let none = Vec::new(making.builder.alloc);
    let works = std::mem::replace(&mut making.builder.works, none);
    schedule(&mut making.stack, works)
}

/// Does the work on top of the stack, and plans what it consists of.
fn turn_top<'a>(cx: &Setting<'a>, making: &mut Making<'a>, work: Work<'a>) -> Result<(), AllocError>
    ensures { IfOk result (λ _. going making.new ≡ spec.turned_on (setting cx.now) (job work.entry) (going making.old)) }
{
    turn(cx, &mut making.builder, &mut making.pieces, work)?;
    schedule_plan(making)
}

/// Does the next work; whether there was one.
#[tactic(auto, using(crate::proofs::functions::Stacks::top))]
fn advance<'a>(cx: &Setting<'a>, making: &mut Making<'a>) -> Result<bool, AllocError>
    ensures after { IfOk result (λ _. going making.new ≡ spec.next (setting cx.now) (going making.old)) }
    ensures left { IfOk result (λ b. b ≡ spec.has_work (going making.old)) }
{
    match making.stack.pop() {
        Some(work) => {
            turn_top(cx, making, work)?;
            Ok(true)
        }
        None => Ok(false),
    }
}

/// The template that a function's first works come to.
#[tactic(auto, using(crate::proofs::functions::OneTemplate::after_next))]
pub fn finished<'a>(cx: &Setting<'a>, builder: Builder<'a>) -> Result<Template<'a>, AllocError>
    ensures { IfOk result (λ t. Finishes (setting cx.now) (plan builder.entry) (template_view t)) }
{
    let mut making = Making {
        pieces: Vec::new(builder.alloc),
        stack: Vec::new(builder.alloc),
        builder,
    };
    schedule_plan(&mut making)?;
    for _turn in 0..u64::MAX {
        if !advance(cx, &mut making)? {
            let Making {
                pieces,
                builder,
                ..
            } = making;
            return Ok(Template {
                pieces,
                names: builder.names,
                labels: builder.labels,
            });
        }
    }
    Err(AllocError)
}
