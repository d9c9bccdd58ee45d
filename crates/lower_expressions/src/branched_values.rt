//! Terms that branch: `&&`, `||` and `?:` (6.5.13 to 6.5.15 of ISO/IEC 9899:2011).
ghost use Rattle.std.specs.Prelude.{◌≡◌, IfOk};
ghost use Rattle.c_layout.specs.CheckedTrees.{term_tree};
ghost use Rattle.lower_templates.specs.Worklist.Pieces.{exits_view};
ghost use Rattle.lower_templates.specs.Worklist.Works.{job};
ghost use Rattle.lower_templates.specs.Worklist.Plans.{plan};
ghost use Rattle.lower_templates.specs.Worklist.Settings.{setting};
ghost use Rattle.lower_expressions.specs.Branches as spec;

use c_layout::{CheckedTerm, LogicalOp};
use cc_base::Place;
use cfg::{EdgeKind, Operation, Test};
use lower_templates::worklist::{Builder, Decision, Exit, Setting, Targets, Work, scalar};
use std::alloc::{AllocError, Global};

/// What the edges of a branch know: the tests that hold on them, and the numbers that a temporary
/// takes on them.
#[derive(Clone, Copy)]
pub struct Known {
    pub yes: Option<Test>,
    pub no: Option<Test>,
    pub yes_puts: Option<(u32, i128)>,
    pub no_puts: Option<(u32, i128)>,
}

/// The edges of a branch, the true one first.
fn branch_exits(alloc: Global, targets: Targets, known: Known) -> Result<Vec<Exit>, AllocError>
    ensures { IfOk result (λ v. exits_view v.items ≡ spec.branch_exits targets known) }
{
    Ok(vec![in alloc;
        Exit {
            to: targets.yes,
            kind: EdgeKind::When(true, known.yes, known.yes_puts)
        },
        Exit {
            to: targets.no,
            kind: EdgeKind::When(false, known.no, known.no_puts)
        },
    ]?)
}

/// A branch on a temporary, which has the value of a term.
pub fn branch(
    builder: &mut Builder,
    term: &CheckedTerm,
    depth: u32,
    targets: Targets,
    known: Known,
) -> Result<(), AllocError>
    ensures { IfOk result (λ _. plan builder.new ≡ spec.branch (term_tree term.now) depth targets known (plan builder.old)) }
{
    let exits = branch_exits(builder.alloc, targets, known)?;
    builder.close(
        term.place,
        Operation::Branch(depth, scalar(&term.ctype)),
        exits,
    )
}

fn jump_exits(alloc: Global, to: u32) -> Result<Vec<Exit>, AllocError>
    ensures { IfOk result (λ v. exits_view v.items ≡ spec.jump_exits to) }
{
    Ok(vec![in alloc;
        Exit {
            to,
            kind: EdgeKind::Jump
        },
    ]?)
}

/// A jump.
pub fn jump(builder: &mut Builder, place: Place, to: u32) -> Result<(), AllocError>
    ensures { IfOk result (λ _. plan builder.new ≡ spec.jump place to (plan builder.old)) }
{
    let exits = jump_exits(builder.alloc, to)?;
    builder.close(place, Operation::Jump, exits)
}

/// Where the left operand leads.
pub fn left_targets(op: LogicalOp, targets: Targets, right: u32) -> Targets
    ensures { result ≡ spec.left_targets op targets right }
{
    match op {
        LogicalOp::And => Targets {
            yes: right,
            no: targets.no,
        },
        LogicalOp::Or => Targets {
            yes: targets.yes,
            no: right,
        },
    }
}

/// What the left operand puts where it decides the value alone.
fn left_known(op: LogicalOp, depth: u32) -> Known
    ensures { result ≡ spec.left_known op depth }
{
    match op {
        LogicalOp::And => Known {
            yes: None,
            no: None,
            yes_puts: None,
            no_puts: Some((depth, 0)),
        },
        LogicalOp::Or => Known {
            yes: None,
            no: None,
            yes_puts: Some((depth, 1)),
            no_puts: None,
        },
    }
}

/// What the right operand puts.
fn right_known(depth: u32) -> Known
    ensures { result ≡ spec.right_known depth }
{
    Known {
        yes: None,
        no: None,
        yes_puts: Some((depth, 1)),
        no_puts: Some((depth, 0)),
    }
}

/// An operand of `&&` or `||` in a block of its own, and the branch on it.
fn push_operand<'a>(
    builder: &mut Builder<'a>,
    first: u32,
    term: &'a CheckedTerm,
    depth: u32,
    targets: Targets,
    known: Known,
) -> Result<(), AllocError>
    ensures { IfOk result (λ _. plan builder.new ≡ spec.operand first (term_tree term.now) depth targets known (plan builder.old)) }
{
    builder.mark(first)?;
    builder.add(Work::Value(term, depth))?;
    branch(builder, term, depth, targets, known)
}

/// The value of `&&` or `||`: each operand ends in a branch, whose edges put 0 or 1.
pub fn logical<'a>(
    builder: &mut Builder<'a>,
    op: LogicalOp,
    left: &'a CheckedTerm,
    right: &'a CheckedTerm,
    depth: u32,
) -> Result<(), AllocError>
    ensures { IfOk result (λ _. plan builder.new ≡ spec.logical op (term_tree left.now) (term_tree right.now) depth (plan builder.old)) }
{
    let first = builder.new_labels(3)?;
    let (second, after) = (first + 1, first + 2);
    let both = Targets {
        yes: after,
        no: after,
    };
    let targets = left_targets(op, both, second);
    push_operand(builder, first, left, depth, targets, left_known(op, depth))?;
    push_operand(builder, second, right, depth, both, right_known(depth))?;
    builder.mark(after)
}

/// A term whose value is used or not.
pub fn arm<'a>(term: &'a CheckedTerm, depth: u32, used: bool) -> Work<'a>
    ensures { job result ≡ spec.arm (term_tree term.now) depth used }
{
    if used {
        Work::Value(term, depth)
    } else {
        Work::Unused(term, depth)
    }
}

/// An operand of `?:` in a block of its own.
fn push_arm<'a>(
    builder: &mut Builder<'a>,
    label: u32,
    term: &'a CheckedTerm,
    depth: u32,
    used: bool,
) -> Result<(), AllocError>
    ensures { IfOk result (λ _. plan builder.new ≡ spec.arm_at label (term_tree term.now) depth used (plan builder.old)) }
{
    builder.mark(label)?;
    builder.add(arm(term, depth, used))
}

/// The condition of `?:` in a block of its own.
fn push_choice<'a>(
    builder: &mut Builder<'a>,
    first: u32,
    test: &'a CheckedTerm,
    depth: u32,
    targets: Targets,
) -> Result<(), AllocError>
    ensures { IfOk result (λ _. plan builder.new ≡ spec.choice first (term_tree test.now) depth targets (plan builder.old)) }
{
    builder.mark(first)?;
    builder.add(Work::Condition(
        test,
        Decision {
            targets,
            depth,
            is_test: true,
        },
    ))
}

/// `?:`, each operand in a block of its own.
pub fn conditional<'a>(
    cx: &Setting<'a>,
    builder: &mut Builder<'a>,
    test: &'a CheckedTerm,
    yes: &'a CheckedTerm,
    no: &'a CheckedTerm,
    depth: u32,
    used: bool,
) -> Result<(), AllocError>
    ensures { IfOk result (λ _. plan builder.new ≡ spec.conditional (setting cx.now) (term_tree test.now) (term_tree yes.now) (term_tree no.now) depth used (plan builder.old)) }
{
    let first = builder.new_labels(4)?;
    let targets = Targets {
        yes: first + 1,
        no: first + 2,
    };
    push_choice(builder, first, test, depth, targets)?;
    push_arm(builder, first + 1, yes, depth, used)?;
    jump(builder, cx.place, first + 3)?;
    push_arm(builder, first + 2, no, depth, used)?;
    builder.mark(first + 3)
}
