//! The items of conditions, which go straight to what follows.
ghost use Rattle.std.specs.Prelude.{◌≡◌, None};
ghost use Rattle.c_layout.specs.CheckedTrees.{term_tree};
ghost use Rattle.c_layout.specs.CheckedUnits.{UnitView};
ghost use Rattle.semantics.specs.SourceMachine.Items.{items_of};
ghost use Rattle.semantics.specs.SourceMachine.ConditionItems.{line_items, leaf_by, leaf, condition};
ghost use Rattle.lower_conditions.specs.Conditions.{read_view_of};
ghost use Rattle.interp_stack.specs.StackViews.{on_logical, with_items, Stacks};

use crate::items::{Item7, Use7};
use crate::store_items::push_item;
use c_layout::{CheckedTerm, LogicalOp, TermForm};
use lower_conditions::{ReadTest, read_by};
use std::alloc::AllocError;

// A call of `fgets` that a condition tests alone.
fn push_read<'a>(control: &mut Vec<Item7<'a>>, read: ReadTest<'a>) -> Result<(), AllocError>
    ensures { (u : UnitView) → Stacks u (λ s. with_items (line_items (read_view_of read.entry) read.entry.wants_line (items_of s.yes) (items_of s.no)) s) control.old.items result control.new.items }
{
    push_item(control, Item7::ReadLine(read.call.place, read.wants_line))?;
    push_item(control, Item7::Values(read.call.arguments))?;
    Ok(())
}

// Any other term.
fn push_choice<'a>(
    control: &mut Vec<Item7<'a>>,
    term: &'a CheckedTerm,
    is_test: bool,
) -> Result<(), AllocError>
    ensures { (u : UnitView) → Stacks u (λ s. with_items (leaf_by u is_test (term_tree term.now) None (items_of s.yes) (items_of s.no)) s) control.old.items result control.new.items }
{
    push_item(control, Item7::Term(Use7::Choose(is_test), term))?;
    push_item(control, Item7::Term(Use7::Value, term))?;
    Ok(())
}

fn push_leaf<'a>(
    control: &mut Vec<Item7<'a>>,
    term: &'a CheckedTerm,
    is_test: bool,
) -> Result<(), AllocError>
    ensures { (u : UnitView) → Stacks u (λ s. with_items (leaf u is_test (term_tree term.now) s.yes s.no) s) control.old.items result control.new.items }
{
    match read_by(term) {
        Some(read) => push_read(control, read),
        None => push_choice(control, term, is_test),
    }
}

fn push_logical<'a>(
    control: &mut Vec<Item7<'a>>,
    op: LogicalOp,
    right: &'a CheckedTerm,
    is_test: bool,
) -> Result<(), AllocError>
    ensures { (u : UnitView) → Stacks u (λ s. on_logical u op is_test (term_tree right.now) s) control.old.items result control.new.items }
{
    match op {
        LogicalOp::And => push_item(control, Item7::Term(Use7::AndThen(is_test), right)),
        LogicalOp::Or => push_item(control, Item7::Term(Use7::OrElse(is_test), right)),
    }
}

/// The items of a condition, which lead to the targets that are pushed already.
pub fn push_condition<'a>(
    control: &mut Vec<Item7<'a>>,
    term: &'a CheckedTerm,
    is_test: bool,
) -> Result<(), AllocError>
    ensures { (u : UnitView) → Stacks u (λ s. with_items (condition u is_test (term_tree term.now) s.yes s.no) s) control.old.items result control.new.items }
{
    match &term.form {
        TermForm::Number(_) => push_leaf(control, term, is_test),
        TermForm::Sizeof(_, None, _) => push_leaf(control, term, is_test),
        TermForm::Sizeof(_, Some(_), _) => push_leaf(control, term, is_test),
        TermForm::Load(_) => push_leaf(control, term, is_test),
        TermForm::AddressOf(_) => push_leaf(control, term, is_test),
        TermForm::Decay(_) => push_leaf(control, term, is_test),
        TermForm::Convert(_, _) => push_leaf(control, term, is_test),
        TermForm::Discard(_) => push_leaf(control, term, is_test),
        TermForm::Plus(_) => push_leaf(control, term, is_test),
        TermForm::Minus(_) => push_leaf(control, term, is_test),
        TermForm::Complement(_) => push_leaf(control, term, is_test),
        TermForm::Not(inner) => {
            push_item(control, Item7::Negated)?;
            push_condition(control, inner, is_test)
        }
        TermForm::Integer(_, _, _) => push_leaf(control, term, is_test),
        TermForm::Shift(_, _, _, _) => push_leaf(control, term, is_test),
        TermForm::Difference(_, _, _) => push_leaf(control, term, is_test),
        TermForm::Compare(_, _, _) => push_leaf(control, term, is_test),
        TermForm::Logical(op, left, right) => {
            push_logical(control, *op, right, is_test)?;
            push_condition(control, left, is_test)
        }
        TermForm::Conditional(test, _, _) => {
            push_item(control, Item7::Term(Use7::Pick, term))?;
            push_condition(control, test, true)
        }
        TermForm::Comma(_, _) => push_leaf(control, term, is_test),
        TermForm::Assign(_, _) => push_leaf(control, term, is_test),
        TermForm::Compound(_, _, _, _) => push_leaf(control, term, is_test),
        TermForm::CompoundShift(_, _, _, _) => push_leaf(control, term, is_test),
        TermForm::Step(_, _, _, _) => push_leaf(control, term, is_test),
        TermForm::StepPointer(_, _, _, _) => push_leaf(control, term, is_test),
        TermForm::Struct(_) => push_leaf(control, term, is_test),
        TermForm::Call(_, _, _) => push_leaf(control, term, is_test),
        TermForm::Library(_, _, _) => push_leaf(control, term, is_test),
    }
}
