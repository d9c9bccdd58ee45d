//! Statements.
ghost use Rattle.std.specs.Prelude.{◌≡◌, IfOk};
ghost use Rattle.c_layout.specs.CheckedTrees.{statement_tree};
ghost use Rattle.lower_templates.specs.Worklist.Plans.{plan};
ghost use Rattle.lower_templates.specs.Worklist.Settings.{setting};
ghost use Rattle.lower_functions.specs.Statements.Statements as spec;

use crate::statements::jump_statements::{case_labelled, default_labelled, giving, go, labelled};
use crate::statements::loop_statements::{
    do_loop, for_loop, selection, two_way_selection, while_loop,
};
use crate::statements::plain_statements::{block, forget, start, start_copy, start_list};
use crate::statements::scope_jumps::push_jump;
use crate::statements::switch_statements::switch;
use c_layout::CheckedStatement;
use lower_templates::worklist::{Builder, Setting, Surroundings, Work};
use std::alloc::AllocError;

/// The works of a statement.
pub fn statement_works<'a>(
    cx: &Setting<'a>,
    builder: &mut Builder<'a>,
    statement: &'a CheckedStatement,
    around: Surroundings,
) -> Result<(), AllocError>
    ensures { IfOk result (λ _. plan builder.new ≡ spec.statement (setting cx.now) (statement_tree statement.now) around (plan builder.old)) }
{
    match statement {
        CheckedStatement::Value(term) => builder.add(Work::Unused(term, 0)),
        CheckedStatement::Nothing => Ok(()),
        CheckedStatement::Forget(place, local) => forget(builder, *place, *local),
        CheckedStatement::Start(place, local, value) => start(builder, *place, *local, value),
        CheckedStatement::StartCopy(place, local, source) => {
            start_copy(builder, *place, *local, source)
        }
        CheckedStatement::StartList(place, local, stores) => {
            start_list(builder, *place, *local, stores.as_slice())
        }
        CheckedStatement::Block(objects, list) => {
            block(cx, builder, objects.as_slice(), list.as_slice(), around)
        }
        CheckedStatement::If(test, body) => selection(builder, test, body, around),
        CheckedStatement::IfElse(test, body, other) => {
            two_way_selection(cx, builder, test, body, other, around)
        }
        CheckedStatement::While(test, body) => while_loop(cx, builder, test, body, around),
        CheckedStatement::Do(body, test) => do_loop(builder, body, test, around),
        CheckedStatement::For(objects, first, test, step, body) => for_loop(
            cx,
            builder,
            objects.as_slice(),
            first.as_slice(),
            test,
            step,
            body,
            around,
        ),
        CheckedStatement::Switch(place, value, cases, _, _, body) => {
            switch(cx, builder, *place, value, cases.as_slice(), body, around)
        }
        CheckedStatement::Case(case, body) => case_labelled(builder, *case, body, around),
        CheckedStatement::Default(body) => default_labelled(builder, body, around),
        CheckedStatement::Label(label, body) => labelled(builder, *label, body, around),
        CheckedStatement::Goto(label) => go(cx, builder, *label, around),
        CheckedStatement::Break => push_jump(cx, builder, around.scope, around.on_break),
        CheckedStatement::Continue => push_jump(cx, builder, around.scope, around.on_continue),
        CheckedStatement::Return(place, value) => giving(cx, builder, *place, value, around),
    }
}
