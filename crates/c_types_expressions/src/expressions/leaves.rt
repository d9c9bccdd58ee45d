//! What expressions have besides expressions: names, and the first argument of a call as it stands
//! (6.5.1, 6.5.2.2 of ISO/IEC 9899:2011).
ghost use Rattle.std.specs.Prelude.{◌≡◌, map, option_map};
ghost use Rattle.c_layout.specs.SyntaxTrees.{tree_of, trees};
ghost use Rattle.c_types_scopes.specs.Answers.{Gives, Leads};
ghost use Rattle.c_types_scopes.specs.States.{state};
ghost use Rattle.c_types_operands.specs.Operands.{operand_view};
ghost use Rattle.c_types_expressions.specs.Expressions.Leaves as spec;

use c_layout::Expr;
use c_types_operands::Operand;
use c_types_primary::{Callee, callee_named, name, note_callee};
use c_types_scopes::Context;
use cc_base::{Place, Stop, Text};

/// A name that is not called.
pub fn named(cx: &Context, place: Place, text: &Text) -> Result<Operand, Stop>
    ensures { Gives operand_view (spec.named (state cx.now) place text.now) result }
{
    name(cx, place, text)
}

/// What a called name means.
fn callee_of(cx: &Context, text: &Text) -> Callee
    ensures { result ≡ spec.callee_of (state cx.now) text.now }
{
    callee_named(cx, text)
}

/// What a called name means; the call is noted before its arguments.
#[tactic(auto, unfolding(crate::specs::Expressions::Leaves::noted_callee))]
pub fn noted_callee(cx: &mut Context, place: Place, text: &Text) -> Result<Callee, Stop>
    ensures { Leads (λ k. k) (spec.noted_callee (state cx.old) place text.now) result (state cx.new) }
{
    let callee = callee_of(cx, text);
    note_callee(cx, place, callee)?;
    Ok(callee)
}

/// The first argument of a call.
pub fn first_argument(expressions: &[Expr]) -> Option<&Expr>
    ensures { option_map (λ e. tree_of e.now) result ≡ spec.first_tree (trees (map tree_of expressions.now)) }
{
    expressions.first()
}
