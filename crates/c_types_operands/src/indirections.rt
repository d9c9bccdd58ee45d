//! Indirection and subscripts (6.5.2.1, 6.5.3.2 of ISO/IEC 9899:2011).
ghost use Rattle.std.specs.Prelude.{◌≡◌};
ghost use Rattle.c_layout.specs.CheckedTrees.{term_tree};
ghost use Rattle.c_types_scopes.specs.Answers.{Gives};
ghost use Rattle.c_types_scopes.specs.Known.{known};
ghost use Rattle.c_types_operands.specs.Operands.{operand_view};
ghost use Rattle.c_types_operands.specs.Indirections as spec;

use crate::implicit_conversions::complete_target;
use crate::operands::{Operand, lvalue_operand, term_of};
use crate::pointer_arithmetic::pointer_sum;
use c_layout::{CheckedTerm, LvalueForm};
use c_types_scopes::{Context, type_fault};
use cc_base::{Place, Stop};

/// What a pointer to a complete type points to.
pub fn indirection(cx: &Context, place: Place, pointer: Box<CheckedTerm>) -> Result<Operand, Stop>
    ensures { Gives operand_view (spec.indirection (known cx.now) place (term_tree pointer.value)) result }
{
    match complete_target(cx, &pointer.ctype)? {
        Some(ctype) => {
            let form = LvalueForm::Target(pointer);
            Ok(lvalue_operand(cx.alloc, place, ctype, form, None)?)
        }
        None => Err(type_fault(place)),
    }
}

/// A subscript: what the sum of a pointer and an integer points to.
pub fn subscript(cx: &Context, place: Place, left: Operand, right: Operand) -> Result<Operand, Stop>
    ensures { Gives operand_view (spec.subscript (known cx.now) place (operand_view left) (operand_view right)) result }
{
    let left = term_of(cx.alloc, left)?;
    let right = term_of(cx.alloc, right)?;
    let sum = pointer_sum(cx, place, left, right)?;
    indirection(cx, place, sum)
}
