//! Products of unsigned numbers, which may need more bits than any type has.
ghost use Rattle.std.specs.Prelude.{◌≡◌, ℤ, pos, Some, true, false};
ghost use Rattle.cc_base.specs.IntegerTypes.{is_size, wrap_into};
ghost use Rattle.cc_base.specs.declared.integer_operators.IntOp.TheVariants as int_op;
ghost use Rattle.memory_model.specs.Effects.IntegerEffects as machine;
ghost use Rattle.interp_memory.specs.ByteViews.{labels_view, scalar_view};
ghost use Rattle.interp_accesses.specs.WorldViews.{world_view, ComesTo, Computes};

use crate::numbers::number_faults::{Faults, computed};
use crate::numbers::number_labels::operated_set;
use cc_base::{IntOp, IntType};
use interp_accesses::{Halt, World7};
use interp_memory::{LabelSet, Value7};

// A number in an unsigned type.
#[tactic(auto, using(crate::proofs::numbers::Products::wrapped_unsigned))]
fn wrapped(kind: IntType, n: u128) -> Result<i128, Halt>
    requires size { is_size kind.bytes ≡ true }
    requires unsigned { kind.signed ≡ false }
    ensures { Computes (λ (x : ℤ). x) (wrap_into kind (pos n)) result }
{
    match n.checked_rem(kind.modulus().unsigned_abs()) {
        None => Err(Halt::Memory),
        Some(rest) => match i128::try_from(rest) {
            Ok(number) => Ok(number),
            Err(_) => Err(Halt::Memory),
        },
    }
}

// Whether an unsigned type does not have a number.
#[tactic(auto, using(crate::proofs::numbers::Products::beyond_unsigned))]
fn is_beyond(kind: IntType, n: u128) -> bool
    requires size { is_size kind.bytes ≡ true }
    requires unsigned { kind.signed ≡ false }
    ensures { result ≡ machine.is_outside kind (Some (pos n)) }
{
    kind.greatest().unsigned_abs() < n
}

/// A product of unsigned numbers.
#[tactic(auto, using(crate::proofs::numbers::Products::product_reply))]
pub(crate) fn unsigned_product(
    w: &mut World7,
    kind: IntType,
    x: u128,
    s: LabelSet,
    y: u128,
    t: LabelSet,
) -> Result<Value7, Halt>
    requires size { is_size kind.bytes ≡ true }
    requires unsigned { kind.signed ≡ false }
    ensures { ComesTo scalar_view (machine.binary_numbers int_op.Mul kind (pos x) (labels_view s) (pos y) (labels_view t) (world_view w.old)) result (world_view w.new) }
{
    let Some(n) = x.checked_mul(y) else {
        return Err(Halt::Memory);
    };
    let number = wrapped(kind, n)?;
    let labels = operated_set(IntOp::Mul, s, t, kind, is_beyond(kind, n));
    let none = Faults {
        division: false,
        overflow: false,
    };
    computed(w, none, Some(number), labels)
}
