//! The functions on characters (7.4 of ISO/IEC 9899:2011), in the "C" locale.
ghost use Rattle.std.specs.Prelude.{◌≡◌};
ghost use Rattle.transfer_library_plans.specs.Characters.{meets, tested_number, raised, lowered, answer, plan_character};
ghost use Rattle.value_domain.specs.Values.LabelSets.{no_labels};
ghost use Rattle.value_domain.specs.Values.ValueTables.{number_value};
ghost use Rattle.cc_base.specs.IntegerDomains.{between_or_least};

use crate::call_plans::{Effect, Plan, Trail, planned};
use c_layout::{LibFn, has_class, is_lower, is_upper};
use cc_base::{IntDomain, Lattice, between_or_bottom, range_met};
use transfer_checks::character_violations;
use value_domain::values::{Labels, Value};

/// The answer of a test of characters from `lo` to `hi`.
fn tested<I: IntDomain>(function: LibFn, lo: i128, hi: i128) -> Value<I>
    ensures { result ≡ number_value I.lattice (tested_number I.lattice I.numbers function lo hi) no_labels }
{
    let num = if lo != hi {
        between_or_bottom(0, 1)
    } else if has_class(function, lo) {
        I::one(1)
    } else {
        I::one(0)
    };
    Value::of_number(num, Labels::none())
}

fn meets(lo: i128, hi: i128, from: i128, to: i128) -> bool
    ensures { result ≡ meets lo hi from to }
{
    lo <= to && from <= hi
}

/// One letter.
fn letter<I: IntDomain>(c: i128) -> I
    ensures { result ≡ between_or_least I.lattice I.numbers c c }
{
    between_or_bottom(c, c)
}

/// The letters that `toupper` gives of characters from `lo` to `hi`.
fn raised<I: IntDomain>(lo: i128, hi: i128) -> I
    ensures { result ≡ raised I.lattice I.numbers lo hi }
{
    if lo == hi && is_lower(lo) {
        letter(lo.saturating_sub(32))
    } else if lo != hi && meets(lo, hi, 97, 122) {
        between_or_bottom(lo.min(65), hi)
    } else {
        between_or_bottom(lo, hi)
    }
}

/// The letters that `tolower` gives of characters from `lo` to `hi`.
fn lowered<I: IntDomain>(lo: i128, hi: i128) -> I
    ensures { result ≡ lowered I.lattice I.numbers lo hi }
{
    if lo == hi && is_upper(lo) {
        letter(lo.saturating_add(32))
    } else if lo != hi && meets(lo, hi, 65, 90) {
        between_or_bottom(lo, hi.max(122))
    } else {
        between_or_bottom(lo, hi)
    }
}

fn answer<I: IntDomain>(function: LibFn, c: Value<I>, lo: i128, hi: i128) -> Value<I>
    ensures { result ≡ answer I.lattice I.numbers function c lo hi }
{
    match function {
        LibFn::Toupper => Value::of_number(raised(lo, hi), c.labels),
        LibFn::Tolower => Value::of_number(lowered(lo, hi), c.labels),
        _ => tested(function, lo, hi),
    }
}

/// The plan of a function on characters.
#[tactic(auto, unfolding(crate::specs::Characters::plan_character))]
pub fn plan_character<I: IntDomain>(function: LibFn, c: Value<I>) -> Plan<I>
    ensures { result ≡ plan_character I.lattice I.numbers function c }
{
    let trail = Trail::start(character_violations(c));
    match range_met(c.num.bounds(), -1, 255) {
        None => planned(trail, Effect::Unreached),
        Some((lo, hi)) => planned(trail, Effect::Result(answer(function, c, lo, hi))),
    }
}
