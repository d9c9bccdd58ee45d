//! Which stage of the work a refusal belongs to.
ghost use Rattle.std.specs.Prelude.{◌≡◌};
ghost use Rattle.cli_units.specs.Stages as spec;

use cc_base::{Fault, Refusal, Stop};

/// The stages of the work on a unit that can refuse it.
#[derive(Clone, Copy)]
pub enum Stage {
    Expansion,
    /// The form of a number, in a condition of a directive or behind the expansion.
    Numbers,
    Grammar,
    Typing,
    Counting,
}

/// The stage that a refusal belongs to.
pub fn stage_of(refusal: &Refusal) -> Stage
    ensures { result ≡ spec.stage_of refusal.now }
{
    match refusal {
        Refusal::NumberForm => Stage::Numbers,
        Refusal::Unsupported(_) => Stage::Grammar,
        Refusal::Syntax => Stage::Grammar,
        Refusal::Undeclared => Stage::Typing,
        Refusal::Redeclared => Stage::Typing,
        Refusal::TypeFault => Stage::Typing,
        Refusal::PointerInteger => Stage::Typing,
        Refusal::ConstantNeeded => Stage::Typing,
        Refusal::FormatFault => Stage::Typing,
        Refusal::NoEntry => Stage::Typing,
        Refusal::Recursion => Stage::Typing,
        Refusal::TooLarge { .. } => Stage::Counting,
        _ => Stage::Expansion,
    }
}

fn same_stage(a: Stage, b: Stage) -> bool
    ensures { result ≡ spec.same_stage a b }
{
    match (a, b) {
        (Stage::Expansion, Stage::Expansion) => true,
        (Stage::Grammar, Stage::Grammar) => true,
        (Stage::Grammar, Stage::Numbers) => true,
        (Stage::Typing, Stage::Typing) => true,
        (Stage::Counting, Stage::Counting) => true,
        _ => false,
    }
}

fn kept_at(stage: Stage, fault: Fault) -> Stop
    ensures { result ≡ spec.kept_at stage fault }
{
    if same_stage(stage, stage_of(&fault.refusal)) {
        Stop::Refused(fault)
    } else {
        Stop::Memory
    }
}

/// What stops a stage: a refusal of its own. A refusal of another stage, and what speaks of files, come to want of
/// memory; no stage is known to answer either.
pub(crate) fn stop_at(stage: Stage, stop: Stop) -> Stop
    ensures { result ≡ spec.stop_at stage stop }
{
    match stop {
        Stop::Refused(fault) => kept_at(stage, fault),
        Stop::NotHeld => Stop::Memory,
        Stop::ReadFault => Stop::Memory,
        Stop::Memory => Stop::Memory,
    }
}
