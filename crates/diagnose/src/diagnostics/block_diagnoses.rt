//! The rules that the instructions of a block may break.
ghost use Rattle.std.specs.Prelude.{◌≡◌, ◌++◌, IfOk, []};
ghost use Rattle.diagnose.specs.Diagnostics.AdmittedRules.{with_pair, pairs_among, pairs_of, reached_row, pairs_at, row_behind, instruction_pairs, instructions_of, block_pairs};

use cc_base::{Diag, IntDomain, Place, Rule};
use cfg::{Flow, Instruction};
use std::alloc::AllocError;
use transfer_checks::Violations;
use transfer_instructions::instructions::{operate, operation_violations};
use value_domain::values::Cell;

/// The rules on runs, in the order of their tags.
const RULES: [Rule; 15] = [
    Rule::Accfree,
    Rule::Chrsgnext,
    Rule::Dblfree,
    Rule::Diverr,
    Rule::Insufmem,
    Rule::Intoflow,
    Rule::Invptr,
    Rule::Libptr,
    Rule::Nonnullcs,
    Rule::Nullref,
    Rule::Ptrobj,
    Rule::Strmod,
    Rule::Taintsink,
    Rule::Uninitref,
    Rule::Xfree,
];

/// Adds the rule at the place, if it is in the set.
fn push_rule(
    out: &mut Vec<Diag>,
    place: Place,
    violations: Violations,
    rule: Rule,
) -> Result<(), AllocError>
    ensures { IfOk result (λ _. out.new.items ≡ out.old.items ++ with_pair place violations rule []) }
{
    if violations.has(rule) {
        out.push(Diag { place, rule })?;
    }
    Ok(())
}

/// Adds the rules of a list that are in the set, each at the place.
fn push_rules(
    out: &mut Vec<Diag>,
    place: Place,
    violations: Violations,
    rules: &[Rule],
) -> Result<(), AllocError>
    ensures { IfOk result (λ _. out.new.items ≡ out.old.items ++ pairs_among place violations rules.now) }
{
    for at in 0..rules.len() {
        push_rule(out, place, violations, rules[at])?;
    }
    Ok(())
}

/// Adds the rules of the set, each at the place.
#[tactic(auto, unfolding(crate::specs::Diagnostics::AdmittedRules::pairs_of))]
fn push_all(out: &mut Vec<Diag>, place: Place, violations: Violations) -> Result<(), AllocError>
    ensures { IfOk result (λ _. out.new.items ≡ out.old.items ++ pairs_of place violations) }
{
    push_rules(out, place, violations, &RULES)
}

/// Adds what one instruction may break in the row before it, where that is reached.
fn diagnose_reached<I: IntDomain>(
    reached: bool,
    out: &mut Vec<Diag>,
    flow: &Flow,
    row: &[Cell<I>],
    one: &Instruction,
) -> Result<(), AllocError>
    ensures { IfOk result (λ _. out.new.items ≡ out.old.items ++ pairs_at I.lattice I.numbers flow.now one.now (reached_row reached row.now)) }
{
    if reached {
        let violations = operation_violations(flow, row, &one.operation);
        push_all(out, one.place, violations)
    } else {
        Ok(())
    }
}

/// Makes of the row before an instruction, where it is reached, the row behind it; false where no run
/// goes on.
fn pass_reached<I: IntDomain>(
    reached: bool,
    flow: &Flow,
    row: &mut [Cell<I>],
    one: &Instruction,
) -> bool
    ensures { reached_row result row.new ≡ row_behind I.lattice I.numbers flow.now one.now (reached_row reached row.old) }
{
    if reached {
        if operate(flow, row, &one.operation) {
            true
        } else {
            false
        }
    } else {
        false
    }
}

/// Adds what the instructions may break, each in the row before it, as far as the row goes on.
#[tactic(auto, unfolding(crate::specs::Diagnostics::AdmittedRules::instruction_pairs))]
fn diagnose_instructions<I: IntDomain>(
    out: &mut Vec<Diag>,
    flow: &Flow,
    row: &mut [Cell<I>],
    instructions: &[Instruction],
) -> Result<(), AllocError>
    ensures { IfOk result (λ _. out.new.items ≡ out.old.items ++ instruction_pairs I.lattice I.numbers flow.now instructions.now row.old) }
{
    let mut reached = true;
    for at in 0..instructions.len() {
        diagnose_reached(reached, out, flow, row, &instructions[at])?;
        reached = pass_reached(reached, flow, row, &instructions[at]);
    }
    Ok(())
}

/// The instructions of a block; none where there is no such block.
fn instructions_of(flow: &Flow, block: u32) -> &[Instruction]
    ensures { result.now ≡ instructions_of flow.now block }
{
    match flow.blocks.get(block as usize) {
        None => &[],
        Some(found) => found.instructions.as_slice(),
    }
}

/// Adds what the instructions of a block may break, each in the row before it. `row` is the row at the
/// start of the block, and is spent.
///
/// # Errors
///
/// Want of memory.
#[tactic(auto, unfolding(crate::specs::Diagnostics::AdmittedRules::block_pairs))]
pub fn diagnose_block<I: IntDomain>(
    out: &mut Vec<Diag>,
    flow: &Flow,
    row: &mut [Cell<I>],
    block: u32,
) -> Result<(), AllocError>
    ensures { IfOk result (λ _. out.new.items ≡ out.old.items ++ block_pairs I.lattice I.numbers flow.now block row.old) }
{
    diagnose_instructions(out, flow, row, instructions_of(flow, block))
}
