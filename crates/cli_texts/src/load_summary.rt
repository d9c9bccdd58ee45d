//! The summary that `load` prints.
ghost use Rattle.std.specs.Prelude.{◌≡◌, ◌++◌, IfOk, string_bytes};
ghost use Rattle.cc_base.specs.DiagnosticOrder.{same_rule};
ghost use Rattle.cli_texts.specs.Reports.{last_line};
ghost use Rattle.cli_texts.specs.Summaries.{count_of, rule_line, rule_part, rule_parts, rule_lines, first_line, summary_of};

use crate::text_report::count_line;
use cc_base::{Diag, RULES, Rule};
use std::alloc::{AllocError, Global};

#[tactic(auto, using(cc_base::proofs::RuleOrder::rank_equals))]
fn is_same(one: Rule, other: Rule) -> bool
    ensures { result ≡ same_rule one other }
{
    one == other
}

/// How many of the diagnostics are of a rule.
fn count_of(diags: &[Diag], rule: Rule) -> usize
    ensures { result ≡ count_of diags.now rule }
{
    let mut count: usize = 0;
    for diag in diags {
        if is_same(diag.rule, rule) {
            count += 1;
        }
    }
    count
}

/// The line of a rule.
fn rule_line(alloc: Global, rule: Rule, count: usize) -> Result<String, AllocError>
    ensures { IfOk result (λ s. string_bytes s ≡ rule_line rule count) }
{
    let tag = rule.tag();
    format!(in alloc; "{tag} {count}\n")
}

/// Adds the line of a rule where diagnostics are of it.
fn push_rule(
    alloc: Global,
    text: &mut Vec<u8>,
    diags: &[Diag],
    rule: Rule,
) -> Result<(), AllocError>
    ensures { IfOk result (λ _. text.new.items ≡ text.old.items ++ rule_part diags.now rule) }
{
    let count = count_of(diags, rule);
    if count > 0 {
        let line = rule_line(alloc, rule, count)?;
        text.extend_from_slice(line.as_bytes())?;
    }
    Ok(())
}

/// Adds the lines of some rules.
fn push_rules(
    alloc: Global,
    text: &mut Vec<u8>,
    diags: &[Diag],
    rules: &[Rule],
) -> Result<(), AllocError>
    ensures { IfOk result (λ _. text.new.items ≡ text.old.items ++ rule_parts diags.now rules.now) }
{
    for rule in rules {
        push_rule(alloc, text, diags, *rule)?;
    }
    Ok(())
}

/// Adds the lines of all rules.
#[tactic(auto, unfolding(crate::specs::Summaries::rule_lines))]
fn push_all_rules(alloc: Global, text: &mut Vec<u8>, diags: &[Diag]) -> Result<(), AllocError>
    ensures { IfOk result (λ _. text.new.items ≡ text.old.items ++ rule_lines diags.now) }
{
    push_rules(alloc, text, diags, RULES.as_slice())
}

/// The first line: the unit, its bases and its cells.
fn first_line(alloc: Global, unit: &str, bases: u64, cells: u64) -> Result<String, AllocError>
    ensures { IfOk result (λ s. string_bytes s ≡ first_line unit.now bases cells) }
{
    format!(in alloc; "{unit}: {bases} bases, {cells} cells\n")
}

/// The summary on a unit: its bases and cells, a line for each rule that has diagnostics, and the
/// number of all.
pub fn summary(
    alloc: Global,
    unit: &str,
    bases: u64,
    cells: u64,
    diags: &[Diag],
) -> Result<Vec<u8>, AllocError>
    ensures { IfOk result (λ b. b.items ≡ summary_of unit.now bases cells diags.now) }
{
    let first = first_line(alloc, unit, bases, cells)?;
    let mut text = Vec::from_slice(alloc, first.as_bytes())?;
    push_all_rules(alloc, &mut text, diags)?;
    let last = count_line(alloc, diags.len(), unit)?;
    text.extend_from_slice(last.as_bytes())?;
    Ok(text)
}
