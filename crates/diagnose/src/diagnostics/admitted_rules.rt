//! Whether an instruction may break a rule.
ghost use Rattle.std.specs.Prelude.{◌≡◌};
ghost use Rattle.diagnose.specs.Diagnostics.AdmittedRules.{admits};

use cc_base::{IntDomain, Rule};
use cfg::Flow;
use transfer_instructions::instructions::violations_at;
use value_domain::values::Cell;

/// Whether an instruction of a block may break the rule in the row before it. The three rules on the
/// text of a unit are never broken by an instruction.
pub fn admits<I: IntDomain>(flow: &Flow, row: &[Cell<I>], block: u32, at: u32, rule: Rule) -> bool
    ensures { result ≡ admits I.lattice I.numbers flow.now row.now block at rule }
{
    violations_at(flow, row, block, at).has(rule)
}
