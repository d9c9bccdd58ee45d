//! The report on one run.
ghost use Rattle.std.specs.Prelude.{◌≡◌, IfOk, map, string_bytes};
ghost use Rattle.cli_texts.specs.Reports.{end_line, replay_of};

use crate::text_report::{count_line, diagnostic_lines};
use cc_base::{Diag, Memory};
use std::alloc::{AllocError, Global};

/// The line on how a run stands at its end, and how many draws it took.
fn end_line(alloc: Global, end: &str, used: u64) -> Result<String, AllocError>
    ensures { IfOk result (λ s. string_bytes s ≡ end_line end.now used) }
{
    format!(in alloc; "end: {end}, {used} draws used\n")
}

/// The report on a run of a unit: a line for each diagnostic as in `report_text`, a line
/// `end: WORD, K draws used`, and a last line `N diagnostics in UNIT`.
pub fn replay_text(
    alloc: Global,
    files: &[String],
    unit: &str,
    diags: &[Diag],
    end: &str,
    used: u64,
) -> Result<Vec<u8>, Memory>
    ensures { IfOk result (λ b. b.items ≡ replay_of (map string_bytes files.now) unit.now diags.now end.now used) }
{
    let mut text = diagnostic_lines(alloc, files, unit, diags)?;
    let stands = end_line(alloc, end, used)?;
    text.extend_from_slice(stands.as_bytes())?;
    let last = count_line(alloc, diags.len(), unit)?;
    text.extend_from_slice(last.as_bytes())?;
    Ok(text)
}
