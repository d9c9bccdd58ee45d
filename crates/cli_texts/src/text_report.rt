//! The report as text.
ghost use Rattle.std.specs.Prelude.{◌≡◌, ◌++◌, IfOk, map, string_bytes};
ghost use Rattle.cli_texts.specs.Reports.{file_name, line_of, lines_of, last_line, report_of};

use cc_base::{Diag, Memory};
use std::alloc::{AllocError, Global};

/// The name of a file of the unit; the unit's own where the list has none.
pub fn file_name<'a>(files: &'a [String], unit: &'a str, file: u32) -> &'a str
    ensures { result.now ≡ file_name (map string_bytes files.now) unit.now file }
{
    match files.get(file as usize) {
        Some(name) => name.as_str(),
        None => unit,
    }
}

/// The line of a diagnostic.
fn diagnostic_line(alloc: Global, file: &str, diag: &Diag) -> Result<String, AllocError>
    ensures { IfOk result (λ s. string_bytes s ≡ line_of file.now diag.now) }
{
    let line = diag.place.line;
    let col = diag.place.col;
    let tag = diag.rule.tag();
    let text = diag.rule.text();
    format!(in alloc; "{file}:{line}:{col}: {tag}: {text}\n")
}

/// The line that counts the diagnostics.
pub fn count_line(alloc: Global, count: usize, unit: &str) -> Result<String, AllocError>
    ensures { IfOk result (λ s. string_bytes s ≡ last_line count unit.now) }
{
    format!(in alloc; "{count} diagnostics in {unit}\n")
}

/// The lines of the diagnostics, in order.
pub fn diagnostic_lines(
    alloc: Global,
    files: &[String],
    unit: &str,
    diags: &[Diag],
) -> Result<Vec<u8>, AllocError>
    ensures { IfOk result (λ b. b.items ≡ lines_of (map string_bytes files.now) unit.now diags.now) }
{
    let mut text = Vec::new(alloc);
    for at in 0..diags.len() {
        let diag = &diags[at];
        let file = file_name(files, unit, diag.place.file);
        let line = diagnostic_line(alloc, file, diag)?;
        text.extend_from_slice(line.as_bytes())?;
    }
    Ok(text)
}

/// The report on a unit: a line `FILE:LINE:COL: TAG: TEXT` for each diagnostic, in the order given,
/// and a last line `N diagnostics in UNIT`. Each diagnostic's file is
/// an index into `files`; one that is none stands under the unit's own name.
pub fn report_text(
    alloc: Global,
    files: &[String],
    unit: &str,
    diags: &[Diag],
) -> Result<Vec<u8>, Memory>
    ensures { IfOk result (λ b. b.items ≡ report_of (map string_bytes files.now) unit.now diags.now) }
{
    let mut text = diagnostic_lines(alloc, files, unit, diags)?;
    let last = count_line(alloc, diags.len(), unit)?;
    text.extend_from_slice(last.as_bytes())?;
    Ok(text)
}
