//! The report as JSON.
ghost use Rattle.std.specs.Prelude.{◌≡◌, ◌++◌, false, IfOk, map, string_bytes, codes};
ghost use Rattle.serde_json.specs.View.{view};
ghost use Rattle.serde_json.specs.Written.{compact_text, has_float};
ghost use Rattle.cli_texts.specs.JsonReports.{diagnostic_data, diagnostics_data, report_data, json_of};

use crate::text_report::file_name;
use cc_base::{Diag, Memory};
use serde_json::{Value, json};
use std::alloc::{AllocError, Global};

/// The object of a diagnostic.
fn diagnostic_value(alloc: Global, file: &str, diag: &Diag) -> Result<Value, AllocError>
    ensures { IfOk result (λ v. view v ≡ diagnostic_data file.now diag.now) }
{
    let line = diag.place.line;
    let column = diag.place.col;
    let rule = diag.rule.tag();
    let text = diag.rule.text();
    json!(in alloc; {"column": column, "file": file, "line": line, "rule": rule, "text": text})
}

/// The objects of the diagnostics, in order.
fn diagnostic_values(
    alloc: Global,
    files: &[String],
    unit: &str,
    diags: &[Diag],
) -> Result<Vec<Value>, AllocError>
    ensures { IfOk result (λ v. map view v.items ≡ diagnostics_data (map string_bytes files.now) unit.now diags.now) }
{
    let mut values = Vec::new(alloc);
    for at in 0..diags.len() {
        let diag = &diags[at];
        let file = file_name(files, unit, diag.place.file);
        let value = diagnostic_value(alloc, file, diag)?;
        values.push(value)?;
    }
    Ok(values)
}

/// The object of a report.
fn report_object(alloc: Global, unit: &str, values: Vec<Value>) -> Result<Value, AllocError>
    ensures { IfOk result (λ v. view v ≡ report_data unit.now (map view values.items)) }
{
    json!(in alloc; {"diagnostics": values, "unit": unit})
}

/// The object of a report on diagnostics.
fn report_value(
    alloc: Global,
    files: &[String],
    unit: &str,
    diags: &[Diag],
) -> Result<Value, AllocError>
    ensures { IfOk result (λ v. view v ≡ report_data unit.now (diagnostics_data (map string_bytes files.now) unit.now diags.now)) }
{
    let values = diagnostic_values(alloc, files, unit, diags)?;
    report_object(alloc, unit, values)
}

/// The line of a value without fractions.
fn line_of(alloc: Global, value: &Value) -> Result<Vec<u8>, AllocError>
    requires { has_float (view value.now) ≡ false }
    ensures { IfOk result (λ b. b.items ≡ compact_text (view value.now) ++ codes "\n") }
{
    let line = value.to_string(alloc)?;
    let mut text = Vec::from_slice(alloc, line.as_bytes())?;
    text.push(b'\n')?;
    Ok(text)
}

/// The report on a unit as one line of JSON: an object with the list `diagnostics`, in the order
/// given, and the name `unit`. Each diagnostic is an object of `column`, `file`, `line`, `rule` and
/// `text`. Each diagnostic's file is an index into `files`; one that is none stands under the
/// unit's own name.
pub fn report_json(
    alloc: Global,
    files: &[String],
    unit: &str,
    diags: &[Diag],
) -> Result<Vec<u8>, Memory>
    ensures { IfOk result (λ b. b.items ≡ json_of (map string_bytes files.now) unit.now diags.now) }
{
    let report = report_value(alloc, files, unit, diags)?;
    Ok(line_of(alloc, &report)?)
}
