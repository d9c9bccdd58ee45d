//! The report as SARIF.
ghost use Rattle.std.specs.Prelude.{◌≡◌, ◌++◌, false, IfOk, map, string_bytes, codes};
ghost use Rattle.serde_json.specs.View.{view};
ghost use Rattle.serde_json.specs.Written.{compact_text, has_float};
ghost use Rattle.sarif.specs.Reports.{name_of, location_data, result_data, diagnostic_data, results_data, run_data, report_data, sarif_of};

use crate::uris::uri_of;
use cc_base::{Diag, Memory, Place};
use serde_json::{Value, json};
use std::alloc::{AllocError, Global};

/// The name of a file of the unit; no bytes where the list has none.
fn name_of(files: &[String], file: u32) -> &[u8]
    ensures { result.now ≡ name_of (map string_bytes files.now) file }
{
    match files.get(file as usize) {
        Some(name) => name.as_bytes(),
        None => &[],
    }
}

/// The location of a place in a file.
fn location_value(alloc: Global, uri: String, place: Place) -> Result<Value, AllocError>
    ensures { IfOk result (λ v. view v ≡ location_data (string_bytes uri) place) }
{
    let line = place.line;
    let column = place.col;
    json!(in alloc; {"physicalLocation": {"artifactLocation": {"uri": uri}, "region": {"startColumn": column, "startLine": line}}})
}

/// The result of a diagnostic.
fn result_value(alloc: Global, uri: String, diag: &Diag) -> Result<Value, AllocError>
    ensures { IfOk result (λ v. view v ≡ result_data (string_bytes uri) diag.now) }
{
    let location = location_value(alloc, uri, diag.place)?;
    let text = diag.rule.text();
    let rule = diag.rule.tag();
    json!(in alloc; {"locations": [location], "message": {"text": text}, "ruleId": rule})
}

/// The result of a diagnostic of a unit with these files.
fn diagnostic_value(alloc: Global, files: &[String], diag: &Diag) -> Result<Value, AllocError>
    ensures { IfOk result (λ v. view v ≡ diagnostic_data (map string_bytes files.now) diag.now) }
{
    let uri = uri_of(alloc, name_of(files, diag.place.file))?;
    result_value(alloc, uri, diag)
}

/// The results of the diagnostics, in order.
fn result_values(alloc: Global, files: &[String], diags: &[Diag]) -> Result<Vec<Value>, AllocError>
    ensures { IfOk result (λ v. map view v.items ≡ results_data (map string_bytes files.now) diags.now) }
{
    let mut values = Vec::new(alloc);
    for at in 0..diags.len() {
        let diag = &diags[at];
        let value = diagnostic_value(alloc, files, diag)?;
        values.push(value)?;
    }
    Ok(values)
}

/// The run that has these results.
fn run_value(alloc: Global, results: Vec<Value>) -> Result<Value, AllocError>
    ensures { IfOk result (λ v. view v ≡ run_data (map view results.items)) }
{
    json!(in alloc; {"results": results, "tool": {"driver": {"name": "ccheck"}}})
}

/// The report that has these results.
fn report_value(alloc: Global, results: Vec<Value>) -> Result<Value, AllocError>
    ensures { IfOk result (λ v. view v ≡ report_data (map view results.items)) }
{
    let run = run_value(alloc, results)?;
    json!(in alloc; {"runs": [run], "version": "2.1.0"})
}

/// The line of a value without fractions.
fn line_of(alloc: Global, value: &Value) -> Result<Vec<u8>, AllocError>
    requires { has_float (view value.now) ≡ false }
    ensures { IfOk result (λ b. b.items ≡ compact_text (view value.now) ++ codes "\n") }
{
    let line = value.to_string(alloc)?;
    let mut text = Vec::from_slice(alloc, line.as_bytes())?;
    text.push(b'\n')?;
    Ok(text)
}

/// The report on a unit as one line of SARIF 2.1.0: one run, with a result for each diagnostic, in the
/// order given. A result has the tag of its rule as `ruleId`, the rule's text as `message`, and one
/// location, with the file's name as a uri, the line, and the column as a count of bytes. Each
/// diagnostic's file is an index into `files`; one that is none has an empty uri.
pub fn write_sarif(alloc: Global, files: &[String], diags: &[Diag]) -> Result<Vec<u8>, Memory>
    ensures { IfOk result (λ b. b.items ≡ sarif_of (map string_bytes files.now) diags.now) }
{
    let results = result_values(alloc, files, diags)?;
    let report = report_value(alloc, results)?;
    Ok(line_of(alloc, &report)?)
}
