//! Reports of other runs and of other producers, read as lists of what is known.
ghost use Rattle.std.specs.Prelude.{◌≡◌, ◌<◌, length, Some, None, Err, IfOk, OnOk, option_map, option_and_then};
ghost use Rattle.json.specs.Json.{value, members};
ghost use Rattle.serde_json.specs.Data.{Data, Members, no_members, put};
ghost use Rattle.serde_json.specs.Read.{of_json, of_members, converted, read};
ghost use Rattle.serde_json.specs.View.{view};
ghost use Rattle.json.specs.Token.{Token as SpecToken};
ghost use Rattle.std.specs.Prelude.{List};
ghost use Rattle.sarif.specs.declared.base_fault.BaseFault.TheVariants.{Shape};
ghost use Rattle.sarif.specs.Baselines.{baseline_of, baseline_read};
ghost use Rattle.sarif.specs.Streams.{is_version, Holds, known_in};

use crate::base_fault::BaseFault;
use crate::json_values::read_value;
use crate::known_results::Known;
use crate::streamed_results::{begins_object, read_run_list};
use json::{Reader, Scratch};
use serde_json::Value;
use std::alloc::Global;

/// How deep arrays and objects of a report may nest.
const MAX_DEPTH: usize = 127;

/// What the members of a report have said.
#[derive(Drop)]
pub(crate) struct Report {
    /// Whether the version is the one that is read.
    is_of_version: bool,
    /// What the runs say is known; nothing where there is no list of them.
    known: Option<Vec<Known>>,
}

/// Whether a value is the version that is read.
fn is_version(version: &Value) -> bool
    ensures { result ≡ is_version (view version.now) }
{
    match version.as_str() {
        Some(text) => text == "2.1.0",
        None => false,
    }
}

/// Whether the next value is the version that is read.
fn read_version(alloc: Global, reader: &mut Reader<'_>, depth: usize) -> Result<bool, BaseFault>
    ensures ok { IfOk result (λ b. (d : Data) × (converted of_json (value depth reader.old) ≡ Some (d, reader.new)) × (b ≡ is_version d)) }
    ensures shorter { OnOk result (length reader.new < length reader.old) }
    ensures shape { result ≡ Err Shape → converted of_json (value depth reader.old) ≡ None }
{
    let version = read_value(alloc, reader, depth)?;
    Ok(is_version(&version))
}

/// Reads a member of a report. Of members of one name the last one counts.
fn read_member(
    alloc: Global,
    report: &mut Report,
    key: &str,
    reader: &mut Reader<'_>,
    depth: usize,
) -> Result<(), BaseFault>
    ensures ok { OnOk result ((d : Data) × (converted of_json (value depth reader.old) ≡ Some (d, reader.new))
        × ((ms : Members) → Holds report.old ms → Holds report.new (put key.now d ms))) }
    ensures shorter { OnOk result (length reader.new < length reader.old) }
    ensures shape { result ≡ Err Shape → converted of_json (value depth reader.old) ≡ None }
{
    if key == "version" {
        report.is_of_version = read_version(alloc, reader, depth)?;
    } else if key == "runs" {
        report.known = read_run_list(alloc, reader, depth)?;
    } else {
        drop(read_value(alloc, reader, depth)?);
    }
    Ok(())
}

/// Reads the members of a report, up to the brace that closes it.
fn read_members(alloc: Global, reader: &mut Reader<'_>, depth: usize) -> Result<Report, BaseFault>
    ensures ok { IfOk result (λ r. (ms : Members)
        × (converted (λ all. of_members all no_members) (members (value depth) (length reader.old) reader.old) ≡ Some (ms, reader.new))
        × Holds r ms) }
    ensures shorter { OnOk result (length reader.new < length reader.old) }
    ensures shape { result ≡ Err Shape → converted (λ all. of_members all no_members) (members (value depth) (length reader.old) reader.old) ≡ None }
{
    let mut report = Report {
        is_of_version: false,
        known: None,
    };
    'members: while let Some(key) = reader.next_key()? {
        read_member(alloc, &mut report, key, reader, depth)?;
    }
    Ok(report)
}

/// Reads a report. `Shape` where there is no value, or one that is no object.
fn read_report(alloc: Global, reader: &mut Reader<'_>, depth: usize) -> Result<Report, BaseFault>
    ensures ok { IfOk result (λ r. (d : Data) × (converted of_json (value depth reader.old) ≡ Some (d, reader.new)) × (known_in r ≡ baseline_of d)) }
    ensures shape { result ≡ Err Shape → (d : Data) → (rest : List SpecToken) → converted of_json (value depth reader.old) ≡ Some (d, rest) → baseline_of d ≡ None }
{
    let token = reader.next().ok_or(BaseFault::Shape)?;
    if !begins_object(token) {
        Err(BaseFault::Shape)
    } else if depth == 0 {
        Err(BaseFault::Shape)
    } else {
        read_members(alloc, reader, depth - 1)
    }
}

/// What a report says is known; `Shape` where it has not the shape of one.
fn known_in(report: Report) -> Result<Vec<Known>, BaseFault>
    ensures ok { IfOk result (λ v. known_in report ≡ Some v.items) }
    ensures shape { result ≡ Err Shape → known_in report ≡ None }
{
    match report.known {
        Some(known) if report.is_of_version => Ok(known),
        _ => Err(BaseFault::Shape),
    }
}

/// What a text says is known.
fn read_text(alloc: Global, text: &str) -> Result<Vec<Known>, BaseFault>
    ensures ok { IfOk result (λ v. option_and_then baseline_of (read text.now) ≡ Some v.items) }
    ensures shape { result ≡ Err Shape → option_and_then baseline_of (read text.now) ≡ None }
{
    let mut scratch = Scratch::new(alloc);
    let mut reader = Reader::new(text, &mut scratch)?;
    let report = read_report(alloc, &mut reader, MAX_DEPTH)?;
    if reader.next().is_some() {
        return Err(BaseFault::Shape);
    }
    known_in(report)
}

/// What a report says is known: the four parts of each result, in order, of every run. A result that
/// lacks one of them is passed over, as is a run without a list of results; further properties are
/// not looked at. `Shape` where the bytes are no JSON object with `version` 2.1.0 and a list `runs`;
/// `Memory` for want of it.
pub fn read_sarif(alloc: Global, bytes: &[u8]) -> Result<Vec<Known>, BaseFault>
    ensures ok { IfOk result (λ v. baseline_read bytes.now ≡ Some v.items) }
    ensures shape { result ≡ Err Shape → baseline_read bytes.now ≡ None }
{
    match str::from_utf8(bytes) {
        Ok(text) => read_text(alloc, text),
        Err(_) => Err(BaseFault::Shape),
    }
}
