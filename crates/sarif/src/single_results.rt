//! What a single result of a report says is known.
ghost use Rattle.std.specs.Prelude.{◌≡◌, IfOk, option_map};
ghost use Rattle.serde_json.specs.View.{view};
ghost use Rattle.sarif.specs.Baselines.{text_at, position, position_at, location_of, uri_at, file_at, region_position, rule_of, known_from, known_at, known_of};

use crate::known_results::Known;
use crate::uris::file_of_uri;
use cc_base::{Rule, Text};
use serde_json::Value;
use std::alloc::{AllocError, Global};

/// The text at a key.
fn text_at<'v>(value: &'v Value, key: &str) -> Option<&'v str>
    ensures { option_map (λ s. s.now) result ≡ text_at key.now (view value.now) }
{
    value.get(key).and_then(Value::as_str)
}

/// A line or a column.
fn position(number: u64) -> Option<u64>
    ensures { result ≡ position number }
{
    if 1 <= number && number <= u64::from(u32::MAX) {
        Some(number)
    } else {
        None
    }
}

/// The line or the column at a key.
fn position_at(value: &Value, key: &str) -> Option<u64>
    ensures { result ≡ position_at key.now (view value.now) }
{
    let number = value.get(key).and_then(Value::as_u64)?;
    position(number)
}

/// The first location of a result.
fn location_of(value: &Value) -> Option<&Value>
    ensures { option_map (λ v. view v.now) result ≡ location_of (view value.now) }
{
    let locations = value.get("locations")?;
    let first = locations.get(0usize)?;
    first.get("physicalLocation")
}

/// The uri of a location.
fn uri_at(location: &Value) -> Option<&str>
    ensures { option_map (λ s. s.now) result ≡ uri_at (view location.now) }
{
    let artifact = location.get("artifactLocation")?;
    text_at(artifact, "uri")
}

/// The line or the column of a location.
fn region_position(location: &Value, key: &str) -> Option<u64>
    ensures { result ≡ region_position key.now (view location.now) }
{
    let region = location.get("region")?;
    position_at(region, key)
}

/// The name of the file of a location.
fn file_at(alloc: Global, location: &Value) -> Result<Option<Text>, AllocError>
    ensures { IfOk result (λ o. o ≡ file_at (view location.now)) }
{
    match uri_at(location) {
        Some(uri) => file_of_uri(alloc, uri),
        None => Ok(None),
    }
}

/// The rule of a result.
fn rule_of(value: &Value) -> Option<Rule>
    ensures { result ≡ rule_of (view value.now) }
{
    let tag = text_at(value, "ruleId")?;
    Rule::tagged(tag)
}

/// All four parts, or nothing.
fn known_from(
    file: Option<Text>,
    line: Option<u64>,
    col: Option<u64>,
    rule: Option<Rule>,
) -> Option<Known>
    ensures { result ≡ known_from file line col rule }
{
    match (file, line, col, rule) {
        (Some(file), Some(line), Some(col), Some(rule)) => Some(Known {
            file,
            line,
            col,
            rule,
        }),
        _ => None,
    }
}

/// What a result at a location says is known.
fn known_at(
    alloc: Global,
    location: &Value,
    rule: Option<Rule>,
) -> Result<Option<Known>, AllocError>
    ensures { IfOk result (λ o. o ≡ known_at (view location.now) rule) }
{
    let file = file_at(alloc, location)?;
    let line = region_position(location, "startLine");
    let col = region_position(location, "startColumn");
    Ok(known_from(file, line, col, rule))
}

/// What a result says is known; nothing where it is passed over.
pub fn known_of(alloc: Global, value: &Value) -> Result<Option<Known>, AllocError>
    ensures { IfOk result (λ o. o ≡ known_of (view value.now)) }
{
    match location_of(value) {
        Some(location) => known_at(alloc, location, rule_of(value)),
        None => Ok(None),
    }
}
