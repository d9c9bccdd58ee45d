//! The results of a report, read from its text one by one. What a result says is known is kept, and
//! nothing else.
ghost use Rattle.std.specs.Prelude.{◌≡◌, ◌++◌, ◌<◌, length, take, Some, None, Err, IfOk, OnOk, option_map, option_to_list, unwrap_or, bytes_eq, codes, if◌then◌else◌};
ghost use Rattle.json.specs.Json.{value, items, members};
ghost use Rattle.json.specs.Reads.{token_of};
ghost use Rattle.serde_json.specs.Data.{Data, Items, Members, object, no_items, no_members};
ghost use Rattle.serde_json.specs.Find.{as_array};
ghost use Rattle.serde_json.specs.Read.{of_json, of_items, of_members, converted};
ghost use Rattle.serde_json.specs.View.{view};
ghost use Rattle.sarif.specs.declared.base_fault.BaseFault.TheVariants.{Shape};
ghost use Rattle.sarif.specs.Baselines.{known_of, results_known, run_results, runs_known};
ghost use Rattle.sarif.specs.Streams.{begins_list, begins_object};

use crate::base_fault::BaseFault;
use crate::json_values::{read_value, value_behind};
use crate::known_results::Known;
use crate::single_results::known_of;
use json::{Reader, Token};
use serde_json::Value;
use std::alloc::{AllocError, Global};

/// Whether a token opens an array.
pub fn begins_list(token: Token<'_>) -> bool
    ensures { result ≡ begins_list (token_of token.entry) }
{
    matches!(token, Token::BeginArray)
}

/// Whether a token opens an object.
pub fn begins_object(token: Token<'_>) -> bool
    ensures { result ≡ begins_object (token_of token.entry) }
{
    matches!(token, Token::BeginObject)
}

/// Adds what a result says is known.
fn push_known(alloc: Global, known: &mut Vec<Known>, one: &Value) -> Result<(), AllocError>
    ensures { OnOk result (known.new.items ≡ known.old.items ++ option_to_list (known_of (view one.now))) }
{
    if let Some(entry) = known_of(alloc, one)? {
        known.push(entry)?;
    }
    Ok(())
}

/// Adds what the results of a list say is known, up to the bracket that closes it.
fn push_results(
    alloc: Global,
    known: &mut Vec<Known>,
    reader: &mut Reader<'_>,
    depth: usize,
) -> Result<(), BaseFault>
    ensures ok { OnOk result ((ds : Items)
        × (converted of_items (items (value depth) (length reader.old) reader.old) ≡ Some (ds, reader.new))
        × (known.new.items ≡ known.old.items ++ results_known ds)) }
    ensures shorter { OnOk result (length reader.new < length reader.old) }
    ensures shape { result ≡ Err Shape → converted of_items (items (value depth) (length reader.old) reader.old) ≡ None }
{
    'results: while !reader.take_end_array() {
        let one = read_value(alloc, reader, depth)?;
        push_known(alloc, known, &one)?;
    }
    Ok(())
}

/// Adds what the results of a value say is known, where that is a list.
fn push_result_list(
    alloc: Global,
    known: &mut Vec<Known>,
    reader: &mut Reader<'_>,
    depth: usize,
) -> Result<(), BaseFault>
    ensures ok { OnOk result ((d : Data)
        × (converted of_json (value depth reader.old) ≡ Some (d, reader.new))
        × (known.new.items ≡ known.old.items ++ results_known (unwrap_or (as_array d) no_items))) }
    ensures shorter { OnOk result (length reader.new < length reader.old) }
    ensures shape { result ≡ Err Shape → converted of_json (value depth reader.old) ≡ None }
{
    let token = reader.next().ok_or(BaseFault::Shape)?;
    if !begins_list(token) {
        drop(value_behind(alloc, token, reader, depth)?);
        Ok(())
    } else if depth == 0 {
        Err(BaseFault::Shape)
    } else {
        push_results(alloc, known, reader, depth - 1)
    }
}

/// Adds what a member of a run says is known: where it has the results, what they say in place of
/// what is known from `start` on, since of members of one name the last one counts.
fn push_run_member(
    alloc: Global,
    known: &mut Vec<Known>,
    start: usize,
    key: &str,
    reader: &mut Reader<'_>,
    depth: usize,
) -> Result<(), BaseFault>
    ensures ok { OnOk result ((d : Data)
        × (converted of_json (value depth reader.old) ≡ Some (d, reader.new))
        × (known.new.items ≡ (if bytes_eq key.now (codes "results") then take start known.old.items ++ results_known (unwrap_or (as_array d) no_items) else known.old.items))) }
    ensures shorter { OnOk result (length reader.new < length reader.old) }
    ensures shape { result ≡ Err Shape → converted of_json (value depth reader.old) ≡ None }
{
    if key == "results" {
        known.truncate(start);
        push_result_list(alloc, known, reader, depth)
    } else {
        drop(read_value(alloc, reader, depth)?);
        Ok(())
    }
}

/// Adds what the members of a run say is known, up to the brace that closes it.
fn push_run_members(
    alloc: Global,
    known: &mut Vec<Known>,
    reader: &mut Reader<'_>,
    depth: usize,
) -> Result<(), BaseFault>
    ensures ok { OnOk result ((ms : Members)
        × (converted (λ all. of_members all no_members) (members (value depth) (length reader.old) reader.old) ≡ Some (ms, reader.new))
        × (known.new.items ≡ known.old.items ++ results_known (run_results (object ms)))) }
    ensures shorter { OnOk result (length reader.new < length reader.old) }
    ensures shape { result ≡ Err Shape → converted (λ all. of_members all no_members) (members (value depth) (length reader.old) reader.old) ≡ None }
{
    let start = known.len();
    'members: while let Some(key) = reader.next_key()? {
        push_run_member(alloc, known, start, key, reader, depth)?;
    }
    Ok(())
}

/// Adds what a run says is known.
fn push_run(
    alloc: Global,
    known: &mut Vec<Known>,
    reader: &mut Reader<'_>,
    depth: usize,
) -> Result<(), BaseFault>
    ensures ok { OnOk result ((d : Data)
        × (converted of_json (value depth reader.old) ≡ Some (d, reader.new))
        × (known.new.items ≡ known.old.items ++ results_known (run_results d))) }
    ensures shorter { OnOk result (length reader.new < length reader.old) }
    ensures shape { result ≡ Err Shape → converted of_json (value depth reader.old) ≡ None }
{
    let token = reader.next().ok_or(BaseFault::Shape)?;
    if !begins_object(token) {
        drop(value_behind(alloc, token, reader, depth)?);
        Ok(())
    } else if depth == 0 {
        Err(BaseFault::Shape)
    } else {
        push_run_members(alloc, known, reader, depth - 1)
    }
}

/// Adds what the runs of a list say is known, up to the bracket that closes it.
fn push_runs(
    alloc: Global,
    known: &mut Vec<Known>,
    reader: &mut Reader<'_>,
    depth: usize,
) -> Result<(), BaseFault>
    ensures ok { OnOk result ((ds : Items)
        × (converted of_items (items (value depth) (length reader.old) reader.old) ≡ Some (ds, reader.new))
        × (known.new.items ≡ known.old.items ++ runs_known ds)) }
    ensures shorter { OnOk result (length reader.new < length reader.old) }
    ensures shape { result ≡ Err Shape → converted of_items (items (value depth) (length reader.old) reader.old) ≡ None }
{
    'runs: while !reader.take_end_array() {
        push_run(alloc, known, reader, depth)?;
    }
    Ok(())
}

/// What the runs of a value say is known; nothing where that is no list.
pub fn read_run_list(
    alloc: Global,
    reader: &mut Reader<'_>,
    depth: usize,
) -> Result<Option<Vec<Known>>, BaseFault>
    ensures ok { IfOk result (λ o. (d : Data)
        × (converted of_json (value depth reader.old) ≡ Some (d, reader.new))
        × (option_map (λ v. v.items) o ≡ option_map runs_known (as_array d))) }
    ensures shorter { OnOk result (length reader.new < length reader.old) }
    ensures shape { result ≡ Err Shape → converted of_json (value depth reader.old) ≡ None }
{
    let token = reader.next().ok_or(BaseFault::Shape)?;
    if !begins_list(token) {
        drop(value_behind(alloc, token, reader, depth)?);
        return Ok(None);
    }
    if depth == 0 {
        return Err(BaseFault::Shape);
    }
    let mut known = Vec::new(alloc);
    push_runs(alloc, &mut known, reader, depth - 1)?;
    Ok(Some(known))
}
