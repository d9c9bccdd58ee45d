//! Reading the words of a command line.
ghost use Rattle.std.specs.Prelude.{◌≡◌, false, IfOk, Some, map, string_bytes, codes};
ghost use Rattle.std.specs.Option.{option_map};
ghost use Rattle.clap.specs.Matches.{found_of};
ghost use Rattle.clap.specs.Walk.{rows_of, first_of};
ghost use Rattle.cli_words.specs.Words.Requests.{format_named, turns_named, text_in, texts_in, command_in, gate_in, verify_in, replay_in, command_view, values_in, certificate_verb, asked_in, asked_by, asked_by_kind, is_memory_kind, asked};

use crate::words::clap_command::command;
use crate::words::commands::{Command, Format, Gate, Replay, Request, Verification};
use crate::words::numbers::number_within;
use cc_base::Memory;
use clap::ArgMatches;
use clap::error::ErrorKind;
use std::alloc::{AllocError, Global};

/// The text of a word or an option; it has a default or must stand.
fn text_of<'a>(matches: &ArgMatches<'a>, name: &str) -> &'a str
    ensures { result.now ≡ text_in (rows_of (found_of matches.now)) name.now }
{
    match matches.get_str(name) {
        Some(text) => text,
        None => "",
    }
}

fn format_of(text: &str) -> Option<Format>
    ensures { result ≡ format_named text.now }
{
    if text == "text" {
        Some(Format::Text)
    } else if text == "json" {
        Some(Format::Json)
    } else if text == "sarif" {
        Some(Format::Sarif)
    } else {
        None
    }
}

/// The turns that a number of an option asks for; None where it is out of range.
fn turns_named(text: &str) -> Option<Option<u32>>
    ensures { result ≡ turns_named (Some text.now) }
{
    match number_within(text, 0, 64) {
        Some(turns) => Some(Some(turns)),
        None => None,
    }
}

/// The turns that are asked for, where an option asks for some.
fn turns_of(matches: &ArgMatches) -> Option<Option<u32>>
    ensures { result ≡ turns_named (first_of (codes "turns") (rows_of (found_of matches.now))) }
{
    match matches.get_str("turns") {
        Some(text) => turns_named(text),
        None => Some(None),
    }
}

/// Copies of texts.
fn copied(alloc: Global, names: &[&str]) -> Result<Vec<String>, AllocError>
    ensures { IfOk result (λ v. map string_bytes v.items ≡ map (λ s. s.now) names.now) }
{
    let mut made = Vec::new(alloc);
    for name in names {
        made.push(String::from_str(alloc, name)?)?;
    }
    Ok(made)
}

/// The directories.
fn dirs_of(alloc: Global, matches: &ArgMatches) -> Result<Vec<String>, AllocError>
    ensures { IfOk result (λ v. map string_bytes v.items ≡ texts_in (rows_of (found_of matches.now)) (codes "dirs")) }
{
    match matches.get_strs("dirs") {
        Some(names) => copied(alloc, names),
        None => Ok(Vec::new(alloc)),
    }
}

/// The values that are no plain texts.
#[derive(Clone, Copy)]
struct OptionValues {
    format: Format,
    turns: Option<u32>,
    seed: u32,
    count: u32,
    steps: u32,
}

/// The values that are no plain texts; None where one is out of form.
fn checked_values(matches: &ArgMatches) -> Option<OptionValues>
    ensures { result ≡ values_in (rows_of (found_of matches.now)) }
{
    let format = format_of(text_of(matches, "format"))?;
    let turns = turns_of(matches)?;
    let seed = number_within(text_of(matches, "seed"), 0, 2_147_483_647)?;
    let count = number_within(text_of(matches, "count"), 1, 300)?;
    let steps = number_within(text_of(matches, "steps"), 0, 1_000_000)?;
    Some(OptionValues {
        format,
        turns,
        seed,
        count,
        steps,
    })
}

fn command_of(
    alloc: Global,
    matches: &ArgMatches,
    values: OptionValues,
) -> Result<Command, AllocError>
    ensures { IfOk result (λ c. command_view c ≡ command_in (rows_of (found_of matches.now)) values) }
{
    let unit = String::from_str(alloc, text_of(matches, "unit"))?;
    let model = String::from_str(alloc, text_of(matches, "model"))?;
    let entry = String::from_str(alloc, text_of(matches, "entry"))?;
    let dirs = dirs_of(alloc, matches)?;
    Ok(Command {
        unit,
        dirs,
        model,
        format: values.format,
        entry,
        turns: values.turns,
        seed: values.seed,
        count: values.count,
        steps: values.steps,
    })
}

/// What `gate` asks for; refused where no option names a baseline.
fn gate_of(alloc: Global, matches: &ArgMatches, values: OptionValues) -> Result<Request, AllocError>
    ensures { IfOk result (λ r. asked_by r ≡ gate_in (first_of (codes "base") (rows_of (found_of matches.now))) (command_in (rows_of (found_of matches.now)) values)) }
{
    match matches.get_str("base") {
        Some(name) => Ok(Request::Gate(Gate {
            command: command_of(alloc, matches, values)?,
            base: String::from_str(alloc, name)?,
        })),
        None => Ok(Request::Refused),
    }
}

/// What `verify` asks for; refused where no option names a certificate.
fn verify_of(
    alloc: Global,
    matches: &ArgMatches,
    values: OptionValues,
) -> Result<Request, AllocError>
    ensures { IfOk result (λ r. asked_by r ≡ verify_in (first_of (codes "cert") (rows_of (found_of matches.now))) (command_in (rows_of (found_of matches.now)) values)) }
{
    match matches.get_str("cert") {
        Some(name) => Ok(Request::Verify(Verification {
            command: command_of(alloc, matches, values)?,
            cert: String::from_str(alloc, name)?,
        })),
        None => Ok(Request::Refused),
    }
}

/// What the verbs on certificates ask for.
fn certificate_request(
    alloc: Global,
    matches: &ArgMatches,
    values: OptionValues,
    verb: &str,
) -> Result<Request, AllocError>
    ensures { IfOk result (λ r. asked_by r ≡ certificate_verb verb.now (rows_of (found_of matches.now)) (command_in (rows_of (found_of matches.now)) values)) }
{
    if verb == "prove" {
        Ok(Request::Prove(command_of(alloc, matches, values)?))
    } else if verb == "verify" {
        verify_of(alloc, matches, values)
    } else {
        Ok(Request::Refused)
    }
}

/// The text of an option that may be absent.
fn name_of(alloc: Global, matches: &ArgMatches, name: &str) -> Result<Option<String>, AllocError>
    ensures { IfOk result (λ o. option_map string_bytes o ≡ first_of name.now (rows_of (found_of matches.now))) }
{
    match matches.get_str(name) {
        Some(text) => Ok(Some(String::from_str(alloc, text)?)),
        None => Ok(None),
    }
}

/// What `replay` asks for.
fn replay_of(
    alloc: Global,
    matches: &ArgMatches,
    values: OptionValues,
) -> Result<Request, AllocError>
    ensures { IfOk result (λ r. asked_by r ≡ replay_in (first_of (codes "draws") (rows_of (found_of matches.now))) (command_in (rows_of (found_of matches.now)) values)) }
{
    let command = command_of(alloc, matches, values)?;
    let draws = name_of(alloc, matches, "draws")?;
    Ok(Request::Replay(Replay { command, draws }))
}

fn request_of(alloc: Global, matches: &ArgMatches) -> Result<Request, AllocError>
    ensures { IfOk result (λ r. asked_by r ≡ asked_in (rows_of (found_of matches.now))) }
{
    let Some(values) = checked_values(matches) else {
        return Ok(Request::Refused);
    };
    let verb = text_of(matches, "verb");
    if verb == "check" {
        Ok(Request::Check(command_of(alloc, matches, values)?))
    } else if verb == "load" {
        Ok(Request::Load(command_of(alloc, matches, values)?))
    } else if verb == "gate" {
        gate_of(alloc, matches, values)
    } else if verb == "replay" {
        replay_of(alloc, matches, values)
    } else {
        certificate_request(alloc, matches, values, verb)
    }
}

/// What a fault asks for: to `clap` the words `--help` and `--version` are faults. `Memory` where memory is short.
fn request_of_kind(kind: ErrorKind) -> Result<Request, Memory>
    ensures asked { IfOk result (λ r. asked_by r ≡ asked_by_kind kind) }
    ensures memory { IfOk result (λ _. is_memory_kind kind ≡ false) }
{
    match kind {
        ErrorKind::DisplayHelp => Ok(Request::Help),
        ErrorKind::DisplayVersion => Ok(Request::Version),
        ErrorKind::OutOfMemory => Err(Memory),
        _ => Ok(Request::Refused),
    }
}

/// What the words after the program's name ask for. `Memory` where memory is short.
pub fn read_words(alloc: Global, words: &[String]) -> Result<Request, Memory>
    ensures { IfOk result (λ r. asked_by r ≡ asked (map string_bytes words.now)) }
{
    let line = command(alloc)?;
    match line.try_get_matches_from(words) {
        Ok(matches) => Ok(request_of(alloc, &matches)?),
        Err(error) => request_of_kind(error.kind()),
    }
}
