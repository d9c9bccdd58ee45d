//! The command line as `clap` sees it: a verb, a unit, directories and options that take a value.
ghost use Rattle.std.specs.Prelude.{◌≡◌, false, IfOk};
ghost use Rattle.clap.specs.Simple.{app_of};
ghost use Rattle.clap.specs.Walk.{rule_of};
ghost use Rattle.cli_words.specs.Words.CommandLine.{option_rule, optional_rule, word_rule, words_rule, with_words, with_options, with_numbers, with_files, command_app};

use clap::{Arg, ArgAction, Command};
use std::alloc::{AllocError, Global};

/// An option that takes a value, with its default.
fn option<'a>(alloc: Global, name: &'a str, default: &'a str) -> Arg<'a>
    ensures rule { rule_of result ≡ option_rule name.entry.now default.entry.now }
    ensures local { result.global ≡ false }
{
    Arg::new(alloc, name)
        .long(name)
        .action(ArgAction::Set)
        .default_value(default)
}

/// An option that takes a value and has no default.
fn optional<'a>(alloc: Global, name: &'a str) -> Arg<'a>
    ensures rule { rule_of result ≡ optional_rule name.entry.now }
    ensures local { result.global ≡ false }
{
    Arg::new(alloc, name).long(name).action(ArgAction::Set)
}

/// A word that must stand.
fn word<'a>(alloc: Global, name: &'a str) -> Arg<'a>
    ensures rule { rule_of result ≡ word_rule name.entry.now }
    ensures local { result.global ≡ false }
{
    Arg::new(alloc, name).required(true).action(ArgAction::Set)
}

/// Words that may stand, one for each directory.
fn words<'a>(alloc: Global, name: &'a str) -> Arg<'a>
    ensures rule { rule_of result ≡ words_rule name.entry.now }
    ensures local { result.global ≡ false }
{
    Arg::new(alloc, name)
        .num_args(0..)
        .action(ArgAction::Append)
}

/// The three kinds of words without a dash.
fn with_words<'a>(alloc: Global, command: Command<'a>) -> Result<Command<'a>, AllocError>
    ensures { IfOk result (λ c. app_of c ≡ with_words (app_of command.entry)) }
{
    command
        .arg(word(alloc, "verb"))?
        .arg(word(alloc, "unit"))?
        .arg(words(alloc, "dirs"))
}

fn with_options<'a>(alloc: Global, command: Command<'a>) -> Result<Command<'a>, AllocError>
    ensures { IfOk result (λ c. app_of c ≡ with_options (app_of command.entry)) }
{
    command
        .arg(option(alloc, "model", "lp64"))?
        .arg(option(alloc, "format", "text"))?
        .arg(option(alloc, "entry", "main"))
}

fn with_numbers<'a>(alloc: Global, command: Command<'a>) -> Result<Command<'a>, AllocError>
    ensures { IfOk result (λ c. app_of c ≡ with_numbers (app_of command.entry)) }
{
    command
        .arg(option(alloc, "seed", "1"))?
        .arg(option(alloc, "count", "10"))?
        .arg(option(alloc, "steps", "100000"))?
        .arg(optional(alloc, "turns"))
}

/// The options that name a further file.
fn with_files<'a>(alloc: Global, command: Command<'a>) -> Result<Command<'a>, AllocError>
    ensures { IfOk result (λ c. app_of c ≡ with_files (app_of command.entry)) }
{
    command
        .arg(optional(alloc, "base"))?
        .arg(optional(alloc, "cert"))?
        .arg(optional(alloc, "draws"))
}

/// The command line of the program, without the program's own name.
#[tactic(auto, unfolding(crate::specs::Words::CommandLine::command_app))]
pub fn command<'a>(alloc: Global) -> Result<Command<'a>, AllocError>
    ensures { IfOk result (λ c. app_of c ≡ command_app) }
{
    // `--version` is among the words of a command that has a version; the text of it is not printed
    let bare = Command::new(alloc, "ccheck")
        .no_binary_name(true)
        .version("");
    let named = with_words(alloc, bare)?;
    let chosen = with_options(alloc, named)?;
    let counted = with_numbers(alloc, chosen)?;
    with_files(alloc, counted)
}
