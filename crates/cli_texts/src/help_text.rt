//! The text of `--help`.
ghost use Rattle.std.specs.Prelude.{◌≡◌, ◌++◌, IfOk, string_bytes};
ghost use Rattle.cli_texts.specs.HelpTexts.{head, rules_on_text, tail, blanks, is_asked, help_line, help_part, help_parts, help_lines, help_text};

use crate::answers::Answer;
use cc_base::{RULES, Rule};
use std::alloc::{AllocError, Global};

const HEAD: &str = "ccheck: a static analyser for C

Usage: ccheck VERB UNIT [DIR]... [OPTIONS]

UNIT is one C file. Each DIR is a directory that is searched for headers: in
`ccheck check a.c b.c`, b.c is taken for a directory and is not analysed.

Verbs:
  check   analyse UNIT and print the places where it may break a rule
  gate    the same, without the diagnostics that are in the file of --base
  load    make a unit from --seed and --count, analyse it under the name UNIT,
          and print a summary (a benchmark)
  prove   analyse UNIT and print the invariant map as a certificate
  replay  execute one run of UNIT over the inputs of --draws, and print the
          places where it breaks a rule and how it ends
  verify  check the certificate of --cert for UNIT without the solver, and print
          the places where UNIT may break a run-time rule

Options (each at most once; a verb ignores those that it does not use):
  --model NAME_OR_FILE  lp64, ilp32, llp64, or a TOML file with a data model
                        [default: lp64]
  --format FORMAT       text, json or sarif, for check [default: text]
  --entry NAME          the function at which runs begin [default: main]
  --turns K             0 to 64: analyse the first K iterations one by one,
                        counted over all loops, for check [default: none]
  --base FILE           the baseline, a SARIF report; gate needs it
  --cert FILE           the certificate; verify needs it
  --draws FILE          the inputs of a run, for replay: whole numbers between
                        blanks and line ends [default: none]
  --steps N             0 to 1000000: the most steps of a run, for replay
                        [default: 100000]
  --seed N              0 to 2147483647, for load [default: 1]
  --count N             1 to 300, for load [default: 10]
  -h, --help            print this text
  -V, --version         print the version

If the answer is `ccheck: words refused`: the verb is not one of these, UNIT is
missing, an option is unknown, abbreviated, given twice, or its value is missing
or out of range, gate lacks --base, or verify lacks --cert. There are no options
-I, -D, -v and -q.

Run-time rules:
";

const TAIL: &str = "
Status:
  0  accepted, no diagnostic           5  a read failed; nothing is printed
  1  accepted, with diagnostics        6  a write failed
  2  the unit is refused               7  out of memory; nothing is printed
  3  command line or a file refused    8  a limit is exceeded
  4  no such file                      9  the certificate is refused
";

/// The blanks after a tag of so many bytes: tags have up to nine.
fn blanks(count: usize) -> &'static str
    ensures { result.now ≡ blanks count }
{
    match count {
        5 => "      ",
        6 => "     ",
        7 => "    ",
        8 => "   ",
        _ => "  ",
    }
}

fn help_line(alloc: Global, rule: Rule) -> Result<String, AllocError>
    ensures { IfOk result (λ s. string_bytes s ≡ help_line rule) }
{
    let tag = rule.tag();
    let gap = blanks(tag.len());
    let help = rule.help();
    format!(in alloc; "  {tag}{gap}{help}\n")
}

/// Whether a rule is of the kind asked for.
fn is_asked(on_text: bool, rule: Rule) -> bool
    ensures { result ≡ is_asked on_text rule }
{
    if on_text {
        rule.is_on_text()
    } else {
        !rule.is_on_text()
    }
}

/// Adds the line of a rule, where it is of the kind asked for.
fn push_rule(alloc: Global, text: &mut Vec<u8>, on_text: bool, rule: Rule) -> Result<(), AllocError>
    ensures { IfOk result (λ _. text.new.items ≡ text.old.items ++ help_part on_text rule) }
{
    if is_asked(on_text, rule) {
        let line = help_line(alloc, rule)?;
        text.extend_from_slice(line.as_bytes())?;
    }
    Ok(())
}

/// Adds the lines of some rules.
fn push_rules(
    alloc: Global,
    text: &mut Vec<u8>,
    on_text: bool,
    rules: &[Rule],
) -> Result<(), AllocError>
    ensures { IfOk result (λ _. text.new.items ≡ text.old.items ++ help_parts on_text rules.now) }
{
    for rule in rules {
        push_rule(alloc, text, on_text, *rule)?;
    }
    Ok(())
}

/// Adds the lines of all rules of a kind.
#[tactic(auto, unfolding(crate::specs::HelpTexts::help_lines))]
fn push_all_rules(alloc: Global, text: &mut Vec<u8>, on_text: bool) -> Result<(), AllocError>
    ensures { IfOk result (λ _. text.new.items ≡ text.old.items ++ help_lines on_text) }
{
    push_rules(alloc, text, on_text, RULES.as_slice())
}

#[tactic(auto, unfolding(crate::specs::HelpTexts::head))]
fn head() -> &'static str
    ensures { result.now ≡ head }
{
    HEAD
}

#[tactic(auto, unfolding(crate::specs::HelpTexts::rules_on_text))]
fn rules_on_text() -> &'static str
    ensures { result.now ≡ rules_on_text }
{
    "Rules on the text:\n"
}

#[tactic(auto, unfolding(crate::specs::HelpTexts::tail))]
fn tail() -> &'static str
    ensures { result.now ≡ tail }
{
    TAIL
}

fn push_text(text: &mut Vec<u8>, more: &str) -> Result<(), AllocError>
    ensures { IfOk result (λ _. text.new.items ≡ text.old.items ++ more.now) }
{
    text.extend_from_slice(more.as_bytes())
}

/// The text of `--help`.
pub fn help(alloc: Global) -> Result<Answer, AllocError>
    ensures status { IfOk result (λ a. a.status ≡ 0) }
    ensures text { IfOk result (λ a. a.text.items ≡ help_text) }
{
    let mut text = Vec::new(alloc);
    push_text(&mut text, head())?;
    push_all_rules(alloc, &mut text, false)?;
    push_text(&mut text, rules_on_text())?;
    push_all_rules(alloc, &mut text, true)?;
    push_text(&mut text, tail())?;
    Ok(Answer { status: 0, text })
}
