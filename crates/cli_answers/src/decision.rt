//! What the words and the files call for.
ghost use Rattle.std.specs.Prelude.{◌≡◌, ◌≤◌, ◌⊎◌, IfOk, IsErrOf, true, map, string_bytes};
ghost use Rattle.cc_base.specs.Outside.{Rose};
ghost use Rattle.c_layout.specs.Models.{is_model};
ghost use Rattle.c_preproc.specs.Causes.{seen_of};
ghost use Rattle.cli_words.specs.Words.Requests.{asked, command_view, Check, Load};
ghost use Rattle.cli_units.specs.Judging.{judging, judgement, setting_view, StopsUnit};
ghost use Rattle.cli_answers.specs.Verdicts.{load_setting, report_status, report_in, Tells, AnswersUnit, AnswersLoad, RefusesModel, Under, IsVerdict};
ghost use Rattle.cli_answers.specs.Answering.{AnswersFault, AnswersStop, AnswersOwn, AnswersReport, AnswersSummary, AnswersJudged, AnswersMade};
ghost use Rattle.cc_base.specs.declared.refusals.Stop.TheVariants as stops;

use crate::certificate_decision::{answer_prove, answer_verify};
use crate::gate_decision::answer_gate;
use crate::model_choice::{ModelChoice, choose_model};
use crate::replay_decision::answer_replay;
use c_layout::{Model, Unit7};
use c_preproc::{expand, expand_bytes};
use cc_base::{Diag, Fault, Memory, Stop, Tree, ordered_diagnostics};
use cli_texts::{
    Answer, file_name, help, load_unit, no_file, refusal_answer, report_json, report_text, summary,
    version, words_refused,
};
use cli_units::{Judged, Setting, Stage, judge_unit, stage_of};
use cli_words::words::{Command, Format, Request, read_words};
use sarif::write_sarif;
use std::alloc::{AllocError, Global};

/// What ends the work without a text.
#[derive(Clone, Copy, PartialEq, Eq)]
pub(crate) enum Halt {
    ReadFault,
    Memory,
}

impl From<AllocError> for Halt {
    ghost use Rattle.std.specs.Prelude.{◌≡◌};
    ghost use Rattle.cli_answers.specs.declared.decision.Halt.TheVariants as halt;

    ghost from_gives = { λ _ e. e ≡ halt.Memory };

    fn from(_error: AllocError) -> Halt {
        Halt::Memory
    }
}

impl From<Memory> for Halt {
    ghost use Rattle.std.specs.Prelude.{◌≡◌};
    ghost use Rattle.cli_answers.specs.declared.decision.Halt.TheVariants as halt;

    ghost from_gives = { λ _ e. e ≡ halt.Memory };

    fn from(_error: Memory) -> Halt {
        Halt::Memory
    }
}

/// The answer to a refusal.
fn refused(alloc: Global, files: &[String], unit: &str, fault: &Fault) -> Result<Answer, Halt>
    ensures fault { IsErrOf result Halt.ReadFault → ⊥ }
    ensures called { IfOk result (λ a. AnswersFault (map string_bytes files.now) unit.now fault.now a.status a.text.items) }
{
    let name = file_name(files, unit, fault.place.file);
    Ok(refusal_answer(alloc, name, fault)?)
}

/// The answer where the work behind the expansion stopped.
pub(crate) fn stopped(
    alloc: Global,
    files: &[String],
    unit: &str,
    expanded: &Unit7,
    setting: Setting,
    stop: Stop,
) -> Result<Answer, Halt>
    requires { StopsUnit expanded.now (setting_view setting) stop }
    ensures fault { IsErrOf result Halt.ReadFault → ⊥ }
    ensures called { IfOk result (λ a. AnswersOwn (setting_view setting.entry) expanded.now (map string_bytes files.now) unit.now a.status a.text.items) }
{
    match stop {
        Stop::Refused(fault) => refused(alloc, files, unit, &fault),
        Stop::NotHeld | Stop::ReadFault | Stop::Memory => Err(Halt::Memory),
    }
}

/// The answer where the expansion stopped. A refusal of a later stage is none of its own.
pub(crate) fn not_expanded(
    alloc: Global,
    files: &[String],
    unit: &str,
    stop: Stop,
) -> Result<Answer, Halt>
    ensures fault { IsErrOf result Halt.ReadFault → stop ≡ stops.ReadFault }
    ensures called { IfOk result (λ a. AnswersStop (map string_bytes files.now) unit.now stop a.status a.text.items) }
{
    match stop {
        Stop::Refused(fault) => match stage_of(&fault.refusal) {
            Stage::Expansion => refused(alloc, files, unit, &fault),
            Stage::Numbers => refused(alloc, files, unit, &fault),
            Stage::Grammar => Err(Halt::Memory),
            Stage::Typing => Err(Halt::Memory),
            Stage::Counting => Err(Halt::Memory),
        },
        Stop::NotHeld => Ok(no_file(alloc, unit)?),
        Stop::ReadFault => Err(Halt::ReadFault),
        Stop::Memory => Err(Halt::Memory),
    }
}

/// 1 where there is a diagnostic.
pub(crate) fn status_for(diags: &[Diag]) -> u8
    ensures { result ≡ report_status diags.now }
{
    match diags {
        [] => 0,
        [_, ..] => 1,
    }
}

/// The text of a report.
fn report(
    alloc: Global,
    format: Format,
    files: &[String],
    unit: &str,
    diags: &[Diag],
) -> Result<Vec<u8>, Memory>
    ensures { IfOk result (λ b. b.items ≡ report_in format (map string_bytes files.now) unit.now diags.now) }
{
    match format {
        Format::Text => report_text(alloc, files, unit, diags),
        Format::Json => report_json(alloc, files, unit, diags),
        Format::Sarif => write_sarif(alloc, files, diags),
    }
}

/// The report on an accepted unit.
fn reported(
    alloc: Global,
    files: &[String],
    format: Format,
    unit: &str,
    diags: Vec<Diag>,
) -> Result<Answer, Halt>
    ensures fault { IsErrOf result Halt.ReadFault → ⊥ }
    ensures called { IfOk result (λ a. AnswersReport diags.items format (map string_bytes files.now) unit.now a.status a.text.items) }
{
    let listed = ordered_diagnostics(diags);
    let text = report(alloc, format, files, unit, listed.as_slice())?;
    Ok(Answer {
        status: status_for(listed.as_slice()),
        text,
    })
}

/// The answer to `check` on a unit that was expanded.
fn checked(
    alloc: Global,
    files: &[String],
    command: &Command,
    unit: &Unit7,
    model: &Model,
) -> Result<Answer, Halt>
    requires proper { is_model model.now ≡ true }
    requires model { unit.now.model ≡ model.now }
    ensures fault { IsErrOf result Halt.ReadFault → ⊥ }
    ensures called { IfOk result (λ a. AnswersOwn (judging model.now (string_bytes command.now.entry) command.now.turns) unit.now (map string_bytes files.now) (string_bytes command.now.unit) a.status a.text.items ⊎ AnswersJudged (judging model.now (string_bytes command.now.entry) command.now.turns) unit.now command.now.format (map string_bytes files.now) (string_bytes command.now.unit) a.status a.text.items) }
{
    let name = command.unit.as_str();
    let setting = Setting {
        model,
        entry: command.entry.as_str(),
        turns: command.turns,
    };
    match judge_unit(alloc, unit, setting) {
        Ok(judged) => reported(alloc, files, command.format, name, judged.diags),
        Err(stop) => stopped(alloc, files, name, unit, setting, stop),
    }
}

/// The answer to `check` under a model.
fn check_under<T: Tree>(
    alloc: Global,
    command: &Command,
    model: &Model,
    tree: &mut T,
) -> Result<Answer, Halt>
    requires { is_model model.now ≡ true }
    ensures fault { IsErrOf result Halt.ReadFault → Rose (T.faults tree.old) (T.faults tree.new) }
    ensures called { IfOk result (λ a. Tells (AnswersUnit (seen_of (T.files tree.old) (T.faults tree.old) (T.faults tree.new) (T.taken tree.old) (T.taken tree.new)) (command_view command.now) model.now) a.status a.text.items) }
    ensures files { T.files tree.new ≡ T.files tree.old }
    ensures faults { T.faults tree.old ≤ T.faults tree.new }
    ensures taken { T.taken tree.old ≤ T.taken tree.new }
{
    let mut files = Vec::new(alloc);
    let unit = command.unit.as_str();
    match expand(
        alloc,
        tree,
        unit,
        command.dirs.as_slice(),
        model,
        &mut files,
    ) {
        Ok(expanded) => checked(alloc, files.as_slice(), command, &expanded, model),
        Err(stop) => not_expanded(alloc, files.as_slice(), unit, stop),
    }
}

/// The answer to `check`.
fn answer_check<T: Tree>(alloc: Global, command: &Command, tree: &mut T) -> Result<Answer, Halt>
    ensures fault { IsErrOf result Halt.ReadFault → Rose (T.faults tree.old) (T.faults tree.new) }
    ensures called { IfOk result (λ a. Tells (IsVerdict (seen_of (T.files tree.old) (T.faults tree.old) (T.faults tree.new) (T.taken tree.old) (T.taken tree.new)) (Check (command_view command.now))) a.status a.text.items) }
    ensures files { T.files tree.new ≡ T.files tree.old }
    ensures faults { T.faults tree.old ≤ T.faults tree.new }
    ensures taken { T.taken tree.old ≤ T.taken tree.new }
{
    match choose_model(alloc, command.model.as_str(), tree)? {
        ModelChoice::Chosen(model) => check_under(alloc, command, &model, tree),
        ModelChoice::Refused(answer) => Ok(answer),
    }
}

/// The summary on an accepted unit.
fn summarised(alloc: Global, unit: &str, judged: Judged) -> Result<Answer, Halt>
    ensures fault { IsErrOf result Halt.ReadFault → ⊥ }
    ensures called { IfOk result (λ a. AnswersSummary (judgement judged) unit.now a.status a.text.items) }
{
    let bases = judged.bases;
    let cells = judged.cells;
    let listed = ordered_diagnostics(judged.diags);
    let text = summary(alloc, unit, bases, cells, listed.as_slice())?;
    Ok(Answer {
        status: status_for(listed.as_slice()),
        text,
    })
}

/// The answer to `load` on a unit that was expanded.
fn loaded(
    alloc: Global,
    files: &[String],
    name: &str,
    unit: &Unit7,
    model: &Model,
) -> Result<Answer, Halt>
    requires proper { is_model model.now ≡ true }
    requires model { unit.now.model ≡ model.now }
    ensures fault { IsErrOf result Halt.ReadFault → ⊥ }
    ensures called { IfOk result (λ a. AnswersOwn (load_setting model.now) unit.now (map string_bytes files.now) name.now a.status a.text.items ⊎ AnswersMade (load_setting model.now) unit.now name.now a.status a.text.items) }
{
    let setting = Setting {
        model,
        entry: "main",
        turns: None,
    };
    match judge_unit(alloc, unit, setting) {
        Ok(judged) => summarised(alloc, name, judged),
        Err(stop) => stopped(alloc, files, name, unit, setting, stop),
    }
}

/// The answer to `load` under a model.
fn load_under<T: Tree>(
    alloc: Global,
    command: &Command,
    model: &Model,
    tree: &mut T,
) -> Result<Answer, Halt>
    requires { is_model model.now ≡ true }
    ensures fault { IsErrOf result Halt.ReadFault → Rose (T.faults tree.old) (T.faults tree.new) }
    ensures called { IfOk result (λ a. Tells (AnswersLoad (seen_of (T.files tree.old) (T.faults tree.old) (T.faults tree.new) (T.taken tree.old) (T.taken tree.new)) (command_view command.now) model.now) a.status a.text.items) }
    ensures files { T.files tree.new ≡ T.files tree.old }
    ensures faults { T.faults tree.old ≤ T.faults tree.new }
    ensures taken { T.taken tree.old ≤ T.taken tree.new }
{
    let bytes = load_unit(alloc, command.seed, command.count)?;
    if bytes.len() > 1_048_576 {
        return Err(Halt::Memory);
    }
    let mut files = Vec::new(alloc);
    let unit = command.unit.as_str();
    match expand_bytes(alloc, tree, unit, bytes.as_slice(), &[], model, &mut files) {
        Ok(expanded) => loaded(alloc, files.as_slice(), unit, &expanded, model),
        Err(stop) => not_expanded(alloc, files.as_slice(), unit, stop),
    }
}

/// The answer to `load`.
fn answer_load<T: Tree>(alloc: Global, command: &Command, tree: &mut T) -> Result<Answer, Halt>
    ensures fault { IsErrOf result Halt.ReadFault → Rose (T.faults tree.old) (T.faults tree.new) }
    ensures called { IfOk result (λ a. Tells (IsVerdict (seen_of (T.files tree.old) (T.faults tree.old) (T.faults tree.new) (T.taken tree.old) (T.taken tree.new)) (Load (command_view command.now))) a.status a.text.items) }
    ensures files { T.files tree.new ≡ T.files tree.old }
    ensures faults { T.faults tree.old ≤ T.faults tree.new }
    ensures taken { T.taken tree.old ≤ T.taken tree.new }
{
    match choose_model(alloc, command.model.as_str(), tree)? {
        ModelChoice::Chosen(model) => load_under(alloc, command, &model, tree),
        ModelChoice::Refused(answer) => Ok(answer),
    }
}

/// What the words and the tree call for. On a read fault the tree's faults rose.
pub(crate) fn decide<T: Tree>(alloc: Global, words: &[String], tree: &mut T) -> Result<Answer, Halt>
    ensures fault { IsErrOf result Halt.ReadFault → Rose (T.faults tree.old) (T.faults tree.new) }
    ensures called { IfOk result (λ a. Tells (IsVerdict (seen_of (T.files tree.old) (T.faults tree.old) (T.faults tree.new) (T.taken tree.old) (T.taken tree.new)) (asked (map string_bytes words.now))) a.status a.text.items) }
    ensures files { T.files tree.new ≡ T.files tree.old }
    ensures faults { T.faults tree.old ≤ T.faults tree.new }
    ensures taken { T.taken tree.old ≤ T.taken tree.new }
{
    match read_words(alloc, words)? {
        Request::Help => Ok(help(alloc)?),
        Request::Version => Ok(version(alloc)?),
        Request::Refused => Ok(words_refused(alloc)?),
        Request::Check(command) => answer_check(alloc, &command, tree),
        Request::Load(command) => answer_load(alloc, &command, tree),
        Request::Gate(gate) => answer_gate(alloc, &gate, tree),
        Request::Prove(command) => answer_prove(alloc, &command, tree),
        Request::Verify(asked) => answer_verify(alloc, &asked, tree),
        Request::Replay(asked) => answer_replay(alloc, &asked, tree),
    }
}
