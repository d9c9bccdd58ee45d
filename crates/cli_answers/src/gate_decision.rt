//! What `gate` answers.
ghost use Rattle.std.specs.Prelude.{◌≡◌, ◌≤◌, ◌⊎◌, IfOk, IsErrOf, true, map, string_bytes};
ghost use Rattle.cc_base.specs.Outside.{Rose};
ghost use Rattle.c_layout.specs.Models.{is_model};
ghost use Rattle.c_preproc.specs.Causes.{seen_of};
ghost use Rattle.cli_words.specs.Words.Requests as request;
ghost use Rattle.cli_words.specs.Words.Requests.{command_view};
ghost use Rattle.cli_answers.specs.Verdicts.{gate_setting, Tells, RefusesBase, AnswersGate, IsVerdict};
ghost use Rattle.cli_answers.specs.Answering.{AnswersOwn};
ghost use Rattle.cli_answers.specs.Gates.{AnswersNew, AnswersGated, AnswersAgainst};

use crate::baseline_files::{Baseline, read_baseline};
use crate::decision::{Halt, not_expanded, status_for, stopped};
use crate::model_choice::{ModelChoice, choose_model};
use c_layout::{Model, Unit7};
use c_preproc::expand;
use cc_base::{Diag, Tree, ordered_diagnostics};
use cli_texts::{Answer, report_text};
use cli_units::{Setting, judge_unit};
use cli_words::words::{Command, Gate};
use sarif::{Known, fresh};
use std::alloc::Global;

/// The report on an accepted unit, without what is known.
fn reported_anew(
    alloc: Global,
    files: &[String],
    unit: &str,
    known: &[Known],
    diags: Vec<Diag>,
) -> Result<Answer, Halt>
    ensures fault { IsErrOf result Halt.ReadFault → ⊥ }
    ensures called { IfOk result (λ a. AnswersNew diags.items known.now (map string_bytes files.now) unit.now a.status a.text.items) }
{
    let listed = ordered_diagnostics(diags);
    let left = fresh(alloc, files, listed.as_slice(), known)?;
    let text = report_text(alloc, files, unit, left.as_slice())?;
    Ok(Answer {
        status: status_for(left.as_slice()),
        text,
    })
}

/// The answer to `gate` on a unit that was expanded, where its baseline is read.
fn gated(
    alloc: Global,
    files: &[String],
    command: &Command,
    known: &[Known],
    unit: &Unit7,
    model: &Model,
) -> Result<Answer, Halt>
    requires proper { is_model model.now ≡ true }
    requires model { unit.now.model ≡ model.now }
    ensures fault { IsErrOf result Halt.ReadFault → ⊥ }
    ensures called { IfOk result (λ a. AnswersOwn (gate_setting (command_view command.now) model.now) unit.now (map string_bytes files.now) (string_bytes command.now.unit) a.status a.text.items ⊎ AnswersGated (gate_setting (command_view command.now) model.now) unit.now known.now (map string_bytes files.now) (string_bytes command.now.unit) a.status a.text.items) }
{
    let name = command.unit.as_str();
    let setting = Setting {
        model,
        entry: command.entry.as_str(),
        turns: None,
    };
    match judge_unit(alloc, unit, setting) {
        Ok(judged) => reported_anew(alloc, files, name, known, judged.diags),
        Err(stop) => stopped(alloc, files, name, unit, setting, stop),
    }
}

/// The answer to `gate` on a unit that was expanded.
fn compared<T: Tree>(
    alloc: Global,
    files: &[String],
    gate: &Gate,
    unit: &Unit7,
    model: &Model,
    tree: &mut T,
) -> Result<Answer, Halt>
    requires proper { is_model model.now ≡ true }
    requires model { unit.now.model ≡ model.now }
    ensures fault { IsErrOf result Halt.ReadFault → Rose (T.faults tree.old) (T.faults tree.new) }
    ensures called { IfOk result (λ a. Tells (RefusesBase (seen_of (T.files tree.old) (T.faults tree.old) (T.faults tree.new) (T.taken tree.old) (T.taken tree.new)) (string_bytes gate.now.base)) a.status a.text.items ⊎ AnswersAgainst (T.files tree.old) (string_bytes gate.now.base) (gate_setting (command_view gate.now.command) model.now) unit.now (map string_bytes files.now) (string_bytes gate.now.command.unit) a.status a.text.items) }
    ensures files { T.files tree.new ≡ T.files tree.old }
    ensures faults { T.faults tree.old ≤ T.faults tree.new }
    ensures taken { T.taken tree.old ≤ T.taken tree.new }
{
    match read_baseline(alloc, gate.base.as_str(), tree)? {
        Baseline::Read(known) => gated(alloc, files, &gate.command, known.as_slice(), unit, model),
        Baseline::Refused(answer) => Ok(answer),
    }
}

/// The answer to `gate` under a model.
fn gate_under<T: Tree>(
    alloc: Global,
    gate: &Gate,
    model: &Model,
    tree: &mut T,
) -> Result<Answer, Halt>
    requires { is_model model.now ≡ true }
    ensures fault { IsErrOf result Halt.ReadFault → Rose (T.faults tree.old) (T.faults tree.new) }
    ensures called { IfOk result (λ a. Tells (AnswersGate (seen_of (T.files tree.old) (T.faults tree.old) (T.faults tree.new) (T.taken tree.old) (T.taken tree.new)) (command_view gate.now.command) (string_bytes gate.now.base) model.now) a.status a.text.items) }
    ensures files { T.files tree.new ≡ T.files tree.old }
    ensures faults { T.faults tree.old ≤ T.faults tree.new }
    ensures taken { T.taken tree.old ≤ T.taken tree.new }
{
    let mut files = Vec::new(alloc);
    let unit = gate.command.unit.as_str();
    let dirs = gate.command.dirs.as_slice();
    match expand(alloc, tree, unit, dirs, model, &mut files) {
        Ok(expanded) => compared(alloc, files.as_slice(), gate, &expanded, model, tree),
        Err(stop) => not_expanded(alloc, files.as_slice(), unit, stop),
    }
}

/// The answer to `gate`.
pub(crate) fn answer_gate<T: Tree>(alloc: Global, gate: &Gate, tree: &mut T) -> Result<Answer, Halt>
    ensures fault { IsErrOf result Halt.ReadFault → Rose (T.faults tree.old) (T.faults tree.new) }
    ensures called { IfOk result (λ a. Tells (IsVerdict (seen_of (T.files tree.old) (T.faults tree.old) (T.faults tree.new) (T.taken tree.old) (T.taken tree.new)) (request.Gate (command_view gate.now.command) (string_bytes gate.now.base))) a.status a.text.items) }
    ensures files { T.files tree.new ≡ T.files tree.old }
    ensures faults { T.faults tree.old ≤ T.faults tree.new }
    ensures taken { T.taken tree.old ≤ T.taken tree.new }
{
    match choose_model(alloc, gate.command.model.as_str(), tree)? {
        ModelChoice::Chosen(model) => gate_under(alloc, gate, &model, tree),
        ModelChoice::Refused(answer) => Ok(answer),
    }
}
