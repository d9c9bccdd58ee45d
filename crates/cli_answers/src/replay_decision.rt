//! What `replay` answers.
ghost use Rattle.std.specs.Prelude.{◌≡◌, ◌≤◌, ◌⊎◌, IfOk, IsErrOf, true, map, string_bytes};
ghost use Rattle.std.specs.Option.{option_map};
ghost use Rattle.cc_base.specs.Outside.{Rose};
ghost use Rattle.c_layout.specs.Models.{is_model};
ghost use Rattle.c_preproc.specs.Causes.{seen_of};
ghost use Rattle.interp.specs.Runs.OutcomeViews.{end_view};
ghost use Rattle.cli_words.specs.Words.Requests as request;
ghost use Rattle.cli_words.specs.Words.Requests.{command_view};
ghost use Rattle.cli_units.specs.Replaying.{end_word, run_answer, ran};
ghost use Rattle.cli_answers.specs.Verdicts.{replay_setting, Tells, RefusesDraws, AnswersReplay, IsVerdict};
ghost use Rattle.cli_answers.specs.Answering.{AnswersOwn};
ghost use Rattle.cli_answers.specs.RunAnswers.{AnswersEnd, AnswersRan, AnswersOver};

use crate::decision::{Halt, not_expanded, status_for, stopped};
use crate::draws_files::{Draws, choose_draws};
use crate::model_choice::{ModelChoice, choose_model};
use c_layout::{Model, Unit7};
use c_preproc::expand;
use cc_base::Tree;
use cli_texts::{Answer, file_name, replay_memory, replay_text};
use cli_units::{Replayed, Setting, replay_unit};
use cli_words::words::Replay;
use interp::runs::{End, Outcome};
use std::alloc::Global;

/// How a run stands, in words.
fn end_word(end: End) -> &'static str
    ensures { result.now ≡ end_word (end_view end) }
{
    match end {
        End::Ended => "ended",
        End::Violation => "violation",
        End::Draws => "draws",
        End::Left => "left",
        End::Steps => "steps",
    }
}

/// The report on a run.
fn told(alloc: Global, files: &[String], unit: &str, outcome: &Outcome) -> Result<Answer, Halt>
    ensures fault { IsErrOf result Halt.ReadFault → ⊥ }
    ensures called { IfOk result (λ a. AnswersEnd (ran outcome.now) (map string_bytes files.now) unit.now a.status a.text.items) }
{
    let diags = outcome.diags.as_slice();
    let end = end_word(outcome.end);
    let text = replay_text(alloc, files, unit, diags, end, outcome.used)?;
    Ok(Answer {
        status: status_for(diags),
        text,
    })
}

/// The answer to what a run comes to.
fn answer_run(
    alloc: Global,
    files: &[String],
    unit: &str,
    replayed: Replayed,
) -> Result<Answer, Halt>
    ensures fault { IsErrOf result Halt.ReadFault → ⊥ }
    ensures called { IfOk result (λ a. AnswersEnd (run_answer replayed) (map string_bytes files.now) unit.now a.status a.text.items) }
{
    match replayed {
        Replayed::Ran(outcome) => told(alloc, files, unit, &outcome),
        Replayed::Large {
            place,
            count,
            limit,
        } => {
            let name = file_name(files, unit, place.file);
            Ok(replay_memory(alloc, name, place, count, limit)?)
        }
    }
}

/// The answer to `replay` on a unit that was expanded, where the draws of its run are had.
fn replayed(
    alloc: Global,
    files: &[String],
    asked: &Replay,
    draws: &[i128],
    unit: &Unit7,
    model: &Model,
) -> Result<Answer, Halt>
    requires proper { is_model model.now ≡ true }
    requires model { unit.now.model ≡ model.now }
    requires steps { asked.now.command.steps ≤ 1000000 }
    ensures fault { IsErrOf result Halt.ReadFault → ⊥ }
    ensures called { IfOk result (λ a. AnswersOwn (replay_setting (command_view asked.now.command) model.now) unit.now (map string_bytes files.now) (string_bytes asked.now.command.unit) a.status a.text.items ⊎ AnswersRan (replay_setting (command_view asked.now.command) model.now) unit.now draws.now asked.now.command.steps (map string_bytes files.now) (string_bytes asked.now.command.unit) a.status a.text.items) }
{
    let name = asked.command.unit.as_str();
    let setting = Setting {
        model,
        entry: asked.command.entry.as_str(),
        turns: None,
    };
    match replay_unit(alloc, unit, setting, draws, u64::from(asked.command.steps)) {
        Ok(replayed) => answer_run(alloc, files, name, replayed),
        Err(stop) => stopped(alloc, files, name, unit, setting, stop),
    }
}

/// The answer to `replay` on a unit that was expanded.
fn run_over_draws<T: Tree>(
    alloc: Global,
    files: &[String],
    asked: &Replay,
    unit: &Unit7,
    model: &Model,
    tree: &mut T,
) -> Result<Answer, Halt>
    requires proper { is_model model.now ≡ true }
    requires model { unit.now.model ≡ model.now }
    requires steps { asked.now.command.steps ≤ 1000000 }
    ensures fault { IsErrOf result Halt.ReadFault → Rose (T.faults tree.old) (T.faults tree.new) }
    ensures called { IfOk result (λ a. Tells (RefusesDraws (seen_of (T.files tree.old) (T.faults tree.old) (T.faults tree.new) (T.taken tree.old) (T.taken tree.new)) (option_map string_bytes asked.now.draws)) a.status a.text.items ⊎ AnswersOver (T.files tree.old) (option_map string_bytes asked.now.draws) (replay_setting (command_view asked.now.command) model.now) unit.now asked.now.command.steps (map string_bytes files.now) (string_bytes asked.now.command.unit) a.status a.text.items) }
    ensures files { T.files tree.new ≡ T.files tree.old }
    ensures faults { T.faults tree.old ≤ T.faults tree.new }
    ensures taken { T.taken tree.old ≤ T.taken tree.new }
{
    match choose_draws(alloc, &asked.draws, tree)? {
        Draws::Read(draws) => replayed(alloc, files, asked, draws.as_slice(), unit, model),
        Draws::Refused(answer) => Ok(answer),
    }
}

/// The answer to `replay` under a model.
fn replay_under<T: Tree>(
    alloc: Global,
    asked: &Replay,
    model: &Model,
    tree: &mut T,
) -> Result<Answer, Halt>
    requires model { is_model model.now ≡ true }
    requires steps { asked.now.command.steps ≤ 1000000 }
    ensures fault { IsErrOf result Halt.ReadFault → Rose (T.faults tree.old) (T.faults tree.new) }
    ensures called { IfOk result (λ a. Tells (AnswersReplay (seen_of (T.files tree.old) (T.faults tree.old) (T.faults tree.new) (T.taken tree.old) (T.taken tree.new)) (command_view asked.now.command) (option_map string_bytes asked.now.draws) model.now) a.status a.text.items) }
    ensures files { T.files tree.new ≡ T.files tree.old }
    ensures faults { T.faults tree.old ≤ T.faults tree.new }
    ensures taken { T.taken tree.old ≤ T.taken tree.new }
{
    let mut files = Vec::new(alloc);
    let unit = asked.command.unit.as_str();
    let dirs = asked.command.dirs.as_slice();
    match expand(alloc, tree, unit, dirs, model, &mut files) {
        Ok(expanded) => run_over_draws(alloc, files.as_slice(), asked, &expanded, model, tree),
        Err(stop) => not_expanded(alloc, files.as_slice(), unit, stop),
    }
}

/// The answer to `replay`.
pub(crate) fn answer_replay<T: Tree>(
    alloc: Global,
    asked: &Replay,
    tree: &mut T,
) -> Result<Answer, Halt>
    requires { asked.now.command.steps ≤ 1000000 }
    ensures fault { IsErrOf result Halt.ReadFault → Rose (T.faults tree.old) (T.faults tree.new) }
    ensures called { IfOk result (λ a. Tells (IsVerdict (seen_of (T.files tree.old) (T.faults tree.old) (T.faults tree.new) (T.taken tree.old) (T.taken tree.new)) (request.Replay (command_view asked.now.command) (option_map string_bytes asked.now.draws))) a.status a.text.items) }
    ensures files { T.files tree.new ≡ T.files tree.old }
    ensures faults { T.faults tree.old ≤ T.faults tree.new }
    ensures taken { T.taken tree.old ≤ T.taken tree.new }
{
    match choose_model(alloc, asked.command.model.as_str(), tree)? {
        ModelChoice::Chosen(model) => replay_under(alloc, asked, &model, tree),
        ModelChoice::Refused(answer) => Ok(answer),
    }
}
