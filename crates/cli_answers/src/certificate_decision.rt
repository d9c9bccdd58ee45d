//! What `prove` and `verify` answer.
ghost use Rattle.std.specs.Prelude.{◌≡◌, ◌≤◌, ◌⊎◌, IfOk, IsErrOf, true, map, string_bytes};
ghost use Rattle.cc_base.specs.Outside.{Rose};
ghost use Rattle.c_layout.specs.Models.{is_model};
ghost use Rattle.c_preproc.specs.Causes.{seen_of};
ghost use Rattle.cli_words.specs.Words.Requests as request;
ghost use Rattle.cli_words.specs.Words.Requests.{command_view};
ghost use Rattle.cli_answers.specs.Verdicts.{cert_setting, report_status, Tells, RefusesFile, AnswersProve, AnswersVerify, IsVerdict};
ghost use Rattle.cli_texts.specs.Reports.{report_of};
ghost use Rattle.cli_texts.specs.FixedTexts.{cert_refused_text};
ghost use Rattle.cli_answers.specs.Answering.{AnswersOwn};
ghost use Rattle.cli_units.specs.Certifying.{answer_view, cert_reason};
ghost use Rattle.cli_answers.specs.CertAnswers.{AnswersText, AnswersProof, AnswersCert, AnswersVerified, AnswersWithCert};

use crate::decision::{Halt, not_expanded, status_for, stopped};
use crate::further_files::{Further, read_further};
use crate::model_choice::{ModelChoice, choose_model};
use c_layout::{Model, Unit7};
use c_preproc::expand;
use cc_base::{Diag, Tree};
use certificate_check::verdicts::CertFault;
use certificate_programs::programs::Verified;
use cli_texts::{Answer, cert_refused, cert_too_long, report_text};
use cli_units::{Setting, prove_unit, verify_unit};
use cli_words::words::{Command, Verification};
use std::alloc::{AllocError, Global};

/// The answer with the text of a certificate.
fn with_text(alloc: Global, unit: &str, cert: Vec<u8>) -> Result<Answer, Halt>
    ensures fault { IsErrOf result Halt.ReadFault → ⊥ }
    ensures called { IfOk result (λ a. AnswersText cert.items unit.now a.status a.text.items) }
{
    let count = cert.len();
    if count > 1_048_576 {
        let answer = cert_too_long(alloc, unit, count)?;
        Ok(answer)
    } else {
        Ok(Answer {
            status: 0,
            text: cert,
        })
    }
}

/// The answer to `prove` on a unit that was expanded.
fn proved(
    alloc: Global,
    files: &[String],
    command: &Command,
    unit: &Unit7,
    model: &Model,
) -> Result<Answer, Halt>
    requires proper { is_model model.now ≡ true }
    requires model { unit.now.model ≡ model.now }
    ensures fault { IsErrOf result Halt.ReadFault → ⊥ }
    ensures called { IfOk result (λ a. AnswersOwn (cert_setting (command_view command.now) model.now) unit.now (map string_bytes files.now) (string_bytes command.now.unit) a.status a.text.items ⊎ AnswersProof (cert_setting (command_view command.now) model.now) unit.now (string_bytes command.now.unit) a.status a.text.items) }
{
    let name = command.unit.as_str();
    let setting = Setting {
        model,
        entry: command.entry.as_str(),
        turns: None,
    };
    match prove_unit(alloc, unit, setting) {
        Ok(cert) => with_text(alloc, name, cert),
        Err(stop) => stopped(alloc, files, name, unit, setting, stop),
    }
}

/// The answer to `prove` under a model.
fn prove_under<T: Tree>(
    alloc: Global,
    command: &Command,
    model: &Model,
    tree: &mut T,
) -> Result<Answer, Halt>
    requires { is_model model.now ≡ true }
    ensures fault { IsErrOf result Halt.ReadFault → Rose (T.faults tree.old) (T.faults tree.new) }
    ensures called { IfOk result (λ a. Tells (AnswersProve (seen_of (T.files tree.old) (T.faults tree.old) (T.faults tree.new) (T.taken tree.old) (T.taken tree.new)) (command_view command.now) model.now) a.status a.text.items) }
    ensures files { T.files tree.new ≡ T.files tree.old }
    ensures faults { T.faults tree.old ≤ T.faults tree.new }
    ensures taken { T.taken tree.old ≤ T.taken tree.new }
{
    let mut files = Vec::new(alloc);
    let unit = command.unit.as_str();
    match expand(
        alloc,
        tree,
        unit,
        command.dirs.as_slice(),
        model,
        &mut files,
    ) {
        Ok(expanded) => proved(alloc, files.as_slice(), command, &expanded, model),
        Err(stop) => not_expanded(alloc, files.as_slice(), unit, stop),
    }
}

/// The answer to `prove`.
pub(crate) fn answer_prove<T: Tree>(
    alloc: Global,
    command: &Command,
    tree: &mut T,
) -> Result<Answer, Halt>
    ensures fault { IsErrOf result Halt.ReadFault → Rose (T.faults tree.old) (T.faults tree.new) }
    ensures called { IfOk result (λ a. Tells (IsVerdict (seen_of (T.files tree.old) (T.faults tree.old) (T.faults tree.new) (T.taken tree.old) (T.taken tree.new)) (request.Prove (command_view command.now))) a.status a.text.items) }
    ensures files { T.files tree.new ≡ T.files tree.old }
    ensures faults { T.faults tree.old ≤ T.faults tree.new }
    ensures taken { T.taken tree.old ≤ T.taken tree.new }
{
    match choose_model(alloc, command.model.as_str(), tree)? {
        ModelChoice::Chosen(model) => prove_under(alloc, command, &model, tree),
        ModelChoice::Refused(answer) => Ok(answer),
    }
}

/// The report on the diagnostics that a certificate shows, in order.
fn shown(alloc: Global, files: &[String], unit: &str, diags: &[Diag]) -> Result<Answer, Halt>
    ensures fault { IsErrOf result Halt.ReadFault → ⊥ }
    ensures status { IfOk result (λ a. a.status ≡ report_status diags.now) }
    ensures text { IfOk result (λ a. a.text.items ≡ report_of (map string_bytes files.now) unit.now diags.now) }
{
    let text = report_text(alloc, files, unit, diags)?;
    Ok(Answer {
        status: status_for(diags),
        text,
    })
}

/// Why a certificate is refused, in words.
fn reason_of(alloc: Global, fault: CertFault) -> Result<String, AllocError>
    ensures { IfOk result (λ s. string_bytes s ≡ cert_reason fault) }
{
    match fault {
        CertFault::Form(line) => format!(in alloc; "Form {line}"),
        CertFault::Start => String::from_str(alloc, "Start"),
        CertFault::Edge(edge) => format!(in alloc; "Edge {edge}"),
    }
}

/// The line on a certificate that is refused.
fn cert_answer(alloc: Global, cert: &str, fault: CertFault) -> Result<Answer, Halt>
    ensures fault { IsErrOf result Halt.ReadFault → ⊥ }
    ensures status { IfOk result (λ a. a.status ≡ 9) }
    ensures text { IfOk result (λ a. a.text.items ≡ cert_refused_text cert.now (cert_reason fault)) }
{
    let reason = reason_of(alloc, fault)?;
    let answer = cert_refused(alloc, cert, reason.as_str())?;
    Ok(answer)
}

/// The answer to what a certificate comes to.
fn answer_verified(
    alloc: Global,
    files: &[String],
    asked: &Verification,
    verified: Verified,
) -> Result<Answer, Halt>
    ensures fault { IsErrOf result Halt.ReadFault → ⊥ }
    ensures called { IfOk result (λ a. AnswersCert (answer_view verified) (string_bytes asked.now.cert) (map string_bytes files.now) (string_bytes asked.now.command.unit) a.status a.text.items) }
{
    match verified {
        Verified::Found(diags) => {
            shown(alloc, files, asked.command.unit.as_str(), diags.as_slice())
        }
        Verified::Refused(fault) => cert_answer(alloc, asked.cert.as_str(), fault),
    }
}

/// The answer to `verify` on a unit that was expanded, by the bytes of its certificate.
fn verified(
    alloc: Global,
    files: &[String],
    asked: &Verification,
    bytes: &[u8],
    unit: &Unit7,
    model: &Model,
) -> Result<Answer, Halt>
    requires proper { is_model model.now ≡ true }
    requires model { unit.now.model ≡ model.now }
    ensures fault { IsErrOf result Halt.ReadFault → ⊥ }
    ensures called { IfOk result (λ a. AnswersOwn (cert_setting (command_view asked.now.command) model.now) unit.now (map string_bytes files.now) (string_bytes asked.now.command.unit) a.status a.text.items ⊎ AnswersVerified (cert_setting (command_view asked.now.command) model.now) unit.now bytes.now (string_bytes asked.now.cert) (map string_bytes files.now) (string_bytes asked.now.command.unit) a.status a.text.items) }
{
    let name = asked.command.unit.as_str();
    let setting = Setting {
        model,
        entry: asked.command.entry.as_str(),
        turns: None,
    };
    match verify_unit(alloc, unit, setting, bytes) {
        Ok(found) => answer_verified(alloc, files, asked, found),
        Err(stop) => stopped(alloc, files, name, unit, setting, stop),
    }
}

/// The answer to `verify` on a unit that was expanded.
fn checked_by_file<T: Tree>(
    alloc: Global,
    files: &[String],
    asked: &Verification,
    unit: &Unit7,
    model: &Model,
    tree: &mut T,
) -> Result<Answer, Halt>
    requires proper { is_model model.now ≡ true }
    requires model { unit.now.model ≡ model.now }
    ensures fault { IsErrOf result Halt.ReadFault → Rose (T.faults tree.old) (T.faults tree.new) }
    ensures called { IfOk result (λ a. Tells (RefusesFile (seen_of (T.files tree.old) (T.faults tree.old) (T.faults tree.new) (T.taken tree.old) (T.taken tree.new)) (string_bytes asked.now.cert)) a.status a.text.items ⊎ AnswersWithCert (T.files tree.old) (string_bytes asked.now.cert) (cert_setting (command_view asked.now.command) model.now) unit.now (map string_bytes files.now) (string_bytes asked.now.command.unit) a.status a.text.items) }
    ensures files { T.files tree.new ≡ T.files tree.old }
    ensures faults { T.faults tree.old ≤ T.faults tree.new }
    ensures taken { T.taken tree.old ≤ T.taken tree.new }
{
    match read_further(alloc, asked.cert.as_str(), tree)? {
        Further::Held(bytes) => verified(alloc, files, asked, bytes.as_slice(), unit, model),
        Further::Refused(answer) => Ok(answer),
    }
}

/// The answer to `verify` under a model.
fn verify_under<T: Tree>(
    alloc: Global,
    asked: &Verification,
    model: &Model,
    tree: &mut T,
) -> Result<Answer, Halt>
    requires { is_model model.now ≡ true }
    ensures fault { IsErrOf result Halt.ReadFault → Rose (T.faults tree.old) (T.faults tree.new) }
    ensures called { IfOk result (λ a. Tells (AnswersVerify (seen_of (T.files tree.old) (T.faults tree.old) (T.faults tree.new) (T.taken tree.old) (T.taken tree.new)) (command_view asked.now.command) (string_bytes asked.now.cert) model.now) a.status a.text.items) }
    ensures files { T.files tree.new ≡ T.files tree.old }
    ensures faults { T.faults tree.old ≤ T.faults tree.new }
    ensures taken { T.taken tree.old ≤ T.taken tree.new }
{
    let mut files = Vec::new(alloc);
    let unit = asked.command.unit.as_str();
    let dirs = asked.command.dirs.as_slice();
    match expand(alloc, tree, unit, dirs, model, &mut files) {
        Ok(expanded) => checked_by_file(alloc, files.as_slice(), asked, &expanded, model, tree),
        Err(stop) => not_expanded(alloc, files.as_slice(), unit, stop),
    }
}

/// The answer to `verify`.
pub(crate) fn answer_verify<T: Tree>(
    alloc: Global,
    asked: &Verification,
    tree: &mut T,
) -> Result<Answer, Halt>
    ensures fault { IsErrOf result Halt.ReadFault → Rose (T.faults tree.old) (T.faults tree.new) }
    ensures called { IfOk result (λ a. Tells (IsVerdict (seen_of (T.files tree.old) (T.faults tree.old) (T.faults tree.new) (T.taken tree.old) (T.taken tree.new)) (request.Verify (command_view asked.now.command) (string_bytes asked.now.cert))) a.status a.text.items) }
    ensures files { T.files tree.new ≡ T.files tree.old }
    ensures faults { T.faults tree.old ≤ T.faults tree.new }
    ensures taken { T.taken tree.old ≤ T.taken tree.new }
{
    match choose_model(alloc, asked.command.model.as_str(), tree)? {
        ModelChoice::Chosen(model) => verify_under(alloc, asked, &model, tree),
        ModelChoice::Refused(answer) => Ok(answer),
    }
}
