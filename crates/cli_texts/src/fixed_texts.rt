//! The texts of the command line itself.
ghost use Rattle.std.specs.Prelude.{◌≡◌, IfOk};
ghost use Rattle.cli_texts.specs.FixedTexts.{version_text, words_refused_text, no_file_text, too_long_text, no_model_text, no_baseline_text, no_draws_text, cert_too_long_text, cert_refused_text};

use crate::answers::Answer;
use std::alloc::{AllocError, Global};

fn fixed(alloc: Global, status: u8, text: &str) -> Result<Answer, AllocError>
    ensures status { IfOk result (λ a. a.status ≡ status) }
    ensures text { IfOk result (λ a. a.text.items ≡ text.now) }
{
    let text = Vec::from_slice(alloc, text.as_bytes())?;
    Ok(Answer { status, text })
}

/// The text of `--version`.
pub fn version(alloc: Global) -> Result<Answer, AllocError>
    ensures status { IfOk result (λ a. a.status ≡ 0) }
    ensures text { IfOk result (λ a. a.text.items ≡ version_text) }
{
    fixed(alloc, 0, "ccheck 0.1.0\n")
}

/// Refused words.
pub fn words_refused(alloc: Global) -> Result<Answer, AllocError>
    ensures status { IfOk result (λ a. a.status ≡ 3) }
    ensures text { IfOk result (λ a. a.text.items ≡ words_refused_text) }
{
    fixed(alloc, 3, "ccheck: words refused\n")
}

/// A file that is not held.
pub fn no_file(alloc: Global, name: &str) -> Result<Answer, AllocError>
    ensures status { IfOk result (λ a. a.status ≡ 4) }
    ensures text { IfOk result (λ a. a.text.items ≡ no_file_text name.now) }
{
    let line = format!(in alloc; "ccheck: no file {name}\n")?;
    fixed(alloc, 4, line.as_str())
}

/// A file that is too long.
pub fn file_too_long(alloc: Global, name: &str) -> Result<Answer, AllocError>
    ensures status { IfOk result (λ a. a.status ≡ 8) }
    ensures text { IfOk result (λ a. a.text.items ≡ too_long_text name.now) }
{
    let line = format!(in alloc; "{name}:1:1: limit: FileTooLong 1048577/1048576\n")?;
    fixed(alloc, 8, line.as_str())
}

/// A model file that gives no model.
pub fn no_model(alloc: Global, name: &str, reason: &str) -> Result<Answer, AllocError>
    ensures status { IfOk result (λ a. a.status ≡ 3) }
    ensures text { IfOk result (λ a. a.text.items ≡ no_model_text name.now reason.now) }
{
    let line = format!(in alloc; "ccheck: {name}: {reason}\n")?;
    fixed(alloc, 3, line.as_str())
}

/// A baseline file that is no SARIF report.
pub fn no_baseline(alloc: Global, name: &str) -> Result<Answer, AllocError>
    ensures status { IfOk result (λ a. a.status ≡ 3) }
    ensures text { IfOk result (λ a. a.text.items ≡ no_baseline_text name.now) }
{
    let line = format!(in alloc; "ccheck: {name}: BaseShape\n")?;
    fixed(alloc, 3, line.as_str())
}

/// A file of draws that is of another form.
pub fn no_draws(alloc: Global, name: &str) -> Result<Answer, AllocError>
    ensures status { IfOk result (λ a. a.status ≡ 3) }
    ensures text { IfOk result (λ a. a.text.items ≡ no_draws_text name.now) }
{
    let line = format!(in alloc; "ccheck: {name}: DrawsShape\n")?;
    fixed(alloc, 3, line.as_str())
}

/// A certificate of a unit that is too long to be printed, with how many bytes it has.
pub fn cert_too_long(alloc: Global, unit: &str, count: usize) -> Result<Answer, AllocError>
    ensures status { IfOk result (λ a. a.status ≡ 8) }
    ensures text { IfOk result (λ a. a.text.items ≡ cert_too_long_text unit.now count) }
{
    let line = format!(in alloc; "{unit}:1:1: limit: CertTooLong {count}/1048576\n")?;
    fixed(alloc, 8, line.as_str())
}

/// A certificate that is refused, with the reason.
pub fn cert_refused(alloc: Global, name: &str, reason: &str) -> Result<Answer, AllocError>
    ensures status { IfOk result (λ a. a.status ≡ 9) }
    ensures text { IfOk result (λ a. a.text.items ≡ cert_refused_text name.now reason.now) }
{
    let line = format!(in alloc; "{name}: refused: {reason}\n")?;
    fixed(alloc, 9, line.as_str())
}
