//! Whether a `switch` has a label for each value that it may meet.
ghost use Rattle.std.specs.Prelude.{◌≡◌};
ghost use Rattle.syntactic_rules.specs.Switches.{is_label, are_labels, is_covered, lacks_default};

use c_layout::CaseLabel;

/// Whether a value is a case label.
fn is_label(cases: &[CaseLabel], value: i128) -> bool
    ensures { result ≡ is_label cases.now value }
{
    cases.iter().any(|case| case.value == value)
}

/// Whether each of these values is a case label.
fn are_labels(cases: &[CaseLabel], values: &[i128]) -> bool
    ensures { result ≡ are_labels cases.now values.now }
{
    values.iter().all(|value| is_label(cases, *value))
}

/// Whether each enumerator's value is a case label, where the controlling expression is declared with
/// an enumerated type.
fn is_covered(cases: &[CaseLabel], enumerators: &Option<Vec<i128>>) -> bool
    ensures { result ≡ is_covered cases.now enumerators.now }
{
    match enumerators {
        Some(values) => are_labels(cases, values.as_slice()),
        None => false,
    }
}

/// Whether a `switch` lacks a default label that it should have.
pub fn lacks_default(
    cases: &[CaseLabel],
    has_default: bool,
    enumerators: &Option<Vec<i128>>,
) -> bool
    ensures { result ≡ lacks_default cases.now has_default enumerators.now }
{
    !has_default && !is_covered(cases, enumerators)
}
