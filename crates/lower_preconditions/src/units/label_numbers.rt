//! Whether labels have the numbers in which they stand.
ghost use Rattle.std.specs.Prelude.{◌≡◌, map};
ghost use Rattle.c_layout.specs.CheckedTrees.{statement_tree, statement_trees};
ghost use Rattle.c_layout.specs.CheckedUnits.{function_view};
ghost use Rattle.lower_preconditions.specs.Units.LabelNumbers as spec;

use c_layout::{CheckedStatement, Function};

/// How many labels of a function were met, how many case labels of the innermost `switch`, and whether
/// its default label was.
#[derive(Clone, Copy)]
pub struct Numbers {
    pub labels: u32,
    pub cases: u32,
    pub has_default: bool,
}

/// The number behind one that is met where it is due.
fn behind_number(due: u32, number: u32) -> Option<u32>
    ensures { result ≡ spec.behind_number due number }
{
    if due == number {
        due.checked_add(1)
    } else {
        None
    }
}

fn with_labels(met: Numbers, labels: u32) -> Numbers
    ensures { result ≡ spec.with_labels met labels }
{
    Numbers { labels, ..met }
}

fn with_cases(met: Numbers, cases: u32) -> Numbers
    ensures { result ≡ spec.with_cases met cases }
{
    Numbers { cases, ..met }
}

fn behind_label(label: u32, met: Numbers) -> Option<Numbers>
    ensures { result ≡ spec.behind_label label met }
{
    match behind_number(met.labels, label) {
        Some(labels) => Some(with_labels(met, labels)),
        None => None,
    }
}

fn behind_case(label: u32, met: Numbers) -> Option<Numbers>
    ensures { result ≡ spec.behind_case label met }
{
    match behind_number(met.cases, label) {
        Some(cases) => Some(with_cases(met, cases)),
        None => None,
    }
}

/// A `switch` has one default label at most.
fn behind_default(met: Numbers) -> Option<Numbers>
    ensures { result ≡ spec.behind_default met }
{
    if met.has_default {
        return None;
    }
    Some(Numbers {
        has_default: true,
        ..met
    })
}

fn in_switch(met: Numbers) -> Numbers
    ensures { result ≡ spec.in_switch met }
{
    Numbers {
        cases: 0,
        has_default: false,
        ..met
    }
}

/// Behind a `switch` of so many case labels, with a default label or not.
fn behind_switch(around: Numbers, count: usize, has_default: bool, met: Numbers) -> Option<Numbers>
    ensures { result ≡ spec.behind_switch around count has_default met }
{
    if met.cases as usize == count && met.has_default == has_default {
        Some(with_labels(around, met.labels))
    } else {
        None
    }
}

/// What was met behind statements, where their labels have the numbers in which they stand.
#[cycle(labels)]
fn all_numbered(list: &[CheckedStatement], before: Numbers) -> Option<Numbers>
    ensures { result ≡ spec.all_numbered (statement_trees (map statement_tree list.now)) before }
{
    let mut met = before;
    for statement in list {
        match numbered(statement, met) {
            Some(behind) => met = behind,
            None => return None,
        }
    }
    Some(met)
}

/// What was met behind a statement.
#[cycle(labels)]
fn numbered(statement: &CheckedStatement, met: Numbers) -> Option<Numbers>
    ensures { result ≡ spec.numbered (statement_tree statement.now) met }
{
    match statement {
        CheckedStatement::Value(_)
        | CheckedStatement::Nothing
        | CheckedStatement::Forget(_, _)
        | CheckedStatement::Start(_, _, _)
        | CheckedStatement::StartCopy(_, _, _)
        | CheckedStatement::StartList(_, _, _)
        | CheckedStatement::Goto(_)
        | CheckedStatement::Break
        | CheckedStatement::Continue
        | CheckedStatement::Return(_, _) => Some(met),
        CheckedStatement::Block(_, items) => all_numbered(items.as_slice(), met),
        CheckedStatement::If(_, body)
        | CheckedStatement::While(_, body)
        | CheckedStatement::Do(body, _) => numbered(body, met),
        CheckedStatement::IfElse(_, first, second) => numbered(second, numbered(first, met)?),
        CheckedStatement::For(_, first, _, _, body) => {
            numbered(body, all_numbered(first.as_slice(), met)?)
        }
        CheckedStatement::Switch(_, _, cases, has_default, _, body) => {
            let inside = numbered(body, in_switch(met))?;
            behind_switch(met, cases.len(), *has_default, inside)
        }
        CheckedStatement::Case(number, body) => numbered(body, behind_case(*number, met)?),
        CheckedStatement::Default(body) => numbered(body, behind_default(met)?),
        CheckedStatement::Label(number, body) => numbered(body, behind_label(*number, met)?),
    }
}

fn ends_with(labels: u32, met: Option<Numbers>) -> bool
    ensures { result ≡ spec.ends_with labels met }
{
    match met {
        Some(met) => met.labels == labels && (met.cases == 0 && !met.has_default),
        None => false,
    }
}

/// Whether the labels of a function, and the case labels of each `switch`, have the numbers in which
/// they stand, and each `switch` has a default label where it says so.
pub fn is_numbered(function: &Function) -> bool
    ensures { result ≡ spec.is_numbered (function_view function.now) }
{
    let none = Numbers {
        labels: 0,
        cases: 0,
        has_default: false,
    };
    ends_with(
        function.labels,
        all_numbered(function.body.as_slice(), none),
    )
}
