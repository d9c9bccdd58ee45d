//! What is still to be done of a function, as a list of works.
ghost use Rattle.std.specs.Prelude.{◌≡◌};
ghost use Rattle.lower_templates.specs.Worklist.Works.{behind};

use crate::worklist::template_pieces::Piece;
use c_layout::{CheckedStatement, CheckedTerm, Lvalue};

/// Where control goes as a condition is true or false.
#[derive(Clone, Copy)]
pub struct Targets {
    pub yes: u32,
    pub no: u32,
}

/// A condition's targets, the temporary that takes its value, and whether it is a test.
#[derive(Clone, Copy)]
pub struct Decision {
    pub targets: Targets,
    pub depth: u32,
    pub is_test: bool,
}

/// Where a jump goes: a label and the scope in which it stands.
#[derive(Clone, Copy)]
pub struct Landing {
    pub label: u32,
    pub scope: u32,
}

/// Where a statement stands: its scope, where `break` and `continue` go, and its `switch`.
#[derive(Clone, Copy)]
pub struct Surroundings {
    pub scope: u32,
    pub on_break: Landing,
    pub on_continue: Landing,
    pub choice: u32,
}

/// A work. The number is the temporary that takes the result.
#[derive(Drop)]
pub enum Work<'a> {
    /// The value of a term.
    Value(&'a CheckedTerm, u32),
    /// A term whose value is not used.
    Unused(&'a CheckedTerm, u32),
    /// A pointer to an lvalue.
    Address(&'a Lvalue, u32),
    Condition(&'a CheckedTerm, Decision),
    Statement(&'a CheckedStatement, Surroundings),
    /// A piece that is added as it is.
    Ready(Piece),
}

/// The temporary that stands so many behind another one; the last one where there are not so many.
pub fn behind(temp: u32, count: u32) -> u32
    ensures { result ≡ behind temp count }
{
    temp.saturating_add(count)
}
