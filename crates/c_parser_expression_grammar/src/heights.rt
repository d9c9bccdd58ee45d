//! Heights of derivations.
ghost use Rattle.std.specs.Prelude.{◌≡◌, ◌+◌, ◌≤◌, IfOk, IfErr};

use std::alloc::{AllocError, AllocFailed};

/// The greatest height that a derivation may have.
pub const GREATEST_HEIGHT: u32 = 256;

/// What a reader found: a tree and the height of its derivation.
#[derive(Drop)]
pub struct Parsed<T> {
    pub tree: T,
    pub height: u32,
}

/// Why nothing was found.
#[derive(Clone, Copy, PartialEq, Eq, Debug)]
pub enum Trouble {
    /// No derivation within the budget.
    Syntax,
    /// Want of memory.
    Memory,
}

impl From<AllocError> for Trouble {
    ghost use Rattle.std.specs.Prelude.{◌≡◌};
    ghost use Rattle.c_parser_expression_grammar.specs.declared.heights.Trouble.TheVariants as trouble;

    ghost from_gives = { λ _ e. e ≡ trouble.Memory };

    fn from(_error: AllocError) -> Trouble {
        Trouble::Memory
    }
}

impl<T: Drop> From<AllocFailed<T>> for Trouble {
    ghost use Rattle.std.specs.Prelude.{◌≡◌};
    ghost use Rattle.c_parser_expression_grammar.specs.declared.heights.Trouble.TheVariants as trouble;

    ghost from_gives = { λ _ e. e ≡ trouble.Memory };

    fn from(_error: AllocFailed<T>) -> Trouble {
        Trouble::Memory
    }
}

/// The budget of the parts of a production.
pub fn inner(budget: u32) -> Result<u32, Trouble>
    ensures inner { IfOk result (λ b. b + 1 ≡ budget) }
    ensures refused { IfErr result (λ e. (e ≡ Trouble.Syntax) × (budget ≡ 0)) }
{
    match budget.checked_sub(1) {
        Some(rest) => Ok(rest),
        None => Err(Trouble::Syntax),
    }
}

/// The height of a production whose parts have heights of at most `parts`.
pub fn made(budget: u32, parts: u32) -> Result<u32, Trouble>
    ensures height { IfOk result (λ h. (h ≡ parts + 1) × (h ≤ budget)) }
    ensures refused { IfErr result (λ e. (e ≡ Trouble.Syntax) × (budget ≤ parts)) }
{
    if parts < budget {
        Ok(parts + 1)
    } else {
        Err(Trouble::Syntax)
    }
}
