//! What the syntactic rules find in a unit.
ghost use Rattle.std.specs.Prelude.{◌≡◌, IfOk};
ghost use Rattle.cc_base.specs.DiagnosticOrder.{IsOrderedSet};
ghost use Rattle.syntactic_rules.specs.StatementPlaces.{unit_places};

use crate::statement_places::add_statements;
use crate::term_places::add_terms;
use c_layout::Checked;
use cc_base::{Diag, Memory, ordered_diagnostics};
use std::alloc::{AllocError, Global};

/// What the bodies of the functions have, and what the expressions have that no run evaluates.
fn all_places(alloc: Global, unit: &Checked) -> Result<Vec<Diag>, AllocError>
    ensures { IfOk result (λ found. found.items ≡ unit_places unit.now) }
{
    let mut found = Vec::new(alloc);
    for function in &unit.functions {
        add_statements(&mut found, function.body.as_slice())?;
    }
    add_terms(&mut found, unit.constants.as_slice())?;
    Ok(found)
}

/// The places at which boolasgn, sizeofptr and swtchdflt hold, by place and then by rule, each once.
///
/// # Errors
///
/// Want of memory.
pub fn syntactic(alloc: Global, unit: &Checked) -> Result<Vec<Diag>, Memory>
    ensures { IfOk result (λ found. IsOrderedSet (unit_places unit.now) found.items) }
{
    Ok(ordered_diagnostics(all_places(alloc, unit)?))
}
