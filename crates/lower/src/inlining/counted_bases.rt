//! The bases and cells of a program, beside those that were counted before it was made.
ghost use Rattle.std.specs.Prelude.{◌≡◌, IfOk};
ghost use Rattle.lower_templates.specs.Views.ProgramViews.{flow_view};
ghost use Rattle.lower.specs.Inlining.AsCounted.{HasJust};

use cfg::Flow;
use cfg_checks::all_cells;
use lower_tables::counts::UnitCounts;
use std::alloc::AllocError;

/// The same program, where it has just the bases and the cells that were counted.
///
/// # Errors
///
/// Want of memory, to which a program with other counts would come too.
pub fn with_counted_bases(flow: Flow, counts: UnitCounts) -> Result<Flow, AllocError>
    ensures same { IfOk result (λ f. f ≡ flow) }
    ensures counted { IfOk result (λ f. HasJust counts (flow_view f)) }
{
    let bases = flow.bases.len() as u64;
    let cells = all_cells(flow.bases.as_slice())?;
    if bases == counts.bases && cells == counts.cells {
        Ok(flow)
    } else {
        Err(AllocError)
    }
}
