//! Certificates of a unit that was expanded.
ghost use Rattle.std.specs.Prelude.{◌≡◌, IfErr, IfOk, true};
ghost use Rattle.c_layout.specs.Models.{is_model};
ghost use Rattle.cli_units.specs.Judging.{setting_view, StopsUnit};
ghost use Rattle.cli_units.specs.Certifying.{answer_view, IsProgram, IsProvedBy, IsProved, IsVerifiedUnit};

use crate::unit_answers::{Setting, looked, lowered, parsed, typed};
use crate::unit_thresholds::unit_thresholds;
use c_layout::Unit7;
use cc_base::{Memory, Stop};
use certificate_programs::programs::{Verified, prove_program, verify_program};
use cfg::Flow;
use std::alloc::Global;

/// Parses, checks, lowers and looks at a unit.
fn program_of(alloc: Global, unit: &Unit7, setting: Setting) -> Result<Flow, Stop>
    requires proper { is_model setting.model.now ≡ true }
    requires model { unit.now.model ≡ setting.model.now }
    ensures program { IfOk result (IsProgram unit.now (setting_view setting.entry)) }
    ensures model { IfOk result (λ flow. is_model flow.model ≡ true) }
    ensures stops { IfErr result (StopsUnit unit.now (setting_view setting.entry)) }
{
    let tree = parsed(alloc, unit, setting)?;
    let checked = typed(alloc, unit, &tree, setting)?;
    let flow = lowered(alloc, unit, &tree, &checked, setting)?;
    looked(unit, setting)?;
    Ok(flow)
}

/// The text of the map that the solver finds, with bounds rounded to the program's thresholds.
fn text_of_program(alloc: Global, flow: &Flow) -> Result<Vec<u8>, Memory>
    requires { is_model flow.now.model ≡ true }
    ensures { IfOk result (λ text. IsProvedBy flow.now text.items) }
{
    let list = unit_thresholds(alloc, flow)?;
    let text = prove_program(alloc, flow, &list)?;
    Ok(text)
}

/// The certificate of a unit.
pub fn prove_unit(alloc: Global, unit: &Unit7, setting: Setting) -> Result<Vec<u8>, Stop>
    requires proper { is_model setting.model.now ≡ true }
    requires model { unit.now.model ≡ setting.model.now }
    ensures proved { IfOk result (λ text. IsProved unit.now (setting_view setting.entry) text.items) }
    ensures stops { IfErr result (StopsUnit unit.now (setting_view setting.entry)) }
{
    let flow = program_of(alloc, unit, setting)?;
    let text = text_of_program(alloc, &flow)?;
    Ok(text)
}

/// What a certificate comes to for a unit.
pub fn verify_unit(
    alloc: Global,
    unit: &Unit7,
    setting: Setting,
    cert: &[u8],
) -> Result<Verified, Stop>
    requires proper { is_model setting.model.now ≡ true }
    requires model { unit.now.model ≡ setting.model.now }
    ensures verified { IfOk result (λ v. IsVerifiedUnit unit.now (setting_view setting.entry) cert.now (answer_view v)) }
    ensures stops { IfErr result (StopsUnit unit.now (setting_view setting.entry)) }
{
    let flow = program_of(alloc, unit, setting)?;
    let found = verify_program(alloc, &flow, cert)?;
    Ok(found)
}
