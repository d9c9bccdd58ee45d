//! The rules that a program may break, by the map of a text.
ghost use Rattle.std.specs.Prelude.{◌≡◌, ◌+◌, ◌≤◌, true, length, None, IfOk};
ghost use Rattle.std.proofs.Common.{replicate};
ghost use Rattle.cc_base.specs.DiagnosticOrder.{IsOrderedSet};
ghost use Rattle.fixpoint.specs.Pool.Pool.{free_count};
ghost use Rattle.fixpoint.specs.Solver.RowMap.{rows_in, IsHeld};
ghost use Rattle.interval_domain.specs.Intervals.IntervalLattice.{interval_lattice};
ghost use Rattle.interval_domain.specs.Intervals.IntervalNumbers.{interval_numbers};
ghost use Rattle.transfer_system.specs.System.SystemChecks.{is_system};
ghost use Rattle.diagnose.specs.Operands.TypedRows.{is_typed_map};
ghost use Rattle.analysis.specs.Analyses.{admitted_pairs};
ghost use Rattle.certificate_programs.specs.Programs.Certificates.{IsLookedAt, IsTyping, IsVerified};
ghost use Rattle.certificate_programs.specs.Programs.ReadMaps.{IsRead, IsToldOf};

use crate::programs::looks::see_program;
use crate::programs::smaller_maps::smaller_text;
use cc_base::{Diag, Lattice, Memory};
use certificate_check::verdicts::{CertFault, Verdict, verify};
use cfg::Flow;
use diagnose::diagnostics::diagnose;
use fixpoint::pool::{Row, RowPool};
use fixpoint::solver::{drop_map, new_map, release};
use interval_domain::intervals::Interval;
use std::alloc::Global;
use transfer_system::system::is_system;
use value_domain::values::Cell;

/// What the text of a map comes to.
#[derive(Drop)]
pub enum Verified {
    /// It is that of a closed map, by which the program may break these rules.
    Found(Vec<Diag>),
    /// It is refused.
    Refused(CertFault),
}

/// What is told of a closed map: the rules that the program may break by it and, just where operands do
/// not lie within their types by its rows, the text of a smaller map, by whose rows they may.
#[derive(Drop)]
pub struct Told {
    pub found: Vec<Diag>,
    pub smaller: Option<Vec<u8>>,
}

/// What is read of the text of a map.
#[derive(Drop)]
pub enum Reading {
    Closed(Told),
    Refused(CertFault),
}

/// What the map tells; its rows are given back.
fn told_by(
    alloc: Global,
    flow: &Flow,
    pool: &mut RowPool<Cell<Interval>>,
    map: &mut [Option<Row>],
) -> Result<Told, Memory>
    requires { IsHeld pool.old map.old }
    ensures vacant { map.new ≡ replicate (length map.old) None }
    ensures found { IfOk result (λ told. IsOrderedSet (admitted_pairs flow.now (rows_in pool.old map.old)) told.found.items) }
    ensures typed { IfOk result (λ told. told.smaller ≡ None → is_typed_map interval_lattice interval_numbers flow.now (rows_in pool.old map.old) ≡ true) }
    ensures kept { IfOk result (λ told. is_typed_map interval_lattice interval_numbers flow.now (rows_in pool.old map.old) ≡ true → told.smaller ≡ None) }
{
    let found = diagnose(alloc, flow, pool, map);
    let smaller = smaller_text(alloc, flow, pool, map);
    release(pool, map);
    Ok(Told {
        found: found?,
        smaller: smaller?,
    })
}

/// What is read of the text, by way of a map that holds no row before and behind.
#[tactic(auto, using(crate::proofs::programs::ReadMaps::told_of))]
fn read_by(
    alloc: Global,
    flow: &Flow,
    cert: &[u8],
    pool: &mut RowPool<Cell<Interval>>,
    map: &mut [Option<Row>],
) -> Result<Reading, Memory>
    requires valid { is_system flow.now ≡ true }
    requires width { pool.old.width ≡ flow.now.width }
    requires vacant { map.old ≡ replicate (length flow.now.blocks.items) None }
    requires room { length flow.now.blocks.items + 2 ≤ free_count pool.old }
    ensures vacant { map.new ≡ replicate (length map.old) None }
    ensures read { IfOk result (IsRead flow.now cert.now) }
{
    match verify(alloc, flow, cert, pool, map)? {
        Verdict::No(fault) => Ok(Reading::Refused(fault)),
        Verdict::Yes => {
            let told = told_by(alloc, flow, pool, map)?;
            Ok(Reading::Closed(told))
        }
    }
}

/// What is read of the text for a program whose blocks and edges make a system.
#[tactic(auto, using(analysis::specs::Counts::few_blocks))]
fn read_text(alloc: Global, flow: &Flow, cert: &[u8]) -> Result<Reading, Memory>
    requires { is_system flow.now ≡ true }
    ensures { IfOk result (IsRead flow.now cert.now) }
{
    let blocks = flow.blocks.len() as u32;
    let mut pool = RowPool::new(alloc, blocks + 2, flow.width, Cell::bottom())?;
    let mut map = new_map(alloc, blocks)?;
    let read = read_by(alloc, flow, cert, &mut pool, map.as_mut_slice());
    drop_map(map);
    read
}

/// Sees that a text is that of a closed map by whose rows operands lie within their types.
#[tactic(auto, using(crate::proofs::programs::ReadMaps::typing_of))]
fn see_typing(alloc: Global, flow: &Flow, text: &[u8]) -> Result<(), Memory>
    requires { is_system flow.now ≡ true }
    ensures { IfOk result (λ _. IsTyping flow.now text.now) }
{
    match read_text(alloc, flow, text)? {
        Reading::Refused(_) => Err(Memory),
        Reading::Closed(told) => match &told.smaller {
            None => Ok(()),
            Some(_) => Err(Memory),
        },
    }
}

/// What a closed map comes to for a program that was looked at.
#[tactic(auto, using(crate::proofs::programs::ReadMaps::by_own, crate::proofs::programs::ReadMaps::by_smaller))]
fn shown(alloc: Global, flow: &Flow, cert: &[u8], told: Told) -> Result<Verified, Memory>
    requires valid { is_system flow.now ≡ true }
    requires seen { IsLookedAt flow.now }
    requires told { IsToldOf flow.now cert.now told }
    ensures { IfOk result (IsVerified flow.now cert.now) }
{
    let _cert = cert;
    let Told { found, smaller } = told;
    match smaller {
        None => Ok(Verified::Found(found)),
        Some(text) => {
            see_typing(alloc, flow, text.as_slice())?;
            Ok(Verified::Found(found))
        }
    }
}

/// The rules that a program may break by the map of a text, where that map is closed; else why the
/// text is refused. No solver is asked.
///
/// The program is looked at as before an analysis. Soundness asks as well that operands lie within
/// their types by some closed map. Where they do not by the text's own, whose rows may be larger than
/// those of any run, its rows are cut to the types of what they hold, and their text is verified too.
///
/// # Errors
///
/// Out of memory, to which come the programs to which an analysis answers so, and a text with yes whose
/// rows, and these rows cut, have operands outside of their types.
pub fn verify_program(alloc: Global, flow: &Flow, cert: &[u8]) -> Result<Verified, Memory>
    ensures { IfOk result (IsVerified flow.now cert.now) }
{
    if !is_system(flow) {
        return Err(Memory);
    }
    see_program(alloc, flow)?;
    match read_text(alloc, flow, cert)? {
        Reading::Refused(fault) => Ok(Verified::Refused(fault)),
        Reading::Closed(told) => shown(alloc, flow, cert, told),
    }
}
