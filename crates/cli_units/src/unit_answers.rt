//! What a unit that was expanded comes to.
ghost use Rattle.std.specs.Prelude.{◌≡◌, ◌++◌, IfErr, IfOk, Some, is_ok, true, length};
ghost use Rattle.c_layout.specs.CheckedUnits.{unit_view};
ghost use Rattle.c_layout.specs.Models.{is_model};
ghost use Rattle.lower_preconditions.specs.Objects.PlainObjects.{has_plain_objects};
ghost use Rattle.lower_preconditions.specs.Units.RegularUnits.{is_regular_unit};
ghost use Rattle.cfg.specs.WellFormed.{base_cells, is_well_formed};
ghost use Rattle.cc_base.specs.Standard.{standard_limits};
ghost use Rattle.c_layout.specs.ByteTexts.{have_byte_texts};
ghost use Rattle.cli_units.specs.Judging.{setting_view, judgement, cells_from, cell_count, IsParsed, IsTyped, IsLooked, IsLowered, IsUnrolled, IsJudged, IsFound, StopsUnit};

use crate::byte_texts::have_byte_texts;
use crate::stages::{Stage, stop_at};
use crate::unit_thresholds::unit_thresholds;
use analysis::analyse;
use c_layout::{BaseInfo, Checked, Model, Tree7, Unit7};
use c_parser::parse;
use c_types::units::check;
use cc_base::{Diag, Limits, Memory, Stop};
use cfg::Flow;
use loop_unrolling::split;
use lower::inlining::lower;
use lower_tables::counts::capped_sum;
use std::alloc::{AllocError, Global};
use syntactic_rules::syntactic;

/// How a unit is judged: its model, the function at which runs start, and how many turns of loops,
/// counted over all loops together, are analysed by themselves, where some are.
#[derive(Clone, Copy)]
pub struct Setting<'a> {
    pub model: &'a Model,
    pub entry: &'a str,
    pub turns: Option<u32>,
}

/// A unit that was accepted: its diagnostics, and how many bases and cells its program has.
#[derive(Drop)]
pub struct Judged {
    pub diags: Vec<Diag>,
    pub bases: u64,
    pub cells: u64,
}

/// How many cells a base has: its leaves and, on the heap, the class cells.
fn own_cells(base: &BaseInfo) -> u64
    ensures { result ≡ base_cells base.now }
{
    let classes = if base.shape.heap { 6 } else { 0 };
    base.shape.cells.as_slice().len() as u64 + classes
}

/// How many cells the bases of a program have.
fn cell_count(bases: &[BaseInfo]) -> u64
    ensures { result ≡ cells_from 0 bases.now }
{
    let mut count = 0;
    for base in bases {
        count = capped_sum(count, own_cells(base));
    }
    count
}

/// Both lists, one after the other.
fn joined(first: Vec<Diag>, second: &[Diag]) -> Result<Vec<Diag>, AllocError>
    ensures { IfOk result (λ v. v.items ≡ first.items ++ second.now) }
{
    let mut all = first;
    all.extend_from_slice(second)?;
    Ok(all)
}

/// What the syntactic rules find in a checked unit and what the analysis finds in the program that is
/// analysed, by the numbers of the unit's program.
fn judge_program(
    alloc: Global,
    checked: &Checked,
    flow: &Flow,
    analysed: &Flow,
) -> Result<Judged, Memory>
    requires { is_model flow.now.model ≡ true }
    ensures found { IfOk result (λ j. IsFound checked.now flow.now analysed.now j.diags.items) }
    ensures bases { IfOk result (λ j. j.bases ≡ length flow.now.bases.items) }
    ensures cells { IfOk result (λ j. j.cells ≡ cell_count flow.now) }
{
    let list = unit_thresholds(alloc, flow)?;
    let found = analyse(alloc, analysed, &list)?;
    let texts = syntactic(alloc, checked)?;
    Ok(Judged {
        diags: joined(texts, found.as_slice())?,
        bases: flow.bases.len() as u64,
        cells: cell_count(flow.bases.as_slice()),
    })
}

pub(crate) fn parsed(alloc: Global, unit: &Unit7, setting: Setting) -> Result<Tree7, Stop>
    ensures parsed { IfOk result (IsParsed unit.now) }
    ensures stops { IfErr result (StopsUnit unit.now (setting_view setting.entry)) }
{
    match parse(alloc, unit) {
        Ok(tree) => Ok(tree),
        Err(stop) => Err(stop_at(Stage::Grammar, stop)),
    }
}

pub(crate) fn typed(
    alloc: Global,
    unit: &Unit7,
    tree: &Tree7,
    setting: Setting,
) -> Result<Checked, Stop>
    requires model { is_model setting.model.now ≡ true }
    requires parsed { IsParsed unit.now tree.now }
    ensures typed { IfOk result (IsTyped (setting_view setting.entry) tree.now) }
    ensures stops { IfErr result (StopsUnit unit.now (setting_view setting.entry)) }
{
    match check(alloc, tree, setting.model, setting.entry) {
        Ok(checked) => Ok(checked),
        Err(stop) => Err(stop_at(Stage::Typing, stop)),
    }
}

/// Looks at what typing does not ask, and a run needs in order not to be stuck: whether tokens are of bytes.
///
/// # Errors
///
/// Want of memory exactly where one is not.
pub(crate) fn looked(unit: &Unit7, setting: Setting) -> Result<(), Memory>
    requires proper { is_model setting.model.now ≡ true }
    requires model { unit.now.model ≡ setting.model.now }
    ensures looked { IfOk result (λ _. IsLooked unit.now (setting_view setting.entry)) }
    ensures exact { is_ok result ≡ have_byte_texts unit.now.tokens }
{
    if have_byte_texts(unit) {
        Ok(())
    } else {
        Err(Memory)
    }
}

pub(crate) fn lowered(
    alloc: Global,
    unit: &Unit7,
    tree: &Tree7,
    checked: &Checked,
    setting: Setting,
) -> Result<Flow, Stop>
    requires parsed { IsParsed unit.now tree.now }
    requires typed { IsTyped (setting_view setting) tree.now checked.now }
    ensures lowered { IfOk result (IsLowered checked.now) }
    ensures plain { IfOk result (λ f. has_plain_objects (unit_view checked.now) ≡ true) }
    ensures regular { IfOk result (λ f. is_regular_unit (unit_view checked.now) ≡ true) }
    ensures well_formed { IfOk result (λ f. is_well_formed standard_limits f ≡ true) }
    ensures stops { IfErr result (StopsUnit unit.now (setting_view setting.entry)) }
{
    match lower(alloc, checked, &Limits::standard()) {
        Ok(flow) => Ok(flow),
        Err(stop) => Err(stop_at(Stage::Counting, stop)),
    }
}

/// The program with so many turns of its loops unrolled.
fn turned(
    alloc: Global,
    unit: &Unit7,
    tree: &Tree7,
    checked: &Checked,
    flow: &Flow,
    setting: Setting,
    turns: u32,
) -> Result<Flow, Stop>
    requires parsed { IsParsed unit.now tree.now }
    requires typed { IsTyped (setting_view setting) tree.now checked.now }
    requires lowered { IsLowered checked.now flow.now }
    requires turns { setting.turns ≡ Some turns }
    ensures turned { IfOk result (IsUnrolled setting.entry.turns flow.now) }
    ensures well_formed { IfOk result (λ f. is_well_formed standard_limits f ≡ true) }
    ensures stops { IfErr result (StopsUnit unit.now (setting_view setting.entry)) }
{
    match split(alloc, flow, turns, &Limits::standard()) {
        Ok(made) => Ok(made),
        Err(stop) => Err(stop_at(Stage::Counting, stop)),
    }
}

/// Parses, checks, lowers, looks at and analyses a unit.
pub fn judge_unit(alloc: Global, unit: &Unit7, setting: Setting) -> Result<Judged, Stop>
    requires proper { is_model setting.model.now ≡ true }
    requires model { unit.now.model ≡ setting.model.now }
    ensures judged { IfOk result (λ j. IsJudged unit.now (setting_view setting.entry) (judgement j)) }
    ensures stops { IfErr result (StopsUnit unit.now (setting_view setting.entry)) }
{
    let tree = parsed(alloc, unit, setting)?;
    let checked = typed(alloc, unit, &tree, setting)?;
    let flow = lowered(alloc, unit, &tree, &checked, setting)?;
    looked(unit, setting)?;
    match setting.turns {
        None => Ok(judge_program(alloc, &checked, &flow, &flow)?),
        Some(turns) => {
            let analysed = turned(alloc, unit, &tree, &checked, &flow, setting, turns)?;
            Ok(judge_program(alloc, &checked, &flow, &analysed)?)
        }
    }
}
