//! What instructions name.
ghost use Rattle.std.specs.Prelude.{◌≡◌, ◌&&◌, nat_lt, length, slice_get};
ghost use Rattle.std.specs.List.{list_all};
ghost use Rattle.cfg.specs.BaseShapes.{is_extent, has_room};
ghost use Rattle.cfg.specs.ModelKinds.{is_int_type};
ghost use Rattle.cfg.specs.WellFormed as spec;
ghost use Rattle.cfg.specs.WellFormed.{names_of};

use cc_base::IntType;
use cfg::{Amount, Flow, Instruction, Operation, Scalar};
use cfg_bases_checks::{
    is_automatic, is_declared, is_extent, is_int_type, is_number, is_optional_extent, is_scalar,
    is_site,
};

/// Whether a temporary is there.
pub fn has_temp(flow: &Flow, temp: u32) -> bool
    ensures { result ≡ spec.has_temp (names_of flow.now) temp }
{
    temp < flow.temps
}

fn has_amount(flow: &Flow, amount: Amount) -> bool
    ensures { result ≡ spec.has_amount (names_of flow.now) amount }
{
    match amount {
        Amount::Temp(temp) => has_temp(flow, temp),
        Amount::One => true,
    }
}

fn has_result(flow: &Flow, to: Option<u32>) -> bool
    ensures { result ≡ spec.has_result (names_of flow.now) to }
{
    match to {
        None => true,
        Some(temp) => has_temp(flow, temp),
    }
}

fn has_kept(flow: &Flow, kept: Option<(u32, u32)>) -> bool
    ensures { result ≡ spec.has_kept (names_of flow.now) kept }
{
    match kept {
        None => true,
        Some(pair) => has_temp(flow, pair.0) && has_temp(flow, pair.1),
    }
}

fn has_temps(flow: &Flow, temps: &[u32]) -> bool
    ensures { result ≡ list_all (spec.has_temp (names_of flow.now)) temps.now }
{
    temps.iter().all(|temp| has_temp(flow, *temp))
}

/// Whether a base is an object of a block.
fn has_local(flow: &Flow, base: u32) -> bool
    ensures { result ≡ spec.has_local (names_of flow.now) base }
{
    is_automatic(flow.bases.as_slice(), base)
}

fn has_declared(flow: &Flow, base: u32) -> bool
    ensures { result ≡ spec.is_declared (spec.kind_at flow.now.bases.items base) }
{
    is_declared(flow.bases.as_slice(), base)
}

fn has_struct(flow: &Flow, index: u32) -> bool
    ensures { result ≡ nat_lt index (length flow.now.structs.items.items) }
{
    (index as usize) < flow.structs.items.len()
}

fn has_site(flow: &Flow, site: Option<u32>) -> bool
    ensures { result ≡ spec.is_site flow.now.bases.items site }
{
    is_site(flow.bases.as_slice(), site)
}

/// Whether an object reaches to an offset.
fn has_offset(flow: &Flow, base: u32, at: u64) -> bool
    ensures { result ≡ spec.reaches at (slice_get flow.now.bases.items base) }
{
    cfg_bases_checks::reaches(flow.bases.as_slice(), base, at)
}

/// Whether a text may be spelled into so many bytes at an offset of an object.
fn has_room(flow: &Flow, base: u32, at: u64, room: u64) -> bool
    ensures { result ≡ ((is_extent at && is_extent room) && has_room at room (slice_get flow.now.bases.items base)) }
{
    (is_extent(at) && is_extent(room))
        && cfg_bases_checks::has_room(flow.bases.as_slice(), base, at, room)
}

fn has_type(flow: &Flow, kind: IntType) -> bool
    ensures { result ≡ is_int_type flow.now.model kind }
{
    is_int_type(&flow.model, kind)
}

fn has_scalar(flow: &Flow, kind: Scalar) -> bool
    ensures { result ≡ spec.is_scalar flow.now.model kind }
{
    is_scalar(&flow.model, kind)
}

/// Whether two temporaries are there.
fn has_both(flow: &Flow, a: u32, b: u32) -> bool
    ensures { result ≡ (spec.has_temp (names_of flow.now) a && spec.has_temp (names_of flow.now) b) }
{
    has_temp(flow, a) && has_temp(flow, b)
}

/// Whether the arguments of a library call are there, and its site and its size are ones.
fn fits_call(flow: &Flow, arguments: &[u32], site: Option<u32>, size: Option<u64>) -> bool
    ensures { result ≡ (list_all (spec.has_temp (names_of flow.now)) arguments.now && (spec.is_site flow.now.bases.items site && spec.is_optional_extent size)) }
{
    has_temps(flow, arguments) && (has_site(flow, site) && is_optional_extent(size))
}

/// Whether an instruction names only what is there, in its kind and its range.
#[tactic(auto, using(cfg_bases_checks::proofs::KindReads::both_there, cfg_bases_checks::proofs::KindReads::not_both))]
fn fits_operation(flow: &Flow, operation: &Operation) -> bool
    ensures { result ≡ spec.fits_operation (names_of flow.now) operation.now }
{
    match operation {
        Operation::Constant(to, n, kind) => {
            has_temp(flow, *to) && (is_number(*n) && has_type(flow, *kind))
        }
        Operation::Address(to, base, at) => {
            has_temp(flow, *to) && (has_declared(flow, *base) && has_offset(flow, *base, *at))
        }
        Operation::Load(to, from, kind) => has_both(flow, *to, *from) && has_scalar(flow, *kind),
        Operation::Store(to, from, kind, kept) => {
            has_both(flow, *to, *from) && (has_scalar(flow, *kind) && has_kept(flow, *kept))
        }
        Operation::Copy(to, from, index) => has_both(flow, *to, *from) && has_struct(flow, *index),
        Operation::Narrow(to, from, at, size) => {
            has_both(flow, *to, *from) && (is_extent(*at) && is_extent(*size))
        }
        Operation::Shift(to, from, by, size, _) => {
            has_both(flow, *to, *from) && (has_amount(flow, *by) && is_extent(*size))
        }
        Operation::Binary(to, _, a, b, kind) => {
            has_both(flow, *to, *a) && (has_amount(flow, *b) && has_type(flow, *kind))
        }
        Operation::Unary(to, _, from, kind) => has_both(flow, *to, *from) && has_type(flow, *kind),
        Operation::Compare(to, _, a, b) => has_temp(flow, *to) && has_both(flow, *a, *b),
        Operation::Not(to, from, kind) => has_both(flow, *to, *from) && has_scalar(flow, *kind),
        Operation::Difference(to, a, b, size) => {
            has_both(flow, *to, *a) && (has_temp(flow, *b) && (is_extent(*size) && 0 < *size))
        }
        Operation::ComparePointers(to, _, a, b) => has_temp(flow, *to) && has_both(flow, *a, *b),
        Operation::Convert(to, from, old, new) => {
            has_both(flow, *to, *from) && (has_scalar(flow, *old) && has_scalar(flow, *new))
        }
        Operation::Library(to, _, arguments, site, size) => {
            has_result(flow, *to) && fits_call(flow, arguments.as_slice(), *site, *size)
        }
        Operation::Enter(base) => has_local(flow, *base),
        Operation::Leave(base) => has_local(flow, *base),
        Operation::Forget(base) => has_local(flow, *base),
        Operation::Clear(base) => has_local(flow, *base),
        Operation::Spell(base, at, size, _) => {
            has_local(flow, *base) && has_room(flow, *base, *at, *size)
        }
        Operation::Jump => true,
        Operation::Branch(from, kind) => has_temp(flow, *from) && has_scalar(flow, *kind),
        Operation::Switch(from, kind) => has_temp(flow, *from) && has_type(flow, *kind),
        Operation::ReadLine(to, text, count, stream) => {
            has_result(flow, *to) && (has_temp(flow, *text) && has_both(flow, *count, *stream))
        }
        Operation::Stop => true,
    }
}

/// Whether all of these instructions do.
pub fn fit_operations(flow: &Flow, instructions: &[Instruction]) -> bool
    ensures { result ≡ list_all (λ i. spec.fits_operation (names_of flow.now) i.operation) instructions.now }
{
    instructions
        .iter()
        .all(|one| fits_operation(flow, &one.operation))
}
