//! What edges know.
ghost use Rattle.std.specs.Prelude.{◌≡◌};
ghost use Rattle.std.specs.List.{list_all};
ghost use Rattle.cfg.specs.WellFormed as spec;
ghost use Rattle.cfg.specs.WellFormed.{names_of};

use crate::operations::has_temp;
use cfg::{EdgeKind, Flow, Side, Test};
use cfg_bases_checks::{is_common, is_declared, is_number, is_scalar};

fn fits_side(flow: &Flow, side: Side) -> bool
    ensures { result ≡ spec.fits_side (names_of flow.now) side }
{
    match side {
        Side::Object(base, kind) => {
            is_declared(flow.bases.as_slice(), base) && is_scalar(&flow.model, kind)
        }
        Side::Number(value) => is_number(value),
        Side::Null => true,
    }
}

fn fits_test(flow: &Flow, test: Option<Test>) -> bool
    ensures { result ≡ spec.fits_test (names_of flow.now) test }
{
    match test {
        None => true,
        Some(test) => {
            fits_side(flow, test.left)
                && (fits_side(flow, test.right) && is_common(&flow.model, test.common))
        }
    }
}

/// Whether the temporary that takes a number on an edge is there, and the number is one.
fn fits_taken(flow: &Flow, taken: Option<(u32, i128)>) -> bool
    ensures { result ≡ spec.fits_taken (names_of flow.now) taken }
{
    match taken {
        None => true,
        Some(pair) => has_temp(flow, pair.0) && is_number(pair.1),
    }
}

/// Whether the object that is switched on is one, where it is known.
fn fits_object(flow: &Flow, object: Option<u32>) -> bool
    ensures { result ≡ spec.fits_object (names_of flow.now) object }
{
    match object {
        None => true,
        Some(base) => is_declared(flow.bases.as_slice(), base),
    }
}

fn are_numbers(values: &[i128]) -> bool
    ensures { result ≡ list_all spec.is_number values.now }
{
    values.iter().all(|value| is_number(*value))
}

fn fits_edge(flow: &Flow, kind: &EdgeKind) -> bool
    ensures { result ≡ spec.fits_edge (names_of flow.now) kind.now }
{
    match kind {
        EdgeKind::Jump => true,
        EdgeKind::When(_, test, taken) => fits_test(flow, *test) && fits_taken(flow, *taken),
        EdgeKind::Case(case) => is_number(case.value) && fits_object(flow, case.object),
        EdgeKind::Other(values) => are_numbers(values.as_slice()),
        EdgeKind::NoLine => true,
        EdgeKind::Line => true,
    }
}

/// Whether edges name only what is there, in its kind and its range.
pub fn fit_edges(flow: &Flow) -> bool
    ensures { result ≡ list_all (λ e. spec.fits_edge (names_of flow.now) e.kind) flow.now.edges.items }
{
    flow.edges.iter().all(|edge| fits_edge(flow, &edge.kind))
}
