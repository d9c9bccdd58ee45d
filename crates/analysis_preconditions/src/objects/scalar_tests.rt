//! The objects that tests and cases of edges name.
ghost use Rattle.std.specs.Prelude.{◌≡◌};
ghost use Rattle.std.specs.List.{list_all};
ghost use Rattle.cc_base.specs.IntegerTypes.{is_size};
ghost use Rattle.cfg.specs.WellFormed.{is_number};
ghost use Rattle.analysis_preconditions.specs.Objects.ScalarTests as spec;

use crate::objects::scalar_objects::{is_integer_object, is_scalar_object};
use c_layout::{BaseInfo, Model};
use cc_base::IntType;
use cfg::{Edge, EdgeKind, Flow, Scalar, Side, Test};

fn is_size(bytes: u8) -> bool
    ensures { result ≡ is_size bytes }
{
    bytes == 1 || (bytes == 2 || (bytes == 4 || bytes == 8))
}

fn is_number(n: i128) -> bool
    ensures { result ≡ is_number n }
{
    -9_223_372_036_854_775_808 <= n && n <= 18_446_744_073_709_551_615
}

fn names_scalar(model: &Model, bases: &[BaseInfo], side: Side) -> bool
    ensures { result ≡ spec.names_scalar model.now bases.now side }
{
    match side {
        Side::Object(base, kind) => is_scalar_object(model, bases, base, kind),
        Side::Number(n) => is_number(n),
        Side::Null => true,
    }
}

fn is_pointer_kind(kind: Scalar) -> bool
    ensures { result ≡ spec.is_pointer_kind kind }
{
    match kind {
        Scalar::Int(_) => false,
        Scalar::Pointer => true,
    }
}

fn compares_pointer(model: &Model, bases: &[BaseInfo], base: u32, kind: Scalar, right: Side) -> bool
    ensures { result ≡ spec.compares_pointer model.now bases.now base kind right }
{
    match right {
        Side::Object(_, _) => true,
        Side::Number(_) => true,
        Side::Null => {
            is_pointer_kind(kind) && is_scalar_object(model, bases, base, Scalar::Pointer)
        }
    }
}

fn compares_pointers(model: &Model, bases: &[BaseInfo], left: Side, right: Side) -> bool
    ensures { result ≡ spec.compares_pointers model.now bases.now left right }
{
    match left {
        Side::Object(base, kind) => compares_pointer(model, bases, base, kind, right),
        Side::Number(_) => true,
        Side::Null => true,
    }
}

fn compares_scalars(model: &Model, bases: &[BaseInfo], test: Test, common: Option<IntType>) -> bool
    ensures { result ≡ spec.compares_scalars model.now bases.now test common }
{
    match common {
        Some(kind) => {
            is_size(kind.bytes)
                && (names_scalar(model, bases, test.left) && names_scalar(model, bases, test.right))
        }
        None => compares_pointers(model, bases, test.left, test.right),
    }
}

fn tests_scalars(model: &Model, bases: &[BaseInfo], test: Option<Test>) -> bool
    ensures { result ≡ spec.tests_scalars model.now bases.now test }
{
    match test {
        None => true,
        Some(test) => compares_scalars(model, bases, test, test.common),
    }
}

fn matches_integer(model: &Model, bases: &[BaseInfo], object: Option<u32>) -> bool
    ensures { result ≡ spec.matches_integer model.now bases.now object }
{
    match object {
        None => true,
        Some(base) => is_integer_object(model, bases, base),
    }
}

/// Whether the objects that an edge names are scalars.
fn follows_scalars(model: &Model, bases: &[BaseInfo], kind: &EdgeKind) -> bool
    ensures { result ≡ spec.follows_scalars model.now bases.now kind.now }
{
    match kind {
        EdgeKind::When(_, test, _) => tests_scalars(model, bases, *test),
        EdgeKind::Case(case) => matches_integer(model, bases, case.object),
        EdgeKind::Jump => true,
        EdgeKind::Other(_) => true,
        EdgeKind::NoLine => true,
        EdgeKind::Line => true,
    }
}

fn follow_scalars(model: &Model, bases: &[BaseInfo], edges: &[Edge]) -> bool
    ensures { result ≡ list_all (λ e. spec.follows_scalars model.now bases.now e.kind) edges.now }
{
    edges
        .iter()
        .all(|edge| follows_scalars(model, bases, &edge.kind))
}

/// Whether the tests and the cases of all edges name scalars, of the kinds that they read.
pub fn all_follow_scalars(flow: &Flow) -> bool
    ensures { result ≡ spec.all_follow_scalars flow.now }
{
    follow_scalars(&flow.model, flow.bases.as_slice(), flow.edges.as_slice())
}
