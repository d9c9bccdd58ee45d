//! The lines of edges.
use crate::program_text::operation_texts::push_type;
use crate::program_text::word_texts::relation_text;
use cc_base::IntType;
use cfg::{CaseTest, Edge, EdgeKind, Side, Test};
use std::alloc::AllocError;
use std::fmt::Write;

fn push_side(out: &mut String, side: Side) -> Result<(), AllocError> {
    match side {
        Side::Object(base, _) => write!(out, "b{base}"),
        Side::Number(n) => write!(out, "{n}"),
        Side::Null => out.push_str("null"),
    }
}

fn push_common(out: &mut String, common: Option<IntType>) -> Result<(), AllocError> {
    match common {
        Some(kind) => {
            out.push_str(" in ")?;
            push_type(out, kind)
        }
        None => Ok(()),
    }
}

fn push_test(out: &mut String, test: Option<Test>) -> Result<(), AllocError> {
    match test {
        Some(test) => {
            out.push_str(" test ")?;
            push_side(out, test.left)?;
            let sign = relation_text(test.rel);
            write!(out, " {sign} ")?;
            push_side(out, test.right)?;
            push_common(out, test.common)
        }
        None => Ok(()),
    }
}

fn push_put(out: &mut String, put: Option<(u32, i128)>) -> Result<(), AllocError> {
    match put {
        Some((temp, n)) => write!(out, " put t{temp} = {n}"),
        None => Ok(()),
    }
}

fn push_case(out: &mut String, case: CaseTest) -> Result<(), AllocError> {
    let value = case.value;
    write!(out, " case {value}")?;
    match case.object {
        Some(base) => write!(out, " of b{base}"),
        None => Ok(()),
    }
}

fn push_kind(out: &mut String, kind: &EdgeKind) -> Result<(), AllocError> {
    match kind {
        EdgeKind::Jump => Ok(()),
        EdgeKind::When(truth, test, put) => {
            let truth = if *truth { " true" } else { " false" };
            out.push_str(truth)?;
            push_test(out, *test)?;
            push_put(out, *put)
        }
        EdgeKind::Case(case) => push_case(out, *case),
        EdgeKind::Other(_) => out.push_str(" other"),
        EdgeKind::NoLine => out.push_str(" no line"),
        EdgeKind::Line => out.push_str(" line"),
    }
}

/// Writes the line of an edge.
pub fn push_edge(out: &mut String, edge: &Edge) -> Result<(), AllocError> {
    let to = edge.to;
    write!(out, "  -> {to}")?;
    push_kind(out, &edge.kind)?;
    out.push_str("\n")
}
