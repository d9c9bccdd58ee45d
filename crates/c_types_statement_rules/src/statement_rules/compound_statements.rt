//! What statements with statements in them are judged by once their parts have types (6.8.1,
//! 6.8.4.2 of ISO/IEC 9899:2011).
ghost use Rattle.std.specs.Prelude.{◌≡◌, IfOk, Ok, slice_get, option_map, vec_items};
ghost use Rattle.c_layout.specs.Types.{view};
ghost use Rattle.c_layout.specs.SyntaxTrees.{tree_of};
ghost use Rattle.c_layout.specs.CheckedTrees.{term_tree, statement_tree};
ghost use Rattle.c_types_scopes.specs.Answers.{Gives, Leads};
ghost use Rattle.c_types_scopes.specs.Known.{known};
ghost use Rattle.c_types_scopes.specs.States.{state};
ghost use Rattle.c_types_statement_rules.specs.StatementRules.BodyFlow.{flow_view, innermost, closed};
ghost use Rattle.c_types_statement_rules.specs.StatementRules.Points.{point};
ghost use Rattle.c_types_statement_rules.specs.StatementRules.SimpleStatements.{boxed_statement};
ghost use Rattle.c_types_statement_rules.specs.StatementRules.CompoundStatements as spec;
ghost use Rattle.c_types_statement_rules.specs.StatementRules.CompoundStatements.{controlling_view};

use crate::statement_rules::body_flow::{AddedCase, BodyFlow, OpenSwitch};
use crate::statement_rules::simple_statements::{boxed, valued};
use c_layout::{CType, CaseLabel, CheckedStatement, CheckedTerm, Expr};
use c_types_expressions::expressions::{Operand, integer_as, term_of, typed};
use c_types_rules::rules::{int_kind, promoted};
use c_types_scopes::{Context, constant_needed, redeclared, type_fault};
use cc_base::{IntType, Memory, Place, Stop};

/// The controlling expression of a switch: its term, its promoted type where it is an integer, and
/// the enumerated type that its declaration names.
#[derive(Drop)]
pub struct Controlling {
    pub term: Box<CheckedTerm>,
    pub kind: Option<IntType>,
    pub enumeration: Option<u32>,
}

/// The promoted type of the value of a switch, where it is an integer.
fn control_kind(cx: &Context, t: &CType) -> Option<IntType>
    ensures { result ≡ spec.control_kind (known cx.now).numbers (view t.now) }
{
    match t {
        CType::Int(kind) => Some(promoted(&cx.model.numbers, *kind)),
        CType::Pointer(_) => None,
        CType::Array(_, _) => None,
        CType::Struct(_) => None,
        CType::Void => None,
    }
}

/// The controlling expression of a switch.
pub fn controlling_expression(cx: &mut Context, e: &Expr) -> Result<Controlling, Stop>
    ensures { Leads controlling_view (spec.controlling_expression (state cx.old) (tree_of e.now)) result (state cx.new) }
{
    let operand: Operand = typed(cx, e)?;
    let enumeration = operand.enumeration;
    let term = term_of(cx.alloc, operand)?;
    let kind = control_kind(cx, &term.ctype);
    Ok(Controlling {
        term,
        kind,
        enumeration,
    })
}

/// The type of the labels of a switch: int where its value is no integer.
fn label_kind(cx: &Context, kind: Option<IntType>) -> IntType
    ensures { result ≡ spec.label_kind (known cx.now).numbers kind }
{
    match kind {
        Some(kind) => kind,
        None => int_kind(&cx.model.numbers),
    }
}

/// Opens a switch. Where its value is no integer, which is refused behind its body, its labels are
/// taken as ints.
pub fn open_switch(cx: &Context, flow: &mut BodyFlow, control: &Controlling) -> Result<(), Memory>
    ensures { IfOk result (λ _. flow_view flow.new ≡ spec.open_switch (known cx.now).numbers (controlling_view control.now) (flow_view flow.old)) }
{
    let kind = label_kind(cx, control.kind);
    flow.open(OpenSwitch::new(cx.alloc, kind))
}

/// The values of an enumeration's constants.
fn enumerator_values(cx: &Context, number: u32) -> Result<Option<Vec<i128>>, Memory>
    ensures { IfOk result (λ v. option_map vec_items v ≡ slice_get (state cx.now).enumerations number) }
{
    match cx.enumerations.get(number as usize) {
        Some(values) => Ok(Some(Vec::from_slice(cx.alloc, values.as_slice())?)),
        None => Ok(None),
    }
}

/// The values of the constants of the enumeration that a declaration names.
fn values_of(cx: &Context, enumeration: Option<u32>) -> Result<Option<Vec<i128>>, Memory>
    ensures { IfOk result (λ v. option_map vec_items v ≡ spec.values_of (state cx.now) enumeration) }
{
    match enumeration {
        Some(number) => enumerator_values(cx, number),
        None => Ok(None),
    }
}

/// The labels of the innermost switch, which ends, and whether it has a default.
fn closed_switch(cx: &Context, flow: &mut BodyFlow) -> (Vec<CaseLabel>, bool)
    ensures labels { result.0.items ≡ spec.labels_in (innermost (flow_view flow.old)) }
    ensures default { result.1 ≡ spec.has_default_in (innermost (flow_view flow.old)) }
    ensures after { flow_view flow.new ≡ closed (flow_view flow.old) }
{
    match flow.close() {
        Some(open) => {
            let OpenSwitch {
                labels,
                has_default,
                ..
            } = open;
            (labels, has_default)
        }
        None => (Vec::new(cx.alloc), false),
    }
}

/// A switch whose body has a type.
pub fn close_switch(
    cx: &Context,
    flow: &mut BodyFlow,
    place: Place,
    control: Controlling,
    body: Box<CheckedStatement>,
) -> Result<Box<CheckedStatement>, Stop>
    ensures { Leads boxed_statement (spec.close_switch (state cx.now) (flow_view flow.old) place (controlling_view control) (statement_tree body.value)) result (flow_view flow.new) }
{
    let (labels, has_default) = closed_switch(cx, flow);
    let Controlling {
        term,
        kind,
        enumeration,
    } = control;
    let Some(kind) = kind else {
        return Err(type_fault(place));
    };
    let values = values_of(cx, enumeration)?;
    let term = integer_as(cx, term, kind)?;
    let term = Box::into_inner(term);
    let made = CheckedStatement::Switch(place, term, labels, has_default, values, body);
    boxed(cx.alloc, made)
}

/// How a case label stands.
#[derive(Clone, Copy)]
pub enum CaseStanding {
    /// In no switch.
    Stray,
    /// Its expression is no integer constant.
    Variable,
    Added(AddedCase),
}

/// The value of an integer constant expression.
fn case_constant(term: &CheckedTerm) -> Option<i128>
    ensures { result ≡ spec.case_constant (term_tree term.now) }
{
    match &term.ctype {
        CType::Int(_) => term.constant,
        CType::Pointer(_) => None,
        CType::Array(_, _) => None,
        CType::Struct(_) => None,
        CType::Void => None,
    }
}

/// Adds a label of a value to the innermost switch.
fn added(
    cx: &mut Context,
    flow: &mut BodyFlow,
    place: Place,
    term: Box<CheckedTerm>,
    n: i128,
) -> Result<CaseStanding, Memory>
    ensures { IfOk result (λ s. spec.added (flow_view flow.old) place (term_tree term.value) n (state cx.old) ≡ Ok (s, point (state cx.new) (flow_view flow.new))) }
{
    cx.keep_constant(term)?;
    match flow.add_case(place, n)? {
        Some(added) => Ok(CaseStanding::Added(added)),
        None => Ok(CaseStanding::Stray),
    }
}

/// Adds the label of a case, whose expression has a type, to the innermost switch.
fn standing_in(
    cx: &mut Context,
    flow: &mut BodyFlow,
    place: Place,
    term: Box<CheckedTerm>,
) -> Result<CaseStanding, Stop>
    ensures { Leads (λ s. s) (spec.standing_in (flow_view flow.old) place (term_tree term.value) (state cx.old)) result (point (state cx.new) (flow_view flow.new)) }
{
    if flow.switches.len() == 0 {
        return Ok(CaseStanding::Stray);
    }
    match case_constant(&term) {
        Some(n) => Ok(added(cx, flow, place, term, n)?),
        None => Ok(CaseStanding::Variable),
    }
}

/// Adds the label of a case to the innermost switch.
pub fn case_standing(
    cx: &mut Context,
    flow: &mut BodyFlow,
    place: Place,
    e: &Expr,
) -> Result<CaseStanding, Stop>
    ensures { Leads (λ s. s) (spec.case_standing (point (state cx.old) (flow_view flow.old)) place (tree_of e.now)) result (point (state cx.new) (flow_view flow.new)) }
{
    let term = valued(cx, e)?;
    standing_in(cx, flow, place, term)
}

/// A case whose statement has a type.
pub fn case_statement(
    cx: &Context,
    place: Place,
    standing: CaseStanding,
    inner: Box<CheckedStatement>,
) -> Result<Box<CheckedStatement>, Stop>
    ensures { Gives boxed_statement (spec.case_statement place standing (statement_tree inner.value)) result }
{
    match standing {
        CaseStanding::Stray => Err(type_fault(place)),
        CaseStanding::Variable => Err(constant_needed(place)),
        CaseStanding::Added(added) => {
            if added.is_repeated {
                return Err(redeclared(place));
            }
            boxed(cx.alloc, CheckedStatement::Case(added.number, inner))
        }
    }
}

/// A default whose statement has a type; `before` says whether its switch had one.
pub fn default_statement(
    cx: &Context,
    place: Place,
    before: Option<bool>,
    inner: Box<CheckedStatement>,
) -> Result<Box<CheckedStatement>, Stop>
    ensures { Gives boxed_statement (spec.default_statement place before (statement_tree inner.value)) result }
{
    match before {
        None => Err(type_fault(place)),
        Some(true) => Err(redeclared(place)),
        Some(false) => boxed(cx.alloc, CheckedStatement::Default(inner)),
    }
}
