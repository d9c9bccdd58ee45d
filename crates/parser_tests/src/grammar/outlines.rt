//! Outlines of trees: how a unit is grouped. In an outline a leaf is the number of its token.
use crate::grammar::blank_tokens::parsed;
use c_layout::{
    BinaryOp, Declarator, Expr, External, InitDeclarator, Initializer, Statement, Tree7,
};
use std::alloc::Global;
use std::fmt::Write;
use std::process::Abort;
use std::test::Fail;

/// More than any depth in these tests.
const FUEL: u32 = 20;

/// An expression's sign and its parts.
#[derive(Clone, Copy)]
struct Node<'a> {
    sign: &'static str,
    first: Option<&'a Expr>,
    second: Option<&'a Expr>,
    third: Option<&'a Expr>,
}

fn leaf<'a>(sign: &'static str) -> Node<'a> {
    Node {
        sign,
        first: None,
        second: None,
        third: None,
    }
}

fn unary<'a>(sign: &'static str, part: &'a Expr) -> Node<'a> {
    Node {
        sign,
        first: Some(part),
        second: None,
        third: None,
    }
}

fn binary<'a>(sign: &'static str, left: &'a Expr, right: &'a Expr) -> Node<'a> {
    Node {
        sign,
        first: Some(left),
        second: Some(right),
        third: None,
    }
}

fn sign_of(op: BinaryOp) -> &'static str {
    match op {
        BinaryOp::Multiply => "*",
        BinaryOp::Divide => "/",
        BinaryOp::Remainder => "%",
        BinaryOp::Add => "+",
        BinaryOp::Subtract => "-",
        BinaryOp::ShiftLeft => "<<",
        BinaryOp::ShiftRight => ">>",
        BinaryOp::Less => "<",
        BinaryOp::Greater => ">",
        BinaryOp::LessEqual => "<=",
        BinaryOp::GreaterEqual => ">=",
        BinaryOp::Equal => "==",
        BinaryOp::NotEqual => "!=",
        BinaryOp::And => "&",
        BinaryOp::Xor => "^",
        BinaryOp::Or => "|",
    }
}

/// A call, with its first three arguments.
fn called(arguments: &[Expr]) -> Node<'_> {
    Node {
        sign: "call",
        first: arguments.get(0),
        second: arguments.get(1),
        third: arguments.get(2),
    }
}

fn node_of(e: &Expr) -> Node<'_> {
    match e {
        Expr::Paren(_, part) => unary("()", part),
        Expr::Member(_, part, _) => unary(".", part),
        Expr::Arrow(_, part, _) => unary("->", part),
        Expr::Postfix(_, _, part) => unary("post", part),
        Expr::Prefix(_, _, part) => unary("pre", part),
        Expr::Unary(_, _, part) => unary("un", part),
        Expr::SizeofExpr(_, part) => unary("sizeof", part),
        Expr::SizeofType(_, _, _) => leaf("sizeof type"),
        Expr::Cast(_, _, _, part) => unary("cast", part),
        Expr::Subscript(_, left, right) => binary("[]", left, right),
        Expr::Binary(_, op, left, right) => binary(sign_of(*op), left, right),
        Expr::Logical(_, _, left, right) => binary("logical", left, right),
        Expr::Assign(_, _, left, right) => binary("=", left, right),
        Expr::Comma(_, left, right) => binary(",", left, right),
        Expr::Conditional(_, test, left, right) => Node {
            sign: "?",
            first: Some(test),
            second: Some(left),
            third: Some(right),
        },
        Expr::Call(_, _, arguments) => called(arguments.as_slice()),
        _ => leaf(""),
    }
}

#[cycle(expression_outline)]
fn add_part(out: &mut String, part: Option<&Expr>, fuel: u32) -> Result<(), Fail> {
    match part {
        Some(e) if fuel > 0 => {
            out.push_str(" ")?;
            add_expression(out, e, fuel - 1)
        }
        _ => Ok(()),
    }
}

/// Writes the outline of an expression.
#[cycle(expression_outline)]
fn add_expression(out: &mut String, e: &Expr, fuel: u32) -> Result<(), Fail> {
    let Node {
        sign,
        first,
        second,
        third,
    } = node_of(e);
    if sign.is_empty() {
        let col = e.place().col;
        write!(out, "{col}")?;
        return Ok(());
    }
    write!(out, "({sign}")?;
    add_part(out, first, fuel)?;
    add_part(out, second, fuel)?;
    add_part(out, third, fuel)?;
    out.push_str(")")?;
    Ok(())
}

/// The only declarator of the first external declaration.
fn first_declarator(tree: &Tree7) -> Option<&InitDeclarator> {
    match tree.externals.first() {
        Some(External::Declaration(_, _, declarators)) => declarators.first(),
        _ => None,
    }
}

/// The outline of the first initializer of a unit; nothing where there is none.
fn initializer(alloc: Global, text: &str) -> Result<String, Fail> {
    let mut out = String::new(alloc);
    if let Ok(tree) = parsed(alloc, text)? {
        if let Some(InitDeclarator::Initialized(_, _, Initializer::Value(e))) = first_declarator(
            &tree,
        ) {
            add_expression(&mut out, e, FUEL)?;
        }
    }
    Ok(out)
}

/// Stars and brackets of each layer, the outermost first, and the name's token.
fn add_declarator(out: &mut String, declared: &Declarator) -> Result<(), Fail> {
    for layer in &declared.layers {
        let stars = layer.stars.len();
        let arrays = layer.arrays.len();
        write!(out, "*{stars} []{arrays} / ")?;
    }
    if let Some(name) = &declared.name {
        let col = name.place.col;
        write!(out, "{col}")?;
    }
    Ok(())
}

fn declarator(alloc: Global, text: &str) -> Result<String, Fail> {
    let mut out = String::new(alloc);
    if let Ok(tree) = parsed(alloc, text)? {
        if let Some(InitDeclarator::Object(declared)) = first_declarator(&tree) {
            add_declarator(&mut out, declared)?;
        }
    }
    Ok(out)
}

/// A statement's sign and its parts.
#[derive(Clone, Copy)]
struct Step<'a> {
    sign: &'static str,
    first: Option<&'a Statement>,
    second: Option<&'a Statement>,
}

fn simple<'a>(sign: &'static str) -> Step<'a> {
    Step {
        sign,
        first: None,
        second: None,
    }
}

fn around<'a>(sign: &'static str, part: &'a Statement) -> Step<'a> {
    Step {
        sign,
        first: Some(part),
        second: None,
    }
}

fn value_sign(value: &Option<Expr>) -> &'static str {
    match value {
        Some(_) => "e",
        None => ";",
    }
}

fn step_of(s: &Statement) -> Step<'_> {
    match s {
        Statement::Label(_, part) => around("label", part),
        Statement::Case(_, _, part) => around("case", part),
        Statement::Default(_, part) => around("default", part),
        Statement::If(_, _, part) => around("if", part),
        Statement::Switch(_, _, part) => around("switch", part),
        Statement::While(_, _, part) => around("while", part),
        Statement::Do(_, part, _) => around("do", part),
        Statement::For(_, _, _, _, part) => around("for", part),
        Statement::IfElse(_, _, first, second) => Step {
            sign: "if",
            first: Some(first),
            second: Some(second),
        },
        Statement::Value(_, value) => simple(value_sign(value)),
        Statement::Block(_, _) => simple("{}"),
        Statement::Local(_) => simple("local"),
        _ => simple("jump"),
    }
}

#[cycle(statement_outline)]
fn add_inner(out: &mut String, part: Option<&Statement>, fuel: u32) -> Result<(), Fail> {
    match part {
        Some(s) if fuel > 0 => {
            out.push_str(" ")?;
            add_statement(out, s, fuel - 1)
        }
        _ => Ok(()),
    }
}

/// Writes the outline of a statement.
#[cycle(statement_outline)]
fn add_statement(out: &mut String, s: &Statement, fuel: u32) -> Result<(), Fail> {
    let Step {
        sign,
        first,
        second,
    } = step_of(s);
    write!(out, "({sign}")?;
    add_inner(out, first, fuel)?;
    add_inner(out, second, fuel)?;
    out.push_str(")")?;
    Ok(())
}

/// The outline of the first statement of the function that a unit is.
fn statement(alloc: Global, text: &str) -> Result<String, Fail> {
    let mut out = String::new(alloc);
    if let Ok(tree) = parsed(alloc, text)? {
        if let Some(External::Function(_, _, _, items)) = tree.externals.first() {
            if let Some(first) = items.first() {
                add_statement(&mut out, first, FUEL)?;
            }
        }
    }
    Ok(out)
}

/// Fails unless the first initializer of each unit is grouped so.
pub fn group_initializers(
    rt: &impl Abort,
    alloc: Global,
    rows: &[(&str, &str)],
) -> Result<(), Fail> {
    for (text, wanted) in rows {
        let found = initializer(alloc, text)?;
        assert!(rt; found.as_str() == *wanted, "{text}: {found}");
    }
    Ok(())
}

/// Fails unless the first declarator of each unit is grouped so.
pub fn group_declarators(
    rt: &impl Abort,
    alloc: Global,
    rows: &[(&str, &str)],
) -> Result<(), Fail> {
    for (text, wanted) in rows {
        let found = declarator(alloc, text)?;
        assert!(rt; found.as_str() == *wanted, "{text}: {found}");
    }
    Ok(())
}

/// Fails unless the first statement of each unit is grouped so.
pub fn group_statements(rt: &impl Abort, alloc: Global, rows: &[(&str, &str)]) -> Result<(), Fail> {
    for (text, wanted) in rows {
        let found = statement(alloc, text)?;
        assert!(rt; found.as_str() == *wanted, "{text}: {found}");
    }
    Ok(())
}
