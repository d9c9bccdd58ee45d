//! Units that were checked by hand, and what the rules find in them.
use c_layout::{
    BinaryOp, CType, CaseLabel, Checked, CheckedStatement, CheckedTerm, ConversionKind, Function,
    Lvalue, LvalueForm, Model, ObjectRef, Structs, TermForm,
};
use cc_base::{Place, Text};
use std::alloc::Global;
use std::fmt::Write;
use std::test::Fail;
use syntactic_rules::syntactic;

const LP64: Model = Model {
    short: 2,
    int: 4,
    long: 8,
    long_long: 8,
    pointer: 8,
    char_signed: true,
};

fn at(col: u32) -> Place {
    Place {
        file: 0,
        line: 1,
        col,
    }
}

fn term(col: u32, parens: u32, form: TermForm) -> CheckedTerm {
    CheckedTerm {
        place: at(col),
        ctype: CType::Void,
        parens,
        constant: None,
        form,
    }
}

fn number(col: u32) -> CheckedTerm {
    term(col, 0, TermForm::Number(1))
}

fn object(col: u32) -> Lvalue {
    Lvalue {
        place: at(col),
        ctype: CType::Void,
        parens: 0,
        form: LvalueForm::Object(ObjectRef::Local(0)),
    }
}

/// An assignment in so many pairs of parentheses.
fn assignment(alloc: Global, col: u32, parens: u32) -> Result<CheckedTerm, Fail> {
    let target = Box::new(alloc, object(0))?;
    let value = Box::new(alloc, number(0))?;
    Ok(term(col, parens, TermForm::Assign(target, value)))
}

fn conditional(
    alloc: Global,
    test: CheckedTerm,
    first: CheckedTerm,
    second: CheckedTerm,
) -> Result<CheckedTerm, Fail> {
    let test = Box::new(alloc, test)?;
    let first = Box::new(alloc, first)?;
    let second = Box::new(alloc, second)?;
    Ok(term(0, 0, TermForm::Conditional(test, first, second)))
}

/// `if` around a null statement.
fn if_statement(alloc: Global, test: CheckedTerm) -> Result<CheckedStatement, Fail> {
    let body = Box::new(alloc, CheckedStatement::Nothing)?;
    Ok(CheckedStatement::If(test, body))
}

/// A unit with one function of these statements.
fn unit_of(alloc: Global, body: Vec<CheckedStatement>) -> Result<Checked, Fail> {
    let mut functions = Vec::new(alloc);
    functions.push(Function {
        name: Text::new(alloc),
        place: at(5),
        result: CType::Void,
        parameters: 0,
        locals: Vec::new(alloc),
        scope: Vec::new(alloc),
        body,
        labels: 0,
    })?;
    Ok(Checked {
        functions,
        constants: Vec::new(alloc),
        objects: Vec::new(alloc),
        structs: Structs {
            items: Vec::new(alloc),
        },
        literals: Vec::new(alloc),
        entry: 0,
        model: LP64,
    })
}

/// Columns and tags of what is found.
fn found(alloc: Global, body: Vec<CheckedStatement>) -> Result<String, Fail> {
    let unit = unit_of(alloc, body)?;
    let diags = syntactic(alloc, &unit)?;
    let mut text = String::new(alloc);
    for diag in &diags {
        let col = diag.place.col;
        let tag = diag.rule.tag();
        write!(text, "{col} {tag};")?;
    }
    Ok(text)
}

#[test]
fn assignments_in_conditions(rt: HostRuntime) -> Result<(), Fail> {
    let alloc = rt.alloc();
    // if(a=b)a=0;if((a=b))a=0;if((a=b)!=0)a=0;
    let mut body = Vec::new(alloc);
    body.push(if_statement(alloc, assignment(alloc, 36, 0)?)?)?;
    body.push(CheckedStatement::Value(assignment(alloc, 40, 0)?))?;
    body.push(if_statement(alloc, assignment(alloc, 48, 1)?)?)?;
    let left = Box::new(alloc, assignment(alloc, 62, 1)?)?;
    let right = Box::new(alloc, number(67))?;
    let compared = TermForm::Integer(BinaryOp::NotEqual, left, right);
    body.push(if_statement(alloc, term(65, 0, compared))?)?;
    assert!(rt; found(alloc, body)?.as_str() == "36 boolasgn;");
    Ok(())
}

#[test]
fn slots_inside_slots(rt: HostRuntime) -> Result<(), Fail> {
    let alloc = rt.alloc();
    // return (a=b)?a:(b=a); the same place is found once
    let test = assignment(alloc, 55, 1)?;
    let chosen = conditional(alloc, test, number(59), assignment(alloc, 63, 1)?)?;
    let again = if_statement(alloc, assignment(alloc, 55, 0)?)?;
    let mut body = Vec::new(alloc);
    body.push(CheckedStatement::Return(at(47), Some(chosen)))?;
    body.push(again)?;
    assert!(rt; found(alloc, body)?.as_str() == "55 boolasgn;");
    // return(a=b,b=a)?1:2;
    let first = Box::new(alloc, assignment(alloc, 54, 0)?)?;
    let last = Box::new(alloc, assignment(alloc, 58, 0)?)?;
    let both = term(56, 1, TermForm::Comma(first, last));
    let chosen = conditional(alloc, both, number(63), number(65))?;
    let mut body = Vec::new(alloc);
    body.push(CheckedStatement::Return(at(47), Some(chosen)))?;
    assert!(rt; found(alloc, body)?.as_str() == "58 boolasgn;");
    // if(a?b=0:(b=0)), with a conversion that the text does not show
    let bare = Box::new(alloc, assignment(alloc, 6, 0)?)?;
    let first = term(6, 0, TermForm::Convert(ConversionKind::Implicit, bare));
    let chosen = conditional(alloc, number(4), first, assignment(alloc, 11, 1)?)?;
    let mut body = Vec::new(alloc);
    body.push(if_statement(alloc, chosen)?)?;
    assert!(rt; found(alloc, body)?.as_str() == "6 boolasgn;11 boolasgn;");
    Ok(())
}

/// `switch` with one case label.
fn switch_statement(
    alloc: Global,
    value: CheckedTerm,
    has_default: bool,
    enumerators: Option<Vec<i128>>,
) -> Result<CheckedStatement, Fail> {
    let mut cases = Vec::new(alloc);
    cases.push(CaseLabel {
        place: at(35),
        value: 1,
    })?;
    let body = Box::new(alloc, CheckedStatement::Nothing)?;
    Ok(CheckedStatement::Switch(at(25), value, cases, has_default, enumerators, body))
}

/// What is found in a `switch` on a value whose enumerated type, if it has one, has one enumerator.
fn found_in_switch(
    alloc: Global,
    has_default: bool,
    enumerator: Option<i128>,
) -> Result<String, Fail> {
    let mut values = Vec::new(alloc);
    let enumerators = match enumerator {
        Some(value) => {
            values.push(value)?;
            Some(values)
        }
        None => None,
    };
    let mut body = Vec::new(alloc);
    let value = assignment(alloc, 32, 0)?;
    body.push(switch_statement(alloc, value, has_default, enumerators)?)?;
    found(alloc, body)
}

#[test]
fn switches_without_default(rt: HostRuntime) -> Result<(), Fail> {
    let alloc = rt.alloc();
    assert!(rt; found_in_switch(alloc, false, None)?.as_str() == "25 swtchdflt;");
    assert!(rt; found_in_switch(alloc, true, None)?.is_empty());
    assert!(rt; found_in_switch(alloc, false, Some(1))?.is_empty());
    assert!(rt; found_in_switch(alloc, false, Some(2))?.as_str() == "25 swtchdflt;");
    Ok(())
}

#[test]
fn sizes_of_pointers(rt: HostRuntime) -> Result<(), Fail> {
    let alloc = rt.alloc();
    // return sizeof sizeof p;
    let load = term(57, 0, TermForm::Load(Box::new(alloc, object(57))?));
    let inner = term(
        56,
        0,
        TermForm::Sizeof(8, Some(Box::new(alloc, load)?), true),
    );
    let outer = term(
        49,
        0,
        TermForm::Sizeof(8, Some(Box::new(alloc, inner)?), false),
    );
    let mut body = Vec::new(alloc);
    body.push(CheckedStatement::Return(at(42), Some(outer)))?;
    assert!(rt; found(alloc, body)?.as_str() == "56 sizeofptr;");
    Ok(())
}
