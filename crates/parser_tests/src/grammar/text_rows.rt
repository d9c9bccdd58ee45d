//! Texts, preprocessed and parsed.
ghost use Rattle.std.specs.Prelude.{◌≡◌, true};
ghost use Rattle.c_layout.specs.Models.{is_model};

use c_layout::Model;
use c_parser::parse;
use c_preproc::expand;
use cc_base::{Fault, MemTree, Refusal, Stop};
use std::alloc::Global;
use std::fmt::Write;
use std::process::Abort;
use std::test::Fail;

/// The model of many 64-bit systems.
fn lp64() -> Model
    ensures { is_model result ≡ true }
{
    Model {
        short: 2,
        int: 4,
        long: 8,
        long_long: 8,
        pointer: 8,
        char_signed: true,
    }
}

fn refusal_name(refusal: &Refusal) -> &'static str {
    match refusal {
        Refusal::BadByte => "BadByte",
        Refusal::OpenComment => "OpenComment",
        Refusal::OpenLiteral => "OpenLiteral",
        Refusal::BadDirective => "BadDirective",
        Refusal::HeaderMissing(_) => "HeaderMissing",
        Refusal::NumberForm => "NumberForm",
        Refusal::Unsupported(_) => "Unsupported",
        Refusal::Syntax => "Syntax",
        _ => "another",
    }
}

/// The line, the column and the name of a refusal, and the text that it has.
fn printed(alloc: Global, fault: &Fault) -> Result<String, Fail> {
    let name = refusal_name(&fault.refusal);
    let line = fault.place.line;
    let col = fault.place.col;
    let mut out = format!(in alloc; "{line}:{col} {name}")?;
    match &fault.refusal {
        Refusal::HeaderMissing(text) | Refusal::Unsupported(text) => {
            let text = str::from_utf8(text.as_bytes()).unwrap_or("?");
            write!(out, " {text}")?;
        }
        _ => {}
    }
    Ok(out)
}

/// `ok`, or the refusal.
fn told<T: Drop>(alloc: Global, answer: Result<T, Stop>) -> Result<String, Fail> {
    match answer {
        Ok(_) => Ok(String::from_str(alloc, "ok")?),
        Err(Stop::Refused(fault)) => printed(alloc, &fault),
        Err(_) => Ok(String::from_str(alloc, "no refusal")?),
    }
}

/// What the unit `a.c` of a text, in a tree that holds `util.h` too, is preprocessed and parsed to.
fn answer(alloc: Global, text: &[u8]) -> Result<String, Fail> {
    let mut tree = MemTree::new(alloc, Vec::new(alloc));
    tree.add("a.c", text)?;
    tree.add("util.h", UTIL.as_bytes())?;
    let mut files = Vec::new(alloc);
    let model = lp64();
    match expand(alloc, &mut tree, "a.c", &[], &model, &mut files) {
        Ok(unit) => told(alloc, parse(alloc, &unit)),
        Err(stop) => told::<u8>(alloc, Err(stop)),
    }
}

/// Fails unless a text is answered so.
fn expect(rt: &impl Abort, alloc: Global, text: &[u8], wanted: &str) -> Result<(), Fail> {
    let found = answer(alloc, text)?;
    let length = text.len();
    assert!(rt;
        found.as_str() == wanted,
        "a text of {length} bytes: {found}"
    );
    Ok(())
}

/// Texts, and how each is answered.
const ROWS: [(&str, &str); 8] = [
    (
        "int main(void){return 0}\n\nfloat x;",
        "3:1 Unsupported float",
    ),
    ("int main(void){return 0;", "1:1 Syntax"),
    ("int x; /* a", "1:8 OpenComment"),
    ("int x=@;", "1:7 BadByte"),
    ("#include <math.h>", "1:1 HeaderMissing math.h"),
    ("int main(void){return 09;}", "1:23 NumberForm"),
    ("int main(void){return 0;}", "ok"),
    ("", "ok"),
];

#[test]
fn refusals(rt: HostRuntime) -> Result<(), Fail> {
    for (text, wanted) in &ROWS {
        expect(&rt, rt.alloc(), text.as_bytes(), wanted)?;
    }
    Ok(())
}

/// `int main(void){return (..1..);}` with so many pairs of parentheses.
fn nested(alloc: Global, pairs: usize) -> Result<String, Fail> {
    let mut text = String::from_str(alloc, "int main(void){return ")?;
    for _pair in 0..pairs {
        text.push_str("(")?;
    }
    text.push_str("1")?;
    for _pair in 0..pairs {
        text.push_str(")")?;
    }
    text.push_str(";}")?;
    Ok(text)
}

#[test]
fn nested_parentheses(rt: HostRuntime) -> Result<(), Fail> {
    let alloc = rt.alloc();
    expect(&rt, alloc, nested(alloc, 253)?.as_bytes(), "ok")?;
    expect(&rt, alloc, nested(alloc, 254)?.as_bytes(), "1:1 Syntax")?;
    expect(&rt, alloc, nested(alloc, 30000)?.as_bytes(), "1:1 Syntax")
}

/// A header with a guard, a macro and a struct.
const UTIL: &str =
    "#ifndef UTIL_H\n#define UTIL_H\n#define LINE 256\nstruct rec { char *text; int kind; };\n#endif\n";

/// Where the first function of `UNIT` begins.
const FIRST: usize = 78;

/// Where the second one begins.
const SECOND: usize = 215;

/// A unit of four headers and two functions, which begin at 6:1 and 15:1.
const UNIT: &str = "#include <stdio.h>
#include <stdlib.h>
#include <string.h>
#include \"util.h\"

static char *copy(const char *s)
{
    char *p = calloc(LINE, 1);
    if (p == NULL)
        exit(1);
    strcpy(p, s);
    return p;
}

int main(void)
{
    char line[LINE];
    int hist[128] = {0};
    int i;
    struct rec r;
    size_t len;
    if (fgets(line, sizeof line, stdin) == NULL)
        return 0;
    r.text = copy(line);
    len = strlen(r.text);
    if (len > 0 && r.text[len - 1] == '\\n')
        r.text[len - 1] = 0;
    r.kind = line[0];
    hist[r.kind]++;
    for (i = 0; i < 128; i++)
        if (hist[i] != 0)
            printf(\"%d %d\\n\", i, hist[i]);
    printf(\"%s %d\\n\", r.text, r.kind);
    free(r.text);
    return 0;
}
";

/// How a prefix of so many bytes of the unit is answered: one that ends inside of a function is
/// refused, at the function's first token or at a literal without its end.
fn is_due(length: usize, found: &str) -> bool {
    if found.ends_with("OpenLiteral") {
        return true;
    }
    if length > SECOND {
        return found == "15:1 Syntax";
    }
    if length >= SECOND - 2 {
        return found == "ok";
    }
    if length > FIRST {
        return found == "6:1 Syntax";
    }
    found != "no refusal"
}

/// Fails unless the prefix is answered as it is due.
fn expect_due(rt: &impl Abort, alloc: Global, prefix: &[u8]) -> Result<(), Fail> {
    let found = answer(alloc, prefix)?;
    let length = prefix.len();
    assert!(rt; is_due(length, found.as_str()), "{length}: {found}");
    Ok(())
}

#[test]
fn prefixes(rt: HostRuntime) -> Result<(), Fail> {
    let bytes = UNIT.as_bytes();
    for length in 0..bytes.len().saturating_sub(1) {
        expect_due(&rt, rt.alloc(), bytes.split_at(length).0)?;
    }
    Ok(())
}

#[test]
fn whole_units(rt: HostRuntime) -> Result<(), Fail> {
    let bytes = UNIT.as_bytes();
    let most = bytes.len().saturating_sub(1);
    expect(&rt, rt.alloc(), bytes.split_at(most).0, "ok")?;
    expect(&rt, rt.alloc(), bytes, "ok")
}
