//! Units that are made from two numbers, to load the analysis.
ghost use Rattle.std.specs.Prelude.{◌≡◌, ◌<◌, ◌++◌, IfOk, string_bytes};
ghost use Rattle.cli_texts.specs.LoadUnits.{next_seed, kind_of, function_line, function_lines, call_of, calls_from, main_line, load_of};

use cc_base::Memory;
use std::alloc::{AllocError, Global};

/// The next number of the sequence.
fn next_seed(seed: u64) -> u64
    ensures { result ≡ next_seed seed }
{
    let scaled = (seed % 2_147_483_648) * 1_103_515_245 + 12_345;
    scaled % 2_147_483_648
}

/// The kind of a function by a number of the sequence.
fn kind_of(s: u64) -> u64
    ensures { result ≡ kind_of s }
{
    (s / 65_536) % 4
}

/// The line of a function by its kind and its number.
fn function_line(alloc: Global, kind: u64, k: u32) -> Result<String, AllocError>
    ensures { IfOk result (λ s. string_bytes s ≡ function_line kind k) }
{
    match kind {
        0 => format!(in alloc; "void f{k}(void){{int a[8];int i;for(i=0;i<8;i++)a[i]=i;}}\n"),
        1 => format!(in alloc; "void f{k}(void){{int a[8];int i;for(i=0;i<=8;i++)a[i]=i;}}\n"),
        2 => { format!(in alloc; "void f{k}(void){{int b=getchar();int c=100/b;putchar(c);}}\n") }
        _ => {
            format!(in alloc; "void f{k}(void){{int x=getchar();int y=0;if(y=x)putchar(y);}}\n")
        }
    }
}

/// Adds the lines of so many functions, behind a number of the sequence.
#[tactic(auto, using(crate::proofs::Lines::lines_next, crate::proofs::Lines::lines_end))]
fn push_functions(
    alloc: Global,
    text: &mut Vec<u8>,
    seed: u64,
    count: u32,
) -> Result<(), AllocError>
    ensures { IfOk result (λ _. text.new.items ≡ text.old.items ++ function_lines seed 0 count) }
{
    let mut s = seed;
    for k in 0..count {
        s = next_seed(s);
        let line = function_line(alloc, kind_of(s), k)?;
        text.extend_from_slice(line.as_bytes())?;
    }
    Ok(())
}

/// The call of a function.
fn call_of(alloc: Global, k: u32) -> Result<String, AllocError>
    ensures { IfOk result (λ s. string_bytes s ≡ call_of k) }
{
    format!(in alloc; "f{k}();")
}

/// Adds a call of each of so many functions.
#[tactic(auto, using(crate::proofs::Lines::calls_next, crate::proofs::Lines::calls_end))]
fn push_calls(alloc: Global, text: &mut Vec<u8>, count: u32) -> Result<(), AllocError>
    ensures { IfOk result (λ _. text.new.items ≡ text.old.items ++ calls_from 0 count) }
{
    for k in 0..count {
        let call = call_of(alloc, k)?;
        text.extend_from_slice(call.as_bytes())?;
    }
    Ok(())
}

/// Adds a text.
fn push_text(text: &mut Vec<u8>, piece: &str) -> Result<(), AllocError>
    ensures { IfOk result (λ _. text.new.items ≡ text.old.items ++ piece.now) }
{
    text.extend_from_slice(piece.as_bytes())
}

/// Adds a `main` that calls each of so many functions.
fn push_main(alloc: Global, text: &mut Vec<u8>, count: u32) -> Result<(), AllocError>
    ensures { IfOk result (λ _. text.new.items ≡ text.old.items ++ main_line count) }
{
    push_text(text, "int main(void){")?;
    push_calls(alloc, text, count)?;
    push_text(text, "return 0;}\n")
}

/// The unit of a seed and a count: a line for each function, of a kind by the sequence that the seed
/// begins, and a `main` that calls each of them.
pub fn load_unit(alloc: Global, seed: u32, count: u32) -> Result<Vec<u8>, Memory>
    ensures { IfOk result (λ b. b.items ≡ load_of seed count) }
{
    let mut text = Vec::from_slice(alloc, "#include <stdio.h>\n".as_bytes())?;
    push_functions(alloc, &mut text, u64::from(seed), count)?;
    push_main(alloc, &mut text, count)?;
    Ok(text)
}
