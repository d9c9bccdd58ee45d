//! The list that replaces a call, with its arguments put in (6.10.3.1).
ghost use Rattle.std.specs.Prelude.{◌≡◌, ◌++◌, ◌∷◌, [], ℕ, length, map, vec_items, OnOk, IfOk};
ghost use Rattle.c_preproc_macros.specs.Expanding.{nth_list, part_of, put};

use crate::lexeme::Lexeme;
use crate::macro_table::Part;
use cc_base::Memory;
use std::alloc::Global;

/// The argument with a number; empty where there is none.
fn argument(arguments: &[Vec<Lexeme>], k: usize) -> &[Lexeme]
    ensures { result.now ≡ nth_list (map vec_items arguments.now) k }
{
    match arguments.get(k) {
        None => &[],
        Some(list) => list.as_slice(),
    }
}

/// How many tokens a part stands for.
fn part_length(part: Part, arguments: &[Vec<Lexeme>]) -> usize
    ensures { result ≡ length (part_of (map vec_items arguments.now) part) }
{
    match part {
        Part::Parameter(k, _) => argument(arguments, k as usize).len(),
        Part::Word(_) => 1,
    }
}

/// How many tokens the list has.
pub fn replacement_length(body: &[Part], arguments: &[Vec<Lexeme>]) -> Result<usize, Memory>
    ensures { IfOk result (λ n. n ≡ length (put (map vec_items arguments.now) body.now)) }
{
    let mut total = 0usize;
    for part in body {
        let Some(more) = total.checked_add(part_length(*part, arguments)) else {
            return Err(Memory);
        };
        total = more;
    }
    Ok(total)
}

fn put_part(part: Part, arguments: &[Vec<Lexeme>], into: &mut Vec<Lexeme>) -> Result<(), Memory>
    ensures { OnOk result (into.new.items ≡ into.old.items ++ part_of (map vec_items arguments.now) part) }
{
    match part {
        Part::Parameter(k, _) => {
            into.extend_from_slice(argument(arguments, k as usize))?;
            Ok(())
        }
        Part::Word(x) => {
            into.push(x)?;
            Ok(())
        }
    }
}

/// The body with each parameter replaced by its argument.
pub fn replacement(
    alloc: Global,
    body: &[Part],
    arguments: &[Vec<Lexeme>],
) -> Result<Vec<Lexeme>, Memory>
    ensures { IfOk result (λ made. made.items ≡ put (map vec_items arguments.now) body.now) }
{
    let mut made = Vec::new(alloc);
    for part in body {
        put_part(*part, arguments, &mut made)?;
    }
    Ok(made)
}
