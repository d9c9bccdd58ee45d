//! The stars of declarators (6.7.6.1).
ghost use Rattle.std.specs.Prelude.{◌≡◌, ◌≢◌, length, IfOk, IfErr};
ghost use Rattle.c_parser_expression_grammar.specs.Fronts.{first_symbol, behind_first};
ghost use Rattle.c_parser_expression_grammar.specs.TypeNames.{is_pointer_qualifier, Qualifiers, IsStar, Stars, is_one_star};
ghost use Rattle.c_parser_expression_grammar.specs.ReadingResults.{OnSyntax};
ghost use Rattle.c_parser_expression_grammar.specs.TypeNameReaders.{qualified, stars};

use c_parser_expression_grammar::{Reader, Trouble};
use c_parser_tokens::{Keyword, Punctuator, Symbol};
use std::alloc::Global;

/// Whether `const` or `restrict` stands next.
fn is_at_qualifier(reader: &Reader<'_>) -> bool
    ensures { result ≡ is_pointer_qualifier (first_symbol reader.now) }
{
    match reader.peek() {
        Symbol::Keyword(word) => matches!(word, Keyword::Const | Keyword::Restrict),
        _ => false,
    }
}

/// How many of `const` and `restrict` stand next. More than a `u32` can count are want of memory.
fn qualifiers(reader: &mut Reader<'_>) -> Result<u32, Trouble>
    ensures found { IfOk result (λ n. Qualifiers n reader.old reader.new) }
    ensures read { IfOk result (λ n. qualified reader.old ≡ (n, reader.new)) }
    ensures memory { IfErr result (λ e. e ≡ Trouble.Memory) }
{
    let mut count = 0u32;
    for _turn in 0..reader.left() {
        if !is_at_qualifier(reader) {
            return Ok(count);
        }
        reader.take();
        let Some(next) = count.checked_add(1) else {
            return Err(Trouble::Memory);
        };
        count = next;
    }
    Ok(count)
}

/// A star, with the number of qualifiers behind it.
fn star(reader: &mut Reader<'_>) -> Result<u32, Trouble>
    ensures found { IfOk result (λ n. IsStar n reader.old reader.new) }
    ensures read { IfOk result (λ n. qualified (behind_first reader.old) ≡ (n, reader.new)) }
    ensures refused { IfErr result (OnSyntax (first_symbol reader.old ≢ Symbol.Punctuator Punctuator.Star)) }
{
    reader.expect(Punctuator::Star)?;
    qualifiers(reader)
}

/// The stars that stand next, each with the number of qualifiers behind it.
pub fn stars(alloc: Global, reader: &mut Reader<'_>) -> Result<Vec<u32>, Trouble>
    ensures found { IfOk result (λ v. Stars v.items reader.old reader.new) }
    ensures read { IfOk result (λ v. stars (length reader.old) reader.old ≡ record { stars = v.items; rest = reader.new }) }
    ensures memory { IfErr result (λ e. e ≡ Trouble.Memory) }
{
    let mut found = Vec::new(alloc);
    for _turn in 0..reader.left() {
        if !reader.is_at(Punctuator::Star) {
            return Ok(found);
        }
        found.push(star(reader)?)?;
    }
    Ok(found)
}

/// Whether one star stands there, without qualifiers.
pub fn is_one_star(stars: &[u32]) -> bool
    ensures { result ≡ is_one_star stars.now }
{
    match stars {
        [qualifiers] => *qualifiers == 0,
        _ => false,
    }
}
