//! Whatever derives by the grammar of statements and units is found by the readers as definitions.
ghost use Rattle.std.specs.Prelude.{ℕ, List};
ghost use Rattle.c_parser_theorems.specs.CompleteUnits.Found.{FindsStatements, FindsBlocks, FindsExternals, FindsUnits, RefusesRightly, StopsRightly, FindsTheTree};

/// Each statement that derives, of a height within the budget, is what the reader answers, with its height and what is
/// left, where no `else` stands behind one that ends in an `if` without it; and so is each block, whatever stands
/// behind it.
pub fn statements_are_found()
    ensures statements { (known : List (List ℕ)) (budget : ℕ) → FindsStatements known budget }
    ensures blocks { (known : List (List ℕ)) (budget : ℕ) → FindsBlocks known budget }
{}

/// Each external declaration that derives, of a height within the budget, is what the reader answers, whatever stands
/// behind it.
pub fn external_declarations_are_found()
    ensures { (known : List (List ℕ)) (budget : ℕ) → FindsExternals known budget }
{}

/// A unit that has a tree is read, and what is read is its tree.
pub fn units_are_found()
    ensures { FindsUnits }
{}

/// Behind pieces that derive, a piece that the reader refuses is the first of the unit that has no derivation, and the
/// readers stop there.
pub fn refused_pieces_have_no_derivation()
    ensures { RefusesRightly }
{}

/// What `parse` ensures where it reads no unit is `Syntax` at the first token of the first piece that has no derivation,
/// or want of memory; where the unit has a tree, it is want of memory.
pub fn parse_is_exact()
    ensures first { StopsRightly }
    ensures found { FindsTheTree }
{}
