//! Whatever derives by the grammar is found by the readers as definitions.
ghost use Rattle.std.specs.Prelude.{ℕ, suc, List};
ghost use Rattle.c_layout.specs.SyntaxTrees.{Tree};
ghost use Rattle.c_parser_theorems.specs.CompleteExpressions.Found.{Finds};
ghost use Rattle.c_parser_expression_grammar.specs.TypeNameReaders.{all_readers};

/// Each expression that derives at a level, of a height within the budget, is what the reader of that level answers,
/// with its height and what is left, where no operator that would go on with it stands behind it.
pub fn expressions_are_found()
    ensures { (known : List (List ℕ)) (e : Tree) (budget : ℕ) → Finds known (all_readers known budget) (suc budget) e }
{}
