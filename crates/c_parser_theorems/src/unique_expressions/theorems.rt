//! Terminals are one expression at most.
ghost use Rattle.std.specs.Prelude.{◌≡◌, ℕ, List};
ghost use Rattle.c_layout.specs.SyntaxTrees.{Tree};
ghost use Rattle.c_parser_tokens.specs.declared.terminals.Terminal.{Terminal};
ghost use Rattle.c_parser_expression_grammar.specs.Expressions.{Derives};
ghost use Rattle.c_parser_theorems.specs.UniqueExpressions.Endings.{EndsBefore};

/// Two expressions that derive from the same terminals, at a level, are the same and leave the same, where no
/// operator that would go on with an operand of that level stands behind either.
pub fn one_expression()
    ensures { (e d : Tree) (known : List (List ℕ)) (l : ℕ) (ts rest left : List Terminal) → Derives e known l ts rest → EndsBefore l rest → Derives d known l ts left → EndsBefore l left → (e ≡ d) × (rest ≡ left) }
{}
