//! A unit has one tree, and so has each statement and each external declaration.
ghost use Rattle.std.specs.Prelude.{◌≡◌, ℕ, List, Ok};
ghost use Rattle.cc_base.specs.declared.lexemes.Token.{Token};
ghost use Rattle.c_layout.specs.declared.data_model.Model.{Model};
ghost use Rattle.c_layout.specs.DeclarationTrees.{ExternalTree, StatementTree};
ghost use Rattle.c_parser_tokens.specs.declared.terminals.Terminal.{Terminal};
ghost use Rattle.c_parser_tokens.specs.Classes.{classified};
ghost use Rattle.c_parser.specs.Externals.{IsExternal, IsUnit};
ghost use Rattle.c_parser.specs.Statements.{DeriveStatement};
ghost use Rattle.c_parser.specs.FirstRefusals.{IsRefusedAt};
ghost use Rattle.c_parser_theorems.specs.UniqueUnits.StatementEnds.{TakesNoElse};

/// Two statements that derive from the same terminals are the same and leave the same, where no `else` stands
/// behind one that ends in an `if` without it.
pub fn one_statement()
    ensures { (s t : StatementTree) (known : List (List ℕ)) (ts rest left : List Terminal) → DeriveStatement s known ts rest → TakesNoElse s rest → DeriveStatement t known ts left → TakesNoElse t left → (s ≡ t) × (rest ≡ left) }
{}

/// Two external declarations that derive from the same terminals are the same and leave the same, whatever stands
/// behind them.
pub fn one_external_declaration()
    ensures { (known : List (List ℕ)) (e d : ExternalTree) (ts rest left : List Terminal) → IsExternal known e ts rest → IsExternal known d ts left → (e ≡ d) × (rest ≡ left) }
{}

/// Tokens are one translation unit at most under a data model: two lists of external declarations that derive
/// from them are the same.
pub fn one_tree()
    ensures { (model : Model) (tokens : List Token) (es ds : List ExternalTree) → IsUnit model tokens es → IsUnit model tokens ds → es ≡ ds }
{}

/// At most one piece of a unit is the first that has no derivation, and a unit with one has no tree.
pub fn one_refusal()
    ensures once { (ts rest left : List Terminal) → IsRefusedAt ts rest → IsRefusedAt ts left → rest ≡ left }
    ensures apart { (model : Model) (tokens : List Token) (ts rest : List Terminal) (es : List ExternalTree) → classified model tokens ≡ Ok ts → IsRefusedAt ts rest → IsUnit model tokens es → ⊥ }
{}
