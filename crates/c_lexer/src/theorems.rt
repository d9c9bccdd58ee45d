//! Each file has one answer.
ghost use Rattle.std.specs.Prelude.{◌≡◌, ℕ, List};
ghost use Rattle.cc_base.specs.declared.lexemes.Token.{Token};
ghost use Rattle.cc_base.specs.declared.refusals.Fault.{Fault};
ghost use Rattle.c_lexer.specs.FileTokens.{file_tokens, IsFileAnswer};
ghost use Rattle.c_lexer.specs.Cutting.{Lexes, Refuses};

/// A file has one answer: at most one list of tokens, at most one first refusal, and not both.
pub fn one_answer()
    ensures tokens { (file : ℕ) (bytes : List ℕ) (ts us : List Token) → Lexes file bytes ts → Lexes file bytes us → ts ≡ us }
    ensures fault { (file : ℕ) (bytes : List ℕ) (f g : Fault) → Refuses file bytes f → Refuses file bytes g → f ≡ g }
    ensures apart { (file : ℕ) (bytes : List ℕ) (ts : List Token) (f : Fault) → Lexes file bytes ts → Refuses file bytes f → ⊥ }
{}

/// Every file has an answer: the definition that computes gives the tokens of the longest cutting,
/// or the first refusal.
pub fn every_file_has_an_answer()
    ensures { (file : ℕ) (bytes : List ℕ) → IsFileAnswer file bytes (file_tokens file bytes) }
{}
