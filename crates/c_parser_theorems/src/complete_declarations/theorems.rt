//! Whatever derives by the grammar of declarations is found by the readers as definitions.
ghost use Rattle.std.specs.Prelude.{ℕ, List};
ghost use Rattle.c_parser_theorems.specs.CompleteDeclarations.Found.{FindsInitializers, FindsDeclarators, FindsAnyDeclarators, FindsSpecifiers, FindsFileDeclarators, FindsInitialized, FindsLocals};

/// Each initializer that derives, of a height within the budget, is what the reader answers, with its height and what
/// is left, where no operator that would go on with it stands behind it.
pub fn initializers_are_found()
    ensures { (known : List (List ℕ)) (budget : ℕ) → FindsInitializers known budget }
{}

/// Each declarator that derives, of a height within the budget, is what the reader answers, in front of one of `,` `;`
/// `=` and `)`; those of parameters with a name or without.
pub fn declarators_are_found()
    ensures named { (known : List (List ℕ)) (budget : ℕ) → FindsDeclarators known budget }
    ensures any { (known : List (List ℕ)) (budget : ℕ) → FindsAnyDeclarators known budget }
{}

/// Specifiers that derive, with the bodies of structures and enumerations, of a height within the budget, are what the
/// reader answers, where neither a word of specifiers nor a `{` stands behind them.
pub fn specifiers_are_found()
    ensures { (known : List (List ℕ)) (budget : ℕ) → FindsSpecifiers known budget }
{}

/// Each declarator at file scope that derives, of a height within the budget, is what the reader answers, and so is the
/// initializer behind it in front of a comma or a `;`.
pub fn file_declarators_are_found()
    ensures bare { (known : List (List ℕ)) (budget : ℕ) → FindsFileDeclarators known budget }
    ensures initialized { (known : List (List ℕ)) (budget : ℕ) → FindsInitialized known budget }
{}

/// Each declaration in a block or in a `for` that derives, of a height within the budget, is what the reader answers,
/// whatever stands behind it.
pub fn local_declarations_are_found()
    ensures { (known : List (List ℕ)) (budget : ℕ) → FindsLocals known budget }
{}
