//! Whether `typedef` stands among specifiers (6.7.1).
ghost use Rattle.std.specs.Prelude.{◌≡◌, map};
ghost use Rattle.std.specs.List.{list_any};
ghost use Rattle.c_layout.specs.DeclarationTrees.{spec_tree};
ghost use Rattle.c_parser_declarations.specs.Grammar.StorageClasses.{is_typedef_class, is_typedef_word, is_typedef};

use c_layout::{SpecWord, Storage};

/// Whether a storage class is `typedef`.
fn is_typedef_class(class: Storage) -> bool
    ensures { result ≡ is_typedef_class class }
{
    matches!(class, Storage::Typedef)
}

/// Whether a word of specifiers is `typedef`.
fn is_typedef_word(word: &SpecWord) -> bool
    ensures { result ≡ is_typedef_word (spec_tree word.now) }
{
    match word {
        SpecWord::Storage(_, class) => is_typedef_class(*class),
        SpecWord::Struct(_, _, None) | SpecWord::Struct(_, _, Some(_)) => false,
        SpecWord::Enum(_, _, None) | SpecWord::Enum(_, _, Some(_)) => false,
        SpecWord::Qualifier(_) | SpecWord::Type(_, _) | SpecWord::Typedef(_) => false,
    }
}

/// Whether one of these words is `typedef`.
fn any_typedef(words: &[SpecWord]) -> bool
    ensures { result ≡ list_any (λ word. is_typedef_word (spec_tree word)) words.now }
{
    words.iter().any(|word| is_typedef_word(word))
}

/// Whether `typedef` stands among specifiers, so that their declarators give typedef names.
#[tactic(auto, using(crate::proofs::readers::Among::typedef_among))]
pub fn is_typedef(words: &[SpecWord]) -> bool
    ensures { result ≡ is_typedef (map spec_tree words.now) }
{
    any_typedef(words)
}
