//! Words of type names, counted and measured (6.7.7).
ghost use Rattle.std.specs.Prelude.{◌≡◌, ◌≤◌, cond};
ghost use Rattle.std.specs.List.{list_any};
ghost use Rattle.c_parser_expression_grammar.specs.TypeNames.{counted, is_tagged, words_height};

use crate::specifier_words::SpecifierCounts;
use c_layout::TypeNameWord;

/// Counts a word.
pub fn count_word(counts: &mut SpecifierCounts, word: &TypeNameWord)
    ensures { counts.new ≡ counted counts.old word.now }
{
    match word {
        TypeNameWord::Storage(_, _) => counts.add_storage(),
        TypeNameWord::Qualifier(_) => {}
        TypeNameWord::Type(_, named) => counts.add_type(*named),
        TypeNameWord::Struct(_, _) | TypeNameWord::Enum(_, _) | TypeNameWord::Typedef(_) => {
            counts.add_other();
        }
    }
}

/// Whether a word is `struct` or `enum` with its tag, which is a production of its own.
fn is_tagged(word: &TypeNameWord) -> bool
    ensures { result ≡ is_tagged word.now }
{
    matches!(word, TypeNameWord::Struct(_, _) | TypeNameWord::Enum(_, _))
}

/// Whether `struct` or `enum` is among words.
fn any_tagged(words: &[TypeNameWord]) -> bool
    ensures { result ≡ list_any is_tagged words.now }
{
    words.iter().any(|word| is_tagged(word))
}

/// What `struct` and `enum` add to the height.
fn tagged_height(words: &[TypeNameWord]) -> u32
    ensures is { result ≡ cond (list_any is_tagged words.now) 1 0 }
    ensures low { result ≤ 1 }
{
    if any_tagged(words) { 1 } else { 0 }
}

/// The height of the words of a type name: one word adds nothing.
pub fn words_height(words: &[TypeNameWord]) -> u32
    ensures { result ≡ words_height words.now }
{
    let parts = tagged_height(words);
    if words.len() == 1 { parts } else { parts + 1 }
}
