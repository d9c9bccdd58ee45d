//! Which lists of specifiers name one type (6.7.2).
ghost use Rattle.std.specs.Prelude.{◌≡◌};
ghost use Rattle.c_parser_expression_grammar.specs.TypeNames.{up, no_words, with_type, with_storage, with_other, is_word_type, has_no_word_type, is_one_type, type_word_of, storage_class, is_qualifier};

use c_layout::{Storage, TypeWord};
use c_parser_tokens::Keyword;

/// How often each kind of word stands in a list of specifiers. A count stops at 255.
#[derive(Clone, Copy, PartialEq, Eq, Debug)]
pub struct SpecifierCounts {
    pub storages: u8,
    pub voids: u8,
    pub chars: u8,
    pub shorts: u8,
    pub ints: u8,
    pub longs: u8,
    /// `signed` and `unsigned`.
    pub signs: u8,
    /// Structures, enumerations and typedef names.
    pub others: u8,
}

/// The word of an integer type or `void` that a keyword is.
pub fn type_word(word: Keyword) -> Option<TypeWord>
    ensures { result ≡ type_word_of word }
{
    match word {
        Keyword::Void => Some(TypeWord::Void),
        Keyword::Char => Some(TypeWord::Char),
        Keyword::Short => Some(TypeWord::Short),
        Keyword::Int => Some(TypeWord::Int),
        Keyword::Long => Some(TypeWord::Long),
        Keyword::Signed => Some(TypeWord::Signed),
        Keyword::Unsigned => Some(TypeWord::Unsigned),
        _ => None,
    }
}

/// The storage class that a keyword is (6.7.1).
pub fn storage_class(word: Keyword) -> Option<Storage>
    ensures { result ≡ storage_class word }
{
    match word {
        Keyword::Typedef => Some(Storage::Typedef),
        Keyword::Extern => Some(Storage::Extern),
        Keyword::Static => Some(Storage::Static),
        Keyword::Auto => Some(Storage::Auto),
        Keyword::Register => Some(Storage::Register),
        _ => None,
    }
}

/// Whether a keyword is a qualifier or `inline`.
pub fn is_qualifier(word: Keyword) -> bool
    ensures { result ≡ is_qualifier word }
{
    matches!(word, Keyword::Const | Keyword::Restrict | Keyword::Inline)
}

/// One more, up to 255.
fn up(count: u8) -> u8
    ensures { result ≡ up count }
{
    count.saturating_add(1)
}

impl SpecifierCounts {
    /// No word.
    pub fn new() -> SpecifierCounts
        ensures { result ≡ no_words }
    {
        SpecifierCounts {
            storages: 0,
            voids: 0,
            chars: 0,
            shorts: 0,
            ints: 0,
            longs: 0,
            signs: 0,
            others: 0,
        }
    }

    /// Adds a storage class.
    pub fn add_storage(&mut self)
        ensures { self.new ≡ with_storage self.old }
    {
        self.storages = up(self.storages);
    }

    /// Adds a structure, an enumeration or a typedef name.
    pub fn add_other(&mut self)
        ensures { self.new ≡ with_other self.old }
    {
        self.others = up(self.others);
    }

    /// Adds a word of an integer type or `void`.
    pub fn add_type(&mut self, word: TypeWord)
        ensures { self.new ≡ with_type self.old word }
    {
        match word {
            TypeWord::Void => self.voids = up(self.voids),
            TypeWord::Char => self.chars = up(self.chars),
            TypeWord::Short => self.shorts = up(self.shorts),
            TypeWord::Int => self.ints = up(self.ints),
            TypeWord::Long => self.longs = up(self.longs),
            TypeWord::Signed | TypeWord::Unsigned => self.signs = up(self.signs),
        }
    }

    /// Whether the words of integer types and `void` name one of the types of 6.7.2.
    fn is_word_type(&self) -> bool
        ensures { result ≡ is_word_type self.now }
    {
        if self.ints > 1 || self.signs > 1 {
            return false;
        }
        match (self.voids, self.chars, self.shorts, self.longs) {
            (1, 0, 0, 0) => self.ints == 0 && self.signs == 0,
            (0, 1, 0, 0) => self.ints == 0,
            (0, 0, 1, 0) | (0, 0, 0, 1) | (0, 0, 0, 2) => true,
            (0, 0, 0, 0) => self.ints == 1 || self.signs == 1,
            _ => false,
        }
    }

    /// Whether no word of an integer type or `void` is there.
    fn has_no_word_type(&self) -> bool
        ensures { result ≡ has_no_word_type self.now }
    {
        self.voids == 0
            && self.chars == 0
            && self.shorts == 0
            && self.ints == 0
            && self.longs == 0
            && self.signs == 0
    }

    /// Whether the list has exactly one type, and at most one storage class.
    pub fn is_one_type(&self) -> bool
        ensures { result ≡ is_one_type self.now }
    {
        if self.storages > 1 {
            return false;
        }
        match self.others {
            0 => self.is_word_type(),
            1 => self.has_no_word_type(),
            _ => false,
        }
    }
}
