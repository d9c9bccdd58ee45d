//! The types that words name (6.7.2 of ISO/IEC 9899:2011).
ghost use Rattle.std.specs.Prelude.{◌≡◌};
ghost use Rattle.c_types_rules.specs.Rules.TypeWords.{at_most_one_sign, char_signed, rank_of, with_rank, is_any, is_void, is_char, is_integer, named, no_words, with_word};

use crate::rules::integer_kinds::{Rank, integer_kind};
use c_layout::{Model, TypeWord};
use cc_base::IntType;

/// What words name.
#[derive(Clone, Copy, PartialEq, Eq, Debug)]
pub enum NamedKind {
    Void,
    Integer(IntType),
}

/// How often each word of a type stands among specifiers.
#[derive(Clone, Copy, PartialEq, Eq, Debug)]
pub struct WordCounts {
    pub voids: u8,
    pub chars: u8,
    pub shorts: u8,
    pub ints: u8,
    pub longs: u8,
    pub signed: u8,
    pub unsigned: u8,
}

impl WordCounts {
    /// No word.
    pub fn new() -> WordCounts
        ensures { result ≡ no_words }
    {
        WordCounts {
            voids: 0,
            chars: 0,
            shorts: 0,
            ints: 0,
            longs: 0,
            signed: 0,
            unsigned: 0,
        }
    }

    /// Adds a word.
    pub fn add(&mut self, word: TypeWord)
        ensures { self.new ≡ with_word self.old word }
    {
        match word {
            TypeWord::Void => self.voids = self.voids.saturating_add(1),
            TypeWord::Char => self.chars = self.chars.saturating_add(1),
            TypeWord::Short => self.shorts = self.shorts.saturating_add(1),
            TypeWord::Int => self.ints = self.ints.saturating_add(1),
            TypeWord::Long => self.longs = self.longs.saturating_add(1),
            TypeWord::Signed => self.signed = self.signed.saturating_add(1),
            TypeWord::Unsigned => self.unsigned = self.unsigned.saturating_add(1),
        }
    }

    fn at_most_one_sign(self) -> bool
        ensures { result ≡ at_most_one_sign self }
    {
        (self.signed == 0 && self.unsigned <= 1) || (self.unsigned == 0 && self.signed <= 1)
    }

    fn char_signed(self, model: &Model) -> bool
        ensures { result ≡ char_signed model.now self }
    {
        if self.unsigned == 1 {
            false
        } else if self.signed == 1 {
            true
        } else {
            model.char_signed
        }
    }

    /// The rank that the words without signs and `int` name.
    fn rank(self) -> Option<Rank>
        ensures { result ≡ rank_of self }
    {
        if self.chars != 0 {
            return None;
        }
        if self.shorts != 0 {
            return if self.shorts == 1 && self.longs == 0 {
                Some(Rank::Short)
            } else {
                None
            };
        }
        match self.longs {
            0 => Some(Rank::Int),
            1 => Some(Rank::Long),
            2 => Some(Rank::LongLong),
            _ => None,
        }
    }

    fn is_any(self) -> bool
        ensures { result ≡ is_any self }
    {
        !(self.shorts == 0
            && self.ints == 0
            && self.longs == 0
            && self.signed == 0
            && self.unsigned == 0)
    }

    fn is_void(self) -> bool
        ensures { result ≡ is_void self }
    {
        self.voids == 1 && self.chars == 0 && !self.is_any()
    }

    fn is_char(self) -> bool
        ensures { result ≡ is_char self }
    {
        self.voids == 0
            && self.chars == 1
            && self.shorts == 0
            && self.ints == 0
            && self.longs == 0
            && self.at_most_one_sign()
    }

    fn is_integer(self) -> bool
        ensures { result ≡ is_integer self }
    {
        self.voids == 0
            && self.chars == 0
            && self.is_any()
            && self.ints <= 1
            && self.at_most_one_sign()
    }

    fn with_rank(self, model: &Model, rank: Option<Rank>) -> Option<NamedKind>
        ensures { result ≡ with_rank model.now self rank }
    {
        match rank {
            Some(rank) => Some(NamedKind::Integer(integer_kind(model, rank, self.unsigned == 0))),
            None => None,
        }
    }

    /// What the words name, in any order.
    pub fn named(self, model: &Model) -> Option<NamedKind>
        ensures { result ≡ named model.now self }
    {
        if self.is_void() {
            return Some(NamedKind::Void);
        }
        if self.is_char() {
            let signed = self.char_signed(model);
            return Some(NamedKind::Integer(integer_kind(model, Rank::Char, signed)));
        }
        if self.is_integer() {
            self.with_rank(model, self.rank())
        } else {
            None
        }
    }
}
