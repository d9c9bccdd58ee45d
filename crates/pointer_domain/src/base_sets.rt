//! Sets of bases.
ghost use Rattle.std.specs.Prelude.{◌≡◌, ℕ, ◌<◌, ◌+◌, ◌*◌, ◌/◌, ◌%◌, ◌^◌, ◌&&◌, not};
ghost use Rattle.pointer_domain.specs.BaseSets.{word_of, with_word, no_base, bases_has, bases_with, bases_without, bases_union, bases_within, bases_meet, bases_empty, bases_count, word_within};

/// A set of base numbers below 1,016, one bit for each.
#[derive(Clone, Copy, PartialEq, Eq, Debug)]
pub struct Bases {
    word0: u128,
    word1: u128,
    word2: u128,
    word3: u128,
    word4: u128,
    word5: u128,
    word6: u128,
    word7: u128,
}

/// The number with the bit `place` alone.
fn bit(place: u16) -> u128
    requires { place < 128 }
    ensures { result ≡ 2 ^ place }
{
    1 << place
}

/// Whether each bit of `a` is one of `b`.
fn word_within(a: u128, b: u128) -> bool
    ensures { result ≡ word_within a b }
{
    (a | b) == b
}

impl Bases {
    /// The empty set.
    pub fn empty() -> Bases
        ensures { result ≡ no_base }
    {
        Bases {
            word0: 0,
            word1: 0,
            word2: 0,
            word3: 0,
            word4: 0,
            word5: 0,
            word6: 0,
            word7: 0,
        }
    }

    fn word(self, place: u16) -> u128
        ensures { result ≡ word_of self place }
    {
        match place {
            0 => self.word0,
            1 => self.word1,
            2 => self.word2,
            3 => self.word3,
            4 => self.word4,
            5 => self.word5,
            6 => self.word6,
            _ => self.word7,
        }
    }

    fn with_word(self, place: u16, word: u128) -> Bases
        ensures { result ≡ with_word self place word }
    {
        let mut changed = self;
        match place {
            0 => changed.word0 = word,
            1 => changed.word1 = word,
            2 => changed.word2 = word,
            3 => changed.word3 = word,
            4 => changed.word4 = word,
            5 => changed.word5 = word,
            6 => changed.word6 = word,
            _ => changed.word7 = word,
        }
        changed
    }

    /// The set with one base more.
    pub fn with(self, base: u16) -> Bases
        requires { base < 1016 }
        ensures { result ≡ bases_with self base }
    {
        let word = self.word(base / 128);
        self.with_word(base / 128, word | bit(base % 128))
    }

    /// The set without a base.
    pub fn without(self, base: u16) -> Bases
        requires { base < 1016 }
        ensures { result ≡ bases_without self base }
    {
        let word = self.word(base / 128);
        self.with_word(base / 128, word & !bit(base % 128))
    }

    /// Whether the base is in the set.
    pub fn has(self, base: u16) -> bool
        requires { base < 1016 }
        ensures { result ≡ bases_has self base }
    {
        (self.word(base / 128) >> (base % 128)) & 1 == 1
    }

    /// The bases of either set.
    pub fn union(self, other: Bases) -> Bases
        ensures { result ≡ bases_union self other }
    {
        Bases {
            word0: self.word0 | other.word0,
            word1: self.word1 | other.word1,
            word2: self.word2 | other.word2,
            word3: self.word3 | other.word3,
            word4: self.word4 | other.word4,
            word5: self.word5 | other.word5,
            word6: self.word6 | other.word6,
            word7: self.word7 | other.word7,
        }
    }

    /// Whether each base of the set is in `other`.
    pub fn within(self, other: Bases) -> bool
        ensures { result ≡ bases_within self other }
    {
        word_within(self.word0, other.word0)
            && word_within(self.word1, other.word1)
            && word_within(self.word2, other.word2)
            && word_within(self.word3, other.word3)
            && word_within(self.word4, other.word4)
            && word_within(self.word5, other.word5)
            && word_within(self.word6, other.word6)
            && word_within(self.word7, other.word7)
    }

    /// Whether some base is in both sets.
    pub fn meets(self, other: Bases) -> bool
        ensures { result ≡ bases_meet self other }
    {
        self.word0 & other.word0 != 0
            || self.word1 & other.word1 != 0
            || self.word2 & other.word2 != 0
            || self.word3 & other.word3 != 0
            || self.word4 & other.word4 != 0
            || self.word5 & other.word5 != 0
            || self.word6 & other.word6 != 0
            || self.word7 & other.word7 != 0
    }

    /// Whether the set has no base.
    pub fn is_empty(self) -> bool
        ensures { result ≡ bases_empty self }
    {
        self.word0 == 0
            && self.word1 == 0
            && self.word2 == 0
            && self.word3 == 0
            && self.word4 == 0
            && self.word5 == 0
            && self.word6 == 0
            && self.word7 == 0
    }

    /// How many bases are in the set.
    pub fn count(self) -> u32
        ensures { result ≡ bases_count self }
    {
        let low = (
            self.word0.count_ones(),
            self.word1.count_ones(),
            self.word2.count_ones(),
            self.word3.count_ones(),
        );
        let high = (
            self.word4.count_ones(),
            self.word5.count_ones(),
            self.word6.count_ones(),
            self.word7.count_ones(),
        );
        low.0 + (low.1 + (low.2 + (low.3 + (high.0 + (high.1 + (high.2 + high.3))))))
    }
}
