//! The range of an integer type, and conversion into it.
ghost use Rattle.std.specs.Prelude.{◌≡◌, ◌*◌, ◌-ℤ◌, ◌≤ℤ◌, FitsSigned, pos, true};
ghost use Rattle.std.specs.Int.{w128, int_div_euclid};
ghost use Rattle.cc_base.specs.IntegerTypes.{is_size, modulus, least_of, greatest_of, wrap_into, in_type, block_of};

use crate::int_types::IntType;

impl IntType {
    /// The number of bits of the type.
    pub fn width(self) -> u32
        requires { is_size self.bytes ≡ true }
        ensures { result ≡ 8 * self.bytes }
    {
        8 * self.bytes as u32
    }

    /// How many numbers the type has.
    pub fn modulus(self) -> i128
        requires { is_size self.bytes ≡ true }
        ensures { result ≡ pos (modulus self) }
    {
        match self.bytes {
            1 => 0x100,
            2 => 0x1_0000,
            4 => 0x1_0000_0000,
            8 => 0x1_0000_0000_0000_0000,
            _ => unreachable!(),
        }
    }

    /// The least number of the type.
    pub fn least(self) -> i128
        requires { is_size self.bytes ≡ true }
        ensures { result ≡ least_of self }
    {
        if !self.signed {
            return 0;
        }
        match self.bytes {
            1 => -0x80,
            2 => -0x8000,
            4 => -0x8000_0000,
            8 => -0x8000_0000_0000_0000,
            _ => unreachable!(),
        }
    }

    /// The greatest number of the type.
    pub fn greatest(self) -> i128
        requires { is_size self.bytes ≡ true }
        ensures { result ≡ greatest_of self }
    {
        match (self.signed, self.bytes) {
            (true, 1) => 0x7f,
            (true, 2) => 0x7fff,
            (true, 4) => 0x7fff_ffff,
            (true, 8) => 0x7fff_ffff_ffff_ffff,
            (false, 1) => 0xff,
            (false, 2) => 0xffff,
            (false, 4) => 0xffff_ffff,
            (false, 8) => 0xffff_ffff_ffff_ffff,
            _ => unreachable!(),
        }
    }

    /// Whether the type has the number.
    pub fn has(self, n: i128) -> bool
        requires { is_size self.bytes ≡ true }
        ensures { result ≡ in_type self n }
    {
        self.least() <= n && n <= self.greatest()
    }

    /// The number of the type that is equal to `n` modulo the number of its values (6.3.1.3).
    pub fn wrap(self, n: i128) -> i128
        requires size { is_size self.bytes ≡ true }
        requires fits { FitsSigned w128 (n -ℤ least_of self) }
        ensures { result ≡ wrap_into self n }
    {
        self.least() + (n - self.least()).rem_euclid(self.modulus())
    }

    /// Which block of as many numbers as the type has holds `n`, where the type itself is block 0.
    pub fn block(self, n: i128) -> i128
        requires size { is_size self.bytes ≡ true }
        requires fits { FitsSigned w128 (n -ℤ least_of self) }
        ensures { result ≡ block_of self n }
    {
        (n - self.least()).div_euclid(self.modulus())
    }
}
