//! The values of a condition.
ghost use Rattle.std.specs.Prelude.{◌≡◌};
ghost use Rattle.c_preproc_conditions.specs.ConditionValues.{is_unsigned, is_zero, truth, defined, as_unsigned};

/// A number of one of the two types of a condition: intmax_t or uintmax_t, of 64 bits.
#[derive(Clone, Copy, PartialEq, Eq, Debug)]
pub enum Number {
    Signed(i64),
    Unsigned(u64),
}

/// The value of an expression: a number, and whether its computation divides by zero or
/// overflows. Then the number counts for its type alone.
#[derive(Clone, Copy, PartialEq, Eq, Debug)]
pub struct Value {
    pub number: Number,
    pub faulty: bool,
}

impl Number {
    pub fn is_unsigned(self) -> bool
        ensures { result ≡ is_unsigned self }
    {
        match self {
            Number::Signed(_) => false,
            Number::Unsigned(_) => true,
        }
    }

    pub fn is_zero(self) -> bool
        ensures { result ≡ is_zero self }
    {
        match self {
            Number::Signed(n) => n == 0,
            Number::Unsigned(n) => n == 0,
        }
    }

    /// The number modulo 2^64.
    pub fn unsigned(self) -> u64
        ensures { result ≡ as_unsigned self }
    {
        match self {
            Number::Signed(n) => n.cast_unsigned(),
            Number::Unsigned(n) => n,
        }
    }

    /// 1 or 0.
    pub fn truth(holds: bool) -> Number
        ensures { result ≡ truth holds }
    {
        Number::Signed(if holds { 1 } else { 0 })
    }
}

impl Value {
    /// A value whose computation is defined.
    pub fn of(number: Number) -> Value
        ensures { result ≡ defined number }
    {
        Value {
            number,
            faulty: false,
        }
    }
}
