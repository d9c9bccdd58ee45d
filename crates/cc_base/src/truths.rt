//! The truth values that a relation can have.
ghost use Rattle.std.specs.Prelude.{◌≡◌};
ghost use Rattle.cc_base.specs.Truths.{tri_of, can_hold, can_fail};

use crate::integer_operators::Tri;

impl Tri {
    /// Which truth values there are, from whether true and false can be.
    pub fn of(can_hold: bool, can_fail: bool) -> Tri
        ensures { result ≡ tri_of can_hold can_fail }
    {
        match (can_hold, can_fail) {
            (true, true) => Tri::Both,
            (true, false) => Tri::Yes,
            (false, true) => Tri::No,
            (false, false) => Tri::Never,
        }
    }

    /// Whether true can be.
    pub fn can_hold(self) -> bool
        ensures { result ≡ can_hold self }
    {
        match self {
            Tri::Yes | Tri::Both => true,
            Tri::No | Tri::Never => false,
        }
    }

    /// Whether false can be.
    pub fn can_fail(self) -> bool
        ensures { result ≡ can_fail self }
    {
        match self {
            Tri::No | Tri::Both => true,
            Tri::Yes | Tri::Never => false,
        }
    }
}
