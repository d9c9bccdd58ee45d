//! Two bounds in order.
ghost use Rattle.std.specs.Prelude.{◌≤ℤ◌};

/// The numbers from `lo` to `hi`, both included. There is at least one.
#[derive(Clone, Copy, Debug)]
pub struct Span {
    pub lo: i128,
    pub hi: i128,
    ghost ordered: { lo ≤ℤ hi },
}
