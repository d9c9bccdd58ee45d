//! The limits of the control-flow program.
ghost use Rattle.std.specs.Prelude.{◌≡◌};

/// What is counted of a control-flow program, in the order in which limits are looked at.
#[derive(Clone, Copy, PartialEq, Eq, Debug)]
pub enum Count {
    /// Numbered temporaries.
    Temps,
    /// Bases of pointers.
    Bases,
    /// Cells of all bases.
    Cells,
    /// Basic blocks.
    Blocks,
    /// Instructions.
    Instructions,
    /// Values of the solver's pool of rows.
    Pool,
}

/// The most of each `Count` that a control-flow program may have.
#[derive(Clone, Copy, PartialEq, Eq, Debug)]
pub struct Limits {
    pub temps: u64,
    pub bases: u64,
    pub cells: u64,
    pub blocks: u64,
    pub instructions: u64,
    pub pool: u64,
}

impl Limits {
    ghost use Rattle.cc_base.specs.Standard.{standard_limits};

    /// The limits of the product.
    pub fn standard() -> Limits
        ensures { result ≡ standard_limits }
    {
        Limits {
            temps: 64,
            bases: 1016,
            cells: 4096,
            blocks: 8192,
            instructions: 262_144,
            pool: 4_194_304,
        }
    }
}
