//! What a base of pointers has in a row of the analysis.
use crate::leaf_lists::Leaf;
use std::marker::Model;

/// Leaves by offset.
#[derive(Drop)]
pub struct Leaves {
    items: Vec<Leaf>,
}

/// A character array whose first zero byte is followed: its offset and size. The part of a whole
/// heap instance has no size.
#[derive(Clone, Copy, PartialEq, Eq, Debug)]
pub struct ZeroPart {
    pub offset: u64,
    pub size: Option<u64>,
}

/// First-zero parts by offset.
#[derive(Drop)]
pub struct ZeroParts {
    items: Vec<ZeroPart>,
}

/// The cells of a base, its first-zero parts, and whether the six class cells and an allocation
/// state belong to it too.
#[derive(Drop)]
pub struct Shape {
    pub cells: Leaves,
    pub zeros: ZeroParts,
    pub heap: bool,
}

/// What a base stands for. Parameters and call results are automatic.
#[derive(Clone, Copy, PartialEq, Eq, Debug)]
pub enum BaseKind {
    Static,
    Automatic,
    Literal,
    /// The instance made by the last execution of an allocation call.
    Newest,
    /// The instances made by all executions before.
    Older,
}

/// A base: its kind, the size of the object or literal in bytes (0 for a heap base), the position
/// of its first cell in a row, and its shape.
#[derive(Drop)]
pub struct BaseInfo {
    pub kind: BaseKind,
    pub size: u64,
    pub first: u32,
    pub shape: Shape,
}

impl Model for Leaves {
    ghost use Rattle.std.specs.Prelude.{List};
    ghost use Rattle.c_layout.specs.declared.leaf_lists.Leaf.{Leaf};

    ghost Value = { List Leaf };

    ghost view = { λ l. l.items.items };
}

impl Leaves {
    ghost use Rattle.std.specs.Prelude.{◌≡◌};

    /// A list of these leaves.
    pub fn from_vec(items: Vec<Leaf>) -> Leaves
        ensures { result ≡ items.items }
    {
        Leaves { items }
    }

    /// The leaves, in order.
    pub fn as_slice(&self) -> &[Leaf]
        ensures { result.now ≡ self.now }
    {
        self.items.as_slice()
    }
}

impl Model for ZeroParts {
    ghost use Rattle.std.specs.Prelude.{List};
    ghost use Rattle.c_layout.specs.declared.shapes.ZeroPart.{ZeroPart};

    ghost Value = { List ZeroPart };

    ghost view = { λ l. l.items.items };
}

impl ZeroParts {
    ghost use Rattle.std.specs.Prelude.{◌≡◌};

    /// A list of these parts.
    pub fn from_vec(items: Vec<ZeroPart>) -> ZeroParts
        ensures { result ≡ items.items }
    {
        ZeroParts { items }
    }

    /// The parts, in order.
    pub fn as_slice(&self) -> &[ZeroPart]
        ensures { result.now ≡ self.now }
    {
        self.items.as_slice()
    }
}
