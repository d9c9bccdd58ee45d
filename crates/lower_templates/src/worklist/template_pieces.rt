//! A function's control-flow program before it is put in at a call.
use c_layout::CType;
use cc_base::Place;
use cfg::{EdgeKind, Instruction};

/// What a base of a template is. Each mention has a base of its own in the template; mentions of one
/// object come to one base of the program.
#[derive(Clone, Copy)]
pub enum BaseName<'a> {
    /// A local object, by its number in the function.
    Local(u32),
    /// The object of the function's result.
    Outcome,
    /// An object of static storage of the unit.
    Static(u32),
    /// A literal of the unit.
    Literal(u32),
    /// The newest of the two bases of an allocation, and the type to whose pointer its result is
    /// converted at once.
    Allocation(Option<&'a CType>),
}

/// An edge to a label of the template.
#[derive(Drop)]
pub struct Exit {
    pub to: u32,
    pub kind: EdgeKind,
}

/// A call of a function of the unit that is put in: its arguments are in the temporaries from
/// `depth` on, and the first of these takes its value, where that is used.
#[derive(Clone, Copy)]
pub struct OwnCall {
    pub place: Place,
    pub function: u32,
    pub depth: u32,
    pub used: bool,
}

/// A piece of a template.
#[derive(Drop)]
pub enum Piece {
    /// An instruction that does not end its block.
    Do(Instruction),
    /// An instruction that is done where the call's value is used, at the call's place.
    DoIfUsed(Instruction),
    /// An instruction that ends its block, and the edges of the block in order.
    End(Instruction, Vec<Exit>),
    /// A label: where the current block has instructions, a jump ends it, and a block begins.
    Mark(u32),
    Call(OwnCall),
}

/// A function's pieces. Its temporaries begin at 0, its bases and labels are numbers of its own.
#[derive(Drop)]
pub struct Template<'a> {
    pub pieces: Vec<Piece>,
    pub names: Vec<BaseName<'a>>,
    pub labels: u32,
}
