//! Instructions: each step of the machine is one.
use c_layout::LibFn;
use cc_base::{IntOp, IntType, Place, Rel, Text, UnOp};

/// The type of a scalar in memory.
#[derive(Clone, Copy, PartialEq, Eq, Debug)]
pub enum Scalar {
    Int(IntType),
    Pointer,
}

/// The integer by which a pointer is moved, or an integer is stepped: that of a temporary, or the 1
/// of `++` and `--`.
#[derive(Clone, Copy, PartialEq, Eq, Debug)]
pub enum Amount {
    Temp(u32),
    One,
}

/// An instruction and the place of its violations.
#[derive(Drop)]
pub struct Instruction {
    pub place: Place,
    pub operation: Operation,
}

/// What an instruction does. Temporaries, bases and edges are numbers of the flow; offsets and sizes
/// are in bytes. Unless it says otherwise the first temporary takes the result.
#[derive(Drop)]
pub enum Operation {
    /// A number of an integer type.
    Constant(u32, i128, IntType),
    /// A pointer to the byte at an offset of a base, into the whole of it.
    Address(u32, u32, u64),
    /// The value at the pointer in the second temporary.
    Load(u32, u32, Scalar),
    /// Stores at the pointer in the first temporary the value in the second one; then the first
    /// number, where it is given, is a temporary that takes the value in the temporary behind it.
    Store(u32, u32, Scalar, Option<(u32, u32)>),
    /// Copies a struct of the unit's list to the pointer in the first temporary from that in the
    /// second one. The first keeps its pointer.
    Copy(u32, u32, u32),
    /// The pointer in the second temporary, narrowed to so many bytes at an offset.
    Narrow(u32, u32, u64, u64),
    /// The pointer in the second temporary moved by an amount of elements of a size, backwards where
    /// the flag is set.
    Shift(u32, u32, Amount, u64, bool),
    /// An operator on integers of a type.
    Binary(u32, IntOp, u32, Amount, IntType),
    /// Minus or complement in a type.
    Unary(u32, UnOp, u32, IntType),
    /// A relation of two integers.
    Compare(u32, Rel, u32, u32),
    /// Whether the value in the second temporary, an integer or a pointer, is 0 or null.
    Not(u32, u32, Scalar),
    /// The distance of two pointers in elements of a size.
    Difference(u32, u32, u32, u64),
    /// A relation of two pointers.
    ComparePointers(u32, Rel, u32, u32),
    /// A conversion of the value in the second temporary from one scalar type to another.
    Convert(u32, u32, Scalar, Scalar),
    /// A library call: the temporary of its result, where it has one, its arguments, the newest of
    /// the two bases of an allocation, and the size of the type to whose pointer an allocation is
    /// converted at once.
    Library(Option<u32>, LibFn, Vec<u32>, Option<u32>, Option<u64>),
    /// A block's object gets a fresh instance.
    Enter(u32),
    /// A block's object is ended.
    Leave(u32),
    /// All bytes of an object become indeterminate.
    Forget(u32),
    /// All bytes of an object become 0.
    Clear(u32),
    /// Writes the text and its closing zero, as far as they fit, into the character array of so many
    /// bytes at an offset of an object.
    Spell(u32, u64, u64, Text),
    /// Ends its block with one edge.
    Jump,
    /// Ends its block with two edges, the true one first, by the scalar in a temporary.
    Branch(u32, Scalar),
    /// Ends its block with an edge for each case, in reading order, and one for all other values.
    Switch(u32, IntType),
    /// A call of `fgets`: the temporary of its result, where more than a condition looks at it, and its
    /// three arguments. Ends its block with two edges: null, then success.
    ReadLine(Option<u32>, u32, u32, u32),
    /// Ends the run.
    Stop,
}
