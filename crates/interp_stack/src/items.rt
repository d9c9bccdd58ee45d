//! Items: what is still to be done, the next one last.
use c_layout::{CType, CheckedStatement, CheckedTerm, InitStore, LibFn, Lvalue, ObjectRef};
use cc_base::{IntOp, IntType, Place, Rel, UnOp};
use cfg::Scalar;

/// Which of two operands was computed first; the other one is the newest value.
#[derive(Clone, Copy)]
pub enum Order7 {
    LeftFirst,
    RightFirst,
}

/// An operation takes the newest values and gives one in their place, unless it says otherwise. Sizes
/// and offsets are in bytes.
#[derive(Clone, Copy)]
pub enum Operation7<'a> {
    /// A number more.
    Number(&'a i128),
    Size(u64),
    Load(Scalar),
    /// The pointer stays, below the newest value or as the newest one, and what it points to is given.
    LoadUnder(Scalar),
    LoadOver(Scalar),
    /// The value that was stored is given, or the one below it.
    Store(Scalar),
    StoreOver(Scalar),
    Copy(&'a CType),
    Narrow(u64, u64),
    /// A pointer is the left operand.
    Shift(Order7, u64, bool),
    ShiftByOne(u64, bool),
    Binary(Order7, IntOp, IntType),
    BinaryByOne(IntOp, IntType),
    Unary(UnOp, IntType),
    Compare(Rel),
    Not,
    Difference(u64),
    ComparePointers(Rel),
    Convert(Scalar),
    /// So many arguments are taken, and what the function gives is given.
    Library(LibFn, usize, Option<&'a CType>),
}

/// What a declaration does to an object.
#[derive(Clone, Copy)]
pub enum Change7 {
    Forget,
    Clear,
}

/// What of a statement follows a condition: itself, and then control may go somewhere else, or the body of
/// a loop and its next turn.
#[derive(Clone, Copy)]
pub enum Next7 {
    Body,
    BodyHop,
    Turn,
}

/// What of a term follows a condition: itself, whose value is used where the flag is set, and then
/// control may go somewhere else, or 0 or 1 by its value.
#[derive(Clone, Copy)]
pub enum Arm7 {
    Arm(bool),
    ArmHop(bool),
    Right,
}

/// What a term is for.
#[derive(Clone, Copy)]
pub enum Use7 {
    /// Its value is pushed, or only what it does is done.
    Value,
    Unused,
    /// It is the condition whose value is the newest one, and a test where the flag is set: items follow
    /// by whether the value is 0.
    Choose(bool),
    /// It is the right operand of `&&` or `||`, whose left one is the condition above.
    AndThen(bool),
    OrElse(bool),
    /// It is a conditional whose condition is that above: one of its arms follows.
    Pick,
    /// It follows where the condition above holds; that below follows where it does not.
    After(Arm7),
}

/// What a statement is for: it is done, it is the next turn of a loop, or the newest value selects a label
/// of a `switch`.
#[derive(Clone, Copy)]
pub enum Way7 {
    Whole,
    Turn,
    Select,
    /// It follows where the condition above holds; that below follows where it does not.
    After(Next7),
}

/// An item, or what an item above it is made with.
#[derive(Clone, Copy)]
pub enum Item7<'a> {
    Term(Use7, &'a CheckedTerm),
    /// The values of terms, the first one first.
    Values(&'a [CheckedTerm]),
    /// The pointer to an lvalue is pushed.
    Address(&'a Lvalue),
    Do(Place, Operation7<'a>),
    /// 0 or 1 is pushed.
    Truth(bool),
    /// The newest value again, or no longer, so many times.
    Again,
    Drop,
    Drops(usize),
    /// A pointer to a byte of a named object, of a literal or of the result is pushed.
    Object(Place, ObjectRef, u64),
    Literal(Place, u32),
    Outcome(Place),
    OnObject(Place, u32, Change7),
    /// The stores of an initializer.
    Stores(Place, u32, &'a [InitStore]),
    /// A line is read, and items follow by whether there was one; those of a condition that holds where
    /// the flag is set.
    ReadLine(Place, bool),
    /// What follows where the condition above holds, nothing or 0 or 1; that below follows where it does
    /// not. With a condition that is negated it is the other way round.
    AfterNothing,
    AfterTruth(bool),
    Negated,
    Statement(Way7, &'a CheckedStatement),
    Statements(&'a [CheckedStatement]),
    /// Here `continue` leads, and `break`.
    IterationEnd,
    LoopEnd,
    /// Local objects begin to live, or end, one after the other: these, or those of the entries below.
    Enters(&'a [u32]),
    Leaves(&'a [u32]),
    EntersBelow,
    LeavesBelow,
    Also(u32),
    AlsoFrom(u32, u32),
    /// A step without effect: control goes somewhere else.
    Hop,
    GoTo(u32),
    BreakOut,
    NextIteration,
    /// The function is left by `return`, or its body ends.
    LeaveFunction,
    EndBody,
    /// A function is called with so many of the newest values; whether its value is used.
    Invoke(Place, u32, usize, bool),
    /// Arguments, of which there are so many, are stored in parameters, from one on, so many.
    Binds(Place, u32, u32, usize),
    /// The value so far below the newest, a pointer to a parameter, is stored there.
    Bind(Place, u32, u64),
    /// The object of the result ends.
    LeaveOutcome(Place),
}
