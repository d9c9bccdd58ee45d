//! Expressions (6.5 of ISO/IEC 9899:2011).
use crate::syntax_tree::declarations::{Storage, TypeWord};
use cc_base::{IntType, Place, Text};

/// An identifier and its place.
#[derive(Drop)]
pub struct Name {
    pub place: Place,
    pub text: Text,
}

/// An integer constant or a character constant with its type (6.4.4).
#[derive(Clone, Copy, PartialEq, Eq)]
pub struct Constant {
    pub value: u64,
    /// Whether a character constant is below 0; `value` is then its magnitude.
    pub negative: bool,
    pub kind: IntType,
}

/// `++` or `--`.
#[derive(Clone, Copy, PartialEq, Eq)]
pub enum StepOp {
    Increment,
    Decrement,
}

/// The unary operators of 6.5.3.2 and 6.5.3.3.
#[derive(Clone, Copy, PartialEq, Eq)]
pub enum UnaryOp {
    /// `&`
    Address,
    /// `*`
    Indirection,
    /// `+`
    Plus,
    /// `-`
    Minus,
    /// `~`
    Complement,
    /// `!`
    Not,
}

/// The binary operators of 6.5.5 to 6.5.12, in order of precedence.
#[derive(Clone, Copy, PartialEq, Eq)]
pub enum BinaryOp {
    Multiply,
    Divide,
    Remainder,
    Add,
    Subtract,
    ShiftLeft,
    ShiftRight,
    Less,
    Greater,
    LessEqual,
    GreaterEqual,
    Equal,
    NotEqual,
    And,
    Xor,
    Or,
}

/// `&&` or `||` (6.5.13, 6.5.14).
#[derive(Clone, Copy, PartialEq, Eq)]
pub enum LogicalOp {
    And,
    Or,
}

/// `=` or a compound assignment (6.5.16).
#[derive(Clone, Copy, PartialEq, Eq)]
pub enum AssignOp {
    Simple,
    Compound(BinaryOp),
}

/// A word of a type name, in which no struct and no enumeration has a body.
#[derive(Drop)]
pub enum TypeNameWord {
    Storage(Place, Storage),
    /// `const`, `restrict` or `inline`.
    Qualifier(Place),
    Type(Place, TypeWord),
    Struct(Place, Name),
    Enum(Place, Name),
    Typedef(Name),
}

/// Square brackets, and whether a length stands in them.
#[derive(Clone, Copy, PartialEq, Eq)]
pub struct Brackets {
    pub place: Place,
    pub has_length: bool,
}

/// The stars before and the brackets behind one level of parentheses of an abstract declarator.
#[derive(Drop)]
pub struct AbstractLayer {
    /// For each star the number of qualifiers behind it.
    pub stars: Vec<u32>,
    pub arrays: Vec<Brackets>,
}

/// A type name (6.7.7). The lengths of its arrays stand beside it, in order, so that `Expr` is the
/// only type that holds itself.
#[derive(Drop)]
pub struct TypeName {
    pub words: Vec<TypeNameWord>,
    /// The layers from the outermost to the innermost; none where there is no declarator.
    pub layers: Vec<AbstractLayer>,
}

/// An expression. The place of a node is that of its operator: of a name, constant or literal its
/// own, of a call that of its name, of a subscript that of `[`, of `?:` that of `?`, of `sizeof` that
/// of the word, of a cast and of parentheses that of `(`.
#[derive(Drop)]
pub enum Expr {
    Name(Place, Text),
    /// An integer or a character constant.
    Constant(Place, Constant),
    /// A string literal: the bytes that it stands for, without the closing zero.
    Literal(Place, Text),
    Paren(Place, Box<Expr>),
    Subscript(Place, Box<Expr>, Box<Expr>),
    Call(Place, Text, Vec<Expr>),
    /// `.`
    Member(Place, Box<Expr>, Text),
    /// `->`
    Arrow(Place, Box<Expr>, Text),
    Postfix(Place, StepOp, Box<Expr>),
    Prefix(Place, StepOp, Box<Expr>),
    Unary(Place, UnaryOp, Box<Expr>),
    SizeofExpr(Place, Box<Expr>),
    /// `sizeof` of a type name, and the lengths of its arrays.
    SizeofType(Place, TypeName, Vec<Expr>),
    /// A cast to a type name, the lengths of its arrays, and the operand.
    Cast(Place, TypeName, Vec<Expr>, Box<Expr>),
    Binary(Place, BinaryOp, Box<Expr>, Box<Expr>),
    Logical(Place, LogicalOp, Box<Expr>, Box<Expr>),
    Conditional(Place, Box<Expr>, Box<Expr>, Box<Expr>),
    Assign(Place, AssignOp, Box<Expr>, Box<Expr>),
    Comma(Place, Box<Expr>, Box<Expr>),
}
