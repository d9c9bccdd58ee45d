//! The operators on integers, their relations, and what an analysis answers to a relation.

/// The binary operators on integers (6.5.5 to 6.5.7 and 6.5.10 to 6.5.12 of ISO/IEC 9899:2011).
#[derive(Clone, Copy, PartialEq, Eq, Debug)]
pub enum IntOp {
    /// `+`
    Add,
    /// `-`
    Sub,
    /// `*`
    Mul,
    /// `/`, which truncates towards zero.
    Div,
    /// `%`, with the sign of the dividend.
    Rem,
    /// `&`
    And,
    /// `|`
    Or,
    /// `^`
    Xor,
    /// `<<`
    Shl,
    /// `>>`, which is arithmetic.
    Shr,
}

/// The unary operators on integers that compute (6.5.3.3).
#[derive(Clone, Copy, PartialEq, Eq, Debug)]
pub enum UnOp {
    /// `-`
    Neg,
    /// `~`
    Compl,
}

/// The relations between two numbers (6.5.8 and 6.5.9).
#[derive(Clone, Copy, PartialEq, Eq, Debug)]
pub enum Rel {
    /// `<`
    Lt,
    /// `<=`
    Le,
    /// `>`
    Gt,
    /// `>=`
    Ge,
    /// `==`
    Eq,
    /// `!=`
    Ne,
}

/// Which truth values a relation between two abstract values can have.
#[derive(Clone, Copy, PartialEq, Eq, Debug)]
pub enum Tri {
    /// False alone.
    No,
    /// True alone.
    Yes,
    /// False and true.
    Both,
    /// None, since a side stands for nothing.
    Never,
}
