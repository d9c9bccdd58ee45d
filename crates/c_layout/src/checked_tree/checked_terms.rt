//! Checked expressions: values and lvalues, one variant for each thing that the machine does.
use crate::library_functions::LibFn;
use crate::syntax_tree::{BinaryOp, LogicalOp, StepOp};
use crate::type_terms::CType;
use cc_base::Place;

/// An object of the unit or of the function at hand, by its number.
#[derive(Clone, Copy, PartialEq, Eq)]
pub enum ObjectRef {
    /// An index into the unit's objects of static storage.
    Static(u32),
    /// An index into the function's locals, parameters first.
    Local(u32),
}

/// An lvalue (6.3.2.1 of ISO/IEC 9899:2011) with the type of what it designates. An access has the
/// lvalue's place: that of the name, the `*`, the `[`, the `.` or the `->`.
#[derive(Drop)]
#[cycle(terms)]
pub struct Lvalue {
    pub place: Place,
    pub ctype: CType,
    /// How many pairs of parentheses stand round it.
    pub parens: u32,
    pub form: LvalueForm,
}

#[derive(Drop)]
#[cycle(terms)]
pub enum LvalueForm {
    /// A named object.
    Object(ObjectRef),
    /// A string literal, by its index into the unit's literals.
    Literal(u32),
    /// What a pointer points to. A subscript is this over a `Shift` at the same place.
    Target(Box<CheckedTerm>),
    /// The member at an offset in bytes of a struct lvalue.
    Member(Box<Lvalue>, u64),
    /// A struct assignment, whose value is its left side: the target and the source.
    Copied(Box<Lvalue>, Box<Lvalue>),
    /// A comma expression whose last operand is an lvalue of struct type.
    Then(Box<CheckedTerm>, Box<Lvalue>),
}

/// Whether a conversion is written as a cast.
#[derive(Clone, Copy, PartialEq, Eq)]
pub enum ConversionKind {
    Implicit,
    Cast,
}

/// Whether a step gives the new value or the old one.
#[derive(Clone, Copy, PartialEq, Eq)]
pub enum StepTime {
    Prefix,
    Postfix,
}

/// An expression that has a value, or is void, with its type.
#[derive(Drop)]
#[cycle(terms)]
pub struct CheckedTerm {
    pub place: Place,
    pub ctype: CType,
    /// How many pairs of parentheses stand round it; 0 for an implicit conversion.
    pub parens: u32,
    /// The value of an integer constant expression (6.6), before any implicit conversion of it.
    pub constant: Option<i128>,
    pub form: TermForm,
}

#[derive(Drop)]
#[cycle(terms)]
pub enum TermForm {
    /// A number of the term's type: a constant or an enumerator.
    Number(i128),
    /// `sizeof` and its value. The operand, where it is an expression, is not evaluated; whether it
    /// is, parentheses removed, a name or a member of pointer type.
    Sizeof(u64, Option<Box<CheckedTerm>>, bool),
    /// The value of an lvalue of scalar type. Under `sizeof` the lvalue may have any type.
    Load(Box<Lvalue>),
    /// `&`
    AddressOf(Box<Lvalue>),
    /// The conversion of an array lvalue to a pointer to its first element.
    Decay(Box<Lvalue>),
    /// A conversion to the term's type: between integers, between pointers, or of a null constant.
    Convert(ConversionKind, Box<CheckedTerm>),
    /// A cast to void.
    Discard(Box<CheckedTerm>),
    /// Unary plus, which is the promotion of its operand alone.
    Plus(Box<CheckedTerm>),
    Minus(Box<CheckedTerm>),
    Complement(Box<CheckedTerm>),
    /// `!` of a scalar.
    Not(Box<CheckedTerm>),
    /// An operator on integers, converted to their common type; a shift's operands are promoted.
    Integer(BinaryOp, Box<CheckedTerm>, Box<CheckedTerm>),
    /// A pointer plus (or, where the flag is set, minus) an integer, and the element's size.
    Shift(bool, u64, Box<CheckedTerm>, Box<CheckedTerm>),
    /// The difference of two pointers, and the element's size.
    Difference(u64, Box<CheckedTerm>, Box<CheckedTerm>),
    /// A relation or an equality of two pointers.
    Compare(BinaryOp, Box<CheckedTerm>, Box<CheckedTerm>),
    Logical(LogicalOp, Box<CheckedTerm>, Box<CheckedTerm>),
    Conditional(Box<CheckedTerm>, Box<CheckedTerm>, Box<CheckedTerm>),
    Comma(Box<CheckedTerm>, Box<CheckedTerm>),
    /// A simple assignment of a scalar.
    Assign(Box<Lvalue>, Box<CheckedTerm>),
    /// A compound assignment of an integer: its operator, the type in which it is computed, the
    /// target and the right side, converted to that type (a shift count is promoted).
    Compound(BinaryOp, CType, Box<Lvalue>, Box<CheckedTerm>),
    /// `+=` or, where the flag is set, `-=` of a pointer, and the element's size.
    CompoundShift(bool, u64, Box<Lvalue>, Box<CheckedTerm>),
    /// `++` or `--` of an integer, and the promoted type in which it is computed.
    Step(StepOp, StepTime, CType, Box<Lvalue>),
    /// `++` or `--` of a pointer, and the element's size.
    StepPointer(StepOp, StepTime, u64, Box<Lvalue>),
    /// A struct lvalue whose value is not used: a struct assignment among them.
    Struct(Box<Lvalue>),
    /// A call of a function of the unit, its arguments converted to the parameters' types, and
    /// whether its value is used.
    Call(u32, Vec<CheckedTerm>, bool),
    /// A library call. Where its result is an allocation that is converted at once to a pointer to
    /// a complete type, that type.
    Library(LibFn, Vec<CheckedTerm>, Option<CType>),
}
