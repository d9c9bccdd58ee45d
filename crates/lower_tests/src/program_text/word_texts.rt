//! The words of types, operators and functions.
use c_layout::{BaseKind, Class, LibFn};
use cc_base::{IntOp, Rel, UnOp};

/// The sign of an operator on integers.
pub fn operator_text(op: IntOp) -> &'static str {
    match op {
        IntOp::Add => "+",
        IntOp::Sub => "-",
        IntOp::Mul => "*",
        IntOp::Div => "/",
        IntOp::Rem => "%",
        IntOp::And => "&",
        IntOp::Or => "|",
        IntOp::Xor => "^",
        IntOp::Shl => "<<",
        IntOp::Shr => ">>",
    }
}

/// The sign of a unary operator.
pub fn unary_text(op: UnOp) -> &'static str {
    match op {
        UnOp::Neg => "-",
        UnOp::Compl => "~",
    }
}

/// The sign of a relation.
pub fn relation_text(rel: Rel) -> &'static str {
    match rel {
        Rel::Lt => "<",
        Rel::Le => "<=",
        Rel::Gt => ">",
        Rel::Ge => ">=",
        Rel::Eq => "==",
        Rel::Ne => "!=",
    }
}

/// The word of a class of scalars.
pub fn class_text(class: Class) -> &'static str {
    match class {
        Class::Char => "char",
        Class::Short => "short",
        Class::Int => "int",
        Class::Long => "long",
        Class::LongLong => "llong",
        Class::Pointer => "ptr",
    }
}

/// The word of a kind of base.
pub fn kind_text(kind: BaseKind) -> &'static str {
    match kind {
        BaseKind::Static => "static",
        BaseKind::Automatic => "automatic",
        BaseKind::Literal => "literal",
        BaseKind::Newest => "newest",
        BaseKind::Older => "older",
    }
}

/// The name of a library function.
pub fn function_text(function: LibFn) -> &'static str {
    function.signature().name
}
