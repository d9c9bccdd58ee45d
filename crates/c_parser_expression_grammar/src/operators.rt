//! Operators, with their signs and the levels at which they bind.
//!
//! A level stands for a nonterminal of 6.5: 0 expression, 1 assignment-expression, 2
//! conditional-expression, 3 logical-OR-expression and so on to 12 multiplicative-expression, 13
//! cast-expression, 14 unary-expression, 15 postfix-expression, 16 primary-expression.
ghost use Rattle.std.specs.Prelude.{◌≡◌, ◌≤◌, ◌<◌, IfSome, MatchOption};
ghost use Rattle.c_parser_expression_grammar.specs.Levels.{binary_sign, binary_level, logical_sign, logical_level, unary_sign, step_sign, compound_sign, assign_sign, op_sign, op_level, sign_level, symbol_level, step_of, unary_of, assign_of_sign, assign_of};
ghost use Rattle.c_parser_expression_grammar.specs.Continuations.{continuation_of_sign, continuation_of};
ghost use Rattle.c_parser_expression_grammar.specs.ExpressionReaders.{infix_of, keep_from};

use c_layout::{AssignOp, BinaryOp, LogicalOp, StepOp, UnaryOp};
use c_parser_tokens::{Punctuator, Symbol};

/// The level of logical-OR-expressions.
pub const LOGICAL_OR: u32 = 3;

/// An operator between two operands.
#[derive(Clone, Copy, PartialEq, Eq)]
pub enum Infix {
    Binary(BinaryOp),
    Logical(LogicalOp),
}

/// The sign of a binary operator.
fn binary_sign(op: BinaryOp) -> Punctuator
    ensures { result ≡ binary_sign op }
{
    match op {
        BinaryOp::Multiply => Punctuator::Star,
        BinaryOp::Divide => Punctuator::Slash,
        BinaryOp::Remainder => Punctuator::Percent,
        BinaryOp::Add => Punctuator::Plus,
        BinaryOp::Subtract => Punctuator::Minus,
        BinaryOp::ShiftLeft => Punctuator::ShiftLeft,
        BinaryOp::ShiftRight => Punctuator::ShiftRight,
        BinaryOp::Less => Punctuator::Less,
        BinaryOp::Greater => Punctuator::Greater,
        BinaryOp::LessEqual => Punctuator::LessEqual,
        BinaryOp::GreaterEqual => Punctuator::GreaterEqual,
        BinaryOp::Equal => Punctuator::EqualEqual,
        BinaryOp::NotEqual => Punctuator::NotEqual,
        BinaryOp::And => Punctuator::Ampersand,
        BinaryOp::Xor => Punctuator::Caret,
        BinaryOp::Or => Punctuator::Bar,
    }
}

/// The level of a binary operator.
fn binary_level(op: BinaryOp) -> u32
    ensures { result ≡ binary_level op }
{
    match op {
        BinaryOp::Or => 5,
        BinaryOp::Xor => 6,
        BinaryOp::And => 7,
        BinaryOp::Equal | BinaryOp::NotEqual => 8,
        BinaryOp::Less | BinaryOp::Greater | BinaryOp::LessEqual | BinaryOp::GreaterEqual => 9,
        BinaryOp::ShiftLeft | BinaryOp::ShiftRight => 10,
        BinaryOp::Add | BinaryOp::Subtract => 11,
        BinaryOp::Multiply | BinaryOp::Divide | BinaryOp::Remainder => 12,
    }
}

/// The sign of an operator between two operands.
pub fn infix_sign(op: Infix) -> Punctuator
    ensures { result ≡ op_sign op }
{
    match op {
        Infix::Logical(LogicalOp::Or) => Punctuator::OrOr,
        Infix::Logical(LogicalOp::And) => Punctuator::AndAnd,
        Infix::Binary(op) => binary_sign(op),
    }
}

/// The level of an operator between two operands.
pub fn infix_level(op: Infix) -> u32
    ensures is { result ≡ op_level op }
    ensures low { result < 13 }
{
    match op {
        Infix::Logical(LogicalOp::Or) => LOGICAL_OR,
        Infix::Logical(LogicalOp::And) => 4,
        Infix::Binary(op) => binary_level(op),
    }
}

/// The operator between two operands that a punctuator is.
fn infix_of(sign: Punctuator) -> Option<Infix>
    ensures is { result ≡ infix_of (continuation_of_sign sign) }
    ensures level { MatchOption result (sign_level sign ≡ 0) (λ op. sign_level sign ≡ op_level op) }
{
    let op = match sign {
        Punctuator::OrOr => return Some(Infix::Logical(LogicalOp::Or)),
        Punctuator::AndAnd => return Some(Infix::Logical(LogicalOp::And)),
        Punctuator::Bar => BinaryOp::Or,
        Punctuator::Caret => BinaryOp::Xor,
        Punctuator::Ampersand => BinaryOp::And,
        Punctuator::EqualEqual => BinaryOp::Equal,
        Punctuator::NotEqual => BinaryOp::NotEqual,
        Punctuator::Less => BinaryOp::Less,
        Punctuator::Greater => BinaryOp::Greater,
        Punctuator::LessEqual => BinaryOp::LessEqual,
        Punctuator::GreaterEqual => BinaryOp::GreaterEqual,
        Punctuator::ShiftLeft => BinaryOp::ShiftLeft,
        Punctuator::ShiftRight => BinaryOp::ShiftRight,
        Punctuator::Plus => BinaryOp::Add,
        Punctuator::Minus => BinaryOp::Subtract,
        Punctuator::Star => BinaryOp::Multiply,
        Punctuator::Slash => BinaryOp::Divide,
        Punctuator::Percent => BinaryOp::Remainder,
        _ => return None,
    };
    Some(Infix::Binary(op))
}

/// The operator of a level or above that a symbol is.
pub fn infix_from(level: u32, symbol: Symbol) -> Option<Infix>
    requires { 0 < level }
    ensures is { result ≡ keep_from level (infix_of (continuation_of symbol)) }
    ensures level { MatchOption result (symbol_level symbol < level) (λ op. (symbol_level symbol ≡ op_level op) × (level ≤ op_level op)) }
{
    match symbol {
        Symbol::Punctuator(sign) => {
            let op = infix_of(sign)?;
            if level <= infix_level(op) {
                Some(op)
            } else {
                None
            }
        }
        _ => None,
    }
}

/// The sign of a compound assignment; None for a relational operator, which has none.
fn compound_sign(op: BinaryOp) -> Option<Punctuator>
    ensures { result ≡ compound_sign op }
{
    match op {
        BinaryOp::Multiply => Some(Punctuator::StarAssign),
        BinaryOp::Divide => Some(Punctuator::SlashAssign),
        BinaryOp::Remainder => Some(Punctuator::PercentAssign),
        BinaryOp::Add => Some(Punctuator::PlusAssign),
        BinaryOp::Subtract => Some(Punctuator::MinusAssign),
        BinaryOp::ShiftLeft => Some(Punctuator::ShiftLeftAssign),
        BinaryOp::ShiftRight => Some(Punctuator::ShiftRightAssign),
        BinaryOp::And => Some(Punctuator::AndAssign),
        BinaryOp::Xor => Some(Punctuator::XorAssign),
        BinaryOp::Or => Some(Punctuator::OrAssign),
        BinaryOp::Less
        | BinaryOp::Greater
        | BinaryOp::LessEqual
        | BinaryOp::GreaterEqual
        | BinaryOp::Equal
        | BinaryOp::NotEqual => None,
    }
}

/// The sign of an assignment operator, if it has one.
pub fn assign_sign(op: AssignOp) -> Option<Punctuator>
    ensures { result ≡ assign_sign op }
{
    match op {
        AssignOp::Simple => Some(Punctuator::Assign),
        AssignOp::Compound(op) => compound_sign(op),
    }
}

/// The assignment operator that a punctuator is.
fn assign_of_sign(sign: Punctuator) -> Option<AssignOp>
    ensures { result ≡ assign_of_sign sign }
{
    let op = match sign {
        Punctuator::Assign => return Some(AssignOp::Simple),
        Punctuator::StarAssign => BinaryOp::Multiply,
        Punctuator::SlashAssign => BinaryOp::Divide,
        Punctuator::PercentAssign => BinaryOp::Remainder,
        Punctuator::PlusAssign => BinaryOp::Add,
        Punctuator::MinusAssign => BinaryOp::Subtract,
        Punctuator::ShiftLeftAssign => BinaryOp::ShiftLeft,
        Punctuator::ShiftRightAssign => BinaryOp::ShiftRight,
        Punctuator::AndAssign => BinaryOp::And,
        Punctuator::XorAssign => BinaryOp::Xor,
        Punctuator::OrAssign => BinaryOp::Or,
        _ => return None,
    };
    Some(AssignOp::Compound(op))
}

/// The assignment operator that a symbol is.
pub fn assign_at(symbol: Symbol) -> Option<AssignOp>
    ensures { result ≡ assign_of symbol }
{
    match symbol {
        Symbol::Punctuator(sign) => assign_of_sign(sign),
        _ => None,
    }
}

/// `++` or `--`.
pub fn step_at(symbol: Symbol) -> Option<StepOp>
    ensures { result ≡ step_of symbol }
{
    match symbol {
        Symbol::Punctuator(Punctuator::Increment) => Some(StepOp::Increment),
        Symbol::Punctuator(Punctuator::Decrement) => Some(StepOp::Decrement),
        _ => None,
    }
}

/// The sign of `++` or `--`.
pub fn step_sign(op: StepOp) -> Punctuator
    ensures { result ≡ step_sign op }
{
    match op {
        StepOp::Increment => Punctuator::Increment,
        StepOp::Decrement => Punctuator::Decrement,
    }
}

/// The unary operator that a symbol is (6.5.3).
pub fn unary_at(symbol: Symbol) -> Option<UnaryOp>
    ensures { result ≡ unary_of symbol }
{
    match symbol {
        Symbol::Punctuator(Punctuator::Ampersand) => Some(UnaryOp::Address),
        Symbol::Punctuator(Punctuator::Star) => Some(UnaryOp::Indirection),
        Symbol::Punctuator(Punctuator::Plus) => Some(UnaryOp::Plus),
        Symbol::Punctuator(Punctuator::Minus) => Some(UnaryOp::Minus),
        Symbol::Punctuator(Punctuator::Tilde) => Some(UnaryOp::Complement),
        Symbol::Punctuator(Punctuator::Exclamation) => Some(UnaryOp::Not),
        _ => None,
    }
}

/// The sign of a unary operator.
pub fn unary_sign(op: UnaryOp) -> Punctuator
    ensures { result ≡ unary_sign op }
{
    match op {
        UnaryOp::Address => Punctuator::Ampersand,
        UnaryOp::Indirection => Punctuator::Star,
        UnaryOp::Plus => Punctuator::Plus,
        UnaryOp::Minus => Punctuator::Minus,
        UnaryOp::Complement => Punctuator::Tilde,
        UnaryOp::Not => Punctuator::Exclamation,
    }
}
