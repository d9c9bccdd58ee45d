//! Terminals of the grammar: what the tokens of a unit are to its productions.
use c_layout::Constant;
use cc_base::{Place, Text};

/// The keywords that are in (6.4.1).
#[derive(Clone, Copy, PartialEq, Eq, Debug)]
pub enum Keyword {
    Auto,
    Break,
    Case,
    Char,
    Const,
    Continue,
    Default,
    Do,
    Else,
    Enum,
    Extern,
    For,
    Goto,
    If,
    Inline,
    Int,
    Long,
    Register,
    Restrict,
    Return,
    Short,
    Signed,
    Sizeof,
    Static,
    Struct,
    Switch,
    Typedef,
    Unsigned,
    Void,
    While,
}

/// The punctuators that are in (6.4.6).
#[derive(Clone, Copy, PartialEq, Eq, Debug)]
pub enum Punctuator {
    /// `[`
    LeftBracket,
    /// `]`
    RightBracket,
    /// `(`
    LeftParenthesis,
    /// `)`
    RightParenthesis,
    /// `{`
    LeftBrace,
    /// `}`
    RightBrace,
    /// `.`
    Dot,
    /// `->`
    Arrow,
    /// `++`
    Increment,
    /// `--`
    Decrement,
    /// `&`
    Ampersand,
    /// `*`
    Star,
    /// `+`
    Plus,
    /// `-`
    Minus,
    /// `~`
    Tilde,
    /// `!`
    Exclamation,
    /// `/`
    Slash,
    /// `%`
    Percent,
    /// `<<`
    ShiftLeft,
    /// `>>`
    ShiftRight,
    /// `<`
    Less,
    /// `>`
    Greater,
    /// `<=`
    LessEqual,
    /// `>=`
    GreaterEqual,
    /// `==`
    EqualEqual,
    /// `!=`
    NotEqual,
    /// `^`
    Caret,
    /// `|`
    Bar,
    /// `&&`
    AndAnd,
    /// `||`
    OrOr,
    /// `?`
    Question,
    /// `:`
    Colon,
    /// `;`
    Semicolon,
    /// `,`
    Comma,
    /// `=`
    Assign,
    /// `*=`
    StarAssign,
    /// `/=`
    SlashAssign,
    /// `%=`
    PercentAssign,
    /// `+=`
    PlusAssign,
    /// `-=`
    MinusAssign,
    /// `<<=`
    ShiftLeftAssign,
    /// `>>=`
    ShiftRightAssign,
    /// `&=`
    AndAssign,
    /// `^=`
    XorAssign,
    /// `|=`
    OrAssign,
}

/// What a token is to the grammar.
#[derive(Clone, Copy, PartialEq, Eq)]
pub enum Symbol {
    /// A name that is no keyword. Whether it is a typedef name depends on where it stands.
    Identifier,
    /// An integer or a character constant.
    Constant(Constant),
    /// One or more adjacent string literals.
    Literal,
    Keyword(Keyword),
    Punctuator(Punctuator),
    /// A word or a punctuator of the language that is left out.
    Unsupported,
    /// A header name, which no production has.
    HeaderName,
    /// What stands behind the last token.
    End,
}

/// A token as the grammar sees it.
#[derive(Drop)]
pub struct Terminal {
    pub place: Place,
    pub symbol: Symbol,
    /// The spelling of an identifier and of what is left out, the bytes that a literal stands for,
    /// and nothing otherwise.
    pub text: Text,
}
