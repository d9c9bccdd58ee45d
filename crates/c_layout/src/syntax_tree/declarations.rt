//! Declarations (6.7 and 6.9 of ISO/IEC 9899:2011).
use crate::syntax_tree::expressions::{Expr, Name};
use crate::syntax_tree::statements::Statement;
use cc_base::Place;

/// A word of an integer type or `void` (6.7.2).
#[derive(Clone, Copy, PartialEq, Eq)]
pub enum TypeWord {
    Void,
    Char,
    Short,
    Int,
    Long,
    Signed,
    Unsigned,
}

/// A storage class specifier (6.7.1).
#[derive(Clone, Copy, PartialEq, Eq)]
pub enum Storage {
    Typedef,
    Extern,
    Static,
    Auto,
    Register,
}

/// A word of declaration specifiers (6.7).
#[cycle(specifiers)]
#[derive(Drop)]
pub enum SpecWord {
    Storage(Place, Storage),
    /// `const`, `restrict` or `inline`.
    Qualifier(Place),
    Type(Place, TypeWord),
    /// `struct` with its tag, its members or both.
    Struct(Place, Option<Name>, Option<Vec<Member>>),
    /// `enum` with its tag, its enumerators or both.
    Enum(Place, Option<Name>, Option<Vec<Enumerator>>),
    /// A typedef name.
    Typedef(Name),
}

/// A declaration of members (6.7.2.1).
#[cycle(specifiers)]
#[derive(Drop)]
pub struct Member {
    pub words: Vec<SpecWord>,
    pub declarators: Vec<Declarator>,
}

/// An enumerator, with its value where one is given (6.7.2.2).
#[derive(Drop)]
pub struct Enumerator {
    pub name: Name,
    pub value: Option<Expr>,
}

/// Square brackets behind a declarator, with their length where one is given.
#[derive(Drop)]
pub struct ArraySuffix {
    pub place: Place,
    pub length: Option<Expr>,
}

/// The stars before and the brackets behind one level of parentheses of a declarator.
#[derive(Drop)]
pub struct DeclaratorLayer {
    /// For each star the number of qualifiers behind it.
    pub stars: Vec<u32>,
    pub arrays: Vec<ArraySuffix>,
}

/// A declarator or, without a name, an abstract declarator (6.7.6, 6.7.7).
#[derive(Drop)]
pub struct Declarator {
    /// The layers from the outermost to the innermost, which holds the name.
    pub layers: Vec<DeclaratorLayer>,
    pub name: Option<Name>,
}

/// A parameter of a prototype or a definition.
#[derive(Drop)]
pub struct Parameter {
    /// Its first token.
    pub place: Place,
    pub words: Vec<SpecWord>,
    /// None where it has neither a declarator nor an abstract one.
    pub declarator: Option<Declarator>,
}

/// What stands between the parentheses of a function declarator.
#[derive(Drop)]
pub enum Parameters {
    /// Nothing, which means no parameters.
    Empty,
    /// The one word `void`.
    Void,
    List(Vec<Parameter>),
}

/// The declarator of a function (6.7.6.3).
#[derive(Drop)]
pub struct FunctionDeclarator {
    /// For each star the number of qualifiers behind it.
    pub stars: Vec<u32>,
    pub name: Name,
    pub parameters: Parameters,
}

/// An initializer (6.7.9).
#[derive(Drop)]
pub enum Initializer {
    Value(Expr),
    /// A list in braces, at its `{`.
    Braces(Place, Vec<Initializer>),
}

/// A declarator at file scope, with its initializer.
#[derive(Drop)]
pub enum InitDeclarator {
    Object(Declarator),
    /// The declarator, the place of `=` and the initializer.
    Initialized(Declarator, Place, Initializer),
    /// A prototype.
    Function(FunctionDeclarator),
}

/// An external declaration (6.9).
#[derive(Drop)]
pub enum External {
    /// A declaration, at its first token.
    Declaration(Place, Vec<SpecWord>, Vec<InitDeclarator>),
    /// A function definition, at its first token, with the items of its block.
    Function(Place, Vec<SpecWord>, FunctionDeclarator, Vec<Statement>),
}

/// The tree of a translation unit.
#[derive(Drop)]
pub struct Tree7 {
    pub externals: Vec<External>,
}
