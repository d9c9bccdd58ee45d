//! The tree of a translation unit, one node for each production of the grammar (6.5 to 6.9 of
//! ISO/IEC 9899:2011, for the forms that are in).
mod declarations;
mod expression_places;
mod expressions;
mod statements;

pub use declarations::{
    ArraySuffix, Declarator, DeclaratorLayer, Enumerator, External, FunctionDeclarator,
    InitDeclarator, Initializer, Member, Parameter, Parameters, SpecWord, Storage, Tree7, TypeWord,
};
pub use expressions::{
    AbstractLayer, AssignOp, BinaryOp, Brackets, Constant, Expr, LogicalOp, Name, StepOp, TypeName,
    TypeNameWord, UnaryOp,
};
pub use statements::{ForFirst, Local, Statement};
