//! Data models, C types with their layout, and the trees that cross the front end.
#![tactic(auto)]

mod character_classes;
mod checked_tree;
mod data_model;
mod leaf_lists;
mod leaf_making;
mod library_functions;
mod library_signatures;
mod model_file;
mod shapes;
mod sizes;
mod struct_layouts;
mod struct_table;
mod syntax_tree;
mod type_terms;
mod unit_tokens;
mod whole_types;

pub use character_classes::{has_class, is_lower, is_upper, lies_in};
pub use checked_tree::{
    CaseLabel, Checked, CheckedStatement, CheckedTerm, ConversionKind, Function, InitStore,
    LocalObject, Lvalue, LvalueForm, ObjectRef, StaticBase, StaticObject, StaticStore, StaticValue,
    StepTime, StringLiteral, TermForm,
};
pub use data_model::{Model, by_name, is_sound};
pub use leaf_lists::{Class, Leaf};
pub use leaf_making::leaves;
pub use library_functions::LibFn;
pub use library_signatures::{CharacterClass, LibrarySignature, SizeArguments, Slot};
pub use model_file::{Key, ModelFault, from_toml};
pub use shapes::{BaseInfo, BaseKind, Leaves, Shape, ZeroPart, ZeroParts};
pub use sizes::{align_of, size_of, type_bytes};
pub use struct_layouts::{StructLayout, count_leaves};
pub use struct_table::{Field, StructType, Structs};
pub use syntax_tree::{
    AbstractLayer, ArraySuffix, AssignOp, BinaryOp, Brackets, Constant, Declarator,
    DeclaratorLayer, Enumerator, Expr, External, ForFirst, FunctionDeclarator, InitDeclarator,
    Initializer, Local, LogicalOp, Member, Name, Parameter, Parameters, SpecWord, Statement,
    StepOp, Storage, Tree7, TypeName, TypeNameWord, TypeWord, UnaryOp,
};
pub use type_terms::CType;
pub use unit_tokens::Unit7;
pub use whole_types::is_whole;
