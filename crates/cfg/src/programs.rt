//! Control-flow programs.
use crate::basic_blocks::BasicBlock;
use crate::flow_edges::Edge;
use c_layout::{BaseInfo, Model, StaticBase, StaticStore, Structs};
use cc_base::{IntType, Place, Text};

/// The initial bytes of an object of static storage or of a literal.
#[derive(Drop)]
pub enum InitialValue {
    /// All zero, and then these stores in order.
    Stores(Vec<StaticStore>),
    /// A literal's bytes and a closing zero.
    Literal(Text),
}

/// An object of static storage or a literal of the unit, named by the code or not, in the order in
/// which they are made: its size in bytes and its base, where it has one.
#[derive(Drop)]
pub struct InitialObject {
    pub object: StaticBase,
    pub size: u64,
    pub base: Option<u32>,
    pub value: InitialValue,
}

/// A parameter of the entry: its base and its type. It takes a number of the outside.
#[derive(Clone, Copy, PartialEq, Eq, Debug)]
pub struct ParameterInput {
    pub base: u32,
    pub kind: IntType,
}

/// A control-flow program with every call of an own function put in at its place.
#[derive(Drop)]
pub struct Flow {
    pub blocks: Vec<BasicBlock>,
    pub edges: Vec<Edge>,
    /// In order of first naming.
    pub bases: Vec<BaseInfo>,
    /// How many temporaries there are.
    pub temps: u32,
    /// All objects of static storage and all literals of the unit.
    pub initial: Vec<InitialObject>,
    /// The entry's parameters.
    pub parameters: Vec<ParameterInput>,
    /// The place of the entry's name in its definition.
    pub entry: Place,
    /// The structs of the unit.
    pub structs: Structs,
    /// How many values a row has.
    pub width: u32,
    pub model: Model,
}
