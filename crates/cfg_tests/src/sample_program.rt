//! A well-formed program made by hand: a loop with a branch, an allocation site, a call of `fgets` and
//! a switch.
use c_layout::{
    BaseInfo, BaseKind, Class, Leaf, Leaves, LibFn, Shape, StaticBase, Structs, ZeroPart,
    ZeroParts, by_name,
};
use cc_base::{IntType, Place, Rel};
use cfg::{
    BasicBlock, CaseTest, Edge, EdgeKind, Flow, InitialObject, InitialValue, Instruction,
    Operation, ParameterInput, Scalar, Side, Test,
};
use std::alloc::{AllocError, Global};

/// `int`.
pub fn int() -> IntType {
    IntType {
        bytes: 4,
        signed: true,
        rank: 3,
    }
}

fn place() -> Place {
    Place {
        file: 0,
        line: 1,
        col: 5,
    }
}

pub fn instruction(operation: Operation) -> Instruction {
    Instruction {
        place: place(),
        operation,
    }
}

/// A block of two instructions.
fn block(
    alloc: Global,
    first: Operation,
    last: Operation,
    first_edge: u32,
    edges: u32,
) -> Result<BasicBlock, AllocError> {
    let mut instructions = Vec::new(alloc);
    instructions.push(instruction(first))?;
    instructions.push(instruction(last))?;
    Ok(BasicBlock {
        instructions,
        first_edge,
        edges,
        is_head: false,
    })
}

/// A call of `malloc` at a site.
pub fn allocation(alloc: Global, site: u32) -> Result<Operation, AllocError> {
    let arguments = Vec::from_slice(alloc, &[0])?;
    Ok(Operation::Library(Some(1), LibFn::Malloc, arguments, Some(site), Some(4)))
}

/// The start, the head of a loop, its body, a block that reads a line, a switch, and the end.
fn blocks(alloc: Global) -> Result<Vec<BasicBlock>, AllocError> {
    let number = Operation::Constant(0, 7, int());
    let scalar = Scalar::Int(int());
    let load = Operation::Load(0, 1, scalar);
    let line = Operation::ReadLine(Some(2), 1, 0, 1);
    let mut list = Vec::new(alloc);
    list.push(block(alloc, Operation::Enter(1), Operation::Jump, 0, 1)?)?;
    list.push(block(alloc, load, Operation::Branch(0, scalar), 1, 2)?)?;
    list.push(block(alloc, allocation(alloc, 2)?, Operation::Jump, 3, 1)?)?;
    list.push(block(alloc, Operation::Address(1, 1, 0), line, 4, 2)?)?;
    list.push(block(alloc, number, Operation::Switch(0, int()), 6, 2)?)?;
    list.push(block(alloc, Operation::Leave(1), Operation::Stop, 8, 0)?)?;
    if let Some(head) = list.get_mut(1) {
        head.is_head = true;
    }
    Ok(list)
}

/// That the static object is below 10, or that it is not.
fn test(rel: Rel) -> Option<Test> {
    Some(Test {
        left: Side::Object(0, Scalar::Int(int())),
        rel,
        right: Side::Number(10),
        common: Some(int()),
    })
}

pub fn edge(from: u32, to: u32, kind: EdgeKind) -> Edge {
    Edge { from, to, kind }
}

fn edges(alloc: Global) -> Result<Vec<Edge>, AllocError> {
    let case = CaseTest {
        value: 3,
        object: Some(0),
    };
    let cases = Vec::from_slice(alloc, &[3i128])?;
    let mut list = Vec::new(alloc);
    list.push(edge(0, 1, EdgeKind::Jump))?;
    list.push(edge(1, 2, EdgeKind::When(true, test(Rel::Lt), None)))?;
    list.push(edge(1, 3, EdgeKind::When(false, test(Rel::Ge), Some((3, 0)))))?;
    list.push(edge(2, 1, EdgeKind::Jump))?;
    list.push(edge(3, 4, EdgeKind::NoLine))?;
    list.push(edge(3, 5, EdgeKind::Line))?;
    list.push(edge(4, 5, EdgeKind::Case(case)))?;
    list.push(edge(4, 5, EdgeKind::Other(cases)))?;
    Ok(list)
}

/// How many characters the text of an object has.
const TEXT: u64 = 80;

/// The shape of an object with an int at its start and a text whose leaf and whose part begin at these
/// offsets.
pub fn object_shape(alloc: Global, leaf: u64, part: u64) -> Result<Shape, AllocError> {
    let mut cells = Vec::new(alloc);
    cells.push(Leaf {
        offset: 0,
        class: Class::Int,
        signed: true,
        stride: 4,
        count: 1,
    })?;
    cells.push(Leaf {
        offset: leaf,
        class: Class::Char,
        signed: true,
        stride: 1,
        count: TEXT,
    })?;
    let zeros = Vec::from_slice(
        alloc,
        &[ZeroPart {
            offset: part,
            size: Some(TEXT),
        }],
    )?;
    Ok(Shape {
        cells: Leaves::from_vec(cells),
        zeros: ZeroParts::from_vec(zeros),
        heap: false,
    })
}

/// The shape of a heap base without cells of its own.
fn heap_shape(alloc: Global) -> Result<Shape, AllocError> {
    let zeros = Vec::from_slice(
        alloc,
        &[ZeroPart {
            offset: 0,
            size: None,
        }],
    )?;
    Ok(Shape {
        cells: Leaves::from_vec(Vec::new(alloc)),
        zeros: ZeroParts::from_vec(zeros),
        heap: true,
    })
}

fn object(alloc: Global, kind: BaseKind, first: u32) -> Result<BaseInfo, AllocError> {
    Ok(BaseInfo {
        kind,
        size: 4 + TEXT,
        first,
        shape: object_shape(alloc, 4, 4)?,
    })
}

fn heap(alloc: Global, kind: BaseKind, first: u32) -> Result<BaseInfo, AllocError> {
    Ok(BaseInfo {
        kind,
        size: 0,
        first,
        shape: heap_shape(alloc)?,
    })
}

fn bases(alloc: Global) -> Result<Vec<BaseInfo>, AllocError> {
    let mut list = Vec::new(alloc);
    list.push(object(alloc, BaseKind::Static, 0)?)?;
    list.push(object(alloc, BaseKind::Automatic, 3)?)?;
    list.push(heap(alloc, BaseKind::Newest, 6)?)?;
    list.push(heap(alloc, BaseKind::Older, 14)?)?;
    Ok(list)
}

/// The static object, and one that nothing names.
fn initial(alloc: Global) -> Result<Vec<InitialObject>, AllocError> {
    let mut list = Vec::new(alloc);
    list.push(InitialObject {
        object: StaticBase::Object(0),
        size: 4 + TEXT,
        base: Some(0),
        value: InitialValue::Stores(Vec::new(alloc)),
    })?;
    list.push(InitialObject {
        object: StaticBase::Object(1),
        size: 1,
        base: None,
        value: InitialValue::Stores(Vec::new(alloc)),
    })?;
    Ok(list)
}

/// A program that is well formed.
pub fn sample(alloc: Global) -> Result<Flow, AllocError> {
    let input = ParameterInput {
        base: 1,
        kind: int(),
    };
    Ok(Flow {
        blocks: blocks(alloc)?,
        edges: edges(alloc)?,
        bases: bases(alloc)?,
        temps: 4,
        initial: initial(alloc)?,
        parameters: Vec::from_slice(alloc, &[input])?,
        entry: place(),
        structs: Structs {
            items: Vec::new(alloc),
        },
        width: 26,
        model: by_name("lp64").ok_or(AllocError)?,
    })
}
