//! Loads and stores, against what ISO/IEC 9899:2011 says of objects and their representations, and
//! what docs/rules.md says of rules.
use c_layout::{Class, Leaf, Model};
use cc_base::Rule;
use interp_memory::{
    Byte7, Content7, InstKind, InstState, LabelSet, Loaded, Memory7, Pointer7, Stored, Value7,
};
use std::alloc::Global;
use std::process::Abort;
use std::test::Fail;

const LP64: Model = Model {
    short: 2,
    int: 4,
    long: 8,
    long_long: 8,
    pointer: 8,
    char_signed: true,
};

const NONE: LabelSet = LabelSet {
    low: false,
    high: false,
    changed: false,
};

const INPUT: LabelSet = LabelSet {
    low: true,
    high: true,
    changed: false,
};

/// The one leaf of an object of a scalar type.
fn leaf(class: Class) -> Leaf {
    Leaf {
        offset: 0,
        class,
        signed: true,
        stride: 0,
        count: 1,
    }
}

/// A new instance of a scalar type, or one without tags on the heap.
fn entered(
    rt: &impl Abort,
    memory: &mut Memory7,
    kind: InstKind,
    class: Class,
    size: u64,
) -> Result<u32, Fail> {
    assert!(rt; memory.count() < 1000);
    let tags = [leaf(class)];
    let number = if kind == InstKind::Heap {
        memory.enter(kind, &[], size)?
    } else {
        memory.enter(kind, &tags, size)?
    };
    Ok(number)
}

/// A pointer to a byte of an instance of a size.
fn at(inst: u32, off: u64, size: u64) -> Pointer7 {
    Pointer7::At {
        inst,
        off,
        lo: 0,
        hi: size,
    }
}

fn stored(
    rt: &impl Abort,
    memory: &mut Memory7,
    p: Pointer7,
    class: Class,
    value: Value7,
) -> Stored {
    assert!(rt; memory.is_within(&p));
    memory.store(&p, class, &value)
}

fn lp64(alloc: Global) -> Memory7 {
    Memory7::new(alloc, &LP64)
}

#[test]
fn an_int_is_loaded_as_it_was_stored(rt: HostRuntime) -> Result<(), Fail> {
    let mut memory = lp64(rt.alloc());
    let inst = entered(&rt, &mut memory, InstKind::Automatic, Class::Int, 4)?;
    assert!(rt; inst == 0);
    let p = at(inst, 0, 4);
    assert!(rt; memory.load(&p, Class::Int, true) == Loaded::Halt(Some(Rule::Uninitref)));
    assert!(rt; stored(&rt, &mut memory, p, Class::Int, Value7::Int(7, NONE)) == Stored::Done);
    assert!(rt; memory.load(&p, Class::Int, true) == Loaded::Value(Value7::Int(7, NONE)));
    assert!(rt; stored(&rt, &mut memory, p, Class::Int, Value7::Int(-2, INPUT)) == Stored::Done);
    assert!(rt; memory.load(&p, Class::Int, true) == Loaded::Value(Value7::Int(-2, INPUT)));
    assert!(rt;
        memory.load(&p, Class::Int, false) == Loaded::Value(Value7::Int(4294967294, INPUT))
    );
    let last = at(inst, 3, 4);
    assert!(rt; memory.load(&last, Class::Char, false) == Loaded::Value(Value7::Int(255, INPUT)));
    Ok(())
}

#[test]
fn indeterminate_bytes_stop_a_run(rt: HostRuntime) -> Result<(), Fail> {
    let mut memory = lp64(rt.alloc());
    let inst = entered(&rt, &mut memory, InstKind::Automatic, Class::Char, 1)?;
    let p = at(inst, 0, 1);
    assert!(rt; memory.load(&p, Class::Char, false) == Loaded::Halt(None));
    assert!(rt; memory.load(&p, Class::Char, true) == Loaded::Halt(Some(Rule::Uninitref)));
    Ok(())
}

#[test]
fn bounds_and_lifetimes_are_looked_at(rt: HostRuntime) -> Result<(), Fail> {
    let mut memory = lp64(rt.alloc());
    let inst = entered(&rt, &mut memory, InstKind::Automatic, Class::Int, 4)?;
    let p = at(inst, 0, 4);
    assert!(rt; stored(&rt, &mut memory, p, Class::Int, Value7::Int(1, NONE)) == Stored::Done);
    let behind = at(inst, 1, 4);
    assert!(rt; memory.load(&behind, Class::Int, true) == Loaded::Halt(Some(Rule::Invptr)));
    assert!(rt;
        memory.load(&Pointer7::Null, Class::Int, true) == Loaded::Halt(Some(Rule::Nullref))
    );
    assert!(rt; memory.load(&at(9, 0, 4), Class::Int, true) == Loaded::Halt(Some(Rule::Nullref)));
    memory.leave(inst);
    assert!(rt; memory.state(inst) == InstState::Ended);
    assert!(rt; memory.load(&p, Class::Int, true) == Loaded::Halt(Some(Rule::Nullref)));
    let block = entered(&rt, &mut memory, InstKind::Heap, Class::Int, 4)?;
    assert!(rt; block == 1);
    let q = at(block, 0, 4);
    assert!(rt; stored(&rt, &mut memory, q, Class::Int, Value7::Int(1, NONE)) == Stored::Done);
    memory.free(block);
    assert!(rt; memory.load(&q, Class::Int, true) == Loaded::Halt(Some(Rule::Accfree)));
    assert!(rt; memory.size(block) == 4);
    Ok(())
}

#[test]
fn literals_are_not_written(rt: HostRuntime) -> Result<(), Fail> {
    let mut memory = lp64(rt.alloc());
    let inst = entered(&rt, &mut memory, InstKind::Literal, Class::Char, 1)?;
    assert!(rt; memory.size(inst) == 1);
    memory.set_byte(
        inst,
        0,
        Byte7 {
            content: Content7::Number(65, NONE),
            tag: None,
        },
    );
    let p = at(inst, 0, 1);
    let stop = stored(&rt, &mut memory, p, Class::Char, Value7::Int(66, NONE));
    assert!(rt; stop == Stored::Halt(Some(Rule::Strmod)));
    assert!(rt; memory.load(&p, Class::Char, true) == Loaded::Value(Value7::Int(65, NONE)));
    Ok(())
}

#[test]
fn pointers_come_back_whole(rt: HostRuntime) -> Result<(), Fail> {
    let mut memory = lp64(rt.alloc());
    let block = entered(&rt, &mut memory, InstKind::Heap, Class::Int, 4)?;
    let inst = entered(&rt, &mut memory, InstKind::Automatic, Class::Pointer, 8)?;
    let p = at(inst, 0, 8);
    let q = Value7::Ptr(at(block, 2, 4));
    assert!(rt; stored(&rt, &mut memory, p, Class::Pointer, q) == Stored::Done);
    assert!(rt; memory.load(&p, Class::Pointer, false) == Loaded::Value(q));
    let part = at(inst, 3, 8);
    assert!(rt; memory.load(&part, Class::Char, true) == Loaded::Halt(None));
    memory.free(block);
    assert!(rt; memory.load(&p, Class::Pointer, false) == Loaded::Freed(q));
    let null = Value7::Ptr(Pointer7::Null);
    assert!(rt; stored(&rt, &mut memory, p, Class::Pointer, null) == Stored::Done);
    assert!(rt; memory.load(&p, Class::Pointer, false) == Loaded::Value(null));
    assert!(rt; memory.load(&part, Class::Char, true) == Loaded::Value(Value7::Int(0, NONE)));
    Ok(())
}

#[test]
fn a_store_gives_allocated_bytes_its_tags(rt: HostRuntime) -> Result<(), Fail> {
    let mut memory = lp64(rt.alloc());
    let block = entered(&rt, &mut memory, InstKind::Heap, Class::Int, 8)?;
    let p = at(block, 0, 8);
    let seven = Value7::Int(7, NONE);
    assert!(rt; stored(&rt, &mut memory, p, Class::Int, seven) == Stored::Done);
    assert!(rt; memory.load(&p, Class::Long, true) == Loaded::Halt(None));
    assert!(rt; memory.load(&p, Class::Short, true) == Loaded::Halt(None));
    assert!(rt; memory.load(&p, Class::Char, true) == Loaded::Value(seven));
    assert!(rt; stored(&rt, &mut memory, p, Class::Long, seven) == Stored::Done);
    assert!(rt; memory.load(&p, Class::Long, true) == Loaded::Value(seven));
    assert!(rt; memory.load(&p, Class::Int, true) == Loaded::Halt(None));
    Ok(())
}

#[test]
fn a_declared_object_keeps_its_tags(rt: HostRuntime) -> Result<(), Fail> {
    let mut memory = lp64(rt.alloc());
    let inst = entered(&rt, &mut memory, InstKind::Automatic, Class::Int, 4)?;
    let p = at(inst, 0, 4);
    let one = Value7::Int(1, NONE);
    assert!(rt; stored(&rt, &mut memory, p, Class::Short, one) == Stored::Halt(None));
    assert!(rt; stored(&rt, &mut memory, p, Class::Int, one) == Stored::Done);
    assert!(rt; stored(&rt, &mut memory, p, Class::Char, Value7::Int(2, NONE)) == Stored::Done);
    assert!(rt; memory.load(&p, Class::Int, true) == Loaded::Value(Value7::Int(2, NONE)));
    Ok(())
}
