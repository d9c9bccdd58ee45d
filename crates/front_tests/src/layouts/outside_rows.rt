//! Real files and a real writer, which no contract speaks of.
use cc_base::{FileTree, MemSink, MemTree, Sink, StdSink, Tree, TreeFault};
use std::test::Fail;
use std::{fs, io};

/// A writer that takes a number of bytes and then fails.
#[derive(Drop)]
struct Narrow {
    left: usize,
}

impl io::Write for Narrow {
    fn write(&mut self, bytes: &[u8]) -> io::Result<usize> {
        let count = bytes.len().min(self.left).min(3);
        self.left -= count;
        Ok(count)
    }

    fn flush(&mut self) -> io::Result<()> {
        Ok(())
    }
}

#[test]
fn reads_a_real_file(rt: HostRuntime) -> Result<(), Fail> {
    fs::write(&rt, "held.c", "int x;\n")?;
    fs::create_dir(&rt, "folder")?;
    let mut tree = FileTree::new(&rt);
    let mut into = Vec::new(rt.alloc());
    assert!(rt; tree.read(rt.alloc(), "held.c", &mut into).is_ok());
    assert_eq!(rt; into.as_slice(), b"int x;\n".as_slice());
    assert!(rt; tree.read(rt.alloc(), "none.c", &mut into) == Err(TreeFault::Missing));
    assert!(rt; tree.read(rt.alloc(), "folder", &mut into) == Err(TreeFault::Failed));
    assert!(rt; into.is_empty());
    Ok(())
}

#[test]
fn writes_until_the_writer_is_full(rt: HostRuntime) -> Result<(), Fail> {
    let mut sink = StdSink::new(Narrow { left: 10 });
    assert!(rt; sink.put(b"0123456").is_ok());
    assert!(rt; sink.put(b"0123456").is_err());
    Ok(())
}

#[test]
fn keeps_files_and_output_in_memory(rt: HostRuntime) -> Result<(), Fail> {
    let mut fail = Vec::new(rt.alloc());
    fail.push(2)?;
    let mut tree = MemTree::new(rt.alloc(), fail);
    tree.add("a.c", b"old")?;
    tree.add("a.c", b"new")?;
    let mut into = Vec::new(rt.alloc());
    assert!(rt; tree.read(rt.alloc(), "a.c", &mut into).is_ok());
    assert_eq!(rt; into.as_slice(), b"new".as_slice());
    assert!(rt; tree.read(rt.alloc(), "a.c", &mut into) == Err(TreeFault::Failed));
    assert!(rt; tree.read(rt.alloc(), "b.c", &mut into) == Err(TreeFault::Missing));
    let mut sink = MemSink::new(rt.alloc(), 8, Some(5))?;
    assert!(rt; sink.put(b"abc").is_ok());
    assert!(rt; sink.put(b"def").is_err());
    assert_eq!(rt; sink.bytes(), b"abcde".as_slice());
    Ok(())
}
