//! Models, layouts and leaves, against values from outside: gcc's `sizeof` and `offsetof` on a
//! machine whose model is lp64.
ghost use Rattle.std.specs.Prelude.{◌<◌, ◌≤◌};

use c_layout::{CType, Key, Model, ModelFault, StructLayout, Structs, by_name, from_toml, leaves};
use cc_base::{IntType, Text};
use std::alloc::Global;
use std::test::Fail;

const LP64: Model = Model {
    short: 2,
    int: 4,
    long: 8,
    long_long: 8,
    pointer: 8,
    char_signed: true,
};

/// The signed integer type whose first letter this is; `q` is long long.
fn kind(letter: u8) -> IntType
    ensures some { 0 < result.bytes }
    ensures most { result.bytes ≤ 8 }
{
    let (bytes, rank) = match letter {
        b'c' => (1, 1),
        b's' => (2, 2),
        b'i' => (4, 3),
        b'l' => (8, 4),
        _ => (8, 5),
    };
    IntType {
        bytes,
        signed: true,
        rank,
    }
}

/// Size, alignment and offsets of a struct whose members are integers, or pointers for `p`.
fn laid_out(alloc: Global, letters: &str) -> Result<String, Fail> {
    let structs = Structs {
        items: Vec::new(alloc),
    };
    let mut layout = StructLayout::new(alloc);
    for letter in letters.as_bytes() {
        let member = kind(*letter);
        if *letter == b'p' {
            let pointer = CType::Pointer(Box::new(alloc, CType::Void)?);
            layout.add(Text::new(alloc), pointer, &structs, &LP64)?;
        } else {
            layout.add(Text::new(alloc), CType::Int(member), &structs, &LP64)?;
        }
    }
    let made = layout.finish()?.ok_or("too large")?;
    let size = made.size;
    let align = made.align;
    let mut text = format!(in alloc; "{size} {align}")?;
    for field in &made.fields {
        let offset = field.offset;
        text.push_str(format!(in alloc; " {offset}")?.as_str())?;
    }
    Ok(text)
}

fn is_laid_out(alloc: Global, letters: &str, expected: &str) -> Result<bool, Fail> {
    let text = laid_out(alloc, letters)?;
    Ok(text.as_str() == expected)
}

#[test]
fn structs_are_laid_out_as_gcc_does(rt: HostRuntime) -> Result<(), Fail> {
    let alloc = rt.alloc();
    assert!(rt; is_laid_out(alloc, "ci", "8 4 0 4")?);
    assert!(rt; is_laid_out(alloc, "ic", "8 4 0 4")?);
    assert!(rt; is_laid_out(alloc, "cic", "12 4 0 4 8")?);
    assert!(rt; is_laid_out(alloc, "csl", "16 8 0 2 8")?);
    assert!(rt; is_laid_out(alloc, "lc", "16 8 0 8")?);
    assert!(rt; is_laid_out(alloc, "cp", "16 8 0 8")?);
    assert!(rt; is_laid_out(alloc, "pci", "16 8 0 8 12")?);
    assert!(rt; is_laid_out(alloc, "sss", "6 2 0 2 4")?);
    assert!(rt; is_laid_out(alloc, "cqc", "24 8 0 8 16")?);
    assert!(rt; is_laid_out(alloc, "isc", "8 4 0 4 6")?);
    Ok(())
}

#[test]
fn long_arrays_are_folded(rt: HostRuntime) -> Result<(), Fail> {
    let alloc = rt.alloc();
    let structs = Structs {
        items: Vec::new(alloc),
    };
    let square = CType::Array(
        Box::new(
            alloc,
            CType::Array(Box::new(alloc, CType::Int(kind(b'i')))?, 70),
        )?,
        70,
    );
    let folded = leaves(alloc, &square, &structs, &LP64)?;
    assert_eq!(rt; folded.len(), 1);
    assert!(rt; folded[0].offset == 0 && folded[0].stride == 4 && folded[0].count == 4900);
    let flat = CType::Array(
        Box::new(
            alloc,
            CType::Array(Box::new(alloc, CType::Int(kind(b'i')))?, 70),
        )?,
        2,
    );
    let rows = leaves(alloc, &flat, &structs, &LP64)?;
    assert_eq!(rt; rows.len(), 2);
    assert!(rt; rows[1].offset == 280 && rows[1].stride == 4 && rows[1].count == 70);
    Ok(())
}

#[test]
fn models_come_from_names_and_files(rt: HostRuntime) -> Result<(), Fail> {
    let alloc = rt.alloc();
    assert!(rt; by_name("lp64") == Some(LP64));
    assert!(rt; by_name("lp32").is_none());
    let text =
        "# sizes\nshort=2\n int = 2\nlong = 4\nlong_long = 8\npointer = 4\nchar_signed = true\n";
    let small = Model {
        short: 2,
        int: 2,
        long: 4,
        long_long: 8,
        pointer: 4,
        char_signed: true,
    };
    assert!(rt; from_toml(alloc, text.as_bytes()) == Ok(small));
    assert!(rt; from_toml(alloc, b"") == Err(ModelFault::Shape));
    assert!(rt;
        from_toml(
            alloc,
            b"short = 2\nint = 4\nlong = 8\nlong_long = 8\npointer = 8\n"
        ) == Err(ModelFault::Shape)
    );
    let extra =
        b"short = 2\nint = 4\nlong = 8\nlong_long = 8\npointer = 8\nchar_signed = true\nx = 1\n";
    assert!(rt; from_toml(alloc, extra) == Err(ModelFault::Shape));
    let kind = b"short = true\nint = 4\nlong = 8\nlong_long = 8\npointer = 8\nchar_signed = true\n";
    assert!(rt; from_toml(alloc, kind) == Err(ModelFault::Shape));
    Ok(())
}

/// What a file with these numbers comes to.
fn faulty(alloc: Global, numbers: &str, key: Key) -> Result<bool, Fail> {
    let text = format!(in alloc; "{numbers}\nchar_signed = false\n")?;
    Ok(from_toml(alloc, text.as_bytes()) == Err(ModelFault::Value(key)))
}

#[test]
fn a_model_names_its_first_bad_key(rt: HostRuntime) -> Result<(), Fail> {
    let alloc = rt.alloc();
    assert!(rt;
        faulty(
            alloc,
            "short = 1\nint = 3\nlong = 8\nlong_long = 8\npointer = 8",
            Key::Short
        )?
    );
    assert!(rt;
        faulty(
            alloc,
            "short = 2\nint = 8\nlong = 8\nlong_long = 8\npointer = 8",
            Key::Int
        )?
    );
    assert!(rt;
        faulty(
            alloc,
            "short = 2\nint = 4\nlong = 2\nlong_long = 8\npointer = 8",
            Key::Long
        )?
    );
    assert!(rt;
        faulty(
            alloc,
            "short = 2\nint = 4\nlong = 8\nlong_long = 4\npointer = 8",
            Key::LongLong
        )?
    );
    assert!(rt;
        faulty(
            alloc,
            "short = 2\nint = 2\nlong = 4\nlong_long = 8\npointer = 2",
            Key::Pointer
        )?
    );
    assert!(rt;
        faulty(
            alloc,
            "short = 2\nint = 2\nlong = 8\nlong_long = 8\npointer = 4",
            Key::Pointer
        )?
    );
    Ok(())
}
