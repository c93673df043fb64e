//! The fields of a line.
use crate::tests::push_text;
use ags_rows::cells;
use ags_text::Cell;
use std::alloc::{AllocError, Global};
use std::test::Fail;

/// A line, and its fields.
static LINES: [(&[u8], &str); 11] = [
    (b"\"a\" , \"b\"", "a;b;"),
    (b"\"a\"b", "none"),
    (b"  \"a\"  ", "a;"),
    (b"\" a \"", " a ;"),
    (b"\"\",\"\"", ";;"),
    (b"\"a\"\"b\"", "a\"b;"),
    (b"", "none"),
    (b"\"a\",", "none"),
    (b"\"a", "none"),
    (b"\"a\nb\"", "none"),
    (b"\"a\"\r", "none"),
];

/// Fields, each with a semicolon after it.
fn joined(alloc: Global, fields: &[Cell]) -> Result<String, AllocError> {
    let mut text = String::new(alloc);
    for field in fields {
        push_text(&mut text, field.as_slice())?;
        text.push(';')?;
    }
    Ok(text)
}

/// The fields of a line as they are printed.
fn fields_of(alloc: Global, line: &[u8]) -> Result<String, AllocError> {
    match cells(alloc, line)? {
        Some(fields) => joined(alloc, fields.as_slice()),
        None => String::from_str(alloc, "none"),
    }
}

#[test]
fn fields_of_lines(rt: HostRuntime) -> Result<(), Fail> {
    for (line, want) in &LINES {
        assert!(rt; fields_of(rt.alloc(), line)?.as_str() == *want);
    }
    Ok(())
}
