//! The text of an extract.

ghost use Rattle.std.specs.Prelude.{◌≡◌, ◌≤◌, ◌++◌, ◌||◌, [], false, length, take, drop, slice_index_or, IfOk, OnOk};
ghost use Rattle.reg_desk.specs.View.{line_end, line_where, separator, with_group, text_from};

use ags_text::is_definition;
use reg_store::KeptRow;
use std::alloc::{AllocError, Global};

/// The text of the groups that have a row of a definition group or a marked row.
pub(super) fn write_rows(
    alloc: Global,
    rows: &[KeptRow],
    marks: &[bool],
) -> Result<Vec<u8>, AllocError>
    ensures { IfOk result (λ out. out.items ≡ text_from [] [] false rows.now marks.now) }
{
    let mut out = Vec::new(alloc);
    let mut start = 0;
    let mut written = false;
    let mut data = 0;
    for row in rows {
        if row.kind == 0 {
            end_group(&mut out, start, written);
            start = out.len();
            written = false;
            push_first(&mut out, row.line.as_slice())?;
        } else if row.kind == 4 {
            let definition = is_definition(row.group.as_slice());
            let kept = is_kept(definition, is_marked(marks, data));
            push_where(&mut out, row.line.as_slice(), kept)?;
            written = written || kept;
            data += 1;
        } else {
            push_kept_line(&mut out, row.line.as_slice())?;
        }
    }
    end_group(&mut out, start, written);
    Ok(out)
}

/// Takes the last group back, unless one of its rows is written.
fn end_group(out: &mut Vec<u8>, start: usize, written: bool)
    requires { start ≤ length out.old.items }
    ensures { out.new.items ≡ with_group written (take start out.old.items) (drop start out.old.items) }
{
    if !written {
        out.truncate(start);
    }
}

/// Appends the first line of a group, after an empty line if there is a group before it.
fn push_first(out: &mut Vec<u8>, line: &[u8]) -> Result<(), AllocError>
    ensures { OnOk result (out.new.items ≡ out.old.items ++ separator out.old.items ++ line.now ++ line_end) }
{
    if !out.is_empty() {
        out.extend_from_slice(b"\r\n")?;
    }
    push_kept_line(out, line)
}

/// Appends a line and its end.
fn push_kept_line(out: &mut Vec<u8>, line: &[u8]) -> Result<(), AllocError>
    ensures { OnOk result (out.new.items ≡ out.old.items ++ line.now ++ line_end) }
{
    out.extend_from_slice(line)?;
    out.extend_from_slice(b"\r\n")
}

/// Whether a row is written: each of a definition group, and of a data group a marked one.
fn is_kept(definition: bool, marked: bool) -> bool
    ensures { result ≡ (definition || marked) }
{
    definition || marked
}

/// Whether the row is marked.
pub(super) fn is_marked(marks: &[bool], row: usize) -> bool
    ensures { result ≡ slice_index_or marks.now row false }
{
    row < marks.len() && marks[row]
}

/// Appends a line and its end, where it is written.
fn push_where(out: &mut Vec<u8>, line: &[u8], written: bool) -> Result<(), AllocError>
    ensures { OnOk result (out.new.items ≡ out.old.items ++ line_where written line.now) }
{
    if written {
        push_kept_line(out, line)?;
    }
    Ok(())
}
