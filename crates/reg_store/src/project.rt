//! The row of PROJ of a file, and the rows that it reaches.

ghost use Rattle.std.specs.Prelude.{◌≡◌, ◌↔◌, ◌<◌, ◌∷◌, ◌++◌, ℕ, [], IfOk, OnOk, length};
ghost use Rattle.std.specs.List.{items_where_true};
ghost use Rattle.std.specs.Str.{bytes_eq};
ghost use Rattle.ags_links.specs.Walks.{IsMarked};
ghost use Rattle.reg_store.specs.Project.{AreProjectRows, headed_rows, project_group, project_of};

use crate::keep::{HeadedRow, KeptRow};
use crate::shared::SharedBytes;
use ags_links::{Graph, reached};
use std::alloc::{AllocError, Global};

/// The row of PROJ and the rows that it reaches, among the rows and the steps of a file, in the order of the file.
///
/// It is refused only when out of memory.
pub fn project_rows_in(
    alloc: Global,
    rows: &[KeptRow],
    graph: &Graph,
) -> Result<Vec<HeadedRow>, AllocError>
    ensures { IfOk result (λ found. length (headed_rows [] [] rows.now) ≡ graph.now.rows
        → AreProjectRows rows.now graph.now.steps found.items) }
{
    let Some((number, _row)) = project_in(alloc, rows)? else {
        return Ok(Vec::new(alloc));
    };
    let from = one_mark(alloc, graph.rows(), number)?;
    let (marks, _turns) = reached(alloc, graph, &from)?;
    rows_at_marks(alloc, rows, &marks)
}

/// The row of PROJ among the rows of a file: its first DATA row under the GROUP row of PROJ, which is the only one where
/// the file has no finding (Rule 13). It comes with its number among the DATA rows, from 0.
fn project_in(alloc: Global, rows: &[KeptRow]) -> Result<Option<(usize, HeadedRow)>, AllocError>
    ensures { IfOk result (λ found. found ≡ project_of rows.now) }
{
    let mut number: usize = 0;
    let mut group: &[u8] = b"";
    let mut headings: &[u8] = b"";
    for row in rows {
        if row.kind == 0 {
            group = row.line.as_slice();
        } else if row.kind == 1 {
            headings = row.line.as_slice();
        } else if row.kind == 4 {
            if is_project_group(group) {
                let found = copied_row(alloc, group, headings, row.line.as_slice())?;
                return Ok(Some((number, found)));
            }
            number += 1;
        }
    }
    Ok(None)
}

/// Whether the line is the GROUP row of PROJ.
fn is_project_group(line: &[u8]) -> bool
    ensures { result ≡ bytes_eq line.now project_group }
{
    line == b"\"GROUP\",\"PROJ\"".as_slice()
}

/// A row of copies.
fn copied_row(
    alloc: Global,
    group: &[u8],
    headings: &[u8],
    line: &[u8],
) -> Result<HeadedRow, AllocError>
    ensures { IfOk result (λ row. row ≡ record { group = group.now; headings = headings.now; line = line.now }) }
{
    Ok(HeadedRow {
        group: SharedBytes::copied(alloc, group)?,
        headings: SharedBytes::copied(alloc, headings)?,
        line: SharedBytes::copied(alloc, line)?,
    })
}

/// So many marks, of which the one of this number is set.
fn one_mark(alloc: Global, count: u32, number: usize) -> Result<Vec<bool>, AllocError>
    ensures count { IfOk result (λ marks. length marks.items ≡ count) }
    ensures one { IfOk result (λ marks. (k : ℕ) → IsMarked marks.items k ↔ ((k < count) × (k ≡ number))) }
{
    let mut marks = Vec::with_capacity(alloc, count as usize)?;
    for row in 0..count {
        marks.push(row as usize == number)?;
    }
    Ok(marks)
}

/// The marked rows. Rows of one group share their header rows.
fn rows_at_marks(
    alloc: Global,
    rows: &[KeptRow],
    marks: &[bool],
) -> Result<Vec<HeadedRow>, AllocError>
    ensures { IfOk result (λ found. found.items ≡ items_where_true marks.now (headed_rows [] [] rows.now)) }
{
    let mut found = Vec::new(alloc);
    let mut group = SharedBytes::copied(alloc, b"")?;
    let mut headings = SharedBytes::copied(alloc, b"")?;
    let mut data: usize = 0;
    for row in rows {
        if row.kind == 0 {
            group = SharedBytes::copied(alloc, row.line.as_slice())?;
        } else if row.kind == 1 {
            headings = SharedBytes::copied(alloc, row.line.as_slice())?;
        } else if row.kind == 4 {
            if data < marks.len() && marks[data] {
                push_headed(alloc, &mut found, &group, &headings, row.line.as_slice())?;
            }
            data += 1;
        }
    }
    Ok(found)
}

/// Appends a row, which shares the header rows.
fn push_headed(
    alloc: Global,
    found: &mut Vec<HeadedRow>,
    group: &SharedBytes,
    headings: &SharedBytes,
    line: &[u8],
) -> Result<(), AllocError>
    ensures { OnOk result (found.new.items ≡ found.old.items
        ++ record { group = group.now; headings = headings.now; line = line.now } ∷ []) }
{
    found.push(HeadedRow {
        group: group.clone()?,
        headings: headings.clone()?,
        line: SharedBytes::copied(alloc, line)?,
    })?;
    Ok(())
}
