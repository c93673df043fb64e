//! The record links of a row.

ghost use Rattle.std.specs.Prelude.{◌<◌, IfOk, OnOk, length};
ghost use Rattle.ags_rows.specs.Collecting.{At, Adds};
ghost use Rattle.ags_links.specs.Indexing.{rows_in};
ghost use Rattle.ags_check.specs.RowRules.{headed_row};
ghost use Rattle.ags_check.specs.RowSteps.{SaysOfRow, HasBrokenLink, InLinks};

use crate::rows::columns::{Column, is_of_type};
use crate::rows::outline::Outline;
use ags_links::Index;
use ags_rows::{Code, NotedFindings, Row, cell_at};
use std::alloc::AllocError;

/// Rule 11c: notes the record links of a row of a data group of which some part names no row.
pub(crate) fn note_links(
    index: &Index,
    outline: &Outline,
    row: &Row,
    number: u32,
    findings: &mut NotedFindings,
) -> Result<(), AllocError>
    requires { At (rows_in index.now) number (headed_row outline.now.group row.now) }
    ensures { OnOk result (Adds (InLinks index.now.entries index.now.contents outline.now.group row.now)
        findings.old findings.new) }
{
    if !outline.is_data {
        return Ok(());
    }
    let columns = outline.columns.as_slice();
    let cells = row.cells.as_slice();
    for column in columns {
        let text = cell_at(cells, column.place);
        if is_broken_link(column, text, index, number)? {
            findings.note(row.line, Code::Rule11c, column.heading)?;
        }
    }
    Ok(())
}

/// Rule 11c, in a data group: whether the text is a record link of which some part names no row.
fn is_broken_link(
    column: &Column,
    text: &[u8],
    index: &Index,
    number: u32,
) -> Result<bool, AllocError>
    requires { number < length (rows_in index.now) }
    ensures { IfOk result (SaysOfRow index.now number (HasBrokenLink index.now column.now text.now)) }
{
    if !is_of_type(column, b"RL") {
        return Ok(false);
    }
    if text.is_empty() {
        return Ok(false);
    }
    index.has_broken_part(number, column.heading)
}
