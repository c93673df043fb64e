//! What the entries of a row break.

ghost use Rattle.std.specs.Prelude.{◌≡◌, ◌≢◌, ◌↔◌, [], codes, IsTrue, OnOk};
ghost use Rattle.ags_rows.specs.Collecting.{Adds};
ghost use Rattle.ags_cells.specs.Fits.{FitsTypeCode};
ghost use Rattle.ags_check.specs.RowRules.{IsUnlistedUnit, IsUnlistedType, IsUnlistedAbbreviation};
ghost use Rattle.ags_check.specs.Columns.{IsTyped};
ghost use Rattle.ags_check.specs.RowSteps.{InEntries, InRequired, InUnitsAndTypes};

use crate::rows::code_lists::CodeLists;
use crate::rows::columns::{Column, is_of_type};
use crate::rows::outline::Outline;
use ags_cells::fits;
use ags_cells::laws::fits_its_type_code;
use ags_rows::{Code, NotedFindings, Row, cell_at};
use std::alloc::AllocError;

/// Notes what the entries of a row break.
pub(crate) fn note_entries<'a>(
    listed: &CodeLists<'a>,
    outline: &Outline<'a>,
    row: &'a Row,
    findings: &mut NotedFindings,
) -> Result<(), AllocError>
    ensures { OnOk result (Adds (InEntries listed.now outline.now.group row.now) findings.old findings.new) }
{
    let columns = outline.columns.as_slice();
    let cells = row.cells.as_slice();
    for column in columns {
        let text = cell_at(cells, column.place);
        if is_unfit(column, text) {
            findings.note(row.line, Code::Rule8, column.heading)?;
        }
        if is_unlisted_unit(column, text, listed) {
            findings.note(row.line, Code::Rule15, column.heading)?;
        }
        if is_unlisted_abbreviation(column, text, listed) {
            findings.note(row.line, Code::Rule16, column.heading)?;
        }
        if is_unlisted_type(column, text, listed) {
            findings.note(row.line, Code::Rule17, column.heading)?;
        }
    }
    Ok(())
}

/// Rule 8: whether the text does not fit the type and the unit.
fn is_unfit(column: &Column, text: &[u8]) -> bool
    requires { IsTyped column.now }
    ensures { IsTrue result ↔ (text.now ≢ [])
        × ¬ (FitsTypeCode column.now.code.now column.now.unit.now text.now) }
{
    fits_its_type_code();
    !text.is_empty() && !fits(column.cell_type, column.unit, text)
}

/// Rule 15, of an entry of type PU.
fn is_unlisted_unit(column: &Column, text: &[u8], listed: &CodeLists) -> bool
    ensures { IsTrue result ↔ (column.now.code.now ≡ codes "PU") × IsUnlistedUnit listed.now text.now }
{
    is_of_type(column, b"PU") && listed.is_unlisted_unit(text)
}

/// Rule 16, of an entry of type PA.
fn is_unlisted_abbreviation<'a>(column: &Column<'a>, text: &'a [u8], listed: &CodeLists<'a>) -> bool
    ensures { IsTrue result ↔ (column.now.code.now ≡ codes "PA")
        × IsUnlistedAbbreviation listed.now column.now.heading.now text.now }
{
    is_of_type(column, b"PA") && listed.is_unlisted_abbreviation(column.heading, text)
}

/// Rule 17, of an entry of type PT.
fn is_unlisted_type(column: &Column, text: &[u8], listed: &CodeLists) -> bool
    ensures { IsTrue result ↔ (column.now.code.now ≡ codes "PT") × IsUnlistedType listed.now text.now }
{
    is_of_type(column, b"PT") && listed.is_unlisted_type(text)
}

/// Notes the units and types over the headings that are not listed (Rules 15 and 17).
pub(crate) fn note_columns(
    listed: &CodeLists,
    outline: &Outline,
    findings: &mut NotedFindings,
) -> Result<(), AllocError>
    ensures { OnOk result (Adds (InUnitsAndTypes listed.now outline.now.group) findings.old findings.new) }
{
    let group = outline.group;
    let columns = outline.columns.as_slice();
    for column in columns {
        if listed.is_unlisted_unit(column.unit) {
            findings.note(group.unit_line, Code::Rule15, column.heading)?;
        }
        if listed.is_unlisted_type(column.code) {
            findings.note(group.type_line, Code::Rule17, column.heading)?;
        }
    }
    Ok(())
}

/// Rule 10b: notes the REQUIRED entries of a row that are null.
pub(crate) fn note_lacking(
    outline: &Outline,
    row: &Row,
    findings: &mut NotedFindings,
) -> Result<(), AllocError>
    ensures { OnOk result (Adds (InRequired outline.now.entries outline.now.group row.now)
        findings.old findings.new) }
{
    let required = outline.required.as_slice();
    let cells = row.cells.as_slice();
    for column in required {
        let text = cell_at(cells, column.place);
        if text.is_empty() {
            findings.note(row.line, Code::Rule10b, column.heading)?;
        }
    }
    Ok(())
}
