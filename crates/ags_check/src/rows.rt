//! The fifth phase: the UNIT, TYPE and DATA rows.

ghost use Rattle.std.specs.Prelude.{◌≡◌, ◌<◌, ◌+◌, ◌^◌, IfOk, OnOk, length};
ghost use Rattle.ags_rows.specs.Findings.{AreExactly};
ghost use Rattle.ags_rows.specs.Collecting.{At, Adds, OneOf};
ghost use Rattle.ags_rows.specs.Contents.{contents_of};
ghost use Rattle.ags_links.specs.Indexing.{rows_in};
ghost use Rattle.ags_check.specs.Columns.{HaveRowsOf};
ghost use Rattle.ags_check.specs.RowRules.{headed_row, StandsInEntries};
ghost use Rattle.ags_check.specs.RowSteps.{InDataRow, InDataRows, InGroupRows, InFileSet};

pub(crate) mod abbreviations;
pub(crate) mod code_lists;
pub(crate) mod columns;
pub(crate) mod entries;
pub(crate) mod links;
pub(crate) mod outline;

use crate::rows::code_lists::CodeLists;
use crate::rows::entries::{note_columns, note_entries, note_lacking};
use crate::rows::links::note_links;
use crate::rows::outline::Outline;
use ags_dict::Dictionary;
use ags_links::Index;
use ags_rows::{Code, FindingList, Group, NotedFindings, Row};
use std::alloc::{AllocError, Global};

/// The findings of the fifth phase, in order, each once.
pub(crate) fn entry_findings<'a>(
    alloc: Global,
    dictionary: &'a Dictionary,
    index: &Index,
    groups: &'a [Group<'a>],
) -> Result<FindingList, AllocError>
    requires contents { index.now.contents ≡ contents_of groups.now }
    requires entries { dictionary.now ≡ index.now.entries }
    ensures { IfOk result (AreExactly (StandsInEntries dictionary.now groups.now)) }
{
    let mut findings = NotedFindings::new(alloc);
    // the index counts its rows with a number below 2^32, so each has its own
    index.row_count();
    note_all_entries(alloc, dictionary, index, groups, &mut findings)?;
    Ok(findings.in_order())
}

/// What the UNIT, TYPE and DATA rows of all groups break.
fn note_all_entries<'a>(
    alloc: Global,
    dictionary: &'a Dictionary,
    index: &Index,
    groups: &'a [Group<'a>],
    findings: &mut NotedFindings,
) -> Result<(), AllocError>
    requires contents { index.now.contents ≡ contents_of groups.now }
    requires entries { dictionary.now ≡ index.now.entries }
    requires few { length (rows_in index.now) < 2 ^ 32 }
    ensures { OnOk result (Adds (StandsInEntries dictionary.now groups.now) findings.old findings.new) }
{
    let listed = CodeLists::of(alloc, groups)?;
    note_row_groups(alloc, dictionary, index, &listed, groups, findings)
}

/// What the UNIT, TYPE and DATA rows of all groups break, where the file lists this.
fn note_row_groups<'a>(
    alloc: Global,
    dictionary: &'a Dictionary,
    index: &Index,
    listed: &CodeLists<'a>,
    groups: &'a [Group<'a>],
    findings: &mut NotedFindings,
) -> Result<(), AllocError>
    requires contents { index.now.contents ≡ contents_of groups.now }
    requires entries { dictionary.now ≡ index.now.entries }
    requires listed { listed.now ≡ index.now.contents }
    requires few { length (rows_in index.now) < 2 ^ 32 }
    ensures { OnOk result (Adds (StandsInEntries dictionary.now groups.now) findings.old findings.new) }
{
    let mut first = 0;
    for group in groups {
        let size = group.rows.len();
        note_group_entries(alloc, dictionary, index, listed, group, first, findings)?;
        first += size as u32;
    }
    Ok(())
}

/// What the UNIT, TYPE and DATA rows of a group break.
fn note_group_entries<'a>(
    alloc: Global,
    dictionary: &'a Dictionary,
    index: &Index,
    listed: &CodeLists<'a>,
    group: &'a Group<'a>,
    first: u32,
    findings: &mut NotedFindings,
) -> Result<(), AllocError>
    requires rows { HaveRowsOf (rows_in index.now) first group.now }
    requires few { first + length group.now.rows < 2 ^ 32 }
    requires listed { listed.now ≡ index.now.contents }
    requires entries { dictionary.now ≡ index.now.entries }
    ensures { OnOk result (Adds (InGroupRows index.now first group.now) findings.old findings.new) }
{
    let outline = Outline::of(alloc, dictionary, group)?;
    note_columns(listed, &outline, findings)?;
    note_data_rows(index, listed, &outline, first, findings)
}

/// What the DATA rows of a group break.
fn note_data_rows<'a>(
    index: &Index,
    listed: &CodeLists<'a>,
    outline: &Outline<'a>,
    first: u32,
    findings: &mut NotedFindings,
) -> Result<(), AllocError>
    requires rows { HaveRowsOf (rows_in index.now) first outline.now.group }
    requires few { first + length outline.now.group.rows < 2 ^ 32 }
    requires listed { listed.now ≡ index.now.contents }
    requires entries { outline.now.entries ≡ index.now.entries }
    ensures { OnOk result (Adds (InDataRows index.now first outline.now.group) findings.old findings.new) }
{
    let rows = outline.rows();
    for (i, row) in rows.iter().enumerate() {
        note_data_row(index, listed, outline, row, first + i as u32, findings)?;
    }
    Ok(())
}

/// What a DATA row breaks.
fn note_data_row<'a>(
    index: &Index,
    listed: &CodeLists<'a>,
    outline: &Outline<'a>,
    row: &'a Row,
    number: u32,
    findings: &mut NotedFindings,
) -> Result<(), AllocError>
    requires row { At (rows_in index.now) number (headed_row outline.now.group row.now) }
    requires listed { listed.now ≡ index.now.contents }
    requires entries { outline.now.entries ≡ index.now.entries }
    ensures { OnOk result (Adds (InDataRow index.now outline.now.group number row.now)
        findings.old findings.new) }
{
    let name = outline.name();
    note_entries(listed, outline, row, findings)?;
    if outline.repeats_key(index, number) {
        findings.note(row.line, Code::Rule10a, name)?;
    }
    note_lacking(outline, row, findings)?;
    if outline.lacks_parent(index, number) {
        findings.note(row.line, Code::Rule10c, name)?;
    }
    note_links(index, outline, row, number, findings)?;
    note_unlisted_file_set(index, outline, row, number, findings)
}

/// Rule 20: notes the file set of a row that no row of FILE has.
fn note_unlisted_file_set(
    index: &Index,
    outline: &Outline,
    row: &Row,
    number: u32,
    findings: &mut NotedFindings,
) -> Result<(), AllocError>
    requires { At (rows_in index.now) number (headed_row outline.now.group row.now) }
    ensures { OnOk result (Adds (InFileSet index.now.contents outline.now.group row.now)
        findings.old findings.new) }
{
    let has_file = index.has_file(number);
    if outline.is_unlisted_file_set(row.cells.as_slice(), has_file) {
        findings.note(row.line, Code::Rule20, b"FILE_FSET")?;
    }
    Ok(())
}
