//! The steps of a file: from each row to its parent rows, to the rows that its record links name, and to the rows
//! of FILE with its FILE_FSET.

ghost use Rattle.std.specs.Prelude.{◌≡◌, ◌<◌, ◌&&◌, not, codes, IfOk, OnOk, length, map};
ghost use Rattle.std.specs.Str.{bytes_eq};
ghost use Rattle.ags_text.specs.Names.{is_definition};
ghost use Rattle.ags_links.specs.Adding.{AddsRows};
ghost use Rattle.ags_links.specs.DataRows.{ListsRows};
ghost use Rattle.ags_links.specs.Indexing.{rows_in, IsNamedAmong, IsLinkedAt, IsLinkStepAt, IsFileStepAt};
ghost use Rattle.ags_links.specs.Stepped.{stepped_rows};
ghost use Rattle.ags_links.specs.Steps.{StepAt};

use crate::index::{Index, each_once};
use ags_rows::is_definition;
use std::alloc::{AllocError, Global};

/// The rows that a row steps to: those that the index has as its parent rows, or a list.
#[derive(Drop)]
pub(crate) enum SteppedTo<'i> {
    Parents(&'i [u32]),
    Listed(Vec<u32>),
}

impl<'i> SteppedTo<'i> {
    /// The rows, rising, each once.
    pub(crate) fn rows(&self) -> &[u32]
        ensures { result.now ≡ stepped_rows self.now }
    {
        match self {
            SteppedTo::Parents(rows) => rows,
            SteppedTo::Listed(rows) => rows.as_slice(),
        }
    }
}

/// The rows that a row steps to. Parent rows alone are not copied.
pub(crate) fn rows_stepped_to<'i>(
    alloc: Global,
    index: &'i Index<'_, '_, '_>,
    row: u32,
) -> Result<SteppedTo<'i>, AllocError>
    requires { row < length (rows_in index.now) }
    ensures { IfOk result (λ stepped. ListsRows (stepped_rows stepped) (StepAt index.now row)) }
{
    let mut found = Vec::new(alloc);
    add_link_steps(index, row, &mut found)?;
    add_file_steps(index, row, &mut found)?;
    let parents = index.parent_rows(row);
    if found.is_empty() {
        return Ok(SteppedTo::Parents(parents));
    }
    found.extend_from_slice(parents)?;
    Ok(SteppedTo::Listed(each_once(found)))
}

/// No more than the rows that a row steps to: as many as its parent rows, or as those that a part of its links names,
/// whichever are more.
pub(crate) fn least_stepped_to(index: &Index<'_, '_, '_>, row: u32) -> Result<usize, AllocError>
    requires { row < length (rows_in index.now) }
{
    let (kept, _) = index.kept(row);
    let mut least = index.parent_rows(row).len();
    if is_definition(kept.group.name.as_slice()) {
        return Ok(least);
    }
    for part in &index.linked_parts(row)? {
        least = least.max(index.named(part)?.len());
    }
    Ok(least)
}

/// Adds the rows that the row steps to by its record links, if it is in a data group.
fn add_link_steps(
    index: &Index<'_, '_, '_>,
    row: u32,
    found: &mut Vec<u32>,
) -> Result<(), AllocError>
    requires { row < length (rows_in index.now) }
    ensures { OnOk result (AddsRows found.old.items found.new.items (IsLinkStepAt index.now row)) }
{
    let (kept, _) = index.kept(row);
    let group = kept.group;
    if !is_definition(group.name.as_slice()) {
        add_links(index, row, found)?;
    }
    Ok(())
}

/// Adds the rows that the row's record links name.
fn add_links(index: &Index<'_, '_, '_>, row: u32, found: &mut Vec<u32>) -> Result<(), AllocError>
    requires { row < length (rows_in index.now) }
    ensures { OnOk result (AddsRows found.old.items found.new.items (IsLinkedAt index.now row)) }
{
    let parts = index.linked_parts(row)?;
    add_named(index, &parts, found)
}

/// Adds the rows that the parts name; a part that names none adds none.
fn add_named(
    index: &Index<'_, '_, '_>,
    parts: &[&[u8]],
    found: &mut Vec<u32>,
) -> Result<(), AllocError>
    ensures { OnOk result (AddsRows found.old.items found.new.items
        (IsNamedAmong index.now (map (λ p. p.now) parts.now))) }
{
    for part in parts {
        let rows = index.named(part)?;
        found.extend_from_slice(rows)?;
    }
    Ok(())
}

/// Adds the rows of FILE that the row steps to, if it is in a data group other than FILE.
fn add_file_steps(
    index: &Index<'_, '_, '_>,
    row: u32,
    found: &mut Vec<u32>,
) -> Result<(), AllocError>
    requires { row < length (rows_in index.now) }
    ensures { OnOk result (AddsRows found.old.items found.new.items (IsFileStepAt index.now row)) }
{
    let (kept, _) = index.kept(row);
    let group = kept.group;
    if may_have_files(group.name.as_slice()) {
        found.extend_from_slice(index.file_rows(row))?;
    }
    Ok(())
}

/// Whether the rows of a group can step to rows of FILE: it is a data group other than FILE.
fn may_have_files(group: &[u8]) -> bool
    ensures { result ≡ (not (is_definition group.now) && not (bytes_eq group.now (codes "FILE"))) }
{
    !is_definition(group) && group != b"FILE".as_slice()
}
