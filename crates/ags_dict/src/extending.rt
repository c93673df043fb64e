//! The entries of a file's DICT.

ghost use Rattle.std.specs.Prelude.{◌≡◌, IfOk, flat_map};
ghost use Rattle.ags_rows.specs.Contents.{group_contents, contents_of};
ghost use Rattle.ags_dict.specs.Entries.{is_dict, group_entries, heading_entries, group_entries_in, heading_entries_in, same_group, same_heading, with_new, AddsNewGroups, AddsNewHeadings, extended};

use crate::dictionary::Dictionary;
use crate::entries::{GroupEntry, HeadingEntry};
use crate::groups::GroupEntries;
use crate::headings::HeadingEntries;
use ags_rows::{Cell, Group, Scan, under};
use std::alloc::{AllocError, Global};

impl Dictionary {
    /// The entries, and the new ones of the file's own DICT.
    pub fn extend(&self, scan: &Scan) -> Result<Dictionary, AllocError>
        ensures { IfOk result (λ dictionary. dictionary ≡ extended self.now (contents_of scan.now)) }
    {
        take_contents(self.alloc, scan.groups(), self.again()?)
    }
}

/// The entries with the new ones of the groups named DICT.
pub(crate) fn take_contents(
    alloc: Global,
    found: &[Group],
    dictionary: Dictionary,
) -> Result<Dictionary, AllocError>
    ensures { IfOk result (λ taken. taken ≡ extended dictionary (contents_of found.now)) }
{
    let mut taken = dictionary;
    for group in found {
        taken = take_dict(alloc, group, taken)?;
    }
    Ok(taken)
}

/// The entries with the new ones of a group, if it is DICT.
fn take_dict(alloc: Global, group: &Group, dictionary: Dictionary) -> Result<Dictionary, AllocError>
    ensures groups { IfOk result (AddsNewGroups (group_entries_in (group_contents group.now)) dictionary) }
    ensures headings { IfOk result (AddsNewHeadings (heading_entries_in (group_contents group.now)) dictionary) }
{
    if !is_dict(group) {
        return Ok(dictionary);
    }
    take_rows(alloc, group, dictionary)
}

/// Whether the group is DICT.
pub(crate) fn is_dict(group: &Group) -> bool
    ensures { result ≡ is_dict (group_contents group.now) }
{
    group.name.as_slice() == b"DICT".as_slice()
}

/// The entries with the new ones of a group's rows.
fn take_rows(alloc: Global, group: &Group, dictionary: Dictionary) -> Result<Dictionary, AllocError>
    ensures groups { IfOk result (AddsNewGroups
        (flat_map (group_entries group.now.headings) (group_contents group.now).rows) dictionary) }
    ensures headings { IfOk result (AddsNewHeadings
        (flat_map (heading_entries group.now.headings) (group_contents group.now).rows) dictionary) }
{
    let (mut groups, mut headings) = dictionary.into_parts();
    let names = group.headings.as_slice();
    for row in group.rows.as_slice() {
        let cells = row.cells.as_slice();
        groups = take_group_row(alloc, names, cells, groups)?;
        headings = take_heading_row(alloc, names, cells, headings)?;
    }
    Ok(Dictionary {
        alloc,
        groups,
        headings,
    })
}

/// The entries with the group entry of a row of DICT, if it makes a new one.
fn take_group_row(
    alloc: Global,
    headings: &[Cell],
    cells: &[Cell],
    entries: GroupEntries,
) -> Result<GroupEntries, AllocError>
    ensures { IfOk result (λ taken. taken ≡ with_new same_group entries (group_entries headings.now cells.now)) }
{
    if under(headings, cells, b"DICT_TYPE") != b"GROUP".as_slice() {
        return Ok(entries);
    }
    let group = under(headings, cells, b"DICT_GRP");
    let parent = under(headings, cells, b"DICT_PGRP");
    let entry = GroupEntry::of(alloc, group, parent)?;
    entries.with_new(alloc, entry)
}

/// The entries with the heading entry of a row of DICT, if it makes a new one.
fn take_heading_row(
    alloc: Global,
    headings: &[Cell],
    cells: &[Cell],
    entries: HeadingEntries,
) -> Result<HeadingEntries, AllocError>
    ensures { IfOk result (λ taken.
        taken ≡ with_new same_heading entries (heading_entries headings.now cells.now)) }
{
    if under(headings, cells, b"DICT_TYPE") != b"HEADING".as_slice() {
        return Ok(entries);
    }
    let group = under(headings, cells, b"DICT_GRP");
    let heading = under(headings, cells, b"DICT_HDNG");
    let status = under(headings, cells, b"DICT_STAT");
    let entry = HeadingEntry::of(alloc, group, heading, status)?;
    entries.with_new(alloc, entry)
}
