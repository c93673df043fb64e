//! The parent rows of each row: the rows of each look-up, and where those of a row are among them.

ghost use Rattle.std.specs.Prelude.{◌≡◌, ◌<◌, IfOk, OnOk, All, length, map};
ghost use Rattle.ags_links.specs.EntryLists.{IsEntryList};
ghost use Rattle.ags_links.specs.Families.{HasText, HasGroupName, AreFamilies};
ghost use Rattle.ags_links.specs.Lookups.{Finds};
ghost use Rattle.ags_links.specs.ParentRows.{AreNumbers, HaveUsers, AreSpansOf, AreListed, AreParentLists};
ghost use Rattle.ags_links.specs.Placing.{IsPlaced, row_of};

use crate::entry_lists::{EntryLists, entry_lists};
use crate::families::rows_by_group;
use crate::filed_rows::FiledRows;
use crate::linked_rows::LinkedRows;
use crate::lookup::{Lookup, Span, all_rows, span_of};
use crate::parents::{
    ParentLinks, ParentLists, all_parent_links, lookup_at, shared_places, users_of,
};
use ags_rows::Group;
use std::alloc::AllocError;

/// The rows of each look-up, and where the parent rows of each row are among those of the look-up of its group.
#[derive(Drop)]
pub(crate) struct ListedParents {
    pub(crate) parents: ParentLists,
    pub(crate) spans: Vec<Span>,
}

/// The parent rows of each row. The rows by group are dropped once these are listed.
pub(crate) fn listed_parents(
    filed: &FiledRows<'_, '_, '_, '_>,
    groups: &[Group<'_>],
) -> Result<ListedParents, AllocError>
    requires placed { All (IsPlaced groups.now) filed.now.rows.now }
    requires families { AreFamilies filed.now.dictionary.now groups.now filed.now.families.now }
    ensures { IfOk result (λ listed.
        AreParentLists filed.now.dictionary.now filed.now.rows.now listed.parents listed.spans.items) }
{
    let by_group = rows_by_group(filed)?;
    parents_among(filed, groups, &by_group)
}

/// The parent rows of each row, among the rows by group.
fn parents_among(
    filed: &FiledRows<'_, '_, '_, '_>,
    groups: &[Group<'_>],
    by_group: &Lookup,
) -> Result<ListedParents, AllocError>
    requires placed { All (IsPlaced groups.now) filed.now.rows.now }
    requires families { AreFamilies filed.now.dictionary.now groups.now filed.now.families.now }
    requires by_group { Finds by_group.now (HasText (map row_of filed.now.rows.now) HasGroupName) }
    ensures { IfOk result (λ listed.
        AreParentLists filed.now.dictionary.now filed.now.rows.now listed.parents listed.spans.items) }
{
    let links = all_parent_links(filed, groups, by_group)?;
    let of_groups = shared_places(filed.alloc, filed.families, &links)?;
    let linked = LinkedRows {
        filed: *filed,
        of_groups,
    };
    let (lists, spans) = used_lists(&linked, &links)?;
    let LinkedRows {
        filed: _,
        of_groups,
    } = linked;
    Ok(ListedParents {
        parents: ParentLists { of_groups, lists },
        spans,
    })
}

/// The rows of each look-up, each for the rows that use it, and where the parent rows of each row are.
fn used_lists<'s>(
    linked: &LinkedRows<'_, 's, '_, '_>,
    links: &[ParentLinks<'_, 's>],
) -> Result<(Vec<Vec<u32>>, Vec<Span>), AllocError>
    requires numbers { All (AreNumbers (length linked.now.filed.rows.now)) links.now }
    requires size { length linked.now.of_groups.items ≡ length links.now }
    ensures { IfOk result (λ out.
        AreListed linked.now.filed.rows.now linked.now.of_groups.items links.now out.0.items out.1.items) }
{
    let users = users_of(linked)?;
    let entries = entry_lists(&linked.filed, links, &users)?;
    lists_of_lookups(linked, links, &entries, &users)
}

/// The rows of each look-up, and where the parent rows of each row are. One look-up is made at a time: it is dropped, with
/// the texts that its rows are found by, before the next is made.
fn lists_of_lookups<'s>(
    linked: &LinkedRows<'_, 's, '_, '_>,
    links: &[ParentLinks<'_, 's>],
    entries: &EntryLists<'_, 's>,
    users: &[Vec<u32>],
) -> Result<(Vec<Vec<u32>>, Vec<Span>), AllocError>
    requires numbers { All (AreNumbers (length linked.now.filed.rows.now)) links.now }
    requires entries { All (IsEntryList linked.now.filed.rows.now) entries.now.lists.items }
    requires size { length users.now ≡ length links.now }
    requires users { HaveUsers linked.now.filed.rows.now linked.now.of_groups.items users.now }
    ensures { IfOk result (λ out.
        AreListed linked.now.filed.rows.now linked.now.of_groups.items links.now out.0.items out.1.items) }
{
    let alloc = linked.filed.alloc;
    let mut lists = Vec::new(alloc);
    let mut spans = vec![in alloc; Span { first: 0, end: 0 }; linked.filed.rows.len()]?;
    for (place, of_group) in links.iter().enumerate() {
        let used_by = users[place].as_slice();
        let lookup = lookup_at(linked, of_group, entries, place, used_by)?;
        note_spans(linked, &lookup, used_by, &mut spans)?;
        let list = Vec::from_slice(alloc, all_rows(&lookup))?;
        lists.push(list)?;
    }
    Ok((lists, spans))
}

/// Notes where the parent rows of the rows that use a look-up are in it. Rows that follow one another often belong to rows
/// that do, so those of a row are looked for first where those of the row before end.
fn note_spans(
    linked: &LinkedRows<'_, '_, '_, '_>,
    lookup: &Lookup,
    users: &[u32],
    spans: &mut [Span],
) -> Result<(), AllocError>
    requires below { All (λ n. n < length linked.now.filed.rows.now) users.now }
    requires size { length spans.old ≡ length linked.now.filed.rows.now }
    ensures { OnOk result
        (AreSpansOf linked.now.filed.rows.now linked.now.of_groups.items lookup.now users.now spans.old spans.new) }
{
    let mut text = Vec::new(linked.filed.alloc);
    let mut near = 0;
    for number in users {
        linked.write_link_text(*number as usize, &mut text)?;
        let span = span_of(lookup, near, &text);
        spans[*number as usize] = span;
        near = span.end;
    }
    Ok(())
}
