//! The rows of the parent groups by their entries under link headings. Groups with one parent group and the same
//! link headings share one look-up, so that the rows of a parent group are not read again for each of them.

ghost use Rattle.std.specs.Prelude.{◌≡◌, ◌<◌, ◌↔◌, Contains, IfOk, OnOk, IsTrue, All, Some, length, map, filter};
ghost use Rattle.std.specs.List.Sorted.{IsStrictlyIncreasing};
ghost use Rattle.ags_rows.specs.Contents.{place_in};
ghost use Rattle.ags_links.specs.EntryLists.{IsEntryList};
ghost use Rattle.ags_links.specs.Families.{HasText, HasGroupName, IsFamily, AreFamilies, AreKept, is_one_of};
ghost use Rattle.ags_links.specs.Lookups.{Finds, FindsAsked, pairs_of};
ghost use Rattle.ags_links.specs.ParentRows.{AreLinkHeadingsIfRows, text_at, IsParentLinks, AreParentLinks, texts_in, AreNumbers, HasUsers, HaveUsers, HasAskedAmong, HasLinkText, IsAskedIn, AddsAsked, AreTextsOf, ArePlacesIn, IsLookupAt, IsPlacedAt, IsInside, part_of};
ghost use Rattle.ags_links.specs.Placing.{row_of, ListsTexts};

use crate::candidates::candidates;
use crate::entry_lists::EntryLists;
use crate::families::{Family, heading_places};
use crate::filed_rows::FiledRows;
use crate::linked_rows::LinkedRows;
use crate::lists::empty_lists;
use crate::lookup::{Lookup, Span, rows_by_text, rows_with};
use crate::placed::PlacedRow;
use crate::texts::{names_text, push_entries};
use ags_rows::{Group, Places};
use std::alloc::{AllocError, Global};

/// The rows of a group's parent group, its link headings, and as one text the parent group's name and the link
/// headings; nothing of all where it has no parent group.
#[derive(Drop)]
pub(crate) struct ParentLinks<'l, 's> {
    pub(crate) rows: &'l [u32],
    pub(crate) headings: Vec<&'s [u8]>,
    pub(crate) text: Vec<u8>,
}

/// Where a group's link headings are in its rows, and the place of the look-up that has the rows of its parent
/// group by their entries under them.
#[derive(Drop)]
pub(crate) struct LinkPlaces {
    pub(crate) places: Vec<Option<usize>>,
    pub(crate) lookup: usize,
}

/// Where some headings are in the rows of the group at a place of the file.
#[derive(Drop)]
pub(crate) struct HeadingPlaces {
    pub(crate) place: usize,
    pub(crate) places: Vec<Option<usize>>,
}

/// The link places of each group, and the rows of each look-up.
#[derive(Drop)]
pub(crate) struct ParentLists {
    pub(crate) of_groups: Vec<LinkPlaces>,
    pub(crate) lists: Vec<Vec<u32>>,
}

/// The links of each group.
pub(crate) fn all_parent_links<'l, 's>(
    filed: &FiledRows<'_, 's, '_, '_>,
    groups: &[Group<'_>],
    by_group: &'l Lookup,
) -> Result<Vec<ParentLinks<'l, 's>>, AllocError>
    requires families { AreFamilies filed.now.dictionary.now groups.now filed.now.families.now }
    requires by_group { Finds by_group.now (HasText (map row_of filed.now.rows.now) HasGroupName) }
    ensures { IfOk result (λ links. AreParentLinks filed.now.dictionary.now by_group.now groups.now links.items) }
{
    let families = filed.families;
    let mut links = Vec::new(filed.alloc);
    for (place, group) in groups.iter().enumerate() {
        links.push(parent_links_of(filed, group, &families[place], by_group)?)?;
    }
    Ok(links)
}

/// The rows of a group's parent group, and its link headings.
fn parent_links_of<'l, 's>(
    filed: &FiledRows<'_, '_, '_, '_>,
    group: &Group<'_>,
    family: &Family<'s, '_>,
    by_group: &'l Lookup,
) -> Result<ParentLinks<'l, 's>, AllocError>
    requires family { IsFamily filed.now.dictionary.now group.now family.now }
    requires by_group { Finds by_group.now (HasText (map row_of filed.now.rows.now) HasGroupName) }
    ensures { IfOk result (IsParentLinks filed.now.dictionary.now by_group.now group.now) }
{
    let dictionary = filed.dictionary;
    let Some(parent) = dictionary.parent(group.name.as_slice()) else {
        return Ok(ParentLinks {
            rows: &[],
            headings: Vec::new(filed.alloc),
            text: Vec::new(filed.alloc),
        });
    };
    let headings = link_headings(filed, family, by_group, parent)?;
    let text = names_text(filed.alloc, parent, &headings)?;
    Ok(ParentLinks {
        rows: rows_with(by_group, parent),
        headings,
        text,
    })
}

/// The link headings of a group, in the order of their bytes: those of its headings that are KEY headings of its
/// parent group. Where that has no rows, there is nothing to be linked to, and none are looked for.
fn link_headings<'s>(
    filed: &FiledRows<'_, '_, '_, '_>,
    family: &Family<'s, '_>,
    by_group: &Lookup,
    parent: &[u8],
) -> Result<Vec<&'s [u8]>, AllocError>
    requires { Finds by_group.now (HasText (map row_of filed.now.rows.now) HasGroupName) }
    ensures { IfOk result (λ names.
        AreLinkHeadingsIfRows filed.now.dictionary.now by_group.now parent.now family.now.headings names.items) }
{
    let numbers = rows_with(by_group, parent);
    if numbers.is_empty() {
        return Ok(Vec::new(filed.alloc));
    }
    let (_, of_parent) = filed.row(numbers[0] as usize);
    let common = common_headings(filed.alloc, &family.headings, &of_parent.key_headings)?;
    Ok(in_byte_order(common))
}

/// Those of a group's headings that are KEY headings of another.
fn common_headings<'s>(
    alloc: Global,
    headings: &Places<'s>,
    keys: &Places<'_>,
) -> Result<Vec<&'s [u8]>, AllocError>
    ensures { IfOk result (λ common. map (λ h. h.now) common.items ≡ filter (is_one_of keys.now) headings.now) }
{
    let mut common = Vec::new(alloc);
    for heading in headings.names() {
        if keys.find(heading).is_some() {
            common.push(*heading)?;
        }
    }
    Ok(common)
}

/// The names in the order of their bytes.
fn in_byte_order(names: Vec<&[u8]>) -> Vec<&[u8]>
    ensures { ListsTexts result.items (Contains (map (λ n. n.now) names.entry.items)) }
{
    let mut sorted = names;
    sorted.sort_unstable();
    sorted
}

/// Where each group's link headings are in its rows, and which look-up it shares with the groups of the same links.
pub(crate) fn shared_places(
    alloc: Global,
    families: &[Family<'_, '_>],
    links: &[ParentLinks<'_, '_>],
) -> Result<Vec<LinkPlaces>, AllocError>
    requires { length families.now ≡ length links.now }
    ensures { IfOk result (λ of_groups. AreKept links.now of_groups.items (IsPlacedAt families.now (texts_in links.now))) }
{
    let texts = texts_of(alloc, links)?;
    link_places(alloc, families, links, &texts)
}

/// The texts of the links, to be found.
fn texts_of<'k>(alloc: Global, links: &'k [ParentLinks<'_, '_>]) -> Result<Places<'k>, AllocError>
    ensures { IfOk result (λ texts. texts ≡ texts_in links.now) }
{
    let mut texts = Vec::new(alloc);
    for of_group in links {
        texts.push(of_group.text.as_slice())?;
    }
    Places::of(alloc, texts)
}

/// Where each group's link headings are in its rows, and which look-up is its own.
fn link_places(
    alloc: Global,
    families: &[Family<'_, '_>],
    links: &[ParentLinks<'_, '_>],
    texts: &Places<'_>,
) -> Result<Vec<LinkPlaces>, AllocError>
    requires families { length families.now ≡ length links.now }
    requires texts { texts.now ≡ texts_in links.now }
    ensures { IfOk result (λ of_groups. AreKept links.now of_groups.items (IsPlacedAt families.now texts.now)) }
{
    let mut of_groups = Vec::new(alloc);
    for (place, of_group) in links.iter().enumerate() {
        let headings = &families[place].headings;
        of_groups.push(LinkPlaces {
            places: heading_places(alloc, headings, &of_group.headings)?,
            lookup: first_with(texts, of_group),
        })?;
    }
    Ok(of_groups)
}

/// The place of the first group with these links.
fn first_with(texts: &Places<'_>, links: &ParentLinks<'_, '_>) -> usize
    requires { Contains texts.now links.now.text.items }
    ensures { place_in texts.now links.now.text.items ≡ Some result }
{
    texts.find(&links.text).unwrap()
}

/// The look-up at this place: by the entries that its users ask for, so that for one row it has no more than that
/// needs.
pub(crate) fn lookup_at<'s>(
    linked: &LinkedRows<'_, 's, '_, '_>,
    links: &ParentLinks<'_, 's>,
    lists: &EntryLists<'_, 's>,
    place: usize,
    users: &[u32],
) -> Result<Lookup, AllocError>
    requires numbers { AreNumbers (length linked.now.filed.rows.now) links.now }
    requires lists { All (IsEntryList linked.now.filed.rows.now) lists.now.lists.items }
    requires users { HasUsers linked.now.filed.rows.now linked.now.of_groups.items place users.now }
    requires below { All (λ n. n < length linked.now.filed.rows.now) users.now }
    ensures { IfOk result (IsLookupAt linked.now.filed.rows.now linked.now.of_groups.items place links.now) }
{
    match users {
        [] => {
            let alloc = linked.filed.alloc;
            let none = rows_by_text(alloc, Vec::new(alloc))?;
            Ok(none)
        }
        [number] => {
            let (row, of_group) = linked.row(*number as usize);
            let own = lookup_for(&linked.filed, links, lists, row, &of_group.places)?;
            Ok(own)
        }
        _ => {
            let all = lookup_for_all(linked, links, place, users)?;
            Ok(all)
        }
    }
}

/// The look-up for several rows. Where they are few beside the rows of the parent group, those of these that no row asks
/// for are left out.
fn lookup_for_all(
    linked: &LinkedRows<'_, '_, '_, '_>,
    links: &ParentLinks<'_, '_>,
    place: usize,
    users: &[u32],
) -> Result<Lookup, AllocError>
    requires numbers { AreNumbers (length linked.now.filed.rows.now) links.now }
    requires users { HasUsers linked.now.filed.rows.now linked.now.of_groups.items place users.now }
    requires below { All (λ n. n < length linked.now.filed.rows.now) users.now }
    ensures { IfOk result (IsLookupAt linked.now.filed.rows.now linked.now.of_groups.items place links.now) }
{
    let filed = &linked.filed;
    let headings = links.headings.as_slice();
    let numbers = links.rows;
    if users.len() < numbers.len() / FEW {
        let asked = texts_asked(linked, users)?;
        let some = rows_by_entries(filed, headings, numbers, Some(&asked))?;
        return Ok(some);
    }
    let all = rows_by_entries(filed, headings, numbers, None)?;
    Ok(all)
}

/// How many times as many rows the parent group has, where its users are few.
const FEW: usize = 8;

/// The texts at which rows have their parent rows.
fn texts_asked(linked: &LinkedRows<'_, '_, '_, '_>, users: &[u32]) -> Result<Lookup, AllocError>
    requires { All (λ n. n < length linked.now.filed.rows.now) users.now }
    ensures { IfOk result (AreTextsOf linked.now.filed.rows.now linked.now.of_groups.items users.now) }
{
    let alloc = linked.filed.alloc;
    let mut pairs = Vec::with_capacity(alloc, users.len())?;
    for number in users {
        let mut text = Vec::new(alloc);
        linked.write_link_text(*number as usize, &mut text)?;
        pairs.push((text, *number))?;
    }
    rows_by_text(alloc, pairs)
}

/// The look-up for one row: by its entries, of the rows of the parent group that may be its parent rows.
fn lookup_for<'s>(
    filed: &FiledRows<'_, '_, '_, '_>,
    links: &ParentLinks<'_, 's>,
    lists: &EntryLists<'_, 's>,
    row: &PlacedRow<'_, '_>,
    places: &[Option<usize>],
) -> Result<Lookup, AllocError>
    requires numbers { AreNumbers (length filed.now.rows.now) links.now }
    requires lists { All (IsEntryList filed.now.rows.now) lists.now.lists.items }
    ensures { IfOk result (λ lookup. FindsAsked lookup (λ text. text_at places.now row.now ≡ text)
        (HasLinkText filed.now.rows.now links.now)) }
{
    let numbers = candidates(filed, links, lists, row, places)?;
    rows_by_entries(filed, &links.headings, &numbers, None)
}

/// These rows by their entries under the headings; of rows whose entries are not asked for, where some alone are, none.
fn rows_by_entries(
    filed: &FiledRows<'_, '_, '_, '_>,
    headings: &[&[u8]],
    numbers: &[u32],
    asked: Option<&Lookup>,
) -> Result<Lookup, AllocError>
    requires below { All (λ n. n < length filed.now.rows.now) numbers.now }
    requires rising { IsStrictlyIncreasing numbers.now }
    ensures { IfOk result (λ lookup. Finds lookup
        (HasAskedAmong asked.entry numbers.now filed.now.rows.now (map (λ h. h.now) headings.now))) }
{
    let alloc = filed.alloc;
    let room = if asked.is_some() { 0 } else { numbers.len() };
    let mut pairs = Vec::with_capacity(alloc, room)?;
    let mut entries = Vec::new(alloc);
    let mut stood = HeadingPlaces {
        place: filed.families.len(),
        places: Vec::new(alloc),
    };
    for number in numbers {
        let (row, _) = filed.row(*number as usize);
        stood = places_in_group(filed, headings, row.place, stood)?;
        entries.clear();
        push_entries(&mut entries, row, &stood.places)?;
        push_asked(alloc, asked, &entries, *number, &mut pairs)?;
    }
    rows_by_text(alloc, pairs)
}

/// Where the headings are in the rows of the group at this place. Those of the row before are taken where it is of the
/// same group.
fn places_in_group(
    filed: &FiledRows<'_, '_, '_, '_>,
    headings: &[&[u8]],
    place: usize,
    before: HeadingPlaces,
) -> Result<HeadingPlaces, AllocError>
    requires place { place < length filed.now.families.now }
    requires before { ArePlacesIn filed.now.families.now (map (λ h. h.now) headings.now) before }
    ensures place { IfOk result (λ stood. stood.place ≡ place) }
    ensures places { IfOk result (ArePlacesIn filed.now.families.now (map (λ h. h.now) headings.now)) }
{
    if before.place == place {
        return Ok(before);
    }
    let families = filed.families;
    let places = heading_places(filed.alloc, &families[place].headings, headings)?;
    Ok(HeadingPlaces { place, places })
}

/// Adds a row at its text, if this is asked for.
fn push_asked(
    alloc: Global,
    asked: Option<&Lookup>,
    text: &[u8],
    number: u32,
    pairs: &mut Vec<(Vec<u8>, u32)>,
) -> Result<(), AllocError>
    ensures { OnOk result (AddsAsked asked.entry text.now number (pairs_of pairs.old.items) (pairs_of pairs.new.items)) }
{
    if !is_asked(asked, text) {
        return Ok(());
    }
    let own = Vec::from_slice(alloc, text)?;
    pairs.push((own, number))?;
    Ok(())
}

/// Whether the text is asked for.
fn is_asked(asked: Option<&Lookup>, text: &[u8]) -> bool
    ensures { IsTrue result ↔ IsAskedIn asked.entry text.now }
{
    match asked {
        Some(lookup) => !rows_with(lookup, text).is_empty(),
        None => true,
    }
}

/// For each look-up the rows that have their parent rows in it.
pub(crate) fn users_of(linked: &LinkedRows<'_, '_, '_, '_>) -> Result<Vec<Vec<u32>>, AllocError>
    ensures size { IfOk result (λ users. length users.items ≡ length linked.now.of_groups.items) }
    ensures users { IfOk result (λ users.
        HaveUsers linked.now.filed.rows.now linked.now.of_groups.items users.items) }
{
    let mut users = empty_lists(linked.filed.alloc, linked.of_groups.len())?;
    for number in 0..linked.filed.rows.len() {
        let (_, links) = linked.row(number);
        users[links.lookup].push(number as u32)?;
    }
    Ok(users)
}

/// The numbers of a span.
pub(crate) fn part_of(numbers: &[u32], span: Span) -> &[u32]
    requires { IsInside numbers.now span }
    ensures { result.now ≡ part_of numbers.now span }
{
    &numbers[span.first..span.end]
}
