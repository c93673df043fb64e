//! What the index keeps for each group: where its headings are; and the rows by group, by key and by file set.

ghost use Rattle.std.specs.Prelude.{◌≡◌, ◌<◌, IfOk, All, map};
ghost use Rattle.ags_rows.specs.Contents.{place_in};
ghost use Rattle.ags_links.specs.Keys.{AreFirstsOfKeys};
ghost use Rattle.ags_links.specs.Lookups.{Finds};
ghost use Rattle.ags_links.specs.Families.{HasText, HasGroupName, HasKeyText, HasFileSet, HasFamily, IsFamily, AreFamilies, record_links};
ghost use Rattle.ags_links.specs.Placing.{IsPlaced, row_of};

use crate::filed_rows::FiledRows;
use crate::lookup::{Lookup, first_rows, rows_by_text};
use crate::placed::{PlacedRow, field};
use crate::texts::push_group_entries;
use ags_dict::Dictionary;
use ags_rows::{Group, Places, cell_at};
use std::alloc::{AllocError, Global};

/// A group's headings and KEY headings, and the places in its rows of the KEY headings, of FILE_FSET and of the
/// headings of type RL.
#[derive(Drop)]
pub(crate) struct Family<'s, 'd> {
    pub(crate) headings: Places<'s>,
    pub(crate) key_headings: Places<'d>,
    pub(crate) keys: Vec<Option<usize>>,
    pub(crate) file_set: Option<usize>,
    pub(crate) links: Vec<Option<usize>>,
}

/// The rows by key, the first row of each key, and the rows of FILE by file set.
#[derive(Drop)]
pub(crate) struct KeyedRows {
    pub(crate) by_key: Lookup,
    pub(crate) firsts: Vec<u32>,
    pub(crate) by_file_set: Lookup,
}

/// What is kept for each group, and so for each row.
pub(crate) fn families<'s, 'd>(
    alloc: Global,
    groups: &'s [Group<'_>],
    dictionary: &'d Dictionary,
    rows: &[PlacedRow<'_, '_>],
) -> Result<Vec<Family<'s, 'd>>, AllocError>
    requires { All (IsPlaced groups.now) rows.now }
    ensures families { IfOk result (λ families. AreFamilies dictionary.now groups.now families.items) }
    ensures kept { IfOk result (λ families. All (HasFamily dictionary.now families.items) rows.now) }
{
    let mut families = Vec::new(alloc);
    for group in groups {
        families.push(family_of(alloc, group, dictionary)?)?;
    }
    Ok(families)
}

/// What is kept for a group.
fn family_of<'s, 'd>(
    alloc: Global,
    group: &'s Group<'_>,
    dictionary: &'d Dictionary,
) -> Result<Family<'s, 'd>, AllocError>
    ensures { IfOk result (λ family. IsFamily dictionary.now group.now family) }
{
    let headings = Places::of_cells(alloc, group.headings.as_slice())?;
    let listed = dictionary.keys(group.name.as_slice())?;
    let key_headings = Places::of(alloc, listed)?;
    let keys = heading_places(alloc, &headings, key_headings.names())?;
    let file_set = headings.find(b"FILE_FSET");
    let links = record_links(alloc, &headings, group)?;
    Ok(Family {
        headings,
        key_headings,
        keys,
        file_set,
        links,
    })
}

/// Where the names are among the headings.
pub(crate) fn heading_places(
    alloc: Global,
    headings: &Places<'_>,
    names: &[&[u8]],
) -> Result<Vec<Option<usize>>, AllocError>
    ensures { IfOk result (λ places. places.items ≡ map (λ name. place_in headings.now name.now) names.now) }
{
    names.iter().map(|name| headings.find(name)).collect(alloc)
}

/// Where the group's headings of type RL are.
fn record_links(
    alloc: Global,
    headings: &Places<'_>,
    group: &Group<'_>,
) -> Result<Vec<Option<usize>>, AllocError>
    ensures { IfOk result (λ places.
        places.items ≡ map (place_in headings.now) (record_links headings.now group.now.types)) }
{
    let mut places = Vec::new(alloc);
    for heading in headings.names() {
        let place = headings.find(heading);
        if cell_at(group.types.as_slice(), place) == b"RL".as_slice() {
            places.push(place)?;
        }
    }
    Ok(places)
}

/// The rows by the names of their groups.
pub(crate) fn rows_by_group(filed: &FiledRows<'_, '_, '_, '_>) -> Result<Lookup, AllocError>
    ensures { IfOk result (λ lookup. Finds lookup (HasText (map row_of filed.now.rows.now) HasGroupName)) }
{
    let rows = filed.rows;
    let mut pairs = Vec::with_capacity(filed.alloc, rows.len())?;
    for (number, row) in rows.iter().enumerate() {
        let group = row.group;
        let name = Vec::from_slice(filed.alloc, group.name.as_slice())?;
        pairs.push((name, number as u32))?;
    }
    rows_by_text(filed.alloc, pairs)
}

/// The rows by key and by file set.
pub(crate) fn keyed_rows(filed: &FiledRows<'_, '_, '_, '_>) -> Result<KeyedRows, AllocError>
    ensures keyed { IfOk result (λ kept.
        Finds kept.by_key (HasText (map row_of filed.now.rows.now) (HasKeyText filed.now.dictionary.now))) }
    ensures firsts { IfOk result (λ kept.
        AreFirstsOfKeys (map row_of filed.now.rows.now) filed.now.dictionary.now kept.firsts.items) }
    ensures filed { IfOk result (λ kept. Finds kept.by_file_set (HasText (map row_of filed.now.rows.now) HasFileSet)) }
{
    let by_key = rows_by_key(filed)?;
    let firsts = firsts_of_keys(filed, &by_key)?;
    let by_file_set = rows_by_file_set(filed)?;
    Ok(KeyedRows {
        by_key,
        firsts,
        by_file_set,
    })
}

/// The rows by their groups and key entries.
fn rows_by_key(filed: &FiledRows<'_, '_, '_, '_>) -> Result<Lookup, AllocError>
    ensures { IfOk result (λ lookup.
        Finds lookup (HasText (map row_of filed.now.rows.now) (HasKeyText filed.now.dictionary.now))) }
{
    let mut pairs = Vec::with_capacity(filed.alloc, filed.rows.len())?;
    let mut entries = Vec::new(filed.alloc);
    for number in 0..filed.rows.len() {
        let (row, family) = filed.row(number);
        entries.clear();
        push_group_entries(&mut entries, row, &family.keys)?;
        let text = Vec::from_slice(filed.alloc, &entries)?;
        pairs.push((text, number as u32))?;
    }
    rows_by_text(filed.alloc, pairs)
}

/// For each row the first row of its group with an equal key (Rule 10a).
fn firsts_of_keys(
    filed: &FiledRows<'_, '_, '_, '_>,
    by_key: &Lookup,
) -> Result<Vec<u32>, AllocError>
    requires { Finds by_key.now (HasText (map row_of filed.now.rows.now) (HasKeyText filed.now.dictionary.now)) }
    ensures { IfOk result (λ firsts.
        AreFirstsOfKeys (map row_of filed.now.rows.now) filed.now.dictionary.now firsts.items) }
{
    // `first_rows` speaks of texts, this of keys; the proof goes by the list's name
    let firsts = first_rows(filed.alloc, by_key, filed.rows.len())?;
    Ok(firsts)
}

/// The rows of FILE by their FILE_FSET.
fn rows_by_file_set(filed: &FiledRows<'_, '_, '_, '_>) -> Result<Lookup, AllocError>
    ensures { IfOk result (λ lookup. Finds lookup (HasText (map row_of filed.now.rows.now) HasFileSet)) }
{
    let mut pairs = Vec::new(filed.alloc);
    for number in 0..filed.rows.len() {
        let (row, family) = filed.row(number);
        let group = row.group;
        if group.name.as_slice() == b"FILE".as_slice() {
            let text = Vec::from_slice(filed.alloc, field(row, family.file_set))?;
            pairs.push((text, number as u32))?;
        }
    }
    rows_by_text(filed.alloc, pairs)
}
