//! The entries of the rows of a parent group under its first link heading, side by side. A look-up that one row uses
//! goes over all rows of the parent group, and by such a list it passes over most of them without a look at the rows.
//! Look-ups that go over the same rows and begin with the same heading share a list.

ghost use Rattle.std.specs.Prelude.{◌≡◌, ◌<◌, All, IfOk, OnOk, IfSome, IsTrue, length};
ghost use Rattle.ags_links.specs.EntryLists.{IsEntryList, AreLeadingEntries};
ghost use Rattle.ags_links.specs.ParentRows.{AreNumbers};

use crate::filed_rows::FiledRows;
use crate::parents::ParentLinks;
use crate::placed::{PlacedRow, field};
use std::alloc::AllocError;
use std::collections::BTreeMap;

/// Some rows, and the entry of each under a heading.
#[derive(Drop)]
pub(crate) struct EntryList<'l, 's> {
    pub(crate) rows: &'l [u32],
    pub(crate) heading: &'s [u8],
    pub(crate) entries: Vec<&'s [u8]>,
}

/// Lists of entries, the place of each by its first row and its heading, and how many more entries there may be.
#[derive(Drop)]
pub(crate) struct EntryLists<'l, 's> {
    pub(crate) lists: Vec<EntryList<'l, 's>>,
    pub(crate) places: BTreeMap<(u32, &'s [u8]), usize>,
    pub(crate) room: usize,
}

/// How many entries the lists of a file have room for, for each of its rows. A look-up without a list compares the rows
/// themselves, which takes longer and no memory.
const ENTRIES_A_ROW: usize = 4;

/// The lists for the look-ups that one row uses.
pub(crate) fn entry_lists<'l, 's>(
    filed: &FiledRows<'_, 's, '_, '_>,
    links: &[ParentLinks<'l, 's>],
    users: &[Vec<u32>],
) -> Result<EntryLists<'l, 's>, AllocError>
    requires numbers { All (AreNumbers (length filed.now.rows.now)) links.now }
    requires size { length users.now ≡ length links.now }
    ensures { IfOk result (λ lists. All (IsEntryList filed.now.rows.now) lists.lists.items) }
{
    let mut lists = EntryLists {
        lists: Vec::new(filed.alloc),
        places: BTreeMap::new(filed.alloc),
        room: filed.rows.len().saturating_mul(ENTRIES_A_ROW),
    };
    for (place, of_group) in links.iter().enumerate() {
        if users[place].len() == 1 {
            add_list(filed, of_group, &mut lists)?;
        }
    }
    Ok(lists)
}

/// Adds the list for these links, unless there is one, it has no room, or they have no rows or no heading.
fn add_list<'l, 's>(
    filed: &FiledRows<'_, 's, '_, '_>,
    links: &ParentLinks<'l, 's>,
    lists: &mut EntryLists<'l, 's>,
) -> Result<(), AllocError>
    requires numbers { AreNumbers (length filed.now.rows.now) links.now }
    requires lists { All (IsEntryList filed.now.rows.now) lists.old.lists.items }
    ensures { OnOk result (All (IsEntryList filed.now.rows.now) lists.new.lists.items) }
{
    let numbers = links.rows;
    if numbers.is_empty() || links.headings.is_empty() {
        return Ok(());
    }
    let heading = links.headings[0];
    let key = (numbers[0], heading);
    if lists.room < numbers.len() || lists.places.contains_key(&key) {
        return Ok(());
    }
    let list = entry_list(filed, numbers, heading)?;
    lists.places.insert(key, lists.lists.len())?;
    lists.lists.push(list)?;
    lists.room -= numbers.len();
    Ok(())
}

/// The entries of these rows under the heading.
fn entry_list<'l, 's>(
    filed: &FiledRows<'_, 's, '_, '_>,
    numbers: &'l [u32],
    heading: &'s [u8],
) -> Result<EntryList<'l, 's>, AllocError>
    requires { All (λ n. n < length filed.now.rows.now) numbers.now }
    ensures { IfOk result (IsEntryList filed.now.rows.now) }
{
    let mut entries = Vec::with_capacity(filed.alloc, numbers.len())?;
    for number in numbers {
        let (row, family) = filed.row(*number as usize);
        entries.push(field(row, family.headings.find(heading)))?;
    }
    Ok(EntryList {
        rows: numbers,
        heading,
        entries,
    })
}

/// The entries of the rows of the parent group under the first link heading, if such a list was made. The list that is
/// found has these rows: that it has is looked at, in the time of one walk over it.
pub(crate) fn leading_entries<'e, 's>(
    rows: &[PlacedRow<'_, '_>],
    lists: &'e EntryLists<'_, 's>,
    links: &ParentLinks<'_, 's>,
) -> Option<&'e [&'s [u8]]>
    requires { All (IsEntryList rows.now) lists.now.lists.items }
    ensures { IfSome result (λ entries. AreLeadingEntries rows.now links.now entries.now) }
{
    let numbers = links.rows;
    if numbers.is_empty() || links.headings.is_empty() {
        return None;
    }
    let heading = links.headings[0];
    let place = *lists.places.get(&(numbers[0], heading))?;
    let list = lists.lists.get(place)?;
    if is_list_of(list, numbers, heading) {
        Some(&list.entries)
    } else {
        None
    }
}

/// Whether the list is that of these rows and this heading.
fn is_list_of(list: &EntryList<'_, '_>, numbers: &[u32], heading: &[u8]) -> bool
    ensures { IsTrue result → (list.now.rows.now ≡ numbers.now) × (list.now.heading.now ≡ heading.now) }
{
    list.rows == numbers && list.heading == heading
}
