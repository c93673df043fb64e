//! Those of the rows of a parent group that may be parent rows of one row.

ghost use Rattle.std.specs.Prelude.{◌≡◌, All, IfOk, IfSome, IsTrue, length};
ghost use Rattle.ags_links.specs.EntryLists.{IsEntryList, AgreesAt};
ghost use Rattle.ags_links.specs.ParentRows.{text_at, AreNumbers, AreCandidatesFor};
ghost use Rattle.ags_links.specs.Placing.{HaveEqualEntries};

use crate::entry_lists::{EntryLists, leading_entries};
use crate::families::heading_places;
use crate::filed_rows::FiledRows;
use crate::parents::ParentLinks;
use crate::placed::{PlacedRow, field};
use std::alloc::AllocError;

/// Those of the rows of the parent group that may be parent rows of this row: those that agree with it, and those of
/// other groups of that name. Where there is a list of first entries, rows with another one are not looked at.
pub(crate) fn candidates<'s>(
    filed: &FiledRows<'_, '_, '_, '_>,
    links: &ParentLinks<'_, 's>,
    lists: &EntryLists<'_, 's>,
    row: &PlacedRow<'_, '_>,
    places: &[Option<usize>],
) -> Result<Vec<u32>, AllocError>
    requires numbers { AreNumbers (length filed.now.rows.now) links.now }
    requires lists { All (IsEntryList filed.now.rows.now) lists.now.lists.items }
    ensures { IfOk result (λ chosen.
        AreCandidatesFor filed.now.rows.now links.now (text_at places.now row.now) chosen.items) }
{
    let numbers = links.rows;
    if numbers.is_empty() || places.is_empty() {
        return Vec::from_slice(filed.alloc, numbers);
    }
    let rows = filed.rows;
    let (first, family) = filed.row(numbers[0] as usize);
    let stood = heading_places(filed.alloc, &family.headings, &links.headings)?;
    let entries = leading_entries(rows, lists, links);
    let asked = field(row, places[0]);
    let mut chosen = Vec::new(filed.alloc);
    for (place, number) in numbers.iter().enumerate() {
        let other = &rows[*number as usize];
        if may_have(entries, place, asked)
            && may_be_parent(row, places, other, first.place, &stood)
        {
            chosen.push(*number)?;
        }
    }
    Ok(chosen)
}

/// Whether the entry at the place is the one that is asked for, where there is a list.
fn may_have(entries: Option<&[&[u8]]>, place: usize, asked: &[u8]) -> bool
    ensures { IfSome entries.entry (λ list. AgreesAt list.now place asked.now) → IsTrue result }
{
    match entries {
        Some(list) => place >= list.len() || list[place] == asked,
        None => true,
    }
}

/// Whether the other row is not of the group at this place, or agrees with the row.
fn may_be_parent(
    row: &PlacedRow<'_, '_>,
    places: &[Option<usize>],
    other: &PlacedRow<'_, '_>,
    place: usize,
    other_places: &[Option<usize>],
) -> bool
    ensures apart { (other.now.place ≡ place → ⊥) → IsTrue result }
    ensures agree { HaveEqualEntries row.now places.now other.now other_places.now → IsTrue result }
{
    other.place != place || agree(row, places, other, other_places)
}

/// Whether two rows have equal entries at these places.
fn agree(
    row: &PlacedRow<'_, '_>,
    places: &[Option<usize>],
    other: &PlacedRow<'_, '_>,
    other_places: &[Option<usize>],
) -> bool
    ensures { HaveEqualEntries row.now places.now other.now other_places.now → IsTrue result }
{
    let count = places.len().min(other_places.len());
    for index in 0..count {
        let here = places[index];
        let there = other_places[index];
        let entry = field(row, here);
        let other_entry = field(other, there);
        if entry != other_entry {
            return false;
        }
    }
    true
}
