//! The DATA rows of a file, with the groups that they are in.

ghost use Rattle.std.specs.Prelude.{◌≡◌, ◌<◌, ◌^◌, All, IfOk, OnOk, length, map};
ghost use Rattle.ags_rows.specs.Contents.{field_at, contents_of};
ghost use Rattle.ags_links.specs.DataRows.{data_rows};
ghost use Rattle.ags_links.specs.Placing.{IsPlaced, AddsGroupRows, row_of};

use ags_rows::{Group, Row, Scan, cell_at};
use std::alloc::{AllocError, Global};

/// A DATA row, its group, and the group's place in the file.
#[derive(Drop)]
pub(crate) struct PlacedRow<'s, 'f> {
    pub(crate) place: usize,
    pub(crate) group: &'s Group<'f>,
    pub(crate) row: &'s Row<'f>,
}

/// The DATA rows of a file, numbered from 0 over the whole file.
pub(crate) fn place_rows<'s, 'f>(
    alloc: Global,
    scan: &'s Scan<'f>,
) -> Result<Vec<PlacedRow<'s, 'f>>, AllocError>
    ensures placed { IfOk result (λ rows. All (IsPlaced scan.now) rows.items) }
    ensures rows { IfOk result (λ rows. map row_of rows.items ≡ data_rows (contents_of scan.now)) }
    ensures few { IfOk result (λ rows. length rows.items < 2 ^ 32) }
{
    // the scan counts them with a number below 2 ^ 32
    let count = scan.row_count();
    let groups = scan.groups();
    let mut rows = Vec::with_capacity(alloc, count as usize)?;
    for place in 0..groups.len() {
        place_group(groups, place, &mut rows)?;
    }
    Ok(rows)
}

/// Adds the rows of one group.
fn place_group<'s, 'f>(
    groups: &'s [Group<'f>],
    place: usize,
    rows: &mut Vec<PlacedRow<'s, 'f>>,
) -> Result<(), AllocError>
    requires place { place < length groups.now }
    requires placed { All (IsPlaced groups.now) rows.old.items }
    ensures placed { OnOk result (All (IsPlaced groups.now) rows.new.items) }
    ensures rows { OnOk result (AddsGroupRows groups.now place rows.old.items rows.new.items) }
{
    let group = &groups[place];
    for row in group.rows.as_slice() {
        rows.push(PlacedRow { place, group, row })?;
    }
    Ok(())
}

/// What is in the row at a place; null where there is none.
pub(crate) fn field<'s>(row: &PlacedRow<'s, '_>, place: Option<usize>) -> &'s [u8]
    ensures { result.now ≡ field_at (row_of row.now).fields place }
{
    let fields = row.row;
    cell_at(fields.cells.as_slice(), place)
}
