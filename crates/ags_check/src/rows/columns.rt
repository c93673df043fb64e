//! What a group says of its headings.

ghost use Rattle.std.specs.Prelude.{◌≡◌, ◌↔◌, IsTrue, IfOk, map};
ghost use Rattle.ags_rows.specs.Contents.{group_contents};
ghost use Rattle.ags_check.specs.Columns.{IsColumn, AreColumns};

use ags_cells::CellType;
use ags_rows::{Group, Places, cell_at};
use std::alloc::{AllocError, Global};

/// A heading: where it is, and its unit and type.
#[derive(Clone, Copy)]
pub(crate) struct Column<'a> {
    pub(crate) heading: &'a [u8],
    pub(crate) place: Option<usize>,
    pub(crate) unit: &'a [u8],
    pub(crate) code: &'a [u8],
    pub(crate) cell_type: CellType,
}

/// What the group says of each of these headings.
pub(crate) fn columns<'a>(
    alloc: Global,
    group: &'a Group<'_>,
    places: &Places<'_>,
    headings: &[&'a [u8]],
) -> Result<Vec<Column<'a>>, AllocError>
    requires { places.now ≡ group.now.headings }
    ensures { IfOk result (λ columns.
        AreColumns (group_contents group.now) (map (λ heading. heading.now) headings.now) columns.items) }
{
    let mut columns = Vec::new(alloc);
    for heading in headings {
        columns.push(heading_column(group, places, heading))?;
    }
    Ok(columns)
}

/// What the group says of a heading.
fn heading_column<'a>(group: &'a Group<'_>, places: &Places<'_>, heading: &'a [u8]) -> Column<'a>
    requires { places.now ≡ group.now.headings }
    ensures heading { result.heading.now ≡ heading.now }
    ensures column { IsColumn (group_contents group.now) result }
{
    let place = places.find(heading);
    let code = cell_at(group.types.as_slice(), place);
    Column {
        heading,
        place,
        unit: cell_at(group.units.as_slice(), place),
        code,
        cell_type: CellType::of(code),
    }
}

/// Whether the entries have this type.
pub(crate) fn is_of_type(column: &Column, code: &[u8]) -> bool
    ensures { IsTrue result ↔ (column.now.code.now ≡ code.now) }
{
    column.code == code
}
