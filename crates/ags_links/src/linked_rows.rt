//! Filed rows with the link places of their groups, as the look-ups of parent rows are made of them.

ghost use Rattle.std.specs.Prelude.{◌<◌, All, OnOk, length};
ghost use Rattle.ags_rows.specs.Collecting.{At};
ghost use Rattle.ags_links.specs.ParentRows.{HasPlaces, IsLinkText};

use crate::filed_rows::FiledRows;
use crate::parents::LinkPlaces;
use crate::placed::PlacedRow;
use crate::texts::push_entries;
use std::alloc::AllocError;

/// The DATA rows of a file, and the link places of each of its groups.
#[derive(Drop)]
pub(crate) struct LinkedRows<'l, 's, 'f, 'd> {
    pub(crate) filed: FiledRows<'l, 's, 'f, 'd>,
    pub(crate) of_groups: Vec<LinkPlaces>,
    ghost grouped: { All (HasPlaces of_groups.items) filed.rows.now },
}

impl<'l, 's, 'f, 'd> LinkedRows<'l, 's, 'f, 'd> {
    /// The row with this number, and the link places of its group.
    pub(crate) fn row(&self, number: usize) -> (&PlacedRow<'s, 'f>, &LinkPlaces)
        requires { number < length self.now.filed.rows.now }
        ensures row { At self.now.filed.rows.now number result.0.now }
        ensures links { At self.now.of_groups.items result.0.now.place result.1.now }
        ensures lookup { result.1.now.lookup < length self.now.of_groups.items }
    {
        let row = &self.filed.rows[number];
        (row, &self.of_groups[row.place])
    }

    /// Puts the row's entries under its link headings into `text`, as one text.
    pub(crate) fn write_link_text(
        &self,
        number: usize,
        text: &mut Vec<u8>,
    ) -> Result<(), AllocError>
        requires { number < length self.now.filed.rows.now }
        ensures { OnOk result (IsLinkText self.now.filed.rows.now self.now.of_groups.items number text.new.items) }
    {
        let (row, links) = self.row(number);
        text.clear();
        push_entries(text, row, &links.places)
    }
}
