//! A file's DATA rows with what is kept for their groups, as the index is made of them.

ghost use Rattle.std.specs.Prelude.{◌<◌, ◌^◌, All, length};
ghost use Rattle.ags_rows.specs.Collecting.{At};
ghost use Rattle.ags_links.specs.Families.{IsFamily, HasFamily};

use crate::families::Family;
use crate::placed::PlacedRow;
use ags_dict::Dictionary;
use std::alloc::Global;

/// The DATA rows of a file, what is kept for each of its groups, and the dictionary that both rest on.
#[derive(Clone, Copy)]
pub(crate) struct FiledRows<'l, 's, 'f, 'd> {
    pub(crate) alloc: Global,
    pub(crate) dictionary: &'d Dictionary,
    pub(crate) rows: &'l [PlacedRow<'s, 'f>],
    pub(crate) families: &'l [Family<'s, 'd>],
    ghost few: { length rows.now < 2 ^ 32 },
    ghost kept: { All (HasFamily dictionary.now families.now) rows.now },
}

impl<'l, 's, 'f, 'd> FiledRows<'l, 's, 'f, 'd> {
    /// The row with this number, and what is kept for its group.
    pub(crate) fn row(&self, number: usize) -> (&'l PlacedRow<'s, 'f>, &'l Family<'s, 'd>)
        requires { number < length self.now.rows.now }
        ensures row { At self.now.rows.now number result.0.now }
        ensures family { At self.now.families.now result.0.now.place result.1.now }
        ensures kept { IsFamily self.now.dictionary.now result.0.now.group.now result.1.now }
    {
        let row = &self.rows[number];
        (row, &self.families[row.place])
    }
}
