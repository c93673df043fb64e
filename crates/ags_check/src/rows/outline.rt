//! What a group's header and the dictionary say of its rows.

ghost use Rattle.std.specs.Prelude.{◌≡◌, ◌≢◌, ◌<◌, ◌↔◌, [], false, IsTrue, IfOk, length};
ghost use Rattle.ags_rows.specs.Contents.{group_contents};
ghost use Rattle.ags_dict.specs.Entries.{keys_of, required_of};
ghost use Rattle.ags_rows.specs.Collecting.{At};
ghost use Rattle.ags_links.specs.DataRows.{DataRow};
ghost use Rattle.ags_links.specs.Indexing.{rows_in};
ghost use Rattle.ags_check.specs.Columns.{AreColumns};
ghost use Rattle.ags_check.specs.RowRules.{RepeatsKey, LacksParentRow};
ghost use Rattle.ags_check.specs.RowSteps.{SaysOfRow, LacksFile};

use crate::rows::columns::{Column, columns};
use ags_dict::Dictionary;
use ags_links::Index;
use ags_rows::{Cell, Group, Places, Row, cell_at, is_definition};
use std::alloc::{AllocError, Global};
use std::marker::Model;

/// What a group's header and the dictionary say of the group's rows. Contracts see the group and the entries.
#[derive(Drop)]
pub(crate) struct Outline<'a> {
    pub(crate) group: &'a Group<'a>,
    pub(crate) dictionary: &'a Dictionary,
    pub(crate) columns: Vec<Column<'a>>,
    pub(crate) required: Vec<Column<'a>>,
    pub(crate) file_set: Option<usize>,
    pub(crate) has_keys: bool,
    pub(crate) has_parent: bool,
    pub(crate) is_data: bool,
}

impl<'a> Model for Outline<'a> {
    ghost use Rattle.ags_check.specs.Columns.{Outlined, IsOutline};

    ghost Value = { Outlined };

    ghost view = { λ o. record { group = o.group.now; entries = o.dictionary.now } };

    ghost invariant = { λ o. IsOutline o.group.now o.dictionary.now o.columns.items o.required.items o.file_set
        o.has_keys o.has_parent o.is_data };
}

impl<'a> Outline<'a> {
    /// What is said of this group's rows, where its headings are at these places.
    fn placed(
        alloc: Global,
        dictionary: &'a Dictionary,
        group: &'a Group<'a>,
        places: &Places<'a>,
    ) -> Result<Self, AllocError>
        requires { places.now ≡ group.now.headings }
        ensures { IfOk result (λ outline. outline ≡ record { group = group.now; entries = dictionary.now }) }
    {
        let name = group.name.as_slice();
        let has_keys = has_keys(dictionary, name)?;
        let own_columns = columns(alloc, group, places, places.names())?;
        let required_columns = required_columns(alloc, dictionary, group, places)?;
        Ok(Outline {
            group,
            dictionary,
            columns: own_columns,
            required: required_columns,
            file_set: places.find(b"FILE_FSET"),
            has_keys,
            has_parent: dictionary.parent(name).is_some(),
            is_data: !is_definition(name),
        })
    }

    /// What is said of this group's rows.
    pub(crate) fn of(
        alloc: Global,
        dictionary: &'a Dictionary,
        group: &'a Group<'a>,
    ) -> Result<Self, AllocError>
        ensures { IfOk result (λ outline. outline ≡ record { group = group.now; entries = dictionary.now }) }
    {
        let places = Places::of_cells(alloc, group.headings.as_slice())?;
        Outline::placed(alloc, dictionary, group, &places)
    }

    /// The group's name.
    pub(crate) fn name(&self) -> &[u8]
        ensures { result.now ≡ self.now.group.name }
    {
        let group = self.group;
        group.name.as_slice()
    }

    /// The group's DATA rows.
    pub(crate) fn rows(&self) -> &'a [Row<'a>]
        ensures { result.now ≡ self.now.group.rows }
    {
        let group = self.group;
        group.rows.as_slice()
    }

    /// Rule 10a: whether an earlier row of the group has the key of this one.
    pub(crate) fn repeats_key(&self, index: &Index, number: u32) -> bool
        requires entries { self.now.entries ≡ index.now.entries }
        requires stands { number < length (rows_in index.now) }
        requires row { (row : DataRow) → At (rows_in index.now) number row → row.group ≡ self.now.group.name }
        ensures { SaysOfRow index.now number (RepeatsKey index.now.entries index.now.contents number) result }
    {
        if !self.has_keys {
            return false;
        }
        index.first_of_key(number) < number
    }

    /// Rule 10c: whether the group has a parent group, and the row no parent row.
    pub(crate) fn lacks_parent(&self, index: &Index, number: u32) -> bool
        requires entries { self.now.entries ≡ index.now.entries }
        requires stands { number < length (rows_in index.now) }
        requires row { (row : DataRow) → At (rows_in index.now) number row → row.group ≡ self.now.group.name }
        ensures { SaysOfRow index.now number (LacksParentRow index.now.entries index.now.contents) result }
    {
        if !self.has_parent {
            return false;
        }
        !index.has_parent(number)
    }

    /// Rule 20: whether the row is of a data group other than FILE, and its FILE_FSET is not null and not that of a row
    /// of FILE.
    pub(crate) fn is_unlisted_file_set(&self, cells: &[Cell], has_file: bool) -> bool
        ensures { IsTrue result ↔ LacksFile self.now.group cells.now has_file }
    {
        self.is_data
            && self.group.name.as_slice() != b"FILE".as_slice()
            && is_without_file(cell_at(cells, self.file_set), has_file)
    }
}

/// Whether the group has KEY headings.
fn has_keys(dictionary: &Dictionary, name: &[u8]) -> Result<bool, AllocError>
    ensures { IfOk result (λ has. IsTrue has ↔ (keys_of dictionary.now name.now ≢ [])) }
{
    let keys = dictionary.keys(name)?;
    Ok(!keys.is_empty())
}

/// What the group says of its REQUIRED headings.
fn required_columns<'a>(
    alloc: Global,
    dictionary: &'a Dictionary,
    group: &'a Group<'_>,
    places: &Places<'_>,
) -> Result<Vec<Column<'a>>, AllocError>
    requires { places.now ≡ group.now.headings }
    ensures { IfOk result (λ columns.
        AreColumns (group_contents group.now) (required_of dictionary.now group.now.name) columns.items) }
{
    let required = dictionary.required(group.name.as_slice())?;
    columns(alloc, group, places, required.as_slice())
}

/// Whether the FILE_FSET is not null and there is no file.
fn is_without_file(file_set: &[u8], has_file: bool) -> bool
    ensures { IsTrue result ↔ (file_set.now ≢ []) × (has_file ≡ false) }
{
    !file_set.is_empty() && !has_file
}
