//! The index of a file: keys, parents, record links and file sets.

ghost use Rattle.std.specs.Prelude.{◌≡◌, ◌<◌, ◌↔◌, ℕ, IfOk, IsTrue, Contains, length};
ghost use Rattle.std.specs.List.Sorted.{IsStrictlyIncreasing};
ghost use Rattle.ags_rows.specs.Contents.{contents_of};

use crate::families::{Family, families, keyed_rows};
use crate::filed_rows::FiledRows;
use crate::listed_parents::listed_parents;
use crate::lookup::{Lookup, Span, rows_with};
use crate::parents::{ParentLists, part_of};
use crate::placed::{PlacedRow, field, place_rows};
use crate::separators::{Separators, separators_in};
use crate::texts::{distinct, link_parts, pieces_text, push_parts};
use ags_dict::Dictionary;
use ags_rows::{Group, Scan};
use std::alloc::{AllocError, Global};
use std::marker::Model;

/// What a cell names, read as a record link.
#[derive(Drop)]
pub enum Targets {
    /// The rows that its parts name, rising, each once.
    Rows(Vec<u32>),
    /// Some part names no row.
    Broken,
}

/// A file's rows, to be found by key, by parent link and by file set.
pub struct Index<'s, 'f, 'd> {
    alloc: Global,
    groups: &'s [Group<'f>],
    dictionary: &'d Dictionary,
    rows: Vec<PlacedRow<'s, 'f>>,
    families: Vec<Family<'s, 'd>>,
    parents: ParentLists,
    // where the parent rows of each row are among the rows of the look-up of its group
    spans: Vec<Span>,
    // for each row the first row of its group with an equal key
    firsts: Vec<u32>,
    by_key: Lookup,
    by_file_set: Lookup,
    separators: Separators,
}

// Written out, so that no crate that lets one go proves again how its parts are dropped.
impl<'s, 'f, 'd> Drop for Index<'s, 'f, 'd> {
    fn drop(self) {
        let Index {
            alloc: _,
            groups: _,
            dictionary: _,
            rows: _,
            families: _,
            parents: _,
            spans: _,
            firsts: _,
            by_key: _,
            by_file_set: _,
            separators: _,
        } = self;
    }
}

impl<'s, 'f, 'd> Model for Index<'s, 'f, 'd> {
    ghost use Rattle.ags_rows.specs.Contents.{contents_of};
    ghost use Rattle.ags_links.specs.DataRows.{DataFile};
    ghost use Rattle.ags_links.specs.Indexing.{Indexes};

    ghost Value = { DataFile };

    ghost view = { λ i. record { contents = contents_of i.groups.now; entries = i.dictionary.now } };

    ghost invariant = { λ i. Indexes i.groups.now i.dictionary.now i.rows.items i.families.items i.parents
        i.spans.items i.firsts.items i.by_key i.by_file_set i.separators };
}

impl<'s, 'f, 'd> Index<'s, 'f, 'd> {
    ghost use Rattle.ags_rows.specs.Collecting.{At};
    ghost use Rattle.ags_links.specs.DataRows.{ListsRows};
    ghost use Rattle.ags_links.specs.Families.{IsFamily};
    ghost use Rattle.ags_links.specs.Placing.{row_of};
    ghost use Rattle.ags_links.specs.Indexing.{rows_in, IsParentAt, IsFirstOfKeyAt, IsFileRowAt, IsNamedBy, ListsPartsAt, ListsLinkedPartsAt, TellsIfBroken, AreTargetsAt};

    /// The index of a file under its dictionary.
    pub fn build(
        alloc: Global,
        scan: &'s Scan<'f>,
        dictionary: &'d Dictionary,
    ) -> Result<Index<'s, 'f, 'd>, AllocError>
        ensures contents { IfOk result (λ index. index.contents ≡ contents_of scan.now) }
        ensures entries { IfOk result (λ index. index.entries ≡ dictionary.now) }
    {
        let groups = scan.groups();
        let rows = place_rows(alloc, scan)?;
        let families = families(alloc, groups, dictionary, &rows)?;
        let filed = FiledRows {
            alloc,
            dictionary,
            rows: &rows,
            families: &families,
        };
        let listed = listed_parents(&filed, groups)?;
        let keyed = keyed_rows(&filed)?;
        Ok(Index {
            alloc,
            groups,
            dictionary,
            rows,
            families,
            parents: listed.parents,
            spans: listed.spans,
            firsts: keyed.firsts,
            by_key: keyed.by_key,
            by_file_set: keyed.by_file_set,
            separators: separators_in(groups),
        })
    }

    /// How many DATA rows the file has.
    pub fn row_count(&self) -> u32
        ensures { result ≡ length (rows_in self.now) }
    {
        self.rows.len() as u32
    }

    /// The row, and what is kept for its group.
    pub(crate) fn kept(&self, row: u32) -> (&PlacedRow<'s, 'f>, &Family<'s, 'd>)
        requires { row < length (rows_in self.now) }
        ensures row { At (rows_in self.now) row (row_of result.0.now) }
        ensures family { IsFamily self.now.entries result.0.now.group.now result.1.now }
    {
        let kept = &self.rows[row as usize];
        (kept, &self.families[kept.place])
    }

    /// The parent rows of a row (Rule 10c).
    pub(crate) fn parent_rows(&self, row: u32) -> &[u32]
        requires { row < length (rows_in self.now) }
        ensures { ListsRows result.now (IsParentAt self.now row) }
    {
        let kept = &self.rows[row as usize];
        let links = &self.parents.of_groups[kept.place];
        let span = self.spans[row as usize];
        part_of(&self.parents.lists[links.lookup], span)
    }

    /// The parent rows of a row (Rule 10c), rising.
    pub fn parents(&self, row: u32) -> Result<Vec<u32>, AllocError>
        requires { row < length (rows_in self.now) }
        ensures { IfOk result (λ rows. ListsRows rows.items (IsParentAt self.now row)) }
    {
        Vec::from_slice(self.alloc, self.parent_rows(row))
    }

    /// Whether the row has a parent row (Rule 10c).
    pub fn has_parent(&self, row: u32) -> bool
        requires { row < length (rows_in self.now) }
        ensures { IsTrue result ↔ ((m : ℕ) × IsParentAt self.now row m) }
    {
        !self.parent_rows(row).is_empty()
    }

    /// The first row of the row's group with an equal key (Rule 10a).
    pub fn first_of_key(&self, row: u32) -> u32
        requires { row < length (rows_in self.now) }
        ensures { IsFirstOfKeyAt self.now row result }
    {
        self.firsts[row as usize]
    }

    /// The rows of FILE with the row's FILE_FSET (Rule 20); none where it is null or absent.
    pub(crate) fn file_rows(&self, row: u32) -> &[u32]
        requires { row < length (rows_in self.now) }
        ensures { ListsRows result.now (IsFileRowAt self.now row) }
    {
        let (kept, family) = self.kept(row);
        let file_set = field(kept, family.file_set);
        if file_set.is_empty() {
            return &[];
        }
        rows_with(&self.by_file_set, file_set)
    }

    /// The rows of FILE with the row's FILE_FSET (Rule 20), rising; none where it is null or absent.
    pub fn files(&self, row: u32) -> Result<Vec<u32>, AllocError>
        requires { row < length (rows_in self.now) }
        ensures { IfOk result (λ rows. ListsRows rows.items (IsFileRowAt self.now row)) }
    {
        Vec::from_slice(self.alloc, self.file_rows(row))
    }

    /// Whether a row of FILE has the row's FILE_FSET (Rule 20), which is not null.
    pub fn has_file(&self, row: u32) -> bool
        requires { row < length (rows_in self.now) }
        ensures { IsTrue result ↔ ((m : ℕ) × IsFileRowAt self.now row m) }
    {
        !self.file_rows(row).is_empty()
    }

    /// The rows that a part of a record link names.
    pub(crate) fn named(&self, part: &[u8]) -> Result<&[u32], AllocError>
        ensures { IfOk result (λ rows. ListsRows rows.now (IsNamedBy self.now part.now)) }
    {
        let text = pieces_text(self.alloc, self.separators.delimiter, part)?;
        Ok(rows_with(&self.by_key, &text))
    }

    /// The parts of what is in the row under a heading, each once.
    fn parts_under(&self, row: u32, heading: &[u8]) -> Result<Vec<&'s [u8]>, AllocError>
        requires { row < length (rows_in self.now) }
        ensures { IfOk result (λ parts. ListsPartsAt self.now row heading.now parts.items) }
    {
        let (kept, family) = self.kept(row);
        let mut parts = Vec::new(self.alloc);
        push_parts(
            &mut parts,
            self.separators.concatenator,
            field(kept, family.headings.find(heading)),
        )?;
        distinct(self.alloc, parts)
    }

    /// The parts of the row's record links, each once.
    pub(crate) fn linked_parts(&self, row: u32) -> Result<Vec<&'s [u8]>, AllocError>
        requires { row < length (rows_in self.now) }
        ensures { IfOk result (λ parts. ListsLinkedPartsAt self.now row parts.items) }
    {
        let (kept, family) = self.kept(row);
        let parts = link_parts(
            self.alloc,
            self.separators.concatenator,
            kept,
            &family.links,
        )?;
        distinct(self.alloc, parts)
    }

    /// Whether some part of what is in the row under a heading, read as a record link (Rule 11), names no row.
    /// A heading that the group does not have reads as null.
    pub fn has_broken_part(&self, row: u32, heading: &[u8]) -> Result<bool, AllocError>
        requires { row < length (rows_in self.now) }
        ensures { IfOk result (TellsIfBroken self.now row heading.now) }
    {
        let parts = self.parts_under(row, heading)?;
        for part in &parts {
            let rows = self.named(part)?;
            if rows.is_empty() {
                return Ok(true);
            }
        }
        Ok(false)
    }

    /// What is in the row under a heading, read as a record link (Rule 11): the rows that its parts name,
    /// rising, each once, or `Broken` where some part names no row. A heading that the group does not have reads
    /// as null.
    pub fn link_targets(&self, row: u32, heading: &[u8]) -> Result<Targets, AllocError>
        requires { row < length (rows_in self.now) }
        ensures { IfOk result (AreTargetsAt self.now row heading.now) }
    {
        let parts = self.parts_under(row, heading)?;
        let mut found = Vec::new(self.alloc);
        for part in &parts {
            let rows = self.named(part)?;
            if rows.is_empty() {
                return Ok(Targets::Broken);
            }
            found.extend_from_slice(rows)?;
        }
        Ok(Targets::Rows(each_once(found)))
    }
}

/// The numbers rising, each once.
pub(crate) fn each_once(numbers: Vec<u32>) -> Vec<u32>
    ensures rising { IsStrictlyIncreasing result.items }
    ensures same { (n : ℕ) → Contains result.items n ↔ Contains numbers.items n }
{
    let mut sorted = numbers;
    sorted.sort_unstable();
    sorted.dedup();
    sorted
}
