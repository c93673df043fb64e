//! Entries for headings of groups, found by group, by heading, and by both.

ghost use Rattle.std.specs.Prelude.{◌≡◌, ◌<◌, ◌^◌, [], ◌∷◌, ◌++◌, IfOk, IfSome, length, option_copied, slice_get, map, not, ◌&&◌};
ghost use Rattle.std.specs.List.{filter, list_any};
ghost use Rattle.ags_rows.specs.Contents.{place_in};
ghost use Rattle.ags_dict.specs.Index.{of_group, is_named, is_of_other, is_heading};

use crate::entries::HeadingEntry;
use crate::places::{PlacesByGroup, PlacesByText};
use std::alloc::{AllocError, Global};
use std::marker::Model;

/// The entries for headings in their order, found by group, by heading, and by both.
#[derive(Drop)]
pub(crate) struct IndexedHeadings {
    entries: Vec<HeadingEntry>,
    by_group: PlacesByGroup,
    by_heading: PlacesByText,
}

impl Model for IndexedHeadings {
    ghost use Rattle.std.specs.Prelude.{List};
    ghost use Rattle.ags_dict.specs.declared.entries.HeadingEntry.{HeadingEntry};

    ghost Value = { List HeadingEntry };

    ghost use Rattle.ags_dict.specs.Index.{FindsHeadings};

    ghost view = { λ h. h.entries.items };

    ghost invariant = { λ h. FindsHeadings h.entries.items h.by_group h.by_heading };
}

impl IndexedHeadings {
    /// No entries.
    pub(crate) fn new(alloc: Global) -> IndexedHeadings
        ensures { result ≡ [] }
    {
        IndexedHeadings {
            entries: Vec::new(alloc),
            by_group: PlacesByGroup::new(alloc),
            by_heading: PlacesByText::new(alloc),
        }
    }

    /// How many entries there are.
    pub(crate) fn len(&self) -> usize
        ensures count { result ≡ length self.now }
        ensures few { result < 2 ^ 63 }
    {
        self.entries.len()
    }

    /// The entry at a place.
    fn at(&self, place: usize) -> Option<&HeadingEntry>
        ensures { option_copied result ≡ slice_get self.now place }
    {
        self.entries.get(place)
    }

    /// The group's entries in their order.
    pub(crate) fn of_group(
        &self,
        alloc: Global,
        group: &[u8],
    ) -> Result<Vec<&HeadingEntry>, AllocError>
        ensures { IfOk result (λ found. map (λ e. e.now) found.items ≡ filter (of_group group.now) self.now) }
    {
        let mut found = Vec::new(alloc);
        for place in self.by_group.of(group) {
            if let Some(entry) = self.at(*place) {
                found.push(entry)?;
            }
        }
        Ok(found)
    }

    /// How many entries the group has.
    pub(crate) fn count_of_group(&self, group: &[u8]) -> usize
        ensures count { result ≡ length (filter (of_group group.now) self.now) }
        ensures few { result < 2 ^ 63 }
    {
        self.by_group.of(group).len()
    }

    /// The place of a heading in the order of its group.
    pub(crate) fn place_in_order(&self, group: &[u8], heading: &[u8]) -> Option<usize>
        ensures place { result ≡ place_in (map (λ e. e.heading) (filter (of_group group.now) self.now)) heading.now }
        ensures few { IfSome result (λ place. place < 2 ^ 63) }
    {
        self.by_group.rank(group, heading)
    }

    /// Whether there is an entry for a heading of a group.
    pub(crate) fn has(&self, group: &[u8], heading: &[u8]) -> bool
        ensures { result ≡ list_any (is_heading group.now heading.now) self.now }
    {
        self.by_group.rank(group, heading).is_some()
    }

    /// Whether the entry at a place is for another group.
    fn is_of_other(&self, place: usize, group: &[u8]) -> bool
        ensures { result ≡ is_of_other self.now group.now place }
    {
        match self.at(place) {
            Some(entry) => entry.group.as_slice() != group,
            None => false,
        }
    }

    /// Whether another group has a heading of this name.
    pub(crate) fn elsewhere(&self, group: &[u8], heading: &[u8]) -> bool
        ensures { result ≡ list_any (λ e. is_named heading.now e && not (of_group group.now e)) self.now }
    {
        for place in self.by_heading.of(heading) {
            if self.is_of_other(*place, group) {
                return true;
            }
        }
        false
    }

    /// The entries, and one more.
    pub(crate) fn with(
        self,
        alloc: Global,
        entry: HeadingEntry,
    ) -> Result<IndexedHeadings, AllocError>
        ensures { IfOk result (λ entries. entries ≡ self ++ entry ∷ []) }
    {
        let IndexedHeadings {
            mut entries,
            mut by_group,
            mut by_heading,
        } = self;
        let group = entry.group.as_slice();
        let heading = entry.heading.as_slice();
        let place = entries.len();
        by_group.note(alloc, group, heading, place)?;
        by_heading.note(alloc, heading, place)?;
        entries.push(entry)?;
        Ok(IndexedHeadings {
            entries,
            by_group,
            by_heading,
        })
    }

    /// The same entries.
    pub(crate) fn copied(&self, alloc: Global) -> Result<IndexedHeadings, AllocError>
        ensures { IfOk result (λ entries. entries ≡ self.now) }
    {
        let mut copied = IndexedHeadings::new(alloc);
        for entry in self.entries.iter() {
            let group = entry.group.as_slice();
            let heading = entry.heading.as_slice();
            let entry = HeadingEntry::of(alloc, group, heading, entry.status.as_slice())?;
            copied = copied.with(alloc, entry)?;
        }
        Ok(copied)
    }
}
