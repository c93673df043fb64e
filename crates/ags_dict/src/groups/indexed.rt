//! Entries for groups, found by the group's name.

ghost use Rattle.std.specs.Prelude.{◌≡◌, ◌<◌, ◌^◌, [], ◌∷◌, ◌++◌, IfOk, length, option_copied, slice_get};
ghost use Rattle.std.specs.List.{find};
ghost use Rattle.ags_dict.specs.Index.{is_for};

use crate::entries::GroupEntry;
use crate::places::PlacesByText;
use std::alloc::{AllocError, Global};
use std::marker::Model;

/// The entries for groups in their order, found by the group's name.
#[derive(Drop)]
pub(crate) struct IndexedGroups {
    entries: Vec<GroupEntry>,
    by_name: PlacesByText,
}

impl Model for IndexedGroups {
    ghost use Rattle.std.specs.Prelude.{List};
    ghost use Rattle.ags_dict.specs.declared.entries.GroupEntry.{GroupEntry};

    ghost Value = { List GroupEntry };

    ghost use Rattle.ags_dict.specs.Index.{FindsGroups};

    ghost view = { λ g. g.entries.items };

    ghost invariant = { λ g. FindsGroups g.entries.items g.by_name };
}

impl IndexedGroups {
    /// No entries.
    pub(crate) fn new(alloc: Global) -> IndexedGroups
        ensures { result ≡ [] }
    {
        IndexedGroups {
            entries: Vec::new(alloc),
            by_name: PlacesByText::new(alloc),
        }
    }

    /// How many entries there are.
    pub(crate) fn len(&self) -> usize
        ensures count { result ≡ length self.now }
        ensures few { result < 2 ^ 63 }
    {
        self.entries.len()
    }

    /// The entry at a place.
    fn at(&self, place: usize) -> Option<&GroupEntry>
        ensures { option_copied result ≡ slice_get self.now place }
    {
        self.entries.get(place)
    }

    /// The group's entry.
    pub(crate) fn find(&self, group: &[u8]) -> Option<&GroupEntry>
        ensures { option_copied result ≡ find (is_for group.now) self.now }
    {
        self.at(self.by_name.nth(group, 0)?)
    }

    /// The entries, and one more.
    pub(crate) fn with(self, alloc: Global, entry: GroupEntry) -> Result<IndexedGroups, AllocError>
        ensures { IfOk result (λ entries. entries ≡ self ++ entry ∷ []) }
    {
        let IndexedGroups {
            mut entries,
            mut by_name,
        } = self;
        by_name.note(alloc, entry.group.as_slice(), entries.len())?;
        entries.push(entry)?;
        Ok(IndexedGroups { entries, by_name })
    }

    /// The same entries.
    pub(crate) fn copied(&self, alloc: Global) -> Result<IndexedGroups, AllocError>
        ensures { IfOk result (λ entries. entries ≡ self.now) }
    {
        let mut copied = IndexedGroups::new(alloc);
        for entry in self.entries.iter() {
            let entry = GroupEntry::of(alloc, entry.group.as_slice(), entry.parent.as_slice())?;
            copied = copied.with(alloc, entry)?;
        }
        Ok(copied)
    }
}
