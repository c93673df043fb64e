//! The entries for headings of groups.

ghost use Rattle.std.specs.Prelude.{◌≡◌, [], ◌∷◌, IfOk, length, map, not, ◌&&◌};
ghost use Rattle.std.specs.List.{filter, list_any};
ghost use Rattle.ags_rows.specs.Contents.{place_in};
ghost use Rattle.ags_dict.specs.Entries.{same_heading, with_new};
ghost use Rattle.ags_dict.specs.Index.{of_group, is_named, is_heading};

mod indexed;

use crate::entries::HeadingEntry;
use crate::headings::indexed::IndexedHeadings;
use std::alloc::{AllocError, Global};
use std::marker::Model;
use std::rc::Rc;

/// The entries for headings in their order: those that it shares with others, then its own.
#[derive(Drop)]
pub(crate) struct HeadingEntries {
    shared: Rc<IndexedHeadings>,
    own: IndexedHeadings,
}

impl Model for HeadingEntries {
    ghost use Rattle.std.specs.Prelude.{List, ◌++◌};
    ghost use Rattle.ags_dict.specs.declared.entries.HeadingEntry.{HeadingEntry};

    ghost Value = { List HeadingEntry };

    ghost view = { λ h. h.shared.value ++ h.own };
}

impl HeadingEntries {
    /// No entries.
    pub(crate) fn new(alloc: Global) -> Result<HeadingEntries, AllocError>
        ensures { IfOk result (λ entries. entries ≡ []) }
    {
        Ok(HeadingEntries {
            shared: Rc::new(alloc, IndexedHeadings::new(alloc))?,
            own: IndexedHeadings::new(alloc),
        })
    }

    /// How many entries there are.
    pub(crate) fn len(&self) -> usize
        ensures { result ≡ length self.now }
    {
        self.shared.len() + self.own.len()
    }

    /// The group's entries in their order.
    pub(crate) fn of_group(
        &self,
        alloc: Global,
        group: &[u8],
    ) -> Result<Vec<&HeadingEntry>, AllocError>
        ensures { IfOk result (λ found. map (λ e. e.now) found.items ≡ filter (of_group group.now) self.now) }
    {
        let mut found = self.shared.of_group(alloc, group)?;
        let own = self.own.of_group(alloc, group)?;
        found.extend_from_slice(&own)?;
        Ok(found)
    }

    /// The place of a heading in the order of its group.
    pub(crate) fn place_in_order(&self, group: &[u8], heading: &[u8]) -> Option<usize>
        ensures { result ≡ place_in (map (λ e. e.heading) (filter (of_group group.now) self.now)) heading.now }
    {
        if let Some(place) = self.shared.place_in_order(group, heading) {
            return Some(place);
        }
        let earlier = self.shared.count_of_group(group);
        let place = self.own.place_in_order(group, heading)?;
        Some(earlier + place)
    }

    /// Whether there is an entry for a heading of a group.
    fn has(&self, group: &[u8], heading: &[u8]) -> bool
        ensures { result ≡ list_any (is_heading group.now heading.now) self.now }
    {
        self.shared.has(group, heading) || self.own.has(group, heading)
    }

    /// Whether another group has a heading of this name.
    pub(crate) fn elsewhere(&self, group: &[u8], heading: &[u8]) -> bool
        ensures { result ≡ list_any (λ e. is_named heading.now e && not (of_group group.now e)) self.now }
    {
        self.shared.elsewhere(group, heading) || self.own.elsewhere(group, heading)
    }

    /// The entries, and one more unless its group has one for its heading.
    pub(crate) fn with_new(
        self,
        alloc: Global,
        entry: HeadingEntry,
    ) -> Result<HeadingEntries, AllocError>
        ensures { IfOk result (λ entries. entries ≡ with_new same_heading self (entry ∷ [])) }
    {
        if self.has(entry.group.as_slice(), entry.heading.as_slice()) {
            return Ok(self);
        }
        let HeadingEntries { shared, own } = self;
        let own = own.with(alloc, entry)?;
        Ok(HeadingEntries { shared, own })
    }

    /// The same entries, of which only its own are copied.
    pub(crate) fn again(&self, alloc: Global) -> Result<HeadingEntries, AllocError>
        ensures { IfOk result (λ entries. entries ≡ self.now) }
    {
        Ok(HeadingEntries {
            shared: self.shared.clone()?,
            own: self.own.copied(alloc)?,
        })
    }

    /// The same entries, all to be shared, unless some of them are shared already.
    pub(crate) fn to_share(self, alloc: Global) -> Result<HeadingEntries, AllocError>
        ensures { IfOk result (λ entries. entries ≡ self) }
    {
        if self.shared.len() > 0 {
            return Ok(self);
        }
        let HeadingEntries { shared: _, own } = self;
        Ok(HeadingEntries {
            shared: Rc::new(alloc, own)?,
            own: IndexedHeadings::new(alloc),
        })
    }
}
