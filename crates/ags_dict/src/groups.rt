//! The entries for groups.

ghost use Rattle.std.specs.Prelude.{◌≡◌, [], ◌∷◌, IfOk, length, option_copied};
ghost use Rattle.std.specs.List.{find};
ghost use Rattle.ags_dict.specs.Entries.{same_group, with_new};
ghost use Rattle.ags_dict.specs.Index.{is_for};

mod indexed;

use crate::entries::GroupEntry;
use crate::groups::indexed::IndexedGroups;
use std::alloc::{AllocError, Global};
use std::marker::Model;
use std::rc::Rc;

/// The entries for groups in their order: those that it shares with others, then its own.
#[derive(Drop)]
pub(crate) struct GroupEntries {
    shared: Rc<IndexedGroups>,
    own: IndexedGroups,
}

impl Model for GroupEntries {
    ghost use Rattle.std.specs.Prelude.{List, ◌++◌};
    ghost use Rattle.ags_dict.specs.declared.entries.GroupEntry.{GroupEntry};

    ghost Value = { List GroupEntry };

    ghost view = { λ g. g.shared.value ++ g.own };
}

impl GroupEntries {
    /// No entries.
    pub(crate) fn new(alloc: Global) -> Result<GroupEntries, AllocError>
        ensures { IfOk result (λ entries. entries ≡ []) }
    {
        Ok(GroupEntries {
            shared: Rc::new(alloc, IndexedGroups::new(alloc))?,
            own: IndexedGroups::new(alloc),
        })
    }

    /// How many entries there are.
    pub(crate) fn len(&self) -> usize
        ensures { result ≡ length self.now }
    {
        self.shared.len() + self.own.len()
    }

    /// The group's entry.
    pub(crate) fn find(&self, group: &[u8]) -> Option<&GroupEntry>
        ensures { option_copied result ≡ find (is_for group.now) self.now }
    {
        match self.shared.find(group) {
            Some(entry) => Some(entry),
            None => self.own.find(group),
        }
    }

    /// The entries, and one more unless its group has one.
    pub(crate) fn with_new(
        self,
        alloc: Global,
        entry: GroupEntry,
    ) -> Result<GroupEntries, AllocError>
        ensures { IfOk result (λ entries. entries ≡ with_new same_group self (entry ∷ [])) }
    {
        if self.find(entry.group.as_slice()).is_some() {
            return Ok(self);
        }
        let GroupEntries { shared, own } = self;
        let own = own.with(alloc, entry)?;
        Ok(GroupEntries { shared, own })
    }

    /// The same entries, of which only its own are copied.
    pub(crate) fn again(&self, alloc: Global) -> Result<GroupEntries, AllocError>
        ensures { IfOk result (λ entries. entries ≡ self.now) }
    {
        Ok(GroupEntries {
            shared: self.shared.clone()?,
            own: self.own.copied(alloc)?,
        })
    }

    /// The same entries, all to be shared, unless some of them are shared already.
    pub(crate) fn to_share(self, alloc: Global) -> Result<GroupEntries, AllocError>
        ensures { IfOk result (λ entries. entries ≡ self) }
    {
        if self.shared.len() > 0 {
            return Ok(self);
        }
        let GroupEntries { shared: _, own } = self;
        Ok(GroupEntries {
            shared: Rc::new(alloc, own)?,
            own: IndexedGroups::new(alloc),
        })
    }
}
