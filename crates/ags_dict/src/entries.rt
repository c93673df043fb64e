//! What DICT says of a group, and of a heading of a group.

ghost use Rattle.std.specs.Prelude.{◌≡◌, IfOk};

use ags_text::{Bytes, copy};
use std::alloc::{AllocError, Global};

/// An entry for a group.
#[derive(Drop)]
pub(crate) struct GroupEntry {
    pub(crate) group: Bytes,
    pub(crate) parent: Bytes,
}

/// An entry for a heading of a group.
#[derive(Drop)]
pub(crate) struct HeadingEntry {
    pub(crate) group: Bytes,
    pub(crate) heading: Bytes,
    pub(crate) status: Bytes,
}

impl GroupEntry {
    /// An entry of these texts, which it keeps.
    pub(crate) fn of(alloc: Global, group: &[u8], parent: &[u8]) -> Result<GroupEntry, AllocError>
        ensures { IfOk result (λ entry. entry ≡ record { group = group.now; parent = parent.now }) }
    {
        Ok(GroupEntry {
            group: copy(alloc, group)?,
            parent: copy(alloc, parent)?,
        })
    }
}

impl HeadingEntry {
    /// An entry of these texts, which it keeps.
    pub(crate) fn of(
        alloc: Global,
        group: &[u8],
        heading: &[u8],
        status: &[u8],
    ) -> Result<HeadingEntry, AllocError>
        ensures { IfOk result (λ entry.
            entry ≡ record { group = group.now; heading = heading.now; status = status.now }) }
    {
        Ok(HeadingEntry {
            group: copy(alloc, group)?,
            heading: copy(alloc, heading)?,
            status: copy(alloc, status)?,
        })
    }
}
