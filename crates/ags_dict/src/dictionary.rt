//! A dictionary's entries, and look-ups in them.

ghost use Rattle.std.specs.Prelude.{◌≡◌, IfOk, map, length, [], option_copied};
ghost use Rattle.ags_rows.specs.Contents.{place_in};
ghost use Rattle.ags_dict.specs.Entries.{has_no_parent, order_of, keys_of, required_of, parent_of, has_group, elsewhere, of_status};

use crate::groups::GroupEntries;
use crate::headings::HeadingEntries;
use crate::parts::has_separated_part;
use std::alloc::{AllocError, Global};
use std::marker::Model;

/// The entries of the standard dictionary, or of that and a file's own DICT, in their order.
///
/// It keeps nothing of the bytes that it was read from. Dictionaries that extend one share its entries with it.
pub struct Dictionary {
    pub(crate) alloc: Global,
    pub(crate) groups: GroupEntries,
    pub(crate) headings: HeadingEntries,
}

// Written out, so that no crate that drops one proves again how its parts are dropped.
impl Drop for Dictionary {
    fn drop(self) {
        let Dictionary {
            alloc: _,
            groups: _,
            headings: _,
        } = self;
    }
}

impl Model for Dictionary {
    ghost use Rattle.ags_dict.specs.Entries.{Entries};

    ghost Value = { Entries };

    ghost view = { λ d. record { groups = d.groups; headings = d.headings } };
}

impl Dictionary {
    /// No entries.
    pub(crate) fn empty(alloc: Global) -> Result<Dictionary, AllocError>
        ensures { IfOk result (λ dictionary. dictionary ≡ record { groups = []; headings = [] }) }
    {
        Ok(Dictionary {
            alloc,
            groups: GroupEntries::new(alloc)?,
            headings: HeadingEntries::new(alloc)?,
        })
    }

    /// Its entries of groups, and those of headings.
    pub(crate) fn into_parts(self) -> (GroupEntries, HeadingEntries)
        ensures groups { result.0 ≡ self.groups }
        ensures headings { result.1 ≡ self.headings }
    {
        let Dictionary {
            alloc: _,
            groups,
            headings,
        } = self;
        (groups, headings)
    }

    /// The same entries. Those that the dictionary was read from are shared, and not copied.
    pub(crate) fn again(&self) -> Result<Dictionary, AllocError>
        ensures { IfOk result (λ again. again ≡ self.now) }
    {
        Ok(Dictionary {
            alloc: self.alloc,
            groups: self.groups.again(self.alloc)?,
            headings: self.headings.again(self.alloc)?,
        })
    }

    /// The same entries, to be shared.
    pub(crate) fn to_share(self) -> Result<Dictionary, AllocError>
        ensures { IfOk result (λ shared. shared ≡ self) }
    {
        let alloc = self.alloc;
        let (groups, headings) = self.into_parts();
        Ok(Dictionary {
            alloc,
            groups: groups.to_share(alloc)?,
            headings: headings.to_share(alloc)?,
        })
    }

    /// How many entries for groups there are.
    pub fn group_count(&self) -> usize
        ensures { result ≡ length self.now.groups }
    {
        self.groups.len()
    }

    /// How many entries for headings there are.
    pub fn heading_count(&self) -> usize
        ensures { result ≡ length self.now.headings }
    {
        self.headings.len()
    }

    /// The group's headings in the order of the dictionary (Rule 7).
    pub fn order(&self, group: &[u8]) -> Result<Vec<&[u8]>, AllocError>
        ensures { IfOk result (λ order. map (λ h. h.now) order.items ≡ order_of self.now group.now) }
    {
        let entries = self.headings.of_group(self.alloc, group)?;
        let mut order = Vec::new(self.alloc);
        for entry in entries.iter() {
            order.push(entry.heading.as_slice())?;
        }
        Ok(order)
    }

    /// The group's headings whose status has a word, in the order of the dictionary.
    fn of_status(&self, group: &[u8], word: &[u8]) -> Result<Vec<&[u8]>, AllocError>
        ensures { IfOk result (λ found. map (λ h. h.now) found.items ≡ of_status self.now group.now word.now) }
    {
        let entries = self.headings.of_group(self.alloc, group)?;
        let mut found = Vec::new(self.alloc);
        for entry in entries.iter() {
            if has_separated_part(entry.status.as_slice(), b'+', word) {
                found.push(entry.heading.as_slice())?;
            }
        }
        Ok(found)
    }

    /// The group's KEY headings in the order of the dictionary (Rule 10a).
    pub fn keys(&self, group: &[u8]) -> Result<Vec<&[u8]>, AllocError>
        ensures { IfOk result (λ keys. map (λ h. h.now) keys.items ≡ keys_of self.now group.now) }
    {
        self.of_status(group, b"KEY")
    }

    /// The group's REQUIRED headings in the order of the dictionary (Rule 10b).
    pub fn required(&self, group: &[u8]) -> Result<Vec<&[u8]>, AllocError>
        ensures { IfOk result (λ required. map (λ h. h.now) required.items ≡ required_of self.now group.now) }
    {
        self.of_status(group, b"REQUIRED")
    }

    /// The place of a heading in its group's order, counted from 0 (Rules 7 and 9).
    pub fn place_in_order(&self, group: &[u8], heading: &[u8]) -> Option<usize>
        ensures { result ≡ place_in (order_of self.now group.now) heading.now }
    {
        self.headings.place_in_order(group, heading)
    }

    /// Whether the group has an entry (Rule 9).
    pub fn has_group(&self, group: &[u8]) -> bool
        ensures { result ≡ has_group self.now group.now }
    {
        self.groups.find(group).is_some()
    }

    /// Whether another group has a heading of this name (Rule 19b).
    pub fn elsewhere(&self, group: &[u8], heading: &[u8]) -> bool
        ensures { result ≡ elsewhere self.now group.now heading.now }
    {
        self.headings.elsewhere(group, heading)
    }

    /// The group's parent (Rule 10c).
    pub fn parent(&self, group: &[u8]) -> Option<&[u8]>
        ensures { option_copied result ≡ parent_of self.now group.now }
    {
        if has_no_parent(group) {
            return None;
        }
        match self.groups.find(group)?.parent.as_slice() {
            b"" | b"-" => None,
            parent => Some(parent),
        }
    }
}

/// The groups that have no parent, whatever their entries say.
const WITHOUT_PARENT: &[&[u8]] = &[
    b"PROJ", b"TRAN", b"ABBR", b"DICT", b"UNIT", b"TYPE", b"FILE",
];

/// Whether the group has no parent, whatever its entry says.
fn has_no_parent(group: &[u8]) -> bool
    ensures { result ≡ has_no_parent group.now }
{
    WITHOUT_PARENT.contains(&group)
}
