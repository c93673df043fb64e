//! The groups of a file, found by their names.

ghost use Rattle.std.specs.Prelude.{◌≡◌, ◌↔◌, IsTrue, IfOk, map};
ghost use Rattle.ags_rows.specs.Contents.{contents_of};
ghost use Rattle.ags_check.specs.Header.{HasGroup};

use ags_rows::{Group, Places};
use std::alloc::{AllocError, Global};
use std::marker::Model;

/// The groups of a file in their order, with an index of their names. Contracts see the groups.
#[derive(Drop)]
pub(crate) struct NamedGroups<'f, 'a> {
    groups: &'f [Group<'a>],
    names: Places<'f>,
}

impl<'f, 'a> Model for NamedGroups<'f, 'a> {
    ghost use Rattle.std.specs.Prelude.{◌≡◌, List, map};
    ghost use Rattle.ags_rows.specs.declared.rows.Group.{Group};

    ghost Value = { List Group };

    ghost view = { λ f. f.groups.now };

    ghost invariant = { λ f. f.names ≡ map (λ group. group.name) f.groups.now };
}

impl<'f, 'a> NamedGroups<'f, 'a> {
    /// The file of these groups.
    pub(crate) fn of(alloc: Global, groups: &'f [Group<'a>]) -> Result<Self, AllocError>
        ensures { IfOk result (λ file. file ≡ groups.now) }
    {
        let names = all_names(alloc, groups)?;
        let names = Places::of(alloc, names)?;
        Ok(NamedGroups { groups, names })
    }

    /// The groups in their order.
    pub(crate) fn groups(&self) -> &'f [Group<'a>]
        ensures { result.now ≡ self.now }
    {
        self.groups
    }

    /// Whether a group of this name is in the file.
    pub(crate) fn has(&self, name: &[u8]) -> bool
        ensures { IsTrue result ↔ HasGroup (contents_of self.now) name.now }
    {
        self.names.find(name).is_some()
    }
}

/// The names of groups.
fn all_names<'g>(alloc: Global, groups: &'g [Group]) -> Result<Vec<&'g [u8]>, AllocError>
    ensures { IfOk result (λ names. map (λ name. name.now) names.items ≡ map (λ group. group.name) groups.now) }
{
    let mut names = Vec::new(alloc);
    for group in groups {
        names.push(group.name.as_slice())?;
    }
    Ok(names)
}
