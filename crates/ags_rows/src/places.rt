//! The first place of a name in a list of names, looked up in logarithmic time.

ghost use Rattle.std.specs.Prelude.{◌≡◌, IfOk, OnOk, map};
ghost use Rattle.ags_rows.specs.Contents.{place_in};
ghost use Rattle.ags_rows.specs.Places.{AddsPlace, AreFirst};

use ags_text::Cell;
use std::alloc::{AllocError, Global};
use std::collections::BTreeMap;
use std::marker::Model;

/// A list of names with the first place of each. Contracts see the names.
pub struct Places<'n> {
    names: Vec<&'n [u8]>,
    first: BTreeMap<&'n [u8], usize>,
}

// Written out, so that no crate that drops one proves again how its parts are dropped.
impl<'n> Drop for Places<'n> {
    fn drop(self) {
        let Places { names: _, first: _ } = self;
    }
}

impl<'n> Model for Places<'n> {
    ghost use Rattle.std.specs.Prelude.{ℕ, List, map};
    ghost use Rattle.ags_rows.specs.Places.{AreFirst};

    ghost Value = { List (List ℕ) };

    ghost view = { λ p. map (λ name. name.now) p.names.items };

    ghost invariant = { λ p. AreFirst p.first (map (λ name. name.now) p.names.items) };
}

impl<'n> Places<'n> {
    /// The places of these names.
    pub fn of(alloc: Global, names: Vec<&'n [u8]>) -> Result<Self, AllocError>
        ensures { IfOk result (λ places. places ≡ map (λ name. name.now) names.entry.items) }
    {
        let first = first_places(alloc, names.as_slice())?;
        Ok(Places { names, first })
    }

    /// The places of the names in the cells of a row, as a HEADING row.
    pub fn of_cells(alloc: Global, cells: &'n [Cell]) -> Result<Self, AllocError>
        ensures { IfOk result (λ places. places ≡ cells.now) }
    {
        let mut names = Vec::new(alloc);
        for cell in cells {
            names.push(cell.as_slice())?;
        }
        Places::of(alloc, names)
    }

    /// The names in their order.
    pub fn names(&self) -> &[&'n [u8]]
        ensures { map (λ name. name.now) result.now ≡ self.now }
    {
        self.names.as_slice()
    }

    /// The first place of a name.
    pub fn find(&self, name: &[u8]) -> Option<usize>
        ensures { result ≡ place_in self.now name.now }
    {
        self.first.get(name).copied()
    }
}

/// The first place of each of these names.
fn first_places<'n>(
    alloc: Global,
    names: &[&'n [u8]],
) -> Result<BTreeMap<&'n [u8], usize>, AllocError>
    ensures { IfOk result (λ first. AreFirst first (map (λ name. name.now) names.now)) }
{
    let mut first = BTreeMap::new(alloc);
    for (place, name) in names.iter().enumerate() {
        add_name(&mut first, name, place)?;
    }
    Ok(first)
}

/// Adds a name at a place, unless it has an earlier one.
fn add_name<'n>(
    first: &mut BTreeMap<&'n [u8], usize>,
    name: &'n [u8],
    place: usize,
) -> Result<(), AllocError>
    ensures { OnOk result (AddsPlace first.old first.new name.entry.now place) }
{
    if !first.contains_key(name) {
        first.insert(name, place)?;
    }
    Ok(())
}
