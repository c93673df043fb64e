//! The places of texts, and of the entries of groups, in a list.

ghost use Rattle.std.specs.Prelude.{◌≡◌, ℕ, List, [], ◌∷◌, ◌++◌, OnOk, length, slice_get, None};
ghost use Rattle.ags_dict.specs.Index.{value_at, places_at, group_places, rank_at, NotesPlace, NotesRank, NotesFirst};

use std::alloc::{AllocError, Global};
use std::collections::BTreeMap;

/// For each text, its places in a list, rising.
#[derive(Drop)]
pub(crate) struct PlacesByText {
    pub(crate) held: BTreeMap<Vec<u8>, Vec<usize>>,
}

impl PlacesByText {
    /// No places.
    pub(crate) fn new(alloc: Global) -> PlacesByText
        ensures { (text : List ℕ) → places_at result text ≡ [] }
    {
        PlacesByText {
            held: BTreeMap::new(alloc),
        }
    }

    /// The places of a text.
    pub(crate) fn of(&self, text: &[u8]) -> &[usize]
        ensures { result.now ≡ places_at self.now text.now }
    {
        match self.held.get(text) {
            Some(places) => places.as_slice(),
            None => &[],
        }
    }

    /// The n-th place of a text, counted from 0.
    pub(crate) fn nth(&self, text: &[u8], n: usize) -> Option<usize>
        ensures { result ≡ slice_get (places_at self.now text.now) n }
    {
        self.of(text).get(n).copied()
    }

    /// Notes one more place of a text.
    pub(crate) fn note(
        &mut self,
        alloc: Global,
        text: &[u8],
        place: usize,
    ) -> Result<(), AllocError>
        ensures { OnOk result (NotesPlace text.now place (places_at self.old) (places_at self.new)) }
    {
        let text = Vec::from_slice(alloc, text)?;
        let places = self.held.entry(text)?.or_insert(Vec::new(alloc));
        places.push(place)?;
        Ok(())
    }
}

/// For each group, where its entries are.
#[derive(Drop)]
pub(crate) struct PlacesByGroup {
    pub(crate) held: BTreeMap<Vec<u8>, OfGroup>,
}

impl PlacesByGroup {
    /// No entries.
    pub(crate) fn new(alloc: Global) -> PlacesByGroup
        ensures places { (group : List ℕ) → group_places result group ≡ [] }
        ensures ranks { (group heading : List ℕ) → rank_at result group heading ≡ None }
    {
        PlacesByGroup {
            held: BTreeMap::new(alloc),
        }
    }

    /// The places of the group's entries.
    pub(crate) fn of(&self, group: &[u8]) -> &[usize]
        ensures { result.now ≡ group_places self.now group.now }
    {
        match self.held.get(group) {
            Some(of_group) => of_group.places.as_slice(),
            None => &[],
        }
    }

    /// The place of a heading in its group's order.
    pub(crate) fn rank(&self, group: &[u8], heading: &[u8]) -> Option<usize>
        ensures { result ≡ rank_at self.now group.now heading.now }
    {
        self.held.get(group)?.ranks.get(heading).copied()
    }

    /// Notes the place of one more entry, and that of its heading in the group's order, unless one is noted.
    pub(crate) fn note(
        &mut self,
        alloc: Global,
        group: &[u8],
        heading: &[u8],
        place: usize,
    ) -> Result<(), AllocError>
        ensures places { OnOk result (NotesPlace group.now place (group_places self.old) (group_places self.new)) }
        ensures ranks { OnOk result (NotesRank group.now heading.now (length (group_places self.old group.now))
            self.old self.new) }
    {
        let group = Vec::from_slice(alloc, group)?;
        let of_group = self.held.entry(group)?.or_insert(OfGroup::new(alloc));
        of_group.note(alloc, heading, place)
    }
}

/// The places of a group's entries in a list, rising, and for each heading its place in the group's order.
#[derive(Drop)]
pub(crate) struct OfGroup {
    pub(crate) places: Vec<usize>,
    pub(crate) ranks: BTreeMap<Vec<u8>, usize>,
}

impl OfGroup {
    /// No entries.
    fn new(alloc: Global) -> OfGroup
        ensures places { result.places.items ≡ [] }
        ensures ranks { (heading : List ℕ) → value_at result.ranks heading ≡ None }
    {
        OfGroup {
            places: Vec::new(alloc),
            ranks: BTreeMap::new(alloc),
        }
    }

    /// Notes the place of one more entry, and that of its heading in the order, unless one is noted.
    fn note(&mut self, alloc: Global, heading: &[u8], place: usize) -> Result<(), AllocError>
        ensures places { OnOk result (self.new.places.items ≡ self.old.places.items ++ place ∷ []) }
        ensures ranks { OnOk result (NotesFirst heading.now (length self.old.places.items)
            self.old.ranks self.new.ranks) }
    {
        let rank = self.places.len();
        self.places.push(place)?;
        let heading = Vec::from_slice(alloc, heading)?;
        self.ranks.entry(heading)?.or_insert(rank);
        Ok(())
    }
}
