//! What a file lists: its units, types and abbreviations.

ghost use Rattle.std.specs.Prelude.{◌≡◌, ◌≢◌, ◌↔◌, [], None, IsTrue, IfOk, OnOk, map};
ghost use Rattle.ags_rows.specs.Contents.{place_in, group_contents, contents_of};
ghost use Rattle.ags_check.specs.CodeLists.{listed_texts, texts_under, texts_if_named, AddsTexts, abbreviations, abbreviations_in, pair_texts, AddsPairs, HasPairs, IsUnlistedPair};
ghost use Rattle.ags_check.specs.RowRules.{IsUnlistedUnit, IsUnlistedType, IsUnlistedAbbreviation};

use crate::rows::abbreviations::Abbreviations;
use ags_links::separators_in;
use ags_rows::{Group, Places, under};
use std::alloc::{AllocError, Global};
use std::marker::Model;

/// What a file lists, to be looked up. Contracts see what the file holds.
#[derive(Drop)]
pub(crate) struct CodeLists<'a> {
    groups: &'a [Group<'a>],
    units: Places<'a>,
    types: Places<'a>,
    abbreviations: Abbreviations<'a>,
    concatenator: u8,
}

impl<'a> Model for CodeLists<'a> {
    ghost use Rattle.std.specs.Prelude.{List};
    ghost use Rattle.ags_rows.specs.Contents.{Contents, contents_of};
    ghost use Rattle.ags_check.specs.CodeLists.{AreCodeLists};

    ghost Value = { List Contents };

    ghost view = { λ l. contents_of l.groups.now };

    ghost invariant = { λ l.
        AreCodeLists (contents_of l.groups.now) l.units l.types l.abbreviations.held l.concatenator };
}

impl<'a> CodeLists<'a> {
    /// What these groups list.
    pub(crate) fn of(alloc: Global, groups: &'a [Group<'a>]) -> Result<Self, AllocError>
        ensures { IfOk result (λ listed. listed ≡ contents_of groups.now) }
    {
        Ok(CodeLists {
            groups,
            units: places(alloc, groups, b"UNIT", b"UNIT_UNIT")?,
            types: places(alloc, groups, b"TYPE", b"TYPE_TYPE")?,
            abbreviations: listed_abbreviations(alloc, groups)?,
            concatenator: separators_in(groups).concatenator,
        })
    }

    /// Rule 15: whether the unit is not null, and not listed in UNIT.
    pub(crate) fn is_unlisted_unit(&self, unit: &[u8]) -> bool
        ensures { IsTrue result ↔ IsUnlistedUnit self.now unit.now }
    {
        is_unlisted(&self.units, unit)
    }

    /// Rule 17: whether the type is not null, and not listed in TYPE.
    pub(crate) fn is_unlisted_type(&self, code: &[u8]) -> bool
        ensures { IsTrue result ↔ IsUnlistedType self.now code.now }
    {
        is_unlisted(&self.types, code)
    }

    /// Rule 16: whether the text is not null and no abbreviation under the heading, nor are all of its parts.
    pub(crate) fn is_unlisted_abbreviation(&self, heading: &'a [u8], text: &'a [u8]) -> bool
        ensures { IsTrue result ↔ IsUnlistedAbbreviation self.now heading.now text.now }
    {
        is_unlisted_pair(&self.abbreviations, self.concatenator, heading, text)
    }
}

/// The texts under a heading in the groups of this name, to be looked up.
fn places<'a>(
    alloc: Global,
    groups: &'a [Group<'_>],
    name: &[u8],
    heading: &[u8],
) -> Result<Places<'a>, AllocError>
    ensures { IfOk result (λ places. places ≡ listed_texts (contents_of groups.now) name.now heading.now) }
{
    let texts = texts(alloc, groups, name, heading)?;
    Places::of(alloc, texts)
}

/// What is under a heading in the groups of this name.
fn texts<'a>(
    alloc: Global,
    groups: &'a [Group<'_>],
    name: &[u8],
    heading: &[u8],
) -> Result<Vec<&'a [u8]>, AllocError>
    ensures { IfOk result (λ texts.
        map (λ text. text.now) texts.items ≡ listed_texts (contents_of groups.now) name.now heading.now) }
{
    let mut texts = Vec::new(alloc);
    for group in groups {
        push_named(group, name, heading, &mut texts)?;
    }
    Ok(texts)
}

/// Adds what is under a heading in the rows of a group, if the group has this name.
fn push_named<'a>(
    group: &'a Group<'_>,
    name: &[u8],
    heading: &[u8],
    texts: &mut Vec<&'a [u8]>,
) -> Result<(), AllocError>
    ensures { OnOk result (AddsTexts (texts_if_named (group_contents group.now) name.now heading.now)
        texts.old.items texts.new.items) }
{
    if group.name.as_slice() == name {
        push_texts(group, heading, texts)?;
    }
    Ok(())
}

/// Adds what is under a heading in the rows of a group.
fn push_texts<'a>(
    group: &'a Group<'_>,
    heading: &[u8],
    texts: &mut Vec<&'a [u8]>,
) -> Result<(), AllocError>
    ensures { OnOk result (AddsTexts (texts_under (group_contents group.now) heading.now)
        texts.old.items texts.new.items) }
{
    let headings = group.headings.as_slice();
    let rows = group.rows.as_slice();
    for row in rows {
        texts.push(under(headings, row.cells.as_slice(), heading))?;
    }
    Ok(())
}

/// The headings and codes of ABBR, to be looked up.
fn listed_abbreviations<'a>(
    alloc: Global,
    groups: &'a [Group<'_>],
) -> Result<Abbreviations<'a>, AllocError>
    ensures { IfOk result (λ listed. HasPairs listed.held (abbreviations (contents_of groups.now))) }
{
    let pairs = pairs(alloc, groups)?;
    Abbreviations::of(alloc, pairs.as_slice())
}

/// The headings and codes of ABBR.
fn pairs<'a>(
    alloc: Global,
    groups: &'a [Group<'_>],
) -> Result<Vec<(&'a [u8], &'a [u8])>, AllocError>
    ensures { IfOk result (λ pairs. map pair_texts pairs.items ≡ abbreviations (contents_of groups.now)) }
{
    let mut pairs = Vec::new(alloc);
    for group in groups {
        if group.name.as_slice() == b"ABBR".as_slice() {
            push_pairs(group, &mut pairs)?;
        }
    }
    Ok(pairs)
}

/// Adds the headings and codes of the rows of ABBR.
fn push_pairs<'a>(
    group: &'a Group<'_>,
    pairs: &mut Vec<(&'a [u8], &'a [u8])>,
) -> Result<(), AllocError>
    ensures { OnOk result (AddsPairs (abbreviations_in (group_contents group.now))
        pairs.old.items pairs.new.items) }
{
    let headings = group.headings.as_slice();
    let rows = group.rows.as_slice();
    for row in rows {
        let heading = under(headings, row.cells.as_slice(), b"ABBR_HDNG");
        let code = under(headings, row.cells.as_slice(), b"ABBR_CODE");
        pairs.push((heading, code))?;
    }
    Ok(())
}

/// Whether a text is not null, and is not among these.
fn is_unlisted(places: &Places, text: &[u8]) -> bool
    ensures { IsTrue result ↔ (text.now ≢ []) × (place_in places.now text.now ≡ None) }
{
    !text.is_empty() && places.find(text).is_none()
}

/// Whether a text is not null and no abbreviation under the heading, nor are all of its parts.
fn is_unlisted_pair<'a>(
    abbreviations: &Abbreviations<'a>,
    separator: u8,
    heading: &'a [u8],
    text: &'a [u8],
) -> bool
    ensures { IsTrue result ↔ IsUnlistedPair abbreviations.now.held separator heading.now text.now }
{
    !text.is_empty()
        && !abbreviations.has(heading, text)
        && abbreviations.lacks_part(separator, heading, text)
}
