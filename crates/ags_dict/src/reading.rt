//! Reading a dictionary.

ghost use Rattle.std.specs.Prelude.{◌≡◌, ◌≤◌, ℕ, List, length, IfOk};
ghost use Rattle.std.specs.List.{list_any};
ghost use Rattle.std.specs.Str.{bytes_eq};
ghost use Rattle.ags_rows.specs.Contents.{group_contents, contents_of};
ghost use Rattle.ags_rows.specs.Findings.{LooseGroups};
ghost use Rattle.ags_dict.specs.declared.reading.DictError.TheVariants.{NoMemory};
ghost use Rattle.ags_dict.specs.Entries.{has_dict, has_dict_headings, is_incomplete, lacks_heading, entries_of_file};
ghost use Rattle.ags_dict.specs.Reading.{ReadsDictionary};

use crate::dictionary::Dictionary;
use crate::extending::{is_dict, take_contents};
use ags_rows::{Cell, FindingList, Group, READABLE, RowsError, Scan};
use std::alloc::{AllocError, Global};
use std::fmt;
use thiserror::Error;

impl Dictionary {
    /// The dictionary that a file is.
    pub fn read(alloc: Global, bytes: &[u8]) -> Result<Dictionary, DictError>
        requires { length bytes.now ≤ READABLE }
        ensures reads { ReadsDictionary bytes.now result }
    {
        match Scan::read_loose(alloc, bytes) {
            Ok(scan) => of_groups(alloc, scan.groups()),
            Err(RowsError::Findings(found)) => Err(DictError::NotDictionary(found)),
            Err(RowsError::NoMemory) => Err(DictError::NoMemory),
        }
    }
}

/// Why bytes are no dictionary.
#[derive(Drop, Error)]
pub enum DictError {
    /// The file has findings, other than of Rules 1 and 2a: all of the first phase that has any, at least one.
    #[error("not a dictionary")]
    NotDictionary(FindingList),
    /// The file has no group DICT.
    #[error("no group DICT")]
    NoDict,
    /// DICT lacks DICT_TYPE, DICT_GRP, DICT_HDNG, DICT_STAT or DICT_PGRP.
    #[error("a heading of DICT is missing")]
    MissingHeading,
    /// Memory was refused.
    #[error("out of memory")]
    NoMemory,
}

impl fmt::Debug for DictError {
    fn fmt<W: fmt::Write>(&self, f: &mut fmt::Formatter<W>) -> fmt::Result {
        write!(f, "{self}")
    }
}

impl From<AllocError> for DictError {
    ghost from_gives = { λ _ e. e ≡ NoMemory };

    fn from(_e: AllocError) -> DictError {
        DictError::NoMemory
    }
}

/// The dictionary that these groups are.
fn of_groups(alloc: Global, groups: &[Group]) -> Result<Dictionary, DictError>
    ensures { (bytes : List ℕ) → LooseGroups bytes groups.now → ReadsDictionary bytes result }
{
    if !has_dict(groups) {
        return Err(DictError::NoDict);
    }
    if lacks_heading(groups) {
        return Err(DictError::MissingHeading);
    }
    match entries_of(alloc, groups) {
        Ok(dictionary) => Ok(dictionary),
        Err(_) => Err(DictError::NoMemory),
    }
}

/// The entries of these groups.
fn entries_of(alloc: Global, groups: &[Group]) -> Result<Dictionary, AllocError>
    ensures { IfOk result (λ dictionary. dictionary ≡ entries_of_file (contents_of groups.now)) }
{
    let dictionary = take_contents(alloc, groups, Dictionary::empty(alloc)?)?;
    dictionary.to_share()
}

/// Whether one of the groups is DICT.
pub fn has_dict(groups: &[Group]) -> bool
    ensures { result ≡ has_dict (contents_of groups.now) }
{
    for group in groups {
        if is_dict(group) {
            return true;
        }
    }
    false
}

/// Whether DICT lacks a heading that makes entries.
fn lacks_heading(groups: &[Group]) -> bool
    ensures { result ≡ lacks_heading (contents_of groups.now) }
{
    for group in groups {
        if is_incomplete(group) {
            return true;
        }
    }
    false
}

/// Whether the group is DICT and lacks a heading that makes entries.
fn is_incomplete(group: &Group) -> bool
    ensures { result ≡ is_incomplete (group_contents group.now) }
{
    is_dict(group) && !has_dict_headings(group.headings.as_slice())
}

/// Whether a HEADING row has the headings that make entries.
fn has_dict_headings(headings: &[Cell]) -> bool
    ensures { result ≡ has_dict_headings headings.now }
{
    has(headings, b"DICT_TYPE")
        && has(headings, b"DICT_GRP")
        && has(headings, b"DICT_HDNG")
        && has(headings, b"DICT_STAT")
        && has(headings, b"DICT_PGRP")
}

/// Whether a HEADING row has a heading.
fn has(headings: &[Cell], wanted: &[u8]) -> bool
    ensures { result ≡ list_any (λ h. bytes_eq h wanted.now) headings.now }
{
    for heading in headings {
        if heading.as_slice() == wanted {
            return true;
        }
    }
    false
}
