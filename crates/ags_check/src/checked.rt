//! A file without findings.

ghost use Rattle.std.specs.Prelude.{◌≡◌};
ghost use Rattle.ags_check.specs.Findings.{IsClean};

use ags_dict::Dictionary;
use ags_links::Graph;
use ags_rows::Scan;
use std::marker::Model;

/// A file that was checked and has no finding. Only `check` makes one.
pub struct Checked<'a> {
    bytes: &'a [u8],
    scan: Scan<'a>,
    dictionary: Dictionary,
    /// How many of the dictionary's entries for groups were given to `check`: the first ones.
    given_groups: usize,
    /// How many of those for headings were.
    given_headings: usize,
    graph: Graph,
}

// Written out, so that no crate that lets one go proves again how its parts are dropped.
impl<'a> Drop for Checked<'a> {
    fn drop(self) {
        let Checked {
            bytes: _,
            scan: _,
            dictionary: _,
            given_groups: _,
            given_headings: _,
            graph: _,
        } = self;
    }
}

impl<'a> Model for Checked<'a> {
    ghost use Rattle.ags_check.specs.Findings.{CheckedFile, IsClean, first_entries};

    ghost Value = { CheckedFile };

    ghost view = { λ c. record {
      given = first_entries c.given_groups c.given_headings c.dictionary;
      bytes = c.bytes.now;
      groups = c.scan;
      entries = c.dictionary;
      graph = c.graph;
    } };

    ghost invariant = { λ c. IsClean (record {
      given = first_entries c.given_groups c.given_headings c.dictionary;
      bytes = c.bytes.now;
      groups = c.scan;
      entries = c.dictionary;
      graph = c.graph;
    }) };
}

impl<'a> Checked<'a> {
    /// A file without findings.
    pub(crate) fn of(
        given: &Dictionary,
        bytes: &'a [u8],
        scan: Scan<'a>,
        dictionary: Dictionary,
        graph: Graph,
    ) -> Self
        requires { IsClean (record {
          given = given.now;
          bytes = bytes.now;
          groups = scan;
          entries = dictionary;
          graph = graph;
        }) }
        ensures given { result.given ≡ given.now }
        ensures bytes { result.bytes ≡ bytes.entry.now }
        ensures groups { result.groups ≡ scan.entry }
        ensures entries { result.entries ≡ dictionary }
        ensures graph { result.graph ≡ graph }
    {
        let given_groups = given.group_count();
        let given_headings = given.heading_count();
        Checked {
            bytes,
            scan,
            dictionary,
            given_groups,
            given_headings,
            graph,
        }
    }

    /// The bytes of the file, which has no finding.
    pub fn bytes(&self) -> &'a [u8]
        ensures bytes { result.now ≡ self.now.bytes }
        ensures clean { IsClean self.now }
    {
        self.bytes
    }

    /// The groups of the file.
    pub fn scan(&self) -> &Scan<'a>
        ensures { result.now ≡ self.now.groups }
    {
        &self.scan
    }

    /// The extended dictionary: the entries given to `check`, and the new ones of the file's DICT.
    pub fn dictionary(&self) -> &Dictionary
        ensures { result.now ≡ self.now.entries }
    {
        &self.dictionary
    }

    /// The steps between the DATA rows of the file, which are numbered from 0.
    pub fn graph(&self) -> &Graph
        ensures { result.now ≡ self.now.graph }
    {
        &self.graph
    }
}
