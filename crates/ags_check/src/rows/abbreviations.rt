//! The abbreviations of a file, looked up by heading and text together.

ghost use Rattle.std.specs.Prelude.{◌≡◌, ◌<◌, ◌+◌, ◌||◌, ℕ, List, IfOk, OnOk, map};
ghost use Rattle.ags_check.specs.CodeLists.{pair_texts, has_pair, is_pair, HasPairs, lacks_part};

use ags_links::find_byte;
use std::alloc::{AllocError, Global};
use std::collections::BTreeSet;

/// Pairs of a heading and a text.
#[derive(Drop)]
pub(crate) struct Abbreviations<'a> {
    held: BTreeSet<(&'a [u8], &'a [u8])>,
}

impl<'a> Abbreviations<'a> {
    /// These pairs.
    pub(crate) fn of(alloc: Global, pairs: &[(&'a [u8], &'a [u8])]) -> Result<Self, AllocError>
        ensures { IfOk result (λ abbreviations. HasPairs abbreviations.held (map pair_texts pairs.now)) }
    {
        let mut held = BTreeSet::new(alloc);
        for (heading, text) in pairs {
            add_pair(&mut held, heading, text)?;
        }
        Ok(Abbreviations { held })
    }

    /// Whether the text is an abbreviation under the heading.
    pub(crate) fn has(&self, heading: &'a [u8], text: &'a [u8]) -> bool
        ensures { result ≡ has_pair self.now.held heading.now text.now }
    {
        self.held.contains(&(heading, text))
    }

    /// Whether some part of the text, cut at the separator, is no abbreviation under the heading.
    pub(crate) fn lacks_part(&self, separator: u8, heading: &'a [u8], text: &'a [u8]) -> bool
        ensures { result ≡ lacks_part self.now.held separator heading.now text.now }
    {
        let mut rest = text;
        // the label is the loop's name in its proof
        'cutting: while let Some(place) = find_byte(rest, separator) {
            if !self.has(heading, &rest[..place]) {
                return true;
            }
            rest = &rest[place + 1..];
        }
        !self.has(heading, rest)
    }
}

/// Adds a pair.
fn add_pair<'a>(
    held: &mut BTreeSet<(&'a [u8], &'a [u8])>,
    heading: &'a [u8],
    text: &'a [u8],
) -> Result<(), AllocError>
    ensures { OnOk result ((h t : List ℕ) → has_pair held.new h t
        ≡ (has_pair held.old h t || is_pair h t (heading.now, text.now))) }
{
    held.insert((heading, text))?;
    Ok(())
}
