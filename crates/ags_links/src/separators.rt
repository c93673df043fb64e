//! What separates the pieces and the parts of a record link: TRAN_DLIM and TRAN_RCON.

ghost use Rattle.std.specs.Prelude.{◌≡◌, codes, option_copied};
ghost use Rattle.std.specs.List.{find};
ghost use Rattle.std.specs.Str.{bytes_eq};
ghost use Rattle.ags_rows.specs.Contents.{group_contents, contents_of};
ghost use Rattle.ags_links.specs.RecordLinks.{one_character, first_entry, tran_of, separators_of};

use ags_rows::{Group, under};

/// What separates the pieces of a part, and what separates the parts of a record link.
#[derive(Clone, Copy, Debug, PartialEq, Eq)]
pub struct Separators {
    pub delimiter: u8,
    pub concatenator: u8,
}

/// TRAN_DLIM and TRAN_RCON of TRAN's first DATA row, each where it is exactly one byte, else `|` and `+`.
pub fn separators_in(groups: &[Group<'_>]) -> Separators
    ensures { result ≡ separators_of (contents_of groups.now) }
{
    Separators {
        delimiter: one_character(tran_entry(groups, b"TRAN_DLIM"), b'|'),
        concatenator: one_character(tran_entry(groups, b"TRAN_RCON"), b'+'),
    }
}

/// The entry's byte if the entry has exactly one, else the usual one.
fn one_character(entry: &[u8], usual: u8) -> u8
    ensures { result ≡ one_character entry.now usual }
{
    match entry {
        [only] => *only,
        _ => usual,
    }
}

/// What is under a heading in TRAN's first DATA row; null where there is none.
fn tran_entry<'g>(groups: &'g [Group<'_>], heading: &[u8]) -> &'g [u8]
    ensures { result.now ≡ first_entry (tran_of (contents_of groups.now)) heading.now }
{
    match tran(groups) {
        Some(group) => first_entry(group, heading),
        None => b"",
    }
}

/// What is under a heading in the group's first DATA row; null where there is none.
fn first_entry<'g>(group: &'g Group<'_>, heading: &[u8]) -> &'g [u8]
    ensures { result.now ≡ first_entry (Some (group_contents group.now)) heading.now }
{
    match group.rows.as_slice().first() {
        Some(row) => under(group.headings.as_slice(), row.cells.as_slice(), heading),
        None => b"",
    }
}

/// The group TRAN.
fn tran<'g, 'a>(groups: &'g [Group<'a>]) -> Option<&'g Group<'a>>
    ensures { option_copied result ≡ find (λ group. bytes_eq group.name (codes "TRAN")) groups.now }
{
    groups
        .iter()
        .find(|group| group.name.as_slice() == b"TRAN".as_slice())
}
