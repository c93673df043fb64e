//! Names of groups and headings.

ghost use Rattle.std.specs.Prelude.{◌≡◌, ◌==◌, ◌||◌};
ghost use Rattle.std.specs.List.{list_all};
ghost use Rattle.ags_text.specs.Bytes.{low_line};
ghost use Rattle.ags_text.specs.Names.{is_capital, is_digit, is_within, is_group_name, is_heading_name, is_definition};

/// Whether a text has at least one byte and at most so many.
pub fn is_within(text: &[u8], most: usize) -> bool
    ensures { result ≡ is_within most text.now }
{
    1 <= text.len() && text.len() <= most
}

/// Whether a group may have this name: 1 to 4 of `A` to `Z` and `0` to `9` (Rule 19).
pub fn is_group_name(name: &[u8]) -> bool
    ensures { result ≡ is_group_name name.now }
{
    is_within(name, 4) && has_group_letters(name)
}

/// Whether each byte may be in a group's name.
fn has_group_letters(name: &[u8]) -> bool
    ensures { result ≡ list_all (λ b. is_capital b || is_digit b) name.now }
{
    name.iter().all(|letter| is_group_letter(*letter))
}

/// Whether a byte may be in a group's name.
fn is_group_letter(letter: u8) -> bool
    ensures { result ≡ (is_capital letter || is_digit letter) }
{
    letter.is_ascii_uppercase() || letter.is_ascii_digit()
}

/// Whether a heading may have this name: 1 to 9 of `A` to `Z`, `0` to `9` and `_` (Rule 19a).
pub fn is_heading_name(name: &[u8]) -> bool
    ensures { result ≡ is_heading_name name.now }
{
    is_within(name, 9) && has_heading_letters(name)
}

/// Whether each byte may be in a heading's name.
fn has_heading_letters(name: &[u8]) -> bool
    ensures { result ≡ list_all (λ b. (is_capital b || is_digit b) || b == low_line) name.now }
{
    name.iter().all(|letter| is_heading_letter(*letter))
}

/// Whether a byte may be in a heading's name.
fn is_heading_letter(letter: u8) -> bool
    ensures { result ≡ ((is_capital letter || is_digit letter) || letter == low_line) }
{
    is_group_letter(letter) || letter == b'_'
}

/// Whether the group defines what the others use: TRAN, ABBR, UNIT, TYPE and DICT do.
pub fn is_definition(group: &[u8]) -> bool
    ensures { result ≡ is_definition group.now }
{
    DEFINITIONS.contains(&group)
}

/// The groups that define what the others use.
const DEFINITIONS: &[&[u8]] = &[b"TRAN", b"ABBR", b"UNIT", b"TYPE", b"DICT"];
