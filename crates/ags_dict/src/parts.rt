//! A text cut at a separator.

ghost use Rattle.std.specs.Prelude.{◌≡◌};
ghost use Rattle.ags_rows.specs.Parts.{has_part};

/// Whether the text, cut at the separator, has this part.
pub(crate) fn has_separated_part(text: &[u8], separator: u8, part: &[u8]) -> bool
    ensures { result ≡ has_part separator part.now text.now }
{
    text.split(|b| *b == separator).any(|p| p == part)
}
