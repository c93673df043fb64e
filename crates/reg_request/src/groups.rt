//! The groups that a text lists, with commas between them.
ghost use Rattle.std.specs.Prelude.{◌≡◌, ◌<◌, ◌∷◌, [], IfOk, IfSome, IfNone, length};
ghost use Rattle.form_urlencoded.specs.Form.{split};
ghost use Rattle.ags_text.specs.Bytes.{comma};
ghost use Rattle.reg_desk.specs.Asked.{names_in};
ghost use Rattle.reg_request.specs.Groups.{are_group_names, groups_in};

use ags_text::is_group_name;
use std::alloc::{AllocError, Global};

/// Whether each of the groups that a text lists is the name of a group. An empty text lists none.
pub fn lists_groups(text: &[u8]) -> bool
    ensures { result ≡ are_group_names text.now }
{
    if text.is_empty() {
        return true;
    }
    let mut rest = text;
    'pieces: while let Some((piece, more)) = first_piece(rest) {
        if !is_group_name(piece) {
            return false;
        }
        rest = more;
    }
    is_group_name(rest)
}

/// The groups that a text lists; none stands for all.
pub(crate) fn groups_of<'t>(alloc: Global, text: &'t [u8]) -> Result<Vec<&'t [u8]>, AllocError>
    ensures { IfOk result (λ groups. names_in groups.items ≡ groups_in text.now) }
{
    let mut groups = Vec::new(alloc);
    if text.is_empty() {
        return Ok(groups);
    }
    let mut rest = text;
    'pieces: while let Some((piece, more)) = first_piece(rest) {
        groups.push(piece)?;
        rest = more;
    }
    groups.push(rest)?;
    Ok(groups)
}

/// The piece before the first comma, and what follows it.
fn first_piece(text: &[u8]) -> Option<(&[u8], &[u8])>
    ensures pieces { IfSome result (λ parts. split comma text.now ≡ parts.0.now ∷ split comma parts.1.now) }
    ensures shorter { IfSome result (λ parts. length parts.1.now < length text.now) }
    ensures whole { IfNone result (split comma text.now ≡ text.now ∷ []) }
{
    match text.iter().position(|b| *b == b',') {
        Some(i) => Some((&text[..i], &text[i + 1..])),
        None => None,
    }
}
