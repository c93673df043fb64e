//! Lists of entries as one text, for the index.

ghost use Rattle.std.specs.Prelude.{◌≡◌, ◌==◌, ◌<◌, ◌+◌, ◌^◌, ◌++◌, ◌∷◌, ◌↔◌, Contains, All, IfOk, OnOk, IfSome, IsTrue, Some, flat_map, map, length, position};
ghost use Rattle.ags_rows.specs.Contents.{place_in};
ghost use Rattle.ags_rows.specs.Parts.{parts_at};
ghost use Rattle.ags_links.specs.KeyTexts.{byte_text, ended_text, key_text};
ghost use Rattle.ags_links.specs.ParentRows.{text_at};
ghost use Rattle.ags_links.specs.Placing.{row_of, fields_at, ListsTexts, IsPartAmong};

use crate::placed::{PlacedRow, field};
use ags_rows::Places;
use std::alloc::{AllocError, Global};

/// Adds what is in the row at the places.
pub(crate) fn push_entries(
    out: &mut Vec<u8>,
    row: &PlacedRow<'_, '_>,
    places: &[Option<usize>],
) -> Result<(), AllocError>
    ensures { OnOk result (out.new.items ≡ out.old.items ++ text_at places.now row.now) }
{
    for place in places {
        push_text(out, field(row, *place))?;
    }
    Ok(())
}

/// Adds one text and its end.
fn push_text(out: &mut Vec<u8>, text: &[u8]) -> Result<(), AllocError>
    ensures { OnOk result (out.new.items ≡ out.old.items ++ ended_text text.now) }
{
    if is_plain(text) {
        out.extend_from_slice(text)?;
    } else {
        push_bytes(out, text)?;
    }
    out.push(END_MARK)?;
    Ok(())
}

/// Ends each text.
const END_MARK: u8 = 0;

/// The mark before a byte of a text that is a mark itself.
const ESCAPE_MARK: u8 = 1;

/// Whether no byte of the text is a mark.
fn is_plain(text: &[u8]) -> bool
    ensures { IsTrue result → All (λ byte. ESCAPE_MARK < byte) text.now }
{
    text.iter().all(|byte| *byte > ESCAPE_MARK)
}

/// Adds the bytes of a text, each mark after an escape mark.
fn push_bytes(out: &mut Vec<u8>, text: &[u8]) -> Result<(), AllocError>
    ensures { OnOk result (out.new.items ≡ out.old.items ++ flat_map byte_text text.now) }
{
    for byte in text {
        push_marked(out, *byte)?;
    }
    Ok(())
}

/// Adds a byte of a text, after an escape mark where it is a mark itself.
fn push_marked(out: &mut Vec<u8>, byte: u8) -> Result<(), AllocError>
    ensures { OnOk result (out.new.items ≡ out.old.items ++ byte_text byte) }
{
    if byte <= ESCAPE_MARK {
        out.push(ESCAPE_MARK)?;
    }
    out.push(byte)?;
    Ok(())
}

/// Adds the row's group, then what is in the row at the places of its KEY headings.
pub(crate) fn push_group_entries(
    out: &mut Vec<u8>,
    row: &PlacedRow<'_, '_>,
    keys: &[Option<usize>],
) -> Result<(), AllocError>
    ensures { OnOk result (out.new.items
        ≡ out.old.items ++ key_text ((row_of row.now).group ∷ fields_at keys.now row.now)) }
{
    let group = row.group;
    push_text(out, group.name.as_slice())?;
    push_entries(out, row, keys)
}

/// A name, then others, as one text.
pub(crate) fn names_text(
    alloc: Global,
    first: &[u8],
    others: &[&[u8]],
) -> Result<Vec<u8>, AllocError>
    ensures { IfOk result (λ text. text.items ≡ key_text (first.now ∷ map (λ n. n.now) others.now)) }
{
    let mut text = Vec::new(alloc);
    push_text(&mut text, first)?;
    for name in others {
        push_text(&mut text, name)?;
    }
    Ok(text)
}

/// The pieces of a part, as one text.
pub(crate) fn pieces_text(alloc: Global, delimiter: u8, part: &[u8]) -> Result<Vec<u8>, AllocError>
    ensures { IfOk result (λ text. text.items ≡ key_text (parts_at delimiter part.now)) }
{
    let mut text = Vec::with_capacity(alloc, ROOM)?;
    for byte in part {
        if *byte == delimiter {
            text.push(END_MARK)?;
        } else {
            push_marked(&mut text, *byte)?;
        }
    }
    text.push(END_MARK)?;
    Ok(text)
}

/// The bytes that a text is given room for at first; most have no more.
const ROOM: usize = 32;

/// The first place of the byte in the text, from 0.
pub fn find_byte(text: &[u8], byte: u8) -> Option<usize>
    ensures place { result ≡ position (λ b. b == byte) text.now }
    ensures within { IfSome result (λ place. place < length text.now) }
    ensures small { IfSome result (λ place. place + 1 < 2 ^ 64) }
{
    text.iter().position(|b| *b == byte)
}

/// Adds the parts of a text between its separators.
pub(crate) fn push_parts<'t>(
    out: &mut Vec<&'t [u8]>,
    separator: u8,
    text: &'t [u8],
) -> Result<(), AllocError>
    ensures { OnOk result (map (λ p. p.now) out.new.items
        ≡ map (λ p. p.now) out.old.items ++ parts_at separator text.now) }
{
    let mut rest = text;
    // the label is the loop's name in its proof
    'cutting: while let Some(place) = find_byte(rest, separator) {
        out.push(&rest[..place])?;
        rest = &rest[place + 1..];
    }
    out.push(rest)?;
    Ok(())
}

/// The parts of what is in the row at the places; a null has none.
pub(crate) fn link_parts<'s>(
    alloc: Global,
    separator: u8,
    row: &PlacedRow<'s, '_>,
    places: &[Option<usize>],
) -> Result<Vec<&'s [u8]>, AllocError>
    ensures { IfOk result (λ parts. ListsTexts parts.items (IsPartAmong separator (row_of row.now) places.now)) }
{
    let mut parts = Vec::new(alloc);
    for place in places {
        let text = field(row, *place);
        if !text.is_empty() {
            push_parts(&mut parts, separator, text)?;
        }
    }
    Ok(parts)
}

/// Whether the first place of the name is this place.
pub(crate) fn is_first(names: &Places<'_>, name: &[u8], place: usize) -> bool
    ensures { IsTrue result ↔ (place_in names.now name.now ≡ Some place) }
{
    match names.find(name) {
        Some(first) => first == place,
        None => false,
    }
}

/// The texts, each once.
pub(crate) fn distinct<'t>(alloc: Global, texts: Vec<&'t [u8]>) -> Result<Vec<&'t [u8]>, AllocError>
    ensures { IfOk result (λ once. ListsTexts once.items (Contains (map (λ t. t.now) texts.entry.items))) }
{
    if texts.len() < 2 {
        return Ok(texts);
    }
    let places = Places::of(alloc, texts)?;
    let mut once = Vec::new(alloc);
    let listed = places.names();
    for (place, text) in listed.iter().enumerate() {
        if is_first(&places, text, place) {
            once.push(*text)?;
        }
    }
    Ok(once)
}
