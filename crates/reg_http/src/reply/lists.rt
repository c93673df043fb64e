//! The bodies that are lists, as JSON. They are written line by line, a fixed text in one piece.
//!
//! Within quotes a day, a name and a code are written as they are, since no byte of theirs is escaped.
ghost use Rattle.std.specs.Prelude.{◌≡◌, ◌++◌, decimal, nat_lt, IfOk, OnOk};
ghost use Rattle.json.specs.Print.{escape, escape_byte};
ghost use Rattle.serde_json.specs.Data.{Data};
ghost use Rattle.serde_json.specs.Written.{comma_if, compact_text};
ghost use Rattle.ags_rows.specs.FindingLists.{finding_of};
ghost use Rattle.reg_http.specs.Bodies.{finding_data, findings_data, IsListedData, IsListingData};
ghost use Rattle.reg_http.specs.Bodies.{printed, printed_byte};

use ags_rows::{FindingList, FindingRef};
use reg_desk::Listed;
use std::alloc::{AllocError, Global};

/// The body that lists findings. Its memory has room for the whole reply.
pub(crate) fn findings_text(alloc: Global, findings: &FindingList) -> Result<Vec<u8>, AllocError>
    ensures { IfOk result (λ text. text.items ≡ compact_text (findings_data findings.now)) }
{
    let mut out = Vec::with_capacity(alloc, findings_room(findings))?;
    out.extend_from_slice(b"{\"findings\":[")?;
    for place in 0..findings.len() {
        write_comma(&mut out, place)?;
        write_finding(&mut out, findings.at(place))?;
    }
    out.extend_from_slice(b"]}")?;
    Ok(out)
}

/// The bytes of the reply at most, unless bytes of subjects are escaped.
fn findings_room(findings: &FindingList) -> usize {
    let mut room = AROUND_BYTES;
    for place in 0..findings.len() {
        let subject_bytes = findings.at(place).subject.len();
        room = room
            .saturating_add(FINDING_BYTES)
            .saturating_add(subject_bytes);
    }
    room
}

/// The bytes that a reply has at most before and after the lines of its list.
const AROUND_BYTES: usize = 141;

/// The bytes that a finding without its subject takes at most, with the comma before it.
const FINDING_BYTES: usize = 46;

/// Writes a finding of a list.
fn write_finding(out: &mut Vec<u8>, finding: FindingRef<'_>) -> Result<(), AllocError>
    ensures { OnOk result (out.new.items ≡ out.old.items ++ compact_text (finding_data (finding_of finding.entry))) }
{
    write_both(out, b"{\"code\":\"", finding.code.text())?;
    out.extend_from_slice(b"\",\"line\":")?;
    write_number(out, finding.line)?;
    out.extend_from_slice(b",\"subject\":\"")?;
    write_subject(out, finding.subject)?;
    out.extend_from_slice(b"\"}")
}

/// Writes a subject, within the quotes of a string: `?` stands for each byte that does not show.
fn write_subject(out: &mut Vec<u8>, subject: &[u8]) -> Result<(), AllocError>
    ensures { OnOk result (out.new.items ≡ out.old.items ++ escape (printed subject.now)) }
{
    for &byte in subject {
        write_shown(out, byte)?;
    }
    Ok(())
}

/// Writes a byte of a subject, within the quotes of a string.
fn write_shown(out: &mut Vec<u8>, byte: u8) -> Result<(), AllocError>
    ensures { OnOk result (out.new.items ≡ out.old.items ++ escape_byte (printed_byte byte)) }
{
    match printed_byte(byte) {
        b'"' => out.extend_from_slice(b"\\\"")?,
        b'\\' => out.extend_from_slice(b"\\\\")?,
        other => out.push(other)?,
    }
    Ok(())
}

/// A byte as it is printed: `?` stands for one that does not show.
fn printed_byte(byte: u8) -> u8
    ensures { result ≡ printed_byte byte }
{
    if byte < b' ' || b'~' < byte {
        b'?'
    } else {
        byte
    }
}

/// The body of a listing. Its memory has room for the whole reply.
pub(crate) fn listing_text(alloc: Global, listing: &[Listed]) -> Result<Vec<u8>, AllocError>
    ensures { IfOk result (λ text. (d : Data) × IsListingData listing.now d × (text.items ≡ compact_text d)) }
{
    let room = listing
        .len()
        .saturating_mul(LISTED_BYTES)
        .saturating_add(AROUND_BYTES);
    let mut out = Vec::with_capacity(alloc, room)?;
    out.extend_from_slice(b"{\"deposits\":[")?;
    for place in 0..listing.len() {
        write_comma(&mut out, place)?;
        write_listed(&mut out, &listing[place])?;
    }
    out.extend_from_slice(b"]}")?;
    Ok(out)
}

/// The bytes that a deposit takes at most, with the comma before it.
const LISTED_BYTES: usize = 87;

/// Writes a deposit of a listing.
fn write_listed(out: &mut Vec<u8>, listed: &Listed) -> Result<(), AllocError>
    ensures { OnOk result ((d : Data) × IsListedData listed.now d × (out.new.items ≡ out.old.items ++ compact_text d)) }
{
    let day = listed.embargo.text();
    let firm = listed.firm.text();
    write_both(out, b"{\"embargo\":\"", &day)?;
    write_both(out, b"\",\"firm\":\"", firm.as_bytes())?;
    out.extend_from_slice(b"\",\"number\":")?;
    write_number(out, listed.number)?;
    out.extend_from_slice(b"}")
}

/// Writes the comma before the line of a list at this place, which the first has not.
fn write_comma(out: &mut Vec<u8>, place: usize) -> Result<(), AllocError>
    ensures { OnOk result (out.new.items ≡ out.old.items ++ comma_if (nat_lt 0 place)) }
{
    if place > 0 {
        out.push(b',')?;
    }
    Ok(())
}

/// Writes two texts, one after the other.
fn write_both(out: &mut Vec<u8>, before: &[u8], text: &[u8]) -> Result<(), AllocError>
    ensures { OnOk result (out.new.items ≡ out.old.items ++ before.now ++ text.now) }
{
    out.extend_from_slice(before)?;
    out.extend_from_slice(text)
}

/// Writes a number.
fn write_number(out: &mut Vec<u8>, number: u32) -> Result<(), AllocError>
    ensures { OnOk result (out.new.items ≡ out.old.items ++ decimal number) }
{
    let mut digits = itoa::Buffer::new();
    out.extend_from_slice(digits.format(number).as_bytes())
}
