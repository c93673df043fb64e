//! What is requested from a desk, and what is printed of its answer.

ghost use Rattle.std.specs.Prelude.{◌≡◌, ◌++◌, IfOk, codes, decimal};
ghost use Rattle.reg_desk.specs.Asked.{asked};
ghost use Rattle.reg_cli.specs.Asking.{AsksDesk};
ghost use Rattle.reg_cli.specs.Printing.{IsListedLine, IsReceipt, ListsAs, ReportsAnswer, dated_line};

use crate::error::Failure;
use ags_cli::{Report, Watched, findings_report};
use ags_rows::FindingList;
use ags_text::Sequence;
use reg_desk::{Answer, Desk, Listed, Request};
use reg_policy::Day;
use reg_store::Keep;
use std::alloc::{AllocError, Global};
use std::io::Write;

/// Calls the desk, and prints its answer. It is refused only when out of memory: then nothing is printed, and the desk
/// is as its answer left it.
pub fn ask_desk<'w, K: Keep, W: Write>(
    alloc: Global,
    desk: &mut Desk<K>,
    request: &Request<'_>,
    out: &mut Watched<W>,
) -> Result<u8, Failure<'w>>
    ensures { AsksDesk W.Write (asked request.entry.now) desk.old desk.new out.old out.new result }
{
    let answer = desk.answer(alloc, request);
    let report = answer_report(alloc, answer)?;
    Ok(report.print(out))
}

/// What is printed of an answer, and the status that the run ends with.
fn answer_report(alloc: Global, answer: Answer) -> Result<Report, AllocError>
    ensures { IfOk result (λ report. ReportsAnswer answer report) }
{
    match answer {
        Answer::Receipt { number, embargo } => receipt_report(alloc, number, embargo),
        Answer::Clean => findings_report(alloc, &FindingList::none(alloc)),
        Answer::Findings(found) => findings_report(alloc, &found),
        Answer::Listing(listing) => listing_report(alloc, listing.as_slice()),
        Answer::Text(text) => Ok(Report { text, status: 0 }),
        Answer::Withdrawn(number) => number_report(alloc, b"withdrawn ", number, 0),
        Answer::Denied(number) => number_report(alloc, b"denied ", number, 2),
        Answer::Unknown => said(alloc, b"unknown\n", 3),
        Answer::TooLarge => said(alloc, b"too large\n", 4),
        Answer::Full => said(alloc, b"full\n", 5),
        Answer::NoMemory => said(alloc, b"out of memory\n", 5),
        Answer::StoreFailed => said(alloc, b"store failed\n", 5),
    }
}

fn receipt_report(alloc: Global, number: u32, embargo: Day) -> Result<Report, AllocError>
    ensures { IfOk result (λ report. IsReceipt number embargo report.text × (report.status ≡ 0)) }
{
    let day = embargo.text();
    let text = dated_receipt(alloc, number, &day)?;
    Ok(Report {
        text: Sequence::from_vec(text),
        status: 0,
    })
}

/// A receipt with the text of its embargo day.
fn dated_receipt(alloc: Global, number: u32, embargo: &[u8]) -> Result<Vec<u8>, AllocError>
    ensures { IfOk result (λ text.
        text.items ≡ codes "receipt " ++ decimal number ++ codes " " ++ embargo.now ++ codes "\n") }
{
    let mut text = Vec::new(alloc);
    write!(text, "receipt {number} ").map_err(|_| AllocError)?;
    text.extend_from_slice(embargo)?;
    text.push(b'\n')?;
    Ok(text)
}

/// A word and a number, and the status that the run ends with.
fn number_report(alloc: Global, word: &[u8], number: u32, status: u8) -> Result<Report, AllocError>
    ensures { IfOk result (λ report.
        (report.text ≡ word.now ++ decimal number ++ codes "\n") × (report.status ≡ status)) }
{
    let mut text = Vec::from_slice(alloc, word)?;
    writeln!(text, "{number}").map_err(|_| AllocError)?;
    Ok(Report {
        text: Sequence::from_vec(text),
        status,
    })
}

/// A text that is printed, and the status that the run ends with.
fn said(alloc: Global, text: &[u8], status: u8) -> Result<Report, AllocError>
    ensures { IfOk result (λ report. (report.text ≡ text.now) × (report.status ≡ status)) }
{
    Ok(Report {
        text: Sequence::from_vec(Vec::from_slice(alloc, text)?),
        status,
    })
}

fn listing_report(alloc: Global, listing: &[Listed]) -> Result<Report, AllocError>
    ensures { IfOk result (λ report. ListsAs listing.now report.text × (report.status ≡ 0)) }
{
    let mut text = Vec::new(alloc);
    for listed in listing {
        let line = printed_line(alloc, listed)?;
        text.extend_from_slice(line.as_slice())?;
    }
    Ok(Report {
        text: Sequence::from_vec(text),
        status: 0,
    })
}

/// The line of a deposit.
fn printed_line(alloc: Global, listed: &Listed) -> Result<Vec<u8>, AllocError>
    ensures { IfOk result (λ line. IsListedLine listed.now line.items) }
{
    let day = listed.embargo.text();
    dated_line(alloc, listed, &day)
}

/// The line of a deposit, with the text of its embargo day.
fn dated_line(alloc: Global, listed: &Listed, embargo: &[u8]) -> Result<Vec<u8>, AllocError>
    ensures { IfOk result (λ line. line.items ≡ dated_line listed.now embargo.now) }
{
    let mut line = Vec::new(alloc);
    write!(line, "{} ", listed.number).map_err(|_| AllocError)?;
    line.extend_from_slice(listed.firm.text().as_bytes())?;
    line.push(b' ')?;
    line.extend_from_slice(embargo)?;
    line.push(b'\n')?;
    Ok(line)
}
