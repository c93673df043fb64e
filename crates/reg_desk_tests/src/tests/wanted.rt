//! Whether an answer is what an example wants.

use super::{Body, Line, Want, bytes_of};
use ags_rows::FindingList;
use reg_desk::{Answer, Listed};
use reg_policy::Day;
use std::alloc::{AllocError, Global};

/// The name of an answer that holds nothing.
pub(super) fn name_of(answer: &Answer) -> &'static str {
    match answer {
        Answer::Clean => "clean",
        Answer::Unknown => "unknown",
        Answer::TooLarge => "too large",
        Answer::Full => "full",
        Answer::NoMemory => "out of memory",
        Answer::StoreFailed => "store failed",
        _ => "",
    }
}

/// Whether a day has this text.
fn is_day(day: Day, text: &str) -> bool {
    day.text().as_slice() == text.as_bytes()
}

/// Whether it is the receipt of this number, until this day under embargo.
pub(super) fn is_receipt(answer: &Answer, receipt: u32, until: &str) -> bool {
    match answer {
        Answer::Receipt { number, embargo } => *number == receipt && is_day(*embargo, until),
        _ => false,
    }
}

/// Whether this rule denies it.
fn is_denied(answer: &Answer, rule: u32) -> bool {
    match answer {
        Answer::Denied(by) => *by == rule,
        _ => false,
    }
}

/// Whether there is one finding: of this code, at this line, of no subject.
fn is_only(found: &FindingList, code: &str, line: u32) -> bool {
    if found.len() != 1 {
        return false;
    }
    let one = found.at(0);
    one.code.text() == code.as_bytes() && one.line == line && one.subject.is_empty()
}

/// Whether it is that one finding.
fn is_finding(answer: &Answer, code: &str, line: u32) -> bool {
    match answer {
        Answer::Findings(found) => is_only(found, code, line),
        _ => false,
    }
}

/// Whether the deposit of a listing is this.
fn is_line(listed: &Listed, line: &Line) -> bool {
    listed.number == line.0 && listed.firm.text() == line.1 && is_day(listed.embargo, line.2)
}

/// Whether the deposit at a place is this.
fn is_line_at(listed: &[Listed], place: usize, line: &Line) -> bool {
    match listed.get(place) {
        Some(listed) => is_line(listed, line),
        None => false,
    }
}

/// Whether the deposits are these.
fn are_lines(listed: &[Listed], lines: &[Line]) -> bool {
    let mut count = 0usize;
    for line in lines {
        if !is_line_at(listed, count, line) {
            return false;
        }
        count = count.saturating_add(1);
    }
    listed.len() == count
}

/// Whether it lists these deposits.
pub(super) fn is_listing(answer: &Answer, lines: &[Line]) -> bool {
    match answer {
        Answer::Listing(listed) => are_lines(listed.as_slice(), lines),
        _ => false,
    }
}

/// Whether it is the text of this body.
fn gives(alloc: Global, answer: &Answer, body: &Body) -> Result<bool, AllocError> {
    match answer {
        Answer::Text(text) => Ok(text.as_slice() == bytes_of(alloc, body)?.as_slice()),
        _ => Ok(false),
    }
}

/// Whether the deposit of this number is withdrawn.
pub(super) fn is_withdrawn(answer: &Answer, number: u32) -> bool {
    match answer {
        Answer::Withdrawn(withdrawn) => *withdrawn == number,
        _ => false,
    }
}

/// Whether the answer is what is wanted.
pub(super) fn is_wanted(alloc: Global, answer: &Answer, want: &Want) -> Result<bool, AllocError> {
    match want {
        Want::Says(name) => Ok(name_of(answer) == *name),
        Want::Receipt(number, until) => Ok(is_receipt(answer, *number, until)),
        Want::Denied(rule) => Ok(is_denied(answer, *rule)),
        Want::Finding(code, line) => Ok(is_finding(answer, code, *line)),
        Want::Lists(lines) => Ok(is_listing(answer, lines)),
        Want::Gives(body) => gives(alloc, answer, body),
        Want::Withdrawn(number) => Ok(is_withdrawn(answer, *number)),
    }
}

/// Whether the answer at a place is what is wanted.
fn is_wanted_at(
    alloc: Global,
    answers: &[Answer],
    place: usize,
    want: &Want,
) -> Result<bool, AllocError> {
    match answers.get(place) {
        Some(answer) => is_wanted(alloc, answer, want),
        None => Ok(false),
    }
}

/// How many answers are wanted before the first that is not.
pub(super) fn count_wanted(
    alloc: Global,
    answers: &[Answer],
    wants: &[Want],
) -> Result<usize, AllocError> {
    let mut count = 0usize;
    for want in wants {
        match is_wanted_at(alloc, answers, count, want) {
            Ok(true) => count = count.saturating_add(1),
            Ok(false) => return Ok(count),
            Err(error) => return Err(error),
        }
    }
    Ok(count)
}
