//! What `check` and `findings` answer, as it is printed.

mod caller;
mod headers;
mod rows;

use ags_check::{CheckError, check, findings};
use ags_dict::Dictionary;
use ags_rows::built_in::MINI;
use ags_rows::{FindingList, READABLE};
use samples_of_tests::{FILE_A, FILE_B, FILE_C};
use std::alloc::{AllocError, Global};
use std::fmt::Write;

/// New lines in place of those from the first to the last.
#[derive(Drop)]
pub(crate) struct Edit {
    pub(crate) first: usize,
    pub(crate) last: usize,
    pub(crate) lines: &'static str,
}

/// Appends the new lines that begin at a line.
fn push_edits(text: &mut Vec<u8>, edits: &[Edit], line: usize) -> Result<(), AllocError> {
    for edit in edits {
        if edit.first == line {
            text.extend_from_slice(edit.lines.as_bytes())?;
        }
    }
    Ok(())
}

/// Whether there are others in place of a line.
fn is_replaced(edits: &[Edit], line: usize) -> bool {
    for edit in edits {
        if edit.first <= line && line <= edit.last {
            return true;
        }
    }
    false
}

/// A file with lines of its own in place of others; the edits are in the order of the lines.
fn edited(alloc: Global, file: &[u8], edits: &[Edit]) -> Result<Vec<u8>, AllocError> {
    let mut text = Vec::new(alloc);
    let mut line = 1usize;
    let mut begins = true;
    for byte in file {
        if begins {
            push_edits(&mut text, edits, line)?;
        }
        if !is_replaced(edits, line) {
            text.push(*byte)?;
        }
        begins = *byte == b'\n';
        if begins {
            line = line.saturating_add(1);
        }
    }
    push_edits(&mut text, edits, line)?;
    Ok(text)
}

/// A finding's subject as it is printed.
fn shown(subject: &str) -> &str {
    if subject.is_empty() { "-" } else { subject }
}

/// The findings as they are printed.
fn listed(alloc: Global, findings: &FindingList) -> Result<String, AllocError> {
    let mut text = String::new(alloc);
    for place in 0..findings.len() {
        let finding = findings.at(place);
        let line = finding.line;
        let code = String::from_utf8_lossy(alloc, finding.code.text())?;
        let subject = String::from_utf8_lossy(alloc, finding.subject)?;
        let subject = shown(subject.as_str());
        write!(text, "{code} {line} {subject};")?;
    }
    Ok(text)
}

/// Why a file is not taken, as it is printed.
fn printed(alloc: Global, refusal: CheckError) -> Result<String, AllocError> {
    match refusal {
        CheckError::Findings(found) => listed(alloc, &found),
        CheckError::NoMemory => String::from_str(alloc, "out of memory"),
    }
}

/// The dictionary that the files are checked under.
fn dictionary(alloc: Global) -> Option<Dictionary> {
    let mini = MINI;
    if mini.len() > READABLE {
        return None;
    }
    Dictionary::read(alloc, mini).ok()
}

/// What `check` answers of a file, as it is printed.
fn checked(alloc: Global, mini: &Dictionary, file: &[u8]) -> Result<String, AllocError> {
    if file.len() > READABLE {
        return String::from_str(alloc, "too large");
    }
    match check(alloc, mini, file) {
        Ok(_checked) => String::from_str(alloc, "clean"),
        Err(refusal) => printed(alloc, refusal),
    }
}

/// What `findings` answers of a file, as it is printed.
fn found(alloc: Global, mini: &Dictionary, file: &[u8]) -> Result<String, AllocError> {
    if file.len() > READABLE {
        return String::from_str(alloc, "too large");
    }
    let found = findings(alloc, mini, file)?;
    if found.is_empty() {
        return String::from_str(alloc, "clean");
    }
    listed(alloc, &found)
}

/// The file that is edited.
#[derive(Clone, Copy)]
pub(crate) enum Base {
    A,
    B,
    C,
    Empty,
}

/// The bytes of the file.
fn bytes_of(base: Base) -> &'static [u8] {
    match base {
        Base::A => FILE_A,
        Base::B => FILE_B,
        Base::C => FILE_C,
        Base::Empty => b"",
    }
}

/// A file with edits, and what is printed of it.
#[derive(Drop)]
pub(crate) struct Case {
    pub(crate) name: &'static str,
    pub(crate) file: Base,
    pub(crate) edits: &'static [Edit],
    pub(crate) want: &'static str,
}

/// Whether a case's file is answered as wanted.
fn agrees(alloc: Global, mini: &Dictionary, case: &Case) -> bool {
    match edited(alloc, bytes_of(case.file), case.edits) {
        Ok(file) => is_answered(alloc, mini, file.as_slice(), case.want),
        Err(_) => false,
    }
}

/// Whether `check` and `findings` answer a file as wanted.
fn is_answered(alloc: Global, mini: &Dictionary, file: &[u8], want: &str) -> bool {
    match (checked(alloc, mini, file), found(alloc, mini, file)) {
        (Ok(checked), Ok(found)) => checked.as_str() == want && found.as_str() == want,
        _ => false,
    }
}

/// The first case that is not answered as wanted.
fn first_wrong(alloc: Global, mini: &Dictionary, cases: &[Case]) -> Option<&'static str> {
    for case in cases {
        if !agrees(alloc, mini, case) {
            return Some(case.name);
        }
    }
    None
}

/// The same, under MINI.
fn wrong(alloc: Global, cases: &[Case]) -> Option<&'static str> {
    match dictionary(alloc) {
        Some(mini) => first_wrong(alloc, &mini, cases),
        None => Some("the dictionary"),
    }
}

#[test]
fn headers_and_rows_are_checked(rt: HostRuntime) {
    for cases in [
        headers::UNKNOWN,
        headers::ORDERS,
        headers::NEEDED,
        rows::KEYS,
        rows::LISTED,
        rows::LINKS,
    ] {
        if let Some(name) = wrong(rt.alloc(), cases) {
            panic!(rt; "{name}");
        }
    }
}

/// What a file that ends early is answered by, if it is cut within a line that it can do without.
fn want_of(bytes: usize) -> Option<&'static str> {
    match bytes {
        464 | 466 | 468 | 541 | 543 => Some("clean"),
        465 => Some("6 24 -;"),
        467 => Some("6 25 -;"),
        542 => Some("6 30 -;"),
        _ => None,
    }
}

/// Whether a file that ends early is answered as wanted, and is not clean where it cannot do without its end.
fn ends(alloc: Global, mini: &Dictionary, file: &[u8]) -> bool {
    match (checked(alloc, mini, file), want_of(file.len())) {
        (Ok(found), Some(want)) => found.as_str() == want,
        (Ok(found), None) => found.as_str() != "clean",
        (Err(_), _) => false,
    }
}

/// The first length of a file at which it is not answered as wanted.
fn first_wrong_end(alloc: Global, mini: &Dictionary, file: &[u8]) -> Option<usize> {
    for (bytes, _byte) in file.iter().enumerate() {
        if !ends(alloc, mini, &file[..bytes]) {
            return Some(bytes);
        }
    }
    if ends(alloc, mini, file) {
        None
    } else {
        Some(file.len())
    }
}

/// The same, under MINI.
fn wrong_end(alloc: Global, file: &[u8]) -> Option<usize> {
    match dictionary(alloc) {
        Some(mini) => first_wrong_end(alloc, &mini, file),
        None => Some(file.len()),
    }
}

#[test]
fn files_end_early(rt: HostRuntime) {
    if let Some(bytes) = wrong_end(rt.alloc(), FILE_A) {
        panic!(rt; "{bytes} bytes");
    }
}

/// Two rows over three that share no KEY heading with them, so that each is a parent of each.
const ALL_PARENTS: [Edit; 1] = [Edit {
    first: 26,
    last: 30,
    lines: "\"GROUP\",\"AAAA\"\r\n\"HEADING\",\"AAAA_ID\"\r\n\"UNIT\",\"\"\r\n\"TYPE\",\"X\"\r\n\"DATA\",\"1\"\r\n\"DATA\",\"2\"\r\n\"DATA\",\"3\"\r\n\r\n\"GROUP\",\"BBBB\"\r\n\"HEADING\",\"BBBB_ID\"\r\n\"UNIT\",\"\"\r\n\"TYPE\",\"X\"\r\n\"DATA\",\"1\"\r\n\"DATA\",\"2\"\r\n\r\n\"GROUP\",\"DICT\"\r\n\"HEADING\",\"DICT_TYPE\",\"DICT_GRP\",\"DICT_HDNG\",\"DICT_STAT\",\"DICT_PGRP\"\r\n\"UNIT\",\"\",\"\",\"\",\"\",\"\"\r\n\"TYPE\",\"X\",\"X\",\"X\",\"X\",\"X\"\r\n\"DATA\",\"GROUP\",\"AAAA\",\"\",\"\",\"-\"\r\n\"DATA\",\"HEADING\",\"AAAA\",\"AAAA_ID\",\"KEY\",\"\"\r\n\"DATA\",\"GROUP\",\"BBBB\",\"\",\"\",\"AAAA\"\r\n\"DATA\",\"HEADING\",\"BBBB\",\"BBBB_ID\",\"KEY\",\"\"\r\n",
}];

/// How many steps the graph of a file has, if the file is clean.
fn steps_of(alloc: Global, mini: &Dictionary, file: &[u8]) -> Option<usize> {
    if file.len() > READABLE {
        return None;
    }
    match check(alloc, mini, file) {
        Ok(checked) => Some(checked.graph().steps().len()),
        Err(_) => None,
    }
}

/// The same, under MINI.
fn steps_under(alloc: Global, file: &[u8]) -> Option<usize> {
    match dictionary(alloc) {
        Some(mini) => steps_of(alloc, &mini, file),
        None => None,
    }
}

/// How many steps the graph of FILE_A with edits has.
fn steps_with(alloc: Global, edits: &[Edit]) -> Option<usize> {
    match edited(alloc, FILE_A, edits) {
        Ok(file) => steps_under(alloc, file.as_slice()),
        Err(_) => None,
    }
}

#[test]
fn rows_without_link_headings_have_all_parents(rt: HostRuntime) {
    assert!(rt; steps_with(rt.alloc(), &ALL_PARENTS) == Some(6));
}

/// Prints a refusal, and shows it to a programmer.
fn print(text: &mut String, refusal: &CheckError) -> Result<(), AllocError> {
    Ok(write!(text, "{refusal}; {refusal:?}.")?)
}

#[test]
fn refusals_as_printed(rt: HostRuntime) {
    let findings = CheckError::Findings(FindingList::none(rt.alloc()));
    let mut text = String::new(rt.alloc());
    assert!(rt; print(&mut text, &findings).is_ok());
    assert!(rt; print(&mut text, &CheckError::NoMemory).is_ok());
    assert!(rt; text.as_str() == "the file has findings; Findings(0).out of memory; NoMemory.");
}
