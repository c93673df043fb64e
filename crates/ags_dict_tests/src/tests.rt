mod caller;

use ags_dict::{DictError, Dictionary};
use ags_rows::built_in::MINI;
use ags_rows::{FindingList, READABLE, Scan};
use ags_text::Sequence;
use samples_of_tests::FILE_A;
use std::alloc::{AllocError, Global};
use std::fmt::Write;
use std::test::Fail;

/// A dictionary in the form of the published one: other groups beside DICT, and more headings in it.
const WITH_OTHER_GROUPS: &[u8] = b"\
\"GROUP\",\"PROJ\"\r\n\
\"HEADING\",\"PROJ_ID\"\r\n\
\"UNIT\",\"\"\r\n\
\"TYPE\",\"ID\"\r\n\
\"DATA\",\"Dictionary\"\r\n\
\r\n\
\"GROUP\",\"TRAN\"\r\n\
\"HEADING\",\"TRAN_ISNO\",\"TRAN_AGS\"\r\n\
\"UNIT\",\"\",\"\"\r\n\
\"TYPE\",\"X\",\"X\"\r\n\
\"DATA\",\"1\",\"4.1\"\r\n\
\r\n\
\"GROUP\",\"UNIT\"\r\n\
\"HEADING\",\"UNIT_UNIT\",\"UNIT_DESC\"\r\n\
\"UNIT\",\"\",\"\"\r\n\
\"TYPE\",\"X\",\"X\"\r\n\
\"DATA\",\"m\",\"metre\"\r\n\
\r\n\
\"GROUP\",\"TYPE\"\r\n\
\"HEADING\",\"TYPE_TYPE\",\"TYPE_DESC\"\r\n\
\"UNIT\",\"\",\"\"\r\n\
\"TYPE\",\"X\",\"X\"\r\n\
\"DATA\",\"X\",\"Text\"\r\n\
\r\n\
\"GROUP\",\"ABBR\"\r\n\
\"HEADING\",\"ABBR_HDNG\",\"ABBR_CODE\",\"ABBR_DESC\"\r\n\
\"UNIT\",\"\",\"\",\"\"\r\n\
\"TYPE\",\"X\",\"X\",\"X\"\r\n\
\"DATA\",\"DICT_TYPE\",\"GROUP\",\"A group\"\r\n\
\r\n\
\"GROUP\",\"DICT\"\r\n\
\"HEADING\",\"DICT_TYPE\",\"DICT_GRP\",\"DICT_HDNG\",\"DICT_STAT\",\"DICT_DTYP\",\"DICT_DESC\",\"DICT_UNIT\",\"DICT_EXMP\",\"DICT_PGRP\"\r\n\
\"UNIT\",\"\",\"\",\"\",\"\",\"\",\"\",\"\",\"\",\"\"\r\n\
\"TYPE\",\"PA\",\"X\",\"X\",\"PA\",\"PT\",\"X\",\"PU\",\"X\",\"X\"\r\n\
\"DATA\",\"GROUP\",\"LOCA\",\"\",\"\",\"\",\"Location Details\",\"\",\"\",\"PROJ\"\r\n\
\"DATA\",\"HEADING\",\"LOCA\",\"LOCA_ID\",\"KEY+REQUIRED\",\"ID\",\"Location identifier\",\"\",\"327/16A\",\"\"\r\n\
\"DATA\",\"HEADING\",\"LOCA\",\"LOCA_GL\",\"OTHER\",\"2DP\",\"Ground level\",\"m\",\"16.23\",\"\"\r\n\
";

/// A file whose DICT restates LOCA and LOCA_ID, and adds a heading and a group.
const OWN_DICT: &[u8] = b"\
\"GROUP\",\"DICT\"\r\n\
\"HEADING\",\"DICT_TYPE\",\"DICT_GRP\",\"DICT_HDNG\",\"DICT_STAT\",\"DICT_PGRP\"\r\n\
\"UNIT\",\"\",\"\",\"\",\"\",\"\"\r\n\
\"TYPE\",\"X\",\"X\",\"X\",\"X\",\"X\"\r\n\
\"DATA\",\"GROUP\",\"LOCA\",\"\",\"\",\"SAMP\"\r\n\
\"DATA\",\"HEADING\",\"LOCA\",\"LOCA_ID\",\"OTHER\",\"\"\r\n\
\"DATA\",\"HEADING\",\"LOCA\",\"LOCA_XTRA\",\"KEY\",\"\"\r\n\
\"DATA\",\"HEADING\",\"LOCA\",\"LOCA_XTRA\",\"REQUIRED\",\"\"\r\n\
\"DATA\",\"GROUP\",\"NEWG\",\"\",\"\",\"LOCA\"\r\n\
\"DATA\",\"HEADINGS\",\"NEWG\",\"NEWG_ID\",\"KEY\",\"\"\r\n\
";

/// The first four lines of MINI.
const HEADER: &[u8] = b"\
\"GROUP\",\"DICT\"\r\n\
\"HEADING\",\"DICT_TYPE\",\"DICT_GRP\",\"DICT_HDNG\",\"DICT_STAT\",\"DICT_PGRP\"\r\n\
\"UNIT\",\"\",\"\",\"\",\"\",\"\"\r\n\
\"TYPE\",\"X\",\"X\",\"X\",\"X\",\"X\"\r\n\
";

/// Where a dictionary comes from.
#[derive(Clone, Copy)]
enum Source {
    Mini,
    /// `WITH_OTHER_GROUPS`.
    OtherGroups,
    File(&'static [u8]),
    /// MINI with each part that is the first text replaced by the second.
    Replaced(&'static [u8], &'static [u8]),
    /// MINI without its last column.
    Narrowed,
    /// MINI, extended by `OWN_DICT`.
    Extended,
}

/// MINI with each part that is `old` replaced: nothing where it has none.
fn replaced(alloc: Global, old: &[u8], new: &[u8]) -> Result<Vec<u8>, AllocError> {
    let mut text = Vec::new(alloc);
    let mut skipped = 0usize;
    let mut is_found = false;
    for (i, byte) in MINI.iter().enumerate() {
        if skipped > 0 {
            skipped -= 1;
        } else if MINI[i..].starts_with(old) && old.len() > 0 {
            text.extend_from_slice(new)?;
            skipped = old.len() - 1;
            is_found = true;
        } else {
            text.push(*byte)?;
        }
    }
    if !is_found {
        text.clear();
    }
    Ok(text)
}

/// MINI, all but the first line without their last field.
fn narrowed(alloc: Global) -> Result<Vec<u8>, AllocError> {
    let mut text = Vec::new(alloc);
    let mut last = 0usize;
    let mut number = 1usize;
    for byte in MINI {
        match *byte {
            b',' => last = text.len(),
            b'\r' if number > 1 => text.truncate(last),
            b'\n' => number = number.saturating_add(1),
            _ => {}
        }
        text.push(*byte)?;
    }
    Ok(text)
}

/// The dictionary that bytes are.
fn read(alloc: Global, bytes: &[u8]) -> Result<Dictionary, DictError> {
    if bytes.len() > READABLE {
        return Err(DictError::NoMemory);
    }
    Dictionary::read(alloc, bytes)
}

/// The groups of `OWN_DICT`.
fn own_groups(alloc: Global) -> Result<Scan<'static>, DictError> {
    match Scan::read(alloc, OWN_DICT) {
        Ok(scan) => Ok(scan),
        Err(_error) => Err(DictError::NoMemory),
    }
}

/// MINI, extended by groups.
fn extended_by(alloc: Global, scan: &Scan) -> Result<Dictionary, DictError> {
    let mini = read(alloc, MINI)?;
    Ok(mini.extend(scan)?)
}

/// MINI, extended by `OWN_DICT`.
fn extended(alloc: Global) -> Result<Dictionary, DictError> {
    let scan = own_groups(alloc)?;
    extended_by(alloc, &scan)
}

/// The dictionary of a source.
fn dictionary(alloc: Global, source: Source) -> Result<Dictionary, DictError> {
    match source {
        Source::Mini => read(alloc, MINI),
        Source::OtherGroups => read(alloc, WITH_OTHER_GROUPS),
        Source::File(bytes) => read(alloc, bytes),
        Source::Replaced(old, new) => read(alloc, replaced(alloc, old, new)?.as_slice()),
        Source::Narrowed => read(alloc, narrowed(alloc)?.as_slice()),
        Source::Extended => extended(alloc),
    }
}

/// Appends texts, each with a space after it, and a stroke.
fn push_texts(text: &mut Vec<u8>, texts: Result<Vec<&[u8]>, AllocError>) -> Result<(), AllocError> {
    for part in &texts? {
        text.extend_from_slice(part)?;
        text.push(b' ')?;
    }
    text.push(b'/')?;
    Ok(())
}

/// What a dictionary says of a group: its order, its keys, its required headings and its parent.
fn said(alloc: Global, dictionary: &Dictionary, group: &[u8]) -> Result<Vec<u8>, AllocError> {
    let mut text = Vec::new(alloc);
    push_texts(&mut text, dictionary.order(group))?;
    push_texts(&mut text, dictionary.keys(group))?;
    push_texts(&mut text, dictionary.required(group))?;
    text.extend_from_slice(dictionary.parent(group).unwrap_or(b"none"))?;
    Ok(text)
}

/// A source, a group, and what is said of it.
type Said = (Source, &'static [u8], &'static [u8]);

static SAID: &[Said] = &[
    (
        Source::Mini,
        b"LNMC",
        b"LOCA_ID SAMP_TOP SAMP_REF SPEC_DPTH LNMC_MC /LOCA_ID SAMP_TOP SAMP_REF SPEC_DPTH //SAMP",
    ),
    (
        Source::Mini,
        b"LOCA",
        b"LOCA_ID LOCA_TYPE LOCA_STAT LOCA_GL FILE_FSET /LOCA_ID /LOCA_ID /PROJ",
    ),
    (
        Source::Mini,
        b"FILE",
        b"FILE_FSET FILE_NAME FILE_DESC /FILE_FSET FILE_NAME //none",
    ),
    (
        Source::Mini,
        b"PROJ",
        b"PROJ_ID PROJ_NAME FILE_FSET /PROJ_ID /PROJ_ID /none",
    ),
    (Source::Mini, b"NONE", b"///none"),
    (
        Source::Replaced(b"KEY+REQUIRED", b"KEY + REQUIRED"),
        b"PROJ",
        b"PROJ_ID PROJ_NAME FILE_FSET ///none",
    ),
    (
        Source::Replaced(b"KEY+REQUIRED", b"NONKEY+REQUIRED+"),
        b"PROJ",
        b"PROJ_ID PROJ_NAME FILE_FSET //PROJ_ID /none",
    ),
    (
        Source::Replaced(
            b"\"GROUP\",\"FILE\",\"\",\"\",\"-\"",
            b"\"GROUP\",\"FILE\",\"\",\"\",\"PROJ\"",
        ),
        b"FILE",
        b"FILE_FSET FILE_NAME FILE_DESC /FILE_FSET FILE_NAME //none",
    ),
    // there are other groups beside DICT
    (
        Source::OtherGroups,
        b"LOCA",
        b"LOCA_ID LOCA_GL /LOCA_ID /LOCA_ID /PROJ",
    ),
    // a file's own entries come last
    (
        Source::Extended,
        b"LOCA",
        b"LOCA_ID LOCA_TYPE LOCA_STAT LOCA_GL FILE_FSET LOCA_XTRA /LOCA_ID LOCA_XTRA /LOCA_ID /PROJ",
    ),
    (Source::Extended, b"NEWG", b"///LOCA"),
];

/// Whether a dictionary says what it should.
fn is_said(alloc: Global, said_of: &Said) -> Result<bool, DictError> {
    let (source, group, want) = said_of;
    let dictionary = dictionary(alloc, *source)?;
    Ok(said(alloc, &dictionary, group)?.as_slice() == *want)
}

#[test]
fn groups(rt: HostRuntime) -> Result<(), Fail> {
    for said_of in SAID {
        assert!(rt; is_said(rt.alloc(), said_of)?);
    }
    Ok(())
}

/// A source, a group and a heading; its place in the order, whether the group is one,
/// and whether another group has the heading.
type Asked = (
    Source,
    &'static [u8],
    &'static [u8],
    Option<usize>,
    bool,
    bool,
);

static ASKED: &[Asked] = &[
    (Source::Mini, b"LNMC", b"SPEC_DPTH", Some(3), true, false),
    (Source::Mini, b"LNMC", b"LNMC_MC", Some(4), true, false),
    (Source::Mini, b"SAMP", b"LOCA_ID", Some(0), true, true),
    (Source::Mini, b"LNM", b"LOCA_ID", None, false, true),
    (
        Source::Extended,
        b"LOCA",
        b"LOCA_XTRA",
        Some(5),
        true,
        false,
    ),
    (Source::Extended, b"SAMP", b"LOCA_XTRA", None, true, true),
];

/// Whether a dictionary answers what it should.
fn is_answered(alloc: Global, asked: &Asked) -> Result<bool, DictError> {
    let (source, group, heading, place, is_group, is_elsewhere) = asked;
    let dictionary = dictionary(alloc, *source)?;
    Ok(
        dictionary.place_in_order(group, heading) == *place
            && dictionary.has_group(group) == *is_group
            && dictionary.elsewhere(group, heading) == *is_elsewhere,
    )
}

/// Whether a dictionary has so many groups and headings.
fn has_counts(
    alloc: Global,
    source: Source,
    groups: usize,
    headings: usize,
) -> Result<bool, DictError> {
    let dictionary = dictionary(alloc, source)?;
    Ok(dictionary.group_count() == groups && dictionary.heading_count() == headings)
}

#[test]
fn questions(rt: HostRuntime) -> Result<(), Fail> {
    for asked in ASKED {
        assert!(rt; is_answered(rt.alloc(), asked)?);
    }
    assert!(rt; has_counts(rt.alloc(), Source::Mini, 10, 38)?);
    assert!(rt; has_counts(rt.alloc(), Source::Extended, 11, 39)?);
    Ok(())
}

/// Findings as they are printed.
fn printed(alloc: Global, findings: &FindingList) -> Result<String, AllocError> {
    let mut text = String::new(alloc);
    for place in 0..findings.len() {
        let finding = findings.at(place);
        let line = finding.line;
        let code = String::from_utf8_lossy(alloc, finding.code.text())?;
        let subject = String::from_utf8_lossy(alloc, finding.subject)?;
        write!(text, "{code} {line} {subject};")?;
    }
    Ok(text)
}

/// Why there is no dictionary: nothing where there is one.
fn refusal(alloc: Global, source: Source) -> Result<String, AllocError> {
    match dictionary(alloc, source) {
        Ok(_dictionary) => Ok(String::new(alloc)),
        Err(DictError::NotDictionary(found)) => printed(alloc, &found),
        Err(DictError::NoDict) => String::from_str(alloc, "no DICT"),
        Err(DictError::MissingHeading) => String::from_str(alloc, "missing heading"),
        Err(DictError::NoMemory) => String::from_str(alloc, "no memory"),
    }
}

/// Sources, and why each is no dictionary: nothing where it is one.
static REFUSALS: &[(Source, &str)] = &[
    (Source::File(FILE_A), "no DICT"),
    (Source::File(b""), "2 0 ;"),
    (Source::File(HEADER), "2 1 DICT;"),
    (Source::Narrowed, "missing heading"),
    // a row twice
    (
        Source::Replaced(
            b"\"DATA\",\"GROUP\",\"PROJ\",\"\",\"\",\"-\"\r\n",
            b"\"DATA\",\"GROUP\",\"PROJ\",\"\",\"\",\"-\"\r\n\"DATA\",\"GROUP\",\"PROJ\",\"\",\"\",\"-\"\r\n",
        ),
        "",
    ),
    // the last row away
    (
        Source::Replaced(
            b"\"DATA\",\"HEADING\",\"LNMC\",\"LNMC_MC\",\"OTHER\",\"\"\r\n",
            b"",
        ),
        "",
    ),
    // Rules 1 and 2a
    (Source::Replaced(b"\r\n", b"\n"), ""),
    (Source::Replaced(b"PROJ_NAME", b"PROJ_NAM\xC3\xA9"), ""),
];

#[test]
fn refusals(rt: HostRuntime) -> Result<(), Fail> {
    for (source, want) in REFUSALS {
        assert!(rt; refusal(rt.alloc(), *source)?.as_str() == *want);
    }
    Ok(())
}

/// Appends a refusal, as it is displayed and as it is debugged.
fn push_words(text: &mut String, refusal: &DictError) -> Result<(), AllocError> {
    write!(text, "{refusal}, {refusal:?}; ")?;
    Ok(())
}

/// The words of each refusal.
fn words(alloc: Global) -> Result<String, AllocError> {
    let mut text = String::new(alloc);
    let findings = FindingList::none(alloc);
    push_words(&mut text, &DictError::NotDictionary(findings))?;
    push_words(&mut text, &DictError::NoDict)?;
    push_words(&mut text, &DictError::MissingHeading)?;
    push_words(&mut text, &DictError::NoMemory)?;
    Ok(text)
}

const WORDS: &str = "\
not a dictionary, not a dictionary; \
no group DICT, no group DICT; \
a heading of DICT is missing, a heading of DICT is missing; \
out of memory, out of memory; ";

#[test]
fn refusals_as_printed(rt: HostRuntime) -> Result<(), Fail> {
    assert!(rt; words(rt.alloc())?.as_str() == WORDS);
    Ok(())
}
