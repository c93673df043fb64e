use crate::tests::{Read, scan};
use ags_rows::built_in::MINI;
use ags_rows::{Descriptor, Group, Row, Scan, cells, quote, write_group, write_line, write_row};
use ags_text::{Cell, Sequence};
use samples_of_tests::{FILE_A, FILE_B, FILE_C};
use std::alloc::{AllocError, Global};
use std::test::Fail;

/// The dictionary's groups: name, parent, and headings with status (`K` is KEY, `R` REQUIRED, `O` OTHER), each field as
/// a row spells it.
static DICTIONARY: [(&str, &str, &str); 10] = [
    (
        r#""PROJ""#,
        r#""-""#,
        r#""PROJ_ID" KR, "PROJ_NAME" O, "FILE_FSET" O"#,
    ),
    (
        r#""TRAN""#,
        r#""-""#,
        r#""TRAN_ISNO" K, "TRAN_DATE" O, "TRAN_AGS" O, "TRAN_DLIM" O, "TRAN_RCON" O"#,
    ),
    (
        r#""ABBR""#,
        r#""-""#,
        r#""ABBR_HDNG" K, "ABBR_CODE" K, "ABBR_DESC" O"#,
    ),
    (r#""UNIT""#, r#""-""#, r#""UNIT_UNIT" K, "UNIT_DESC" O"#),
    (r#""TYPE""#, r#""-""#, r#""TYPE_TYPE" K, "TYPE_DESC" O"#),
    (
        r#""DICT""#,
        r#""-""#,
        r#""DICT_TYPE" K, "DICT_GRP" K, "DICT_HDNG" K, "DICT_STAT" O, "DICT_PGRP" O"#,
    ),
    (
        r#""FILE""#,
        r#""-""#,
        r#""FILE_FSET" K, "FILE_NAME" K, "FILE_DESC" O"#,
    ),
    (
        r#""LOCA""#,
        r#""PROJ""#,
        r#""LOCA_ID" KR, "LOCA_TYPE" O, "LOCA_STAT" O, "LOCA_GL" O, "FILE_FSET" O"#,
    ),
    (
        r#""SAMP""#,
        r#""LOCA""#,
        r#""LOCA_ID" K, "SAMP_TOP" K, "SAMP_REF" K, "SAMP_BASE" O, "SAMP_LINK" O"#,
    ),
    (
        r#""LNMC""#,
        r#""SAMP""#,
        r#""LOCA_ID" K, "SAMP_TOP" K, "SAMP_REF" K, "SPEC_DPTH" K, "LNMC_MC" O"#,
    ),
];

/// An empty field.
const EMPTY: &str = r#""""#;

/// The status that a letter of the table stands for.
fn status_of(letters: &str) -> &'static str {
    match letters {
        "K" => r#""KEY""#,
        "R" => r#""REQUIRED""#,
        "KR" => r#""KEY+REQUIRED""#,
        _ => r#""OTHER""#,
    }
}

/// The cells that a line spells, or none.
fn cells_of(alloc: Global, line: &'static str) -> Result<Vec<Cell<'static>>, AllocError> {
    match cells(alloc, line.as_bytes())? {
        Some(found) => Ok(found),
        None => Ok(Vec::new(alloc)),
    }
}

/// Appends the row of these fields.
fn push_row(
    rows: &mut Vec<Row<'static>>,
    alloc: Global,
    line: u32,
    fields: &[&'static str],
) -> Result<(), AllocError> {
    let mut list = Vec::new(alloc);
    for field in fields {
        list.append(&mut cells_of(alloc, field)?)?;
    }
    let cells = Sequence::from_vec(list);
    rows.push(Row { line, cells })?;
    Ok(())
}

/// Appends a row of each heading of a group.
fn push_headings(
    rows: &mut Vec<Row<'static>>,
    alloc: Global,
    group: &'static str,
    headings: &'static str,
) -> Result<(), AllocError> {
    for entry in headings.split(", ") {
        let (heading, letters) = entry.split_once(' ').unwrap_or((entry, ""));
        let fields = [r#""HEADING""#, group, heading, status_of(letters), EMPTY];
        push_row(rows, alloc, 0, &fields)?;
    }
    Ok(())
}

/// Appends the DATA rows of the dictionary: of each group its own row, then one of each heading.
fn push_dictionary(rows: &mut Vec<Row<'static>>, alloc: Global) -> Result<(), AllocError> {
    for (group, parent, headings) in &DICTIONARY {
        let fields = [r#""GROUP""#, group, EMPTY, EMPTY, parent];
        push_row(rows, alloc, 0, &fields)?;
        push_headings(rows, alloc, group, headings)?;
    }
    Ok(())
}

/// A group's name, and the lines of its headings, units and types, without their descriptors.
type Header = (&'static [u8], &'static str, &'static str, &'static str);

static DICT: Header = (
    b"DICT",
    r#""DICT_TYPE","DICT_GRP","DICT_HDNG","DICT_STAT","DICT_PGRP""#,
    r#""","","","","""#,
    r#""X","X","X","X","X""#,
);

static LOCA: Header = (b"LOCA", r#""LOCA_ID""#, EMPTY, r#""ID""#);

/// Appends a group of this header and these rows.
fn push_group(
    text: &mut Vec<u8>,
    alloc: Global,
    header: &Header,
    rows: &[Row],
) -> Result<(), AllocError> {
    let (name, headings, units, types) = header;
    let headings = cells_of(alloc, headings)?;
    let units = cells_of(alloc, units)?;
    let types = cells_of(alloc, types)?;
    write_group(
        text,
        name,
        headings.as_slice(),
        units.as_slice(),
        types.as_slice(),
        rows,
    )
}

/// Whether a group is written as this text.
fn is_written(
    alloc: Global,
    header: &Header,
    rows: &[Row],
    want: &[u8],
) -> Result<bool, AllocError> {
    let mut text = Vec::new(alloc);
    push_group(&mut text, alloc, header, rows)?;
    Ok(text.as_slice() == want)
}

/// Whether the dictionary is written as this text.
fn is_dictionary_written(alloc: Global, want: &[u8]) -> Result<bool, AllocError> {
    let mut rows = Vec::new(alloc);
    push_dictionary(&mut rows, alloc)?;
    Ok(rows.len() == 48 && is_written(alloc, &DICT, rows.as_slice(), want)?)
}

/// Whether the last group of file A is written as this text.
fn is_loca_written(alloc: Global, want: &[u8]) -> Result<bool, AllocError> {
    let mut rows = Vec::new(alloc);
    push_row(&mut rows, alloc, 30, &[r#""BH1""#])?;
    is_written(alloc, &LOCA, rows.as_slice(), want)
}

#[test]
fn written_groups(rt: HostRuntime) -> Result<(), Fail> {
    assert!(rt; is_dictionary_written(rt.alloc(), MINI)?);
    assert!(rt; is_loca_written(rt.alloc(), &FILE_A[468..])?);
    Ok(())
}

/// Whether groups are the dictionary: one group, its name and its rows at their lines.
fn are_dictionary(groups: &[Group]) -> bool {
    let [dictionary] = groups else {
        return false;
    };
    let rows = dictionary.rows.as_slice();
    for (place, row) in rows.iter().enumerate() {
        if row.line as usize != place + 5 {
            return false;
        }
    }
    rows.len() == 48 && dictionary.name.as_slice() == b"DICT".as_slice()
}

/// Whether the dictionary is read as what it is.
fn is_dictionary_scanned(alloc: Global) -> bool {
    match Scan::read(alloc, MINI) {
        Ok(scan) => are_dictionary(scan.groups()),
        Err(_error) => false,
    }
}

/// Appends groups, with an empty line between two.
fn push_groups(text: &mut Vec<u8>, groups: &[Group]) -> Result<(), AllocError> {
    for group in groups {
        if !text.is_empty() {
            text.extend_from_slice(b"\r\n")?;
        }
        write_group(
            text,
            group.name.as_slice(),
            group.headings.as_slice(),
            group.units.as_slice(),
            group.types.as_slice(),
            group.rows.as_slice(),
        )?;
    }
    Ok(())
}

/// Appends the groups of a file, or nothing where it is not read.
fn push_file(text: &mut Vec<u8>, alloc: Global, bytes: &[u8]) -> Result<(), AllocError> {
    match scan(alloc, bytes, Read::Strictly) {
        Ok(scan) => push_groups(text, scan.groups()),
        Err(_error) => Ok(()),
    }
}

/// How many line ends bytes have.
fn line_count(bytes: &[u8]) -> usize {
    let mut count = 0usize;
    for byte in bytes {
        if *byte == b'\n' {
            count = count.saturating_add(1);
        }
    }
    count
}

/// A file, its length and its number of lines.
static FILES: [(&[u8], usize, usize); 4] = [
    (MINI, 2262, 52),
    (FILE_A, 543, 30),
    (FILE_B, 1048, 47),
    (FILE_C, 1153, 49),
];

/// Whether a file has so many bytes and lines, and is written again with the same bytes.
fn is_written_again(
    alloc: Global,
    file: &[u8],
    length: usize,
    lines: usize,
) -> Result<bool, AllocError> {
    let mut text = Vec::new(alloc);
    push_file(&mut text, alloc, file)?;
    Ok(file.len() == length && line_count(file) == lines && text.as_slice() == file)
}

/// Whether line 33 of file C, with its line end, is this.
fn is_line_33(line: &[u8]) -> bool {
    let before = &FILE_C[..626];
    line_count(before) == 32 && before.ends_with(b"\n") && FILE_C[626..].starts_with(line)
}

#[test]
fn files(rt: HostRuntime) -> Result<(), Fail> {
    for (file, length, lines) in &FILES {
        assert!(rt; is_written_again(rt.alloc(), file, *length, *lines)?);
    }
    assert!(rt; is_line_33(b"\"DATA\",\"BH2\",\"FINAL\"\r\n"));
    assert!(rt; is_dictionary_scanned(rt.alloc()));
    Ok(())
}

/// Appends the row of a line's fields.
fn push_fields(text: &mut Vec<u8>, alloc: Global, line: &[u8]) -> Result<(), AllocError> {
    if let Some(fields) = cells(alloc, line)? {
        write_row(text, Descriptor::Data, fields.as_slice())?;
    }
    Ok(())
}

/// Appends a field, a row and a line, one after the other.
fn push_spelled(text: &mut Vec<u8>, alloc: Global) -> Result<(), AllocError> {
    quote(text, b"a\"b")?;
    push_fields(text, alloc, b"\"a\" , \"b\"")?;
    write_line(
        text,
        Descriptor::Group,
        cells_of(alloc, r#""LOCA""#)?.as_slice(),
    )
}

const SPELLED: &[u8] = b"\"a\"\"b\"\"DATA\",\"a\",\"b\"\r\n\"GROUP\",\"LOCA\"";

#[test]
fn spelled(rt: HostRuntime) -> Result<(), Fail> {
    let mut text = Vec::new(rt.alloc());
    push_spelled(&mut text, rt.alloc())?;
    assert!(rt; text.as_slice() == SPELLED);
    Ok(())
}
