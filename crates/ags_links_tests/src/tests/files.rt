//! The worked examples of files. Where memory wants, no answer is the wanted one.
use ags_dict::Dictionary;
use ags_links::{Graph, Index, Targets, step_count};
use ags_rows::built_in::MINI;
use ags_rows::{READABLE, Scan};
use samples_of_tests::{FILE_A, FILE_B, FILE_C};
use std::alloc::{AllocError, Global};
use std::fmt::Write;

/// A file whose PROJ row has a set of two files; a third file is of another set.
const FILES: &[u8] = b"\
\"GROUP\",\"PROJ\"\r\n\
\"HEADING\",\"PROJ_ID\",\"FILE_FSET\"\r\n\
\"UNIT\",\"\",\"\"\r\n\
\"TYPE\",\"ID\",\"X\"\r\n\
\"DATA\",\"P7\",\"F1\"\r\n\
\r\n\
\"GROUP\",\"FILE\"\r\n\
\"HEADING\",\"FILE_FSET\",\"FILE_NAME\"\r\n\
\"UNIT\",\"\",\"\"\r\n\
\"TYPE\",\"X\",\"X\"\r\n\
\"DATA\",\"F1\",\"a.pdf\"\r\n\
\"DATA\",\"F1\",\"b.pdf\"\r\n\
\"DATA\",\"F2\",\"c.pdf\"\r\n\
";

/// The bytes with the first place of a text replaced.
fn replaced(alloc: Global, file: &[u8], old: &[u8], new: &[u8]) -> Result<Vec<u8>, AllocError> {
    let mut text = Vec::new(alloc);
    for (place, byte) in file.iter().enumerate() {
        if let Some(rest) = file[place..].strip_prefix(old) {
            text.extend_from_slice(new)?;
            text.extend_from_slice(rest)?;
            return Ok(text);
        }
        text.push(*byte)?;
    }
    Ok(text)
}

/// A text, and the one that replaces it.
type Edit = (&'static [u8], &'static [u8]);

/// A file with texts replaced, one after the other.
fn edited(alloc: Global, file: &[u8], edits: &[Edit]) -> Result<Vec<u8>, AllocError> {
    let mut text = Vec::from_slice(alloc, file)?;
    for (old, new) in edits {
        text = replaced(alloc, text.as_slice(), old, new)?;
    }
    Ok(text)
}

/// What a file's index is asked.
#[derive(Clone, Copy)]
enum Ask {
    /// How many rows and steps the graph has.
    Counts,
    /// The graph's rows and steps.
    Steps,
    /// Whether a row has a parent, and the parent rows.
    Parents(u32),
    /// The rows that a row's SAMP_LINK names.
    Link(u32),
    /// The first row with a row's key, whether it has files, and the rows of FILE with its FILE_FSET.
    Files(u32),
}

/// Tells rows.
fn tell_rows(text: &mut String, rows: &[u32]) -> Result<(), AllocError> {
    for row in rows {
        write!(text, "{row};")?;
    }
    Ok(())
}

/// Tells how many rows and steps a graph has, and how many steps were counted if that differs.
fn tell_counts(text: &mut String, graph: &Graph, counted: usize) -> Result<(), AllocError> {
    let rows = graph.rows();
    let steps = graph.steps().len();
    write!(text, "{rows} rows, {steps} steps")?;
    if counted != steps {
        write!(text, ", {counted} counted")?;
    }
    Ok(())
}

/// Tells a graph's rows and steps.
fn tell_steps(text: &mut String, graph: &Graph) -> Result<(), AllocError> {
    let rows = graph.rows();
    write!(text, "{rows} rows;")?;
    for (row, target) in graph.steps() {
        write!(text, "{row}>{target};")?;
    }
    Ok(())
}

/// Tells a row's parents.
fn tell_parents(text: &mut String, index: &Index, row: u32) -> Result<(), AllocError> {
    if row >= index.row_count() {
        return text.push_str("no such row");
    }
    if index.has_parent(row) {
        text.push_str("has ")?;
    }
    tell_rows(text, index.parents(row)?.as_slice())
}

/// Tells what a row's record link names.
fn tell_link(text: &mut String, index: &Index, row: u32) -> Result<(), AllocError> {
    if row >= index.row_count() {
        return text.push_str("no such row");
    }
    match index.link_targets(row, b"SAMP_LINK")? {
        Targets::Rows(rows) => tell_rows(text, rows.as_slice()),
        Targets::Broken => text.push_str("broken"),
    }
}

/// Tells the first row with a row's key, and its files.
fn tell_files(text: &mut String, index: &Index, row: u32) -> Result<(), AllocError> {
    if row >= index.row_count() {
        return text.push_str("no such row");
    }
    tell_rows(text, &[index.first_of_key(row)])?;
    if index.has_file(row) {
        text.push_str("has ")?;
    }
    tell_rows(text, index.files(row)?.as_slice())
}

/// Tells what is asked.
fn tell(alloc: Global, text: &mut String, index: &Index, ask: Ask) -> Result<(), AllocError> {
    match ask {
        Ask::Counts => tell_counts(text, &Graph::of(alloc, index)?, step_count(alloc, index)?),
        Ask::Steps => tell_steps(text, &Graph::of(alloc, index)?),
        Ask::Parents(row) => tell_parents(text, index, row),
        Ask::Link(row) => tell_link(text, index, row),
        Ask::Files(row) => tell_files(text, index, row),
    }
}

/// Tells what the groups of a file are asked for.
fn tell_groups(
    alloc: Global,
    text: &mut String,
    mini: &Dictionary,
    scan: &Scan,
    ask: Ask,
) -> Result<(), AllocError> {
    let index = Index::build(alloc, scan, mini)?;
    tell(alloc, text, &index, ask)
}

/// Tells what a file is asked for.
fn tell_file(
    alloc: Global,
    text: &mut String,
    mini: &Dictionary,
    file: &[u8],
    ask: Ask,
) -> Result<(), AllocError> {
    if file.len() > READABLE {
        return text.push_str("too large");
    }
    match Scan::read(alloc, file) {
        Ok(scan) => tell_groups(alloc, text, mini, &scan, ask),
        Err(_) => text.push_str("findings"),
    }
}

/// The dictionary that the files are read under.
fn dictionary(alloc: Global) -> Option<Dictionary> {
    let mini = MINI;
    if mini.len() > READABLE {
        return None;
    }
    Dictionary::read(alloc, mini).ok()
}

/// The file that is edited.
#[derive(Clone, Copy)]
enum Base {
    A,
    B,
    C,
    Files,
}

/// The bytes of the file.
fn bytes_of(base: Base) -> &'static [u8] {
    match base {
        Base::A => FILE_A,
        Base::B => FILE_B,
        Base::C => FILE_C,
        Base::Files => FILES,
    }
}

/// A file, what is replaced in it, what is asked, and the answer.
#[derive(Drop)]
struct Case {
    file: Base,
    edits: &'static [Edit],
    ask: Ask,
    want: &'static str,
}

const LINK: &[u8] = b"SAMP|BH1|3.00|S9";

/// Steps of rows to their parents, and of record links.
const STEPS_OF_B: &str = "13 rows;7>0;8>0;9>7;10>8;11>9;12>10;";

const STEPS_OF_C: &str = "15 rows;7>0;8>0;9>7;9>11;10>8;11>7;11>9;12>7;12>9;13>9;14>10;";

/// A link of two parts, the second of which names no row.
const BROKEN: &[Edit] = &[(b"|3.00|S9\"", b"|3.00|S9+SAMP|BH1|9.00|S9\"")];

/// The worked examples.
static CASES: &[Case] = &[
    Case {
        file: Base::A,
        edits: &[],
        ask: Ask::Steps,
        want: "6 rows;5>0;",
    },
    Case {
        file: Base::B,
        edits: &[],
        ask: Ask::Steps,
        want: STEPS_OF_B,
    },
    Case {
        file: Base::C,
        edits: &[],
        ask: Ask::Steps,
        want: STEPS_OF_C,
    },
    Case {
        file: Base::Files,
        edits: &[],
        ask: Ask::Steps,
        want: "4 rows;0>1;0>2;",
    },
    Case {
        file: Base::C,
        edits: BROKEN,
        ask: Ask::Link(9),
        want: "broken",
    },
    Case {
        file: Base::C,
        edits: BROKEN,
        ask: Ask::Steps,
        want: STEPS_OF_C,
    },
    Case {
        file: Base::C,
        edits: &[],
        ask: Ask::Link(10),
        want: "broken",
    },
    Case {
        file: Base::C,
        edits: &[(LINK, LINK)],
        ask: Ask::Link(9),
        want: "11;",
    },
    Case {
        file: Base::C,
        edits: &[(LINK, b"SAMP|BH1|9.00|S9")],
        ask: Ask::Link(9),
        want: "broken",
    },
    Case {
        file: Base::C,
        edits: &[(LINK, b"SAMP|BH1|3.00|S9+SAMP|BH1|9.00|S9")],
        ask: Ask::Link(9),
        want: "broken",
    },
    Case {
        file: Base::C,
        edits: &[(LINK, b"SAMP|BH1|3.00|S9+")],
        ask: Ask::Link(9),
        want: "broken",
    },
    Case {
        file: Base::C,
        edits: &[(LINK, b"SAMP|BH1|3.00")],
        ask: Ask::Link(9),
        want: "broken",
    },
    Case {
        file: Base::C,
        edits: &[(LINK, b"")],
        ask: Ask::Link(9),
        want: "broken",
    },
    Case {
        file: Base::C,
        edits: &[(LINK, b"PROJ|P7")],
        ask: Ask::Link(9),
        want: "0;",
    },
    Case {
        file: Base::C,
        edits: &[(LINK, b"SAMP|BH1|3.00|S9+PROJ|P7+SAMP|BH1|3.00|S9")],
        ask: Ask::Link(9),
        want: "0;11;",
    },
    // other separators in TRAN
    Case {
        file: Base::C,
        edits: &[(b"\"|\",\"+\"", b"\"/\",\"\""), (LINK, b"SAMP/BH1/3.00/S9")],
        ask: Ask::Link(9),
        want: "11;",
    },
    // two rows of one key
    Case {
        file: Base::B,
        edits: &[(
            b"\"BH2\",\"2.00\",\"S2\",\"\"",
            b"\"BH1\",\"1.50\",\"S1\",\"\"",
        )],
        ask: Ask::Files(10),
        want: "9;",
    },
    Case {
        file: Base::Files,
        edits: &[],
        ask: Ask::Files(0),
        want: "0;has 1;2;",
    },
    Case {
        file: Base::Files,
        edits: &[],
        ask: Ask::Files(3),
        want: "3;has 3;",
    },
    Case {
        file: Base::B,
        edits: &[],
        ask: Ask::Parents(0),
        want: "",
    },
    Case {
        file: Base::B,
        edits: &[],
        ask: Ask::Parents(7),
        want: "has 0;",
    },
    Case {
        file: Base::B,
        edits: &[],
        ask: Ask::Parents(10),
        want: "has 8;",
    },
    Case {
        file: Base::B,
        edits: &[],
        ask: Ask::Parents(12),
        want: "has 10;",
    },
];

/// Whether the answer for a case's file is the one that the case wants.
fn agrees(alloc: Global, mini: &Dictionary, case: &Case) -> bool {
    match edited(alloc, bytes_of(case.file), case.edits) {
        Ok(file) => answers(alloc, mini, file.as_slice(), case.ask, case.want),
        Err(_) => false,
    }
}

/// Whether the answer for a file is the text that is wanted.
fn answers(alloc: Global, mini: &Dictionary, file: &[u8], ask: Ask, want: &str) -> bool {
    let mut text = String::new(alloc);
    let told = tell_file(alloc, &mut text, mini, file, ask).is_ok();
    told && text.as_str() == want
}

/// What the first case that is not answered as wanted should be answered by.
fn first_wrong(alloc: Global, mini: &Dictionary) -> Option<&'static str> {
    for case in CASES {
        if !agrees(alloc, mini, case) {
            return Some(case.want);
        }
    }
    None
}

/// The same, under MINI.
fn wrong(alloc: Global) -> Option<&'static str> {
    match dictionary(alloc) {
        Some(mini) => first_wrong(alloc, &mini),
        None => Some("a dictionary"),
    }
}

#[test]
fn files_answer(rt: HostRuntime) {
    if let Some(want) = wrong(rt.alloc()) {
        panic!(rt; "not {want}");
    }
}

/// The header rows of the groups that the large file has.
const HOLES: &str =
    "\"GROUP\",\"LOCA\"\r\n\"HEADING\",\"LOCA_ID\"\r\n\"UNIT\",\"\"\r\n\"TYPE\",\"ID\"\r\n";

const SAMPLES: &str =
    "\"GROUP\",\"SAMP\"\r\n\"HEADING\",\"LOCA_ID\",\"SAMP_TOP\",\"SAMP_REF\"\r\n\"UNIT\",\"\",\"m\",\"\"\r\n\"TYPE\",\"ID\",\"2DP\",\"X\"\r\n";

const TESTS: &str =
    "\"GROUP\",\"LNMC\"\r\n\"HEADING\",\"LOCA_ID\",\"SAMP_TOP\",\"SAMP_REF\"\r\n\"UNIT\",\"\",\"m\",\"\"\r\n\"TYPE\",\"ID\",\"2DP\",\"X\"\r\n";

/// A group of 20,000 rows, which go round 1,000 boreholes again and again.
fn add_samples(text: &mut String, header: &str) -> Result<(), AllocError> {
    text.push_str(header)?;
    for sample in 0..20_000 {
        let hole = sample % 1_000;
        write!(text, "\"DATA\",\"B{hole}\",\"{sample}.00\",\"S1\"\r\n")?;
    }
    Ok(())
}

/// 1,000 boreholes.
fn add_holes(text: &mut String) -> Result<(), AllocError> {
    text.push_str(HOLES)?;
    for hole in 0..1_000 {
        write!(text, "\"DATA\",\"B{hole}\"\r\n")?;
    }
    Ok(())
}

/// The large file.
fn large(alloc: Global) -> Result<String, AllocError> {
    let mut text = String::new(alloc);
    add_holes(&mut text)?;
    add_samples(&mut text, SAMPLES)?;
    add_samples(&mut text, TESTS)?;
    Ok(text)
}

/// Whether the graph of the large file has so many rows and steps.
fn large_agrees(alloc: Global, mini: &Dictionary, want: &str) -> bool {
    match large(alloc) {
        Ok(text) => answers(alloc, mini, text.as_bytes(), Ask::Counts, want),
        Err(_) => false,
    }
}

/// Whether the large file is answered as wanted under MINI.
fn is_large(alloc: Global, want: &str) -> bool {
    match dictionary(alloc) {
        Some(mini) => large_agrees(alloc, &mini, want),
        None => false,
    }
}

#[test]
fn forty_thousand_rows(rt: HostRuntime) {
    assert!(rt; is_large(rt.alloc(), "41000 rows, 40000 steps"));
}
