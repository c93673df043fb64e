//! The check of a file that a stream carries, and what is printed of its findings.

use super::run_over;
use ags_cli::{Report, findings_report};
use ags_rows::{Code, LIMIT, NotedFindings};
use samples_of_tests::FILE_A;
use std::alloc::{AllocError, Global};
use std::io;
use std::io::Read;
use std::test::Fail;

/// A reader that notes the last byte that was asked for.
#[derive(Drop)]
struct Asked<R> {
    inner: R,
    given: usize,
    furthest: usize,
}

impl<R: Read> Read for Asked<R> {
    fn read(&mut self, buf: &mut [u8]) -> io::Result<usize> {
        self.furthest = self.furthest.max(self.given.saturating_add(buf.len()));
        let count = self.inner.read(buf)?;
        self.given = self.given.saturating_add(count);
        Ok(count)
    }
}

/// A file: so many bytes of a text and of the spaces after it. What is printed, what is said of a fault, and the
/// status.
struct Input {
    text: &'static [u8],
    length: u64,
    printed: &'static [u8],
    said: &'static [u8],
    status: u8,
}

/// The length of the longest file that is checked. From there on the byte after it is asked for too.
const LONGEST: u64 = LIMIT as u64;

const INPUTS: [Input; 10] = [
    Input {
        text: FILE_A,
        length: 466,
        printed: b"clean\n",
        said: b"",
        status: 0,
    },
    Input {
        text: b"",
        length: 0,
        printed: b"2 0 -\n",
        said: b"",
        status: 1,
    },
    Input {
        text: b"\xEF\xBB\xBF",
        length: 3,
        printed: b"2 0 -\n",
        said: b"",
        status: 1,
    },
    Input {
        text: b"x\n\"GROUP\"\n",
        length: 10,
        printed: b"2a 1 -\n5 1 -\n2a 2 -\n",
        said: b"",
        status: 1,
    },
    Input {
        text: FILE_A,
        length: 463,
        printed: b"5 24 -\n",
        said: b"",
        status: 1,
    },
    Input {
        text: FILE_A,
        length: 464,
        printed: b"clean\n",
        said: b"",
        status: 0,
    },
    Input {
        text: FILE_A,
        length: 465,
        printed: b"6 24 -\n",
        said: b"",
        status: 1,
    },
    Input {
        text: FILE_A,
        length: LONGEST,
        printed: b"clean\n",
        said: b"",
        status: 0,
    },
    Input {
        text: FILE_A,
        length: LONGEST + 1,
        printed: b"",
        said: b"groundreg: too large\n",
        status: 4,
    },
    Input {
        text: FILE_A,
        length: 2 * LONGEST,
        printed: b"",
        said: b"groundreg: too large\n",
        status: 4,
    },
];

/// Whether this is what a run answers to a file, of which it asks for no byte beyond the one after LIMIT.
fn answers_so(alloc: Global, file: &Input) -> bool {
    let mut input = Asked {
        inner: file.text.chain(io::repeat(b' ')).take(file.length),
        given: 0,
        furthest: 0,
    };
    let mut printed = Vec::new(alloc);
    let mut said = Vec::new(alloc);
    let (status, noted) = run_over(alloc, &mut input, &mut printed, &mut said);
    (status == file.status)
        & !noted
        & (printed.as_slice() == file.printed)
        & (said.as_slice() == file.said)
        & ((file.length < LONGEST) | (input.furthest == LIMIT + 1))
}

#[test]
fn files_are_answered(rt: HostRuntime) {
    for file in &INPUTS {
        assert!(rt; answers_so(rt.alloc(), file));
    }
}

/// The report of two findings.
fn report_of_two(alloc: Global) -> Result<Report, AllocError> {
    let mut findings = NotedFindings::new(alloc);
    findings.note(8_388_608, Code::P2, b"")?;
    findings.note(27, Code::Rule19a, b"a\t~\x7F \x00\x1F\x80\xFF")?;
    findings_report(alloc, &findings.in_order())
}

#[test]
fn control_bytes_are_question_marks(rt: HostRuntime) -> Result<(), Fail> {
    let report = report_of_two(rt.alloc())?;
    assert!(rt; report.text.as_slice() == b"19a 27 a?~? ????\nP2 8388608 -\n".as_slice());
    assert!(rt; report.status == 1);
    Ok(())
}
