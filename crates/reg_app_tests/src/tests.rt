mod answers;
mod caller;
mod checks;
mod command_caller;
mod connections;
mod progress;

use ags_cli::{Watched, run_without_words};
use samples_of_tests::FILE_A;
use std::alloc::Global;
use std::cmp::min;
use std::io;
use std::io::{ErrorKind, Read, Write};

/// A run over streams: its status, and whether it is noted that the reader failed.
fn run_over<R: Read, W: Write, E: Write>(
    alloc: Global,
    input: &mut R,
    out: &mut W,
    err: &mut E,
) -> (u8, bool) {
    let mut input = Watched::new(input);
    let status = run_without_words(
        alloc,
        &mut input,
        &mut Watched::new(out),
        &mut Watched::new(err),
    );
    (status, input.has_failed())
}

/// A stream that carries `size` bytes at a call, and fails at the call after `calls` others, that once alone. It notes
/// whether its last call was a flush.
#[derive(Drop)]
struct Failing<'a> {
    text: &'a [u8],
    taken: Vec<u8>,
    size: usize,
    calls: usize,
    kind: ErrorKind,
    failed: bool,
    flushed: bool,
}

impl<'a> Failing<'a> {
    /// Counts a call: the fault, where it is its turn.
    fn call(&mut self) -> io::Result<()> {
        self.flushed = false;
        if self.calls == 0 && !self.failed {
            self.failed = true;
            return Err(io::Error::from(self.kind));
        }
        self.calls = self.calls.saturating_sub(1);
        Ok(())
    }

    /// Whether it has a text: a first part of it where it is to have failed, else all of it, passed on.
    fn has(&self, failed: bool, text: &[u8]) -> bool {
        let whole = self.flushed & (self.taken.len() == text.len());
        (self.failed == failed) & text.starts_with(self.taken.as_slice()) & (failed | whole)
    }
}

impl<'a> Read for Failing<'a> {
    fn read(&mut self, buf: &mut [u8]) -> io::Result<usize> {
        self.call()?;
        let size = min(self.size, buf.len());
        self.text.read(&mut buf[..size])
    }
}

impl<'a> Write for Failing<'a> {
    fn write(&mut self, buf: &[u8]) -> io::Result<usize> {
        self.call()?;
        let size = min(self.size, buf.len());
        self.taken.extend_from_slice(&buf[..size])?;
        Ok(size)
    }

    fn flush(&mut self) -> io::Result<()> {
        self.call()?;
        self.flushed = true;
        Ok(())
    }
}

/// A stream over a text that fails once, at the call after `calls` others: interrupted where that number is even, which
/// another would try again, and else broken.
fn failing_after<'a>(alloc: Global, text: &'a [u8], size: usize, calls: usize) -> Failing<'a> {
    Failing {
        text,
        taken: Vec::new(alloc),
        size,
        calls,
        kind: if calls % 2 == 0 {
            ErrorKind::Interrupted
        } else {
            ErrorKind::BrokenPipe
        },
        failed: false,
        flushed: false,
    }
}

/// What came of a run: its status, whether it is noted that the reader failed, and the two writers.
#[derive(Drop)]
struct Ran {
    status: u8,
    noted: bool,
    out: Failing<'static>,
    err: Failing<'static>,
}

/// A run with writers that carry `size` bytes at a call, and fail at the call after so many others.
fn run_failing<R: Read>(
    alloc: Global,
    input: &mut R,
    size: usize,
    out_calls: usize,
    err_calls: usize,
) -> Ran {
    let mut out = failing_after(alloc, b"", size, out_calls);
    let mut err = failing_after(alloc, b"", size, err_calls);
    let (status, noted) = run_over(alloc, input, &mut out, &mut err);
    Ran {
        status,
        noted,
        out,
        err,
    }
}

/// Whether a run ended so whose read failed, or none.
fn has_read(ran: &Ran, failed: bool) -> bool {
    let (ended, printed, left) = if failed {
        (6, b"".as_slice(), 2)
    } else {
        (0, b"clean\n".as_slice(), 0)
    };
    (ran.status == ended)
        & (ran.noted == failed)
        & (ran.out.taken.as_slice() == printed)
        & (ran.out.calls == left)
        & !ran.err.failed
}

/// Whether a run is right whose read after `calls` others fails: a file has seven.
fn read_fails(alloc: Global, calls: usize) -> bool {
    let mut input = failing_after(alloc, FILE_A, 100, calls);
    let ran = run_failing(alloc, &mut input, 100, 2, 0);
    (input.failed == (calls < 7)) & has_read(&ran, calls < 7)
}

/// Whether a run ended so whose write or flush failed, or none.
fn has_written(ran: &Ran, failed: bool) -> bool {
    let ended = if failed { 6 } else { 1 };
    (ran.status == ended) & ran.out.has(failed, b"2a 1 -\n5 1 -\n2a 2 -\n5 2 -\n") & !ran.err.failed
}

/// Whether a run is right whose write or flush after `calls` others fails: what is printed takes seven.
fn write_fails(alloc: Global, calls: usize) -> bool {
    let mut input: &[u8] = b"x\ny\n";
    let ran = run_failing(alloc, &mut input, 5, calls, 0);
    has_written(&ran, calls < 7)
}

/// Whether a run ended so whose write or flush of a fault failed, or none.
fn has_reported(ran: &Ran, failed: bool) -> bool {
    let ended = if failed { 6 } else { 4 };
    (ran.status == ended) & ran.err.has(failed, b"groundreg: too large\n") & !ran.out.failed
}

/// Whether a run is right whose write or flush of a fault after `calls` others fails: that takes six.
fn report_fails(alloc: Global, calls: usize) -> bool {
    let mut input = io::repeat(b' ');
    let ran = run_failing(alloc, &mut input, 5, 0, calls);
    has_reported(&ran, calls < 6)
}

#[test]
fn each_call_fails_once(rt: HostRuntime) {
    let alloc = rt.alloc();
    for calls in 0..20 {
        assert!(rt; read_fails(alloc, calls));
        assert!(rt; write_fails(alloc, calls));
        assert!(rt; report_fails(alloc, calls));
    }
}
