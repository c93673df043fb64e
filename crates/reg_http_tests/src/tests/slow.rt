//! A reader and a writer of one byte a call, which fail. The writer notes a flush.

use super::{Play, RECEIPT, answers, deposit, has_status, plays, serve, serve_counted};
use reg_desk::Desk;
use reg_http::{IoFault, Served};
use reg_policy::{Callers, Day};
use reg_store::{Keep, PlainKeep};
use std::alloc::Global;
use std::io;
use std::io::{ErrorKind, Read, Write};

/// Carries one byte at a call, and fails at the call after `calls` others.
#[derive(Drop)]
struct Slow<'a> {
    given: &'a [u8],
    taken: Vec<u8>,
    calls: usize,
    flushed: bool,
}

/// Over so many calls of a reader of these bytes, or of a writer.
fn slow_over<'a>(alloc: Global, given: &'a [u8], calls: usize) -> Slow<'a> {
    Slow {
        given,
        taken: Vec::new(alloc),
        calls,
        flushed: false,
    }
}

impl Slow<'_> {
    fn call(&mut self) -> io::Result<()> {
        if self.calls == 0 {
            return Err(io::Error::from(ErrorKind::BrokenPipe));
        }
        self.calls -= 1;
        Ok(())
    }
}

impl Read for Slow<'_> {
    fn read(&mut self, buf: &mut [u8]) -> io::Result<usize> {
        self.call()?;
        let size = buf.len().min(1);
        self.given.read(&mut buf[..size])
    }
}

impl Write for Slow<'_> {
    fn write(&mut self, buf: &[u8]) -> io::Result<usize> {
        self.call()?;
        let size = buf.len().min(1);
        self.taken.write(&buf[..size])
    }

    fn flush(&mut self) -> io::Result<()> {
        self.flushed = true;
        Err(io::Error::from(ErrorKind::BrokenPipe))
    }
}

/// Whether a read failed.
fn is_read_fault(served: &Result<Served, IoFault>) -> bool {
    match served {
        Err(IoFault::Read) => true,
        _ => false,
    }
}

/// Whether a write failed.
fn is_write_fault(served: &Result<Served, IoFault>) -> bool {
    match served {
        Err(IoFault::Write) => true,
        _ => false,
    }
}

/// Whether a deposit ends as it should over a reader that answers as many calls as bytes, or fewer: then nothing is
/// written and nothing is held.
fn is_read(served: &Result<Served, IoFault>, written: &[u8], held: u32, whole: bool) -> bool {
    if whole {
        has_status(served, 200) && held == 1
    } else {
        is_read_fault(served) && written.is_empty() && held == 0
    }
}

/// Whether that is so over a reader that fails at the call after so many others. The reader is asked once more than it
/// answers at most.
fn reads(
    alloc: Global,
    desk: &mut Desk<PlainKeep>,
    callers: &Callers,
    day: Day,
    request: &[u8],
    calls: usize,
) -> bool {
    let mut slow = slow_over(alloc, request, calls);
    let mut written = Vec::new(alloc);
    let (asked, served) = serve_counted(alloc, desk, callers, day, &mut slow, &mut written);
    asked <= (calls as u64).saturating_add(1)
        && is_read(
            &served,
            &written,
            desk.keep().count(),
            calls >= request.len(),
        )
}

/// The same of each count of calls, up to one for each byte.
fn read_all(
    alloc: Global,
    desk: &mut Desk<PlainKeep>,
    callers: &Callers,
    day: Day,
    request: &[u8],
) -> bool {
    for calls in 0..=request.len() {
        if !reads(alloc, desk, callers, day, request, calls) {
            return false;
        }
    }
    true
}

/// The same of a deposit.
pub fn reads_deposit(
    alloc: Global,
    desk: &mut Desk<PlainKeep>,
    callers: &Callers,
    day: Day,
) -> bool {
    match deposit(alloc) {
        Ok(request) => read_all(alloc, desk, callers, day, &request),
        Err(_) => false,
    }
}

#[test]
fn reads_fail(rt: HostRuntime) {
    assert!(rt; plays(rt.alloc(), Play::Reads).unwrap_or(false));
}

/// Whether these are so many first bytes of the receipt.
fn is_front(taken: &[u8], calls: usize) -> bool {
    match RECEIPT.get(..calls) {
        Some(first) => taken == first,
        None => false,
    }
}

/// Whether a deposit ends as it should over a writer that fails at the call after so many others, or takes the whole
/// receipt.
fn is_written(served: &Result<Served, IoFault>, calls: usize) -> bool {
    if calls < RECEIPT.len() {
        is_write_fault(served)
    } else {
        has_status(served, 200)
    }
}

/// Whether a deposit over such a writer has its first bytes written, is held, and has the writer flush nothing.
fn writes(
    alloc: Global,
    desk: &mut Desk<PlainKeep>,
    callers: &Callers,
    day: Day,
    request: &[u8],
    calls: usize,
) -> bool {
    let mut slow = slow_over(alloc, b"", calls);
    let served = serve(alloc, desk, callers, day, request, &mut slow);
    is_written(&served, calls)
        && !slow.flushed
        && is_front(&slow.taken, calls)
        && desk.keep().count() == 1
}

/// Whether that is so, and the request sent again gives the receipt.
pub fn writes_twice(
    alloc: Global,
    desk: &mut Desk<PlainKeep>,
    callers: &Callers,
    day: Day,
    request: &[u8],
    calls: usize,
) -> bool {
    writes(alloc, desk, callers, day, request, calls)
        && answers(alloc, desk, callers, day, request, 200, RECEIPT)
}

/// The same at a desk that begins, of each count of calls up to one for each byte of the receipt.
fn write_all(alloc: Global, request: &[u8]) -> bool {
    for calls in 0..=RECEIPT.len() {
        if !plays(alloc, Play::Writes(request, calls)).unwrap_or(false) {
            return false;
        }
    }
    true
}

/// The same of a deposit.
fn writes_deposit(alloc: Global) -> bool {
    match deposit(alloc) {
        Ok(request) => write_all(alloc, &request),
        Err(_) => false,
    }
}

#[test]
fn writes_fail(rt: HostRuntime) {
    assert!(rt; writes_deposit(rt.alloc()));
}
