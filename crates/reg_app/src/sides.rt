//! The two sides of a connection, each within its time.
//!
//! What is left of the time is set before each call, so a peer that sends or takes a byte at a time is cut too.

use crate::listener::Stream;
use std::cell::Cell;
use std::io;
use std::io::{ErrorKind, Read, Write};
use std::time::{Clock, Duration, Instant};

/// The end of a time that begins now.
pub(crate) fn end_of<C: Clock>(clock: &C, time: Duration) -> io::Result<Instant> {
    match Instant::now(clock)?.checked_add(time) {
        Some(end) => Ok(end),
        None => Err(io::Error::from(ErrorKind::TimedOut)),
    }
}

/// What the two sides of a connection and its notes have in common. At first nothing came.
#[derive(Default, Drop)]
pub(crate) struct Meter {
    /// How many bytes came.
    pub(crate) received: Cell<u64>,
    /// Whether a reply may be sent: its line of the log is written.
    pub(crate) may_send: Cell<bool>,
}

/// What a peer sends up to an end.
#[derive(Drop)]
pub(crate) struct PeerInput<'s, C> {
    pub(crate) clock: &'s C,
    pub(crate) stream: &'s Stream,
    pub(crate) end: Instant,
}

impl<C: Clock> Read for PeerInput<'_, C> {
    fn read(&mut self, buf: &mut [u8]) -> io::Result<usize> {
        let left = left_to(self.clock, self.end)?;
        self.stream.read(buf, left)
    }
}

/// What a peer sends of a request, which is counted. A read fails too where the peer waits for no reply any more: what
/// it requested is not computed.
#[derive(Drop)]
pub(crate) struct Received<'s, C> {
    pub(crate) input: PeerInput<'s, C>,
    pub(crate) meter: &'s Meter,
}

impl<C: Clock> Read for Received<'_, C> {
    fn read(&mut self, buf: &mut [u8]) -> io::Result<usize> {
        let count = self.input.read(buf)?;
        if self.input.stream.is_abandoned() {
            return Err(io::Error::from(ErrorKind::BrokenPipe));
        }
        let before = self.meter.received.get();
        self.meter.received.set(before.saturating_add(count as u64));
        Ok(count)
    }
}

/// What is left of the time up to an end, if anything is.
fn left_to<C: Clock>(clock: &C, end: Instant) -> io::Result<Duration> {
    let left = end.duration_since(Instant::now(clock)?);
    if left.is_zero() {
        Err(io::Error::from(ErrorKind::TimedOut))
    } else {
        Ok(left)
    }
}

/// What is sent to a peer, within a time that begins with the first byte.
#[derive(Drop)]
pub(crate) struct Replied<'s, C> {
    clock: &'s C,
    stream: &'s Stream,
    time: Duration,
    end: Option<Instant>,
    meter: &'s Meter,
}

impl<'s, C: Clock> Replied<'s, C> {
    pub(crate) fn within(
        time: Duration,
        clock: &'s C,
        stream: &'s Stream,
        meter: &'s Meter,
    ) -> Self {
        Replied {
            clock,
            stream,
            time,
            end: None,
            meter,
        }
    }

    /// The end of its time, which the first call begins.
    fn end(&mut self) -> io::Result<Instant> {
        if let Some(end) = self.end {
            return Ok(end);
        }
        let end = end_of(self.clock, self.time)?;
        self.end = Some(end);
        Ok(end)
    }
}

impl<C: Clock> Write for Replied<'_, C> {
    /// Nothing is sent before the line of the log is written.
    fn write(&mut self, buf: &[u8]) -> io::Result<usize> {
        if !self.meter.may_send.get() {
            return Err(io::Error::from(ErrorKind::Other));
        }
        let end = self.end()?;
        let left = left_to(self.clock, end)?;
        self.stream.write(buf, left)
    }

    fn flush(&mut self) -> io::Result<()> {
        Ok(())
    }
}
