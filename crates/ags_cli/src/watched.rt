//! Streams that note whether they failed.

ghost use Rattle.std.specs.Prelude.{◌≡◌, ◌||◌, ◌<◌, ◌≤◌, false, length, IfOk};
ghost use Rattle.std.specs.Result.{is_err};
ghost use Rattle.std.specs.Io.{ReadsAtMost};
ghost use Rattle.std.specs.Io.KnownBytes.{Keeps, ReadConsumes, WriteAppends};
ghost use Rattle.ags_cli.specs.Streams.{has_failed, inner_of};
ghost use Rattle.ags_cli.specs.Writing.{WritesText, two_part_line};

use std::io::{Read, Write};

/// A read or a write that failed.
#[derive(Clone, Copy, Debug, PartialEq, Eq)]
pub struct StreamFailed;

/// A reader or a writer, and whether a call of it has failed.
#[derive(Drop)]
pub struct Watched<T> {
    inner: T,
    failed: bool,
}

impl<T> Watched<T> {
    /// Watches `inner`. No call of it is noted as failed.
    pub fn new(inner: T) -> Self
        ensures inner { inner_of result ≡ inner }
        ensures fresh { has_failed result ≡ false }
    {
        Watched {
            inner,
            failed: false,
        }
    }

    /// Whether a call has failed.
    pub fn has_failed(&self) -> bool
        ensures { result ≡ has_failed self.now }
    {
        self.failed
    }
}

impl<R: Read> Watched<R> {
    /// One read.
    pub(crate) fn read(&mut self, buf: &mut [u8]) -> Result<usize, StreamFailed>
        ensures bound { ReadsAtMost result buf.new }
        ensures bytes { ReadConsumes (R.remaining self.old.inner) (R.remaining self.new.inner) result buf.new }
        ensures noted { self.new.failed ≡ (self.old.failed || is_err result) }
    {
        let result = self.inner.read(buf).map_err(|_| StreamFailed);
        self.failed = self.failed || result.is_err();
        result
    }
}

impl<W: Write> Watched<W> {
    /// One write of some bytes. A writer that takes none of them has failed.
    fn write(&mut self, bytes: &[u8]) -> Result<usize, StreamFailed>
        requires some { 0 < length bytes.now }
        ensures bound { IfOk result (λ count. (0 < count) × (count ≤ length bytes.now)) }
        ensures bytes { WriteAppends (W.contents self.old.inner) (W.contents self.new.inner) result bytes.now }
        ensures noted { self.new.failed ≡ (self.old.failed || is_err result) }
    {
        let result = match self.inner.write(bytes) {
            Ok(count) if count > 0 => Ok(count),
            _ => Err(StreamFailed),
        };
        self.failed = self.failed || result.is_err();
        result
    }

    /// Has the writer pass on what it holds.
    fn flush(&mut self) -> Result<(), StreamFailed>
        ensures bytes { Keeps (W.contents self.old.inner) (W.contents self.new.inner) }
        ensures noted { self.new.failed ≡ (self.old.failed || is_err result) }
    {
        let result = self.inner.flush().map_err(|_| StreamFailed);
        self.failed = self.failed || result.is_err();
        result
    }

    /// Writes all of a text, or a first part of it where it refuses. An empty text is not refused.
    /// No clause says that the writer is then flushed, or that an empty text calls nothing.
    pub fn write_text(&mut self, text: &[u8]) -> Result<(), StreamFailed>
        ensures bytes { WritesText (W.contents (inner_of self.old)) (W.contents (inner_of self.new)) result text.now }
        ensures noted { has_failed self.new ≡ (has_failed self.old || is_err result) }
    {
        if text.is_empty() {
            return Ok(());
        }
        let mut rest = text;
        while !rest.is_empty() {
            let count = self.write(rest)?;
            rest = &rest[count..];
        }
        self.flush()
    }

    /// Writes a line that begins with `first` and goes on with `second`. It ends with LF.
    pub fn write_line(&mut self, first: &[u8], second: &[u8]) -> Result<(), StreamFailed>
        ensures bytes { WritesText (W.contents (inner_of self.old)) (W.contents (inner_of self.new)) result
            (two_part_line first.now second.now) }
        ensures noted { has_failed self.new ≡ (has_failed self.old || is_err result) }
    {
        self.write_text(first)?;
        self.write_text(second)?;
        self.write_text(b"\n")
    }
}
