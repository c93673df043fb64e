//! A reader or a writer whose calls are counted, and a whole text into such a writer.
ghost use Rattle.std.specs.Prelude.{◌≡◌, ◌||◌, false, is_err, not};
ghost use Rattle.std.specs.Io.{ReadsAtMost, WritesAtMost};
ghost use Rattle.std.specs.Io.KnownBytes.{Keeps, ReadConsumes, WriteAppends};
ghost use Rattle.reg_http.specs.Tallies.{tally_inner, calls_of, tally_has_failed, IsFresh, one_call_more, is_refused};
ghost use Rattle.reg_http.specs.Writes.{WritesFront};

use std::io;
use std::io::{Read, Write};

/// A reader or a writer, the number of its calls of `read` or `write`, and whether one of them failed.
#[derive(Drop)]
pub struct Tally<T> {
    inner: T,
    calls: u64,
    failed: bool,
}

impl<T> Tally<T> {
    /// Over `inner`. No read or write is counted yet, and none is noted as failed.
    pub fn new(inner: T) -> Tally<T>
        ensures inner { tally_inner result ≡ inner }
        ensures fresh { IsFresh result }
    {
        Tally {
            inner,
            calls: 0,
            failed: false,
        }
    }

    /// How often `read` or `write` was called; a flush is not counted. It stays at its greatest value.
    pub fn calls(&self) -> u64
        ensures { result ≡ calls_of self.now }
    {
        self.calls
    }

    /// Whether a read or a write failed, or a write took no byte of some. A flush that failed is not noted.
    pub fn failed(&self) -> bool
        ensures { result ≡ tally_has_failed self.now }
    {
        self.failed
    }

    fn count(&mut self)
        ensures calls { calls_of self.new ≡ one_call_more (calls_of self.old) }
        ensures failed { tally_has_failed self.new ≡ tally_has_failed self.old }
        ensures inner { tally_inner self.new ≡ tally_inner self.old }
    {
        self.calls = self.calls.saturating_add(1);
    }
}

impl<R: Read> Read for Tally<R> {
    ghost use Rattle.reg_http.specs.Tallies.{tally_inner};

    ghost remaining = { λ t. R.remaining (tally_inner t) };

    fn read(&mut self, buf: &mut [u8]) -> io::Result<usize>
        ensures bound { ReadsAtMost result buf.new }
        ensures bytes { ReadConsumes (R.remaining (tally_inner self.old)) (R.remaining (tally_inner self.new))
            result buf.new }
        ensures calls { calls_of self.new ≡ one_call_more (calls_of self.old) }
        ensures failed { tally_has_failed self.new ≡ (tally_has_failed self.old || is_err result) }
    {
        self.count();
        let result = self.inner.read(buf);
        if result.is_err() {
            self.failed = true;
        }
        result
    }
}

impl<W: Write> Write for Tally<W> {
    ghost use Rattle.reg_http.specs.Tallies.{tally_inner};

    ghost contents = { λ t. W.contents (tally_inner t) };

    fn write(&mut self, buf: &[u8]) -> io::Result<usize>
        ensures bound { WritesAtMost result buf.now }
        ensures bytes { WriteAppends (W.contents (tally_inner self.old)) (W.contents (tally_inner self.new))
            result buf.now }
        ensures calls { calls_of self.new ≡ one_call_more (calls_of self.old) }
        ensures failed { tally_has_failed self.new ≡ (tally_has_failed self.old || is_refused result buf.now) }
    {
        self.count();
        let result = self.inner.write(buf);
        let refused = match &result {
            Ok(n) => *n == 0 && !buf.is_empty(),
            Err(_) => true,
        };
        if refused {
            self.failed = true;
        }
        result
    }

    fn flush(&mut self) -> io::Result<()>
        ensures bytes { Keeps (W.contents (tally_inner self.old)) (W.contents (tally_inner self.new)) }
        ensures calls { calls_of self.new ≡ calls_of self.old }
        ensures failed { tally_has_failed self.new ≡ tally_has_failed self.old }
    {
        self.inner.flush()
    }
}

/// Writes the text, and answers whether all of it was taken.
/// It is one write where the writer takes it; no clause says so.
pub(crate) fn write_text<W: Write>(writer: &mut Tally<W>, text: &[u8]) -> bool
    requires { tally_has_failed writer.old ≡ false }
    ensures written { WritesFront (W.contents (tally_inner writer.old)) (W.contents (tally_inner writer.new))
        text.now result }
    ensures failed { tally_has_failed writer.new ≡ not result }
{
    let mut written = 0;
    'writes: while written < text.len() {
        match writer.write(&text[written..]) {
            Ok(count) if count > 0 => written += count,
            _ => return false,
        }
    }
    true
}
