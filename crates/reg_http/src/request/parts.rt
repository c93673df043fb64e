//! The parts of a head.
ghost use Rattle.std.specs.Prelude.{All, length};
ghost use Rattle.httparse.specs.Spans.{IsHeaderWithin};

use httparse::spans::HeaderSpan;

/// The parts of a head that are looked at, where they are in the bytes that were read.
#[derive(Clone, Copy)]
pub(crate) struct Parts<'b> {
    pub(crate) method: &'b [u8],
    /// The target before the first `?`.
    pub(crate) path: &'b str,
    /// What follows that.
    pub(crate) query: &'b str,
    pub(crate) buf: &'b [u8],
    /// The places of the fields in `buf`.
    pub(crate) fields: &'b [HeaderSpan],
    ghost within: { All (IsHeaderWithin (length buf.now)) fields.now },
}
