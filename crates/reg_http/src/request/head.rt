//! The head of a request, read piece by piece.
ghost use Rattle.std.specs.Prelude.{◌≡◌, ◌≤◌, ◌||◌, is_none, length};
ghost use Rattle.reg_http.specs.Fills.{Fills};
ghost use Rattle.reg_http.specs.Tallies.{tally_inner, calls_of, tally_has_failed, one_call_more, IsFresh};
ghost use Rattle.reg_http.specs.Heads.{ReadsHeadFrom, HoldsIfWhole, is_fault, most_read};

use crate::tally::Tally;
use httparse::spans::{HeaderSpan, RequestSpans, parse_request};
use httparse::{Error, Status};
use std::io::Read;

/// Reads until a head is whole, or none can come any more. Bytes after the head may have been read with it.
pub(crate) fn receive_head<R: Read>(
    reader: &mut Tally<R>,
    buf: &mut [u8; LONGEST_HEAD],
    headers: &mut [HeaderSpan; MOST_FIELDS],
) -> HeadRead
    requires { IsFresh reader.old }
    ensures head { ReadsHeadFrom R.Read reader.old reader.new buf.new headers.new result }
    ensures held { HoldsIfWhole buf.new headers.new result }
    ensures fault { tally_has_failed reader.new ≡ is_fault result }
    ensures calls { calls_of reader.new ≤ most_read result }
{
    let mut filled = 0;
    'reads: while filled < buf.len() {
        let Some(count) = read_more(reader, buf, filled) else {
            return HeadRead::Fault;
        };
        if count == 0 {
            return if filled == 0 {
                HeadRead::Empty
            } else {
                HeadRead::Bad
            };
        }
        filled += count;
        match parse_request(&buf[..filled], headers) {
            Ok(Status::Complete(spans)) => return HeadRead::Whole(spans, filled),
            Ok(Status::Partial) | Err(Error::TooManyHeaders) => {}
            Err(_) => return HeadRead::Bad,
        }
    }
    HeadRead::Bad
}

/// Reads once into the buffer after its first `filled` bytes, and gives how many came.
pub(crate) fn read_more<R: Read>(
    reader: &mut Tally<R>,
    buf: &mut [u8],
    filled: usize,
) -> Option<usize>
    requires { filled ≤ length buf.old }
    ensures filled { Fills (R.remaining (tally_inner reader.old)) (R.remaining (tally_inner reader.new))
        buf.old buf.new filled result }
    ensures calls { calls_of reader.new ≡ one_call_more (calls_of reader.old) }
    ensures failed { tally_has_failed reader.new ≡ (tally_has_failed reader.old || is_none result) }
{
    match reader.read(&mut buf[filled..]) {
        Ok(count) => Some(count),
        Err(_) => None,
    }
}

/// What is at the front of a connection.
#[derive(Drop)]
pub(crate) enum HeadRead {
    /// The connection gave no byte.
    Empty,
    /// A read failed.
    Fault,
    /// No head within the limits.
    Bad,
    /// A head is at the front of the buffer, and how many bytes were read.
    Whole(RequestSpans, usize),
}

/// The most bytes of a head, empty lines before it and the empty line after it included.
pub(crate) const LONGEST_HEAD: usize = 8192;

/// The most fields of a head.
pub(crate) const MOST_FIELDS: usize = 32;
