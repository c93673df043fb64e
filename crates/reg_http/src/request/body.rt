//! The body of a request.
ghost use Rattle.std.specs.Prelude.{◌≡◌, ◌≤◌, ◌<◌, ◌+◌, ◌++◌, ◌||◌, false, IfOk, IfSome, is_none, take, Some};
ghost use Rattle.reg_http.specs.Numbers.{length_by};
ghost use Rattle.reg_http.specs.Tallies.{tally_inner, calls_of, tally_has_failed, one_call_more};
ghost use Rattle.std.specs.Io.KnownBytes.{Consumes, IsAtEnd};
ghost use Rattle.reg_http.specs.Views.{FitsBody, ReadsBody, is_read_fault};

use crate::error::{BodyFault, Refusal};
use crate::request::head::read_more;
use crate::tally::Tally;
use ags_rows::LIMIT;
use reg_request::{is_number, number_from_digits};
use std::alloc::Global;
use std::io::Read;

/// The body of this length: what came with the head, and then what the reader gives. No byte beyond it is read.
/// Its memory grows with what comes, not with the length that is announced.
pub(crate) fn receive_body<R: Read>(
    alloc: Global,
    reader: &mut Tally<R>,
    early: &[u8],
    length: usize,
) -> Result<Vec<u8>, BodyFault>
    requires { tally_has_failed reader.old ≡ false }
    ensures body { IfSome (R.remaining (tally_inner reader.old)) (λ left. ReadsBody (early.now ++ left) length result) }
    ensures fits { FitsBody length result }
    ensures fault { tally_has_failed reader.new ≡ is_read_fault result }
    ensures calls { calls_of reader.new ≤ calls_of reader.old + length + 1 }
{
    let kept = early.len().min(length);
    let Ok(mut body) = Vec::from_slice(alloc, &early[..kept]) else {
        return Err(BodyFault::Memory);
    };
    let mut chunk = [0u8; 4096];
    'reads: while body.len() < length {
        let room = (length - body.len()).min(4096);
        let Some(count) = read_chunk(reader, &mut chunk, room) else {
            return Err(BodyFault::Read);
        };
        if count == 0 {
            return Err(BodyFault::Short);
        }
        if body.extend_from_slice(&chunk[..count]).is_err() {
            return Err(BodyFault::Memory);
        }
    }
    Ok(body)
}

/// Reads once into the first `room` bytes of the chunk.
fn read_chunk<R: Read>(reader: &mut Tally<R>, chunk: &mut [u8; 4096], room: usize) -> Option<usize>
    requires some { 0 < room }
    requires within { room ≤ 4096 }
    ensures few { IfSome result (λ n. n ≤ room) }
    ensures taken { IfSome result (λ n.
        Consumes (R.remaining (tally_inner reader.old)) (R.remaining (tally_inner reader.new)) (take n chunk.new)) }
    ensures at_end { result ≡ Some 0 → IsAtEnd (R.remaining (tally_inner reader.new)) }
    ensures calls { calls_of reader.new ≡ one_call_more (calls_of reader.old) }
    ensures failed { tally_has_failed reader.new ≡ (tally_has_failed reader.old || is_none result) }
{
    read_more(reader, &mut chunk[..room], 0)
}

/// The length that the value of a Content-Length field announces: 1 to 10 digits, at most [`LIMIT`].
pub(crate) fn length_of(value: &[u8]) -> Result<usize, Refusal>
    ensures value { result ≡ length_by value.now }
    ensures limit { IfOk result (λ n. n ≤ LIMIT) }
{
    if !is_number(value, 10) {
        return Err(Refusal::BadLength);
    }
    let number = number_from_digits(value);
    if number > LIMIT as u64 {
        return Err(Refusal::TooLarge);
    }
    Ok(number as usize)
}
