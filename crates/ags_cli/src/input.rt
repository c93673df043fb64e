//! Reading the file.

ghost use Rattle.std.specs.Prelude.{◌≡◌, ◌||◌, ◌+◌, ◌<◌, ◌≤◌, IfOk, IfErr, IfSome, length};
ghost use Rattle.ags_cli.specs.Faults.{is_stream_fault};
ghost use Rattle.ags_cli.specs.Reading.{AppendedIfOk, IsOfReading, ReadsFile, TakesAtMost};

use crate::error::Fault;
use crate::watched::Watched;
use ags_rows::LIMIT;
use std::alloc::{AllocError, Global};
use std::cmp::min;
use std::io::Read;

/// All bytes of the stream. No byte beyond the one after LIMIT is asked for.
pub(crate) fn read_file<R: Read>(alloc: Global, input: &mut Watched<R>) -> Result<Vec<u8>, Fault>
    ensures taken { TakesAtMost (LIMIT + 1) (R.remaining input.old.inner) (R.remaining input.new.inner) }
    ensures short { IfOk result (λ bytes. length bytes.items ≤ LIMIT) }
    ensures noted { input.new.failed ≡ (input.old.failed || is_stream_fault result) }
    ensures file { IfSome (R.remaining input.old.inner) (λ all. ReadsFile all result) }
{
    let mut bytes = Vec::new(alloc);
    let mut piece = vec![in alloc; 0u8; PIECE].map_err(AllocError::from)?;
    while bytes.len() <= LIMIT {
        let room = min(PIECE, LIMIT + 1 - bytes.len());
        let count = read_piece(input, &mut piece, room, &mut bytes)?;
        if count == 0 {
            return Ok(bytes);
        }
    }
    Err(Fault::TooLarge)
}

/// How many bytes are asked for at a time.
const PIECE: usize = 65_536;

/// Appends the bytes of one read of at most `room` bytes: how many, 0 at the end.
fn read_piece<R: Read>(
    input: &mut Watched<R>,
    piece: &mut [u8],
    room: usize,
    bytes: &mut Vec<u8>,
) -> Result<usize, Fault>
    requires some { 0 < room }
    requires wide { room ≤ length piece.old }
    ensures taken { TakesAtMost room (R.remaining input.old.inner) (R.remaining input.new.inner) }
    ensures appended { AppendedIfOk result
        (R.remaining input.old.inner) (R.remaining input.new.inner) bytes.old.items bytes.new.items }
    ensures few { IfOk result (λ count. count ≤ room) }
    ensures fault { IfErr result IsOfReading }
    ensures noted { input.new.failed ≡ (input.old.failed || is_stream_fault result) }
{
    let count = input.read(&mut piece[..room])?;
    bytes.extend_from_slice(&piece[..count])?;
    Ok(count)
}
