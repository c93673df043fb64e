//! The worked examples over memory. A desk begins empty, under a policy with three contractors and a consultant.
ghost use Rattle.std.specs.Prelude.{◌<◌, ◌≤◌};

mod cases;
mod replies;
mod slow;

use ags_dict::Dictionary;
use ags_rows::READABLE;
use ags_rows::built_in::MINI;
use reg_desk::Desk;
use reg_http::{IoFault, Served, Tally, serve_list, serve_one};
use reg_policy::{Callers, Day, Policy};
use reg_store::{Keep, PlainKeep};
use replies::replies_on;
use samples_of_tests::{CALLERS, FILE_A, POLICY};
use slow::{reads_deposit, writes_twice};
use std::alloc::{AllocError, Global};
use std::env::Env;
use std::io;
use std::io::{ErrorKind, Read, Write};

/// An empty desk over memory that takes so many deposits, under this policy and dictionary; none where memory is
/// refused, or the dictionary is longer than what can be read.
fn desk_under(alloc: Global, policy: &str, dictionary: &[u8], most: u32) -> Option<Desk<PlainKeep>>
    requires least { 0 < most }
    requires most { most ≤ 999999 }
{
    if dictionary.len() > READABLE {
        return None;
    }
    let dictionary = Dictionary::read(alloc, dictionary).ok()?;
    let policy = Policy::read(alloc, policy).ok()?;
    Some(Desk::new(PlainKeep::with_limit(alloc, dictionary, most), policy))
}

/// The callers of the worked examples; none where memory is refused.
fn known_callers(alloc: Global) -> Option<Callers> {
    Callers::read(alloc, CALLERS).ok()
}

/// Whether a connection was served with this status.
fn has_status(served: &Result<Served, IoFault>, wanted: u16) -> bool {
    match served {
        Ok(Served { status }) => *status == wanted,
        Err(_) => false,
    }
}

/// Serves one connection, and counts the calls of its reader. `serve_one` is called here alone, over type parameters.
fn serve_counted<K: Keep, R: Read + Drop, W: Write + Drop>(
    alloc: Global,
    desk: &mut Desk<K>,
    callers: &Callers,
    day: Day,
    reader: R,
    writer: W,
) -> (u64, Result<Served, IoFault>) {
    let mut reader = Tally::new(reader);
    let mut writer = Tally::new(writer);
    let served = serve_one(alloc, desk, callers, day, &mut reader, &mut writer);
    (reader.calls(), served)
}

/// Serves one connection.
fn serve<K: Keep, R: Read + Drop, W: Write + Drop>(
    alloc: Global,
    desk: &mut Desk<K>,
    callers: &Callers,
    day: Day,
    reader: R,
    writer: W,
) -> Result<Served, IoFault> {
    let (_calls, served) = serve_counted(alloc, desk, callers, day, reader, writer);
    served
}

/// Whether a request on this day is answered by this status and reply, and nothing else is written.
fn answers(
    alloc: Global,
    desk: &mut Desk<PlainKeep>,
    callers: &Callers,
    day: Day,
    request: &[u8],
    status: u16,
    reply: &[u8],
) -> bool {
    let mut written = Vec::new(alloc);
    let served = serve(alloc, desk, callers, day, request, &mut written);
    has_status(&served, status) && written.as_slice() == reply
}

/// What is requested from a desk that begins.
#[derive(Clone, Copy)]
enum Play<'a> {
    /// A connection without a byte.
    Silence,
    /// Three equal deposits.
    Deposits,
    /// Two lists of two equal deposits.
    Lists,
    /// A list of a deposit, nothing, and the same deposit.
    Connections,
    /// Deposits over readers that fail.
    Reads,
    /// This head, and the status, the length and the body of its reply.
    Head(&'a [u8], &'static str, &'static str, &'static str),
    /// This deposit over a writer that fails at the call after so many others.
    Writes(&'a [u8], usize),
}

/// Whether a desk that begins answers as it should what is asked; none where memory ran out exactly once instead.
fn is_played(
    alloc: Global,
    desk: &mut Desk<PlainKeep>,
    callers: &Callers,
    day: Day,
    play: Play<'_>,
) -> Option<bool> {
    match play {
        Play::Silence => Some(answers(alloc, desk, callers, day, b"", 0, b"")),
        Play::Deposits => are_as_ever(deposits_thrice(alloc, desk, callers, day)),
        Play::Lists => are_as_ever(lists_twice(alloc, desk, callers, day)),
        Play::Connections => Some(serves_one_after_the_other(alloc, desk, callers, day)),
        Play::Reads => Some(reads_deposit(alloc, desk, callers, day)),
        Play::Head(head, status, length, body) => {
            replies_on(alloc, desk, callers, day, head, [status, length, body]).ok()
        }
        Play::Writes(request, calls) => {
            Some(writes_twice(alloc, desk, callers, day, request, calls))
        }
    }
}

/// The same at a desk under the small dictionary that takes one deposit; none also where memory is refused before.
fn plays_for(alloc: Global, callers: &Callers, day: Day, play: Play<'_>) -> Option<bool> {
    match desk_under(alloc, POLICY, MINI, 1) {
        Some(mut desk) => is_played(alloc, &mut desk, callers, day, play),
        None => None,
    }
}

/// The same by the callers of the worked examples, on 2024-05-01.
fn plays(alloc: Global, play: Play<'_>) -> Option<bool> {
    let Some(day) = Day::read("2024-05-01") else {
        return Some(false);
    };
    match known_callers(alloc) {
        Some(callers) => plays_for(alloc, &callers, day, play),
        None => None,
    }
}

/// Nothing is written, with status 0, where no byte comes.
#[test]
fn no_byte(rt: HostRuntime) {
    assert!(rt; plays(rt.alloc(), Play::Silence).unwrap_or(false));
}

/// A deposit of the file by Delta.
const DEPOSIT: &[u8] = b"POST /v1/projects/N1/deposits?embargo=2024-06-01 HTTP/1.1\r\n\
Authorization: Bearer t-delta\r\n\
Content-Length: 543\r\n\
\r\n";

fn deposit(alloc: Global) -> Result<Vec<u8>, AllocError> {
    let mut request = Vec::from_slice(alloc, DEPOSIT)?;
    request.extend_from_slice(FILE_A)?;
    Ok(request)
}

/// The reply to it where the register is empty, or holds it.
const RECEIPT: &[u8] = b"HTTP/1.1 200 OK\r\n\
Content-Type: application/json\r\n\
Content-Length: 35\r\n\
Connection: close\r\n\
\r\n\
{\"embargo\":\"2024-06-01\",\"number\":1}";

/// The reply where the engine is refused memory.
const OUT_OF_MEMORY: &[u8] = b"HTTP/1.1 503 Service Unavailable\r\n\
Content-Type: application/json\r\n\
Content-Length: 25\r\n\
Connection: close\r\n\
\r\n\
{\"error\":\"out of memory\"}";

/// Whether memory ran out for a deposit, from the status and what was written; none where it is neither that nor the
/// receipt.
fn ran_out_of_memory(served: &Result<Served, IoFault>, written: &[u8]) -> Option<bool> {
    if has_status(served, 503) && written == OUT_OF_MEMORY {
        Some(true)
    } else if has_status(served, 200) && written == RECEIPT {
        Some(false)
    } else {
        None
    }
}

/// The same of a deposit that is served, and where memory is refused before.
fn deposits(
    alloc: Global,
    desk: &mut Desk<PlainKeep>,
    callers: &Callers,
    day: Day,
) -> Option<bool> {
    let Ok(mut written) = Vec::with_capacity(alloc, 256) else {
        return Some(true);
    };
    let served = serve(
        alloc,
        desk,
        callers,
        day,
        DEPOSIT.chain(FILE_A),
        &mut written,
    );
    ran_out_of_memory(&served, &written)
}

/// For how many of three equal deposits memory ran out.
fn deposits_thrice(
    alloc: Global,
    desk: &mut Desk<PlainKeep>,
    callers: &Callers,
    day: Day,
) -> Option<u32> {
    let mut refused = 0u32;
    for _ in 0..3 {
        let ran_out = deposits(alloc, desk, callers, day)?;
        refused = refused.saturating_add(u32::from(ran_out));
    }
    Some(refused)
}

/// Whether memory never ran out; none where it ran out exactly once.
fn are_as_ever(ran_out: Option<u32>) -> Option<bool> {
    match ran_out {
        Some(1) => None,
        other => Some(other == Some(0)),
    }
}

/// Whether memory ran out exactly once where `conformance/refused_tests` sets OUT_OF_MEMORY, for an answer or before
/// anything was asked, and else never. To read the variable takes no memory.
fn runs_out_as_set(rt: &HostRuntime, played: Option<bool>) -> bool {
    let set = rt.var("OUT_OF_MEMORY", &mut [0u8; 8]).is_ok();
    match played {
        Some(right) => right && !set,
        None => set,
    }
}

/// Three equal deposits: with memory, and where one allocation fails.
#[test]
fn memory_is_refused_once(rt: HostRuntime) {
    assert!(rt; runs_out_as_set(&rt, plays(rt.alloc(), Play::Deposits)));
}

/// Takes one of two texts, and that in one write.
#[derive(Clone, Copy)]
struct Expects {
    text: &'static [u8],
    other: &'static [u8],
}

impl Write for Expects {
    fn write(&mut self, buf: &[u8]) -> io::Result<usize> {
        if buf == self.text || buf == self.other {
            Ok(buf.len())
        } else {
            Err(io::Error::from(ErrorKind::BrokenPipe))
        }
    }

    fn flush(&mut self) -> io::Result<()> {
        Ok(())
    }
}

const RECEIPT_OR_NOT: Expects = Expects {
    text: RECEIPT,
    other: OUT_OF_MEMORY,
};

const RECEIPT_ALONE: Expects = Expects {
    text: RECEIPT,
    other: RECEIPT,
};

/// How many of these answers say out of memory; none where one is neither that nor as ever.
fn count_out_of_memory(results: &[Result<Served, IoFault>]) -> Option<u32> {
    let mut count = 0u32;
    for served in results {
        if has_status(served, 503) {
            count = count.saturating_add(1);
        } else if !has_status(served, 200) {
            return None;
        }
    }
    Some(count)
}

/// How often memory ran out while two equal deposits were served in a list; none where an answer is neither as ever nor
/// out of memory, or where the list was refused whole and something is held that was not.
fn list_out_of_memory(
    alloc: Global,
    desk: &mut Desk<PlainKeep>,
    callers: &Callers,
    day: Day,
) -> Option<u32> {
    let mut connections = [
        (
            Tally::new(DEPOSIT.chain(FILE_A)),
            Tally::new(RECEIPT_OR_NOT),
        ),
        (
            Tally::new(DEPOSIT.chain(FILE_A)),
            Tally::new(RECEIPT_OR_NOT),
        ),
    ];
    let held = desk.keep().count();
    match serve_list(alloc, desk, callers, day, &mut connections) {
        Ok(results) if results.len() == 2 => count_out_of_memory(&results),
        Err(_) if desk.keep().count() == held => Some(1),
        _ => None,
    }
}

/// The same of two such lists.
fn lists_twice(
    alloc: Global,
    desk: &mut Desk<PlainKeep>,
    callers: &Callers,
    day: Day,
) -> Option<u32> {
    let first = list_out_of_memory(alloc, desk, callers, day)?;
    let second = list_out_of_memory(alloc, desk, callers, day)?;
    Some(first.saturating_add(second))
}

/// The same where two equal deposits are served in a list, twice: memory runs out for a list whole or for one answer.
#[test]
fn memory_is_refused_once_in_a_list(rt: HostRuntime) {
    assert!(rt; runs_out_as_set(&rt, plays(rt.alloc(), Play::Lists)));
}

/// Whether these are three answers: the first and the last have status 200, and the second 0.
fn are_three_answers(results: &[Result<Served, IoFault>]) -> bool {
    match results {
        [first, second, third] => {
            has_status(first, 200) && has_status(second, 0) && has_status(third, 200)
        }
        _ => false,
    }
}

/// Whether the first and the last of three connections are written to in one write, and the second is not.
fn are_written_once<R, W>(connections: &[(Tally<R>, Tally<W>); 3]) -> bool {
    let [first, second, third] = connections;
    first.1.calls() == 1 && second.1.calls() == 0 && third.1.calls() == 1
}

/// Whether a deposit, nothing, and the same deposit are served in a list, each reply in one write.
fn serves_one_after_the_other(
    alloc: Global,
    desk: &mut Desk<PlainKeep>,
    callers: &Callers,
    day: Day,
) -> bool {
    let nothing = b"".as_slice();
    let mut connections = [
        (Tally::new(DEPOSIT.chain(FILE_A)), Tally::new(RECEIPT_ALONE)),
        (
            Tally::new(nothing.chain(nothing)),
            Tally::new(RECEIPT_ALONE),
        ),
        (Tally::new(DEPOSIT.chain(FILE_A)), Tally::new(RECEIPT_ALONE)),
    ];
    match serve_list(alloc, desk, callers, day, &mut connections) {
        Ok(results) => are_three_answers(&results) && are_written_once(&connections),
        Err(_) => false,
    }
}

#[test]
fn connections_one_after_the_other(rt: HostRuntime) {
    assert!(rt; plays(rt.alloc(), Play::Connections).unwrap_or(false));
}
