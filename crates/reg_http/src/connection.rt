//! One connection.
ghost use Rattle.std.specs.Prelude.{◌≡◌, ◌≤◌, ◌+◌, ℕ, false, List, [], IfSome, IsTrue};
ghost use Rattle.reg_http.specs.Asks.{ask_of};
ghost use Rattle.reg_http.specs.Connections.{ServesPair, most_calls};
ghost use Rattle.reg_http.specs.HeadParts.{parts_seen};
ghost use Rattle.reg_desk.specs.Asked.{asked};
ghost use Rattle.reg_http.specs.Rendering.{is_fixed, rendered, status_of};
ghost use Rattle.reg_http.specs.Serving.{ServesAnswer, WaitsFor, body_reads, is_read, is_write};
ghost use Rattle.reg_http.specs.Sides.{ServesAskedFrom, ServesHead, ServesOneFrom, ServesOneTo};
ghost use Rattle.reg_http.specs.Sides.{ServesRequestTo, TellsFaults, WrittenTo};
ghost use Rattle.reg_http.specs.Tallies.{tally_inner, calls_of, tally_has_failed, IsFresh};

use crate::error::{BodyFault, IoFault, Refusal};
use crate::notes::{ConnectionNotes, Unnoted, head_in};
use crate::reply::answer::{answer_status, built_reply, fixed_reply};
use crate::request::body::receive_body;
use crate::request::head::{HeadRead, LONGEST_HEAD, MOST_FIELDS, receive_head};
use crate::request::parts::Parts;
use crate::request::{HeadAsk, head_parts, read_ask};
use crate::tally::{Tally, write_text};
use ags_rows::LIMIT;
use http::StatusCode;
use httparse::spans::EMPTY_HEADER_SPAN;
use reg_desk::{Answer, Desk, Request};
use reg_policy::{Callers, Day};
use reg_store::Keep;
use std::alloc::Global;
use std::io::{Read, Write};

/// Serves one connection: reads a request, calls the desk, and writes the reply. Reader and writer are fresh.
/// Over a reader whose bytes contracts can name, at most 8,192 reads are made where the head is refused.
/// A reply is one write where the writer takes it: `connections_one_after_the_other` tests it, and no clause says so.
pub fn serve_one<K: Keep, R: Read, W: Write>(
    alloc: Global,
    desk: &mut Desk<K>,
    callers: &Callers,
    day: Day,
    reader: &mut Tally<R>,
    writer: &mut Tally<W>,
) -> Result<Served, IoFault>
    requires reader_fresh { IsFresh reader.old }
    requires writer_fresh { IsFresh writer.old }

    // What is written and what the desk is then, by what the bytes of the reader are read as.
    ensures served { ServesOneFrom R.Read W.Write callers.now day reader.old
        desk.old desk.new writer.old writer.new result }

    // The same of some bytes, where contracts cannot name the reader's own: the desk was called once at most.
    ensures unnamed { (bytes : List ℕ) × ServesOneTo W.Write callers.now day bytes
        desk.old desk.new writer.old writer.new result }

    // Faults are those of the two sides, each exactly.
    ensures read_fault { tally_has_failed reader.new ≡ is_read result }
    ensures write_fault { tally_has_failed writer.new ≡ is_write result }
    ensures unread { IsTrue (is_read result) → (desk.new ≡ desk.old) × (writer.new ≡ writer.old) }
    ensures silent { IfSome (R.remaining (tally_inner reader.old)) (λ bytes. bytes ≡ [] → writer.new ≡ writer.old) }
    ensures calls { calls_of reader.new ≤ most_calls }
    ensures waits { IfSome (R.remaining (tally_inner reader.old)) (λ bytes.
        WaitsFor callers.now day bytes (calls_of reader.new)) }
{
    serve_noted(alloc, desk, callers, day, reader, writer, &mut Unnoted)
}

/// The same, with notes taken of it.
pub fn serve_noted<K: Keep, R: Read, W: Write, N: ConnectionNotes>(
    alloc: Global,
    desk: &mut Desk<K>,
    callers: &Callers,
    day: Day,
    reader: &mut Tally<R>,
    writer: &mut Tally<W>,
    notes: &mut N,
) -> Result<Served, IoFault>
    requires reader_fresh { IsFresh reader.old }
    requires writer_fresh { IsFresh writer.old }
    ensures { ServesPair R.Read W.Write callers.now day (reader.old, writer.old) (reader.new, writer.new)
        desk.old desk.new result }
{
    let mut buf = [0u8; LONGEST_HEAD];
    let mut headers = [EMPTY_HEADER_SPAN; MOST_FIELDS];
    match receive_head(reader, &mut buf, &mut headers) {
        HeadRead::Empty => Ok(Served { status: 0 }),
        HeadRead::Fault => Err(IoFault::Read),
        HeadRead::Bad => refuse(writer, notes, Refusal::BadHead),
        HeadRead::Whole(spans, filled) => {
            let bytes = &buf[..filled];
            let parts = head_parts(bytes, &headers, &spans);
            notes.head(&head_in(callers, &parts));
            serve_head(
                alloc,
                desk,
                callers,
                day,
                &parts,
                &bytes[spans.len..],
                reader,
                writer,
                notes,
            )
        }
    }
}

/// A connection was served.
#[derive(Clone, Copy, Debug, PartialEq, Eq)]
pub struct Served {
    /// The status of the reply, 0 where the connection gave no byte.
    pub status: u16,
}

/// Serves what a head asks that was read, of whose body the first bytes came early with it.
fn serve_head<K: Keep, R: Read, W: Write, N: ConnectionNotes>(
    alloc: Global,
    desk: &mut Desk<K>,
    callers: &Callers,
    day: Day,
    parts: &Parts<'_>,
    early: &[u8],
    reader: &mut Tally<R>,
    writer: &mut Tally<W>,
    notes: &mut N,
) -> Result<Served, IoFault>
    requires reader_sound { tally_has_failed reader.old ≡ false }
    requires writer_sound { tally_has_failed writer.old ≡ false }

    // At bytes that begin with a head of these parts.
    ensures served { ServesHead R.Read W.Write callers.now day parts.now early.now reader.old
        desk.old desk.new writer.old writer.new result }

    ensures faults { TellsFaults reader.new desk.old desk.new writer.old writer.new result }

    // How many reads are made at most.
    ensures calls { calls_of reader.new ≤ calls_of reader.old + LIMIT + 1 }
    ensures waits { calls_of reader.new
        ≤ calls_of reader.old + body_reads (ask_of callers.now day (parts_seen parts.now)) }
{
    match read_ask(alloc, callers, day, parts) {
        Ok(asking) => serve_asked(alloc, desk, day, &asking, early, reader, writer, notes),
        Err(refusal) => refuse(writer, notes, refusal),
    }
}

/// Reads the body of what is asked, of which the first bytes came early with the head, and serves the request.
fn serve_asked<K: Keep, R: Read, W: Write, N: ConnectionNotes>(
    alloc: Global,
    desk: &mut Desk<K>,
    day: Day,
    asking: &HeadAsk<'_>,
    early: &[u8],
    reader: &mut Tally<R>,
    writer: &mut Tally<W>,
    notes: &mut N,
) -> Result<Served, IoFault>
    requires reader_sound { tally_has_failed reader.old ≡ false }
    requires writer_sound { tally_has_failed writer.old ≡ false }

    // What is written and what the desk is then, by the bytes that came early and those that the reader still had.
    ensures served { ServesAskedFrom R.Read W.Write asking.now day early.now reader.old
        desk.old desk.new writer.old writer.new result }

    ensures faults { TellsFaults reader.new desk.old desk.new writer.old writer.new result }

    // How many reads are made at most.
    ensures calls { calls_of reader.new ≤ calls_of reader.old + asking.now.length + 1 }
{
    let body = match receive_body(alloc, reader, early, asking.length) {
        Ok(body) => body,
        Err(BodyFault::Read) => return Err(IoFault::Read),
        Err(BodyFault::Short) => return refuse(writer, notes, Refusal::ShortBody),
        Err(BodyFault::Memory) => return refuse(writer, notes, Refusal::OutOfMemory),
    };
    let ask = &asking.ask;
    let Ok(groups) = ask.groups(alloc) else {
        return refuse(writer, notes, Refusal::OutOfMemory);
    };
    let request = ask.request(asking.caller, &asking.project, day, &body, &groups);
    serve_request(alloc, desk, &request, writer, notes)
}

/// Calls the desk, and writes the reply to its answer.
fn serve_request<K: Keep, W: Write, N: ConnectionNotes>(
    alloc: Global,
    desk: &mut Desk<K>,
    request: &Request<'_>,
    writer: &mut Tally<W>,
    notes: &mut N,
) -> Result<Served, IoFault>
    requires { tally_has_failed writer.old ≡ false }
    ensures served { ServesRequestTo W.Write (asked request.entry.now)
        desk.old desk.new writer.old writer.new result }
    ensures write_fault { tally_has_failed writer.new ≡ is_write result }
    ensures no_read { is_read result ≡ false }
{
    let answer = desk.answer(alloc, request);
    notes.answered(request, &answer);
    serve_answer(alloc, &answer, writer, notes)
}

/// Writes the reply to an answer.
fn serve_answer<W: Write, N: ConnectionNotes>(
    alloc: Global,
    answer: &Answer,
    writer: &mut Tally<W>,
    notes: &mut N,
) -> Result<Served, IoFault>
    requires { tally_has_failed writer.old ≡ false }
    ensures served { ServesAnswer answer.now
        (W.contents (tally_inner writer.old)) (W.contents (tally_inner writer.new)) result }
    ensures write_fault { tally_has_failed writer.new ≡ is_write result }
    ensures no_read { is_read result ≡ false }
{
    match fixed_reply(answer) {
        Some(text) => finish(writer, notes, answer_status(answer), text.as_bytes()),
        None => serve_built(alloc, answer, writer, notes),
    }
}

/// Builds the reply to an answer and writes it.
fn serve_built<W: Write, N: ConnectionNotes>(
    alloc: Global,
    answer: &Answer,
    writer: &mut Tally<W>,
    notes: &mut N,
) -> Result<Served, IoFault>
    requires sound { tally_has_failed writer.old ≡ false }
    requires built { is_fixed answer.now ≡ false }
    ensures served { ServesAnswer answer.now
        (W.contents (tally_inner writer.old)) (W.contents (tally_inner writer.new)) result }
    ensures write_fault { tally_has_failed writer.new ≡ is_write result }
    ensures no_read { is_read result ≡ false }
{
    match built_reply(alloc, answer) {
        Ok(text) => finish(writer, notes, answer_status(answer), &text),
        Err(_) => refuse(writer, notes, Refusal::OutOfMemory),
    }
}

/// Writes the reply to a refusal.
fn refuse<W: Write, N: ConnectionNotes>(
    writer: &mut Tally<W>,
    notes: &mut N,
    refusal: Refusal,
) -> Result<Served, IoFault>
    requires { tally_has_failed writer.old ≡ false }
    ensures written { WrittenTo W.Write writer.old writer.new (rendered refusal) (status_of refusal) result }
    ensures write_fault { tally_has_failed writer.new ≡ is_write result }
    ensures no_read { is_read result ≡ false }
{
    finish(writer, notes, refusal.status(), refusal.reply().as_bytes())
}

/// Writes a reply.
fn finish<W: Write, N: ConnectionNotes>(
    writer: &mut Tally<W>,
    notes: &mut N,
    status: StatusCode,
    text: &[u8],
) -> Result<Served, IoFault>
    requires { tally_has_failed writer.old ≡ false }
    ensures written { WrittenTo W.Write writer.old writer.new text.now status result }
    ensures write_fault { tally_has_failed writer.new ≡ is_write result }
    ensures no_read { is_read result ≡ false }
{
    let status = status.as_u16();
    notes.replies(status, text.len());
    if write_text(writer, text) {
        Ok(Served { status })
    } else {
        Err(IoFault::Write)
    }
}
