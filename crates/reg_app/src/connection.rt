//! A connection that is served within its time.

ghost use Rattle.std.specs.Prelude.{◌≡◌};
ghost use Rattle.reg_app.specs.Serving.{AsksOnce};

use crate::listener::Stream;
use crate::moment::Moment;
use crate::record::Record;
use crate::server::{Running, Server};
use crate::sides::{Meter, PeerInput, Received, Replied, end_of};
use ags_cli::Fault;
use ags_rows::LIMIT;
use reg_desk::Desk;
use reg_http::{Tally, serve_noted};
use reg_policy::{Callers, Day};
use reg_store::Keep;
use std::alloc::Global;
use std::io;
use std::io::{Read, Write};
use std::time::{Clock, Duration};

/// Serves a connection, if it was accepted, on the day of its moment where no other is given.
pub(crate) fn serve_accepted<K: Keep, C: Clock, L: Write + Drop>(
    server: &Server<'_, C>,
    accepted: &io::Result<Stream>,
    moment: Option<Moment>,
    running: &mut Running<K, L>,
) -> Outcome
    ensures asked { AsksOnce running.old.callers running.old.desk running.new.desk }
    ensures callers { running.new.callers ≡ running.old.callers }
{
    let meter = Meter::default();
    let mut record = Record::new(server.clock, &meter, moment, running.log.as_mut());
    let day = server.serving.day.or(record.day());
    let mut status = None;
    if let (Ok(stream), Some(day)) = (accepted, day) {
        let (callers, desk) = (&running.callers, &mut running.desk);
        let served = serve_stream(server, stream, day, callers, desk, &mut record);
        status = served.ok().flatten();
    }
    record.end(status);
    Outcome {
        status,
        written: record.written,
    }
}

/// What came of a connection.
#[derive(Drop)]
pub(crate) struct Outcome {
    /// The status of the reply, 0 where the connection gave no byte; none where it failed.
    pub(crate) status: Option<u16>,
    /// Why its line of the log is not written, if it is not.
    pub(crate) written: Result<(), Fault>,
}

/// Reads a request within a time, and writes the reply within the same time again: the status of the reply, if it was
/// written.
fn serve_stream<K: Keep, C: Clock, L: Write + Drop>(
    server: &Server<'_, C>,
    stream: &Stream,
    day: Day,
    callers: &Callers,
    desk: &mut Desk<K>,
    record: &mut Record<'_, '_, '_, C, L>,
) -> io::Result<Option<u16>>
    ensures { AsksOnce callers.now desk.old desk.new }
{
    let (clock, patience, meter) = (server.clock, server.serving.patience, record.meter);
    let end = end_of(clock, patience)?;
    let input = PeerInput { clock, stream, end };
    let mut received = Received { input, meter };
    let mut replied = Replied::within(patience, clock, stream, meter);
    let served = serve_noted(
        server.alloc,
        desk,
        callers,
        day,
        &mut Tally::new(&mut received),
        &mut Tally::new(&mut replied),
        record,
    );
    Ok(served.ok().map(|served| served.status))
}

/// Ends a connection that has its reply: nothing more is written, and what the peer still sends is read and dropped, so
/// that it has the reply before it finds the connection closed.
pub(crate) fn drain_peer<C: Clock>(clock: &C, stream: &Stream) -> io::Result<()> {
    stream.end()?;
    let end = end_of(clock, Duration::from_secs(DRAINING))?;
    let rest = PeerInput { clock, stream, end };
    io::copy(&mut rest.take(MOST_DRAINED), &mut io::sink())?;
    Ok(())
}

/// For how many seconds what a peer still sends after its reply is read.
const DRAINING: u64 = 2;

/// How many bytes of it are read: as many as a request may have.
const MOST_DRAINED: u64 = LIMIT as u64 + 8_192;
