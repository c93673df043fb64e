//! Connections that are served, over loopback.

use super::{Failing, failing_after};
use ags_cli::Watched;
use ags_dict::Dictionary;
use ags_rows::built_in::MINI;
use reg_app::{Listener, Log, Reload, Renewal, Running, Server, Serving, serve_on};
use reg_desk::Desk;
use reg_policy::{Callers, Policy};
use reg_store::{Keep, NextStart, PlainKeep};
use samples_of_tests::{CALLERS, FILE_A, POLICY};
use std::alloc::Global;
use std::cell::Cell;
use std::io;
use std::io::{Read, Write};
use std::net::{Shutdown, TcpListener, TcpStream};
use std::test::Fail;
use std::time::{Clock, Duration};

/// What a peer does once it has sent what is asked.
enum Then {
    /// It says that it has sent all.
    Ends,
    /// It sends more, which no one reads.
    GoesOn,
    /// It sends no more, and does not say so.
    Stops,
}

/// One who connects: what is sent, what is done then, and the whole reply.
struct Peer {
    sends: &'static [&'static [u8]],
    then: Then,
    reply: &'static [u8],
}

/// Connections that are there when a listener is served, which waits for others or does not. As many are served as
/// `count` says, from 2024-05-01 on, each a day after the one before. Their lines are printed, and logged where lines
/// of the log are given.
struct Case {
    waits: bool,
    peers: &'static [Peer],
    count: u32,
    printed: &'static [u8],
    logged: &'static [u8],
}

const DEPOSIT: &[u8] = b"POST /v1/projects/N1/deposits?embargo=2024-06-01 HTTP/1.1\r\n\
Authorization: Bearer t-delta\r\n\
Content-Length: 543\r\n\
\r\n";

/// The same without an embargo, so with that of the day, by two firms.
const DELTA: &[u8] =
    b"POST /v1/projects/N1/deposits HTTP/1.1\r\nAuthorization: Bearer t-delta\r\nContent-Length: 543\r\n\r\n";

const FOXTROT: &[u8] =
    b"POST /v1/projects/N1/deposits HTTP/1.1\r\nAuthorization: Bearer t-foxtrot\r\nContent-Length: 543\r\n\r\n";

/// A path with bytes above ASCII, and a token in the query.
const ODD_PATH: &[u8] =
    b"GET /v1/d\xC3\xA9p\xC3\xB4ts\\?token=t-delta HTTP/1.1\r\nAuthorization: Bearer t-echo\r\n\r\n";

const EXTRACT: &[u8] =
    b"GET /v1/projects/N1/deposits/999 HTTP/1.1\r\nAuthorization: Bearer t-delta\r\n\r\n";

/// The beginning of a deposit that is too long, by a caller whom the policy denies it.
const TOO_LONG: &[u8] =
    b"POST /v1/projects/N1/deposits HTTP/1.1\r\nAuthorization: Bearer t-gamma\r\nContent-Length: 16777217\r\n\r\n";

const RECEIPT: &[u8] = b"HTTP/1.1 200 OK\r\n\
Content-Type: application/json\r\n\
Content-Length: 35\r\n\
Connection: close\r\n\
\r\n\
{\"embargo\":\"2024-06-01\",\"number\":1}";

const RECEIPT_OF_MAY_1: &[u8] = b"HTTP/1.1 200 OK\r\n\
Content-Type: application/json\r\n\
Content-Length: 35\r\n\
Connection: close\r\n\
\r\n\
{\"embargo\":\"2024-05-01\",\"number\":1}";

const RECEIPT_OF_MAY_2: &[u8] = b"HTTP/1.1 200 OK\r\n\
Content-Type: application/json\r\n\
Content-Length: 35\r\n\
Connection: close\r\n\
\r\n\
{\"embargo\":\"2024-05-02\",\"number\":2}";

const NO_ROUTE: &[u8] = b"HTTP/1.1 404 Not Found\r\n\
Content-Type: application/json\r\n\
Content-Length: 20\r\n\
Connection: close\r\n\
\r\n\
{\"error\":\"no route\"}";

const UNKNOWN: &[u8] = b"HTTP/1.1 404 Not Found\r\n\
Content-Type: application/json\r\n\
Content-Length: 19\r\n\
Connection: close\r\n\
\r\n\
{\"error\":\"unknown\"}";

const TOO_LARGE: &[u8] = b"HTTP/1.1 413 Payload Too Large\r\n\
Content-Type: application/json\r\n\
Content-Length: 21\r\n\
Connection: close\r\n\
\r\n\
{\"error\":\"too large\"}";

static CASES: [Case; 4] = [
    Case {
        waits: true,
        peers: &[
            Peer {
                sends: &[DEPOSIT, FILE_A],
                then: Then::Ends,
                reply: RECEIPT,
            },
            Peer {
                sends: &[EXTRACT],
                then: Then::Ends,
                reply: UNKNOWN,
            },
            Peer {
                sends: &[TOO_LONG],
                then: Then::Ends,
                reply: TOO_LARGE,
            },
            Peer {
                sends: &[],
                then: Then::Ends,
                reply: b"",
            },
        ],
        count: 4,
        printed: b"200\n404\n413\n0\n",
        logged: b"2024-05-01T10:20:30Z Delta contractor POST /v1/projects/N1/deposits 200 656 125 0 1 - - 2d20076c\n\
2024-05-02T10:20:30Z Delta contractor GET /v1/projects/N1/deposits/999 404 76 116 0 999 - - 2d20076c\n\
2024-05-03T10:20:30Z Gamma contractor POST /v1/projects/N1/deposits 413 99 126 0 - - - d7ff6562\n\
2024-05-04T10:20:30Z - - - - 0 0 0 0 - - - -\n",
    },
    // Each is served on the day of its own, and a log has no token. A peer that stops is cut.
    Case {
        waits: true,
        peers: &[
            Peer {
                sends: &[DELTA, FILE_A],
                then: Then::Ends,
                reply: RECEIPT_OF_MAY_1,
            },
            Peer {
                sends: &[FOXTROT, FILE_A],
                then: Then::Stops,
                reply: RECEIPT_OF_MAY_2,
            },
            Peer {
                sends: &[ODD_PATH],
                then: Then::Ends,
                reply: NO_ROUTE,
            },
            Peer {
                sends: &[DELTA],
                then: Then::Stops,
                reply: b"",
            },
        ],
        count: 4,
        printed: b"200\n200\n404\nfault\n",
        logged: b"2024-05-01T10:20:30Z Delta contractor POST /v1/projects/N1/deposits 200 637 125 0 1 - - 2d20076c\n\
2024-05-02T10:20:30Z Foxtrot contractor POST /v1/projects/N1/deposits 200 639 125 0 2 - - 47327daa\n\
2024-05-03T10:20:30Z Echo consultant GET /v1/d\\xc3\\xa9p\\xc3\\xb4ts\\x5c 404 74 117 0 - - - 2ba50d83\n\
2024-05-04T10:20:30Z Delta contractor POST /v1/projects/N1/deposits fault 94 0 0 - - - 2d20076c\n",
    },
    // A peer that has sent more than is read has the whole reply, and then its end.
    Case {
        waits: true,
        peers: &[
            Peer {
                sends: &[EXTRACT],
                then: Then::GoesOn,
                reply: UNKNOWN,
            },
            Peer {
                sends: &[DEPOSIT, FILE_A],
                then: Then::GoesOn,
                reply: RECEIPT,
            },
        ],
        count: 2,
        printed: b"404\n200\n",
        logged: b"",
    },
    // A listener that does not wait fails to accept where no connection is there. That is printed, and counts as a
    // connection.
    Case {
        waits: false,
        peers: &[Peer {
            sends: &[EXTRACT],
            then: Then::Ends,
            reply: UNKNOWN,
        }],
        count: 3,
        printed: b"404\nfault\nfault\n",
        logged: b"2024-05-01T10:20:30Z Delta contractor GET /v1/projects/N1/deposits/999 404 76 116 0 999 - - 2d20076c\n\
2024-05-02T10:20:30Z - - - - fault 0 0 0 - - - -\n\
2024-05-03T10:20:30Z - - - - fault 0 0 0 - - - -\n",
    },
];

/// A listener that waits for a connection, or does not.
fn listening(rt: &HostRuntime, waits: bool) -> io::Result<TcpListener> {
    let listener = TcpListener::bind(rt, "127.0.0.1:0")?;
    listener.set_nonblocking(!waits)?;
    Ok(listener)
}

/// Writes what a peer sends.
fn write_parts<W: Write>(stream: &mut W, parts: &[&[u8]]) -> io::Result<()> {
    for part in parts {
        stream.write_all(part)?;
    }
    Ok(())
}

/// Writes what a peer sends, and more after it where it goes on.
fn write_sent<W: Write>(stream: &mut W, alloc: Global, peer: &Peer) -> io::Result<()> {
    write_parts(stream, peer.sends)?;
    match peer.then {
        Then::GoesOn => stream.write_all("x".repeat(alloc, 20_000)?.as_bytes()),
        Then::Ends | Then::Stops => Ok(()),
    }
}

/// Sends what a peer sends, and says that it was all, where it does.
fn send(alloc: Global, stream: &mut TcpStream, peer: &Peer) -> io::Result<()> {
    write_sent(stream, alloc, peer)?;
    match peer.then {
        Then::Ends => stream.shutdown(Shutdown::Write),
        Then::GoesOn | Then::Stops => Ok(()),
    }
}

/// The connection of a peer.
fn connected(rt: &HostRuntime, listener: &TcpListener, peer: &Peer) -> io::Result<TcpStream> {
    let mut stream = TcpStream::connect(rt, listener.local_addr()?)?;
    send(rt.alloc(), &mut stream, peer)?;
    Ok(stream)
}

/// The connections of peers, in their order.
fn all_connected(
    rt: &HostRuntime,
    listener: &TcpListener,
    peers: &[Peer],
) -> io::Result<Vec<TcpStream>> {
    let mut streams = Vec::new(rt.alloc());
    for peer in peers {
        streams.push(connected(rt, listener, peer)?)?;
    }
    Ok(streams)
}

/// Whether this is the whole reply.
fn replied(alloc: Global, mut stream: &TcpStream, want: &[u8]) -> io::Result<bool> {
    let mut reply = Vec::new(alloc);
    stream.read_to_end(&mut reply)?;
    Ok(reply.as_slice() == want)
}

/// Whether each peer has its whole reply.
fn all_replied(alloc: Global, streams: &[TcpStream], peers: &[Peer]) -> io::Result<bool> {
    for (stream, peer) in streams.iter().zip(peers) {
        if !replied(alloc, stream, peer.reply)? {
            return Ok(false);
        }
    }
    Ok(true)
}

/// A clock that tells a day, 37,230 seconds into it, and at each further call the next. Its time does not pass.
#[derive(Drop)]
struct Calendar {
    day: Cell<u64>,
}

/// A calendar from 2024-05-01 on.
fn calendar_from_may() -> Calendar {
    Calendar {
        day: Cell::new(19_844),
    }
}

impl Clock for Calendar {
    fn monotonic(&self) -> io::Result<Duration> {
        Ok(Duration::from_secs(7))
    }

    fn since_1970(&self) -> io::Result<Duration> {
        let day = self.day.get();
        self.day.set(day.saturating_add(1));
        let seconds = day.saturating_mul(86_400).saturating_add(37_230);
        Ok(Duration::from_secs(seconds))
    }
}

/// A sign that never changes.
#[derive(Drop)]
struct Unchanged;

impl<'w, L> Reload<'w, L> for Unchanged {
    fn look(&mut self, _alloc: Global) -> Renewal<'w, L> {
        Renewal::Same
    }
}

/// Serves so many connections by a clock, with a second of patience, from an empty store in memory: the status of the
/// run.
fn serve_some<C: Clock, W: Write, L: Write + Drop>(
    alloc: Global,
    clock: &C,
    listener: &Listener,
    connections: u64,
    out: &mut W,
    log: L,
) -> Result<u8, Fail> {
    let callers = Callers::read(alloc, CALLERS)?;
    let policy = Policy::read(alloc, POLICY)?;
    let log = Some(Log::new(alloc, log, None)?);
    let dictionary = Dictionary::read(alloc, MINI)?;
    let keep = PlainKeep::new(alloc, dictionary);
    let desk = Desk::new(keep, policy);
    let running = Running { desk, callers, log };
    Ok(serve_running(alloc, clock, listener, connections, running, out))
}

/// Serves what runs: the status of the run.
fn serve_running<K: Keep + NextStart + Drop, C: Clock, W: Write, L: Write + Drop>(
    alloc: Global,
    clock: &C,
    listener: &Listener,
    connections: u64,
    running: Running<K, L>,
    out: &mut W,
) -> u8 {
    let server = Server {
        alloc,
        clock,
        listener,
        serving: Serving {
            day: None,
            patience: Duration::from_secs(1),
            connections,
            ends_on_failure: false,
        },
    };
    let mut said = Vec::new(alloc);
    let err = &mut Watched::new(&mut said);
    let out = &mut Watched::new(out);
    let (served, _keep) = serve_on(&server, running, &mut Unchanged, out, err);
    match served {
        Ok(()) => 0,
        Err(fault) => fault.status(),
    }
}

/// Whether a listener is served with status 0 and the lines of a case.
fn prints(alloc: Global, listener: &Listener, case: &Case) -> Result<bool, Fail> {
    let (mut printed, mut logged) = (Vec::new(alloc), Vec::new(alloc));
    let count = u64::from(case.count);
    let status = serve_some(
        alloc,
        &calendar_from_may(),
        listener,
        count,
        &mut printed,
        &mut logged,
    )?;
    let is_logged = case.logged.is_empty() | (logged.as_slice() == case.logged);
    Ok((status == 0) & (printed.as_slice() == case.printed) & is_logged)
}

/// Whether a listener to which these are connected is served as a case says.
fn holds(
    alloc: Global,
    listener: &Listener,
    streams: &[TcpStream],
    case: &Case,
) -> Result<bool, Fail> {
    if !prints(alloc, listener, case)? {
        return Ok(false);
    }
    Ok(all_replied(alloc, streams, case.peers)?)
}

/// Whether a case is served as it says.
fn is_served(rt: &HostRuntime, case: &Case) -> Result<bool, Fail> {
    let listener = listening(rt, case.waits)?;
    let streams = all_connected(rt, &listener, case.peers)?;
    holds(
        rt.alloc(),
        &Listener::Port(listener),
        streams.as_slice(),
        case,
    )
}

#[test]
fn connections_are_served(rt: HostRuntime) -> Result<(), Fail> {
    for case in &CASES {
        assert!(rt; is_served(&rt, case)?);
    }
    Ok(())
}

/// Serves two connections of a listener that has none. Status 6 is wanted where a line fails.
fn has_ended(
    alloc: Global,
    listener: &Listener,
    out: &mut Failing<'_>,
    log: &mut Failing<'_>,
    fails: bool,
) -> Result<bool, Fail> {
    let status = serve_some(alloc, &calendar_from_may(), listener, 2, out, log)?;
    Ok(status == if fails { 6 } else { 0 })
}

/// Whether a run is right whose write or flush of a line after `calls` others fails: two connections that fail take
/// four.
fn line_fails(alloc: Global, listener: &Listener, calls: usize) -> Result<bool, Fail> {
    let mut out = failing_after(alloc, b"", 100, calls);
    let mut log = failing_after(alloc, b"", 100, 9);
    let has_ended = has_ended(alloc, listener, &mut out, &mut log, calls < 4)?;
    Ok(has_ended & out.has(calls < 4, b"fault\nfault\n"))
}

/// The same of a line of the log.
fn logged_line_fails(alloc: Global, listener: &Listener, calls: usize) -> Result<bool, Fail> {
    let mut out = failing_after(alloc, b"", 100, 9);
    let mut log = failing_after(alloc, b"", 100, calls);
    let has_ended = has_ended(alloc, listener, &mut out, &mut log, calls < 4)?;
    let lines =
        b"2024-05-01T10:20:30Z - - - - fault 0 0 0 - - - -\n2024-05-02T10:20:30Z - - - - fault 0 0 0 - - - -\n";
    Ok(has_ended & log.has(calls < 4, lines))
}

/// Each write and flush of a line fails once, of those that are printed and of those of the log: the run ends with it.
#[test]
fn a_line_that_is_not_written(rt: HostRuntime) -> Result<(), Fail> {
    let listener = Listener::Port(listening(&rt, false)?);
    for calls in 0..6 {
        assert!(rt; line_fails(rt.alloc(), &listener, calls)?);
        assert!(rt; logged_line_fails(rt.alloc(), &listener, calls)?);
    }
    Ok(())
}
