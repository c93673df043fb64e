//! A register that is served over connections.

ghost use Rattle.std.specs.Prelude.{◌≡◌, false};
ghost use Rattle.reg_app.specs.Serving.{AsksOnce, GoesOn, IsReloaded, Looks, ServesFrom, ServesOn};

use crate::commands::{Machine, open_shown, tell_if_nearly_full};
use crate::connection::{drain_peer, serve_accepted};
use crate::listener::{Listener, Stream};
use crate::log::Log;
use crate::log_file::open_log;
use crate::moment::Moment;
use crate::reload::{Reload, ReloadFile, Renewal};
use crate::stores::Registers;
use crate::version::VERSION;
use ags_cli::{Fault, StreamFailed, Watched, tell, tell_line};
use itoa::Buffer;
use reg_cli::{Failure, Place, Rights, RightsDigests, Service, day_or, read_rights};
use reg_desk::Desk;
use reg_policy::{Callers, Day, Policy};
use reg_store::{Keep, NextStart};
use std::alloc::Global;
use std::fs::File;
use std::io::Write;
use std::time::{Clock, Duration};
use std::{fs, io};

/// Serves connections, one after the other: writes the line of the log before each reply, and then prints the status of
/// the reply, or `fault`. `Stream` where such a line is not written, and `StoreFailed` where that ends it. Before each
/// connection it looks whether rights and log are to be read anew. Once the next start needs more than three quarters of
/// the memory that is allowed, it says so. The store is returned. No clause says what is read, written and printed.
pub fn serve_on<
    'w,
    K: Keep + NextStart,
    C: Clock,
    L: Write + Drop,
    R: Reload<'w, L>,
    W: Write,
    E: Write,
>(
    server: &Server<'_, C>,
    running: Running<K, L>,
    reload: &mut R,
    out: &mut Watched<W>,
    err: &mut Watched<E>,
) -> (Result<(), Fault>, K)
    ensures { ServesOn R.looks reload.old reload.new running.desk running.callers result.1 }
{
    let mut running = running;
    let mut served = Ok(());
    let mut is_nearly_full = running.desk.keep().is_nearly_full();
    'connections: for _ in 0..server.serving.connections {
        if served.is_err() {
            break;
        }
        let (next, done) = serve_connection(server, running, reload, out, err);
        running = next;
        served = done;
        is_nearly_full = is_nearly_full || tell_if_nearly_full(running.desk.keep(), err);
    }
    let Running {
        desk,
        callers: _callers,
        log: _log,
    } = running;
    (served, desk.into_keep())
}

/// What accepts connections and serves them.
#[derive(Drop)]
pub struct Server<'s, C> {
    pub alloc: Global,
    pub clock: &'s C,
    pub listener: &'s Listener,
    pub serving: Serving,
}

/// How connections are served.
#[derive(Clone, Copy)]
pub struct Serving {
    /// The day of the requests; none where it is that of the clock.
    pub day: Option<Day>,
    /// The time for reading a request, and again for writing its reply.
    pub patience: Duration,
    /// How many connections are served.
    pub connections: u64,
    /// Whether no more are served after a reply that the store failed.
    pub ends_on_failure: bool,
}

/// What serves: a reload replaces all of it but the store.
#[derive(Drop)]
pub struct Running<K: Keep, L> {
    pub desk: Desk<K>,
    pub callers: Callers,
    pub log: Option<Log<L>>,
}

/// Accepts a connection, looks, and serves it, unless the look has a line of the log that is not written: what serves
/// from then on.
fn serve_connection<'w, K: Keep, C: Clock, L: Write + Drop, R: Reload<'w, L>, W: Write, E: Write>(
    server: &Server<'_, C>,
    running: Running<K, L>,
    reload: &mut R,
    out: &mut Watched<W>,
    err: &mut Watched<E>,
) -> (Running<K, L>, Result<(), Fault>)
    ensures { GoesOn R.looks reload.old reload.new running.desk result.0.desk running.callers result.0.callers }
{
    let accepted = server.listener.accept();
    let moment = Moment::now(server.clock);
    let (mut running, noted) = renewed(server.alloc, &moment, running, reload, err);
    if noted.is_err() {
        return (running, noted);
    }
    let trusted = trusted(&server.serving, &moment, &running, err);
    let served = serve_next(server, &accepted, trusted, &mut running, out);
    (running, served)
}

/// What serves from now on, and whether its line of the log was written. Where what was read anew is refused, it is what
/// served before.
fn renewed<'w, K: Keep, L: Write + Drop, R: Reload<'w, L>, E: Write>(
    alloc: Global,
    moment: &Option<Moment>,
    running: Running<K, L>,
    reload: &mut R,
    err: &mut Watched<E>,
) -> (Running<K, L>, Result<(), Fault>)
    ensures { Looks R.looks reload.old reload.new running.desk result.0.desk running.callers result.0.callers }
{
    match reload.look(alloc) {
        Renewal::Same => (running, Ok(())),
        Renewal::Anew(rights, log) => renew(*moment, running, rights, log),
        Renewal::Refused(failure) => {
            let mut running = running;
            let noted = note_refused(alloc, *moment, &failure, &mut running.log, err);
            (running, noted)
        }
    }
}

/// Serves under other rights, with another log, from the same store.
fn renew<K: Keep, L: Write + Drop>(
    moment: Option<Moment>,
    running: Running<K, L>,
    rights: Rights,
    log: Option<Log<L>>,
) -> (Running<K, L>, Result<(), Fault>)
    ensures desk { IsReloaded running.desk rights.policy result.0.desk }
    ensures callers { result.0.callers ≡ rights.callers }
{
    let Rights {
        policy,
        callers,
        digests,
    } = rights;
    let Running {
        desk,
        callers: _callers,
        log: _log,
    } = running;
    let mut log = log;
    let noted = note_rights(moment, "reload", &digests, &mut log);
    let desk = under_policy(desk, policy);
    (Running { desk, callers, log }, noted)
}

/// A desk over the same store under another policy. One that has failed answers nothing else under any policy.
fn under_policy<K: Keep>(desk: Desk<K>, policy: Policy) -> Desk<K>
    ensures { IsReloaded desk policy result }
{
    if desk.has_failed() {
        return desk;
    }
    Desk::new(desk.into_keep(), policy)
}

/// Writes that rights apply from now on, if there is a log.
fn note_rights<L: Write + Drop>(
    moment: Option<Moment>,
    event: &str,
    digests: &RightsDigests,
    log: &mut Option<Log<L>>,
) -> Result<(), Fault> {
    match log {
        Some(log) => log.append_rights(log.trusted(moment), event, VERSION, digests),
        None => Ok(()),
    }
}

/// Says on standard error and in the log that a reload is refused, and why. What standard error does not take is no
/// fault.
fn note_refused<'w, L: Write + Drop, E: Write>(
    alloc: Global,
    moment: Option<Moment>,
    failure: &Failure<'w>,
    log: &mut Option<Log<L>>,
    err: &mut Watched<E>,
) -> Result<(), Fault> {
    let reason = reason_of(alloc, failure);
    let _said = tell_line(err, &reason, b"", 0);
    let _said = tell(err, b"groundreg: not reloaded\n", 0);
    let reason = reason.as_slice();
    let reason = reason.strip_prefix(b"groundreg: ").unwrap_or(reason);
    match log {
        Some(log) => log.append_refused(log.trusted(moment), "reload", reason),
        None => Ok(()),
    }
}

/// What is said of a failure, without its line end, and what is wrong with a policy or with callers that are refused.
/// What no memory is there for is left out.
fn reason_of(alloc: Global, failure: &Failure<'_>) -> Vec<u8> {
    let mut reason = Vec::new(alloc);
    let _told = failure.tell(&mut Watched::new(&mut reason));
    let _line_end = reason.pop();
    let _added = match failure {
        Failure::Policy(error) => write!(reason, ": {error}"),
        Failure::Callers(error) => write!(reason, ": {error}"),
        _ => Ok(()),
    };
    reason
}

/// The moment of a connection, none where its day is that of the request and is before the latest one of the log: the
/// clock went back, and nothing is answered by it.
fn trusted<K: Keep, L: Write + Drop, E: Write>(
    serving: &Serving,
    moment: &Option<Moment>,
    running: &Running<K, L>,
    err: &mut Watched<E>,
) -> Option<Moment> {
    let Some(log) = &running.log else {
        return *moment;
    };
    let trusted = log.trusted(*moment);
    if serving.day.is_none() && moment.is_some() && trusted.is_none() {
        let _said = tell(
            err,
            b"groundreg: the day of the clock is before that of the log\n",
            0,
        );
    }
    trusted
}

/// Serves one connection, and prints its line.
fn serve_next<K: Keep, C: Clock, L: Write + Drop, W: Write>(
    server: &Server<'_, C>,
    accepted: &io::Result<Stream>,
    moment: Option<Moment>,
    running: &mut Running<K, L>,
    out: &mut Watched<W>,
) -> Result<(), Fault>
    ensures asked { AsksOnce running.old.callers running.old.desk running.new.desk }
    ensures callers { running.new.callers ≡ running.old.callers }
{
    let outcome = serve_accepted(server, accepted, moment, running);
    if let (Ok(stream), Some(_)) = (accepted, outcome.status) {
        let _ended = drain_peer(server.clock, stream);
    }
    outcome.written?;
    print_line(out, outcome.status)?;
    if server.serving.ends_on_failure && running.desk.has_failed() {
        return Err(Fault::StoreFailed);
    }
    Ok(())
}

/// Prints the line of a connection.
fn print_line<W: Write>(out: &mut Watched<W>, status: Option<u16>) -> Result<(), StreamFailed> {
    let Some(status) = status else {
        return out.write_text(b"fault\n");
    };
    let mut buffer = Buffer::new();
    out.write_line(b"", buffer.format(status).as_bytes())
}

/// Opens the register, listens, and serves.
pub(crate) fn serve_register<'w, G: Registers, W: Write, E: Write>(
    rt: &HostRuntime,
    machine: Machine<G>,
    service: &Service<'w>,
    out: &mut Watched<W>,
    err: &mut Watched<E>,
) -> Result<u8, Failure<'w>> {
    let mut reload = ReloadFile::new(rt, service);
    let rights = read_rights(rt, rt.alloc(), service.policy, service.callers)?;
    let serving = Serving {
        day: given_day(service, machine.today)?,
        patience: Duration::from_secs(u64::from(service.patience)),
        connections: service.connections.map_or(u64::MAX, u64::from),
        ends_on_failure: service.ends_on_failure,
    };
    let log = open_log(rt, service)?;
    let kept = open_shown(rt, machine, service.store, service.shows_progress, err)?;
    let start = Start { kept, rights, log };
    let (served, kept) = serve_keep(rt, service, serving, start, &mut reload, out, err);
    G::close(kept);
    served?;
    Ok(0)
}

/// The day of the requests, if it is not that of the clock.
fn given_day(service: &Service<'_>, today: Option<Day>) -> Result<Option<Day>, Fault> {
    if service.is_day_by_clock {
        return Ok(None);
    }
    Ok(Some(day_or(service.day, today)?))
}

/// What serves at first: a store, rights and a log.
#[derive(Drop)]
pub struct Start<K> {
    pub kept: K,
    pub rights: Rights,
    pub log: Option<Log<File>>,
}

/// Listens, and serves from the store, at first under these rights. The store is returned.
pub fn serve_keep<'w, K: Keep + NextStart, R: Reload<'w, File>, W: Write, E: Write>(
    rt: &HostRuntime,
    service: &Service<'w>,
    serving: Serving,
    start: Start<K>,
    reload: &mut R,
    out: &mut Watched<W>,
    err: &mut Watched<E>,
) -> (Result<(), Failure<'w>>, K)
    requires { K.has_failed start.kept ≡ false }
    ensures { ServesFrom K.Keep R.looks reload.old reload.new start.kept start.rights result.1 }
{
    let Start {
        kept,
        rights: Rights {
            policy,
            callers,
            digests,
        },
        log,
    } = start;
    let desk = Desk::new(kept, policy);
    let mut log = log;
    match listen(rt, service.place, &digests, &mut log, out) {
        Ok(listener) => {
            let server = Server {
                alloc: rt.alloc(),
                clock: rt,
                listener: &listener,
                serving,
            };
            let running = Running { desk, callers, log };
            let (served, kept) = serve_on(&server, running, reload, out, err);
            (end_listening(rt, service.place, served), kept)
        }
        Err(failure) => (Err(failure), desk.into_keep()),
    }
}

/// Removes the file of the socket that was listened on, if it was one, and gives how the serving ended.
fn end_listening<'w>(
    rt: &HostRuntime,
    place: Place<'w>,
    served: Result<(), Fault>,
) -> Result<(), Failure<'w>> {
    if let Place::Socket(path) = place {
        let _removed = fs::remove_file(rt, path);
    }
    Ok(served?)
}

/// Writes that `serve` starts, listens, and prints where.
fn listen<'w, L: Write + Drop, W: Write>(
    rt: &HostRuntime,
    place: Place<'w>,
    digests: &RightsDigests,
    log: &mut Option<Log<L>>,
    out: &mut Watched<W>,
) -> Result<Listener, Failure<'w>> {
    note_rights(Moment::now(rt), "start", digests, log)?;
    let listening = match place {
        Place::Port(port) => Listener::at_port(rt, port),
        Place::Socket(path) => Listener::at_path(rt, path),
    };
    let Ok(listener) = listening else {
        return Err(Failure::CannotListen);
    };
    print_place(out, place)?;
    Ok(listener)
}

/// Prints where it is listened.
fn print_place<W: Write>(out: &mut Watched<W>, place: Place<'_>) -> Result<(), Fault> {
    match place {
        Place::Port(port) => {
            let mut buffer = Buffer::new();
            Ok(out.write_line(b"listening 127.0.0.1:", buffer.format(port).as_bytes())?)
        }
        Place::Socket(path) => Ok(out.write_line(b"listening ", path.as_bytes())?),
    }
}
