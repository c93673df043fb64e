//! What is noted of a connection while it is served, and its line of the log.

use crate::log::{LineFacts, Log};
use crate::moment::Moment;
use crate::sides::Meter;
use ags_cli::Fault;
use reg_desk::{Answer, Request};
use reg_http::{ConnectionNotes, Head};
use reg_policy::Day;
use sha2::{Digest, Sha256};
use std::io::Write;
use std::time::{Clock, Instant};

/// The notes of a connection. Its line is written before its reply is sent.
#[derive(Drop)]
pub(crate) struct Record<'c, 'm, 'l, C, L> {
    clock: &'c C,
    pub(crate) meter: &'m Meter,
    begun: Option<Instant>,
    log: Option<&'l mut Log<L>>,
    facts: LineFacts,
    is_written: bool,
    /// Why the line is not written, if it is not.
    pub(crate) written: Result<(), Fault>,
}

impl<'c, 'm, 'l, C: Clock, L: Write + Drop> Record<'c, 'm, 'l, C, L> {
    /// Of a connection that was accepted now.
    pub(crate) fn new(
        clock: &'c C,
        meter: &'m Meter,
        moment: Option<Moment>,
        log: Option<&'l mut Log<L>>,
    ) -> Record<'c, 'm, 'l, C, L> {
        let mut log = log;
        if let Some(log) = &mut log {
            log.begin();
        }
        Record {
            clock,
            meter,
            begun: Instant::now(clock).ok(),
            log,
            facts: LineFacts {
                moment,
                ..LineFacts::default()
            },
            is_written: false,
            written: Ok(()),
        }
    }

    /// The day of its moment.
    pub(crate) fn day(&self) -> Option<Day> {
        self.facts.moment.map(|moment| moment.day)
    }

    /// Writes the line of a connection that has no reply: none where it has one.
    pub(crate) fn end(&mut self, status: Option<u16>) {
        if !self.is_written {
            self.write_line(status, 0);
        }
    }

    /// Writes the line, after which the reply may be sent.
    fn write_line(&mut self, status: Option<u16>, replied: u64) {
        self.is_written = true;
        self.facts.status = status;
        self.facts.received = self.meter.received.get();
        self.facts.replied = replied;
        self.facts.millis = self.millis();
        if let Some(log) = &mut self.log {
            let appended = log.append(&self.facts);
            self.written = self.written.and(appended);
        }
        self.meter.may_send.set(self.written.is_ok());
    }

    /// The milliseconds since the accept, 0 where the clock does not tell them.
    fn millis(&self) -> u64 {
        let Some(begun) = self.begun else {
            return 0;
        };
        match begun.elapsed(self.clock) {
            Ok(taken) => u64::try_from(taken.as_millis()).unwrap_or(u64::MAX),
            Err(_) => 0,
        }
    }

    /// Notes the groups of an extract.
    fn note_groups(&mut self, groups: &[&[u8]]) {
        if let Some(log) = &mut self.log {
            let noted = log.note_groups(groups).map_err(Fault::from);
            self.written = self.written.and(noted);
        }
    }
}

impl<C: Clock, L: Write + Drop> ConnectionNotes for Record<'_, '_, '_, C, L> {
    fn head(&mut self, head: &Head<'_>) {
        self.facts.token = head.caller.map(|(_caller, token)| shown_of(token));
        if let Some(log) = &mut self.log {
            let noted = log.note_head(head).map_err(Fault::from);
            self.written = self.written.and(noted);
        }
    }

    fn answered(&mut self, request: &Request<'_>, answer: &Answer) {
        match request {
            Request::Extract { number, groups, .. } => {
                self.facts.number = Some(*number);
                self.note_groups(groups);
            }
            Request::Withdraw { number, .. } => self.facts.number = Some(*number),
            _ => {}
        }
        match answer {
            Answer::Receipt { number, .. } => self.facts.number = Some(*number),
            Answer::Denied(rule) => self.facts.rule = Some(*rule),
            _ => {}
        }
    }

    fn replies(&mut self, status: u16, bytes: usize) {
        self.write_line(Some(status), bytes as u64);
    }
}

/// What a log shows of a token: the first bytes of its SHA-256.
fn shown_of(token: &[u8]) -> [u8; 4] {
    let digest: [u8; 32] = Sha256::digest(token);
    [digest[0], digest[1], digest[2], digest[3]]
}
