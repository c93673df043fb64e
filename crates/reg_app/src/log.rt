//! The log of connections.

use crate::moment::Moment;
use ags_cli::{Fault, Watched};
use reg_cli::RightsDigests;
use reg_http::Head;
use reg_policy::Day;
use std::alloc::{AllocError, Global};
use std::io::Write;

/// How many bytes of a method and of a path are in a line at most.
const MOST_SHOWN: usize = 256;

/// The bytes of the longest front of a line: a firm, a role, a method and a path, of which each byte takes four.
const LONGEST_FRONT: usize = 2_200;

/// The bytes of the longest list of groups: it is in a head.
const LONGEST_GROUPS: usize = 8_200;

/// The bytes of the longest line.
const LONGEST_LINE: usize = LONGEST_FRONT + LONGEST_GROUPS + 400;

/// A log, to which a line is appended for each connection.
#[derive(Drop)]
pub struct Log<W> {
    out: Watched<W>,
    /// Who asked what, as a line has it.
    front: String,
    /// The groups of an extract, as a line has them.
    groups: String,
    line: String,
    /// The latest day of its lines.
    last_day: Option<Day>,
}

/// What a line says of a connection besides its front and its groups. What is not known is `-`.
#[derive(Clone, Copy, Default)]
pub(crate) struct LineFacts {
    /// When it was accepted.
    pub(crate) moment: Option<Moment>,
    /// The status of the reply; none where there is no reply.
    pub(crate) status: Option<u16>,
    pub(crate) received: u64,
    /// The bytes of the reply.
    pub(crate) replied: u64,
    /// From the accept on, until there was a reply.
    pub(crate) millis: u64,
    /// The number of the receipt, or of the deposit that was requested.
    pub(crate) number: Option<u32>,
    /// The rule that denied, 0 where none matched.
    pub(crate) rule: Option<u32>,
    /// The first bytes of the SHA-256 of the token, of a caller who is known.
    pub(crate) token: Option<[u8; 4]>,
}

impl<W: Write + Drop> Log<W> {
    /// Over a writer, whose last line is of this day. The memory of the longest line is taken here, so that no later
    /// line needs any.
    pub fn new(alloc: Global, out: W, last_day: Option<Day>) -> Result<Log<W>, AllocError> {
        Ok(Log {
            out: Watched::new(out),
            front: String::with_capacity(alloc, LONGEST_FRONT)?,
            groups: String::with_capacity(alloc, LONGEST_GROUPS)?,
            line: String::with_capacity(alloc, LONGEST_LINE)?,
            last_day,
        })
    }

    /// A moment, none where its day is before the latest one of the log: then the clock went back.
    pub(crate) fn trusted(&self, moment: Option<Moment>) -> Option<Moment> {
        let moment = moment?;
        match self.last_day {
            Some(last) if moment.day < last => None,
            _ => Some(moment),
        }
    }

    /// Begins the line of a connection, of which nothing is known yet.
    pub(crate) fn begin(&mut self) {
        self.front.clear();
        self.groups.clear();
    }

    /// Notes who asked what: firm and role, method and path. No token is in it, since it has no field and no query.
    pub(crate) fn note_head(&mut self, head: &Head<'_>) -> Result<(), AllocError> {
        self.front.clear();
        match head.caller {
            Some((caller, _token)) => {
                push_shown(&mut self.front, caller.firm.text().as_bytes())?;
                push_shown(&mut self.front, caller.role.text().as_bytes())?;
            }
            None => self.front.push_str(" - -")?,
        }
        push_shown(&mut self.front, head.method)?;
        push_shown(&mut self.front, head.path.as_bytes())
    }

    /// Notes the groups of an extract, with commas between them.
    pub(crate) fn note_groups(&mut self, groups: &[&[u8]]) -> Result<(), AllocError> {
        self.groups.clear();
        for group in groups {
            let between = if self.groups.is_empty() { " " } else { "," };
            self.groups.push_str(between)?;
            push_escaped(&mut self.groups, group)?;
        }
        Ok(())
    }

    /// Appends the line of a connection, and has it passed on.
    pub(crate) fn append(&mut self, facts: &LineFacts) -> Result<(), Fault> {
        self.begin_line(facts.moment)?;
        push_part(&mut self.line, &self.front, " - - - -")?;
        match facts.status {
            Some(status) => write!(self.line, " {status}")?,
            None => self.line.push_str(" fault")?,
        }
        let (received, replied, millis) = (facts.received, facts.replied, facts.millis);
        write!(self.line, " {received} {replied} {millis}")?;
        push_number(&mut self.line, facts.number)?;
        push_part(&mut self.line, &self.groups, " -")?;
        push_number(&mut self.line, facts.rule)?;
        push_token(&mut self.line, facts.token)?;
        self.end_line()
    }

    /// Appends that a policy and callers apply from now on, with their digests.
    pub(crate) fn append_rights(
        &mut self,
        moment: Option<Moment>,
        event: &str,
        version: &str,
        digests: &RightsDigests,
    ) -> Result<(), Fault> {
        self.begin_line(moment)?;
        write!(self.line, " * {event} {version} policy ")?;
        push_hex(&mut self.line, &digests.policy)?;
        self.line.push_str(" callers ")?;
        push_hex(&mut self.line, &digests.callers)?;
        self.end_line()
    }

    /// Appends that something was refused, and why.
    pub(crate) fn append_refused(
        &mut self,
        moment: Option<Moment>,
        event: &str,
        reason: &[u8],
    ) -> Result<(), Fault> {
        self.begin_line(moment)?;
        write!(self.line, " * {event} refused")?;
        for word in first_bytes(reason).split(|byte| *byte == b' ') {
            push_shown(&mut self.line, word)?;
        }
        self.end_line()
    }

    /// Begins a line with its time.
    fn begin_line(&mut self, moment: Option<Moment>) -> Result<(), AllocError> {
        self.line.clear();
        let Some(Moment { day, second }) = moment else {
            return self.line.push_str("-");
        };
        self.last_day = self.last_day.max(Some(day));
        push_escaped(&mut self.line, &day.text())?;
        let (hours, minutes, seconds) = (second / 3_600, second / 60 % 60, second % 60);
        write!(self.line, "T{hours:02}:{minutes:02}:{seconds:02}Z")
    }

    /// Ends a line, and writes it.
    fn end_line(&mut self) -> Result<(), Fault> {
        self.line.push_str("\n")?;
        Ok(self.out.write_text(self.line.as_bytes())?)
    }
}

/// Appends a part of a line, or what is there where it has none.
fn push_part(line: &mut String, part: &String, none: &str) -> Result<(), AllocError> {
    line.push_str(if part.is_empty() { none } else { part.as_str() })
}

/// Appends a space and a number, if there is one.
fn push_number(line: &mut String, number: Option<u32>) -> Result<(), AllocError> {
    match number {
        Some(number) => write!(line, " {number}"),
        None => line.push_str(" -"),
    }
}

/// Appends a space and what is shown of a token, if it is known.
fn push_token(line: &mut String, token: Option<[u8; 4]>) -> Result<(), AllocError> {
    let Some(token) = token else {
        return line.push_str(" -");
    };
    line.push_str(" ")?;
    push_hex(line, &token)
}

/// Appends bytes as pairs of hexadecimal digits.
fn push_hex(line: &mut String, bytes: &[u8]) -> Result<(), AllocError> {
    for byte in bytes {
        write!(line, "{byte:02x}")?;
    }
    Ok(())
}

/// Appends a space and the first bytes of a text.
fn push_shown(line: &mut String, bytes: &[u8]) -> Result<(), AllocError> {
    line.push_str(" ")?;
    push_escaped(line, first_bytes(bytes))
}

/// As many bytes of a text as a line has of it.
fn first_bytes(bytes: &[u8]) -> &[u8] {
    &bytes[..bytes.len().min(MOST_SHOWN)]
}

/// Appends bytes, of which each that is no printable ASCII, and each backslash, is `\x` and two digits.
fn push_escaped(line: &mut String, bytes: &[u8]) -> Result<(), AllocError> {
    for byte in bytes {
        if byte.is_ascii_graphic() && *byte != b'\\' {
            line.push(char::from(*byte))?;
        } else {
            write!(line, "\\x{byte:02x}")?;
        }
    }
    Ok(())
}
