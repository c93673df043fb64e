//! What a head asks.
ghost use Rattle.std.specs.Prelude.{◌≡◌, ◌≤◌, IfOk, codes};
ghost use Rattle.std.specs.Str.{IsUtf8};
ghost use Rattle.httparse.specs.Grammar.{RequestHead};
ghost use Rattle.httparse.specs.Spans.{IsRequestAt, IsRequestWithin};
ghost use Rattle.reg_http.specs.Agree.{IsAsDefined};
ghost use Rattle.reg_http.specs.Asks.{ask_of, ask_verb, body_length, caller_by, caller_in, token_in};
ghost use Rattle.reg_http.specs.Fields.{few_seen};
ghost use Rattle.reg_http.specs.Numbers.{length_in};
ghost use Rattle.reg_http.specs.HeadParts.{parts_seen, head_parts, path_of, query_of, values_in};
ghost use Rattle.reg_http.specs.Views.{asking_at, first_lent, found_page};

pub(crate) mod body;
pub(crate) mod fields;
pub(crate) mod head;
pub(crate) mod parts;
pub(crate) mod query;
pub(crate) mod route;

use crate::error::Refusal;
use crate::request::body::length_of;
use crate::request::fields::{Values, values_named};
use crate::request::parts::Parts;
use crate::request::query::{project_in_path, read_query};
use crate::request::route::{FoundPage, find};
use ags_rows::LIMIT;
use httparse::spans::{HeaderSpan, RequestSpans};
use reg_policy::{Caller, Callers, Day, Name, Verb};
use reg_request::Ask;
use std::alloc::Global;
use std::str::from_utf8;

/// What a head asks, or why it is refused.
pub(crate) fn read_ask<'b>(
    alloc: Global,
    callers: &'b Callers,
    day: Day,
    parts: &Parts<'b>,
) -> Result<HeadAsk<'b>, Refusal>
    ensures limit { IfOk result (λ a. a.length ≤ LIMIT) }
    ensures agrees { IsAsDefined asking_at (ask_of callers.now day (parts_seen parts.now)) result }
{
    let found = find(alloc, parts.path)?;
    let verb = found.page.verb(parts.method)?;
    ask_verb(alloc, callers, day, parts, &found, verb)
}

/// A request without its body.
#[derive(Drop)]
pub(crate) struct HeadAsk<'b> {
    pub(crate) caller: &'b Caller,
    pub(crate) project: Name,
    pub(crate) ask: Ask<'b>,
    /// The bytes of its body.
    pub(crate) length: usize,
}

/// Caller, length of the body, and parameters.
fn ask_verb<'b>(
    alloc: Global,
    callers: &'b Callers,
    day: Day,
    parts: &Parts<'b>,
    found: &FoundPage<'b>,
    verb: Verb,
) -> Result<HeadAsk<'b>, Refusal>
    ensures limit { IfOk result (λ a. a.length ≤ LIMIT) }
    ensures agrees { IsAsDefined asking_at
        (ask_verb callers.now day (parts_seen parts.now) (found_page found.now) verb) result }
{
    let caller = caller_in(callers, parts)?.0;
    let length = body_length(verb, parts)?;
    let project = project_in_path(alloc, found.project)?;
    let ask = read_query(alloc, verb, found.number, parts.query.as_bytes(), day)?;
    Ok(HeadAsk {
        caller,
        project,
        ask,
        length,
    })
}

/// The caller by the one Authorization field, with the token.
pub(crate) fn caller_in<'b>(
    callers: &'b Callers,
    parts: &Parts<'b>,
) -> Result<(&'b Caller, &'b [u8]), Refusal>
    ensures { IsAsDefined first_lent
        (caller_in callers.now (values_in (parts_seen parts.now) (codes "authorization"))) result }
{
    match values(parts, b"authorization") {
        Values::One(value) => caller_by(callers, value),
        Values::Absent | Values::Many => Err(Refusal::NoCaller),
    }
}

/// The caller by the value of an Authorization field: a known token after `Bearer` and one space.
fn caller_by<'b>(callers: &'b Callers, value: &'b [u8]) -> Result<(&'b Caller, &'b [u8]), Refusal>
    ensures { IsAsDefined first_lent (caller_by callers.now (token_in value.now)) result }
{
    if !value.starts_with(b"Bearer ") {
        return Err(Refusal::NoCaller);
    }
    let token = &value[7..];
    match callers.find(token) {
        Some(caller) => Ok((caller, token)),
        None => Err(Refusal::NoCaller),
    }
}

/// The length of the body, which those that are posted have.
fn body_length(verb: Verb, parts: &Parts<'_>) -> Result<usize, Refusal>
    ensures value { result ≡ body_length verb (parts_seen parts.now) }
    ensures limit { IfOk result (λ n. n ≤ LIMIT) }
{
    match verb {
        Verb::Check | Verb::Deposit => length_in(
            values(parts, b"transfer-encoding"),
            values(parts, b"content-length"),
        ),
        Verb::List | Verb::Extract | Verb::Withdraw | Verb::See => Ok(0),
    }
}

/// The length by the fields Transfer-Encoding and Content-Length.
fn length_in(codings: Values<'_>, lengths: Values<'_>) -> Result<usize, Refusal>
    ensures value { result ≡ length_in (few_seen codings.entry) (few_seen lengths.entry) }
    ensures limit { IfOk result (λ n. n ≤ LIMIT) }
{
    match (codings, lengths) {
        (Values::Absent, Values::One(value)) => length_of(value),
        (Values::Absent, Values::Many) => Err(Refusal::BadLength),
        _ => Err(Refusal::LengthRequired),
    }
}

/// The values of the fields of this name.
pub(crate) fn values<'b>(parts: &Parts<'b>, name: &[u8]) -> Values<'b>
    ensures { few_seen result ≡ values_in (parts_seen parts.now) name.now }
{
    values_named(parts.buf, parts.fields, name)
}

/// The parts of a head that is in the buffer.
pub(crate) fn head_parts<'b>(
    buf: &'b [u8],
    headers: &'b [HeaderSpan],
    spans: &RequestSpans,
) -> Parts<'b>
    requires at { (h : RequestHead) × IsRequestAt buf.now headers.now spans.now h }
    requires within { IsRequestWithin buf.now headers.now spans.now }
    ensures { (h : RequestHead) → IsRequestAt buf.now headers.now spans.now h → parts_seen result ≡ head_parts h }
{
    let (path, query) = path_and_query(as_text(spans.path.of(buf)));
    Parts {
        method: spans.method.of(buf),
        path,
        query,
        buf,
        fields: &headers[..spans.headers],
    }
}

/// The target before the first question mark, and what follows.
fn path_and_query(target: &str) -> (&str, &str)
    ensures path { result.0.now ≡ path_of target.now }
    ensures query { result.1.now ≡ query_of target.now }
{
    match target.split_once('?') {
        Some(parts) => parts,
        None => (target, ""),
    }
}

/// The text that these bytes are.
pub(crate) fn as_text(bytes: &[u8]) -> &str
    requires { IsUtf8 bytes.now }
    ensures { result.now ≡ bytes.now }
{
    match from_utf8(bytes) {
        Ok(text) => text,
        Err(_) => unreachable!(),
    }
}
