//! The tables of requests and of heads, each reply compared whole.
ghost use Rattle.std.specs.Prelude.{◌<◌, ◌≤◌};

use super::cases::{
    AT_A_DESK, AT_A_FULL_DESK, AT_A_WIDE_DESK, AT_A_WITHDRAWING_DESK, Altered, BODIES, HEADS,
    LONG_HEADS, RULE_AFTER, WIDE_HEADING, WITHDRAWALS,
};
use super::{Play, answers, desk_under, known_callers, plays};
use ags_rows::built_in::MINI;
use reg_desk::Desk;
use reg_policy::{Callers, Day};
use reg_store::PlainKeep;
use samples_of_tests::{FILE_A, POLICY};
use std::alloc::{AllocError, Global};
use std::process::Abort;

/// Adds these texts.
fn push_all(text: &mut Vec<u8>, parts: &[&str]) -> Result<(), AllocError> {
    for part in parts {
        text.extend_from_slice(part.as_bytes())?;
    }
    Ok(())
}

/// Adds the file up to one place, the bytes between, and the file from another place on.
fn push_altered(text: &mut Vec<u8>, altered: &Altered) -> Result<(), AllocError> {
    let (Some(front), Some(back)) = (FILE_A.get(..altered.end), FILE_A.get(altered.begin..)) else {
        return Err(AllocError);
    };
    text.extend_from_slice(front)?;
    text.extend_from_slice(altered.between)?;
    text.extend_from_slice(back)
}

/// Adds the body that a case calls by a name, or the text itself where there is none of that name.
fn push_body(text: &mut Vec<u8>, name: &str) -> Result<(), AllocError> {
    for altered in &BODIES {
        if altered.name == name {
            return push_altered(text, altered);
        }
    }
    text.extend_from_slice(name.as_bytes())
}

/// One case: `day | token | lines of the head | body | status line | length | body of the reply`.
#[derive(Clone, Copy)]
struct Case<'t> {
    day: &'t str,
    token: &'t str,
    head: &'t str,
    body: &'t str,
    /// Status, length and body.
    reply: [&'t str; 3],
}

/// Status, length and body of a reply, in one line.
fn reply_in(line: &str) -> Option<(&str, &str, &str)> {
    let (status, line) = line.split_once(" | ")?;
    let (length, body) = line.split_once(" | ")?;
    Some((status, length, body))
}

/// The case of a line; none where it is empty or a comment.
fn case_of(line: &str) -> Option<Case<'_>> {
    let (day, line) = line.split_once(" | ")?;
    let (token, line) = line.split_once(" | ")?;
    let (head, line) = line.split_once(" | ")?;
    let (body, line) = line.split_once(" | ")?;
    let (status, length, text) = reply_in(line)?;
    Some(Case {
        day,
        token,
        head,
        body,
        reply: [status, length, text],
    })
}

/// Adds the lines of a head.
fn push_head(text: &mut Vec<u8>, head: &str) -> Result<(), AllocError> {
    for line in head.split("; ") {
        push_all(text, &[line, "\r\n"])?;
    }
    Ok(())
}

/// Adds the field of a token.
fn push_token(text: &mut Vec<u8>, token: &str) -> Result<(), AllocError> {
    if token == "-" {
        Ok(())
    } else {
        push_all(text, &["Authorization: Bearer ", token, "\r\n"])
    }
}

fn request_of(alloc: Global, case: &Case<'_>) -> Result<Vec<u8>, AllocError> {
    let mut request = Vec::new(alloc);
    push_head(&mut request, case.head)?;
    push_token(&mut request, case.token)?;
    push_all(&mut request, &["\r\n"])?;
    push_body(&mut request, case.body)?;
    Ok(request)
}

/// The type of this body of a reply.
fn kind_of(body: &str) -> &str {
    if body == "A" {
        "text/plain; charset=us-ascii"
    } else {
        "application/json"
    }
}

/// The reply of this status, length and body.
fn reply_of(alloc: Global, [status, length, body]: [&str; 3]) -> Result<Vec<u8>, AllocError> {
    let mut reply = Vec::new(alloc);
    push_all(
        &mut reply,
        &[
            "HTTP/1.1 ",
            status,
            "\r\nContent-Type: ",
            kind_of(body),
            "\r\nContent-Length: ",
            length,
            "\r\nConnection: close\r\n\r\n",
        ],
    )?;
    push_body(&mut reply, body)?;
    Ok(reply)
}

fn code_of(status: &str) -> Option<u16> {
    status.get(..3)?.parse::<u16>().ok()
}

/// Whether a request is answered by the reply of this status, length and body.
pub(crate) fn replies_on(
    alloc: Global,
    desk: &mut Desk<PlainKeep>,
    callers: &Callers,
    day: Day,
    request: &[u8],
    parts: [&str; 3],
) -> Result<bool, AllocError> {
    let Some(status) = code_of(parts[0]) else {
        return Ok(false);
    };
    let reply = reply_of(alloc, parts)?;
    Ok(answers(alloc, desk, callers, day, request, status, &reply))
}

/// The same on a day of this text.
fn replies_so(
    alloc: Global,
    desk: &mut Desk<PlainKeep>,
    callers: &Callers,
    day: &str,
    request: &[u8],
    parts: [&str; 3],
) -> Result<bool, AllocError> {
    match Day::read(day) {
        Some(day) => replies_on(alloc, desk, callers, day, request, parts),
        None => Ok(false),
    }
}

/// Whether the case of a line is answered as it says, where it has one.
fn is_right(
    alloc: Global,
    desk: &mut Desk<PlainKeep>,
    callers: &Callers,
    line: &str,
) -> Result<bool, AllocError> {
    let Some(case) = case_of(line) else {
        return Ok(true);
    };
    let request = request_of(alloc, &case)?;
    replies_so(alloc, desk, callers, case.day, &request, case.reply)
}

/// The cases of these lines, one after the other.
fn are_right(
    alloc: Global,
    rt: &impl Abort,
    desk: &mut Desk<PlainKeep>,
    callers: &Callers,
    cases: &str,
) -> Result<(), AllocError> {
    for line in cases.lines() {
        match is_right(alloc, desk, callers, line) {
            Ok(right) => assert!(rt; right, "{line}"),
            Err(error) => return Err(error),
        }
    }
    Ok(())
}

/// The same at a desk that takes so many deposits, under this policy and dictionary.
fn are_right_at(
    alloc: Global,
    rt: &impl Abort,
    callers: &Callers,
    policy: &str,
    dictionary: &[u8],
    most: u32,
    cases: &str,
) -> Result<(), AllocError>
    requires least { 0 < most }
    requires most { most ≤ 999999 }
{
    match desk_under(alloc, policy, dictionary, most) {
        Some(mut desk) => are_right(alloc, rt, &mut desk, callers, cases),
        None => Err(AllocError),
    }
}

/// The same under the small dictionary with one line more, for one deposit.
fn are_right_under(
    alloc: Global,
    rt: &impl Abort,
    callers: &Callers,
    line: &[u8],
    cases: &str,
) -> Result<(), AllocError> {
    let mut wide = Vec::from_slice(alloc, MINI)?;
    wide.extend_from_slice(line)?;
    are_right_at(alloc, rt, callers, POLICY, &wide, 1, cases)
}

/// The same under the policy with one rule more, before the one of this text.
fn are_right_by(
    alloc: Global,
    rt: &impl Abort,
    callers: &Callers,
    rule: &str,
    next_rule: &str,
    cases: &str,
) -> Result<(), AllocError> {
    let Some((front, back)) = POLICY.split_once(next_rule) else {
        return Err(AllocError);
    };
    let mut policy = String::new(alloc);
    policy.push_str(front)?;
    policy.push_str(rule)?;
    policy.push_str(next_rule)?;
    policy.push_str(back)?;
    are_right_at(alloc, rt, callers, &policy, MINI, 999_999, cases)
}

/// The tables of requests.
fn tables_are_right(alloc: Global, rt: &impl Abort, callers: &Callers) -> Result<(), AllocError> {
    are_right_at(alloc, rt, callers, POLICY, MINI, 999_999, AT_A_DESK)?;
    are_right_at(alloc, rt, callers, POLICY, MINI, 1, AT_A_FULL_DESK)?;
    are_right_by(
        alloc,
        rt,
        callers,
        WITHDRAWALS,
        RULE_AFTER,
        AT_A_WITHDRAWING_DESK,
    )?;
    are_right_under(alloc, rt, callers, WIDE_HEADING, AT_A_WIDE_DESK)
}

#[test]
fn replies(rt: HostRuntime) -> Result<(), AllocError> {
    let alloc = rt.alloc();
    match known_callers(alloc) {
        Some(callers) => tables_are_right(alloc, &rt, &callers),
        None => Err(AllocError),
    }
}

/// Whether what the reader gives is answered by this reply, at a desk that begins.
fn head_replies(alloc: Global, head: &[u8], [status, length, body]: [&'static str; 3]) -> bool {
    plays(alloc, Play::Head(head, status, length, body)).unwrap_or(false)
}

/// Whether that of a head with so many fields of one letter, and one after them of so many, is this.
fn long_head_replies(
    alloc: Global,
    fields: usize,
    last: usize,
    parts: [&'static str; 3],
) -> Result<bool, AllocError> {
    let lines = "A: b\r\n".repeat(alloc, fields)?;
    let field = "b".repeat(alloc, last)?;
    let mut head = Vec::new(alloc);
    push_all(
        &mut head,
        &[
            "GET /v1/x HTTP/1.1\r\n",
            lines.as_str(),
            "A: ",
            field.as_str(),
            "\r\n\r\n",
        ],
    )?;
    Ok(head_replies(alloc, &head, parts))
}

/// Whether the replies of the long heads are theirs.
fn long_heads_reply(alloc: Global) -> bool {
    let mut right = true;
    for (last, fields, reply) in &LONG_HEADS {
        right = right && long_head_replies(alloc, *fields, *last, *reply).unwrap_or(false);
    }
    right
}

#[test]
fn heads(rt: HostRuntime) {
    let alloc = rt.alloc();
    for (head, reply) in &HEADS {
        assert!(rt; head_replies(alloc, head, *reply));
    }
    assert!(rt; long_heads_reply(alloc));
}
