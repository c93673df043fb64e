//! The text of a reply up to its body.
ghost use Rattle.std.specs.Prelude.{◌≡◌, IfOk, OnOk, string_bytes};
ghost use Rattle.reg_http.specs.Replies.{phrase_of, reply_front, with_fields, with_status_line};

pub(crate) mod answer;
pub(crate) mod lists;

use http::StatusCode;
use std::alloc::{AllocError, Global};

/// The reply up to its body.
pub(crate) fn reply_front(
    alloc: Global,
    status: StatusCode,
    kind: &str,
    length: usize,
) -> Result<String, AllocError>
    ensures { IfOk result (λ text. string_bytes text ≡ reply_front status kind.now length) }
{
    let mut text = String::new(alloc);
    push_status(&mut text, status)?;
    push_fields(&mut text, kind, length)?;
    Ok(text)
}

/// Appends the status line.
fn push_status(text: &mut String, status: StatusCode) -> Result<(), AllocError>
    ensures { OnOk result (string_bytes text.new ≡ with_status_line (string_bytes text.old) status) }
{
    let code = status.as_u16();
    text.push_str("HTTP/1.1 ")?;
    write!(text, "{code}")?;
    text.push_str(" ")?;
    text.push_str(phrase_of(status))?;
    text.push_str("\r\n")
}

/// Appends the fields, and the empty line after them.
fn push_fields(text: &mut String, kind: &str, length: usize) -> Result<(), AllocError>
    ensures { OnOk result (string_bytes text.new ≡ with_fields (string_bytes text.old) kind.now length) }
{
    text.push_str("Content-Type: ")?;
    text.push_str(kind)?;
    text.push_str("\r\nContent-Length: ")?;
    write!(text, "{length}")?;
    text.push_str("\r\nConnection: close\r\n\r\n")
}

/// The phrase of a status.
#[tactic(auto, unfolding(crate::specs::Replies::phrase_of))]
fn phrase_of(status: StatusCode) -> &'static str
    ensures { result.now ≡ phrase_of status }
{
    match status.canonical_reason() {
        Some(phrase) => phrase,
        None => "",
    }
}
