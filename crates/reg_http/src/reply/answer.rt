//! The reply to an answer of the desk.
ghost use Rattle.std.specs.Prelude.{◌≡◌, ◌↔◌, false, IfOk, IfSome, IsSome, IsTrue};
ghost use Rattle.serde_json.specs.View.{view};
ghost use Rattle.serde_json.specs.Written.{compact_text, has_float};
ghost use Rattle.reg_http.specs.Bodies.{clean_data, denied_data, receipt_data, withdrawn_data, IsReceiptData};
ghost use Rattle.reg_http.specs.Rendering.{answer_status, is_fixed, IsRendered};
ghost use Rattle.reg_http.specs.Replies.{json_kind, reply_text};

use crate::error::{Refusal, error_reply};
use crate::reply::lists::{findings_text, listing_text};
use crate::reply::reply_front;
use crate::request::as_text;
use ags_rows::FindingList;
use http::StatusCode;
use reg_desk::{Answer, Listed};
use reg_policy::Day;
use serde_json::{Value, json};
use std::alloc::{AllocError, Global};

/// The reply to an answer whose reply is always the same. It takes no memory.
pub(crate) fn fixed_reply(answer: &Answer) -> Option<&'static str>
    ensures some { IsSome result ↔ IsTrue (is_fixed answer.now) }
    ensures reply { IfSome result (λ text. IsRendered answer.now text.now) }
{
    match answer {
        Answer::Unknown => Some(unknown_reply()),
        Answer::TooLarge => Some(Refusal::TooLarge.reply()),
        Answer::Full => Some(full_reply()),
        Answer::NoMemory => Some(Refusal::OutOfMemory.reply()),
        Answer::StoreFailed => Some(store_failed_reply()),
        _ => None,
    }
}

#[tactic(auto, unfolding(crate::proofs::Numerals::digits, crate::specs::Replies::phrase_of))]
fn unknown_reply() -> &'static str
    ensures { IsRendered Answer.Unknown result.now }
{
    error_reply!("404 Not Found", "19", "unknown")
}

#[tactic(auto, unfolding(crate::proofs::Numerals::digits, crate::specs::Replies::phrase_of))]
fn full_reply() -> &'static str
    ensures { IsRendered Answer.Full result.now }
{
    error_reply!("507 Insufficient Storage", "16", "full")
}

#[tactic(auto, unfolding(crate::proofs::Numerals::digits, crate::specs::Replies::phrase_of))]
fn store_failed_reply() -> &'static str
    ensures { IsRendered Answer.StoreFailed result.now }
{
    error_reply!("503 Service Unavailable", "24", "store failed")
}

/// The reply to an answer whose reply is built.
pub(crate) fn built_reply(alloc: Global, answer: &Answer) -> Result<Vec<u8>, AllocError>
    requires { is_fixed answer.now ≡ false }
    ensures { IfOk result (λ reply. IsRendered answer.now reply.items) }
{
    match answer {
        Answer::Receipt { number, embargo } => receipt_reply(alloc, *number, *embargo),
        Answer::Clean => clean_reply(alloc),
        Answer::Findings(findings) => findings_reply(alloc, findings),
        Answer::Listing(listing) => listing_reply(alloc, listing.as_slice()),
        Answer::Text(text) => text_reply(alloc, text.as_slice()),
        Answer::Withdrawn(number) => withdrawn_reply(alloc, *number),
        Answer::Denied(number) => denied_reply(alloc, *number),
        _ => unreachable!(),
    }
}

fn receipt_reply(alloc: Global, number: u32, embargo: Day) -> Result<Vec<u8>, AllocError>
    ensures { IfOk result (λ reply. IsRendered (Answer.Receipt number embargo) reply.items) }
{
    let value = receipt_value(alloc, number, embargo)?;
    value_reply(alloc, StatusCode::OK, &value)
}

/// The body of a receipt.
fn receipt_value(alloc: Global, number: u32, embargo: Day) -> Result<Value, AllocError>
    ensures { IfOk result (λ value. IsReceiptData number embargo (view value)) }
{
    let day = embargo.text();
    dated_value(alloc, as_text(&day), number)
}

/// A receipt with the text of its embargo day.
fn dated_value(alloc: Global, embargo: &str, number: u32) -> Result<Value, AllocError>
    ensures { IfOk result (λ value. view value ≡ receipt_data embargo.now number) }
{
    json!(in alloc; {"embargo": embargo, "number": number})
}

fn clean_reply(alloc: Global) -> Result<Vec<u8>, AllocError>
    ensures { IfOk result (λ reply. IsRendered Answer.Clean reply.items) }
{
    let value = clean_value(alloc)?;
    value_reply(alloc, StatusCode::OK, &value)
}

fn findings_reply(alloc: Global, findings: &FindingList) -> Result<Vec<u8>, AllocError>
    ensures { IfOk result (λ reply. IsRendered (Answer.Findings findings.now) reply.items) }
{
    let body = findings_text(alloc, findings)?;
    json_reply(alloc, StatusCode::UNPROCESSABLE_ENTITY, body)
}

fn listing_reply(alloc: Global, listing: &[Listed]) -> Result<Vec<u8>, AllocError>
    ensures { IfOk result (λ reply. IsRendered (Answer.Listing listing.now) reply.items) }
{
    let body = listing_text(alloc, listing)?;
    json_reply(alloc, StatusCode::OK, body)
}

fn denied_reply(alloc: Global, number: u32) -> Result<Vec<u8>, AllocError>
    ensures { IfOk result (λ reply. IsRendered (Answer.Denied number) reply.items) }
{
    let value = denied_value(alloc, number)?;
    value_reply(alloc, StatusCode::FORBIDDEN, &value)
}

fn text_reply(alloc: Global, text: &[u8]) -> Result<Vec<u8>, AllocError>
    ensures { IfOk result (λ reply. IsRendered (Answer.Text text.now) reply.items) }
{
    let front = reply_front(
        alloc,
        StatusCode::OK,
        "text/plain; charset=us-ascii",
        text.len(),
    )?;
    let mut reply = Vec::with_capacity(alloc, front.len() + text.len())?;
    reply.extend_from_slice(front.as_bytes())?;
    reply.extend_from_slice(text)?;
    Ok(reply)
}

fn withdrawn_reply(alloc: Global, number: u32) -> Result<Vec<u8>, AllocError>
    ensures { IfOk result (λ reply. IsRendered (Answer.Withdrawn number) reply.items) }
{
    let value = withdrawn_value(alloc, number)?;
    value_reply(alloc, StatusCode::OK, &value)
}

/// The body of a denial.
fn denied_value(alloc: Global, number: u32) -> Result<Value, AllocError>
    ensures { IfOk result (λ value. view value ≡ denied_data number) }
{
    json!(in alloc; {"denied": number})
}

/// The body that says that a file is clean.
fn clean_value(alloc: Global) -> Result<Value, AllocError>
    ensures { IfOk result (λ value. view value ≡ clean_data) }
{
    json!(in alloc; {"clean": true})
}

/// The body that says that a deposit is withdrawn.
fn withdrawn_value(alloc: Global, number: u32) -> Result<Value, AllocError>
    ensures { IfOk result (λ value. view value ≡ withdrawn_data number) }
{
    json!(in alloc; {"withdrawn": number})
}

/// The reply with a JSON body, made in the memory of the body: its front is put after the body, and then moved
/// before it.
fn json_reply(alloc: Global, status: StatusCode, mut body: Vec<u8>) -> Result<Vec<u8>, AllocError>
    ensures { IfOk result (λ reply. reply.items ≡ reply_text status json_kind body.items) }
{
    let front = reply_front(alloc, status, "application/json", body.len())?;
    body.extend_from_slice(front.as_bytes())?;
    body.rotate_right(front.len());
    Ok(body)
}

/// The reply whose JSON body is this value.
fn value_reply(alloc: Global, status: StatusCode, value: &Value) -> Result<Vec<u8>, AllocError>
    requires { has_float (view value.now) ≡ false }
    ensures { IfOk result (λ reply. reply.items ≡ reply_text status json_kind (compact_text (view value.now))) }
{
    json_reply(alloc, status, value.to_vec(alloc)?)
}

/// The status of an answer's reply.
pub(crate) fn answer_status(answer: &Answer) -> StatusCode
    ensures { result ≡ answer_status answer.now }
{
    match answer {
        Answer::Receipt { .. } | Answer::Clean | Answer::Listing(_) => StatusCode::OK,
        Answer::Text(_) | Answer::Withdrawn(_) => StatusCode::OK,
        Answer::Denied(_) => StatusCode::FORBIDDEN,
        Answer::Unknown => StatusCode::NOT_FOUND,
        Answer::TooLarge => StatusCode::PAYLOAD_TOO_LARGE,
        Answer::Findings(_) => StatusCode::UNPROCESSABLE_ENTITY,
        Answer::NoMemory | Answer::StoreFailed => StatusCode::SERVICE_UNAVAILABLE,
        Answer::Full => StatusCode::INSUFFICIENT_STORAGE,
    }
}
