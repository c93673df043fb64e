//! What each request is answered, over whatever keeps the deposits.

ghost use Rattle.std.specs.Prelude.{◌≡◌, false};
ghost use Rattle.reg_desk.specs.Asked.{asked};
ghost use Rattle.reg_desk.specs.Machine.{question_of};
ghost use Rattle.reg_desk.specs.Serving.{Serves, ServesPermitted, ShowsRows, answer_of};

mod body;
mod deposit;
mod drawing;
mod listing;
mod seen;
mod withdrawal;

use crate::answer::Answer;
use crate::request::Request;
use crate::serving::body::check_body;
use crate::serving::deposit::serve_deposit;
use crate::serving::drawing::serve_extract;
use crate::serving::listing::serve_listing;
use crate::serving::withdrawal::serve_withdraw;
use reg_policy::{Decision, Policy, Subject, Verb};
use reg_store::{Keep, KeepError};
use std::alloc::Global;

/// Answers a request, if the policy permits it.
pub(crate) fn serve<K: Keep>(
    alloc: Global,
    keep: &mut K,
    policy: &Policy,
    request: &Request<'_>,
) -> Answer
    requires { K.has_failed keep.old ≡ false }
    ensures serves { Serves K.Keep policy.now (asked request.entry.now) keep.old keep.new result }
    ensures rows { ShowsRows (asked request.entry.now) result }
{
    match policy.decide(&subject_of(request)) {
        Decision::Deny(rule) => Answer::Denied(rule),
        Decision::Permit(_rule) => serve_permitted(alloc, keep, policy, request),
    }
}

/// The question to the policy on a request.
fn subject_of<'x>(request: &Request<'x>) -> Subject<'x>
    ensures { result ≡ question_of (asked request.entry.now) }
{
    match *request {
        Request::Deposit {
            caller,
            project,
            day,
            ..
        } => { Subject::of_request(caller, project, Verb::Deposit, day) }
        Request::Check {
            caller,
            project,
            day,
            ..
        } => { Subject::of_request(caller, project, Verb::Check, day) }
        Request::List {
            caller,
            project,
            day,
        } => { Subject::of_request(caller, project, Verb::List, day) }
        Request::Extract {
            caller,
            project,
            day,
            ..
        } => { Subject::of_request(caller, project, Verb::Extract, day) }
        Request::Withdraw {
            caller,
            project,
            day,
            ..
        } => { Subject::of_request(caller, project, Verb::Withdraw, day) }
    }
}

/// Answers a request that the policy permits.
fn serve_permitted<K: Keep>(
    alloc: Global,
    keep: &mut K,
    policy: &Policy,
    request: &Request<'_>,
) -> Answer
    requires { K.has_failed keep.old ≡ false }
    ensures serves { ServesPermitted K.Keep policy.now (asked request.entry.now) keep.old keep.new result }
    ensures rows { ShowsRows (asked request.entry.now) result }
{
    match *request {
        Request::Deposit {
            caller,
            project,
            embargo,
            bytes,
            ..
        } => serve_deposit(alloc, keep, caller, project, embargo, bytes),
        Request::Check { bytes, .. } => check_body(alloc, keep.dictionary(), bytes),
        Request::List {
            caller,
            project,
            day,
        } => serve_listing(alloc, keep, policy, caller, project, day),
        Request::Extract {
            caller,
            project,
            number,
            groups,
            day,
        } => serve_extract(alloc, keep, policy, caller, project, number, groups, day),
        Request::Withdraw {
            caller,
            project,
            number,
            ..
        } => serve_withdraw(keep, caller, project, number),
    }
}

/// The answer where the store refuses.
fn refused(error: KeepError) -> Answer
    ensures { result ≡ answer_of error }
{
    match error {
        KeepError::Full => Answer::Full,
        KeepError::Store => Answer::StoreFailed,
        KeepError::NoMemory => Answer::NoMemory,
    }
}
