//! The requests that are asked.

use super::bodies::bytes_of;
use super::examples::UNTIL;
use super::{Ask, Step};
use reg_desk::Request;
use reg_policy::{Caller, Callers, Day, Name};
use std::alloc::{AllocError, Global};

/// A deposit to a project.
pub fn deposit_of<'a>(
    caller: &'a Caller,
    project: &'a Name,
    embargo: Day,
    bytes: &'a [u8],
    day: Day,
) -> Request<'a> {
    Request::Deposit {
        caller,
        project,
        embargo,
        bytes,
        day,
    }
}

/// A check of a body.
pub fn check_of<'a>(
    caller: &'a Caller,
    project: &'a Name,
    bytes: &'a [u8],
    day: Day,
) -> Request<'a> {
    Request::Check {
        caller,
        project,
        bytes,
        day,
    }
}

/// A list of a project's deposits.
pub fn list_of<'a>(caller: &'a Caller, project: &'a Name, day: Day) -> Request<'a> {
    Request::List {
        caller,
        project,
        day,
    }
}

/// An extract of groups of a deposit.
pub fn extract_of<'a>(
    caller: &'a Caller,
    project: &'a Name,
    number: u32,
    groups: &'a [&'a [u8]],
    day: Day,
) -> Request<'a> {
    Request::Extract {
        caller,
        project,
        number,
        groups,
        day,
    }
}

/// A withdrawal of a deposit.
pub fn withdraw_of<'a>(
    caller: &'a Caller,
    project: &'a Name,
    number: u32,
    day: Day,
) -> Request<'a> {
    Request::Withdraw {
        caller,
        project,
        number,
        day,
    }
}

/// The bytes that are sent with what is asked.
pub fn bytes_sent(alloc: Global, ask: &Ask) -> Result<Vec<u8>, AllocError> {
    match ask {
        Ask::Deposit(body, _) => bytes_of(alloc, body),
        Ask::Check(body) => bytes_of(alloc, body),
        _ => Ok(Vec::new(alloc)),
    }
}

/// What is asked, with these bytes; none where its embargo is no day.
fn request_of<'a>(
    caller: &'a Caller,
    project: &'a Name,
    day: Day,
    ask: &Ask,
    bytes: &'a [u8],
) -> Option<Request<'a>> {
    match ask {
        Ask::Deposit(_, until) => {
            Some(deposit_of(caller, project, Day::read(until)?, bytes, day))
        }
        Ask::Check(_) => Some(check_of(caller, project, bytes, day)),
        Ask::List => Some(list_of(caller, project, day)),
        Ask::Extract(number, groups) => Some(extract_of(caller, project, *number, groups, day)),
        Ask::Withdraw(number) | Ask::WithdrawFrom(_, number) => {
            Some(withdraw_of(caller, project, *number, day))
        }
    }
}

/// The request of a step, with these bytes; none where its token is nobody's, or one of its days is none.
pub fn request_at<'a>(
    callers: &'a Callers,
    project: &'a Name,
    step: &Step,
    bytes: &'a [u8],
) -> Option<Request<'a>> {
    let caller = callers.find(step.0.as_bytes())?;
    request_of(caller, project, Day::read(step.1)?, &step.2, bytes)
}

/// Two callers by their tokens, and 2024-06-01; none where one of them is nobody's.
pub fn two_of<'a>(
    callers: &'a Callers,
    first: &[u8],
    second: &[u8],
) -> Option<(&'a Caller, &'a Caller, Day)> {
    match (callers.find(first), callers.find(second), Day::read(UNTIL)) {
        (Some(first), Some(second), Some(day)) => Some((first, second, day)),
        _ => None,
    }
}
