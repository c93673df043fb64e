//! The desk over a store that fails.

ghost use Rattle.std.specs.Prelude.{◌≡◌, false};

use super::bodies::B_SHOWN;
use super::examples::{FIRST, LISTED, MOST};
use super::policies::{WITHDRAWALS, policy_with};
use super::refusing::Refusing;
use super::requests::{check_of, deposit_of, extract_of, list_of, two_of, withdraw_of};
use super::wanted::count_wanted;
use super::{Over, Want, examples_over, memory_of};
use reg_desk::{Answer, Desk, Request};
use reg_policy::{Caller, Callers, Day, Name};
use reg_store::Keep;
use samples_of_tests::{CALLERS, FILE_A, FILE_B};
use std::alloc::Global;
use std::io;

/// No body is read for a listing or an extract.
#[test]
fn examples_without_bodies(rt: HostRuntime) {
    examples_over(rt.alloc(), &rt, Over::NoBodies);
}

/// The requests of a run.
fn eight_of<'a>(
    delta: &'a Caller,
    echo: &'a Caller,
    project: &'a Name,
    day: Day,
) -> [Request<'a>; 8] {
    [
        deposit_of(delta, project, day, FILE_B, day),
        list_of(echo, project, day),
        extract_of(echo, project, 1, &[], day),
        deposit_of(delta, project, day, FILE_B, day),
        check_of(echo, project, FILE_A, day),
        list_of(echo, project, day),
        extract_of(echo, project, 1, &[], day),
        withdraw_of(delta, project, 1, day),
    ]
}

/// What they are answered where the store does not fail.
static WHOLE: [Want; 8] = [
    FIRST,
    LISTED,
    Want::Gives(B_SHOWN),
    FIRST,
    Want::Says("clean"),
    LISTED,
    Want::Gives(B_SHOWN),
    Want::Withdrawn(1),
];

/// What they are answered once it has failed.
static FAILED: [Want; 8] = [Want::Says("store failed"); 8];

/// How many answers come before the first that the store failed; none where one of them is not that of a whole run, or
/// one from there on is another.
fn answered_before(alloc: Global, answers: &[Answer]) -> Option<usize> {
    let before = count_wanted(alloc, answers, &WHOLE).ok()?;
    let rest = answers.get(before..)?;
    match count_wanted(alloc, rest, &FAILED) {
        Ok(failed) if failed == rest.len() => Some(before),
        _ => None,
    }
}

/// The same of a run.
fn run_before<K: Keep>(alloc: Global, desk: &mut Desk<K>, requests: &[Request]) -> Option<usize> {
    match desk.run(alloc, requests) {
        Ok(answers) if answers.len() == requests.len() => answered_before(alloc, &answers),
        _ => None,
    }
}

/// The same, and none also where the store does not hold the one deposit that was answered.
fn stop_at<K: Keep>(alloc: Global, desk: &mut Desk<K>, requests: &[Request]) -> Option<usize> {
    let before = run_before(alloc, desk, requests)?;
    if desk.keep().count() == u32::from(before > 0) {
        Some(before)
    } else {
        None
    }
}

/// The same of a desk over this store.
fn stop_over<K: Keep + Drop>(alloc: Global, keep: K, requests: &[Request]) -> Option<usize>
    requires { K.has_failed keep ≡ false }
{
    let policy = policy_with(alloc, &WITHDRAWALS)?;
    stop_at(alloc, &mut Desk::new(keep, policy), requests)
}

/// The same over a store that answers so many calls.
fn stop_of(alloc: Global, requests: &[Request], calls: u32) -> Option<usize> {
    match memory_of(alloc, MOST) {
        Some(keep) => stop_over(alloc, Refusing::new(keep, calls), requests),
        None => None,
    }
}

/// Of stores that answer 0 to 63 calls: after how many answers they fail (8 where one does not), and how many fail;
/// none where a run is not as it should be.
fn stops_of(alloc: Global, requests: &[Request]) -> Option<([bool; 9], u32)> {
    let mut stops = [false; 9];
    let mut failed = 0u32;
    for calls in 0..64 {
        let before = stop_of(alloc, requests, calls)?;
        let stop = stops.get_mut(before)?;
        *stop = true;
        failed = failed.saturating_add(u32::from(before < 8));
    }
    Some((stops, failed))
}

/// The same of eight requests by Delta and Echo.
fn eight_stops(alloc: Global, callers: &Callers, project: &Name) -> Option<([bool; 9], u32)> {
    match two_of(callers, b"t-delta", b"t-echo") {
        Some((delta, echo, day)) => stops_of(alloc, &eight_of(delta, echo, project, day)),
        None => None,
    }
}

/// The same where callers and project are read.
fn stops(alloc: Global) -> Option<([bool; 9], u32)> {
    let callers = Callers::read(alloc, CALLERS).ok()?;
    let project = Name::read(alloc, "N1").ok()?;
    eight_stops(alloc, &callers, &project)
}

/// The store fails at each of its calls, one after the other: within each request but the check. After those that may
/// fail first, three more are asked.
#[test]
fn runs_that_fail(rt: HostRuntime) -> io::Result<()> {
    let (stops, failed) = stops(rt.alloc()).unwrap_or(([false; 9], 0));
    assert!(rt; stops == [true, true, true, true, false, true, true, true, true]);
    println!(rt; "{failed} calls of the keep failed")
}
