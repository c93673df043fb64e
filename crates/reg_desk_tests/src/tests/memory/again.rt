//! Memory is refused to many allocations, one after the other, by `conformance/refused_tests --for`: each request is
//! asked again until it is answered otherwise than out of memory. The store never fails.

use super::{fault_of, is_extract, is_listed, three_of, two_requests};
use crate::tests::examples::{MOST, UNTIL};
use crate::tests::requests::{list_of, two_of};
use crate::tests::wanted::{is_receipt, is_withdrawn};
use crate::tests::{Over, Play, plays};
use reg_desk::{Answer, Desk, Request};
use reg_policy::{Callers, Name};
use reg_store::Keep;
use std::alloc::Global;

/// How often a request is asked at most.
const TRIES: u32 = 200;

/// Whether the answer to a request is that of the reference model, which lists the deposit or does not.
fn is_answer(request: &Request, answer: &Answer, listed: bool) -> bool {
    match request {
        Request::Deposit { .. } => is_receipt(answer, 1, UNTIL),
        Request::Extract { .. } => is_extract(answer, listed),
        Request::Withdraw { .. } => is_withdrawn(answer, 1),
        _ => is_listed(answer, listed),
    }
}

/// Whether the list, after a request that was out of memory, is as before it, or out of memory too.
fn is_as_before<K: Keep>(alloc: Global, desk: &mut Desk<K>, list: &Request, listed: bool) -> bool {
    let listing = desk.answer(alloc, list);
    fault_of(&listing, is_listed(&listing, listed)) <= 1
}

/// Asks a request until it is answered otherwise than out of memory: whether that answer is right, and each list until
/// then, if there was memory for it, was as before.
fn asks_again<K: Keep>(
    alloc: Global,
    desk: &mut Desk<K>,
    request: &Request,
    list: &Request,
    listed: bool,
) -> bool {
    let held = desk.keep().count();
    for _ in 0..TRIES {
        let answer = desk.answer(alloc, request);
        let fault = fault_of(&answer, is_answer(request, &answer, listed));
        if fault != 1 {
            return fault == 0;
        }
        if desk.keep().count() != held || !is_as_before(alloc, desk, list, listed) {
            return false;
        }
    }
    false
}

/// Whether the deposit is listed after this request.
fn is_listed_after(request: &Request, listed: bool) -> bool {
    match request {
        Request::Deposit { .. } => true,
        Request::Withdraw { .. } => false,
        _ => listed,
    }
}

/// Whether that is so of each of these requests, one after the other.
fn asks_each_again<K: Keep>(
    alloc: Global,
    desk: &mut Desk<K>,
    requests: &[Request],
    list: &Request,
    begins_listed: bool,
) -> bool {
    let mut listed = begins_listed;
    for request in requests {
        if !asks_again(alloc, desk, request, list, listed) {
            return false;
        }
        listed = is_listed_after(request, listed);
    }
    true
}

/// Whether each request is answered right in the end, and until then out of memory.
pub fn is_answered_again<K: Keep>(
    alloc: Global,
    desk: &mut Desk<K>,
    callers: &Callers,
    project: &Name,
) -> bool {
    match two_of(callers, b"t-delta", b"t-echo") {
        Some((delta, echo, day)) => {
            let list = list_of(echo, project, day);
            let three = three_of(delta, echo, project, day);
            let two = two_requests(delta, echo, project, day);
            asks_each_again(alloc, desk, &three, &list, false)
                && asks_each_again(alloc, desk, &two, &list, true)
        }
        None => false,
    }
}

/// With memory, and where it is refused for some time. Where it is refused before, nothing is asked.
#[test]
fn in_tables(rt: HostRuntime) {
    assert!(rt; plays(rt.alloc(), Over::Tables, MOST, Play::Again).unwrap_or(true));
}
