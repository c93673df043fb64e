//! Memory is refused to one allocation, by `conformance/refused_tests`: exactly one answer is then out of memory, or
//! none where the code can do without that allocation; each other answer is what it should be.

pub mod again;

use super::examples::{MOST, UNTIL};
use super::requests::{deposit_of, extract_of, list_of, two_of, withdraw_of};
use super::wanted::{is_listing, is_receipt, is_withdrawn, name_of};
use super::{Line, Over, Play, plays};
use reg_desk::{Answer, Desk, Request};
use reg_policy::{Caller, Callers, Day, Name};
use reg_store::Keep;
use samples_of_tests::FILE_A;
use std::alloc::{AllocError, Global};
use std::env::Env;

/// Whether `conformance/refused_tests` sets OUT_OF_MEMORY: memory has to run out exactly once, and else never. To read
/// the variable takes no memory.
fn is_set(rt: &impl Env) -> bool {
    rt.var("OUT_OF_MEMORY", &mut [0u8; 8]).is_ok()
}

/// Whether it is the extract of the first file, where that is held, and else that the deposit is unknown.
fn is_extract(answer: &Answer, held: bool) -> bool {
    match answer {
        Answer::Text(text) => held && text.as_slice() == FILE_A,
        Answer::Unknown => !held,
        _ => false,
    }
}

/// The first file's deposit in a listing.
static ONE: [Line; 1] = [Line(1, "Delta", UNTIL)];

/// Whether it lists that, where it is held, and else none.
fn is_listed(answer: &Answer, held: bool) -> bool {
    is_listing(answer, if held { &ONE } else { &[] })
}

/// 0 where an answer is that of the reference model, 1 where it is out of memory, and else 2.
fn fault_of(answer: &Answer, right: bool) -> u32 {
    if right {
        0
    } else if name_of(answer) == "out of memory" {
        1
    } else {
        2
    }
}

/// The sum of these for the answers to a deposit, a list and an extract.
fn faults_of(deposit: &Answer, listing: &Answer, extract: &Answer, held: bool) -> u32 {
    let taken = fault_of(deposit, is_receipt(deposit, 1, UNTIL));
    let held = held || taken == 0;
    taken
        .saturating_add(fault_of(listing, is_listed(listing, held)))
        .saturating_add(fault_of(extract, is_extract(extract, held)))
}

/// The same of a run.
fn faults(answers: &[Answer], held: bool) -> u32 {
    match answers {
        [deposit, listing, extract] => faults_of(deposit, listing, extract, held),
        _ => 2,
    }
}

/// The same of a run that is asked. Where it is refused memory itself, nothing was asked.
fn asks<K: Keep>(alloc: Global, desk: &mut Desk<K>, requests: &[Request]) -> u32 {
    let held = desk.keep().count();
    match desk.run(alloc, requests) {
        Ok(answers) => faults(&answers, held == 1),
        Err(_) => u32::from(desk.keep().count() != held).saturating_add(1),
    }
}

/// The same of three such runs.
fn asks_thrice<K: Keep>(alloc: Global, desk: &mut Desk<K>, requests: &[Request]) -> u32 {
    let mut faults = 0u32;
    for _ in 0..3 {
        faults = faults.saturating_add(asks(alloc, desk, requests));
    }
    faults
}

/// The requests of a run: Delta deposits the first file, and Echo lists and draws it.
fn three_of<'a>(
    delta: &'a Caller,
    echo: &'a Caller,
    project: &'a Name,
    day: Day,
) -> [Request<'a>; 3] {
    [
        deposit_of(delta, project, day, FILE_A, day),
        list_of(echo, project, day),
        extract_of(echo, project, 1, &[], day),
    ]
}

/// The faults of the answers to a withdrawal of that deposit and a list, and whether it is withdrawn then.
fn faults_of_two(withdrawal: &Answer, listing: &Answer, withdrawn: bool) -> (u32, bool) {
    let refused = fault_of(withdrawal, is_withdrawn(withdrawal, 1));
    let withdrawn = withdrawn || refused == 0;
    let other = fault_of(listing, is_listed(listing, !withdrawn));
    (refused.saturating_add(other), withdrawn)
}

/// The same of a run.
fn faults_and_mark(answers: &[Answer], withdrawn: bool) -> (u32, bool) {
    match answers {
        [withdrawal, listing] => faults_of_two(withdrawal, listing, withdrawn),
        _ => (2, withdrawn),
    }
}

/// The faults of three runs of these two requests. Where a run is refused memory itself, nothing was asked.
fn withdraws_thrice<K: Keep>(alloc: Global, desk: &mut Desk<K>, requests: &[Request]) -> u32 {
    let mut faults = 0u32;
    let mut withdrawn = false;
    for _ in 0..3 {
        let (more, mark) = match desk.run(alloc, requests) {
            Ok(answers) => faults_and_mark(&answers, withdrawn),
            Err(_) => (1, withdrawn),
        };
        faults = faults.saturating_add(more);
        withdrawn = mark;
    }
    faults
}

/// The requests of a run after those: Delta withdraws the deposit, and Echo lists.
fn two_requests<'a>(
    delta: &'a Caller,
    echo: &'a Caller,
    project: &'a Name,
    day: Day,
) -> [Request<'a>; 2] {
    [
        withdraw_of(delta, project, 1, day),
        list_of(echo, project, day),
    ]
}

/// Whether each answer is that of the reference model; an error where memory ran out for exactly one answer or run.
pub fn runs_out_once<K: Keep>(
    alloc: Global,
    desk: &mut Desk<K>,
    callers: &Callers,
    project: &Name,
) -> Result<bool, AllocError> {
    match two_of(callers, b"t-delta", b"t-echo") {
        Some((delta, echo, day)) => {
            let asked = asks_thrice(alloc, desk, &three_of(delta, echo, project, day));
            let requests = two_requests(delta, echo, project, day);
            let faults = asked.saturating_add(withdraws_thrice(alloc, desk, &requests));
            match faults {
                0 => Ok(true),
                1 => Err(AllocError),
                _ => Ok(false),
            }
        }
        None => Ok(false),
    }
}

/// Whether memory runs out as the variable says, for an answer, for a run, or before anything was asked.
fn runs_out_as_set(rt: &impl Env, played: Result<bool, AllocError>) -> bool {
    match played {
        Ok(right) => right && !is_set(rt),
        Err(_) => is_set(rt),
    }
}

#[test]
fn runs_in_memory(rt: HostRuntime) {
    assert!(rt; runs_out_as_set(&rt, plays(rt.alloc(), Over::Memory, MOST, Play::Runs)));
}

#[test]
fn runs_in_tables(rt: HostRuntime) {
    assert!(rt; runs_out_as_set(&rt, plays(rt.alloc(), Over::Tables, MOST, Play::Runs)));
}
