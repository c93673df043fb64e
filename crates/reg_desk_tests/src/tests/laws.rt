//! Cases that meet the premises of the laws on extracts and hidden rows, over each store.

use super::bodies::{A, B, B_LINKED, B_SHOWN, B_TESTED, B_WETTER, C};
use super::examples::{FIRST, LISTED, MOST, SECOND, UNTIL};
use super::{Ask, Body, Over, Play, Step, Want, hold, holds, plays};
use reg_desk::Desk;
use reg_policy::{Callers, Name};
use reg_store::Keep;
use std::alloc::{AllocError, Global};
use std::process::Abort;

/// Delta deposits the second file, and what Echo got of it; Delta gets that text again.
///
/// `extracts_are_clean`: both answers are texts. `extract_of_an_extract`: the second deposit is the text of an extract
/// of a file without findings, and every row of it is shown to Delta, whose it is.
static DRAWN_TWICE: [Step; 5] = [
    Step("t-delta", UNTIL, Ask::Deposit(B, UNTIL), FIRST),
    Step("t-echo", UNTIL, Ask::Extract(1, &[]), Want::Gives(B_SHOWN)),
    Step("t-echo", UNTIL, Ask::Check(B_SHOWN), Want::Says("clean")),
    Step("t-delta", UNTIL, Ask::Deposit(B_SHOWN, UNTIL), SECOND),
    Step("t-delta", UNTIL, Ask::Extract(2, &[]), Want::Gives(B_SHOWN)),
];

/// What is played over a store in memory, and over tables.
fn plays_twice(alloc: Global, rt: &impl Abort, play: Play) {
    assert!(rt; plays(alloc, Over::Memory, MOST, play).unwrap_or(false));
    assert!(rt; plays(alloc, Over::Tables, MOST, play).unwrap_or(false));
}

#[test]
fn extracts_of_extracts(rt: HostRuntime) {
    plays_twice(rt.alloc(), &rt, Play::Steps(&DRAWN_TWICE));
}

/// Whether these steps are answered as they should be after Delta has deposited this body.
pub fn answers_after_deposit<K: Keep>(
    alloc: Global,
    desk: &mut Desk<K>,
    callers: &Callers,
    project: &Name,
    body: &Body,
    steps: &[Step],
) -> Result<bool, AllocError> {
    let step = Step("t-delta", UNTIL, Ask::Deposit(*body, UNTIL), FIRST);
    match holds(alloc, desk, callers, project, &step) {
        Ok(true) => hold(alloc, desk, callers, project, steps),
        other => other,
    }
}

/// The second file, with another result in a hidden row, with one hidden row more, and without its hidden rows.
static ALIKE: [Body; 4] = [B, B_WETTER, B_TESTED, B_SHOWN];

/// What is answered of each of them.
static SHOWN: [Step; 4] = [
    Step("t-echo", UNTIL, Ask::List, LISTED),
    Step("t-foxtrot", UNTIL, Ask::Deposit(A, UNTIL), SECOND),
    Step("t-echo", UNTIL, Ask::Extract(1, &[]), Want::Gives(B_SHOWN)),
    Step("t-echo", UNTIL, Ask::Extract(2, &[]), Want::Gives(A)),
];

/// Files that have little in common; the second has a dictionary of its own.
static UNLIKE: [Body; 3] = [B, B_LINKED, C];

/// What is answered of each of them under an embargo.
static EMBARGOED: [Step; 4] = [
    Step("t-echo", "2024-05-31", Ask::List, Want::Lists(&[])),
    Step("t-foxtrot", "2024-05-31", Ask::Deposit(A, UNTIL), SECOND),
    Step(
        "t-echo",
        "2024-05-31",
        Ask::Extract(1, &[]),
        Want::Says("unknown"),
    ),
    Step(
        "t-echo",
        "2024-05-31",
        Ask::Extract(2, &[]),
        Want::Says("unknown"),
    ),
];

/// What is answered of each of them once it is withdrawn, to the firm that sent it too.
static WITHDRAWN: [Step; 5] = [
    Step("t-delta", UNTIL, Ask::Withdraw(1), Want::Withdrawn(1)),
    Step("t-delta", UNTIL, Ask::List, Want::Lists(&[])),
    Step(
        "t-delta",
        UNTIL,
        Ask::Extract(1, &[]),
        Want::Says("unknown"),
    ),
    Step("t-echo", UNTIL, Ask::List, Want::Lists(&[])),
    Step("t-echo", UNTIL, Ask::Extract(1, &[]), Want::Says("unknown")),
];

/// Whether the steps are answered as they should be after a deposit of each of the bodies, over each store.
fn each_is_answered(alloc: Global, rt: &impl Abort, bodies: &[Body], steps: &'static [Step]) {
    for body in bodies {
        plays_twice(alloc, rt, Play::AfterDeposit(*body, steps));
    }
}

/// `no_leak`, of which the premises are met in three ways: the bodies have no finding, no request brings any of them, and
/// the same is shown of each, or none is seen, under an embargo and from a withdrawal on.
#[test]
fn hidden_rows_are_not_revealed(rt: HostRuntime) {
    each_is_answered(rt.alloc(), &rt, &ALIKE, &SHOWN);
    each_is_answered(rt.alloc(), &rt, &UNLIKE, &EMBARGOED);
    each_is_answered(rt.alloc(), &rt, &UNLIKE, &WITHDRAWN);
}
