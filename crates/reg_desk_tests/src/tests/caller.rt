//! The caller in README.md of reg_desk.

ghost use Rattle.reg_desk.specs.Asked.{deposit};
ghost use Rattle.reg_desk.specs.Desks.{AnsweredBy};

use super::examples::{MOST, UNTIL};
use super::memory_of;
use super::wanted::is_receipt;
use reg_desk::{Answer, Desk, Request};
use reg_policy::{Caller, Callers, Day, Name, Policy};
use reg_store::Keep;
use samples_of_tests::{CALLERS, FILE_A, POLICY};
use std::alloc::Global;
use std::test::Fail;

/// What a desk answers to a deposit of a file, whose embargo is past on the day on which it comes.
pub fn deposit_today<K: Keep>(
    alloc: Global,
    desk: &mut Desk<K>,
    caller: &Caller,
    project: &Name,
    bytes: &[u8],
    day: Day,
) -> Answer
    ensures { AnsweredBy K.Keep desk.old (deposit caller.now project.now day bytes.now day) result desk.new }
{
    let request = Request::Deposit {
        caller,
        project,
        embargo: day,
        bytes,
        day,
    };
    desk.answer(alloc, &request)
}

#[test]
fn file_a_is_deposited(rt: HostRuntime) -> Result<(), Fail> {
    let callers = Callers::read(rt.alloc(), CALLERS)?;
    let policy = Policy::read(rt.alloc(), POLICY)?;
    let project = Name::read(rt.alloc(), "N1")?;
    let day = Day::read(UNTIL).ok_or("day")?;
    let delta = callers.find(b"t-delta").ok_or("caller")?;
    let keep = memory_of(rt.alloc(), MOST).ok_or("store")?;
    let mut desk = Desk::new(keep, policy);
    let answer = deposit_today(rt.alloc(), &mut desk, delta, &project, FILE_A, day);
    assert!(rt; is_receipt(&answer, 1, UNTIL));
    Ok(())
}
