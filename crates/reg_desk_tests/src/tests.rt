//! Worked examples of the desk, the same over each store, and what the stores alone answer.

ghost use Rattle.std.specs.Prelude.{◌≡◌, ◌≤◌, ◌<◌, false};

mod bodies;
mod caller;
mod examples;
mod failing;
mod junk;
mod laws;
mod memory;
mod migrating;
mod policies;
mod refusals;
mod refusing;
mod requests;
mod stops;
mod stores;
mod table_caller;
mod wanted;

use ags_dict::Dictionary;
use ags_rows::READABLE;
use ags_rows::built_in::MINI;
use bodies::{LENGTHS, bytes_of};
use examples::{CHANGED, EXAMPLES, LONG, MOST};
use laws::answers_after_deposit;
use memory::again::is_answered_again;
use memory::runs_out_once;
use migrating::migrates;
use policies::{Added, WITHDRAWALS, policy_with};
use refusing::Refusing;
use reg_desk::Desk;
use reg_policy::{Callers, Name, Policy};
use reg_store::{Keep, PlainKeep};
use reg_tables::{CreateError, SqlKeep};
use requests::{bytes_sent, request_at};
use samples_of_tests::{CALLERS, POLICY};
use sqlite::Alter;
use std::alloc::{AllocError, Global};
use std::process::Abort;
use stores::keeps_second;
use wanted::is_wanted;

/// New lines in place of those from the first to the last.
#[derive(Clone, Copy)]
pub struct Edit {
    pub first: usize,
    pub last: usize,
    pub lines: &'static str,
}

/// A file of the worked examples.
#[derive(Clone, Copy)]
pub enum File {
    A,
    B,
    C,
}

/// A file with edits in the order of its lines, after these bytes and before so many spaces.
#[derive(Clone, Copy)]
pub struct Body {
    pub front: &'static [u8],
    pub file: File,
    pub edits: &'static [Edit],
    pub spaces: usize,
}

/// What is asked, for project N1 where no other is named.
#[derive(Clone, Copy)]
pub enum Ask {
    /// The body, and its embargo.
    Deposit(Body, &'static str),
    Check(Body),
    List,
    Extract(u32, &'static [&'static [u8]]),
    Withdraw(u32),
    /// The same for the project of this name.
    WithdrawFrom(&'static str, u32),
}

/// What is answered.
#[derive(Clone, Copy)]
pub enum Want {
    /// An answer that holds nothing, by its name.
    Says(&'static str),
    /// The receipt of this number, until this day under embargo.
    Receipt(u32, &'static str),
    /// The rule that denies it, 0 where none matches.
    Denied(u32),
    /// One finding at no subject: its code and its line.
    Finding(&'static str, u32),
    /// These deposits.
    Lists(&'static [Line]),
    /// The text of this body.
    Gives(Body),
    /// The deposit of this number is withdrawn.
    Withdrawn(u32),
}

/// A line of a listing: number, firm and embargo.
#[derive(Clone, Copy)]
pub struct Line(pub u32, pub &'static str, pub &'static str);

/// The caller's token, the day, the request, and its answer.
#[derive(Clone, Copy)]
pub struct Step(pub &'static str, pub &'static str, pub Ask, pub Want);

/// A body, and how many bytes it should have.
#[derive(Clone, Copy)]
pub struct Length(pub &'static str, pub Body, pub usize);

/// Requests to a register that is empty at first, and may hold so many deposits.
#[derive(Clone, Copy)]
pub struct Example {
    pub name: &'static str,
    pub limit: u32,
    pub steps: &'static [Step],
}

/// The store of a desk that begins.
#[derive(Clone, Copy)]
pub enum Over {
    /// In memory.
    Memory,
    /// In memory, and gives no body.
    NoBodies,
    /// In tables.
    Tables,
}

/// What is played at a desk that begins.
#[derive(Clone, Copy)]
pub enum Play {
    /// These steps are asked one after the other.
    Steps(&'static [Step]),
    /// The same under the policy with lines more.
    Under(Added, &'static [Step]),
    /// Six runs are asked, where withdrawals are permitted; an error where memory ran out exactly once.
    Runs,
    /// Five requests are asked, each until it is answered otherwise than out of memory; withdrawals are permitted.
    Again,
    /// These steps are asked after a deposit of this body; withdrawals are permitted.
    AfterDeposit(Body, &'static [Step]),
    /// The store alone is asked, without a desk: for the second file as its first deposit.
    Kept,
    /// The same of tables: they are made those of a register of format 1, and migrated. No other store is asked.
    Migrated,
}

/// Whether a step for this project is answered as it should be.
fn holds_for<K: Keep>(
    alloc: Global,
    desk: &mut Desk<K>,
    callers: &Callers,
    project: &Name,
    step: &Step,
) -> Result<bool, AllocError> {
    let bytes = bytes_sent(alloc, &step.2)?;
    match request_at(callers, project, step, &bytes) {
        Some(request) => is_wanted(alloc, &desk.answer(alloc, &request), &step.3),
        None => Ok(false),
    }
}

/// The same for the project that the step names, if it names one.
fn holds<K: Keep>(
    alloc: Global,
    desk: &mut Desk<K>,
    callers: &Callers,
    project: &Name,
    step: &Step,
) -> Result<bool, AllocError> {
    match step.2 {
        Ask::WithdrawFrom(name, _) => match Name::read(alloc, name) {
            Ok(other) => holds_for(alloc, desk, callers, &other, step),
            Err(_) => Err(AllocError),
        },
        _ => holds_for(alloc, desk, callers, project, step),
    }
}

/// Whether these steps, one after the other, are answered as they should be.
fn hold<K: Keep>(
    alloc: Global,
    desk: &mut Desk<K>,
    callers: &Callers,
    project: &Name,
    steps: &[Step],
) -> Result<bool, AllocError> {
    for step in steps {
        match holds(alloc, desk, callers, project, step) {
            Ok(true) => {}
            other => return other,
        }
    }
    Ok(true)
}

/// Whether a desk answers as it should what is played, for this project.
fn answers<K: Keep>(
    alloc: Global,
    desk: &mut Desk<K>,
    callers: &Callers,
    project: &Name,
    play: Play,
) -> Result<bool, AllocError> {
    match play {
        Play::Steps(steps) | Play::Under(_, steps) => hold(alloc, desk, callers, project, steps),
        Play::Runs => runs_out_once(alloc, desk, callers, project),
        Play::Again => Ok(is_answered_again(alloc, desk, callers, project)),
        Play::AfterDeposit(body, steps) => {
            answers_after_deposit(alloc, desk, callers, project, &body, steps)
        }
        Play::Kept | Play::Migrated => Ok(true),
    }
}

/// The store, and whether a desk over it, under this policy, answers what is played for this project as it should.
fn plays_at<K: Keep>(
    alloc: Global,
    mut keep: K,
    policy: Policy,
    callers: &Callers,
    project: &Name,
    play: Play,
) -> (K, Result<bool, AllocError>)
    requires { K.has_failed keep ≡ false }
{
    if matches!(play, Play::Kept) {
        let right = keeps_second(alloc, &mut keep, callers, project);
        return (keep, right);
    }
    let mut desk = Desk::new(keep, policy);
    let right = answers(alloc, &mut desk, callers, project, play);
    (desk.into_keep(), right)
}

/// A store in memory, under a dictionary, that may hold so many deposits.
fn keep_under(alloc: Global, dictionary: Dictionary, limit: u32) -> PlainKeep
    requires least { 0 < limit }
    requires most { limit ≤ 999999 }
{
    if limit == MOST {
        PlainKeep::new(alloc, dictionary)
    } else {
        PlainKeep::with_limit(alloc, dictionary, limit)
    }
}

/// The same under the small dictionary; none where no store may hold so many.
fn memory_of(alloc: Global, limit: u32) -> Option<PlainKeep> {
    if limit == 0 || limit > MOST {
        return None;
    }
    match Dictionary::read(alloc, MINI) {
        Ok(mini) => Some(keep_under(alloc, mini, limit)),
        Err(_) => None,
    }
}

/// Whether that is so over a store in memory that may hold so many deposits.
fn plays_in_memory(
    alloc: Global,
    limit: u32,
    policy: Policy,
    callers: &Callers,
    project: &Name,
    play: Play,
) -> Result<bool, AllocError> {
    match memory_of(alloc, limit) {
        Some(keep) => {
            let (_keep, right) = plays_at(alloc, keep, policy, callers, project, play);
            right
        }
        None => Err(AllocError),
    }
}

/// The same over a store that gives no body.
fn plays_without_bodies(
    alloc: Global,
    policy: Policy,
    callers: &Callers,
    project: &Name,
    play: Play,
) -> Result<bool, AllocError> {
    match memory_of(alloc, MOST) {
        Some(keep) => {
            let keep = Refusing::new(keep, u32::MAX);
            let (_keep, right) = plays_at(alloc, keep, policy, callers, project, play);
            right
        }
        None => Err(AllocError),
    }
}

/// Out of memory, where that is why no tables were made.
fn unmade(error: CreateError) -> Result<bool, AllocError> {
    match error {
        CreateError::NoMemory => Err(AllocError),
        _ => Ok(false),
    }
}

/// The same over tables, in whatever store of SQLite. `SqlKeep` is dropped by the crate that has it.
fn plays_on<S: Alter + Drop>(
    alloc: Global,
    keep: SqlKeep<S>,
    policy: Policy,
    callers: &Callers,
    project: &Name,
    play: Play,
) -> Result<bool, AllocError>
    requires { keep.has_failed ≡ false }
{
    if matches!(play, Play::Migrated) {
        return migrates(alloc, keep);
    }
    let (keep, right) = plays_at(alloc, keep, policy, callers, project, play);
    let _connection = keep.into_connection();
    right
}

/// The same over tables in memory, which are shown to be a store of SQLite here alone, since that is long.
fn plays_in_tables(
    alloc: Global,
    policy: Policy,
    callers: &Callers,
    project: &Name,
    play: Play,
) -> Result<bool, AllocError> {
    if MINI.len() > READABLE {
        return Ok(false);
    }
    match SqlKeep::in_memory(alloc, MINI) {
        Ok(keep) => plays_on(alloc, keep, policy, callers, project, play),
        Err(error) => unmade(error),
    }
}

/// How long a body is.
fn length_of(alloc: Global, body: &Body) -> Result<usize, AllocError> {
    Ok(bytes_of(alloc, body)?.len())
}

/// The same over such a store. Only a store in memory has a limit of its own: with another limit nothing is asked.
fn plays_over(
    alloc: Global,
    (over, limit): (Over, u32),
    policy: Policy,
    callers: &Callers,
    project: &Name,
    play: Play,
) -> Result<bool, AllocError> {
    match over {
        Over::Memory => plays_in_memory(alloc, limit, policy, callers, project, play),
        Over::NoBodies if limit == MOST => {
            plays_without_bodies(alloc, policy, callers, project, play)
        }
        Over::Tables if limit == MOST => plays_in_tables(alloc, policy, callers, project, play),
        _ => Ok(true),
    }
}

/// The policy under which it is played; none where memory is refused.
fn policy_for(alloc: Global, play: Play) -> Option<Policy> {
    match play {
        Play::Under(added, _) => policy_with(alloc, &added),
        Play::Runs | Play::Again | Play::AfterDeposit(_, _) => policy_with(alloc, &WITHDRAWALS),
        _ => Policy::read(alloc, POLICY).ok(),
    }
}

/// The same where the policy is read before.
fn plays_for(
    alloc: Global,
    keep: (Over, u32),
    callers: &Callers,
    project: &Name,
    play: Play,
) -> Result<bool, AllocError> {
    match policy_for(alloc, play) {
        Some(policy) => plays_over(alloc, keep, policy, callers, project, play),
        None => Err(AllocError),
    }
}

/// The same for project N1.
fn plays_of(
    alloc: Global,
    keep: (Over, u32),
    callers: &Callers,
    play: Play,
) -> Result<bool, AllocError> {
    match Name::read(alloc, "N1") {
        Ok(project) => plays_for(alloc, keep, callers, &project, play),
        Err(_) => Err(AllocError),
    }
}

/// Whether a desk over such a store, for so many deposits, answers what is played as it should. Where memory is refused
/// before it begins, nothing is asked.
fn plays(alloc: Global, over: Over, limit: u32, play: Play) -> Result<bool, AllocError> {
    match Callers::read(alloc, CALLERS) {
        Ok(callers) => plays_of(alloc, (over, limit), &callers, play),
        Err(_) => Err(AllocError),
    }
}

/// The examples over such a store.
fn examples_over(alloc: Global, rt: &impl Abort, over: Over) {
    for example in &EXAMPLES {
        let play = Play::Steps(example.steps);
        let right = plays(alloc, over, example.limit, play).unwrap_or(false);
        assert!(rt; right, "{}", example.name);
    }
    for (added, example) in &CHANGED {
        let play = Play::Under(*added, example.steps);
        let right = plays(alloc, over, example.limit, play).unwrap_or(false);
        assert!(rt; right, "{}", example.name);
    }
}

#[test]
fn bodies_are_as_long_as_they_should_be(rt: HostRuntime) {
    let alloc = rt.alloc();
    for Length(name, body, length) in &LENGTHS {
        assert!(rt; length_of(alloc, body).unwrap_or(0) == *length, "{name}");
    }
}

/// Long bodies take longer, so each store has a test of them.
#[test]
fn long_bodies_in_memory(rt: HostRuntime) {
    assert!(rt; plays(rt.alloc(), Over::Memory, MOST, Play::Steps(&LONG)).unwrap_or(false));
}

#[test]
fn long_bodies_in_tables(rt: HostRuntime) {
    assert!(rt; plays(rt.alloc(), Over::Tables, MOST, Play::Steps(&LONG)).unwrap_or(false));
}

#[test]
fn examples_in_memory(rt: HostRuntime) {
    examples_over(rt.alloc(), &rt, Over::Memory);
}

/// Tables hold as many deposits as may be, so an example with a smaller limit is none of theirs.
#[test]
fn examples_in_tables(rt: HostRuntime) {
    examples_over(rt.alloc(), &rt, Over::Tables);
}
