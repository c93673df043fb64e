//! Stops of the disk, through a desk: a register is made, two deposits are sent and the first is withdrawn, or a
//! register of format 1 is migrated, over disks of which one refuses every call from some call on. What was not synced
//! is lost then, the register is opened again, and a desk is asked over it.

ghost use Rattle.std.specs.Prelude.{◌≡◌, false, IsTrue};

pub(super) mod migration;
mod noted;

use super::bodies::{A, B};
use super::examples::{FIRST, SECOND, UNTIL};
use super::policies::{WITHDRAWALS, policy_with};
use super::{Ask, Line, Step, Want, hold, holds};
use ags_rows::built_in::MINI;
use migration::{looked_at_migrated, made_first, migrated};
use noted::{Noted, copied, letter};
use reg_desk::Desk;
use reg_policy::{Callers, Name, Policy};
use reg_store::Keep;
use reg_tables::{AdoptError, CreateError, SqlKeep};
use samples_of_tests::CALLERS;
use sqlite::{Alter, Connection, FileStore, Files, Options};
use sqlite_disk::{Crash, Disk, Fuse, Memory};
use std::alloc::{AllocError, Global};
use std::test::Fail;

/// A file of a register.
#[derive(Clone, Copy)]
enum Side {
    Log,
    Database,
}

/// Where a run stopped.
#[derive(Clone, Copy)]
pub(super) enum Stage {
    /// The register was being made, or migrated.
    Making,
    /// The first deposit was sent.
    First,
    /// The second deposit was sent.
    Second,
    /// The first deposit was withdrawn.
    Withdrawal,
    /// The register was being closed.
    Closing,
    /// Nothing stopped.
    Ended,
}

/// More calls of one file than a whole task makes.
const MANY: u64 = 2_000;

/// Few pages stay in memory: with `Options::new` a test would take too long. Where the database file stops, the log is
/// copied into it often.
fn options(side: Side) -> Options {
    let checkpoint_frames = match side {
        Side::Log => 1_000,
        Side::Database => 4,
    };
    Options {
        cache_pages: 16,
        spill_pages: 64,
        checkpoint_frames,
        seed: 7,
    }
}

/// The deposits, each with the receipt of its number.
pub(super) const FIRST_SENT: Step = Step("t-delta", UNTIL, Ask::Deposit(A, UNTIL), FIRST);

pub(super) const SECOND_SENT: Step = Step("t-delta", UNTIL, Ask::Deposit(B, UNTIL), SECOND);

const WITHDRAWN: Step = Step("t-delta", UNTIL, Ask::Withdraw(1), Want::Withdrawn(1));

/// What is asked once the store has failed.
static FAILED: [Step; 4] = [
    Step("t-delta", UNTIL, Ask::Check(A), Want::Says("store failed")),
    Step("t-delta", UNTIL, Ask::List, Want::Says("store failed")),
    Step(
        "t-delta",
        UNTIL,
        Ask::Extract(1, &[]),
        Want::Says("store failed"),
    ),
    Step(
        "t-delta",
        UNTIL,
        Ask::Withdraw(1),
        Want::Says("store failed"),
    ),
];

/// Both deposits are sent again.
static AGAIN: [Step; 2] = [FIRST_SENT, SECOND_SENT];

/// Both are listed.
pub(super) const BOTH: Step = Step(
    "t-delta",
    UNTIL,
    Ask::List,
    Want::Lists(&[Line(1, "Delta", UNTIL), Line(2, "Delta", UNTIL)]),
);

/// The second alone is listed.
const UNWITHDRAWN: Step = Step(
    "t-delta",
    UNTIL,
    Ask::List,
    Want::Lists(&[Line(2, "Delta", UNTIL)]),
);

/// Sends both deposits and withdraws the first: the stage in which the store failed, or that of closing. None where
/// there is another answer, and where the store failed and one of four further requests is answered otherwise.
fn fill<K: Keep>(
    alloc: Global,
    desk: &mut Desk<K>,
    callers: &Callers,
    project: &Name,
) -> Result<Option<Stage>, AllocError> {
    let stage = if !holds(alloc, desk, callers, project, &FIRST_SENT)? {
        Stage::First
    } else if !holds(alloc, desk, callers, project, &SECOND_SENT)? {
        Stage::Second
    } else if !holds(alloc, desk, callers, project, &WITHDRAWN)? {
        Stage::Withdrawal
    } else {
        return Ok(Some(Stage::Closing));
    };
    let failed = hold(alloc, desk, callers, project, &FAILED)?;
    Ok(if failed { Some(stage) } else { None })
}

/// Whether a register may hold so many deposits after a stop: what was answered with a receipt, and at most the deposit
/// that stopped.
fn may_hold(stage: Stage, count: u32) -> bool {
    match stage {
        Stage::Making => count == 0,
        Stage::First => count <= 1,
        Stage::Second => 1 <= count && count <= 2,
        Stage::Withdrawal | Stage::Closing | Stage::Ended => count == 2,
    }
}

/// Whether the listing is what it may be after a stop: both deposits, or without the one that was withdrawn.
fn may_list<K: Keep>(
    alloc: Global,
    desk: &mut Desk<K>,
    callers: &Callers,
    project: &Name,
    stage: Stage,
) -> Result<bool, AllocError> {
    let both = holds(alloc, desk, callers, project, &BOTH)?;
    let unwithdrawn = holds(alloc, desk, callers, project, &UNWITHDRAWN)?;
    Ok(match stage {
        Stage::Making | Stage::First | Stage::Second => both,
        Stage::Withdrawal => both || unwithdrawn,
        Stage::Closing | Stage::Ended => unwithdrawn,
    })
}

/// The stage of a stop, where the register holds what it may after it, and takes both deposits that are sent again
/// under their numbers.
fn look_at<K: Keep>(
    alloc: Global,
    desk: &mut Desk<K>,
    callers: &Callers,
    project: &Name,
    stage: Stage,
) -> Result<Option<Stage>, AllocError> {
    let may = may_hold(stage, desk.keep().count());
    let held = hold(alloc, desk, callers, project, &AGAIN)?;
    let listed = may_list(alloc, desk, callers, project, stage)?;
    let whole = may && held && listed && desk.keep().count() == 2;
    Ok(if whole { Some(stage) } else { None })
}

/// The stage, where these steps are answered as they should be.
fn play<K: Keep>(
    alloc: Global,
    desk: &mut Desk<K>,
    callers: &Callers,
    project: &Name,
    steps: &[Step],
    stage: Stage,
) -> Result<Option<Stage>, AllocError> {
    let right = hold(alloc, desk, callers, project, steps)?;
    Ok(if right { Some(stage) } else { None })
}

/// What a desk does with a register.
#[derive(Clone, Copy)]
pub(super) enum Visit {
    /// It is new, and filled.
    Fill,
    /// It is what a stop in this stage left, and is looked at.
    LookAt(Stage),
    /// These steps are asked, and this is the stage where all are answered as they should be.
    Play(&'static [Step], Stage),
}

/// What is done with files.
#[derive(Clone, Copy)]
enum Task {
    /// A register is made and filled.
    Fill,
    /// A register of format 1 is made and filled.
    FillFirst,
    /// It is migrated.
    Migrate,
    /// What a stop in this stage left is looked at.
    LookAt(Stage),
    /// The same of a stop of the migration.
    LookAtMigrated(Stage),
}

/// The stage of a visit by a desk.
fn stage_by<K: Keep>(alloc: Global, desk: &mut Desk<K>, visit: Visit) -> Option<Stage> {
    let callers = Callers::read(alloc, CALLERS).ok()?;
    let project = Name::read(alloc, "N1").ok()?;
    let stage = match visit {
        Visit::Fill => fill(alloc, desk, &callers, &project),
        Visit::LookAt(stage) => look_at(alloc, desk, &callers, &project, stage),
        Visit::Play(steps, stage) => play(alloc, desk, &callers, &project, steps, stage),
    };
    stage.ok()?
}

/// The stage of a visit by a desk over this store, and the store.
fn visited<K: Keep>(alloc: Global, keep: K, policy: Policy, visit: Visit) -> (Option<Stage>, K)
    requires { K.has_failed keep ≡ false }
{
    let mut desk = Desk::new(keep, policy);
    let stage = stage_by(alloc, &mut desk, visit);
    (stage, desk.into_keep())
}

/// The same of a store in tables, over any `Alter`. `SqlKeep` is shown to be a `Keep` here alone.
pub(super) fn visited_tables<S: Alter + Drop>(
    alloc: Global,
    keep: SqlKeep<S>,
    visit: Visit,
) -> (Option<Stage>, Connection<S>)
    requires { keep.has_failed ≡ false }
{
    match policy_with(alloc, &WITHDRAWALS) {
        Some(policy) => {
            let (stage, keep) = visited(alloc, keep, policy, visit);
            (stage, keep.into_connection())
        }
        None => (None, keep.into_connection()),
    }
}

/// The files of a database that is closed, and the stage that a run then stopped in: that before, or none where all
/// went well.
fn closed<D: Disk + Drop>(
    stage: Option<Stage>,
    connection: Connection<FileStore<D>>,
) -> (Option<Stage>, Files<D>) {
    match connection.close_files() {
        Ok(files) => (after_closing(stage), files),
        Err((_, store)) => (stage, store.close()),
    }
}

/// A run that got as far as its closing has ended where the closing went well.
fn after_closing(stage: Option<Stage>) -> Option<Stage> {
    match stage {
        Some(Stage::Closing) => Some(Stage::Ended),
        _ => stage,
    }
}

/// A register is made and filled, up to the first call that is refused. Where one is refused otherwise than by the
/// stop, no stage is answered.
fn made<S: Alter + Drop>(
    alloc: Global,
    connection: Connection<S>,
) -> (Option<Stage>, Connection<S>) {
    match SqlKeep::create_in(alloc, connection, MINI) {
        Ok(keep) => visited_tables(alloc, keep, Visit::Fill),
        Err((CreateError::Store, connection)) => (Some(Stage::Making), connection),
        Err((_, connection)) => (None, connection),
    }
}

/// Makes the register anew in tables that are none, which the making alone may leave.
fn made_anew<S: Alter + Drop>(
    alloc: Global,
    stage: Stage,
    connection: Connection<S>,
) -> (Option<Stage>, Connection<S>) {
    if !matches!(stage, Stage::Making) {
        return (None, connection);
    }
    match SqlKeep::create_in(alloc, connection, MINI) {
        Ok(keep) => visited_tables(alloc, keep, Visit::LookAt(stage)),
        Err((_, connection)) => (None, connection),
    }
}

/// Opens what a stop left, and looks at it: the stage, where it is as it may be, and each deposit that it has was said
/// to be checked.
fn looked_at<S: Alter + Drop>(
    alloc: Global,
    stage: Stage,
    connection: Connection<S>,
) -> (Option<Stage>, Connection<S>) {
    let mut noted = Noted::new();
    match SqlKeep::adopt(alloc, connection, &mut noted) {
        Ok(keep) => {
            let all_noted = noted.is_of(keep.count());
            let (found, connection) = visited_tables(alloc, keep, Visit::LookAt(stage));
            (if all_noted { found } else { None }, connection)
        }
        Err((AdoptError::NotRegister, connection)) => made_anew(alloc, stage, connection),
        Err((_, connection)) => (None, connection),
    }
}

/// Does a task over any store.
fn done<S: Alter + Drop>(
    alloc: Global,
    connection: Connection<S>,
    task: Task,
) -> (Option<Stage>, Connection<S>) {
    match task {
        Task::Fill => made(alloc, connection),
        Task::FillFirst => made_first(alloc, connection),
        Task::Migrate => migrated(alloc, connection),
        Task::LookAt(stage) => looked_at(alloc, stage, connection),
        Task::LookAtMigrated(stage) => looked_at_migrated(alloc, stage, connection),
    }
}

/// Does a task over files, which are shown to be a store here alone, since that is long.
fn done_on_files<D: Disk + Drop>(
    alloc: Global,
    connection: Connection<FileStore<D>>,
    task: Task,
) -> (Option<Stage>, Connection<FileStore<D>>) {
    done(alloc, connection, task)
}

/// Does a task from the opening of the files to their closing.
fn run<D: Disk + Drop>(
    alloc: Global,
    side: Side,
    files: Files<D>,
    task: Task,
) -> (Option<Stage>, Files<D>)
    requires log { IsTrue (D.Disk.is_usable files.log) }
    requires db { IsTrue (D.Disk.is_usable files.db) }
{
    match Connection::open_files(alloc, files, options(side)) {
        Ok(connection) => {
            let (stage, connection) = done_on_files(alloc, connection, task);
            closed(stage, connection)
        }
        Err((_, left)) => (Some(Stage::Making), left.into_files()),
    }
}

/// The stage of this task, where the files hold what they may once the machine has lost what was not synced.
fn left<D: Crash + Drop>(alloc: Global, side: Side, files: Files<D>, task: Task) -> Option<Stage> {
    let Files { mut log, mut db } = files;
    log.crash();
    db.crash();
    match Connection::open_files(alloc, Files { log, db }, options(side)) {
        Ok(connection) => {
            let (found, connection) = done_on_files(alloc, connection, task);
            // A connection that is dropped takes the prover longer than one that is closed.
            let _ = closed(None, connection);
            found
        }
        Err(_) => None,
    }
}

/// How a stop of this task in this stage is looked at.
fn look_after(task: Task, stage: Stage) -> Task {
    match task {
        Task::Migrate => Task::LookAtMigrated(stage),
        _ => Task::LookAt(stage),
    }
}

/// The stage in which a task over these files stops, where it leaves what it may.
fn stage_over<D: Crash + Drop>(
    alloc: Global,
    side: Side,
    files: Files<D>,
    task: Task,
) -> Option<Stage>
    requires log { IsTrue (D.Disk.is_usable files.log) }
    requires db { IsTrue (D.Disk.is_usable files.db) }
{
    match run(alloc, side, files, task) {
        (Some(stage), files) => left(alloc, side, files, look_after(task, stage)),
        (None, _) => None,
    }
}

/// The files in memory over which a task begins: new ones, or those of a register of format 1 that is to be migrated.
/// One type of file serves throughout: for each, the whole of `sqlite` is compiled anew.
fn files_before(alloc: Global, side: Side, task: Task) -> Option<Files<Memory>> {
    let log = Memory::new(alloc);
    let db = Memory::new(alloc);
    if !matches!(task, Task::Migrate) {
        return Some(Files { log, db });
    }
    let files = Files {
        log: Fuse::new(log, u64::MAX),
        db: Fuse::new(db, u64::MAX),
    };
    match run(alloc, side, files, Task::FillFirst) {
        (Some(Stage::Ended), Files { log, db }) => Some(Files {
            log: copied(alloc, &log).ok()?,
            db: copied(alloc, &db).ok()?,
        }),
        _ => None,
    }
}

/// The stage in which a task stops over such files, of which one refuses each call after so many. Here alone a disk is
/// named.
fn stage_of(alloc: Global, side: Side, task: Task, calls: u64) -> Option<Stage> {
    let (log_calls, database_calls) = match side {
        Side::Log => (calls, u64::MAX),
        Side::Database => (u64::MAX, calls),
    };
    let Files { mut log, mut db } = files_before(alloc, side, task)?;
    // All of it is synced. A disk is known to be usable once what was not synced is lost.
    log.crash();
    db.crash();
    let log = Fuse::new(log, log_calls);
    let db = Fuse::new(db, database_calls);
    stage_over(alloc, side, Files { log, db }, task)
}

/// The letters of a task with ever more calls of a file, up to the first that ended or left what it may not.
fn letters(alloc: Global, side: Side, task: Task) -> Result<String, AllocError> {
    let mut letters = String::new(alloc);
    for calls in 0..MANY {
        let letter = letter(stage_of(alloc, side, task, calls));
        letters.push(letter)?;
        if letter == '.' || letter == 'x' {
            return Ok(letters);
        }
    }
    Ok(letters)
}

/// In each stage of a task some runs stop, at least so many, before one ends.
fn least(task: Task) -> &'static [&'static str] {
    match task {
        Task::Migrate => &["MMMMM", "."],
        _ => &["MMMMM", "FF", "SS", "W", "C", "."],
    }
}

/// Whether some runs stop in each stage, and one ends.
fn has_all(letters: &str, task: Task) -> bool {
    for some in least(task) {
        if !letters.contains(*some) {
            return false;
        }
    }
    true
}

/// How many runs stopped: each but the last, which ended. It fails with their letters where none stopped in some stage,
/// or none ended.
fn stops_at(alloc: Global, side: Side, task: Task) -> Result<usize, Fail> {
    let letters = letters(alloc, side, task)?;
    if has_all(letters.as_str(), task) {
        Ok(letters.len().saturating_sub(1))
    } else {
        Err(Fail::new(letters))
    }
}

#[test]
fn stops_of_a_store(rt: HostRuntime) -> Result<(), Fail> {
    let of_log = stops_at(rt.alloc(), Side::Log, Task::Fill)?;
    println!(rt; "{of_log} stops of the log")?;
    let of_database = stops_at(rt.alloc(), Side::Database, Task::Fill)?;
    println!(rt; "{of_database} stops of the database file")?;
    Ok(())
}

#[test]
fn stops_of_a_migration(rt: HostRuntime) -> Result<(), Fail> {
    let of_log = stops_at(rt.alloc(), Side::Log, Task::Migrate)?;
    println!(rt; "{of_log} stops of the log in a migration")?;
    let of_database = stops_at(rt.alloc(), Side::Database, Task::Migrate)?;
    println!(rt; "{of_database} stops of the database file in a migration")?;
    Ok(())
}
