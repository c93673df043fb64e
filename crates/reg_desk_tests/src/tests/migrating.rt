//! A register of format 1 is migrated, where memory is refused to one allocation, by `conformance/refused_tests`.

ghost use Rattle.std.specs.Prelude.{◌≡◌, false};

use super::examples::MOST;
use super::stops::migration::made_first_by;
use super::stops::{BOTH, FIRST_SENT, SECOND_SENT, Stage, Visit, visited_tables};
use super::table_caller::register_in;
use super::{Over, Play, Step, plays};
use reg_store::NoProgress;
use reg_tables::{MigrateError, SqlKeep};
use sqlite::{Alter, Connection};
use std::alloc::{AllocError, Global};

/// Both deposits are held, and listed.
static HELD: [Step; 3] = [FIRST_SENT, SECOND_SENT, BOTH];

/// Whether a desk over this store finds both deposits, and the store's connection.
fn holds_both<S: Alter + Drop>(alloc: Global, keep: SqlKeep<S>) -> (bool, Connection<S>)
    requires { keep.has_failed ≡ false }
{
    let visit = Visit::Play(&HELD, Stage::Ended);
    let (found, connection) = visited_tables(alloc, keep, visit);
    (found.is_some(), connection)
}

/// The same, or over what is then opened: one of the two has memory.
fn holds_then<S: Alter + Drop>(alloc: Global, keep: SqlKeep<S>) -> bool
    requires { keep.has_failed ≡ false }
{
    let (held, connection) = holds_both(alloc, keep);
    if held {
        return true;
    }
    match register_in(alloc, connection) {
        Ok(keep) => holds_both(alloc, keep).0,
        Err(_) => false,
    }
}

/// Whether a register of format 1 is migrated, and holds both deposits then. Where that is refused memory, the register
/// is as before, and is migrated with memory.
fn is_migrated<S: Alter + Drop>(alloc: Global, connection: Connection<S>) -> bool {
    match SqlKeep::migrate_in(alloc, connection, &mut NoProgress) {
        Ok(keep) => holds_then(alloc, keep),
        Err((MigrateError::NoMemory, connection)) => {
            match SqlKeep::migrate_in(alloc, connection, &mut NoProgress) {
                Ok(keep) => holds_both(alloc, keep).0,
                Err((_, _connection)) => false,
            }
        }
        Err((_, _connection)) => false,
    }
}

/// Sends both deposits to a new register, makes it one of format 1, and migrates it; an error where it was not made so,
/// as where memory is refused.
pub fn migrates<S: Alter + Drop>(alloc: Global, keep: SqlKeep<S>) -> Result<bool, AllocError>
    requires { keep.has_failed ≡ false }
{
    match made_first_by(alloc, keep) {
        (Some(_), connection) => Ok(is_migrated(alloc, connection)),
        (None, _connection) => Err(AllocError),
    }
}

#[test]
fn format_1_is_migrated(rt: HostRuntime) {
    assert!(rt; plays(rt.alloc(), Over::Tables, MOST, Play::Migrated).unwrap_or(false));
}

/// Where memory is refused before the migration, nothing is asked.
#[test]
fn migrated_or_as_before(rt: HostRuntime) {
    assert!(rt; plays(rt.alloc(), Over::Tables, MOST, Play::Migrated).unwrap_or(true));
}
