//! A register of format 1 that is migrated, and what a desk answers over it then.

ghost use Rattle.std.specs.Prelude.{◌≡◌, false};

use super::{AGAIN, BOTH, Stage, UNWITHDRAWN, Visit, WITHDRAWN, visited_tables};
use crate::tests::bodies::{A, B};
use crate::tests::examples::UNTIL;
use crate::tests::{Ask, Step, Want};
use ags_rows::built_in::MINI;
use reg_store::NoProgress;
use reg_tables::{AdoptError, MigrateError, SqlKeep};
use sqlite::{Alter, Connection};
use std::alloc::Global;

/// What makes a register of format 2 without a mark one of format 1.
const TO_FORMAT_1: &str = "DROP TABLE withdrawals; UPDATE meta SET num = 1 WHERE name = 'format'";

/// Both deposits are listed and drawn, and the first is withdrawn.
static AS_BEFORE: [Step; 5] = [
    BOTH,
    Step("t-delta", UNTIL, Ask::Extract(1, &[]), Want::Gives(A)),
    Step("t-delta", UNTIL, Ask::Extract(2, &[]), Want::Gives(B)),
    WITHDRAWN,
    UNWITHDRAWN,
];

/// Both deposits are sent to this store, which is then made one of format 1.
pub(crate) fn made_first_by<S: Alter + Drop>(
    alloc: Global,
    keep: SqlKeep<S>,
) -> (Option<Stage>, Connection<S>)
    requires { keep.has_failed ≡ false }
{
    let visit = Visit::Play(&AGAIN, Stage::Closing);
    let (stage, mut connection) = visited_tables(alloc, keep, visit);
    let lowered = connection.execute_batch(TO_FORMAT_1).is_ok();
    (if lowered { stage } else { None }, connection)
}

/// A register of format 1 is made to which both deposits were sent.
pub(super) fn made_first<S: Alter + Drop>(
    alloc: Global,
    connection: Connection<S>,
) -> (Option<Stage>, Connection<S>) {
    match SqlKeep::create_in(alloc, connection, MINI) {
        Ok(keep) => made_first_by(alloc, keep),
        Err((_, connection)) => (None, connection),
    }
}

/// It is migrated, up to the first call that is refused. Where another refusal is answered than a failed store, no
/// stage is.
pub(super) fn migrated<S: Alter + Drop>(
    alloc: Global,
    connection: Connection<S>,
) -> (Option<Stage>, Connection<S>) {
    match SqlKeep::migrate_in(alloc, connection, &mut NoProgress) {
        Ok(keep) => (Some(Stage::Closing), keep.into_connection()),
        Err((MigrateError::Store, connection)) => (Some(Stage::Making), connection),
        Err((_, connection)) => (None, connection),
    }
}

/// Migrates it again, where the migration stopped.
fn migrated_again<S: Alter + Drop>(
    alloc: Global,
    stage: Stage,
    connection: Connection<S>,
) -> (Option<Stage>, Connection<S>) {
    if !matches!(stage, Stage::Making) {
        return (None, connection);
    }
    match SqlKeep::migrate_in(alloc, connection, &mut NoProgress) {
        Ok(keep) => visited_tables(alloc, keep, Visit::Play(&AS_BEFORE, stage)),
        Err((_, connection)) => (None, connection),
    }
}

/// Opens what a stop of the migration left: the stage, where it is of format 2, or of format 1 and migrated then, and a
/// desk answers as if nothing had stopped.
pub(super) fn looked_at_migrated<S: Alter + Drop>(
    alloc: Global,
    stage: Stage,
    connection: Connection<S>,
) -> (Option<Stage>, Connection<S>) {
    match SqlKeep::adopt(alloc, connection, &mut NoProgress) {
        Ok(keep) => visited_tables(alloc, keep, Visit::Play(&AS_BEFORE, stage)),
        Err((AdoptError::Version(1), connection)) => migrated_again(alloc, stage, connection),
        Err((_, connection)) => (None, connection),
    }
}
