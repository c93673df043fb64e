//! One query of the register, and why a call of the database fails.

ghost use Rattle.std.specs.Prelude.{◌≡◌, false, IsTrue, OnOk};
ghost use Rattle.sqlite.specs.Values.{bound};
ghost use Rattle.sqlite.specs.State.{HasCleanDisk, Survives, IsUnchanged};
ghost use Rattle.sqlite.specs.Held.{state};
ghost use Rattle.reg_tables.specs.Quiet.{IsIdle, IsStill, StaysIfOpen};
ghost use Rattle.reg_tables.specs.Private.Commits.{StaysOrRollsBack};
ghost use Rattle.reg_tables.specs.Private.Found.{FindsShown, OnlyShows};
ghost use Rattle.reg_tables.specs.Private.Errors.{database_fails, is_of_database};

use crate::error::{TableError, is_memory};
use sqlite::types::ValueRef;
use sqlite::{Alter, Connection, Error, Row};

/// The rows that a query of the register shows. `NoMemory` is answered only where the connection is known to be open.
pub(crate) fn query<S: Alter>(
    conn: &mut Connection<S>,
    sql: &str,
    params: &[ValueRef<'_>],
) -> Result<Vec<Row>, TableError>
    requires plain { OnlyShows sql.now (state S.Store conn.old) }
    requires idle { IsIdle (state S.Store conn.old) }
    ensures shown { FindsShown result sql.now (bound params.now) (state S.Store conn.old) (state S.Store conn.new) }
    ensures open { HasCleanDisk (state S.Store conn.new) → database_fails result ≡ false
        → IsTrue (state S.Store conn.new).is_open }
    ensures quiet { IsStill (state S.Store conn.old) (state S.Store conn.new) (database_fails result) }
{
    match ask(conn, sql, params) {
        Ok(rows) => Ok(rows),
        Err(error) => Err(refusal(conn, &error)),
    }
}

fn ask<S: Alter>(
    conn: &mut Connection<S>,
    sql: &str,
    params: &[ValueRef<'_>],
) -> Result<Vec<Row>, Error>
    requires plain { OnlyShows sql.now (state S.Store conn.old) }
    requires idle { IsIdle (state S.Store conn.old) }
    ensures mode { conn.new.in_transaction ≡ false }
    ensures open { HasCleanDisk (state S.Store conn.new) → OnOk result (IsTrue (state S.Store conn.new).is_open) }
    ensures same { StaysIfOpen (state S.Store conn.old) (state S.Store conn.new) }
    ensures shown { FindsShown result sql.now (bound params.now) (state S.Store conn.old) (state S.Store conn.new) }
    ensures crash { Survives (state S.Store conn.old) (state S.Store conn.new) (λ _. ⊥) }
{
    conn.query_all(sql, params)
}

/// Why a call failed. `NoMemory` is answered only where the connection is known to be open.
#[tactic(auto, using(crate::proofs::QueryLemmas::survives_none))]
pub(crate) fn refusal<S: Alter>(conn: &mut Connection<S>, error: &Error) -> TableError
    ensures known { HasCleanDisk (state S.Store conn.new) → is_of_database result ≡ false
        → IsUnchanged (state S.Store conn.old) (state S.Store conn.new) }
    ensures still { StaysOrRollsBack (state S.Store conn.old) (state S.Store conn.new) }
    ensures mode { conn.old.in_transaction ≡ false → conn.new.in_transaction ≡ false }
    ensures crash { Survives (state S.Store conn.old) (state S.Store conn.new) (λ _. ⊥) }
{
    if is_memory(error) && probe(conn) {
        TableError::NoMemory
    } else {
        TableError::Store
    }
}

/// Whether the connection is known to be open. That a call was out of memory does not say it.
///
/// It is asked for a text that is no statement. A connection that is shut answers that first, and to refuse the text
/// takes no memory.
fn probe<S: Alter>(conn: &mut Connection<S>) -> bool
    ensures known { HasCleanDisk (state S.Store conn.new) → IsTrue result
        → IsUnchanged (state S.Store conn.old) (state S.Store conn.new) }
    ensures still { StaysOrRollsBack (state S.Store conn.old) (state S.Store conn.new) }
    ensures mode { conn.old.in_transaction ≡ false → conn.new.in_transaction ≡ false }
    ensures crash { Survives (state S.Store conn.old) (state S.Store conn.new) (λ _. ⊥) }
{
    match conn.prepare("COMMIT COMMIT") {
        Err(Error::SqlInputError(_)) => true,
        _ => false,
    }
}
