//! The rows of an answer, read one at a time.

ghost use Rattle.std.specs.Prelude.{◌≡◌, ◌++◌, ◌∷◌, [], List, false, IsTrue, OnOk};
ghost use Rattle.sqlite.specs.Order.{Row as Values};
ghost use Rattle.sqlite.specs.Values.{bound};
ghost use Rattle.sqlite.specs.State.{HasCleanDisk, Survives};
ghost use Rattle.sqlite.specs.Held.{state};
ghost use Rattle.reg_tables.specs.Private.Meaning.{IsPlainText};
ghost use Rattle.reg_tables.specs.Quiet.{IsIdle, IsStill, StaysIfOpen};
ghost use Rattle.reg_tables.specs.Private.Found.{TakesEachShown, TakesShown};
ghost use Rattle.reg_tables.specs.Private.Errors.{database_fails};

use crate::error::TableError;
use crate::read::queries::refusal;
use sqlite::types::ValueRef;
use sqlite::{Alter, Connection, Error, Row};

/// Takes each row that a query of the register shows. `NoMemory` is answered only where the connection is known to be
/// open.
pub(crate) fn take_shown<S: Alter, G: Gather>(
    conn: &mut Connection<S>,
    sql: &str,
    params: &[ValueRef<'_>],
    into: &mut G,
) -> Result<(), TableError>
    requires plain { IsPlainText sql.now }
    requires idle { IsIdle (state S.Store conn.old) }
    requires empty { G.holds into.old into.old [] }
    ensures shown { TakesShown result sql.now (bound params.now) (G.holds into.old into.new)
        (state S.Store conn.old) (state S.Store conn.new) }
    ensures quiet { IsStill (state S.Store conn.old) (state S.Store conn.new) (database_fails result) }
{
    match take_each(conn, sql, params, into) {
        Ok(taken) => taken,
        Err(error) => Err(refusal(conn, &error)),
    }
}

/// What the rows of an answer are read into.
pub(crate) trait Gather {
    // What was taken since the first state is what these rows say.
    ghost holds: { Self → Self → List Values → Type 0 };

    /// Takes the next row.
    fn take(&mut self, row: &Row) -> Result<(), TableError>
        ensures { OnOk result ((first : Self) (rows : List Values) → holds first self.old rows
            → holds first self.new (rows ++ row.now ∷ [])) };
}

/// Takes each row of an answer. The outer error is the database's, the inner that of a row.
fn take_each<S: Alter, G: Gather>(
    conn: &mut Connection<S>,
    sql: &str,
    params: &[ValueRef<'_>],
    into: &mut G,
) -> Result<Result<(), TableError>, Error>
    requires plain { IsPlainText sql.now }
    requires idle { IsIdle (state S.Store conn.old) }
    requires empty { G.holds into.old into.old [] }

    // Transaction and connection after the call.
    ensures mode { conn.new.in_transaction ≡ false }
    ensures open { HasCleanDisk (state S.Store conn.new) → OnOk result (IsTrue (state S.Store conn.new).is_open) }
    ensures same { StaysIfOpen (state S.Store conn.old) (state S.Store conn.new) }

    // What was taken of the answer, and what a crash may leave.
    ensures shown { TakesEachShown result sql.now (bound params.now) (G.holds into.old into.new)
        (state S.Store conn.old) (state S.Store conn.new) }
    ensures crash { Survives (state S.Store conn.old) (state S.Store conn.new) (λ _. ⊥) }
{
    let mut rows = conn.query(sql, params)?;
    'rows: for _ in 0..u64::MAX {
        let Some(row) = rows.next()? else {
            return Ok(Ok(()));
        };
        if let Err(error) = into.take(row) {
            return Ok(Err(error));
        }
    }
    Ok(Err(TableError::Store))
}
