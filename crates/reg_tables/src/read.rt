//! Reads a deposit from the tables.

ghost use Rattle.std.specs.Prelude.{IfOk};
ghost use Rattle.sqlite.specs.Held.{state};
ghost use Rattle.reg_tables.specs.Quiet.{IsIdle, IsStill, FindsThat};
ghost use Rattle.reg_tables.specs.Private.Found.{FindsAll, rows_numbered};
ghost use Rattle.reg_tables.specs.Private.Digests.{IsRowOf};
ghost use Rattle.reg_store.specs.Keep.{sent_of};
ghost use Rattle.reg_tables.specs.Private.Errors.{database_fails};
ghost use Rattle.reg_store.specs.Fit.{IsNamed};

pub(crate) mod equal;
pub(crate) mod gather;
pub(crate) mod graph;
pub(crate) mod lines;
pub(crate) mod queries;
pub(crate) mod rows;

use crate::error::TableError;
use crate::read::queries::query;
use crate::read::rows::deposit_in;
use reg_store::Kept;
use sqlite::{Alter, Connection, Row, params};
use std::alloc::Global;

/// The deposit of a number: its row is the only one. The mark is not in the row.
pub(crate) fn read_deposit<S: Alter>(
    conn: &mut Connection<S>,
    alloc: Global,
    number: u32,
) -> Result<Kept, TableError>
    requires idle { IsIdle (state S.Store conn.old) }
    ensures found { FindsThat result (λ db kept. IsRowOf db number (sent_of kept))
        (state S.Store conn.old) (state S.Store conn.new) }
    ensures is_named { IfOk result (λ kept. IsNamed (sent_of kept)) }
    ensures quiet { IsStill (state S.Store conn.old) (state S.Store conn.new) (database_fails result) }
{
    let rows = read_numbered(conn, number)?;
    deposit_in(alloc, number, &rows)
}

/// The rows of `deposits` with this number.
pub(crate) fn read_numbered<S: Alter>(
    conn: &mut Connection<S>,
    number: u32,
) -> Result<Vec<Row>, TableError>
    requires idle { IsIdle (state S.Store conn.old) }
    ensures found { FindsAll result (rows_numbered number) (state S.Store conn.old) (state S.Store conn.new) }
    ensures quiet { IsStill (state S.Store conn.old) (state S.Store conn.new) (database_fails result) }
{
    query(
        conn,
        "SELECT number, firm, project, embargo, body FROM deposits WHERE number = ?1",
        params![number],
    )
}
