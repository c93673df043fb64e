//! Reads the rows that are kept of a deposit.

ghost use Rattle.std.specs.Prelude.{All, IfOk};
ghost use Rattle.reg_store.specs.Reading.{HasKind};
ghost use Rattle.sqlite.specs.Held.{state};
ghost use Rattle.reg_tables.specs.Quiet.{IsIdle, IsStill, FindsThat};
ghost use Rattle.reg_tables.specs.Private.Errors.{database_fails};
ghost use Rattle.reg_tables.specs.Private.Methods.{AreRowsAt, HoldsLines};

use crate::error::TableError;
use crate::read::gather::take_shown;
use crate::read::rows::KeptLines;
use reg_store::KeptRow;
use sqlite::{Alter, Connection, params};
use std::alloc::Global;

/// The rows that are kept of a deposit.
pub(crate) fn read_lines<S: Alter>(
    conn: &mut Connection<S>,
    alloc: Global,
    number: u32,
) -> Result<Vec<KeptRow>, TableError>
    requires idle { IsIdle (state S.Store conn.old) }
    ensures found { FindsThat result (λ db lines. AreRowsAt db number lines.items)
        (state S.Store conn.old) (state S.Store conn.new) }
    ensures held { FindsThat result (λ db lines. HoldsLines db number lines.items)
        (state S.Store conn.old) (state S.Store conn.new) }
    ensures kinds { IfOk result (λ lines. All HasKind lines.items) }
    ensures quiet { IsStill (state S.Store conn.old) (state S.Store conn.new) (database_fails result) }
{
    let mut lines = KeptLines {
        lines: Vec::new(alloc),
    };
    take_shown(
        conn,
        "SELECT seq, grp, kind, line FROM lines WHERE deposit = ?1 ORDER BY seq",
        params![number],
        &mut lines,
    )?;
    Ok(lines.lines)
}
