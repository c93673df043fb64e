//! Which deposits are marked as withdrawn.

ghost use Rattle.std.specs.Prelude.{◌≡◌, ◌↔◌, List, Bool, None, Some, Ok, length, slice_get, false, IsTrue, IfOk};
ghost use Rattle.std.specs.Prelude.{IfSome};
ghost use Rattle.sqlite.specs.State.{HasCleanDisk};
ghost use Rattle.sqlite.specs.Held.{state};
ghost use Rattle.reg_tables.specs.Private.Errors.{database_fails};
ghost use Rattle.reg_tables.specs.Adoption.{FindsMarks, gives_up};
ghost use Rattle.reg_tables.specs.Private.Found.{AreMarksInOrder};
ghost use Rattle.reg_tables.specs.Quiet.{FindsThat, IsIdle, IsStill};
ghost use Rattle.reg_tables.specs.Register.{mark_rows};
ghost use Rattle.reg_tables.specs.Rows.{number_row};
ghost use Rattle.reg_tables.specs.Tables.{HasMarkTable};

use crate::error::{AdoptError, TableError};
use crate::open::values::is_row;
use crate::read::queries::query;
use sqlite::types::ToSql;
use sqlite::{Alter, Connection, Row};
use std::alloc::{AllocError, Global};

/// Of each of so many deposits whether it is marked, if the rows of the table are numbers of these deposits.
pub(crate) fn read_marks<S: Alter>(
    conn: &mut Connection<S>,
    alloc: Global,
    count: u32,
) -> Result<Vec<bool>, AdoptError>
    requires idle { IsIdle (state S.Store conn.old) }
    requires schema { HasCleanDisk (state S.Store conn.old) → HasMarkTable (state S.Store conn.old).now.schema }
    ensures found { HasCleanDisk (state S.Store conn.new) → FindsMarks count (state S.Store conn.old).now result }
    ensures long { IfOk result (λ marks. length marks.items ≡ count) }
    ensures open { HasCleanDisk (state S.Store conn.new) → gives_up result ≡ false
        → IsTrue (state S.Store conn.new).is_open }
    ensures quiet { IsStill (state S.Store conn.old) (state S.Store conn.new) (gives_up result) }
{
    let rows = read_mark_rows(conn)?;
    match marks_in(alloc, &rows, count) {
        Ok(Some(marks)) => Ok(marks),
        Ok(None) => Err(AdoptError::NotRegister),
        Err(_) => Err(AdoptError::NoMemory),
    }
}

/// The rows of the table, in the order of their numbers.
fn read_mark_rows<S: Alter>(conn: &mut Connection<S>) -> Result<Vec<Row>, TableError>
    requires idle { IsIdle (state S.Store conn.old) }
    requires schema { HasCleanDisk (state S.Store conn.old) → HasMarkTable (state S.Store conn.old).now.schema }
    ensures found { FindsThat result (λ db rows. AreMarksInOrder db rows.items)
        (state S.Store conn.old) (state S.Store conn.new) }
    ensures open { HasCleanDisk (state S.Store conn.new) → database_fails result ≡ false
        → IsTrue (state S.Store conn.new).is_open }
    ensures quiet { IsStill (state S.Store conn.old) (state S.Store conn.new) (database_fails result) }
{
    query(
        conn,
        "SELECT deposit FROM withdrawals ORDER BY deposit",
        &[],
    )
}

/// Of each of so many deposits whether it is marked, if the rows, rising, are numbers of these deposits.
fn marks_in(alloc: Global, rows: &[Row], count: u32) -> Result<Option<Vec<bool>>, AllocError>
    ensures found { IfOk result (λ found. IfSome found (λ marks. rows.now ≡ mark_rows 1 marks.items)) }
    ensures long { IfOk result (λ found. IfSome found (λ marks. length marks.items ≡ count)) }
    ensures none { result ≡ Ok None → (marks : List Bool) → length marks ≡ count → rows.now ≡ mark_rows 1 marks → ⊥ }
{
    let mut marks = Vec::with_capacity(alloc, count as usize)?;
    let mut next: usize = 0;
    for at in 0..count {
        if is_mark(rows, next, at + 1) {
            marks.push(true)?;
            next += 1;
        } else {
            marks.push(false)?;
        }
    }
    if next == rows.len() {
        Ok(Some(marks))
    } else {
        Ok(None)
    }
}

/// Whether there is a row at this place, and it is the mark of this deposit.
fn is_mark(rows: &[Row], at: usize, number: u32) -> bool
    ensures { IsTrue result ↔ (slice_get rows.now at ≡ Some (number_row number)) }
{
    match rows.get(at) {
        Some(row) => is_row(row, &[number.to_sql()]),
        None => false,
    }
}
