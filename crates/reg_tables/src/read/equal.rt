//! Reads which of some deposits is equal to a file that comes.

ghost use Rattle.std.specs.Prelude.{◌≡◌, true, IfOk, IfSome};
ghost use Rattle.sqlite.specs.Held.{state};
ghost use Rattle.reg_tables.specs.Private.Errors.{database_fails};
ghost use Rattle.reg_tables.specs.Quiet.{IsIdle, IsStill};
ghost use Rattle.reg_tables.specs.Private.Found.{FindsEqual, FindsIfEqual, FindsNoEqual};
ghost use Rattle.reg_tables.specs.Private.Digests.{is_among};

use crate::error::TableError;
use crate::read::read_deposit;
use reg_policy::Name;
use reg_store::is_equal;
use sqlite::{Alter, Connection};
use std::alloc::Global;

/// The first of these numbers whose deposit is equal, byte by byte.
pub(crate) fn read_equal<S: Alter>(
    conn: &mut Connection<S>,
    alloc: Global,
    numbers: &[u32],
    firm: &Name,
    project: &Name,
    bytes: &[u8],
) -> Result<Option<u32>, TableError>
    requires idle { IsIdle (state S.Store conn.old) }
    ensures equal { FindsEqual result firm.now project.now bytes.now (state S.Store conn.old) (state S.Store conn.new) }
    ensures among { IfOk result (λ found. IfSome found (λ n. is_among n numbers.now ≡ true)) }
    ensures none { FindsNoEqual result numbers.now firm.now project.now bytes.now
        (state S.Store conn.old) (state S.Store conn.new) }
    ensures quiet { IsStill (state S.Store conn.old) (state S.Store conn.new) (database_fails result) }
{
    for number in numbers {
        if compare_deposit(conn, alloc, *number, firm, project, bytes)? {
            return Ok(Some(*number));
        }
    }
    Ok(None)
}

/// Whether the deposit of a number is equal, byte by byte.
fn compare_deposit<S: Alter>(
    conn: &mut Connection<S>,
    alloc: Global,
    number: u32,
    firm: &Name,
    project: &Name,
    bytes: &[u8],
) -> Result<bool, TableError>
    requires idle { IsIdle (state S.Store conn.old) }
    ensures equal { FindsIfEqual result number firm.now project.now bytes.now
        (state S.Store conn.old) (state S.Store conn.new) }
    ensures quiet { IsStill (state S.Store conn.old) (state S.Store conn.new) (database_fails result) }
{
    let kept = read_deposit(conn, alloc, number)?;
    Ok(is_equal(&kept, firm, project, bytes))
}
