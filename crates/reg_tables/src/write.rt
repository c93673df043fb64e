//! Adds a checked file to the tables as a deposit.

ghost use Rattle.std.specs.Prelude.{◌≡◌, ◌<◌, ◌^◌, length, pos, false, IsTrue};
ghost use Rattle.sqlite.specs.State.{HasCleanDisk};
ghost use Rattle.sqlite.specs.Held.{state};
ghost use Rattle.reg_policy.specs.Days.{is_day_number};
ghost use Rattle.reg_store.specs.Fit.{IsNamed, kept_rows};
ghost use Rattle.reg_tables.specs.Private.Errors.{database_fails};
ghost use Rattle.reg_tables.specs.Private.Commits.{CommitsAll, UndoesUnlessFailed};
ghost use Rattle.reg_tables.specs.Private.Filed.{AddsChecked, SurvivesAdding};
ghost use Rattle.reg_tables.specs.Tables.{register_schema};
ghost use Rattle.reg_tables.specs.Quiet.{IsIdle};
ghost use Rattle.reg_tables.specs.Rows.{deposit_from};

pub(crate) mod change;
pub(crate) mod filed;
pub(crate) mod lines;
pub(crate) mod mark;
pub(crate) mod statement;
pub(crate) mod steps;

use crate::error::TableError;
use crate::write::change::change_tables;
use crate::write::filed::Filed;
use ags_check::Checked;
use reg_policy::{Day, Name};
use reg_store::KeptRow;
use sqlite::{Alter, Connection};

/// Adds a checked file under a number, with its steps and these, its rows. `NoMemory` is answered only where nothing changed.
pub(crate) fn add_checked<S: Alter>(
    conn: &mut Connection<S>,
    number: u32,
    firm: &Name,
    project: &Name,
    embargo: Day,
    checked: &Checked<'_>,
    rows: &[KeptRow],
) -> Result<(), TableError>
    requires rows { rows.now ≡ kept_rows checked.now.groups }
    requires few { length rows.now < 2 ^ 32 }
    requires idle { IsIdle (state S.Store conn.old) }
    requires schema { HasCleanDisk (state S.Store conn.old) → (state S.Store conn.old).now.schema ≡ register_schema }
    requires is_open { HasCleanDisk (state S.Store conn.old) → IsTrue (state S.Store conn.old).is_open }

    // The deposit at success, as it is added and committed.
    ensures put { AddsChecked result number firm.now project.now embargo checked.now
        (state S.Store conn.old) (state S.Store conn.new) }
    ensures settled { CommitsAll result (state S.Store conn.new) }

    // What is undone at a refusal that is not `Store`.
    ensures undone { UndoesUnlessFailed result (state S.Store conn.old) (state S.Store conn.new) }

    // Deposit, transaction and connection in either case, and what a crash may leave.
    ensures mode { conn.new.in_transaction ≡ false }
    ensures fit { IsNamed (deposit_from firm.now project.now embargo checked.now.bytes) }
    ensures open { HasCleanDisk (state S.Store conn.new) → database_fails result ≡ false
        → IsTrue (state S.Store conn.new).is_open }
    ensures crash { SurvivesAdding number firm.now project.now embargo checked.now
        (state S.Store conn.old) (state S.Store conn.new) }
{
    let firm_text = firm.text();
    let project_text = project.text();
    let day = stored_day(embargo);
    let filed = Filed {
        number,
        firm: firm_text,
        project: project_text,
        embargo: day,
        body: checked.bytes(),
        rows,
        steps: checked.graph().steps(),
    };
    change_tables(conn, &filed)
}

/// The number of a day.
fn stored_day(day: Day) -> u32
    ensures number { pos result ≡ day }
    ensures is_day { IsTrue (is_day_number day) }
{
    day.number() as u32
}
