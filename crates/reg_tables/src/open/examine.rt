//! Whether the tables are a register, whatever the marks are: meta, the numbers, then deposit by deposit.

ghost use Rattle.std.specs.Prelude.{◌≡◌, ◌≤◌, ◌+◌, [], ℕ, List, length, map, false, Some, Err, IsTrue, IfOk};
ghost use Rattle.std.specs.Prelude.{IfErr, IfSome, None};
ghost use Rattle.sqlite.specs.State.{HasCleanDisk};
ghost use Rattle.sqlite.specs.Held.{state};
ghost use Rattle.reg_tables.specs.Private.Errors.{database_fails};
ghost use Rattle.reg_tables.specs.Quiet.{IsIdle, IsStill, FindsThat};
ghost use Rattle.reg_tables.specs.Private.Found.{AreNumbersFromOne, FindsAll};
ghost use Rattle.reg_tables.specs.Rows.{deposit_table, first_column};
ghost use Rattle.reg_tables.specs.Tables.{format_number, schema_of};
ghost use Rattle.reg_tables.specs.Private.Heads.{HoldsKnown};
ghost use Rattle.reg_tables.specs.Private.Digests.{AreBelow, HoldsDigests, numbers_under};
ghost use Rattle.reg_tables.specs.Private.NumberRows.{number_rows};
ghost use Rattle.reg_tables.specs.Whole.{Counts};
ghost use Rattle.reg_tables.specs.Adoption.{CountsDeposits, Examines, InEachFormat, MetaOf, gives_up};
ghost use Rattle.sqlite.specs.Effect.{IsDatabase};

use crate::error::{AdoptError, TableError};
use crate::memory::digests::Digests;
use crate::memory::{Found, Known};
use crate::open::deposits::examine_deposits;
use crate::open::meta::{body_bytes, meta_dictionary, read_meta};
use crate::open::values::is_row;
use crate::read::queries::query;
use crate::schema::format::Format;
use ags_dict::Dictionary;
use reg_store::{MOST, Progress};
use sqlite::types::ToSql;
use sqlite::{Alter, Connection, Row};
use std::alloc::Global;

/// The dictionary of the register and how many deposits it has, if the tables are one of the format, whatever the marks
/// are. What is known of its deposits is put there, which was empty.
pub(crate) fn examine<S: Alter, P: Progress>(
    conn: &mut Connection<S>,
    alloc: Global,
    format: Format,
    found: &mut Found,
    progress: &mut P,
) -> Result<(Dictionary, u32), AdoptError>
    requires idle { IsIdle (state S.Store conn.old) }
    requires schema { HasCleanDisk (state S.Store conn.old) → (state S.Store conn.old).now.schema ≡ schema_of format }
    requires none { found.old.known.items ≡ [] }
    requires no_digests { (digest : List ℕ) → numbers_under found.old.digests digest ≡ [] }

    // What is answered, by what the tables are.
    ensures examines { HasCleanDisk (state S.Store conn.new) → Examines format (state S.Store conn.old).now result }

    // The count at success, and what is known of the deposits.
    ensures few { IfOk result (λ read. read.1 ≤ 999999) }
    ensures long { IfOk result (λ read. length found.new.known.items ≡ read.1) }
    ensures known { FindsThat result (λ db read. HoldsKnown db read.0 found.new.known.items)
        (state S.Store conn.old) (state S.Store conn.new) }
    ensures below { IfOk result (λ read. AreBelow found.new.digests (read.1 + 1)) }
    ensures digests { FindsThat result (λ db read. HoldsDigests db (read.1 + 1) found.new.digests)
        (state S.Store conn.old) (state S.Store conn.new) }

    // What is left in either case.
    ensures open { HasCleanDisk (state S.Store conn.new) → gives_up result ≡ false
        → IsTrue (state S.Store conn.new).is_open }
    ensures quiet { IsStill (state S.Store conn.old) (state S.Store conn.new) (gives_up result) }
{
    let dictionary = read_dictionary(conn, alloc, format, &mut found.dictionary_bytes)?;
    let _schema = conn.schema();
    let count = read_register(
        conn,
        alloc,
        &dictionary,
        &mut found.known,
        &mut found.digests,
        progress,
    )?;
    Ok((dictionary, count))
}

/// The dictionary of the register, if meta is that of the format, and how many bytes are in the rows of meta.
fn read_dictionary<S: Alter>(
    conn: &mut Connection<S>,
    alloc: Global,
    format: Format,
    meta_bytes: &mut usize,
) -> Result<Dictionary, AdoptError>
    requires idle { IsIdle (state S.Store conn.old) }
    ensures read { HasCleanDisk (state S.Store conn.new) → MetaOf (format_number format) (state S.Store conn.old).now result }
    ensures open { HasCleanDisk (state S.Store conn.new) → gives_up result ≡ false
        → IsTrue (state S.Store conn.new).is_open }
    ensures quiet { IsStill (state S.Store conn.old) (state S.Store conn.new) (gives_up result) }
{
    let rows = read_meta(conn)?;
    *meta_bytes = body_bytes(&rows);
    meta_dictionary(alloc, &rows, format)
}

/// How many deposits the register has, if the tables are one, whatever the marks are. Its tables are those of a format,
/// and the dictionary is that of its meta; what is known of the deposits and their digests are put into the lists.
fn read_register<S: Alter, P: Progress>(
    conn: &mut Connection<S>,
    alloc: Global,
    dictionary: &Dictionary,
    known: &mut Vec<Known>,
    digests: &mut Digests,
    progress: &mut P,
) -> Result<u32, AdoptError>
    requires idle { IsIdle (state S.Store conn.old) }
    requires sound { HasCleanDisk (state S.Store conn.old) → IsDatabase (state S.Store conn.old).now }
    requires none { known.old.items ≡ [] }
    requires no_digests { (digest : List ℕ) → numbers_under digests.old digest ≡ [] }

    // The count at success.
    ensures found { FindsThat result (λ db n. InEachFormat db dictionary.now (λ format.
        CountsDeposits format db dictionary.now (Some n)))
        (state S.Store conn.old) (state S.Store conn.new) }
    ensures few { IfOk result (λ count. count ≤ 999999) }

    // What is known and the digests in the lists at success.
    ensures long { IfOk result (λ count. length known.new.items ≡ count) }
    ensures known { FindsThat result (λ db _. HoldsKnown db dictionary.now known.new.items)
        (state S.Store conn.old) (state S.Store conn.new) }
    ensures below { IfOk result (λ count. AreBelow digests.new (count + 1)) }
    ensures digests { FindsThat result (λ db count. HoldsDigests db (count + 1) digests.new)
        (state S.Store conn.old) (state S.Store conn.new) }

    // Each refusal, by what the tables are.
    ensures refused { HasCleanDisk (state S.Store conn.new)
        → IfErr result (λ e. InEachFormat (state S.Store conn.old).now dictionary.now (λ format.
        Examines format (state S.Store conn.old).now (Err e))) }

    // What is left in either case.
    ensures quiet { IsStill (state S.Store conn.old) (state S.Store conn.new) (gives_up result) }
{
    let Some(count) = read_count(conn)? else {
        return Err(AdoptError::NotRegister);
    };
    if examine_deposits(conn, alloc, dictionary, count, known, digests, progress)? {
        Ok(count)
    } else {
        Err(AdoptError::NotRegister)
    }
}

/// How many deposits there are, if their numbers are those from 1 on.
fn read_count<S: Alter>(conn: &mut Connection<S>) -> Result<Option<u32>, TableError>
    requires idle { IsIdle (state S.Store conn.old) }
    ensures counted { FindsThat result Counts (state S.Store conn.old) (state S.Store conn.new) }
    ensures few { IfOk result (λ found. IfSome found (λ count. count ≤ 999999)) }
    ensures quiet { IsStill (state S.Store conn.old) (state S.Store conn.new) (database_fails result) }
{
    let rows = read_numbers(conn)?;
    Ok(count_numbers(&rows))
}

fn read_numbers<S: Alter>(conn: &mut Connection<S>) -> Result<Vec<Row>, TableError>
    requires idle { IsIdle (state S.Store conn.old) }
    ensures all { FindsAll result (λ db. map first_column (deposit_table db.trees))
        (state S.Store conn.old) (state S.Store conn.new) }
    ensures found { FindsThat result (λ db rows. AreNumbersFromOne db rows.items)
        (state S.Store conn.old) (state S.Store conn.new) }
    ensures quiet { IsStill (state S.Store conn.old) (state S.Store conn.new) (database_fails result) }
{
    query(conn, "SELECT number FROM deposits ORDER BY number", &[])
}

/// How many numbers there are, if they are those from 1 on, and at most 999,999.
fn count_numbers(rows: &[Row]) -> Option<u32>
    ensures found { IfSome result (λ count. rows.now ≡ number_rows 1 count) }
    ensures few { IfSome result (λ count. count ≤ 999999) }
    ensures none { result ≡ None → (count : ℕ) → count ≤ 999999 → rows.now ≡ number_rows 1 count → ⊥ }
{
    if rows.len() > MOST as usize {
        return None;
    }
    for (at, row) in rows.iter().enumerate() {
        if !is_row(row, &[(at as u32 + 1).to_sql()]) {
            return None;
        }
    }
    Some(rows.len() as u32)
}
