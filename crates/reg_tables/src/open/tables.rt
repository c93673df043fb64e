//! Whether the tables of a database are those of a format.

ghost use Rattle.std.specs.Prelude.{◌≡◌, ◌≢◌, ◌↔◌, false, IsTrue, map, Err, IfErr, OnOk, OnErr};
ghost use Rattle.sqlite.specs.State.{HasCleanDisk, Survives};
ghost use Rattle.sqlite.specs.Held.{state};
ghost use Rattle.reg_tables.specs.Tables.{schema_of};
ghost use Rattle.reg_tables.specs.Rows.{columns_3};
ghost use Rattle.reg_tables.specs.Formats.{StartsWithMeta};
ghost use Rattle.reg_tables.specs.Quiet.{IsIdle, IsSettled, StaysIfClean, StaysIfOpen};
ghost use Rattle.reg_tables.specs.Private.Found.{FindsAll, StaysUnless};
ghost use Rattle.reg_tables.specs.Adoption.{Adopts, is_store_failure};

use crate::error::AdoptError;
use crate::open::meta::other_format;
use crate::read::queries::refusal;
use crate::schema::format::Format;
use crate::schema::{is_meta, is_register};
use sqlite::{Alter, Connection, Error, Row};
use sqlite_schema::schema::Schema;

/// Whether the tables are those of the format, and no transaction runs; or else why they are refused.
pub(crate) fn examine_tables<S: Alter>(
    conn: &mut Connection<S>,
    format: Format,
) -> Result<(), AdoptError>
    // At success, nothing changed.
    ensures unchanged { OnOk result (conn.new ≡ conn.old) }
    ensures idle { OnOk result (IsIdle (state S.Store conn.new)) }
    ensures tables { OnOk result ((state S.Store conn.new).now.schema ≡ schema_of format) }

    // Each refusal, by what the database was, and what it leaves.
    ensures refused { HasCleanDisk (state S.Store conn.new)
        → IfErr result (λ e. Adopts format (state S.Store conn.old).now (Err e)) }
    ensures same { IfErr result (λ e. is_store_failure e ≡ false
        → StaysIfClean (state S.Store conn.old) (state S.Store conn.new)) }
    ensures still { OnErr result (StaysIfOpen (state S.Store conn.old) (state S.Store conn.new)) }
    ensures left { Survives (state S.Store conn.old) (state S.Store conn.new) (λ _. ⊥) }
{
    if !has_meta(conn.schema()) {
        return Err(AdoptError::NotRegister);
    }
    if !conn.is_autocommit() {
        return Err(AdoptError::Store);
    }
    if !is_register(conn.schema(), format) {
        return Err(refuse_tables(conn, format));
    }
    Ok(())
}

/// Whether the first table is meta.
fn has_meta(schema: &Schema) -> bool
    ensures { IsTrue result ↔ StartsWithMeta schema.now }
{
    match schema.tables.as_slice() {
        [first, ..] => is_meta(first),
        [] => false,
    }
}

/// Why a database is refused whose first table is meta, and whose tables are not those of the format.
///
/// Another number of the format comes before that it is no register.
fn refuse_tables<S: Alter>(conn: &mut Connection<S>, format: Format) -> AdoptError
    requires mode { conn.old.in_transaction ≡ false }
    requires meta { StartsWithMeta (state S.Store conn.old).now.schema }
    requires other { (state S.Store conn.old).now.schema ≢ schema_of format }
    requires settled { HasCleanDisk (state S.Store conn.old) → IsSettled (state S.Store conn.old) }
    ensures refused { HasCleanDisk (state S.Store conn.new)
        → Adopts format (state S.Store conn.old).now (Err result) }
    ensures same { StaysUnless (is_store_failure result) (state S.Store conn.old) (state S.Store conn.new) }
    ensures still { StaysIfOpen (state S.Store conn.old) (state S.Store conn.new) }
    ensures crash { Survives (state S.Store conn.old) (state S.Store conn.new) (λ _. ⊥) }
{
    match read_meta_rows(conn) {
        Ok(rows) => match other_format(&rows, format.number()) {
            Some(number) => AdoptError::Version(number),
            None => AdoptError::NotRegister,
        },
        Err(error) => AdoptError::from(refusal(conn, &error)),
    }
}

fn read_meta_rows<S: Alter>(conn: &mut Connection<S>) -> Result<Vec<Row>, Error>
    requires mode { conn.old.in_transaction ≡ false }
    requires meta { StartsWithMeta (state S.Store conn.old).now.schema }
    requires settled { HasCleanDisk (state S.Store conn.old) → IsSettled (state S.Store conn.old) }
    ensures mode { conn.new.in_transaction ≡ false }
    ensures shown { FindsAll result (λ db. map columns_3 (db.trees 0))
        (state S.Store conn.old) (state S.Store conn.new) }
    ensures open { HasCleanDisk (state S.Store conn.new) → OnOk result (IsTrue (state S.Store conn.new).is_open) }
    ensures same { StaysIfOpen (state S.Store conn.old) (state S.Store conn.new) }
    ensures crash { Survives (state S.Store conn.old) (state S.Store conn.new) (λ _. ⊥) }
{
    conn.query_all("SELECT name, num, body FROM meta ORDER BY name", &[])
}
