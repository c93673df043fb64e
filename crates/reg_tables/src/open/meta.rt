//! The rows of the table `meta`: the format's number and the dictionary.

ghost use Rattle.std.specs.Prelude.{◌≡◌, ◌≢◌, ◌≤◌, ◌⊎◌, ℕ, ℤ, pos, List, None, Err, length, map, Contains, IsTrue};
ghost use Rattle.std.specs.Prelude.{IfOk, IfErr, IfSome, false};
ghost use Rattle.sqlite.specs.Order.{Row as Values};
ghost use Rattle.reg_tables.specs.Register.{meta_columns};
ghost use Rattle.ags_dict.specs.Reading.{IsDictionary};
ghost use Rattle.reg_tables.specs.Formats.{IsFormatRow};
ghost use Rattle.reg_tables.specs.Adoption.{AreNoKeptDictionary, ReadsMeta};
ghost use Rattle.reg_tables.specs.Tables.{format_number};
ghost use Rattle.sqlite.specs.State.{HasCleanDisk};
ghost use Rattle.sqlite.specs.Held.{state};
ghost use Rattle.reg_tables.specs.Quiet.{IsIdle, IsStill, FindsThat};
ghost use Rattle.reg_tables.specs.Private.Found.{AreMetaByName, FindsAll};
ghost use Rattle.reg_tables.specs.Private.Errors.{database_fails};
ghost use Rattle.reg_tables.specs.Rows.{columns_3};

use crate::error::{AdoptError, TableError};
use crate::open::values::{holds, is_row};
use crate::read::queries::query;
use crate::schema::format::Format;
use ags_dict::{DictError, Dictionary};
use ags_rows::READABLE;
use sqlite::types::ValueRef;
use sqlite::{Alter, Connection, Row};
use std::alloc::Global;

/// The dictionary in the rows of meta, ordered by name. Another number than that of the format is refused before
/// anything else.
pub(crate) fn meta_dictionary(
    alloc: Global,
    rows: &[Row],
    format: Format,
) -> Result<Dictionary, AdoptError>
    ensures { ReadsMeta (format_number format) rows.now result }
{
    let expected = format.number();
    match other_format(rows, expected) {
        Some(number) => return Err(AdoptError::Version(number)),
        None => {}
    }
    match meta_text(rows, expected) {
        Some(text) => kept_dictionary(alloc, text),
        None => Err(AdoptError::NotRegister),
    }
}

/// The dictionary that the bytes are.
fn kept_dictionary(alloc: Global, text: &[u8]) -> Result<Dictionary, AdoptError>
    ensures read { IfOk result (λ dictionary. (length text.now ≤ READABLE) × IsDictionary text.now dictionary) }
    ensures refused { result ≡ Err AdoptError.NotRegister → AreNoKeptDictionary text.now }
    ensures named { IfErr result (λ e. (e ≡ AdoptError.NotRegister) ⊎ (e ≡ AdoptError.NoMemory)) }
{
    if text.len() > READABLE {
        return Err(AdoptError::NotRegister);
    }
    match Dictionary::read(alloc, text) {
        Ok(dictionary) => Ok(dictionary),
        Err(DictError::NotDictionary(_found)) => Err(AdoptError::NotRegister),
        Err(DictError::NoDict) => Err(AdoptError::NotRegister),
        Err(DictError::MissingHeading) => Err(AdoptError::NotRegister),
        Err(DictError::NoMemory) => Err(AdoptError::NoMemory),
    }
}

/// The dictionary's bytes in the rows of meta, ordered by name, if they are those of the format of this number.
pub(crate) fn meta_text<'a>(rows: &'a [Row], number: u32) -> Option<&'a [u8]>
    ensures found { IfSome result (λ text. rows.now ≡ meta_columns number text.now) }
    ensures none { result ≡ None → (text : List ℕ) → rows.now ≡ meta_columns number text → ⊥ }
{
    if rows.len() != 2 {
        return None;
    }
    let Ok(ValueRef::Blob(text)) = rows[0].get_ref(2) else {
        return None;
    };
    let dictionary = [
        ValueRef::Text(b"dictionary"),
        ValueRef::Int(0),
        ValueRef::Blob(text),
    ];
    let format = [
        ValueRef::Text(b"format"),
        ValueRef::Int(number as i64),
        ValueRef::Blob(b""),
    ];
    if is_row(&rows[0], &dictionary) && is_row(&rows[1], &format) {
        Some(text)
    } else {
        None
    }
}

/// A number of the format that is another than this.
pub(crate) fn other_format(rows: &[Row], format: u32) -> Option<i64>
    ensures found { IfSome result (λ n. (n ≢ pos format) × ((r : Values) × Contains rows.now r × IsFormatRow n r)) }
    ensures none { result ≡ None → (n : ℤ) (r : Values) → Contains rows.now r → IsFormatRow n r → n ≡ pos format }
{
    for row in rows {
        match other_in(row, format) {
            Some(number) => return Some(number),
            None => {}
        }
    }
    None
}

/// The number in a row of meta that is named `format`, if it is another than this.
fn other_in(row: &Row, format: u32) -> Option<i64>
    ensures found { IfSome result (λ n. (n ≢ pos format) × IsFormatRow n row.now) }
    ensures none { result ≡ None → (n : ℤ) → IsFormatRow n row.now → n ≡ pos format }
{
    match format_in(row) {
        Some(number) => {
            if number == format as i64 {
                None
            } else {
                Some(number)
            }
        }
        None => None,
    }
}

/// The number in a row of meta that is named `format`.
fn format_in(row: &Row) -> Option<i64>
    ensures found { IfSome result (λ n. IsFormatRow n row.now) }
    ensures none { result ≡ None → (n : ℤ) → IsFormatRow n row.now → ⊥ }
{
    if row.column_count() != 3 || !holds(row, 0, ValueRef::Text(b"format")) {
        return None;
    }
    match row.get_ref(1) {
        Ok(ValueRef::Int(number)) => Some(number),
        _ => None,
    }
}

/// How many bytes are in the bodies of these rows.
pub(crate) fn body_bytes(rows: &[Row]) -> usize {
    let mut bytes: usize = 0;
    for row in rows {
        if let Ok(ValueRef::Blob(body)) = row.get_ref(2) {
            bytes = bytes.saturating_add(body.len());
        }
    }
    bytes
}

/// The rows of meta, ordered by name.
pub(crate) fn read_meta<S: Alter>(conn: &mut Connection<S>) -> Result<Vec<Row>, TableError>
    requires idle { IsIdle (state S.Store conn.old) }
    ensures all { FindsAll result (λ db. map columns_3 (db.trees 0)) (state S.Store conn.old) (state S.Store conn.new) }
    ensures found { FindsThat result (λ db rows. AreMetaByName db rows.items)
        (state S.Store conn.old) (state S.Store conn.new) }
    ensures open { HasCleanDisk (state S.Store conn.new) → database_fails result ≡ false
        → IsTrue (state S.Store conn.new).is_open }
    ensures quiet { IsStill (state S.Store conn.old) (state S.Store conn.new) (database_fails result) }
{
    query(conn, "SELECT name, num, body FROM meta ORDER BY name", &[])
}
