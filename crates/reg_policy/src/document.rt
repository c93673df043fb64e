//! A TOML document whose only key is that of an array of tables: what policies and callers share.
ghost use Rattle.std.specs.Prelude.{◌≡◌, List, ℕ, Some, map};
ghost use Rattle.std.specs.Str.{bytes_eq};
ghost use Rattle.toml.specs.Data.{Members, get_member};
ghost use Rattle.toml.specs.View.{items_view, table_view, view};
ghost use Rattle.reg_policy.specs.Documents.{Each, InTable, TablesSay, all_keys, has_known_keys, have_known_keys, is_known_key, is_known};
ghost use Rattle.reg_policy.specs.Readers.{Gives, GivesCopy, GivesList, GivesText, Opens, ReadsList};

use crate::error::ReadError;
use ags_text::{Bytes, copy};
use std::alloc::Global;
use toml::{Table, Value};

/// What a table of the array says.
pub(crate) trait FromTable: Sized + Drop {
    ghost array_key: { List ℕ };

    ghost table_keys: { List (List ℕ) };

    ghost says: { Members → Self → Type 0 };

    /// The key of the array.
    fn array_key() -> &'static str
        ensures { result.now ≡ array_key };

    /// The keys that a table of the array may have.
    fn table_keys() -> &'static [&'static str]
        ensures { map (λ key. key.now) result.now ≡ table_keys };

    /// What the table says.
    fn of_table(alloc: Global, table: &Table) -> Result<Self, ReadError>
        ensures { Gives (says (table_view table.now)) result };
}

/// What the text lists, or the first refusal that holds of the whole document.
pub(crate) fn read_list<T: FromTable>(alloc: Global, text: &str) -> Result<Vec<T>, ReadError>
    ensures { ReadsList T.array_key T.table_keys T.says text.now result }
{
    let document = opened(alloc, text, T::array_key(), T::table_keys())?;
    list_of(alloc, &document)
}

/// The document that a text is, if it has only keys that it may have.
fn opened(
    alloc: Global,
    text: &str,
    array_key: &str,
    table_keys: &[&str],
) -> Result<Table, ReadError>
    ensures { Opens array_key.now (map (λ key. key.now) table_keys.now) text.now result }
{
    let document = match toml::table_from_str(alloc, text) {
        Ok(document) => document,
        Err(error) if error.is_memory() => return Err(ReadError::NoMemory),
        Err(_) => return Err(ReadError::Syntax),
    };
    if !is_known(&document, array_key, table_keys) {
        return Err(ReadError::UnknownKey);
    }
    Ok(document)
}

/// Whether the document has only keys that it may have.
fn is_known(document: &Table, array_key: &str, table_keys: &[&str]) -> bool
    ensures { result ≡ is_known array_key.now (map (λ key. key.now) table_keys.now) (table_view document.now) }
{
    if !has_one_key(document, array_key) {
        return false;
    }
    match document.get(array_key) {
        Some(value) => have_known_keys(value, table_keys),
        None => true,
    }
}

/// Whether the document has no key but the array's.
fn has_one_key(document: &Table, array_key: &str) -> bool
    ensures { result ≡ all_keys (λ key. bytes_eq key array_key.now) (table_view document.now) }
{
    document.keys().all(|key| key.as_str() == array_key)
}

/// Whether the tables of the array, if the value is one, have only keys that they may have.
fn have_known_keys(value: &Value, table_keys: &[&str]) -> bool
    ensures { result ≡ have_known_keys (map (λ key. key.now) table_keys.now) (Some (view value.now)) }
{
    match value.as_array() {
        Some(items) => items.iter().all(|item| has_known_keys(item, table_keys)),
        None => true,
    }
}

/// The same of one item, if it is a table.
fn has_known_keys(item: &Value, table_keys: &[&str]) -> bool
    ensures { result ≡ has_known_keys (map (λ key. key.now) table_keys.now) (view item.now) }
{
    match item.as_table() {
        Some(table) => table
            .keys()
            .all(|key| is_known_key(key.as_str(), table_keys)),
        None => true,
    }
}

/// Whether a table of the array may have the key.
fn is_known_key(key: &str, table_keys: &[&str]) -> bool
    ensures { result ≡ is_known_key (map (λ key. key.now) table_keys.now) key.now }
{
    table_keys.contains(&key)
}

/// What the array of the document lists; no array lists nothing.
fn list_of<T: FromTable>(alloc: Global, document: &Table) -> Result<Vec<T>, ReadError>
    ensures { GivesList (TablesSay T.says (get_member T.array_key (table_view document.now))) result }
{
    match document.get(T::array_key()) {
        None => Ok(Vec::new(alloc)),
        Some(value) => match value.as_array() {
            Some(items) => items_of(alloc, items),
            None => Err(ReadError::BadValue),
        },
    }
}

/// What the items say, one by one.
fn items_of<T: FromTable>(alloc: Global, items: &[Value]) -> Result<Vec<T>, ReadError>
    ensures { GivesList (Each T.says (items_view items.now)) result }
{
    let mut listed = Vec::new(alloc);
    for item in items {
        let one = item_of(alloc, item)?;
        if listed.push(one).is_err() {
            return Err(ReadError::NoMemory);
        }
    }
    Ok(listed)
}

/// What an item says, if it is a table.
fn item_of<T: FromTable>(alloc: Global, item: &Value) -> Result<T, ReadError>
    ensures { Gives (InTable T.says (view item.now)) result }
{
    match item.as_table() {
        Some(table) => T::of_table(alloc, table),
        None => Err(ReadError::BadValue),
    }
}

/// The text at a key; a value of another kind is bad.
pub(crate) fn string_at<'a>(table: &'a Table, key: &str) -> Result<Option<&'a str>, ReadError>
    ensures { GivesText (get_member key.now (table_view table.now)) result }
{
    match table.get(key) {
        None => Ok(None),
        Some(value) => match value.as_str() {
            Some(text) => Ok(Some(text)),
            None => Err(ReadError::BadValue),
        },
    }
}

/// A copy of a text.
pub(crate) fn copied(alloc: Global, text: &str) -> Result<Bytes, ReadError>
    ensures { GivesCopy text.now result }
{
    match copy(alloc, text.as_bytes()) {
        Ok(copy) => Ok(copy),
        Err(_) => Err(ReadError::NoMemory),
    }
}
