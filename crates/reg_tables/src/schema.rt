//! Whether the tables of a database are those of a register.

ghost use Rattle.std.specs.Prelude.{◌≡◌, [], ◌∷◌, ◌↔◌, map, codes, IsTrue};
ghost use Rattle.reg_tables.specs.Tables.{meta, no_schema, schema_of};
ghost use Rattle.reg_tables.specs.Private.Schemas.{HasKey, column_of, index_of, reference_at, references_of, schema_with};
ghost use Rattle.reg_tables.specs.Private.Schemas.{table_of};

pub(crate) mod expected;
pub(crate) mod format;

use crate::schema::expected::{
    ExpectedColumn, ExpectedIndex, ExpectedKey, ExpectedTable, FIRST, INDEXES, META, SECOND,
};
use crate::schema::format::Format;
use sqlite_schema::code::Terms;
use sqlite_schema::schema::{Action, Column, Index, Kind, Reference, Schema, Stamps, Table};
use sqlite_value::keys::{Collation, Order};
use sqlite_value::value::Value;

/// Whether these are the tables and indexes of a register of this format, and no others.
pub(crate) fn is_register(schema: &Schema, format: Format) -> bool
    ensures { IsTrue result ↔ (schema.now ≡ schema_of format) }
{
    match format {
        Format::First => is_schema(schema, &FIRST),
        Format::Second => is_schema(schema, &SECOND),
    }
}

/// Whether a table is meta.
pub(crate) fn is_meta(table: &Table) -> bool
    ensures { IsTrue result ↔ (table.now ≡ meta) }
{
    is_table(table, &META)
}

/// Whether there is no table, no index and no view.
pub(crate) fn is_vacant(schema: &Schema) -> bool
    ensures blank { IsTrue result → schema.now ≡ no_schema }
    ensures not_blank { schema.now ≡ no_schema → IsTrue result }
{
    schema.tables.is_empty() && schema.indexes.is_empty() && schema.views.is_empty()
}

fn is_schema(schema: &Schema, expected: &[ExpectedTable]) -> bool
    ensures { IsTrue result ↔ (schema.now ≡ schema_with expected.now) }
{
    are_tables(schema.tables.as_slice(), expected)
        && are_indexes(schema.indexes.as_slice(), &INDEXES)
        && schema.views.is_empty()
}

fn are_tables(tables: &[Table], expected: &[ExpectedTable]) -> bool
    ensures { IsTrue result ↔ (tables.now ≡ map table_of expected.now) }
{
    tables.len() == expected.len() && tables.iter().zip(expected).all(|(t, e)| is_table(t, e))
}

fn is_table(table: &Table, expected: &ExpectedTable) -> bool
    ensures { IsTrue result ↔ (table.now ≡ table_of expected.now) }
{
    table.name.as_slice() == expected.name
        && table.tree == expected.tree
        && are_columns(table.columns.as_slice(), expected.columns)
        && has_key(table, &expected.key)
        && has_no_terms(&table.checks)
        && are_references(table.references.as_slice(), expected.deposit)
        && table.computed.is_empty()
        && is_unstamped(&table.stamps)
        && !table.is_counted
}

fn are_columns(columns: &[Column], expected: &[ExpectedColumn]) -> bool
    ensures { IsTrue result ↔ (columns.now ≡ map column_of expected.now) }
{
    columns.len() == expected.len() && columns.iter().zip(expected).all(|(c, e)| is_column(c, e))
}

/// A column of a STRICT table without a default.
fn is_column(column: &Column, expected: &ExpectedColumn) -> bool
    ensures { IsTrue result ↔ (column.now ≡ column_of expected.now) }
{
    let (name, kind, is_filled) = match expected {
        ExpectedColumn::Filled(name, kind) => (*name, *kind, true),
        ExpectedColumn::RowNumber(name) => (*name, Kind::Integer, false),
    };
    column.name.as_slice() == name
        && column.kind == kind
        && column.is_strict
        && column.not_null == is_filled
        && is_null(&column.default)
        && column.collation == Collation::Binary
}

fn is_null(value: &Value) -> bool
    ensures { IsTrue result ↔ (value.now ≡ Value.Null) }
{
    matches!(value, Value::Null)
}

fn has_key(table: &Table, key: &ExpectedKey) -> bool
    ensures { IsTrue result ↔ HasKey table.now key.now }
{
    match key {
        ExpectedKey::Columns(places, order) => {
            table.key.is_none()
                && table.primary.as_slice() == *places
                && has_unique(table, places)
                && has_order(table, *order)
        }
        ExpectedKey::RowNumber => {
            table.key == Some(0)
                && is_one(table.primary.as_slice(), 0)
                && table.uniques.is_empty()
                && table.orders.is_empty()
        }
    }
}

fn has_unique(table: &Table, places: &[usize]) -> bool
    ensures { IsTrue result ↔ (table.now.uniques ≡ places.now ∷ []) }
{
    match table.uniques.as_slice() {
        [unique] => unique.as_slice() == places,
        _ => false,
    }
}

fn has_order(table: &Table, order: Order) -> bool
    ensures { IsTrue result ↔ (table.now.orders ≡ order ∷ []) }
{
    match table.orders.as_slice() {
        [only] => *only == order,
        _ => false,
    }
}

fn is_one(places: &[usize], place: usize) -> bool
    ensures { IsTrue result ↔ (places.now ≡ place ∷ []) }
{
    match places {
        [only] => *only == place,
        _ => false,
    }
}

fn are_references(references: &[Reference], deposit: Option<usize>) -> bool
    ensures { IsTrue result ↔ (references.now ≡ references_of deposit) }
{
    match (references, deposit) {
        ([], None) => true,
        ([reference], Some(place)) => is_reference(reference, place),
        _ => false,
    }
}

/// A foreign key to the number of a deposit.
fn is_reference(reference: &Reference, place: usize) -> bool
    ensures { IsTrue result ↔ (reference.now ≡ reference_at place) }
{
    is_one(reference.columns.as_slice(), place)
        && reference.parent.as_slice() == b"deposits".as_slice()
        && is_to_number(reference)
        && reference.on_delete == Action::NoAction
        && reference.on_update == Action::NoAction
        && !reference.is_deferred
}

fn is_to_number(reference: &Reference) -> bool
    ensures { IsTrue result ↔ (reference.now.parent_columns ≡ codes "number" ∷ []) }
{
    match reference.parent_columns.as_slice() {
        [column] => column.as_slice() == b"number".as_slice(),
        _ => false,
    }
}

fn has_no_terms(terms: &Terms) -> bool
    ensures { IsTrue result ↔ (terms.now ≡ []) }
{
    terms.roots.is_empty()
}

fn is_unstamped(stamps: &Stamps) -> bool
    ensures { IsTrue result ↔ (stamps.now ≡ meta.stamps) }
{
    stamps.places.is_empty() && has_no_terms(&stamps.terms) && stamps.formats.is_empty()
}

fn are_indexes(indexes: &[Index], expected: &[ExpectedIndex]) -> bool
    ensures { IsTrue result ↔ (indexes.now ≡ map index_of expected.now) }
{
    indexes.len() == expected.len() && indexes.iter().zip(expected).all(|(i, e)| is_index(i, e))
}

fn is_index(index: &Index, expected: &ExpectedIndex) -> bool
    ensures { IsTrue result ↔ (index.now ≡ index_of expected.now) }
{
    index.name.as_slice() == expected.name
        && index.tree == expected.tree
        && index.table == expected.table
        && index.columns.as_slice() == expected.columns
        && index.order == expected.order
        && index.is_unique
}
