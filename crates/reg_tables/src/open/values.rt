//! Whether the columns of a row hold these values. This takes no memory.

ghost use Rattle.std.specs.Prelude.{◌≡◌, ◌↔◌, ◌<◌, length, map, IsTrue};
ghost use Rattle.sqlite.specs.Order.{column};
ghost use Rattle.sqlite_value.specs.Value.{owned};

use sqlite::Row;
use sqlite::types::ValueRef;
use sqlite_value::order::is_same;

/// Whether these are the values of the row.
pub(crate) fn is_row(row: &Row, values: &[ValueRef<'_>]) -> bool
    ensures { IsTrue result ↔ (row.now ≡ map owned values.now) }
{
    if row.column_count() != values.len() {
        return false;
    }
    for (at, value) in values.iter().enumerate() {
        if !holds(row, at, *value) {
            return false;
        }
    }
    true
}

/// Whether the column at this place holds the value.
pub(crate) fn holds(row: &Row, at: usize, value: ValueRef<'_>) -> bool
    ensures { IsTrue result ↔ ((at < length row.now) × (column row.now at ≡ owned value.entry)) }
{
    match row.get_ref(at) {
        Ok(found) => is_same(found, value),
        Err(_) => false,
    }
}
