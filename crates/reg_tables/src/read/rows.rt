//! What the rows of an answer are.

ghost use Rattle.std.specs.Prelude.{◌≡◌, ◌<◌, ◌^◌, ◌∷◌, [], ℕ, ℤ, pos, List, Err, length, map, IsTrue};
ghost use Rattle.std.specs.Prelude.{All, IfOk};
ghost use Rattle.sqlite.specs.Order.{Row as Values, column};
ghost use Rattle.sqlite.specs.declared.types.Value.TheVariants.{Int, Text as Words, Blob};
ghost use Rattle.reg_policy.specs.Names.{is_name};
ghost use Rattle.reg_policy.specs.Days.{is_day_number};
ghost use Rattle.reg_store.specs.Reading.{HasKind};
ghost use Rattle.reg_store.specs.Sent.{Sent};
ghost use Rattle.reg_store.specs.Keep.{sent_of};
ghost use Rattle.reg_tables.specs.Rows.{given_deposit, placed_row, placed_rows, step_pair};
ghost use Rattle.reg_store.specs.Fit.{IsNamed};

use crate::error::TableError;
use crate::read::gather::Gather;
use ags_text::{Bytes, Sequence};
use reg_policy::{Day, Name, NameError};
use reg_store::{Kept, KeptRow};
use sqlite::Row;
use std::alloc::Global;

/// The deposit of a number, which is the one row of the answer. The mark is not in the row.
pub(crate) fn deposit_in(alloc: Global, number: u32, rows: &[Row]) -> Result<Kept, TableError>
    ensures read { IfOk result (λ kept. rows.now ≡ given_deposit number (sent_of kept) ∷ []) }
    ensures is_named { IfOk result (λ kept. IsNamed (sent_of kept)) }
    ensures other { result ≡ Err TableError.Store → (d : Sent) → IsNamed d
        → rows.now ≡ given_deposit number d ∷ [] → ⊥ }
{
    let row = only_row(rows, 5)?;
    if number_column(row, 0)? != number {
        return Err(TableError::Store);
    }
    Ok(Kept {
        firm: name_column(alloc, row, 1)?,
        project: name_column(alloc, row, 2)?,
        embargo: day_column(row, 3)?,
        bytes: bytes_column(row, 4)?,
        withdrawn: false,
    })
}

/// The one row of an answer.
fn only_row<'a>(rows: &'a [Row], width: usize) -> Result<&'a Row, TableError>
    ensures only { IfOk result (λ row. rows.now ≡ row.now ∷ []) }
    ensures wide { IfOk result (λ row. length row.now ≡ width) }
    ensures other { result ≡ Err TableError.Store → (row : Values) → rows.now ≡ row ∷ [] → length row ≡ width → ⊥ }
{
    if rows.len() != 1 {
        return Err(TableError::Store);
    }
    let row = &rows[0];
    if row.column_count() != width {
        return Err(TableError::Store);
    }
    Ok(row)
}

/// The rows of a file, from place 0 on.
#[derive(Drop)]
pub(crate) struct KeptLines {
    pub lines: Vec<KeptRow>,
    ghost kinds: { All HasKind lines.items },
}

impl Gather for KeptLines {
    ghost holds = { λ _ it rows. rows ≡ placed_rows 0 it.lines.items };

    fn take(&mut self, row: &Row) -> Result<(), TableError> {
        let line = line_in(self.lines.len(), row)?;
        self.lines.push(line)?;
        Ok(())
    }
}

fn line_in(at: usize, row: &Row) -> Result<KeptRow, TableError>
    ensures read { IfOk result (λ line. row.now ≡ placed_row at line) }
    ensures kind { IfOk result HasKind }
{
    if row.column_count() != 4 {
        return Err(TableError::Store);
    }
    if number_column(row, 0)? as usize != at {
        return Err(TableError::Store);
    }
    let kind = number_column(row, 2)?;
    if kind > 4 {
        return Err(TableError::Store);
    }
    Ok(KeptRow {
        group: text_column(row, 1)?,
        kind: kind as u8,
        line: bytes_column(row, 3)?,
    })
}

/// The steps of a file.
#[derive(Drop)]
pub(crate) struct KeptSteps {
    pub steps: Vec<(u32, u32)>,
}

impl Gather for KeptSteps {
    ghost holds = { λ _ it rows. rows ≡ map step_pair it.steps.items };

    fn take(&mut self, row: &Row) -> Result<(), TableError> {
        let step = step_in(row)?;
        self.steps.push(step)?;
        Ok(())
    }
}

fn step_in(row: &Row) -> Result<(u32, u32), TableError>
    ensures read { IfOk result (λ step. row.now ≡ step_pair step) }
{
    if row.column_count() != 2 {
        return Err(TableError::Store);
    }
    Ok((number_column(row, 0)?, number_column(row, 1)?))
}

fn number_column(row: &Row, at: usize) -> Result<u32, TableError>
    ensures read { IfOk result (λ n. column row.now at ≡ Int (pos n)) }
    ensures other { result ≡ Err TableError.Store → at < length row.now → (n : ℕ) → n < 2 ^ 32
        → column row.now at ≡ Int (pos n) → ⊥ }
{
    Ok(row.get(at)?)
}

fn bytes_column(row: &Row, at: usize) -> Result<Bytes, TableError>
    requires { at < length row.now }
    ensures read { IfOk result (λ bytes. column row.now at ≡ Blob bytes) }
    ensures other { result ≡ Err TableError.Store → (bytes : List ℕ) → column row.now at ≡ Blob bytes → ⊥ }
{
    let read: Vec<u8> = row.get(at)?;
    Ok(Sequence::from_vec(read))
}

fn text_column(row: &Row, at: usize) -> Result<Bytes, TableError>
    ensures read { IfOk result (λ text. column row.now at ≡ Words text) }
{
    let read: String = row.get(at)?;
    Ok(Sequence::from_vec(read.into_bytes()))
}

fn name_column(alloc: Global, row: &Row, at: usize) -> Result<Name, TableError>
    requires { at < length row.now }
    ensures read { IfOk result (λ name. column row.now at ≡ Words name) }
    ensures is_name { IfOk result (λ name. IsTrue (is_name name)) }
    ensures other { result ≡ Err TableError.Store → (name : List ℕ) → IsTrue (is_name name)
        → column row.now at ≡ Words name → ⊥ }
{
    let text: String = row.get(at)?;
    match Name::read(alloc, text.as_str()) {
        Ok(name) => Ok(name),
        Err(NameError::BadName) => Err(TableError::Store),
        Err(NameError::NoMemory) => Err(TableError::NoMemory),
    }
}

fn day_column(row: &Row, at: usize) -> Result<Day, TableError>
    requires { at < length row.now }
    ensures read { IfOk result (λ day. column row.now at ≡ Int day) }
    ensures is_day { IfOk result (λ day. IsTrue (is_day_number day)) }
    ensures other { result ≡ Err TableError.Store → (n : ℤ) → IsTrue (is_day_number n)
        → column row.now at ≡ Int n → ⊥ }
{
    let number: i32 = row.get(at)?;
    match Day::new(number) {
        Some(day) => Ok(day),
        None => Err(TableError::Store),
    }
}
