//! The rows of a file, added to the table `lines`.

ghost use Rattle.std.specs.Prelude.{◌≡◌, ◌+◌, ◌<◌, ◌≤◌, ◌^◌, [], ◌∷◌, length, IfOk, IsTrue, OnOk};
ghost use Rattle.sqlite.specs.Effect.{IsDatabase};
ghost use Rattle.std.specs.List.{flat_map};
ghost use Rattle.sqlite.specs.State.{HasCleanDisk, Survives};
ghost use Rattle.reg_tables.specs.Tables.{register_schema};
ghost use Rattle.sqlite.specs.Values.{bound};
ghost use Rattle.reg_store.specs.Fit.{kept_rows as rows_in};
ghost use Rattle.reg_tables.specs.Rows.{joined, line_row, line_rows};
ghost use Rattle.reg_tables.specs.Private.Inserts.{AddsLines};
ghost use Rattle.reg_tables.specs.Private.Inside.{ChangesInside, CommitsNothing, HasSchema, HasTransaction, state_in};

use crate::write::statement::run;
use ags_check::Checked;
use ags_rows::LIMIT;
use reg_store::{KeptRow, kept_rows};
use sqlite::types::ValueRef;
use sqlite::{Alter, Error, ErrorCode, Transaction, params};
use std::alloc::{AllocError, Global};

/// Adds the rows of a file, in their order. Nothing is committed.
#[tactic(auto, using(crate::proofs::AddsLemmas::kept_then))]
pub(crate) fn insert_lines<S: Alter>(
    tx: &mut Transaction<'_, S>,
    number: u32,
    rows: &[KeptRow],
) -> Result<(), Error>
    requires few { length rows.now < 2 ^ 32 }
    requires inside { HasTransaction (state_in S.Store tx.old) }
    requires is_open { HasCleanDisk (state_in S.Store tx.old) → IsTrue (state_in S.Store tx.old).is_open }
    requires sound { HasCleanDisk (state_in S.Store tx.old) → IsDatabase (state_in S.Store tx.old).now }
    requires schema { HasSchema (state_in S.Store tx.old) register_schema }
    ensures same_reference { tx.new.conn.ghost_name ≡ tx.old.conn.ghost_name }
    ensures put { ChangesInside result (AddsLines (line_rows number 0 rows.now))
        (state_in S.Store tx.old) (state_in S.Store tx.new) }
    ensures kept { CommitsNothing (state_in S.Store tx.old) (state_in S.Store tx.new) }
    ensures survives { Survives (state_in S.Store tx.old) (state_in S.Store tx.new) (λ _. ⊥) }
{
    for part in 0..rows.len() / TOGETHER {
        let at = part * TOGETHER;
        insert_eight_lines(tx, number, at as u32, &rows[at..at + TOGETHER])?;
    }
    let at = rows.len() / TOGETHER * TOGETHER;
    insert_each_line(tx, number, at as u32, &rows[at..])
}

/// How many rows one statement adds, while there are so many.
pub(crate) const TOGETHER: usize = 8;

/// Adds eight rows of a file, of which the first is at this place. Nothing is committed.
#[tactic(auto, using(crate::proofs::AddsLemmas::kept_same))]
fn insert_eight_lines<S: Alter>(
    tx: &mut Transaction<'_, S>,
    number: u32,
    from: u32,
    rows: &[KeptRow],
) -> Result<(), Error>
    requires eight { length rows.now ≡ 8 }
    requires few { from + 8 ≤ 2 ^ 32 }
    requires inside { HasTransaction (state_in S.Store tx.old) }
    requires schema { HasSchema (state_in S.Store tx.old) register_schema }
    ensures same_reference { tx.new.conn.ghost_name ≡ tx.old.conn.ghost_name }
    ensures put { ChangesInside result (AddsLines (line_rows number from rows.now))
        (state_in S.Store tx.old) (state_in S.Store tx.new) }
    ensures kept { CommitsNothing (state_in S.Store tx.old) (state_in S.Store tx.new) }
    ensures survives { Survives (state_in S.Store tx.old) (state_in S.Store tx.new) (λ _. ⊥) }
{
    let mut values = [[ValueRef::Null; 5]; TOGETHER];
    put_lines(&mut values, number, from, rows)?;
    run(
        tx,
        "INSERT INTO lines VALUES (?1, ?2, ?3, ?4, ?5), (?6, ?7, ?8, ?9, ?10), (?11, ?12, ?13, ?14, ?15), (?16, ?17, ?18, ?19, ?20), (?21, ?22, ?23, ?24, ?25), (?26, ?27, ?28, ?29, ?30), (?31, ?32, ?33, ?34, ?35), (?36, ?37, ?38, ?39, ?40)",
        values.as_flattened(),
    )
}

/// Puts the values of eight rows of a file there, of which the first is at this place.
fn put_lines<'r>(
    values: &mut [[ValueRef<'r>; 5]; TOGETHER],
    number: u32,
    from: u32,
    rows: &'r [KeptRow],
) -> Result<(), Error>
    requires eight { length rows.now ≡ 8 }
    requires few { from + 8 ≤ 2 ^ 32 }
    ensures put { OnOk result (bound (flat_map (λ v. v) values.new) ≡ joined (line_rows number from rows.now)) }
    ensures long { length values.new ≡ 8 }
{
    for (i, row) in rows.iter().enumerate() {
        let group = group_of(row)?;
        values[i] = *params![
            number,
            from + i as u32,
            group,
            u32::from(row.kind),
            row.line.as_slice(),
        ];
    }
    Ok(())
}

/// Adds rows of a file, of which the first is at this place, one by one. Nothing is committed.
fn insert_each_line<S: Alter>(
    tx: &mut Transaction<'_, S>,
    number: u32,
    from: u32,
    rows: &[KeptRow],
) -> Result<(), Error>
    requires few { from + length rows.now ≤ 2 ^ 32 }
    requires inside { HasTransaction (state_in S.Store tx.old) }
    requires is_open { HasCleanDisk (state_in S.Store tx.old) → IsTrue (state_in S.Store tx.old).is_open }
    requires sound { HasCleanDisk (state_in S.Store tx.old) → IsDatabase (state_in S.Store tx.old).now }
    requires schema { HasSchema (state_in S.Store tx.old) register_schema }
    ensures same_reference { tx.new.conn.ghost_name ≡ tx.old.conn.ghost_name }
    ensures put { ChangesInside result (AddsLines (line_rows number from rows.now))
        (state_in S.Store tx.old) (state_in S.Store tx.new) }
    ensures kept { CommitsNothing (state_in S.Store tx.old) (state_in S.Store tx.new) }
    ensures survives { Survives (state_in S.Store tx.old) (state_in S.Store tx.new) (λ _. ⊥) }
{
    for (i, row) in rows.iter().enumerate() {
        insert_line(tx, number, from + i as u32, row)?;
    }
    Ok(())
}

/// Adds one row of a file. Nothing is committed.
#[tactic(auto, using(crate::proofs::AddsLemmas::kept_same))]
fn insert_line<S: Alter>(
    tx: &mut Transaction<'_, S>,
    number: u32,
    at: u32,
    row: &KeptRow,
) -> Result<(), Error>
    requires inside { HasTransaction (state_in S.Store tx.old) }
    requires schema { HasSchema (state_in S.Store tx.old) register_schema }
    ensures same_reference { tx.new.conn.ghost_name ≡ tx.old.conn.ghost_name }
    ensures put { ChangesInside result (AddsLines (line_row number at row.now ∷ []))
        (state_in S.Store tx.old) (state_in S.Store tx.new) }
    ensures kept { CommitsNothing (state_in S.Store tx.old) (state_in S.Store tx.new) }
    ensures survives { Survives (state_in S.Store tx.old) (state_in S.Store tx.new) (λ _. ⊥) }
{
    let group = group_of(row)?;
    run(
        tx,
        "INSERT INTO lines VALUES (?1, ?2, ?3, ?4, ?5)",
        params![number, at, group, u32::from(row.kind), row.line.as_slice()],
    )
}

/// The name of a row's group, as a text.
fn group_of(row: &KeptRow) -> Result<&str, Error>
    ensures { IfOk result (λ group. group.now ≡ row.now.group) }
{
    match std::str::from_utf8(row.group.as_slice()) {
        Ok(group) => Ok(group),
        Err(_) => Err(Error::SqliteFailure(ErrorCode::TypeMismatch)),
    }
}

/// The rows of a file, which are as few as a table of lines can number: no more than its bytes.
pub(crate) fn few_rows(alloc: Global, file: &Checked<'_>) -> Result<Vec<KeptRow>, AllocError>
    requires { length file.now.bytes ≤ LIMIT }
    ensures rows { IfOk result (λ rows. rows.items ≡ rows_in file.now.groups) }
    ensures few { IfOk result (λ rows. length rows.items < 4294967296) }
{
    let _bytes = file.bytes();
    kept_rows(alloc, file.scan().groups())
}
