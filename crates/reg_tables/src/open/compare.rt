//! The rows of an answer beside those of a file, compared as they come.

ghost use Rattle.std.specs.Prelude.{◌≡◌, ◌<◌, ◌≤◌, ◌↔◌, ◌==◌, ◌&&◌, [], length, map, get_or, IsTrue};
ghost use Rattle.reg_tables.specs.Rows.{placed_row, placed_rows, step_pair};
ghost use Rattle.reg_tables.specs.Whole.{Compares};

use crate::error::TableError;
use crate::open::values::is_row;
use crate::read::gather::Gather;
use reg_store::KeptRow;
use sqlite::Row;
use sqlite::types::{ToSql, ValueRef};

/// The lines of a file, how many of them have come, and whether the rows that came are these.
#[derive(Drop)]
pub(crate) struct SameLines<'a> {
    pub lines: &'a [KeptRow],
    pub at: usize,
    pub is: bool,
    ghost few: { length lines.now ≤ 4294967295 },
}

impl Gather for SameLines<'_> {
    ghost holds = { λ first it rows. (it.lines ≡ first.lines)
        × Compares (placed_rows 0 it.lines.now) it.at it.is rows };

    fn take(&mut self, row: &Row) -> Result<(), TableError> {
        if self.is {
            if is_line_at(self.lines, self.at, row) {
                self.at += 1;
            } else {
                self.is = false;
            }
        }
        Ok(())
    }
}

/// The steps of a file, how many of them have come, and whether the rows that came are these.
#[derive(Drop)]
pub(crate) struct SameSteps<'a> {
    pub steps: &'a [(u32, u32)],
    pub at: usize,
    pub is: bool,
}

impl Gather for SameSteps<'_> {
    ghost holds = { λ first it rows. (it.steps ≡ first.steps)
        × Compares (map step_pair it.steps.now) it.at it.is rows };

    fn take(&mut self, row: &Row) -> Result<(), TableError> {
        if self.is {
            if is_step_at(self.steps, self.at, row) {
                self.at += 1;
            } else {
                self.is = false;
            }
        }
        Ok(())
    }
}

/// Whether all rows came, and no others.
pub(crate) fn are_all(is: bool, at: usize, count: usize) -> bool
    ensures { result ≡ (is && (at == count)) }
{
    is && at == count
}

/// Whether the row is the line at this place.
fn is_line_at(lines: &[KeptRow], at: usize, row: &Row) -> bool
    requires { length lines.now ≤ 4294967295 }
    ensures { IsTrue result ↔ ((at < length lines.now) × (get_or (placed_rows 0 lines.now) at [] ≡ row.now)) }
{
    match lines.get(at) {
        Some(line) => is_line(row, at as u32, line),
        None => false,
    }
}

fn is_line(row: &Row, at: u32, line: &KeptRow) -> bool
    ensures { IsTrue result ↔ (row.now ≡ placed_row at line.now) }
{
    let values = [
        at.to_sql(),
        ValueRef::Text(line.group.as_slice()),
        u32::from(line.kind).to_sql(),
        ValueRef::Blob(line.line.as_slice()),
    ];
    is_row(row, &values)
}

/// Whether the row is the step at this place.
fn is_step_at(steps: &[(u32, u32)], at: usize, row: &Row) -> bool
    ensures { IsTrue result ↔ ((at < length steps.now) × (get_or (map step_pair steps.now) at [] ≡ row.now)) }
{
    match steps.get(at) {
        Some(step) => is_step(row, *step),
        None => false,
    }
}

fn is_step(row: &Row, step: (u32, u32)) -> bool
    ensures { IsTrue result ↔ (row.now ≡ step_pair step) }
{
    is_row(row, &[step.0.to_sql(), step.1.to_sql()])
}
