//! What is known of a deposit's file without the tables.

ghost use Rattle.std.specs.Prelude.{◌≡◌, IfOk};
ghost use Rattle.reg_store.specs.Fit.{kept_rows};
ghost use Rattle.reg_tables.specs.Private.Heads.{IsKnownOf};

use crate::memory::room::Size;
use ags_check::Checked;
use reg_store::{HeadedRow, KeptRow, project_rows_in};
use std::alloc::{AllocError, Global};

/// What is known of a deposit's file.
#[derive(Drop)]
pub(crate) struct KnownFile {
    pub size: Size,
    /// Its row of PROJ and the rows that it reaches.
    pub project: Vec<HeadedRow>,
}

impl KnownFile {
    /// What is known of a checked file, of which these are the rows that are kept.
    pub(crate) fn of(
        alloc: Global,
        file: &Checked<'_>,
        rows: &[KeptRow],
    ) -> Result<KnownFile, AllocError>
        requires { rows.now ≡ kept_rows file.now.groups }
        ensures { IfOk result (IsKnownOf file.now) }
    {
        let project = project_rows_in(alloc, rows, file.graph())?;
        Ok(KnownFile {
            size: Size::of(file, file.bytes().len(), bytes_held(&project)),
            project,
        })
    }
}

/// The bytes of memory that the rows take at most.
fn bytes_held(rows: &[HeadedRow]) -> usize {
    let mut bytes: usize = 0;
    for row in rows {
        bytes = bytes
            .saturating_add(OF_ROW)
            .saturating_add(row.group.as_slice().len())
            .saturating_add(row.headings.as_slice().len())
            .saturating_add(row.line.as_slice().len());
    }
    bytes
}

/// The bytes of memory that a row takes beside its own.
const OF_ROW: usize = 216;
