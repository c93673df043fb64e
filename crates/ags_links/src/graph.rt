//! Numbered rows and the steps between them.

ghost use Rattle.std.specs.Prelude.{◌≡◌, ◌<◌, ◌↔◌, ◌^◌, ◌++◌, ℕ, List, IfOk, IfSome, IsSome, OnOk, length, map};
ghost use Rattle.ags_links.specs.DataRows.{ListsRows};
ghost use Rattle.ags_links.specs.Indexing.{rows_in};
ghost use Rattle.ags_links.specs.Steps.{IsGraphOf, StepAt};
ghost use Rattle.ags_links.specs.Walks.{StepGraph};

use crate::index::Index;
use crate::steps::{least_stepped_to, rows_stepped_to};
use std::alloc::{AllocError, Global};
use std::marker::Model;

/// Rows numbered from 0, and the steps between them: from a row to its parents, and to what its links name.
#[derive(Drop)]
pub struct Graph {
    rows: u32,
    steps: Vec<(u32, u32)>,
}

impl Model for Graph {
    ghost use Rattle.ags_links.specs.Walks.{StepGraph, InRange};

    ghost Value = { StepGraph };

    ghost view = { λ g. record { rows = g.rows; steps = g.steps.items } };

    ghost invariant = { λ g. InRange g.rows g.steps.items };
}

impl Graph {
    ghost use Rattle.ags_links.specs.Steps.{IsGraphOf};
    ghost use Rattle.ags_links.specs.Walks.{InRange};

    /// The rows below `rows` with these steps, each from its first row to its second; None where a number is
    /// not below `rows`. A step listed twice counts twice.
    pub fn new(rows: u32, steps: Vec<(u32, u32)>) -> Option<Graph>
        ensures some { IsSome result ↔ InRange rows steps.items }
        ensures value { IfSome result (λ g. (g.rows ≡ rows) × (g.steps ≡ steps.items)) }
    {
        for &(row, target) in &steps {
            if row >= rows || target >= rows {
                return None;
            }
        }
        Some(Graph { rows, steps })
    }

    /// The rows of a file, and all steps between them, sorted, each once. Too many steps are refused before they are
    /// counted, and they are counted before they are listed.
    pub fn of(alloc: Global, index: &Index<'_, '_, '_>) -> Result<Graph, AllocError>
        ensures { IfOk result (IsGraphOf index.now) }
    {
        try_room(alloc, index)?;
        let rows = index.row_count();
        let mut steps = Vec::with_capacity(alloc, step_count(alloc, index)?)?;
        for row in 0..rows {
            let targets = rows_stepped_to(alloc, index, row)?;
            add_steps(&mut steps, row, targets.rows())?;
        }
        Ok(Graph { rows, steps })
    }

    /// How many rows there are.
    pub fn rows(&self) -> u32
        ensures { result ≡ self.now.rows }
    {
        self.rows
    }

    /// The steps as they were given, in their order.
    pub fn steps(&self) -> &[(u32, u32)]
        ensures steps { result.now ≡ self.now.steps }
        ensures in_range { InRange self.now.rows self.now.steps }
        ensures few { self.now.rows < 2 ^ 32 }
    {
        // reading the count brings what is known of it into the proof
        let _rows = self.rows;
        &self.steps
    }
}

/// Bytes of memory that are asked for a step before the steps are counted. Here a step takes 8. Whoever keeps the file
/// takes more for it, and would be out of memory later.
const STEP_ROOM: usize = 128;

/// Asks for the memory that the steps of a file take at least, and gives it back. To count the steps of a row takes the
/// time of their list, so a file of too many steps is refused before.
fn try_room(alloc: Global, index: &Index<'_, '_, '_>) -> Result<(), AllocError> {
    let mut least: usize = 0;
    for row in 0..index.row_count() {
        least = least.saturating_add(least_stepped_to(index, row)?);
    }
    let _room: Vec<u8> = Vec::with_capacity(alloc, least.saturating_mul(STEP_ROOM))?;
    Ok(())
}

/// How many steps the rows of a file have.
pub fn step_count(alloc: Global, index: &Index<'_, '_, '_>) -> Result<usize, AllocError>
    ensures { IfOk result (λ count. (graph : StepGraph) × IsGraphOf index.now graph × (count ≡ length graph.steps)) }
{
    let mut count = 0;
    for row in 0..index.row_count() {
        count += count_from(alloc, index, row)?;
    }
    Ok(count)
}

/// How many steps a row has.
fn count_from(alloc: Global, index: &Index<'_, '_, '_>, row: u32) -> Result<usize, AllocError>
    requires row { row < length (rows_in index.now) }
    requires rows { length (rows_in index.now) < 2 ^ 32 }
    ensures steps { IfOk result (λ count.
        (rows : List ℕ) × ListsRows rows (StepAt index.now row) × (count ≡ length rows)) }
    ensures few { IfOk result (λ count. count < 2 ^ 32) }
{
    let targets = rows_stepped_to(alloc, index, row)?;
    Ok(targets.rows().len())
}

/// Adds a step from the row to each target.
fn add_steps(steps: &mut Vec<(u32, u32)>, row: u32, targets: &[u32]) -> Result<(), AllocError>
    ensures { OnOk result (steps.new.items ≡ steps.old.items ++ map (λ target. (row, target)) targets.now) }
{
    for target in targets {
        steps.push((row, *target))?;
    }
    Ok(())
}
