//! Reads the steps that are kept of a deposit, between its DATA rows.

ghost use Rattle.std.specs.Prelude.{◌≡◌, IfOk};
ghost use Rattle.sqlite.specs.Held.{state};
ghost use Rattle.reg_tables.specs.Private.Errors.{database_fails};
ghost use Rattle.reg_tables.specs.Private.Methods.{HasSteps, HoldsSteps};
ghost use Rattle.reg_tables.specs.Quiet.{FindsThat, IsIdle, IsStill};
ghost use Rattle.reg_tables.specs.Rows.{step_table};
ghost use Rattle.reg_tables.specs.Private.Found.{OfSteps};

use crate::error::TableError;
use crate::read::gather::take_shown;
use crate::read::rows::KeptSteps;
use ags_links::Graph;
use sqlite::{Alter, Connection, params};
use std::alloc::Global;

/// The steps that are kept of a deposit, between its DATA rows, of which there are so many.
pub(crate) fn read_graph<S: Alter>(
    conn: &mut Connection<S>,
    alloc: Global,
    number: u32,
    rows: u32,
) -> Result<Graph, TableError>
    requires idle { IsIdle (state S.Store conn.old) }
    ensures rows { IfOk result (λ graph. graph.rows ≡ rows) }
    ensures steps { FindsThat result (λ db graph. HasSteps number (step_table db.trees) graph.steps)
        (state S.Store conn.old) (state S.Store conn.new) }
    ensures quiet { IsStill (state S.Store conn.old) (state S.Store conn.new) (database_fails result) }
{
    let steps = read_steps(conn, alloc, number)?;
    graph_of(rows, steps)
}

/// The steps that are kept of a deposit.
fn read_steps<S: Alter>(
    conn: &mut Connection<S>,
    alloc: Global,
    number: u32,
) -> Result<Vec<(u32, u32)>, TableError>
    requires idle { IsIdle (state S.Store conn.old) }
    ensures found { OfSteps result number (λ steps read. read.items ≡ steps)
        (state S.Store conn.old) (state S.Store conn.new) }
    ensures held { FindsThat result (λ db read. HoldsSteps db number read.items)
        (state S.Store conn.old) (state S.Store conn.new) }
    ensures quiet { IsStill (state S.Store conn.old) (state S.Store conn.new) (database_fails result) }
{
    let mut steps = KeptSteps {
        steps: Vec::new(alloc),
    };
    take_shown(
        conn,
        "SELECT child, target FROM steps WHERE deposit = ?1 ORDER BY child, target",
        params![number],
        &mut steps,
    )?;
    Ok(steps.steps)
}

/// A graph of so many rows with these steps, where each lies between two of them.
fn graph_of(rows: u32, steps: Vec<(u32, u32)>) -> Result<Graph, TableError>
    ensures rows { IfOk result (λ graph. graph.rows ≡ rows) }
    ensures steps { IfOk result (λ graph. graph.steps ≡ steps.items) }
{
    match Graph::new(rows, steps) {
        Some(graph) => Ok(graph),
        None => Err(TableError::Store),
    }
}
