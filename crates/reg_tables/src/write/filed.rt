//! A deposit with its rows and steps, added in one transaction.

ghost use Rattle.std.specs.Prelude.{◌≡◌, ◌<◌, ◌^◌, length};
ghost use Rattle.sqlite.specs.State.{Survives};
ghost use Rattle.reg_tables.specs.Tables.{register_schema};
ghost use Rattle.reg_tables.specs.Private.Inside.{ChangesInside, CommitsNothing, HasSchema, HasTransaction, state_in};

use crate::write::change::Change;
use crate::write::lines::insert_lines;
use crate::write::statement::run;
use crate::write::steps::insert_steps;
use reg_store::KeptRow;
use sqlite::{Alter, Error, Transaction, params};

/// What is added.
#[derive(Drop)]
pub(crate) struct Filed<'a> {
    pub number: u32,
    pub firm: &'a str,
    pub project: &'a str,
    pub embargo: u32,
    pub body: &'a [u8],
    pub rows: &'a [KeptRow],
    pub steps: &'a [(u32, u32)],
    ghost few: { length rows.now < 2 ^ 32 },
}

impl Change for Filed<'_> {
    ghost use Rattle.reg_tables.specs.Private.Filed.{AddsFiled};

    ghost from = { λ _. register_schema };

    ghost makes = { AddsFiled };

    #[tactic(auto, using(crate::proofs::AddsLemmas::kept_then))]
    fn make<S: Alter>(&self, tx: &mut Transaction<'_, S>) -> Result<(), Error> {
        self.insert_row(tx)?;
        insert_lines(tx, self.number, self.rows)?;
        insert_steps(tx, self.number, self.steps)
    }
}

impl Filed<'_> {
    ghost use Rattle.reg_tables.specs.Private.Filed.{AddsRow};

    /// Adds the row of the deposit. Nothing is committed.
    fn insert_row<S: Alter>(&self, tx: &mut Transaction<'_, S>) -> Result<(), Error>
        requires inside { HasTransaction (state_in S.Store tx.old) }
        requires schema { HasSchema (state_in S.Store tx.old) register_schema }
        ensures same_reference { tx.new.conn.ghost_name ≡ tx.old.conn.ghost_name }
        ensures put { ChangesInside result (AddsRow self.now) (state_in S.Store tx.old) (state_in S.Store tx.new) }
        ensures kept { CommitsNothing (state_in S.Store tx.old) (state_in S.Store tx.new) }
        ensures survives { Survives (state_in S.Store tx.old) (state_in S.Store tx.new) (λ _. ⊥) }
    {
        run(
            tx,
            "INSERT INTO deposits VALUES (?1, ?2, ?3, ?4, ?5)",
            params![
                self.number,
                self.firm,
                self.project,
                self.embargo,
                self.body
            ],
        )
    }
}
