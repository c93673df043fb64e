//! The tables of a new register.

ghost use Rattle.std.specs.Prelude.{◌≡◌};
ghost use Rattle.sqlite.specs.State.{HasCleanDisk, Survives};
ghost use Rattle.reg_tables.specs.Tables.{first_schema, no_schema};
ghost use Rattle.reg_tables.specs.Private.Inside.{ChangesInside, CommitsNothing, HasSchema, HasTransaction, state_in};
ghost use Rattle.reg_tables.specs.Creates.{HasFirst, HasFour, IsNewRegister, MakesWithdrawals};

use crate::write::change::Change;
use crate::write::statement::run;
use sqlite::{Alter, Error, Transaction, params};

/// The tables of a register without deposits.
#[derive(Drop)]
pub(crate) struct NewTables<'a> {
    pub dictionary: &'a [u8],
}

impl Change for NewTables<'_> {
    ghost from = { λ _. no_schema };

    ghost makes = { λ it _ db. IsNewRegister it.dictionary.now db };

    #[tactic(auto, using(crate::proofs::AddsLemmas::kept_then))]
    fn make<S: Alter>(&self, tx: &mut Transaction<'_, S>) -> Result<(), Error> {
        create_first(tx)?;
        create_second(tx)?;
        create_withdrawals(tx)?;
        run(
            tx,
            "INSERT INTO meta VALUES ('format', 2, x''), ('dictionary', 0, ?1)",
            params![self.dictionary],
        )
    }
}

#[tactic(auto, using(crate::proofs::AddsLemmas::kept_then))]
fn create_first<S: Alter>(tx: &mut Transaction<'_, S>) -> Result<(), Error>
    requires inside { HasTransaction (state_in S.Store tx.old) }
    requires schema { HasSchema (state_in S.Store tx.old) no_schema }
    ensures same_reference { tx.new.conn.ghost_name ≡ tx.old.conn.ghost_name }
    ensures made { ChangesInside result (λ _ db. HasFirst db) (state_in S.Store tx.old) (state_in S.Store tx.new) }
    ensures kept { CommitsNothing (state_in S.Store tx.old) (state_in S.Store tx.new) }
    ensures survives { Survives (state_in S.Store tx.old) (state_in S.Store tx.new) (λ _. ⊥) }
{
    run(
        tx,
        "CREATE TABLE meta (name TEXT NOT NULL PRIMARY KEY, num INTEGER NOT NULL, body BLOB NOT NULL) STRICT",
        &[],
    )?;
    run(
        tx,
        "CREATE TABLE deposits (number INTEGER PRIMARY KEY DESC, firm TEXT NOT NULL, project TEXT NOT NULL, embargo INTEGER NOT NULL, body BLOB NOT NULL) STRICT",
        &[],
    )
}

#[tactic(auto, using(crate::proofs::AddsLemmas::kept_then))]
fn create_second<S: Alter>(tx: &mut Transaction<'_, S>) -> Result<(), Error>
    requires inside { HasTransaction (state_in S.Store tx.old) }
    requires first { HasCleanDisk (state_in S.Store tx.old) → HasFirst (state_in S.Store tx.old).now }
    ensures same_reference { tx.new.conn.ghost_name ≡ tx.old.conn.ghost_name }
    ensures made { ChangesInside result (λ _ db. HasFour db) (state_in S.Store tx.old) (state_in S.Store tx.new) }
    ensures kept { CommitsNothing (state_in S.Store tx.old) (state_in S.Store tx.new) }
    ensures survives { Survives (state_in S.Store tx.old) (state_in S.Store tx.new) (λ _. ⊥) }
{
    run(
        tx,
        "CREATE TABLE lines (deposit INTEGER NOT NULL REFERENCES deposits (number), seq INTEGER NOT NULL, grp TEXT NOT NULL, kind INTEGER NOT NULL, line BLOB NOT NULL, PRIMARY KEY (deposit, seq)) STRICT",
        &[],
    )?;
    run(
        tx,
        "CREATE TABLE steps (deposit INTEGER NOT NULL REFERENCES deposits (number), child INTEGER NOT NULL, target INTEGER NOT NULL, PRIMARY KEY (deposit, child, target)) STRICT",
        &[],
    )
}

/// Makes the table that format 2 has and format 1 has not. Nothing is committed.
pub(crate) fn create_withdrawals<S: Alter>(tx: &mut Transaction<'_, S>) -> Result<(), Error>
    requires inside { HasTransaction (state_in S.Store tx.old) }
    requires schema { HasSchema (state_in S.Store tx.old) first_schema }
    ensures same_reference { tx.new.conn.ghost_name ≡ tx.old.conn.ghost_name }
    ensures made { ChangesInside result MakesWithdrawals (state_in S.Store tx.old) (state_in S.Store tx.new) }
    ensures kept { CommitsNothing (state_in S.Store tx.old) (state_in S.Store tx.new) }
    ensures survives { Survives (state_in S.Store tx.old) (state_in S.Store tx.new) (λ _. ⊥) }
{
    run(
        tx,
        "CREATE TABLE withdrawals (deposit INTEGER PRIMARY KEY REFERENCES deposits (number)) STRICT",
        &[],
    )
}
