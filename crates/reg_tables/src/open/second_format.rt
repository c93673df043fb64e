//! The tables of format 1 that become those of format 2.

ghost use Rattle.std.specs.Prelude.{◌≡◌, ℕ, List, map, IsTrue};
ghost use Rattle.sqlite.specs.State.{HasCleanDisk, Survives};
ghost use Rattle.reg_tables.specs.Formats.{StartsWithMeta};
ghost use Rattle.reg_tables.specs.Private.Found.{FindsAll};
ghost use Rattle.reg_tables.specs.Private.Inside.{ChangesInside, CommitsNothing, HasSchema, HasTransaction, state_in};
ghost use Rattle.reg_tables.specs.Migrates.{AddsWithdrawals, Migrates};
ghost use Rattle.reg_tables.specs.Register.{meta_columns};
ghost use Rattle.reg_tables.specs.Rows.{columns_3};
ghost use Rattle.reg_tables.specs.Tables.{first_schema};

use crate::open::meta::meta_text;
use crate::open::new_tables::create_withdrawals;
use crate::write::change::Change;
use crate::write::statement::run;
use sqlite::{Alter, Error, Row, Transaction};

/// The table of marks, and the number of the format.
#[derive(Drop)]
pub(crate) struct SecondFormat;

impl Change for SecondFormat {
    ghost from = { λ _. first_schema };

    ghost makes = { λ _. Migrates };

    // No clause of the database says that no two rows have one rowid. So the rows of meta are read again after they
    // were changed.
    #[tactic(auto, using(crate::proofs::AddsLemmas::kept_then))]
    fn make<S: Alter>(&self, tx: &mut Transaction<'_, S>) -> Result<(), Error> {
        let before = read_meta_inside(tx)?;
        add_marks(tx)?;
        let after = read_meta_inside(tx)?;
        if is_raised(&before, &after) {
            Ok(())
        } else {
            Err(Error::InvalidQuery)
        }
    }
}

/// The rows of meta, ordered by name, inside a transaction.
fn read_meta_inside<S: Alter>(tx: &mut Transaction<'_, S>) -> Result<Vec<Row>, Error>
    requires inside { HasTransaction (state_in S.Store tx.old) }
    requires meta { HasCleanDisk (state_in S.Store tx.old) → StartsWithMeta (state_in S.Store tx.old).now.schema }
    ensures same_reference { tx.new.conn.ghost_name ≡ tx.old.conn.ghost_name }
    ensures shown { FindsAll result (λ db. map columns_3 (db.trees 0))
        (state_in S.Store tx.old) (state_in S.Store tx.new) }
    ensures same { ChangesInside result (λ old new. new ≡ old) (state_in S.Store tx.old) (state_in S.Store tx.new) }
    ensures kept { CommitsNothing (state_in S.Store tx.old) (state_in S.Store tx.new) }
    ensures survives { Survives (state_in S.Store tx.old) (state_in S.Store tx.new) (λ _. ⊥) }
{
    tx.query_all("SELECT name, num, body FROM meta ORDER BY name", &[])
}

#[tactic(auto, using(crate::proofs::AddsLemmas::kept_then))]
fn add_marks<S: Alter>(tx: &mut Transaction<'_, S>) -> Result<(), Error>
    requires inside { HasTransaction (state_in S.Store tx.old) }
    requires schema { HasSchema (state_in S.Store tx.old) first_schema }
    ensures same_reference { tx.new.conn.ghost_name ≡ tx.old.conn.ghost_name }
    ensures changed { ChangesInside result AddsWithdrawals (state_in S.Store tx.old) (state_in S.Store tx.new) }
    ensures kept { CommitsNothing (state_in S.Store tx.old) (state_in S.Store tx.new) }
    ensures survives { Survives (state_in S.Store tx.old) (state_in S.Store tx.new) (λ _. ⊥) }
{
    create_withdrawals(tx)?;
    run(tx, "UPDATE meta SET num = 2 WHERE name = 'format'", &[])
}

/// Whether the number of the format was 1 and is 2, and the dictionary's bytes are the same.
fn is_raised(before: &[Row], after: &[Row]) -> bool
    ensures { IsTrue result → (text : List ℕ) × (before.now ≡ meta_columns 1 text) × (after.now ≡ meta_columns 2 text) }
{
    match (meta_text(before, 1), meta_text(after, 2)) {
        (Some(old), Some(new)) => old == new,
        _ => false,
    }
}
