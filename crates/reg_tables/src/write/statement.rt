//! A statement inside a transaction.

ghost use Rattle.std.specs.Prelude.{◌≡◌};
ghost use Rattle.sqlite.specs.Values.{bound};
ghost use Rattle.sqlite.specs.State.{Survives};
ghost use Rattle.reg_tables.specs.Private.Inside.{CommitsNothing, HasTransaction, RunsInside, state_in};

use sqlite::types::ValueRef;
use sqlite::{Alter, Error, Transaction};

/// Runs a statement inside a transaction. Nothing is committed.
#[tactic(auto, using(crate::proofs::AddsLemmas::kept_by))]
pub(crate) fn run<S: Alter>(
    tx: &mut Transaction<'_, S>,
    sql: &str,
    params: &[ValueRef<'_>],
) -> Result<(), Error>
    requires inside { HasTransaction (state_in S.Store tx.old) }
    ensures same_reference { tx.new.conn.ghost_name ≡ tx.old.conn.ghost_name }
    ensures ran { RunsInside result sql.now (bound params.now) (state_in S.Store tx.old) (state_in S.Store tx.new) }
    ensures kept { CommitsNothing (state_in S.Store tx.old) (state_in S.Store tx.new) }
    ensures survives { Survives (state_in S.Store tx.old) (state_in S.Store tx.new) (λ _. ⊥) }
{
    tx.execute(sql, params)?;
    Ok(())
}
